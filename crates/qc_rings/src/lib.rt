//! The 1-RTT keys of one end, epoch by epoch (RFC 9001, section 6), and two ends that update them.
#![tactic(auto)]

mod ends;
mod key_ring;
mod keyed_end;
mod laws;
mod pair;
mod previous;
mod sealed_packet;
mod which;

pub use ends::{PairLog, ring_pair};
pub use key_ring::KeyRing;
pub use laws::{
    ends_in_step_agree, ends_stay_in_step, ends_stay_in_step_by_parts, epochs_stay_below_numbers,
    keys_are_of_epochs,
};
pub use pair::{PairOutcome, RingEvent};
pub use which::Which;
