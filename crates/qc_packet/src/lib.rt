//! Protected packets: opening, sealing (RFC 9001, section 5) and the keys of 1-RTT packets (section 6).
#![tactic(auto)]

mod builder;
mod decrypt;
mod laws;
mod seal;
mod slot;
mod unprotect;

pub use builder::{PacketBuilder, PacketSizes};
pub use decrypt::{DecryptPacketResult, OpenError, OpenKeys, decrypt_packet_body};
pub use laws::{coalesced_packets_arrive, sealed_packet_arrives};
pub use qc_rings::{
    KeyRing, PairLog, PairOutcome, RingEvent, Which, ends_in_step_agree, ends_stay_in_step,
    ends_stay_in_step_by_parts, epochs_stay_below_numbers, keys_are_of_epochs, ring_pair,
};
pub use seal::{NUMBER_LIMIT, seal_padded};
pub use slot::{BuildError, Kill, Slot};
pub use unprotect::{UnprotectHeaderResult, unprotect_header};
