//! What a connection makes of a datagram: its packets are cut and opened one after the other.
#![tactic(auto)]

mod events;
mod opening;
mod receiving;
mod short;
mod unnumbered;

pub use events::{ConnectionEvent, event, first_packet};
pub use receiving::{datagram, first_datagram};
