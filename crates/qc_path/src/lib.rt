//! What one path and one packet number space keep for loss recovery: round trip times, windows,
//! pacing, the search for a larger datagram, numbers that came, and packets in flight (RFC 9002).
#![tactic(auto)]

mod ack_set;
mod black_hole;
mod controller;
mod dedup;
mod filter;
mod mtu;
mod new_reno;
mod pacer;
mod path_responses;
mod pending_acks;
mod rtt;

pub use controller::{Controller, ControllerFactory};
pub use dedup::{Dedup, window_remembers};
pub use filter::PacketNumberFilter;
pub use mtu::{MtuDiscovery, SearchSettings};
pub use new_reno::{NewReno, NewRenoConfig, window_keeps_room};
pub use pacer::{Pacer, PathRate, delay_is_exact};
pub use path_responses::{PathResponse, PathResponses};
pub use pending_acks::{
    Arrival, PendingAcks, acks_are_due, next_bundled_ack_time, numbers_are_kept,
};
pub use rtt::{RttEstimator, estimate_is_bounded};
