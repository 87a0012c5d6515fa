//! What a connection keeps of its packets and its path, and how it is set up (RFC 9002).

#![tactic(auto)]

mod ack;
mod acking;
mod burst;
mod calls;
mod ecn;
mod idle_timeout;
mod laws;
mod limits;
mod losses;
mod mtu_config;
mod path;
mod persistent;
mod power;
mod recovery;
mod space;
mod telling;
mod transport_config;

pub use calls::{AckValues, Around, Fired, Settled};
pub use idle_timeout::IdleTimeout;
pub use laws::{
    acked_numbers_are_acknowledged, losses_are_told_once, packets_are_settled_once,
    runs_settle_once, unknown_numbers_change_little,
};
pub use mtu_config::MtuDiscoveryConfig;
pub use path::{PathData, first_mtu};
pub use recovery::Recovery;
pub use transport_config::TransportConfig;
