//! Connection ids: how this end makes its own, and how each end keeps those of the other (RFC 9000, section
//! 5.1).
#![tactic(auto)]

mod cid_queue;
mod cid_state;
mod expiries;
mod generator;
mod hashed;
mod laws;

pub use cid_queue::{CidQueue, InsertError, KeptCid};
pub use cid_state::CidState;
pub use expiries::CidExpiry;
pub use generator::{ConnectionIdGenerator, InvalidCid, RandomConnectionIdGenerator};
pub use hashed::HashedConnectionIdGenerator;
pub use laws::{issue_laws, queue_laws};
