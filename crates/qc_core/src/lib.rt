//! The core of a connection: its state, the moves that it makes, how it stops, its calls, its timers and its key updates.
#![tactic(auto)]

mod calls;
mod datagrams;
mod handing;
mod identifying;
mod limits;
mod moves;
mod offers;
mod packets;
mod recovering;
mod renewing;
pub mod state;
pub mod stopping;
mod streams;
mod timeouts;
mod updating;

pub use state::Core;
