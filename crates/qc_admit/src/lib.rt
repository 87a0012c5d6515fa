//! What a packet does that opened: its verdict, its frames, and how the handshake goes on behind them.
#![tactic(auto)]

mod admitting;
mod behind;
mod frames;
mod handshake;
mod payloads;
mod stops;

pub use admitting::{received, received_in};
pub use frames::left;
