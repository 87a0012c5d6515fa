//! What clients and servers are made of.
#![tactic(auto)]

mod client;
mod making;
mod server;

pub use client::{ClientSetup, new_client};
pub use server::{ServerSetup, new_server};
