//! What a connection sends: one transmit makes the datagrams that are due.
#![tactic(auto)]

mod closing;
mod joining;
mod owing;
mod planning;
mod probing;
mod sealing;
mod sending;
mod taking;

pub use sending::transmit;
