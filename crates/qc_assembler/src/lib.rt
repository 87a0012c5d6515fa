//! Bytes that come at offsets in any order, and are read in order or as they come.
#![tactic(auto)]

mod ahead;
mod assembler;
mod chain;
mod front;
mod insert;
mod laws;
mod parts;
mod waiting;

pub use assembler::Assembler;
pub use insert::{InsertError, MAX_PARTS};
pub use laws::reads_what_came;
