//! The receiving side of one stream.
#![tactic(auto)]

mod fault;
mod owed;
mod read;
mod recv;

pub use fault::{ClosedStream, FrameFault, ReadError, ReadableError, Refusal};
pub use recv::{Chunk, Recv};
