//! The sending side of one stream.
#![tactic(auto)]

mod buffer;
mod ends;
mod fault;
mod fronts;
mod laws;
mod outcome;
mod parts;
mod segments;
mod send;

pub use buffer::SendBuffer;
pub use fault::{ClosedStream, FinishError, WriteError};
pub use laws::{
    keeps_until_acknowledged, sends_what_was_written, stream_is_sent_until_acknowledged,
};
pub use send::{Part, Reset, SendPart, Standing};
