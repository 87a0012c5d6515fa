//! The program `qconn` without its `main`: words, a source and a sink in, a status out.
//!
//! `run` reads a script from the source, drives the connection that its set lines make by its inputs, and writes the text of
//! the trace to the sink. Standard input and output are a source and a sink, and so are bytes in memory.
#![tactic(auto)]

mod perform;
mod random;
pub mod run;
mod sink;
mod source;
mod standard;
mod token;
mod transfer;

pub use perform::{Toy, script_end};
pub use random::ScriptRandom;
pub use sink::{MemorySink, Sink};
pub use source::{Failed, MemorySource, SliceSource, Source};
pub use standard::{StdSink, StdSource};
