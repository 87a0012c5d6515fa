//! The text of a trace: what `qconn run` prints.
//!
//! First the line `qconn 1`, then for each step its line, its deeds in order, its answer, its
//! events, its endpoint events and its timer, and last the line `end`. Each line is ended by LF,
//! fields are separated by one space, numbers are decimal, bytes are lower-case hex.
#![tactic(auto)]

mod deeds;
mod digits;
mod frames;
mod laws;
mod names;
mod pieces;
mod steps;
mod streams;
mod trace;

pub use laws::given_frames_have_their_names;
pub use pieces::put_number;
pub use trace::{steps_text, trace_text};
