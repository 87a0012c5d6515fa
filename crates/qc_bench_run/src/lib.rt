//! The work of the program `qc_bench`, without its outside: words in, what to print out.
#![tactic(auto)]

mod frames;
mod job;
mod keys;
mod outcome;
mod packets;
mod running;
mod samples;
mod weight;

pub use frames::Tally;
pub use keys::Opened;
pub use outcome::Outcome;
pub use running::run;
