//! Datagrams that wait: those that came, and those that are to be sent (RFC 9221).
#![tactic(auto)]

mod datagrams;
mod laws;
mod queue;
mod size;

pub use datagrams::{DatagramFault, Datagrams, SendRefusal};
pub use laws::gives_what_was_queued;
pub use queue::DatagramQueue;
pub use size::max_size;
