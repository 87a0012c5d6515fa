//! Why a call that takes memory gave up.

/// Why a call gave up that a connection cannot make without memory.
#[derive(Clone, Copy, Debug, PartialEq, Eq)]
pub enum Fault {
    /// Memory ran out in this call; the connection has failed.
    OutOfMemory,
    /// The connection had failed before this call.
    Failed,
}
