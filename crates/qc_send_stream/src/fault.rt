//! Why bytes aren't taken, and why a stream can't be finished or reset.

use qc_base::VarInt;

/// Why a write takes no bytes.
#[derive(Clone, Copy, Debug, PartialEq, Eq)]
pub enum WriteError {
    /// There is no budget, or the peer's limit for the stream is reached (RFC 9000, section 4.1).
    Blocked,
    /// The stream was finished or reset.
    ClosedStream,
    /// The peer stopped the stream, with this code (RFC 9000, section 3.5).
    Stopped(VarInt),
    /// Memory ran out.
    OutOfMemory,
}

/// Why a stream can't be finished.
#[derive(Clone, Copy, Debug, PartialEq, Eq)]
pub enum FinishError {
    /// The stream was finished or reset.
    ClosedStream,
    /// The peer stopped the stream, with this code (RFC 9000, section 3.5).
    Stopped(VarInt),
}

/// The stream was reset before.
#[derive(Clone, Copy, Debug, PartialEq, Eq)]
pub struct ClosedStream;
