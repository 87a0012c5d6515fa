//! Why a frame is refused, and why a read gives nothing.

ghost use Rattle.std.specs.Prelude.{◌≡◌};
ghost use Rattle.qc_recv.specs.Receiving.{code_of};

use qc_base::{TransportErrorCode, VarInt};

/// Why a frame is refused.
#[derive(Clone, Copy, Debug, PartialEq, Eq)]
pub enum Refusal {
    /// Its end lies at 2^62 or above, or above the stream's or the connection's credit
    /// (RFC 9000, section 4.1).
    FlowControl,
    /// It has bytes past the stream's end, or an end that changes or lies below bytes that came
    /// (RFC 9000, section 4.5).
    FinalSize,
    /// With its bytes too many separate parts would be kept.
    TooManyParts,
}

impl Refusal {
    /// The code that the connection closes with (RFC 9000, section 20.1).
    pub fn code(self) -> TransportErrorCode
        ensures { result ≡ code_of self }
    {
        match self {
            Refusal::FlowControl => TransportErrorCode::FLOW_CONTROL_ERROR,
            Refusal::FinalSize => TransportErrorCode::FINAL_SIZE_ERROR,
            Refusal::TooManyParts => TransportErrorCode::INTERNAL_ERROR,
        }
    }
}

/// Why a frame wasn't taken.
#[derive(Clone, Copy, Debug, PartialEq, Eq)]
pub enum FrameFault {
    /// The frame is refused.
    Refused(Refusal),
    /// Memory ran out.
    OutOfMemory,
}

/// The stream is closed to the application, or unknown.
#[derive(Clone, Copy, Debug, PartialEq, Eq)]
pub struct ClosedStream;

/// Why a stream can't be read.
#[derive(Clone, Copy, Debug, PartialEq, Eq)]
pub enum ReadableError {
    /// The stream is stopped, or its end or its reset was told.
    ClosedStream,
    /// The stream was read out of order before.
    IllegalOrderedRead,
}

/// Why a read gives no chunk and no end.
#[derive(Clone, Copy, Debug, PartialEq, Eq)]
pub enum ReadError {
    /// The peer reset the stream, with this code.
    Reset(VarInt),
    /// No byte that can be read has come.
    Blocked,
    /// Memory ran out.
    OutOfMemory,
}
