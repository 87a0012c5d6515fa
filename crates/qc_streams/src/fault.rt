//! Why a frame is refused.

ghost use Rattle.std.specs.Prelude.{◌≡◌};
ghost use Rattle.qc_streams.specs.Refusals.{code_of};
ghost use Rattle.qc_streams.specs.Views.{finish_error, write_error};

use qc_base::{TransportErrorCode, VarInt};
use qc_recv::Refusal as SideRefusal;
use qc_send_stream::{FinishError as SideFinish, WriteError as SideWrite};
use thiserror::Error;

/// Why a frame is refused.
#[derive(Clone, Copy, Debug, PartialEq, Eq)]
pub enum Refusal {
    /// The stream has no such side or this end hasn't opened it (RFC 9000, sections 19.4 to 19.13).
    State,
    /// The peer may not open the stream (RFC 9000, section 4.6).
    Limit,
    /// A number of streams exceeds 2^60 (RFC 9000, sections 19.11 and 19.14).
    Encoding,
    /// The stream's receiving side refuses it.
    Side(SideRefusal),
}

impl Refusal {
    /// The code that the connection closes with (RFC 9000, section 20.1).
    pub fn code(self) -> TransportErrorCode
        ensures { result ≡ code_of self }
    {
        match self {
            Refusal::State => TransportErrorCode::STREAM_STATE_ERROR,
            Refusal::Limit => TransportErrorCode::STREAM_LIMIT_ERROR,
            Refusal::Encoding => TransportErrorCode::FRAME_ENCODING_ERROR,
            Refusal::Side(refusal) => refusal.code(),
        }
    }
}

/// Why a frame wasn't taken.
#[derive(Clone, Copy, Debug, PartialEq, Eq)]
pub enum StreamFault {
    /// The frame is refused.
    Refused(Refusal),
    /// Memory ran out.
    OutOfMemory,
}

/// The stream is unknown or closed to the application.
#[derive(Clone, Copy, Debug, PartialEq, Eq)]
pub struct ClosedStream;

/// Why a read gives no chunk and no end.
#[derive(Clone, Copy, Debug, PartialEq, Eq)]
pub enum ReadFault {
    /// The stream is unknown or stopped or its end or its reset was told.
    ClosedStream,
    /// The stream was read out of order before.
    IllegalOrderedRead,
    /// The peer reset the stream with this code.
    Reset(VarInt),
    /// No byte that can be read has come.
    Blocked,
    /// Memory ran out.
    OutOfMemory,
}

/// Why a write takes no bytes.
#[derive(Clone, Copy, Debug, PartialEq, Eq, Error)]
pub enum WriteError {
    /// The connection is closed or nothing is left of its credit or of the send window or of the
    /// stream's credit (RFC 9000, section 4.1).
    #[error("blocked")]
    Blocked,
    /// The stream is unknown or it is finished or reset.
    #[error("closed stream")]
    ClosedStream,
    /// The peer stopped the stream with this code (RFC 9000, section 3.5).
    #[error("stopped")]
    Stopped(VarInt),
    /// Memory ran out in this call and the connection has failed.
    #[error("out of memory")]
    OutOfMemory,
    /// The connection had failed before this call.
    #[error("failed")]
    Failed,
}

/// Why a stream can't be finished.
#[derive(Clone, Copy, Debug, PartialEq, Eq, Error)]
pub enum FinishError {
    /// The stream is unknown or it is finished or reset.
    #[error("closed stream")]
    ClosedStream,
    /// The peer stopped the stream with this code (RFC 9000, section 3.5).
    #[error("stopped")]
    Stopped(VarInt),
}

/// Why a read gives no chunk and no end.
#[derive(Clone, Copy, Debug, PartialEq, Eq)]
pub enum ReadError {
    /// The peer reset the stream with this code (RFC 9000, section 3.2).
    Reset(VarInt),
    /// No byte that can be read has come.
    Blocked,
    /// Memory ran out in this call and the connection has failed.
    OutOfMemory,
    /// The connection had failed before this call.
    Failed,
}

/// Why a write takes no bytes, as the application is told.
pub(crate) fn write_error(error: SideWrite) -> WriteError
    ensures { result ≡ write_error error }
{
    match error {
        SideWrite::Blocked => WriteError::Blocked,
        SideWrite::ClosedStream => WriteError::ClosedStream,
        SideWrite::Stopped(code) => WriteError::Stopped(code),
        SideWrite::OutOfMemory => WriteError::OutOfMemory,
    }
}

/// Why a stream can't be finished, as the application is told.
pub(crate) fn finish_error(error: SideFinish) -> FinishError
    ensures { result ≡ finish_error error }
{
    match error {
        SideFinish::ClosedStream => FinishError::ClosedStream,
        SideFinish::Stopped(code) => FinishError::Stopped(code),
    }
}
