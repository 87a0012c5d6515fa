//! The close that is sent.

ghost use Rattle.std.specs.Prelude.{◌≡◌, ◌+◌, ◌-◌, ◌<◌, ◌≤◌, ◌^◌, ◌++◌, ◌||◌, [], ◌∷◌, None, if◌then◌else◌, IfOk};
ghost use Rattle.qc_base.specs.declared.side.SpaceId.TheVariants.{Initial};
ghost use Rattle.qc_frame.specs.Frame.{owned};
ghost use Rattle.qc_state.specs.Sending.{told_code, told_type, told_application_code, application_close, closing_frame, IsKeptReason, close_frame};

use bytes::Bytes;
use qc_base::{SpaceId, TransportErrorCode, VarInt};
use qc_core::Core;
use qc_frame::{FrameOf, OwnedFrame, fit_application_reason};
use qc_state::{Close, Suite};
use std::alloc::{AllocError, Global};

/// A code as a close tells it: INTERNAL_ERROR in place of one that has no room in its field (RFC 9000, 16).
fn code_told(code: TransportErrorCode) -> TransportErrorCode
    ensures { result ≡ told_code code }
{
    if code.into_inner() < 1 << 62 {
        return code;
    }
    TransportErrorCode::INTERNAL_ERROR
}

/// The type of a frame as a close tells it: none for 0, which stands for none, and for one that has no room in its field.
fn type_told(frame_type: Option<u64>) -> Option<u64>
    ensures { result ≡ told_type frame_type }
{
    match frame_type {
        Some(number) => {
            if number == 0 || number >= 1 << 62 {
                return None;
            }
            Some(number)
        }
        None => None,
    }
}

/// The code of an application's close as it is told: 0 in place of one that has no room in its field.
fn application_code_told(code: VarInt) -> VarInt
    ensures { result ≡ told_application_code code }
{
    if code.into_inner() < 1 << 62 {
        return code;
    }
    VarInt::from_u32(0)
}

/// A close with this code and type of frame, without a reason in words.
fn close_frame(error_code: TransportErrorCode, frame_type: Option<u64>) -> OwnedFrame
    ensures { owned result ≡ close_frame error_code frame_type }
{
    FrameOf::ConnectionClose {
        error_code,
        frame_type,
        reason: Bytes::new(),
    }
}

/// The application's close with so much of its reason, in a packet of this space: before the handshake is over the peer is
/// only told that the application closed (RFC 9000, section 10.2.3). Want of memory is the only refusal.
fn application_close(
    alloc: Global,
    space: SpaceId,
    error_code: VarInt,
    kept: &[u8],
) -> Result<OwnedFrame, AllocError>
    ensures { IfOk result (λ frame. owned frame ≡ application_close space error_code kept.now) }
{
    match space {
        SpaceId::Initial | SpaceId::Handshake => {
            Ok(close_frame(TransportErrorCode::APPLICATION_ERROR, None))
        }
        SpaceId::Data => {
            let error_code = application_code_told(error_code);
            let reason = Bytes::copy_from_slice(alloc, kept)?;
            Ok(FrameOf::ApplicationClose { error_code, reason })
        }
    }
}

/// The longest front of the application's reason with which its close has at most `room` bytes; no byte where this end
/// doesn't close for the application.
pub(crate) fn kept_reason<U: Suite>(core: &Core<U>, room: usize) -> &[u8]
    ensures { IsKeptReason room result.now core.now.life.close }
{
    match &core.life.close {
        Some(Close::Application(close)) => {
            let code = application_code_told(close.error_code);
            fit_application_reason(code, close.reason.as_slice(), room)
        }
        Some(Close::Connection(_)) | None => &[],
    }
}

/// The close that is sent in a packet of this space, with so much of the application's reason: this end's own until the
/// peer has closed too, and then one without an error. Want of memory is the only refusal.
pub(crate) fn closing_frame<U: Suite>(
    core: &Core<U>,
    alloc: Global,
    space: SpaceId,
    kept: &[u8],
) -> Result<OwnedFrame, AllocError>
    ensures { IfOk result (λ frame. owned frame ≡ closing_frame space kept.now core.now.life) }
{
    if !core.life.is_closed() {
        return Ok(close_frame(TransportErrorCode::NO_ERROR, None));
    }
    match &core.life.close {
        None => Ok(close_frame(TransportErrorCode::NO_ERROR, None)),
        Some(Close::Connection(close)) => {
            let code = code_told(close.error_code);
            Ok(close_frame(code, type_told(close.frame_type)))
        }
        Some(Close::Application(close)) => {
            application_close(alloc, space, close.error_code, kept)
        }
    }
}
