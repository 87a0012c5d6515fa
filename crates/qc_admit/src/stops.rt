//! The errors with which frames stop their packets by their kinds.

ghost use Rattle.std.specs.Prelude.{◌≡◌, Some, None, ◌||◌, ◌&&◌, nat_le, if◌then◌else◌};
ghost use Rattle.qc_frame.specs.Frame.{ack_map, borrowed};
ghost use Rattle.qc_state.specs.Acks.{acknowledges, acknowledges_any};
ghost use Rattle.qc_state.specs.Receiving.{data_stop, done_stop, frame_stop, stop_in, token_stop};
ghost use Rattle.qc_state.specs.Stopping.{encoding_error_at, violation_at};

use qc_base::{NumberRange, Side, SpaceId, TransportError, TransportErrorCode};
use qc_core::stopping::error_at;
use qc_frame::{Ack, Frame, FrameOf};

/// The error with which an ACK of numbers up to `largest` stops its packet, if it does, where this end's next number is `next`.
fn ack_stop(next: u64, largest: u64) -> Option<TransportError>
    ensures { result ≡ (if nat_le next largest then Some (violation_at None) else None) }
{
    if next <= largest {
        return Some(error_at(TransportErrorCode::PROTOCOL_VIOLATION, None));
    }
    None
}

/// Whether a number is one of a range.
fn is_within(range: NumberRange, number: u64) -> bool
    ensures { result ≡ (nat_le range.first number && nat_le number range.last) }
{
    range.first <= number && number <= range.last
}

/// Whether an ACK acknowledges a number.
fn acknowledges(ack: &Ack<'_>, number: u64) -> bool
    ensures { result ≡ acknowledges (ack_map (λ bytes. bytes.now) ack.now) number }
{
    for range in ack.ranges() {
        if is_within(range, number) {
            return true;
        }
    }
    false
}

/// Whether it acknowledges this number, where there is one.
fn acknowledges_any(ack: &Ack<'_>, number: Option<u64>) -> bool
    ensures { result ≡ acknowledges_any (ack_map (λ bytes. bytes.now) ack.now) number }
{
    match number {
        None => false,
        Some(number) => acknowledges(ack, number),
    }
}

/// The error with which an ACK stops a 1-RTT packet, if it does: it also does where it acknowledges the number that was skipped last
/// (RFC 9000, 21.4).
fn data_ack_stop(next: u64, skipped: Option<u64>, ack: &Ack<'_>) -> Option<TransportError>
    ensures { result ≡ (if nat_le next ack.now.largest || acknowledges_any (ack_map (λ bytes. bytes.now) ack.now) skipped then Some (violation_at None) else None) }
{
    if acknowledges_any(ack, skipped) {
        return Some(error_at(TransportErrorCode::PROTOCOL_VIOLATION, None));
    }
    ack_stop(next, ack.largest)
}

/// The error with which a frame of this type stops an Initial or Handshake packet by its kind, if it does, where this end's
/// next number is `next`.
fn frame_stop(next: u64, ty: u64, frame: &Frame<'_>) -> Option<TransportError>
    ensures { result ≡ frame_stop next ty (borrowed frame.now) }
{
    match frame {
        FrameOf::Padding
        | FrameOf::Ping
        | FrameOf::Crypto { .. }
        | FrameOf::ConnectionClose { .. }
        | FrameOf::ApplicationClose { .. } => None,
        FrameOf::Ack(ack) => ack_stop(next, ack.largest),
        _ => Some(error_at(TransportErrorCode::PROTOCOL_VIOLATION, Some(ty))),
    }
}

/// The error with which a HANDSHAKE_DONE stops its packet, if it does: a server doesn't expect one.
fn done_stop(side: Side) -> Option<TransportError>
    ensures { result ≡ done_stop side }
{
    match side {
        Side::Client => None,
        Side::Server => Some(error_at(TransportErrorCode::PROTOCOL_VIOLATION, None)),
    }
}

/// The error with which a NEW_TOKEN stops its packet, if it does: a client takes one whose token has bytes, and a server doesn't expect one
/// (RFC 9000, 19.7).
fn token_stop(side: Side, token: &[u8]) -> Option<TransportError>
    ensures { result ≡ token_stop side token.now }
{
    match side {
        Side::Client => {
            if token.is_empty() {
                return Some(error_at(TransportErrorCode::FRAME_ENCODING_ERROR, None));
            }
            None
        }
        Side::Server => Some(error_at(TransportErrorCode::PROTOCOL_VIOLATION, None)),
    }
}

/// The same in a 1-RTT packet that an end of this side receives, which skipped the number `skipped` last: an ACK of that number stops
/// it, and frames of kinds that aren't taken so far do.
fn data_stop(
    side: Side,
    next: u64,
    skipped: Option<u64>,
    ty: u64,
    frame: &Frame<'_>,
) -> Option<TransportError>
    ensures { result ≡ data_stop side next skipped ty (borrowed frame.now) }
{
    match frame {
        FrameOf::Padding
        | FrameOf::Ping
        | FrameOf::Crypto { .. }
        | FrameOf::ResetStream { .. }
        | FrameOf::StopSending { .. }
        | FrameOf::Stream { .. }
        | FrameOf::MaxData(_)
        | FrameOf::MaxStreamData { .. }
        | FrameOf::MaxStreams { .. }
        | FrameOf::DataBlocked { .. }
        | FrameOf::StreamDataBlocked { .. }
        | FrameOf::StreamsBlocked { .. }
        | FrameOf::Datagram { .. }
        | FrameOf::NewConnectionId(_)
        | FrameOf::RetireConnectionId { .. }
        | FrameOf::ConnectionClose { .. }
        | FrameOf::ApplicationClose { .. } => None,
        FrameOf::HandshakeDone => done_stop(side),
        FrameOf::NewToken { token } => token_stop(side, token),
        FrameOf::Ack(ack) => data_ack_stop(next, skipped, ack),
        _ => Some(error_at(TransportErrorCode::INTERNAL_ERROR, Some(ty))),
    }
}

/// The same by the space of the packet.
pub(crate) fn stop_in(
    side: Side,
    space: SpaceId,
    next: u64,
    skipped: Option<u64>,
    ty: u64,
    frame: &Frame<'_>,
) -> Option<TransportError>
    ensures { result ≡ stop_in side space next skipped ty (borrowed frame.now) }
{
    match space {
        SpaceId::Initial | SpaceId::Handshake => frame_stop(next, ty, frame),
        SpaceId::Data => data_stop(side, next, skipped, ty, frame),
    }
}
