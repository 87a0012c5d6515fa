//! Frames that are handed to the streams: each is one of their own steps, or is refused and changes nothing.

ghost use Rattle.std.specs.Prelude.{◌≡◌, ◌<◌, ◌^◌, None, IfOk, OnOk, option_map};
ghost use Rattle.qc_frame.specs.Frame.{owned};
ghost use Rattle.qc_frame.specs.FrameFits.{Fits};
ghost use Rattle.qc_state.specs.Moves.{told, told_to_streams};
ghost use Rattle.qc_state.specs.Streams.{is_given_to_streams, steps_of_frame, streams_stop};
ghost use Rattle.qc_streams.specs.Refusals.{code_of};
ghost use Rattle.qc_streams.specs.Steps.{Stream, ResetStream, StopSending, MaxStreamData, MaxStreams, MaxData, refusal_of, steps_of};
ghost use Rattle.qc_streams.specs.Waits.{after};

use crate::deeds::{Dids, Layer};
use crate::given::Given;
use bytes::Bytes;
use qc_base::{Dir, StreamId, TransportError, VarInt};
use qc_frame::{FrameOf, OwnedFrame};
use qc_streams::{Refusal, StreamFault, StreamsState};
use std::alloc::AllocError;

/// The error with which a refused frame closes the connection: it names no type of frame.
fn error_of(refusal: Option<Refusal>) -> Option<TransportError>
    ensures { result ≡ option_map (λ r. record { code = code_of r; frame = None }) refusal }
{
    match refusal {
        None => None,
        Some(refusal) => Some(TransportError {
            code: refusal.code(),
            frame: None,
        }),
    }
}

/// A STREAM frame came (RFC 9000, 19.8).
#[tactic(auto, unfolding(qc_streams::specs::Steps::refusal_of, qc_streams::specs::Steps::steps_of, qc_streams::specs::Steps::came, qc_streams::specs::Waits::after, qc_streams::specs::Waits::after_step, qc_streams::specs::Refusals::IsRefusal, qc_streams::specs::Refusals::KeptOn))]
fn hand_stream(
    streams: &mut StreamsState,
    id: StreamId,
    offset: u64,
    body: Bytes,
    fin: bool,
) -> Result<Option<Refusal>, AllocError>
    requires { offset < 2 ^ 62 }
    ensures refusal { IfOk result (λ r. r ≡ refusal_of (Stream id offset body fin) streams.old) }
    ensures leads { OnOk result (streams.new ≡ after (steps_of (Stream id offset body fin) streams.old) streams.old) }
{
    match streams.received(id, offset, body, fin) {
        Ok(()) => Ok(None),
        Err(StreamFault::Refused(refusal)) => Ok(Some(refusal)),
        Err(StreamFault::OutOfMemory) => Err(AllocError),
    }
}

/// A RESET_STREAM frame came (RFC 9000, 19.4).
#[tactic(auto, unfolding(qc_streams::specs::Steps::refusal_of, qc_streams::specs::Steps::steps_of, qc_streams::specs::Steps::came, qc_streams::specs::Waits::after, qc_streams::specs::Waits::after_step, qc_streams::specs::Refusals::IsRefusal, qc_streams::specs::Refusals::KeptOn))]
fn hand_reset(
    streams: &mut StreamsState,
    id: StreamId,
    error_code: VarInt,
    final_size: u64,
) -> Result<Option<Refusal>, AllocError>
    ensures refusal { IfOk result (λ r. r ≡ refusal_of (ResetStream id error_code final_size) streams.old) }
    ensures leads { OnOk result (streams.new ≡ after (steps_of (ResetStream id error_code final_size) streams.old) streams.old) }
{
    match streams.received_reset(id, error_code, final_size) {
        Ok(()) => Ok(None),
        Err(StreamFault::Refused(refusal)) => Ok(Some(refusal)),
        Err(StreamFault::OutOfMemory) => Err(AllocError),
    }
}

/// A STOP_SENDING frame came (RFC 9000, 19.5).
#[tactic(auto, unfolding(qc_streams::specs::Steps::refusal_of, qc_streams::specs::Steps::steps_of, qc_streams::specs::Steps::came, qc_streams::specs::Waits::after, qc_streams::specs::Waits::after_step, qc_streams::specs::Refusals::IsRefusal, qc_streams::specs::Refusals::KeptOn))]
fn hand_stop(
    streams: &mut StreamsState,
    id: StreamId,
    error_code: VarInt,
) -> Result<Option<Refusal>, AllocError>
    ensures refusal { IfOk result (λ r. r ≡ refusal_of (StopSending id error_code) streams.old) }
    ensures leads { OnOk result (streams.new ≡ after (steps_of (StopSending id error_code) streams.old) streams.old) }
{
    match streams.received_stop_sending(id, error_code) {
        Ok(()) => Ok(None),
        Err(StreamFault::Refused(refusal)) => Ok(Some(refusal)),
        Err(StreamFault::OutOfMemory) => Err(AllocError),
    }
}

/// A MAX_STREAM_DATA frame came (RFC 9000, 19.10).
#[tactic(auto, unfolding(qc_streams::specs::Steps::refusal_of, qc_streams::specs::Steps::steps_of, qc_streams::specs::Steps::came, qc_streams::specs::Waits::after, qc_streams::specs::Waits::after_step, qc_streams::specs::Refusals::IsRefusal, qc_streams::specs::Refusals::KeptOn))]
fn hand_stream_limit(
    streams: &mut StreamsState,
    id: StreamId,
    limit: VarInt,
) -> Result<Option<Refusal>, AllocError>
    ensures refusal { IfOk result (λ r. r ≡ refusal_of (MaxStreamData id limit) streams.old) }
    ensures leads { OnOk result (streams.new ≡ after (steps_of (MaxStreamData id limit) streams.old) streams.old) }
{
    match streams.received_max_stream_data(id, limit) {
        Ok(()) => Ok(None),
        Err(StreamFault::Refused(refusal)) => Ok(Some(refusal)),
        Err(StreamFault::OutOfMemory) => Err(AllocError),
    }
}

/// A MAX_STREAMS frame came (RFC 9000, 19.11).
#[tactic(auto, unfolding(qc_streams::specs::Steps::refusal_of, qc_streams::specs::Steps::steps_of, qc_streams::specs::Steps::came, qc_streams::specs::Waits::after, qc_streams::specs::Waits::after_step, qc_streams::specs::Refusals::IsRefusal, qc_streams::specs::Refusals::KeptOn))]
fn hand_streams_limit(
    streams: &mut StreamsState,
    dir: Dir,
    count: u64,
) -> Result<Option<Refusal>, AllocError>
    ensures refusal { IfOk result (λ r. r ≡ refusal_of (MaxStreams dir count) streams.old) }
    ensures leads { OnOk result (streams.new ≡ after (steps_of (MaxStreams dir count) streams.old) streams.old) }
{
    match streams.received_max_streams(dir, count) {
        Ok(()) => Ok(None),
        Err(StreamFault::Refused(refusal)) => Ok(Some(refusal)),
        Err(StreamFault::OutOfMemory) => Err(AllocError),
    }
}

/// A MAX_DATA frame came (RFC 9000, 19.9).
#[tactic(auto, unfolding(qc_streams::specs::Steps::refusal_of, qc_streams::specs::Steps::steps_of, qc_streams::specs::Steps::came, qc_streams::specs::Waits::after, qc_streams::specs::Waits::after_step, qc_streams::specs::Refusals::IsRefusal, qc_streams::specs::Refusals::KeptOn))]
fn hand_limit(streams: &mut StreamsState, limit: VarInt)
    ensures refusal { refusal_of (MaxData limit) streams.old ≡ None }
    ensures leads { streams.new ≡ after (steps_of (MaxData limit) streams.old) streams.old }
{
    streams.received_max_data(limit);
}

/// The streams are handed a frame, if it is about them. Answers the error with which they refuse it, if they do. Want of memory
/// is the only refusal of the call.
#[tactic(auto, unfolding(crate::specs::Streams::streams_stop, crate::specs::Streams::steps_of_frame, qc_frame::specs::FrameFits::Fits, qc_streams::specs::Steps::refusal_of, qc_streams::specs::Steps::steps_of, qc_streams::specs::Steps::came, qc_streams::specs::Waits::after))]
pub(crate) fn hand(
    streams: &mut StreamsState,
    frame: &OwnedFrame,
) -> Result<Option<TransportError>, AllocError>
    requires { Fits (owned frame.now) }
    ensures stop { IfOk result (λ stop. stop ≡ streams_stop (owned frame.now) streams.old) }
    ensures leads { OnOk result (streams.new ≡ after (steps_of_frame (owned frame.now) streams.old) streams.old) }
{
    let refusal = match frame {
        FrameOf::Stream {
            id,
            offset,
            fin,
            body,
        } => {
            let body = body.clone()?;
            hand_stream(streams, *id, *offset, body, *fin)?
        }
        FrameOf::ResetStream {
            id,
            error_code,
            final_size,
        } => hand_reset(streams, *id, *error_code, *final_size)?,
        FrameOf::StopSending { id, error_code } => hand_stop(streams, *id, *error_code)?,
        FrameOf::MaxStreamData { id, offset } => match VarInt::from_u64(*offset) {
            Ok(limit) => hand_stream_limit(streams, *id, limit)?,
            Err(_) => None,
        },
        FrameOf::MaxStreams { dir, count } => hand_streams_limit(streams, *dir, *count)?,
        FrameOf::MaxData(limit) => {
            if let Ok(limit) = VarInt::from_u64(*limit) {
                hand_limit(streams, limit);
            }
            None
        }
        FrameOf::StreamDataBlocked { id, .. } => streams.received_stream_data_blocked(*id),
        FrameOf::StreamsBlocked { limit, .. } => StreamsState::received_streams_blocked(*limit),
        _ => None,
    };
    Ok(error_of(refusal))
}

/// Whether it is told of a frame that the streams or the datagrams are handed: not of one that only says where the peer was blocked.
fn is_given(frame: &OwnedFrame) -> bool
    ensures { result ≡ is_given_to_streams (owned frame.now) }
{
    match frame {
        FrameOf::ResetStream { .. }
        | FrameOf::StopSending { .. }
        | FrameOf::Stream { .. }
        | FrameOf::MaxData(_)
        | FrameOf::MaxStreamData { .. }
        | FrameOf::MaxStreams { .. }
        | FrameOf::Datagram { .. } => true,
        _ => false,
    }
}

/// It is told of a frame that the streams or the datagrams are handed, as it is written. Want of memory is the only refusal.
pub fn tell_handed(did: &mut Dids, frame: OwnedFrame) -> Result<(), AllocError>
    ensures { OnOk result (did.new ≡ told did.old (told_to_streams (owned frame))) }
{
    if !is_given(&frame) {
        return Ok(());
    }
    did.push_gave(Layer::Streams, Given::of_frame(frame))
}
