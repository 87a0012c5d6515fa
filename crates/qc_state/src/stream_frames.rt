//! The frames of streams that are taken for a packet.

ghost use Rattle.std.specs.Prelude.{◌≡◌, ◌+◌, ◌<◌, ◌≤◌, ◌^◌, true, false, length, Some, None, IfOk};
ghost use Rattle.qc_frame.specs.Frame.{owned};
ghost use Rattle.qc_frame.specs.FrameFits.{Fits};
ghost use Rattle.qc_frame.specs.FrameSpelling.{offset_spelling, spelling};
ghost use Rattle.qc_frame.specs.declared.frames.FrameOf.TheVariants as frames;
ghost use Rattle.qc_state.specs.Offers.{turn_waits};
ghost use Rattle.qc_state.specs.StreamFrames.{control_of};
ghost use Rattle.qc_state.specs.Taking.{TakesStreams};
ghost use Rattle.qc_streams.specs.Control.{next_control};
ghost use Rattle.qc_turns.specs.Ready.{next_turn};

use crate::transmit::SPARE_ROOM;
use qc_base::{StreamId, VarInt, varint_size};
use qc_frame::{FrameList, FrameOf, OwnedFrame};
use qc_send_stream::Part;
use qc_streams::{Control, StreamPart, StreamsState};
use std::alloc::AllocError;

/// How many bytes the head of a STREAM frame has at most whose length has at most two bytes (RFC 9000, section 19.8).
const HEAD: usize = 19;

/// How many bytes a length of two bytes can tell at most.
const MOST: usize = 16_383;

/// A number of a frame. Want of memory is the only refusal.
fn number(n: u64) -> Result<VarInt, AllocError>
    ensures same { IfOk result (λ found. found ≡ n) }
    ensures small { IfOk result (λ found. found < 2 ^ 62) }
{
    // The numbers that the streams give stay below 2^62: this refusal doesn't come.
    match VarInt::from_u64(n) {
        Ok(n) => Ok(n),
        Err(_) => Err(AllocError),
    }
}

/// The id of a stream.
fn stream_id(id: u64) -> Result<StreamId, AllocError>
    ensures same { IfOk result (λ found. found ≡ id) }
    ensures small { IfOk result (λ found. found < 2 ^ 62) }
{
    let id = number(id)?;
    Ok(StreamId::from(id))
}

/// A size or a limit.
fn size(n: u64) -> Result<u64, AllocError>
    ensures same { IfOk result (λ found. found ≡ n) }
    ensures small { IfOk result (λ found. found < 2 ^ 62) }
{
    let n = number(n)?;
    Ok(n.into_inner())
}

/// The frame that the streams gave, whose numbers have room in their fields. Want of memory is the only refusal.
#[tactic(auto, unfolding(qc_frame::specs::FrameFits::Fits))]
fn control_frame(frame: &Control) -> Result<OwnedFrame, AllocError>
    ensures frame { IfOk result (λ f. control_of (owned f) ≡ Some frame.now) }
    ensures fits { IfOk result (λ f. Fits (owned f)) }
{
    match frame {
        Control::Reset {
            id,
            code,
            size: end,
        } => Ok(FrameOf::ResetStream {
            id: stream_id(*id)?,
            error_code: number(code.into_inner())?,
            final_size: size(*end)?,
        }),
        Control::Stop { id, code } => Ok(FrameOf::StopSending {
            id: stream_id(*id)?,
            error_code: number(code.into_inner())?,
        }),
        Control::MaxData { limit } => Ok(FrameOf::MaxData(size(*limit)?)),
        Control::MaxStreamData { id, limit } => Ok(FrameOf::MaxStreamData {
            id: stream_id(*id)?,
            offset: size(*limit)?,
        }),
        Control::MaxStreams { dir, limit } => Ok(FrameOf::MaxStreams {
            dir: *dir,
            count: size(*limit)?,
        }),
    }
}

/// The STREAM frame with a part of a stream, of at most 16383 bytes, whose numbers have room in their fields. Want of memory is the only
/// refusal.
#[tactic(auto, unfolding(qc_frame::specs::FrameFits::Fits))]
fn part_frame(drawn: StreamPart) -> Result<OwnedFrame, AllocError>
    requires { length drawn.part.bytes ≤ 16383 }
    ensures frame { IfOk result (λ f. owned f ≡ frames.Stream drawn.id drawn.part.offset drawn.part.last drawn.part.bytes) }
    ensures fits { IfOk result (λ f. Fits (owned f)) }
{
    let id = stream_id(drawn.id)?;
    let Part {
        offset,
        bytes,
        last,
    } = drawn.part;
    Ok(FrameOf::Stream {
        id,
        offset: size(offset)?,
        fin: last,
        body: bytes,
    })
}

/// How many bytes the offset of a STREAM frame has: none where that is 0 (RFC 9000, section 19.8).
fn offset_len(offset: u64) -> usize
    ensures value { result ≡ length (offset_spelling offset) }
    ensures most { result ≤ 8 }
{
    if offset == 0 { 0 } else { varint_size(offset) }
}

/// How many bytes the STREAM frame has with a part of a stream, of at most 16383 bytes.
#[tactic(auto, using(crate::proofs::StreamsTaken::part_size))]
fn part_len(drawn: &StreamPart) -> usize
    requires { length drawn.now.part.bytes ≤ 16383 }
    ensures value { result ≡ length (spelling (frames.Stream drawn.now.id drawn.now.part.offset drawn.now.part.last drawn.now.part.bytes)) }
    ensures most { result ≤ HEAD + length drawn.now.part.bytes }
    ensures some { 0 < result }
{
    let len = drawn.part.bytes.len();
    1 + varint_size(drawn.id) + offset_len(drawn.part.offset) + varint_size(len as u64) + len
}

/// Takes the frames without bytes that wait, as many as fit, and answers how much of the room they leave. Want of memory is the only
/// refusal.
pub(crate) fn take_controls(
    streams: &mut StreamsState,
    room: usize,
    frames: &mut FrameList,
) -> Result<usize, AllocError>
    ensures takes { IfOk result (λ left. TakesStreams true room streams.old streams.new frames.old frames.new left) }
    ensures full { IfOk result (λ left. SPARE_ROOM ≤ left → next_control SPARE_ROOM streams.new ≡ None) }
{
    let mut left = room;
    loop {
        let Some(control) = streams.draw_control(left) else {
            return Ok(left);
        };
        left -= control.len();
        let frame = control_frame(&control)?;
        frames.push(frame)?;
    }
}

/// Takes the bytes of streams that wait first, as many as fit, and answers how much of the room they leave. Want of memory is the only
/// refusal.
pub(crate) fn take_parts(
    streams: &mut StreamsState,
    room: usize,
    frames: &mut FrameList,
) -> Result<usize, AllocError>
    ensures takes { IfOk result (λ left. TakesStreams true room streams.old streams.new frames.old frames.new left) }
    ensures full { IfOk result (λ left. HEAD < left → turn_waits (next_turn streams.new.waiting.ready) streams.new ≡ false) }
    ensures rest { IfOk result (λ left. next_control SPARE_ROOM streams.new ≡ next_control SPARE_ROOM streams.old) }
{
    let mut left = room;
    loop {
        let Some(drawn) = streams.draw_part(left.min(MOST))? else {
            return Ok(left);
        };
        left -= part_len(&drawn);
        let frame = part_frame(drawn)?;
        frames.push(frame)?;
    }
}
