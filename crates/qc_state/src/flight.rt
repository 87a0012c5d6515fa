//! Packets in flight: what is kept of a packet that was sealed (RFC 9002, 2).

ghost use Rattle.std.specs.Prelude.{◌≡◌, ◌++◌, true, map, IfOk, OnOk};
ghost use Rattle.std.specs.List.{list_any};
ghost use Rattle.qc_frame.specs.Frame.{owned};
ghost use Rattle.qc_state.specs.Flight.{counts_in_flight, flown_packet, has_numbers_alone, is_padding, kept_frames, kept_of, meta_of, metas_of};

use bytes::Bytes;
use qc_base::Instant;
use qc_flight::{SentPacket, StreamMeta, StreamMetaVec};
use qc_frame::{FrameList, FrameOf, OwnedAck, OwnedFrame};
use std::alloc::{AllocError, Global};

/// Keeps a frame without bytes: the numbers that a frame of streams without bytes or one about connection ids holds; of any other kind
/// nothing. Want of memory is the only refusal.
fn keep_numbers(kept: &mut FrameList, frame: &OwnedFrame) -> Result<(), AllocError>
    requires { has_numbers_alone (owned frame.now) ≡ true }
    ensures { OnOk result (kept.new ≡ kept.old ++ kept_of (owned frame.now)) }
{
    match frame {
        FrameOf::ResetStream {
            id,
            error_code,
            final_size,
        } => kept.push(FrameOf::ResetStream {
            id: *id,
            error_code: *error_code,
            final_size: *final_size,
        }),
        FrameOf::StopSending { id, error_code } => kept.push(FrameOf::StopSending {
            id: *id,
            error_code: *error_code,
        }),
        FrameOf::MaxData(limit) => kept.push(FrameOf::MaxData(*limit)),
        FrameOf::MaxStreamData { id, offset } => kept.push(FrameOf::MaxStreamData {
            id: *id,
            offset: *offset,
        }),
        FrameOf::MaxStreams { dir, count } => kept.push(FrameOf::MaxStreams {
            dir: *dir,
            count: *count,
        }),
        FrameOf::NewConnectionId(new) => kept.push(FrameOf::NewConnectionId(*new)),
        FrameOf::RetireConnectionId { sequence } => kept.push(FrameOf::RetireConnectionId {
            sequence: *sequence,
        }),
        _ => unreachable!(),
    }
}

/// Keeps of a frame what its packet in flight needs. Want of memory is the only refusal.
fn keep(kept: &mut FrameList, frame: &OwnedFrame) -> Result<(), AllocError>
    ensures { OnOk result (kept.new ≡ kept.old ++ kept_of (owned frame.now)) }
{
    match frame {
        FrameOf::HandshakeDone => kept.push(FrameOf::HandshakeDone),
        FrameOf::Crypto { offset, body } => {
            let body = body.clone()?;
            kept.push(FrameOf::Crypto {
                offset: *offset,
                body,
            })
        }
        FrameOf::Ack(ack) => kept.push(FrameOf::Ack(OwnedAck {
            largest: ack.largest,
            delay: 0,
            additional: Bytes::new(),
            ecn: None,
        })),
        FrameOf::NewToken { .. } => kept.push(FrameOf::NewToken {
            token: Bytes::new(),
        }),
        FrameOf::ResetStream { .. }
        | FrameOf::StopSending { .. }
        | FrameOf::MaxData(_)
        | FrameOf::MaxStreamData { .. }
        | FrameOf::MaxStreams { .. }
        | FrameOf::NewConnectionId(_)
        | FrameOf::RetireConnectionId { .. } => keep_numbers(kept, frame),
        FrameOf::Padding
        | FrameOf::Ping
        | FrameOf::Stream { .. }
        | FrameOf::DataBlocked { .. }
        | FrameOf::StreamDataBlocked { .. }
        | FrameOf::StreamsBlocked { .. }
        | FrameOf::PathChallenge(_)
        | FrameOf::PathResponse(_)
        | FrameOf::ConnectionClose { .. }
        | FrameOf::ApplicationClose { .. }
        | FrameOf::Datagram { .. } => Ok(()),
    }
}

/// What is kept of these frames. Want of memory is the only refusal.
#[tactic(auto, using(crate::proofs::KeptFrames::kept_more))]
fn kept_listed(alloc: Global, frames: &[OwnedFrame]) -> Result<FrameList, AllocError>
    ensures { IfOk result (λ kept. kept ≡ kept_frames (map owned frames.now)) }
{
    let mut kept = FrameList::new(alloc);
    for frame in frames {
        keep(&mut kept, frame)?;
    }
    Ok(kept)
}

/// What is kept of frames while their packet is in flight. Want of memory is the only refusal.
#[tactic(auto, using(crate::proofs::KeptFrames::kept_padded))]
fn kept(alloc: Global, frames: &FrameList) -> Result<FrameList, AllocError>
    ensures { IfOk result (λ kept. kept ≡ kept_frames frames.now) }
{
    let (listed, _padding) = frames.parts();
    kept_listed(alloc, listed)
}

/// Keeps of a STREAM frame which bytes it holds; of another frame nothing. Want of memory is the only refusal.
fn note(metas: &mut StreamMetaVec, frame: &OwnedFrame) -> Result<(), AllocError>
    ensures { OnOk result (metas.new ≡ metas.old ++ meta_of (owned frame.now)) }
{
    match frame {
        FrameOf::Stream {
            id,
            offset,
            fin,
            body,
        } => metas.push(StreamMeta {
            id: *id,
            start: *offset,
            end: offset.saturating_add(body.len() as u64),
            fin: *fin,
        }),
        _ => Ok(()),
    }
}

/// What is kept of the STREAM frames among these. Want of memory is the only refusal.
#[tactic(auto, using(crate::proofs::KeptFrames::metas_more))]
fn metas_listed(alloc: Global, frames: &[OwnedFrame]) -> Result<StreamMetaVec, AllocError>
    ensures { IfOk result (λ metas. metas ≡ metas_of (map owned frames.now)) }
{
    let mut metas = StreamMetaVec::new(alloc);
    for frame in frames {
        note(&mut metas, frame)?;
    }
    Ok(metas)
}

/// What is kept of the STREAM frames among frames while their packet is in flight. Want of memory is the only refusal.
#[tactic(auto, using(crate::proofs::KeptFrames::metas_padded))]
fn metas(alloc: Global, frames: &FrameList) -> Result<StreamMetaVec, AllocError>
    ensures { IfOk result (λ metas. metas ≡ metas_of frames.now) }
{
    let (listed, _padding) = frames.parts();
    metas_listed(alloc, listed)
}

/// Whether a frame is PADDING.
fn is_padding(frame: &OwnedFrame) -> bool
    ensures { result ≡ is_padding (owned frame.now) }
{
    matches!(frame, FrameOf::Padding)
}

/// Whether one of these frames is PADDING.
fn any_padding(frames: &[OwnedFrame]) -> bool
    ensures { result ≡ list_any is_padding (map owned frames.now) }
{
    for frame in frames {
        if is_padding(frame) {
            return true;
        }
    }
    false
}

/// Whether one of the frames is PADDING.
#[tactic(auto, using(crate::proofs::KeptFrames::any_padded))]
fn has_padding(frames: &FrameList) -> bool
    ensures { result ≡ list_any is_padding frames.now }
{
    let (listed, padding) = frames.parts();
    any_padding(listed) || padding > 0
}

/// Whether a packet with these frames counts as in flight: one elicits an acknowledgement, or is PADDING.
#[tactic(auto, unfolding(crate::specs::Flight::counts_in_flight))]
pub fn counts_in_flight(frames: &FrameList) -> bool
    ensures { result ≡ counts_in_flight frames.now }
{
    frames.elicits() || has_padding(frames)
}

/// What is kept of a packet of this size with these frames, which was sealed at `now`. Want of memory is the only refusal.
#[tactic(auto, unfolding(crate::specs::Flight::flown_packet))]
pub fn flown_packet(
    alloc: Global,
    now: Instant,
    size: u64,
    frames: &FrameList,
) -> Result<SentPacket, AllocError>
    ensures { IfOk result (λ packet. packet ≡ flown_packet now size frames.now) }
{
    Ok(SentPacket {
        at: now,
        size,
        counted: counts_in_flight(frames),
        ack_eliciting: frames.elicits(),
        frames: kept(alloc, frames)?,
        stream_frames: metas(alloc, frames)?,
        new_token: None,
    })
}
