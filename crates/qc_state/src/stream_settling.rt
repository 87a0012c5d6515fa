//! What becomes of the frames of streams in packets that were acknowledged, or are lost, and of what streams owe as a packet is begun.

ghost use Rattle.std.specs.Prelude.{◌≡◌, ◌++◌, map, OnOk};
ghost use Rattle.qc_frame.specs.Frame.{owned};
ghost use Rattle.qc_state.specs.StreamFrames.{acked_steps, control_of, control_step, controls_acked, controls_lost, filed_steps, fired_steps, lost_steps, meta_acked, meta_lost, packet_acked, packet_lost};
ghost use Rattle.qc_streams.specs.Waits.{ControlAcked, ControlLost, after};

use qc_base::SpaceId;
use qc_flight::{PacketList, SentPacket, StreamMeta};
use qc_frame::{FrameList, FrameOf, OwnedFrame};
use qc_recovery::{Fired, Settled};
use qc_streams::{Control, StreamsState};
use std::alloc::AllocError;

/// The frame of the streams without bytes that a frame is, if it is one.
fn control_of(frame: &OwnedFrame) -> Option<Control>
    ensures { result ≡ control_of (owned frame.now) }
{
    match frame {
        FrameOf::ResetStream {
            id,
            error_code,
            final_size,
        } => Some(Control::Reset {
            id: id.value(),
            code: *error_code,
            size: *final_size,
        }),
        FrameOf::StopSending { id, error_code } => Some(Control::Stop {
            id: id.value(),
            code: *error_code,
        }),
        FrameOf::MaxData(limit) => Some(Control::MaxData { limit: *limit }),
        FrameOf::MaxStreamData { id, offset } => Some(Control::MaxStreamData {
            id: id.value(),
            limit: *offset,
        }),
        FrameOf::MaxStreams { dir, count } => Some(Control::MaxStreams {
            dir: *dir,
            limit: *count,
        }),
        _ => None,
    }
}

/// A frame was lost: where it is one of the streams without bytes, it waits again. Want of memory is the only refusal.
#[tactic(auto, unfolding(qc_streams::specs::Waits::after, qc_streams::specs::Waits::after_step))]
fn control_lost(streams: &mut StreamsState, frame: &OwnedFrame) -> Result<(), AllocError>
    ensures { OnOk result (streams.new ≡ after (control_step ControlLost (control_of (owned frame.now))) streams.old) }
{
    match control_of(frame) {
        Some(control) => streams.control_lost(&control),
        None => Ok(()),
    }
}

/// So were these frames. Want of memory is the only refusal.
#[tactic(auto, using(crate::proofs::StreamsSettled::controls_lost_more), unfolding(qc_streams::specs::Waits::after))]
fn each_control_lost(streams: &mut StreamsState, frames: &[OwnedFrame]) -> Result<(), AllocError>
    ensures { OnOk result (streams.new ≡ after (controls_lost (map owned frames.now)) streams.old) }
{
    for frame in frames {
        control_lost(streams, frame)?;
    }
    Ok(())
}

/// So were all frames that are kept of a packet. Want of memory is the only refusal.
#[tactic(auto, using(crate::proofs::StreamsSettled::controls_lost_padded))]
fn controls_lost(streams: &mut StreamsState, frames: &FrameList) -> Result<(), AllocError>
    ensures { OnOk result (streams.new ≡ after (controls_lost frames.now) streams.old) }
{
    let (listed, _padding) = frames.parts();
    each_control_lost(streams, listed)
}

/// STREAM frames were lost: their bytes wait again. Want of memory is the only refusal.
#[tactic(auto, unfolding(qc_streams::specs::Waits::after, qc_streams::specs::Waits::after_step))]
fn metas_lost(streams: &mut StreamsState, metas: &[StreamMeta]) -> Result<(), AllocError>
    ensures { OnOk result (streams.new ≡ after (map meta_lost metas.now) streams.old) }
{
    for meta in metas {
        streams.bytes_lost(meta.id, meta.start, meta.end, meta.fin)?;
    }
    Ok(())
}

/// A packet was lost: its frames of streams wait again.
///
/// # Errors
///
/// Want of memory.
#[tactic(auto, using(qc_streams::proofs::StepsLaw::after_append), unfolding(crate::specs::StreamFrames::packet_lost))]
pub fn packet_lost(streams: &mut StreamsState, packet: &SentPacket) -> Result<(), AllocError>
    ensures { OnOk result (streams.new ≡ after (packet_lost packet.now) streams.old) }
{
    controls_lost(streams, &packet.frames)?;
    metas_lost(streams, packet.stream_frames.as_slice())
}

/// Packets were lost. Want of memory is the only refusal.
fn packets_lost(streams: &mut StreamsState, lost: &PacketList) -> Result<(), AllocError>
    ensures { OnOk result (streams.new ≡ after (lost_steps lost.now) streams.old) }
{
    let mut place = 0;
    while place < lost.len() {
        let entry = lost.entry(place);
        packet_lost(streams, &entry.1)?;
        place += 1;
    }
    Ok(())
}

/// A frame was acknowledged, which may be one of the streams without bytes.
#[tactic(auto, unfolding(qc_streams::specs::Waits::after, qc_streams::specs::Waits::after_step))]
fn control_acked(streams: &mut StreamsState, frame: &OwnedFrame)
    ensures { streams.new ≡ after (control_step ControlAcked (control_of (owned frame.now))) streams.old }
{
    match control_of(frame) {
        Some(control) => streams.control_acked(&control),
        None => {}
    }
}

/// So were these frames.
#[tactic(auto, using(crate::proofs::StreamsSettled::controls_acked_more), unfolding(qc_streams::specs::Waits::after))]
fn each_control_acked(streams: &mut StreamsState, frames: &[OwnedFrame])
    ensures { streams.new ≡ after (controls_acked (map owned frames.now)) streams.old }
{
    for frame in frames {
        control_acked(streams, frame);
    }
}

/// So were all frames that are kept of a packet.
#[tactic(auto, using(crate::proofs::StreamsSettled::controls_acked_padded))]
fn controls_acked(streams: &mut StreamsState, frames: &FrameList)
    ensures { streams.new ≡ after (controls_acked frames.now) streams.old }
{
    let (listed, _padding) = frames.parts();
    each_control_acked(streams, listed);
}

/// STREAM frames were acknowledged: their bytes are kept no more. Want of memory is the only refusal.
#[tactic(auto, unfolding(qc_streams::specs::Waits::after, qc_streams::specs::Waits::after_step))]
fn metas_acked(streams: &mut StreamsState, metas: &[StreamMeta]) -> Result<(), AllocError>
    ensures { OnOk result (streams.new ≡ after (map meta_acked metas.now) streams.old) }
{
    for meta in metas {
        streams.bytes_acked(meta.id, meta.start, meta.end, meta.fin)?;
    }
    Ok(())
}

/// A packet was acknowledged with its frames of streams. Want of memory is the only refusal.
#[tactic(auto, using(qc_streams::proofs::StepsLaw::after_append))]
fn packet_acked(streams: &mut StreamsState, packet: &SentPacket) -> Result<(), AllocError>
    ensures { OnOk result (streams.new ≡ after (packet_acked packet.now) streams.old) }
{
    controls_acked(streams, &packet.frames);
    metas_acked(streams, packet.stream_frames.as_slice())
}

/// Packets were acknowledged. Want of memory is the only refusal.
fn packets_acked(streams: &mut StreamsState, acked: &PacketList) -> Result<(), AllocError>
    ensures { OnOk result (streams.new ≡ after (acked_steps acked.now) streams.old) }
{
    let mut place = 0;
    while place < acked.len() {
        let entry = acked.entry(place);
        packet_acked(streams, &entry.1)?;
        place += 1;
    }
    Ok(())
}

/// An ACK came: packets were acknowledged, and others are lost by it.
///
/// # Errors
///
/// Want of memory.
#[tactic(auto, using(qc_streams::proofs::StepsLaw::after_append))]
pub fn settle(streams: &mut StreamsState, settled: &Settled) -> Result<(), AllocError>
    ensures { OnOk result (streams.new ≡ after (acked_steps settled.now.acked ++ lost_steps settled.now.lost) streams.old) }
{
    packets_acked(streams, &settled.acked)?;
    packets_lost(streams, &settled.lost)
}

/// The loss timer fired: packets may be lost.
///
/// # Errors
///
/// Want of memory.
#[tactic(auto, unfolding(qc_streams::specs::Waits::after))]
pub fn fire(streams: &mut StreamsState, fired: &Fired) -> Result<(), AllocError>
    ensures { OnOk result (streams.new ≡ after (fired_steps fired.now) streams.old) }
{
    match fired {
        Fired::Lost { packets, .. } => packets_lost(streams, packets),
        Fired::Probe { .. } | Fired::Nothing => Ok(()),
    }
}

/// A packet of a space is begun: in that of 1-RTT packets the streams that may owe something are looked at.
///
/// # Errors
///
/// Want of memory.
#[tactic(auto, unfolding(qc_streams::specs::Waits::after, qc_streams::specs::Waits::after_step))]
pub fn file(streams: &mut StreamsState, space: SpaceId) -> Result<(), AllocError>
    ensures { OnOk result (streams.new ≡ after (filed_steps space) streams.old) }
{
    match space {
        SpaceId::Data => streams.file_marks(),
        SpaceId::Initial | SpaceId::Handshake => Ok(()),
    }
}
