//! The frames of a sealed packet, each with its name and the hex of its spelling; a run of PADDING
//! frames as `PADDING*` and how many they are.

ghost use Rattle.std.specs.Prelude.{◌≡◌, ◌+◌, ◌<◌, ◌^◌, [], ◌++◌, length, if◌then◌else◌, map, replicate, decimal, IfOk, OnOk};
ghost use Rattle.std.specs.List.{All};
ghost use Rattle.qc_base.specs.Grammar.{IsBytes};
ghost use Rattle.qc_frame.specs.Frame.{owned};
ghost use Rattle.qc_frame.specs.FrameSpelling.{frame_name, spelling};
ghost use Rattle.qc_frame.specs.declared.frames.FrameOf.TheVariants.{Padding};
ghost use Rattle.hex.specs.Hex.{encode_lower};
ghost use Rattle.qc_text.specs.TraceText.{is_padding, padding_text, frame_text, padded_text, frames_text};

use crate::digits::put_hex;
use itoa::Buffer;
use qc_frame::{FrameList, FrameOf, OwnedFrame, put_frames as put_spelling};
use std::alloc::AllocError;
use std::slice;

/// Appends the frames.
#[tactic(auto, unfolding(crate::specs::TraceText::frames_text))]
pub fn put_frames(out: &mut Vec<u8>, frames: &FrameList) -> Result<(), AllocError>
    ensures text { OnOk result (out.new.items ≡ out.old.items ++ frames_text frames.now) }
    ensures count { length frames.now < 2 ^ 128 }
    ensures in_range { OnOk result (All (λ frame. IsBytes (spelling frame)) frames.now) }
{
    let (listed, padding) = frames.parts();
    put_padded(out, listed, padding)
}

/// Appends frames and then so many PADDING frames.
fn put_padded(out: &mut Vec<u8>, frames: &[OwnedFrame], padding: u64) -> Result<(), AllocError>
    ensures text { OnOk result (out.new.items ≡ out.old.items ++ padded_text 0 (map owned frames.now ++ replicate padding Padding)) }
    ensures count { length (map owned frames.now ++ replicate padding Padding) < 2 ^ 128 }
    ensures in_range { OnOk result (All (λ frame. IsBytes (spelling frame)) (map owned frames.now ++ replicate padding Padding)) }
{
    let mut run = 0;
    for frame in frames {
        run = put_next(out, run, frame)?;
    }
    put_padding(out, u128::from(run) + u128::from(padding))?;
    Ok(())
}

/// Appends a frame after a run of so many PADDING frames that isn't written yet. Says how many of
/// them aren't written then.
#[tactic(auto, using(crate::proofs::InRange::padding_in_range))]
fn put_next(out: &mut Vec<u8>, run: u64, frame: &OwnedFrame) -> Result<u64, AllocError>
    requires { run + 1 < 2 ^ 64 }
    ensures run { IfOk result (λ next. next ≡ (if is_padding (owned frame.now) then run + 1 else 0)) }
    ensures text { OnOk result (out.new.items ≡ out.old.items ++ (if is_padding (owned frame.now) then [] else padding_text run ++ frame_text (owned frame.now))) }
    ensures in_range { OnOk result (IsBytes (spelling (owned frame.now))) }
{
    if is_padding_frame(frame) {
        return Ok(run + 1);
    }
    put_padding(out, u128::from(run))?;
    put_named(out, frame)?;
    Ok(0)
}

fn is_padding_frame(frame: &OwnedFrame) -> bool
    ensures { result ≡ is_padding (owned frame.now) }
{
    match frame {
        FrameOf::Padding => true,
        _ => false,
    }
}

/// Appends a run of so many PADDING frames.
#[tactic(auto, unfolding(crate::specs::TraceText::padding_text))]
fn put_padding(out: &mut Vec<u8>, count: u128) -> Result<(), AllocError>
    ensures { OnOk result (out.new.items ≡ out.old.items ++ padding_text count) }
{
    if count == 0 {
        return Ok(());
    }
    let mut buffer = Buffer::new();
    out.extend_from_slice(b" PADDING*")?;
    out.extend_from_slice(buffer.format(count).as_bytes())
}

/// Appends a frame's name and its spelling.
#[tactic(auto, unfolding(crate::specs::TraceText::frame_text))]
fn put_named(out: &mut Vec<u8>, frame: &OwnedFrame) -> Result<(), AllocError>
    ensures text { OnOk result (out.new.items ≡ out.old.items ++ frame_text (owned frame.now)) }
    ensures in_range { OnOk result (IsBytes (spelling (owned frame.now))) }
{
    out.extend_from_slice(b" ")?;
    out.extend_from_slice(name_of(frame))?;
    out.extend_from_slice(b"/")?;
    let mut spelled = Vec::new(*out.allocator());
    put_spelling(&mut spelled, slice::from_ref(frame))?;
    put_hex(out, spelled.as_slice())
}

/// The name of a frame's kind (RFC 9000, 19; RFC 9221, 4).
#[tactic(auto, unfolding(qc_frame::specs::FrameSpelling::frame_name))]
fn name_of(frame: &OwnedFrame) -> &'static [u8]
    ensures { result.now ≡ frame_name (owned frame.now) }
{
    match frame {
        FrameOf::Padding => b"PADDING",
        FrameOf::Ping => b"PING",
        FrameOf::Ack(_) => b"ACK",
        FrameOf::ResetStream { .. } => b"RESET_STREAM",
        FrameOf::StopSending { .. } => b"STOP_SENDING",
        FrameOf::Crypto { .. } => b"CRYPTO",
        FrameOf::NewToken { .. } => b"NEW_TOKEN",
        FrameOf::Stream { .. } => b"STREAM",
        FrameOf::MaxData(_) => b"MAX_DATA",
        FrameOf::MaxStreamData { .. } => b"MAX_STREAM_DATA",
        FrameOf::MaxStreams { .. } => b"MAX_STREAMS",
        FrameOf::DataBlocked { .. } => b"DATA_BLOCKED",
        FrameOf::StreamDataBlocked { .. } => b"STREAM_DATA_BLOCKED",
        FrameOf::StreamsBlocked { .. } => b"STREAMS_BLOCKED",
        FrameOf::NewConnectionId(_) => b"NEW_CONNECTION_ID",
        FrameOf::RetireConnectionId { .. } => b"RETIRE_CONNECTION_ID",
        FrameOf::PathChallenge(_) => b"PATH_CHALLENGE",
        FrameOf::PathResponse(_) => b"PATH_RESPONSE",
        FrameOf::ConnectionClose { .. } => b"CONNECTION_CLOSE",
        FrameOf::ApplicationClose { .. } => b"APPLICATION_CLOSE",
        FrameOf::HandshakeDone => b"HANDSHAKE_DONE",
        FrameOf::Datagram { .. } => b"DATAGRAM",
    }
}
