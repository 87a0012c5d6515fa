//! The lines of a step's deeds.

ghost use Rattle.std.specs.Prelude.{◌≡◌, ◌<◌, ◌^◌, ◌++◌, codes, decimal, OnOk};
ghost use Rattle.std.specs.List.{All, flat_map};
ghost use Rattle.qc_base.specs.Grammar.{IsBytes};
ghost use Rattle.qc_text.specs.OneText.{IsApplicationCloseInRange, IsConnectionCloseInRange, IsDeedInRange, IsErrorInRange, IsOptionInRange, IsReasonInRange};
ghost use Rattle.qc_text.specs.TraceText.{application_close_text, connection_close_text, did_text, epoch_text, error_text, gave_text, given_text, named_text, packet_text, piece_text, quiet_name, reason_text, reason_values, sealed_text};

use crate::digits::put_hex;
use crate::frames::put_frames;
use crate::names::{
    given_of, layer_of, option_space_of, quiet_of, reason_of, space_of, verdict_of,
};
use crate::pieces::{put_bytes, put_line, put_number, put_optional};
use bytes::Bytes;
use qc_base::{SpaceId, TransportError, TransportErrorCode, VarInt};
use qc_frame::FrameList;
use qc_state::{ConnectionError, Did, Given, Layer, Quiet, Verdict};
use std::alloc::AllocError;

/// Appends the lines of deeds.
pub fn put_dids(out: &mut Vec<u8>, dids: &[Did]) -> Result<(), AllocError>
    ensures text { OnOk result (out.new.items ≡ out.old.items ++ flat_map did_text dids.now) }
    ensures in_range { OnOk result (All IsDeedInRange dids.now) }
{
    for did in dids {
        put_did(out, did)?;
    }
    Ok(())
}

#[tactic(auto, unfolding(crate::specs::TraceText::did_text))]
fn put_did(out: &mut Vec<u8>, did: &Did) -> Result<(), AllocError>
    ensures text { OnOk result (out.new.items ≡ out.old.items ++ did_text did.now) }
    ensures in_range { OnOk result (IsDeedInRange did.now) }
{
    match did {
        Did::Sealed {
            space,
            number,
            epoch,
            early,
            frames,
        } => put_sealed(out, *space, *number, *epoch, *early, frames),
        Did::Piece {
            space,
            number,
            verdict,
        } => put_piece(out, *space, *number, *verdict),
        Did::Gave { layer, body } => put_written(out, *layer, body),
        Did::Rose { life } => put_rose(out, *life),
        Did::Lost(reason) => put_reason(out, b"lost ", reason),
        Did::Quiet(quiet) => put_quiet(out, *quiet),
    }
}

#[tactic(auto, unfolding(crate::specs::TraceText::sealed_text))]
fn put_sealed(
    out: &mut Vec<u8>,
    space: SpaceId,
    number: u64,
    epoch: u64,
    early: bool,
    frames: &FrameList,
) -> Result<(), AllocError>
    ensures text { OnOk result (out.new.items ≡ out.old.items ++ sealed_text space number epoch early frames.now) }
    ensures in_range { OnOk result (IsDeedInRange (Did.Sealed space number epoch early frames.now)) }
{
    out.extend_from_slice(b"seal ")?;
    put_packet(out, space, number)?;
    put_epoch(out, epoch, early)?;
    put_frames(out, frames)?;
    out.extend_from_slice(b"\n")
}

#[tactic(auto, unfolding(crate::specs::TraceText::packet_text))]
fn put_packet(out: &mut Vec<u8>, space: SpaceId, number: u64) -> Result<(), AllocError>
    ensures { OnOk result (out.new.items ≡ out.old.items ++ packet_text space number) }
{
    out.extend_from_slice(space_of(space))?;
    out.extend_from_slice(b" ")?;
    put_number(out, number)?;
    out.extend_from_slice(b" ")
}

#[tactic(auto, unfolding(crate::specs::TraceText::epoch_text))]
fn put_epoch(out: &mut Vec<u8>, epoch: u64, early: bool) -> Result<(), AllocError>
    ensures { OnOk result (out.new.items ≡ out.old.items ++ epoch_text epoch early) }
{
    if early {
        return out.extend_from_slice(b"early");
    }
    put_number(out, epoch)
}

/// Appends the line of a packet that came.
#[tactic(auto, unfolding(crate::specs::TraceText::piece_text))]
fn put_piece(
    out: &mut Vec<u8>,
    space: Option<SpaceId>,
    number: Option<u64>,
    verdict: Verdict,
) -> Result<(), AllocError>
    ensures text { OnOk result (out.new.items ≡ out.old.items ++ piece_text space number verdict) }
    ensures in_range { OnOk result (IsOptionInRange number) }
{
    out.extend_from_slice(b"piece ")?;
    out.extend_from_slice(option_space_of(space))?;
    out.extend_from_slice(b" ")?;
    put_optional(out, number)?;
    out.extend_from_slice(b" ")?;
    out.extend_from_slice(verdict_of(verdict))?;
    out.extend_from_slice(b"\n")
}

/// Appends the line of what a layer was given, which is written for it.
fn put_written(out: &mut Vec<u8>, layer: Layer, body: &Given) -> Result<(), AllocError>
    ensures text { OnOk result (out.new.items ≡ out.old.items ++ gave_text layer body.now) }
    ensures in_range { OnOk result (IsBytes body.now) }
{
    let mut written = Vec::new(*out.allocator());
    body.put(&mut written)?;
    put_gave(out, layer, written.as_slice())
}

/// Appends the line of what a layer was given.
#[tactic(auto, unfolding(crate::specs::TraceText::gave_text))]
fn put_gave(out: &mut Vec<u8>, layer: Layer, body: &[u8]) -> Result<(), AllocError>
    ensures text { OnOk result (out.new.items ≡ out.old.items ++ gave_text layer body.now) }
    ensures in_range { OnOk result (IsBytes body.now) }
{
    out.extend_from_slice(b"gave ")?;
    out.extend_from_slice(layer_of(layer))?;
    out.extend_from_slice(b" ")?;
    put_given(out, layer, body)?;
    out.extend_from_slice(b"\n")
}

/// Appends what a layer was given: the session's bytes, which are no frame, as they are.
#[tactic(auto, unfolding(crate::specs::TraceText::given_text))]
fn put_given(out: &mut Vec<u8>, layer: Layer, body: &[u8]) -> Result<(), AllocError>
    ensures text { OnOk result (out.new.items ≡ out.old.items ++ given_text layer body.now) }
    ensures in_range { OnOk result (IsBytes body.now) }
{
    match layer {
        Layer::Streams => put_named(out, body),
        Layer::Recovery => put_named(out, body),
        Layer::Session => put_hex(out, body),
        Layer::Ids => put_named(out, body),
        Layer::Life => put_named(out, body),
        Layer::Store => put_named(out, body),
    }
}

/// Appends the name and the bytes of a frame.
#[tactic(auto, unfolding(crate::specs::TraceText::named_text))]
fn put_named(out: &mut Vec<u8>, body: &[u8]) -> Result<(), AllocError>
    ensures text { OnOk result (out.new.items ≡ out.old.items ++ named_text body.now) }
    ensures in_range { OnOk result (IsBytes body.now) }
{
    out.extend_from_slice(given_of(body))?;
    out.extend_from_slice(b"/")?;
    put_hex(out, body)
}

fn put_rose(out: &mut Vec<u8>, life: u8) -> Result<(), AllocError>
    ensures { OnOk result (out.new.items ≡ out.old.items ++ (codes "life " ++ decimal life ++ codes "\n")) }
{
    put_line(out, b"life ", u64::from(life))
}

/// Appends the line of a reason for the end, after these words.
pub fn put_reason(
    out: &mut Vec<u8>,
    words: &[u8],
    reason: &ConnectionError,
) -> Result<(), AllocError>
    ensures text { OnOk result (out.new.items ≡ out.old.items ++ (words.now ++ reason_text reason.now ++ codes "\n")) }
    ensures in_range { OnOk result (IsReasonInRange reason.now) }
{
    out.extend_from_slice(words)?;
    put_why(out, reason)?;
    out.extend_from_slice(b"\n")
}

/// Appends a reason for the end.
#[tactic(auto, unfolding(crate::specs::TraceText::reason_text))]
fn put_why(out: &mut Vec<u8>, reason: &ConnectionError) -> Result<(), AllocError>
    ensures text { OnOk result (out.new.items ≡ out.old.items ++ reason_text reason.now) }
    ensures in_range { OnOk result (IsReasonInRange reason.now) }
{
    out.extend_from_slice(reason_of(reason))?;
    put_values(out, reason)
}

/// Appends the values of a reason for the end, behind a space, where it has any.
#[tactic(auto, unfolding(crate::specs::TraceText::reason_values))]
fn put_values(out: &mut Vec<u8>, reason: &ConnectionError) -> Result<(), AllocError>
    ensures text { OnOk result (out.new.items ≡ out.old.items ++ reason_values reason.now) }
    ensures in_range { OnOk result (IsReasonInRange reason.now) }
{
    match reason {
        ConnectionError::TransportError(error) => {
            out.extend_from_slice(b" ")?;
            put_error(out, *error)
        }
        ConnectionError::ConnectionClosed(close) => {
            out.extend_from_slice(b" ")?;
            put_connection_close(out, close.error_code, close.frame_type, &close.reason)
        }
        ConnectionError::ApplicationClosed(close) => {
            out.extend_from_slice(b" ")?;
            put_application_close(out, close.error_code, &close.reason)
        }
        ConnectionError::TimedOut | ConnectionError::VersionMismatch => Ok(()),
    }
}

/// Appends the values of an error that this end found.
#[tactic(auto, unfolding(crate::specs::TraceText::error_text))]
fn put_error(out: &mut Vec<u8>, error: TransportError) -> Result<(), AllocError>
    ensures text { OnOk result (out.new.items ≡ out.old.items ++ error_text error) }
    ensures in_range { OnOk result (IsErrorInRange error) }
{
    put_number(out, error.code.into_inner())?;
    out.extend_from_slice(b" ")?;
    put_optional(out, error.frame)
}

/// Appends the values of a close of the peer's by an error of the transport.
#[tactic(auto, unfolding(crate::specs::TraceText::connection_close_text))]
fn put_connection_close(
    out: &mut Vec<u8>,
    error_code: TransportErrorCode,
    frame_type: Option<u64>,
    reason: &Bytes,
) -> Result<(), AllocError>
    ensures text { OnOk result (out.new.items ≡ out.old.items ++ connection_close_text error_code frame_type reason.now) }
    ensures in_range { OnOk result (IsConnectionCloseInRange error_code frame_type reason.now) }
{
    put_number(out, error_code.into_inner())?;
    out.extend_from_slice(b" ")?;
    put_optional(out, frame_type)?;
    out.extend_from_slice(b" ")?;
    put_bytes(out, reason.as_slice())
}

/// Appends the values of a close of the peer's application.
#[tactic(auto, unfolding(crate::specs::TraceText::application_close_text))]
fn put_application_close(
    out: &mut Vec<u8>,
    error_code: VarInt,
    reason: &Bytes,
) -> Result<(), AllocError>
    ensures text { OnOk result (out.new.items ≡ out.old.items ++ application_close_text error_code reason.now) }
    ensures in_range { OnOk result (IsApplicationCloseInRange error_code reason.now) }
{
    put_number(out, error_code.into_inner())?;
    out.extend_from_slice(b" ")?;
    put_bytes(out, reason.as_slice())
}

fn put_quiet(out: &mut Vec<u8>, quiet: Quiet) -> Result<(), AllocError>
    ensures { OnOk result (out.new.items ≡ out.old.items ++ (codes "quiet " ++ quiet_name quiet ++ codes "\n")) }
{
    out.extend_from_slice(b"quiet ")?;
    out.extend_from_slice(quiet_of(quiet))?;
    out.extend_from_slice(b"\n")
}
