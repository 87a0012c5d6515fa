//! Frames written (RFC 9000, section 19; RFC 9221, section 4): each number in its shortest form.

ghost use Rattle.std.specs.Prelude.{◌≡◌, ◌+◌, ◌/◌, ◌<◌, ◌^◌, ◌∷◌, ◌++◌, length, take, true, false, unwrap_or, OnOk, OnErr};
ghost use Rattle.std.specs.Int.{w64, to_be_bytes};
ghost use Rattle.std.specs.List.{flat_map};
ghost use Rattle.qc_base.specs.Spelling.{blob};
ghost use Rattle.qc_base.specs.StreamId.{dir_bit};
ghost use Rattle.qc_base.specs.Varint.{varint};
ghost use Rattle.qc_frame.specs.Frame.{ack_map, borrowed};
ghost use Rattle.qc_frame.specs.FrameSpelling.{ack_spelling, ack_type, ecn_spelling, has_offset, last_spelling, numbers_of, offset_spelling, spelling, stream_type};

use crate::frames::{Ack, EcnCounts, Frame, FrameOf, NewConnectionId};
use qc_base::{
    Cut, Dir, StreamId, TransportErrorCode, VarInt, or_cut_back, put_varint, read_varint,
};
use std::alloc::AllocError;

/// Appends the frame's spelling. After want of memory `out` is as before.
#[inline(always)]
pub fn put_frame(out: &mut Vec<u8>, frame: &Frame<'_>) -> Result<(), AllocError>
    ensures ok { OnOk result (out.new.items ≡ out.old.items ++ spelling (borrowed frame.now)) }
    ensures err { OnErr result (out.new.items ≡ out.old.items) }
{
    let len = out.len();
    or_cut_back(put_fields(out, frame), out, len)
}

/// Appends the frame as the last one of a packet: a STREAM or DATAGRAM frame has no length then
/// (RFC 9000, section 19.8; RFC 9221, section 4). After want of memory `out` is as before.
pub fn put_last_frame(out: &mut Vec<u8>, frame: &Frame<'_>) -> Result<(), AllocError>
    ensures ok { OnOk result (out.new.items ≡ out.old.items ++ last_spelling (borrowed frame.now)) }
    ensures err { OnErr result (out.new.items ≡ out.old.items) }
{
    let len = out.len();
    or_cut_back(put_last_fields(out, frame), out, len)
}

// Each function below leaves what stood in `out` where it was, also where memory runs out.

#[tactic(auto, unfolding(crate::specs::FrameSpelling::spelling))]
fn put_fields(out: &mut Vec<u8>, frame: &Frame<'_>) -> Result<(), AllocError>
    ensures ok { OnOk result (out.new.items ≡ out.old.items ++ spelling (borrowed frame.now)) }
    ensures kept { take (length out.old.items) out.new.items ≡ out.old.items }
{
    match frame {
        FrameOf::Padding => put_varint(out, 0x00),
        FrameOf::Ping => put_varint(out, 0x01),
        FrameOf::Ack(ack) => put_ack(out, ack),
        FrameOf::ResetStream {
            id,
            error_code,
            final_size,
        } => put_reset_stream(out, *id, *error_code, *final_size),
        FrameOf::StopSending { id, error_code } => put_typed_pair(
            out,
            0x05,
            id.value(),
            error_code.into_inner(),
        ),
        FrameOf::Crypto { offset, body } => put_crypto(out, *offset, body),
        FrameOf::NewToken { token } => put_typed_blob(out, 0x07, token),
        FrameOf::Stream {
            id,
            offset,
            fin,
            body,
        } => put_stream(out, *id, *offset, *fin, body),
        FrameOf::MaxData(limit) => put_typed_number(out, 0x10, *limit),
        FrameOf::MaxStreamData { id, offset } => put_typed_pair(out, 0x11, id.value(), *offset),
        FrameOf::MaxStreams { dir, count } => put_typed_number(
            out,
            type_of_dir(0x12, *dir),
            *count,
        ),
        FrameOf::DataBlocked { offset } => put_typed_number(out, 0x14, *offset),
        FrameOf::StreamDataBlocked { id, offset } => put_typed_pair(out, 0x15, id.value(), *offset),
        FrameOf::StreamsBlocked { dir, limit } => put_typed_number(
            out,
            type_of_dir(0x16, *dir),
            *limit,
        ),
        FrameOf::NewConnectionId(new) => put_new_connection_id(out, new),
        FrameOf::RetireConnectionId { sequence } => put_typed_number(out, 0x19, *sequence),
        FrameOf::PathChallenge(word) => put_typed_word(out, 0x1a, *word),
        FrameOf::PathResponse(word) => put_typed_word(out, 0x1b, *word),
        FrameOf::ConnectionClose {
            error_code,
            frame_type,
            reason,
        } => put_connection_close(out, *error_code, *frame_type, reason),
        FrameOf::ApplicationClose { error_code, reason } => put_application_close(
            out,
            *error_code,
            reason,
        ),
        FrameOf::HandshakeDone => put_varint(out, 0x1e),
        FrameOf::Datagram { body } => put_typed_blob(out, 0x31, body),
    }
}

#[tactic(auto, unfolding(crate::specs::FrameSpelling::last_spelling))]
fn put_last_fields(out: &mut Vec<u8>, frame: &Frame<'_>) -> Result<(), AllocError>
    ensures ok { OnOk result (out.new.items ≡ out.old.items ++ last_spelling (borrowed frame.now)) }
    ensures kept { take (length out.old.items) out.new.items ≡ out.old.items }
{
    match frame {
        FrameOf::Stream {
            id,
            offset,
            fin,
            body,
        } => put_last_stream(out, *id, *offset, *fin, body),
        FrameOf::Datagram { body } => {
            put_varint(out, 0x30)?;
            out.extend_from_slice(body)
        }
        _ => put_fields(out, frame),
    }
}

#[inline(always)]
fn put_blob(out: &mut Vec<u8>, bytes: &[u8]) -> Result<(), AllocError>
    ensures ok { OnOk result (out.new.items ≡ out.old.items ++ (blob bytes.now)) }
    ensures kept { take (length out.old.items) out.new.items ≡ out.old.items }
{
    put_varint(out, bytes.len() as u64)?;
    out.extend_from_slice(bytes)
}

fn put_typed_number(out: &mut Vec<u8>, ty: u64, number: u64) -> Result<(), AllocError>
    ensures ok { OnOk result (out.new.items ≡ out.old.items ++ (varint ty ++ varint number)) }
    ensures kept { take (length out.old.items) out.new.items ≡ out.old.items }
{
    put_varint(out, ty)?;
    put_varint(out, number)
}

fn put_typed_pair(out: &mut Vec<u8>, ty: u64, first: u64, second: u64) -> Result<(), AllocError>
    ensures ok { OnOk result (out.new.items ≡ out.old.items ++ (varint ty ++ varint first ++ varint second)) }
    ensures kept { take (length out.old.items) out.new.items ≡ out.old.items }
{
    put_varint(out, ty)?;
    put_varint(out, first)?;
    put_varint(out, second)
}

fn put_typed_blob(out: &mut Vec<u8>, ty: u64, bytes: &[u8]) -> Result<(), AllocError>
    ensures ok { OnOk result (out.new.items ≡ out.old.items ++ (varint ty ++ blob bytes.now)) }
    ensures kept { take (length out.old.items) out.new.items ≡ out.old.items }
{
    put_varint(out, ty)?;
    put_blob(out, bytes)
}

fn put_typed_word(out: &mut Vec<u8>, ty: u64, word: u64) -> Result<(), AllocError>
    ensures ok { OnOk result (out.new.items ≡ out.old.items ++ (varint ty ++ to_be_bytes w64 word)) }
    ensures kept { take (length out.old.items) out.new.items ≡ out.old.items }
{
    put_varint(out, ty)?;
    out.extend_from_slice(&word.to_be_bytes())
}

// The type of a frame that has one for each direction.
pub(crate) fn type_of_dir(ty: u64, dir: Dir) -> u64
    requires { ty < 2 ^ 62 }
    ensures { result ≡ ty + dir_bit dir }
{
    match dir {
        Dir::Bi => ty,
        Dir::Uni => ty + 1,
    }
}

fn put_reset_stream(
    out: &mut Vec<u8>,
    id: StreamId,
    error_code: VarInt,
    final_size: u64,
) -> Result<(), AllocError>
    ensures ok { OnOk result (out.new.items ≡ out.old.items ++ (varint 0x04 ++ varint id ++ varint error_code ++ varint final_size)) }
    ensures kept { take (length out.old.items) out.new.items ≡ out.old.items }
{
    put_typed_pair(out, 0x04, id.value(), error_code.into_inner())?;
    put_varint(out, final_size)
}

fn put_crypto(out: &mut Vec<u8>, offset: u64, body: &[u8]) -> Result<(), AllocError>
    ensures ok { OnOk result (out.new.items ≡ out.old.items ++ (varint 0x06 ++ varint offset ++ blob body.now)) }
    ensures kept { take (length out.old.items) out.new.items ≡ out.old.items }
{
    put_typed_number(out, 0x06, offset)?;
    put_blob(out, body)
}

pub(crate) fn stream_type_of(offset: u64, has_length: bool, fin: bool) -> u64
    ensures { result ≡ stream_type (has_offset offset) has_length fin }
{
    let offset_bit = if offset == 0 { 0 } else { 4 };
    let length_bit = if has_length { 2 } else { 0 };
    0x08 + offset_bit + length_bit + u64::from(fin)
}

fn put_offset(out: &mut Vec<u8>, offset: u64) -> Result<(), AllocError>
    ensures ok { OnOk result (out.new.items ≡ out.old.items ++ (offset_spelling offset)) }
    ensures kept { take (length out.old.items) out.new.items ≡ out.old.items }
{
    if offset == 0 {
        return Ok(());
    }
    put_varint(out, offset)
}

fn put_stream(
    out: &mut Vec<u8>,
    id: StreamId,
    offset: u64,
    fin: bool,
    body: &[u8],
) -> Result<(), AllocError>
    ensures ok { OnOk result (out.new.items ≡ out.old.items ++ (varint (stream_type (has_offset offset) true fin) ++ varint id ++ offset_spelling offset ++ blob body.now)) }
    ensures kept { take (length out.old.items) out.new.items ≡ out.old.items }
{
    put_typed_number(out, stream_type_of(offset, true, fin), id.value())?;
    put_offset(out, offset)?;
    put_blob(out, body)
}

fn put_last_stream(
    out: &mut Vec<u8>,
    id: StreamId,
    offset: u64,
    fin: bool,
    body: &[u8],
) -> Result<(), AllocError>
    ensures ok { OnOk result (out.new.items ≡ out.old.items ++ (varint (stream_type (has_offset offset) false fin) ++ varint id ++ offset_spelling offset ++ body.now)) }
    ensures kept { take (length out.old.items) out.new.items ≡ out.old.items }
{
    put_typed_number(out, stream_type_of(offset, false, fin), id.value())?;
    put_offset(out, offset)?;
    out.extend_from_slice(body)
}

fn put_new_connection_id(out: &mut Vec<u8>, new: &NewConnectionId) -> Result<(), AllocError>
    ensures ok { OnOk result (out.new.items ≡ out.old.items ++ (varint 0x18 ++ varint new.now.sequence ++ varint new.now.retire_prior_to ++ (length new.now.id ∷ new.now.id) ++ new.now.reset_token)) }
    ensures kept { take (length out.old.items) out.new.items ≡ out.old.items }
{
    put_typed_pair(out, 0x18, new.sequence, new.retire_prior_to)?;
    out.extend_from_slice(&[new.id.len() as u8])?;
    out.extend_from_slice(new.id.as_slice())?;
    out.extend_from_slice(new.reset_token.as_slice())
}

fn put_connection_close(
    out: &mut Vec<u8>,
    error_code: TransportErrorCode,
    frame_type: Option<u64>,
    reason: &[u8],
) -> Result<(), AllocError>
    ensures ok { OnOk result (out.new.items ≡ out.old.items ++ (varint 0x1c ++ varint error_code ++ varint (unwrap_or frame_type 0) ++ blob reason.now)) }
    ensures kept { take (length out.old.items) out.new.items ≡ out.old.items }
{
    put_typed_pair(out, 0x1c, error_code.into_inner(), frame_type.unwrap_or(0))?;
    put_blob(out, reason)
}

fn put_application_close(
    out: &mut Vec<u8>,
    error_code: VarInt,
    reason: &[u8],
) -> Result<(), AllocError>
    ensures ok { OnOk result (out.new.items ≡ out.old.items ++ (varint 0x1d ++ varint error_code ++ blob reason.now)) }
    ensures kept { take (length out.old.items) out.new.items ≡ out.old.items }
{
    put_typed_number(out, 0x1d, error_code.into_inner())?;
    put_blob(out, reason)
}

// ACK (RFC 9000, section 19.3)

#[tactic(auto, unfolding(crate::specs::FrameSpelling::ack_spelling))]
fn put_ack(out: &mut Vec<u8>, ack: &Ack<'_>) -> Result<(), AllocError>
    ensures ok { OnOk result (out.new.items ≡ out.old.items ++ (ack_spelling (ack_map (λ b. b.now) ack.now))) }
    ensures kept { take (length out.old.items) out.new.items ≡ out.old.items }
{
    put_ack_head(out, ack)?;
    put_numbers(out, ack.additional)?;
    put_ecn(out, ack.ecn)
}

fn put_ack_head(out: &mut Vec<u8>, ack: &Ack<'_>) -> Result<(), AllocError>
    ensures ok { OnOk result (out.new.items ≡ out.old.items ++ (varint (ack_type ack.now.ecn) ++ varint ack.now.largest ++ varint ack.now.delay ++ varint (length (numbers_of ack.now.additional.now) / 2))) }
    ensures kept { take (length out.old.items) out.new.items ≡ out.old.items }
{
    put_typed_pair(out, type_of_ack(ack.ecn), ack.largest, ack.delay)?;
    put_varint(out, count_numbers(ack.additional) / 2)
}

pub(crate) fn type_of_ack(ecn: Option<EcnCounts>) -> u64
    ensures { result ≡ ack_type ecn }
{
    match ecn {
        None => 0x02,
        Some(_) => 0x03,
    }
}

fn put_ecn(out: &mut Vec<u8>, ecn: Option<EcnCounts>) -> Result<(), AllocError>
    ensures ok { OnOk result (out.new.items ≡ out.old.items ++ (ecn_spelling ecn)) }
    ensures kept { take (length out.old.items) out.new.items ≡ out.old.items }
{
    match ecn {
        None => Ok(()),
        Some(counts) => {
            put_varint(out, counts.ect0)?;
            put_varint(out, counts.ect1)?;
            put_varint(out, counts.ce)
        }
    }
}

// How many numbers the bytes spell.
#[tactic(auto, unfolding(crate::specs::FrameSpelling::numbers_of), using(crate::proofs::Numbers::number_next, crate::proofs::Numbers::number_none, crate::proofs::Numbers::numbers_done))]
pub(crate) fn count_numbers(bytes: &[u8]) -> u64
    ensures { result ≡ length (numbers_of bytes.now) }
{
    let mut count = 0;
    let mut rest = bytes;
    for i in 0..bytes.len() {
        match read_varint(rest) {
            Ok((_, after)) => {
                count += 1;
                rest = after;
            }
            Err(Cut) => return count,
        }
    }
    count
}

// Appends the numbers that the bytes spell, each in its shortest form.
#[tactic(auto, unfolding(crate::specs::FrameSpelling::numbers_of), using(crate::proofs::Numbers::number_next, crate::proofs::Numbers::number_none, crate::proofs::Numbers::numbers_done))]
fn put_numbers(out: &mut Vec<u8>, bytes: &[u8]) -> Result<(), AllocError>
    ensures ok { OnOk result (out.new.items ≡ out.old.items ++ (flat_map varint (numbers_of bytes.now))) }
    ensures kept { take (length out.old.items) out.new.items ≡ out.old.items }
{
    let mut rest = bytes;
    for i in 0..bytes.len() {
        match read_varint(rest) {
            Ok((number, after)) => {
                put_varint(out, number)?;
                rest = after;
            }
            Err(Cut) => return Ok(()),
        }
    }
    Ok(())
}
