//! Frames read (RFC 9000, section 19; RFC 9221, section 4): one function a kind, which gives the frame
//! with its type, and the bytes behind it.

ghost use Rattle.std.specs.Prelude.{◌≡◌, ◌<◌, ◌≤◌, ◌^◌, length, [], Ok, Err, IfOk, MatchResult};
ghost use Rattle.qc_base.specs.Reading.{Gives, give};
ghost use Rattle.qc_frame.specs.Frame.{borrowed, typed};
ghost use Rattle.qc_frame.specs.declared.frames.FrameOf.TheVariants as frames;
ghost use Rattle.qc_frame.specs.FrameReading.{ack_at, application_close_at, body_at, connection_close_at, counts_at, crypto_at, data_blocked_at, datagram_at, fields_at, frame_at, max_data_at, max_stream_data_at, max_streams_at, more_ranges_at, new_connection_id_at, new_token_at, offset_at, path_challenge_at, path_response_at, ranges_at, reset_stream_at, retire_connection_id_at, stop_sending_at, stream_at, stream_data_blocked_at, streams_blocked_at, type_given};

use crate::fault::{FrameFault, InvalidFrame};
use crate::frames::{AckOf, EcnCounts, FrameOf, NewConnectionId, TypedFrame, TypedOf};
use qc_base::{
    ConnectionId, Dir, ResetToken, StreamId, TransportErrorCode, VarInt, read_blob, read_byte,
    read_bytes, read_u64, read_varint,
};

/// The frame at the front of the bytes with its type, and the bytes behind it.
pub(crate) fn read_frame(bytes: &[u8]) -> Result<(TypedFrame<'_>, &[u8]), InvalidFrame>
    ensures { Gives (λ x. (typed x.0, x.1.now)) result (frame_at bytes.now) }
{
    let (item, behind) = read_item(bytes);
    match item {
        Ok(read) => Ok((read, behind)),
        Err(invalid) => Err(invalid),
    }
}

/// The same as an item of a payload, with the bytes that its other items are read from: none behind
/// a fault.
#[tactic(auto, unfolding(crate::specs::FrameReading::frame_at))]
pub(crate) fn read_item(bytes: &[u8]) -> (Result<TypedFrame<'_>, InvalidFrame>, &[u8])
    ensures { MatchResult result.0 (λ read. frame_at bytes.now ≡ Ok (typed read, result.1.now)) (λ invalid. (frame_at bytes.now ≡ Err invalid) × (result.1.now ≡ [])) }
{
    let (ty, rest) = match read_varint(bytes) {
        Ok(read) => read,
        Err(_) => {
            let invalid = InvalidFrame {
                ty: None,
                why: FrameFault::UnexpectedEnd,
            };
            return (Err(invalid), &[]);
        }
    };
    match read_fields(ty, rest) {
        Ok((read, behind)) => (Ok(read), behind),
        Err(why) => (Err(InvalidFrame { ty: Some(ty), why }), &[]),
    }
}

#[tactic(auto, unfolding(crate::specs::FrameReading::fields_at))]
fn read_fields(ty: u64, bytes: &[u8]) -> Result<(TypedFrame<'_>, &[u8]), FrameFault>
    ensures exact { Gives (λ x. (borrowed x.0.frame, x.1.now)) result (fields_at ty bytes.now) }
    ensures told { IfOk result (λ x. x.0.ty ≡ ty) }
{
    match ty {
        0x00 => read_padding(ty, bytes),
        0x01 => read_ping(ty, bytes),
        0x02 => read_ack(ty, false, bytes),
        0x03 => read_ack(ty, true, bytes),
        0x04 => read_reset_stream(ty, bytes),
        0x05 => read_stop_sending(ty, bytes),
        0x06 => read_crypto(ty, bytes),
        0x07 => read_new_token(ty, bytes),
        0x08..=0x0f => read_stream(ty, ty / 4 % 2 == 1, ty / 2 % 2 == 1, ty % 2 == 1, bytes),
        0x10 => read_max_data(ty, bytes),
        0x11 => read_max_stream_data(ty, bytes),
        0x12 => read_max_streams(ty, Dir::Bi, bytes),
        0x13 => read_max_streams(ty, Dir::Uni, bytes),
        0x14 => read_data_blocked(ty, bytes),
        0x15 => read_stream_data_blocked(ty, bytes),
        0x16 => read_streams_blocked(ty, Dir::Bi, bytes),
        0x17 => read_streams_blocked(ty, Dir::Uni, bytes),
        0x18 => read_new_connection_id(ty, bytes),
        0x19 => read_retire_connection_id(ty, bytes),
        0x1a => read_path_challenge(ty, bytes),
        0x1b => read_path_response(ty, bytes),
        0x1c => read_connection_close(ty, bytes),
        0x1d => read_application_close(ty, bytes),
        0x1e => read_handshake_done(ty, bytes),
        0x30 => read_datagram(ty, false, bytes),
        0x31 => read_datagram(ty, true, bytes),
        _ => Err(FrameFault::InvalidFrameId),
    }
}

fn read_padding(ty: u64, bytes: &[u8]) -> Result<(TypedFrame<'_>, &[u8]), FrameFault>
    ensures exact { Gives (λ x. (borrowed x.0.frame, x.1.now)) result (give frames.Padding bytes.now) }
    ensures told { IfOk result (λ x. x.0.ty ≡ ty) }
{
    Ok((
        TypedOf {
            ty,
            frame: FrameOf::Padding,
        },
        bytes,
    ))
}

fn read_ping(ty: u64, bytes: &[u8]) -> Result<(TypedFrame<'_>, &[u8]), FrameFault>
    ensures exact { Gives (λ x. (borrowed x.0.frame, x.1.now)) result (give frames.Ping bytes.now) }
    ensures told { IfOk result (λ x. x.0.ty ≡ ty) }
{
    Ok((
        TypedOf {
            ty,
            frame: FrameOf::Ping,
        },
        bytes,
    ))
}

fn varint_of_number(number: u64) -> VarInt
    requires { number < 2 ^ 62 }
    ensures { result ≡ number }
{
    VarInt::from_u64(number).unwrap()
}

fn stream_id_of_number(number: u64) -> StreamId
    requires { number < 2 ^ 62 }
    ensures { result ≡ number }
{
    StreamId::from(varint_of_number(number))
}

#[tactic(auto, unfolding(crate::specs::FrameReading::ack_at))]
fn read_ack(ty: u64, has_counts: bool, bytes: &[u8]) -> Result<(TypedFrame<'_>, &[u8]), FrameFault>
    ensures exact { Gives (λ x. (borrowed x.0.frame, x.1.now)) result (ack_at has_counts bytes.now) }
    ensures told { IfOk result (λ x. x.0.ty ≡ ty) }
{
    let (largest, rest) = read_varint(bytes)?;
    let (delay, rest) = read_varint(rest)?;
    let (count, rest) = read_varint(rest)?;
    let behind = skip_ranges(count, largest, rest)?;
    let (additional, _) = rest.split_at(rest.len() - behind.len());
    let (ecn, rest) = read_counts(has_counts, behind)?;
    let ack = AckOf {
        largest,
        delay,
        additional,
        ecn,
    };
    Ok((
        TypedOf {
            ty,
            frame: FrameOf::Ack(ack),
        },
        rest,
    ))
}

// The bytes behind the ranges of an ACK: the first range, and `count` more.
#[tactic(auto, unfolding(crate::specs::FrameReading::ranges_at))]
fn skip_ranges(count: u64, largest: u64, bytes: &[u8]) -> Result<&[u8], FrameFault>
    ensures exact { Gives (λ x. (tt, x.now)) result (ranges_at count largest bytes.now) }
    ensures shorter { IfOk result (λ x. length x.now ≤ length bytes.now) }
{
    let (first, rest) = read_varint(bytes)?;
    if largest < first {
        return Err(FrameFault::Malformed);
    }
    skip_more_ranges(count, largest - first, rest)
}

#[tactic(auto, using(crate::proofs::Ranges::range_next, crate::proofs::Ranges::ranges_done))]
fn skip_more_ranges(count: u64, smallest: u64, bytes: &[u8]) -> Result<&[u8], FrameFault>
    ensures exact { Gives (λ x. (tt, x.now)) result (more_ranges_at count smallest bytes.now) }
    ensures shorter { IfOk result (λ x. length x.now ≤ length bytes.now) }
{
    let mut low = smallest;
    let mut rest = bytes;
    for i in 0..count {
        let (gap, behind) = read_varint(rest)?;
        if low < gap + 2 {
            return Err(FrameFault::Malformed);
        }
        let (len, behind) = read_varint(behind)?;
        if low - (gap + 2) < len {
            return Err(FrameFault::Malformed);
        }
        low = low - (gap + 2) - len;
        rest = behind;
    }
    Ok(rest)
}

#[tactic(auto, unfolding(crate::specs::FrameReading::counts_at))]
fn read_counts(has_counts: bool, bytes: &[u8]) -> Result<(Option<EcnCounts>, &[u8]), FrameFault>
    ensures { Gives (λ x. (x.0, x.1.now)) result (counts_at has_counts bytes.now) }
{
    if !has_counts {
        return Ok((None, bytes));
    }
    let (ect0, rest) = read_varint(bytes)?;
    let (ect1, rest) = read_varint(rest)?;
    let (ce, rest) = read_varint(rest)?;
    Ok((Some(EcnCounts { ect0, ect1, ce }), rest))
}

#[tactic(auto, unfolding(crate::specs::FrameReading::reset_stream_at))]
fn read_reset_stream(ty: u64, bytes: &[u8]) -> Result<(TypedFrame<'_>, &[u8]), FrameFault>
    ensures exact { Gives (λ x. (borrowed x.0.frame, x.1.now)) result (reset_stream_at bytes.now) }
    ensures told { IfOk result (λ x. x.0.ty ≡ ty) }
{
    let (id, rest) = read_varint(bytes)?;
    let (error_code, rest) = read_varint(rest)?;
    let (final_size, rest) = read_varint(rest)?;
    let id = stream_id_of_number(id);
    let error_code = varint_of_number(error_code);
    Ok((
        TypedOf {
            ty,
            frame: FrameOf::ResetStream {
                id,
                error_code,
                final_size,
            },
        },
        rest,
    ))
}

#[tactic(auto, unfolding(crate::specs::FrameReading::stop_sending_at))]
fn read_stop_sending(ty: u64, bytes: &[u8]) -> Result<(TypedFrame<'_>, &[u8]), FrameFault>
    ensures exact { Gives (λ x. (borrowed x.0.frame, x.1.now)) result (stop_sending_at bytes.now) }
    ensures told { IfOk result (λ x. x.0.ty ≡ ty) }
{
    let (id, rest) = read_varint(bytes)?;
    let (error_code, rest) = read_varint(rest)?;
    let id = stream_id_of_number(id);
    let error_code = varint_of_number(error_code);
    Ok((
        TypedOf {
            ty,
            frame: FrameOf::StopSending { id, error_code },
        },
        rest,
    ))
}

#[tactic(auto, unfolding(crate::specs::FrameReading::crypto_at))]
fn read_crypto(ty: u64, bytes: &[u8]) -> Result<(TypedFrame<'_>, &[u8]), FrameFault>
    ensures exact { Gives (λ x. (borrowed x.0.frame, x.1.now)) result (crypto_at bytes.now) }
    ensures told { IfOk result (λ x. x.0.ty ≡ ty) }
{
    let (offset, rest) = read_varint(bytes)?;
    let (body, rest) = read_blob(rest)?;
    Ok((
        TypedOf {
            ty,
            frame: FrameOf::Crypto { offset, body },
        },
        rest,
    ))
}

#[tactic(auto, unfolding(crate::specs::FrameReading::new_token_at))]
fn read_new_token(ty: u64, bytes: &[u8]) -> Result<(TypedFrame<'_>, &[u8]), FrameFault>
    ensures exact { Gives (λ x. (borrowed x.0.frame, x.1.now)) result (new_token_at bytes.now) }
    ensures told { IfOk result (λ x. x.0.ty ≡ ty) }
{
    let (token, rest) = read_blob(bytes)?;
    Ok((
        TypedOf {
            ty,
            frame: FrameOf::NewToken { token },
        },
        rest,
    ))
}

#[tactic(auto, unfolding(crate::specs::FrameReading::offset_at))]
fn read_offset(has_offset: bool, bytes: &[u8]) -> Result<(u64, &[u8]), FrameFault>
    ensures { Gives (λ x. (x.0, x.1.now)) result (offset_at has_offset bytes.now) }
{
    if !has_offset {
        return Ok((0, bytes));
    }
    let (offset, rest) = read_varint(bytes)?;
    Ok((offset, rest))
}

#[tactic(auto, unfolding(crate::specs::FrameReading::body_at))]
fn read_body(has_length: bool, bytes: &[u8]) -> Result<(&[u8], &[u8]), FrameFault>
    ensures { Gives (λ x. (x.0.now, x.1.now)) result (body_at has_length bytes.now) }
{
    if !has_length {
        return Ok((bytes, &[]));
    }
    let (body, rest) = read_blob(bytes)?;
    Ok((body, rest))
}

#[inline(always)]
#[tactic(auto, unfolding(crate::specs::FrameReading::stream_at))]
fn read_stream(
    ty: u64,
    has_offset: bool,
    has_length: bool,
    fin: bool,
    bytes: &[u8],
) -> Result<(TypedFrame<'_>, &[u8]), FrameFault>
    ensures exact { Gives (λ x. (borrowed x.0.frame, x.1.now)) result (stream_at has_offset has_length fin bytes.now) }
    ensures told { IfOk result (λ x. x.0.ty ≡ ty) }
{
    let (id, rest) = read_varint(bytes)?;
    let (offset, rest) = read_offset(has_offset, rest)?;
    let (body, rest) = read_body(has_length, rest)?;
    let id = stream_id_of_number(id);
    Ok((
        TypedOf {
            ty,
            frame: FrameOf::Stream {
                id,
                offset,
                fin,
                body,
            },
        },
        rest,
    ))
}

#[tactic(auto, unfolding(crate::specs::FrameReading::max_data_at))]
fn read_max_data(ty: u64, bytes: &[u8]) -> Result<(TypedFrame<'_>, &[u8]), FrameFault>
    ensures exact { Gives (λ x. (borrowed x.0.frame, x.1.now)) result (max_data_at bytes.now) }
    ensures told { IfOk result (λ x. x.0.ty ≡ ty) }
{
    let (limit, rest) = read_varint(bytes)?;
    Ok((
        TypedOf {
            ty,
            frame: FrameOf::MaxData(limit),
        },
        rest,
    ))
}

#[tactic(auto, unfolding(crate::specs::FrameReading::max_stream_data_at))]
fn read_max_stream_data(ty: u64, bytes: &[u8]) -> Result<(TypedFrame<'_>, &[u8]), FrameFault>
    ensures exact { Gives (λ x. (borrowed x.0.frame, x.1.now)) result (max_stream_data_at bytes.now) }
    ensures told { IfOk result (λ x. x.0.ty ≡ ty) }
{
    let (id, rest) = read_varint(bytes)?;
    let (offset, rest) = read_varint(rest)?;
    let id = stream_id_of_number(id);
    Ok((
        TypedOf {
            ty,
            frame: FrameOf::MaxStreamData { id, offset },
        },
        rest,
    ))
}

#[tactic(auto, unfolding(crate::specs::FrameReading::max_streams_at))]
fn read_max_streams(ty: u64, dir: Dir, bytes: &[u8]) -> Result<(TypedFrame<'_>, &[u8]), FrameFault>
    ensures exact { Gives (λ x. (borrowed x.0.frame, x.1.now)) result (max_streams_at dir bytes.now) }
    ensures told { IfOk result (λ x. x.0.ty ≡ ty) }
{
    let (count, rest) = read_varint(bytes)?;
    Ok((
        TypedOf {
            ty,
            frame: FrameOf::MaxStreams { dir, count },
        },
        rest,
    ))
}

#[tactic(auto, unfolding(crate::specs::FrameReading::data_blocked_at))]
fn read_data_blocked(ty: u64, bytes: &[u8]) -> Result<(TypedFrame<'_>, &[u8]), FrameFault>
    ensures exact { Gives (λ x. (borrowed x.0.frame, x.1.now)) result (data_blocked_at bytes.now) }
    ensures told { IfOk result (λ x. x.0.ty ≡ ty) }
{
    let (offset, rest) = read_varint(bytes)?;
    Ok((
        TypedOf {
            ty,
            frame: FrameOf::DataBlocked { offset },
        },
        rest,
    ))
}

#[tactic(auto, unfolding(crate::specs::FrameReading::stream_data_blocked_at))]
fn read_stream_data_blocked(ty: u64, bytes: &[u8]) -> Result<(TypedFrame<'_>, &[u8]), FrameFault>
    ensures exact { Gives (λ x. (borrowed x.0.frame, x.1.now)) result (stream_data_blocked_at bytes.now) }
    ensures told { IfOk result (λ x. x.0.ty ≡ ty) }
{
    let (id, rest) = read_varint(bytes)?;
    let (offset, rest) = read_varint(rest)?;
    let id = stream_id_of_number(id);
    Ok((
        TypedOf {
            ty,
            frame: FrameOf::StreamDataBlocked { id, offset },
        },
        rest,
    ))
}

#[tactic(auto, unfolding(crate::specs::FrameReading::streams_blocked_at))]
fn read_streams_blocked(
    ty: u64,
    dir: Dir,
    bytes: &[u8],
) -> Result<(TypedFrame<'_>, &[u8]), FrameFault>
    ensures exact { Gives (λ x. (borrowed x.0.frame, x.1.now)) result (streams_blocked_at dir bytes.now) }
    ensures told { IfOk result (λ x. x.0.ty ≡ ty) }
{
    let (limit, rest) = read_varint(bytes)?;
    Ok((
        TypedOf {
            ty,
            frame: FrameOf::StreamsBlocked { dir, limit },
        },
        rest,
    ))
}

#[tactic(auto, unfolding(crate::specs::FrameReading::new_connection_id_at))]
fn read_new_connection_id(ty: u64, bytes: &[u8]) -> Result<(TypedFrame<'_>, &[u8]), FrameFault>
    ensures exact { Gives (λ x. (borrowed x.0.frame, x.1.now)) result (new_connection_id_at bytes.now) }
    ensures told { IfOk result (λ x. x.0.ty ≡ ty) }
{
    let (sequence, rest) = read_varint(bytes)?;
    let (retire_prior_to, rest) = read_varint(rest)?;
    if sequence < retire_prior_to {
        return Err(FrameFault::Malformed);
    }
    let (len, rest) = read_byte(rest)?;
    if len == 0 || len > 20 {
        return Err(FrameFault::Malformed);
    }
    let (id, rest) = read_bytes(rest, len as u64)?;
    let (token, rest) = read_bytes(rest, 16)?;
    let new = NewConnectionId {
        sequence,
        retire_prior_to,
        id: ConnectionId::new(id),
        reset_token: ResetToken::new(token),
    };
    Ok((
        TypedOf {
            ty,
            frame: FrameOf::NewConnectionId(new),
        },
        rest,
    ))
}

#[tactic(auto, unfolding(crate::specs::FrameReading::retire_connection_id_at))]
fn read_retire_connection_id(ty: u64, bytes: &[u8]) -> Result<(TypedFrame<'_>, &[u8]), FrameFault>
    ensures exact { Gives (λ x. (borrowed x.0.frame, x.1.now)) result (retire_connection_id_at bytes.now) }
    ensures told { IfOk result (λ x. x.0.ty ≡ ty) }
{
    let (sequence, rest) = read_varint(bytes)?;
    Ok((
        TypedOf {
            ty,
            frame: FrameOf::RetireConnectionId { sequence },
        },
        rest,
    ))
}

#[tactic(auto, unfolding(crate::specs::FrameReading::path_challenge_at))]
fn read_path_challenge(ty: u64, bytes: &[u8]) -> Result<(TypedFrame<'_>, &[u8]), FrameFault>
    ensures exact { Gives (λ x. (borrowed x.0.frame, x.1.now)) result (path_challenge_at bytes.now) }
    ensures told { IfOk result (λ x. x.0.ty ≡ ty) }
{
    let (word, rest) = read_u64(bytes)?;
    Ok((
        TypedOf {
            ty,
            frame: FrameOf::PathChallenge(word),
        },
        rest,
    ))
}

#[tactic(auto, unfolding(crate::specs::FrameReading::path_response_at))]
fn read_path_response(ty: u64, bytes: &[u8]) -> Result<(TypedFrame<'_>, &[u8]), FrameFault>
    ensures exact { Gives (λ x. (borrowed x.0.frame, x.1.now)) result (path_response_at bytes.now) }
    ensures told { IfOk result (λ x. x.0.ty ≡ ty) }
{
    let (word, rest) = read_u64(bytes)?;
    Ok((
        TypedOf {
            ty,
            frame: FrameOf::PathResponse(word),
        },
        rest,
    ))
}

fn type_of_number(number: u64) -> Option<u64>
    ensures { result ≡ type_given number }
{
    if number == 0 { None } else { Some(number) }
}

#[tactic(auto, unfolding(crate::specs::FrameReading::connection_close_at))]
fn read_connection_close(ty: u64, bytes: &[u8]) -> Result<(TypedFrame<'_>, &[u8]), FrameFault>
    ensures exact { Gives (λ x. (borrowed x.0.frame, x.1.now)) result (connection_close_at bytes.now) }
    ensures told { IfOk result (λ x. x.0.ty ≡ ty) }
{
    let (error_code, rest) = read_varint(bytes)?;
    let (frame_type, rest) = read_varint(rest)?;
    let (reason, rest) = read_blob(rest)?;
    let error_code = TransportErrorCode::from(error_code);
    let frame_type = type_of_number(frame_type);
    Ok((
        TypedOf {
            ty,
            frame: FrameOf::ConnectionClose {
                error_code,
                frame_type,
                reason,
            },
        },
        rest,
    ))
}

#[tactic(auto, unfolding(crate::specs::FrameReading::application_close_at))]
fn read_application_close(ty: u64, bytes: &[u8]) -> Result<(TypedFrame<'_>, &[u8]), FrameFault>
    ensures exact { Gives (λ x. (borrowed x.0.frame, x.1.now)) result (application_close_at bytes.now) }
    ensures told { IfOk result (λ x. x.0.ty ≡ ty) }
{
    let (error_code, rest) = read_varint(bytes)?;
    let (reason, rest) = read_blob(rest)?;
    let error_code = varint_of_number(error_code);
    Ok((
        TypedOf {
            ty,
            frame: FrameOf::ApplicationClose { error_code, reason },
        },
        rest,
    ))
}

fn read_handshake_done(ty: u64, bytes: &[u8]) -> Result<(TypedFrame<'_>, &[u8]), FrameFault>
    ensures exact { Gives (λ x. (borrowed x.0.frame, x.1.now)) result (give frames.HandshakeDone bytes.now) }
    ensures told { IfOk result (λ x. x.0.ty ≡ ty) }
{
    Ok((
        TypedOf {
            ty,
            frame: FrameOf::HandshakeDone,
        },
        bytes,
    ))
}

#[tactic(auto, unfolding(crate::specs::FrameReading::datagram_at))]
fn read_datagram(
    ty: u64,
    has_length: bool,
    bytes: &[u8],
) -> Result<(TypedFrame<'_>, &[u8]), FrameFault>
    ensures exact { Gives (λ x. (borrowed x.0.frame, x.1.now)) result (datagram_at has_length bytes.now) }
    ensures told { IfOk result (λ x. x.0.ty ≡ ty) }
{
    let (body, rest) = read_body(has_length, bytes)?;
    Ok((
        TypedOf {
            ty,
            frame: FrameOf::Datagram { body },
        },
        rest,
    ))
}
