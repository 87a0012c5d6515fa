//! How many bytes the spellings of frames have, without writing them.

ghost use Rattle.std.specs.Prelude.{◌≡◌, ℕ, ◌+◌, ◌/◌, ◌<◌, ◌≤◌, ◌^◌, ◌∷◌, ◌++◌, length, map, min, replicate, true, false, unwrap_or, IfOk};
ghost use Rattle.std.specs.Int.{w64, to_be_bytes};
ghost use Rattle.std.specs.List.{flat_map};
ghost use Rattle.qc_base.specs.Reading.{Finds, varint_of};
ghost use Rattle.qc_base.specs.Spelling.{blob};
ghost use Rattle.qc_base.specs.Varint.{varint};
ghost use Rattle.qc_frame.specs.Frame.{ack_map, borrowed, owned};
ghost use Rattle.qc_frame.specs.FrameSpelling.{ack_spelling, ack_type, ecn_spelling, frames_spelling, has_offset, last_spelling, numbers_of, offset_spelling, spelling, stream_type};
ghost use Rattle.qc_frame.specs.declared.frames.FrameOf.TheVariants.{Padding};

use crate::frames::{Ack, EcnCounts, Frame, FrameOf, NewConnectionId, OwnedFrame};
use crate::list::FrameList;
use crate::write::{count_numbers, stream_type_of, type_of_ack, type_of_dir};
use qc_base::{Cut, StreamId, VarInt, read_varint, varint_size};

impl Frame<'_> {
    /// How many bytes the frame's spelling has, which [`put_frame`](crate::put_frame) appends.
    #[tactic(auto, unfolding(crate::specs::FrameSpelling::spelling))]
    pub fn len(&self) -> usize
        ensures { result ≡ length (spelling (borrowed self.now)) }
    {
        match self {
            FrameOf::Padding => varint_size(0x00),
            FrameOf::Ping => varint_size(0x01),
            FrameOf::Ack(ack) => ack_len(ack),
            FrameOf::ResetStream {
                id,
                error_code,
                final_size,
            } => reset_stream_len(*id, *error_code, *final_size),
            FrameOf::StopSending { id, error_code } => pair_len(
                0x05,
                id.value(),
                error_code.into_inner(),
            ),
            FrameOf::Crypto { offset, body } => number_blob_len(0x06, *offset, body),
            FrameOf::NewToken { token } => blob_len(0x07, token),
            FrameOf::Stream {
                id,
                offset,
                fin,
                body,
            } => stream_len(*id, *offset, *fin, body),
            FrameOf::MaxData(limit) => number_len(0x10, *limit),
            FrameOf::MaxStreamData { id, offset } => pair_len(0x11, id.value(), *offset),
            FrameOf::MaxStreams { dir, count } => number_len(type_of_dir(0x12, *dir), *count),
            FrameOf::DataBlocked { offset } => number_len(0x14, *offset),
            FrameOf::StreamDataBlocked { id, offset } => pair_len(0x15, id.value(), *offset),
            FrameOf::StreamsBlocked { dir, limit } => number_len(type_of_dir(0x16, *dir), *limit),
            FrameOf::NewConnectionId(new) => new_connection_id_len(new),
            FrameOf::RetireConnectionId { sequence } => number_len(0x19, *sequence),
            FrameOf::PathChallenge(word) => word_len(0x1a, *word),
            FrameOf::PathResponse(word) => word_len(0x1b, *word),
            FrameOf::ConnectionClose {
                error_code,
                frame_type,
                reason,
            } => pair_blob_len(
                0x1c,
                error_code.into_inner(),
                frame_type.unwrap_or(0),
                reason,
            ),
            FrameOf::ApplicationClose { error_code, reason } => number_blob_len(
                0x1d,
                error_code.into_inner(),
                reason,
            ),
            FrameOf::HandshakeDone => varint_size(0x1e),
            FrameOf::Datagram { body } => blob_len(0x31, body),
        }
    }

    /// How many bytes the frame has as the last one of a packet, where a STREAM or DATAGRAM frame has
    /// no length (RFC 9000, section 19.8; RFC 9221, section 4):
    /// [`put_last_frame`](crate::put_last_frame) appends so many.
    #[tactic(auto, unfolding(crate::specs::FrameSpelling::last_spelling))]
    pub fn last_len(&self) -> usize
        ensures { result ≡ length (last_spelling (borrowed self.now)) }
    {
        match self {
            FrameOf::Stream {
                id,
                offset,
                fin,
                body,
            } => last_stream_len(*id, *offset, *fin, body),
            FrameOf::Datagram { body } => varint_size(0x30) + body.len(),
            _ => self.len(),
        }
    }
}

impl FrameList {
    /// How many bytes the frames' spelling has, or 2^64 - 1 where there are more.
    #[inline(always)]
    #[tactic(auto, using(crate::proofs::Shortest::padded_len))]
    pub fn spelled_len(&self) -> usize
        ensures { result ≡ min (length (frames_spelling self.now)) 18446744073709551615 }
    {
        let (frames, padding) = self.parts();
        each_len(frames).saturating_add(padding as usize)
    }
}

// The same of frames, one after the other.
fn each_len(frames: &[OwnedFrame]) -> usize
    ensures { result ≡ min (length (frames_spelling (map owned frames.now))) 18446744073709551615 }
{
    let mut len = 0usize;
    for frame in frames {
        len = len.saturating_add(frame.as_frame().len());
    }
    len
}

// A frame's type and a number.
fn number_len(ty: u64, number: u64) -> usize
    ensures size { result ≡ length (varint ty ++ varint number) }
    ensures most { result ≤ 16 }
{
    varint_size(ty) + varint_size(number)
}

// A frame's type and two numbers.
fn pair_len(ty: u64, first: u64, second: u64) -> usize
    ensures size { result ≡ length (varint ty ++ varint first ++ varint second) }
    ensures most { result ≤ 24 }
{
    varint_size(ty) + varint_size(first) + varint_size(second)
}

// A frame's type and eight bytes.
fn word_len(ty: u64, word: u64) -> usize
    ensures { result ≡ length (varint ty ++ to_be_bytes w64 word) }
{
    varint_size(ty) + 8
}

// A frame's type and a byte string behind its length.
fn blob_len(ty: u64, bytes: &[u8]) -> usize
    ensures { result ≡ length (varint ty ++ blob bytes.now) }
{
    varint_size(ty) + varint_size(bytes.len() as u64) + bytes.len()
}

// A frame's type, a number and a byte string behind its length.
fn number_blob_len(ty: u64, number: u64, bytes: &[u8]) -> usize
    ensures { result ≡ length (varint ty ++ varint number ++ blob bytes.now) }
{
    number_len(ty, number) + varint_size(bytes.len() as u64) + bytes.len()
}

// A frame's type, two numbers and a byte string behind its length.
fn pair_blob_len(ty: u64, first: u64, second: u64, bytes: &[u8]) -> usize
    ensures { result ≡ length (varint ty ++ varint first ++ varint second ++ blob bytes.now) }
{
    pair_len(ty, first, second) + varint_size(bytes.len() as u64) + bytes.len()
}

fn reset_stream_len(id: StreamId, error_code: VarInt, final_size: u64) -> usize
    ensures { result ≡ length (varint 0x04 ++ varint id ++ varint error_code ++ varint final_size) }
{
    pair_len(0x04, id.value(), error_code.into_inner()) + varint_size(final_size)
}

fn new_connection_id_len(new: &NewConnectionId) -> usize
    ensures { result ≡ length (varint 0x18 ++ varint new.now.sequence ++ varint new.now.retire_prior_to ++ (length new.now.id ∷ new.now.id) ++ new.now.reset_token) }
{
    pair_len(0x18, new.sequence, new.retire_prior_to)
        + 1
        + new.id.len()
        + new.reset_token.as_slice().len()
}

// A STREAM frame's offset, which is left out where it is 0 (RFC 9000, section 19.8).
fn offset_len(offset: u64) -> usize
    ensures size { result ≡ length (offset_spelling offset) }
    ensures most { result ≤ 8 }
{
    if offset == 0 { 0 } else { varint_size(offset) }
}

fn stream_len(id: StreamId, offset: u64, fin: bool, body: &[u8]) -> usize
    ensures { result ≡ length (varint (stream_type (has_offset offset) true fin) ++ varint id ++ offset_spelling offset ++ blob body.now) }
{
    let head = number_len(stream_type_of(offset, true, fin), id.value()) + offset_len(offset);
    head + varint_size(body.len() as u64) + body.len()
}

fn last_stream_len(id: StreamId, offset: u64, fin: bool, body: &[u8]) -> usize
    ensures { result ≡ length (varint (stream_type (has_offset offset) false fin) ++ varint id ++ offset_spelling offset ++ body.now) }
{
    let head = number_len(stream_type_of(offset, false, fin), id.value()) + offset_len(offset);
    head + body.len()
}

// ACK (RFC 9000, section 19.3)

#[tactic(auto, unfolding(crate::specs::FrameSpelling::ack_spelling))]
fn ack_len(ack: &Ack<'_>) -> usize
    ensures { result ≡ length (ack_spelling (ack_map (λ b. b.now) ack.now)) }
{
    let head = pair_len(type_of_ack(ack.ecn), ack.largest, ack.delay);
    let count = varint_size(count_numbers(ack.additional) / 2);
    head + count + numbers_len(ack.additional) + ecn_len(ack.ecn)
}

fn ecn_len(ecn: Option<EcnCounts>) -> usize
    ensures size { result ≡ length (ecn_spelling ecn) }
    ensures most { result ≤ 24 }
{
    match ecn {
        None => 0,
        Some(counts) => varint_size(counts.ect0)
            + varint_size(counts.ect1)
            + varint_size(counts.ce),
    }
}

// The number at the front of the bytes, whose shortest form is no longer than the one that it has.
fn read_number(bytes: &[u8]) -> Result<(u64, &[u8]), Cut>
    ensures exact { Finds (λ x. (x.0, x.1.now)) result (varint_of bytes.now) }
    ensures within { IfOk result (λ x. length (varint x.0) + length x.1.now ≤ length bytes.now) }
{
    match read_varint(bytes) {
        Ok((number, rest)) => Ok((number, rest)),
        Err(Cut) => Err(Cut),
    }
}

// How many bytes the numbers have that the bytes spell, each in its shortest form: no more than the
// bytes are.
#[tactic(auto, unfolding(crate::specs::FrameSpelling::numbers_of), using(crate::proofs::Numbers::number_next, crate::proofs::Numbers::number_none, crate::proofs::Numbers::numbers_done))]
fn numbers_len(bytes: &[u8]) -> usize
    ensures size { result ≡ length (flat_map varint (numbers_of bytes.now)) }
    ensures within { result ≤ length bytes.now }
{
    let mut len = 0;
    let mut rest = bytes;
    for i in 0..bytes.len() {
        match read_number(rest) {
            Ok((number, after)) => {
                len += varint_size(number);
                rest = after;
            }
            Err(Cut) => return len,
        }
    }
    len
}
