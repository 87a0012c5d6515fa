//! Reading a header as far as header protection lets it (RFC 9000, section 17).

ghost use Rattle.std.specs.Prelude.{◌≡◌, ◌≢◌, ◌+◌, ◌-◌, ◌<◌, ◌≤◌, ◌^◌, length, take, drop, IfOk, IfErr, MatchResult, Ok, Err, List, ℕ};
ghost use Rattle.qc_base.specs.Grammar.{IsBytes};
ghost use Rattle.qc_base.specs.Reading.{Finds};
ghost use Rattle.qc_header.specs.Piece.{token_end};
ghost use Rattle.qc_header.specs.HeaderReading.{id_of, initial_at, numbered_at, typed_at, long_at, short_at, header_at, piece_at, GivesHead};

use crate::protected::{PacketDecodeError, ProtectedHeader};
use qc_base::{ConnectionId, Cut, LongType, read_byte, read_bytes, read_u32, read_varint};

/// A header that was read, the value of its Length field if it has one, and how many bytes are
/// behind it.
struct Head {
    header: ProtectedHeader,
    payload_len: Option<u64>,
    left: usize,
}

/// A connection id behind its length.
#[tactic(auto, unfolding(crate::specs::HeaderReading::id_of))]
fn read_id(bytes: &[u8]) -> Result<(&[u8], &[u8]), Cut>
    ensures exact { Finds (λ x. (x.0.now, x.1.now)) result (id_of bytes.now) }
    ensures fits { IfOk result (λ x. length x.0.now ≤ 20) }
    ensures shorter { IfOk result (λ x. length x.1.now < length bytes.now) }
{
    let (len, rest) = read_byte(bytes)?;
    if len > 20 {
        return Err(Cut);
    }
    read_bytes(rest, len as u64)
}

/// The fields behind the ids of an Initial packet of `size` bytes.
#[tactic(auto, unfolding(crate::specs::HeaderReading::initial_at))]
fn read_initial(
    size: usize,
    dst_cid: ConnectionId,
    src_cid: ConnectionId,
    version: u32,
    bytes: &[u8],
) -> Result<Head, PacketDecodeError>
    requires { length bytes.now ≤ size }
    ensures exact { GivesHead result (initial_at size dst_cid src_cid version bytes.now) }
    ensures fault { IfErr result (λ e. e ≢ PacketDecodeError.OutOfMemory) }
    ensures left { IfOk result (λ h. h.left ≤ length bytes.now) }
    ensures token { IfOk result (λ h. token_end h.header ≤ size - h.left) }
{
    let (token_len, rest) = read_varint(bytes)?;
    let token_start = size - rest.len();
    let (_, rest) = read_bytes(rest, token_len)?;
    let (payload_len, rest) = read_varint(rest)?;
    Ok(Head {
        header: ProtectedHeader::Initial {
            dst_cid,
            src_cid,
            token_start,
            token_len: token_len as usize,
            version,
        },
        payload_len: Some(payload_len),
        left: rest.len(),
    })
}

/// The fields behind the ids of a 0-RTT or Handshake packet.
#[tactic(auto, unfolding(crate::specs::HeaderReading::numbered_at))]
fn read_numbered(
    ty: LongType,
    dst_cid: ConnectionId,
    src_cid: ConnectionId,
    version: u32,
    bytes: &[u8],
) -> Result<Head, PacketDecodeError>
    ensures exact { GivesHead result (numbered_at ty dst_cid src_cid version bytes.now) }
    ensures fault { IfErr result (λ e. e ≢ PacketDecodeError.OutOfMemory) }
    ensures left { IfOk result (λ h. h.left ≤ length bytes.now) }
    ensures no_token { IfOk result (λ h. token_end h.header ≡ 0) }
{
    let (payload_len, rest) = read_varint(bytes)?;
    Ok(Head {
        header: ProtectedHeader::Long {
            ty,
            dst_cid,
            src_cid,
            version,
        },
        payload_len: Some(payload_len),
        left: rest.len(),
    })
}

/// The fields behind the ids of a packet with a long header, whose first byte is `first`.
#[tactic(auto, unfolding(crate::specs::HeaderReading::typed_at))]
fn read_typed(
    size: usize,
    first: u8,
    dst_cid: ConnectionId,
    src_cid: ConnectionId,
    version: u32,
    bytes: &[u8],
) -> Result<Head, PacketDecodeError>
    requires { length bytes.now ≤ size }
    ensures exact { GivesHead result (typed_at size first dst_cid src_cid version bytes.now) }
    ensures fault { IfErr result (λ e. e ≢ PacketDecodeError.OutOfMemory) }
    ensures left { IfOk result (λ h. h.left ≤ length bytes.now) }
    ensures token { IfOk result (λ h. token_end h.header ≤ size - h.left) }
{
    match first / 16 % 4 {
        0 => read_initial(size, dst_cid, src_cid, version, bytes),
        1 => read_numbered(LongType::ZeroRtt, dst_cid, src_cid, version, bytes),
        2 => read_numbered(LongType::Handshake, dst_cid, src_cid, version, bytes),
        _ => Ok(Head {
            header: ProtectedHeader::Retry {
                dst_cid,
                src_cid,
                version,
            },
            payload_len: None,
            left: bytes.len(),
        }),
    }
}

/// What is behind the first byte of a long header.
#[tactic(auto, unfolding(crate::specs::HeaderReading::long_at))]
fn read_long(
    size: usize,
    versions: &[u32],
    first: u8,
    bytes: &[u8],
) -> Result<Head, PacketDecodeError>
    requires { length bytes.now ≤ size }
    ensures exact { GivesHead result (long_at size versions.now first bytes.now) }
    ensures fault { IfErr result (λ e. e ≢ PacketDecodeError.OutOfMemory) }
    ensures left { IfOk result (λ h. h.left ≤ length bytes.now) }
    ensures token { IfOk result (λ h. token_end h.header ≤ size - h.left) }
{
    let (version, rest) = read_u32(bytes)?;
    let (dst, rest) = read_id(rest)?;
    let (src, rest) = read_id(rest)?;
    let dst_cid = ConnectionId::new(dst);
    let src_cid = ConnectionId::new(src);
    if version == 0 {
        return Ok(Head {
            header: ProtectedHeader::VersionNegotiate {
                random: first % 0x80,
                src_cid,
                dst_cid,
            },
            payload_len: None,
            left: rest.len(),
        });
    }
    if !versions.contains(&version) {
        return Err(PacketDecodeError::UnsupportedVersion {
            src_cid,
            dst_cid,
            version,
        });
    }
    read_typed(size, first, dst_cid, src_cid, version, rest)
}

/// What is behind the first byte of a short header.
#[tactic(auto, unfolding(crate::specs::HeaderReading::short_at))]
fn read_short(local_cid_len: usize, first: u8, bytes: &[u8]) -> Result<Head, PacketDecodeError>
    requires { local_cid_len ≤ 20 }
    ensures exact { GivesHead result (short_at local_cid_len first bytes.now) }
    ensures fault { IfErr result (λ e. e ≢ PacketDecodeError.OutOfMemory) }
    ensures left { IfOk result (λ h. h.left ≤ length bytes.now) }
    ensures no_token { IfOk result (λ h. token_end h.header ≡ 0) }
{
    let (dst, rest) = read_bytes(bytes, local_cid_len as u64)?;
    Ok(Head {
        header: ProtectedHeader::Short {
            spin: first / 32 % 2 == 1,
            dst_cid: ConnectionId::new(dst),
        },
        payload_len: None,
        left: rest.len(),
    })
}

/// The header at the front of `bytes`.
#[tactic(auto, unfolding(crate::specs::HeaderReading::header_at))]
fn read_head(
    bytes: &[u8],
    local_cid_len: usize,
    versions: &[u32],
    grease_quic_bit: bool,
) -> Result<Head, PacketDecodeError>
    requires { local_cid_len ≤ 20 }
    ensures exact { GivesHead result (header_at (length bytes.now) local_cid_len versions.now grease_quic_bit bytes.now) }
    ensures fault { IfErr result (λ e. e ≢ PacketDecodeError.OutOfMemory) }
    ensures left { IfOk result (λ h. h.left ≤ length bytes.now) }
    ensures token { IfOk result (λ h. token_end h.header ≤ length bytes.now - h.left) }
{
    let size = bytes.len();
    let (first, rest) = read_byte(bytes)?;
    if first / 64 % 2 == 0 && !grease_quic_bit {
        return Err(PacketDecodeError::InvalidHeader);
    }
    if first < 0x80 {
        read_short(local_cid_len, first, rest)
    } else {
        read_long(size, versions, first, rest)
    }
}

/// Where the packet at the front of a datagram lies.
pub(crate) struct Bounds {
    /// What is readable of its header.
    pub(crate) header: ProtectedHeader,
    /// Where its number begins, or its header ends.
    pub(crate) pn_offset: usize,
    /// Where the packet ends.
    pub(crate) end: usize,
}

/// The packet at the front of a datagram.
#[tactic(auto, unfolding(crate::specs::HeaderReading::piece_at))]
pub(crate) fn read_bounds(
    bytes: &[u8],
    local_cid_len: usize,
    versions: &[u32],
    grease_quic_bit: bool,
) -> Result<Bounds, PacketDecodeError>
    requires { local_cid_len ≤ 20 }
    ensures octets { IsBytes bytes.now }
    ensures exact { MatchResult result
        (λ b. piece_at local_cid_len versions.now grease_quic_bit bytes.now
        ≡ Ok (record { header = b.header; pn_offset = b.pn_offset; bytes = take b.end bytes.now }, drop b.end bytes.now))
        (λ e. piece_at local_cid_len versions.now grease_quic_bit bytes.now ≡ Err e) }
    ensures fault { IfErr result (λ e. e ≢ PacketDecodeError.OutOfMemory) }
    ensures order { IfOk result (λ b. b.pn_offset ≤ b.end) }
    ensures end { IfOk result (λ b. b.end ≤ length bytes.now) }
    ensures token { IfOk result (λ b. token_end b.header ≤ b.pn_offset) }
{
    let size = bytes.len();
    let head = read_head(bytes, local_cid_len, versions, grease_quic_bit)?;
    let Head {
        header,
        payload_len,
        left,
    } = head;
    let pn_offset = size - left;
    match payload_len {
        None => Ok(Bounds {
            header,
            pn_offset,
            end: size,
        }),
        Some(payload_len) => {
            if (left as u64) < payload_len {
                return Err(PacketDecodeError::InvalidHeader);
            }
            Ok(Bounds {
                header,
                pn_offset,
                end: pn_offset + payload_len as usize,
            })
        }
    }
}
