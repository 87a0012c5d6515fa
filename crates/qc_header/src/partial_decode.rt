//! Packets whose headers are read as far as header protection lets it.

ghost use Rattle.std.specs.Prelude.{◌≡◌, ◌<◌, ◌≤◌, ◌⊎◌, ℕ, List, [], length, MatchResult, IfOk, IfErr, IfSome, IsErrOf, Ok, Err};
ghost use Rattle.std.specs.Option.{option_map_or};
ghost use Rattle.qc_base.specs.Grammar.{IsBytes};
ghost use Rattle.qc_header.specs.HeaderGrammar.{PieceAt, NoPieceAt};
ghost use Rattle.qc_header.specs.HeaderReading.{piece_at, IsFollowed};
ghost use Rattle.qc_header.specs.Piece.{Piece, space_of, is_0rtt_header};
ghost use Rattle.qc_header.specs.Unprotected.{short_packet};

use crate::finish::leading_byte;
use crate::protected::{PacketDecodeError, ProtectedHeader};
use crate::read::{Bounds, read_bounds};
use bytes::BytesMut;
use qc_base::{ConnectionId, LongType, SpaceId};
use std::marker::Model;

/// A packet whose header is read as far as header protection lets it.
#[derive(Debug, Drop)]
pub struct PartialDecode {
    pub(crate) header: ProtectedHeader,
    pub(crate) pn_offset: usize,
    pub(crate) bytes: BytesMut,
}

impl Model for PartialDecode {
    ghost use Rattle.std.specs.Prelude.{List, ℕ};
    ghost use Rattle.qc_header.specs.Piece.{Piece, IsWithin};

    ghost Value = { Piece };

    ghost view = { λ p. record { header = p.header; pn_offset = p.pn_offset; bytes = p.bytes.items } };

    ghost invariant = { λ p. IsWithin p.header p.pn_offset p.bytes.items };
}

/// A 1-RTT packet whose header is read as far as header protection lets it.
#[derive(Debug, Drop)]
pub struct ShortPiece {
    /// The id that it was sent to.
    pub dst_cid: ConnectionId,
    /// Where its number begins.
    pub pn_offset: usize,
    /// All of its bytes.
    pub bytes: BytesMut,
}

/// How many bytes stand before the number of a 1-RTT packet at most: the first one, and 20 of an id.
const MOST_BEFORE_NUMBER: usize = 21;

/// The id of a short header with this spin bit, of which at most so many bytes stand before the number.
fn short_dst_cid(header: &ProtectedHeader, spins: bool, pn_offset: usize) -> Option<ConnectionId>
    ensures short { IfSome result (λ id. header.now ≡ ProtectedHeader.Short spins id) }
    ensures near { IfSome result (λ id. pn_offset ≤ 21) }
{
    match header {
        ProtectedHeader::Short { spin, dst_cid } => {
            if *spin == spins && pn_offset <= MOST_BEFORE_NUMBER {
                return Some(*dst_cid);
            }
            None
        }
        ProtectedHeader::Initial { .. }
        | ProtectedHeader::Long { .. }
        | ProtectedHeader::Retry { .. }
        | ProtectedHeader::VersionNegotiate { .. } => None,
    }
}

/// The first packet of a datagram, and what is behind it.
fn first_piece(
    mut bytes: BytesMut,
    local_cid_len: usize,
    versions: &[u32],
    grease_quic_bit: bool,
) -> Result<(PartialDecode, Option<BytesMut>), PacketDecodeError>
    requires { local_cid_len ≤ 20 }
    ensures octets { IsBytes bytes.items }
    ensures exact { IfOk result (λ r.
        piece_at local_cid_len versions.now grease_quic_bit bytes.items
        ≡ Ok (r.0, option_map_or (λ b. b.items) r.1 [])) }
    ensures rest { IfOk result (λ r. IfSome r.1 (λ b. 0 < length b.items)) }
    ensures fault { IfErr result (λ e. (e ≡ PacketDecodeError.OutOfMemory)
        ⊎ (piece_at local_cid_len versions.now grease_quic_bit bytes.items ≡ Err e)) }
    ensures memory { IsErrOf result PacketDecodeError.OutOfMemory
        → IsFollowed local_cid_len versions.now grease_quic_bit bytes.items }
{
    let bounds = read_bounds(bytes.as_slice(), local_cid_len, versions, grease_quic_bit)?;
    let Bounds {
        header,
        pn_offset,
        end,
    } = bounds;
    if end == bytes.len() {
        return Ok((
            PartialDecode {
                header,
                pn_offset,
                bytes,
            },
            None,
        ));
    }
    match bytes.split_off(end) {
        Ok(rest) => Ok((
            PartialDecode {
                header,
                pn_offset,
                bytes,
            },
            Some(rest),
        )),
        Err(_) => Err(PacketDecodeError::OutOfMemory),
    }
}

impl PartialDecode {
    /// Reads the first packet of a datagram, and gives what is behind it, if anything is. Connection
    /// ids of this end have `local_cid_len` bytes; the versions that it knows are `versions`; it takes
    /// packets with a fixed bit of 0 where it told so (`grease_quic_bit`, RFC 9287).
    ///
    /// `UnsupportedVersion` comes exactly for a long header with its ids and a version that is not
    /// known, `InvalidHeader` for all other bytes that begin with no packet (RFC 9000, section 17);
    /// `OutOfMemory` only where the first packet was read and bytes are behind it, which cannot be
    /// cut off.
    pub fn new(
        bytes: BytesMut,
        local_cid_len: usize,
        versions: &[u32],
        grease_quic_bit: bool,
    ) -> Result<(PartialDecode, Option<BytesMut>), PacketDecodeError>
        requires { local_cid_len ≤ 20 }
        ensures exact { IfOk result (λ r.
            piece_at local_cid_len versions.now grease_quic_bit bytes.items
            ≡ Ok (r.0, option_map_or (λ b. b.items) r.1 [])) }
        ensures rest { IfOk result (λ r. IfSome r.1 (λ b. 0 < length b.items)) }
        ensures fault { IfErr result (λ e. (e ≡ PacketDecodeError.OutOfMemory)
            ⊎ (piece_at local_cid_len versions.now grease_quic_bit bytes.items ≡ Err e)) }
        ensures memory { IsErrOf result PacketDecodeError.OutOfMemory
            → IsFollowed local_cid_len versions.now grease_quic_bit bytes.items }
        ensures found { IfOk result (λ r.
            PieceAt local_cid_len versions.now grease_quic_bit r.0 bytes.items
            (option_map_or (λ b. b.items) r.1 [])) }
        ensures only { (p : Piece) (rest : List ℕ)
            → PieceAt local_cid_len versions.now grease_quic_bit p bytes.items rest
            → MatchResult result
            (λ r. (r.0 ≡ p) × (option_map_or (λ b. b.items) r.1 [] ≡ rest))
            (λ e. e ≡ PacketDecodeError.OutOfMemory) }
        ensures refused { IfErr result (λ e. (e ≡ PacketDecodeError.OutOfMemory)
            ⊎ NoPieceAt local_cid_len versions.now grease_quic_bit bytes.items e) }
    {
        first_piece(bytes, local_cid_len, versions, grease_quic_bit)
    }

    /// What is readable of its header.
    pub fn header(&self) -> &ProtectedHeader
        ensures { result.now ≡ self.now.header }
    {
        &self.header
    }

    /// Its number space (RFC 9000, section 12.3); None exactly for Retry and Version Negotiation,
    /// which have no number.
    pub fn space(&self) -> Option<SpaceId>
        ensures { result ≡ space_of self.now.header }
    {
        match &self.header {
            ProtectedHeader::Initial { .. } => Some(SpaceId::Initial),
            ProtectedHeader::Long { ty, .. } => match *ty {
                LongType::Handshake => Some(SpaceId::Handshake),
                LongType::ZeroRtt => Some(SpaceId::Data),
            },
            ProtectedHeader::Short { .. } => Some(SpaceId::Data),
            ProtectedHeader::Retry { .. } | ProtectedHeader::VersionNegotiate { .. } => None,
        }
    }

    /// Whether it is a 0-RTT packet.
    pub fn is_0rtt(&self) -> bool
        ensures { result ≡ is_0rtt_header self.now.header }
    {
        match &self.header {
            ProtectedHeader::Long { ty, .. } => match *ty {
                LongType::Handshake => false,
                LongType::ZeroRtt => true,
            },
            ProtectedHeader::Initial { .. }
            | ProtectedHeader::Retry { .. }
            | ProtectedHeader::Short { .. }
            | ProtectedHeader::VersionNegotiate { .. } => false,
        }
    }

    /// The packet as a 1-RTT packet, where it has a short header, as [`PartialDecode::new`] reads one; else the packet as it is.
    pub fn into_short(self) -> Result<ShortPiece, PartialDecode>
        ensures short { IfOk result (λ s. self ≡ short_packet s.dst_cid s.pn_offset s.bytes.items) }
        ensures near { IfOk result (λ s. s.pn_offset ≤ 21) }
        ensures other { IfErr result (λ p. p ≡ self) }
    {
        let spins = leading_byte(self.bytes.as_slice()) / 32 % 2 == 1;
        match short_dst_cid(&self.header, spins, self.pn_offset) {
            None => Err(self),
            Some(dst_cid) => {
                let PartialDecode {
                    pn_offset,
                    bytes,
                    ..
                } = self;
                Ok(ShortPiece {
                    dst_cid,
                    pn_offset,
                    bytes,
                })
            }
        }
    }

    /// How many bytes the packet has.
    pub fn len(&self) -> usize
        ensures { result ≡ length self.now.bytes }
    {
        self.bytes.len()
    }

    /// All bytes of the packet.
    pub fn bytes(&self) -> &[u8]
        ensures { result.now ≡ self.now.bytes }
    {
        self.bytes.as_slice()
    }
}
