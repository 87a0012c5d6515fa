//! What is readable of a header under header protection (RFC 9001, section 5.4).

ghost use Rattle.std.specs.Prelude.{◌≡◌};
ghost use Rattle.qc_header.specs.Piece.{is_protected};

use qc_base::{ConnectionId, Cut, LongType};

/// Why a packet's header cannot be read.
#[derive(Clone, Copy, Debug, PartialEq, Eq)]
pub enum PacketDecodeError {
    /// The bytes are no header (RFC 9000, section 17).
    InvalidHeader,
    /// The packet has a version that this end does not know (RFC 9000, section 6.1).
    UnsupportedVersion {
        /// The packet's source connection id.
        src_cid: ConnectionId,
        /// The packet's destination connection id.
        dst_cid: ConnectionId,
        /// The packet's version.
        version: u32,
    },
    /// Memory ran out.
    OutOfMemory,
}

impl From<Cut> for PacketDecodeError {
    ghost use Rattle.std.specs.Prelude.{◌≡◌};
    ghost use Rattle.qc_header.specs.declared.protected.PacketDecodeError.{PacketDecodeError};

    ghost from_gives = { λ _ e. e ≡ PacketDecodeError.InvalidHeader };

    fn from(_: Cut) -> PacketDecodeError {
        PacketDecodeError::InvalidHeader
    }
}

/// A header without what header protection hides: the packet number, and of a short header the key
/// phase.
#[derive(Clone, Copy, Debug, PartialEq, Eq)]
pub enum ProtectedHeader {
    /// An Initial packet (RFC 9000, section 17.2.2).
    Initial {
        /// The destination connection id.
        dst_cid: ConnectionId,
        /// The source connection id.
        src_cid: ConnectionId,
        /// Where the token begins in the packet.
        token_start: usize,
        /// How many bytes the token has.
        token_len: usize,
        /// The QUIC version.
        version: u32,
    },
    /// A 0-RTT or Handshake packet (RFC 9000, sections 17.2.3 and 17.2.4).
    Long {
        /// Which of the two it is.
        ty: LongType,
        /// The destination connection id.
        dst_cid: ConnectionId,
        /// The source connection id.
        src_cid: ConnectionId,
        /// The QUIC version.
        version: u32,
    },
    /// A Retry packet (RFC 9000, section 17.2.5), which is not protected.
    Retry {
        /// The destination connection id.
        dst_cid: ConnectionId,
        /// The source connection id.
        src_cid: ConnectionId,
        /// The QUIC version.
        version: u32,
    },
    /// A 1-RTT packet (RFC 9000, section 17.3.1).
    Short {
        /// The latency spin bit.
        spin: bool,
        /// The destination connection id.
        dst_cid: ConnectionId,
    },
    /// A Version Negotiation packet (RFC 9000, section 17.2.1), which is not protected.
    VersionNegotiate {
        /// The 7 low bits of the first byte, the highest of which is the fixed bit.
        random: u8,
        /// The source connection id.
        src_cid: ConnectionId,
        /// The destination connection id.
        dst_cid: ConnectionId,
    },
}

impl ProtectedHeader {
    /// Whether it is of a form that header protection covers: exactly those with a packet number.
    pub(crate) fn is_protected(&self) -> bool
        ensures { result ≡ is_protected self.now }
    {
        match self {
            ProtectedHeader::Initial { .. }
            | ProtectedHeader::Long { .. }
            | ProtectedHeader::Short { .. } => true,
            ProtectedHeader::Retry { .. } | ProtectedHeader::VersionNegotiate { .. } => false,
        }
    }
}
