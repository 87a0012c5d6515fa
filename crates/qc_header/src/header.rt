//! What a packet's header says (RFC 9000, section 17).

use bytes::Bytes;
use qc_base::{ConnectionId, LongType, PacketNumber};

/// The header of an Initial packet (RFC 9000, section 17.2.2).
#[derive(Debug, PartialEq, Eq, Drop)]
pub struct InitialHeader {
    /// The destination connection id.
    pub dst_cid: ConnectionId,
    /// The source connection id.
    pub src_cid: ConnectionId,
    /// The token of a Retry packet or of a NEW_TOKEN frame; empty where there is none.
    pub token: Bytes,
    /// The packet number's low bytes.
    pub number: PacketNumber,
    /// The QUIC version.
    pub version: u32,
}

/// A packet's header, without its Length field.
#[derive(Debug, PartialEq, Eq, Drop)]
pub enum Header {
    /// An Initial packet (RFC 9000, section 17.2.2).
    Initial(InitialHeader),
    /// A 0-RTT or Handshake packet (RFC 9000, sections 17.2.3 and 17.2.4).
    Long {
        /// Which of the two it is.
        ty: LongType,
        /// The destination connection id.
        dst_cid: ConnectionId,
        /// The source connection id.
        src_cid: ConnectionId,
        /// The packet number's low bytes.
        number: PacketNumber,
        /// The QUIC version.
        version: u32,
    },
    /// A Retry packet (RFC 9000, section 17.2.5). Its token and tag are its payload.
    Retry {
        /// The destination connection id.
        dst_cid: ConnectionId,
        /// The source connection id.
        src_cid: ConnectionId,
        /// The QUIC version.
        version: u32,
    },
    /// A 1-RTT packet (RFC 9000, section 17.3.1).
    Short {
        /// The latency spin bit.
        spin: bool,
        /// The key phase bit.
        key_phase: bool,
        /// The destination connection id.
        dst_cid: ConnectionId,
        /// The packet number's low bytes.
        number: PacketNumber,
    },
    /// A Version Negotiation packet (RFC 9000, section 17.2.1). The versions are its payload.
    VersionNegotiate {
        /// The 7 low bits of the first byte. They mean nothing, but the highest of them is the fixed
        /// bit, which some readers want set (RFC 9000, section 17.2.1).
        random: u8,
        /// The source connection id.
        src_cid: ConnectionId,
        /// The destination connection id.
        dst_cid: ConnectionId,
    },
}
