//! What comes of taking the protection off a packet.

use bytes::Bytes;
use qc_base::{ConnectionId, EcnCodepoint};
use qc_packet::Which;

/// What a packet shows to the network, and the network to it.
#[derive(Clone, Copy)]
pub struct Signs {
    /// The mark of explicit congestion notification that its datagram came with (RFC 9000, 13.4).
    pub mark: Option<EcnCodepoint>,
    /// Its spin bit (RFC 9000, 17.4).
    pub spin: bool,
}

/// What comes of taking the protection off a packet (RFC 9001, 5.3 and 5.4).
#[derive(Drop)]
pub enum Opening {
    /// A key is missing, there are too few bytes for a sample, or the form isn't taken so far.
    Unreadable,
    /// Its key doesn't open it.
    Unopened,
    /// It opened, and its reserved bits aren't 0.
    Reserved {
        /// Its whole number.
        number: u64,
    },
    /// The next keys of the ring opened it, where its sender wasn't allowed to update its keys (RFC 9001, 6.2 and 6.4).
    Untimely {
        /// Its whole number.
        number: u64,
    },
    /// It opened.
    Opened {
        /// The source id of its header.
        source: ConnectionId,
        /// The token of its header; empty where its form has none.
        token: Bytes,
        /// The spin bit of its header; false where its form has none.
        spin: bool,
        /// Which keys of the ring opened it; None where its form isn't 1-RTT.
        which: Option<Which>,
        /// Its whole number.
        number: u64,
        /// Its payload.
        payload: Bytes,
    },
}
