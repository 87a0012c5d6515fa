//! What recovery's calls are told, and what they answer.

use qc_base::{Duration, Instant, SpaceId};
use qc_flight::PacketList;
use qc_frame::EcnCounts;

/// What an ACK says beside the numbers that it acknowledges (RFC 9000, section 19.3).
#[derive(Clone, Copy, Debug)]
pub struct AckValues {
    /// The greatest number.
    pub largest: u64,
    /// The peer's delay, in units of 2^exponent microseconds.
    pub delay: u64,
    /// How many packets came with each mark of ECN, where it says so.
    pub ecn: Option<EcnCounts>,
}

/// What a call of recovery has to know of the connection.
#[derive(Clone, Copy, Debug)]
pub struct Around {
    /// Whether the limit before the peer's address is validated holds sending back (RFC 9000,
    /// section 8.1).
    pub blocked: bool,
    /// Whether the peer has validated this end's address.
    pub peer_validated: bool,
    /// Whether the handshake is over.
    pub handshake_over: bool,
    /// The highest space.
    pub highest: SpaceId,
    /// Whether there are keys of the Initial space.
    pub initial_keys: bool,
    /// Whether there are keys of the Handshake space.
    pub handshake_keys: bool,
    /// For how long the peer may hold an ACK back.
    pub max_ack_delay: Duration,
    /// The exponent of the peer's delays.
    pub ack_delay_exponent: u8,
    /// Whether the application held sending back.
    pub app_limited: bool,
}

/// What an ACK settles. The packets of both lists have left the flight.
#[derive(Drop)]
pub struct Settled {
    /// The packets that it newly acknowledges.
    pub acked: PacketList,
    /// The packets that are lost by it, an MTU probe too.
    pub lost: PacketList,
}

/// What the loss timer does.
#[derive(Drop)]
pub enum Fired {
    /// Packets are lost.
    Lost {
        /// Their space.
        space: SpaceId,
        /// The packets.
        packets: PacketList,
    },
    /// Probes are due in a space.
    Probe {
        /// The space.
        space: SpaceId,
        /// How many.
        count: u8,
    },
    /// Nothing is due.
    Nothing,
}

/// When, and in which space, an ACK comes.
#[derive(Clone, Copy, Debug)]
pub(crate) struct Occasion {
    pub(crate) time: Instant,
    pub(crate) space: SpaceId,
    pub(crate) next: u64,
    pub(crate) began: Instant,
    /// The bytes in flight in the other spaces.
    pub(crate) others: u64,
}
