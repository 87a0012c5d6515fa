//! How a datagram came.

use qc_base::{EcnCodepoint, Instant};
use std::net::SocketAddr;

/// How a datagram came, and with it each of its packets.
#[derive(Clone, Copy)]
pub struct Coming {
    /// When it came.
    pub time: Instant,
    /// The address that it came from.
    pub remote: SocketAddr,
    /// The mark of explicit congestion notification that it came with (RFC 9000, 13.4).
    pub mark: Option<EcnCodepoint>,
}
