//! Keys in pairs: one for what this end sends, one for what it receives.

/// Two keys of one kind.
#[derive(Clone, Copy, Debug, PartialEq, Eq, Drop)]
pub struct KeyPair<T> {
    /// For what this end sends.
    pub local: T,
    /// For what the peer sends.
    pub remote: T,
}

/// The keys of one packet number space (RFC 9001, section 5).
#[derive(Debug, Drop)]
pub struct Keys<H, P> {
    /// For the protection of headers.
    pub header: KeyPair<H>,
    /// For the protection of packets.
    pub packet: KeyPair<P>,
}
