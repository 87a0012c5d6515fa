//! Keys of the epoch before.

use qc_crypto::KeyPair;

/// The keys of the epoch before the current one, kept for packets that come late (RFC 9001, section 6.5).
#[derive(Debug, Drop)]
pub(crate) struct PreviousKeys<P> {
    /// The keys.
    pub(crate) keys: KeyPair<P>,
    /// The first number known to be of a later epoch; None while no packet of one was opened.
    pub(crate) floor: Option<u64>,
}
