//! What an end keeps of a packet that it sealed.

/// A sealed packet: an empty payload without header.
#[derive(Clone, Copy, Debug, PartialEq, Eq)]
pub(crate) struct SealedPacket {
    /// Its number.
    pub(crate) number: u64,
    /// The epoch of the keys that sealed it.
    pub(crate) epoch: u64,
    /// The greatest number that its sealer had opened by then, which stands for all that it acknowledges.
    pub(crate) greatest: Option<u64>,
    /// The sealed payload.
    pub(crate) bytes: [u8; 16],
}
