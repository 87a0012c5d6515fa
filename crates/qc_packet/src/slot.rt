//! What a packet that is about to begin is given, and why it may not.

use qc_base::SpaceId;
use std::alloc::AllocError;

/// The next packet's number, and what is known of its key.
#[derive(Clone, Copy, Debug, PartialEq, Eq)]
pub struct Slot {
    /// Its packet number space.
    pub space: SpaceId,
    /// Its number.
    pub number: u64,
    /// The greatest number acknowledged in the space, 0 if there is none.
    pub largest_acked: u64,
    /// How many packets its key has sealed.
    pub sealed: u64,
    /// How many packets its key may seal (RFC 9001, section 6.6).
    pub limit: u64,
    /// Whether the first byte's fixed bit is flipped (RFC 9287).
    pub flip: bool,
}

/// Why no packet can be begun any more, so that the connection ends.
#[derive(Clone, Copy, Debug, PartialEq, Eq)]
pub enum Kill {
    /// The key has sealed as many packets as it may (RFC 9001, section 6.6).
    KeyLimit,
    /// The number is 2^62 - 1 or more, or lies 2^31 or more above the greatest acknowledged one, so that no
    /// packet can spell it (RFC 9000, sections 12.3 and 17.1).
    NumberLimit,
    /// The token of an Initial packet leaves fewer than 25 bytes for frames.
    TokenRoom,
}

/// Why a packet wasn't begun.
#[derive(Clone, Copy, Debug, PartialEq, Eq)]
pub enum BuildError {
    /// No packet like it can be begun any more.
    Kill(Kill),
    /// Want of memory.
    OutOfMemory,
}

impl From<AllocError> for BuildError {
    ghost use Rattle.std.specs.Prelude.{◌≡◌};
    ghost use Rattle.qc_packet.specs.declared.slot.BuildError.{BuildError};

    ghost from_gives = { λ _ error. error ≡ BuildError.OutOfMemory };

    fn from(_error: AllocError) -> BuildError {
        BuildError::OutOfMemory
    }
}
