//! What happens to two rings, and what came of it.

use qc_base::Side;

/// Something that happens to two rings.
#[derive(Clone, Copy, Debug, PartialEq, Eq)]
pub enum RingEvent {
    /// An end seals a packet.
    Seal {
        /// The end.
        from: Side,
    },
    /// An end begins a new epoch, if it may.
    Update {
        /// The end.
        from: Side,
    },
    /// A packet reaches the other end, for the first time or again.
    Deliver {
        /// Who sealed it.
        from: Side,
        /// Which of its packets it is, counted from 0.
        index: u64,
    },
    /// An end drops its previous keys, if they have a floor.
    Discard {
        /// The end.
        at: Side,
    },
}

/// What came of a [`RingEvent`]. None of them is an update that the peer wasn't allowed to make.
#[derive(Clone, Copy, Debug, PartialEq, Eq)]
pub enum PairOutcome {
    /// A packet was sealed.
    Sealed {
        /// Its number.
        number: u64,
        /// Its epoch.
        epoch: u64,
    },
    /// A new epoch began.
    Updated {
        /// The new epoch.
        epoch: u64,
    },
    /// The packet was opened.
    Opened,
    /// The packet wasn't opened. It is of an epoch before that of its sealer.
    Old,
    /// Previous keys were dropped.
    Discarded,
    /// There is no such packet, no update is allowed, or no keys are there to be dropped.
    Nothing,
}
