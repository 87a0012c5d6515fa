//! Which keys a packet names.

/// Which of a ring's keys a 1-RTT packet names, by its key phase and number (RFC 9001, section 6.5).
#[derive(Clone, Copy, Debug, PartialEq, Eq)]
pub enum Which {
    /// The keys of the epoch before.
    Previous,
    /// The keys of this epoch.
    Current,
    /// The keys of the epoch to come.
    Next,
}
