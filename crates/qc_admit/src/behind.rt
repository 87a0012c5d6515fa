//! How the frames of a packet go on.

use qc_frame::InvalidFrame;
use qc_state::ConnectionError;

/// What a frame leaves of its packet.
#[derive(Drop)]
pub(crate) enum Behind {
    /// The frames behind it are next.
    Goes,
    /// So they are, and it is a close with this reason.
    Closes(ConnectionError),
    /// It ends its packet.
    Ends,
}

/// Why no frame is next in a payload.
#[derive(Drop)]
pub(crate) enum Left {
    /// Nothing is left of it.
    End,
    /// What is left begins with no frame.
    Fault(InvalidFrame),
}
