//! The frames of QUIC packets (RFC 9000, sections 12.4 and 19; RFC 9221).
#![tactic(auto)]

mod ack_ranges;
mod eliciting;
mod fault;
mod frames;
mod iter;
mod laws;
mod list;
mod measure;
mod names;
mod read;
mod size;
mod write;

pub use ack_ranges::{AckRanges, ranges_lie_apart};
pub use fault::{FrameFault, InvalidFrame};
pub use frames::{
    Ack, AckOf, EcnCounts, Frame, FrameOf, NewConnectionId, OwnedAck, OwnedFrame, TypedFrame,
    TypedOf,
};
pub use iter::{Iter, first_frame};
pub use laws::written_is_read;
pub use list::{FrameList, put_frames};
pub use size::{
    ACK_MAX, ACK_RANGE_MAX, CONNECTION_CLOSE_HEAD_MAX, CRYPTO_HEAD_MAX, DATAGRAM_HEAD_MAX,
    ECN_COUNTS_MAX, NEW_CONNECTION_ID_MAX, RETIRE_CONNECTION_ID_MAX, fit_application_reason,
    fit_close_reason, greatest_sizes,
};
pub use write::{put_frame, put_last_frame};
