//! The packets of a packet number space that are in flight, and how those that an ACK names, and
//! those that are lost, are taken out of them (RFC 9002, appendix A.1).
#![tactic(auto)]

mod counts;
mod flight;
mod laws;
mod list;
mod loss_rules;
mod room;
mod sent;
mod sift;
mod stream_frames;

pub use counts::Counts;
pub use flight::Flight;
pub use laws::packets_leave_once;
pub use list::PacketList;
pub use room::Room;
pub use sent::SentPacket;
pub use stream_frames::{StreamMeta, StreamMetaVec};
