use crate::stream_frames::StreamMetaVec;
use qc_base::Instant;
use qc_frame::FrameList;
use std::net::SocketAddr;

/// A packet that was sent (RFC 9002, appendix A.1.1).
#[derive(Debug, Drop)]
pub struct SentPacket {
    /// When it was sent.
    pub at: Instant,
    /// Its size in bytes.
    pub size: u64,
    /// Whether its size counts as in flight.
    pub counted: bool,
    /// Whether it asks for an acknowledgement.
    pub ack_eliciting: bool,
    /// Its frames, which are sent again where it is lost, but for the STREAM frames.
    pub frames: FrameList,
    /// Its STREAM frames, whose bytes are sent again where it is lost.
    pub stream_frames: StreamMetaVec,
    /// The address that a NEW_TOKEN in it was made for (RFC 9000, section 8.1.3), if it held one. Where
    /// the packet is lost, a new token for this address is owed; the lost one isn't sent again.
    pub new_token: Option<SocketAddr>,
}
