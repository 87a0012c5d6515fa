//! What a frame is called, and whether it asks for an acknowledgement.

ghost use Rattle.std.specs.Prelude.{◌≡◌};
ghost use Rattle.qc_frame.specs.Frame.{borrowed};
ghost use Rattle.qc_frame.specs.FrameSpelling.{elicits, frame_name, frame_type};

use crate::frames::{Frame, FrameOf};
use crate::write::{stream_type_of, type_of_ack, type_of_dir};

impl Frame<'_> {
    /// Whether the receiver owes an acknowledgement of the frame (RFC 9000, section 13.2).
    #[tactic(auto, unfolding(crate::specs::FrameSpelling::elicits))]
    pub fn is_ack_eliciting(&self) -> bool
        ensures { result ≡ elicits (borrowed self.now) }
    {
        match self {
            FrameOf::Padding
            | FrameOf::Ack(_)
            | FrameOf::ConnectionClose { .. }
            | FrameOf::ApplicationClose { .. } => false,
            _ => true,
        }
    }

    /// The type that the frame is written with (RFC 9000, section 12.4). A frame that was read may
    /// have come with another one of its kind's: see [`TypedOf`](crate::TypedOf).
    #[tactic(auto, unfolding(crate::specs::FrameSpelling::frame_type))]
    pub fn ty(&self) -> u64
        ensures { result ≡ frame_type (borrowed self.now) }
    {
        match self {
            FrameOf::Padding => 0x00,
            FrameOf::Ping => 0x01,
            FrameOf::Ack(ack) => type_of_ack(ack.ecn),
            FrameOf::ResetStream { .. } => 0x04,
            FrameOf::StopSending { .. } => 0x05,
            FrameOf::Crypto { .. } => 0x06,
            FrameOf::NewToken { .. } => 0x07,
            FrameOf::Stream { offset, fin, .. } => stream_type_of(*offset, true, *fin),
            FrameOf::MaxData(_) => 0x10,
            FrameOf::MaxStreamData { .. } => 0x11,
            FrameOf::MaxStreams { dir, .. } => type_of_dir(0x12, *dir),
            FrameOf::DataBlocked { .. } => 0x14,
            FrameOf::StreamDataBlocked { .. } => 0x15,
            FrameOf::StreamsBlocked { dir, .. } => type_of_dir(0x16, *dir),
            FrameOf::NewConnectionId(_) => 0x18,
            FrameOf::RetireConnectionId { .. } => 0x19,
            FrameOf::PathChallenge(_) => 0x1a,
            FrameOf::PathResponse(_) => 0x1b,
            FrameOf::ConnectionClose { .. } => 0x1c,
            FrameOf::ApplicationClose { .. } => 0x1d,
            FrameOf::HandshakeDone => 0x1e,
            FrameOf::Datagram { .. } => 0x31,
        }
    }

    /// The name of the frame's kind (RFC 9000, section 19); APPLICATION_CLOSE for a
    /// CONNECTION_CLOSE of the application.
    #[tactic(auto, unfolding(crate::specs::FrameSpelling::frame_name))]
    pub fn name(&self) -> &'static str
        ensures { result.now ≡ frame_name (borrowed self.now) }
    {
        match self {
            FrameOf::Padding => "PADDING",
            FrameOf::Ping => "PING",
            FrameOf::Ack(_) => "ACK",
            FrameOf::ResetStream { .. } => "RESET_STREAM",
            FrameOf::StopSending { .. } => "STOP_SENDING",
            FrameOf::Crypto { .. } => "CRYPTO",
            FrameOf::NewToken { .. } => "NEW_TOKEN",
            FrameOf::Stream { .. } => "STREAM",
            FrameOf::MaxData(_) => "MAX_DATA",
            FrameOf::MaxStreamData { .. } => "MAX_STREAM_DATA",
            FrameOf::MaxStreams { .. } => "MAX_STREAMS",
            FrameOf::DataBlocked { .. } => "DATA_BLOCKED",
            FrameOf::StreamDataBlocked { .. } => "STREAM_DATA_BLOCKED",
            FrameOf::StreamsBlocked { .. } => "STREAMS_BLOCKED",
            FrameOf::NewConnectionId(_) => "NEW_CONNECTION_ID",
            FrameOf::RetireConnectionId { .. } => "RETIRE_CONNECTION_ID",
            FrameOf::PathChallenge(_) => "PATH_CHALLENGE",
            FrameOf::PathResponse(_) => "PATH_RESPONSE",
            FrameOf::ConnectionClose { .. } => "CONNECTION_CLOSE",
            FrameOf::ApplicationClose { .. } => "APPLICATION_CLOSE",
            FrameOf::HandshakeDone => "HANDSHAKE_DONE",
            FrameOf::Datagram { .. } => "DATAGRAM",
        }
    }
}
