//! The kinds of frames (RFC 9000, section 19; DATAGRAM: RFC 9221).

ghost use Rattle.std.specs.Prelude.{◌≡◌, IfOk};
ghost use Rattle.qc_frame.specs.Frame.{borrowed, owned};

use bytes::Bytes;
use qc_base::{ConnectionId, Dir, ResetToken, StreamId, TransportErrorCode, VarInt};
use std::alloc::{AllocError, Global};

/// A frame, whose byte strings are held as `B`: borrowed from a payload in a [`Frame`], its own in
/// an [`OwnedFrame`].
#[derive(Debug, Drop)]
pub enum FrameOf<B> {
    /// Fills a packet up (RFC 9000, section 19.1).
    Padding,
    /// Asks for an acknowledgement (RFC 9000, section 19.2).
    Ping,
    /// Acknowledges packets (RFC 9000, section 19.3).
    Ack(AckOf<B>),
    /// The sender ends its side of a stream early, after `final_size` bytes (RFC 9000, section
    /// 19.4).
    ResetStream {
        id: StreamId,
        error_code: VarInt,
        final_size: u64,
    },
    /// The receiver asks the other end to stop sending on a stream (RFC 9000, section 19.5).
    StopSending {
        id: StreamId,
        error_code: VarInt,
    },
    /// Bytes of the handshake from `offset` on (RFC 9000, section 19.6).
    Crypto {
        offset: u64,
        body: B,
    },
    /// A token for a later connection (RFC 9000, section 19.7).
    NewToken {
        token: B,
    },
    /// Bytes of a stream from `offset` on; with `fin` they are its last (RFC 9000, section 19.8).
    Stream {
        id: StreamId,
        offset: u64,
        fin: bool,
        body: B,
    },
    /// How many bytes of all streams together the sender of this frame takes (RFC 9000, section
    /// 19.9).
    MaxData(u64),
    /// How many bytes of a stream the sender of this frame takes (RFC 9000, section 19.10).
    MaxStreamData {
        id: StreamId,
        offset: u64,
    },
    /// How many streams the other end may open (RFC 9000, section 19.11).
    MaxStreams {
        dir: Dir,
        count: u64,
    },
    /// The connection's limit on data holds the sender back (RFC 9000, section 19.12).
    DataBlocked {
        offset: u64,
    },
    /// A stream's limit holds the sender back (RFC 9000, section 19.13).
    StreamDataBlocked {
        id: StreamId,
        offset: u64,
    },
    /// The limit on streams holds the sender back (RFC 9000, section 19.14).
    StreamsBlocked {
        dir: Dir,
        limit: u64,
    },
    /// One more connection id (RFC 9000, section 19.15).
    NewConnectionId(NewConnectionId),
    /// A connection id is used no more (RFC 9000, section 19.16).
    RetireConnectionId {
        sequence: u64,
    },
    /// Asks whether a path works, by eight bytes to be sent back (RFC 9000, section 19.17).
    PathChallenge(u64),
    /// Sends back the bytes of a PATH_CHALLENGE (RFC 9000, section 19.18).
    PathResponse(u64),
    /// The connection is closed by an error of the transport; `frame_type` is that of the frame
    /// which caused it (RFC 9000, section 19.19).
    ConnectionClose {
        error_code: TransportErrorCode,
        frame_type: Option<u64>,
        reason: B,
    },
    /// The application closes the connection (RFC 9000, section 19.19).
    ApplicationClose {
        error_code: VarInt,
        reason: B,
    },
    /// The server confirms the handshake (RFC 9000, section 19.20).
    HandshakeDone,
    /// A datagram of the application (RFC 9221, section 4).
    Datagram {
        body: B,
    },
}

/// What an ACK frame says (RFC 9000, section 19.3).
#[derive(Debug, Drop)]
pub struct AckOf<B> {
    /// The largest packet number acknowledged.
    pub largest: u64,
    /// For how long the acknowledgement was held back, in units of 2^ack_delay_exponent
    /// microseconds.
    pub delay: u64,
    /// The ranges as they are spelled, from the first range's length to the last range.
    pub additional: B,
    /// How many packets came with each mark of congestion, where the frame says so.
    pub ecn: Option<EcnCounts>,
}

/// How many packets came with each ECN codepoint (RFC 9000, section 19.3.2).
#[derive(Clone, Copy, Debug, PartialEq, Eq)]
pub struct EcnCounts {
    /// Packets with the codepoint ECT(0).
    pub ect0: u64,
    /// Packets with the codepoint ECT(1).
    pub ect1: u64,
    /// Packets with the codepoint ECN-CE.
    pub ce: u64,
}

/// What a NEW_CONNECTION_ID frame says (RFC 9000, section 19.15).
#[derive(Clone, Copy, Debug, PartialEq, Eq)]
pub struct NewConnectionId {
    /// The id's sequence number.
    pub sequence: u64,
    /// Ids with lower sequence numbers are to be retired.
    pub retire_prior_to: u64,
    /// The id.
    pub id: ConnectionId,
    /// The token by which a packet to the id resets the connection.
    pub reset_token: ResetToken,
}

/// A frame as it was read, whose byte strings are held as `B`.
#[derive(Debug, Drop)]
pub struct TypedOf<B> {
    /// The frame.
    pub frame: FrameOf<B>,
    /// The frame's type (RFC 9000, section 12.4). A STREAM's and a DATAGRAM's has bits that the
    /// frame does not keep, and the error that a frame causes names its type.
    pub ty: u64,
}

/// A frame as it was read, whose byte strings are slices of the payload that it was read from.
pub type TypedFrame<'a> = TypedOf<&'a [u8]>;

/// A frame whose byte strings are slices of the payload that it was read from.
pub type Frame<'a> = FrameOf<&'a [u8]>;

/// An ACK frame whose ranges are a slice of the payload that it was read from.
pub type Ack<'a> = AckOf<&'a [u8]>;

/// An ACK frame with ranges of its own.
pub type OwnedAck = AckOf<Bytes>;

/// A frame with byte strings of its own, which it may share with others.
pub type OwnedFrame = FrameOf<Bytes>;

/// The same frame, each of its byte strings changed.
macro_rules! with_bytes {
    ($frame:expr, $bytes:ident => $changed:expr) => {
        match $frame {
            FrameOf::Padding => FrameOf::Padding,
            FrameOf::Ping => FrameOf::Ping,
            FrameOf::Ack(ack) => {
                let $bytes = &ack.additional;
                FrameOf::Ack(AckOf {
                    largest: ack.largest,
                    delay: ack.delay,
                    additional: $changed,
                    ecn: ack.ecn,
                })
            }
            FrameOf::ResetStream {
                id,
                error_code,
                final_size,
            } => FrameOf::ResetStream {
                id: *id,
                error_code: *error_code,
                final_size: *final_size,
            },
            FrameOf::StopSending { id, error_code } => FrameOf::StopSending {
                id: *id,
                error_code: *error_code,
            },
            FrameOf::Crypto {
                offset,
                body: $bytes,
            } => FrameOf::Crypto {
                offset: *offset,
                body: $changed,
            },
            FrameOf::NewToken { token: $bytes } => FrameOf::NewToken { token: $changed },
            FrameOf::Stream {
                id,
                offset,
                fin,
                body: $bytes,
            } => FrameOf::Stream {
                id: *id,
                offset: *offset,
                fin: *fin,
                body: $changed,
            },
            FrameOf::MaxData(limit) => FrameOf::MaxData(*limit),
            FrameOf::MaxStreamData { id, offset } => FrameOf::MaxStreamData {
                id: *id,
                offset: *offset,
            },
            FrameOf::MaxStreams { dir, count } => FrameOf::MaxStreams {
                dir: *dir,
                count: *count,
            },
            FrameOf::DataBlocked { offset } => FrameOf::DataBlocked { offset: *offset },
            FrameOf::StreamDataBlocked { id, offset } => FrameOf::StreamDataBlocked {
                id: *id,
                offset: *offset,
            },
            FrameOf::StreamsBlocked { dir, limit } => FrameOf::StreamsBlocked {
                dir: *dir,
                limit: *limit,
            },
            FrameOf::NewConnectionId(new) => FrameOf::NewConnectionId(*new),
            FrameOf::RetireConnectionId { sequence } => FrameOf::RetireConnectionId {
                sequence: *sequence,
            },
            FrameOf::PathChallenge(data) => FrameOf::PathChallenge(*data),
            FrameOf::PathResponse(data) => FrameOf::PathResponse(*data),
            FrameOf::ConnectionClose {
                error_code,
                frame_type,
                reason: $bytes,
            } => FrameOf::ConnectionClose {
                error_code: *error_code,
                frame_type: *frame_type,
                reason: $changed,
            },
            FrameOf::ApplicationClose {
                error_code,
                reason: $bytes,
            } => FrameOf::ApplicationClose {
                error_code: *error_code,
                reason: $changed,
            },
            FrameOf::HandshakeDone => FrameOf::HandshakeDone,
            FrameOf::Datagram { body: $bytes } => FrameOf::Datagram { body: $changed },
        }
    };
}

impl OwnedFrame {
    /// The same frame, its byte strings borrowed.
    #[inline(always)]
    pub fn as_frame(&self) -> Frame<'_>
        ensures { borrowed result ≡ owned self.now }
    {
        with_bytes!(self, bytes => bytes.as_slice())
    }
}

impl Frame<'_> {
    /// The same frame, with byte strings of its own.
    #[inline(always)]
    pub fn to_owned(&self, alloc: Global) -> Result<OwnedFrame, AllocError>
        ensures { IfOk result (λ frame. owned frame ≡ borrowed self.now) }
    {
        Ok(with_bytes!(self, bytes => Bytes::copy_from_slice(alloc, bytes)?))
    }
}
