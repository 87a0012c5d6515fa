//! The inputs of a connection that is driven.

use crate::body::Body;
use crate::id_list::IdList;
use qc_base::{Dir, EcnCodepoint, Instant, StreamId, VarInt};
use std::net::SocketAddr;

/// What a driver tells a connection. Each input has its time.
#[derive(Drop)]
pub enum Input {
    /// A datagram came.
    Datagram {
        /// The time.
        now: Instant,
        /// The address that it came from.
        remote: SocketAddr,
        /// Its mark of explicit congestion notification (RFC 9000, 13.4).
        ecn: Option<EcnCodepoint>,
        /// Its bytes.
        bytes: Body,
    },
    /// Timers may have come.
    Timeout {
        /// The time.
        now: Instant,
    },
    /// What waits may be sent.
    Transmit {
        /// The time.
        now: Instant,
        /// At most so many datagrams.
        max_datagrams: usize,
    },
    /// The application opens a stream.
    Open {
        /// The time.
        now: Instant,
        /// Whether both ends send on it.
        dir: Dir,
    },
    /// The application accepts a stream that the peer opened.
    Accept {
        /// The time.
        now: Instant,
        /// Whether both ends send on it.
        dir: Dir,
    },
    /// The application writes on a stream.
    Write {
        /// The time.
        now: Instant,
        /// The stream.
        id: StreamId,
        /// The bytes.
        body: Body,
    },
    /// The application finishes a stream: it writes nothing more on it.
    Finish {
        /// The time.
        now: Instant,
        /// The stream.
        id: StreamId,
    },
    /// The application resets a stream that it sends on (RFC 9000, 3.1).
    ResetSend {
        /// The time.
        now: Instant,
        /// The stream.
        id: StreamId,
        /// The application's error code.
        code: VarInt,
    },
    /// The application wants no more of a stream (RFC 9000, 3.5).
    StopRecv {
        /// The time.
        now: Instant,
        /// The stream.
        id: StreamId,
        /// The application's error code.
        code: VarInt,
    },
    /// The application reads a stream in order.
    Read {
        /// The time.
        now: Instant,
        /// The stream.
        id: StreamId,
        /// At most so many bytes.
        max: usize,
    },
    /// The application sends a datagram; the oldest that wait are dropped for it where there is no room (RFC 9221, 5).
    SendDatagram {
        /// The time.
        now: Instant,
        /// Its bytes.
        body: Body,
    },
    /// The application takes the oldest datagram that came.
    RecvDatagram {
        /// The time.
        now: Instant,
    },
    /// The application closes the connection (RFC 9000, 10.2).
    Close {
        /// The time.
        now: Instant,
        /// The application's error code.
        code: VarInt,
        /// The application's reason.
        reason: Body,
    },
    /// The application asks for a PING.
    Ping {
        /// The time.
        now: Instant,
    },
    /// The application asks for an update of the 1-RTT keys (RFC 9001, 6.1).
    Update {
        /// The time.
        now: Instant,
    },
    /// The application sets how many streams the peer may have open at a time (RFC 9000, 4.6).
    MaxStreams {
        /// The time.
        now: Instant,
        /// Of which streams.
        dir: Dir,
        /// How many.
        count: VarInt,
    },
    /// The application sets how many bytes may be kept until they are acknowledged, on all streams.
    SendWindow {
        /// The time.
        now: Instant,
        /// How many.
        size: u64,
    },
    /// The application sets how many bytes may be underway or unread, on all streams (RFC 9000, 4.1).
    ReceiveWindow {
        /// The time.
        now: Instant,
        /// How many.
        size: VarInt,
    },
    /// The endpoint gives ids for the peer to use, as many as it was asked for at most (RFC 9000, 5.1.1).
    Identifiers {
        /// The time.
        now: Instant,
        /// The ids, with the next sequence numbers.
        ids: IdList,
    },
}

/// The kind of an input.
#[derive(Clone, Copy)]
pub enum Word {
    /// An `Input::Datagram`.
    Datagram,
    /// An `Input::Timeout`.
    Timeout,
    /// An `Input::Transmit`.
    Transmit,
    /// An `Input::Open`.
    Open,
    /// An `Input::Accept`.
    Accept,
    /// An `Input::Write`.
    Write,
    /// An `Input::Finish`.
    Finish,
    /// An `Input::ResetSend`.
    ResetSend,
    /// An `Input::StopRecv`.
    StopRecv,
    /// An `Input::Read`.
    Read,
    /// An `Input::SendDatagram`.
    SendDatagram,
    /// An `Input::RecvDatagram`.
    RecvDatagram,
    /// An `Input::Close`.
    Close,
    /// An `Input::Ping`.
    Ping,
    /// An `Input::Update`.
    Update,
    /// An `Input::MaxStreams`.
    MaxStreams,
    /// An `Input::SendWindow`.
    SendWindow,
    /// An `Input::ReceiveWindow`.
    ReceiveWindow,
    /// An `Input::Identifiers`.
    Identifiers,
}
