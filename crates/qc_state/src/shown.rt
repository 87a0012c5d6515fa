//! How the reasons for a connection's end, and what it reports, are printed.

ghost use Rattle.std.specs.Prelude.{Some, ◌++◌, codes, decimal};
ghost use Rattle.qc_state.specs.Shown.{shown_byte, shown_bytes, shown_reason, connection_close_text, application_close_text, error_text, dir_text, stream_event_text, event_text, endpoint_text};

use crate::events::{EndpointEvent, Event};
use crate::life::{ApplicationClose, ConnectionClose, ConnectionError};
use qc_base::{Dir, StreamId};
use qc_streams::StreamEvent;
use std::fmt::{self, Display};

/// A byte of a reason: printable ASCII as it is, and a question mark for any other byte.
#[derive(Drop)]
struct ShownByte(u8);

/// A reason's bytes.
#[derive(Drop)]
struct Shown<'a>(&'a [u8]);

/// The reason of a close behind its code, if it has one.
#[derive(Drop)]
struct Reason<'a>(&'a [u8]);

/// A kind of streams.
#[derive(Drop)]
struct Kind(Dir);

/// Streams of a kind, and what is told of them.
#[derive(Drop)]
struct OfKind(Dir, &'static str);

/// A stream, and what is told of it.
#[derive(Drop)]
struct OfStream(StreamId, &'static str);

/// What happened on a stream, or to how many there may be.
#[derive(Drop)]
struct OnStreams(StreamEvent);

impl fmt::Display for ShownByte {
    ghost output = { λ byte. Some (shown_byte byte.0) };

    fn fmt<W: fmt::Write>(&self, f: &mut fmt::Formatter<W>) -> fmt::Result {
        match self.0 {
            b' '..=b'~' => {
                let shown = self.0 as char;
                write!(f, "{shown}")
            }
            _ => write!(f, "?"),
        }
    }
}

impl<'a> fmt::Display for Shown<'a> {
    ghost output = { λ s. Some (shown_bytes s.0.now) };

    fn fmt<W: fmt::Write>(&self, f: &mut fmt::Formatter<W>) -> fmt::Result {
        for byte in self.0 {
            let byte = ShownByte(*byte);
            write!(f, "{byte}")?;
        }
        Ok(())
    }
}

impl<'a> fmt::Display for Reason<'a> {
    ghost output = { λ s. Some (shown_reason s.0.now) };

    #[tactic(auto, unfolding(crate::specs::Shown::shown_reason))]
    fn fmt<W: fmt::Write>(&self, f: &mut fmt::Formatter<W>) -> fmt::Result {
        if self.0.is_empty() {
            return Ok(());
        }
        let shown = Shown(self.0);
        write!(f, ": {shown}")
    }
}

impl fmt::Display for ConnectionClose {
    ghost output = { λ close. Some (connection_close_text close) };

    #[tactic(auto, unfolding(crate::specs::Shown::connection_close_text))]
    fn fmt<W: fmt::Write>(&self, f: &mut fmt::Formatter<W>) -> fmt::Result {
        let code = self.error_code;
        let reason = Reason(self.reason.as_slice());
        write!(f, "{code}{reason}")
    }
}

impl fmt::Display for ApplicationClose {
    ghost output = { λ close. Some (application_close_text close) };

    #[tactic(auto, unfolding(crate::specs::Shown::application_close_text))]
    fn fmt<W: fmt::Write>(&self, f: &mut fmt::Formatter<W>) -> fmt::Result {
        let code = self.error_code.into_inner();
        let reason = Reason(self.reason.as_slice());
        write!(f, "{code}{reason}")
    }
}

impl fmt::Display for ConnectionError {
    ghost output = { λ why. Some (error_text why) };

    #[tactic(auto, unfolding(crate::specs::Shown::error_text))]
    fn fmt<W: fmt::Write>(&self, f: &mut fmt::Formatter<W>) -> fmt::Result {
        match self {
            ConnectionError::TransportError(error) => write!(f, "{error}"),
            ConnectionError::ConnectionClosed(close) => write!(f, "aborted by peer: {close}"),
            ConnectionError::ApplicationClosed(close) => write!(f, "closed by peer: {close}"),
            ConnectionError::TimedOut => write!(f, "timed out"),
            ConnectionError::VersionMismatch => {
                write!(f, "peer doesn't implement any supported version")
            }
        }
    }
}

impl fmt::Display for Kind {
    ghost output = { λ kind. Some (dir_text kind.0) };

    fn fmt<W: fmt::Write>(&self, f: &mut fmt::Formatter<W>) -> fmt::Result {
        match self.0 {
            Dir::Bi => write!(f, "bidirectional"),
            Dir::Uni => write!(f, "unidirectional"),
        }
    }
}

impl fmt::Display for OfKind {
    ghost output = { λ it. Some (dir_text it.0 ++ (codes " streams " ++ it.1.now)) };

    fn fmt<W: fmt::Write>(&self, f: &mut fmt::Formatter<W>) -> fmt::Result {
        let kind = Kind(self.0);
        let what = self.1;
        write!(f, "{kind} streams {what}")
    }
}

impl fmt::Display for OfStream {
    ghost output = { λ it. Some (codes "stream " ++ (decimal it.0 ++ (codes " " ++ it.1.now))) };

    fn fmt<W: fmt::Write>(&self, f: &mut fmt::Formatter<W>) -> fmt::Result {
        let id = self.0.value();
        let what = self.1;
        write!(f, "stream {id} {what}")
    }
}

impl fmt::Display for OnStreams {
    ghost output = { λ event. Some (stream_event_text event.0) };

    #[tactic(auto, unfolding(crate::specs::Shown::stream_event_text))]
    fn fmt<W: fmt::Write>(&self, f: &mut fmt::Formatter<W>) -> fmt::Result {
        match self.0 {
            StreamEvent::Opened { dir } => OfKind(dir, "opened").fmt(f),
            StreamEvent::Readable { id } => OfStream(id, "readable").fmt(f),
            StreamEvent::Writable { id } => OfStream(id, "writable").fmt(f),
            StreamEvent::Finished { id } => OfStream(id, "finished").fmt(f),
            StreamEvent::Stopped { id, .. } => OfStream(id, "stopped").fmt(f),
            StreamEvent::Available { dir } => OfKind(dir, "available").fmt(f),
        }
    }
}

impl fmt::Display for Event {
    ghost output = { λ event. Some (event_text event) };

    #[tactic(auto, unfolding(crate::specs::Shown::event_text))]
    fn fmt<W: fmt::Write>(&self, f: &mut fmt::Formatter<W>) -> fmt::Result {
        match self {
            Event::HandshakeDataReady => write!(f, "handshake data ready"),
            Event::Connected => write!(f, "connected"),
            Event::ConnectionLost { reason } => write!(f, "connection lost: {reason}"),
            Event::DatagramReceived => write!(f, "datagram received"),
            Event::DatagramsUnblocked => write!(f, "datagrams unblocked"),
            Event::Stream(event) => {
                let told = OnStreams(*event);
                write!(f, "{told}")
            }
        }
    }
}

impl fmt::Display for EndpointEvent {
    ghost output = { λ event. Some (endpoint_text event) };

    #[tactic(auto, unfolding(crate::specs::Shown::endpoint_text))]
    fn fmt<W: fmt::Write>(&self, f: &mut fmt::Formatter<W>) -> fmt::Result {
        match self {
            EndpointEvent::ResetToken(remote, token) => write!(
                f,
                "stateless reset token {token} of {remote}"
            ),
            EndpointEvent::NeedIdentifiers(_, count) => write!(f, "{count} identifiers needed"),
            EndpointEvent::RetireConnectionId(_, sequence, _) => {
                write!(f, "identifier {sequence} retired")
            }
            EndpointEvent::Drained => write!(f, "drained"),
        }
    }
}
