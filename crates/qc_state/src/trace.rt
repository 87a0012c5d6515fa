//! The trace of a driven connection: one step an input.

ghost use Rattle.std.specs.Prelude.{◌≡◌, [], ◌∷◌, ◌++◌, length, OnOk, OnErr};

use crate::body::Body;
use crate::deeds::Dids;
use crate::events::{EndpointEvents, Events};
use crate::input::Word;
use qc_base::{EcnCodepoint, Instant, StreamId, VarInt};
use std::alloc::{AllocError, Global};
use std::marker::Model;
use std::net::SocketAddr;

/// Why a call on a stream, or the sending of a datagram, was refused.
#[derive(Clone, Copy, Debug, PartialEq, Eq)]
pub enum Refusal {
    /// Nothing can be written now, or read now.
    Blocked,
    /// The stream is unknown, or closed to the application.
    ClosedStream,
    /// The peer stopped the stream, with this code (RFC 9000, 3.5).
    Stopped(VarInt),
    /// The stream was read out of order before.
    IllegalOrderedRead,
    /// The peer reset the stream, with this code (RFC 9000, 3.2).
    Reset(VarInt),
    /// No receive buffer for datagrams is configured.
    Disabled,
    /// The peer takes no datagrams.
    UnsupportedByPeer,
    /// The datagram is longer than a packet or the peer takes.
    TooLarge,
}

/// What a call answered.
#[derive(Drop)]
pub enum Answer {
    /// The call is done and has no value.
    Done,
    /// A datagram that begins with no packet was dropped.
    Dropped,
    /// The call gave no value: nothing was sent, no stream can be opened, none is there to accept, or no
    /// datagram came.
    Nothing,
    /// Whether the call did what it is for.
    Flag(bool),
    /// A stream was opened.
    Opened(StreamId),
    /// A stream was accepted.
    Accepted(StreamId),
    /// So many bytes were written.
    Wrote(u64),
    /// Bytes were read.
    Read {
        /// The offset of the first one in its stream.
        offset: u64,
        /// The bytes.
        body: Body,
    },
    /// A stream was read to its end.
    Ended,
    /// A datagram that came.
    Datagram(Body),
    /// The call was refused.
    Error(Refusal),
    /// A transmit: datagrams to be sent.
    Out {
        /// The address to send them to.
        destination: SocketAddr,
        /// The size of each datagram but the last, where there are several.
        segment: Option<u64>,
        /// The mark of explicit congestion notification that they carry (RFC 9000, 13.4).
        ecn: Option<EcnCodepoint>,
        /// The bytes of the datagrams.
        bytes: Body,
    },
}

/// What one input led to.
#[derive(Drop)]
pub struct Step {
    /// The input's place in the list of inputs.
    pub at: u64,
    /// The input's kind.
    pub word: Word,
    /// The input's time.
    pub now: Instant,
    /// The deeds, in order.
    pub did: Dids,
    /// The call's answer.
    pub answer: Answer,
    /// The events that the application was given after the call.
    pub events: Events,
    /// The events that the endpoint was given after the call.
    pub endpoint: EndpointEvents,
    /// The time at which the connection wants to be called again, if no input comes before.
    pub timeout: Option<Instant>,
}

/// The steps of a driven connection, in the order of the inputs. Contracts see a list.
#[derive(Drop)]
pub struct Trace {
    steps: Vec<Step>,
}

impl Model for Trace {
    ghost use Rattle.std.specs.Prelude.{List};
    ghost use Rattle.qc_state.specs.declared.trace.Step.{Step};

    ghost Value = { List Step };

    ghost view = { λ l. l.steps.items };
}

impl Trace {
    /// No steps.
    pub fn new(alloc: Global) -> Trace
        ensures { result ≡ [] }
    {
        Trace {
            steps: Vec::new(alloc),
        }
    }

    /// One step more. Want of memory is the only refusal, and then the list is as before.
    pub fn push(&mut self, step: Step) -> Result<(), AllocError>
        ensures ok { OnOk result (self.new ≡ self.old ++ step ∷ []) }
        ensures err { OnErr result (self.new ≡ self.old) }
    {
        self.steps.push(step)?;
        Ok(())
    }

    /// The steps.
    pub fn as_slice(&self) -> &[Step]
        ensures { result.now ≡ self.now }
    {
        self.steps.as_slice()
    }
}
