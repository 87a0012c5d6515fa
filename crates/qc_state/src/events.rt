//! What a connection reports to the application and to its endpoint.

ghost use Rattle.std.specs.Prelude.{◌≡◌, ◌==◌, [], ◌∷◌, ◌++◌, drop, length, slice_get, OnOk, OnErr, option_to_list};

use crate::life::ConnectionError;
use qc_base::{Instant, ResetToken};
use qc_streams::StreamEvent;
use std::alloc::{AllocError, Global};
use std::marker::Model;
use std::net::SocketAddr;

/// What a connection reports to the application.
#[derive(Debug, Drop, PartialEq, Eq)]
pub enum Event {
    /// What the handshake settles is known. It is given once.
    HandshakeDataReady,
    /// The handshake is over. It is given once.
    Connected,
    /// The connection was lost. It is given once.
    ConnectionLost {
        /// Why.
        reason: ConnectionError,
    },
    /// A datagram of the peer's application came, where none was queued before (RFC 9221).
    DatagramReceived,
    /// A datagram was sealed, and another had been refused before because the buffer was full: there is room again (RFC 9221).
    DatagramsUnblocked,
    /// Something happened on a stream, or to how many streams there may be.
    Stream(StreamEvent),
}

/// What a connection reports to its endpoint.
#[derive(Clone, Copy, Debug, PartialEq, Eq)]
pub enum EndpointEvent {
    /// The peer can reset the connection with this token, from this address (RFC 9000, 10.3).
    ResetToken(SocketAddr, ResetToken),
    /// At this time so many identifiers were wanted, for the peer to use (RFC 9000, 5.1.1).
    NeedIdentifiers(Instant, u64),
    /// At this time the peer retired the id with this sequence number; whether one more is wanted in its place (RFC 9000, 19.16).
    RetireConnectionId(Instant, u64, bool),
    /// The connection is drained: its state can be dropped. It is given once.
    Drained,
}

/// A list of events, in the order in which they were given.
#[derive(Drop)]
pub struct Events {
    events: Vec<Event>,
}

impl Model for Events {
    ghost use Rattle.std.specs.Prelude.{List};
    ghost use Rattle.qc_state.specs.declared.events.Event.{Event};

    ghost Value = { List Event };

    ghost view = { λ l. l.events.items };
}

impl Events {
    /// No events.
    pub fn new(alloc: Global) -> Events
        ensures { result ≡ [] }
    {
        Events {
            events: Vec::new(alloc),
        }
    }

    /// The report that the handshake's data is ready, after the others. Want of memory is the only refusal, and then the
    /// list is as before.
    pub fn push_ready(&mut self) -> Result<(), AllocError>
        ensures ok { OnOk result (self.new ≡ self.old ++ Event.HandshakeDataReady ∷ []) }
        ensures err { OnErr result (self.new ≡ self.old) }
    {
        self.events.push(Event::HandshakeDataReady)?;
        Ok(())
    }

    /// The report that the handshake is over, after the others. Want of memory is the only refusal, and then the list is as
    /// before.
    pub fn push_connected(&mut self) -> Result<(), AllocError>
        ensures ok { OnOk result (self.new ≡ self.old ++ Event.Connected ∷ []) }
        ensures err { OnErr result (self.new ≡ self.old) }
    {
        self.events.push(Event::Connected)?;
        Ok(())
    }

    /// The report of the end's reason, after the others. Want of memory is the only refusal, and then the list is as
    /// before.
    pub fn push_lost(&mut self, reason: ConnectionError) -> Result<(), AllocError>
        ensures ok { OnOk result (self.new ≡ self.old ++ Event.ConnectionLost reason ∷ []) }
        ensures err { OnErr result (self.new ≡ self.old) }
    {
        self.events.push(Event::ConnectionLost { reason })?;
        Ok(())
    }

    /// The report that a datagram came, after the others. Want of memory is the only refusal, and then the list is as before.
    pub fn push_datagram(&mut self) -> Result<(), AllocError>
        ensures ok { OnOk result (self.new ≡ self.old ++ Event.DatagramReceived ∷ []) }
        ensures err { OnErr result (self.new ≡ self.old) }
    {
        self.events.push(Event::DatagramReceived)?;
        Ok(())
    }

    /// The report that there is room for datagrams again, after the others. Want of memory is the only refusal, and then the list is as
    /// before.
    pub fn push_unblocked(&mut self) -> Result<(), AllocError>
        ensures ok { OnOk result (self.new ≡ self.old ++ Event.DatagramsUnblocked ∷ []) }
        ensures err { OnErr result (self.new ≡ self.old) }
    {
        self.events.push(Event::DatagramsUnblocked)?;
        Ok(())
    }

    /// The report of what happened on a stream, after the others. Want of memory is the only refusal, and then the list is
    /// as before.
    pub fn push_stream(&mut self, event: StreamEvent) -> Result<(), AllocError>
        ensures ok { OnOk result (self.new ≡ self.old ++ Event.Stream event ∷ []) }
        ensures err { OnErr result (self.new ≡ self.old) }
    {
        self.events.push(Event::Stream(event))?;
        Ok(())
    }

    /// Whether there is none.
    pub fn is_empty(&self) -> bool
        ensures { result ≡ (length self.now == 0) }
    {
        self.events.is_empty()
    }

    /// The first one, which is taken out, if there is one. It takes no memory.
    #[tactic(auto, using(crate::proofs::FirstTaken::first_taken, crate::proofs::FirstTaken::others_left, crate::proofs::FirstTaken::none_first, crate::proofs::FirstTaken::none_left))]
    pub fn take_first(&mut self) -> Option<Event>
        ensures first { result ≡ slice_get self.old 0 }
        ensures rest { self.new ≡ drop 1 self.old }
    {
        if self.events.is_empty() {
            return None;
        }
        Some(self.events.remove(0))
    }

    /// All events of another list, which are taken out there, after the others. Want of memory is the only refusal.
    pub fn append(&mut self, other: &mut Events) -> Result<(), AllocError>
        ensures all { OnOk result (self.new ≡ self.old ++ other.old) }
        ensures rest { OnOk result (other.new ≡ []) }
    {
        self.events.append(&mut other.events)
    }

    /// The events.
    pub fn as_slice(&self) -> &[Event]
        ensures { result.now ≡ self.now }
    {
        self.events.as_slice()
    }
}

/// A list of events for the endpoint, in the order in which they were given.
#[derive(Drop)]
pub struct EndpointEvents {
    events: Vec<EndpointEvent>,
}

impl Model for EndpointEvents {
    ghost use Rattle.std.specs.Prelude.{List};
    ghost use Rattle.qc_state.specs.declared.events.EndpointEvent.{EndpointEvent};

    ghost Value = { List EndpointEvent };

    ghost view = { λ l. l.events.items };
}

impl EndpointEvents {
    /// No events.
    pub fn new(alloc: Global) -> EndpointEvents
        ensures { result ≡ [] }
    {
        EndpointEvents {
            events: Vec::new(alloc),
        }
    }

    /// The event after the others, if there is one. Want of memory is the only refusal, and then the list is as before.
    pub fn push(&mut self, event: Option<EndpointEvent>) -> Result<(), AllocError>
        ensures ok { OnOk result (self.new ≡ self.old ++ option_to_list event) }
        ensures err { OnErr result (self.new ≡ self.old) }
    {
        if let Some(event) = event {
            self.events.push(event)?;
        }
        Ok(())
    }

    /// Whether there is none.
    pub fn is_empty(&self) -> bool
        ensures { result ≡ (length self.now == 0) }
    {
        self.events.is_empty()
    }

    /// The first one, which is taken out, if there is one. It takes no memory.
    #[tactic(auto, using(crate::proofs::FirstTaken::first_taken, crate::proofs::FirstTaken::others_left, crate::proofs::FirstTaken::none_first, crate::proofs::FirstTaken::none_left))]
    pub fn take_first(&mut self) -> Option<EndpointEvent>
        ensures first { result ≡ slice_get self.old 0 }
        ensures rest { self.new ≡ drop 1 self.old }
    {
        if self.events.is_empty() {
            return None;
        }
        Some(self.events.remove(0))
    }

    /// All of them, which are taken out.
    pub fn take(&mut self, alloc: Global) -> EndpointEvents
        ensures all { result ≡ self.old }
        ensures rest { self.new ≡ [] }
    {
        std::mem::replace(self, EndpointEvents::new(alloc))
    }

    /// The events.
    pub fn as_slice(&self) -> &[EndpointEvent]
        ensures { result.now ≡ self.now }
    {
        self.events.as_slice()
    }
}
