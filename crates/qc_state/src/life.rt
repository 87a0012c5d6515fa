//! The life of a connection, the reason of its end, and what of both waits to be reported.

ghost use Rattle.std.specs.Prelude.{◌≡◌, [], ◌∷◌, ◌++◌, true, slice_get, IfOk, OnOk};
ghost use Rattle.qc_state.specs.Life.{rank_of, is_open, is_closed, is_handshake, is_established, is_over, is_drained, life_closed, life_drained, life_established, data_ready, reason_given, life_raised, ready_event, ready_reported, connected_event, connected_reported, datagram_heard, more_heard, heard_reported, all_heard_reported, lost_event, lost_reported, token_learned, token_told, identifiers_wanted, retirement_told, first_notice, notice_reported, notices_reported, drained_event, drained_reported};

use crate::events::{EndpointEvent, EndpointEvents, Event, Events};
use bytes::Bytes;
use qc_base::{Instant, ResetToken, TransportError, TransportErrorCode, VarInt};
use std::alloc::{AllocError, Global};
use std::net::SocketAddr;

/// Where a connection is in its life (RFC 9000, 10). A life never falls: the variants stand in the order in which a
/// connection can pass through them.
#[derive(Clone, Copy)]
pub enum State {
    /// The handshake goes on.
    Handshake,
    /// The handshake is over.
    Established,
    /// This end closed, and waits for the peer's answer (RFC 9000, 10.2.1).
    Closed,
    /// The peer closed; nothing is sent any more (RFC 9000, 10.2.2).
    Draining,
    /// The end: every timer is stopped and nothing happens any more.
    Drained,
}

/// A close of a connection by an error of the transport (RFC 9000, 19.19).
#[derive(Debug, Drop, PartialEq, Eq)]
pub struct ConnectionClose {
    /// The error's code (RFC 9000, 20.1).
    pub error_code: TransportErrorCode,
    /// The type of the frame that caused it, if one did.
    pub frame_type: Option<u64>,
    /// A reason in words.
    pub reason: Bytes,
}

/// A close of an application (RFC 9000, 10.2).
#[derive(Debug, Drop, PartialEq, Eq)]
pub struct ApplicationClose {
    /// The application's error code (RFC 9000, 20.2).
    pub error_code: VarInt,
    /// The application's reason.
    pub reason: Bytes,
}

/// A close that this end sends.
#[derive(Debug, Drop, PartialEq, Eq)]
pub enum Close {
    /// Because of an error of the transport.
    Connection(ConnectionClose),
    /// Because the application closed.
    Application(ApplicationClose),
}

/// Why a connection ended.
#[derive(Debug, Drop, PartialEq, Eq)]
pub enum ConnectionError {
    /// The server speaks no version of QUIC that this end does (RFC 9000, 6.2).
    VersionMismatch,
    /// This end found the error.
    TransportError(TransportError),
    /// The peer closed because of an error of the transport.
    ConnectionClosed(ConnectionClose),
    /// The peer's application closed.
    ApplicationClosed(ApplicationClose),
    /// The peer gave no sign for too long (RFC 9000, 10.1).
    TimedOut,
}

/// The life, the first reason for its end, and what waits to be reported.
#[derive(Drop)]
pub struct Life {
    /// Where the connection is in its life.
    pub state: State,
    /// The first reason for the end, once one was given.
    pub reason: Option<ConnectionError>,
    /// Whether `HandshakeDataReady` waits to be given.
    pub ready: bool,
    /// Whether `Connected` waits to be given.
    pub connected: bool,
    /// What waits to be given of datagrams, in the order of the causes.
    pub heard: Events,
    /// The reason, while its report `ConnectionLost` waits to be given.
    pub lost: Option<ConnectionError>,
    /// What waits to be reported to the endpoint before the end, in the order of the causes.
    pub notices: EndpointEvents,
    /// Whether `Drained` waits to be given: the last that the endpoint is told, and a flag, since the end takes no memory.
    pub drained: bool,
    /// The close with which this end raised the life to `Closed`, if it did.
    pub close: Option<Close>,
}

impl ConnectionClose {
    /// The same close again. Want of memory is the only refusal.
    pub fn copy(&self) -> Result<ConnectionClose, AllocError>
        ensures { IfOk result (λ close. close ≡ self.now) }
    {
        let reason = self.reason.clone()?;
        Ok(ConnectionClose {
            error_code: self.error_code,
            frame_type: self.frame_type,
            reason,
        })
    }
}

impl ApplicationClose {
    /// The same close again. Want of memory is the only refusal.
    pub fn copy(&self) -> Result<ApplicationClose, AllocError>
        ensures { IfOk result (λ close. close ≡ self.now) }
    {
        let reason = self.reason.clone()?;
        Ok(ApplicationClose {
            error_code: self.error_code,
            reason,
        })
    }
}

impl ConnectionError {
    /// The same reason again. Want of memory is the only refusal.
    pub fn copy(&self) -> Result<ConnectionError, AllocError>
        ensures { IfOk result (λ why. why ≡ self.now) }
    {
        match self {
            ConnectionError::TransportError(error) => Ok(ConnectionError::TransportError(*error)),
            ConnectionError::ConnectionClosed(close) => {
                let close = close.copy()?;
                Ok(ConnectionError::ConnectionClosed(close))
            }
            ConnectionError::ApplicationClosed(close) => {
                let close = close.copy()?;
                Ok(ConnectionError::ApplicationClosed(close))
            }
            ConnectionError::TimedOut => Ok(ConnectionError::TimedOut),
            ConnectionError::VersionMismatch => Ok(ConnectionError::VersionMismatch),
        }
    }
}

/// The rank of a state: 0 for `Handshake` to 4 for `Drained`.
pub fn rank(state: State) -> u8
    ensures { result ≡ rank_of state }
{
    match state {
        State::Handshake => 0,
        State::Established => 1,
        State::Closed => 2,
        State::Draining => 3,
        State::Drained => 4,
    }
}

#[tactic(auto, unfolding(crate::specs::Life::life_raised, crate::specs::Life::life_closed, crate::specs::Life::life_drained, crate::specs::Life::life_established, crate::specs::Life::data_ready, crate::specs::Life::ready_event, crate::specs::Life::ready_reported, crate::specs::Life::connected_event, crate::specs::Life::connected_reported, crate::specs::Life::datagram_heard, crate::specs::Life::heard_reported, crate::specs::Life::all_heard_reported, crate::specs::Life::reason_given, crate::specs::Life::lost_event, crate::specs::Life::lost_reported, crate::specs::Life::token_learned, crate::specs::Life::identifiers_wanted, crate::specs::Life::retirement_told, crate::specs::Life::notice_reported, crate::specs::Life::notices_reported, crate::specs::Life::drained_event, crate::specs::Life::drained_reported))]
impl Life {
    /// Whether this end hasn't closed, and nothing has ended the connection.
    pub fn is_open(&self) -> bool
        ensures { result ≡ is_open self.now.state }
    {
        match self.state {
            State::Handshake | State::Established => true,
            State::Closed | State::Draining | State::Drained => false,
        }
    }

    /// This end closes: the life rises to `Closed`.
    pub fn shut(&mut self, close: Close)
        ensures { self.new ≡ life_closed self.old close }
    {
        self.state = State::Closed;
        self.close = Some(close);
    }

    /// The peer closed: the life rises to `Draining`.
    pub fn drain(&mut self)
        ensures { self.new ≡ life_drained self.old }
    {
        self.state = State::Draining;
    }

    /// Whether this end has closed, and the peer has not.
    pub fn is_closed(&self) -> bool
        ensures { result ≡ is_closed self.now.state }
    {
        match self.state {
            State::Closed => true,
            State::Handshake | State::Established | State::Draining | State::Drained => false,
        }
    }

    /// Whether the handshake isn't over.
    pub fn is_handshake(&self) -> bool
        ensures { result ≡ is_handshake self.now.state }
    {
        match self.state {
            State::Handshake => true,
            State::Established | State::Closed | State::Draining | State::Drained => false,
        }
    }

    /// Whether the handshake is over, and neither end has closed.
    pub fn is_established(&self) -> bool
        ensures { result ≡ is_established self.now.state }
    {
        match self.state {
            State::Established => true,
            State::Handshake | State::Closed | State::Draining | State::Drained => false,
        }
    }

    /// The handshake is over: the life rises to `Established`.
    pub fn establish(&mut self)
        ensures { self.new ≡ life_established self.old }
    {
        self.state = State::Established;
        self.connected = true;
    }

    /// What the handshake settles is ready.
    pub fn data_ready(&mut self)
        ensures { self.new ≡ data_ready self.old }
    {
        self.ready = true;
    }

    /// The report that the handshake's data is ready, once.
    pub fn take_ready(&mut self) -> Option<Event>
        ensures event { result ≡ ready_event self.old }
        ensures rest { self.new ≡ ready_reported self.old }
    {
        let waits = self.ready;
        self.ready = false;
        if waits {
            Some(Event::HandshakeDataReady)
        } else {
            None
        }
    }

    /// The report that the handshake is over, once.
    pub fn take_connected(&mut self) -> Option<Event>
        ensures event { result ≡ connected_event self.old }
        ensures rest { self.new ≡ connected_reported self.old }
    {
        let waits = self.connected;
        self.connected = false;
        if waits { Some(Event::Connected) } else { None }
    }

    /// Whether the connection drains or has ended: nothing that comes counts any more.
    pub fn is_over(&self) -> bool
        ensures { result ≡ is_over self.now.state }
    {
        match self.state {
            State::Draining | State::Drained => true,
            State::Handshake | State::Established | State::Closed => false,
        }
    }

    /// Whether the life has ended.
    pub fn is_drained(&self) -> bool
        ensures { result ≡ is_drained self.now.state }
    {
        match self.state {
            State::Drained => true,
            _ => false,
        }
    }

    /// A reason for the end is given, unless one was given before: once to be kept, and once to be reported.
    pub fn give(&mut self, why: ConnectionError, report: ConnectionError)
        requires { report ≡ why }
        ensures { self.new ≡ reason_given self.old why }
    {
        if self.reason.is_none() {
            self.lost = Some(report);
            self.reason = Some(why);
        }
    }

    /// The life rises to `to`.
    pub fn raise(&mut self, to: State)
        ensures { self.new ≡ life_raised self.old to }
    {
        let ends = rank(to) == 4;
        self.drained = self.drained || ends;
        self.state = to;
    }

    /// A datagram came, which waits to be reported. Want of memory is the only refusal.
    pub fn hear_datagram(&mut self) -> Result<(), AllocError>
        ensures { OnOk result (self.new ≡ datagram_heard true self.old) }
    {
        self.heard.push_datagram()
    }

    /// There is room for datagrams again, which waits to be reported. Want of memory is the only refusal.
    pub fn hear_room(&mut self) -> Result<(), AllocError>
        ensures { OnOk result (self.new ≡ more_heard (Event.DatagramsUnblocked ∷ []) self.old) }
    {
        self.heard.push_unblocked()
    }

    /// The first that waits of datagrams, which is given from now on; none where nothing waits.
    pub fn take_heard(&mut self) -> Option<Event>
        ensures event { result ≡ slice_get self.old.heard 0 }
        ensures rest { self.new ≡ heard_reported self.old }
    {
        self.heard.take_first()
    }

    /// All that waits of datagrams, which is given from now on, behind other events. Want of memory is the only refusal.
    pub fn take_all_heard(&mut self, events: &mut Events) -> Result<(), AllocError>
        ensures events { OnOk result (events.new ≡ events.old ++ self.old.heard) }
        ensures rest { OnOk result (self.new ≡ all_heard_reported self.old) }
    {
        events.append(&mut self.heard)
    }

    /// The report of the end's reason, once.
    pub fn take_lost(&mut self) -> Option<Event>
        ensures event { result ≡ lost_event self.old }
        ensures rest { self.new ≡ lost_reported self.old }
    {
        match self.lost.take() {
            Some(reason) => Some(Event::ConnectionLost { reason }),
            None => None,
        }
    }

    /// The peer's token for a stateless reset, which comes from this address, waits to be reported. Want of memory is the only refusal.
    pub fn learn_token(&mut self, remote: SocketAddr, token: ResetToken) -> Result<(), AllocError>
        ensures { OnOk result (self.new ≡ token_learned self.old remote token) }
    {
        self.notices
            .push(Some(EndpointEvent::ResetToken(remote, token)))
    }

    /// A token for a stateless reset came with another id of the peer, where one did: it waits to be reported. Want of memory is the only
    /// refusal.
    pub fn tell_token(
        &mut self,
        remote: SocketAddr,
        token: Option<ResetToken>,
    ) -> Result<(), AllocError>
        ensures { OnOk result (self.new ≡ token_told self.old remote token) }
    {
        match token {
            None => Ok(()),
            Some(token) => self.learn_token(remote, token),
        }
    }

    /// The peer retired the id with a number at `now`, which waits to be reported; `more` says that one more is wanted. Want of memory is
    /// the only refusal.
    pub fn tell_retirement(
        &mut self,
        now: Instant,
        sequence: u64,
        more: bool,
    ) -> Result<(), AllocError>
        ensures { OnOk result (self.new ≡ retirement_told self.old now sequence more) }
    {
        self.notices.push(Some(EndpointEvent::RetireConnectionId(now, sequence, more)))
    }

    /// So many identifiers are wanted at `now`, which waits to be reported. Want of memory is the only refusal.
    pub fn want(&mut self, now: Instant, count: u64) -> Result<(), AllocError>
        ensures { OnOk result (self.new ≡ identifiers_wanted self.old now count) }
    {
        self.notices
            .push(Some(EndpointEvent::NeedIdentifiers(now, count)))
    }

    /// The first that waits to be reported to the endpoint before the end, once.
    pub fn take_notice(&mut self) -> Option<EndpointEvent>
        ensures event { result ≡ first_notice self.old }
        ensures rest { self.new ≡ notice_reported self.old }
    {
        self.notices.take_first()
    }

    /// All that waits to be reported to the endpoint before the end, once.
    pub fn take_notices(&mut self, alloc: Global) -> EndpointEvents
        ensures events { result ≡ self.old.notices }
        ensures rest { self.new ≡ notices_reported self.old }
    {
        self.notices.take(alloc)
    }

    /// The report that the connection is drained, once.
    pub fn take_drained(&mut self) -> Option<EndpointEvent>
        ensures event { result ≡ drained_event self.old }
        ensures rest { self.new ≡ drained_reported self.old }
    {
        let waits = self.drained;
        self.drained = false;
        if waits {
            Some(EndpointEvent::Drained)
        } else {
            None
        }
    }
}
