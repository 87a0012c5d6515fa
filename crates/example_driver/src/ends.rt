//! What the two ends are made of, a client and a server with toy sessions, and what they report.

ghost use Rattle.std.specs.Prelude.{◌≡◌, IfOk};

use anyhow::{Result, bail};
use qc_base::{ConnectionId, Fault, Instant, Side, SystemTime};
use qc_config::{FixedTime, NoneTokenStore, announced};
use qc_conn::{ClientSetup, Connection, ServerSetup};
use qc_crypto::{ClientConfig, ServerConfig, Session};
use qc_path::NewRenoConfig;
use qc_recovery::TransportConfig;
use qc_state::{EndpointEvent, Event, Suite};
use qc_toy::{ToyClient, ToyServer, ToySession, ToySettings, ToyTokenKey, ZeroRandom};
use std::alloc::Global;
use std::default::Default;
use std::net::{IpAddr, Ipv6Addr, SocketAddr};

/// Where the client's datagrams come from.
const CLIENT_PORT: u16 = 50_000;

/// Where the server's come from.
const SERVER_PORT: u16 = 4_433;

/// The types of a connection: its session, its congestion controller, and where its random words come from.
pub struct Toy;

impl Suite for Toy {
    type Session = ToySession;

    type Control = NewRenoConfig;

    type Random = ZeroRandom;

    type TokenKey = ToyTokenKey;

    type Time = FixedTime;
}

/// This host, at a port.
fn address(port: u16) -> SocketAddr {
    SocketAddr::new(IpAddr::V6(Ipv6Addr::new(0, 0, 0, 0, 0, 0, 0, 1)), port)
}

/// The client's id, eight bytes.
fn client_id() -> ConnectionId {
    ConnectionId::new(&[2; 8])
}

/// The server's id.
fn server_id() -> ConnectionId {
    ConnectionId::new(&[1; 8])
}

/// The destination id of the client's first packets, which it makes up: the keys of the Initial space are made of it.
fn first_id() -> ConnectionId {
    ConnectionId::new(&[3; 8])
}

/// A session of the client's, which announces this transport.
#[tactic(auto, using(qc_toy::specs::Start::start_fresh, qc_toy::specs::Start::start_side))]
fn client_session(alloc: Global, transport: &TransportConfig) -> Result<ToySession>
    ensures fresh { IfOk result ⟦<ToySession as Session>⟧.is_fresh }
    ensures client { IfOk result (λ session. session.side ≡ Side.Client) }
{
    let client = ToyClient {
        settings: ToySettings::default(),
    };
    let params = announced(transport, 1472, client_id(), true);
    match client.start_session(alloc, 1, "", &params) {
        Ok(session) => Ok(session),
        Err(_) => bail!("no session for the client"),
    }
}

/// What the client is made of.
fn client_setup(alloc: Global) -> Result<ClientSetup<Toy>>
    ensures fresh { IfOk result (λ setup. ⟦<ToySession as Session>⟧.is_fresh setup.session) }
    ensures client { IfOk result (λ setup. setup.session.side ≡ Side.Client) }
{
    let transport = TransportConfig::default();
    let session = client_session(alloc, &transport)?;
    Ok(ClientSetup {
        session,
        random: ZeroRandom,
        control: NewRenoConfig::default(),
        transport,
        grease_quic_bit: true,
        local_cid: client_id(),
        first_cid: first_id(),
        cid_len: 8,
        cid_lifetime: None,
        remote: address(SERVER_PORT),
        local_ip: None,
        version: 1,
        allow_mtud: false,
        server_name: String::new(alloc),
    })
}

/// A session of the server's, which announces this transport and the id of the client's first packets.
#[tactic(auto, using(qc_toy::specs::Start::start_fresh))]
fn server_session(alloc: Global, transport: &TransportConfig) -> Result<ToySession>
    ensures fresh { IfOk result ⟦<ToySession as Session>⟧.is_fresh }
{
    let server = ToyServer {
        settings: ToySettings::default(),
    };
    let mut params = announced(transport, 1472, server_id(), true);
    params.original_dst_cid = Some(first_id());
    match server.start_session(alloc, 1, &params) {
        Ok(session) => Ok(session),
        Err(_) => bail!("no session for the server"),
    }
}

/// What the server is made of, for a client whose first packets have these ids.
fn server_setup(alloc: Global) -> Result<ServerSetup<Toy>>
    ensures fresh { IfOk result (λ setup. ⟦<ToySession as Session>⟧.is_fresh setup.session) }
{
    let transport = TransportConfig::default();
    let session = server_session(alloc, &transport)?;
    Ok(ServerSetup {
        session,
        random: ZeroRandom,
        control: NewRenoConfig::default(),
        transport,
        grease_quic_bit: true,
        local_cid: server_id(),
        first_cid: first_id(),
        cid_len: 8,
        cid_lifetime: None,
        remote: address(CLIENT_PORT),
        local_ip: None,
        version: 1,
        allow_mtud: false,
        remote_cid: client_id(),
        token_key: ToyTokenKey::new([0; 16]),
        time: FixedTime(SystemTime::from_nanos(0)),
        sent: 0,
        migration: true,
        preferred: false,
        validated: false,
    })
}

/// An end of the conversation.
#[derive(Drop)]
pub struct End {
    /// How it is called in what is printed.
    pub name: &'static str,
    /// Where its datagrams come from.
    pub address: SocketAddr,
    /// On the heap: a function that owns a whole connection, and may leave early, is slow to check.
    pub connection: Box<Connection<Toy>>,
}

/// What a call that takes memory gives, where there was some.
pub fn made<T>(answer: Result<T, Fault>) -> Result<T> {
    match answer {
        Ok(value) => Ok(value),
        Err(_) => bail!("no memory"),
    }
}

/// What is told of an event.
fn word(event: &Event) -> &'static str {
    match event {
        Event::HandshakeDataReady => "knows what the handshake settles",
        Event::Connected => "is connected",
        Event::DatagramReceived => "has got a datagram",
        Event::DatagramsUnblocked => "can send datagrams again",
        Event::Stream(_) => "has news of a stream",
        Event::ConnectionLost { .. } => "has lost the connection",
    }
}

/// What is told of an event for the endpoint.
fn endpoint_word(event: EndpointEvent) -> &'static str {
    match event {
        EndpointEvent::ResetToken(..) => "knows the token that resets the connection",
        EndpointEvent::NeedIdentifiers(..) => "wants ids for the other end to use",
        EndpointEvent::RetireConnectionId(..) => "has an id back from the other end",
        EndpointEvent::Drained => "can be dropped",
    }
}

/// The earlier one of two times.
fn earlier(x: Option<Instant>, y: Option<Instant>) -> Option<Instant> {
    match (x, y) {
        (Some(x), Some(y)) => Some(x.min(y)),
        (Some(x), None) => Some(x),
        (None, y) => y,
    }
}

impl End {
    /// The client, made at this time.
    pub fn client(alloc: Global, now: Instant) -> Result<End> {
        let setup = client_setup(alloc)?;
        let connection = Connection::new_client(alloc, setup, &mut NoneTokenStore, now)?;
        Ok(End {
            name: "the client",
            address: address(CLIENT_PORT),
            connection: Box::new(alloc, connection)?,
        })
    }

    /// The server, made at this time.
    pub fn server(alloc: Global, now: Instant) -> Result<End> {
        let setup = server_setup(alloc)?;
        let connection = Connection::new_server(alloc, setup, now)?;
        Ok(End {
            name: "the server",
            address: address(SERVER_PORT),
            connection: Box::new(alloc, connection)?,
        })
    }

    /// What it reports to the application, if anything.
    fn report(&mut self) -> Option<&'static str> {
        let event = self.connection.poll()?;
        Some(word(&event))
    }

    /// What it reports to its endpoint, if anything.
    fn endpoint_report(&mut self) -> Option<&'static str> {
        let event = self.connection.poll_endpoint_events()?;
        Some(endpoint_word(event))
    }

    /// Prints what it reports: each report is given once.
    pub fn tell(&mut self, rt: &HostRuntime) -> Result<()> {
        for _ in 0..8 {
            if let Some(report) = self.report() {
                println!(rt; "    {} {report}", self.name)?;
            }
            if let Some(report) = self.endpoint_report() {
                println!(rt; "    {} {report}", self.name)?;
            }
        }
        Ok(())
    }

    /// The time at which it or the other end wants to be called, if any.
    pub fn next_timeout(&self, other: &End) -> Option<Instant> {
        earlier(
            self.connection.poll_timeout(),
            other.connection.poll_timeout(),
        )
    }
}
