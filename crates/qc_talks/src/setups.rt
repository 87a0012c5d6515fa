//! The setups of both ends. The client's id is eight bytes 02, the server's eight bytes 01, and the client's first packets
//! go to eight bytes 03, if a test doesn't say otherwise. The secret of the toy's keys is zeros.

ghost use Rattle.std.specs.Prelude.{◌≡◌, IfOk};

use qc_base::{ConnectionId, Instant, Side, SystemTime, VarInt};
use qc_config::{FixedTime, NoneTokenStore, TokenMemoryCache, TokenStore, announced};
use qc_conn::{ClientSetup, Connection, ServerSetup};
use qc_crypto::{ClientConfig, ServerConfig, Session};
use qc_params::TransportParameters;
use qc_path::NewRenoConfig;
use qc_recovery::TransportConfig;
use qc_state::Suite;
use qc_toy::{ToyClient, ToyServer, ToySession, ToySettings, ToyTokenKey, ZeroRandom};
use std::alloc::{AllocError, Global};
use std::default::Default;
use std::net::{IpAddr, Ipv4Addr, SocketAddr};

/// The types of both connections: toy sessions, and zeros for random words.
pub(crate) struct Toy;

impl Suite for Toy {
    type Session = ToySession;

    type Control = NewRenoConfig;

    type Random = ZeroRandom;

    type TokenKey = ToyTokenKey;

    type Time = FixedTime;
}

/// The greatest UDP payload that an end takes, in bytes.
const MAX_UDP_PAYLOAD: u16 = 1472;

/// The address 192.0.2.1 with this port.
pub(crate) fn address(port: u16) -> SocketAddr {
    SocketAddr::new(IpAddr::V4(Ipv4Addr::new(192, 0, 2, 1)), port)
}

/// Where a client's datagrams come from.
pub(crate) fn client_address() -> SocketAddr {
    address(50000)
}

/// Where a server's datagrams come from.
pub(crate) fn server_address() -> SocketAddr {
    address(4433)
}

/// A client's session. Want of memory is the only error.
#[tactic(auto, using(qc_toy::specs::Start::start_fresh, qc_toy::specs::Start::start_side))]
fn client_session(alloc: Global, params: &TransportParameters) -> Result<ToySession, AllocError>
    ensures fresh { IfOk result ⟦<ToySession as Session>⟧.is_fresh }
    ensures client { IfOk result (λ session. session.side ≡ Side.Client) }
{
    let client = ToyClient {
        settings: ToySettings::default(),
    };
    match client.start_session(alloc, 1, "", params) {
        Ok(session) => Ok(session),
        Err(_) => Err(AllocError),
    }
}

/// A server's session. Want of memory is the only error.
#[tactic(auto, using(qc_toy::specs::Start::start_fresh))]
fn server_session(alloc: Global, params: &TransportParameters) -> Result<ToySession, AllocError>
    ensures fresh { IfOk result ⟦<ToySession as Session>⟧.is_fresh }
{
    let server = ToyServer {
        settings: ToySettings::default(),
    };
    match server.start_session(alloc, 1, params) {
        Ok(session) => Ok(session),
        Err(_) => Err(AllocError),
    }
}

/// What a client with this transport is made of whose first packets go to this id.
fn client_setup(
    alloc: Global,
    first_cid: ConnectionId,
    transport: TransportConfig,
) -> Result<ClientSetup<Toy>, AllocError>
    ensures fresh { IfOk result (λ setup. ⟦<ToySession as Session>⟧.is_fresh setup.session) }
    ensures client { IfOk result (λ setup. setup.session.side ≡ Side.Client) }
{
    let local_cid = ConnectionId::new(&[2; 8]);
    let params = announced(&transport, MAX_UDP_PAYLOAD, local_cid, true);
    let session = client_session(alloc, &params)?;
    Ok(ClientSetup {
        session,
        random: ZeroRandom,
        control: NewRenoConfig::default(),
        transport,
        grease_quic_bit: true,
        local_cid,
        first_cid,
        cid_len: 8,
        cid_lifetime: None,
        remote: server_address(),
        local_ip: None,
        version: 1,
        allow_mtud: false,
        server_name: String::new(alloc),
    })
}

/// What a server announces: beside the transport the first destination id of its client.
fn server_parameters(transport: &TransportConfig, local_cid: ConnectionId) -> TransportParameters {
    let mut params = announced(transport, MAX_UDP_PAYLOAD, local_cid, true);
    params.original_dst_cid = Some(ConnectionId::new(&[3; 8]));
    params
}

/// A transport that takes so many bytes of a stream, and of all streams together; as many as usual where no number is said.
fn transport(window: Option<u32>) -> TransportConfig {
    let mut transport = TransportConfig::default();
    if let Some(window) = window {
        let window = VarInt::from_u32(window);
        transport.stream_receive_window(window);
        transport.receive_window(window);
    }
    transport
}

/// What the server is made of that takes so many bytes.
fn server_setup(alloc: Global, window: Option<u32>) -> Result<ServerSetup<Toy>, AllocError>
    ensures fresh { IfOk result (λ setup. ⟦<ToySession as Session>⟧.is_fresh setup.session) }
{
    let transport = transport(window);
    let local_cid = ConnectionId::new(&[1; 8]);
    let params = server_parameters(&transport, local_cid);
    let session = server_session(alloc, &params)?;
    Ok(ServerSetup {
        session,
        random: ZeroRandom,
        control: NewRenoConfig::default(),
        transport,
        grease_quic_bit: true,
        local_cid,
        first_cid: ConnectionId::new(&[3; 8]),
        cid_len: 8,
        cid_lifetime: None,
        remote: client_address(),
        local_ip: None,
        version: 1,
        allow_mtud: false,
        remote_cid: ConnectionId::new(&[2; 8]),
        token_key: ToyTokenKey::new([0; 16]),
        time: FixedTime(SystemTime::from_nanos(0)),
        sent: 0,
        migration: true,
        preferred: false,
        validated: false,
    })
}

/// A client with this transport made at time 0 whose first packets go to this id, with a token out of this store where there is
/// one, on the heap: a function that owns a whole connection is slow to check.
fn client_of<S: TokenStore>(
    alloc: Global,
    first_cid: ConnectionId,
    transport: TransportConfig,
    store: &mut S,
) -> Result<Box<Connection<Toy>>, AllocError> {
    let setup = client_setup(alloc, first_cid, transport)?;
    let start = Instant::from_nanos(0);
    let client = Connection::new_client(alloc, setup, store, start)?;
    Ok(Box::new(alloc, client)?)
}

/// The same without a token.
pub(crate) fn client_to(
    alloc: Global,
    first_cid: ConnectionId,
    transport: TransportConfig,
) -> Result<Box<Connection<Toy>>, AllocError> {
    client_of(alloc, first_cid, transport, &mut NoneTokenStore)
}

/// The client with a token out of this store where there is one.
pub(crate) fn client_storing(
    alloc: Global,
    store: &mut TokenMemoryCache,
) -> Result<Box<Connection<Toy>>, AllocError> {
    let first_cid = ConnectionId::new(&[3; 8]);
    client_of(alloc, first_cid, TransportConfig::default(), store)
}

/// The server of this setup, made at time 0, on the heap too.
fn server_of(alloc: Global, setup: ServerSetup<Toy>) -> Result<Box<Connection<Toy>>, AllocError>
    requires fresh { ⟦<ToySession as Session>⟧.is_fresh setup.session }
{
    let server = Connection::new_server(alloc, setup, Instant::from_nanos(0))?;
    Ok(Box::new(alloc, server)?)
}

/// The server that takes so many bytes.
pub(crate) fn server(
    alloc: Global,
    window: Option<u32>,
) -> Result<Box<Connection<Toy>>, AllocError> {
    let setup = server_setup(alloc, window)?;
    server_of(alloc, setup)
}

/// The server that sends so many tokens, at 42 seconds since the epoch.
pub(crate) fn server_sending(alloc: Global, sent: u32) -> Result<Box<Connection<Toy>>, AllocError> {
    let mut setup = server_setup(alloc, None)?;
    setup.sent = sent;
    setup.time = FixedTime(SystemTime::from_nanos(42_000_000_000));
    server_of(alloc, setup)
}
