//! The two ends, a client and a server with toy sessions: what they are made of, how datagrams come to them, and how the
//! application calls them.

ghost use Rattle.std.specs.Prelude.{◌≡◌, IfOk};

use bytes::BytesMut;
use qc_base::{ConnectionId, Dir, Fault, Instant, Side, StreamId, SystemTime, VarInt};
use qc_config::{FixedTime, NoneTokenStore, announced};
use qc_conn::{ClientSetup, Connection, ConnectionEvent, ReadError, ServerSetup, WriteError};
use qc_crypto::{ClientConfig, ServerConfig, Session};
use qc_header::PartialDecode;
use qc_params::TransportParameters;
use qc_path::NewRenoConfig;
use qc_recovery::TransportConfig;
use qc_state::Suite;
use qc_toy::{ToyClient, ToyServer, ToySession, ToySettings, ToyTokenKey, ZeroRandom};
use std::alloc::{AllocError, Global};
use std::default::Default;
use std::net::{IpAddr, Ipv4Addr, SocketAddr};

/// The types of both connections: toy sessions, NewReno, and zeros for random words.
pub struct Toy;

impl Suite for Toy {
    type Session = ToySession;

    type Control = NewRenoConfig;

    type Random = ZeroRandom;

    type TokenKey = ToyTokenKey;

    type Time = FixedTime;
}

/// The greatest UDP payload that an end takes, in bytes.
const MAX_UDP_PAYLOAD: u16 = 1472;

/// The address 192.0.2.1 with this port.
fn address(port: u16) -> SocketAddr {
    SocketAddr::new(IpAddr::V4(Ipv4Addr::new(192, 0, 2, 1)), port)
}

/// Where a client's datagrams come from.
fn client_address() -> SocketAddr {
    address(50_000)
}

/// Where a server's datagrams come from.
fn server_address() -> SocketAddr {
    address(4_433)
}

/// A client's session. Want of memory is the only error.
#[tactic(auto, using(qc_toy::specs::Start::start_fresh, qc_toy::specs::Start::start_side))]
fn client_session(alloc: Global, params: &TransportParameters) -> Result<ToySession, AllocError>
    ensures fresh { IfOk result ⟦<ToySession as Session>⟧.is_fresh }
    ensures client { IfOk result (λ session. session.side ≡ Side.Client) }
{
    let client = ToyClient {
        settings: ToySettings::default(),
    };
    match client.start_session(alloc, 1, "", params) {
        Ok(session) => Ok(session),
        Err(_) => Err(AllocError),
    }
}

/// A server's session. Want of memory is the only error.
#[tactic(auto, using(qc_toy::specs::Start::start_fresh))]
fn server_session(alloc: Global, params: &TransportParameters) -> Result<ToySession, AllocError>
    ensures fresh { IfOk result ⟦<ToySession as Session>⟧.is_fresh }
{
    let server = ToyServer {
        settings: ToySettings::default(),
    };
    match server.start_session(alloc, 1, params) {
        Ok(session) => Ok(session),
        Err(_) => Err(AllocError),
    }
}

/// What the client is made of.
fn client_setup(alloc: Global) -> Result<ClientSetup<Toy>, AllocError>
    ensures fresh { IfOk result (λ setup. ⟦<ToySession as Session>⟧.is_fresh setup.session) }
    ensures client { IfOk result (λ setup. setup.session.side ≡ Side.Client) }
{
    let transport = TransportConfig::default();
    let local_cid = ConnectionId::new(&[2; 8]);
    let params = announced(&transport, MAX_UDP_PAYLOAD, local_cid, true);
    let session = client_session(alloc, &params)?;
    Ok(ClientSetup {
        session,
        random: ZeroRandom,
        control: NewRenoConfig::default(),
        transport,
        grease_quic_bit: true,
        local_cid,
        first_cid: ConnectionId::new(&[3; 8]),
        cid_len: 8,
        cid_lifetime: None,
        remote: server_address(),
        local_ip: None,
        version: 1,
        allow_mtud: false,
        server_name: String::new(alloc),
    })
}

/// The usual transport, which lets the peer open so many bidirectional streams.
fn server_transport(streams: u32) -> TransportConfig {
    let mut transport = TransportConfig::default();
    transport.max_concurrent_bidi_streams(VarInt::from_u32(streams));
    transport
}

/// What a server announces: beside the transport the first destination id of its client.
fn server_parameters(transport: &TransportConfig, local_cid: ConnectionId) -> TransportParameters {
    let mut params = announced(transport, MAX_UDP_PAYLOAD, local_cid, true);
    params.original_dst_cid = Some(ConnectionId::new(&[3; 8]));
    params
}

/// What the server is made of, whose peer may open so many streams.
fn server_setup(alloc: Global, streams: u32) -> Result<ServerSetup<Toy>, AllocError>
    ensures fresh { IfOk result (λ setup. ⟦<ToySession as Session>⟧.is_fresh setup.session) }
{
    let transport = server_transport(streams);
    let local_cid = ConnectionId::new(&[1; 8]);
    let params = server_parameters(&transport, local_cid);
    let session = server_session(alloc, &params)?;
    Ok(ServerSetup {
        session,
        random: ZeroRandom,
        control: NewRenoConfig::default(),
        transport,
        grease_quic_bit: true,
        local_cid,
        first_cid: ConnectionId::new(&[3; 8]),
        cid_len: 8,
        cid_lifetime: None,
        remote: client_address(),
        local_ip: None,
        version: 1,
        allow_mtud: false,
        remote_cid: ConnectionId::new(&[2; 8]),
        token_key: ToyTokenKey::new([0; 16]),
        time: FixedTime(SystemTime::from_nanos(0)),
        sent: 0,
        migration: true,
        preferred: false,
        validated: false,
    })
}

/// What a call gives that wants memory, where there was some. A connection that met want of memory answers `Failed` from then on.
fn made<T>(answer: Result<T, Fault>) -> Result<T, AllocError> {
    match answer {
        Ok(value) => Ok(value),
        Err(_) => Err(AllocError),
    }
}

/// One end, and where its datagrams come from.
#[derive(Drop)]
pub struct End {
    /// Where its datagrams come from.
    address: SocketAddr,
    /// On the heap: a function that owns a whole connection is slow to check.
    connection: Box<Connection<Toy>>,
}

impl End {
    /// The client, made at time 0.
    pub fn client(alloc: Global) -> Result<End, AllocError> {
        let setup = client_setup(alloc)?;
        let start = Instant::from_nanos(0);
        let client = Connection::new_client(alloc, setup, &mut NoneTokenStore, start)?;
        Ok(End {
            address: client_address(),
            connection: Box::new(alloc, client)?,
        })
    }

    /// The server whose peer may open so many streams, made at time 0.
    pub fn server(alloc: Global, streams: u32) -> Result<End, AllocError> {
        let setup = server_setup(alloc, streams)?;
        let server = Connection::new_server(alloc, setup, Instant::from_nanos(0))?;
        Ok(End {
            address: server_address(),
            connection: Box::new(alloc, server)?,
        })
    }

    /// Seals what is due into a buffer that is emptied first, at most so many datagrams, and answers the size of each but the last; 0
    /// where there is none.
    fn sends(
        &mut self,
        alloc: Global,
        now: Instant,
        batch: usize,
        buf: &mut Vec<u8>,
    ) -> Result<usize, AllocError> {
        buf.clear();
        match made(self.connection.poll_transmit(alloc, now, batch.max(1), buf))? {
            Some(sent) => Ok(sent.segment_size.unwrap_or(sent.size)),
            None => Ok(0),
        }
    }

    /// A datagram comes from this address. A server waits for its first one; any other one is cut into its first packet and the rest.
    fn takes(
        &mut self,
        alloc: Global,
        now: Instant,
        remote: SocketAddr,
        datagram: &[u8],
    ) -> Result<(), AllocError> {
        let bytes = BytesMut::copy_from_slice(alloc, datagram)?;
        if self.connection.awaits_first() {
            let answer = self
                .connection
                .first_datagram(alloc, now, remote, None, bytes);
            let _taken = made(answer)?;
        } else if let Ok((first_decode, remaining)) = PartialDecode::new(bytes, 8, &[1], true) {
            let event = ConnectionEvent::Datagram {
                now,
                remote,
                ecn: None,
                first_decode,
                remaining,
            };
            made(
                self.connection
                    .handle_event(alloc, event, &mut NoneTokenStore),
            )?;
        }
        Ok(())
    }

    /// Timers that have come do what they are for.
    fn expires(&mut self, alloc: Global, now: Instant) -> Result<(), AllocError> {
        match self.connection.poll_timeout() {
            Some(time) if time <= now => made(self.connection.handle_timeout(alloc, now)),
            _ => Ok(()),
        }
    }

    /// The application opens a bidirectional stream. 1 where it may, else 0.
    pub fn opens(&mut self) -> Result<u64, AllocError> {
        match made(self.connection.streams().open(Dir::Bi))? {
            Some(_) => Ok(1),
            None => Ok(0),
        }
    }

    /// It accepts the next stream that the peer opened. 1 where there is one, else 0.
    pub fn accepts(&mut self) -> u64 {
        match self.connection.streams().accept(Dir::Bi) {
            Some(_) => 1,
            None => 0,
        }
    }

    /// It writes on a stream. How many bytes it could.
    pub fn writes(&mut self, id: StreamId, body: &[u8]) -> Result<u64, AllocError> {
        if !self.connection.sends_on(id) {
            return Ok(0);
        }
        match self.connection.send_stream(id).write(body) {
            Ok(count) => Ok(count as u64),
            Err(WriteError::OutOfMemory) | Err(WriteError::Failed) => Err(AllocError),
            Err(_) => Ok(0),
        }
    }

    /// It reads a stream until nothing more is there. How many bytes there were.
    pub fn reads(&mut self, id: StreamId) -> Result<u64, AllocError> {
        if !self.connection.receives_on(id) {
            return Ok(0);
        }
        let mut stream = self.connection.recv_stream(id);
        let Ok(mut chunks) = stream.read(true) else {
            return Ok(0);
        };
        let mut sum: u64 = 0;
        for _ in 0..u32::MAX {
            match chunks.next(usize::MAX) {
                Ok(Some(chunk)) => sum = sum.saturating_add(chunk.bytes.len() as u64),
                Ok(None) | Err(ReadError::Blocked) | Err(ReadError::Reset(_)) => break,
                Err(ReadError::OutOfMemory) | Err(ReadError::Failed) => return Err(AllocError),
            }
        }
        Ok(sum)
    }

    /// What it reports is taken.
    pub fn told(&mut self) {
        for _ in 0..u32::MAX {
            if self.connection.poll().is_none() {
                break;
            }
        }
    }
}

/// Carries all that an end sends at this time to the other one, at most so many datagrams a transmit, and says how many datagrams there were.
pub fn carry(
    alloc: Global,
    now: Instant,
    batch: usize,
    from: &mut End,
    to: &mut End,
) -> Result<u64, AllocError> {
    let mut buf = Vec::new(alloc);
    let mut count: u64 = 0;
    from.expires(alloc, now)?;
    for _ in 0..u32::MAX {
        let size = from.sends(alloc, now, batch, &mut buf)?;
        if size == 0 {
            break;
        }
        for datagram in buf.chunks(size) {
            to.takes(alloc, now, from.address, datagram)?;
            count = count.saturating_add(1);
        }
    }
    Ok(count)
}
