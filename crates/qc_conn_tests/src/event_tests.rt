//! What an endpoint hands over: a datagram that it cut already, ids, and a server's first packet that it opened.

ghost use Rattle.std.specs.Prelude.{◌≡◌, ◌<◌, false, true, length, IfSome};
ghost use Rattle.qc_receive.specs.Cutting.{rest_of};
ghost use Rattle.qc_receive.specs.FirstPacket.{IsFirstPacket};
ghost use Rattle.qc_state.specs.Life.{is_handshake};
ghost use Rattle.qc_state.specs.Setup.{is_first_awaited};

use crate::clients::{Toy, client_at, fresh_client};
use bytes::BytesMut;
use qc_base::{ConnectionId, Instant, IssuedCid, ResetToken, SystemTime};
use qc_config::{FixedTime, NoneTokenStore, announced};
use qc_conn::{Connection, ConnectionEvent, ServerSetup};
use qc_crypto::{ServerConfig, Session};
use qc_header::{InitialPacket, PartialDecode};
use qc_packet::{OpenKeys, decrypt_packet_body, unprotect_header};
use qc_path::NewRenoConfig;
use qc_recovery::TransportConfig;
use qc_state::paths::same_address;
use qc_state::{ConnectionError, Event, IdList};
use qc_toy::{ToyServer, ToySession, ToySettings, ToyTokenKey, ZeroRandom};
use std::alloc::Global;
use std::default::Default;
use std::net::{IpAddr, Ipv4Addr, SocketAddr};
use std::test::Fail;

/// Two Initial packets of a server, sealed by a program of its own in another language under the toy's keys of a first id of eight
/// bytes 02: number 0 with a PING, and number 3 with a CONNECTION_CLOSE, code 5.
const PING_AND_CLOSE: [u8; 93] =
    *b"\xcd\x00\x00\x00\x01\x08\x01\x01\x01\x01\x01\x01\x01\x01\x08\x04\x04\x04\x04\x04\x04\x04\x04\x00\x40\x14\x2a\x05\x04\x04\x99\x2e\xc3\x56\xeb\x7e\x14\xa8\x3d\xd2\x67\xfc\x91\x26\xbb\x50\xc6\x00\x00\x00\x01\x08\x01\x01\x01\x01\x01\x01\x01\x01\x08\x04\x04\x04\x04\x04\x04\x04\x04\x00\x40\x15\x8b\x18\x01\x04\x02\x8c\x14\x9c\x22\xaa\x30\xb9\x40\xc8\x50\xd8\x60\xe8\x70\xf8\x80";

/// The address of both ends.
pub(crate) fn address() -> SocketAddr {
    SocketAddr::new(IpAddr::V4(Ipv4Addr::new(192, 0, 2, 1)), 4433)
}

/// A datagram's first packet, and what is behind it.
fn cut(alloc: Global, bytes: &[u8]) -> Option<(PartialDecode, Option<BytesMut>)>
    ensures { IfSome result (λ r. IfSome r.1 (λ b. 0 < length b.items)) }
{
    let bytes = BytesMut::copy_from_slice(alloc, bytes).ok()?;
    PartialDecode::new(bytes, 8, &[1], true).ok()
}

/// A client is handed a datagram at 1: whether it took it.
fn hears(alloc: Global, client: &mut Connection<Toy>, bytes: &[u8]) -> bool
    requires { is_first_awaited client.old.core.setup ≡ false }
{
    let Some((first_decode, remaining)) = cut(alloc, bytes) else {
        return false;
    };
    let event = ConnectionEvent::Datagram {
        now: Instant::from_nanos(1),
        remote: address(),
        ecn: None,
        first_decode,
        remaining,
    };
    client
        .handle_event(alloc, event, &mut NoneTokenStore)
        .is_ok()
}

/// It is handed ids of its own at 1: whether it took them.
fn is_given(alloc: Global, client: &mut Connection<Toy>, ids: IdList) -> bool {
    match client.give_refusal(ids.as_slice()) {
        None => {
            let event = ConnectionEvent::NewIdentifiers {
                ids,
                now: Instant::from_nanos(1),
            };
            client
                .handle_event(alloc, event, &mut NoneTokenStore)
                .is_ok()
        }
        Some(_) => false,
    }
}

/// The code with which the peer closed; None where no such event waits.
fn closed_code(client: &mut Connection<Toy>) -> Option<u64> {
    let event = client.poll();
    match &event {
        Some(
            Event::ConnectionLost {
                reason: ConnectionError::ConnectionClosed(close),
            },
        ) => Some(close.error_code.into_inner()),
        _ => None,
    }
}

// The close is in the second packet.
#[test]
fn a_datagram_that_was_cut_is_heard(rt: HostRuntime) -> Result<(), Fail> {
    let mut client = fresh_client(rt.alloc()).ok_or("no client")?;
    let heard = hears(rt.alloc(), &mut client, &PING_AND_CLOSE);
    assert!(rt; heard);
    assert_eq!(rt; closed_code(&mut client), Some(5));
    Ok(())
}

// None are asked for before the peer's parameters came: no ids may be given then, and one id may not.
#[test]
fn ids_are_taken_as_they_may_be(rt: HostRuntime) -> Result<(), Fail> {
    let mut client = fresh_client(rt.alloc()).ok_or("no client")?;
    let none = IdList::from_slice(rt.alloc(), &[])?;
    assert!(rt; is_given(rt.alloc(), &mut client, none));
    let one = IssuedCid {
        sequence: 1,
        id: ConnectionId::new(&[4; 8]),
        reset_token: ResetToken::from([5; 16]),
    };
    let ids = IdList::from_slice(rt.alloc(), &[one])?;
    assert!(rt; !is_given(rt.alloc(), &mut client, ids));
    Ok(())
}

#[tactic(auto, using(qc_toy::specs::Start::start_fresh))]
fn server_session(alloc: Global) -> Option<ToySession>
    ensures { IfSome result ⟦<ToySession as Session>⟧.is_fresh }
{
    let server = ToyServer {
        settings: ToySettings::default(),
    };
    let transport = TransportConfig::default();
    let params = announced(&transport, 1472, ConnectionId::new(&[3; 8]), true);
    server.start_session(alloc, 1, &params).ok()
}

/// A server on the heap, as the clients are.
fn boxed(alloc: Global, server: Connection<Toy>) -> Option<Box<Connection<Toy>>>
    ensures { IfSome result (λ s. s.value ≡ server) }
{
    Box::new(alloc, server).ok()
}

/// A server made at 0 for a client whose first packet has these ids.
#[tactic(auto, unfolding(qc_state::specs::First::server_view, qc_state::specs::Paths::only_path, qc_state::specs::Paths::new_path, qc_state::specs::Setup::is_first_awaited, qc_state::specs::Setup::ideal_setup))]
fn server(
    alloc: Global,
    remote: SocketAddr,
    first_cid: ConnectionId,
    remote_cid: ConnectionId,
) -> Option<Box<Connection<Toy>>>
    ensures awaited { IfSome result (λ s. is_first_awaited s.value.core.setup ≡ true) }
    ensures shakes { IfSome result (λ s. is_handshake s.value.core.life.state ≡ true) }
    ensures remote { IfSome result (λ s. s.value.core.paths.current.remote ≡ remote) }
    ensures version { IfSome result (λ s. s.value.core.setup.fixed.version ≡ 1) }
    ensures first { IfSome result (λ s. s.value.core.setup.fixed.first_cid ≡ first_cid) }
    ensures source { IfSome result (λ s. s.value.core.paths.current.remote_cid ≡ remote_cid) }
{
    let session = server_session(alloc)?;
    let setup = ServerSetup {
        session,
        random: ZeroRandom,
        control: NewRenoConfig::default(),
        transport: TransportConfig::default(),
        grease_quic_bit: true,
        local_cid: ConnectionId::new(&[3; 8]),
        first_cid,
        cid_len: 8,
        cid_lifetime: None,
        remote,
        local_ip: None,
        version: 1,
        allow_mtud: false,
        remote_cid,
        token_key: ToyTokenKey::new([0; 16]),
        time: FixedTime(SystemTime::from_nanos(0)),
        sent: 0,
        migration: true,
        preferred: false,
        validated: false,
    };
    let server = Connection::new_server(alloc, setup, Instant::from_nanos(0)).ok()?;
    boxed(alloc, server)
}

/// What a transmit at 2 seals.
pub(crate) fn sealed(alloc: Global, end: &mut Connection<Toy>) -> Option<Vec<u8>> {
    let mut buf = Vec::new(alloc);
    match end.poll_transmit(alloc, Instant::from_nanos(2), 1, &mut buf) {
        Ok(Some(_)) => Some(buf),
        _ => None,
    }
}

/// A packet opened under the Initial keys of the id of eight bytes 02, and its number.
fn opened(first: PartialDecode) -> Option<(u64, InitialPacket)> {
    let server = ToyServer {
        settings: ToySettings::default(),
    };
    let keys = server.initial_keys(1, &ConnectionId::new(&[2; 8])).ok()?;
    let told = unprotect_header(first, Some(&keys.header.remote), None).ok()?;
    let mut packet = told?.packet?;
    let open = OpenKeys {
        plain: Some(&keys.packet.remote),
        early: None,
        ring: None,
    };
    let told = decrypt_packet_body(&mut packet, &open, 0).ok()?;
    let number = told?.number;
    let packet = InitialPacket::from_packet(packet)?;
    Some((number, packet))
}

/// The server of the client's first packet.
fn usual_server(alloc: Global) -> Option<Box<Connection<Toy>>>
    ensures awaited { IfSome result (λ s. is_first_awaited s.value.core.setup ≡ true) }
{
    server(
        alloc,
        address(),
        ConnectionId::new(&[2; 8]),
        ConnectionId::new(&[1; 8]),
    )
}

/// Whether a server takes a datagram that it is handed whole; None where it met want of memory.
fn takes(alloc: Global, server: &mut Connection<Toy>, bytes: &[u8]) -> Option<bool>
    requires awaited { is_first_awaited server.old.core.setup ≡ true }
{
    let bytes = BytesMut::copy_from_slice(alloc, bytes).ok()?;
    let now = Instant::from_nanos(1);
    server
        .first_datagram(alloc, now, address(), None, bytes)
        .ok()
}

/// A server that took a datagram which it was handed whole.
fn server_behind(alloc: Global, bytes: &[u8]) -> Option<Box<Connection<Toy>>> {
    let mut server = usual_server(alloc)?;
    if takes(alloc, &mut server, bytes)? {
        Some(server)
    } else {
        None
    }
}

/// What a server answers to a datagram that it is handed whole.
fn answer_to_whole(alloc: Global, bytes: &[u8]) -> Option<Vec<u8>> {
    let mut server = server_behind(alloc, bytes)?;
    sealed(alloc, &mut server)
}

/// What a server answers that is handed its first packet in front of these bytes.
fn answer_of(
    alloc: Global,
    server: Box<Connection<Toy>>,
    remote: SocketAddr,
    number: u64,
    packet: InitialPacket,
    remaining: Option<BytesMut>,
) -> Option<Vec<u8>>
    requires first { IsFirstPacket server.value.core remote number packet (rest_of remaining) }
    requires some { IfSome remaining (λ b. 0 < length b.items) }
{
    let mut server = server;
    let now = Instant::from_nanos(1);
    match server.handle_first_packet(alloc, now, remote, None, number, packet, remaining) {
        Ok(()) => sealed(alloc, &mut server),
        Err(_) => None,
    }
}

/// What a server answers that is made for this opened packet, and handed it in front of these bytes.
fn answer_to_packet(
    alloc: Global,
    number: u64,
    packet: InitialPacket,
    remaining: Option<BytesMut>,
) -> Option<Vec<u8>>
    requires some { IfSome remaining (λ b. 0 < length b.items) }
{
    let InitialPacket {
        header,
        header_data,
        payload,
    } = packet;
    let opened = header_data.len() as u64 + payload.len() as u64;
    let remote = address();
    if header.version != 1 || number >= 1 << 62 || opened < 1184 || !same_address(remote, remote) {
        return None;
    }
    let server = server(alloc, remote, header.dst_cid, header.src_cid)?;
    let packet = InitialPacket {
        header,
        header_data,
        payload,
    };
    answer_of(alloc, server, remote, number, packet, remaining)
}

/// What it answers to a datagram whose first packet its endpoint cut and opened.
fn answer_to_opened(alloc: Global, bytes: &[u8]) -> Option<Vec<u8>> {
    match cut(alloc, bytes) {
        None => None,
        Some((first, remaining)) => match opened(first) {
            None => None,
            Some((number, packet)) => answer_to_packet(alloc, number, packet, remaining),
        },
    }
}

/// The client's hello.
fn hello(alloc: Global) -> Option<Vec<u8>> {
    let mut client = client_at(alloc, 0, false)?;
    sealed(alloc, &mut client)
}

/// A server that took the client's hello.
fn server_behind_hello(alloc: Global) -> Option<Box<Connection<Toy>>> {
    let hello = hello(alloc)?;
    server_behind(alloc, hello.as_slice())
}

/// The length of what a server answers to a datagram that it is handed whole, and whether it is this.
fn is_answer_to_whole(alloc: Global, bytes: &[u8], answer: &[u8]) -> Option<(usize, bool)> {
    let whole = answer_to_whole(alloc, bytes)?;
    Some((whole.len(), whole.as_slice() == answer))
}

/// The length of what a server answers to a datagram that it is handed whole, and whether that is what it answers where its endpoint
/// opened the first packet.
fn compare_answers(alloc: Global, bytes: &[u8]) -> Option<(usize, bool)> {
    let opened = answer_to_opened(alloc, bytes)?;
    is_answer_to_whole(alloc, bytes, opened.as_slice())
}

// The client's hello, once whole and once opened.
#[test]
fn a_first_packet_that_was_opened_is_heard(rt: HostRuntime) -> Result<(), Fail> {
    let hello = hello(rt.alloc()).ok_or("no hello")?;
    assert_eq!(rt;
        compare_answers(rt.alloc(), hello.as_slice()),
        Some((1200, true))
    );
    Ok(())
}
