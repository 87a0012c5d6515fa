//! Handshakes of two toy sessions.

use bytes::BytesMut;
use qc_base::{ConnectionId, Side, TransportErrorCode, VarInt};
use qc_crypto::{
    ClientConfig, ConnectError, HeaderKey, Keys, PacketKey, ServerConfig, Session, SessionError,
};
use qc_params::TransportParameters;
use qc_toy::{ToyClient, ToyHeaderKey, ToyPacketKey, ToyServer, ToySession, ToySettings};
use std::alloc::Global;
use std::default::Default;
use std::test::Fail;

fn client_parameters() -> TransportParameters {
    let window = VarInt::from_u32(1250000);
    let mut parameters = TransportParameters::default();
    parameters.max_idle_timeout = VarInt::from_u32(30000);
    parameters.max_udp_payload_size = VarInt::from_u32(1472);
    parameters.initial_max_data = VarInt::MAX;
    parameters.initial_max_stream_data_bidi_local = window;
    parameters.initial_max_stream_data_bidi_remote = window;
    parameters.initial_max_stream_data_uni = window;
    parameters.initial_max_streams_bidi = VarInt::from_u32(100);
    parameters.initial_max_streams_uni = VarInt::from_u32(100);
    parameters.active_connection_id_limit = VarInt::from_u32(5);
    parameters.initial_src_cid = Some(ConnectionId::new(&[1; 8]));
    parameters.max_datagram_frame_size = Some(VarInt::from_u32(65535));
    parameters.grease_quic_bit = true;
    parameters
}

fn settings(early: bool) -> ToySettings {
    let mut settings = ToySettings::default();
    settings.early = early;
    settings
}

// A message type and the length of its body, which is a byte 0 and the parameters.
#[test]
fn the_first_write_is_the_hello(rt: HostRuntime) -> Result<(), Fail> {
    let client = ToyClient {
        settings: settings(false),
    };
    let parameters = client_parameters();
    let mut session = client.start_session(rt.alloc(), 1, "localhost", &parameters)?;
    let mut written = Vec::new(rt.alloc());
    assert!(rt; session.write_handshake(&mut written)?.is_none());
    let mut hello = Vec::from_slice(rt.alloc(), b"\x01\x00\x45\x00")?;
    parameters.write(&mut hello)?;
    assert_eq!(rt; written.as_slice(), hello.as_slice());
    Ok(())
}

// What one end writes, read by the other in two parts, and the keys that go with it.
fn pass(
    alloc: Global,
    from: &mut ToySession,
    to: &mut ToySession,
    cut: usize,
) -> Result<Option<Keys<ToyHeaderKey, ToyPacketKey>>, Fail> {
    let mut flight = Vec::new(alloc);
    let keys = from.write_handshake(&mut flight)?;
    let (first, second) = flight.as_slice().split_at(cut.min(flight.len()));
    let _ = to.read_handshake(first)?;
    let _ = to.read_handshake(second)?;
    Ok(keys)
}

// A packet: its header, which ends in its number, the plain bytes, and room for the tag.
const PACKET: [u8; 24] = *b"\x40\x07\x01\x06\x00\x02\xaa\xbb\0\0\0\0\0\0\0\0\0\0\0\0\0\0\0\0";

// Whether the packet that one key seals comes back with the other.
fn opens(alloc: Global, sealer: &ToyPacketKey, opener: &ToyPacketKey) -> Result<bool, Fail> {
    let mut packet = PACKET;
    sealer.encrypt(7, &mut packet, 2);
    let (header, sealed) = packet.split_at(2);
    let mut payload = BytesMut::copy_from_slice(alloc, sealed)?;
    let opened = opener.decrypt(7, header, &mut payload).is_ok();
    Ok(opened && payload.as_slice() == b"\x01\x06\x00\x02\xaa\xbb".as_slice())
}

// Whether the other key takes the mask off that the one puts on.
fn unmasks(masker: &ToyHeaderKey, unmasker: &ToyHeaderKey) -> bool {
    let mut packet = PACKET;
    masker.encrypt(1, &mut packet);
    let masked = packet != PACKET;
    unmasker.decrypt(1, &mut packet);
    masked && packet == PACKET
}

// Whether each end's keys open and unmask what the other's seal and mask.
fn keys_match(
    alloc: Global,
    one: &Keys<ToyHeaderKey, ToyPacketKey>,
    other: &Keys<ToyHeaderKey, ToyPacketKey>,
) -> Result<bool, Fail> {
    let forth = opens(alloc, &one.packet.local, &other.packet.remote)?;
    let back = opens(alloc, &other.packet.local, &one.packet.remote)?;
    let masks_forth = unmasks(&one.header.local, &other.header.remote);
    let masks_back = unmasks(&other.header.local, &one.header.remote);
    Ok(forth && back && masks_forth && masks_back)
}

// The next message of each end, and whether the keys that go with the two match.
fn next_keys_match(
    alloc: Global,
    one: &mut ToySession,
    other: &mut ToySession,
    cut: usize,
) -> Result<bool, Fail> {
    let Some(keys) = pass(alloc, one, other, cut)? else {
        return Ok(false);
    };
    match pass(alloc, other, one, cut)? {
        Some(others) => keys_match(alloc, &keys, &others),
        None => Ok(false),
    }
}

// Whether the keys of the Initial space match, which the destination id alone makes.
fn initial_keys_match(
    alloc: Global,
    one: &ToySession,
    other: &ToySession,
    server: &ToyServer,
) -> Result<bool, Fail> {
    let id = ConnectionId::new(&[2; 8]);
    let keys = one.initial_keys(&id, Side::Client);
    let session = keys_match(alloc, &keys, &other.initial_keys(&id, Side::Server))?;
    Ok(session && keys_match(alloc, &keys, &server.initial_keys(1, &id)?)?)
}

// Whether the server opens what the client seals with its early keys.
fn early_keys_match(alloc: Global, one: &ToySession, other: &ToySession) -> Result<bool, Fail> {
    match (one.early_crypto(), other.early_crypto()) {
        (Some((masker, sealer)), Some((unmasker, opener))) => {
            Ok(opens(alloc, &sealer, &opener)? && unmasks(&masker, &unmasker))
        }
        _ => Ok(false),
    }
}

// Whether the 1-RTT keys of the next epoch match.
fn updated_keys_match(
    alloc: Global,
    one: &mut ToySession,
    other: &mut ToySession,
) -> Result<bool, Fail> {
    match (one.next_1rtt_keys(), other.next_1rtt_keys()) {
        (Some(keys), Some(others)) => {
            let forth = opens(alloc, &keys.local, &others.remote)?;
            Ok(forth && opens(alloc, &others.local, &keys.remote)?)
        }
        _ => Ok(false),
    }
}

// The whole handshake, each message cut at this byte: whether the keys of each level match.
fn shake_hands(alloc: Global, cut: usize) -> Result<bool, Fail> {
    let client = ToyClient {
        settings: settings(true),
    };
    let server = ToyServer {
        settings: settings(true),
    };
    let mut one = client.start_session(alloc, 1, "localhost", &client_parameters())?;
    let mut other = server.start_session(alloc, 1, &TransportParameters::default())?;
    let initial = initial_keys_match(alloc, &one, &other, &server)?;
    let _ = pass(alloc, &mut one, &mut other, cut)?;
    let early = early_keys_match(alloc, &one, &other)?;
    let handshake = next_keys_match(alloc, &mut other, &mut one, cut)?;
    let data = next_keys_match(alloc, &mut other, &mut one, cut)?;
    let over = !one.is_handshaking() && !other.is_handshaking();
    let updated = updated_keys_match(alloc, &mut one, &mut other)?;
    Ok(initial && early && handshake && data && over && updated && knows_all(&one, &other)?)
}

// Whether the ends know each other's parameters, and took the early keys.
fn knows_all(one: &ToySession, other: &ToySession) -> Result<bool, Fail> {
    let theirs = one.transport_parameters()? == Some(TransportParameters::default());
    let ours = other.transport_parameters()? == Some(client_parameters());
    let taken = one.early_data_accepted() == Some(true);
    Ok(theirs && ours && taken && other.early_data_accepted() == Some(true))
}

#[test]
fn sessions_agree_wherever_flights_are_cut(rt: HostRuntime) -> Result<(), Fail> {
    for cut in 0..73 {
        assert!(rt; shake_hands(rt.alloc(), cut)?, "cut at {cut}");
    }
    Ok(())
}

fn started(alloc: Global) -> Result<ToySession, ConnectError> {
    let client = ToyClient {
        settings: settings(false),
    };
    client.start_session(alloc, 1, "localhost", &client_parameters())
}

// The alert with which a client refuses these bytes.
fn alert(alloc: Global, bytes: &[u8]) -> Result<Option<TransportErrorCode>, Fail> {
    let mut session = started(alloc)?;
    match session.read_handshake(bytes) {
        Err(SessionError::Transport(error)) => Ok(Some(error.code)),
        _ => Ok(None),
    }
}

// A message out of turn, and bodies of wrong form.
#[test]
fn messages_are_refused(rt: HostRuntime) -> Result<(), Fail> {
    let early_end = alert(rt.alloc(), b"\x03\x00\x01\x00")?;
    assert!(rt; early_end == Some(TransportErrorCode::crypto(0x0a)));
    let odd_reply = alert(rt.alloc(), b"\x02\x00\x01\x01")?;
    assert!(rt; odd_reply == Some(TransportErrorCode::crypto(0x32)));
    let odd_end = alert(rt.alloc(), b"\x02\x00\x01\x00\x03\x00\x01\x02")?;
    assert!(rt; odd_end == Some(TransportErrorCode::crypto(0x32)));
    Ok(())
}

#[test]
fn a_retry_tag_fits_its_packet(rt: HostRuntime) -> Result<(), Fail> {
    let server = ToyServer {
        settings: settings(false),
    };
    let id = ConnectionId::new(&[3; 8]);
    let tag = server.retry_tag(1, &id, b"\xf0\x00\x00\x00\x01token");
    let mut payload = Vec::from_slice(rt.alloc(), b"token")?;
    payload.extend_from_slice(&tag)?;
    let session = started(rt.alloc())?;
    assert!(rt; session.is_valid_retry(&id, b"\xf0\x00\x00\x00\x01", payload.as_slice()));
    Ok(())
}

// The sum of the label is 2, and of the context 2: byte i is 2 + 3 * 2 + i.
#[test]
fn material_is_exported(rt: HostRuntime) -> Result<(), Fail> {
    let session = started(rt.alloc())?;
    let mut material = [0; 7];
    session.export_keying_material(&mut material, b"\x02", b"\x01\x01")?;
    assert_eq!(rt; material, [8, 9, 10, 11, 12, 13, 14]);
    Ok(())
}
