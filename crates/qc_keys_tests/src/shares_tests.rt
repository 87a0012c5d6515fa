//! Sessions whose keys come of both ends' shares.

use bytes::BytesMut;
use qc_base::Side;
use qc_crypto::{HeaderKey, Keys, PacketKey, Session};
use qc_shares::SharesSession;
use qc_toy::{ToyHeaderKey, ToyPacketKey};
use std::alloc::Global;
use std::test::Fail;

type ToyKeyset = Keys<ToyHeaderKey, ToyPacketKey>;

// Whether the packet that one end seals comes back at the other.
fn opens(alloc: Global, one: &ToyKeyset, other: &ToyKeyset) -> Result<bool, Fail> {
    let mut packet = *b"\x40\x07\x01\x06\0\0\0\0\0\0\0\0\0\0\0\0\0\0\0\0";
    one.packet.local.encrypt(7, &mut packet, 2);
    let mut payload = BytesMut::copy_from_slice(alloc, &packet[2..])?;
    let opened = other
        .packet
        .remote
        .decrypt(7, &packet[..2], &mut payload)
        .is_ok();
    Ok(opened && payload.as_slice() == b"\x01\x06".as_slice())
}

// What one end writes, read by the other, and the keys that go with it.
fn pass(
    alloc: Global,
    from: &mut SharesSession,
    to: &mut SharesSession,
) -> Result<Option<ToyKeyset>, Fail> {
    let mut flight = Vec::new(alloc);
    let keys = from.write_handshake(&mut flight)?;
    let _ = to.read_handshake(flight.as_slice())?;
    Ok(keys)
}

// The Handshake and the 1-RTT keys of a client and a server with these shares.
fn shake_hands(
    alloc: Global,
    one: u8,
    other: u8,
) -> Result<Option<(ToyKeyset, ToyKeyset, ToyKeyset, ToyKeyset)>, Fail> {
    let mut client = SharesSession::start(Side::Client, one);
    let mut server = SharesSession::start(Side::Server, other);
    let first = pass(alloc, &mut server, &mut client)?;
    let hello = pass(alloc, &mut client, &mut server)?;
    let reply = pass(alloc, &mut server, &mut client)?;
    if first.is_some() || hello.is_some() || reply.is_some() {
        return Ok(None);
    }
    let a = pass(alloc, &mut client, &mut server)?;
    let b = pass(alloc, &mut server, &mut client)?;
    let c = pass(alloc, &mut client, &mut server)?;
    let d = pass(alloc, &mut server, &mut client)?;
    if client.is_handshaking() || server.is_handshaking() {
        return Ok(None);
    }
    match (a, b, c, d) {
        (Some(a), Some(b), Some(c), Some(d)) => Ok(Some((a, b, c, d))),
        _ => Ok(None),
    }
}

#[test]
fn keys_come_of_both_shares(rt: HostRuntime) -> Result<(), Fail> {
    let (a, b, c, d) = shake_hands(rt.alloc(), 7, 9)?.ok_or("no keys")?;
    assert!(rt; opens(rt.alloc(), &a, &b)? && opens(rt.alloc(), &b, &a)?);
    assert!(rt; opens(rt.alloc(), &c, &d)? && opens(rt.alloc(), &d, &c)?);
    assert!(rt; !opens(rt.alloc(), &a, &d)?);
    for (one, other) in [(8, 9), (7, 8)] {
        let (e, f, g, h) = shake_hands(rt.alloc(), one, other)?.ok_or("no keys")?;
        assert!(rt; opens(rt.alloc(), &e, &f)? && opens(rt.alloc(), &g, &h)?);
        assert!(rt; !opens(rt.alloc(), &a, &f)? && !opens(rt.alloc(), &c, &h)?);
    }
    Ok(())
}
