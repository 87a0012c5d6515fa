//! The least that drives two connections: a client and a server in one program, which talk to each other. A connection does no
//! input or output and has no clock: whoever has sockets and time puts them in the place of `carry` and of `now`. What the two
//! ends are made of is in `ends.rt`; nothing here is secret, since a toy stands in the place of TLS.
#![tactic(auto)]

mod ends;

use anyhow::Result;
use bytes::{Bytes, BytesMut};
use ends::{End, made};
use qc_base::{Instant, VarInt};
use qc_config::NoneTokenStore;
use qc_conn::ConnectionEvent;
use qc_header::PartialDecode;
use std::net::SocketAddr;

/// Hands an end a datagram. A server waits for its first one; any other one is cut into its first packet and the rest, for
/// which the length of this end's ids is told, which versions it speaks, and that it takes packets without the fixed bit.
fn hand(
    rt: &HostRuntime,
    end: &mut End,
    now: Instant,
    from: SocketAddr,
    datagram: &[u8],
) -> Result<()> {
    let bytes = BytesMut::copy_from_slice(rt.alloc(), datagram)?;
    if end.connection.awaits_first() {
        let taken = made(
            end.connection
                .first_datagram(rt.alloc(), now, from, None, bytes),
        )?;
        println!(rt; "{} took its first datagram: {taken}", end.name)?;
    } else if let Ok((first_decode, remaining)) = PartialDecode::new(bytes, 8, &[1], true) {
        let event = ConnectionEvent::Datagram {
            now,
            remote: from,
            ecn: None,
            first_decode,
            remaining,
        };
        made(
            end.connection
                .handle_event(rt.alloc(), event, &mut NoneTokenStore),
        )?;
    }
    end.tell(rt)
}

/// Carries what an end sends to the other one, a datagram at a time, and says whether it sent anything.
fn carry(rt: &HostRuntime, now: Instant, from: &mut End, to: &mut End) -> Result<bool> {
    for count in 0..100u32 {
        let mut buf = Vec::new(rt.alloc());
        if made(from.connection.poll_transmit(rt.alloc(), now, 1, &mut buf))?.is_none() {
            return Ok(count > 0);
        }
        println!(rt; "{} sends {} bytes", from.name, buf.len())?;
        hand(rt, to, now, from.address, buf.as_slice())?;
    }
    Ok(true)
}

/// The time comes at which an end wants to be called.
fn expire(rt: &HostRuntime, end: &mut End, now: Instant) -> Result<()> {
    match end.connection.poll_timeout() {
        Some(time) if time <= now => {
            println!(rt; "{} has a timeout at {} ns", end.name, now.nanos())?;
            made(end.connection.handle_timeout(rt.alloc(), now))?;
            end.tell(rt)
        }
        _ => Ok(()),
    }
}

/// The client makes its handshake with the server, and closes in the fourth turn; then the two wait until they have forgotten
/// each other. A turn carries what waits to be sent; where nothing does, the next timer comes.
fn talk(rt: &HostRuntime, start: Instant, client: &mut End, server: &mut End) -> Result<()> {
    let mut now = start;
    for turn in 0..10u32 {
        if turn == 3 {
            let reason = Bytes::from_static(b"bye");
            client.connection.close(now, VarInt::from_u32(7), reason);
        }
        let there = carry(rt, now, client, server)?;
        let back = carry(rt, now, server, client)?;
        if !there && !back {
            let Some(next) = client.next_timeout(server) else {
                break;
            };
            now = next;
            expire(rt, client, now)?;
            expire(rt, server, now)?;
        }
    }
    Ok(())
}

fn main(rt: HostRuntime) -> Result<()> {
    let start = Instant::from_nanos(0);
    let mut client = End::client(rt.alloc(), start)?;
    let mut server = End::server(rt.alloc(), start)?;
    talk(&rt, start, &mut client, &mut server)
}
