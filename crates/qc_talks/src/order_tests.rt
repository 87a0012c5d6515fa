//! Datagrams that come twice, and datagrams that come in another order than they were sent in.

use crate::closing_tests::tells;
use crate::cuts::packets_of;
use crate::ends::End;
use crate::pair::{ONCE, Pair, Way, deliver};
use std::alloc::Global;
use std::process::Abort;
use std::test::Fail;

/// Each datagram comes twice.
const TWICE: Way = Way {
    copies: 2,
    ecn: None,
};

/// What follows a handshake: a PING of each end, and the server's close.
fn talk(alloc: Global, pair: &mut Pair, way: Way) -> Result<(), Fail> {
    pair.ping(alloc, true)?;
    pair.carry(alloc, way)?;
    pair.ping(alloc, false)?;
    pair.carry(alloc, way)?;
    pair.close(alloc, false)?;
    pair.carry(alloc, way)
}

/// Checks that of two ends the lines that begin with these words are the same.
fn is_alike(
    rt: &impl Abort,
    alloc: Global,
    one: &End,
    other: &End,
    words: &str,
) -> Result<(), Fail> {
    let expected = one.told(alloc, words)?;
    tells(rt, alloc, other, words, expected.as_str())
}

/// Checks that two ends sealed and sent the same, gave the same frames to the same layers, lived the same life and gave the
/// same events.
fn are_alike(rt: &impl Abort, alloc: Global, one: &End, other: &End) -> Result<(), Fail> {
    for words in [
        "seal ",
        "out ",
        "gave ",
        "life ",
        "lost ",
        "event ",
        "endpoint ",
    ] {
        is_alike(rt, alloc, one, other, words)?;
    }
    Ok(())
}

/// Checks what becomes of each packet of a handshake that comes twice.
fn sees_copies(rt: &impl Abort, alloc: Global, pair: &mut Pair) -> Result<(), Fail> {
    pair.carry(alloc, TWICE)?;
    let of_client = "piece initial 0 Admitted\npiece handshake 0 Admitted\n\
        piece initial 0 Seen\npiece handshake 0 Seen\n\
        piece data 1 Admitted\npiece data 1 Seen\n";
    tells(rt, alloc, &pair.client, "piece ", of_client)?;
    let of_server = "piece initial 0 Admitted\npiece initial 0 Seen\n\
        piece initial 1 Admitted\npiece handshake 0 Admitted\n\
        piece initial - Ignored\npiece handshake - Ignored\n\
        piece data 1 Admitted\npiece data 1 Seen\n";
    tells(rt, alloc, &pair.server, "piece ", of_server)
}

/// Checks two whole conversations of ends that were just made, the datagrams of the second of which come twice: both ends are
/// alike.
fn talk_alike(
    rt: &impl Abort,
    alloc: Global,
    once: &mut Pair,
    twice: &mut Pair,
) -> Result<(), Fail> {
    once.carry(alloc, ONCE)?;
    talk(alloc, once, ONCE)?;
    sees_copies(rt, alloc, twice)?;
    talk(alloc, twice, TWICE)?;
    tells(rt, alloc, &once.client, "life ", "life 1\nlife 3\n")?;
    tells(rt, alloc, &once.server, "life ", "life 1\nlife 2\nlife 3\n")?;
    are_alike(rt, alloc, &once.client, &twice.client)?;
    are_alike(rt, alloc, &once.server, &twice.server)
}

// A packet whose number came before is dropped (RFC 9000, section 12.3): each second copy is seen, but those in the client's second
// datagram, an ACK and its Handshake packet: with the first copy of this the server has dropped the Initial keys, and, at the end of the
// handshake, its keys too (RFC 9001, sections 4.9.1 and 4.9.2). The server closes, and the client drains.
#[test]
fn twice_is_as_once(rt: HostRuntime) -> Result<(), Fail> {
    let alloc = rt.alloc();
    let mut once = Pair::new(alloc)?;
    let mut twice = Pair::new(alloc)?;
    talk_alike(&rt, alloc, &mut once, &mut twice)
}

/// The datagrams come to an end, the last one first.
fn deliver_backwards(
    alloc: Global,
    from: &End,
    to: &mut End,
    nanos: u64,
    flight: &[Vec<u8>],
) -> Result<(), Fail> {
    for datagram in flight.iter().rev() {
        to.takes(alloc, nanos, from.address, None, datagram.as_slice())?;
    }
    Ok(())
}

/// The packets of a flight of an end come to the other so many times, each in a datagram of its own, and each time the last one first. Says
/// how many there are.
fn carry_backwards(
    alloc: Global,
    from: &mut End,
    to: &mut End,
    nanos: u64,
    times: u32,
) -> Result<usize, Fail> {
    let flight = from.flight(alloc, nanos)?;
    let packets = packets_of(alloc, flight.as_slice())?;
    for _ in 0..times {
        deliver_backwards(alloc, from, to, nanos, packets.as_slice())?;
    }
    Ok(packets.len())
}

/// Checks a handshake in which the client's second flight comes backwards, against the usual one.
fn client_goes_backwards(
    rt: &impl Abort,
    alloc: Global,
    pair: &mut Pair,
    usual: &mut Pair,
) -> Result<(), Fail> {
    usual.carry(alloc, ONCE)?;
    let _hello = pair.carry_one(alloc, true, ONCE)?;
    let _reply = pair.carry_one(alloc, false, ONCE)?;
    pair.wait();
    let sent = carry_backwards(alloc, &mut pair.client, &mut pair.server, pair.nanos, 1)?;
    assert_eq!(rt; sent, 2);
    pair.carry(alloc, ONCE)?;
    let pieces =
        "piece initial 0 Admitted\npiece handshake 0 Admitted\npiece initial - Ignored\npiece data 1 Admitted\n";
    tells(rt, alloc, &pair.server, "piece ", pieces)?;
    is_alike(rt, alloc, &usual.server, &pair.server, "event ")?;
    is_alike(rt, alloc, &usual.server, &pair.server, "life ")?;
    is_alike(rt, alloc, &usual.server, &pair.server, "seal ")?;
    are_alike(rt, alloc, &usual.client, &pair.client)
}

// The client's second flight is the ACK of the server's Initial packet, and a Handshake packet with the client's end, in one datagram. Comes the
// Handshake packet first, cut out of it, then the server drops its Initial keys with it (RFC 9001, section 4.9.1), and both ends are established
// as they are in the order of sending.
#[test]
fn a_flight_of_the_client_comes_backwards(rt: HostRuntime) -> Result<(), Fail> {
    let alloc = rt.alloc();
    let mut pair = Pair::new(alloc)?;
    let mut usual = Pair::new(alloc)?;
    client_goes_backwards(&rt, alloc, &mut pair, &mut usual)
}

/// Checks a handshake in which the server's first flight comes backwards, and once more, against the usual one.
fn server_goes_backwards(
    rt: &impl Abort,
    alloc: Global,
    pair: &mut Pair,
    usual: &mut Pair,
) -> Result<(), Fail> {
    usual.carry(alloc, ONCE)?;
    let _hello = pair.carry_one(alloc, true, ONCE)?;
    pair.wait();
    let sent = carry_backwards(alloc, &mut pair.server, &mut pair.client, pair.nanos, 2)?;
    assert_eq!(rt; sent, 2);
    pair.carry(alloc, ONCE)?;
    let pieces =
        "piece handshake - Ignored\npiece initial 0 Admitted\npiece handshake 0 Admitted\npiece initial 0 Seen\npiece data 1 Admitted\n";
    tells(rt, alloc, &pair.client, "piece ", pieces)?;
    are_alike(rt, alloc, &usual.client, &pair.client)?;
    are_alike(rt, alloc, &usual.server, &pair.server)
}

// The server's first flight is an Initial and a Handshake packet in one datagram. Cut out of it, the Handshake packet can't be opened before
// the Initial packet came, and changes nothing; when it comes again, the client goes on.
#[test]
fn a_flight_of_the_server_comes_backwards(rt: HostRuntime) -> Result<(), Fail> {
    let alloc = rt.alloc();
    let mut pair = Pair::new(alloc)?;
    let mut usual = Pair::new(alloc)?;
    server_goes_backwards(&rt, alloc, &mut pair, &mut usual)
}

/// Three PINGs of an end, each in a datagram of its own.
fn three_pings(alloc: Global, end: &mut End, nanos: u64) -> Result<Vec<Vec<u8>>, Fail> {
    let mut flight = Vec::new(alloc);
    for _ in 0..3 {
        end.pings(alloc, nanos)?;
        if let Some(datagram) = end.sends(alloc, nanos)? {
            flight.push(datagram)?;
        }
    }
    Ok(flight)
}

/// Once the handshake is over, three PINGs of the client's come to the server, in order or backwards, and are answered. Only
/// this stands in their text.
fn pinged(alloc: Global, pair: &mut Pair, is_backwards: bool) -> Result<(), Fail> {
    pair.carry(alloc, ONCE)?;
    pair.forget();
    let flight = three_pings(alloc, &mut pair.client, pair.nanos)?;
    if is_backwards {
        deliver_backwards(
            alloc,
            &pair.client,
            &mut pair.server,
            pair.nanos,
            flight.as_slice(),
        )?;
    } else {
        deliver(
            alloc,
            &pair.client,
            &mut pair.server,
            pair.nanos,
            flight.as_slice(),
            ONCE,
        )?;
    }
    pair.carry(alloc, ONCE)
}

/// Checks that three PINGs come so, and are acknowledged.
fn pings_come(
    rt: &impl Abort,
    alloc: Global,
    pair: &mut Pair,
    is_backwards: bool,
    pieces: &str,
) -> Result<(), Fail> {
    pinged(alloc, pair, is_backwards)?;
    tells(rt, alloc, &pair.server, "piece ", pieces)?;
    tells(
        rt,
        alloc,
        &pair.server,
        "seal ",
        "seal data 2 0 ACK/0204000003\n",
    )
}

// The client's 1-RTT packets 2 to 4 have a PING each, and 1, an ACK, came before; 0 is skipped, so that the first PING is out of order.
// They are acknowledged at once: from 4 on 3 more.
#[test]
fn pings_come_in_order(rt: HostRuntime) -> Result<(), Fail> {
    let alloc = rt.alloc();
    let mut pair = Pair::new(alloc)?;
    let pieces = "piece data 2 Admitted\npiece data 3 Admitted\npiece data 4 Admitted\n";
    pings_come(&rt, alloc, &mut pair, false, pieces)
}

#[test]
fn pings_come_backwards(rt: HostRuntime) -> Result<(), Fail> {
    let alloc = rt.alloc();
    let mut pair = Pair::new(alloc)?;
    let pieces = "piece data 4 Admitted\npiece data 3 Admitted\npiece data 2 Admitted\n";
    pings_come(&rt, alloc, &mut pair, true, pieces)
}
