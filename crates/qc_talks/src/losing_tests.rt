//! Handshakes in which one datagram is lost.

use crate::closing_tests::is_established;
use crate::ends::End;
use crate::pair::Pair;
use std::alloc::Global;
use std::process::Abort;
use std::test::Fail;

/// A time within which the next loss timer of these conversations comes, in nanoseconds; an idle connection ends later, 30 s after the
/// last packet that came.
const LONG: u64 = 20_000_000_000;

/// More rounds than any of these conversations takes.
const ROUNDS: u32 = 5000;

/// How many bytes a datagram has at least that is a large one.
const LARGE: usize = 1000;

/// Which datagrams are lost, counted from 0.
#[derive(Clone, Copy)]
pub(crate) enum Lost {
    /// This one.
    One(u32),
    /// Each fifth.
    EachFifth,
    /// Each fifth of the large ones of each end.
    EachFifthLarge,
}

/// What lies between the ends: how many datagrams were sent so far, how many large ones by the client and by the server, and which ones
/// are lost.
#[derive(Drop)]
pub(crate) struct Road {
    sent: u32,
    of_client: u32,
    of_server: u32,
    lost: Lost,
}

impl Road {
    /// No datagram was sent.
    pub(crate) fn new(lost: Lost) -> Road {
        Road {
            sent: 0,
            of_client: 0,
            of_server: 0,
            lost,
        }
    }

    /// A large datagram is sent by an end. Says how many it sent before.
    fn count_large(&mut self, is_clients: bool) -> u32 {
        if is_clients {
            let before = self.of_client;
            self.of_client = before.saturating_add(1);
            before
        } else {
            let before = self.of_server;
            self.of_server = before.saturating_add(1);
            before
        }
    }

    /// A datagram of so many bytes is sent by an end. Says whether it is lost.
    fn loses(&mut self, is_clients: bool, size: usize) -> bool {
        let sent = self.sent;
        self.sent = sent.saturating_add(1);
        match self.lost {
            Lost::One(at) => sent == at,
            Lost::EachFifth => sent % 5 == 4,
            Lost::EachFifthLarge => size >= LARGE && self.count_large(is_clients) % 5 == 4,
        }
    }
}

/// Carries a flight of an end to the other, but for the datagrams that are lost. Says how many datagrams were sent.
fn carry_flight(
    alloc: Global,
    from: &mut End,
    to: &mut End,
    nanos: u64,
    is_clients: bool,
    road: &mut Road,
) -> Result<usize, Fail> {
    let flight = from.flight(alloc, nanos)?;
    for datagram in flight.as_slice() {
        if !road.loses(is_clients, datagram.len()) {
            to.takes(alloc, nanos, from.address, None, datagram.as_slice())?;
        }
    }
    Ok(flight.len())
}

/// Carries a flight of the client's or of the server's, a microsecond later, and says how many datagrams were sent.
fn carry_lossy(
    alloc: Global,
    pair: &mut Pair,
    is_clients: bool,
    road: &mut Road,
) -> Result<usize, Fail> {
    pair.wait();
    let (client, server) = (&mut pair.client, &mut pair.server);
    if is_clients {
        carry_flight(alloc, client, server, pair.nanos, true, road)
    } else {
        carry_flight(alloc, server, client, pair.nanos, false, road)
    }
}

/// Carries flights both ways until neither end sends, the client's first.
fn carry_flights(alloc: Global, pair: &mut Pair, road: &mut Road) -> Result<(), Fail> {
    for _ in 0..ROUNDS {
        let sent = carry_lossy(alloc, pair, true, road)?;
        let answered = carry_lossy(alloc, pair, false, road)?;
        if sent == 0 && answered == 0 {
            return Ok(());
        }
    }
    Err(Fail::from("the ends go on and on"))
}

/// The earlier of two times, where there is one.
fn earlier(one: Option<u64>, other: Option<u64>) -> Option<u64> {
    match (one, other) {
        (Some(a), Some(b)) => Some(a.min(b)),
        (Some(a), None) => Some(a),
        (None, b) => b,
    }
}

/// Tells an end the time, where its timer has come.
fn expire(alloc: Global, end: &mut End, nanos: u64) -> Result<(), Fail> {
    match end.timer() {
        Some(time) => {
            if time <= nanos {
                return end.expires(alloc, nanos);
            }
            Ok(())
        }
        None => Ok(()),
    }
}

/// Waits for the timer that comes first. Says whether one came within `LONG`.
fn wait_for_timer(alloc: Global, pair: &mut Pair) -> Result<bool, Fail> {
    match earlier(pair.client.timer(), pair.server.timer()) {
        Some(time) => {
            if time >= pair.nanos.saturating_add(LONG) {
                return Ok(false);
            }
            pair.nanos = pair.nanos.max(time);
            expire(alloc, &mut pair.client, pair.nanos)?;
            expire(alloc, &mut pair.server, pair.nanos)?;
            Ok(true)
        }
        None => Ok(false),
    }
}

/// Carries all that is sent, and waits for timers, until no loss timer is left.
pub(crate) fn talk(alloc: Global, pair: &mut Pair, road: &mut Road) -> Result<(), Fail> {
    for _ in 0..ROUNDS {
        carry_flights(alloc, pair, road)?;
        if !wait_for_timer(alloc, pair)? {
            return Ok(());
        }
    }
    Err(Fail::from("timers come again and again"))
}

/// Checks that two ends that were just made are established, though this datagram is lost, and says how many were sent.
fn establishes(rt: &impl Abort, alloc: Global, pair: &mut Pair, lost: u32) -> Result<u32, Fail> {
    let mut road = Road::new(Lost::One(lost));
    talk(alloc, pair, &mut road)?;
    is_established(rt, alloc, &pair.client)?;
    is_established(rt, alloc, &pair.server)?;
    Ok(road.sent)
}

/// The same of two ends of their own.
fn two_establish(rt: &impl Abort, alloc: Global, lost: u32) -> Result<u32, Fail> {
    let mut pair = Pair::new(alloc)?;
    establishes(rt, alloc, &mut pair, lost)
}

// Five datagrams make a handshake: the hello; the server's Initial packet and its Handshake packet, in one; the client's ACK of the first,
// and its Handshake packet, in one; the HANDSHAKE_DONE, number 1; and its ACK, which isn't held back, since number 0 is missing. Where none
// is lost, no other is sent. Each in turn is lost once: timers bring what was in it again, so that more are sent (RFC 9002, section 6.2), and
// both ends tell once that they are connected.
#[test]
fn a_handshake_outlives_each_loss(rt: HostRuntime) -> Result<(), Fail> {
    let alloc = rt.alloc();
    let usual = two_establish(&rt, alloc, u32::MAX)?;
    assert_eq!(rt; usual, 5);
    for lost in 0..5 {
        let sent = two_establish(&rt, alloc, lost)?;
        assert!(rt; sent > 5, "{lost} {sent}");
    }
    Ok(())
}
