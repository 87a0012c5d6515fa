//! Key updates of two ends (RFC 9001, section 6): by each of them, by both at once, while datagrams are lost, and with packets that come late.

use crate::closing_tests::tells;
use crate::ends::End;
use crate::losing_tests::{Lost, Road, talk};
use crate::pair::{ONCE, Pair, deliver};
use std::alloc::Global;
use std::process::Abort;
use std::test::Fail;

/// Longer than three probe timeouts of these conversations, in nanoseconds; an idle connection ends later.
const LONG: u64 = 1_000_000_000;

/// How often each end tries to update its keys while datagrams are lost.
const TRIES: u32 = 30;

/// Checks that an end has met no packet that it couldn't open, and no update that wasn't allowed, and goes on.
fn is_well(rt: &impl Abort, alloc: Global, end: &End) -> Result<(), Fail> {
    tells(rt, alloc, end, "piece data - ", "")?;
    tells(rt, alloc, end, "lost ", "")
}

/// The number behind a word that a line has behind its second one, as it is printed.
fn fourth_word(line: &str) -> &str {
    let mut rest = line;
    for _ in 0..3 {
        if let Some((_, behind)) = rest.split_once(" ") {
            rest = behind;
        }
    }
    match rest.split_once(" ") {
        Some((word, _)) => word,
        None => rest,
    }
}

/// The epoch of the last packet among lines of packets that were sealed, as it is printed.
fn last_epoch(told: &str) -> &str {
    let mut last = "";
    let mut rest = told;
    for _ in 0..told.len() {
        if let Some((line, behind)) = rest.split_once("\n") {
            last = line;
            rest = behind;
        }
    }
    fourth_word(last)
}

/// Checks that the last 1-RTT packet that an end sealed is of this epoch.
fn is_in_epoch(rt: &impl Abort, alloc: Global, end: &End, epoch: &str) -> Result<(), Fail> {
    let told = end.told(alloc, "seal data ")?;
    assert_eq!(rt; last_epoch(told.as_str()), epoch);
    Ok(())
}

/// Checks that the last 1-RTT packet that an end sealed isn't of epoch 0.
fn has_updated(rt: &impl Abort, alloc: Global, end: &End) -> Result<(), Fail> {
    let told = end.told(alloc, "seal data ")?;
    assert_ne!(rt; last_epoch(told.as_str()), "0");
    Ok(())
}

/// An end asks for a PING, and what follows is carried.
fn ping(alloc: Global, pair: &mut Pair, is_client: bool) -> Result<(), Fail> {
    pair.ping(alloc, is_client)?;
    pair.carry(alloc, ONCE)
}

/// Two ends whose handshake is over, and of each of which a packet was acknowledged.
fn two_ends(alloc: Global) -> Result<Pair, Fail> {
    let mut pair = Pair::new(alloc)?;
    pair.carry(alloc, ONCE)?;
    ping(alloc, &mut pair, true)?;
    ping(alloc, &mut pair, false)?;
    pair.forget();
    Ok(pair)
}

/// Checks that an end updates its keys, and once: until a packet of the new epoch is acknowledged, and old keys are dropped, it may not again.
fn updates_once(rt: &impl Abort, alloc: Global, end: &mut End, nanos: u64) -> Result<(), Fail> {
    end.forget();
    end.updates(alloc, nanos)?;
    end.updates(alloc, nanos)?;
    tells(rt, alloc, end, "answer ", "answer true\nanswer false\n")?;
    end.forget();
    Ok(())
}

/// The timers of both ends come after a long time.
fn outwait(alloc: Global, pair: &mut Pair) -> Result<(), Fail> {
    pair.nanos = pair.nanos.saturating_add(LONG);
    pair.client.expires(alloc, pair.nanos)?;
    pair.server.expires(alloc, pair.nanos)
}

/// So, and what they owe is carried: ACKs that were held back.
fn settle(alloc: Global, pair: &mut Pair) -> Result<(), Fail> {
    outwait(alloc, pair)?;
    pair.carry(alloc, ONCE)
}

/// Checks that both ends are in this epoch, and are well.
fn are_in_epoch(rt: &impl Abort, alloc: Global, pair: &Pair, epoch: &str) -> Result<(), Fail> {
    is_in_epoch(rt, alloc, &pair.client, epoch)?;
    is_in_epoch(rt, alloc, &pair.server, epoch)?;
    is_well(rt, alloc, &pair.client)?;
    is_well(rt, alloc, &pair.server)
}

// The client updates its keys, and the server follows with its next packet. Once old keys are dropped and a packet of the new epoch was
// acknowledged, the server updates, and the client follows.
#[test]
fn each_end_updates(rt: HostRuntime) -> Result<(), Fail> {
    let alloc = rt.alloc();
    let mut pair = two_ends(alloc)?;
    updates_once(&rt, alloc, &mut pair.client, pair.nanos)?;
    ping(alloc, &mut pair, true)?;
    ping(alloc, &mut pair, false)?;
    are_in_epoch(&rt, alloc, &pair, "1")?;
    settle(alloc, &mut pair)?;
    updates_once(&rt, alloc, &mut pair.server, pair.nanos)?;
    ping(alloc, &mut pair, false)?;
    ping(alloc, &mut pair, true)?;
    are_in_epoch(&rt, alloc, &pair, "2")
}

// Before the handshake is over no end may update its keys (RFC 9001, 6.1).
#[test]
fn no_end_updates_early(rt: HostRuntime) -> Result<(), Fail> {
    let mut pair = Pair::new(rt.alloc())?;
    assert!(rt; !pair.client.forces_update());
    assert!(rt; !pair.server.initiates_update());
    Ok(())
}

// By the calls of the application, each end updates its keys once.
#[test]
fn calls_update_keys(rt: HostRuntime) -> Result<(), Fail> {
    let alloc = rt.alloc();
    let mut pair = two_ends(alloc)?;
    assert!(rt; pair.client.forces_update());
    assert!(rt; !pair.client.initiates_update());
    assert!(rt; pair.server.initiates_update());
    assert!(rt; !pair.server.forces_update());
    ping(alloc, &mut pair, true)?;
    ping(alloc, &mut pair, false)?;
    are_in_epoch(&rt, alloc, &pair, "1")
}

// Both update before either hears of the other: both are in the same epoch then.
#[test]
fn both_ends_update_at_once(rt: HostRuntime) -> Result<(), Fail> {
    let alloc = rt.alloc();
    let mut pair = two_ends(alloc)?;
    updates_once(&rt, alloc, &mut pair.client, pair.nanos)?;
    updates_once(&rt, alloc, &mut pair.server, pair.nanos)?;
    pair.ping(alloc, true)?;
    pair.ping(alloc, false)?;
    pair.carry(alloc, ONCE)?;
    ping(alloc, &mut pair, true)?;
    are_in_epoch(&rt, alloc, &pair, "1")
}

/// Each end tries to update its keys and asks for a PING, again and again, while each fifth datagram is lost.
fn update_lossy(alloc: Global, pair: &mut Pair) -> Result<(), Fail> {
    let mut road = Road::new(Lost::EachFifth);
    for _ in 0..TRIES {
        pair.client.updates(alloc, pair.nanos)?;
        pair.ping(alloc, true)?;
        talk(alloc, pair, &mut road)?;
        pair.server.updates(alloc, pair.nanos)?;
        pair.ping(alloc, false)?;
        talk(alloc, pair, &mut road)?;
        outwait(alloc, pair)?;
    }
    Ok(())
}

// While datagrams are lost no packet comes that can't be opened, and no update that wasn't allowed.
#[test]
fn updates_outlive_losses(rt: HostRuntime) -> Result<(), Fail> {
    let alloc = rt.alloc();
    let mut pair = two_ends(alloc)?;
    update_lossy(alloc, &mut pair)?;
    has_updated(&rt, alloc, &pair.client)?;
    has_updated(&rt, alloc, &pair.server)?;
    is_well(&rt, alloc, &pair.client)?;
    is_well(&rt, alloc, &pair.server)
}

/// A PING of the server's, in datagrams that don't come yet.
fn held_back(alloc: Global, pair: &mut Pair) -> Result<Vec<Vec<u8>>, Fail> {
    pair.ping(alloc, false)?;
    pair.wait();
    pair.server.flight(alloc, pair.nanos)
}

/// Datagrams of the server's come late.
fn come_late(alloc: Global, pair: &mut Pair, flight: &[Vec<u8>]) -> Result<(), Fail> {
    pair.client.forget();
    deliver(
        alloc,
        &pair.server,
        &mut pair.client,
        pair.nanos,
        flight,
        ONCE,
    )
}

// Two packets of the old epoch come late: one while the keys of that epoch are kept, which is opened, and one once they were dropped, which
// isn't.
#[test]
fn old_packets_come_late(rt: HostRuntime) -> Result<(), Fail> {
    let alloc = rt.alloc();
    let mut pair = two_ends(alloc)?;
    let sooner = held_back(alloc, &mut pair)?;
    let later = held_back(alloc, &mut pair)?;
    updates_once(&rt, alloc, &mut pair.client, pair.nanos)?;
    ping(alloc, &mut pair, true)?;
    ping(alloc, &mut pair, false)?;
    come_late(alloc, &mut pair, sooner.as_slice())?;
    is_well(&rt, alloc, &pair.client)?;
    settle(alloc, &mut pair)?;
    come_late(alloc, &mut pair, later.as_slice())?;
    tells(&rt, alloc, &pair.client, "piece ", "piece data - Failure\n")
}
