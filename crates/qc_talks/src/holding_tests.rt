//! An ACK that is held back, and comes at last.

use crate::closing_tests::tells;
use crate::pair::{ONCE, Pair};
use std::alloc::Global;
use std::process::Abort;
use std::test::Fail;

/// Once the handshake is over, a PING of the server's comes to the client, and datagrams are carried until none is sent. Only this
/// stands in their text.
fn pinged(alloc: Global, pair: &mut Pair) -> Result<(), Fail> {
    pair.carry(alloc, ONCE)?;
    pair.forget();
    pair.ping(alloc, false)?;
    let _sent = pair.carry_one(alloc, false, ONCE)?;
    Ok(())
}

/// Checks that the client acknowledges a PING 25 ms after it came, and not before.
fn holds_back(rt: &impl Abort, alloc: Global, pair: &mut Pair) -> Result<(), Fail> {
    pinged(alloc, pair)?;
    let due = pair.nanos.saturating_add(25_000_000);
    assert_eq!(rt; pair.client.timer(), Some(due));
    pair.carry(alloc, ONCE)?;
    tells(rt, alloc, &pair.client, "seal ", "")?;
    pair.nanos = due;
    pair.client.expires(alloc, due)?;
    pair.carry(alloc, ONCE)?;
    let ack = "seal data 2 0 ACK/02024c350001\n";
    tells(rt, alloc, &pair.client, "seal ", ack)?;
    let given = "gave recovery ACK/02024c350001\n";
    tells(rt, alloc, &pair.server, "gave ", given)
}

// The PING is in the server's 1-RTT packet 2, behind the HANDSHAKE_DONE in 1; 0 is skipped. The client has acknowledged 1, and does so
// again, since no one has acknowledged that ACK. The ACK goes a microsecond after the timer came: its delay is 25001 microseconds, 3125
// units of 8 (RFC 9000, section 19.3), in two bytes 4c35.
#[test]
fn an_ack_is_held_back_for_25_ms(rt: HostRuntime) -> Result<(), Fail> {
    let alloc = rt.alloc();
    let mut pair = Pair::new(alloc)?;
    holds_back(&rt, alloc, &mut pair)
}
