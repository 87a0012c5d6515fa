//! Two ends are established, and one of them closes.

use crate::ends::End;
use crate::pair::{ONCE, Pair};
use std::alloc::Global;
use std::process::Abort;
use std::test::Fail;

/// What the application is told of a handshake.
const BOTH: &str = "event handshake-data\nevent connected\n";

/// What the application is told of the other end's close, with code 7 and the reason `bye`.
const LOST: &str = "event lost ApplicationClosed 7 627965\n";

/// Checks that the lines of an end's steps that begin with these words are these.
pub(crate) fn tells(
    rt: &impl Abort,
    alloc: Global,
    end: &End,
    words: &str,
    lines: &str,
) -> Result<(), Fail> {
    let told = end.told(alloc, words)?;
    assert_eq!(rt; told.as_str(), lines);
    Ok(())
}

/// Checks that an end was told that the handshake's data is ready and that it is connected, once, and that its life rose to
/// Established alone.
pub(crate) fn is_established(rt: &impl Abort, alloc: Global, end: &End) -> Result<(), Fail> {
    tells(rt, alloc, end, "event ", BOTH)?;
    tells(rt, alloc, end, "life ", "life 1\n")?;
    tells(rt, alloc, end, "lost ", "")
}

/// Checks the same of two ends that were just made, once datagrams were carried until none was sent.
fn are_established(rt: &impl Abort, alloc: Global, pair: &mut Pair) -> Result<(), Fail> {
    pair.carry(alloc, ONCE)?;
    is_established(rt, alloc, &pair.client)?;
    is_established(rt, alloc, &pair.server)
}

/// Checks what both ends tell once one of them closed, and datagrams were carried until none was sent. Each seals one packet. The
/// first one has the close, behind the ACK of the other end's 1-RTT packet 1: both skip number 0. The other end drains and is told why the connection
/// was lost; its packet tells that it closed too, without an error, behind this ACK (RFC 9000, section 10.2.2). So the first one
/// drains as well, and is told nothing.
fn ends_with_a_close(
    rt: &impl Abort,
    alloc: Global,
    closed: &End,
    other: &End,
    ack: &str,
) -> Result<(), Fail> {
    let close = "seal data 2 0 ACK/0201000000 APPLICATION_CLOSE/1d0703627965\n";
    tells(rt, alloc, closed, "seal ", close)?;
    tells(rt, alloc, closed, "event ", "")?;
    tells(rt, alloc, closed, "life ", "life 2\nlife 3\n")?;
    let answer = format!(in alloc; "seal data 2 0 {ack} CONNECTION_CLOSE/1c000000\n")?;
    tells(rt, alloc, other, "seal ", answer.as_str())?;
    tells(rt, alloc, other, "event ", LOST)?;
    tells(rt, alloc, other, "life ", "life 3\n")
}

/// Checks that two ends are established, and what both tell once this one closes, and datagrams are carried until none is sent. A
/// server acknowledges the packets 1 and 2. A client acknowledges 2 alone: its packet 1 was an ACK of the server's packet 1, and the
/// server's close acknowledges that one, so that 1 needn't be acknowledged again (RFC 9000, section 13.2.4).
fn closes(rt: &impl Abort, alloc: Global, pair: &mut Pair, is_client: bool) -> Result<(), Fail> {
    are_established(rt, alloc, pair)?;
    pair.forget();
    pair.close(alloc, is_client)?;
    let _sent = pair.carry_one(alloc, is_client, ONCE)?;
    pair.carry(alloc, ONCE)?;
    if is_client {
        ends_with_a_close(rt, alloc, &pair.client, &pair.server, "ACK/0202000001")
    } else {
        ends_with_a_close(rt, alloc, &pair.server, &pair.client, "ACK/0202000000")
    }
}

// Each end sealed one 1-RTT packet before, number 1: the server its HANDSHAKE_DONE, the client the ACK of it, which is owed at once
// since number 0 is missing.
#[test]
fn a_client_closes(rt: HostRuntime) -> Result<(), Fail> {
    let alloc = rt.alloc();
    let mut pair = Pair::new(alloc)?;
    closes(&rt, alloc, &mut pair, true)
}

#[test]
fn a_server_closes(rt: HostRuntime) -> Result<(), Fail> {
    let alloc = rt.alloc();
    let mut pair = Pair::new(alloc)?;
    closes(&rt, alloc, &mut pair, false)
}
