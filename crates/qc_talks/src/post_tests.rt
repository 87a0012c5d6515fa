//! Datagrams of the application that both ends send beside a stream, while some of those that carry them are lost (RFC 9221).

use crate::ends::End;
use crate::losing_tests::{Lost, Road, talk};
use crate::pair::{ONCE, Pair};
use crate::posts::post_of;
use crate::stream_tests::write;
use qc_base::{Dir, Instant, Side, StreamId};
use qc_state::Input;
use std::alloc::Global;
use std::process::Abort;
use std::test::Fail;

/// How many datagrams each end sends.
const POSTS: u8 = 100;

/// The application opens a stream, writes 10,000 bytes on it and finishes it.
fn send_stream(alloc: Global, end: &mut End, nanos: u64, id: StreamId) -> Result<(), Fail> {
    let now = Instant::from_nanos(nanos);
    end.calls(alloc, &Input::Open { now, dir: Dir::Uni })?;
    write(alloc, end, nanos, id)?;
    end.calls(alloc, &Input::Finish { now, id })
}

/// The application sends all its datagrams.
fn post_all(alloc: Global, end: &mut End, nanos: u64) -> Result<(), Fail> {
    for number in 0..POSTS {
        let input = Input::SendDatagram {
            now: Instant::from_nanos(nanos),
            body: post_of(alloc, number)?,
        };
        end.calls(alloc, &input)?;
    }
    Ok(())
}

/// The application takes the datagrams that came: it asks once more than there can be.
fn take_all(alloc: Global, end: &mut End, nanos: u64) -> Result<(), Fail> {
    let now = Instant::from_nanos(nanos);
    for _ in 0..=POSTS {
        end.calls(alloc, &Input::RecvDatagram { now })?;
    }
    Ok(())
}

/// Each end writes on a stream and sends datagrams, all at once, and they are taken once what isn't lost came.
fn converse(alloc: Global, pair: &mut Pair) -> Result<(), Fail> {
    let mut road = Road::new(Lost::EachFifthLarge);
    let of_client = StreamId::new(Side::Client, Dir::Uni, 0);
    let of_server = StreamId::new(Side::Server, Dir::Uni, 0);
    send_stream(alloc, &mut pair.client, pair.nanos, of_client)?;
    send_stream(alloc, &mut pair.server, pair.nanos, of_server)?;
    post_all(alloc, &mut pair.client, pair.nanos)?;
    post_all(alloc, &mut pair.server, pair.nanos)?;
    talk(alloc, pair, &mut road)?;
    take_all(alloc, &mut pair.client, pair.nanos)?;
    take_all(alloc, &mut pair.server, pair.nanos)
}

/// Checks what an end was told: of its own datagrams none was refused; those that it took are as they were sent, in that order, each once;
/// and its stream is finished.
fn has_some(rt: &impl Abort, end: &End) {
    assert_eq!(rt; end.posts.sent, 100);
    assert_eq!(rt; end.posts.right, 80);
    assert_eq!(rt; end.posts.wrong, 0);
    assert_eq!(rt; end.tally.finished, 1);
}

/// Checks both ends, once their handshake is over.
fn some_come(rt: &impl Abort, alloc: Global, pair: &mut Pair) -> Result<(), Fail> {
    pair.carry(alloc, ONCE)?;
    pair.client.hush();
    pair.server.hush();
    converse(alloc, pair)?;
    has_some(rt, &pair.client);
    has_some(rt, &pair.server);
    Ok(())
}

// Each end sends 100 datagrams of 1000 bytes, of which one goes in a packet, with some of the stream's bytes behind it. No other packet of theirs has
// 1000 bytes before these have gone, and each fifth of those that have is lost with its datagram: 80 come. What is lost of the stream goes again,
// and of the datagrams nothing does (RFC 9221, section 5).
#[test]
fn datagrams_that_come_stay_in_order(rt: HostRuntime) -> Result<(), Fail> {
    let alloc = rt.alloc();
    let mut pair = Pair::new(alloc)?;
    some_come(&rt, alloc, &mut pair)
}
