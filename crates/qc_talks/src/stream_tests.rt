//! Streams on which both ends write, while datagrams are lost.

use crate::ends::End;
use crate::losing_tests::{Lost, Road, talk};
use crate::pair::{ONCE, Pair};
use crate::tally::{Tally, byte_at};
use qc_base::{Dir, Instant, Side, StreamId};
use qc_state::{Body, Input};
use std::alloc::{AllocError, Global};
use std::process::Abort;
use std::test::Fail;

/// How many streams each end opens.
const STREAMS: u64 = 100;

/// How many bytes are written on each.
const SIZE: u64 = 10_000;

/// More reads than a stream takes.
const READS: u32 = 100;

/// What is written on a stream.
fn body_of(alloc: Global, id: u64) -> Result<Body, AllocError> {
    let mut bytes = Vec::new(alloc);
    for offset in 0..SIZE {
        bytes.push(byte_at(id, offset))?;
    }
    Ok(Body::from_vec(bytes))
}

/// The application writes 10,000 bytes on a stream.
pub(crate) fn write(alloc: Global, end: &mut End, nanos: u64, id: StreamId) -> Result<(), Fail> {
    let input = Input::Write {
        now: Instant::from_nanos(nanos),
        id,
        body: body_of(alloc, id.value())?,
    };
    end.calls(alloc, &input)
}

/// The application opens the next stream, writes on it and finishes it.
fn send(alloc: Global, end: &mut End, nanos: u64, dir: Dir, id: StreamId) -> Result<(), Fail> {
    let now = Instant::from_nanos(nanos);
    end.calls(alloc, &Input::Open { now, dir })?;
    write(alloc, end, nanos, id)?;
    end.calls(alloc, &Input::Finish { now, id })
}

/// An end of this side opens all its streams of this direction, writes on them and finishes them.
fn send_all(alloc: Global, end: &mut End, nanos: u64, side: Side, dir: Dir) -> Result<(), Fail> {
    for index in 0..STREAMS {
        send(alloc, end, nanos, dir, StreamId::new(side, dir, index))?;
    }
    Ok(())
}

/// The application reads a stream to its end.
fn read(alloc: Global, end: &mut End, nanos: u64, id: StreamId) -> Result<(), Fail> {
    let input = Input::Read {
        now: Instant::from_nanos(nanos),
        id,
        max: 10_000,
    };
    let before = end.tally.ended;
    for _ in 0..READS {
        if end.tally.ended == before {
            end.calls(alloc, &input)?;
        }
    }
    Ok(())
}

/// An end accepts all streams of this direction that the other end, of this side, opened, and reads them to their end.
fn read_all(alloc: Global, end: &mut End, nanos: u64, side: Side, dir: Dir) -> Result<(), Fail> {
    let now = Instant::from_nanos(nanos);
    for index in 0..STREAMS {
        end.calls(alloc, &Input::Accept { now, dir })?;
        read(alloc, end, nanos, StreamId::new(side, dir, index))?;
    }
    Ok(())
}

/// The client's streams are bidirectional ones, the server's unidirectional ones. All is written at once, and read once it came.
fn converse_at_once(alloc: Global, pair: &mut Pair) -> Result<(), Fail> {
    let mut road = Road::new(Lost::One(u32::MAX));
    send_all(alloc, &mut pair.client, pair.nanos, Side::Client, Dir::Bi)?;
    send_all(alloc, &mut pair.server, pair.nanos, Side::Server, Dir::Uni)?;
    talk(alloc, pair, &mut road)?;
    read_all(alloc, &mut pair.server, pair.nanos, Side::Client, Dir::Bi)?;
    read_all(alloc, &mut pair.client, pair.nanos, Side::Server, Dir::Uni)?;
    talk(alloc, pair, &mut road)
}

/// The same, one end after the other, while each fifth datagram is lost.
fn converse_in_turn(alloc: Global, pair: &mut Pair) -> Result<(), Fail> {
    let mut road = Road::new(Lost::EachFifth);
    send_all(alloc, &mut pair.client, pair.nanos, Side::Client, Dir::Bi)?;
    talk(alloc, pair, &mut road)?;
    read_all(alloc, &mut pair.server, pair.nanos, Side::Client, Dir::Bi)?;
    send_all(alloc, &mut pair.server, pair.nanos, Side::Server, Dir::Uni)?;
    talk(alloc, pair, &mut road)?;
    read_all(alloc, &mut pair.client, pair.nanos, Side::Server, Dir::Uni)?;
    talk(alloc, pair, &mut road)
}

/// Checks what an end was told: the answers to its calls, and that each of its streams is finished.
fn has_all(rt: &impl Abort, end: &End) {
    let all = Tally {
        opened: STREAMS,
        accepted: STREAMS,
        wrote: STREAMS * SIZE,
        read: STREAMS * SIZE,
        ended: STREAMS,
        finished: STREAMS,
    };
    assert_eq!(rt; end.tally, all);
}

/// Two ends whose handshake is over, and whose steps aren't told any more.
fn two_ends(alloc: Global) -> Result<Pair, Fail> {
    let mut pair = Pair::new(alloc)?;
    pair.carry(alloc, ONCE)?;
    pair.client.hush();
    pair.server.hush();
    Ok(pair)
}

// Each end opens 100 streams and writes 10,000 bytes on each, both at once, far more than a congestion window lets go. Each byte comes as it was
// written, once, and each end; and each stream is told to be finished (RFC 9000, sections 2.2 and 3; RFC 9002, section 7).
#[test]
fn hundred_streams_wait_for_the_window(rt: HostRuntime) -> Result<(), Fail> {
    let alloc = rt.alloc();
    let mut pair = two_ends(alloc)?;
    converse_at_once(alloc, &mut pair)?;
    has_all(&rt, &pair.client);
    has_all(&rt, &pair.server);
    Ok(())
}

// So it is where each fifth datagram is lost, one end after the other (RFC 9000, section 13.3). Both at once would take long: where both windows are
// full and the packet with an ACK is lost, each end waits for the other's ACK until probes are due.
#[test]
fn hundred_streams_outlive_losses(rt: HostRuntime) -> Result<(), Fail> {
    let alloc = rt.alloc();
    let mut pair = two_ends(alloc)?;
    converse_in_turn(alloc, &mut pair)?;
    has_all(&rt, &pair.client);
    has_all(&rt, &pair.server);
    Ok(())
}
