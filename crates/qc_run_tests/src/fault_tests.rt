//! Runs of the hello over sources and sinks in memory, some of whose calls fail.

use qc_run::run::{Status, run};
use qc_run::{MemorySink, MemorySource, SliceSource, Source};
use std::alloc::{AllocError, Global};
use std::slice;
use std::test::Fail;

const HELLO: &str = "set side client\ntransmit 0 1\n";

/// How many bytes the sink takes where nothing else is said: more than any of these runs writes.
const ROOM: usize = 100_000;

/// Which writes fail, which take nothing, and how many bytes the sink takes.
#[derive(Clone, Copy)]
struct Faults<'a> {
    writes: &'a [u64],
    idle: &'a [u64],
    room: usize,
}

/// No faults.
fn none<'a>() -> Faults<'a> {
    Faults {
        writes: &[],
        idle: &[],
        room: ROOM,
    }
}

/// A sink with these faults.
fn sink_of(alloc: Global, faults: &Faults<'_>) -> Result<MemorySink, AllocError> {
    let failing = Vec::from_slice(alloc, faults.writes)?;
    let idle = Vec::from_slice(alloc, faults.idle)?;
    MemorySink::new(alloc, faults.room, failing, idle)
}

/// Runs the script of a source.
fn run_from<So: Source>(
    alloc: Global,
    source: &mut So,
    sink: &mut MemorySink,
) -> Result<Status, AllocError> {
    let word = String::from_str(alloc, "run")?;
    Ok(run(alloc, slice::from_ref(&word), source, sink))
}

/// Runs the hello, of which the reads fail that are named.
fn run_hello(alloc: Global, reads: &[u64], sink: &mut MemorySink) -> Result<Status, AllocError> {
    let bytes = Vec::from_slice(alloc, HELLO.as_bytes())?;
    let mut source = MemorySource::new(bytes, Vec::from_slice(alloc, reads)?);
    run_from(alloc, &mut source, sink)
}

/// The status of a run of the hello one of whose reads fails, and how its text begins: with a fault, with a trace, or otherwise.
fn read_fails(alloc: Global, call: u64) -> Result<(Status, bool, bool), Fail> {
    let mut sink = sink_of(alloc, &none())?;
    let status = run_hello(alloc, &[call], &mut sink)?;
    let text = sink.held();
    Ok((
        status,
        text == b"read fault\n".as_slice(),
        text.starts_with(b"qconn 1\n"),
    ))
}

// The run of the hello reads twice, the second time at the end, and writes once.
#[test]
fn each_read_fails_in_turn(rt: HostRuntime) -> Result<(), Fail> {
    for call in 0..4 {
        let (status, is_fault, is_trace) = read_fails(rt.alloc(), call)?;
        let expected = if call < 2 {
            Status::ReadFault
        } else {
            Status::Done
        };
        assert_eq!(rt; status, expected, "read {call}");
        assert_eq!(rt; is_fault, call < 2, "read {call}");
        assert_eq!(rt; is_trace, call >= 2, "read {call}");
    }
    Ok(())
}

/// Whether a run of the hello with these faults ends in this status, and writes a front of this text.
fn ends_before(
    alloc: Global,
    faults: &Faults<'_>,
    status: Status,
    whole: &[u8],
) -> Result<bool, Fail> {
    let mut sink = sink_of(alloc, faults)?;
    let was = run_hello(alloc, &[], &mut sink)?;
    Ok(was == status && whole.starts_with(sink.held()))
}

/// Whether a run of the hello with these faults ends in this status, and writes a front of the whole text.
fn ends_in(alloc: Global, faults: &Faults<'_>, status: Status) -> Result<bool, Fail> {
    let mut sink = sink_of(alloc, &none())?;
    let _done = run_hello(alloc, &[], &mut sink)?;
    ends_before(alloc, faults, status, sink.held())
}

#[test]
fn each_write_fails_in_turn(rt: HostRuntime) -> Result<(), Fail> {
    for call in 0..3 {
        let calls = [call];
        let failing = Faults {
            writes: &calls,
            ..none()
        };
        let idle = Faults {
            idle: &calls,
            ..none()
        };
        let status = if call == 0 {
            Status::WriteFault
        } else {
            Status::Done
        };
        assert!(rt;
            ends_in(rt.alloc(), &failing, status)?,
            "write {call} fails"
        );
        assert!(rt;
            ends_in(rt.alloc(), &idle, status)?,
            "write {call} takes nothing"
        );
    }
    Ok(())
}

#[test]
fn a_sink_has_room_for_so_much(rt: HostRuntime) -> Result<(), Fail> {
    for room in [0, 1, 7, 8, 1000, 2000] {
        let faults = Faults { room, ..none() };
        assert!(rt;
            ends_in(rt.alloc(), &faults, Status::WriteFault)?,
            "room {room}"
        );
    }
    Ok(())
}

/// What a client tells of its hello and then of a PING, from bytes that aren't its own.
const PARTS: &[&str] = &[
    "step 0 transmit 0\nseal initial 0 0 CRYPTO/0600404801004500",
    "step 1 ping 1\nanswer done\n",
    "step 2 transmit 1\nseal initial 1 0 PING/01 PADDING*1156\nout 00000000000000000000000000000001/4433 1200 - 2 ",
    "step 3 transmit 2\nquiet NothingOwed\n",
];

/// The status of a run of these bytes, and how many of these parts its text has.
fn count_parts(alloc: Global, script: &[u8], parts: &[&str]) -> Result<(Status, usize), Fail> {
    let mut sink = sink_of(alloc, &none())?;
    let status = run_from(alloc, &mut SliceSource::new(script), &mut sink)?;
    let text = String::from_utf8(Vec::from_slice(alloc, sink.held())?)?;
    let mut count = 0usize;
    for part in parts {
        if text.as_str().contains(part) {
            count = count.saturating_add(1);
        }
    }
    Ok((status, count))
}

#[test]
fn ping_follows_the_hello(rt: HostRuntime) -> Result<(), Fail> {
    let script = b"set side client\ntransmit 0 1\nping 1\ntransmit 1 1\ntransmit 2 1\n";
    let (status, count) = count_parts(rt.alloc(), script, PARTS)?;
    assert_eq!(rt; status, Status::Done);
    assert_eq!(rt; count, 4);
    Ok(())
}
