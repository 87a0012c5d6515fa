//! Credit that is used up, and comes back.

use crate::closing_tests::tells;
use crate::ends::End;
use crate::pair::{ONCE, Pair};
use crate::stream_tests::write;
use qc_base::{Dir, Instant, Side, StreamId};
use qc_state::Input;
use std::alloc::Global;
use std::process::Abort;
use std::test::Fail;

/// The application opens its first bidirectional stream, and writes on it twice more than the other end takes.
fn fill(alloc: Global, end: &mut End, nanos: u64, id: StreamId) -> Result<(), Fail> {
    let now = Instant::from_nanos(nanos);
    end.calls(alloc, &Input::Open { now, dir: Dir::Bi })?;
    write(alloc, end, nanos, id)?;
    write(alloc, end, nanos, id)
}

/// The application reads at most so many bytes.
fn read(alloc: Global, end: &mut End, nanos: u64, id: StreamId, max: usize) -> Result<(), Fail> {
    let now = Instant::from_nanos(nanos);
    end.calls(alloc, &Input::Read { now, id, max })
}

/// Checks that an eighth of 800 bytes that was read is told, and not a byte less, and that as much can be written then.
fn comes_back(rt: &impl Abort, alloc: Global, pair: &mut Pair) -> Result<(), Fail> {
    let id = StreamId::new(Side::Client, Dir::Bi, 0);
    pair.carry(alloc, ONCE)?;
    pair.forget();
    fill(alloc, &mut pair.client, pair.nanos, id)?;
    pair.carry(alloc, ONCE)?;
    read(alloc, &mut pair.server, pair.nanos, id, 99)?;
    pair.carry(alloc, ONCE)?;
    let ack = "seal data 2 0 ACK/0202000001\n";
    tells(rt, alloc, &pair.server, "seal ", ack)?;
    read(alloc, &mut pair.server, pair.nanos, id, 1)?;
    pair.carry(alloc, ONCE)?;
    let credit = "seal data 3 0 MAX_DATA/104384 MAX_STREAM_DATA/11004384\n";
    tells(rt, alloc, &pair.server, "seal data 3 ", credit)?;
    write(alloc, &mut pair.client, pair.nanos, id)?;
    let answers =
        "answer opened 0\nanswer wrote 800\nanswer error Blocked\nanswer done\nanswer done\nanswer wrote 100\n";
    tells(rt, alloc, &pair.client, "answer ", answers)?;
    tells(
        rt,
        alloc,
        &pair.client,
        "event ",
        "event stream Writable 0\n",
    )
}

// The server takes 800 bytes of a stream and of all together. As 100 were read it tells that 900 may come, 4384 as a varint: MAX_DATA
// before MAX_STREAM_DATA (RFC 9000, sections 4.1 and 4.2). Of the client's packets 1 had the ACK of the HANDSHAKE_DONE and 2 the bytes, which
// is acknowledged at once, since number 0 is missing; so no ACK is bundled with the credit.
#[test]
fn credit_that_was_read_comes_back(rt: HostRuntime) -> Result<(), Fail> {
    let alloc = rt.alloc();
    let mut pair = Pair::with_window(alloc, Some(800))?;
    comes_back(&rt, alloc, &mut pair)
}
