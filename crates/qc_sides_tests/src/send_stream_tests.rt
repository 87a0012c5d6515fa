//! Ranges in several orders, limits at their edges, an end that is lost, and what a reset leaves.

use bytes::Bytes;
use qc_base::VarInt;
use qc_send_stream::{
    ClosedStream, FinishError, SendBuffer, SendPart, WriteError, sends_what_was_written,
};
use std::alloc::Global;
use std::test::Fail;

/// What becomes of a range.
enum Deed {
    Seal(u32, u32),
    Acknowledge(u32, u32),
    Lose(u32, u32),
}

/// Writes a few bytes.
fn keep(buffer: &mut SendBuffer, alloc: Global, bytes: &[u8]) -> Result<(), Fail> {
    if buffer.written() < 100 && bytes.len() < 100 {
        buffer.write(Bytes::copy_from_slice(alloc, bytes)?)?;
    }
    Ok(())
}

fn apply(buffer: &mut SendBuffer, deed: &Deed) -> Result<(), Fail> {
    match deed {
        Deed::Seal(start, end) => buffer.seal(u64::from(*start), u64::from(*end))?,
        Deed::Acknowledge(start, end) => {
            let _count = buffer.acknowledge(u64::from(*start), u64::from(*end))?;
        }
        Deed::Lose(start, end) => buffer.lose(u64::from(*start), u64::from(*end))?,
    }
    Ok(())
}

/// Whether these are offered, where at most 4 bytes are asked for.
fn offers(buffer: &mut SendBuffer, offered: &Option<(u64, &[u8])>) -> Result<bool, Fail> {
    match (buffer.offer(4)?, offered) {
        (Some((at, bytes)), Some((offset, expected))) => {
            Ok(at == *offset && &bytes[..] == *expected)
        }
        (None, None) => Ok(true),
        _ => Ok(false),
    }
}

/// The offset of what is offered.
fn offered_at(buffer: &mut SendBuffer) -> Result<Option<u64>, Fail> {
    match buffer.offer(10)? {
        Some((at, _)) => Ok(Some(at)),
        None => Ok(None),
    }
}

// Ten bytes, abcdefghij, and after each step what is offered where 4 bytes are asked for.
const RANGES: [(Deed, Option<(u64, &[u8])>); 12] = [
    (Deed::Seal(0, 4), Some((4, b"efgh"))),
    (Deed::Seal(4, 8), Some((8, b"ij"))),
    (Deed::Seal(8, 10), None),
    // c to f are lost; then d and e are acknowledged late
    (Deed::Lose(2, 6), Some((2, b"cdef"))),
    (Deed::Acknowledge(3, 5), Some((2, b"c"))),
    (Deed::Seal(2, 3), Some((5, b"f"))),
    // all that isn't acknowledged waits again
    (Deed::Lose(0, 10), Some((0, b"ab"))),
    (Deed::Seal(0, 2), Some((2, b"c"))),
    (Deed::Seal(2, 3), Some((5, b"f"))),
    (Deed::Acknowledge(4, 7), Some((7, b"hij"))),
    (Deed::Acknowledge(0, 9), Some((9, b"j"))),
    (Deed::Acknowledge(9, 10), None),
];

#[test]
fn ranges_wait_leave_and_come_back(rt: HostRuntime) -> Result<(), Fail> {
    let mut buffer = SendBuffer::new(rt.alloc());
    keep(&mut buffer, rt.alloc(), b"abcdefghij")?;
    for (deed, offered) in &RANGES {
        assert!(rt; !buffer.is_empty());
        apply(&mut buffer, deed)?;
        assert!(rt; offers(&mut buffer, offered)?);
    }
    assert!(rt; buffer.is_empty());
    assert_eq!(rt; buffer.written(), 10);
    sends_what_was_written();
    Ok(())
}

// Fresh bytes wait behind lost ones; a range that begins behind what was sent doesn't count as
// sent, and one is sent no further than was written.
#[test]
fn fresh_bytes_come_in_order(rt: HostRuntime) -> Result<(), Fail> {
    // what becomes of a range, how many bytes are sent then, and the offset that is offered
    const STEPS: [(Deed, u64, u64); 7] = [
        (Deed::Seal(0, 3), 3, 3),
        (Deed::Lose(1, 2), 3, 1),
        (Deed::Seal(1, 2), 3, 3),
        (Deed::Seal(4, 6), 3, 3),
        (Deed::Acknowledge(3, 6), 3, 3),
        (Deed::Seal(3, 5), 5, 5),
        (Deed::Lose(0, 9), 5, 0),
    ];
    let mut buffer = SendBuffer::new(rt.alloc());
    keep(&mut buffer, rt.alloc(), b"abc")?;
    keep(&mut buffer, rt.alloc(), b"def")?;
    for (deed, sent, offset) in &STEPS {
        apply(&mut buffer, deed)?;
        assert_eq!(rt; buffer.sent(), *sent);
        assert!(rt; offered_at(&mut buffer)? == Some(*offset));
    }
    buffer.discard();
    assert!(rt; offered_at(&mut buffer)?.is_none());
    Ok(())
}

// The limit that the peer raises to before a write, the budget, and what the write answers. Eight
// bytes are wanted.
const WRITES: [(u32, u64, Result<usize, WriteError>); 7] = [
    (0, 100, Ok(5)),
    (0, 100, Err(WriteError::Blocked)),
    (4, 100, Err(WriteError::Blocked)),
    (6, 0, Err(WriteError::Blocked)),
    (6, 100, Ok(1)),
    (100, 1, Ok(1)),
    (0, 100, Ok(1)),
];

#[test]
fn writes_end_at_the_limit(rt: HostRuntime) -> Result<(), Fail> {
    let mut stream = SendPart::new(rt.alloc(), VarInt::from_u32(5));
    let mut chunk = Bytes::copy_from_slice(rt.alloc(), b"abcdefgh")?;
    for (limit, budget, answer) in WRITES {
        stream.raise_limit(VarInt::from_u32(limit));
        let wrote = stream.write(&mut chunk, budget);
        assert!(rt; wrote == answer);
        assert_eq!(rt; stream.take_blocked(), answer.is_err());
        assert!(rt; !stream.take_blocked());
    }
    assert!(rt; chunk.is_empty());
    assert!(rt; offers_bytes(&mut stream, b"abcde")?);
    Ok(())
}

/// Whether a stream offers these bytes.
fn offers_bytes(stream: &mut SendPart, bytes: &[u8]) -> Result<bool, Fail> {
    match stream.offer(100)? {
        Some(part) => Ok(&part.bytes[..] == bytes),
        None => Ok(false),
    }
}

/// A stream of two bytes that is finished.
fn finished(alloc: Global) -> Result<SendPart, Fail> {
    let mut stream = SendPart::new(alloc, VarInt::from_u32(100));
    let mut chunk = Bytes::copy_from_slice(alloc, b"ab")?;
    let _ = stream.write(&mut chunk, 100);
    let _ = stream.finish();
    Ok(stream)
}

/// The offset of the part that a stream offers, how many bytes it has, and whether it has the end.
fn offered(stream: &mut SendPart, most: usize) -> Result<Option<(u64, usize, bool)>, Fail> {
    match stream.offer(most)? {
        Some(part) => Ok(Some((part.offset, part.bytes.len(), part.last))),
        None => Ok(None),
    }
}

/// What a write of one byte answers.
fn write_byte(
    stream: &mut SendPart,
    alloc: Global,
    budget: u64,
) -> Result<Result<usize, WriteError>, Fail> {
    let mut chunk = Bytes::copy_from_slice(alloc, b"c")?;
    Ok(stream.write(&mut chunk, budget))
}

#[test]
fn an_end_that_is_lost_waits_again(rt: HostRuntime) -> Result<(), Fail> {
    let mut stream = finished(rt.alloc())?;
    assert!(rt; offered(&mut stream, 1)? == Some((0, 1, false)));
    assert!(rt; offered(&mut stream, 10)? == Some((0, 2, true)));
    stream.seal(0, 2, true)?;
    assert!(rt; offered(&mut stream, 10)?.is_none());
    stream.lose(0, 2, true)?;
    assert!(rt; offered(&mut stream, 10)? == Some((0, 2, true)));
    stream.seal(0, 2, true)?;
    assert_eq!(rt; stream.acknowledge(0, 2, false)?, 2);
    assert!(rt; !stream.is_done());
    stream.lose(0, 2, true)?;
    assert!(rt; offered(&mut stream, 10)? == Some((2, 0, true)));
    stream.seal(2, 2, true)?;
    assert!(rt; !stream.is_done());
    assert_eq!(rt; stream.acknowledge(2, 2, true)?, 0);
    assert!(rt; stream.is_done());
    stream.lose(0, 2, true)?;
    assert!(rt; offered(&mut stream, 10)?.is_none());
    assert!(rt; stream.is_done());
    assert!(rt; stream.finish() == Err(FinishError::ClosedStream));
    Ok(())
}

#[test]
fn a_reset_leaves_only_itself(rt: HostRuntime) -> Result<(), Fail> {
    let mut stream = finished(rt.alloc())?;
    assert!(rt; stream.reset_owed().is_none());
    assert!(rt; stream.reset(VarInt::from_u32(7)).is_ok());
    assert!(rt; stream.reset(VarInt::from_u32(8)) == Err(ClosedStream));
    assert!(rt; offered(&mut stream, 10)?.is_none());
    assert!(rt; stream.reset_owed() == Some((VarInt::from_u32(7), 2)));
    stream.reset_sealed();
    assert!(rt; stream.reset_owed().is_none());
    stream.reset_lost();
    assert!(rt; stream.reset_owed() == Some((VarInt::from_u32(7), 2)));
    stream.reset_sealed();
    assert_eq!(rt; stream.kept(), 0);
    assert_eq!(rt; stream.acknowledge(0, 2, true)?, 0);
    assert!(rt; !stream.is_done());
    stream.reset_acknowledged();
    assert!(rt; stream.is_done());
    assert!(rt; write_byte(&mut stream, rt.alloc(), 1)? == Err(WriteError::ClosedStream));
    assert!(rt; stream.is_closed());
    Ok(())
}

#[test]
fn a_stopped_stream_takes_no_bytes(rt: HostRuntime) -> Result<(), Fail> {
    let mut stream = SendPart::new(rt.alloc(), VarInt::from_u32(0));
    assert!(rt; stream.stop(VarInt::from_u32(9)));
    assert!(rt; !stream.stop(VarInt::from_u32(8)));
    let stopped = VarInt::from_u32(9);
    assert!(rt; write_byte(&mut stream, rt.alloc(), 0)? == Err(WriteError::Blocked));
    assert!(rt; write_byte(&mut stream, rt.alloc(), 1)? == Err(WriteError::Stopped(stopped)));
    assert!(rt; stream.finish() == Err(FinishError::Stopped(stopped)));
    Ok(())
}
