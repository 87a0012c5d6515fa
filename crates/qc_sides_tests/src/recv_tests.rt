//! Refusals at their edges, credit at its eighth, and what a stop and a reset leave.

use bytes::Bytes;
use qc_base::VarInt;
use qc_recv::{FrameFault, ReadError, ReadableError, Recv, Refusal};
use std::alloc::Global;
use std::test::Fail;

/// A stream with a window of 16 bytes, whose bytes 2 to 5 came.
fn begun(alloc: Global) -> Result<Recv, Fail> {
    let mut stream = Recv::new(alloc, 16);
    let bytes = Bytes::copy_from_slice(alloc, b"cdef")?;
    let _ = stream.take_stream(2, bytes, false, 100);
    Ok(stream)
}

/// Takes a frame with so many bytes: why it is refused.
fn take(
    stream: &mut Recv,
    alloc: Global,
    offset: u32,
    len: usize,
    last: bool,
    room: u64,
) -> Result<Option<Refusal>, Fail> {
    let bytes = Bytes::copy_from_slice(alloc, b"xxxxxxxxxxxx".get(..len).ok_or("short")?)?;
    match stream.take_stream(u64::from(offset), bytes, last, room) {
        Ok(()) => Ok(None),
        Err(FrameFault::Refused(refusal)) => Ok(Some(refusal)),
        Err(FrameFault::OutOfMemory) => Err("out of memory")?,
    }
}

/// What a read of at most so many bytes answers: how many bytes it gives, None at the end.
fn next(stream: &mut Recv, most: usize) -> Result<Option<usize>, ReadError> {
    match stream.next(most)? {
        Some(chunk) => Ok(Some(chunk.bytes.len())),
        None => Ok(None),
    }
}

// Offset, length, whether it is the last, and the room of the connection; what it is answered. The
// bytes 2 to 5 came before. The order is that of RFC 9000, section 20.1, where several hold: an end
// of 2^62 first, then the size, then credit.
const FRAMES: [(u32, usize, bool, u64, Option<Refusal>); 9] = [
    (6, 10, false, 10, None),
    (6, 11, false, 11, Some(Refusal::FlowControl)),
    (6, 10, false, 9, Some(Refusal::FlowControl)),
    (0, 6, false, 0, None),
    (6, 0, true, 0, None),
    (5, 0, true, 0, Some(Refusal::FinalSize)),
    (0, 3, true, 0, Some(Refusal::FinalSize)),
    (16, 0, true, 10, None),
    (17, 0, true, 100, Some(Refusal::FlowControl)),
];

#[test]
fn frames_are_refused_at_their_edges(rt: HostRuntime) -> Result<(), Fail> {
    for (offset, len, last, room, refusal) in FRAMES {
        let mut stream = begun(rt.alloc())?;
        assert!(rt; take(&mut stream, rt.alloc(), offset, len, last, room)? == refusal);
    }
    Ok(())
}

// Once the size is known, only frames that agree are taken.
#[test]
fn frames_agree_with_the_size(rt: HostRuntime) -> Result<(), Fail> {
    let mut stream = begun(rt.alloc())?;
    assert!(rt; take(&mut stream, rt.alloc(), 8, 0, true, 100)?.is_none());
    assert!(rt; take(&mut stream, rt.alloc(), 8, 0, true, 100)?.is_none());
    assert!(rt; take(&mut stream, rt.alloc(), 9, 0, false, 100)? == Some(Refusal::FinalSize));
    assert!(rt; take(&mut stream, rt.alloc(), 7, 0, true, 100)? == Some(Refusal::FinalSize));
    assert!(rt; stream.take_reset(VarInt::from_u32(3), 9, 100) == Err(Refusal::FinalSize));
    assert!(rt; stream.take_reset(VarInt::from_u32(3), 8, 100).is_ok());
    assert!(rt; next(&mut stream, 10) == Err(ReadError::Reset(VarInt::from_u32(3))));
    assert!(rt; stream.is_ended());
    Ok(())
}

#[test]
fn credit_is_owed_from_an_eighth_on(rt: HostRuntime) -> Result<(), Fail> {
    let mut stream = begun(rt.alloc())?;
    assert!(rt; stream.open(true).is_ok());
    assert!(rt; next(&mut stream, 10) == Err(ReadError::Blocked));
    assert!(rt; take(&mut stream, rt.alloc(), 0, 2, false, 0)?.is_none());
    // an eighth of 16 bytes is 2: one byte read owes nothing, the second owes
    assert!(rt; next(&mut stream, 1) == Ok(Some(1)));
    assert!(rt; !stream.credit_waits);
    assert!(rt; next(&mut stream, 1) == Ok(Some(1)));
    assert!(rt; stream.credit_waits);
    assert_eq!(rt; stream.credit_value(), 18);
    stream.credit_sealed();
    assert!(rt; !stream.credit_waits);
    // a stop lets go of the rest and owes STOP_SENDING; what waits then counts as read
    assert_eq!(rt; stream.returned(), 2);
    assert!(rt; stream.stop(VarInt::from_u32(7)).is_ok());
    assert_eq!(rt; stream.returned(), 6);
    assert!(rt; stream.stop_waits);
    assert!(rt; stream.stop(VarInt::from_u32(7)).is_err());
    assert!(rt; stream.open(false) == Err(ReadableError::ClosedStream));
    assert!(rt; !stream.is_ended());
    assert!(rt; take(&mut stream, rt.alloc(), 6, 0, true, 0)?.is_none());
    assert!(rt; stream.is_ended());
    Ok(())
}
