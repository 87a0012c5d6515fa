//! Writes of several chunks, one behind the other.

use crate::acts::{Act, first_wrong, id, number};
use crate::setups::{Setup, client, limits, usual};
use bytes::Bytes;
use qc_base::Dir;
use qc_streams::{StreamsState, WriteError, Written};
use std::alloc::{AllocError, Global};
use std::test::Fail;

/// A client that may send 5 bytes on all streams, and 4 on each, with two streams of its own.
fn opened(alloc: Global) -> Result<Box<StreamsState>, AllocError> {
    let setup = Setup {
        window: 10,
        send_window: 7,
        ..usual()
    };
    let mut streams = client(alloc, setup)?;
    let _wrong = first_wrong(alloc, &mut streams, &two_streams());
    Ok(streams)
}

/// Two streams are opened.
fn two_streams() -> [Act; 3] {
    [
        Act::Limits(limits(2, 0, 5, 4)),
        Act::Open(Dir::Bi, Some(0)),
        Act::Open(Dir::Bi, Some(4)),
    ]
}

/// Whether a write of chunks answers so.
fn writes(
    streams: &mut StreamsState,
    stream: u32,
    chunks: &mut [Bytes],
    answer: Result<Written, WriteError>,
) -> bool {
    streams.send_stream(id(stream)).write_chunks(chunks) == answer
}

/// So many bytes in so many whole chunks.
fn written(bytes: usize, chunks: usize) -> Result<Written, WriteError> {
    Ok(Written { bytes, chunks })
}

/// The bytes from one number up to another.
fn count(alloc: Global, from: usize, to: usize) -> Result<Bytes, AllocError> {
    let bytes = [0u8, 1, 2, 3, 4, 5, 6, 7];
    Bytes::copy_from_slice(alloc, bytes.get(from..to).unwrap_or(&[]))
}

/// 2 bytes, none, 3 and 1.
fn four_chunks(alloc: Global) -> Result<[Bytes; 4], AllocError> {
    Ok([
        count(alloc, 0, 2)?,
        count(alloc, 2, 2)?,
        count(alloc, 2, 5)?,
        count(alloc, 5, 6)?,
    ])
}

/// Which write answers otherwise. None where all answer as they should.
fn wrong_front(streams: &mut StreamsState, chunks: &mut [Bytes]) -> Option<usize> {
    let answers = [
        // the stream's credit takes 4
        (0, written(4, 2)),
        (0, Err(WriteError::Blocked)),
        (8, Err(WriteError::ClosedStream)),
        // the connection has credit for one more; the two empty chunks before it count as whole
        (4, written(1, 3)),
        (4, Err(WriteError::Blocked)),
    ];
    for (place, (stream, answer)) in answers.into_iter().enumerate() {
        if !writes(streams, stream, chunks, answer) {
            return Some(place);
        }
    }
    None
}

/// Whether what is left of the chunks is the last one's byte alone.
fn are_cut(chunks: &[Bytes]) -> bool {
    match chunks {
        [first, second, third, last] => {
            first.is_empty()
                && second.is_empty()
                && third.is_empty()
                && last.as_slice() == [5u8].as_slice()
        }
        _ => false,
    }
}

/// Whether the first two bytes are drawn as the first chunk has them.
fn draws_first(streams: &mut StreamsState) -> bool {
    match &streams.draw_part(100) {
        Ok(Some(first)) => first.part.bytes.as_slice() == [0u8, 1].as_slice(),
        _ => false,
    }
}

/// The chunks are written on the streams; whether they are cut so, or which write answers otherwise.
fn cut_front(
    streams: &mut StreamsState,
    alloc: Global,
) -> Result<(Option<usize>, bool), AllocError> {
    let mut chunks = four_chunks(alloc)?;
    let wrong = wrong_front(streams, &mut chunks);
    Ok((wrong, are_cut(&chunks)))
}

#[test]
fn chunks_are_taken_from_the_front(rt: HostRuntime) -> Result<(), Fail> {
    let mut streams = opened(rt.alloc())?;
    let cut = cut_front(&mut streams, rt.alloc())?;
    assert!(rt; cut == (None, true));
    streams.file_marks()?;
    assert!(rt; draws_first(&mut streams));
    Ok(())
}

/// Which write of no chunks answers otherwise. None where all answer as they should.
fn wrong_of_none(
    streams: &mut StreamsState,
    answers: &[(u32, Result<Written, WriteError>)],
) -> Option<usize> {
    for (place, (stream, answer)) in answers.iter().enumerate() {
        if !writes(streams, *stream, &mut [], *answer) {
            return Some(place);
        }
    }
    None
}

#[test]
fn a_write_of_no_chunks_is_refused_alike(rt: HostRuntime) -> Result<(), Fail> {
    let mut streams = opened(rt.alloc())?;
    let open = [(0, written(0, 0)), (8, Err(WriteError::ClosedStream))];
    assert!(rt; wrong_of_none(&mut streams, &open).is_none());
    let acts = [Act::Finish(0, Ok(())), Act::StopSending(4, 3, None)];
    assert_eq!(rt; first_wrong(rt.alloc(), &mut streams, &acts), None);
    let ended = [
        (0, Err(WriteError::ClosedStream)),
        (4, Err(WriteError::Stopped(number(3)))),
    ];
    assert!(rt; wrong_of_none(&mut streams, &ended).is_none());
    streams.close();
    assert!(rt; wrong_of_none(&mut streams, &[(8, Err(WriteError::Blocked))]).is_none());
    Ok(())
}
