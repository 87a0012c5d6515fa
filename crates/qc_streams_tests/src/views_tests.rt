//! The application's views: each refusal at its edge, reading to the end and to a reset, the texts, and failed and
//! closed connections.

use crate::acts::{Act, Given, number};
use crate::setups::{first_of_client, limits, usual};
use qc_base::Dir;
use qc_streams::{FinishError, WriteError, Written};
use std::alloc::{AllocError, Global};
use std::test::Fail;

/// That the client may send 5 bytes on all streams, and 4 on each.
fn five() -> Act {
    Act::Limits(limits(2, 0, 5, 4))
}

/// That one byte of two chunks is written, and no chunk whole.
fn one() -> Result<Written, WriteError> {
    Ok(Written {
        bytes: 1,
        chunks: 0,
    })
}

#[test]
fn writes_are_refused_in_order(rt: HostRuntime) -> Result<(), Fail> {
    let (blocked, closed) = (WriteError::Blocked, WriteError::ClosedStream);
    let (stopped, failed) = (WriteError::Stopped(number(3)), WriteError::Failed);
    let acts = [
        five(),
        Act::Open(Dir::Bi, Some(0)),
        Act::Open(Dir::Bi, Some(4)),
        Act::Write(0, 20, Ok(4)),
        // the stream's credit is used up; stream 8 isn't open
        Act::Refused(0, blocked),
        Act::Refused(8, closed),
        Act::Chunks(4, one()),
        Act::Finish(4, Ok(())),
        // the connection's credit comes before that the stream is finished, and behind that it is unknown
        Act::Refused(4, blocked),
        Act::Refused(8, closed),
        Act::MaxData(50),
        Act::StopSending(0, 3, None),
        Act::StopSending(4, 3, None),
        // finished comes before stopped, and that before the stream's credit
        Act::Refused(4, closed),
        Act::Refused(0, stopped),
        Act::SendWindow(5),
        Act::Refused(4, blocked),
        Act::Refused(0, blocked),
        Act::Refused(8, closed),
        Act::Close,
        Act::Refused(4, blocked),
        Act::Refused(8, blocked),
        Act::Fail,
        Act::Refused(4, failed),
        Act::Refused(8, failed),
    ];
    assert_eq!(rt; first_of_client(rt.alloc(), usual(), &acts)?, None);
    Ok(())
}

#[test]
fn ends_of_sending_are_refused_in_order(rt: HostRuntime) -> Result<(), Fail> {
    let stopped = Err(FinishError::Stopped(number(3)));
    let acts = [
        five(),
        Act::Open(Dir::Bi, Some(0)),
        Act::Open(Dir::Bi, Some(4)),
        Act::Sending(2),
        Act::Finish(8, Err(FinishError::ClosedStream)),
        Act::Reset(8, 1, false),
        Act::Stopped(8, None),
        Act::SetPriority(8, 2, false),
        Act::Priority(8, None),
        Act::Stopped(4, Some(None)),
        Act::SetPriority(4, 2, true),
        Act::Priority(4, Some(2)),
        Act::Finish(4, Ok(())),
        Act::Finish(4, Err(FinishError::ClosedStream)),
        Act::StopSending(4, 3, None),
        Act::Stopped(4, Some(Some(3))),
        // stopped comes before finished and reset
        Act::Finish(4, stopped),
        Act::Reset(4, 1, true),
        Act::Reset(4, 1, false),
        Act::Finish(4, stopped),
    ];
    assert_eq!(rt; first_of_client(rt.alloc(), usual(), &acts)?, None);
    Ok(())
}

#[test]
fn a_stream_is_read_to_its_end(rt: HostRuntime) -> Result<(), Fail> {
    let first = [Some(Given::Chunk(0, 1)), None, None];
    let second = [
        Some(Given::Chunk(1, 2)),
        Some(Given::End),
        // the end is told again
        Some(Given::End),
    ];
    let acts = [
        five(),
        Act::Stream(3, 0, 3, true, None),
        Act::RemoteOpen(Dir::Uni, 1),
        Act::Accept(Dir::Uni, Some(3)),
        Act::Accept(Dir::Uni, None),
        // an eighth of 16 bytes is 2: with the second byte a MAX_DATA waits
        Act::Reads(3, true, 1, first, false),
        Act::Reads(3, true, 9, second, true),
        Act::Read(3, true, 9, Given::Closed),
        Act::Stop(3, 1, false),
        Act::AskReset(3, None),
        Act::RemoteOpen(Dir::Uni, 0),
    ];
    assert_eq!(rt; first_of_client(rt.alloc(), usual(), &acts)?, None);
    Ok(())
}

#[test]
fn a_reset_is_told_again(rt: HostRuntime) -> Result<(), Fail> {
    let reset = Some(Given::Reset(7));
    let acts = [
        five(),
        Act::Stream(3, 0, 2, false, None),
        Act::ResetStream(3, 7, 5, None),
        Act::Reads(3, false, 9, [reset, reset, None], true),
        Act::Read(3, false, 9, Given::Closed),
    ];
    assert_eq!(rt; first_of_client(rt.alloc(), usual(), &acts)?, None);
    Ok(())
}

#[test]
fn reads_are_refused_in_order(rt: HostRuntime) -> Result<(), Fail> {
    let nothing = [None, None, None];
    let all = [Some(Given::Chunk(0, 2)), Some(Given::Blocked), None];
    let acts = [
        five(),
        Act::Stream(1, 0, 2, false, None),
        Act::Read(5, true, 9, Given::Closed),
        Act::AskReset(1, Some(None)),
        Act::Reads(1, true, 9, nothing, false),
        // what is begun out of order stays so, though nothing was read
        Act::Reads(1, false, 9, nothing, false),
        Act::Read(1, true, 9, Given::Unordered),
        // a refusal closes nothing: streams can be opened behind it
        Act::Open(Dir::Bi, Some(0)),
        Act::Reads(1, false, 9, all, true),
        Act::Stop(1, 1, true),
        Act::Stop(1, 1, false),
        Act::Read(1, true, 9, Given::Closed),
        Act::Open(Dir::Bi, Some(4)),
    ];
    assert_eq!(rt; first_of_client(rt.alloc(), usual(), &acts)?, None);
    Ok(())
}

#[test]
fn a_failed_connection_takes_no_memory(rt: HostRuntime) -> Result<(), Fail> {
    let failed = [Some(Given::Failed), None, None];
    let acts = [
        five(),
        Act::Open(Dir::Bi, Some(0)),
        Act::Open(Dir::Bi, Some(4)),
        Act::Stream(1, 0, 2, true, None),
        Act::Fail,
        Act::OpenFails(Dir::Bi),
        Act::Write(0, 20, Err(WriteError::Failed)),
        Act::Reads(1, true, 9, failed, false),
        // the calls that take no memory go on
        Act::Accept(Dir::Bi, Some(1)),
        Act::Stop(1, 1, true),
        Act::Finish(0, Ok(())),
        Act::Reset(0, 1, true),
    ];
    assert_eq!(rt; first_of_client(rt.alloc(), usual(), &acts)?, None);
    Ok(())
}

#[test]
fn a_closed_connection_opens_nothing(rt: HostRuntime) -> Result<(), Fail> {
    let acts = [
        five(),
        Act::Open(Dir::Bi, Some(0)),
        Act::Open(Dir::Uni, None),
        Act::Close,
        Act::Open(Dir::Bi, None),
        Act::Write(0, 20, Err(WriteError::Blocked)),
        Act::Finish(0, Ok(())),
    ];
    assert_eq!(rt; first_of_client(rt.alloc(), usual(), &acts)?, None);
    Ok(())
}

/// Whether an error of a write has that text.
fn write_reads(alloc: Global, error: WriteError, text: &str) -> Result<bool, AllocError> {
    Ok(format!(in alloc; "{error}")?.as_str() == text)
}

/// Whether an error of a finish has that text.
fn finish_reads(alloc: Global, error: FinishError, text: &str) -> Result<bool, AllocError> {
    Ok(format!(in alloc; "{error}")?.as_str() == text)
}

#[test]
fn errors_have_texts(rt: HostRuntime) -> Result<(), Fail> {
    let writes = [
        (WriteError::Blocked, "blocked"),
        (WriteError::ClosedStream, "closed stream"),
        (WriteError::Stopped(number(3)), "stopped"),
        (WriteError::OutOfMemory, "out of memory"),
        (WriteError::Failed, "failed"),
    ];
    for (error, text) in writes {
        assert!(rt; write_reads(rt.alloc(), error, text)?);
    }
    let ends = [
        (FinishError::ClosedStream, "closed stream"),
        (FinishError::Stopped(number(3)), "stopped"),
    ];
    for (error, text) in ends {
        assert!(rt; finish_reads(rt.alloc(), error, text)?);
    }
    Ok(())
}
