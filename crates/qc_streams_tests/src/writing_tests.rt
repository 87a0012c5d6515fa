//! Writes that are blocked and can go on, and how many streams are sent on.

use crate::acts::{Act, id, number};
use crate::setups::{Setup, first_behind, first_of_client, limits, usual};
use qc_base::Dir;
use qc_streams::{Control, StreamEvent, WriteError};
use std::test::Fail;

/// A client that may keep 7 bytes until they are acknowledged.
fn setup() -> Setup {
    Setup {
        window: 10,
        send_window: 7,
        ..usual()
    }
}

/// That a stream can be written on again.
fn writable(stream: u32) -> Act {
    Act::Poll(Some(StreamEvent::Writable { id: id(stream) }))
}

/// A client that may send 5 bytes on all streams, and 4 on each of three of its own: 4 bytes are written on the first
/// and one on the second, and then a write is blocked on each.
fn held_up() -> [Act; 9] {
    [
        Act::Limits(limits(3, 3, 5, 4)),
        Act::Open(Dir::Bi, Some(0)),
        Act::Open(Dir::Bi, Some(4)),
        Act::Open(Dir::Bi, Some(8)),
        Act::Write(0, 20, Ok(4)),
        Act::Write(0, 20, Err(WriteError::Blocked)),
        Act::Write(4, 20, Ok(1)),
        Act::Write(4, 20, Err(WriteError::Blocked)),
        Act::Write(8, 20, Err(WriteError::Blocked)),
    ]
}

#[test]
fn credit_makes_streams_writable(rt: HostRuntime) -> Result<(), Fail> {
    let blocked = Err(WriteError::Blocked);
    let stopped = StreamEvent::Stopped {
        id: id(4),
        error_code: number(3),
    };
    let acts = [
        // the first one lacks credit of its own, all lack the connection's
        Act::Poll(None),
        Act::MaxStreamData(0, 9, None),
        Act::Poll(None),
        Act::MaxData(50),
        Act::StopSending(4, 3, None),
        // each is told once, in ascending order, and before what came later
        writable(0),
        writable(4),
        writable(8),
        Act::Poll(Some(stopped)),
        Act::Poll(None),
        Act::MaxData(60),
        Act::Poll(None),
        // the window has room for 2 bytes more; with these the credit of stream 8 isn't used up
        Act::Write(8, 20, Ok(2)),
        Act::Write(8, 20, blocked),
        Act::Poll(None),
        Act::SendWindow(8),
        writable(8),
        // one byte more, and then one: its credit is used up, and gone again by the poll
        Act::Write(8, 20, Ok(1)),
        Act::Write(8, 20, blocked),
        Act::SendWindow(10),
        Act::Write(8, 20, Ok(1)),
        writable(8),
        Act::Poll(None),
        Act::Write(8, 20, blocked),
        Act::MaxStreamData(8, 9, None),
        writable(8),
        Act::Poll(None),
    ];
    assert_eq!(rt; first_behind(rt.alloc(), setup(), &held_up(), &acts)?, None);
    Ok(())
}

#[test]
fn room_makes_streams_writable(rt: HostRuntime) -> Result<(), Fail> {
    let blocked = Err(WriteError::Blocked);
    let acts = [
        Act::MaxData(7),
        writable(4),
        writable(8),
        Act::Write(4, 20, Ok(2)),
        Act::MaxData(50),
        Act::Write(4, 20, blocked),
        Act::Write(8, 20, blocked),
        Act::Poll(None),
        // no event of a stream that was finished since
        Act::Finish(8, Ok(())),
        Act::File,
        Act::Part(100, Some((0, 0, 4, false))),
        Act::BytesAcked(0, 0, 4, false),
        writable(4),
        Act::Poll(None),
        // nor of one that was reset, nor where the write was blocked on a finished one
        Act::SendWindow(3),
        Act::Write(4, 20, blocked),
        Act::Write(8, 20, blocked),
        Act::Reset(4, 1, true),
        Act::SendRoom(3),
        Act::Poll(None),
    ];
    assert_eq!(rt; first_behind(rt.alloc(), setup(), &held_up(), &acts)?, None);
    Ok(())
}

#[test]
fn events_come_in_the_order_of_causes(rt: HostRuntime) -> Result<(), Fail> {
    let opened = StreamEvent::Opened { dir: Dir::Bi };
    let available = StreamEvent::Available { dir: Dir::Bi };
    let stopped = StreamEvent::Stopped {
        id: id(4),
        error_code: number(3),
    };
    let acts = [
        Act::MaxStreams(Dir::Bi, 9, None),
        // the connection's credit, for those that have credit of their own
        Act::MaxData(50),
        Act::StopSending(4, 3, None),
        // the first one's own
        Act::MaxStreamData(0, 9, None),
        // a stream of the peer's comes before all others
        Act::Stream(1, 0, 0, false, None),
        Act::Poll(Some(opened)),
        Act::Poll(Some(available)),
        writable(4),
        writable(8),
        Act::Poll(Some(stopped)),
        writable(0),
        Act::Poll(None),
    ];
    assert_eq!(rt; first_behind(rt.alloc(), setup(), &held_up(), &acts)?, None);
    Ok(())
}

#[test]
fn what_is_gone_by_the_poll_is_told(rt: HostRuntime) -> Result<(), Fail> {
    let blocked = Err(WriteError::Blocked);
    let acts = [
        // credit for two bytes, which one stream uses up before the other is told
        Act::MaxData(7),
        Act::Write(4, 20, Ok(2)),
        Act::Write(4, 20, blocked),
        writable(4),
        writable(8),
        Act::Poll(None),
        // a write that is blocked again is told again, behind what waits
        Act::SendWindow(9),
        Act::Poll(None),
        Act::MaxData(8),
        Act::Write(8, 20, Ok(1)),
        Act::Write(4, 20, blocked),
        Act::SendWindow(10),
        Act::MaxData(9),
        // and so is it where the connection was closed since, but nothing that comes later is
        Act::Close,
        Act::MaxData(50),
        writable(4),
        writable(4),
        Act::Poll(None),
    ];
    assert_eq!(rt; first_behind(rt.alloc(), setup(), &held_up(), &acts)?, None);
    Ok(())
}

#[test]
fn one_cause_is_told_in_ascending_order(rt: HostRuntime) -> Result<(), Fail> {
    let blocked = Err(WriteError::Blocked);
    let acts = [
        Act::Limits(limits(3, 3, 50, 20)),
        Act::Open(Dir::Bi, Some(0)),
        Act::Open(Dir::Bi, Some(4)),
        Act::Open(Dir::Bi, Some(8)),
        Act::Write(4, 20, Ok(7)),
        Act::Finish(4, Ok(())),
        Act::Write(8, 20, blocked),
        Act::Write(0, 20, blocked),
        Act::File,
        Act::Part(100, Some((4, 0, 7, true))),
        // the acknowledgement makes room, and is the last of its stream
        Act::BytesAcked(4, 0, 7, true),
        writable(0),
        Act::Poll(Some(StreamEvent::Finished { id: id(4) })),
        writable(8),
        Act::Poll(None),
    ];
    assert_eq!(rt; first_of_client(rt.alloc(), setup(), &acts)?, None);
    Ok(())
}

#[test]
fn a_reset_and_new_parameters_make_streams_writable(rt: HostRuntime) -> Result<(), Fail> {
    let blocked = Err(WriteError::Blocked);
    let acts = [
        // parameters that come again, with more credit on all streams
        Act::Limits(limits(3, 3, 7, 4)),
        writable(4),
        writable(8),
        Act::Write(4, 20, Ok(2)),
        Act::MaxData(50),
        Act::Write(8, 20, blocked),
        Act::Poll(None),
        // the bytes of a stream that is reset make room
        Act::Reset(4, 1, true),
        writable(8),
        Act::Poll(None),
    ];
    assert_eq!(rt; first_behind(rt.alloc(), setup(), &held_up(), &acts)?, None);
    Ok(())
}

#[test]
fn streams_that_send_are_counted(rt: HostRuntime) -> Result<(), Fail> {
    let reset = |id| Control::Reset {
        id,
        code: number(6),
        size: 0,
    };
    let acts = [
        Act::Limits(limits(3, 3, 5, 4)),
        Act::Open(Dir::Bi, Some(0)),
        Act::Open(Dir::Uni, Some(2)),
        Act::Sending(2),
        // the peer's streams count once they are accepted, where this end sends on them
        Act::Stream(3, 0, 0, false, None),
        Act::Stream(5, 0, 0, false, None),
        Act::Sending(2),
        Act::Accept(Dir::Uni, Some(3)),
        Act::Accept(Dir::Bi, Some(1)),
        Act::Sending(3),
        // an end that is acknowledged with all bytes counts no more, and so does a reset
        Act::Finish(0, Ok(())),
        Act::Reset(2, 6, true),
        Act::Sending(3),
        Act::File,
        Act::Part(100, Some((0, 0, 0, true))),
        Act::Sending(3),
        Act::BytesAcked(0, 0, 0, true),
        Act::Sending(2),
        Act::Draw(100, Some(reset(2))),
        Act::Acked(reset(2)),
        Act::Sending(1),
        // the reset of stream 5 is acknowledged before it is accepted
        Act::Reset(5, 6, true),
        Act::File,
        Act::Draw(100, Some(reset(5))),
        Act::Acked(reset(5)),
        Act::Accept(Dir::Bi, Some(5)),
        Act::Sending(1),
    ];
    assert_eq!(rt; first_of_client(rt.alloc(), setup(), &acts)?, None);
    Ok(())
}
