//! Turns, frames in their order, and what becomes of them.

use crate::acts::{Act, Given, id, number};
use crate::setups::{Setup, first_behind, first_of_client, limits, usual};
use qc_base::{Dir, TransportErrorCode};
use qc_recv::Refusal as SideRefusal;
use qc_streams::{Control, Refusal, StreamEvent, WriteError};
use std::test::Fail;

/// That the client may open three streams of each direction, and send 50 bytes on each.
fn fifty() -> Act {
    Act::Limits(limits(3, 3, 500, 50))
}

/// That bytes are drawn into room for two: the stream, their offset and their number.
fn two(stream: u64, offset: u64, count: usize) -> Act {
    Act::Part(21, Some((stream, offset, count, false)))
}

/// Three streams on which 6, 3 and 3 bytes are written.
fn three() -> [Act; 9] {
    [
        fifty(),
        Act::Open(Dir::Bi, Some(0)),
        Act::Write(0, 6, Ok(6)),
        Act::Open(Dir::Bi, Some(4)),
        Act::Write(4, 3, Ok(3)),
        Act::Open(Dir::Bi, Some(8)),
        Act::Write(8, 3, Ok(3)),
        Act::File,
        Act::Part(19, None),
    ]
}

#[test]
fn streams_take_turns(rt: HostRuntime) -> Result<(), Fail> {
    let acts = [
        two(0, 0, 2),
        two(4, 0, 2),
        two(8, 0, 2),
        two(0, 2, 2),
        two(4, 2, 1),
        two(8, 2, 1),
        two(0, 4, 2),
        Act::Part(21, None),
    ];
    assert_eq!(rt; first_behind(rt.alloc(), usual(), &three(), &acts)?, None);
    Ok(())
}

#[test]
fn streams_go_on_without_fairness(rt: HostRuntime) -> Result<(), Fail> {
    let unfair = Setup {
        fair: false,
        ..usual()
    };
    let acts = [
        two(0, 0, 2),
        two(0, 2, 2),
        two(0, 4, 2),
        two(4, 0, 2),
        two(4, 2, 1),
        two(8, 0, 2),
        two(8, 2, 1),
        Act::Part(21, None),
    ];
    assert_eq!(rt; first_behind(rt.alloc(), unfair, &three(), &acts)?, None);
    Ok(())
}

/// The RESET_STREAM of stream 1.
fn reset() -> Control {
    Control::Reset {
        id: 1,
        code: number(6),
        size: 0,
    }
}

/// The STOP_SENDING of a stream.
fn stop(id: u64) -> Control {
    Control::Stop {
        id,
        code: number(5),
    }
}

fn data() -> Control {
    Control::MaxData { limit: 20 }
}

fn credit() -> Control {
    Control::MaxStreamData { id: 1, limit: 12 }
}

fn places(limit: u64) -> Control {
    Control::MaxStreams {
        dir: Dir::Bi,
        limit,
    }
}

/// That a frame is drawn.
fn drawn(frame: Control) -> Act {
    Act::Draw(100, Some(frame))
}

#[test]
fn frames_go_in_their_order(rt: HostRuntime) -> Result<(), Fail> {
    let acts = [
        fifty(),
        Act::Stream(1, 0, 4, false, None),
        // two bytes read are more than an eighth of 10, and an eighth of 16
        Act::Read(1, true, 2, Given::Chunk(0, 2)),
        Act::Stop(1, 5, true),
        Act::Reset(1, 6, true),
        Act::File,
        // they take 4 bytes, 3, 2 and 3
        Act::Next(1, None),
        Act::Next(2, Some(data())),
        Act::Next(3, Some(stop(1))),
        Act::Next(4, Some(reset())),
        drawn(reset()),
        drawn(stop(1)),
        drawn(data()),
        drawn(credit()),
        Act::Draw(100, None),
        // what is lost waits again
        Act::Lost(credit()),
        Act::Lost(data()),
        Act::Lost(stop(1)),
        Act::Lost(reset()),
        Act::File,
        drawn(reset()),
        drawn(stop(1)),
        drawn(data()),
        drawn(credit()),
        Act::Draw(100, None),
        // the reset is acknowledged, and then the end comes: the stream has ended
        Act::Acked(reset()),
        Act::Acked(stop(1)),
        Act::RemoteOpen(Dir::Bi, 1),
        Act::Stream(1, 4, 0, true, None),
        Act::RemoteOpen(Dir::Bi, 0),
        // a place of two is more than an eighth
        Act::Draw(9, Some(places(3))),
        Act::Lost(places(3)),
        Act::Draw(9, Some(places(3))),
        Act::Lost(data()),
        Act::Next(9, Some(data())),
    ];
    assert_eq!(rt; first_of_client(rt.alloc(), usual(), &acts)?, None);
    Ok(())
}

#[test]
fn what_waits_is_known_before_it_is_filed(rt: HostRuntime) -> Result<(), Fail> {
    let reset = Control::Reset {
        id: 0,
        code: number(6),
        size: 6,
    };
    let acts = [
        fifty(),
        Act::Waits(false, false),
        Act::Open(Dir::Bi, Some(0)),
        Act::Write(0, 3, Ok(3)),
        // the stream is marked, then it has a turn, and then its bytes are drawn, lost and acknowledged
        Act::Waits(true, false),
        Act::File,
        Act::Waits(true, false),
        Act::Part(22, Some((0, 0, 3, false))),
        Act::Waits(false, false),
        Act::BytesLost(0, 0, 3, false),
        Act::Waits(true, false),
        Act::BytesAcked(0, 0, 3, false),
        Act::Waits(false, false),
        // a stream that is stopped is marked, and its bytes are credit
        Act::Stream(1, 0, 4, false, None),
        Act::Waits(false, false),
        Act::Stop(1, 5, true),
        Act::Waits(false, true),
        Act::File,
        drawn(stop(1)),
        Act::Waits(false, true),
        drawn(data()),
        Act::Waits(false, false),
        // a stream that is reset has its turn until it is looked at, and has no bytes
        Act::Write(0, 3, Ok(3)),
        Act::File,
        Act::Reset(0, 6, true),
        Act::Waits(false, true),
        Act::File,
        Act::Waits(false, true),
        drawn(reset),
        Act::Waits(false, false),
    ];
    assert_eq!(rt; first_of_client(rt.alloc(), usual(), &acts)?, None);
    Ok(())
}

#[test]
fn a_lost_stop_outlives_its_stream(rt: HostRuntime) -> Result<(), Fail> {
    let four = Some(Control::MaxStreams {
        dir: Dir::Uni,
        limit: 4,
    });
    let acts = [
        fifty(),
        // a byte of stream 7 opens stream 3 too; both are stopped, and one STOP_SENDING is drawn
        Act::Stream(7, 0, 1, false, None),
        Act::Stop(3, 5, true),
        Act::Stop(7, 5, true),
        Act::File,
        Act::Draw(17, Some(stop(3))),
        Act::Next(17, Some(stop(7))),
        // their ends come, and they end: what still waits goes on to wait
        Act::Stream(3, 0, 0, true, None),
        Act::Stream(7, 1, 0, true, None),
        Act::RemoteOpen(Dir::Uni, 0),
        Act::Draw(17, Some(stop(7))),
        Act::Next(17, four),
        // what is lost waits again, the least id first, and is drawn once
        Act::Lost(stop(7)),
        Act::Lost(stop(3)),
        Act::Draw(17, Some(stop(3))),
        Act::Draw(17, Some(stop(7))),
        Act::Draw(17, four),
        Act::Draw(17, None),
    ];
    assert_eq!(rt; first_of_client(rt.alloc(), usual(), &acts)?, None);
    Ok(())
}

#[test]
fn a_stop_behind_a_known_end_is_sent(rt: HostRuntime) -> Result<(), Fail> {
    let three = Some(Control::MaxStreams {
        dir: Dir::Uni,
        limit: 3,
    });
    let acts = [
        fifty(),
        // a byte of stream 3 comes with its end, and it is stopped: it has ended, and its place is free at once
        Act::Stream(3, 0, 1, true, None),
        Act::Stop(3, 5, true),
        Act::RemoteOpen(Dir::Uni, 0),
        Act::StreamsOwed(Dir::Uni, Some(3)),
        // another frame of it frees no other place
        Act::Stream(3, 0, 1, true, None),
        Act::RemoteOpen(Dir::Uni, 0),
        Act::Stop(3, 5, false),
        Act::Read(3, true, 9, Given::Closed),
        Act::File,
        Act::Draw(100, Some(stop(3))),
        Act::StreamsOwed(Dir::Uni, Some(3)),
        Act::Draw(100, three),
        Act::Draw(100, None),
        // lost, it waits again, though its stream has gone
        Act::Lost(stop(3)),
        Act::Draw(100, Some(stop(3))),
        Act::Draw(100, None),
    ];
    assert_eq!(rt; first_of_client(rt.alloc(), usual(), &acts)?, None);
    Ok(())
}

#[test]
fn a_stop_outlives_the_last_acknowledgement(rt: HostRuntime) -> Result<(), Fail> {
    let acts = [
        fifty(),
        // stream 1 is finished on both sides; it is stopped while its own end is underway
        Act::Stream(1, 0, 0, true, None),
        Act::Finish(1, Ok(())),
        Act::File,
        Act::Part(100, Some((1, 0, 0, true))),
        Act::Stop(1, 5, true),
        Act::RemoteOpen(Dir::Bi, 1),
        // its end is acknowledged: it has ended, and the STOP_SENDING still waits
        Act::BytesAcked(1, 0, 0, true),
        Act::RemoteOpen(Dir::Bi, 0),
        Act::File,
        Act::Draw(100, Some(stop(1))),
        Act::Draw(100, Some(places(3))),
        Act::Draw(100, None),
    ];
    assert_eq!(rt; first_of_client(rt.alloc(), usual(), &acts)?, None);
    Ok(())
}

#[test]
fn streams_go_in_the_order_of_writing(rt: HostRuntime) -> Result<(), Fail> {
    let unfair = Setup {
        fair: false,
        ..usual()
    };
    let acts = [
        fifty(),
        // stream 1 is looked at first, since it is read first, but stream 0 is written first
        Act::Stream(1, 0, 2, false, None),
        Act::Read(1, true, 2, Given::Chunk(0, 2)),
        Act::Open(Dir::Bi, Some(0)),
        Act::Write(0, 3, Ok(3)),
        Act::Write(1, 3, Ok(3)),
        Act::File,
        two(0, 0, 2),
        two(0, 2, 1),
        two(1, 0, 2),
        two(1, 2, 1),
        Act::Part(21, None),
    ];
    assert_eq!(rt; first_of_client(rt.alloc(), unfair, &acts)?, None);
    assert_eq!(rt; first_of_client(rt.alloc(), usual(), &fair_order())?, None);
    Ok(())
}

/// The same with turns: the first one is that of the writing.
fn fair_order() -> [Act; 12] {
    [
        fifty(),
        Act::Stream(1, 0, 2, false, None),
        Act::Read(1, true, 2, Given::Chunk(0, 2)),
        Act::Open(Dir::Bi, Some(0)),
        Act::Write(0, 3, Ok(3)),
        Act::Write(1, 3, Ok(3)),
        Act::File,
        two(0, 0, 2),
        two(1, 0, 2),
        two(0, 2, 1),
        two(1, 2, 1),
        Act::Part(21, None),
    ]
}

#[test]
fn a_priority_counts_from_the_next_turn_on(rt: HostRuntime) -> Result<(), Fail> {
    let acts = [
        fifty(),
        Act::Open(Dir::Bi, Some(0)),
        Act::Open(Dir::Bi, Some(4)),
        Act::Write(0, 3, Ok(3)),
        Act::Write(4, 3, Ok(3)),
        // set behind the writing, it counts from the second turn on
        Act::SetPriority(4, 1, true),
        Act::File,
        two(0, 0, 2),
        two(4, 0, 2),
        two(4, 2, 1),
        two(0, 2, 1),
        Act::Part(21, None),
    ];
    assert_eq!(rt; first_of_client(rt.alloc(), usual(), &acts)?, None);
    Ok(())
}

#[test]
fn an_acknowledged_end_is_told(rt: HostRuntime) -> Result<(), Fail> {
    let acts = [
        fifty(),
        Act::Open(Dir::Uni, Some(2)),
        Act::Write(2, 4, Ok(4)),
        Act::Finish(2, Ok(())),
        Act::File,
        Act::Part(100, Some((2, 0, 4, true))),
        Act::Part(100, None),
        Act::BytesLost(2, 0, 4, true),
        Act::File,
        Act::Part(100, Some((2, 0, 4, true))),
        Act::BytesAcked(2, 0, 2, false),
        Act::SendRoom(98),
        Act::Poll(None),
        Act::BytesAcked(2, 0, 4, true),
        Act::SendRoom(100),
        Act::Poll(Some(StreamEvent::Finished { id: id(2) })),
        Act::Write(2, 1, Err(WriteError::ClosedStream)),
        // the stream left with its mark
        Act::File,
        Act::Part(100, None),
    ];
    assert_eq!(rt; first_of_client(rt.alloc(), usual(), &acts)?, None);
    Ok(())
}

#[test]
fn settings_count_at_once(rt: HostRuntime) -> Result<(), Fail> {
    let acts = [
        fifty(),
        Act::Open(Dir::Bi, Some(0)),
        Act::Write(0, 2, Ok(2)),
        Act::Open(Dir::Bi, Some(4)),
        // the higher priority goes first
        Act::SetPriority(4, 1, true),
        Act::Write(4, 2, Ok(2)),
        Act::Priority(4, Some(1)),
        Act::Priority(0, Some(0)),
        Act::SetPriority(8, 1, false),
        Act::File,
        Act::Part(100, Some((4, 0, 2, false))),
        Act::Part(100, Some((0, 0, 2, false))),
        Act::Stopped(0, Some(None)),
        Act::StopSending(0, 7, None),
        Act::Stopped(0, Some(Some(7))),
        Act::Stopped(8, None),
        Act::SendWindow(5),
        Act::SendRoom(1),
        // two more than were announced are more than an eighth of 4
        Act::Concurrent(Dir::Bi, 4),
        Act::Next(9, Some(places(4))),
    ];
    assert_eq!(rt; first_of_client(rt.alloc(), usual(), &acts)?, None);
    Ok(())
}

#[test]
fn refusals_have_their_codes(rt: HostRuntime) -> Result<(), Fail> {
    let codes = [
        (Refusal::State, TransportErrorCode::STREAM_STATE_ERROR),
        (Refusal::Limit, TransportErrorCode::STREAM_LIMIT_ERROR),
        (Refusal::Encoding, TransportErrorCode::FRAME_ENCODING_ERROR),
        (
            Refusal::Side(SideRefusal::FinalSize),
            TransportErrorCode::FINAL_SIZE_ERROR,
        ),
    ];
    for (refusal, code) in codes {
        assert!(rt; refusal.code() == code);
    }
    Ok(())
}
