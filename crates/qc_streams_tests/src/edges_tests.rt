//! The refusals at their edges, the order of ids, and credit that comes back.

use crate::acts::{Act, Given, id, number};
use crate::setups::{Setup, first_of_client, usual};
use qc_base::Dir;
use qc_recv::Refusal as SideRefusal;
use qc_streams::{FinishError, PeerLimits, Refusal, StreamEvent, StreamsState, WriteError};
use std::test::Fail;

/// A client whose peer may have two bidirectional streams and one unidirectional stream open, and
/// send 10 bytes of each and 16 of all.
fn setup() -> Setup {
    Setup {
        uni: 1,
        send_window: 7,
        ..usual()
    }
}

#[test]
fn frames_are_refused_at_their_edges(rt: HostRuntime) -> Result<(), Fail> {
    let flow = Some(Refusal::Side(SideRefusal::FlowControl));
    let size = Some(Refusal::Side(SideRefusal::FinalSize));
    let acts = [
        Act::Stream(0, 0, 1, false, Some(Refusal::State)),
        Act::Stream(2, 0, 1, false, Some(Refusal::State)),
        Act::Stream(9, 0, 1, false, Some(Refusal::Limit)),
        Act::Stream(7, 0, 1, false, Some(Refusal::Limit)),
        Act::Stream(5, 0, 11, false, flow),
        Act::Stream(5, 0, 10, false, None),
        Act::Stream(5, 0, 9, true, size),
        Act::Stream(1, 0, 7, false, flow),
        Act::Stream(1, 0, 6, false, None),
        Act::Stream(1, 0, 6, true, None),
        Act::Stream(1, 6, 1, false, size),
        Act::Stream(3, 0, 1, false, flow),
        // the first frame on stream 5 opened stream 1 with it; the refused one opened no stream
        Act::RemoteOpen(Dir::Bi, 2),
        Act::RemoteOpen(Dir::Uni, 0),
        Act::Poll(Some(StreamEvent::Opened { dir: Dir::Bi })),
        Act::Poll(Some(StreamEvent::Readable { id: id(1) })),
        Act::Accept(Dir::Bi, Some(1)),
        Act::Accept(Dir::Bi, Some(5)),
        Act::Accept(Dir::Bi, None),
        Act::Accept(Dir::Uni, None),
    ];
    assert_eq!(rt; first_of_client(rt.alloc(), setup(), &acts)?, None);
    Ok(())
}

#[test]
fn controls_are_refused_at_their_edges(rt: HostRuntime) -> Result<(), Fail> {
    let state = Some(Refusal::State);
    let limit = Some(Refusal::Limit);
    let stopped = StreamEvent::Stopped {
        id: id(5),
        error_code: number(7),
    };
    let most = 1 << 60;
    let acts = [
        Act::StopSending(0, 7, state),
        Act::MaxStreamData(0, 7, state),
        Act::StreamDataBlocked(0, None),
        Act::StopSending(2, 7, state),
        Act::MaxStreamData(2, 7, state),
        Act::StreamDataBlocked(2, state),
        Act::StopSending(3, 7, state),
        Act::MaxStreamData(3, 7, state),
        Act::StreamDataBlocked(3, None),
        Act::StopSending(5, 7, None),
        Act::MaxStreamData(5, 7, None),
        Act::StreamDataBlocked(5, None),
        Act::StopSending(7, 7, state),
        Act::MaxStreamData(7, 7, state),
        Act::StreamDataBlocked(7, limit),
        Act::StopSending(9, 7, limit),
        Act::MaxStreamData(9, 7, limit),
        Act::StreamDataBlocked(9, limit),
        Act::Poll(Some(StreamEvent::Opened { dir: Dir::Bi })),
        Act::Poll(Some(stopped)),
        Act::Poll(None),
        Act::MaxStreams(Dir::Uni, most + 1, Some(Refusal::Encoding)),
    ];
    assert_eq!(rt; first_of_client(rt.alloc(), setup(), &acts)?, None);
    assert!(rt; StreamsState::received_streams_blocked(most).is_none());
    assert!(rt; StreamsState::received_streams_blocked(most + 1) == Some(Refusal::Encoding));
    Ok(())
}

#[test]
fn streams_are_opened_up_to_the_limit(rt: HostRuntime) -> Result<(), Fail> {
    let blocked = Err(WriteError::Blocked);
    let limits = PeerLimits {
        all_data: 5,
        bidi_streams: 1,
        uni_streams: 0,
        peer_bidi_data: number(9),
        own_bidi_data: number(4),
        own_uni_data: number(9),
    };
    let acts = [
        Act::Open(Dir::Bi, None),
        Act::Limits(limits),
        Act::Open(Dir::Bi, Some(0)),
        Act::Open(Dir::Bi, None),
        Act::MaxStreams(Dir::Bi, 2, None),
        Act::MaxStreams(Dir::Bi, 1, None),
        Act::Poll(Some(StreamEvent::Available { dir: Dir::Bi })),
        Act::Poll(None),
        Act::Open(Dir::Bi, Some(4)),
        // of 20 bytes the stream's credit takes 4, then the connection's 1, and then nothing
        Act::Write(0, 20, Ok(4)),
        Act::Write(0, 16, blocked),
        Act::Write(4, 16, Ok(1)),
        Act::Write(4, 15, blocked),
        Act::Write(8, 15, Err(WriteError::ClosedStream)),
        Act::MaxData(50),
        // the send window of 7 has room for 2 more
        Act::SendRoom(2),
        Act::Write(4, 15, Ok(2)),
        Act::Write(4, 13, blocked),
        Act::Finish(4, Ok(())),
        Act::Finish(4, Err(FinishError::ClosedStream)),
        Act::Reset(4, 1, true),
        Act::Reset(4, 1, false),
        // its 3 bytes are let go
        Act::SendRoom(3),
        Act::Close,
        Act::Write(8, 13, blocked),
        Act::Open(Dir::Bi, None),
    ];
    assert_eq!(rt; first_of_client(rt.alloc(), setup(), &acts)?, None);
    Ok(())
}

#[test]
fn credit_and_places_come_back(rt: HostRuntime) -> Result<(), Fail> {
    let acts = [
        Act::Stream(3, 0, 3, true, None),
        Act::Read(7, true, 9, Given::Closed),
        // an eighth of 16 bytes is 2: one byte read owes no MAX_DATA, the second owes it
        Act::Read(3, true, 1, Given::Chunk(0, 1)),
        Act::DataOwed(None),
        Act::Read(3, true, 1, Given::Chunk(1, 1)),
        Act::DataOwed(Some(18)),
        Act::SealData,
        Act::DataOwed(None),
        // the end that is told frees a place: one of one is more than an eighth
        Act::Read(3, true, 1, Given::Chunk(2, 1)),
        Act::RemoteOpen(Dir::Uni, 1),
        Act::StreamsOwed(Dir::Uni, None),
        Act::Read(3, true, 1, Given::End),
        Act::RemoteOpen(Dir::Uni, 0),
        Act::StreamsOwed(Dir::Uni, Some(2)),
        Act::Read(3, true, 1, Given::Closed),
        // a frame of the stream that ended is passed over; the next one may be opened, and is reset
        Act::Stream(3, 3, 9, false, None),
        Act::Stream(7, 0, 1, false, None),
        Act::ResetStream(7, 5, 4, None),
        Act::AskReset(7, Some(Some(5))),
        Act::AskReset(7, None),
        Act::Stop(7, 5, false),
        // all 4 bytes of it count as given back
        Act::Credit(23),
    ];
    assert_eq!(rt; first_of_client(rt.alloc(), setup(), &acts)?, None);
    Ok(())
}
