//! Early data that the server refuses, or accepts.

use crate::acts::{Act, id, number};
use crate::setups::{Setup, first_of_client, usual};
use qc_base::Dir;
use qc_streams::{Control, PeerLimits, StreamEvent, WriteError};
use std::test::Fail;

/// A client whose windows are 10 bytes, and that may keep 7.
fn setup() -> Setup {
    Setup {
        window: 10,
        send_window: 7,
        ..usual()
    }
}

/// The server's limits: so many bidirectional streams, and so many bytes on each.
fn limits(streams: u64, bytes: u32) -> PeerLimits {
    PeerLimits {
        all_data: 5,
        bidi_streams: streams,
        uni_streams: 0,
        peer_bidi_data: number(4),
        own_bidi_data: number(bytes),
        own_uni_data: number(4),
    }
}

#[test]
fn all_streams_are_as_new(rt: HostRuntime) -> Result<(), Fail> {
    let acts = [
        Act::Limits(limits(2, 4)),
        Act::Open(Dir::Bi, Some(0)),
        Act::Open(Dir::Bi, Some(4)),
        Act::Write(0, 6, Ok(4)),
        Act::Write(4, 6, Ok(1)),
        Act::Write(4, 6, Err(WriteError::Blocked)),
        Act::File,
        Act::Part(100, Some((0, 0, 4, false))),
        Act::EarlyRefused,
        // neither what was written, nor the blocked write, nor the limits are left
        Act::Part(100, None),
        Act::Draw(100, None),
        Act::Sending(0),
        Act::SendRoom(7),
        Act::Write(0, 6, Err(WriteError::ClosedStream)),
        Act::Open(Dir::Bi, None),
        // the server's own parameters come: the first stream is opened anew
        Act::Limits(limits(1, 3)),
        Act::Poll(None),
        Act::Open(Dir::Bi, Some(0)),
        Act::Open(Dir::Bi, None),
        Act::Write(0, 6, Ok(3)),
    ];
    assert_eq!(rt; first_of_client(rt.alloc(), setup(), &acts)?, None);
    Ok(())
}

#[test]
fn parameters_that_come_again_raise_open_streams(rt: HostRuntime) -> Result<(), Fail> {
    let setup = Setup {
        send_window: 100,
        ..setup()
    };
    let before = PeerLimits {
        all_data: 20,
        ..limits(3, 4)
    };
    let again = PeerLimits {
        all_data: 40,
        ..limits(3, 7)
    };
    let acts = [
        Act::Limits(before),
        Act::Open(Dir::Bi, Some(0)),
        Act::Open(Dir::Bi, Some(4)),
        Act::Write(0, 9, Ok(4)),
        Act::Write(0, 9, Err(WriteError::Blocked)),
        // the second stream has more credit than the parameters give that come
        Act::MaxStreamData(4, 9, None),
        Act::Write(4, 12, Ok(9)),
        Act::Limits(again),
        Act::Write(0, 9, Err(WriteError::Blocked)),
        Act::RaiseOpened,
        Act::Poll(Some(StreamEvent::Writable { id: id(0) })),
        Act::Write(0, 9, Ok(3)),
        Act::Write(4, 9, Err(WriteError::Blocked)),
        // a stream that is opened then has these limits by itself
        Act::Open(Dir::Bi, Some(8)),
        Act::Write(8, 9, Ok(7)),
    ];
    assert_eq!(rt; first_of_client(rt.alloc(), setup, &acts)?, None);
    Ok(())
}

#[test]
fn what_was_set_is_announced_again(rt: HostRuntime) -> Result<(), Fail> {
    let data = Some(Control::MaxData { limit: 20 });
    let uni = Some(Control::MaxStreams {
        dir: Dir::Uni,
        limit: 5,
    });
    let acts = [
        Act::Limits(limits(2, 4)),
        Act::ReceiveWindow(number(20)),
        Act::Concurrent(Dir::Uni, 5),
        Act::Draw(100, data),
        Act::Draw(100, uni),
        Act::Draw(100, None),
        Act::EarlyRefused,
        Act::Draw(100, data),
        Act::Draw(100, uni),
        Act::Draw(100, None),
    ];
    assert_eq!(rt; first_of_client(rt.alloc(), setup(), &acts)?, None);
    Ok(())
}
