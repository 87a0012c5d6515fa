//! The application's calls: of streams and datagrams as inputs that are driven, and of settings directly. Each is made of a client that
//! is established.

use crate::clients::{Toy, client_with_window, fresh_client, missing, sealed_len};
use crate::limit_tests::{datagram, transmit};
use qc_base::{Dir, Instant, Side, StreamId, VarInt};
use qc_config::NoneTokenStore;
use qc_conn::{Connection, drive};
use qc_state::{Answer, Body, Input, Refusal, Trace};
use std::alloc::Global;
use std::slice;
use std::test::Fail;

// The server's packets were sealed by a program of its own in another language, under the toy's keys of a first id of eight bytes 02.

/// An Initial packet with the server's reply, and an ACK of the hello.
const REPLY: [u8; 55] =
    *b"\xc6\x00\x00\x00\x01\x08\x01\x01\x01\x01\x01\x01\x01\x01\x08\x04\x04\x04\x04\x04\x04\x04\x04\x00\x40\x1d\x0c\x06\x04\x04\x02\x02\x06\x01\x04\x02\x00\x01\x00\x77\xea\x5d\xce\x41\xb2\x26\x98\x0b\x7e\xf1\x64\xd7\x4a\xbd\x30";

/// A Handshake packet with the server's end, whose parameters let the client send 100000 bytes, 50000 on each stream, and open four of
/// each direction.
pub(crate) const END_FOR_STREAMS: [u8; 99] =
    *b"\xe3\x00\x00\x00\x01\x08\x01\x01\x01\x01\x01\x01\x01\x01\x08\x04\x04\x04\x04\x04\x04\x04\x04\x40\x4a\x00\x06\x00\x36\x03\x00\x32\x01\x00\x08\x02\x02\x02\x02\x02\x02\x02\x02\x04\x04\x80\x01\x87\xa1\x05\x04\x80\x00\xc3\x50\x06\x04\x80\x00\xc3\x50\x07\x04\x81\x01\xc3\x50\x08\x01\x04\x09\x01\x04\x0f\x08\x04\x04\x04\x04\x05\x05\x04\x04\xe2\xc4\xa6\x88\x6a\x4d\x2f\x10\xf2\xd4\xb6\x98\x7a\x5c\x3e\x20";

/// The same, with parameters that take DATAGRAM frames of 100 bytes, and let no stream be opened.
pub(crate) const END_TAKES_100: [u8; 73] =
    *b"\xe3\x00\x00\x00\x01\x08\x01\x01\x01\x01\x01\x01\x01\x01\x08\x04\x04\x04\x04\x04\x04\x04\x04\x40\x30\x00\x06\x00\x1c\x03\x00\x18\x01\x00\x08\x02\x02\x02\x02\x02\x02\x02\x02\x0f\x08\x04\x04\x05\x05\x04\x04\x04\x04\x20\x02\x40\x64\x77\xee\x65\xdc\x53\xcb\x42\xb8\x2f\xa6\x1d\x94\x0b\x82\xf9\x70";

/// A 1-RTT packet with `hello` on stream 3, the server's first unidirectional one, from offset 0.
pub(crate) const STREAM_3: [u8; 34] =
    *b"\x48\x01\x01\x01\x01\x01\x01\x01\x01\x65\x0a\x03\x05\x68\x65\x6e\x6d\x6f\x94\x28\xbc\x50\xe4\x7a\x0d\xa0\x34\xc8\x5c\xf0\x84\x18\xac\x40";

/// One with `world` on stream 3 from offset 10, and its end; and `bi` on stream 1, the server's first bidirectional one.
pub(crate) const STREAM_3_END: [u8; 40] =
    *b"\x45\x01\x01\x01\x01\x01\x01\x01\x01\x76\x0f\x03\x0a\x05\x77\x6d\x73\x6c\x64\x0a\x01\x02\x62\x69\x36\x6c\xa2\xd8\x0e\x46\x7b\xb0\xe6\x1c\x52\x88\xbe\xf4\x2a\x60";

/// One with a datagram of the bytes ab and cd, and one of 1, 2 and 3.
pub(crate) const TWO_DATAGRAMS: [u8; 34] =
    *b"\x4d\x01\x01\x01\x01\x01\x01\x01\x01\x30\x31\x02\xab\xcd\x30\x03\x03\x03\xbc\x78\x34\xf0\xac\x6a\x25\xe0\x9c\x58\x14\xd0\x8c\x48\x04\xc0";

/// What a call answered, in numbers.
#[derive(Clone, Copy, Debug, PartialEq, Eq)]
pub(crate) enum Told {
    /// It is done.
    Done,
    /// It gave nothing.
    Nothing,
    /// This stream was opened.
    Opened(u64),
    /// This stream was accepted.
    Accepted(u64),
    /// So many bytes were written.
    Wrote(u64),
    /// Bytes were read from this offset on, which spell this number.
    Read(u64, u64),
    /// A datagram came, whose bytes spell this number.
    Datagram(u64),
    /// It was refused.
    Refused(Refusal),
    /// Anything else.
    Other,
}

/// The number that bytes spell, the first one its highest.
pub(crate) fn number_of(bytes: &[u8]) -> u64 {
    let mut number: u64 = 0;
    for byte in bytes {
        number = number.saturating_mul(256).saturating_add(u64::from(*byte));
    }
    number
}

/// An answer in numbers.
fn told_of(answer: &Answer) -> Told {
    match answer {
        Answer::Done => Told::Done,
        Answer::Nothing => Told::Nothing,
        Answer::Opened(id) => Told::Opened(id.value()),
        Answer::Accepted(id) => Told::Accepted(id.value()),
        Answer::Wrote(count) => Told::Wrote(*count),
        Answer::Read { offset, body } => Told::Read(*offset, number_of(body.as_slice())),
        Answer::Datagram(body) => Told::Datagram(number_of(body.as_slice())),
        Answer::Error(why) => Told::Refused(*why),
        Answer::Dropped | Answer::Flag(_) | Answer::Ended | Answer::Out { .. } => Told::Other,
    }
}

/// What the last call of a trace answered.
fn last_told(trace: &Trace) -> Option<Told> {
    match trace.as_slice().last() {
        Some(step) => Some(told_of(&step.answer)),
        None => None,
    }
}

/// What one input is answered; None where it is no input, or memory was wanting.
fn call(alloc: Global, client: &mut Connection<Toy>, input: &Input) -> Option<Told> {
    match drive(alloc, client, slice::from_ref(input), &mut NoneTokenStore) {
        Ok(trace) => last_told(&trace),
        Err(_) => None,
    }
}

/// The time of all calls, once the client is established at 3.
fn now() -> Instant {
    Instant::from_nanos(4)
}

/// The client's first stream of a direction: 0 or 2.
pub(crate) fn own(dir: Dir) -> StreamId {
    StreamId::new(Side::Client, dir, 0)
}

/// The server's first stream of a direction: 1 or 3.
pub(crate) fn peers(dir: Dir) -> StreamId {
    StreamId::new(Side::Server, dir, 0)
}

fn open(alloc: Global, client: &mut Connection<Toy>, dir: Dir) -> Option<Told> {
    call(alloc, client, &Input::Open { now: now(), dir })
}

fn accept(alloc: Global, client: &mut Connection<Toy>, dir: Dir) -> Option<Told> {
    call(alloc, client, &Input::Accept { now: now(), dir })
}

fn write(alloc: Global, client: &mut Connection<Toy>, dir: Dir, bytes: &[u8]) -> Option<Told> {
    let input = Input::Write {
        now: now(),
        id: own(dir),
        body: Body::from_slice(alloc, bytes).ok()?,
    };
    call(alloc, client, &input)
}

fn finish(alloc: Global, client: &mut Connection<Toy>, dir: Dir) -> Option<Told> {
    let input = Input::Finish {
        now: now(),
        id: own(dir),
    };
    call(alloc, client, &input)
}

fn reset(alloc: Global, client: &mut Connection<Toy>, dir: Dir) -> Option<Told> {
    let input = Input::ResetSend {
        now: now(),
        id: own(dir),
        code: VarInt::from_u32(7),
    };
    call(alloc, client, &input)
}

fn stop(alloc: Global, client: &mut Connection<Toy>, dir: Dir) -> Option<Told> {
    let input = Input::StopRecv {
        now: now(),
        id: peers(dir),
        code: VarInt::from_u32(9),
    };
    call(alloc, client, &input)
}

fn read(alloc: Global, client: &mut Connection<Toy>, dir: Dir, max: usize) -> Option<Told> {
    let input = Input::Read {
        now: now(),
        id: peers(dir),
        max,
    };
    call(alloc, client, &input)
}

fn send(alloc: Global, client: &mut Connection<Toy>, bytes: &[u8]) -> Option<Told> {
    let input = Input::SendDatagram {
        now: now(),
        body: Body::from_slice(alloc, bytes).ok()?,
    };
    call(alloc, client, &input)
}

fn recv(alloc: Global, client: &mut Connection<Toy>) -> Option<Told> {
    call(alloc, client, &Input::RecvDatagram { now: now() })
}

/// A datagram of the server's comes at this time.
pub(crate) fn hear(
    alloc: Global,
    client: &mut Connection<Toy>,
    nanos: u64,
    bytes: &[u8],
) -> Option<Told> {
    let bytes = Vec::from_slice(alloc, bytes).ok()?;
    call(alloc, client, &datagram(nanos, bytes))
}

/// Whether a client takes a datagram of the server's at 1.
fn takes(alloc: Global, client: &mut Connection<Toy>, bytes: &[u8]) -> bool {
    matches!(hear(alloc, client, 1, bytes), Some(Told::Done))
}

/// A client sends its hello, hears the server's reply and this end, and answers both in a datagram: how many bytes that has.
pub(crate) fn establish(alloc: Global, client: &mut Connection<Toy>, end: &[u8]) -> Option<usize> {
    let _hello = sealed_len(alloc, client, 0)?;
    if !takes(alloc, client, &REPLY) || !takes(alloc, client, end) {
        return None;
    }
    sealed_len(alloc, client, 2)
}

/// An established client to which the server sent this end.
pub(crate) fn established(alloc: Global, end: &[u8]) -> Option<Box<Connection<Toy>>> {
    let mut client = fresh_client(alloc)?;
    let _answer = establish(alloc, &mut client, end)?;
    Some(client)
}

/// An established client that takes so many bytes of all streams together.
fn established_with(alloc: Global, window: u32) -> Option<Box<Connection<Toy>>> {
    let mut client = client_with_window(alloc, window)?;
    let _answer = establish(alloc, &mut client, &END_FOR_STREAMS)?;
    Some(client)
}

/// Whether the next transmit seals this packet.
pub(crate) fn seals(
    alloc: Global,
    client: &mut Connection<Toy>,
    packet: &str,
) -> Result<bool, Fail> {
    let inputs = [transmit(4)];
    let missing = missing(alloc, client, &inputs, &[packet])?;
    Ok(missing.is_none())
}

// A stream that is finished or reset is closed to the application (RFC 9000, section 3.1).
#[test]
fn own_streams_are_opened_and_written_on(rt: HostRuntime) -> Result<(), Fail> {
    let alloc = rt.alloc();
    let mut client = established(alloc, &END_FOR_STREAMS).ok_or("no client")?;
    let closed = Some(Told::Refused(Refusal::ClosedStream));
    assert_eq!(rt; open(alloc, &mut client, Dir::Bi), Some(Told::Opened(0)));
    assert_eq!(rt; open(alloc, &mut client, Dir::Uni), Some(Told::Opened(2)));
    assert_eq!(rt;
        write(alloc, &mut client, Dir::Bi, b"hello"),
        Some(Told::Wrote(5))
    );
    assert_eq!(rt; finish(alloc, &mut client, Dir::Bi), Some(Told::Done));
    assert_eq!(rt; finish(alloc, &mut client, Dir::Bi), closed);
    assert_eq!(rt; reset(alloc, &mut client, Dir::Uni), Some(Told::Done));
    assert_eq!(rt; write(alloc, &mut client, Dir::Uni, b"hello"), closed);
    Ok(())
}

// Bytes are read in order, up to the first gap; a stream that was stopped is closed to the application (RFC 9000, sections 2.2 and 3.5).
#[test]
fn streams_of_the_peer_are_accepted_and_read(rt: HostRuntime) -> Result<(), Fail> {
    let alloc = rt.alloc();
    let mut client = established(alloc, &END_FOR_STREAMS).ok_or("no client")?;
    assert_eq!(rt; accept(alloc, &mut client, Dir::Uni), Some(Told::Nothing));
    assert_eq!(rt; hear(alloc, &mut client, 4, &STREAM_3), Some(Told::Done));
    assert_eq!(rt;
        hear(alloc, &mut client, 4, &STREAM_3_END),
        Some(Told::Done)
    );
    assert_eq!(rt;
        accept(alloc, &mut client, Dir::Uni),
        Some(Told::Accepted(3))
    );
    assert_eq!(rt;
        accept(alloc, &mut client, Dir::Bi),
        Some(Told::Accepted(1))
    );
    assert_eq!(rt;
        read(alloc, &mut client, Dir::Uni, 2),
        Some(Told::Read(0, 0x6865))
    );
    assert_eq!(rt;
        read(alloc, &mut client, Dir::Uni, 100),
        Some(Told::Read(2, 0x6c_6c6f))
    );
    assert_eq!(rt;
        read(alloc, &mut client, Dir::Uni, 100),
        Some(Told::Refused(Refusal::Blocked))
    );
    assert_eq!(rt; stop(alloc, &mut client, Dir::Uni), Some(Told::Done));
    assert_eq!(rt;
        read(alloc, &mut client, Dir::Uni, 100),
        Some(Told::Refused(Refusal::ClosedStream))
    );
    Ok(())
}

// The oldest datagram is taken first. Of a frame of 100 bytes the head takes 9 at most, so a datagram has 91 (RFC 9221, section 3).
#[test]
fn datagrams_are_taken_and_sent(rt: HostRuntime) -> Result<(), Fail> {
    let alloc = rt.alloc();
    let mut client = established(alloc, &END_TAKES_100).ok_or("no client")?;
    assert_eq!(rt; recv(alloc, &mut client), Some(Told::Nothing));
    assert_eq!(rt;
        hear(alloc, &mut client, 4, &TWO_DATAGRAMS),
        Some(Told::Done)
    );
    assert_eq!(rt; recv(alloc, &mut client), Some(Told::Datagram(0xabcd)));
    assert_eq!(rt; recv(alloc, &mut client), Some(Told::Datagram(0x1_0203)));
    assert_eq!(rt; recv(alloc, &mut client), Some(Told::Nothing));
    assert_eq!(rt; send(alloc, &mut client, &[0; 91]), Some(Told::Done));
    assert_eq!(rt;
        send(alloc, &mut client, &[0; 92]),
        Some(Told::Refused(Refusal::TooLarge))
    );
    Ok(())
}

// A client lets its peer open 100 streams of a direction. Where it may open 200 it is told so at once (RFC 9000, section 19.11): 200 is
// 40c8 as a varint, and a packet with a header of 10 bytes needs 4 more. Number 0 is skipped.
#[test]
fn the_peer_may_open_more_streams(rt: HostRuntime) -> Result<(), Fail> {
    let alloc = rt.alloc();
    let mut client = established(alloc, &END_FOR_STREAMS).ok_or("no client")?;
    assert_eq!(rt; client.max_concurrent_streams(Dir::Uni), 100);
    client.set_max_concurrent_streams(Dir::Uni, VarInt::from_u32(200));
    assert_eq!(rt; client.max_concurrent_streams(Dir::Uni), 200);
    assert_eq!(rt; client.max_concurrent_streams(Dir::Bi), 100);
    assert!(rt;
        seals(
            alloc,
            &mut client,
            "seal data 1 0 MAX_STREAMS/1340c8 PADDING*1\n"
        )?
    );
    Ok(())
}

// Of 5 bytes 3 are taken where no more may be kept; then none, and 2 where 5 may.
#[test]
fn a_send_window_bounds_what_is_written(rt: HostRuntime) -> Result<(), Fail> {
    let alloc = rt.alloc();
    let mut client = established(alloc, &END_FOR_STREAMS).ok_or("no client")?;
    client.set_send_window(3);
    assert_eq!(rt; open(alloc, &mut client, Dir::Bi), Some(Told::Opened(0)));
    assert_eq!(rt;
        write(alloc, &mut client, Dir::Bi, b"hello"),
        Some(Told::Wrote(3))
    );
    assert_eq!(rt;
        write(alloc, &mut client, Dir::Bi, b"hello"),
        Some(Told::Refused(Refusal::Blocked))
    );
    client.set_send_window(5);
    assert_eq!(rt;
        write(alloc, &mut client, Dir::Bi, b"hello"),
        Some(Told::Wrote(2))
    );
    Ok(())
}

// A client that takes 100 bytes, and then 300, tells so (RFC 9000, sections 4.2 and 19.9): 300 is 412c as a varint.
#[test]
fn a_greater_receive_window_is_told(rt: HostRuntime) -> Result<(), Fail> {
    let alloc = rt.alloc();
    let mut client = established_with(alloc, 100).ok_or("no client")?;
    client.set_receive_window(VarInt::from_u32(300));
    assert!(rt;
        seals(
            alloc,
            &mut client,
            "seal data 1 0 MAX_DATA/10412c PADDING*1\n"
        )?
    );
    Ok(())
}
