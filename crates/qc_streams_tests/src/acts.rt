//! Calls on a connection's streams, each with the answer that is wanted. A test is a list of them: the streams are owned
//! in one place alone, since a function that owns them and may return early is slow to check.

use bytes::Bytes;
use qc_base::{Dir, Fault, StreamId, VarInt};
use qc_streams::{
    Chunk, Chunks, Control, FinishError, PeerLimits, ReadError, ReadableError, Refusal,
    StreamEvent, StreamFault, StreamPart, StreamsState, WriteError, Written,
};
use std::alloc::{AllocError, Global};

/// What a read of a stream gives.
#[derive(Clone, Copy, PartialEq, Eq)]
pub enum Given {
    /// So many bytes from an offset on.
    Chunk(u64, usize),
    /// The end.
    End,
    /// A reset with this code.
    Reset(u32),
    /// Nothing yet.
    Blocked,
    /// Nothing, for memory ran out before.
    Failed,
    /// Nothing, for the stream is unknown or closed.
    Closed,
    /// Nothing, for the stream was read out of order.
    Unordered,
}

/// A call, and what it answers. Streams are named by their ids.
#[derive(Clone, Copy)]
pub enum Act {
    /// The application opens a stream.
    Open(Dir, Option<u32>),
    /// The application can't open a stream, since the connection has failed.
    OpenFails(Dir),
    /// The application accepts a stream.
    Accept(Dir, Option<u32>),
    /// The application writes so many bytes.
    Write(u32, usize, Result<usize, WriteError>),
    /// The application writes two chunks of 10 bytes.
    Chunks(u32, Result<Written, WriteError>),
    /// A write of 20 bytes is refused so, and so is one of two chunks of 10 bytes.
    Refused(u32, WriteError),
    /// The application finishes a stream.
    Finish(u32, Result<(), FinishError>),
    /// The application resets a stream with a code; whether it can.
    Reset(u32, u32, bool),
    /// The application reads at most so many bytes, in order or not.
    Read(u32, bool, usize, Given),
    /// The application reads a stream's chunks, up to three of at most so many bytes, in order or not; what each gives, and
    /// whether something is to be sent then.
    Reads(u32, bool, usize, [Option<Given>; 3], bool),
    /// The application stops a stream with a code; whether it can.
    Stop(u32, u32, bool),
    /// The application asks for the code of a reset; None where the stream is unknown or closed.
    AskReset(u32, Option<Option<u32>>),
    /// The application sets a stream's priority; whether it can.
    SetPriority(u32, i32, bool),
    /// A stream's priority, where it is known.
    Priority(u32, Option<i32>),
    /// The code with which the peer stopped a stream, where it is known.
    Stopped(u32, Option<Option<u32>>),
    /// The next event.
    Poll(Option<StreamEvent>),
    /// A STREAM frame comes: its offset, how many bytes it has, and its FIN.
    Stream(u32, u32, usize, bool, Option<Refusal>),
    /// A RESET_STREAM comes: its code and its final size.
    ResetStream(u32, u32, u64, Option<Refusal>),
    /// A STOP_SENDING comes with a code.
    StopSending(u32, u32, Option<Refusal>),
    /// A MAX_STREAM_DATA comes.
    MaxStreamData(u32, u32, Option<Refusal>),
    /// A STREAM_DATA_BLOCKED comes.
    StreamDataBlocked(u32, Option<Refusal>),
    /// A MAX_STREAMS comes.
    MaxStreams(Dir, u64, Option<Refusal>),
    /// A MAX_DATA comes.
    MaxData(u32),
    /// What marked streams owe is filed.
    File,
    /// Whether a STREAM frame waits, and whether a frame without bytes does.
    Waits(bool, bool),
    /// The frame without bytes that would be drawn into so much room.
    Next(usize, Option<Control>),
    /// The frame without bytes that is drawn into so much room.
    Draw(usize, Option<Control>),
    /// The bytes that are drawn into so much room: the stream, their offset and number, and whether the end is with them.
    Part(usize, Option<(u64, u64, usize, bool)>),
    /// A MAX_DATA is sealed.
    SealData,
    /// A frame without bytes is lost.
    Lost(Control),
    /// A frame without bytes is acknowledged.
    Acked(Control),
    /// Bytes of a stream are lost: from where to where, and whether the end is with them.
    BytesLost(u32, u64, u64, bool),
    /// Bytes of a stream are acknowledged.
    BytesAcked(u32, u64, u64, bool),
    /// The peer's first limits are known.
    Limits(PeerLimits),
    /// They came a second time, and those of open streams rise to them.
    RaiseOpened,
    /// The send window is set.
    SendWindow(u64),
    /// The receive window is set.
    ReceiveWindow(VarInt),
    /// How many streams the peer may have open is set.
    Concurrent(Dir, u32),
    /// The connection is closed.
    Close,
    /// Memory ran out: the connection has failed.
    Fail,
    /// The early data is refused.
    EarlyRefused,
    /// How many more bytes may be kept.
    SendRoom(u64),
    /// How many streams are sent on.
    Sending(u64),
    /// How many streams of the peer haven't ended.
    RemoteOpen(Dir, u64),
    /// Up to where the peer may send on all streams.
    Credit(u64),
    /// The credit of a MAX_DATA that waits.
    DataOwed(Option<u64>),
    /// The number of a MAX_STREAMS that waits.
    StreamsOwed(Dir, Option<u64>),
}

/// The stream with an id.
pub fn id(number: u32) -> StreamId {
    StreamId::from(VarInt::from_u32(number))
}

/// A number as frames have it.
pub fn number(number: u32) -> VarInt {
    VarInt::from_u32(number)
}

/// The id that may be there.
fn id_of(stream: Option<u32>) -> Option<StreamId> {
    match stream {
        Some(stream) => Some(id(stream)),
        None => None,
    }
}

/// The code that may be there.
fn code_of(code: Option<u32>) -> Option<VarInt> {
    match code {
        Some(code) => Some(number(code)),
        None => None,
    }
}

/// The bytes of every stream: 1, 2, .., 20.
const BYTES: [u8; 20] = [
    1, 2, 3, 4, 5, 6, 7, 8, 9, 10, 11, 12, 13, 14, 15, 16, 17, 18, 19, 20,
];

/// Whether bytes are those of a stream from an offset on.
fn are_those(bytes: &Bytes, offset: u64) -> bool {
    let all = BYTES;
    match all.get(offset as usize..) {
        Some(rest) => rest.starts_with(bytes.as_slice()),
        None => false,
    }
}

/// So many bytes of a stream from an offset on.
fn some_bytes(alloc: Global, offset: u64, len: usize) -> Result<Bytes, AllocError> {
    let all = BYTES;
    let rest = all.get(offset as usize..).unwrap_or(&[]);
    Bytes::copy_from_slice(alloc, rest.get(..len).unwrap_or(&[]))
}

/// Whether an opening answers so.
fn opens(streams: &mut StreamsState, dir: Dir, stream: Option<u32>) -> bool {
    streams.streams().open(dir) == Ok(id_of(stream))
}

/// Whether a write of so many bytes answers so.
fn writes(
    streams: &mut StreamsState,
    stream: u32,
    len: usize,
    answer: Result<usize, WriteError>,
) -> bool {
    let all = BYTES;
    match all.get(..len) {
        Some(body) => streams.send_stream(id(stream)).write(body) == answer,
        None => false,
    }
}

/// Whether a write of two chunks of 10 bytes answers so.
fn writes_chunks(
    alloc: Global,
    streams: &mut StreamsState,
    stream: u32,
    answer: Result<Written, WriteError>,
) -> bool {
    match ten_and_ten(alloc) {
        Ok(mut chunks) => streams.send_stream(id(stream)).write_chunks(&mut chunks) == answer,
        Err(_) => false,
    }
}

/// Two chunks of 10 bytes.
fn ten_and_ten(alloc: Global) -> Result<[Bytes; 2], AllocError> {
    Ok([some_bytes(alloc, 0, 10)?, some_bytes(alloc, 10, 10)?])
}

/// Whether a write is refused so.
fn is_refused(answer: Result<usize, WriteError>, refusal: &WriteError) -> bool {
    match answer {
        Ok(_) => false,
        Err(given) => given == *refusal,
    }
}

/// Whether a write of 20 bytes is refused so, and one of two chunks of 10 bytes.
fn refuses(alloc: Global, streams: &mut StreamsState, stream: u32, refusal: &WriteError) -> bool {
    let all = BYTES;
    is_refused(streams.send_stream(id(stream)).write(&all), refusal)
        && refuses_chunks(alloc, streams, stream, refusal)
}

/// Whether a write of two chunks of 10 bytes is refused so.
fn refuses_chunks(
    alloc: Global,
    streams: &mut StreamsState,
    stream: u32,
    refusal: &WriteError,
) -> bool {
    match ten_and_ten(alloc) {
        Ok(mut chunks) => match streams.send_stream(id(stream)).write_chunks(&mut chunks) {
            Ok(_) => false,
            Err(given) => given == *refusal,
        },
        Err(_) => false,
    }
}

/// What a chunk is, where its bytes are the stream's.
fn given_chunk(chunk: &Chunk) -> Option<Given> {
    if !are_those(&chunk.bytes, chunk.offset) {
        return None;
    }
    Some(Given::Chunk(chunk.offset, chunk.bytes.len()))
}

/// What a read gives.
fn given_of(answer: &Result<Option<Chunk>, ReadError>) -> Option<Given> {
    match answer {
        Ok(Some(chunk)) => given_chunk(chunk),
        Ok(None) => Some(Given::End),
        Err(ReadError::Blocked) => Some(Given::Blocked),
        Err(ReadError::Failed) => Some(Given::Failed),
        Err(_) => None,
    }
}

/// Whether a read was told of a reset with this code.
fn is_reset(answer: &Result<Option<Chunk>, ReadError>, code: u32) -> bool {
    match answer {
        Err(ReadError::Reset(told)) => *told == number(code),
        _ => false,
    }
}

/// Whether a read gives that.
fn gives(answer: &Result<Option<Chunk>, ReadError>, given: Given) -> bool {
    match given {
        Given::Reset(code) => is_reset(answer, code),
        _ => given_of(answer) == Some(given),
    }
}

/// Whether a read is refused so.
fn is_barred(refusal: ReadableError, given: Given) -> bool {
    match refusal {
        ReadableError::ClosedStream => given == Given::Closed,
        ReadableError::IllegalOrderedRead => given == Given::Unordered,
    }
}

/// Whether a read of at most so many bytes gives that, by the stream's view.
fn reads(
    streams: &mut StreamsState,
    stream: u32,
    ordered: bool,
    most: usize,
    given: Given,
) -> bool {
    match streams.recv_stream(id(stream)).read(ordered) {
        Ok(mut chunks) => gives(&chunks.next(most), given),
        Err(refusal) => is_barred(refusal, given),
    }
}

/// Whether the next read gives that, where one is wanted.
fn gives_next(chunks: &mut Chunks<'_>, most: usize, wanted: Option<Given>) -> bool {
    match wanted {
        Some(wanted) => gives(&chunks.next(most), wanted),
        None => true,
    }
}

/// Whether the next reads give that.
fn give_all(chunks: &mut Chunks<'_>, most: usize, given: [Option<Given>; 3]) -> bool {
    let [first, second, third] = given;
    let mut right = gives_next(chunks, most, first);
    right = gives_next(chunks, most, second) && right;
    gives_next(chunks, most, third) && right
}

/// Whether reads of one opening give that, and whether something is to be sent then.
fn reads_all(
    streams: &mut StreamsState,
    stream: u32,
    ordered: bool,
    most: usize,
    given: [Option<Given>; 3],
    sent: bool,
) -> bool {
    match streams.recv_stream(id(stream)).read(ordered) {
        Ok(mut chunks) => {
            let right = give_all(&mut chunks, most, given);
            chunks.finalize().should_transmit() == sent && right
        }
        Err(_) => false,
    }
}

/// Whether a frame was taken, or refused so.
fn is_taken(answer: Result<(), StreamFault>, refusal: Option<Refusal>) -> bool {
    match refusal {
        Some(refusal) => answer == Err(StreamFault::Refused(refusal)),
        None => answer == Ok(()),
    }
}

/// Whether a STREAM frame is taken or refused so.
fn takes(
    alloc: Global,
    streams: &mut StreamsState,
    stream: u32,
    offset: u32,
    len: usize,
    fin: bool,
    refusal: Option<Refusal>,
) -> bool {
    let offset = u64::from(offset);
    match some_bytes(alloc, offset, len) {
        Ok(body) => is_taken(streams.received(id(stream), offset, body, fin), refusal),
        Err(_) => false,
    }
}

/// What a part is: its stream, its offset and the number of its bytes, and whether the end is with it.
fn part_of(part: &StreamPart) -> (u64, u64, usize, bool) {
    let bytes = &part.part;
    (part.id, bytes.offset, bytes.bytes.len(), bytes.last)
}

/// Whether those bytes are drawn into so much room.
fn draws(streams: &mut StreamsState, room: usize, part: Option<(u64, u64, usize, bool)>) -> bool {
    match &streams.draw_part(room) {
        Ok(Some(drawn)) => Some(part_of(drawn)) == part,
        Ok(None) => part.is_none(),
        Err(_) => false,
    }
}

/// Whether the code of a reset is answered so.
fn asks(streams: &mut StreamsState, stream: u32, code: Option<Option<u32>>) -> bool {
    match streams.recv_stream(id(stream)).received_reset() {
        Ok(told) => code.is_some_and(|code| code_of(code) == told),
        Err(_) => code.is_none(),
    }
}

/// Whether the code of a stop is answered so.
fn is_stopped(streams: &mut StreamsState, stream: u32, code: Option<Option<u32>>) -> bool {
    match streams.send_stream(id(stream)).stopped() {
        Ok(told) => code.is_some_and(|code| code_of(code) == told),
        Err(_) => code.is_none(),
    }
}

impl Act {
    /// Whether the call of the application answers so; another one is no such call.
    fn calls(&self, alloc: Global, streams: &mut StreamsState) -> bool {
        match *self {
            Act::Open(dir, stream) => opens(streams, dir, stream),
            Act::OpenFails(dir) => streams.streams().open(dir) == Err(Fault::Failed),
            Act::Accept(dir, stream) => streams.streams().accept(dir) == id_of(stream),
            Act::Write(stream, len, answer) => writes(streams, stream, len, answer),
            Act::Chunks(stream, answer) => writes_chunks(alloc, streams, stream, answer),
            Act::Refused(stream, refusal) => refuses(alloc, streams, stream, &refusal),
            Act::Finish(stream, answer) => streams.send_stream(id(stream)).finish() == answer,
            Act::Reset(stream, code, can) => {
                streams.send_stream(id(stream)).reset(number(code)).is_ok() == can
            }
            Act::Read(stream, ordered, most, given) => reads(streams, stream, ordered, most, given),
            Act::Reads(stream, ordered, most, given, sent) => {
                reads_all(streams, stream, ordered, most, given, sent)
            }
            Act::Stop(stream, code, can) => {
                streams.recv_stream(id(stream)).stop(number(code)).is_ok() == can
            }
            Act::AskReset(stream, code) => asks(streams, stream, code),
            Act::SetPriority(stream, priority, can) => {
                streams
                    .send_stream(id(stream))
                    .set_priority(priority)
                    .is_ok()
                    == can
            }
            Act::Priority(stream, priority) => streams.send_stream(id(stream)).priority().ok()
                == priority,
            Act::Stopped(stream, code) => is_stopped(streams, stream, code),
            Act::Poll(event) => streams.poll() == event,
            _ => self.comes(alloc, streams),
        }
    }

    /// Whether the frame that comes is answered so; another call is none.
    fn comes(&self, alloc: Global, streams: &mut StreamsState) -> bool {
        match *self {
            Act::Stream(stream, offset, len, fin, refusal) => {
                takes(alloc, streams, stream, offset, len, fin, refusal)
            }
            Act::ResetStream(stream, code, size, refusal) => is_taken(
                streams.received_reset(id(stream), number(code), size),
                refusal,
            ),
            Act::StopSending(stream, code, refusal) => is_taken(
                streams.received_stop_sending(id(stream), number(code)),
                refusal,
            ),
            Act::MaxStreamData(stream, limit, refusal) => is_taken(
                streams.received_max_stream_data(id(stream), number(limit)),
                refusal,
            ),
            Act::StreamDataBlocked(stream, refusal) => {
                streams.received_stream_data_blocked(id(stream)) == refusal
            }
            Act::MaxStreams(dir, limit, refusal) => {
                is_taken(streams.received_max_streams(dir, limit), refusal)
            }
            _ => self.sends(streams),
        }
    }

    /// Whether the frame that goes, or its fate, is answered so; another call is none.
    fn sends(&self, streams: &mut StreamsState) -> bool {
        match *self {
            Act::File => streams.file_marks().is_ok(),
            Act::RaiseOpened => streams.raise_opened().is_ok(),
            Act::Waits(bytes, control) => {
                streams.has_waiting() == bytes && streams.has_control() == control
            }
            Act::Next(room, frame) => streams.next_control(room) == frame,
            Act::Draw(room, frame) => streams.draw_control(room) == frame,
            Act::Part(room, part) => draws(streams, room, part),
            Act::Lost(frame) => streams.control_lost(&frame).is_ok(),
            Act::BytesLost(stream, start, stop, last) => {
                streams.bytes_lost(id(stream), start, stop, last).is_ok()
            }
            Act::BytesAcked(stream, start, stop, last) => {
                streams.bytes_acked(id(stream), start, stop, last).is_ok()
            }
            _ => self.counts(streams),
        }
    }

    /// Whether what is counted is so; another call is none.
    fn counts(&self, streams: &mut StreamsState) -> bool {
        match *self {
            Act::SendRoom(room) => streams.send_room() == room,
            Act::Sending(count) => streams.streams().send_streams() as u64 == count,
            Act::RemoteOpen(dir, count) => streams.streams().remote_open_streams(dir) == count,
            Act::Credit(credit) => streams.incoming.credit() == credit,
            Act::DataOwed(limit) => streams.max_data_owed() == limit,
            Act::StreamsOwed(dir, limit) => streams.max_streams_owed(dir) == limit,
            _ => self.does(streams),
        }
    }

    /// A call without an answer.
    fn does(&self, streams: &mut StreamsState) -> bool {
        match *self {
            Act::MaxData(limit) => streams.received_max_data(number(limit)),
            Act::Acked(frame) => streams.control_acked(&frame),
            Act::Limits(limits) => streams.set_limits(limits),
            Act::SendWindow(window) => streams.set_send_window(window),
            Act::ReceiveWindow(window) => streams.set_receive_window(window),
            Act::Concurrent(dir, count) => streams.set_max_concurrent_streams(dir, number(count)),
            Act::SealData => streams.max_data_sealed(),
            Act::Close => streams.close(),
            Act::Fail => streams.failed = true,
            Act::EarlyRefused => streams.early_refused(),
            _ => return false,
        }
        true
    }
}

/// Which of the calls, one after the other, is the first that answers otherwise. None where all answer as they should.
pub fn first_wrong(alloc: Global, streams: &mut StreamsState, acts: &[Act]) -> Option<usize> {
    for (place, act) in acts.iter().enumerate() {
        if !act.calls(alloc, streams) {
            return Some(place);
        }
    }
    None
}
