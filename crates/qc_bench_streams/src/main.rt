//! The program `qc_bench_streams`: frames of streams that come and are read, and bytes that are written, drawn and
//! acknowledged, to be counted by an instruction counter. The difference of two runs is the cost of what the one did
//! more. Arguments are words in threes, a job, its turns and its size; each three write a line.
//!
//! What the stored run writes is worked out by hand. Each job moves 600 frames of 1,100 bytes, which are 660,000 bytes.
//! They are chunks that begin at 0, 1,100, .., 599 * 1,100, and those offsets add up to 1,100 * 600 * 599 / 2, which are
//! 197,670,000. Each frame that comes is told: 600 events. An eighth of a stream's window are 300 frames, and of the
//! connection's 600, so two MAX_STREAM_DATA and one MAX_DATA are drawn: 3 frames of credit. Written bytes are
//! acknowledged 100 turns later, so 110,000 are kept. A turn of `parts` moves two frames, and leaves as many parts as
//! there were.
#![tactic(auto)]

ghost use Rattle.std.specs.Prelude.{◌≡◌, ◌+◌, ◌-◌, ◌*◌, ◌^◌, ◌≤◌, min};

use bytes::Bytes;
use qc_base::{Dir, Side, StreamId, VarInt};
use qc_streams::{PeerLimits, StreamsState};
use std::alloc::{AllocError, Global};
use std::{env, io};

/// How many bytes a frame has.
const FRAME: u64 = 1_100;

/// How many bytes of a stream may be underway or unread: 2,400 frames.
const STREAM_WINDOW: u32 = 2_640_000;

/// How many bytes of all streams may be: 4,800 frames.
const WINDOW: u32 = 5_280_000;

/// How many bytes may be written and not acknowledged.
const SEND_WINDOW: u64 = 10_000_000;

/// After how many turns a frame is acknowledged.
const FLIGHT: u64 = 100;

/// For how many bytes there is room in a packet.
const ROOM: usize = 1_200;

/// What is done in each turn.
#[derive(Clone, Copy)]
enum Job {
    /// The bytes of a frame are made; nothing else.
    Made,
    /// A frame comes in order and is read, and what is owed for it is drawn. The size says how many streams are open.
    Receive,
    /// A frame comes out of order, and another one in the lowest gap; both are read up to the next gap, and what is owed
    /// for them is drawn. The size says how many separate parts are kept.
    Parts,
    /// Bytes are written and drawn, and older ones are acknowledged. The size says how many streams are open.
    Send,
}

/// What was done.
#[derive(Clone, Copy)]
struct Sums {
    /// How many bytes were made, read or drawn.
    bytes: u64,
    /// The offsets of the chunks that were read or drawn.
    offsets: u64,
    /// How many events were told.
    events: u64,
    /// How many frames of credit were drawn.
    credits: u64,
    /// How many calls were refused.
    refused: u64,
    /// How many bytes are kept until they are acknowledged, at the end.
    kept: u64,
    /// How many separate parts of the stream came and weren't read, at the end.
    parts: u64,
}

/// The state over all streams, and the stream on which frames come or bytes are written.
#[derive(Drop)]
struct Bench {
    streams: Box<StreamsState>,
    id: StreamId,
    body: Bytes,
    size: u32,
    sums: Sums,
}

impl Sums {
    fn none() -> Sums {
        Sums {
            bytes: 0,
            offsets: 0,
            events: 0,
            credits: 0,
            refused: 0,
            kept: 0,
            parts: 0,
        }
    }

    /// A chunk was read or drawn.
    fn add_chunk(&mut self, offset: u64, count: usize) {
        self.bytes = self.bytes.saturating_add(count as u64);
        self.offsets = self.offsets.saturating_add(offset);
    }

    /// A call was refused, where it was.
    fn add_refusal(&mut self, refused: bool) {
        if refused {
            self.refused = self.refused.saturating_add(1);
        }
    }
}

/// Where the frame with a number begins: behind those before it, as far as a stream reaches.
fn offset_of(number: u64) -> u64
    ensures offset { result ≡ min (number * 1100) (2 ^ 62 - 1100) }
    ensures fits { result + 1100 ≤ 2 ^ 62 }
{
    number.saturating_mul(FRAME).min((1 << 62) - FRAME)
}

/// The id of a client's bidirectional stream.
fn stream(index: u32) -> StreamId {
    StreamId::new(Side::Client, Dir::Bi, u64::from(index))
}

/// The peer takes as many bytes as there can be, and lets so many streams be opened.
fn limits(streams: u32) -> PeerLimits {
    PeerLimits {
        all_data: VarInt::MAX.into_inner(),
        bidi_streams: u64::from(streams),
        uni_streams: 0,
        peer_bidi_data: VarInt::MAX,
        own_bidi_data: VarInt::MAX,
        own_uni_data: VarInt::MAX,
    }
}

/// Takes the frame with a number.
fn take(bench: &mut Bench, number: u64) -> Result<(), AllocError> {
    let body = bench.body.clone()?;
    let taken = bench
        .streams
        .received(bench.id, offset_of(number), body, false);
    bench.sums.add_refusal(taken.is_err());
    Ok(())
}

/// Reads the next chunk in order.
fn read(bench: &mut Bench) {
    let mut stream = bench.streams.recv_stream(bench.id);
    let mut chunks = match stream.read(true) {
        Ok(chunks) => chunks,
        Err(_) => return bench.sums.add_refusal(true),
    };
    match chunks.next(usize::MAX) {
        Ok(Some(chunk)) => bench.sums.add_chunk(chunk.offset, chunk.bytes.len()),
        Ok(None) => {}
        Err(_) => bench.sums.add_refusal(true),
    }
}

/// All events that wait are told.
fn tell(bench: &mut Bench) {
    for _ in 0..u32::MAX {
        if bench.streams.poll().is_none() {
            break;
        }
        bench.sums.events = bench.sums.events.saturating_add(1);
    }
}

/// All frames of credit that wait are drawn.
fn draw_credit(bench: &mut Bench) -> Result<(), AllocError> {
    bench.streams.file_marks()?;
    for _ in 0..u32::MAX {
        if bench.streams.draw_control(ROOM).is_none() {
            break;
        }
        bench.sums.credits = bench.sums.credits.saturating_add(1);
    }
    Ok(())
}

/// Writes the bytes of one frame.
fn write(bench: &mut Bench) -> Result<(), AllocError> {
    let mut chunks = [bench.body.clone()?];
    let written = bench
        .streams
        .send_stream(bench.id)
        .write_chunks(&mut chunks);
    bench.sums.add_refusal(written.is_err());
    Ok(())
}

/// Draws what goes into one packet.
fn draw(bench: &mut Bench) -> Result<(), AllocError> {
    bench.streams.file_marks()?;
    if let Some(drawn) = bench.streams.draw_part(ROOM)? {
        let count = drawn.part.bytes.len();
        bench.sums.add_chunk(drawn.part.offset, count);
    }
    Ok(())
}

/// The frame that was drawn some turns before is acknowledged.
fn acknowledge(bench: &mut Bench, turn: u64) -> Result<(), AllocError> {
    if turn < FLIGHT {
        return Ok(());
    }
    let start = offset_of(turn - FLIGHT);
    bench
        .streams
        .bytes_acked(bench.id, start, start + FRAME, false)
}

fn make(bench: &mut Bench) -> Result<(), AllocError> {
    let body = bench.body.clone()?;
    bench.sums.add_chunk(0, body.len());
    Ok(())
}

fn receive(bench: &mut Bench, turn: u64) -> Result<(), AllocError> {
    take(bench, turn)?;
    tell(bench);
    read(bench);
    draw_credit(bench)
}

fn receive_parts(bench: &mut Bench, turn: u64) -> Result<(), AllocError> {
    let behind = turn.saturating_add(u64::from(bench.size));
    take(bench, behind.saturating_mul(2).saturating_add(1))?;
    take(bench, turn.saturating_mul(2))?;
    tell(bench);
    read(bench);
    read(bench);
    draw_credit(bench)
}

fn send(bench: &mut Bench, turn: u64) -> Result<(), AllocError> {
    write(bench)?;
    draw(bench)?;
    acknowledge(bench, turn)?;
    tell(bench);
    Ok(())
}

/// Opens the streams of this end.
fn open_own(bench: &mut Bench) -> Result<(), AllocError> {
    bench.streams.set_limits(limits(bench.size));
    for _ in 0..bench.size {
        let id = bench.streams.open(Dir::Bi)?;
        bench.sums.add_refusal(id.is_none());
    }
    Ok(())
}

/// The peer opens so many streams, by an empty frame on the last of them, and the application accepts them.
fn open_peer(bench: &mut Bench, count: u32) {
    let last = stream(count.saturating_sub(1));
    let opened = bench.streams.received(last, 0, Bytes::new(), false);
    bench.sums.add_refusal(opened.is_err());
    for _ in 0..count {
        let accepted = bench.streams.accept(Dir::Bi);
        bench.sums.add_refusal(accepted.is_none());
    }
}

/// So many separate parts come, with a gap of one frame before each.
fn keep_parts(bench: &mut Bench) -> Result<(), AllocError> {
    open_peer(bench, 1);
    for part in 0..bench.size {
        take(bench, u64::from(part) * 2 + 1)?;
    }
    Ok(())
}

/// What stands before the first turn.
fn prepare(bench: &mut Bench, job: Job) -> Result<(), AllocError> {
    match job {
        Job::Made | Job::Receive => open_peer(bench, bench.size),
        Job::Parts => keep_parts(bench)?,
        Job::Send => open_own(bench)?,
    }
    tell(bench);
    draw_credit(bench)?;
    bench.sums.events = 0;
    Ok(())
}

fn turn(bench: &mut Bench, job: Job, turn: u64) -> Result<(), AllocError> {
    match job {
        Job::Made => make(bench),
        Job::Receive => receive(bench, turn),
        Job::Parts => receive_parts(bench, turn),
        Job::Send => send(bench, turn),
    }
}

/// Which end a job is done at: streams are the client's, so it opens them where it sends.
fn side_of(job: Job) -> Side {
    match job {
        Job::Send => Side::Client,
        Job::Made | Job::Receive | Job::Parts => Side::Server,
    }
}

/// The stream on which all is done: where many are open, the one in their midst.
fn stream_of(job: Job, size: u32) -> StreamId {
    match job {
        Job::Parts => stream(0),
        Job::Made | Job::Receive | Job::Send => stream(size / 2),
    }
}

fn bench_of(alloc: Global, job: Job, size: u32) -> Result<Bench, AllocError> {
    let none = VarInt::from_u32(0);
    let streams = StreamsState::new(
        alloc,
        side_of(job),
        none,
        VarInt::from_u32(size.max(1)),
        VarInt::from_u32(WINDOW),
        VarInt::from_u32(STREAM_WINDOW),
        SEND_WINDOW,
        true,
    );
    Ok(Bench {
        streams: Box::new(alloc, streams)?,
        id: stream_of(job, size),
        body: Bytes::copy_from_slice(alloc, &[7; FRAME as usize])?,
        size,
        sums: Sums::none(),
    })
}

/// How many separate parts of the stream came and weren't read.
fn parts_of(bench: &Bench) -> u64 {
    match bench.streams.records.get(bench.id.value()) {
        Some(stream) => match &stream.receiving {
            Some(receiving) => receiving.assembler.parts(),
            None => 0,
        },
        None => 0,
    }
}

fn run(alloc: Global, job: Job, turns: u32, size: u32) -> Result<Sums, AllocError> {
    let mut bench = bench_of(alloc, job, size)?;
    prepare(&mut bench, job)?;
    for i in 0..turns {
        turn(&mut bench, job, u64::from(i))?;
    }
    let mut sums = bench.sums;
    sums.kept = bench.streams.records.kept();
    sums.parts = parts_of(&bench);
    Ok(sums)
}

fn number(word: Option<&String>) -> u32 {
    match word {
        None => 0,
        Some(word) => word.parse::<u32>().unwrap_or(0),
    }
}

fn job_of(word: Option<&String>) -> Job {
    match word {
        None => Job::Made,
        Some(word) => match word.as_str() {
            "receive" => Job::Receive,
            "parts" => Job::Parts,
            "send" => Job::Send,
            _ => Job::Made,
        },
    }
}

/// Runs a job, and prints what it did.
fn report(rt: &HostRuntime, words: &[String]) -> io::Result<()> {
    let job = job_of(words.first());
    let turns = number(words.get(1));
    let size = number(words.get(2));
    match run(rt.alloc(), job, turns, size) {
        Ok(sums) => println!(rt;
            "bytes {} offsets {} events {} credits {} kept {} parts {} refused {}",
            sums.bytes, sums.offsets, sums.events, sums.credits, sums.kept, sums.parts, sums.refused
        ),
        Err(_) => println!(rt; "no memory"),
    }
}

fn main(rt: HostRuntime) -> io::Result<()> {
    let mut args = env::args(&rt)?;
    let _ = args.next();
    let words: Vec<String> = args.collect(rt.alloc())?;
    for job in words.chunks(3) {
        report(&rt, job)?;
    }
    Ok(())
}
