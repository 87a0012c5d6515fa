//! The program `qc_bench_conn`: a client and a server in one program, with no script and no text. They make their handshake over the
//! toy session; then in each turn the client writes so many bytes on each of its streams, the server reads them at once, and answers
//! with its ACKs. It is there to be counted by an instruction counter: the difference of two runs is the cost of what the one did
//! more. Arguments are words in fours, `bytes STREAMS TURNS SIZE`, or `batches` in the place of `bytes`, where a transmit may seal 10 datagrams
//! and not one; each four write a line.
//!
//! What the stored run writes is worked out by hand. A handshake takes 3 datagrams of the client's and 2 of the server's. A packet of
//! 1,200 bytes has a header of 10 and a tag of 16, and room for 1,174 bytes of frames; a STREAM frame gets so many bytes that it has room with
//! the greatest head, of 19, and takes what it has. So 1,000 bytes on one stream go in one packet a turn, 20 in all; the server acknowledges the
//! first at once, since it misses number 0, and then each second one: 10 times. Of 100 bytes on each of 10 streams all go in one packet, in
//! frames with a head of 4 bytes, or of 6 from the second turn on: 5 packets in 5 turns, which are acknowledged 3 times. Of 10,000 bytes on each
//! of 3 streams 24 packets have 1,155 each; 760 of each stream are left, of which one packet takes 760 and 389 of the next stream, and another
//! 760 and the last 371; where an offset has four bytes, these are 387 and 373: 26 a turn, 104 in all. A packet has 1,185 to 1,189 bytes, but for
//! the last of a turn, and goes while those in flight and 1,200 more stay below the congestion window. Of 12,000 that lets 10 go, of 11,864 bytes,
//! in the first turn. Each flight is acknowledged by one packet of the server's, and a window that held sending back grows by what was
//! acknowledged, to 23,864 then: the 16 others go. In the second turn it lets 20 go, of 23,744 bytes, and then 6; and then it has 47,608, more than
//! the 26 of a turn. So the server answers 2, 2, 1 and 1 times. The pacer holds none back: it lets two windows go at once in a round trip of 1 ms,
//! and 2.5 come in 2 ms.
//!
//! In a transmit of several datagrams none is larger than the first one. Of 10,000 bytes on one stream that has 1,155 in a head of 4 bytes, 1,185 with
//! its header and tag; so the others have room for 1,159 bytes of frames, and 1,140 of the stream; 8,845 are left, 7 such and one of 865: 9 datagrams,
//! of 10,600 bytes, which one transmit seals. In the next turn the first head has 6 bytes, and the others hold 1,142 bytes each: 9 datagrams again.
//! Each flight is acknowledged by one packet.
#![tactic(auto)]

mod ends;

use ends::{End, carry};
use qc_base::{Dir, Instant, Side, StreamId};
use std::alloc::{AllocError, Global};
use std::{env, io};

/// How long a datagram is underway, in nanoseconds: 1 ms.
const WAY: u64 = 1_000_000;

/// More rounds than a turn takes: in each the client sends, and then the server.
const ROUNDS: u32 = 1_000;

/// What was done.
#[derive(Clone, Copy)]
struct Sums {
    /// How many bytes the client's application wrote.
    written: u64,
    /// How many bytes the server's application read.
    read: u64,
    /// How many datagrams the client sent, those of the handshake as well.
    sent: u64,
    /// How many datagrams the server sent.
    answered: u64,
    /// Of how many calls less was done than was asked for.
    refused: u64,
}

/// What is to be done, and what both ends are driven with.
#[derive(Drop)]
struct Bench {
    alloc: Global,
    client: End,
    server: End,
    /// The time in nanoseconds.
    nanos: u64,
    /// How many datagrams a transmit may seal.
    batch: usize,
    /// How many streams the client opens.
    streams: u32,
    /// How many of them the server has accepted.
    accepted: u32,
    /// What is written on each of them in each turn.
    body: Vec<u8>,
    sums: Sums,
}

impl Sums {
    fn none() -> Sums {
        Sums {
            written: 0,
            read: 0,
            sent: 0,
            answered: 0,
            refused: 0,
        }
    }

    /// A call did so much of what was asked for.
    fn check(&mut self, done: u64, asked: u64) {
        if done < asked {
            self.refused = self.refused.saturating_add(1);
        }
    }

    /// What the sums say: that a call was refused, or did less than was asked for; that not all that was written was read, so that
    /// some is underway; or that all is done.
    fn status(&self) -> &'static str {
        if self.refused > 0 {
            "refused"
        } else if self.read < self.written {
            "underway"
        } else {
            "done"
        }
    }
}

/// The id of a client's bidirectional stream.
fn stream(index: u32) -> StreamId {
    StreamId::new(Side::Client, Dir::Bi, u64::from(index))
}

/// The time.
fn now(bench: &Bench) -> Instant {
    Instant::from_nanos(bench.nanos)
}

/// A datagram's way takes its time.
fn wait(bench: &mut Bench) {
    bench.nanos = bench.nanos.saturating_add(WAY);
}

/// The client opens a stream.
fn open(bench: &mut Bench) -> Result<(), AllocError> {
    let done = bench.client.opens()?;
    bench.sums.check(done, 1);
    Ok(())
}

/// The client writes on a stream.
fn write(bench: &mut Bench, index: u32) -> Result<(), AllocError> {
    let done = bench.client.writes(stream(index), bench.body.as_slice())?;
    bench.sums.written = bench.sums.written.saturating_add(done);
    bench.sums.check(done, bench.body.len() as u64);
    Ok(())
}

/// The server accepts all streams that it hasn't and that are there.
fn accept(bench: &mut Bench) {
    for _ in bench.accepted..bench.streams {
        if bench.server.accepts() == 0 {
            break;
        }
        bench.accepted = bench.accepted.saturating_add(1);
    }
}

/// The server reads a stream until nothing more is there.
fn read(bench: &mut Bench, index: u32) -> Result<(), AllocError> {
    let done = bench.server.reads(stream(index))?;
    bench.sums.read = bench.sums.read.saturating_add(done);
    Ok(())
}

/// The server reads all that came.
fn read_all(bench: &mut Bench) -> Result<(), AllocError> {
    bench.server.told();
    accept(bench);
    for index in 0..bench.accepted {
        read(bench, index)?;
    }
    Ok(())
}

/// What the client sends comes to the server, which reads it at once. How many datagrams there were.
fn there(bench: &mut Bench) -> Result<u64, AllocError> {
    wait(bench);
    let time = now(bench);
    let count = carry(
        bench.alloc,
        time,
        bench.batch,
        &mut bench.client,
        &mut bench.server,
    )?;
    bench.sums.sent = bench.sums.sent.saturating_add(count);
    if count > 0 {
        read_all(bench)?;
    }
    Ok(count)
}

/// What the server sends comes to the client. How many datagrams there were.
fn back(bench: &mut Bench) -> Result<u64, AllocError> {
    wait(bench);
    let time = now(bench);
    let count = carry(
        bench.alloc,
        time,
        bench.batch,
        &mut bench.server,
        &mut bench.client,
    )?;
    bench.sums.answered = bench.sums.answered.saturating_add(count);
    Ok(count)
}

/// Datagrams go to and fro until neither end sends.
fn talk(bench: &mut Bench) -> Result<(), AllocError> {
    for _ in 0..ROUNDS {
        let sent = there(bench)?;
        let answered = back(bench)?;
        if sent == 0 && answered == 0 {
            break;
        }
    }
    Ok(())
}

/// The handshake, and the client's streams are opened.
fn prepare(bench: &mut Bench) -> Result<(), AllocError> {
    talk(bench)?;
    for _ in 0..bench.streams {
        open(bench)?;
    }
    Ok(())
}

/// The client writes on each stream, and all that is owed is carried.
fn turn(bench: &mut Bench) -> Result<(), AllocError> {
    for index in 0..bench.streams {
        write(bench, index)?;
    }
    talk(bench)
}

/// So many bytes 07.
fn body_of(alloc: Global, size: u32) -> Result<Vec<u8>, AllocError> {
    let mut body = Vec::new(alloc);
    for _ in 0..size {
        body.push(7)?;
    }
    Ok(body)
}

fn bench_of(alloc: Global, batch: usize, streams: u32, size: u32) -> Result<Bench, AllocError> {
    let client = End::client(alloc)?;
    let server = End::server(alloc, streams)?;
    let body = body_of(alloc, size)?;
    Ok(Bench {
        alloc,
        client,
        server,
        nanos: 0,
        batch,
        streams,
        accepted: 0,
        body,
        sums: Sums::none(),
    })
}

/// The handshake, and then so many turns.
fn work(bench: &mut Bench, turns: u32) -> Result<(), AllocError> {
    prepare(bench)?;
    for _ in 0..turns {
        turn(bench)?;
    }
    Ok(())
}

fn run(
    alloc: Global,
    batch: usize,
    streams: u32,
    turns: u32,
    size: u32,
) -> Result<Sums, AllocError> {
    let mut bench = bench_of(alloc, batch, streams, size)?;
    work(&mut bench, turns)?;
    Ok(bench.sums)
}

fn number(word: Option<&String>) -> u32 {
    match word {
        None => 0,
        Some(word) => word.parse::<u32>().unwrap_or(0),
    }
}

/// How many datagrams a transmit may seal, by the word that asks for bytes on streams; None of another word.
fn batch_of(word: Option<&String>) -> Option<usize> {
    match word {
        None => None,
        Some(word) => match word.as_str() {
            "bytes" => Some(1),
            "batches" => Some(10),
            _ => None,
        },
    }
}

/// Runs what four words ask for, and prints what was done.
fn report(rt: &HostRuntime, words: &[String]) -> io::Result<()> {
    let Some(batch) = batch_of(words.first()) else {
        return println!(rt; "usage: qc_bench_conn bytes|batches STREAMS TURNS SIZE ..");
    };
    let streams = number(words.get(1));
    let turns = number(words.get(2));
    let size = number(words.get(3));
    match run(rt.alloc(), batch, streams, turns, size) {
        Ok(sums) => println!(rt;
            "written {} read {} sent {} answered {} status {}",
            sums.written,
            sums.read,
            sums.sent,
            sums.answered,
            sums.status()
        ),
        Err(_) => println!(rt; "no memory"),
    }
}

fn main(rt: HostRuntime) -> io::Result<()> {
    let mut args = env::args(&rt)?;
    let _ = args.next();
    let words: Vec<String> = args.collect(rt.alloc())?;
    for four in words.chunks(4) {
        report(&rt, four)?;
    }
    Ok(())
}
