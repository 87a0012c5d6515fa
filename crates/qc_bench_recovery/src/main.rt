//! The program `qc_bench_recovery`: packets that are sent and acknowledged, to be counted by an
//! instruction counter. The difference of two runs is the cost of what the one did more.
#![tactic(auto)]

use qc_base::{ArrayRangeSet, Duration, Instant, SpaceId};
use qc_flight::{SentPacket, StreamMetaVec};
use qc_frame::{Ack, FrameList, OwnedAck};
use qc_path::{ControllerFactory, NewReno, NewRenoConfig};
use qc_recovery::{Around, PathData, Recovery, TransportConfig, first_mtu};
use std::alloc::{AllocError, Global};
use std::default::Default;
use std::{env, io};

/// What is done with each packet.
#[derive(Clone, Copy)]
enum Job {
    /// It is made, and so is its ACK; nothing else.
    Made,
    /// Each is acknowledged in order, two by one ACK.
    Flow,
    /// Every second one is acknowledged, and the other lost.
    Lossy,
}

#[derive(Drop)]
struct Bench {
    alloc: Global,
    recovery: Recovery,
    path: PathData<NewReno>,
    /// How many packets were acknowledged or lost.
    settled: u64,
    /// How often the loss timer stood after an ACK.
    armed: u64,
}

fn at(number: u64) -> Instant {
    Instant::from_nanos(number.saturating_mul(1000))
}

fn around() -> Around {
    Around {
        blocked: false,
        peer_validated: true,
        handshake_over: true,
        highest: SpaceId::Data,
        initial_keys: false,
        handshake_keys: false,
        max_ack_delay: Duration::from_millis(25),
        ack_delay_exponent: 3,
        app_limited: false,
    }
}

fn packet(alloc: Global, number: u64) -> SentPacket {
    SentPacket {
        at: at(number),
        size: 1200,
        counted: true,
        ack_eliciting: true,
        frames: FrameList::new(alloc),
        stream_frames: StreamMetaVec::new(alloc),
        new_token: None,
    }
}

fn send(bench: &mut Bench, number: u64) -> Result<(), AllocError> {
    if bench.recovery.is_above(SpaceId::Data, number) {
        bench
            .recovery
            .sent(SpaceId::Data, number, packet(bench.alloc, number))?;
    }
    Ok(())
}

fn acknowledge(bench: &mut Bench, next: u64, first: u64, last: u64) -> Result<(), AllocError> {
    match OwnedAck::of_numbers(bench.alloc, &numbers_of(first, last), 0, None)? {
        None => Ok(()),
        Some(owned) => {
            let ack = Ack {
                largest: owned.largest,
                delay: owned.delay,
                additional: owned.additional.as_slice(),
                ecn: owned.ecn,
            };
            let settled = bench.recovery.on_ack(
                bench.alloc,
                at(next),
                SpaceId::Data,
                next,
                at(0),
                &ack,
                &around(),
                &mut bench.path,
            )?;
            let count = (settled.acked.len() as u64).saturating_add(settled.lost.len() as u64);
            bench.settled = bench.settled.saturating_add(count);
            if bench
                .recovery
                .arm(at(next), &around(), &bench.path)
                .is_some()
            {
                bench.armed = bench.armed.saturating_add(1);
            }
            Ok(())
        }
    }
}

fn numbers_of(first: u64, last: u64) -> ArrayRangeSet {
    let mut numbers = ArrayRangeSet::new();
    numbers.insert_one(last);
    if first < last {
        numbers.insert_one(first);
    }
    numbers
}

/// What the packets and the ACKs cost by themselves.
fn make(bench: &mut Bench, next: u64, first: u64, last: u64) -> Result<(), AllocError> {
    let owned = OwnedAck::of_numbers(bench.alloc, &numbers_of(first, last), 0, None)?;
    if owned.is_some() {
        bench.settled = bench.settled.saturating_add(1);
    }
    let one = packet(bench.alloc, next);
    let other = packet(bench.alloc, next);
    bench.settled = bench.settled.saturating_add(one.size.min(1));
    bench.settled = bench.settled.saturating_add(other.size.min(1));
    Ok(())
}

/// Two packets more, and an ACK for the two that were sent `window` packets before.
fn turn(bench: &mut Bench, job: Job, next: u64, window: u64) -> Result<(), AllocError> {
    let first = next.saturating_sub(window);
    let last = first.saturating_add(1);
    match job {
        Job::Made => make(bench, next, first, last),
        Job::Flow => {
            send(bench, next)?;
            send(bench, next.saturating_add(1))?;
            if next < window {
                return Ok(());
            }
            acknowledge(bench, next, first, last)
        }
        Job::Lossy => {
            send(bench, next)?;
            send(bench, next.saturating_add(1))?;
            if next < window {
                return Ok(());
            }
            acknowledge(bench, next, last, last)
        }
    }
}

fn run(alloc: Global, job: Job, count: u32, window: u32) -> Result<(u64, u64), AllocError> {
    let config = TransportConfig::default();
    let congestion = NewRenoConfig::default().build(at(0), first_mtu(&config, None));
    let mut bench = Bench {
        alloc,
        recovery: Recovery::new(alloc, &config),
        path: PathData::new(at(0), &config, congestion, false, None),
        settled: 0,
        armed: 0,
    };
    for i in 0..count {
        turn(&mut bench, job, u64::from(i) * 2, u64::from(window))?;
    }
    Ok((bench.settled, bench.armed))
}

fn number(word: Option<String>) -> u32 {
    match word {
        None => 0,
        Some(word) => word.parse::<u32>().unwrap_or(0),
    }
}

fn job_of(word: Option<String>) -> Job {
    match word {
        None => Job::Made,
        Some(word) => match word.as_str() {
            "flow" => Job::Flow,
            "lossy" => Job::Lossy,
            _ => Job::Made,
        },
    }
}

fn main(rt: HostRuntime) -> io::Result<()> {
    let mut args = env::args(&rt)?;
    let _ = args.next();
    let job = job_of(args.next());
    let count = number(args.next());
    let window = number(args.next());
    match run(rt.alloc(), job, count, window) {
        Ok(counts) => println!(rt; "settled {}\narmed {}", counts.0, counts.1),
        Err(_) => println!(rt; "no memory"),
    }
}
