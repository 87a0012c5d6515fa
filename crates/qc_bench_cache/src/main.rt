//! The program `qc_bench_cache`: tokens that are put into a cache of many names and taken out again, to be counted by
//! an instruction counter. The difference of two runs is the cost of what the one did more.
#![tactic(auto)]

use bytes::Bytes;
use qc_config::{TokenMemoryCache, TokenStore};
use std::alloc::{AllocError, Global};
use std::{env, io};

/// What is done in each turn, with the next name.
#[derive(Clone, Copy)]
enum Job {
    /// The name is made, and a token; nothing else.
    Made,
    /// A token is put in.
    Insert,
    /// A token is put in, and the oldest one is taken.
    Take,
}

#[derive(Drop)]
struct Bench {
    alloc: Global,
    cache: TokenMemoryCache,
    put: u64,
    given: u64,
}

/// Names of one length.
fn name(alloc: Global, number: u32) -> Result<String, AllocError> {
    format!(in alloc; "{}", number.saturating_add(1_000_000_000))
}

fn put(bench: &mut Bench, name: &str) -> Result<(), AllocError> {
    let token = Bytes::copy_from_slice(bench.alloc, &[7; 64])?;
    bench.cache.insert(name, token)?;
    bench.put = bench.put.saturating_add(1);
    Ok(())
}

fn take(bench: &mut Bench, name: &str) -> Result<(), AllocError> {
    if bench.cache.take(name)?.is_some() {
        bench.given = bench.given.saturating_add(1);
    }
    Ok(())
}

fn turn(bench: &mut Bench, job: Job, number: u32) -> Result<(), AllocError> {
    let name = name(bench.alloc, number)?;
    match job {
        Job::Made => {
            let token = Bytes::copy_from_slice(bench.alloc, &[7; 64])?;
            bench.put = bench.put.saturating_add((token.len() as u64).min(1));
            Ok(())
        }
        Job::Insert => put(bench, name.as_str()),
        Job::Take => {
            put(bench, name.as_str())?;
            take(bench, name.as_str())
        }
    }
}

/// A token of each name.
fn fill(bench: &mut Bench, names: u32) -> Result<(), AllocError> {
    for number in 0..names {
        turn(bench, Job::Insert, number)?;
    }
    Ok(())
}

/// Two tokens of each name, which fill the queues, and then so many turns.
fn run(alloc: Global, job: Job, turns: u32, names: u32) -> Result<Bench, AllocError> {
    let mut bench = Bench {
        alloc,
        cache: TokenMemoryCache::new(alloc, names, 2)?,
        put: 0,
        given: 0,
    };
    fill(&mut bench, names)?;
    fill(&mut bench, names)?;
    for i in 0..turns {
        turn(&mut bench, job, i % names.max(1))?;
    }
    Ok(bench)
}

fn number(word: Option<String>) -> u32 {
    match word {
        None => 0,
        Some(word) => word.parse::<u32>().unwrap_or(0),
    }
}

fn job_of(word: Option<String>) -> Job {
    match word {
        None => Job::Made,
        Some(word) => match word.as_str() {
            "insert" => Job::Insert,
            "take" => Job::Take,
            _ => Job::Made,
        },
    }
}

fn main(rt: HostRuntime) -> io::Result<()> {
    let mut args = env::args(&rt)?;
    let _ = args.next();
    let job = job_of(args.next());
    let turns = number(args.next());
    let names = number(args.next());
    match run(rt.alloc(), job, turns, names) {
        Ok(bench) => println!(rt; "put {} given {}", bench.put, bench.given),
        Err(_) => println!(rt; "no memory"),
    }
}
