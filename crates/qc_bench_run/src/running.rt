//! The program without its outside: words in, what to print out.

ghost use Rattle.std.specs.Prelude.{◌≡◌, ◌≤◌, IfOk, map};
ghost use Rattle.std.specs.String.{string_bytes};
ghost use Rattle.qc_bench_run.specs.Results.{IsOutcome};

use crate::frames::read_frames;
use crate::job::{Job, job_of};
use crate::keys::{Opened, seal_and_open};
use crate::outcome::Outcome;
use crate::packets::{LEAST_SIZE, MOST_SIZE, pass_packets};
use qc_base::Side;
use qc_crypto::KeySource;
use qc_packet::KeyRing;
use qc_toy::{Level, ToyKeys, ToyPacketKey};
use std::alloc::{AllocError, Global};

/// Does what the words ask for.
pub fn run(alloc: Global, words: &[String]) -> Outcome
    ensures { IsOutcome (map string_bytes words.now) result }
{
    match job_of(words) {
        None => Outcome::Usage,
        Some(Job::Frames { count, times }) => match read_frames(alloc, count, times) {
            Ok(tally) => Outcome::Read(tally),
            Err(_) => Outcome::NoMemory,
        },
        Some(Job::Keys { count }) => match seal_and_open::<ToyPacketKey, ToyKeys>(
            alloc,
            &ToyKeys {
                secret: [1, 2, 3, 4, 5],
            },
            count,
        ) {
            Ok(opened) => Outcome::Sealed(opened),
            Err(_) => Outcome::NoMemory,
        },
        Some(Job::Packets { count, size }) => match pass_toy_packets(alloc, count, size) {
            Ok(opened) => Outcome::Sealed(opened),
            Err(_) => Outcome::NoMemory,
        },
    }
}

/// Passes packets from a client to a server, under the toy's 1-RTT keys.
fn pass_toy_packets(alloc: Global, count: u32, size: u16) -> Result<Opened, AllocError>
    requires least { LEAST_SIZE ≤ size }
    requires most { size ≤ MOST_SIZE }
    ensures { IfOk result (λ opened. opened.packets ≡ count) }
{
    let keys = ToyKeys {
        secret: [1, 2, 3, 4, 5],
    };
    let sealer = keys.of_level(Level::Data, Side::Client);
    let opener = keys.of_level(Level::Data, Side::Server);
    let ring = KeyRing::new(keys.keys(Side::Server, 0), keys.keys(Side::Server, 1));
    pass_packets(alloc, &sealer, &opener, &ring, count, size)
}
