//! What the words ask for.

ghost use Rattle.std.specs.Prelude.{◌≡◌, ℕ, ◌∷◌, [], MatchOption, map, codes};
ghost use Rattle.std.specs.String.{string_bytes};
ghost use Rattle.qc_bench_run.specs.Asking.{Asks, AsksFrames, AsksKeys, AsksPackets, IsCount};

use crate::packets::{LEAST_SIZE, MOST_SIZE};

/// What is to be done.
#[derive(Clone, Copy, Debug, PartialEq, Eq)]
pub enum Job {
    /// To write a payload of `count` frames, and to read it `times` times.
    Frames { count: u32, times: u32 },
    /// To seal and open `count` packets.
    Keys { count: u32 },
    /// To build, seal, unmask and open `count` packets of `size` bytes.
    Packets { count: u32, size: u16 },
}

/// The job that the words ask for, if they ask for one: `frames COUNT TIMES`, `keys COUNT` or
/// `packets COUNT SIZE`.
pub fn job_of(words: &[String]) -> Option<Job>
    ensures { MatchOption result ((job : Job) → ¬ Asks (map string_bytes words.now) job) (Asks (map string_bytes words.now)) }
{
    match words {
        [word, first, second] => long_job(word.as_str(), first.as_str(), second.as_str()),
        [word, count] => keys_job(word.as_str(), count.as_str()),
        _ => None,
    }
}

/// The job that three words ask for, if they ask for one.
#[tactic(auto, using(crate::proofs::AskingLemmas::frames_asked, crate::proofs::AskingLemmas::packets_asked))]
fn long_job(word: &str, first: &str, second: &str) -> Option<Job>
    ensures { MatchOption result ((job : Job) → ¬ Asks (word.now ∷ first.now ∷ second.now ∷ []) job) (Asks (word.now ∷ first.now ∷ second.now ∷ [])) }
{
    if let Some(job) = frames_job(word, first, second) {
        return Some(job);
    }
    packets_job(word, first, second)
}

fn packets_job(word: &str, count: &str, size: &str) -> Option<Job>
    ensures { MatchOption result ((n m : ℕ) → ¬ AsksPackets word.now count.now size.now n m) (λ job. (n : ℕ) × (m : ℕ) × (job ≡ Job.Packets n m) × AsksPackets word.now count.now size.now n m) }
{
    if word != "packets" {
        return None;
    }
    let count = read_count(count)?;
    let size = read_count(size)?;
    if size < LEAST_SIZE as u32 || size > MOST_SIZE as u32 {
        return None;
    }
    Some(Job::Packets {
        count,
        size: size as u16,
    })
}

fn frames_job(word: &str, count: &str, times: &str) -> Option<Job>
    ensures { MatchOption result ((n m : ℕ) → ¬ AsksFrames word.now count.now times.now n m) (λ job. (n : ℕ) × (m : ℕ) × (job ≡ Job.Frames n m) × AsksFrames word.now count.now times.now n m) }
{
    if word != "frames" {
        return None;
    }
    let count = read_count(count)?;
    let times = read_count(times)?;
    Some(Job::Frames { count, times })
}

fn keys_job(word: &str, count: &str) -> Option<Job>
    ensures { MatchOption result ((n : ℕ) → ¬ AsksKeys word.now count.now n) (λ job. (n : ℕ) × (job ≡ Job.Keys n) × AsksKeys word.now count.now n) }
{
    if word != "keys" {
        return None;
    }
    let count = read_count(count)?;
    Some(Job::Keys { count })
}

/// The number that a word spells in decimal digits, if it is below 2^32.
fn read_count(word: &str) -> Option<u32>
    ensures { MatchOption result ((n : ℕ) → ¬ IsCount word.now n) (IsCount word.now) }
{
    word.parse::<u32>().ok()
}
