//! Payloads of frames, written and read.

ghost use Rattle.std.specs.Prelude.{◌≡◌, ◌*◌, ◌%◌, ◌^◌, ◌<◌, IfOk, length};
ghost use Rattle.qc_bench_run.specs.Mixed.{SpellsFrames, frames_among};
ghost use Rattle.qc_frame.specs.Payload.{items_of};

use crate::samples::{SAMPLES, put_sample};
use crate::weight::weight_of;
use qc_frame::Iter;
use std::alloc::{AllocError, Global};

/// What reading gave.
#[derive(Clone, Copy, Debug, PartialEq, Eq)]
pub struct Tally {
    /// How many frames were read.
    pub frames: u64,
    /// How many bytes they were read from.
    pub bytes: u64,
    /// The sum of the frames' weights, modulo 2^64.
    pub weight: u64,
}

/// A payload of `count` frames: one of each sample, in turn.
#[tactic(auto, using(crate::proofs::MixedLemmas::spells_none, crate::proofs::MixedLemmas::spells_more))]
pub fn mixed_payload(alloc: Global, count: u32) -> Result<Vec<u8>, AllocError>
    ensures { IfOk result (λ payload. SpellsFrames count payload.items) }
{
    let mut payload = Vec::new(alloc);
    for i in 0..count {
        put_sample(&mut payload, i % SAMPLES)?;
    }
    Ok(payload)
}

/// Reads the frames of a payload once.
#[tactic(auto, using(crate::proofs::MixedLemmas::few_frames))]
pub fn read_once(payload: &[u8]) -> Tally
    ensures frames { result.frames ≡ frames_among (items_of payload.now) }
    ensures bytes { result.bytes ≡ length payload.now }
{
    let mut frames = 0;
    let mut weight = 0u64;
    if let Ok(items) = Iter::new(payload) {
        for item in items {
            match item {
                Ok(read) => {
                    frames += 1;
                    weight = weight.wrapping_add(weight_of(&read.frame));
                }
                Err(_) => {}
            }
        }
    }
    Tally {
        frames,
        bytes: payload.len() as u64,
        weight,
    }
}

/// Writes a payload of `count` frames, and reads it `times` times.
#[tactic(auto, using(crate::proofs::MixedLemmas::frames_spelled, crate::proofs::MixedLemmas::product_fits))]
pub fn read_frames(alloc: Global, count: u32, times: u32) -> Result<Tally, AllocError>
    ensures { IfOk result (λ tally. tally.frames ≡ times * count) }
{
    let payload = mixed_payload(alloc, count)?;
    let mut frames = 0;
    let mut bytes = 0u64;
    let mut weight = 0u64;
    for i in 0..times {
        let tally = read_once(payload.as_slice());
        frames += tally.frames;
        bytes = bytes.wrapping_add(tally.bytes);
        weight = weight.wrapping_add(tally.weight);
    }
    Ok(Tally {
        frames,
        bytes,
        weight,
    })
}
