//! A random source that gives zeros.

ghost use Rattle.qc_toy.specs.Zeros.{zero_stream};

use rand_core::Rng;

/// A random source whose every word and byte is zero, so that a run is the same each time.
#[derive(Clone, Copy, Debug, PartialEq, Eq)]
pub struct ZeroRandom;

impl Rng for ZeroRandom {
    ghost stream = { λ _. zero_stream };

    #[tactic(auto, unfolding(rand_core::specs::Stream::next_u32))]
    fn next_u32(&mut self) -> u32 {
        0
    }

    #[tactic(auto, unfolding(rand_core::specs::Stream::next_u64))]
    fn next_u64(&mut self) -> u64 {
        0
    }

    #[tactic(auto, unfolding(rand_core::specs::Stream::fill_bytes))]
    fn fill_bytes(&mut self, dst: &mut [u8]) {
        dst.fill(0);
    }
}
