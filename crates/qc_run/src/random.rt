//! Where the random words of a script's connection come from.

ghost use Rattle.std.specs.Prelude.{◌≡◌};
ghost use Rattle.qc_run.specs.Words.{words_named, words_of};

use qc_script::RandomWords;
use qc_toy::ZeroRandom;
use rand_chacha::ChaCha20Rng;
use rand_core::{Rng, SeedableRng};

/// A source of random words.
#[derive(Drop)]
pub enum ScriptRandom {
    /// One that gives zeros.
    Zeros(ZeroRandom),
    /// One that gives the words of ChaCha20.
    ChaCha20(ChaCha20Rng),
}

impl Rng for ScriptRandom {
    ghost use Rattle.qc_run.specs.Words.{words_of};

    ghost stream = { words_of };

    fn next_u32(&mut self) -> u32 {
        match self {
            ScriptRandom::Zeros(zeros) => zeros.next_u32(),
            ScriptRandom::ChaCha20(words) => words.next_u32(),
        }
    }

    fn next_u64(&mut self) -> u64 {
        match self {
            ScriptRandom::Zeros(zeros) => zeros.next_u64(),
            ScriptRandom::ChaCha20(words) => words.next_u64(),
        }
    }

    fn fill_bytes(&mut self, dst: &mut [u8]) {
        match self {
            ScriptRandom::Zeros(zeros) => zeros.fill_bytes(dst),
            ScriptRandom::ChaCha20(words) => words.fill_bytes(dst),
        }
    }
}

/// The source that a line names, or zeros where there is no line.
pub fn random_of(named: Option<RandomWords>) -> ScriptRandom
    ensures { words_of result ≡ words_named named }
{
    match named {
        Some(RandomWords::Seed(seed)) => ScriptRandom::ChaCha20(ChaCha20Rng::from_seed(seed)),
        Some(RandomWords::Zeros) | None => ScriptRandom::Zeros(ZeroRandom),
    }
}
