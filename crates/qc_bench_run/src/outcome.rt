//! What the program prints, and the status that it ends with.

ghost use Rattle.std.specs.Prelude.{◌≡◌, Some};
ghost use Rattle.qc_bench_run.specs.Results.{status_of, outcome_text};

use crate::frames::Tally;
use crate::keys::Opened;
use std::fmt;

/// How a run of the program ends.
#[derive(Clone, Copy, Debug, PartialEq, Eq)]
pub enum Outcome {
    /// Frames were read.
    Read(Tally),
    /// Packets were sealed and opened, by their keys alone or whole.
    Sealed(Opened),
    /// The words are none that the program knows.
    Usage,
    /// There was no memory.
    NoMemory,
}

impl Outcome {
    /// The exit status: 0 where the work was done, 2 after other words, 6 without memory.
    pub fn status(&self) -> u8
        ensures { result ≡ status_of self.now }
    {
        match self {
            Outcome::Read(_) | Outcome::Sealed(_) => 0,
            Outcome::Usage => 2,
            Outcome::NoMemory => 6,
        }
    }
}

impl fmt::Display for Outcome {
    ghost output = { λ outcome. Some (outcome_text outcome) };

    fn fmt<W: fmt::Write>(&self, f: &mut fmt::Formatter<W>) -> fmt::Result {
        match self {
            Outcome::Read(tally) => {
                let Tally {
                    frames,
                    bytes,
                    weight,
                } = tally;
                write!(f, "frames {frames}\nbytes {bytes}\nweight {weight}\n")
            }
            Outcome::Sealed(opened) => {
                let Opened { packets, sum } = opened;
                write!(f, "packets {packets}\nsum {sum}\n")
            }
            Outcome::Usage => {
                write!(
                    f,
                    "usage: qc_bench frames COUNT TIMES | qc_bench keys COUNT | qc_bench packets COUNT SIZE\n"
                )
            }
            Outcome::NoMemory => write!(f, "no memory\n"),
        }
    }
}
