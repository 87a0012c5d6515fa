//! The idle timeout as an end announces it (RFC 9000, sections 10.1 and 18.2).

ghost use Rattle.std.specs.Prelude.{◌≡◌, ◌/◌};

use qc_base::{Duration, VarInt};
use std::marker::Model;

/// An idle timeout in whole milliseconds, below 2^62 of them.
#[derive(Clone, Copy, Debug, PartialEq, Eq)]
pub struct IdleTimeout(VarInt);

impl Model for IdleTimeout {
    ghost use Rattle.std.specs.Prelude.{ℕ};

    ghost Value = { ℕ };

    ghost view = { λ timeout. timeout.0 };

    ghost inverse = { λ millis. record { 0 = millis } };
}

/// So many milliseconds.
impl From<VarInt> for IdleTimeout {
    ghost use Rattle.std.specs.Prelude.{◌≡◌};

    ghost from_gives = { λ millis timeout. timeout ≡ millis };

    fn from(value: VarInt) -> IdleTimeout {
        IdleTimeout(value)
    }
}

/// The whole milliseconds of a duration; what is left over is dropped.
impl From<Duration> for IdleTimeout {
    ghost use Rattle.std.specs.Prelude.{◌≡◌, ◌/◌};

    ghost from_gives = { λ nanos timeout. timeout ≡ nanos / 1000000 };

    fn from(value: Duration) -> IdleTimeout {
        IdleTimeout(millis_of(value))
    }
}

/// The milliseconds.
impl From<IdleTimeout> for VarInt {
    ghost use Rattle.std.specs.Prelude.{◌≡◌};

    ghost from_gives = { λ timeout millis. millis ≡ timeout };

    fn from(value: IdleTimeout) -> VarInt {
        value.0
    }
}

fn millis_of(duration: Duration) -> VarInt
    ensures { result ≡ duration / 1000000 }
{
    match VarInt::from_u64(duration.nanos() / 1_000_000) {
        Ok(millis) => millis,
        Err(_) => unreachable!(),
    }
}
