//! Times in the units of the tests.

use qc_base::{Duration, Instant};

/// So many microseconds.
pub fn micros(n: u64) -> Duration {
    Duration::from_nanos(n.saturating_mul(1000))
}

/// The moment so many milliseconds after the clock began.
pub fn at(millis: u64) -> Instant {
    Instant::from_nanos(millis.saturating_mul(1_000_000))
}
