//! Estimates of the round trip time.

use crate::times::micros;
use qc_base::Duration;
use qc_path::RttEstimator;
use std::test::Fail;

// Worked by hand from RFC 9002, sections 5.2, 5.3 and 6.2.1: delay, sample, estimate, probe timeout,
// least sample, in microseconds.
#[test]
fn samples_are_smoothed(rt: HostRuntime) -> Result<(), Fail> {
    let mut rtt = RttEstimator::new(Duration::from_millis(333));
    assert_eq!(rt; rtt.get(), Duration::from_millis(333));
    assert_eq!(rt; rtt.pto_base(), Duration::from_millis(999));
    let rows = [
        (7, 100_000, 100_000, 300_000, 100_000),
        (20_000, 140_000, 102_500, 272_500, 100_000),
        (50_000, 80_000, 99_687, 249_687, 80_000),
    ];
    for (delay, sample, estimate, timeout, least) in rows {
        rtt.update(micros(delay), micros(sample));
        assert_eq!(rt; rtt.get().nanos() / 1000, estimate);
        assert_eq!(rt; rtt.pto_base().nanos() / 1000, timeout);
        assert_eq!(rt; rtt.min(), micros(least));
    }
    assert_eq!(rt; rtt.conservative().nanos(), 99_687_500);
    rtt.update(Duration::ZERO, micros(500_000));
    assert_eq!(rt; rtt.conservative(), micros(500_000));
    Ok(())
}
