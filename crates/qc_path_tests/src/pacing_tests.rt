//! Packets spread over a round trip.

use crate::times::at;
use qc_base::{Duration, Instant};
use qc_path::{Pacer, PathRate, RttEstimator};
use std::test::Fail;

/// A pace of datagrams of 1200 bytes, at a round trip time of 100 ms.
fn pace(window: u64) -> PathRate {
    PathRate {
        window,
        rtt: Duration::from_millis(100),
        mtu: 1200,
    }
}

#[test]
fn times_stop_at_the_end_of_the_clock(rt: HostRuntime) -> Result<(), Fail> {
    let longest = Duration::from_nanos(u64::MAX);
    let mut rtt = RttEstimator::new(longest);
    rtt.update(longest, longest);
    rtt.update(longest, longest);
    assert_eq!(rt; rtt.pto_base(), longest);
    let rate = PathRate {
        window: u64::MAX,
        rtt: longest,
        mtu: 1200,
    };
    let end = Instant::from_nanos(u64::MAX);
    let mut pacer = Pacer::new(end, &rate);
    pacer.sent(end, &rate, u64::MAX);
    assert_eq!(rt; pacer.delay(end, &rate, 1200), Some(end));
    Ok(())
}

// A window of 12,000 bytes in 100 ms: ten datagrams at once, then 150 bytes a millisecond.
#[test]
fn packets_are_paced(rt: HostRuntime) -> Result<(), Fail> {
    let rate = pace(12_000);
    let mut pacer = Pacer::new(at(0), &rate);
    assert_eq!(rt; pacer.delay(at(0), &rate, 12_000), None);
    pacer.sent(at(0), &rate, 12_000);
    assert_eq!(rt; pacer.delay(at(0), &rate, 1200), Some(at(8)));
    assert_eq!(rt; pacer.delay(at(10), &rate, 1200), None);
    pacer.sent(at(10), &rate, 1200);
    assert_eq!(rt; pacer.delay(at(10), &rate, 1200), Some(at(16)));
    let still = pace(0);
    assert_eq!(rt; pacer.delay(at(10), &still, 1200), None);
    Ok(())
}

/// The end of the delay of 1200 bytes at a time, with a window of 13,200 bytes, where 12,000 were sent at 0 ms and a delay was
/// asked then.
fn delay_of_one_datagram(now: Instant) -> Option<Instant> {
    let rate = pace(13_200);
    let mut pacer = Pacer::new(at(0), &rate);
    pacer.sent(at(0), &rate, 12_000);
    let _ = pacer.delay(at(0), &rate, 1200);
    pacer.delay(now, &rate, 1200)
}

// A window of 13,200 bytes in 100 ms: a bucket that was emptied has 1200 bytes after 1200 * 400 / (13,200 * 5) =
// 7.272727.. ms, so not at 7,272,727 ns, but at 7,272,728.
#[test]
fn bytes_go_at_the_end_of_their_delay(rt: HostRuntime) {
    let end = Instant::from_nanos(7_272_728);
    let sooner = Instant::from_nanos(7_272_727);
    assert_eq!(rt; delay_of_one_datagram(at(0)), Some(end));
    assert!(rt; delay_of_one_datagram(sooner).is_some());
    assert!(rt; delay_of_one_datagram(end).is_none());
}
