//! Which of a connection's nine timers is told.

use qc_base::{Duration, Instant};
use qc_state::Timers;
use std::test::Fail;

/// Whether the earliest timer stands at this nanosecond.
fn tells(timers: &Timers, nanos: u64) -> bool {
    timers.next() == Some(Instant::from_nanos(nanos))
}

// Each timer in its turn is set before those that are set already, the last one before all others.
#[test]
fn the_earliest_timer_is_told(rt: HostRuntime) -> Result<(), Fail> {
    let mut timers = Timers::new(Instant::from_nanos(0));
    assert!(rt; timers.next().is_none());
    timers.max_ack_delay = Some(Instant::from_nanos(u64::MAX));
    assert!(rt; tells(&timers, u64::MAX));
    timers.push_new_cid = Some(Instant::from_nanos(8));
    assert!(rt; tells(&timers, 8));
    timers.pacing = Some(Instant::from_nanos(7));
    assert!(rt; tells(&timers, 7));
    timers.keep_alive = Some(Instant::from_nanos(6));
    assert!(rt; tells(&timers, 6));
    timers.path_validation = Some(Instant::from_nanos(5));
    assert!(rt; tells(&timers, 5));
    timers.key_discard = Some(Instant::from_nanos(4));
    assert!(rt; tells(&timers, 4));
    timers.close = Some(Instant::from_nanos(3));
    assert!(rt; tells(&timers, 3));
    timers.idle = Some(Instant::from_nanos(2));
    assert!(rt; tells(&timers, 2));
    timers.loss_detection = Some(Instant::from_nanos(1));
    assert!(rt; tells(&timers, 1));
    timers.closing(Duration::from_nanos(100), Instant::from_nanos(9));
    assert!(rt; tells(&timers, 309));
    timers.key_discard = Some(Instant::from_nanos(10));
    timers.stop();
    assert!(rt; timers.next().is_none());
    Ok(())
}
