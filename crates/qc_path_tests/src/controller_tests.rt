//! NewReno's window.

use crate::times::at;
use qc_base::Duration;
use qc_path::{Controller, ControllerFactory, NewReno, NewRenoConfig, RttEstimator};
use std::default::Default;
use std::test::Fail;

/// NewReno as it begins by default, with datagrams of 1200 bytes.
fn default_reno() -> NewReno {
    NewRenoConfig::default().build(at(0), 1200)
}

// Worked by hand from RFC 9002, section 7: an acknowledgement of 1200 bytes sent at a time, the window
// afterwards.
#[test]
fn the_window_follows_new_reno(rt: HostRuntime) -> Result<(), Fail> {
    let rtt = RttEstimator::new(Duration::from_millis(333));
    let mut reno = default_reno();
    reno.on_sent(at(0), 1200, 0);
    reno.on_ack(at(30), at(10), 1200, true, &rtt);
    assert_eq!(rt; reno.window(), 12_000);
    reno.on_ack(at(30), at(10), 1200, false, &rtt);
    assert_eq!(rt; reno.window(), 13_200);
    reno.on_congestion_event(at(50), at(20), false, 1200);
    assert_eq!(rt; reno.window(), 6_600);
    reno.on_congestion_event(at(51), at(50), false, 1200);
    let rows = [
        (50, 6_600),
        (60, 6_600),
        (61, 6_600),
        (62, 6_600),
        (63, 6_600),
        (64, 6_600),
        (65, 7_800),
    ];
    for (sent, window) in rows {
        reno.on_ack(at(70), at(sent), 1200, false, &rtt);
        reno.on_end_acks(at(70), 0, false, Some(1));
        assert_eq!(rt; reno.window(), window);
    }
    reno.on_congestion_event(at(80), at(71), true, 1200);
    let rows = [
        (81, 3_600),
        (82, 4_800),
        (83, 4_800),
        (84, 4_800),
        (85, 4_800),
        (86, 6_000),
    ];
    assert_eq!(rt; reno.window(), 2_400);
    for (sent, window) in rows {
        reno.on_ack(at(90), at(sent), 1200, false, &rtt);
        assert_eq!(rt; reno.window(), window);
    }
    reno.on_mtu_update(4000);
    assert_eq!(rt; reno.copy().window(), 8_000);
    Ok(())
}
