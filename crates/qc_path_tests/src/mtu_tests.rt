//! The search for a larger datagram, and black holes.

use crate::times::at;
use qc_base::Duration;
use qc_path::{MtuDiscovery, SearchSettings};
use std::test::Fail;

fn settings() -> SearchSettings {
    SearchSettings {
        interval: Duration::from_secs(600),
        upper_bound: 1452,
        black_hole_cooldown: Duration::from_secs(60),
        minimum_change: 20,
    }
}

/// A search from 1200 bytes to 1452, at which the peer takes any size.
fn search() -> MtuDiscovery {
    let mut mtu = MtuDiscovery::new(1200, 1200, None, Some(settings()));
    mtu.peer_takes(65527);
    mtu
}

// Sizes by hand: the middle of 1200 and 1452 rounded down, and so on; true: the probe passes, false: it is lost three times.
// The lower end of the last search is 1372, and half of what is left up to 1452 is 40.
#[test]
fn a_larger_datagram_is_searched(rt: HostRuntime) -> Result<(), Fail> {
    let mut mtu = search();
    let rows = [(1326, true), (1389, false), (1357, true), (1372, true)];
    let mut number = 0;
    for (size, passes) in rows {
        for _ in 0..3 {
            assert_eq!(rt; mtu.probe_due(at(0)), Some(size));
            mtu.probe_sent(at(0), number);
            assert_eq!(rt; mtu.probe_due(at(0)), None);
            assert!(rt; mtu.is_probe(number));
            if passes {
                mtu.on_acked(at(0), number, u64::from(size));
                break;
            }
            mtu.on_probe_lost(at(0));
        }
        number = 1;
    }
    assert_eq!(rt; mtu.current_mtu(), 1372);
    assert_eq!(rt; mtu.probe_due(at(599_999)), None);
    assert_eq!(rt; mtu.probe_due(at(600_000)), Some(1412));
    Ok(())
}

// From 1200 to 1452 by halves that are rounded down: 126, 63, 31 and 16. Then 16 bytes are left, fewer than 20, and the search
// ends with that acknowledgement, from where its interval counts.
#[test]
fn a_search_ends_with_an_acknowledgement(rt: HostRuntime) -> Result<(), Fail> {
    let mut mtu = search();
    for (millis, size) in [(0, 1326), (1, 1389), (2, 1420), (3, 1436)] {
        assert_eq!(rt; mtu.probe_due(at(millis)), Some(size));
        mtu.probe_sent(at(millis), millis);
        mtu.on_acked(at(millis), millis, u64::from(size));
        assert_eq!(rt; mtu.current_mtu(), size);
    }
    assert_eq!(rt; mtu.probe_due(at(600_002)), None);
    assert_eq!(rt; mtu.probe_due(at(600_003)), None);
    Ok(())
}

// Between 1200 and 1201 the middle, rounded down, is 1200, and the next size up is tried.
#[test]
fn a_probe_is_above_the_lower_end(rt: HostRuntime) -> Result<(), Fail> {
    let each = SearchSettings {
        interval: Duration::from_secs(600),
        upper_bound: 1201,
        black_hole_cooldown: Duration::from_secs(60),
        minimum_change: 0,
    };
    let mut mtu = MtuDiscovery::new(1200, 1200, None, Some(each));
    assert_eq!(rt; mtu.probe_due(at(0)), Some(1201));
    mtu.probe_sent(at(0), 0);
    mtu.on_acked(at(0), 0, 1201);
    assert_eq!(rt; mtu.probe_due(at(600_000)), None);
    Ok(())
}

// A black hole on a path whose peer takes less than the least size.
#[test]
fn a_black_hole_leaves_what_the_peer_takes(rt: HostRuntime) -> Result<(), Fail> {
    let mut mtu = MtuDiscovery::new(1400, 1300, Some(1250), Some(settings()));
    assert_eq!(rt; mtu.current_mtu(), 1250);
    for last in 0..4 {
        mtu.on_burst_lost(at(0), 1350, last);
    }
    assert_eq!(rt; mtu.current_mtu(), 1250);
    Ok(())
}

/// A path with datagrams of 1400 bytes.
fn path_of_1400() -> MtuDiscovery {
    MtuDiscovery::new(1400, 1200, Some(1452), Some(settings()))
}

// Bursts that end with numbers 10, 20, .. and whose smallest packet has 1300 bytes. One with a packet of the least size, 1200,
// doesn't count. Number 5 was sent before each of them, number 45 is smaller than their packets, and 15 was sent after the first
// alone. So the ones up to 40 count but for the first, and the one up to 50 is the fourth.
#[test]
fn four_bursts_in_a_row_show_a_black_hole(rt: HostRuntime) -> Result<(), Fail> {
    let mut mtu = path_of_1400();
    for (smallest, last) in [(1300, 10), (1300, 20), (1300, 30), (1200, 35)] {
        mtu.on_burst_lost(at(0), smallest, last);
    }
    for (number, size) in [(5, 1400), (45, 1299), (15, 1300)] {
        mtu.on_acked(at(0), number, size);
    }
    mtu.on_burst_lost(at(0), 1300, 40);
    assert_eq!(rt; mtu.current_mtu(), 1400);
    mtu.on_burst_lost(at(1), 1300, 50);
    assert_eq!(rt; mtu.current_mtu(), 1200);
    assert_eq!(rt; mtu.probe_due(at(60_000)), None);
    assert_eq!(rt; mtu.probe_due(at(60_001)), Some(1326));
    mtu.forget_probe();
    Ok(())
}

// Number 100 with 1350 bytes arrived: bursts of packets that are no larger and were sent before it show no black hole. Four of
// larger packets do, and so do four behind it.
#[test]
fn an_acknowledgement_clears_bursts_before_it(rt: HostRuntime) -> Result<(), Fail> {
    for (smallest, first, size) in [(1350, 10, 1400), (1351, 10, 1200), (1350, 100, 1200)] {
        let mut mtu = path_of_1400();
        mtu.on_acked(at(0), 100, 1350);
        for more in 0..4 {
            mtu.on_burst_lost(at(0), smallest, first + more);
        }
        assert_eq!(rt; mtu.current_mtu(), size);
    }
    Ok(())
}

// A probe that passes takes three bursts away; three more leave the size, and the fourth doesn't.
#[test]
fn a_probe_clears_all_bursts(rt: HostRuntime) -> Result<(), Fail> {
    let mut mtu = search();
    for _ in 0..3 {
        mtu.on_burst_lost(at(0), 1300, 10);
    }
    mtu.probe_sent(at(0), 5);
    mtu.on_acked(at(0), 5, 1326);
    for _ in 0..3 {
        mtu.on_burst_lost(at(0), 1300, 20);
    }
    assert_eq!(rt; mtu.current_mtu(), 1326);
    mtu.on_burst_lost(at(0), 1300, 30);
    assert_eq!(rt; mtu.current_mtu(), 1200);
    Ok(())
}

/// The probe of a path that takes another one's place.
fn probe_of_copy(mtu: &MtuDiscovery) -> Option<(u64, u16)> {
    mtu.copy().probe()
}

/// The size of a path that begins anew, and its probe.
fn begun_anew(mtu: &MtuDiscovery, initial: u16) -> (u16, Option<(u64, u16)>) {
    let renewed = mtu.renewed(initial);
    (renewed.current_mtu(), renewed.probe())
}

// A path that takes another one's place has its probe; one that begins anew has none, and its size is 1300 bytes.
#[test]
fn a_path_goes_on_or_begins_anew(rt: HostRuntime) {
    let mut mtu = search();
    mtu.probe_sent(at(0), 7);
    assert_eq!(rt; probe_of_copy(&mtu), Some((7, 1326)));
    assert_eq!(rt; begun_anew(&mtu, 1300), (1300, None));
}
