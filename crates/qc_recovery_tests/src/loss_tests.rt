//! Packets that are lost, by number, by age and for long. What is expected was worked by hand from
//! RFC 9002, sections 6.1 and 7.6.

use crate::sender::{Deed, Sender, around, at};
use qc_base::{Duration, Instant};
use std::alloc::Global;
use std::test::Fail;

// RFC 9002, section 6.1: of five packets sent at once the last one is acknowledged after 100 ms. Those
// three numbers below it are lost; the others are after 9/8 of that time.
#[test]
fn packets_are_lost_by_number_and_by_age(rt: HostRuntime) -> Result<(), Fail> {
    let alloc = rt.alloc();
    let mut sender = Sender::new(alloc);
    for number in 0..5 {
        sender.send(alloc, number, at(0))?;
    }
    assert_eq!(rt; sender.recovery.in_flight(), 6000);
    assert_eq!(rt; sender.arm(at(0), &around()), Some(at(1024)));
    assert_eq!(rt; sender.acknowledge(alloc, at(100), &[4], None)?, (1, 2));
    assert_eq!(rt; sender.path.rtt.get(), Duration::from_millis(100));
    assert_eq!(rt; sender.window(), 6600);
    assert_eq!(rt; sender.recovery.in_flight(), 2400);
    let due = Instant::from_nanos(112_500_000);
    assert_eq!(rt; sender.arm(at(100), &around()), Some(due));
    assert_eq!(rt; sender.fire(due, &around())?, Deed::Lost(2, 2));
    assert_eq!(rt; sender.window(), 6600);
    assert_eq!(rt; sender.recovery.in_flight(), 0);
    assert_eq!(rt; sender.arm(due, &around()), None);
    Ok(())
}

// The window that is left where packets 2 to 4 are lost by the ACK of 5, at a probe timeout of 275 ms,
// and number 4 was sent at some time. Number 2 was sent at 300 ms.
fn window_after(alloc: Global, last: u64) -> Result<u64, Fail> {
    let mut sender = Sender::new(alloc);
    sender.send(alloc, 0, at(0))?;
    sender.acknowledge(alloc, at(100), &[0], None)?;
    for (number, time) in [(1, 200), (2, 300), (3, 700), (4, last), (5, 1300)] {
        sender.send(alloc, number, at(time))?;
    }
    let settled = sender.acknowledge(alloc, at(1400), &[5], None)?;
    if settled.1 != 4 {
        return Err(Fail::from("four are lost"));
    }
    Ok(sender.window())
}

// RFC 9002, section 7.6, by hand: when 4 was sent, and the window afterwards.
#[test]
fn losses_for_long_are_persistent(rt: HostRuntime) -> Result<(), Fail> {
    for (last, window) in [(1280, 2400), (1126, 2400), (1125, 7200)] {
        assert_eq!(rt; window_after(rt.alloc(), last)?, window);
    }
    Ok(())
}

#[test]
fn a_lost_probe_counts_for_the_search_alone(rt: HostRuntime) -> Result<(), Fail> {
    let alloc = rt.alloc();
    let mut sender = Sender::new(alloc);
    sender.send(alloc, 0, at(0))?;
    assert_eq!(rt; sender.path.mtud.probe_due(at(0)), Some(1326));
    sender.path.mtud.probe_sent(at(0), 0);
    for number in 1..4 {
        sender.send(alloc, number, at(0))?;
    }
    assert_eq!(rt; sender.acknowledge(alloc, at(100), &[3], None)?, (1, 1));
    assert_eq!(rt; sender.window(), 13_200);
    assert_eq!(rt; sender.path.mtud.probe_due(at(100)), Some(1326));
    sender.path.mtud.probe_sent(at(100), 4);
    sender.send(alloc, 4, at(100))?;
    sender.acknowledge(alloc, at(200), &[4], None)?;
    assert_eq!(rt; sender.path.mtud.current_mtu(), 1326);
    Ok(())
}
