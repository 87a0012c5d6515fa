//! Packets that came, and when they are acknowledged.

use crate::times::at;
use qc_path::{Arrival, Dedup, PendingAcks};
use std::test::Fail;

// A number, and whether it isn't new.
#[test]
fn repeated_numbers_show(rt: HostRuntime) -> Result<(), Fail> {
    let mut seen = Dedup::new();
    let rows = [
        (0, false),
        (0, true),
        (200, false),
        (72, false),
        (71, true),
        (72, true),
        (199, false),
        (199, true),
        (u64::MAX, false),
        (200, true),
        (u64::MAX - 128, false),
        (u64::MAX - 129, true),
        (u64::MAX, true),
    ];
    for (number, old) in rows {
        assert_eq!(rt; seen.insert(number), old);
    }
    Ok(())
}

// After 300 came alone, the window reaches down to 172.
#[test]
fn the_window_ends_128_below_the_greatest(rt: HostRuntime) -> Result<(), Fail> {
    let mut seen = Dedup::new();
    assert!(rt; !seen.insert(300));
    for (number, new) in [(172, true), (171, false), (300, false), (301, true)] {
        assert_eq!(rt; seen.is_new(number), new);
    }
    assert_eq!(rt; seen.greatest(), Some(300));
    Ok(())
}

fn arrival(number: u64, ack_eliciting: bool) -> Arrival {
    Arrival {
        number,
        at: at(number),
        ack_eliciting,
        ce: false,
    }
}

// Packets of the Data space in the order in which they come: number, whether it elicits an ACK,
// whether the timer is set, whether an ACK is owed; after each owed one an ACK is sent.
#[test]
fn acks_are_owed(rt: HostRuntime) -> Result<(), Fail> {
    let mut seen = Dedup::new();
    let mut acks = PendingAcks::new();
    let rows = [
        (0, true, true, false),
        (1, true, false, true),
        (2, false, false, false),
        (3, true, true, false),
        (5, true, false, true),
        (4, true, false, true),
        (6, true, true, false),
        (8, true, false, true),
    ];
    for (number, eliciting, sets, owed) in rows {
        let packet = arrival(number, eliciting);
        assert!(rt; !seen.insert(number));
        assert_eq!(rt; acks.received(true, &seen, &packet), sets);
        assert_eq!(rt; acks.owes(), owed);
        if owed {
            acks.sent();
        }
    }
    assert_eq!(rt; acks.delay(at(16)), 1000);
    assert!(rt; !acks.gives(at(16), None));
    assert!(rt; acks.gives(at(16), Some(at(16))));
    acks.expired();
    assert!(rt; acks.owes());
    acks.acknowledged(8);
    assert!(rt; !acks.owes());
    Ok(())
}

// No number lies above 2^64 - 1.
#[test]
fn the_greatest_number_is_acknowledged(rt: HostRuntime) -> Result<(), Fail> {
    let mut acks = PendingAcks::new();
    let seen = Dedup::new();
    for number in [1, 3, u64::MAX] {
        let _ = acks.received(false, &seen, &arrival(number, true));
    }
    assert_eq!(rt; acks.ranges().len(), 3);
    acks.acknowledged(3);
    assert_eq!(rt; acks.ranges().len(), 1);
    acks.acknowledged(u64::MAX);
    assert!(rt; acks.ranges().contains(u64::MAX));
    Ok(())
}
