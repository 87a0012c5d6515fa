//! The loss timer, and the probes that it makes due. What is expected was worked by hand from RFC 9002,
//! section 6.2.

use crate::sender::{Deed, Sender, around, at};
use qc_base::{Duration, Instant, SpaceId};
use qc_recovery::Around;
use std::test::Fail;

// RFC 9002, section 6.2: a probe timeout of 999 ms, and 25 ms more in Data, doubles with each firing.
#[test]
fn probes_double(rt: HostRuntime) -> Result<(), Fail> {
    let alloc = rt.alloc();
    let mut sender = Sender::new(alloc);
    sender.send(alloc, 0, at(10))?;
    for due in [1034, 2058, 4106, 8202] {
        assert_eq!(rt; sender.arm(at(10), &around()), Some(at(due)));
        assert_eq!(rt;
            sender.fire(at(due), &around())?,
            Deed::Probe(SpaceId::Data, 2)
        );
    }
    let early = Around {
        handshake_over: false,
        ..around()
    };
    assert_eq!(rt; sender.arm(at(10), &early), None);
    Ok(())
}

#[test]
fn an_ack_ends_the_doubling(rt: HostRuntime) -> Result<(), Fail> {
    let alloc = rt.alloc();
    let mut sender = Sender::new(alloc);
    sender.send(alloc, 0, at(10))?;
    sender.fire(at(1034), &around())?;
    sender.acknowledge(alloc, at(110), &[0], None)?;
    sender.send(alloc, 1, at(200))?;
    assert_eq!(rt; sender.arm(at(200), &around()), Some(at(525)));
    assert_eq!(rt;
        sender
            .recovery
            .pto(SpaceId::Initial, &around(), &sender.path.rtt),
        Duration::from_millis(300)
    );
    assert_eq!(rt; sender.recovery.oldest(SpaceId::Data).is_some(), true);
    assert_eq!(rt;
        sender
            .recovery
            .discard(SpaceId::Data, &mut sender.path)
            .len(),
        1
    );
    assert_eq!(rt; sender.arm(at(200), &around()), None);
    Ok(())
}

// RFC 9002, section 6.2.2.1: a client that has nothing in flight probes until its address is validated.
#[test]
fn an_end_that_may_be_blocked_is_probed(rt: HostRuntime) -> Result<(), Fail> {
    let mut sender = Sender::new(rt.alloc());
    let client = Around {
        peer_validated: false,
        handshake_over: false,
        highest: SpaceId::Initial,
        initial_keys: true,
        ..around()
    };
    assert_eq!(rt; sender.arm(at(5), &client), Some(at(1004)));
    assert_eq!(rt;
        sender.fire(at(1004), &client)?,
        Deed::Probe(SpaceId::Initial, 1)
    );
    assert_eq!(rt; sender.arm(at(5), &client), Some(at(2003)));
    let blocked = Around {
        blocked: true,
        ..client
    };
    assert_eq!(rt; sender.arm(at(5), &blocked), None);
    let without_keys = Around {
        highest: SpaceId::Handshake,
        ..client
    };
    assert_eq!(rt; sender.arm(at(5), &without_keys), None);
    Ok(())
}

#[test]
fn the_clock_may_end(rt: HostRuntime) -> Result<(), Fail> {
    let alloc = rt.alloc();
    let end = Instant::from_nanos(u64::MAX);
    let mut sender = Sender::new(alloc);
    for number in 0..4 {
        sender.send(alloc, number, end)?;
    }
    assert_eq!(rt; sender.arm(end, &around()), Some(end));
    assert_eq!(rt; sender.acknowledge(alloc, end, &[3], None)?, (1, 1));
    assert_eq!(rt; sender.arm(end, &around()), Some(end));
    Ok(())
}

// Sums of times stop at the end of the clock. On a clock that went back a round trip took no time at all,
// so that a probe is due after the least time of 1 ms, and the 25 ms of the peer.
#[test]
fn the_clock_ends_and_goes_back(rt: HostRuntime) -> Result<(), Fail> {
    let alloc = rt.alloc();
    let end = Instant::from_nanos(u64::MAX);
    let mut sender = Sender::new(alloc);
    sender.send(alloc, 0, end)?;
    for _ in 0..20 {
        assert_eq!(rt; sender.arm(end, &around()), Some(end));
        assert_eq!(rt; sender.fire(end, &around())?, Deed::Probe(SpaceId::Data, 2));
    }
    assert_eq!(rt; sender.acknowledge(alloc, at(0), &[0], None)?, (1, 0));
    assert_eq!(rt; sender.recovery.in_flight(), 0);
    assert_eq!(rt; sender.path.rtt.get(), Duration::ZERO);
    assert_eq!(rt;
        sender
            .recovery
            .pto(SpaceId::Data, &around(), &sender.path.rtt),
        Duration::from_millis(26)
    );
    sender.send(alloc, 1, at(0))?;
    assert_eq!(rt; sender.arm(end, &around()), Some(at(26)));
    Ok(())
}
