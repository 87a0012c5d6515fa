//! Two rings with toy keys.

use qc_base::Side;
use qc_packet::{PairOutcome, RingEvent, ring_pair};
use qc_toy::{ToyKeys, ToyPacketKey};
use std::test::Fail;

const C: Side = Side::Client;

const S: Side = Side::Server;

// Both ends update once at the most, late packets and repeated ones come between, and previous keys are
// dropped; worked out by hand.
#[test]
fn two_rings_update(rt: HostRuntime) -> Result<(), Fail> {
    let events = [
        RingEvent::Seal { from: C },
        RingEvent::Deliver { from: C, index: 0 },
        RingEvent::Update { from: C },
        RingEvent::Seal { from: S },
        RingEvent::Deliver { from: S, index: 0 },
        RingEvent::Update { from: C },
        RingEvent::Seal { from: C },
        RingEvent::Deliver { from: C, index: 1 },
        RingEvent::Deliver { from: C, index: 0 },
        RingEvent::Discard { at: C },
        RingEvent::Seal { from: S },
        RingEvent::Deliver { from: S, index: 1 },
        RingEvent::Deliver { from: S, index: 0 },
        RingEvent::Discard { at: C },
        RingEvent::Deliver { from: S, index: 0 },
        RingEvent::Update { from: S },
        RingEvent::Discard { at: S },
        RingEvent::Update { from: S },
        RingEvent::Deliver { from: C, index: 5 },
    ];
    let outcomes = [
        PairOutcome::Sealed {
            number: 0,
            epoch: 0,
        },
        PairOutcome::Opened,
        PairOutcome::Nothing,
        PairOutcome::Sealed {
            number: 0,
            epoch: 0,
        },
        PairOutcome::Opened,
        PairOutcome::Updated { epoch: 1 },
        PairOutcome::Sealed {
            number: 1,
            epoch: 1,
        },
        PairOutcome::Opened,
        PairOutcome::Opened,
        PairOutcome::Nothing,
        PairOutcome::Sealed {
            number: 1,
            epoch: 1,
        },
        PairOutcome::Opened,
        PairOutcome::Opened,
        PairOutcome::Discarded,
        PairOutcome::Old,
        PairOutcome::Nothing,
        PairOutcome::Discarded,
        PairOutcome::Nothing,
        PairOutcome::Nothing,
    ];
    let keys = ToyKeys { secret: [0; 5] };
    let log = ring_pair::<ToyPacketKey, ToyKeys>(rt.alloc(), &keys, &events)?;
    assert_eq!(rt; log.outcomes(), outcomes.as_slice());
    Ok(())
}
