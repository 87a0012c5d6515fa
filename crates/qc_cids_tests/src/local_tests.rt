//! The ids of this end: how many are asked for, given, told and retired.

use crate::setups::{id, ids, issued, token};
use qc_base::{Instant, IssuedCid};
use qc_cids::GiveRefusal;
use qc_frame::NewConnectionId;
use std::test::Fail;

// Row by row: what is given, and why it may not be, while two are asked for and 1 is the next number.
#[test]
fn ids_are_given_as_they_are_asked_for(rt: HostRuntime) -> Result<(), Fail> {
    let mut ids = ids(rt.alloc());
    ids.ask(2);
    assert_eq!(rt; ids.may_give(), 2);
    let refusal = ids.give_refusal(&[issued(1), issued(2), issued(3)]);
    assert_eq!(rt; refusal, Some(GiveRefusal::NotAsked { asked: 2, given: 3 }));
    let refusal = ids.give_refusal(&[issued(1), issued(3)]);
    assert_eq!(rt;
        refusal,
        Some(GiveRefusal::Sequence {
            wanted: 2,
            given: 3
        })
    );
    let short = IssuedCid {
        sequence: 1,
        id: qc_base::ConnectionId::new(&[1; 7]),
        reset_token: token(1),
    };
    let refusal = ids.give_refusal(&[short]);
    assert_eq!(rt;
        refusal,
        Some(GiveRefusal::IdLength {
            wanted: 8,
            given: 7
        })
    );
    let given = [issued(1), issued(2)];
    if ids.give_refusal(&given).is_none() {
        ids.give(&given, Instant::from_nanos(7))?;
    }
    assert_eq!(rt; ids.asked, 0);
    assert_eq!(rt; ids.local.issued(), 3);
    assert_eq!(rt; ids.unsent.len(), 2);
    Ok(())
}

// The frame that tells the id of 1, where the one of 0 is to be retired.
fn first_frame() -> NewConnectionId {
    NewConnectionId {
        sequence: 1,
        retire_prior_to: 1,
        id: id(1),
        reset_token: token(1),
    }
}

#[test]
fn ids_are_told_and_retired(rt: HostRuntime) -> Result<(), Fail> {
    let mut ids = ids(rt.alloc());
    assert_eq!(rt; ids.next_told(), None);
    ids.ask(2);
    let given = [issued(1), issued(2)];
    if ids.give_refusal(&given).is_none() {
        ids.give(&given, Instant::from_nanos(7))?;
    }
    // the id of the handshake grows old at 5 + 10
    assert_eq!(rt; ids.next_timeout(), Some(Instant::from_nanos(15)));
    assert_eq!(rt; ids.expire(), 1);
    assert_eq!(rt; ids.next_told(), Some(first_frame()));
    ids.told(1);
    ids.told(2);
    assert_eq!(rt; ids.next_told(), None);
    ids.tell_lost(issued(1))?;
    assert_eq!(rt; ids.next_told(), Some(first_frame()));
    // three are active: 0 goes, so two are, fewer than three
    assert_eq!(rt; ids.retire_came(2, 0).unwrap_or(true), false);
    assert_eq!(rt; ids.retire_came(3, 0).unwrap_or(false), true);
    assert_eq!(rt; ids.asked, 1);
    match ids.retire_came(3, 3) {
        Ok(_) => assert!(rt; false),
        Err(error) => assert_eq!(rt; error.code.into_inner(), 10),
    }
    Ok(())
}
