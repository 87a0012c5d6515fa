//! The peer's ids, and the numbers that it is to be told of as retired.

use crate::setups::{frame, id, ids, ids_without_remote, token};
use qc_cids::NewTaken;
use std::test::Fail;

// The code of what refuses a frame; 0 where nothing does.
fn code_of(taken: &NewTaken) -> u64 {
    match taken.refused {
        Some(error) => error.code.into_inner(),
        None => 0,
    }
}

#[test]
fn frames_are_taken_and_retire(rt: HostRuntime) -> Result<(), Fail> {
    let mut ids = ids(rt.alloc());
    assert!(rt; ids.uses_first());
    ids.rename(id(40));
    assert_eq!(rt; ids.remote.active(), id(40));
    // kept: 0, 1
    let taken = ids.new_came(frame(1, 0))?;
    assert_eq!(rt; code_of(&taken), 0);
    assert_eq!(rt; taken.token, None);
    assert_eq!(rt; ids.next_retired(), None);
    // a sixth id beside 0: the limit
    let taken = ids.new_came(frame(5, 0))?;
    assert_eq!(rt; code_of(&taken), 9);
    // 0 and 1 are retired; 3 comes into use
    let taken = ids.new_came(frame(3, 2))?;
    assert_eq!(rt; code_of(&taken), 0);
    assert_eq!(rt; taken.token, Some(token(3)));
    assert_eq!(rt; ids.remote.active_seq(), 3);
    assert!(rt; !ids.uses_first());
    // below the id in use: retired at once
    let taken = ids.new_came(frame(1, 0))?;
    assert_eq!(rt; code_of(&taken), 0);
    assert_eq!(rt; taken.token, None);
    for expected in [0, 1, 1, 2] {
        assert_eq!(rt; ids.next_retired(), Some(expected));
        ids.retirement_told(expected);
    }
    assert_eq!(rt; ids.next_retired(), None);
    ids.retire_lost(1)?;
    assert_eq!(rt; ids.next_retired(), Some(1));
    assert!(rt; !ids.retires_too_many());
    Ok(())
}

#[test]
fn the_next_id_is_taken_into_use(rt: HostRuntime) -> Result<(), Fail> {
    let mut ids = ids(rt.alloc());
    assert_eq!(rt; ids.switch()?, None);
    ids.prefer(id(1), token(1));
    assert_eq!(rt; ids.switch()?, Some(token(1)));
    assert_eq!(rt; ids.remote.active(), id(1));
    assert_eq!(rt; ids.next_retired(), Some(0));
    Ok(())
}

#[test]
fn no_other_id_stands_beside_an_empty_one(rt: HostRuntime) -> Result<(), Fail> {
    let mut ids = ids_without_remote(rt.alloc());
    let taken = ids.new_came(frame(1, 0))?;
    assert_eq!(rt; code_of(&taken), 10);
    assert_eq!(rt; taken.token, None);
    assert_eq!(rt; ids.remote.active_seq(), 0);
    Ok(())
}

#[test]
fn too_many_retirements_are_seen(rt: HostRuntime) -> Result<(), Fail> {
    let mut ids = ids(rt.alloc());
    for _ in 0..256 {
        ids.retire_lost(7)?;
    }
    assert!(rt; !ids.retires_too_many());
    ids.retire_lost(7)?;
    assert!(rt; ids.retires_too_many());
    Ok(())
}
