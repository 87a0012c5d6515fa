//! Marks in their order, sets, and turns by rank and number.

use qc_turns::{Ids, Marks, Ready};
use std::test::Fail;

#[test]
fn marks_stand_in_their_order(rt: HostRuntime) -> Result<(), Fail> {
    let mut marks = Marks::new(rt.alloc());
    // no place, no mark
    marks.mark(4);
    assert!(rt; marks.first().is_none());
    marks.add_place()?;
    marks.add_place()?;
    marks.mark(8);
    marks.mark(4);
    marks.mark(12);
    assert!(rt; marks.first() == Some(8));
    marks.unmark();
    assert!(rt; marks.first() == Some(4));
    marks.unmark();
    assert!(rt; marks.first().is_none());
    // two places again, one of which is given up
    marks.drop_place();
    marks.mark(16);
    marks.mark(20);
    marks.unmark();
    assert!(rt; marks.first().is_none());
    Ok(())
}

#[test]
fn the_least_is_first(rt: HostRuntime) -> Result<(), Fail> {
    let mut ids = Ids::new(rt.alloc());
    ids.insert(8)?;
    ids.insert(4)?;
    ids.insert(12)?;
    assert!(rt; ids.first() == Some(4));
    ids.remove(4);
    assert!(rt; ids.first() == Some(8));
    Ok(())
}

#[test]
fn the_highest_priority_is_first(rt: HostRuntime) -> Result<(), Fail> {
    // the higher priority, which is the lower rank, comes first; then the earlier turn
    let mut ready = Ready::new(rt.alloc());
    ready.insert((0, 1), 4)?;
    ready.insert((0, 2), 8)?;
    ready.insert((-1, 3), 12)?;
    assert!(rt; ready.first() == Some(12));
    ready.remove((-1, 3));
    assert!(rt; ready.first() == Some(4));
    Ok(())
}
