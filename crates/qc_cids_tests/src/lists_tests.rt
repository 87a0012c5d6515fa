//! What waits, by ascending number.

use crate::setups::issued;
use qc_cids::{IssuedList, NumberList};
use std::test::Fail;

#[test]
fn numbers_wait_as_often_as_they_are_named(rt: HostRuntime) -> Result<(), Fail> {
    let mut numbers = NumberList::new(rt.alloc());
    assert_eq!(rt; numbers.first(), None);
    for number in [5, 2, 9, 5] {
        numbers.insert(number)?;
    }
    assert_eq!(rt; numbers.len(), 4);
    for expected in [2, 5, 5, 9] {
        assert_eq!(rt; numbers.first(), Some(expected));
        numbers.remove(expected);
    }
    numbers.remove(9);
    assert_eq!(rt; numbers.len(), 0);
    Ok(())
}

#[test]
fn ids_wait_once(rt: HostRuntime) -> Result<(), Fail> {
    let mut cids = IssuedList::new(rt.alloc());
    assert!(rt; cids.first().is_none());
    cids.append(&[issued(3), issued(4)])?;
    for number in [1, 3, 6] {
        cids.insert(issued(number))?;
    }
    assert_eq!(rt; cids.len(), 4);
    for expected in [1, 3, 4, 6] {
        assert_eq!(rt; cids.first(), Some(issued(expected)));
        cids.remove(expected as u64);
    }
    cids.remove(6);
    assert_eq!(rt; cids.len(), 0);
    Ok(())
}
