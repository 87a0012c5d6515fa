//! Sets of numbers, kept as their ranges.

use qc_base::ArrayRangeSet;

// The set 5, 7 to 9.
fn two_ranges() -> ArrayRangeSet {
    let mut set = ArrayRangeSet::new();
    for n in [5, 9, 7, 8, 5] {
        let _ = set.insert_one(n);
    }
    set
}

// The last number of the lowest range, where each range lies below the one before.
fn lowest_last(set: &ArrayRangeSet) -> Option<u64> {
    let mut lowest = None;
    for range in set.iter_from_high() {
        if let Some(last) = lowest
            && range.last >= last
        {
            return None;
        }
        lowest = Some(range.last);
    }
    lowest
}

// The only range.
fn only_range(set: &ArrayRangeSet) -> Option<(u64, u64)> {
    match set.as_slice() {
        [range] => Some((range.first, range.last)),
        _ => None,
    }
}

#[test]
fn range_sets(rt: HostRuntime) {
    let mut set = two_ranges();
    assert_eq!(rt; set.len(), 2);
    assert!(rt; set.contains(8) && !set.contains(6));
    assert_eq!(rt; lowest_last(&set), Some(5));
    assert_eq!(rt; set.max(), Some(9));
    assert!(rt; set.insert_one(6) && !set.insert_one(6));
    set.subtract_below(7);
    assert_eq!(rt; set.iter().as_slice().len(), 1);
    assert_eq!(rt; only_range(&set), Some((7, 9)));
    assert!(rt; !set.is_empty());
}

// The set 2, 4, .. 128 has 64 ranges. One more drops the lowest, itself where it is the lowest.
#[test]
fn lowest_range_is_dropped(rt: HostRuntime) {
    let mut set = ArrayRangeSet::new();
    for n in 1..65 {
        let _ = set.insert_one(2 * n);
    }
    assert_eq!(rt; set.len(), 64);
    assert!(rt; set.insert_one(0));
    assert!(rt; set.len() == 64 && set.contains(2) && !set.contains(0));
    assert!(rt; set.insert_one(130));
    assert!(rt; set.len() == 64 && !set.contains(2) && set.contains(4));
    assert!(rt; set.insert_one(5));
    assert!(rt; set.len() == 63 && set.insert_one(2) && set.contains(2));
}
