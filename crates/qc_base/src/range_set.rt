//! Sets of packet numbers, as the ranges of an ACK frame are (RFC 9000, section 19.3.1).

ghost use Rattle.std.specs.Prelude.{◌≡◌, ◌+◌, ◌<◌, ◌≤◌, ◌↔◌, ◌⊎◌, ℕ, List, [], length, insert, slice_index_or, slice_set, ◌==◌, is_none, IfSome, IsTrue, MatchOption};
ghost use Rattle.std.specs.Iterator.Adapters.{rev_source};
ghost use Rattle.std.specs.Slice.Iter.{iter_rest};
ghost use Rattle.arrayvec.specs.ArrayVec.{array_vec_len};
ghost use Rattle.qc_base.specs.declared.range_set.NumberRange.{NumberRange};
ghost use Rattle.qc_base.specs.RangeSet.{latest, Adds, EndsBelow, KeepsFrom, Member, Normal};

use arrayvec::ArrayVec;
use std::iter::Rev;
use std::marker::Model;
use std::slice::Iter;

/// The numbers from `first` to `last`.
#[derive(Clone, Copy, Debug, Default, PartialEq, Eq)]
pub struct NumberRange {
    /// The lowest number.
    pub first: u64,
    /// The highest number.
    pub last: u64,
}

impl NumberRange {
    /// Whether `n` is one of the numbers.
    pub fn contains(&self, n: u64) -> bool
        ensures { IsTrue result ↔ ((self.now.first ≤ n) × (n ≤ self.now.last)) }
    {
        self.first <= n && n <= self.last
    }
}

/// A set of numbers in at most 64 ranges, of which no two touch. It takes no memory.
#[derive(Debug, Drop)]
pub struct ArrayRangeSet {
    ranges: ArrayVec<NumberRange, 64>,
}

impl Model for ArrayRangeSet {
    ghost use Rattle.std.specs.Prelude.{List};
    ghost use Rattle.qc_base.specs.declared.range_set.NumberRange.{NumberRange};
    ghost use Rattle.qc_base.specs.RangeSet.{Normal};

    ghost Value = { List NumberRange };

    ghost view = { λ set. set.ranges.items };

    ghost invariant = { λ set. Normal set.ranges.items };
}

/// Puts a range at a place. Where that makes a 65th range, the lowest one is dropped.
fn put(ranges: &mut ArrayVec<NumberRange, 64>, place: usize, range: NumberRange)
    requires { place ≤ array_vec_len ranges.old }
    ensures { ranges.new.items ≡ latest (insert ranges.old.items place range) }
{
    if ranges.len() < 64 {
        ranges.insert(place, range);
    } else if place > 0 {
        ranges.remove(0);
        ranges.insert(place - 1, range);
    }
}

/// The range at a place.
fn range_at(ranges: &ArrayVec<NumberRange, 64>, place: usize) -> NumberRange
    requires { place < array_vec_len ranges.now }
    ensures { result ≡ slice_index_or ranges.now.items place (record { first = 0; last = 0 }) }
{
    ranges[place]
}

/// Writes a range over the one at a place.
fn set_at(ranges: &mut ArrayVec<NumberRange, 64>, place: usize, range: NumberRange)
    requires { place < array_vec_len ranges.old }
    ensures { ranges.new.items ≡ slice_set ranges.old.items place range }
{
    ranges.as_mut_slice()[place] = range;
}

/// The place of the first range that ends at `n - 1` or later.
fn place_of(ranges: &ArrayVec<NumberRange, 64>, n: u64) -> usize
    ensures within { result ≤ array_vec_len ranges.now }
    ensures below { (k : ℕ) → k < result → (slice_index_or ranges.now.items k (record { first = 0; last = 0 })).last + 1 < n }
    ensures stops { result < array_vec_len ranges.now → n ≤ (slice_index_or ranges.now.items result (record { first = 0; last = 0 })).last + 1 }
{
    for place in 0..ranges.len() {
        let last = range_at(ranges, place).last;
        if last >= n {
            return place;
        }
        if n - last == 1 {
            return place;
        }
    }
    ranges.len()
}

/// Adds a number, and says whether it was not there.
fn add(ranges: &mut ArrayVec<NumberRange, 64>, n: u64) -> bool
    requires { Normal ranges.old.items }
    ensures numbers { (all : List NumberRange) × Adds n ranges.old.items all × (ranges.new.items ≡ latest all) }
    ensures answer { IsTrue result ↔ (Member n ranges.old.items → ⊥) }
{
    let place = place_of(ranges, n);
    let len = ranges.len();
    if place == len {
        put(ranges, place, NumberRange { first: n, last: n });
        return true;
    }
    let NumberRange { first, last } = range_at(ranges, place);
    if n <= last {
        if first <= n {
            return false;
        }
        if first - n == 1 {
            set_at(ranges, place, NumberRange { first: n, last });
            return true;
        }
        put(ranges, place, NumberRange { first: n, last: n });
        return true;
    }
    let next = place + 1;
    if next == len {
        set_at(ranges, place, NumberRange { first, last: n });
        return true;
    }
    let after = range_at(ranges, next);
    if after.first == n + 1 {
        set_at(
            ranges,
            place,
            NumberRange {
                first,
                last: after.last,
            },
        );
        ranges.remove(next);
        return true;
    }
    set_at(ranges, place, NumberRange { first, last: n });
    true
}

/// Whether the lowest range lies below `n`.
fn ends_below(ranges: &ArrayVec<NumberRange, 64>, n: u64) -> bool
    ensures { IsTrue result ↔ EndsBelow n ranges.now.items }
{
    match ranges.as_slice() {
        [] => false,
        [range, ..] => range.last < n,
    }
}

/// Takes out all numbers below `n`.
fn take_below(ranges: &mut ArrayVec<NumberRange, 64>, n: u64)
    requires { Normal ranges.old.items }
    ensures { KeepsFrom n ranges.old.items ranges.new.items }
{
    while ends_below(ranges, n) {
        ranges.remove(0);
    }
    if ranges.is_empty() {
        return;
    }
    let NumberRange { first, last } = range_at(ranges, 0);
    if n <= first {
        return;
    }
    set_at(ranges, 0, NumberRange { first: n, last });
}

impl ArrayRangeSet {
    /// The empty set.
    pub fn new() -> ArrayRangeSet
        ensures { result ≡ [] }
    {
        ArrayRangeSet {
            ranges: ArrayVec::new(),
        }
    }

    /// Adds `n`, and says whether it was not in the set. Where that makes a 65th range, the lowest
    /// range is dropped.
    pub fn insert_one(&mut self, n: u64) -> bool
        ensures numbers { (all : List NumberRange) × Adds n self.old all × (self.new ≡ latest all) }
        ensures answer { IsTrue result ↔ (Member n self.old → ⊥) }
    {
        add(&mut self.ranges, n)
    }

    /// How many ranges it has: at most 64.
    pub fn len(&self) -> usize
        ensures value { result ≡ length self.now }
        ensures most { result ≤ 64 }
    {
        self.ranges.len()
    }

    /// Whether it has no number.
    pub fn is_empty(&self) -> bool
        ensures { result ≡ (length self.now == 0) }
    {
        self.ranges.is_empty()
    }

    /// Whether `n` is in the set.
    pub fn contains(&self, n: u64) -> bool
        ensures { IsTrue result ↔ Member n self.now }
    {
        for range in self.ranges.as_slice() {
            if range.contains(n) {
                return true;
            }
        }
        false
    }

    /// Its ranges, from low to high: their first and last numbers, both in the set.
    pub fn as_slice(&self) -> &[NumberRange]
        ensures ranges { result.now ≡ self.now }
        ensures normal { Normal self.now }
        ensures most { length self.now ≤ 64 }
    {
        self.ranges.as_slice()
    }

    /// Goes over its ranges, from low to high.
    pub fn iter(&self) -> Iter<'_, NumberRange>
        ensures ranges { iter_rest result ≡ self.now }
        ensures normal { Normal self.now }
        ensures most { length self.now ≤ 64 }
    {
        self.ranges.as_slice().iter()
    }

    /// Goes over its ranges, from high to low, as an ACK frame has them.
    pub fn iter_from_high(&self) -> Rev<Iter<'_, NumberRange>>
        ensures ranges { iter_rest (rev_source result) ≡ self.now }
        ensures normal { Normal self.now }
        ensures most { length self.now ≤ 64 }
    {
        self.ranges.as_slice().iter().rev()
    }

    /// The greatest number in the set, if it has one.
    pub fn max(&self) -> Option<u64>
        ensures none { is_none result ≡ (length self.now == 0) }
        ensures member { IfSome result (λ n. Member n self.now) }
        ensures greatest { IfSome result (λ n. (k : ℕ) → Member k self.now → k ≤ n) }
    {
        match self.ranges.as_slice() {
            [] => None,
            [.., range] => Some(range.last),
        }
    }

    /// Takes out all numbers below `n`.
    pub fn subtract_below(&mut self, n: u64)
        ensures { KeepsFrom n self.old self.new }
    {
        take_below(&mut self.ranges, n);
    }
}
