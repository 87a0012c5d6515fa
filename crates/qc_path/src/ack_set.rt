//! The numbers of packets that came and are to be acknowledged.

ghost use Rattle.std.specs.Prelude.{◌≡◌, ◌==◌, [], length};
ghost use Rattle.qc_base.specs.RangeSet.{latest};
ghost use Rattle.qc_base.specs.Time.{plus};
ghost use Rattle.qc_path.specs.AckRanges.{from_number, with_number};

use qc_base::ArrayRangeSet;
use std::marker::Model;

/// The numbers of the packets of one space that came and are to be acknowledged (RFC 9000, section
/// 13.2.3): at most the 64 highest ranges. Contracts see the ranges, from low to high.
#[derive(Debug, Drop)]
pub(crate) struct AckSet {
    ranges: ArrayRangeSet,
}

impl Model for AckSet {
    ghost use Rattle.std.specs.Prelude.{List};
    ghost use Rattle.qc_base.specs.declared.range_set.NumberRange.{NumberRange};
    ghost use Rattle.qc_base.specs.RangeSet.{Normal};

    ghost Value = { List NumberRange };

    ghost view = { λ s. s.ranges };

    ghost invariant = { λ s. Normal s.ranges };
}

/// The number behind another one, if there is one.
fn after(number: u64) -> u64
    ensures { result ≡ plus number 1 }
{
    number.saturating_add(1)
}

impl AckSet {
    /// No numbers.
    pub(crate) fn new() -> AckSet
        ensures { result ≡ [] }
    {
        AckSet {
            ranges: ArrayRangeSet::new(),
        }
    }

    /// A packet with this number came.
    #[tactic(auto, using(crate::proofs::RangesWith::insertion_is))]
    pub(crate) fn insert(&mut self, number: u64)
        ensures { self.new ≡ latest (with_number number self.old) }
    {
        let _ = self.ranges.insert_one(number);
    }

    /// The numbers up to `largest` needn't be acknowledged any more.
    #[tactic(auto, using(crate::proofs::RangesWith::keeps_is))]
    pub(crate) fn forget(&mut self, largest: u64)
        ensures { self.new ≡ from_number (plus largest 1) self.old }
    {
        let first = after(largest);
        self.ranges.subtract_below(first);
    }

    /// Whether it has no number.
    pub(crate) fn is_empty(&self) -> bool
        ensures { result ≡ (length self.now == 0) }
    {
        self.ranges.is_empty()
    }

    /// The numbers.
    pub(crate) fn ranges(&self) -> &ArrayRangeSet
        ensures { result.now ≡ self.now }
    {
        &self.ranges
    }
}
