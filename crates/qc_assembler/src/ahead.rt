//! The offsets that were read out of order: ranges, each start under its end.
ghost use Rattle.std.specs.Prelude.{◌≡◌, ◌-◌, ◌<◌, OnOk, OnErr};
ghost use Rattle.std.specs.BTreeMap.{is_at};
ghost use Rattle.std.specs.Map.{lookup, remove_entry, set_value};
ghost use Rattle.std.specs.Ordering.{nat_cmp};
ghost use Rattle.qc_assembler.specs.Assembly.{noted};
ghost use Rattle.qc_assembler.specs.Ahead.{AreRanges, HasGap, listed, range_past};

use std::alloc::AllocError;
use std::collections::BTreeMap;
use std::ops::Bound;

/// The end and the start of the first range that ends behind an offset.
pub(crate) fn range_past(ranges: &BTreeMap<u64, u64>, offset: u64) -> Option<(u64, u64)>
    ensures { result ≡ range_past offset ranges.now.entries }
{
    match ranges
        .range((Bound::Excluded(offset), Bound::Unbounded))
        .next()
    {
        Some((end, start)) => Some((*end, *start)),
        None => None,
    }
}

/// Where the range starts that ends there.
fn start_of(ranges: &BTreeMap<u64, u64>, end: u64) -> Option<u64>
    ensures { result ≡ lookup (is_at (nat_cmp end)) ranges.now.entries }
{
    ranges.get(&end).copied()
}

/// Takes the range out that ends at `at`, and sets the start of the one that ends at `end`.
#[tactic(auto, using(crate::proofs::Noting::set_absent))]
fn merge(ranges: &mut BTreeMap<u64, u64>, at: u64, end: u64, start: u64)
    ensures { ranges.new.entries ≡ set_value (is_at (nat_cmp end)) (remove_entry (is_at (nat_cmp at)) ranges.old.entries) start }
{
    ranges.remove(&at);
    if let Some(value) = ranges.get_mut(&end) {
        *value = start;
    }
}

/// Makes one of two ranges of which one ends and the other starts there.
fn join_ranges(ranges: &mut BTreeMap<u64, u64>, at: u64)
    requires { AreRanges 0 ranges.old.entries }
    ensures same { listed ranges.new.entries ≡ listed ranges.old.entries }
    ensures ranges { AreRanges 0 ranges.new.entries }
{
    let Some(start) = start_of(ranges, at) else {
        return;
    };
    let Some((end, next)) = range_past(ranges, at) else {
        return;
    };
    if next == at {
        merge(ranges, at, end, start);
    }
}

/// Notes that the offsets from the start up to the end were read.
pub(crate) fn note_range(
    ranges: &mut BTreeMap<u64, u64>,
    start: u64,
    end: u64,
) -> Result<(), AllocError>
    requires ranges { AreRanges 0 ranges.old.entries }
    requires some { start < end }
    requires gap { HasGap end (range_past start ranges.old.entries) }
    ensures noted { OnOk result (listed ranges.new.entries ≡ noted start (end - start) (listed ranges.old.entries)) }
    ensures ranges { AreRanges 0 ranges.new.entries }
    ensures err { OnErr result (ranges.new.entries ≡ ranges.old.entries) }
{
    ranges.insert(end, start)?;
    join_ranges(ranges, start);
    join_ranges(ranges, end);
    Ok(())
}
