//! The ends of segments that were lost, by which the first that still is lost is found.

ghost use Rattle.std.specs.Prelude.{◌≡◌, ◌<◌, true, drop, is_some, IfSome, OnOk, OnErr};
ghost use Rattle.std.specs.BTreeMap.{is_at};
ghost use Rattle.std.specs.BTreeSet.{insert_key};
ghost use Rattle.std.specs.List.{list_any};
ghost use Rattle.std.specs.Map.{lookup};
ghost use Rattle.std.specs.Ordering.{nat_cmp};
ghost use Rattle.qc_send_stream.specs.Segments.{Apart, Extends, Listed, NoneBelow, Noted, among, first_lost, is_lost, lowest};

use crate::segments::{Segment, next_within};
use std::alloc::AllocError;
use std::collections::{BTreeMap, BTreeSet};

/// Adds an end.
fn add_end(lost: &mut BTreeSet<u64>, end: u64) -> Result<(), AllocError>
    ensures added { OnOk result (lost.new.keys ≡ insert_key nat_cmp lost.old.keys end) }
    ensures err { OnErr result (lost.new.keys ≡ lost.old.keys) }
{
    lost.insert(end)?;
    Ok(())
}

/// Adds an end where it is needed.
pub(crate) fn note_end(lost: &mut BTreeSet<u64>, end: u64, needed: bool) -> Result<(), AllocError>
    ensures noted { OnOk result (needed ≡ true → among end lost.new.keys ≡ true) }
    ensures more { Extends lost.old.keys lost.new.keys }
{
    if needed {
        return add_end(lost, end);
    }
    Ok(())
}

/// Adds the ends of the segments that end behind `start` and at `end` or before.
pub(crate) fn note_range(
    segments: &BTreeMap<u64, Segment>,
    lost: &mut BTreeSet<u64>,
    mut start: u64,
    end: u64,
) -> Result<(), AllocError>
    requires apart { Apart 0 segments.now.entries }
    requires listed { Listed segments.now.entries lost.old.keys }
    ensures noted { OnOk result (Noted start end segments.now.entries lost.new.keys) }
    ensures listed { Listed segments.now.entries lost.new.keys }
{
    while let Some(at) = next_within(segments, start, end) {
        note_end(lost, at, true)?;
        start = at;
    }
    Ok(())
}

/// The lowest end.
fn lowest(lost: &BTreeSet<u64>) -> Option<u64>
    ensures value { result ≡ lowest lost.now.keys }
    ensures least { IfSome result (λ o. NoneBelow o lost.now.keys) }
{
    match lost.first() {
        Some(end) => Some(*end),
        None => None,
    }
}

/// Whether the segment that ends there is lost.
fn is_lost(segments: &BTreeMap<u64, Segment>, end: u64) -> bool
    ensures { result ≡ is_lost (lookup (is_at (nat_cmp end)) segments.now.entries) }
{
    match segments.get(&end) {
        Some(segment) => segment.lost,
        None => false,
    }
}

/// Lets go of the lowest end.
fn drop_lowest(lost: &mut BTreeSet<u64>)
    ensures { lost.new.keys ≡ drop 1 lost.old.keys }
{
    let _lowest = lost.pop_first();
}

/// Where the first lost segment ends. Ends of segments that aren't lost any more are let go.
#[inline(always)]
pub(crate) fn first_lost(segments: &BTreeMap<u64, Segment>, lost: &mut BTreeSet<u64>) -> Option<u64>
    requires apart { Apart 0 segments.now.entries }
    requires listed { Listed segments.now.entries lost.old.keys }
    ensures value { result ≡ first_lost segments.now.entries }
    ensures listed { Listed segments.now.entries lost.new.keys }
{
    while let Some(end) = lowest(lost) {
        if is_lost(segments, end) {
            return Some(end);
        }
        drop_lowest(lost);
    }
    None
}

/// Whether one of the ends is that of a lost segment.
fn has_lost_end(segments: &BTreeMap<u64, Segment>, lost: &BTreeSet<u64>) -> bool
    ensures { result ≡ list_any (λ end. is_lost (lookup (is_at (nat_cmp end)) segments.now.entries)) lost.now.keys }
{
    lost.iter().any(|end| is_lost(segments, *end))
}

/// Whether a segment is lost. Ends of segments that aren't lost any more are passed over, and stay.
#[tactic(auto, using(crate::proofs::LostEnds::any_is_lost))]
pub(crate) fn any_lost(segments: &BTreeMap<u64, Segment>, lost: &BTreeSet<u64>) -> bool
    requires apart { Apart 0 segments.now.entries }
    requires listed { Listed segments.now.entries lost.now.keys }
    ensures { result ≡ is_some (first_lost segments.now.entries) }
{
    has_lost_end(segments, lost)
}
