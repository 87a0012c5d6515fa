//! Segments of bytes that were written, each under the offset where it ends, and how they are cut and marked.

ghost use Rattle.std.specs.Prelude.{◌≡◌, ℕ, ◌+◌, ◌^◌, ◌<◌, false, length, IfOk, OnOk, OnErr};
ghost use Rattle.std.specs.BTreeMap.{is_at, insert_entry};
ghost use Rattle.std.specs.Map.{lookup, remove_entry};
ghost use Rattle.std.specs.Ordering.{nat_cmp};
ghost use Rattle.qc_send_stream.specs.Buffer.{marked};
ghost use Rattle.qc_send_stream.specs.Segments.{Apart, CutAt, EndBy, Holds, Listed, changed_at, flat, next_within, outside, split, stood, straddling, with_lost, without_front};

use crate::ends::note_end;
use bytes::{Buf, Bytes};
use std::alloc::AllocError;
use std::collections::{BTreeMap, BTreeSet};
use std::ops::Bound;

/// Bytes in a row that stand alike.
#[derive(Drop)]
pub(crate) struct Segment {
    pub(crate) bytes: Bytes,
    // whether they were lost and weren't sent since
    pub(crate) lost: bool,
}

/// The front of the segment that has bytes on both sides of an offset.
fn straddling(
    segments: &BTreeMap<u64, Segment>,
    at: u64,
) -> Result<Option<(u64, Bytes, bool)>, AllocError>
    requires { Apart 0 segments.now.entries }
    ensures { IfOk result (λ f. f ≡ straddling at segments.now.entries) }
{
    let Some((end, segment)) = segments
        .range((Bound::Excluded(at), Bound::Unbounded))
        .next()
    else {
        return Ok(None);
    };
    let start = *end - segment.bytes.len() as u64;
    if at <= start {
        return Ok(None);
    }
    let front = segment.bytes.slice(..(at - start) as usize)?;
    Ok(Some((*end, front, segment.lost)))
}

/// Keeps a segment under its end.
pub(crate) fn keep(
    segments: &mut BTreeMap<u64, Segment>,
    end: u64,
    bytes: Bytes,
    lost: bool,
) -> Result<(), AllocError>
    ensures kept { OnOk result (segments.new.entries ≡ insert_entry nat_cmp segments.old.entries end (record { bytes = bytes; lost = lost })) }
    ensures err { OnErr result (segments.new.entries ≡ segments.old.entries) }
{
    segments.insert(end, Segment { bytes, lost })?;
    Ok(())
}

/// Passes over the first bytes of the segment that ends there.
pub(crate) fn shorten(segments: &mut BTreeMap<u64, Segment>, end: u64, count: usize)
    requires { Holds count (lookup (is_at (nat_cmp end)) segments.old.entries) }
    ensures { segments.new.entries ≡ changed_at end (without_front count) segments.old.entries }
{
    if let Some(segment) = segments.get_mut(&end) {
        segment.bytes.advance(count);
    }
}

/// Marks the segment that ends there as lost, or as not lost.
fn set_lost(segments: &mut BTreeMap<u64, Segment>, end: u64, lost: bool)
    ensures { segments.new.entries ≡ changed_at end (with_lost lost) segments.old.entries }
{
    if let Some(segment) = segments.get_mut(&end) {
        segment.lost = lost;
    }
}

/// Cuts the segment that has bytes on both sides of an offset there.
fn cut(
    segments: &mut BTreeMap<u64, Segment>,
    lost: &mut BTreeSet<u64>,
    at: u64,
) -> Result<(), AllocError>
    requires apart { Apart 0 segments.old.entries }
    requires listed { Listed segments.old.entries lost.old.keys }
    ensures cut { OnOk result (segments.new.entries ≡ split at segments.old.entries) }
    ensures listed { Listed segments.new.entries lost.new.keys }
    ensures err { OnErr result (segments.new.entries ≡ segments.old.entries) }
{
    let Some((end, front, was_lost)) = straddling(segments, at)? else {
        return Ok(());
    };
    note_end(lost, at, was_lost)?;
    let count = front.len();
    keep(segments, at, front, was_lost)?;
    shorten(segments, end, count);
    Ok(())
}

/// Cuts the segments that have bytes on both sides of either end of a range there.
pub(crate) fn cut_range(
    segments: &mut BTreeMap<u64, Segment>,
    lost: &mut BTreeSet<u64>,
    start: u64,
    end: u64,
) -> Result<(), AllocError>
    requires apart { Apart 0 segments.old.entries }
    requires listed { Listed segments.old.entries lost.old.keys }
    ensures first { OnOk result (CutAt start segments.new.entries) }
    ensures last { OnOk result (CutAt end segments.new.entries) }
    ensures same { flat segments.new.entries ≡ flat segments.old.entries }
    ensures apart { Apart 0 segments.new.entries }
    ensures below { (n : ℕ) → EndBy n segments.old.entries → EndBy n segments.new.entries }
    ensures listed { Listed segments.new.entries lost.new.keys }
{
    cut(segments, lost, start)?;
    cut(segments, lost, end)
}

/// Where the first segment ends that ends behind `start` and at `end` or before.
pub(crate) fn next_within(segments: &BTreeMap<u64, Segment>, start: u64, end: u64) -> Option<u64>
    ensures { result ≡ next_within start end segments.now.entries }
{
    let Some((at, _)) = segments
        .range((Bound::Excluded(start), Bound::Unbounded))
        .next()
    else {
        return None;
    };
    if *at <= end { Some(*at) } else { None }
}

/// Marks the segments that end behind `start` and at `end` or before.
pub(crate) fn mark(segments: &mut BTreeMap<u64, Segment>, lost: bool, mut start: u64, end: u64)
    requires { Apart 0 segments.old.entries }
    ensures { segments.new.entries ≡ stood lost start end segments.old.entries }
{
    while let Some(at) = next_within(segments, start, end) {
        set_lost(segments, at, lost);
        start = at;
    }
}

/// Marks the bytes of a range as not lost. Where none is lost, nothing is cut and no memory is taken.
pub(crate) fn unmark(
    segments: &mut BTreeMap<u64, Segment>,
    lost: &mut BTreeSet<u64>,
    start: u64,
    end: u64,
) -> Result<(), AllocError>
    requires apart { Apart 0 segments.old.entries }
    requires listed { Listed segments.old.entries lost.old.keys }
    ensures marked { OnOk result (flat segments.new.entries ≡ marked false start end (flat segments.old.entries)) }
    ensures count { length (flat segments.new.entries) ≡ length (flat segments.old.entries) }
    ensures err { OnErr result (flat segments.new.entries ≡ flat segments.old.entries) }
    ensures apart { Apart 0 segments.new.entries }
    ensures below { (n : ℕ) → EndBy n segments.old.entries → EndBy n segments.new.entries }
    ensures listed { Listed segments.new.entries lost.new.keys }
{
    if lost.is_empty() {
        return Ok(());
    }
    cut_range(segments, lost, start, end)?;
    mark(segments, false, start, end);
    Ok(())
}

/// Takes out the segments that end behind `start` and at `end` or before; answers how many bytes
/// those have.
pub(crate) fn remove(segments: &mut BTreeMap<u64, Segment>, mut start: u64, end: u64) -> u64
    requires apart { Apart 0 segments.old.entries }
    requires fits { length (flat segments.old.entries) < 2 ^ 64 }
    ensures removed { segments.new.entries ≡ outside start end segments.old.entries }
    ensures count { result + length (flat segments.new.entries) ≡ length (flat segments.old.entries) }
{
    let mut count = 0;
    while let Some(at) = next_within(segments, start, end) {
        count += take_out(segments, at);
        start = at;
    }
    count
}

/// Takes out the segment that ends there; answers how many bytes it has.
fn take_out(segments: &mut BTreeMap<u64, Segment>, end: u64) -> u64
    ensures removed { segments.new.entries ≡ remove_entry (is_at (nat_cmp end)) segments.old.entries }
    ensures count { result + length (flat segments.new.entries) ≡ length (flat segments.old.entries) }
{
    match segments.remove(&end) {
        Some(segment) => segment.bytes.len() as u64,
        None => 0,
    }
}
