//! Bytes of a range that are taken out. Mostly they are the front of the first segment, which is just made shorter.

ghost use Rattle.std.specs.Prelude.{◌≡◌, ℕ, List, ◌+◌, ◌^◌, ◌<◌, length, IfOk, IfSome, OnErr, OnOk};
ghost use Rattle.qc_send_stream.specs.Buffer.{without};
ghost use Rattle.qc_send_stream.specs.Segments.{Apart, EndBy, IsFront, Listed, first_segment, flat};

use crate::segments::{Segment, cut_range, remove, shorten};
use std::alloc::AllocError;
use std::collections::{BTreeMap, BTreeSet};

/// Where the first segment ends, and how many bytes it has.
fn first_segment(segments: &BTreeMap<u64, Segment>) -> Option<(u64, usize)>
    ensures { result ≡ first_segment segments.now.entries }
{
    match segments.first_key_value() {
        Some((at, segment)) => Some((*at, segment.bytes.len())),
        None => None,
    }
}

/// Where the first segment ends, if a range begins where it does, and ends within it.
#[tactic(auto, using(crate::proofs::FrontTaken::front_is))]
fn first_around(segments: &BTreeMap<u64, Segment>, start: u64, end: u64) -> Option<u64>
    ensures { IfSome result (λ at. IsFront start end at segments.now.entries) }
{
    let Some((at, held)) = first_segment(segments) else {
        return None;
    };
    if end <= start || at <= end {
        return None;
    }
    if at - start != held as u64 {
        return None;
    }
    Some(at)
}

/// Takes out the bytes of a range that is the front of the segment that ends there; answers how many they are.
fn take_front(segments: &mut BTreeMap<u64, Segment>, at: u64, start: u64, end: u64) -> u64
    requires apart { Apart 0 segments.old.entries }
    requires front { IsFront start end at segments.old.entries }
    ensures gone { flat segments.new.entries ≡ without start end (flat segments.old.entries) }
    ensures count { result + length (flat segments.new.entries) ≡ length (flat segments.old.entries) }
    ensures apart { Apart 0 segments.new.entries }
    ensures below { (n : ℕ) → EndBy n segments.old.entries → EndBy n segments.new.entries }
    ensures listed { (ends : List ℕ) → Listed segments.old.entries ends → Listed segments.new.entries ends }
{
    let count = end - start;
    shorten(segments, at, count as usize);
    count
}

/// Takes out the bytes of a range; answers how many there were.
pub(crate) fn take_range(
    segments: &mut BTreeMap<u64, Segment>,
    lost: &mut BTreeSet<u64>,
    start: u64,
    end: u64,
) -> Result<u64, AllocError>
    requires apart { Apart 0 segments.old.entries }
    requires listed { Listed segments.old.entries lost.old.keys }
    requires fits { length (flat segments.old.entries) < 2 ^ 64 }
    ensures gone { OnOk result (flat segments.new.entries ≡ without start end (flat segments.old.entries)) }
    ensures count { IfOk result (λ n. n + length (flat segments.new.entries) ≡ length (flat segments.old.entries)) }
    ensures err { OnErr result (flat segments.new.entries ≡ flat segments.old.entries) }
    ensures apart { Apart 0 segments.new.entries }
    ensures below { (n : ℕ) → EndBy n segments.old.entries → EndBy n segments.new.entries }
    ensures listed { Listed segments.new.entries lost.new.keys }
{
    match first_around(segments, start, end) {
        Some(at) => Ok(take_front(segments, at, start, end)),
        None => {
            cut_range(segments, lost, start, end)?;
            Ok(remove(segments, start, end))
        }
    }
}
