//! The bytes that are to be sent next.

ghost use Rattle.std.specs.Prelude.{◌≡◌, IfOk, Some, is_some};
ghost use Rattle.qc_send_stream.specs.Segments.{Apart, first_behind, first_lost, lost_front, part_from};

use crate::segments::Segment;
use bytes::Bytes;
use std::alloc::AllocError;
use std::collections::BTreeMap;
use std::ops::Bound;

/// At most so many bytes of the first lost segment, which ends there, and their offset.
pub(crate) fn lost_part(
    segments: &BTreeMap<u64, Segment>,
    end: u64,
    most: usize,
) -> Result<Option<(u64, Bytes)>, AllocError>
    requires apart { Apart 0 segments.now.entries }
    requires first { first_lost segments.now.entries ≡ Some end }
    ensures { IfOk result (λ p. p ≡ lost_front most segments.now.entries) }
{
    let Some(segment) = segments.get(&end) else {
        unreachable!()
    };
    let start = end - segment.bytes.len() as u64;
    let bytes = segment.bytes.slice(..most.min(segment.bytes.len()))?;
    Ok(Some((start, bytes)))
}

/// At most so many bytes of the first segment that ends behind an offset, none below that, and
/// their offset.
pub(crate) fn fresh_part(
    segments: &BTreeMap<u64, Segment>,
    sent: u64,
    most: usize,
) -> Result<Option<(u64, Bytes)>, AllocError>
    requires { Apart 0 segments.now.entries }
    ensures { IfOk result (λ p. p ≡ part_from sent most (first_behind sent segments.now.entries)) }
{
    let Some((end, segment)) = segments
        .range((Bound::Excluded(sent), Bound::Unbounded))
        .next()
    else {
        return Ok(None);
    };
    let start = *end - segment.bytes.len() as u64;
    let passed = sent.saturating_sub(start);
    let left = segment.bytes.len() - passed as usize;
    let count = most.min(left);
    let bytes = segment
        .bytes
        .slice(passed as usize..passed as usize + count)?;
    Ok(Some((start + passed, bytes)))
}

/// Whether a segment ends behind an offset.
pub(crate) fn has_fresh(segments: &BTreeMap<u64, Segment>, sent: u64) -> bool
    ensures { result ≡ is_some (first_behind sent segments.now.entries) }
{
    match segments.last_key_value() {
        Some((end, _)) => sent < *end,
        None => false,
    }
}
