//! The packet numbers that an ACK frame acknowledges (RFC 9000, section 19.3.1).

ghost use Rattle.std.specs.Prelude.{◌≡◌, ◌-◌, ◌+◌, ◌<◌, ◌≤◌, ◌^◌, ◌↔◌, ℕ, List, [], ◌∷◌, ◌++◌, length, reverse, slice_index_or, IfOk, IfSome, IfNone, IsTrue, OnOk, MatchOption};
ghost use Rattle.std.specs.List.{All, flat_map};
ghost use Rattle.std.specs.Iterator.{YieldsFirst, item_count};
ghost use Rattle.qc_base.specs.declared.range_set.NumberRange.{NumberRange};
ghost use Rattle.qc_base.specs.RangeSet.{Member, Normal};
ghost use Rattle.qc_base.specs.Varint.{varint};
ghost use Rattle.qc_frame.specs.AckRanges.{Acknowledges, ArePackets, SaysSet, numbers_up, range_numbers, ranges_down, ranges_of};
ghost use Rattle.qc_frame.specs.Frame.{AckValue, ack_map};
ghost use Rattle.qc_frame.specs.FrameFits.{CountsFit, Fits};
ghost use Rattle.qc_frame.specs.declared.frames.FrameOf.TheVariants as frames;
ghost use Rattle.qc_frame.specs.FrameSpelling.{numbers_of};

use crate::frames::{Ack, AckOf, EcnCounts, OwnedAck};
use bytes::Bytes;
use qc_base::{ArrayRangeSet, Cut, NumberRange, put_varint, read_varint};
use std::alloc::{AllocError, Global};
use std::marker::Model;

/// The ranges of packet numbers that an ACK frame acknowledges, from the greatest down.
#[derive(Debug, Drop)]
pub struct AckRanges<'a> {
    largest: u64,
    bytes: &'a [u8],
}

impl<'a> Model for AckRanges<'a> {
    ghost use Rattle.std.specs.Prelude.{List};
    ghost use Rattle.qc_base.specs.declared.range_set.NumberRange.{NumberRange};
    ghost use Rattle.qc_frame.specs.AckRanges.{ranges_down};
    ghost use Rattle.qc_frame.specs.FrameSpelling.{numbers_of};

    ghost Value = { List NumberRange };

    ghost view = { λ ranges. ranges_down ranges.largest (numbers_of ranges.bytes.now) };
}

/// A range that ends at `largest`, whose length is the first number, and what is needed for those
/// below it: where they end, and their lengths and gaps.
#[tactic(auto, using(crate::proofs::RangesDown::no_range, crate::proofs::RangesDown::last_range, crate::proofs::RangesDown::next_range))]
fn first_range(largest: u64, bytes: &[u8]) -> Option<(NumberRange, u64, &[u8])>
    ensures { MatchOption result (ranges_down largest (numbers_of bytes.now) ≡ []) (λ x. ranges_down largest (numbers_of bytes.now) ≡ x.0 ∷ ranges_down x.1 (numbers_of x.2.now)) }
{
    let (len, rest) = match read_varint(bytes) {
        Ok(read) => read,
        Err(Cut) => return None,
    };
    let first = less(largest, len);
    let range = NumberRange {
        first,
        last: largest,
    };
    match read_varint(rest) {
        Ok((gap, behind)) => Some((range, less(first, gap + 2), behind)),
        Err(Cut) => Some((range, first, rest)),
    }
}

fn less(number: u64, by: u64) -> u64
    ensures { result ≡ number - by }
{
    if by < number { number - by } else { 0 }
}

impl<'a> Iterator for AckRanges<'a> {
    type Item = NumberRange;

    ghost next_gives = { YieldsFirst (λ ranges. ranges) };

    ghost remaining = { item_count (λ ranges. ranges) };

    fn next(&mut self) -> Option<NumberRange> {
        match first_range(self.largest, self.bytes) {
            Some((range, largest, bytes)) => {
                self.largest = largest;
                self.bytes = bytes;
                Some(range)
            }
            None => None,
        }
    }
}

impl<'a> Ack<'a> {
    /// The ranges of packet numbers that the frame acknowledges, from the greatest down.
    pub fn ranges(&self) -> AckRanges<'a>
        ensures { result ≡ ranges_of (ack_map (λ bytes. bytes.now) self.now) }
    {
        AckRanges {
            largest: self.largest,
            bytes: self.additional,
        }
    }
}

/// Appends the numbers that say a range below others.
fn put_range(out: &mut Vec<u8>, range: NumberRange, above: &[NumberRange]) -> Result<(), AllocError>
    requires { Normal (range ∷ above.now) }
    ensures { OnOk result (out.new.items ≡ out.old.items ++ flat_map varint (range_numbers range above.now)) }
{
    match above {
        [] => put_varint(out, range.last - range.first),
        [next, ..] => {
            put_varint(out, next.first - range.last - 2)?;
            put_varint(out, range.last - range.first)
        }
    }
}

/// Appends the numbers that say these ranges, from the greatest down.
fn put_ranges(out: &mut Vec<u8>, ranges: &[NumberRange]) -> Result<(), AllocError>
    requires { Normal ranges.now }
    ensures { OnOk result (out.new.items ≡ out.old.items ++ flat_map varint (numbers_up ranges.now)) }
{
    for i in 0..ranges.len() {
        let place = ranges.len() - 1 - i;
        let (_, above) = ranges.split_at(place + 1);
        put_range(out, ranges[place], above)?;
    }
    Ok(())
}

/// A law, which runs no code: the ranges of an ACK frame that was read, or that can be written, lie
/// apart from one another, and none is empty; the first one ends at the largest number, and those
/// behind it lie below.
pub fn ranges_lie_apart()
    ensures apart { (ack : AckValue) → Fits (frames.Ack ack) → Normal (reverse (ranges_of ack)) }
    ensures within { (ack : AckValue) → Fits (frames.Ack ack) → All (λ range. range.last ≤ ack.largest) (ranges_of ack) }
    ensures largest { (ack : AckValue) → Fits (frames.Ack ack) → Acknowledges ack ack.largest }
{}

/// Whether these are ranges of packet numbers, which lie below 2^62, and there is one.
fn are_packets(ranges: &[NumberRange]) -> bool
    ensures { IsTrue result ↔ (0 < length ranges.now) × ((slice_index_or ranges.now (length ranges.now - 1) (record { first = 0; last = 0 })).last < 2 ^ 62) }
{
    if ranges.is_empty() {
        return false;
    }
    ranges[ranges.len() - 1].last < 4_611_686_018_427_387_904
}

/// The ACK with these ranges.
fn ack_of(
    alloc: Global,
    ranges: &[NumberRange],
    delay: u64,
    ecn: Option<EcnCounts>,
) -> Result<OwnedAck, AllocError>
    requires normal { Normal ranges.now }
    requires some { 0 < length ranges.now }
    requires small { (slice_index_or ranges.now (length ranges.now - 1) (record { first = 0; last = 0 })).last < 2 ^ 62 }
    ensures says { IfOk result (λ ack. SaysSet ack.largest ack.additional ranges.now) }
    ensures others { IfOk result (λ ack. (ack.delay ≡ delay) × (ack.ecn ≡ ecn)) }
{
    let mut additional = Vec::new(alloc);
    put_ranges(&mut additional, ranges)?;
    let largest = ranges[ranges.len() - 1].last;
    let additional = Bytes::from_vec(additional)?;
    Ok(AckOf {
        largest,
        delay,
        additional,
        ecn,
    })
}

impl OwnedAck {
    /// The ACK that acknowledges exactly the packets with these numbers, after a delay in units of
    /// 2^ack_delay_exponent microseconds, with the numbers of its ranges in their shortest form. None exactly where there is no number, or one that is no
    /// packet number since it is 2^62 or more.
    pub fn of_numbers(
        alloc: Global,
        numbers: &ArrayRangeSet,
        delay: u64,
        ecn: Option<EcnCounts>,
    ) -> Result<Option<OwnedAck>, AllocError>
        ensures none { IfOk result (λ r. IfNone r (ArePackets numbers.now → ⊥)) }
        ensures some { IfOk result (λ r. IfSome r (λ _. ArePackets numbers.now)) }
        ensures numbers { IfOk result (λ r. IfSome r (λ ack. (n : ℕ) → Acknowledges (ack_map (λ bytes. bytes) ack) n ↔ Member n numbers.now)) }
        ensures ranges { IfOk result (λ r. IfSome r (λ ack. ranges_of (ack_map (λ bytes. bytes) ack) ≡ reverse numbers.now)) }
        ensures shortest { IfOk result (λ r. IfSome r (λ ack. ack.additional ≡ flat_map varint (numbers_of ack.additional))) }
        ensures others { IfOk result (λ r. IfSome r (λ ack. (ack.delay ≡ delay) × (ack.ecn ≡ ecn))) }
        ensures fits { delay < 2 ^ 62 → CountsFit ecn → IfOk result (λ r. IfSome r (λ ack. Fits (frames.Ack (ack_map (λ bytes. bytes) ack)))) }
    {
        let ranges = numbers.as_slice();
        if !are_packets(ranges) {
            return Ok(None);
        }
        let ack = ack_of(alloc, ranges, delay, ecn)?;
        Ok(Some(ack))
    }

    /// The ranges of packet numbers that the frame acknowledges, from the greatest down.
    pub fn ranges(&self) -> AckRanges<'_>
        ensures { result ≡ ranges_of (ack_map (λ bytes. bytes) self.now) }
    {
        AckRanges {
            largest: self.largest,
            bytes: self.additional.as_slice(),
        }
    }
}
