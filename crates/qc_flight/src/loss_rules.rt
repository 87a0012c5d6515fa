//! What makes a packet acknowledged, and what makes it lost.

ghost use Rattle.std.specs.Prelude.{◌≡◌, ◌<◌, ◌≤◌, drop, length};
ghost use Rattle.qc_base.specs.RangeSet.{Normal};
ghost use Rattle.qc_flight.specs.Packets.{Entry, Reaches, Skips, is_in, is_lost};

use crate::sent::SentPacket;
use crate::sift::Test;
use qc_base::NumberRange;
use std::marker::Model;

/// The place of the first range that ends at `number` or later.
#[tactic(auto, using(crate::proofs::Ranges::skips_none, crate::proofs::Ranges::skips_one, crate::proofs::Ranges::reaches_here, crate::proofs::Ranges::reaches_end))]
fn skip(ranges: &[NumberRange], place: usize, number: u64) -> usize
    requires within { place ≤ length ranges.now }
    requires normal { Normal (drop place ranges.now) }
    ensures within { result ≤ length ranges.now }
    ensures skips { Skips number (drop place ranges.now) (drop result ranges.now) }
    ensures reaches { Reaches number (drop result ranges.now) }
{
    let mut at = place;
    while at < ranges.len() {
        let range = ranges[at];
        if number <= range.last {
            return at;
        }
        at += 1;
    }
    at
}

/// Whether `number` is in the first range from a place on; it isn't above that range.
#[tactic(auto, using(crate::proofs::Ranges::in_first, crate::proofs::Ranges::in_none))]
fn begins(ranges: &[NumberRange], place: usize, number: u64) -> bool
    requires within { place ≤ length ranges.now }
    requires normal { Normal (drop place ranges.now) }
    requires reaches { Reaches number (drop place ranges.now) }
    ensures { result ≡ is_in (drop place ranges.now) number }
{
    if place == ranges.len() {
        return false;
    }
    let range = ranges[place];
    range.first <= number
}

/// Packets that an ACK names. Its value is the ranges that are still to come.
#[derive(Drop)]
pub(crate) struct Acked<'a> {
    ranges: &'a [NumberRange],
    place: usize,
}

impl<'a> Model for Acked<'a> {
    ghost use Rattle.std.specs.Prelude.{List, ◌≤◌, drop, length};
    ghost use Rattle.qc_base.specs.RangeSet.{Normal};
    ghost use Rattle.qc_base.specs.declared.range_set.NumberRange.{NumberRange};

    ghost Value = { List NumberRange };

    ghost view = { λ a. drop a.place a.ranges.now };

    ghost invariant = { λ a. (a.place ≤ length a.ranges.now) × Normal (drop a.place a.ranges.now) };
}

impl<'a> Acked<'a> {
    /// Of these ranges, from low to high.
    pub(crate) fn by(ranges: &'a [NumberRange]) -> Acked<'a>
        requires { Normal ranges.now }
        ensures { result ≡ ranges.now }
    {
        Acked { ranges, place: 0 }
    }
}

impl<'a> Test for Acked<'a> {
    ghost use Rattle.qc_flight.specs.Packets.{is_in};

    ghost passes = { λ t e. is_in t e.0 };

    #[tactic(auto, using(crate::proofs::Ranges::agree_after))]
    fn test(&mut self, entry: &(u64, SentPacket)) -> bool {
        let number = entry.0;
        self.place = skip(self.ranges, self.place, number);
        begins(self.ranges, self.place, number)
    }
}

/// Packets that are lost.
#[derive(Drop)]
pub(crate) struct Lost {
    pub(crate) largest: u64,
    pub(crate) threshold: u64,
    pub(crate) now: u64,
    pub(crate) delay: u64,
}

impl Test for Lost {
    ghost use Rattle.qc_flight.specs.Packets.{is_lost};

    ghost passes = { λ t e. is_lost t.largest t.threshold t.now t.delay e };

    #[tactic(auto, unfolding(crate::specs::Packets::is_lost), using(crate::proofs::Ranges::agree_same))]
    fn test(&mut self, entry: &(u64, SentPacket)) -> bool {
        let number = entry.0;
        if self.largest <= number {
            return false;
        }
        if self.threshold <= self.largest - number {
            return true;
        }
        self.delay <= self.now.saturating_sub(entry.1.at.nanos())
    }
}
