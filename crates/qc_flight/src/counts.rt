ghost use Rattle.std.specs.Prelude.{◌≡◌, ◌+◌, ◌<◌, ◌≤◌, ◌^◌, cond};
ghost use Rattle.qc_flight.specs.Packets.{counts_less, counts_minus, counts_with};

use crate::sent::SentPacket;
use std::collections::VecDeque;

/// What is counted of packets.
#[derive(Clone, Copy, Debug)]
pub struct Counts {
    /// The bytes that count as in flight. No sum over packets that memory holds is too large.
    pub bytes: u128,
    /// How many packets ask for an acknowledgement.
    pub eliciting: u64,
    /// How many packets count as in flight.
    pub counted: u64,
}

impl Counts {
    /// No packets.
    pub(crate) const NONE: Counts = Counts {
        bytes: 0,
        eliciting: 0,
        counted: 0,
    };
}

fn one_if(holds: bool) -> u64
    ensures { result ≡ cond holds 1 0 }
{
    if holds { 1 } else { 0 }
}

fn bytes_if(holds: bool, size: u64) -> u128
    ensures value { result ≡ cond holds size 0 }
    ensures small { result < 2 ^ 64 }
{
    if holds { u128::from(size) } else { 0 }
}

/// One packet more.
#[tactic(auto, unfolding(crate::specs::Packets::counts_with))]
pub(crate) fn with(counts: Counts, packet: &SentPacket) -> Counts
    requires bytes { counts.bytes < 2 ^ 127 }
    requires eliciting { counts.eliciting < 2 ^ 63 }
    requires counted { counts.counted < 2 ^ 63 }
    ensures counts { result ≡ counts_with counts packet.now }
    ensures fits { packet.now.size ≤ 18446744073709551615 }
{
    let size = packet.size;
    let bytes = bytes_if(packet.counted, size);
    let eliciting = one_if(packet.ack_eliciting);
    let counted = one_if(packet.counted);
    Counts {
        bytes: counts.bytes + bytes,
        eliciting: counts.eliciting + eliciting,
        counted: counts.counted + counted,
    }
}

/// One packet less.
#[tactic(auto, unfolding(crate::specs::Packets::counts_less))]
fn less(counts: Counts, packet: &SentPacket) -> Counts
    ensures { result ≡ counts_less counts packet.now }
{
    let bytes = bytes_if(packet.counted, packet.size);
    let eliciting = one_if(packet.ack_eliciting);
    let counted = one_if(packet.counted);
    Counts {
        bytes: counts.bytes.saturating_sub(bytes),
        eliciting: counts.eliciting.saturating_sub(eliciting),
        counted: counts.counted.saturating_sub(counted),
    }
}

/// These packets less.
#[tactic(auto, using(crate::proofs::Sums::minus_more, crate::proofs::Sums::minus_none))]
pub(crate) fn minus(counts: Counts, taken: &VecDeque<(u64, SentPacket)>) -> Counts
    ensures { result ≡ counts_minus counts taken.now.items }
{
    let mut left = counts;
    let mut place = 0;
    while place < taken.len() {
        let entry = &taken[place];
        left = less(left, &entry.1);
        place += 1;
    }
    left
}
