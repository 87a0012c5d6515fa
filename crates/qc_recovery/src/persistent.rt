//! Persistent congestion: packets that are lost for long (RFC 9002, section 7.6).

ghost use Rattle.std.specs.Prelude.{◌≡◌, ◌+◌, ◌==◌, ◌&&◌};
ghost use Rattle.qc_recovery.specs.Losses.{congestion_span, earlier_start, is_far, marks_span, may_start, persists, run_on, start_after, start_by};

use crate::limits::Limits;
use crate::losses::{probes, rank_of};
use qc_base::{Duration, SpaceId};
use qc_flight::{PacketList, SentPacket};
use qc_path::{MtuDiscovery, RttEstimator};

fn marks(space: SpaceId, mtud: &MtuDiscovery, entry: &(u64, SentPacket)) -> bool
    ensures { result ≡ marks_span space mtud.now entry.now }
{
    entry.1.ack_eliciting && !probes(space, mtud, entry)
}

fn start(before: bool, same: bool, next: u64) -> Option<u64>
    ensures { result ≡ start_by before same next }
{
    if before {
        return Some(0);
    }
    if same {
        Some(next.saturating_add(1))
    } else {
        None
    }
}

fn start_of(space: SpaceId, sample: Option<(SpaceId, u64)>) -> Option<u64>
    ensures { result ≡ start_after space sample }
{
    match sample {
        None => None,
        Some(sample) => {
            let of_sample = rank_of(sample.0);
            let here = rank_of(space);
            start(of_sample < here, of_sample == here, sample.1)
        }
    }
}

fn starts(start: Option<u64>, number: u64) -> bool
    ensures { result ≡ may_start start number }
{
    match start {
        None => false,
        Some(least) => least <= number,
    }
}

fn continued(next: bool, from: Option<u64>) -> Option<u64>
    ensures { result ≡ run_on next from }
{
    if next { from } else { None }
}

fn with_start(starts: bool, from: Option<u64>, time: u64) -> Option<u64>
    ensures { result ≡ earlier_start starts from time }
{
    if !starts {
        return from;
    }
    match from {
        None => Some(time),
        Some(from) => Some(from.min(time)),
    }
}

fn far(span: Duration, from: Option<u64>, time: u64) -> bool
    ensures { result ≡ is_far span from time }
{
    match from {
        None => false,
        Some(from) => span.nanos() < time.saturating_sub(from),
    }
}

fn follows(number: u64, before: u64) -> bool
    ensures { result ≡ (number == before + 1) }
{
    before < number && number - before == 1
}

fn both(a: bool, b: bool) -> bool
    ensures { result ≡ (a && b) }
{
    a && b
}

/// Whether these packets, lost at once, show a persistent congestion (RFC 9002, section 7.6):
/// two of them that elicit an ACK, both after the path's first sample, were sent more than `span`
/// apart, and all numbers between them are lost too.
#[tactic(auto, using(crate::proofs::Spans::scan_start, crate::proofs::Spans::scan_end))]
pub(crate) fn is_persistent(
    space: SpaceId,
    mtud: &MtuDiscovery,
    sample: Option<(SpaceId, u64)>,
    span: Duration,
    lost: &PacketList,
) -> bool
    ensures { result ≡ persists (marks_span space mtud.now) span (start_after space sample) lost.now }
{
    let least = start_of(space, sample);
    let mut before = 0;
    let mut from: Option<u64> = None;
    let mut place = 0;
    while place < lost.len() {
        let entry = lost.entry(place);
        let number = entry.0;
        let time = entry.1.at.nanos();
        let marked = marks(space, mtud, entry);
        let run = continued(follows(number, before), from);
        if both(marked, far(span, run, time)) {
            return true;
        }
        from = with_start(both(marked, starts(least, number)), run, time);
        before = number;
        place += 1;
    }
    false
}

/// How far apart two lost packets have to be sent for that.
#[tactic(auto, unfolding(crate::specs::Losses::congestion_span))]
pub(crate) fn span_of(limits: &Limits, rtt: &RttEstimator, max_ack_delay: Duration) -> Duration
    ensures { result ≡ congestion_span limits.now rtt.now max_ack_delay }
{
    rtt.pto_base().plus(max_ack_delay).times(limits.persistent)
}
