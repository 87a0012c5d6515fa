//! What a path is told of packets that were acknowledged and lost.

ghost use Rattle.std.specs.Prelude.{◌≡◌};
ghost use Rattle.qc_recovery.specs.Acking.{ack_told, acks_told, bursts_told, ecn_told, end_told, event_told, first_noted, hole_told, is_persistent_in, losses_told, probe_told, sample_taken, size_told};

use crate::burst::{Burst, ended_by, is_burst_packet, with};
use crate::ecn::EcnVerdict;
use crate::limits::Limits;
use crate::losses::{LossReport, in_data, summed};
use crate::path::PathData;
use crate::persistent::{is_persistent, span_of};
use qc_base::{Duration, Instant, SpaceId};
use qc_flight::{PacketList, SentPacket};
use qc_path::Controller;

#[tactic(auto, unfolding(crate::specs::Acking::size_told))]
fn tell_size<C: Controller>(
    path: &mut PathData<C>,
    now: Instant,
    space: SpaceId,
    entry: &(u64, SentPacket),
)
    ensures { path.new ≡ size_told C.Controller now space entry.now path.old }
{
    if !in_data(space) {
        return;
    }
    let probe = path.mtud.is_probe(entry.0);
    path.mtud.on_acked(now, entry.0, entry.1.size);
    if probe {
        path.congestion.on_mtu_update(path.mtud.current_mtu());
    }
}

#[tactic(auto, unfolding(crate::specs::Acking::ack_told))]
fn tell_ack<C: Controller>(
    path: &mut PathData<C>,
    now: Instant,
    limited: bool,
    entry: &(u64, SentPacket),
)
    ensures { path.new ≡ ack_told C.Controller now limited entry.now path.old }
{
    let packet = &entry.1;
    if packet.ack_eliciting && path.challenge.is_none() {
        path.congestion
            .on_ack(now, packet.at, packet.size, limited, &path.rtt);
    }
}

/// The packets are acknowledged.
#[tactic(auto, using(crate::proofs::Places::all_left))]
pub(crate) fn tell_acks<C: Controller>(
    path: &mut PathData<C>,
    now: Instant,
    space: SpaceId,
    limited: bool,
    acked: &PacketList,
)
    ensures { path.new ≡ acks_told C.Controller now space limited acked.now path.old }
{
    let mut place = 0;
    while place < acked.len() {
        let entry = acked.entry(place);
        tell_size(path, now, space, entry);
        tell_ack(path, now, limited, entry);
        place += 1;
    }
}

/// All packets that an ACK newly acknowledges were told.
#[tactic(auto, unfolding(crate::specs::Acking::end_told))]
pub(crate) fn tell_end<C: Controller>(
    path: &mut PathData<C>,
    now: Instant,
    in_flight: u64,
    limited: bool,
    largest: Option<u64>,
)
    ensures { path.new ≡ end_told C.Controller now in_flight limited largest path.old }
{
    path.congestion
        .on_end_acks(now, in_flight, limited, largest);
}

fn first(sample: Option<(SpaceId, u64)>, space: SpaceId, next: u64) -> Option<(SpaceId, u64)>
    ensures { result ≡ first_noted sample space next }
{
    match sample {
        None => Some((space, next)),
        Some(sample) => Some(sample),
    }
}

/// A round trip ended, whose packet was sent at `at`.
#[tactic(auto, unfolding(crate::specs::Acking::sample_taken))]
pub(crate) fn take_sample<C: Controller>(
    path: &mut PathData<C>,
    now: Instant,
    space: SpaceId,
    next: u64,
    delay: Duration,
    at: Instant,
)
    ensures { path.new ≡ sample_taken now space next delay at path.old }
{
    path.rtt.update(delay, now.since(at));
    path.first_sample = first(path.first_sample, space, next);
}

#[tactic(auto, unfolding(crate::specs::Acking::hole_told))]
fn tell_hole<C: Controller>(path: &mut PathData<C>, now: Instant, burst: Option<Burst>)
    ensures { path.new ≡ hole_told C.Controller now burst path.old }
{
    match burst {
        None => {}
        Some(burst) => {
            let before = path.mtud.current_mtu();
            path.mtud.on_burst_lost(now, burst.smallest, burst.last);
            let after = path.mtud.current_mtu();
            if after < before {
                path.congestion.on_mtu_update(after);
            }
        }
    }
}

/// The search is told of the bursts of packets that are lost at once.
#[tactic(auto, unfolding(crate::specs::Acking::bursts_told), using(crate::proofs::Bursts::bursts_start, crate::proofs::Bursts::burst_goes_on, crate::proofs::Bursts::burst_passes, crate::proofs::Bursts::bursts_end))]
fn tell_bursts<C: Controller>(
    path: &mut PathData<C>,
    now: Instant,
    space: SpaceId,
    lost: &PacketList,
)
    ensures { path.new ≡ bursts_told C.Controller now space lost.now path.old }
{
    let search = path.mtud.copy();
    let mut burst: Option<Burst> = None;
    let mut place = 0;
    while place < lost.len() {
        let entry = lost.entry(place);
        if is_burst_packet(space, &search, entry) {
            tell_hole(path, now, ended_by(burst, entry.0));
            burst = Some(with(burst, entry.0, entry.1.size));
        }
        place += 1;
    }
    tell_hole(path, now, burst);
}

#[tactic(auto, unfolding(crate::specs::Acking::event_told))]
fn tell_event<C: Controller>(
    path: &mut PathData<C>,
    now: Instant,
    persistent: bool,
    report: &LossReport,
)
    ensures { path.new ≡ event_told C.Controller now persistent report.now path.old }
{
    if report.counted {
        path.congestion
            .on_congestion_event(now, report.at, persistent, report.bytes);
    }
}

#[tactic(auto, unfolding(crate::specs::Acking::probe_told))]
fn tell_probe<C: Controller>(path: &mut PathData<C>, now: Instant, report: &LossReport)
    ensures { path.new ≡ probe_told now report.now path.old }
{
    if report.probe {
        path.mtud.on_probe_lost(now);
    }
}

/// Packets are lost at once.
#[tactic(auto, unfolding(crate::specs::Acking::losses_told))]
pub(crate) fn tell_losses<C: Controller>(
    path: &mut PathData<C>,
    now: Instant,
    space: SpaceId,
    persistent: bool,
    lost: &PacketList,
)
    ensures { path.new ≡ losses_told C.Controller now space persistent lost.now path.old }
{
    let report = summed(space, &path.mtud, lost);
    tell_bursts(path, now, space, lost);
    tell_event(path, now, persistent, &report);
    tell_probe(path, now, &report);
}

/// Whether packets that are lost at once show a persistent congestion.
#[tactic(auto, unfolding(crate::specs::Acking::is_persistent_in))]
pub(crate) fn shows_persistent<C: Controller>(
    path: &PathData<C>,
    limits: &Limits,
    space: SpaceId,
    max_ack_delay: Duration,
    lost: &PacketList,
) -> bool
    ensures { result ≡ is_persistent_in limits.now space max_ack_delay lost.now path.now }
{
    let span = span_of(limits, &path.rtt, max_ack_delay);
    is_persistent(space, &path.mtud, path.first_sample, span, lost)
}

/// What the counts of an ACK show.
#[tactic(auto, unfolding(crate::specs::Acking::ecn_told))]
pub(crate) fn tell_ecn<C: Controller>(
    path: &mut PathData<C>,
    now: Instant,
    at: Instant,
    verdict: EcnVerdict,
)
    ensures { path.new ≡ ecn_told C.Controller now at verdict path.old }
{
    match verdict {
        EcnVerdict::Missing | EcnVerdict::Bad => path.sending_ecn = false,
        EcnVerdict::Congested => path.congestion.on_congestion_event(now, at, false, 0),
        EcnVerdict::Unread | EcnVerdict::Good => {}
    }
}
