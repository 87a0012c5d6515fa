//! Packets that are lost at once: after how long, and what the congestion controller is told of them.

ghost use Rattle.std.specs.Prelude.{◌≡◌, ◌&&◌, ◌||◌};
ghost use Rattle.qc_recovery.specs.Losses.{is_data, is_probe_in, loss_delay, no_report, rank, report_of, report_with};

use crate::limits::Limits;
use qc_base::{Duration, Instant, SpaceId};
use qc_flight::{PacketList, SentPacket};
use qc_path::{MtuDiscovery, RttEstimator};

/// The least time in nanoseconds after which a packet counts as lost: 1 ms.
const GRANULARITY: u64 = 1_000_000;

/// What the controller is told of packets that are lost at once. An MTU probe is told of alone.
#[derive(Clone, Copy, Debug)]
pub struct LossReport {
    /// Their bytes.
    pub bytes: u64,
    /// Whether one of them counted as in flight.
    pub counted: bool,
    /// When the greatest one was sent.
    pub at: Instant,
    /// Whether the MTU probe is lost too.
    pub probe: bool,
}

pub(crate) fn in_data(space: SpaceId) -> bool
    ensures { result ≡ is_data space }
{
    match space {
        SpaceId::Data => true,
        SpaceId::Initial | SpaceId::Handshake => false,
    }
}

pub(crate) fn rank_of(space: SpaceId) -> u8
    ensures { result ≡ rank space }
{
    match space {
        SpaceId::Initial => 0,
        SpaceId::Handshake => 1,
        SpaceId::Data => 2,
    }
}

/// How long ago a packet below the greatest one acknowledged has to be sent to be lost.
#[tactic(auto, unfolding(crate::specs::Losses::loss_delay))]
pub(crate) fn delay_of_loss(limits: &Limits, rtt: &RttEstimator) -> Duration
    ensures { result ≡ loss_delay limits.now rtt.now }
{
    let rtt = rtt.conservative().nanos();
    let part = rtt.saturating_mul(limits.time_numerator) / limits.time_denominator.max(1);
    Duration::from_nanos(part.max(GRANULARITY))
}

/// Whether a packet is the MTU probe in flight.
pub(crate) fn probes(space: SpaceId, mtud: &MtuDiscovery, entry: &(u64, SentPacket)) -> bool
    ensures { result ≡ is_probe_in space mtud.now entry.now }
{
    in_data(space) && mtud.is_probe(entry.0)
}

fn either(a: bool, b: bool) -> bool
    ensures { result ≡ (a || b) }
{
    a || b
}

#[tactic(auto, unfolding(crate::specs::Losses::report_with))]
fn add(
    report: LossReport,
    space: SpaceId,
    mtud: &MtuDiscovery,
    entry: &(u64, SentPacket),
) -> LossReport
    ensures { result ≡ report_with space mtud.now entry.now report }
{
    let packet = &entry.1;
    if probes(space, mtud, entry) {
        return LossReport {
            bytes: report.bytes,
            counted: report.counted,
            at: report.at,
            probe: true,
        };
    }
    LossReport {
        bytes: report.bytes.saturating_add(packet.size),
        counted: either(report.counted, packet.counted),
        at: packet.at,
        probe: report.probe,
    }
}

/// What is told of these packets.
#[tactic(auto, unfolding(crate::specs::Losses::report_of, crate::specs::Losses::no_report))]
pub(crate) fn summed(space: SpaceId, mtud: &MtuDiscovery, lost: &PacketList) -> LossReport
    ensures { result ≡ report_of space mtud.now lost.now }
{
    let mut report = LossReport {
        bytes: 0,
        counted: false,
        at: Instant::from_nanos(0),
        probe: false,
    };
    let mut place = 0;
    while place < lost.len() {
        let entry = lost.entry(place);
        report = add(report, space, mtud, entry);
        place += 1;
    }
    report
}
