//! Bursts of losses that may show a black hole (RFC 9000, section 14.3; RFC 8899, section 4.3).

ghost use Rattle.std.specs.Prelude.{◌≡◌};
ghost use Rattle.qc_path.specs.BlackHole.{clears, is_cleared, larger, no_bursts, packet_passed, placed_burst, probe_passed, sent_later, uncleared, with_burst};

/// A run of packets with consecutive numbers that were lost at once.
#[derive(Clone, Copy, Debug)]
pub struct LossBurst {
    /// The size of the smallest one.
    pub smallest: u64,
    /// The greatest number.
    pub last: u64,
}

/// A packet that was acknowledged.
#[derive(Clone, Copy, Debug)]
pub struct AckedPacket {
    /// Its number.
    pub number: u64,
    /// Its size.
    pub size: u64,
}

/// The bursts that count, at most three, and of the packets that were acknowledged the one that
/// clears most.
#[derive(Clone, Copy, Debug)]
pub struct BlackHoleDetector {
    first: Option<LossBurst>,
    second: Option<LossBurst>,
    third: Option<LossBurst>,
    acked: Option<AckedPacket>,
}

fn clears_one(packet: AckedPacket, burst: LossBurst) -> bool
    ensures { result ≡ clears packet burst }
{
    burst.last < packet.number && burst.smallest <= packet.size
}

fn left_of(packet: AckedPacket, burst: Option<LossBurst>) -> Option<LossBurst>
    ensures { result ≡ uncleared packet burst }
{
    match burst {
        None => None,
        Some(burst) => {
            if clears_one(packet, burst) {
                None
            } else {
                Some(burst)
            }
        }
    }
}

fn larger_of(acked: Option<AckedPacket>, packet: AckedPacket) -> AckedPacket
    ensures { result ≡ larger acked packet }
{
    match acked {
        None => packet,
        Some(acked) => {
            if acked.size < packet.size
                || (acked.size == packet.size && acked.number < packet.number)
            {
                packet
            } else {
                acked
            }
        }
    }
}

fn later_than(burst: LossBurst, acked: Option<AckedPacket>) -> Option<AckedPacket>
    ensures { result ≡ sent_later burst acked }
{
    match acked {
        None => None,
        Some(acked) => {
            if burst.last < acked.number {
                Some(acked)
            } else {
                None
            }
        }
    }
}

fn placed(
    burst: LossBurst,
    before: BlackHoleDetector,
    acked: Option<AckedPacket>,
) -> Option<BlackHoleDetector>
    ensures { result ≡ placed_burst burst before.first before.second before.third acked }
{
    match (before.first, before.second, before.third) {
        (None, second, third) => Some(BlackHoleDetector {
            first: Some(burst),
            second,
            third,
            acked,
        }),
        (Some(first), None, third) => Some(BlackHoleDetector {
            first: Some(first),
            second: Some(burst),
            third,
            acked,
        }),
        (Some(first), Some(second), None) => Some(BlackHoleDetector {
            first: Some(first),
            second: Some(second),
            third: Some(burst),
            acked,
        }),
        (Some(_), Some(_), Some(_)) => None,
    }
}

impl BlackHoleDetector {
    /// No burst counts, and nothing was acknowledged.
    pub(crate) fn new() -> BlackHoleDetector
        ensures { result ≡ no_bursts }
    {
        BlackHoleDetector {
            first: None,
            second: None,
            third: None,
            acked: None,
        }
    }

    /// A packet above the least size was acknowledged: bursts of packets that are no larger and were
    /// sent before it count no longer.
    #[tactic(auto, unfolding(crate::specs::BlackHole::packet_passed))]
    pub(crate) fn passed(self, packet: AckedPacket) -> BlackHoleDetector
        ensures { result ≡ packet_passed packet self }
    {
        BlackHoleDetector {
            first: left_of(packet, self.first),
            second: left_of(packet, self.second),
            third: left_of(packet, self.third),
            acked: Some(larger_of(self.acked, packet)),
        }
    }

    /// A probe was acknowledged: no burst counts any longer.
    #[tactic(auto, unfolding(crate::specs::BlackHole::probe_passed))]
    pub(crate) fn probe_passed(self, probe: AckedPacket) -> BlackHoleDetector
        ensures { result ≡ probe_passed probe self }
    {
        BlackHoleDetector {
            first: None,
            second: None,
            third: None,
            acked: Some(probe),
        }
    }

    /// Whether a packet that was sent later than a burst, and is no smaller, was acknowledged.
    pub(crate) fn clears(self, burst: LossBurst) -> bool
        ensures { result ≡ is_cleared self.acked burst }
    {
        match self.acked {
            None => false,
            Some(acked) => clears_one(acked, burst),
        }
    }

    /// A burst that counts; None where it is the fourth one.
    pub(crate) fn with(self, burst: LossBurst) -> Option<BlackHoleDetector>
        ensures { result ≡ with_burst burst self }
    {
        placed(burst, self, later_than(burst, self.acked))
    }
}
