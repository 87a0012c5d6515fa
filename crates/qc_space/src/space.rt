//! What a packet number space keeps of packets that came.

ghost use Rattle.std.specs.Prelude.{◌≡◌};
ghost use Rattle.qc_path.specs.Acks.{sets_delay};
ghost use Rattle.qc_path.specs.Arrived.{arrived};
ghost use Rattle.qc_space.specs.Spaces.{arrival_of, counted_marks, is_congested, marked, no_packets, packet_received, probes_added, probes_spent};

use qc_base::{EcnCodepoint, Instant};
use qc_frame::EcnCounts;
use qc_path::{Arrival, Dedup, PendingAcks};

/// The greatest count of marks that an ACK has room for.
const GREATEST_COUNT: u64 = 4_611_686_018_427_387_903;

/// What a packet number space keeps of packets that came, and how many probes are due in it, in one
/// value with its own calls. A connection's spaces are made of the same parts, and not of this value.
#[derive(Drop)]
pub struct PacketSpace {
    /// The numbers that came.
    pub seen: Dedup,
    /// The numbers to acknowledge.
    pub acks: PendingAcks,
    /// How many packets came with each mark of ECN (RFC 9000, section 13.4.1).
    pub marks: EcnCounts,
    /// How many probes are due (RFC 9002, section 6.2.4).
    pub probes: u64,
}

fn one_more(count: u64) -> u64
    ensures { result ≡ counted_marks count }
{
    if count < GREATEST_COUNT {
        count + 1
    } else {
        GREATEST_COUNT
    }
}

/// The counts of marks with one packet more, if it came with a mark (RFC 9000, section 13.4.1). A count stands still at
/// 2^62 - 1, the greatest that an ACK has room for.
pub fn with_mark(counts: EcnCounts, mark: Option<EcnCodepoint>) -> EcnCounts
    ensures { result ≡ marked counts mark }
{
    match mark {
        None => counts,
        Some(EcnCodepoint::Ect0) => EcnCounts {
            ect0: one_more(counts.ect0),
            ect1: counts.ect1,
            ce: counts.ce,
        },
        Some(EcnCodepoint::Ect1) => EcnCounts {
            ect0: counts.ect0,
            ect1: one_more(counts.ect1),
            ce: counts.ce,
        },
        Some(EcnCodepoint::Ce) => EcnCounts {
            ect0: counts.ect0,
            ect1: counts.ect1,
            ce: one_more(counts.ce),
        },
    }
}

fn shows_congestion(mark: Option<EcnCodepoint>) -> bool
    ensures { result ≡ is_congested mark }
{
    match mark {
        None => false,
        Some(mark) => mark.is_ce(),
    }
}

impl PacketSpace {
    /// Nothing came.
    pub fn new() -> PacketSpace
        ensures { result ≡ no_packets }
    {
        PacketSpace {
            seen: Dedup::new(),
            acks: PendingAcks::new(),
            marks: EcnCounts {
                ect0: 0,
                ect1: 0,
                ce: 0,
            },
            probes: 0,
        }
    }

    /// A packet came that was opened. Answers whether the timer for an ACK that is held back is to be
    /// set.
    #[tactic(auto, unfolding(crate::specs::Spaces::packet_received))]
    pub fn received(
        &mut self,
        in_data: bool,
        number: u64,
        at: Instant,
        ack_eliciting: bool,
        mark: Option<EcnCodepoint>,
    ) -> bool
        ensures after { self.new ≡ packet_received in_data number at ack_eliciting mark self.old }
        ensures timer { result ≡ sets_delay in_data (arrived number self.old.seen) (arrival_of number at ack_eliciting mark) self.old.acks.marks }
    {
        let _ = self.seen.insert(number);
        self.marks = with_mark(self.marks, mark);
        let packet = Arrival {
            number,
            at,
            ack_eliciting,
            ce: shows_congestion(mark),
        };
        self.acks.received(in_data, &self.seen, &packet)
    }

    /// Probes are due.
    pub fn add_probes(&mut self, count: u64)
        ensures { self.new ≡ probes_added count self.old }
    {
        self.probes = self.probes.saturating_add(count);
    }

    /// A datagram is begun for the space, which spends a probe that is due.
    pub fn spend_probe(&mut self)
        ensures { self.new ≡ probes_spent self.old }
    {
        self.probes = self.probes.saturating_sub(1);
    }
}
