//! What recovery keeps of one packet number space, and what an ACK and the loss timer do to it.

ghost use Rattle.std.specs.Prelude.{◌≡◌, ℕ, ◌==◌, ◌≤◌, ◌∷◌, ◌++◌, OnOk, OnErr, unwrap_or};
ghost use Rattle.std.specs.Option.{option_copied};
ghost use Rattle.qc_base.specs.RangeSet.{Normal};
ghost use Rattle.qc_flight.specs.Packets.{AllBelow, PassesUpTo, is_acked, up_to};
ghost use Rattle.qc_path.specs.Arrived.{exceeds};
ghost use Rattle.qc_recovery.specs.Acking.{acked_of, greatest_entry, held, limit_with, lost_of, raised, sent_at, space_acked, space_less, time_of_loss};
ghost use Rattle.qc_recovery.specs.Losses.{loss_delay};
ghost use Rattle.qc_recovery.specs.Steps.{no_space, space_bytes, space_dropped, space_sent};

use crate::limits::Limits;
use qc_base::{Duration, Instant, NumberRange};
use qc_flight::{Flight, PacketList, Room, SentPacket};
use qc_frame::EcnCounts;
use std::alloc::{AllocError, Global};

/// What recovery keeps of a packet number space.
#[derive(Drop)]
pub(crate) struct SpaceRecovery {
    /// The packets in flight.
    pub(crate) flight: Flight,
    /// The greatest number that was acknowledged.
    pub(crate) greatest: Option<u64>,
    /// When that packet was sent, where it was in flight; else the time kept before it.
    pub(crate) kept_at: Option<Instant>,
    /// When the last packet that elicits an ACK was sent.
    pub(crate) eliciting_at: Option<Instant>,
    /// When the next packet counts as lost for its age.
    pub(crate) loss_time: Option<Instant>,
    /// The peer's counts of marks.
    pub(crate) counts: EcnCounts,
}

pub(crate) fn is_raised(greatest: Option<u64>, largest: u64) -> bool
    ensures { result ≡ exceeds greatest largest }
{
    match greatest {
        None => true,
        Some(greatest) => greatest < largest,
    }
}

pub(crate) fn limit_of(greatest: Option<u64>, largest: u64) -> u64
    ensures { result ≡ limit_with greatest largest }
{
    match greatest {
        None => largest,
        Some(greatest) => greatest.max(largest),
    }
}

fn last(acked: &PacketList) -> Option<&(u64, SentPacket)>
    ensures { option_copied result ≡ greatest_entry acked.now }
{
    let len = acked.len();
    if len == 0 {
        return None;
    }
    Some(acked.entry(len - 1))
}

fn time_if(number: u64, entry: Option<&(u64, SentPacket)>, kept: Option<Instant>) -> Option<Instant>
    ensures { result ≡ sent_at number (option_copied entry.entry) kept }
{
    match entry {
        None => kept,
        Some(entry) => {
            if entry.0 == number {
                Some(entry.1.at)
            } else {
                kept
            }
        }
    }
}

fn when_lost(delay: Duration, earliest: Option<Instant>) -> Option<Instant>
    ensures { result ≡ time_of_loss delay earliest }
{
    match earliest {
        None => None,
        Some(earliest) => Some(earliest.plus(delay)),
    }
}

impl SpaceRecovery {
    /// Nothing in flight.
    #[tactic(auto, unfolding(crate::specs::Steps::no_space))]
    pub(crate) fn new(alloc: Global) -> SpaceRecovery
        ensures { result ≡ no_space }
    {
        SpaceRecovery {
            flight: Flight::new(alloc),
            greatest: None,
            kept_at: None,
            eliciting_at: None,
            loss_time: None,
            counts: EcnCounts {
                ect0: 0,
                ect1: 0,
                ce: 0,
            },
        }
    }

    /// A packet is in flight. After want of memory the space is as before.
    #[inline(always)]
    #[tactic(auto, unfolding(crate::specs::Steps::space_sent))]
    pub(crate) fn sent(&mut self, number: u64, packet: SentPacket) -> Result<(), AllocError>
        requires { AllBelow number self.old.flight }
        ensures ok { OnOk result (self.new ≡ space_sent number packet self.old) }
        ensures err { OnErr result (self.new ≡ self.old) }
    {
        let eliciting = packet.ack_eliciting;
        let at = packet.at;
        self.flight.sent(number, packet)?;
        if eliciting {
            self.eliciting_at = Some(at);
        }
        Ok(())
    }

    #[tactic(auto, unfolding(crate::specs::Acking::raised))]
    fn raise(&mut self, largest: u64, acked: &PacketList)
        ensures raised { self.new ≡ raised largest acked.now self.old }
        ensures flight { self.new.flight ≡ self.old.flight }
    {
        if is_raised(self.greatest, largest) {
            self.greatest = Some(largest);
            self.kept_at = time_if(largest, last(acked), self.kept_at);
        }
    }

    /// The numbers of an ACK leave the flight.
    #[tactic(auto, unfolding(crate::specs::Acking::acked_of, crate::specs::Acking::space_acked))]
    pub(crate) fn acknowledge(
        &mut self,
        largest: u64,
        ranges: &[NumberRange],
        room: Room,
    ) -> PacketList
        requires normal { Normal ranges.now }
        requires largest { PassesUpTo largest (is_acked ranges.now) }
        requires room { up_to largest self.old.flight ≤ room }
        ensures acked { result ≡ acked_of ranges.now self.old }
        ensures space { self.new ≡ space_acked largest ranges.now self.old }
        ensures fewer { (limit : ℕ) → up_to limit self.new.flight ≤ up_to limit self.old.flight }
    {
        let acked = self.flight.acknowledge(largest, ranges, room);
        self.raise(largest, &acked);
        acked
    }

    /// The packets that are lost leave the flight.
    #[tactic(auto, unfolding(crate::specs::Acking::lost_of, crate::specs::Acking::space_less))]
    pub(crate) fn take_lost(
        &mut self,
        limits: &Limits,
        now: Instant,
        delay: Duration,
        largest: u64,
        room: Room,
    ) -> PacketList
        requires { up_to largest self.old.flight ≤ room }
        ensures lost { result ≡ lost_of limits.now now delay largest self.old }
        ensures space { self.new ≡ space_less limits.now now delay largest self.old }
    {
        let lost = self
            .flight
            .take_lost(largest, limits.packet_threshold, now, delay, room);
        self.loss_time = when_lost(delay, self.flight.earliest_below(largest));
        lost
    }

    /// The bytes in flight.
    pub(crate) fn bytes(&self) -> u64
        ensures { result ≡ space_bytes self.now }
    {
        let bytes = self.flight.bytes();
        if bytes < 18_446_744_073_709_551_615 {
            bytes as u64
        } else {
            u64::MAX
        }
    }

    /// The space is dropped.
    #[tactic(auto, unfolding(crate::specs::Steps::space_dropped))]
    pub(crate) fn discard(&mut self) -> PacketList
        ensures all { result ≡ self.old.flight }
        ensures space { self.new ≡ space_dropped self.old }
    {
        self.eliciting_at = None;
        self.loss_time = None;
        self.flight.discard()
    }
}
