//! The packets of one space that are in flight.

ghost use Rattle.std.specs.Prelude.{◌≡◌, ℕ, ◌≤◌, ◌↔◌, [], ◌∷◌, ◌++◌, length, IfOk, OnOk, OnErr, IsTrue};
ghost use Rattle.std.specs.Option.{option_copied};
ghost use Rattle.qc_base.specs.RangeSet.{Normal};
ghost use Rattle.qc_flight.specs.Packets.{AllBelow, PassesUpTo, bytes_of, counted_of, earlier_of, earliest_of, eliciting_of, first_of, is_acked, is_below, is_lost, others, those, up_to};

use crate::counts::{Counts, minus, with};
use crate::list::PacketList;
use crate::loss_rules::{Acked, Lost};
use crate::room::Room;
use crate::sent::SentPacket;
use crate::sift::{front_len, take_passing};
use qc_base::{Duration, Instant, NumberRange};
use std::alloc::{AllocError, Global};
use std::collections::VecDeque;
use std::marker::Model;
use std::mem::replace;

/// The packets of one space that are neither acknowledged nor lost, in ascending order of number.
/// Each call looks at the packets at its front alone, up to the greatest number that it is about.
#[derive(Debug, Drop)]
pub struct Flight {
    packets: VecDeque<(u64, SentPacket)>,
    counts: Counts,
    alloc: Global,
}

impl Model for Flight {
    ghost use Rattle.std.specs.Prelude.{List};
    ghost use Rattle.qc_flight.specs.Packets.{Entry, IsCounted};

    ghost Value = { List Entry };

    ghost view = { λ f. f.packets.items };

    ghost invariant = { λ f. IsCounted f.packets.items f.counts };
}

impl Flight {
    /// Nothing in flight.
    #[tactic(auto, using(crate::proofs::Sums::counted_none))]
    pub fn new(alloc: Global) -> Flight
        ensures { result ≡ [] }
    {
        Flight {
            packets: VecDeque::new(alloc),
            counts: Counts::NONE,
            alloc,
        }
    }

    /// A packet is in flight. After want of memory the flight is as before.
    #[tactic(auto, using(crate::proofs::Sums::counts_small, crate::proofs::Sums::counted_sent))]
    pub fn sent(&mut self, number: u64, packet: SentPacket) -> Result<(), AllocError>
        requires { AllBelow number self.old }
        ensures ok { OnOk result (self.new ≡ self.old ++ (number, packet) ∷ []) }
        ensures err { OnErr result (self.new ≡ self.old) }
    {
        let counts = with(self.counts, &packet);
        self.packets.push_back((number, packet))?;
        self.counts = counts;
        Ok(())
    }

    /// Room for the packets with numbers up to `limit`.
    pub fn room(&self, limit: u64) -> Result<Room, AllocError>
        ensures { IfOk result (λ room. up_to limit self.now ≤ room) }
    {
        let count = front_len(&self.packets, limit);
        Room::for_packets(self.alloc, count)
    }

    /// Takes out the packets that an ACK names, by its ranges from low to high, none of which goes
    /// above `largest`.
    #[tactic(auto, using(crate::proofs::Sums::counted_taken, crate::proofs::Fronts::fewer_stay))]
    pub fn acknowledge(&mut self, largest: u64, ranges: &[NumberRange], room: Room) -> PacketList
        requires normal { Normal ranges.now }
        requires largest { PassesUpTo largest (is_acked ranges.now) }
        requires room { up_to largest self.old ≤ room }
        ensures acked { result ≡ those (is_acked ranges.now) self.old }
        ensures rest { self.new ≡ others (is_acked ranges.now) self.old }
        ensures fewer { (limit : ℕ) → up_to limit self.new ≤ up_to limit self.old }
    {
        let mut test = Acked::by(ranges);
        let mut taken = room.buffer();
        take_passing(&mut self.packets, largest, &mut test, &mut taken);
        self.counts = minus(self.counts, &taken);
        PacketList::of(taken)
    }

    /// Takes out the packets that are lost at `now`, where `largest` is the greatest number
    /// acknowledged: those `threshold` numbers or more below it, and those below it that were sent
    /// `delay` ago or longer (RFC 9002, section 6.1).
    #[tactic(auto, using(crate::proofs::Sums::counted_taken))]
    pub fn take_lost(
        &mut self,
        largest: u64,
        threshold: u64,
        now: Instant,
        delay: Duration,
        room: Room,
    ) -> PacketList
        requires { up_to largest self.old ≤ room }
        ensures lost { result ≡ those (is_lost largest threshold now delay) self.old }
        ensures rest { self.new ≡ others (is_lost largest threshold now delay) self.old }
    {
        let mut test = Lost {
            largest,
            threshold,
            now: now.nanos(),
            delay: delay.nanos(),
        };
        let mut taken = room.buffer();
        take_passing(&mut self.packets, largest, &mut test, &mut taken);
        self.counts = minus(self.counts, &taken);
        PacketList::of(taken)
    }

    /// Takes all packets out.
    #[tactic(auto, using(crate::proofs::Sums::counted_none))]
    pub fn discard(&mut self) -> PacketList
        ensures all { result ≡ self.old }
        ensures none { self.new ≡ [] }
    {
        self.counts = Counts::NONE;
        let packets = replace(&mut self.packets, VecDeque::new(self.alloc));
        PacketList::of(packets)
    }

    /// The bytes of the packets that count as in flight.
    #[tactic(auto, using(crate::proofs::Sums::sums_are))]
    pub fn bytes(&self) -> u128
        ensures { result ≡ bytes_of self.now }
    {
        self.counts.bytes
    }

    /// How many packets ask for an acknowledgement.
    #[tactic(auto, using(crate::proofs::Sums::sums_are))]
    pub fn eliciting(&self) -> u64
        ensures { result ≡ eliciting_of self.now }
    {
        self.counts.eliciting
    }

    /// How many packets count as in flight.
    #[tactic(auto, using(crate::proofs::Sums::sums_are))]
    pub fn counted(&self) -> u64
        ensures { result ≡ counted_of self.now }
    {
        self.counts.counted
    }

    /// The packet with the least number, if there is one.
    pub fn oldest(&self) -> Option<&SentPacket>
        ensures { option_copied result ≡ first_of self.now }
    {
        match self.packets.front() {
            None => None,
            Some(entry) => Some(&entry.1),
        }
    }

    /// Whether a number is above those of all packets, as that of the next one has to be.
    #[tactic(auto, using(crate::proofs::Sums::above_all, crate::proofs::Sums::below_nothing))]
    pub fn is_above(&self, number: u64) -> bool
        ensures { IsTrue result ↔ AllBelow number self.now }
    {
        match self.packets.back() {
            None => true,
            Some(entry) => entry.0 < number,
        }
    }

    /// The earliest time at which a packet with a number below `limit` was sent.
    #[tactic(auto, using(crate::proofs::Earliest::earliest_start, crate::proofs::Earliest::earliest_step, crate::proofs::Earliest::earliest_stop, crate::proofs::Earliest::earliest_end))]
    pub fn earliest_below(&self, limit: u64) -> Option<Instant>
        ensures { result ≡ earliest_of (those (is_below limit) self.now) }
    {
        let mut earliest = None;
        let mut place = 0;
        while place < self.packets.len() {
            let entry = &self.packets[place];
            if limit <= entry.0 {
                return earliest;
            }
            earliest = earlier(earliest, entry.1.at);
            place += 1;
        }
        earliest
    }
}

fn earlier(known: Option<Instant>, time: Instant) -> Option<Instant>
    ensures { result ≡ earlier_of known time }
{
    match known {
        None => Some(time),
        Some(known) => {
            if known.nanos() <= time.nanos() {
                Some(known)
            } else {
                Some(time)
            }
        }
    }
}
