//! Packets to acknowledge (RFC 9000, section 13.2).

ghost use Rattle.std.specs.Prelude.{◌≡◌, ℕ, ◌==◌, Bool, false, ◌||◌, List, [], length};
ghost use Rattle.qc_path.specs.Arrived.{Window};
ghost use Rattle.qc_base.specs.RangeSet.{KeepsFrom, Normal, latest};
ghost use Rattle.qc_base.specs.declared.range_set.NumberRange.{NumberRange};
ghost use Rattle.qc_path.specs.AckCalls.{AckCall, IsAckDue, all_called, no_calls};
ghost use Rattle.qc_path.specs.AckRanges.{from_number, with_number};
ghost use Rattle.qc_path.specs.declared.pending_acks.Arrival.{Arrival};
ghost use Rattle.qc_path.specs.Acks.{PendingValues, TakesIn, ack_delay, acks_confirmed, acks_received, counted_in, gives_ack, greatest_noted, has_come_by, is_clear, is_due, joins_ack, makes_owed, marks_expired, marks_received, marks_sent, next_bundle, no_marks, out_of_order, owed_with, owes_ack, sets_delay};

use crate::Dedup;
use crate::ack_set::AckSet;
use crate::dedup::{greatest_of, is_above};
use qc_base::{ArrayRangeSet, Duration, Instant};
use std::marker::Model;

/// How many packets that elicit no ACK come before an ACK joins the next packet.
const SILENT_PACKETS: u64 = 10;

/// A packet that came and is counted.
#[derive(Clone, Copy, Debug)]
pub struct Arrival {
    /// Its number.
    pub number: u64,
    /// When it came.
    pub at: Instant,
    /// Whether it asks for an acknowledgement.
    pub ack_eliciting: bool,
    /// Whether it came with a mark of congestion.
    pub ce: bool,
}

/// What is kept beside the numbers.
#[derive(Debug, Drop)]
struct Marks {
    owed: bool,
    eliciting: u64,
    silent: u64,
    greatest_eliciting: Option<u64>,
    greatest: Option<u64>,
    came_at: Instant,
    delay_set: bool,
}

impl Model for Marks {
    ghost use Rattle.qc_path.specs.Acks.{AckMarks};

    ghost Value = { AckMarks };

    ghost view = { λ m. record { owed = m.owed; eliciting = m.eliciting; silent = m.silent; greatest_eliciting = m.greatest_eliciting; greatest = m.greatest; came_at = m.came_at; delay_set = m.delay_set } };
}

fn is_out_of_order(seen: &Dedup, greatest: Option<u64>, number: u64) -> bool
    ensures { result ≡ out_of_order seen.now greatest number }
{
    match greatest {
        None => seen.is_missing(0, number),
        Some(greatest) => number < greatest || seen.is_missing(greatest.saturating_add(1), number),
    }
}

impl Marks {
    #[tactic(auto, unfolding(crate::specs::Acks::is_due))]
    fn is_due(&self, seen: &Dedup, number: u64) -> bool
        ensures { result ≡ is_due seen.now number self.now }
    {
        1 <= self.eliciting || is_out_of_order(seen, self.greatest_eliciting, number)
    }

    #[tactic(auto, unfolding(crate::specs::Acks::makes_owed))]
    fn makes_owed(&self, in_data: bool, seen: &Dedup, packet: &Arrival) -> bool
        ensures { result ≡ makes_owed in_data seen.now packet.now self.now }
    {
        packet.ce || (packet.ack_eliciting && (!in_data || self.is_due(seen, packet.number)))
    }

    #[tactic(auto, unfolding(crate::specs::Acks::greatest_noted))]
    fn note_greatest(&mut self, packet: &Arrival)
        ensures { self.new ≡ greatest_noted packet.now self.old }
    {
        if is_above(self.greatest, packet.number) {
            self.greatest = Some(packet.number);
            self.came_at = packet.at;
        }
    }

    #[tactic(auto, unfolding(crate::specs::Acks::counted_in))]
    fn count(&mut self, packet: &Arrival)
        ensures { self.new ≡ counted_in packet.now self.old }
    {
        if packet.ack_eliciting {
            self.eliciting = self.eliciting.saturating_add(1);
            self.greatest_eliciting = greatest_of(self.greatest_eliciting, packet.number);
        } else {
            self.silent = self.silent.saturating_add(1);
        }
    }

    #[tactic(auto, unfolding(crate::specs::Acks::owed_with))]
    fn owed_with(&self, in_data: bool, seen: &Dedup, packet: &Arrival) -> bool
        ensures { result ≡ owed_with in_data seen.now packet.now self.now }
    {
        self.owed || self.makes_owed(in_data, seen, packet)
    }

    #[tactic(auto, unfolding(crate::specs::Acks::sets_delay))]
    fn sets_delay(&self, in_data: bool, seen: &Dedup, packet: &Arrival) -> bool
        ensures { result ≡ sets_delay in_data seen.now packet.now self.now }
    {
        in_data && packet.ack_eliciting && !self.owed_with(in_data, seen, packet) && !self.delay_set
    }

    #[tactic(auto, unfolding(crate::specs::Acks::marks_received, crate::specs::Acks::greatest_noted, crate::specs::Acks::counted_in))]
    fn received(&mut self, in_data: bool, seen: &Dedup, packet: &Arrival) -> bool
        ensures marks { self.new ≡ marks_received in_data seen.now packet.now self.old }
        ensures timer { result ≡ sets_delay in_data seen.now packet.now self.old }
    {
        let owed = self.owed_with(in_data, seen, packet);
        let sets = self.sets_delay(in_data, seen, packet);
        let delay_set = either(self.delay_set, sets);
        self.note_greatest(packet);
        self.count(packet);
        self.owed = owed;
        self.delay_set = delay_set;
        sets
    }
}

fn either(a: bool, b: bool) -> bool
    ensures { result ≡ (a || b) }
{
    a || b
}

/// The numbers of the packets of one space that came and are to be acknowledged, and whether an ACK
/// is owed.
#[derive(Debug, Drop)]
pub struct PendingAcks {
    numbers: AckSet,
    marks: Marks,
}

impl Model for PendingAcks {
    ghost use Rattle.qc_path.specs.Acks.{PendingValues};

    ghost Value = { PendingValues };

    ghost view = { λ p. record { ranges = p.numbers; marks = p.marks } };
}

impl PendingAcks {
    /// Nothing came.
    #[tactic(auto, unfolding(crate::specs::Acks::no_marks))]
    pub fn new() -> PendingAcks
        ensures { result ≡ record { ranges = []; marks = no_marks } }
    {
        PendingAcks {
            numbers: AckSet::new(),
            marks: Marks {
                owed: false,
                eliciting: 0,
                silent: 0,
                greatest_eliciting: None,
                greatest: None,
                came_at: Instant::from_nanos(0),
                delay_set: false,
            },
        }
    }

    /// A packet came, whose number `seen` has already. Answers whether the timer for an ACK that is
    /// held back (RFC 9000, section 13.2.1) is to be set.
    #[tactic(auto, unfolding(crate::specs::Acks::acks_received))]
    pub fn received(&mut self, in_data: bool, seen: &Dedup, packet: &Arrival) -> bool
        ensures after { self.new ≡ acks_received in_data seen.now packet.now self.old }
        ensures timer { result ≡ sets_delay in_data seen.now packet.now self.old.marks }
    {
        self.numbers.insert(packet.number);
        self.marks.received(in_data, seen, packet)
    }

    /// An ACK was sent.
    #[tactic(auto, unfolding(crate::specs::Acks::marks_sent))]
    pub fn sent(&mut self)
        ensures { self.new ≡ record self.old { marks = marks_sent self.old.marks } }
    {
        self.marks.owed = false;
        self.marks.eliciting = 0;
        self.marks.silent = 0;
        self.marks.delay_set = false;
    }

    /// The timer for an ACK that is held back expired.
    #[tactic(auto, unfolding(crate::specs::Acks::marks_expired))]
    pub fn expired(&mut self)
        ensures { self.new ≡ record self.old { marks = marks_expired (length self.old.ranges == 0) self.old.marks } }
    {
        self.marks.owed = self.marks.owed || !self.numbers.is_empty();
    }

    /// An ACK whose greatest number is `largest` was acknowledged: the numbers up to it needn't be
    /// acknowledged again (RFC 9000, section 13.2.4).
    #[tactic(auto, unfolding(crate::specs::Acks::acks_confirmed))]
    pub fn acknowledged(&mut self, largest: u64)
        ensures { self.new ≡ acks_confirmed largest self.old }
    {
        self.numbers.forget(largest);
    }

    /// Whether an ACK is owed.
    #[tactic(auto, unfolding(crate::specs::Acks::owes_ack))]
    pub fn owes(&self) -> bool
        ensures { result ≡ owes_ack self.now }
    {
        self.marks.owed && !self.numbers.is_empty()
    }

    #[tactic(auto, unfolding(crate::specs::Acks::joins_ack))]
    fn joins(&self) -> bool
        ensures { result ≡ joins_ack self.now }
    {
        SILENT_PACKETS < self.marks.silent && !self.numbers.is_empty()
    }

    /// Whether a packet of the space that is sealed at `now` holds an ACK. `bundled` is the time
    /// from which on one may be bundled.
    #[tactic(auto, unfolding(crate::specs::Acks::gives_ack))]
    pub fn gives(&self, now: Instant, bundled: Option<Instant>) -> bool
        ensures { result ≡ gives_ack now bundled self.now }
    {
        self.owes() || self.joins() || (!self.numbers.is_empty() && is_past(bundled, now))
    }

    /// For how long the greatest number that came has waited, in units of 8 microseconds (RFC 9000,
    /// section 19.3).
    #[tactic(auto, unfolding(crate::specs::Acks::ack_delay))]
    pub fn delay(&self, now: Instant) -> u64
        ensures { result ≡ ack_delay now self.now.marks }
    {
        now.since(self.marks.came_at).nanos() / 1000 / 8
    }

    /// The numbers to acknowledge.
    pub fn ranges(&self) -> &ArrayRangeSet
        ensures { result.now ≡ self.now.ranges }
    {
        self.numbers.ranges()
    }
}

fn is_past(time: Option<Instant>, now: Instant) -> bool
    ensures { result ≡ has_come_by time now }
{
    match time {
        None => false,
        Some(time) => time.nanos() <= now.nanos(),
    }
}

/// The time from which on an ACK may next be bundled with other frames, after one was sent at `now`:
/// not before the peer had time to answer it.
#[tactic(auto, unfolding(crate::specs::Acks::next_bundle))]
pub fn next_bundled_ack_time(now: Instant, rtt: Duration, peer_delay: Duration) -> Instant
    ensures { result ≡ next_bundle now rtt peer_delay }
{
    now.plus(rtt.plus(peer_delay).plus(Duration::from_millis(1)))
}

/// A law, which runs no code. Ranges with a number more are those with the old numbers and this one,
/// of which the 64 highest are kept; ranges from a number on are those with the old numbers from it on.
#[tactic(auto, using(crate::proofs::RangesWith::with_takes_in, crate::proofs::RangesWith::from_keeps))]
pub fn numbers_are_kept()
    ensures more { (n : ℕ) (old : List NumberRange) → Normal old → TakesIn n old (latest (with_number n old)) }
    ensures fewer { (n : ℕ) (old : List NumberRange) → Normal old → KeepsFrom n old (from_number n old) }
{}

/// A law, which runs no code. In the Data space, whatever calls are made: behind a packet that elicits
/// an ACK one is owed, or a call answered since the last ACK went that its timer is to be set; and
/// behind the second such packet since then an ACK is owed (RFC 9000, sections 13.2.1 and 13.2.2).
/// Where nothing is left to acknowledge, nothing is owed; once a packet came, something is left.
#[tactic(auto, using(crate::proofs::AcksDue::all_due, crate::proofs::AcksDue::arrival_left))]
pub fn acks_are_due()
    ensures due { (calls : List AckCall) → IsAckDue (all_called calls no_calls) }
    ensures left { (in_data : Bool) (seen : Window) (packet : Arrival) (pending : PendingValues) → is_clear (acks_received in_data seen packet pending) ≡ false }
{}
