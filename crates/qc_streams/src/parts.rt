//! Bytes of streams: which are sent next, and what becomes of them.

ghost use Rattle.std.specs.Prelude.{◌≡◌, ◌+◌, ◌&&◌, not, IfNone, IfOk, IfSome, OnErr, OnOk, length};
ghost use Rattle.std.specs.Option.{option_map};
ghost use Rattle.qc_send_stream.specs.Sending.{IsOffer, part_acked, part_lost, part_sealed};
ghost use Rattle.qc_streams.specs.Kept.{kept_of};
ghost use Rattle.qc_streams.specs.Sends.{sends_of};
ghost use Rattle.qc_streams.specs.StreamBytes.{IsDrawn, IsOfferAt, IsOfferOf, IsTurnAt, IsTurnOf, bytes_acked, bytes_lost, draw_one, drawn_turn, finished_at, is_finished, part_drawn, part_end, place_after, turn_left, turn_taken};
ghost use Rattle.qc_streams.specs.Records.{changed, record_of};
ghost use Rattle.qc_streams.specs.Sequel.{sequel_at, sequel_of, settling};
ghost use Rattle.qc_streams.specs.Stream.{with_sending};

use crate::events::StreamEvent;
use crate::records::Records;
use crate::sends::recounted;
use crate::sequel::Sequel;
use crate::state::StreamsState;
use crate::stream::Stream;
use crate::waiting::{Waiting, owes_data};
use qc_base::StreamId;
use qc_send_stream::{Part, SendPart};
use qc_turns::Place;
use std::alloc::AllocError;

/// How many bytes the head of a STREAM frame has at most (RFC 9000, section 19.8).
const HEAD: usize = 19;

/// The rank before that of every priority.
const FIRST_RANK: i64 = -4_294_967_296;

/// A part of a stream, as a STREAM frame holds it, and the stream's id.
#[derive(Drop)]
pub struct StreamPart {
    /// The stream's id.
    pub id: u64,
    /// The part.
    pub part: Part,
}

/// What was drawn of a stream.
#[derive(Drop)]
struct Drawn {
    part: Part,
    // whether the stream has more
    owes: bool,
    // the place that it had
    turn: Option<Place>,
    // the place where it goes on
    next: Place,
}

/// Where a stream of a priority goes on that has more, where so many turns were given.
fn place_again(fair: bool, priority: i32, turns: u64) -> Place
    ensures { result ≡ place_after fair turns priority }
{
    if fair {
        return (-i64::from(priority), turns);
    }
    (FIRST_RANK, turns)
}

/// Where a part ends.
#[tactic(auto, unfolding(crate::specs::StreamBytes::part_end, crate::specs::Counts::saturated))]
fn part_end(part: &Part) -> u64
    ensures { result ≡ part_end part.now }
{
    part.offset.saturating_add(part.bytes.len() as u64)
}

/// Whether all bytes and the end are acknowledged.
fn is_finished(sending: &Option<SendPart>) -> bool
    ensures { result ≡ is_finished sending.now }
{
    match sending {
        Some(sending) => sending.is_done() && sending.reset.is_none(),
        None => false,
    }
}

impl Stream {
    /// What it may give next, with at most so many bytes.
    #[tactic(auto, unfolding(crate::specs::StreamBytes::IsOfferOf))]
    fn offer(&mut self, most: usize) -> Result<Option<Part>, AllocError>
        ensures next { IfOk result (λ p. IsOfferOf most self.old.sending p) }
        ensures same { self.new ≡ self.old }
    {
        match &mut self.sending {
            Some(sending) => sending.offer(most),
            None => Ok(None),
        }
    }

    /// Bytes of it are sealed.
    #[tactic(auto, using(crate::proofs::Sizes::sealed_same, crate::proofs::Done::sealed_still), unfolding(crate::specs::Stream::with_sending))]
    fn seal(&mut self, start: u64, end: u64, last: bool) -> Result<(), AllocError>
        ensures sealed { OnOk result (self.new ≡ with_sending (part_sealed start end last) self.old) }
        ensures same { kept_of self.new ≡ kept_of self.old }
        ensures still { sends_of self.new ≡ sends_of self.old }
    {
        match &mut self.sending {
            Some(sending) => {
                sending.seal(start, end, last)?;
                Ok(())
            }
            None => Ok(()),
        }
    }

    /// It had a turn: it takes the next place where it has more, and gives up the one that it has where it
    /// hasn't.
    #[tactic(auto, unfolding(crate::specs::Queues::with_turn))]
    fn pass_turn(&mut self, owes: bool, turn: Option<Place>, next: Place)
        ensures passed { self.new ≡ drawn_turn owes turn next self.old }
        ensures same { kept_of self.new ≡ kept_of self.old }
        ensures still { sends_of self.new ≡ sends_of self.old }
    {
        if owes {
            self.set_turn(Some(next));
        } else if turn.is_some() {
            self.set_turn(None);
        }
    }

    /// Draws what it gives next, with at most so many bytes, where so many turns were given.
    #[tactic(auto, unfolding(crate::specs::StreamBytes::draw_one, crate::specs::StreamBytes::seal_one, crate::specs::Queues::dues_of, crate::specs::Queues::with_turn))]
    fn draw(&mut self, most: usize, fair: bool, turns: u64) -> Result<Option<Drawn>, AllocError>
        ensures next { IfOk result (λ d. IsOfferOf most self.old.sending (option_map (λ d. d.part) d)) }
        ensures drawn { IfOk result (λ d. IfSome d (λ d. self.new ≡ draw_one fair turns d.part self.old)) }
        ensures turn { IfOk result (λ d. IfSome d (λ d. IsTurnOf fair turns self.old d)) }
        ensures none { IfOk result (λ d. IfNone d (self.new ≡ self.old)) }
        ensures same { kept_of self.new ≡ kept_of self.old }
        ensures still { sends_of self.new ≡ sends_of self.old }
    {
        let turn = self.turn;
        let next = place_again(fair, self.priority, turns);
        let Some(part) = self.offer(most)? else {
            return Ok(None);
        };
        self.seal(part.offset, part_end(&part), part.last)?;
        let owes = owes_data(&mut self.sending);
        self.pass_turn(owes, turn, next);
        Ok(Some(Drawn {
            part,
            owes,
            turn,
            next,
        }))
    }

    /// Bytes of it are lost.
    #[tactic(auto, using(crate::proofs::Sizes::lost_same, crate::proofs::Done::lost_still), unfolding(crate::specs::Stream::with_sending))]
    fn lose(&mut self, start: u64, end: u64, last: bool) -> Result<(), AllocError>
        ensures lost { OnOk result (self.new ≡ with_sending (part_lost start end last) self.old) }
        ensures same { kept_of self.new ≡ kept_of self.old }
        ensures still { sends_of self.new ≡ sends_of self.old }
    {
        match &mut self.sending {
            Some(sending) => {
                sending.lose(start, end, last)?;
                Ok(())
            }
            None => Ok(()),
        }
    }

    /// Bytes of it are acknowledged; answers how many are kept no more.
    #[tactic(auto, unfolding(crate::specs::Stream::with_sending))]
    fn acknowledge(&mut self, start: u64, end: u64, last: bool) -> Result<u64, AllocError>
        ensures acked { OnOk result (self.new ≡ with_sending (part_acked start end last) self.old) }
        ensures count { IfOk result (λ n. n + kept_of self.new ≡ kept_of self.old) }
        ensures same { OnErr result (kept_of self.new ≡ kept_of self.old) }
        ensures still { OnErr result (sends_of self.new ≡ sends_of self.old) }
    {
        match &mut self.sending {
            Some(sending) => sending.acknowledge(start, end, last),
            None => Ok(0),
        }
    }
}

/// What bytes that are acknowledged left to be done.
#[derive(Clone, Copy, Debug)]
struct Acked {
    // how many bytes are kept no more
    count: u64,
    // whether with them all bytes and the end are acknowledged
    finishes: bool,
    sequel: Sequel,
}

impl Stream {
    /// Bytes of it are acknowledged; answers what is to be done.
    #[tactic(auto, unfolding(crate::specs::Sequel::settling))]
    fn take_acked(&mut self, start: u64, end: u64, last: bool) -> Result<Acked, AllocError>
        ensures acked { OnOk result (self.new ≡ settling (with_sending (part_acked start end last)) self.old) }
        ensures finishes { IfOk result (λ a. a.finishes ≡ (not (is_finished self.old.sending) && is_finished (with_sending (part_acked start end last) self.old).sending)) }
        ensures sequel { IfOk result (λ a. a.sequel ≡ sequel_of (with_sending (part_acked start end last) self.old)) }
        ensures count { IfOk result (λ a. a.count + kept_of self.new ≡ kept_of self.old) }
        ensures same { OnErr result (kept_of self.new ≡ kept_of self.old) }
        ensures still { OnErr result (sends_of self.new ≡ sends_of self.old) }
    {
        let before = is_finished(&self.sending);
        let count = self.acknowledge(start, end, last)?;
        let after = is_finished(&self.sending);
        let sequel = self.look_at();
        Ok(Acked {
            count,
            finishes: !before && after,
            sequel,
        })
    }
}

impl Records {
    /// Draws what the stream with an id gives next, with at most so many bytes, where so many turns were given.
    #[tactic(auto, using(crate::proofs::Back::record_back, crate::proofs::Draws::turn_so, crate::proofs::Keeping::same, crate::proofs::Sending::still), unfolding(crate::specs::StreamBytes::IsOfferAt))]
    fn draw(
        &mut self,
        id: u64,
        most: usize,
        fair: bool,
        turns: u64,
    ) -> Result<Option<Drawn>, AllocError>
        ensures next { IfOk result (λ d. IsOfferAt most (record_of id self.old) (option_map (λ d. d.part) d)) }
        ensures drawn { IfOk result (λ d. IfSome d (λ d. self.new ≡ changed (draw_one fair turns d.part) id self.old)) }
        ensures turn { IfOk result (λ d. IfSome d (λ d. IsTurnAt fair turns (record_of id self.old) d)) }
        ensures none { IfOk result (λ d. IfNone d (self.new ≡ self.old)) }
    {
        let Some(stream) = self.streams.get_mut(id) else {
            return Ok(None);
        };
        let Some(drawn) = stream.draw(most, fair, turns)? else {
            return Ok(None);
        };
        Ok(Some(drawn))
    }

    /// Bytes of the stream with an id are lost.
    #[tactic(auto, using(crate::proofs::Keeping::same, crate::proofs::Sending::still))]
    fn lose(&mut self, id: u64, start: u64, end: u64, last: bool) -> Result<(), AllocError>
        ensures lost { OnOk result (self.new ≡ changed (with_sending (part_lost start end last)) id self.old) }
    {
        let Some(stream) = self.streams.get_mut(id) else {
            return Ok(());
        };
        stream.lose(start, end, last)
    }

    /// Bytes of the stream with an id are acknowledged, of which one look tells what is to be done.
    #[tactic(auto, using(crate::proofs::Keeping::same, crate::proofs::Keeping::less, crate::proofs::Sending::still, crate::proofs::Sending::recounts))]
    fn acknowledge(
        &mut self,
        id: u64,
        start: u64,
        end: u64,
        last: bool,
    ) -> Result<(bool, Sequel), AllocError>
        ensures acked { OnOk result (self.new ≡ changed (settling (with_sending (part_acked start end last))) id self.old) }
        ensures finishes { IfOk result (λ a. a.0 ≡ (not (finished_at (record_of id self.old)) && finished_at (option_map (with_sending (part_acked start end last)) (record_of id self.old)))) }
        ensures sequel { IfOk result (λ a. a.1 ≡ sequel_at (option_map (with_sending (part_acked start end last)) (record_of id self.old))) }
    {
        match self.streams.get_mut(id) {
            Some(stream) => {
                let before = stream.sends();
                let acked = stream.take_acked(start, end, last)?;
                let after = stream.sends();
                let _count = self.streams.len();
                self.kept -= acked.count;
                self.sending = recounted(self.sending, before, after);
                Ok((acked.finishes, acked.sequel))
            }
            None => Ok((false, Sequel::Nothing)),
        }
    }
}

impl Waiting {
    /// A stream that had a turn gives its place up, and takes the next one where it has more.
    #[tactic(auto, unfolding(crate::specs::Counts::saturated))]
    fn pass_turn(
        &mut self,
        turn: Option<Place>,
        owes: bool,
        next: Place,
        id: u64,
    ) -> Result<(), AllocError>
        ensures { OnOk result (self.new ≡ turn_taken owes next id (turn_left turn self.old)) }
    {
        if let Some(place) = turn {
            self.ready.remove(place);
        }
        if owes {
            self.ready.insert(next, id)?;
            self.turns = self.turns.saturating_add(1);
        }
        Ok(())
    }
}

impl StreamsState {
    /// Draws bytes of the stream whose turn it is, or its end, where there is room for so many bytes
    /// with the head of a STREAM frame: lost ones before fresh ones. They count as sealed, and the
    /// stream takes another turn where it has more.
    ///
    /// # Errors
    ///
    /// Want of memory.
    #[tactic(auto, unfolding(crate::specs::StreamBytes::IsDrawn, crate::specs::StreamBytes::IsTurn))]
    pub fn draw_part(&mut self, room: usize) -> Result<Option<StreamPart>, AllocError>
        ensures next { IfOk result (λ d. IsDrawn room self.old d) }
        ensures drawn { IfOk result (λ d. self.new ≡ part_drawn d self.old) }
    {
        if room <= HEAD {
            return Ok(None);
        }
        let Some(id) = self.waiting.ready.first() else {
            return Ok(None);
        };
        let turns = self.waiting.turns;
        let Some(drawn) = self.records.draw(id, room - HEAD, self.fair, turns)? else {
            return Ok(None);
        };
        self.waiting
            .pass_turn(drawn.turn, drawn.owes, drawn.next, id)?;
        Ok(Some(StreamPart {
            id,
            part: drawn.part,
        }))
    }

    /// A STREAM frame with the bytes from `start` up to `end`, and with the stream's end where it is
    /// the last, was lost: what isn't acknowledged waits again.
    ///
    /// # Errors
    ///
    /// Want of memory.
    #[tactic(auto, unfolding(crate::specs::StreamBytes::bytes_lost))]
    pub fn bytes_lost(
        &mut self,
        id: StreamId,
        start: u64,
        end: u64,
        last: bool,
    ) -> Result<(), AllocError>
        ensures { OnOk result (self.new ≡ bytes_lost id start end last self.old) }
    {
        self.records.lose(id.value(), start, end, last)?;
        self.queue(id.value());
        self.touch(id.value());
        Ok(())
    }

    /// Such a frame was acknowledged: its bytes are kept no more. Where with them all bytes and the
    /// end are, that is told; a stream that has ended leaves.
    ///
    /// # Errors
    ///
    /// Want of memory.
    #[tactic(auto, using(crate::proofs::Sequels::acked_so))]
    pub fn bytes_acked(
        &mut self,
        id: StreamId,
        start: u64,
        end: u64,
        last: bool,
    ) -> Result<(), AllocError>
        ensures { OnOk result (self.new ≡ bytes_acked id start end last self.old) }
    {
        let (finishes, sequel) = self.records.acknowledge(id.value(), start, end, last)?;
        self.follow(sequel, id.value());
        self.tell_writables(Some(id.value()));
        self.tell_if(finishes, StreamEvent::Finished { id })?;
        self.tell_writables(None);
        Ok(())
    }
}
