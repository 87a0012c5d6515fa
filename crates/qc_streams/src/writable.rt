//! Streams on which a write was blocked, and which can be written on again.

ghost use Rattle.std.specs.Prelude.{◌≡◌, ◌<◌, IfErr, OnErr, OnOk, true, false, not};
ghost use Rattle.qc_send_stream.specs.Sending.{is_done, kept_count, unblocked, was_blocked, write_refusal};
ghost use Rattle.qc_streams.specs.Calls.{IsRefused, if_known, known_at, write_fault, write_refused};
ghost use Rattle.qc_streams.specs.Events.{put_by_if};
ghost use Rattle.qc_streams.specs.Kept.{kept_of};
ghost use Rattle.qc_streams.specs.Records.{changed, record_of};
ghost use Rattle.qc_streams.specs.Sends.{sends_of};
ghost use Rattle.qc_streams.specs.Sequel.{write_followed};
ghost use Rattle.qc_streams.specs.Stream.{with_sending};
ghost use Rattle.qc_streams.specs.Queues.{owes_data, queue_one, takes_number, with_mark};
ghost use Rattle.qc_streams.specs.Writable.{all_told, awaits, awaits_at, blocks_anew, credit_at, credit_of, has_credit, has_place, has_place_at, has_room, held_up, needs_place, needs_place_at, passed, place_reserved, told_first, watched, writables_told};

use crate::events::{Events, StreamEvent};
use crate::records::Records;
use crate::state::StreamsState;
use crate::stream::Stream;
use qc_base::StreamId;
use qc_send_stream::{SendPart, WriteError};
use std::alloc::AllocError;

/// Whether a sending side may be written on, as far as it goes by itself.
#[tactic(auto, unfolding(crate::specs::Writable::has_credit))]
fn has_credit(sending: &Option<SendPart>) -> bool
    ensures { result ≡ credit_of sending.now }
{
    match sending {
        Some(sending) => !(sending.is_closed() || sending.limit <= sending.buffer.written()),
        None => false,
    }
}

/// Whether a write was blocked on such a sending side, which wasn't told since.
fn awaits(sending: &Option<SendPart>) -> bool
    ensures { result ≡ awaits sending.now }
{
    match sending {
        Some(part) => part.blocked && has_credit(sending),
        None => false,
    }
}

/// Whether a place is put by for the event that a sending side can be written on again.
fn has_place(sending: &Option<SendPart>) -> bool
    ensures { result ≡ has_place sending.now }
{
    match sending {
        Some(part) => part.blocked && !part.is_closed(),
        None => false,
    }
}

/// Whether one is to be put by once a write is blocked on a sending side.
fn needs_place(sending: &Option<SendPart>) -> bool
    ensures { result ≡ needs_place sending.now }
{
    match sending {
        Some(part) => !(part.blocked || part.is_closed()),
        None => false,
    }
}

/// Whether a write that has budget is blocked by a sending side for the first time since it was told.
#[tactic(auto, unfolding(crate::specs::Writable::blocks_anew))]
fn blocks_anew(part: &SendPart) -> bool
    ensures { result ≡ blocks_anew part.now }
{
    part.limit <= part.buffer.written()
        && !part.blocked
        && !part.is_closed()
        && part.stopped.is_none()
}

/// A place for the event that a sending side can be written on again is put by, where a write that has budget
/// is blocked by it anew.
///
/// # Errors
///
/// Want of memory; nothing changes then.
#[tactic(auto, using(crate::proofs::Refused::lacks_so))]
pub(crate) fn put_by(part: &SendPart, most: u64, events: &mut Events) -> Result<(), WriteError>
    requires { 0 < most }
    ensures added { OnOk result (events.new ≡ put_by_if (blocks_anew part.now) events.old) }
    ensures lacks { IfErr result (λ e. e ≡ WriteError.OutOfMemory) }
    ensures refused { IfErr result (λ e. IsRefused e (write_refusal most part.now)) }
    ensures err { OnErr result (events.new ≡ events.old) }
{
    if !blocks_anew(part) {
        return Ok(());
    }
    match events.add_place() {
        Ok(()) => Ok(()),
        Err(_) => Err(WriteError::OutOfMemory),
    }
}

/// A write was blocked on a sending side, unless all of it is acknowledged.
#[tactic(auto, unfolding(qc_send_stream::specs::Sending::was_blocked, qc_send_stream::specs::Sending::is_done))]
fn block(sending: &mut SendPart)
    ensures blocked { sending.new ≡ if_known was_blocked sending.old }
    ensures same { kept_count sending.new ≡ kept_count sending.old }
    ensures still { is_done sending.new ≡ is_done sending.old }
{
    if !sending.is_done() {
        sending.blocked = true;
    }
}

impl Stream {
    /// A write was blocked on it.
    #[tactic(auto, unfolding(crate::specs::Stream::with_sending))]
    fn block(&mut self)
        ensures blocked { self.new ≡ with_sending (if_known was_blocked) self.old }
        ensures same { kept_of self.new ≡ kept_of self.old }
        ensures still { sends_of self.new ≡ sends_of self.old }
    {
        if let Some(sending) = &mut self.sending {
            block(sending);
        }
    }

    /// That it can be written on again is told.
    #[tactic(auto, unfolding(crate::specs::Stream::with_sending, qc_send_stream::specs::Sending::unblocked, qc_send_stream::specs::Sending::is_done))]
    fn unblock(&mut self)
        ensures unblocked { self.new ≡ with_sending unblocked self.old }
        ensures same { kept_of self.new ≡ kept_of self.old }
        ensures still { sends_of self.new ≡ sends_of self.old }
    {
        if let Some(sending) = &mut self.sending {
            sending.blocked = false;
        }
    }
}

/// What a write left to be done.
#[derive(Clone, Copy, Debug)]
pub(crate) struct Noted {
    // whether its stream may be written on again, as far as it goes by itself
    credit: bool,
    // whether the number of its turn is taken
    numbered: bool,
    // whether it wasn't marked
    idle: bool,
}

impl Stream {
    /// It was written on, where so many turns were given, and it is known whether it has bytes or an end
    /// that wait: it waits from this moment on, and is marked. Answers what is to be done.
    #[tactic(auto, unfolding(crate::specs::Queues::queue_one))]
    pub(crate) fn note_write(&mut self, turns: u64, owes: bool) -> Noted
        requires { owes ≡ owes_data self.old.sending }
        ensures credit { result.credit ≡ credit_of self.old.sending }
        ensures numbered { result.numbered ≡ takes_number (Some self.old) }
        ensures idle { result.idle ≡ not self.old.marked }
        ensures marked { self.new ≡ with_mark true (queue_one turns self.old) }
        ensures same { kept_of self.new ≡ kept_of self.old }
        ensures still { sends_of self.new ≡ sends_of self.old }
    {
        let credit = has_credit(&self.sending);
        let numbered = self.wait(owes, turns);
        let idle = self.mark();
        Noted {
            credit,
            numbered,
            idle,
        }
    }
}

impl Records {
    /// Whether there is a stream with an id that may be written on, as far as it goes by itself.
    fn has_credit(&self, id: u64) -> bool
        ensures { result ≡ credit_at (record_of id self.now) }
    {
        match self.streams.get(id) {
            Some(stream) => has_credit(&stream.sending),
            None => false,
        }
    }

    /// Whether a write was blocked on such a stream, which wasn't told since.
    fn awaits(&self, id: u64) -> bool
        ensures { result ≡ awaits_at (record_of id self.now) }
    {
        match self.streams.get(id) {
            Some(stream) => awaits(&stream.sending),
            None => false,
        }
    }

    /// Whether a place is put by for the event that such a stream can be written on again.
    pub(crate) fn has_place(&self, id: u64) -> bool
        ensures { result ≡ has_place_at (record_of id self.now) }
    {
        match self.streams.get(id) {
            Some(stream) => has_place(&stream.sending),
            None => false,
        }
    }

    /// Whether one is to be put by once a write is blocked on such a stream.
    fn needs_place(&self, id: u64) -> bool
        ensures { result ≡ needs_place_at (record_of id self.now) }
    {
        match self.streams.get(id) {
            Some(stream) => needs_place(&stream.sending),
            None => false,
        }
    }

    /// A write was blocked on the stream with an id.
    #[tactic(auto, using(crate::proofs::Keeping::same, crate::proofs::Sending::still))]
    fn block(&mut self, id: u64)
        ensures { self.new ≡ changed (with_sending (if_known was_blocked)) id self.old }
    {
        let Some(stream) = self.streams.get_mut(id) else {
            return;
        };
        stream.block();
    }

    /// That the stream with an id can be written on again is told.
    #[tactic(auto, using(crate::proofs::Keeping::same, crate::proofs::Sending::still))]
    fn unblock(&mut self, id: u64)
        ensures { self.new ≡ changed (with_sending unblocked) id self.old }
    {
        let Some(stream) = self.streams.get_mut(id) else {
            return;
        };
        stream.unblock();
    }
}

impl StreamsState {
    /// A write is refused where the connection has no credit, or the send window no room.
    #[tactic(auto, using(crate::proofs::Refused::unknown_fault, crate::proofs::Refused::held_fault, crate::proofs::Refused::held_needs), unfolding(crate::specs::Calls::IsRefused, crate::specs::Calls::write_refused, crate::specs::Writable::held_up))]
    pub(crate) fn hold(&mut self, id: StreamId) -> WriteError
        requires { self.old.closed ≡ false }
        ensures refused { IsRefused result (write_fault 0 (known_at id self.old)) }
        ensures held { self.new ≡ write_refused result id self.old }
    {
        if self.stopped(id).is_err() {
            return WriteError::ClosedStream;
        }
        if self.await_room(id).is_err() {
            return WriteError::OutOfMemory;
        }
        self.records.block(id.value());
        WriteError::Blocked
    }

    /// A place is put by for the event that a stream can be written on again, where one is needed; where it
    /// has credit it waits for the connection.
    ///
    /// # Errors
    ///
    /// Want of memory; nothing changes then.
    #[tactic(auto, using(crate::proofs::Told::given_back), unfolding(crate::specs::Writable::held_up))]
    fn await_room(&mut self, id: StreamId) -> Result<(), AllocError>
        ensures waits { OnOk result (self.new ≡ place_reserved (needs_place_at (record_of id self.old.records)) (held_up (credit_at (record_of id self.old.records)) id self.old)) }
        ensures err { OnErr result (self.new ≡ self.old) }
    {
        let needs = self.records.needs_place(id.value());
        self.events.add_place_if(needs)?;
        if !self.records.has_credit(id.value()) {
            self.blocked.remove(id.value());
            return Ok(());
        }
        if let Err(lack) = self.blocked.insert(id) {
            self.events.drop_place_if(needs);
            return Err(lack);
        }
        Ok(())
    }

    /// A stream that was finished or reset, or has no credit left, doesn't wait for the connection.
    #[tactic(auto, unfolding(crate::specs::Writable::passed))]
    pub(crate) fn pass(&mut self, id: u64)
        ensures { self.new ≡ passed id self.old }
    {
        if !self.records.has_credit(id) {
            self.blocked.remove(id);
        }
    }

    /// What a write on a stream left to be done is done.
    #[tactic(auto, unfolding(crate::specs::Counts::saturated))]
    pub(crate) fn follow_write(&mut self, noted: Noted, id: u64)
        ensures { self.new ≡ write_followed noted.credit noted.numbered noted.idle id self.old }
    {
        if !noted.credit {
            self.blocked.remove(id);
        }
        if noted.numbered {
            self.waiting.turns = self.waiting.turns.saturating_add(1);
        }
        if noted.idle {
            self.waiting.marks.mark(id);
        }
    }

    /// A stream that was given credit waits for the connection, where a write was blocked on it.
    #[tactic(auto, unfolding(crate::specs::Writable::watched))]
    pub(crate) fn watch(&mut self, id: StreamId) -> Result<(), AllocError>
        ensures { OnOk result (self.new ≡ watched id self.old) }
    {
        if self.records.awaits(id.value()) {
            self.blocked.insert(id)?;
        }
        Ok(())
    }

    /// Whether the connection is open, has credit, and room in the send window.
    #[tactic(auto, unfolding(crate::specs::Writable::has_room, crate::specs::Calls::send_room))]
    fn has_room(&self) -> bool
        ensures { result ≡ has_room self.now }
    {
        !self.closed && self.outgoing.budget(self.send_room()) > 0
    }

    /// That a stream can be written on again waits to be told, behind all other events.
    fn tell_writable(&mut self, first: (u64, StreamId))
        ensures { self.new ≡ told_first first self.old.blocked self.old }
    {
        self.records.unblock(first.0);
        self.events.place(StreamEvent::Writable { id: first.1 });
    }

    /// The same of all streams that wait for the connection and lie below an id, or of all, the least first.
    fn tell_all(&mut self, below: Option<u64>)
        ensures { self.new ≡ all_told below self.old.blocked self.old }
    {
        while let Some(first) = self.blocked.pop(below) {
            self.tell_writable(first);
        }
    }

    /// The same, where the connection lets streams be written on.
    #[inline(always)]
    #[tactic(auto, using(crate::proofs::Told::none_told), unfolding(crate::specs::Writable::writables_told))]
    pub(crate) fn tell_writables(&mut self, below: Option<u64>)
        ensures { self.new ≡ writables_told below self.old }
    {
        if self.blocked.is_empty() {
            return;
        }
        if self.has_room() {
            self.tell_all(below);
        }
    }
}
