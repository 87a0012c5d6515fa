//! The application's calls on the stream with an id.

ghost use Rattle.std.specs.Prelude.{◌≡◌, false, ◌+◌, ◌^◌, ◌<◌, length, take, drop, IfErr, IfOk, OnErr, OnOk, None, Some, is_err};
ghost use Rattle.qc_recv.specs.Receiving.{reset_asked, stop_asked};
ghost use Rattle.qc_send_stream.specs.Sending.{after_refusal, finished, part_written, was_reset};
ghost use Rattle.qc_streams.specs.Calls.{IsReadOf, IsRefused, after_read, bars_reset, closed_to, count_taken, finish_refusal, gives, if_known, known_at, known_of, receiving_at, receiving_of, reset_of, resets, send_room, sends, write_fault, write_refusal, write_refused, wrote};
ghost use Rattle.std.specs.Option.{option_map};
ghost use Rattle.qc_streams.specs.Credit.{budget, tallied};
ghost use Rattle.qc_streams.specs.Kept.{kept_in};
ghost use Rattle.qc_streams.specs.Records.{changed, record_of};
ghost use Rattle.qc_streams.specs.Sequel.{queueing, sequel_at, settling};
ghost use Rattle.qc_streams.specs.Stream.{totals_at, totals_if, with_receiving, with_sending};
ghost use Rattle.qc_streams.specs.Queues.{is_idle, takes_number};
ghost use Rattle.qc_streams.specs.Writable.{credit_at, needs_place_at, place_after};

use crate::credit::Incoming;
use crate::events::Events;
use crate::fault::{ClosedStream, ReadFault};
use crate::records::Records;
use crate::sends::recounted;
use crate::sequel::Sequel;
use crate::state::StreamsState;
use crate::stream::Totals;
use crate::writable::Noted;
use bytes::Bytes;
use qc_base::{StreamId, VarInt};
use qc_recv::Chunk;
use qc_send_stream::{FinishError, WriteError};

impl Records {
    /// Writes on the stream with an id, where so many turns were given; it waits from then on, and is marked.
    #[tactic(auto, using(crate::proofs::Keeping::same, crate::proofs::Sending::still), unfolding(crate::specs::Calls::IsRefused, crate::specs::Sequel::queueing))]
    fn write(
        &mut self,
        id: u64,
        chunk: &mut Bytes,
        most: u64,
        turns: u64,
        events: &mut Events,
    ) -> Result<(usize, Noted), WriteError>
        requires some { 0 < most }
        requires room { kept_in self.old + most < 2 ^ 64 }
        ensures count { IfOk result (λ w. w.0 ≡ count_taken (length chunk.old) most (known_of (record_of id self.old))) }
        ensures written { IfOk result (λ w. self.new ≡ changed (queueing turns (with_sending (if_known (part_written (take w.0 chunk.old))))) id self.old) }
        ensures credit { IfOk result (λ w. w.1.credit ≡ credit_at (option_map (with_sending (if_known (part_written (take w.0 chunk.old)))) (record_of id self.old))) }
        ensures numbered { IfOk result (λ w. w.1.numbered ≡ takes_number (option_map (with_sending (if_known (part_written (take w.0 chunk.old)))) (record_of id self.old))) }
        ensures idle { IfOk result (λ w. w.1.idle ≡ is_idle (option_map (with_sending (if_known (part_written (take w.0 chunk.old)))) (record_of id self.old))) }
        ensures rest { IfOk result (λ w. chunk.new ≡ drop w.0 chunk.old) }
        ensures fits { OnOk result (write_fault most (known_of (record_of id self.old)) ≡ None) }
        ensures refused { IfErr result (λ e. IsRefused e (write_fault most (known_of (record_of id self.old)))) }
        ensures err { IfErr result (λ e. self.new ≡ changed (with_sending (if_known (after_refusal e))) id self.old) }
        ensures kept { OnErr result (chunk.new ≡ chunk.old) }
        ensures placed { IfErr result (λ e. events.new ≡ place_after e (needs_place_at (record_of id self.old)) events.old) }
        ensures unplaced { OnOk result (events.new ≡ events.old) }
    {
        match self.streams.get_mut(id) {
            Some(stream) => {
                let count = stream.write(chunk, most, events)?;
                let owes = stream.has_waiting();
                let noted = stream.note_write(turns, owes);
                self.kept += count as u64;
                Ok((count, noted))
            }
            None => Err(WriteError::ClosedStream),
        }
    }

    /// Finishes the stream with an id.
    #[tactic(auto, using(crate::proofs::Back::record_back, crate::proofs::Keeping::same, crate::proofs::Sending::still, crate::proofs::Sending::recounts))]
    fn finish(&mut self, id: u64) -> Result<(), FinishError>
        ensures finished { OnOk result (self.new ≡ changed (with_sending (if_known finished)) id self.old) }
        ensures fits { OnOk result (finish_refusal (known_of (record_of id self.old)) ≡ None) }
        ensures refused { IfErr result (λ e. finish_refusal (known_of (record_of id self.old)) ≡ Some e) }
        ensures err { OnErr result (self.new ≡ self.old) }
    {
        match self.streams.get_mut(id) {
            Some(stream) => {
                let before = stream.sends();
                stream.finish()?;
                let after = stream.sends();
                let _count = self.streams.len();
                self.sending = recounted(self.sending, before, after);
                Ok(())
            }
            None => Err(FinishError::ClosedStream),
        }
    }

    /// Resets the stream with an id.
    #[tactic(auto, using(crate::proofs::Back::record_back, crate::proofs::Keeping::same, crate::proofs::Keeping::less, crate::proofs::Keeping::at_most, crate::proofs::Sending::still, crate::proofs::Sending::recounts))]
    fn reset(&mut self, id: u64, code: VarInt) -> Result<(), ClosedStream>
        ensures reset { OnOk result (self.new ≡ changed (with_sending (if_known (was_reset code))) id self.old) }
        ensures refused { is_err result ≡ bars_reset (known_of (record_of id self.old)) }
        ensures err { OnErr result (self.new ≡ self.old) }
    {
        match self.streams.get_mut(id) {
            Some(stream) => {
                let kept = stream.kept();
                let before = stream.sends();
                stream.reset(code)?;
                let after = stream.sends();
                let _count = self.streams.len();
                self.kept -= kept;
                self.sending = recounted(self.sending, before, after);
                Ok(())
            }
            None => Err(ClosedStream),
        }
    }

    /// The next bytes of the stream with an id: what it gives back counts for the connection's credit.
    #[tactic(auto, using(crate::proofs::Keeping::same, crate::proofs::Sending::still), unfolding(crate::specs::Calls::IsReadOf, crate::specs::Stream::totals_at))]
    fn read(
        &mut self,
        id: u64,
        ordered: bool,
        most: usize,
        incoming: &mut Incoming,
    ) -> (Result<Option<Chunk>, ReadFault>, Sequel)
        ensures answer { IsReadOf most ordered (receiving_of (record_of id self.old)) result.0 }
        ensures leads { self.new ≡ changed (settling (with_receiving (after_read ordered result.0))) id self.old }
        ensures counted { incoming.new ≡ tallied (totals_at id self.old) (totals_if (option_map (with_receiving (after_read ordered result.0)) (record_of id self.old))) incoming.old }
        ensures sequel { result.1 ≡ sequel_at (option_map (with_receiving (after_read ordered result.0)) (record_of id self.old)) }
    {
        let Some(stream) = self.streams.get_mut(id) else {
            incoming.tally(Totals::none(), Totals::none());
            return (Err(ReadFault::ClosedStream), Sequel::Nothing);
        };
        stream.give(ordered, most, incoming)
    }

    /// Stops the stream with an id.
    #[tactic(auto, using(crate::proofs::Back::record_back, crate::proofs::Keeping::same, crate::proofs::Sending::still))]
    fn stop(&mut self, id: u64, code: VarInt) -> Result<(), ClosedStream>
        ensures stopped { OnOk result (self.new ≡ changed (with_receiving (stop_asked code)) id self.old) }
        ensures refused { is_err result ≡ closed_to (receiving_of (record_of id self.old)) }
        ensures err { OnErr result (self.new ≡ self.old) }
    {
        let Some(stream) = self.streams.get_mut(id) else {
            return Err(ClosedStream);
        };
        stream.stop(code)
    }

    /// The code of the reset that came on the stream with an id.
    #[tactic(auto, using(crate::proofs::Back::record_back, crate::proofs::Keeping::same, crate::proofs::Sending::still))]
    fn received_reset(&mut self, id: u64) -> Result<Option<VarInt>, ClosedStream>
        ensures code { IfOk result (λ code. code ≡ reset_of (receiving_of (record_of id self.old))) }
        ensures told { OnOk result (self.new ≡ changed (with_receiving reset_asked) id self.old) }
        ensures refused { is_err result ≡ closed_to (receiving_of (record_of id self.old)) }
        ensures err { OnErr result (self.new ≡ self.old) }
    {
        let Some(stream) = self.streams.get_mut(id) else {
            return Err(ClosedStream);
        };
        stream.received_reset()
    }
}

impl StreamsState {
    /// How many more bytes may be kept until they are acknowledged.
    #[tactic(auto, unfolding(crate::specs::Calls::send_room))]
    pub fn send_room(&self) -> u64
        ensures room { result ≡ send_room self.now }
        ensures fits { kept_in self.now.records + result < 2 ^ 64 }
    {
        self.send_window.saturating_sub(self.records.kept())
    }

    /// Writes where the connection has credit, and the send window room.
    #[tactic(auto, using(crate::proofs::Refused::refused_so, crate::proofs::Sequels::wrote_so), unfolding(crate::specs::Calls::known_at))]
    fn write_some(
        &mut self,
        id: StreamId,
        chunk: &mut Bytes,
        most: u64,
    ) -> Result<usize, WriteError>
        requires some { 0 < most }
        requires room { kept_in self.old.records + most < 2 ^ 64 }
        requires open { self.old.closed ≡ false }
        ensures count { IfOk result (λ n. n ≡ count_taken (length chunk.old) most (known_at id self.old)) }
        ensures written { IfOk result (λ n. self.new ≡ wrote id n chunk.old self.old) }
        ensures rest { IfOk result (λ n. chunk.new ≡ drop n chunk.old) }
        ensures fits { OnOk result (write_fault most (known_at id self.old) ≡ None) }
        ensures refused { IfErr result (λ e. IsRefused e (write_fault most (known_at id self.old))) }
        ensures err { IfErr result (λ e. self.new ≡ write_refused e id self.old) }
        ensures kept { OnErr result (chunk.new ≡ chunk.old) }
    {
        let turns = self.waiting.turns;
        match self
            .records
            .write(id.value(), chunk, most, turns, &mut self.events)
        {
            Ok((count, noted)) => {
                self.outgoing.write(count as u64);
                self.follow_write(noted, id.value());
                Ok(count)
            }
            Err(refusal) => {
                self.blocked.note_refusal(&refusal, id.value());
                Err(refusal)
            }
        }
    }

    /// Writes as many bytes of the chunk's front as fit, which are cut off it: no more than the peer
    /// takes of the stream and of all streams together (RFC 9000, section 4.1), nor than the send window
    /// leaves beside the bytes that all streams keep. Answers how many.
    ///
    /// # Errors
    ///
    /// Exactly, in this order: [`WriteError::Blocked`] where the connection is closed,
    /// [`WriteError::ClosedStream`] where the stream is unknown, [`WriteError::Blocked`] where the
    /// connection's credit or the send window is used up, [`WriteError::ClosedStream`] where the stream is
    /// finished or reset, [`WriteError::Stopped`] where the peer stopped it,
    /// [`WriteError::Blocked`] where its credit is used up; or want of memory, to write or to note that
    /// a write is blocked. The chunk is as before then, and so is all else, but that a write was
    /// blocked is noted on a connection that isn't closed: [`StreamEvent::Writable`] follows once it
    /// can be done.
    #[tactic(auto, unfolding(crate::specs::Calls::write_refusal, crate::specs::Calls::write_refused, crate::specs::Calls::IsRefused))]
    pub fn write(&mut self, id: StreamId, chunk: &mut Bytes) -> Result<usize, WriteError>
        ensures count { IfOk result (λ n. n ≡ count_taken (length chunk.old) (budget (send_room self.old) self.old.outgoing) (known_at id self.old)) }
        ensures written { IfOk result (λ n. self.new ≡ wrote id n chunk.old self.old) }
        ensures rest { IfOk result (λ n. chunk.new ≡ drop n chunk.old) }
        ensures fits { OnOk result (write_refusal id self.old ≡ None) }
        ensures refused { IfErr result (λ e. IsRefused e (write_refusal id self.old)) }
        ensures err { IfErr result (λ e. self.new ≡ write_refused e id self.old) }
        ensures kept { OnErr result (chunk.new ≡ chunk.old) }
    {
        if self.closed {
            return Err(WriteError::Blocked);
        }
        let most = self.outgoing.budget(self.send_room());
        if most == 0 {
            return Err(self.hold(id));
        }
        self.write_some(id, chunk, most)
    }

    /// Finishes a stream: nothing is written on it any more.
    ///
    /// # Errors
    ///
    /// Exactly, in this order: [`FinishError::ClosedStream`] where the stream is unknown,
    /// [`FinishError::Stopped`] where the peer stopped it, [`FinishError::ClosedStream`] where it is
    /// finished or reset. Nothing changes then.
    #[tactic(auto, unfolding(crate::specs::Calls::sends, crate::specs::Calls::known_at))]
    pub fn finish(&mut self, id: StreamId) -> Result<(), FinishError>
        ensures finished { OnOk result (self.new ≡ sends finished id self.old) }
        ensures fits { OnOk result (finish_refusal (known_at id self.old) ≡ None) }
        ensures refused { IfErr result (λ e. finish_refusal (known_at id self.old) ≡ Some e) }
        ensures err { OnErr result (self.new ≡ self.old) }
    {
        let has = self.records.has_place(id.value());
        self.records.finish(id.value())?;
        self.pass(id.value());
        self.queue(id.value());
        self.touch(id.value());
        self.events.drop_place_if(has);
        Ok(())
    }

    /// Resets a stream: its bytes are let go (RFC 9000, section 3.1).
    ///
    /// # Errors
    ///
    /// Exactly where the stream is unknown or was reset; nothing changes then.
    #[tactic(auto, unfolding(crate::specs::Calls::resets, crate::specs::Calls::sends, crate::specs::Calls::known_at))]
    pub fn reset(&mut self, id: StreamId, error_code: VarInt) -> Result<(), ClosedStream>
        ensures reset { OnOk result (self.new ≡ resets error_code id self.old) }
        ensures refused { is_err result ≡ bars_reset (known_at id self.old) }
        ensures err { OnErr result (self.new ≡ self.old) }
    {
        let has = self.records.has_place(id.value());
        self.records.reset(id.value(), error_code)?;
        self.pass(id.value());
        self.queue(id.value());
        self.touch(id.value());
        self.events.drop_place_if(has);
        self.tell_writables(None);
        Ok(())
    }

    /// The next bytes of a stream, at most so many, in order or, from then on, out of order. None
    /// exactly at the end, which is told then.
    ///
    /// # Errors
    ///
    /// Exactly, in this order: `ClosedStream` where the stream is unknown, stopped, or its end or its
    /// reset was told; `IllegalOrderedRead` where it is to be read in order after it was read out of
    /// order; `Reset` where the peer reset it, which is told then; `Blocked` where no byte can be
    /// read and the end isn't reached; or want of memory.
    #[tactic(auto, using(crate::proofs::Sequels::gives_so), unfolding(crate::specs::Calls::receiving_at))]
    pub fn read(
        &mut self,
        id: StreamId,
        ordered: bool,
        most: usize,
    ) -> Result<Option<Chunk>, ReadFault>
        ensures answer { IsReadOf most ordered (receiving_at id self.old) result }
        ensures leads { self.new ≡ gives (after_read ordered result) id self.old }
    {
        let incoming = &mut self.incoming;
        let (chunk, sequel) = self.records.read(id.value(), ordered, most, incoming);
        self.follow(sequel, id.value());
        chunk
    }

    /// The application wants no more of a stream: what waits is let go, and gives credit back.
    ///
    /// # Errors
    ///
    /// Exactly where the stream is unknown, stopped, or its end or its reset was told; nothing
    /// changes then.
    #[tactic(auto, unfolding(crate::specs::Calls::gives, crate::specs::Calls::receiving_at))]
    pub fn stop(&mut self, id: StreamId, error_code: VarInt) -> Result<(), ClosedStream>
        ensures stopped { OnOk result (self.new ≡ gives (stop_asked error_code) id self.old) }
        ensures refused { is_err result ≡ closed_to (receiving_at id self.old) }
        ensures err { OnErr result (self.new ≡ self.old) }
    {
        let before = self.records.totals(id.value());
        self.records.stop(id.value(), error_code)?;
        self.count(before, id.value());
        self.settle(id.value());
        Ok(())
    }

    /// The code with which the peer reset a stream, which is told then. None exactly where it
    /// didn't.
    ///
    /// # Errors
    ///
    /// Exactly where the stream is unknown, stopped, or its end or its reset was told; nothing
    /// changes then.
    #[tactic(auto, unfolding(crate::specs::Calls::gives, crate::specs::Calls::receiving_at))]
    pub fn reset_received(&mut self, id: StreamId) -> Result<Option<VarInt>, ClosedStream>
        ensures code { IfOk result (λ code. code ≡ reset_of (receiving_at id self.old)) }
        ensures told { OnOk result (self.new ≡ gives reset_asked id self.old) }
        ensures refused { is_err result ≡ closed_to (receiving_at id self.old) }
        ensures err { OnErr result (self.new ≡ self.old) }
    {
        let before = self.records.totals(id.value());
        let code = self.records.received_reset(id.value())?;
        self.count(before, id.value());
        self.settle(id.value());
        Ok(code)
    }
}
