//! A write of several chunks, one behind the other.

ghost use Rattle.std.specs.Prelude.{◌≡◌, ◌+◌, ◌<◌, ◌≤◌, ◌^◌, true, false, min, length, take, IfErr, IfOk, OnErr, OnOk, None, Some};
ghost use Rattle.std.specs.List.{concat};
ghost use Rattle.std.specs.Option.{option_map};
ghost use Rattle.qc_send_stream.specs.Buffer.{bytes_written};
ghost use Rattle.qc_send_stream.specs.Sending.{IsWriteRefusal, after_refusal, has_more, is_done, kept_count, part_written, write_refusal as part_refusal};
ghost use Rattle.qc_streams.specs.Calls.{IsRefused, count_taken, if_known, known, known_at, known_of, send_room, write_fault, write_refusal, write_refused, wrote};
ghost use Rattle.qc_streams.specs.Chunks.{IsUnwritten, cut_front, whole_in};
ghost use Rattle.qc_streams.specs.Credit.{budget};
ghost use Rattle.qc_streams.specs.Kept.{kept_in, kept_of};
ghost use Rattle.qc_streams.specs.Records.{changed, record_of};
ghost use Rattle.qc_streams.specs.Sends.{sends_of};
ghost use Rattle.qc_streams.specs.Sequel.{queueing};
ghost use Rattle.qc_streams.specs.Stream.{with_sending};
ghost use Rattle.qc_streams.specs.Queues.{is_idle, owes_data, takes_number};
ghost use Rattle.qc_streams.specs.Writable.{credit_at, needs_place, needs_place_at, place_after};

use crate::events::Events;
use crate::records::Records;
use crate::state::StreamsState;
use crate::stream::Stream;
use crate::writable::{Noted, put_by};
use bytes::Bytes;
use qc_base::StreamId;
use qc_send_stream::{SendBuffer, SendPart, WriteError};

/// What a write of chunks took.
#[derive(Clone, Copy, Debug, PartialEq, Eq)]
pub struct Written {
    /// How many bytes, of all chunks together.
    pub bytes: usize,
    /// How many chunks whole.
    pub chunks: usize,
}

/// What a buffer took of the front of chunks, and whether it ended for want of memory.
#[derive(Clone, Copy, Debug)]
struct Front {
    bytes: usize,
    chunks: usize,
    // whether memory ran out
    lacked: bool,
}

/// What a write of chunks took, and whether it ended for want of memory.
#[derive(Clone, Copy, Debug)]
pub(crate) struct Taken {
    bytes: usize,
    chunks: usize,
    // whether memory ran out
    lacked: bool,
    // whether bytes wait then, or the end
    owes: bool,
}

/// Writes so many bytes of the front of chunks, or fewer for want of memory.
fn write_front(buffer: &mut SendBuffer, chunks: &mut [Bytes], most: u64) -> Front
    requires { buffer.old.written + most < 2 ^ 64 }
    ensures written { buffer.new ≡ bytes_written (take result.bytes (concat chunks.old)) buffer.old }
    ensures rest { chunks.new ≡ cut_front result.bytes chunks.old }
    ensures within { result.bytes ≤ most }
    ensures there { result.bytes ≤ length (concat chunks.old) }
    ensures count { result.lacked ≡ false → result.bytes ≡ min (length (concat chunks.old)) most }
    ensures whole { result.lacked ≡ false → result.chunks ≡ whole_in result.bytes chunks.old }
{
    let mut at = 0;
    let mut bytes = 0;
    while at < chunks.len() {
        let len = chunks[at].len();
        let count = (len as u64).min(most - bytes as u64) as usize;
        match buffer.write_front(&mut chunks[at], count) {
            Ok(()) => bytes += count,
            Err(_) => {
                return Front {
                    bytes,
                    chunks: at,
                    lacked: true,
                };
            }
        }
        if count < len {
            break;
        }
        at += 1;
    }
    Front {
        bytes,
        chunks: at,
        lacked: false,
    }
}

/// Why nothing can be written on a sending side, of which not all is acknowledged.
///
/// # Errors
///
/// Exactly those of a write of no bytes; that a write was blocked is noted.
#[tactic(auto, unfolding(qc_send_stream::specs::Sending::write_refusal, qc_send_stream::specs::Sending::IsWriteRefusal, qc_send_stream::specs::Sending::was_blocked))]
fn test(sending: &mut SendPart, most: u64) -> Result<(), WriteError>
    ensures same { OnOk result (sending.new ≡ sending.old) }
    ensures fits { OnOk result (part_refusal most sending.old ≡ None) }
    ensures refused { IfErr result (λ e. IsWriteRefusal e (part_refusal most sending.old)) }
    ensures err { IfErr result (λ e. sending.new ≡ after_refusal e sending.old) }
{
    if most == 0 {
        sending.blocked = true;
        return Err(WriteError::Blocked);
    }
    if sending.is_closed() {
        return Err(WriteError::ClosedStream);
    }
    if let Some(code) = sending.stopped {
        return Err(WriteError::Stopped(code));
    }
    if sending.limit <= sending.buffer.written() {
        sending.blocked = true;
        return Err(WriteError::Blocked);
    }
    Ok(())
}

/// Whether bytes of a sending side wait, or its end, on which so many bytes were just written, where so many had been
/// sent of those that had been written.
fn is_owing(sending: &SendPart, count: usize, sent: u64, written: u64) -> bool
    requires { 0 < count → sent ≤ written → has_more sending.now ≡ true }
    ensures { result ≡ has_more sending.now }
{
    if count > 0 && sent <= written {
        return true;
    }
    sending.has_waiting()
}

/// Writes the front of chunks on a sending side, unless all of it is acknowledged.
///
/// A place for the event that it can be written on again is put by where it blocks and needs one.
#[tactic(auto, using(crate::proofs::Refused::refusal_so, crate::proofs::Refused::placed_so, crate::proofs::Done::written_still), unfolding(qc_send_stream::specs::Sending::IsWriteRefusal, qc_send_stream::specs::Sending::was_blocked, qc_send_stream::specs::Sending::is_done))]
fn write(
    sending: &mut SendPart,
    chunks: &mut [Bytes],
    most: u64,
    events: &mut Events,
) -> Result<Taken, WriteError>
    requires { 0 < most }
    ensures count { IfOk result (λ t. t.lacked ≡ false → t.bytes ≡ count_taken (length (concat chunks.old)) most (known (Some sending.old))) }
    ensures whole { IfOk result (λ t. t.lacked ≡ false → t.chunks ≡ whole_in t.bytes chunks.old) }
    ensures written { IfOk result (λ t. sending.new ≡ if_known (part_written (take t.bytes (concat chunks.old))) sending.old) }
    ensures rest { IfOk result (λ t. chunks.new ≡ cut_front t.bytes chunks.old) }
    ensures within { IfOk result (λ t. t.bytes ≤ most) }
    ensures more { IfOk result (λ t. kept_count sending.new ≡ kept_count sending.old + t.bytes) }
    ensures same { OnErr result (kept_count sending.new ≡ kept_count sending.old) }
    ensures still { OnErr result (is_done sending.new ≡ is_done sending.old) }
    ensures open { OnOk result (is_done sending.new ≡ is_done sending.old) }
    ensures fits { OnOk result (write_fault most (known (Some sending.old)) ≡ None) }
    ensures refused { IfErr result (λ e. IsRefused e (write_fault most (known (Some sending.old)))) }
    ensures err { IfErr result (λ e. sending.new ≡ if_known (after_refusal e) sending.old) }
    ensures kept { OnErr result (chunks.new ≡ chunks.old) }
    ensures placed { IfErr result (λ e. events.new ≡ place_after e (needs_place (Some sending.old)) events.old) }
    ensures unplaced { OnOk result (events.new ≡ events.old) }
    ensures owes { IfOk result (λ t. t.owes ≡ has_more sending.new) }
{
    if sending.is_done() {
        return Err(WriteError::ClosedStream);
    }
    put_by(sending, most, events)?;
    test(sending, most)?;
    let written = sending.buffer.written();
    let sent = sending.buffer.sent();
    let credit = sending.limit.saturating_sub(written);
    let front = write_front(&mut sending.buffer, chunks, credit.min(most));
    let owes = is_owing(sending, front.bytes, sent, written);
    Ok(Taken {
        bytes: front.bytes,
        chunks: front.chunks,
        lacked: front.lacked,
        owes,
    })
}

impl Stream {
    /// Writes the front of chunks on it.
    #[tactic(auto, unfolding(crate::specs::Stream::with_sending, crate::specs::Calls::IsRefused))]
    fn write_chunks(
        &mut self,
        chunks: &mut [Bytes],
        most: u64,
        events: &mut Events,
    ) -> Result<Taken, WriteError>
        requires { 0 < most }
        ensures count { IfOk result (λ t. t.lacked ≡ false → t.bytes ≡ count_taken (length (concat chunks.old)) most (known self.old.sending)) }
        ensures whole { IfOk result (λ t. t.lacked ≡ false → t.chunks ≡ whole_in t.bytes chunks.old) }
        ensures written { IfOk result (λ t. self.new ≡ with_sending (if_known (part_written (take t.bytes (concat chunks.old)))) self.old) }
        ensures rest { IfOk result (λ t. chunks.new ≡ cut_front t.bytes chunks.old) }
        ensures within { IfOk result (λ t. t.bytes ≤ most) }
        ensures more { IfOk result (λ t. kept_of self.new ≡ kept_of self.old + t.bytes) }
        ensures same { OnErr result (kept_of self.new ≡ kept_of self.old) }
        ensures still { OnErr result (sends_of self.new ≡ sends_of self.old) }
        ensures open { OnOk result (sends_of self.new ≡ sends_of self.old) }
        ensures fits { OnOk result (write_fault most (known self.old.sending) ≡ None) }
        ensures refused { IfErr result (λ e. IsRefused e (write_fault most (known self.old.sending))) }
        ensures err { IfErr result (λ e. self.new ≡ with_sending (if_known (after_refusal e)) self.old) }
        ensures kept { OnErr result (chunks.new ≡ chunks.old) }
        ensures placed { IfErr result (λ e. events.new ≡ place_after e (needs_place self.old.sending) events.old) }
        ensures unplaced { OnOk result (events.new ≡ events.old) }
        ensures owes { IfOk result (λ t. t.owes ≡ owes_data self.new.sending) }
    {
        match &mut self.sending {
            Some(sending) => write(sending, chunks, most, events),
            None => Err(WriteError::ClosedStream),
        }
    }
}

impl Records {
    /// Writes the front of chunks on the stream with an id, where so many turns were given; it waits from then
    /// on, and is marked.
    #[tactic(auto, using(crate::proofs::Keeping::same, crate::proofs::Sending::still), unfolding(crate::specs::Calls::IsRefused, crate::specs::Sequel::queueing))]
    fn write_chunks(
        &mut self,
        id: u64,
        chunks: &mut [Bytes],
        most: u64,
        turns: u64,
        events: &mut Events,
    ) -> Result<(Taken, Noted), WriteError>
        requires some { 0 < most }
        requires room { kept_in self.old + most < 2 ^ 64 }
        ensures count { IfOk result (λ t. t.0.lacked ≡ false → t.0.bytes ≡ count_taken (length (concat chunks.old)) most (known_of (record_of id self.old))) }
        ensures whole { IfOk result (λ t. t.0.lacked ≡ false → t.0.chunks ≡ whole_in t.0.bytes chunks.old) }
        ensures written { IfOk result (λ t. self.new ≡ changed (queueing turns (with_sending (if_known (part_written (take t.0.bytes (concat chunks.old)))))) id self.old) }
        ensures credit { IfOk result (λ t. t.1.credit ≡ credit_at (option_map (with_sending (if_known (part_written (take t.0.bytes (concat chunks.old))))) (record_of id self.old))) }
        ensures numbered { IfOk result (λ t. t.1.numbered ≡ takes_number (option_map (with_sending (if_known (part_written (take t.0.bytes (concat chunks.old))))) (record_of id self.old))) }
        ensures idle { IfOk result (λ t. t.1.idle ≡ is_idle (option_map (with_sending (if_known (part_written (take t.0.bytes (concat chunks.old))))) (record_of id self.old))) }
        ensures rest { IfOk result (λ t. chunks.new ≡ cut_front t.0.bytes chunks.old) }
        ensures fits { OnOk result (write_fault most (known_of (record_of id self.old)) ≡ None) }
        ensures refused { IfErr result (λ e. IsRefused e (write_fault most (known_of (record_of id self.old)))) }
        ensures err { IfErr result (λ e. self.new ≡ changed (with_sending (if_known (after_refusal e))) id self.old) }
        ensures kept { OnErr result (chunks.new ≡ chunks.old) }
        ensures placed { IfErr result (λ e. events.new ≡ place_after e (needs_place_at (record_of id self.old)) events.old) }
        ensures unplaced { OnOk result (events.new ≡ events.old) }
    {
        match self.streams.get_mut(id) {
            Some(stream) => {
                let taken = stream.write_chunks(chunks, most, events)?;
                let noted = stream.note_write(turns, taken.owes);
                self.kept += taken.bytes as u64;
                Ok((taken, noted))
            }
            None => Err(WriteError::ClosedStream),
        }
    }
}

impl StreamsState {
    /// Writes the front of chunks where the connection has credit, and the send window room.
    #[tactic(auto, using(crate::proofs::Refused::refused_so, crate::proofs::Sequels::wrote_so), unfolding(crate::specs::Calls::known_at))]
    fn write_some_chunks(
        &mut self,
        id: StreamId,
        chunks: &mut [Bytes],
        most: u64,
    ) -> Result<Taken, WriteError>
        requires some { 0 < most }
        requires room { kept_in self.old.records + most < 2 ^ 64 }
        requires open { self.old.closed ≡ false }
        ensures count { IfOk result (λ t. t.lacked ≡ false → t.bytes ≡ count_taken (length (concat chunks.old)) most (known_at id self.old)) }
        ensures whole { IfOk result (λ t. t.lacked ≡ false → t.chunks ≡ whole_in t.bytes chunks.old) }
        ensures written { IfOk result (λ t. self.new ≡ wrote id t.bytes (concat chunks.old) self.old) }
        ensures rest { IfOk result (λ t. chunks.new ≡ cut_front t.bytes chunks.old) }
        ensures fits { OnOk result (write_fault most (known_at id self.old) ≡ None) }
        ensures refused { IfErr result (λ e. IsRefused e (write_fault most (known_at id self.old))) }
        ensures err { IfErr result (λ e. self.new ≡ write_refused e id self.old) }
        ensures kept { OnErr result (chunks.new ≡ chunks.old) }
    {
        let turns = self.waiting.turns;
        match self
            .records
            .write_chunks(id.value(), chunks, most, turns, &mut self.events)
        {
            Ok((taken, noted)) => {
                self.outgoing.write(taken.bytes as u64);
                self.follow_write(noted, id.value());
                Ok(taken)
            }
            Err(refusal) => {
                self.blocked.note_refusal(&refusal, id.value());
                Err(refusal)
            }
        }
    }

    /// Writes as many bytes of the front of chunks as fit, as if they were one: what is taken is cut off
    /// them, and no byte is copied. Answers how many bytes, and how many chunks whole.
    ///
    /// # Errors
    ///
    /// Exactly those of [`StreamsState::write`]; the chunks are as before then, and all else is as that
    /// call leaves it. Or want of memory.
    #[tactic(auto, unfolding(crate::specs::Calls::write_refusal, crate::specs::Calls::write_refused, crate::specs::Calls::IsRefused, crate::specs::Chunks::IsUnwritten))]
    pub(crate) fn write_chunks(
        &mut self,
        id: StreamId,
        chunks: &mut [Bytes],
    ) -> Result<Written, WriteError>
        ensures count { IfOk result (λ w. w.bytes ≡ count_taken (length (concat chunks.old)) (budget (send_room self.old) self.old.outgoing) (known_at id self.old)) }
        ensures whole { IfOk result (λ w. w.chunks ≡ whole_in w.bytes chunks.old) }
        ensures written { IfOk result (λ w. self.new ≡ wrote id w.bytes (concat chunks.old) self.old) }
        ensures rest { IfOk result (λ w. chunks.new ≡ cut_front w.bytes chunks.old) }
        ensures fits { OnOk result (write_refusal id self.old ≡ None) }
        ensures refused { IfErr result (λ e. IsRefused e (write_refusal id self.old)) }
        ensures err { IfErr result (λ e. IsUnwritten e chunks.old chunks.new id self.old self.new) }
    {
        if self.closed {
            return Err(WriteError::Blocked);
        }
        let most = self.outgoing.budget(self.send_room());
        if most == 0 {
            return Err(self.hold(id));
        }
        let taken = self.write_some_chunks(id, chunks, most)?;
        if taken.lacked {
            return Err(WriteError::OutOfMemory);
        }
        Ok(Written {
            bytes: taken.bytes,
            chunks: taken.chunks,
        })
    }
}
