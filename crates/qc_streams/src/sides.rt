//! The application's calls on one side of a stream.

ghost use Rattle.std.specs.Prelude.{◌≡◌, ◌+◌, ◌<◌, ◌≤◌, length, take, drop, IfErr, IfOk, OnErr, OnOk, None, Some, is_err};
ghost use Rattle.qc_recv.specs.Receiving.{IsNext, reset_asked, stop_asked};
ghost use Rattle.qc_send_stream.specs.Sending.{kept_count, after_refusal, is_done, finished, part_written, was_reset};
ghost use Rattle.qc_streams.specs.Calls.{IsRead, IsReadOf, IsRefused, after_read, bars_reset, closed_to, count_taken, fault_of_open, fault_of_read, finish_refusal, if_known, known, reset_of, write_fault};
ghost use Rattle.qc_streams.specs.Kept.{kept_of};
ghost use Rattle.qc_streams.specs.Sends.{sends_of};
ghost use Rattle.qc_streams.specs.Credit.{tallied};
ghost use Rattle.qc_streams.specs.Sequel.{sequel_of, settling};
ghost use Rattle.qc_streams.specs.Stream.{totals_of, with_receiving, with_sending};
ghost use Rattle.qc_streams.specs.Writable.{needs_place, place_after};

use crate::credit::Incoming;
use crate::events::Events;
use crate::fault::{ClosedStream, ReadFault};
use crate::sequel::Sequel;
use crate::stream::Stream;
use crate::writable::put_by;
use bytes::Bytes;
use qc_base::VarInt;
use qc_recv::{Chunk, ReadError, ReadableError, Recv};
use qc_send_stream::{FinishError, SendPart, WriteError};

/// Why a read gives nothing.
fn read_fault(error: ReadError) -> ReadFault
    ensures { result ≡ fault_of_read error }
{
    match error {
        ReadError::Reset(code) => ReadFault::Reset(code),
        ReadError::Blocked => ReadFault::Blocked,
        ReadError::OutOfMemory => ReadFault::OutOfMemory,
    }
}

/// Why a stream can't be read.
fn closed_fault(error: ReadableError) -> ReadFault
    ensures { result ≡ fault_of_open error }
{
    match error {
        ReadableError::ClosedStream => ReadFault::ClosedStream,
        ReadableError::IllegalOrderedRead => ReadFault::IllegalOrderedRead,
    }
}

/// Writes on a sending side, unless all of it is acknowledged.
///
/// A place for the event that it can be written on again is put by where it blocks and needs one.
#[tactic(auto, using(crate::proofs::Refused::refusal_so, crate::proofs::Refused::placed_so, crate::proofs::Done::written_still), unfolding(qc_send_stream::specs::Sending::IsWriteRefusal, qc_send_stream::specs::Sending::was_blocked, qc_send_stream::specs::Sending::is_done))]
fn write(
    sending: &mut SendPart,
    chunk: &mut Bytes,
    most: u64,
    events: &mut Events,
) -> Result<usize, WriteError>
    requires { 0 < most }
    ensures count { IfOk result (λ n. n ≡ count_taken (length chunk.old) most (known (Some sending.old))) }
    ensures written { IfOk result (λ n. sending.new ≡ if_known (part_written (take n chunk.old)) sending.old) }
    ensures rest { IfOk result (λ n. chunk.new ≡ drop n chunk.old) }
    ensures within { IfOk result (λ n. n ≤ most) }
    ensures more { IfOk result (λ n. kept_count sending.new ≡ kept_count sending.old + n) }
    ensures same { OnErr result (kept_count sending.new ≡ kept_count sending.old) }
    ensures still { OnErr result (is_done sending.new ≡ is_done sending.old) }
    ensures open { OnOk result (is_done sending.new ≡ is_done sending.old) }
    ensures fits { OnOk result (write_fault most (known (Some sending.old)) ≡ None) }
    ensures refused { IfErr result (λ e. IsRefused e (write_fault most (known (Some sending.old)))) }
    ensures err { IfErr result (λ e. sending.new ≡ if_known (after_refusal e) sending.old) }
    ensures kept { OnErr result (chunk.new ≡ chunk.old) }
    ensures placed { IfErr result (λ e. events.new ≡ place_after e (needs_place (Some sending.old)) events.old) }
    ensures unplaced { OnOk result (events.new ≡ events.old) }
{
    if sending.is_done() {
        return Err(WriteError::ClosedStream);
    }
    put_by(sending, most, events)?;
    sending.write(chunk, most)
}

/// Finishes a sending side, unless all of it is acknowledged.
#[tactic(auto, unfolding(qc_send_stream::specs::Sending::finished))]
fn finish(sending: &mut SendPart) -> Result<(), FinishError>
    ensures finished { OnOk result (sending.new ≡ if_known finished sending.old) }
    ensures same { kept_count sending.new ≡ kept_count sending.old }
    ensures fits { OnOk result (finish_refusal (known (Some sending.old)) ≡ None) }
    ensures refused { IfErr result (λ e. finish_refusal (known (Some sending.old)) ≡ Some e) }
    ensures err { OnErr result (sending.new ≡ sending.old) }
{
    if sending.is_done() {
        return Err(FinishError::ClosedStream);
    }
    sending.finish()
}

/// Resets a sending side, unless all of it is acknowledged.
#[tactic(auto, unfolding(qc_send_stream::specs::Sending::was_reset, qc_send_stream::specs::Buffer::discarded))]
fn reset(sending: &mut SendPart, code: VarInt) -> Result<(), ClosedStream>
    ensures reset { OnOk result (sending.new ≡ if_known (was_reset code) sending.old) }
    ensures none { OnOk result (kept_count sending.new ≡ 0) }
    ensures refused { is_err result ≡ bars_reset (known (Some sending.old)) }
    ensures err { OnErr result (sending.new ≡ sending.old) }
{
    if sending.is_done() {
        return Err(ClosedStream);
    }
    match sending.reset(code) {
        Ok(()) => Ok(()),
        Err(_) => Err(ClosedStream),
    }
}

/// The next bytes of a receiving side.
#[tactic(auto, unfolding(crate::specs::Calls::IsRead, qc_recv::specs::Receiving::IsNext))]
fn read(receiving: &mut Recv, ordered: bool, most: usize) -> Result<Option<Chunk>, ReadFault>
    ensures answer { IsRead most ordered receiving.old result }
    ensures leads { receiving.new ≡ after_read ordered result receiving.old }
{
    if let Err(error) = receiving.open(ordered) {
        return Err(closed_fault(error));
    }
    match receiving.next(most) {
        Ok(chunk) => Ok(chunk),
        Err(error) => Err(read_fault(error)),
    }
}

impl Stream {
    /// Writes as many bytes of the chunk's front as fit, no more than `most`.
    #[tactic(auto, unfolding(crate::specs::Stream::with_sending, crate::specs::Calls::IsRefused))]
    pub(crate) fn write(
        &mut self,
        chunk: &mut Bytes,
        most: u64,
        events: &mut Events,
    ) -> Result<usize, WriteError>
        requires { 0 < most }
        ensures count { IfOk result (λ n. n ≡ count_taken (length chunk.old) most (known self.old.sending)) }
        ensures written { IfOk result (λ n. self.new ≡ with_sending (if_known (part_written (take n chunk.old))) self.old) }
        ensures rest { IfOk result (λ n. chunk.new ≡ drop n chunk.old) }
        ensures within { IfOk result (λ n. n ≤ most) }
        ensures more { IfOk result (λ n. kept_of self.new ≡ kept_of self.old + n) }
        ensures same { OnErr result (kept_of self.new ≡ kept_of self.old) }
        ensures still { OnErr result (sends_of self.new ≡ sends_of self.old) }
        ensures open { OnOk result (sends_of self.new ≡ sends_of self.old) }
        ensures fits { OnOk result (write_fault most (known self.old.sending) ≡ None) }
        ensures refused { IfErr result (λ e. IsRefused e (write_fault most (known self.old.sending))) }
        ensures err { IfErr result (λ e. self.new ≡ with_sending (if_known (after_refusal e)) self.old) }
        ensures kept { OnErr result (chunk.new ≡ chunk.old) }
        ensures placed { IfErr result (λ e. events.new ≡ place_after e (needs_place self.old.sending) events.old) }
        ensures unplaced { OnOk result (events.new ≡ events.old) }
    {
        match &mut self.sending {
            Some(sending) => write(sending, chunk, most, events),
            None => Err(WriteError::ClosedStream),
        }
    }

    /// Finishes the stream.
    #[tactic(auto, unfolding(crate::specs::Stream::with_sending))]
    pub(crate) fn finish(&mut self) -> Result<(), FinishError>
        ensures finished { OnOk result (self.new ≡ with_sending (if_known finished) self.old) }
        ensures same { kept_of self.new ≡ kept_of self.old }
        ensures fits { OnOk result (finish_refusal (known self.old.sending) ≡ None) }
        ensures refused { IfErr result (λ e. finish_refusal (known self.old.sending) ≡ Some e) }
        ensures err { OnErr result (self.new ≡ self.old) }
    {
        match &mut self.sending {
            Some(sending) => finish(sending),
            None => Err(FinishError::ClosedStream),
        }
    }

    /// Resets the stream.
    #[tactic(auto, unfolding(crate::specs::Stream::with_sending))]
    pub(crate) fn reset(&mut self, code: VarInt) -> Result<(), ClosedStream>
        ensures reset { OnOk result (self.new ≡ with_sending (if_known (was_reset code)) self.old) }
        ensures none { OnOk result (kept_of self.new ≡ 0) }
        ensures refused { is_err result ≡ bars_reset (known self.old.sending) }
        ensures err { OnErr result (self.new ≡ self.old) }
    {
        match &mut self.sending {
            Some(sending) => reset(sending, code),
            None => Err(ClosedStream),
        }
    }

    /// The next bytes that came.
    #[tactic(auto, unfolding(crate::specs::Stream::with_receiving, crate::specs::Calls::IsReadOf))]
    pub(crate) fn read(&mut self, ordered: bool, most: usize) -> Result<Option<Chunk>, ReadFault>
        ensures answer { IsReadOf most ordered self.old.receiving result }
        ensures leads { self.new ≡ with_receiving (after_read ordered result) self.old }
        ensures same { kept_of self.new ≡ kept_of self.old }
        ensures still { sends_of self.new ≡ sends_of self.old }
    {
        match &mut self.receiving {
            Some(receiving) => read(receiving, ordered, most),
            None => Err(ReadFault::ClosedStream),
        }
    }

    /// The same; what it gives back counts for the connection's credit.
    #[tactic(auto, unfolding(crate::specs::Sequel::settling))]
    pub(crate) fn give(
        &mut self,
        ordered: bool,
        most: usize,
        incoming: &mut Incoming,
    ) -> (Result<Option<Chunk>, ReadFault>, Sequel)
        ensures answer { IsReadOf most ordered self.old.receiving result.0 }
        ensures leads { self.new ≡ settling (with_receiving (after_read ordered result.0)) self.old }
        ensures counted { incoming.new ≡ tallied (totals_of self.old.receiving) (totals_of (with_receiving (after_read ordered result.0) self.old).receiving) incoming.old }
        ensures sequel { result.1 ≡ sequel_of (with_receiving (after_read ordered result.0) self.old) }
        ensures same { kept_of self.new ≡ kept_of self.old }
        ensures still { sends_of self.new ≡ sends_of self.old }
    {
        let before = self.totals();
        let chunk = self.read(ordered, most);
        incoming.tally(before, self.totals());
        let sequel = self.look_at();
        (chunk, sequel)
    }

    /// Stops the stream.
    #[tactic(auto, unfolding(crate::specs::Stream::with_receiving))]
    pub(crate) fn stop(&mut self, code: VarInt) -> Result<(), ClosedStream>
        ensures stopped { OnOk result (self.new ≡ with_receiving (stop_asked code) self.old) }
        ensures same { kept_of self.new ≡ kept_of self.old }
        ensures still { sends_of self.new ≡ sends_of self.old }
        ensures refused { is_err result ≡ closed_to self.old.receiving }
        ensures err { OnErr result (self.new ≡ self.old) }
    {
        let Some(receiving) = &mut self.receiving else {
            return Err(ClosedStream);
        };
        match receiving.stop(code) {
            Ok(()) => Ok(()),
            Err(_) => Err(ClosedStream),
        }
    }

    /// The code of the reset that came.
    #[tactic(auto, unfolding(crate::specs::Stream::with_receiving))]
    pub(crate) fn received_reset(&mut self) -> Result<Option<VarInt>, ClosedStream>
        ensures code { IfOk result (λ code. code ≡ reset_of self.old.receiving) }
        ensures told { OnOk result (self.new ≡ with_receiving reset_asked self.old) }
        ensures same { kept_of self.new ≡ kept_of self.old }
        ensures still { sends_of self.new ≡ sends_of self.old }
        ensures refused { is_err result ≡ closed_to self.old.receiving }
        ensures err { OnErr result (self.new ≡ self.old) }
    {
        let Some(receiving) = &mut self.receiving else {
            return Err(ClosedStream);
        };
        match receiving.received_reset() {
            Ok(code) => Ok(code),
            Err(_) => Err(ClosedStream),
        }
    }
}
