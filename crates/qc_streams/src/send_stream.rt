//! The application's view of a stream that it sends on.

ghost use Rattle.std.specs.Prelude.{◌≡◌, IfErr, IfOk, OnErr, OnOk, None, is_err, length};
ghost use Rattle.std.specs.List.{concat};
ghost use Rattle.std.specs.Option.{option_map};
ghost use Rattle.qc_send_stream.specs.Sending.{finished};
ghost use Rattle.qc_streams.specs.Calls.{bars_reset, count_taken, finish_refusal, known_at, resets, send_room, sends, wrote};
ghost use Rattle.qc_streams.specs.Chunks.{cut_front, whole_in};
ghost use Rattle.qc_streams.specs.Credit.{budget};
ghost use Rattle.qc_streams.specs.Records.{record_of};
ghost use Rattle.qc_streams.specs.Settings.{is_unknown, priority_set, stop_code};
ghost use Rattle.qc_streams.specs.Views.{IsBarred, IsUntaken, finish_bar, unwritten, write_bar};
ghost use Rattle.qc_streams.specs.Queues.{priority_at};

use crate::chunks::Written;
use crate::fault::{ClosedStream, FinishError, WriteError, finish_error};
use crate::state::StreamsState;
use bytes::Bytes;
use qc_base::{StreamId, VarInt};

/// A stream that the application sends on.
#[derive(Drop)]
pub struct SendStream<'a> {
    pub(crate) state: &'a mut StreamsState,
    pub(crate) id: StreamId,
}

impl StreamsState {
    /// The application's view of the stream with an id, to send on it.
    pub fn send_stream(&mut self, id: StreamId) -> SendStream<'_>
        ensures same_reference { result.state.ghost_name ≡ self.entry.ghost_name }
        ensures same_value { result.state.now ≡ self.old }
        ensures id { result.id ≡ id }
    {
        SendStream { state: self, id }
    }
}

impl<'a> SendStream<'a> {
    /// Writes as many bytes of the front as fit: no more than the peer takes of the stream and of all
    /// streams together (RFC 9000, section 4.1), nor than the send window leaves beside the bytes that
    /// all streams keep. Answers how many.
    ///
    /// # Errors
    ///
    /// Exactly, in this order: `Failed` where the connection has failed, `Blocked` where it is closed,
    /// `ClosedStream` where the stream is unknown, `Blocked` where the connection's credit or the send
    /// window is used up, `ClosedStream` where the stream is finished or reset, `Stopped` where the peer
    /// stopped it, `Blocked` where its credit is used up; or `OutOfMemory` for want of memory, to write
    /// or to note that a write is blocked, and then the connection has failed. All else is as before,
    /// but that a write was blocked is noted on a connection that isn't closed.
    pub fn write(&mut self, body: &[u8]) -> Result<usize, WriteError>
        ensures same_reference { self.new.state.ghost_name ≡ self.old.state.ghost_name }
        ensures same_id { self.new.id ≡ self.old.id }
        ensures count { IfOk result (λ n. n ≡ count_taken (length body.now) (budget (send_room self.old.state.now) self.old.state.now.outgoing) (known_at self.old.id self.old.state.now)) }
        ensures written { IfOk result (λ n. self.new.state.now ≡ wrote self.old.id n body.now self.old.state.now) }
        ensures fits { OnOk result (write_bar self.old.id self.old.state.now ≡ None) }
        ensures refused { IfErr result (λ e. IsBarred e (write_bar self.old.id self.old.state.now)) }
        ensures err { IfErr result (λ e. self.new.state.now ≡ unwritten e self.old.id self.old.state.now) }
    {
        self.state.try_write(self.id, body)
    }

    /// Writes as many bytes of the front of chunks as fit, as if they were one: what is taken is cut off
    /// them, and no byte is copied. Answers how many bytes, and how many chunks whole.
    ///
    /// # Errors
    ///
    /// Exactly those of [`SendStream::write`]; the chunks are as before then, and all else is as that
    /// call leaves it. After want of memory a front of the chunks may be taken.
    pub fn write_chunks(&mut self, chunks: &mut [Bytes]) -> Result<Written, WriteError>
        ensures same_reference { self.new.state.ghost_name ≡ self.old.state.ghost_name }
        ensures same_id { self.new.id ≡ self.old.id }
        ensures count { IfOk result (λ w. w.bytes ≡ count_taken (length (concat chunks.old)) (budget (send_room self.old.state.now) self.old.state.now.outgoing) (known_at self.old.id self.old.state.now)) }
        ensures whole { IfOk result (λ w. w.chunks ≡ whole_in w.bytes chunks.old) }
        ensures written { IfOk result (λ w. self.new.state.now ≡ wrote self.old.id w.bytes (concat chunks.old) self.old.state.now) }
        ensures rest { IfOk result (λ w. chunks.new ≡ cut_front w.bytes chunks.old) }
        ensures fits { OnOk result (write_bar self.old.id self.old.state.now ≡ None) }
        ensures refused { IfErr result (λ e. IsBarred e (write_bar self.old.id self.old.state.now)) }
        ensures err { IfErr result (λ e. IsUntaken e chunks.old chunks.new self.old.id self.old.state.now self.new.state.now) }
    {
        self.state.try_write_chunks(self.id, chunks)
    }

    /// Finishes the stream: nothing is written on it any more.
    ///
    /// # Errors
    ///
    /// Exactly, in this order: `ClosedStream` where the stream is unknown, `Stopped` where the peer
    /// stopped it, `ClosedStream` where it is finished or reset. Nothing changes then.
    pub fn finish(&mut self) -> Result<(), FinishError>
        ensures same_reference { self.new.state.ghost_name ≡ self.old.state.ghost_name }
        ensures same_id { self.new.id ≡ self.old.id }
        ensures finished { OnOk result (self.new.state.now ≡ sends finished self.old.id self.old.state.now) }
        ensures fits { OnOk result (finish_bar (known_at self.old.id self.old.state.now) ≡ None) }
        ensures refused { IfErr result (λ e. finish_bar (known_at self.old.id self.old.state.now) ≡ Some e) }
        ensures err { OnErr result (self.new.state.now ≡ self.old.state.now) }
    {
        match self.state.finish(self.id) {
            Ok(()) => Ok(()),
            Err(error) => Err(finish_error(error)),
        }
    }

    /// Resets the stream: its bytes are let go (RFC 9000, section 3.1).
    ///
    /// # Errors
    ///
    /// Exactly where the stream is unknown or was reset; nothing changes then.
    pub fn reset(&mut self, error_code: VarInt) -> Result<(), ClosedStream>
        ensures same_reference { self.new.state.ghost_name ≡ self.old.state.ghost_name }
        ensures same_id { self.new.id ≡ self.old.id }
        ensures reset { OnOk result (self.new.state.now ≡ resets error_code self.old.id self.old.state.now) }
        ensures refused { is_err result ≡ bars_reset (known_at self.old.id self.old.state.now) }
        ensures err { OnErr result (self.new.state.now ≡ self.old.state.now) }
    {
        self.state.reset(self.id, error_code)
    }

    /// The code with which the peer stopped the stream (RFC 9000, section 3.5). None exactly where it
    /// didn't.
    ///
    /// # Errors
    ///
    /// Exactly where the stream is unknown.
    pub fn stopped(&self) -> Result<Option<VarInt>, ClosedStream>
        ensures value { IfOk result (λ code. code ≡ stop_code (known_at self.now.id self.now.state.now)) }
        ensures refused { is_err result ≡ is_unknown (known_at self.now.id self.now.state.now) }
    {
        self.state.stopped(self.id)
    }

    /// Sets the stream's priority, which counts from its next turn on.
    ///
    /// # Errors
    ///
    /// Exactly where the stream is unknown; nothing changes then.
    pub fn set_priority(&mut self, priority: i32) -> Result<(), ClosedStream>
        ensures same_reference { self.new.state.ghost_name ≡ self.old.state.ghost_name }
        ensures same_id { self.new.id ≡ self.old.id }
        ensures set { OnOk result (self.new.state.now ≡ priority_set priority self.old.id self.old.state.now) }
        ensures refused { is_err result ≡ is_unknown (known_at self.old.id self.old.state.now) }
        ensures err { OnErr result (self.new.state.now ≡ self.old.state.now) }
    {
        self.state.set_priority(self.id, priority)
    }

    /// The stream's priority.
    ///
    /// # Errors
    ///
    /// Exactly where the stream is unknown.
    pub fn priority(&self) -> Result<i32, ClosedStream>
        ensures value { IfOk result (λ p. p ≡ priority_at (record_of self.now.id self.now.state.now.records)) }
        ensures refused { is_err result ≡ is_unknown (known_at self.now.id self.now.state.now) }
    {
        self.state.priority(self.id)
    }
}
