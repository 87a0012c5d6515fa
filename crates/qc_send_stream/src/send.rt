//! What was written on a stream, what the peer allows and asks, and what is to be sent.

ghost use Rattle.std.specs.Prelude.{◌≡◌, ◌+◌, ◌^◌, ◌<◌, ◌≤◌, not, take, drop, length, IfOk, IfErr, OnOk, OnErr, None, Some, is_some, is_err};
ghost use Rattle.qc_send_stream.specs.Sending.{new_sending, is_closed, takes, write_refusal, IsWriteRefusal, part_written, after_refusal, unblocked, kept_count, finish_refusal, finished, was_reset, was_stopped, limit_raised};

use crate::buffer::SendBuffer;
use crate::fault::{ClosedStream, FinishError, WriteError};
use bytes::Bytes;
use qc_base::VarInt;
use std::alloc::Global;

/// What became of something that is to be sent once.
#[derive(Clone, Copy, Debug, PartialEq, Eq)]
pub enum Standing {
    /// It waits: it was never sent, or was lost.
    Waiting,
    /// It was sent and isn't acknowledged.
    InFlight,
    /// The peer acknowledged it.
    Acknowledged,
}

/// The application's reset of a stream (RFC 9000, section 3.1).
#[derive(Clone, Copy, Debug, PartialEq, Eq)]
pub struct Reset {
    /// The code.
    pub code: VarInt,
    /// What became of RESET_STREAM.
    pub standing: Standing,
}

/// A part of a stream, as a STREAM frame holds it (RFC 9000, section 19.8).
#[derive(Drop)]
pub struct Part {
    /// The first byte's offset.
    pub offset: u64,
    /// The bytes.
    pub bytes: Bytes,
    /// Whether the stream ends with them.
    pub last: bool,
}

/// The sending part of a stream (RFC 9000, section 3.1).
#[derive(Drop)]
pub struct SendPart {
    /// What was written and isn't acknowledged.
    pub buffer: SendBuffer,
    /// Up to where the peer lets this end send.
    pub limit: u64,
    /// What became of the stream's end, once the application finished it.
    pub end: Option<Standing>,
    /// The application's reset.
    pub reset: Option<Reset>,
    /// The code with which the peer stopped the stream.
    pub stopped: Option<VarInt>,
    /// Whether a write was blocked since that was last taken.
    pub blocked: bool,
}

impl SendPart {
    /// A stream on which nothing was written, with the peer's limit.
    #[tactic(auto, unfolding(crate::specs::Sending::new_sending))]
    pub fn new(alloc: Global, limit: VarInt) -> Self
        ensures { result ≡ new_sending limit }
    {
        SendPart {
            buffer: SendBuffer::new(alloc),
            limit: limit.into_inner(),
            end: None,
            reset: None,
            stopped: None,
            blocked: false,
        }
    }

    /// How many bytes are kept until they are acknowledged.
    pub fn kept(&self) -> u64
        ensures { result ≡ kept_count self.now }
    {
        self.buffer.kept()
    }

    /// Whether the application can't write any more: it finished or reset the stream.
    #[tactic(auto, unfolding(crate::specs::Sending::is_closed))]
    pub fn is_closed(&self) -> bool
        ensures { result ≡ is_closed self.now }
    {
        self.end.is_some() || self.reset.is_some()
    }

    /// Why a write is refused.
    #[tactic(auto, unfolding(crate::specs::Sending::write_refusal))]
    fn write_refusal(&self, budget: u64) -> Option<WriteError>
        ensures { result ≡ write_refusal budget self.now }
    {
        if budget == 0 {
            return Some(WriteError::Blocked);
        }
        if self.is_closed() {
            return Some(WriteError::ClosedStream);
        }
        if let Some(code) = self.stopped {
            return Some(WriteError::Stopped(code));
        }
        if self.limit <= self.buffer.written() {
            return Some(WriteError::Blocked);
        }
        None
    }

    /// How many bytes a write takes.
    #[tactic(auto, unfolding(crate::specs::Sending::takes))]
    fn takes(&self, wanted: usize, budget: u64) -> usize
        ensures count { result ≡ takes wanted budget self.now }
        ensures within { result ≤ wanted }
        ensures spared { result ≤ budget }
        ensures fits { self.now.buffer.written + result < 2 ^ 64 }
    {
        let credit = self.limit.saturating_sub(self.buffer.written());
        (wanted as u64).min(credit.min(budget)) as usize
    }

    /// Writes as many bytes of the chunk's front as fit, which are cut off it: no more than the
    /// peer's limit leaves, nor than the budget (RFC 9000, section 4.1). Answers how many.
    ///
    /// # Errors
    ///
    /// Exactly, in this order: [`WriteError::Blocked`] where there is no budget,
    /// [`WriteError::ClosedStream`] where the stream is finished or reset,
    /// [`WriteError::Stopped`] where the peer stopped it, [`WriteError::Blocked`] where the limit is
    /// reached; or want of memory. The chunk and the bytes are as before then; that a write was
    /// blocked is noted.
    #[tactic(auto, unfolding(crate::specs::Sending::part_written))]
    pub fn write(&mut self, chunk: &mut Bytes, budget: u64) -> Result<usize, WriteError>
        ensures count { IfOk result (λ n. n ≡ takes (length chunk.old) budget self.old) }
        ensures written { IfOk result (λ n. self.new ≡ part_written (take n chunk.old) self.old) }
        ensures rest { IfOk result (λ n. chunk.new ≡ drop n chunk.old) }
        ensures within { IfOk result (λ n. n ≤ budget) }
        ensures more { IfOk result (λ n. kept_count self.new ≡ kept_count self.old + n) }
        ensures fits { OnOk result (write_refusal budget self.old ≡ None) }
        ensures refused { IfErr result (λ e. IsWriteRefusal e (write_refusal budget self.old)) }
        ensures err { IfErr result (λ e. self.new ≡ after_refusal e self.old) }
        ensures kept { OnErr result (chunk.new ≡ chunk.old) }
    {
        if let Some(refusal) = self.write_refusal(budget) {
            self.note_refusal(&refusal);
            return Err(refusal);
        }
        let count = self.takes(chunk.len(), budget);
        match self.buffer.write_front(chunk, count) {
            Ok(()) => Ok(count),
            Err(_) => Err(WriteError::OutOfMemory),
        }
    }

    /// Notes that a write was blocked.
    #[tactic(auto, unfolding(crate::specs::Sending::was_blocked))]
    fn note_refusal(&mut self, refusal: &WriteError)
        ensures { self.new ≡ after_refusal refusal.now self.old }
    {
        match refusal {
            WriteError::Blocked => self.blocked = true,
            WriteError::ClosedStream => {}
            WriteError::Stopped(_) => {}
            WriteError::OutOfMemory => {}
        }
    }

    /// Whether a write was blocked since this was last asked.
    #[tactic(auto, unfolding(crate::specs::Sending::unblocked))]
    pub fn take_blocked(&mut self) -> bool
        ensures blocked { result ≡ self.old.blocked }
        ensures forgotten { self.new ≡ unblocked self.old }
    {
        let blocked = self.blocked;
        self.blocked = false;
        blocked
    }

    /// Finishes the stream: nothing is written any more, and its end waits to be sent.
    ///
    /// # Errors
    ///
    /// Exactly, in this order: [`FinishError::Stopped`] where the peer stopped the stream,
    /// [`FinishError::ClosedStream`] where it is finished or reset. Nothing changes then.
    #[tactic(auto, unfolding(crate::specs::Sending::finish_refusal, crate::specs::Sending::finished))]
    pub fn finish(&mut self) -> Result<(), FinishError>
        ensures finished { OnOk result (self.new ≡ finished self.old) }
        ensures fits { OnOk result (finish_refusal self.old ≡ None) }
        ensures refused { IfErr result (λ e. finish_refusal self.old ≡ Some e) }
        ensures err { OnErr result (self.new ≡ self.old) }
    {
        if let Some(code) = self.stopped {
            return Err(FinishError::Stopped(code));
        }
        if self.is_closed() {
            return Err(FinishError::ClosedStream);
        }
        self.end = Some(Standing::Waiting);
        Ok(())
    }

    /// Resets the stream (RFC 9000, section 3.1): its bytes are let go, and RESET_STREAM waits to
    /// be sent.
    ///
    /// # Errors
    ///
    /// Exactly where the stream was reset before; nothing changes then.
    #[tactic(auto, unfolding(crate::specs::Sending::was_reset))]
    pub fn reset(&mut self, code: VarInt) -> Result<(), ClosedStream>
        ensures reset { OnOk result (self.new ≡ was_reset code self.old) }
        ensures refused { is_err result ≡ is_some self.old.reset }
        ensures err { OnErr result (self.new ≡ self.old) }
    {
        if self.reset.is_some() {
            return Err(ClosedStream);
        }
        self.buffer.discard();
        self.reset = Some(Reset {
            code,
            standing: Standing::Waiting,
        });
        Ok(())
    }

    /// Takes the peer's STOP_SENDING (RFC 9000, section 19.5), and answers whether it is the first:
    /// the code of a later one doesn't count.
    #[tactic(auto, unfolding(crate::specs::Sending::was_stopped))]
    pub fn stop(&mut self, code: VarInt) -> bool
        ensures first { result ≡ not (is_some self.old.stopped) }
        ensures stopped { self.new ≡ was_stopped code self.old }
    {
        if self.stopped.is_some() {
            return false;
        }
        self.stopped = Some(code);
        true
    }

    /// Takes the peer's MAX_STREAM_DATA (RFC 9000, section 19.10): a limit only rises.
    #[tactic(auto, unfolding(crate::specs::Sending::limit_raised))]
    pub fn raise_limit(&mut self, limit: VarInt)
        ensures { self.new ≡ limit_raised limit self.old }
    {
        self.limit = self.limit.max(limit.into_inner());
    }
}
