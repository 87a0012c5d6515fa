//! What came of a stream, what was read, and what is owed for it.

ghost use Rattle.std.specs.Prelude.{◌≡◌, ℕ, ◌+◌, ◌-◌, ◌^◌, ◌<◌, ◌≤◌, Bool, true, false, length, IfOk, IfErr, OnOk, OnErr, Some, None, Err};
ghost use Rattle.qc_recv.specs.Receiving.{new_receiving, is_ended, credit, new_bytes, breaks_size, above_credit, end_refusal, keeps, returned, end_taken, bytes_taken, has_many_parts, stream_taken, stream_refusal, reset_taken, reset_refusal, IsRefusal, fault_of};

use crate::fault::{FrameFault, ReadError, ReadableError, Refusal};
use bytes::Bytes;
use qc_assembler::{Assembler, InsertError};
use qc_base::VarInt;
use std::alloc::Global;

/// The receiving side of a stream (RFC 9000, section 3.2).
#[derive(Drop)]
pub struct Recv {
    /// The bytes that came.
    pub assembler: Assembler,
    /// The greatest end of what came.
    pub greatest: u64,
    /// The stream's final size, once it is known.
    pub size: Option<u64>,
    /// The code of the peer's reset.
    pub reset: Option<VarInt>,
    /// The code with which the application stopped the stream.
    pub stopped: Option<VarInt>,
    /// Whether the application was told the end or the reset.
    pub told: bool,
    /// Whether the stream is read out of order.
    pub unordered: bool,
    /// How many bytes were read.
    pub read: u64,
    /// How many bytes may be underway.
    pub window: u64,
    /// The credit that was announced to the peer.
    pub announced: u64,
    /// Whether a MAX_STREAM_DATA waits.
    pub credit_waits: bool,
    /// Whether a STOP_SENDING waits.
    pub stop_waits: bool,
}

/// Bytes of a stream, and the offset of the first.
#[derive(Drop)]
pub struct Chunk {
    /// The first byte's offset.
    pub offset: u64,
    /// The bytes.
    pub bytes: Bytes,
}

impl Recv {
    /// A stream of which nothing came.
    #[tactic(auto, unfolding(crate::specs::Receiving::new_receiving))]
    pub fn new(alloc: Global, window: u64) -> Self
        ensures { result ≡ new_receiving window }
    {
        Recv {
            assembler: Assembler::new(alloc),
            greatest: 0,
            size: None,
            reset: None,
            stopped: None,
            told: false,
            unordered: false,
            read: 0,
            window,
            announced: window,
            credit_waits: false,
            stop_waits: false,
        }
    }

    /// Whether nothing more happens on this side.
    #[tactic(auto, unfolding(crate::specs::Receiving::is_ended))]
    pub fn is_ended(&self) -> bool
        ensures { result ≡ is_ended self.now }
    {
        self.told || (self.stopped.is_some() && self.size.is_some())
    }

    /// Up to where the peer may send.
    #[tactic(auto, unfolding(crate::specs::Receiving::credit, crate::specs::Receiving::counted))]
    pub fn credit(&self) -> u64
        ensures { result ≡ credit self.now }
    {
        self.read.saturating_add(self.window)
    }

    /// How many bytes that end there are new.
    #[tactic(auto, unfolding(crate::specs::Receiving::new_bytes))]
    pub fn new_bytes(&self, end: u64) -> u64
        ensures { result ≡ new_bytes end self.now }
    {
        end.saturating_sub(self.greatest)
    }

    /// Whether a frame's end contradicts what is known: it lies past the known size, or it is the
    /// last and another size than the known one, or lies below bytes that came (RFC 9000, section
    /// 4.5).
    #[tactic(auto, unfolding(crate::specs::Receiving::breaks_size))]
    fn breaks_size(&self, end: u64, last: bool) -> bool
        ensures { result ≡ breaks_size end last self.now }
    {
        match self.size {
            Some(size) => size < end || (last && (size != end || end < self.greatest)),
            None => last && end < self.greatest,
        }
    }

    /// Whether an end lies above the stream's or the connection's credit.
    #[tactic(auto, unfolding(crate::specs::Receiving::above_credit))]
    fn above_credit(&self, end: u64, room: u64) -> bool
        ensures { result ≡ above_credit end room self.now }
    {
        self.credit() < end || room < self.new_bytes(end)
    }

    /// Why a frame whose bytes end there is refused.
    #[tactic(auto, unfolding(crate::specs::Receiving::end_refusal, crate::specs::Receiving::first_row))]
    fn end_refusal(&self, end: u64, last: bool, room: u64) -> Option<Refusal>
        ensures { result ≡ end_refusal end last room self.now }
    {
        if end >= 1 << 62 {
            return Some(Refusal::FlowControl);
        }
        if self.breaks_size(end, last) {
            return Some(Refusal::FinalSize);
        }
        if self.above_credit(end, room) {
            return Some(Refusal::FlowControl);
        }
        None
    }
}

impl Recv {
    /// Whether bytes that come are kept.
    #[tactic(auto, unfolding(crate::specs::Receiving::keeps))]
    pub fn keeps(&self) -> bool
        ensures { result ≡ keeps self.now }
    {
        !(self.stopped.is_some() || self.reset.is_some())
    }

    /// How many of its bytes give credit back to the connection.
    #[tactic(auto, unfolding(crate::specs::Receiving::returned))]
    pub fn returned(&self) -> u64
        ensures { result ≡ returned self.now }
    {
        if self.stopped.is_some() || self.reset.is_some() {
            self.greatest
        } else {
            self.read
        }
    }

    /// Takes the end of a frame.
    #[tactic(auto, unfolding(crate::specs::Receiving::end_taken))]
    fn take_end(&mut self, end: u64, last: bool)
        ensures { self.new ≡ end_taken end last self.old }
    {
        self.greatest = self.greatest.max(end);
        if last {
            self.size = Some(end);
            self.credit_waits = false;
        }
    }

    /// Keeps bytes that came, where they are kept.
    #[tactic(auto, unfolding(crate::specs::Receiving::bytes_taken, crate::specs::Receiving::has_many_parts))]
    fn take_bytes(&mut self, offset: u64, bytes: Bytes) -> Result<(), InsertError>
        requires { offset + length bytes < 2 ^ 64 }
        ensures came { OnOk result (self.new ≡ bytes_taken offset bytes self.old) }
        ensures few { OnOk result (has_many_parts offset bytes self.old ≡ false) }
        ensures many { result ≡ Err InsertError.TooManyParts → has_many_parts offset bytes self.old ≡ true }
        ensures err { OnErr result (self.new ≡ self.old) }
    {
        if !self.keeps() {
            return Ok(());
        }
        self.assembler.insert(offset, bytes)
    }

    /// Takes a STREAM frame (RFC 9000, section 19.8) where the connection has room for so many new
    /// bytes. On a side that has ended and after a reset it is passed over; on a stopped stream its
    /// bytes are.
    ///
    /// # Errors
    ///
    /// A [`Refusal`], exactly by the table of the definition; want of memory. Nothing changes then.
    #[tactic(auto, unfolding(crate::specs::Receiving::stream_taken, crate::specs::Receiving::stream_refusal, crate::specs::Receiving::IsRefusal, crate::specs::Receiving::has_many_parts, crate::specs::Receiving::keeps))]
    pub fn take_stream(
        &mut self,
        offset: u64,
        bytes: Bytes,
        last: bool,
        room: u64,
    ) -> Result<(), FrameFault>
        requires { offset < 2 ^ 62 }
        ensures taken { OnOk result (self.new ≡ stream_taken offset bytes last self.old) }
        ensures fits { OnOk result (stream_refusal offset bytes last room self.old ≡ None) }
        ensures refused { IfErr result (λ e. IsRefusal e (stream_refusal offset bytes last room self.old)) }
        ensures err { OnErr result (self.new ≡ self.old) }
    {
        if self.is_ended() {
            return Ok(());
        }
        let end = offset + bytes.len() as u64;
        if let Some(refusal) = self.end_refusal(end, last, room) {
            return Err(FrameFault::Refused(refusal));
        }
        if self.reset.is_some() {
            return Ok(());
        }
        match self.take_bytes(offset, bytes) {
            Ok(()) => {
                self.take_end(end, last);
                Ok(())
            }
            Err(error) => Err(fault_of(error)),
        }
    }

    /// Takes a RESET_STREAM frame (RFC 9000, section 19.4) where the connection has room for so many
    /// new bytes. On a side that has ended and after another reset it is passed over.
    ///
    /// # Errors
    ///
    /// A [`Refusal`], exactly by the table of the definition; nothing changes then.
    #[tactic(auto, unfolding(crate::specs::Receiving::reset_taken, crate::specs::Receiving::reset_refusal))]
    pub fn take_reset(&mut self, code: VarInt, size: u64, room: u64) -> Result<(), Refusal>
        ensures taken { OnOk result (self.new ≡ reset_taken code size self.old) }
        ensures fits { OnOk result (reset_refusal size room self.old ≡ None) }
        ensures refused { IfErr result (λ e. reset_refusal size room self.old ≡ Some e) }
        ensures err { OnErr result (self.new ≡ self.old) }
    {
        if self.is_ended() {
            return Ok(());
        }
        if let Some(refusal) = self.end_refusal(size, true, room) {
            return Err(refusal);
        }
        if self.reset.is_some() {
            return Ok(());
        }
        self.assembler.clear();
        self.reset = Some(code);
        self.take_end(size, true);
        Ok(())
    }
}

/// Why an insertion failed, as a frame's fault.
fn fault_of(error: InsertError) -> FrameFault
    ensures { result ≡ fault_of error }
{
    match error {
        InsertError::TooManyParts => FrameFault::Refused(Refusal::TooManyParts),
        InsertError::OutOfMemory => FrameFault::OutOfMemory,
    }
}
