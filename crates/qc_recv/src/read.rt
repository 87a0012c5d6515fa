//! Reading, stopping, and what waits to be sent for a stream that is received.

ghost use Rattle.std.specs.Prelude.{◌≡◌, ℕ, ◌<◌, ◌≤◌, true, false, length, IfOk, IfErr, OnOk, OnErr, Some, None, Ok, Err, is_err};
ghost use Rattle.qc_recv.specs.Receiving.{is_ended, is_at_end, owes_credit, given, chunk_given, end_told, stop_asked, opened, is_closed, reset_asked, read_refusal, ReadsChunk, IsNext};

use crate::fault::{ClosedStream, ReadError, ReadableError};
use crate::recv::{Chunk, Recv};
use qc_base::VarInt;
use std::alloc::AllocError;

impl Recv {
    /// Whether credit is owed to the peer.
    #[tactic(auto, unfolding(crate::specs::Receiving::owes_credit))]
    fn owes_credit(&self) -> bool
        ensures { result ≡ owes_credit self.now }
    {
        let credit = self.credit();
        self.announced < credit
            && self.window / 8 <= credit - self.announced
            && self.size.is_none()
            && self.stopped.is_none()
    }

    /// Counts bytes that were given to the application.
    #[tactic(auto, unfolding(crate::specs::Receiving::given, crate::specs::Receiving::counted))]
    fn count_given(&mut self, count: u64)
        ensures { self.new ≡ given count self.old }
    {
        self.read = self.read.saturating_add(count);
        if self.owes_credit() {
            self.credit_waits = true;
        }
    }

    /// Whether all bytes up to the end were read.
    #[tactic(auto, unfolding(crate::specs::Receiving::is_at_end))]
    fn is_at_end(&self) -> bool
        ensures { result ≡ is_at_end self.now }
    {
        match self.size {
            Some(size) => size == self.read,
            None => false,
        }
    }

    /// Begins to read, in order or, from then on, out of order.
    ///
    /// # Errors
    ///
    /// `ClosedStream` exactly where the stream is stopped, or its end or its reset was told;
    /// `IllegalOrderedRead` exactly where it isn't and is to be read in order after it was
    /// read out of order.
    #[tactic(auto, unfolding(crate::specs::Receiving::opened, crate::specs::Receiving::read_refusal))]
    pub fn open(&mut self, ordered: bool) -> Result<(), ReadableError>
        ensures ok { OnOk result (self.new ≡ opened ordered self.old) }
        ensures fits { OnOk result (read_refusal ordered self.old ≡ None) }
        ensures refused { IfErr result (λ e. read_refusal ordered self.old ≡ Some e) }
        ensures err { OnErr result (self.new ≡ self.old) }
    {
        if self.is_closed() {
            return Err(ReadableError::ClosedStream);
        }
        if !ordered {
            self.unordered = true;
        } else if self.unordered {
            return Err(ReadableError::IllegalOrderedRead);
        }
        Ok(())
    }

    /// Whether the application can't read any more: it stopped the stream, or was told the end or
    /// the reset.
    #[tactic(auto, unfolding(crate::specs::Receiving::is_closed))]
    pub fn is_closed(&self) -> bool
        ensures { result ≡ is_closed self.now }
    {
        self.told || self.stopped.is_some()
    }

    /// The application wants no more: STOP_SENDING is owed, unless the peer reset the stream
    /// (RFC 9000, section 3.5).
    ///
    /// # Errors
    ///
    /// Exactly where the stream is closed to the application; nothing changes then.
    #[tactic(auto, unfolding(crate::specs::Receiving::stop_asked))]
    pub fn stop(&mut self, code: VarInt) -> Result<(), ClosedStream>
        ensures refused { is_err result ≡ is_closed self.old }
        ensures stopped { OnOk result (self.new ≡ stop_asked code self.old) }
        ensures err { OnErr result (self.new ≡ self.old) }
    {
        if self.is_closed() {
            return Err(ClosedStream);
        }
        self.assembler.clear();
        self.stopped = Some(code);
        self.stop_waits = self.reset.is_none();
        Ok(())
    }

    /// The code with which the peer reset the stream, which is told then. None exactly where it
    /// didn't.
    ///
    /// # Errors
    ///
    /// Exactly where the stream is closed to the application; nothing changes then.
    #[tactic(auto, unfolding(crate::specs::Receiving::reset_asked))]
    pub fn received_reset(&mut self) -> Result<Option<VarInt>, ClosedStream>
        ensures refused { is_err result ≡ is_closed self.old }
        ensures code { IfOk result (λ code. code ≡ self.old.reset) }
        ensures told { OnOk result (self.new ≡ reset_asked self.old) }
        ensures err { OnErr result (self.new ≡ self.old) }
    {
        if self.is_closed() {
            return Err(ClosedStream);
        }
        let code = self.reset;
        if code.is_some() {
            self.tell_end();
        }
        Ok(code)
    }

    /// The application is told the end or the reset.
    #[tactic(auto, unfolding(crate::specs::Receiving::end_told))]
    fn tell_end(&mut self)
        ensures { self.new ≡ end_told self.old }
    {
        self.told = true;
    }

    /// A chunk of at most so many bytes in order.
    fn read_in_order(&mut self, most: usize) -> Result<Option<Chunk>, AllocError>
        requires { self.old.unordered ≡ false }
        ensures chunk { IfOk result (λ c. ReadsChunk most self.old c self.new) }
        ensures err { OnErr result (self.new ≡ self.old) }
    {
        let offset = self.assembler.bytes_read();
        let Some(bytes) = self.assembler.read(most)? else {
            return Ok(None);
        };
        self.count_given(bytes.len() as u64);
        Ok(Some(Chunk { offset, bytes }))
    }

    /// A chunk of at most so many bytes out of order.
    fn read_out_of_order(&mut self, most: usize) -> Result<Option<Chunk>, AllocError>
        requires { self.old.unordered ≡ true }
        ensures chunk { IfOk result (λ c. ReadsChunk most self.old c self.new) }
        ensures err { OnErr result (self.new ≡ self.old) }
    {
        let Some((offset, bytes)) = self.assembler.read_unordered(most)? else {
            return Ok(None);
        };
        self.count_given(bytes.len() as u64);
        Ok(Some(Chunk { offset, bytes }))
    }

    /// A chunk of at most so many bytes, where there is one.
    fn read_chunk(&mut self, most: usize) -> Result<Option<Chunk>, AllocError>
        ensures chunk { IfOk result (λ c. ReadsChunk most self.old c self.new) }
        ensures err { OnErr result (self.new ≡ self.old) }
    {
        if self.unordered {
            self.read_out_of_order(most)
        } else {
            self.read_in_order(most)
        }
    }

    /// The next bytes for the application, at most so many. None exactly at the end, which is told
    /// then.
    ///
    /// # Errors
    ///
    /// `Reset` exactly where the peer reset the stream, which is told then; `Blocked` exactly where
    /// it didn't, no byte can be read and the end isn't reached; want of memory. After the last two
    /// nothing changed.
    #[tactic(auto, unfolding(crate::specs::Receiving::IsNext, crate::specs::Receiving::ReadsChunk))]
    pub fn next(&mut self, most: usize) -> Result<Option<Chunk>, ReadError>
        ensures { IsNext most self.old result self.new }
    {
        if let Some(code) = self.reset {
            self.tell_end();
            return Err(ReadError::Reset(code));
        }
        match self.read_chunk(most) {
            Ok(Some(chunk)) => Ok(Some(chunk)),
            Ok(None) if self.is_at_end() => {
                self.tell_end();
                Ok(None)
            }
            Ok(None) => Err(ReadError::Blocked),
            Err(_) => Err(ReadError::OutOfMemory),
        }
    }
}
