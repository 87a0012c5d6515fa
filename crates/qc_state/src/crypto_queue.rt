//! The bytes that the session wrote for one space's CRYPTO stream.

ghost use Rattle.std.specs.Prelude.{◌≡◌, ◌+◌, ◌<◌, ◌≤◌, ◌^◌, IfNone, IfOk, IfSome, OnOk, length, is_some};
ghost use Rattle.qc_send_stream.specs.Buffer.{discarded, has_bytes, nothing, range_lost, range_sealed, waiting};
ghost use Rattle.qc_state.specs.Waiting.{StartsWith, crypto_more};

use bytes::Bytes;
use qc_send_stream::SendBuffer;
use std::alloc::{AllocError, Global};
use std::marker::Model;

/// The bytes that the session wrote for a CRYPTO stream (RFC 9000, 19.6), and which of them wait to be sealed: those that never
/// were, and those whose packet was lost since. They are kept until the keys of the space are dropped.
#[derive(Drop)]
pub struct CryptoQueue {
    buffer: SendBuffer,
    waits: bool,
}

impl Model for CryptoQueue {
    ghost use Rattle.std.specs.Prelude.{◌≡◌, ◌<◌, ◌^◌};
    ghost use Rattle.qc_send_stream.specs.Buffer.{Buffer, has_bytes, waiting};

    ghost Value = { Buffer };

    ghost view = { λ q. q.buffer };

    ghost invariant = { λ q. (q.waits ≡ has_bytes (waiting q.buffer)) × (q.buffer.written < 2 ^ 62) };
}

impl CryptoQueue {
    /// The session wrote nothing yet.
    #[tactic(auto, unfolding(qc_send_stream::specs::Buffer::nothing, qc_send_stream::specs::Buffer::waiting, qc_send_stream::specs::Buffer::from_lost, qc_send_stream::specs::Buffer::from_offset, qc_send_stream::specs::Buffer::has_bytes))]
    pub fn new(alloc: Global) -> CryptoQueue
        ensures { result ≡ nothing }
    {
        CryptoQueue {
            buffer: SendBuffer::new(alloc),
            waits: false,
        }
    }

    /// Whether bytes wait.
    pub fn waits(&self) -> bool
        ensures { result ≡ has_bytes (waiting self.now) }
    {
        self.waits
    }

    /// The session wrote more bytes, which wait, where the stream, which ends at 2^62, has room for them. Want of memory is the
    /// only refusal.
    #[tactic(auto, unfolding(crate::specs::Waiting::crypto_more, qc_send_stream::specs::Buffer::bytes_written))]
    pub fn write(&mut self, bytes: Bytes) -> Result<(), AllocError>
        ensures { OnOk result (self.new ≡ crypto_more self.old bytes) }
    {
        let len = bytes.len() as u64;
        if len >= (1 << 62) - self.buffer.written() {
            return Ok(());
        }
        self.buffer.write(bytes)?;
        self.waits = self.buffer.waits();
        Ok(())
    }

    /// Takes bytes that wait first, at most so many, and at least one; none exactly where none wait. Want of memory is the only
    /// refusal.
    #[tactic(auto, unfolding(qc_send_stream::specs::Buffer::range_sealed, qc_send_stream::specs::Buffer::part_offset, qc_send_stream::specs::Buffer::part_bytes), using(crate::proofs::CryptoBytes::starts))]
    pub fn take(&mut self, most: usize) -> Result<Option<(u64, Bytes)>, AllocError>
        requires { 0 < most }
        ensures given { IfOk result (λ part. is_some part ≡ has_bytes (waiting self.old)) }
        ensures part { IfOk result (λ part. IfSome part (λ p. StartsWith self.old p.0 p.1)) }
        ensures most { IfOk result (λ part. IfSome part (λ p. length p.1 ≤ most)) }
        ensures taken { IfOk result (λ part. IfSome part (λ p. self.new ≡ range_sealed p.0 (p.0 + length p.1) self.old)) }
        ensures none { IfOk result (λ part. IfNone part (self.new ≡ self.old)) }
        ensures bound { IfOk result (λ part. IfSome part (λ p. p.0 + length p.1 < 2 ^ 62)) }
    {
        if !self.waits {
            return Ok(None);
        }
        match self.buffer.offer(most)? {
            None => Ok(None),
            Some((offset, bytes)) => {
                self.buffer.seal(offset, offset + bytes.len() as u64)?;
                self.waits = self.buffer.waits();
                Ok(Some((offset, bytes)))
            }
        }
    }

    /// A packet with so many bytes at this offset was lost: they wait again. Want of memory is the only refusal.
    #[tactic(auto, unfolding(qc_send_stream::specs::Buffer::range_lost), using(crate::proofs::CryptoBytes::lost_below))]
    pub fn lose(&mut self, offset: u64, count: usize) -> Result<(), AllocError>
        ensures { OnOk result (self.new ≡ range_lost offset (offset + count) self.old) }
    {
        let end = offset.saturating_add(count as u64).min(self.buffer.sent());
        self.buffer.lose(offset, end)?;
        self.waits = self.buffer.waits();
        Ok(())
    }

    /// All bytes wait again from the first one on, each once: those that were sealed, and behind them those that never were. Want of
    /// memory is the only refusal.
    #[tactic(auto, unfolding(qc_send_stream::specs::Buffer::range_lost))]
    pub fn lose_all(&mut self) -> Result<(), AllocError>
        ensures { OnOk result (self.new ≡ range_lost 0 self.old.sent self.old) }
    {
        let sent = self.buffer.sent();
        self.buffer.lose(0, sent)?;
        self.waits = self.buffer.waits();
        Ok(())
    }

    /// The keys of the space were dropped: no byte waits any more.
    #[tactic(auto, unfolding(qc_send_stream::specs::Buffer::discarded))]
    pub fn discard(&mut self)
        ensures { self.new ≡ discarded self.old }
    {
        self.buffer.discard();
        self.waits = self.buffer.waits();
    }
}
