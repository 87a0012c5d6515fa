//! What is to be sent of a stream, and what becomes of what was sent.

ghost use Rattle.std.specs.Prelude.{◌≡◌, ◌+◌, ◌≤◌, ◌==◌, ◌&&◌, length, is_some, IfOk, OnOk, OnErr};
ghost use Rattle.qc_send_stream.specs.Buffer.{part_bytes, part_offset};
ghost use Rattle.qc_send_stream.specs.Sending.{IsOffer, kept_count, part_of, part_sealed, part_acked, part_lost, reset_sealed, reset_acked, reset_lost, has_more, is_done, reset_owed, end_with, sealed_standing, acked_standing, lost_standing, is_waiting, is_acked, end_waits, end_acked};

use crate::send::{Part, SendPart, Standing};
use bytes::Bytes;
use qc_base::VarInt;
use std::alloc::AllocError;

/// Whether something waits to be sent.
fn is_waiting(standing: Standing) -> bool
    ensures { result ≡ is_waiting standing }
{
    match standing {
        Standing::Waiting => true,
        Standing::InFlight | Standing::Acknowledged => false,
    }
}

/// Whether something was acknowledged.
fn is_acked(standing: Standing) -> bool
    ensures { result ≡ is_acked standing }
{
    match standing {
        Standing::Acknowledged => true,
        Standing::InFlight | Standing::Waiting => false,
    }
}

/// A standing once a frame is sealed.
fn sealed(standing: Standing) -> Standing
    ensures { result ≡ sealed_standing standing }
{
    match standing {
        Standing::Waiting => Standing::InFlight,
        Standing::InFlight => Standing::InFlight,
        Standing::Acknowledged => Standing::Acknowledged,
    }
}

/// A standing once a frame is lost.
fn lost(standing: Standing) -> Standing
    ensures { result ≡ lost_standing standing }
{
    match standing {
        Standing::Waiting => Standing::Waiting,
        Standing::InFlight => Standing::Waiting,
        Standing::Acknowledged => Standing::Acknowledged,
    }
}

/// The end's standing once a frame is sealed.
fn end_sealed(end: Option<Standing>, last: bool) -> Option<Standing>
    ensures { result ≡ end_with sealed_standing last end }
{
    match end {
        Some(standing) if last => Some(sealed(standing)),
        other => other,
    }
}

/// The end's standing once a frame is acknowledged.
fn end_acknowledged(end: Option<Standing>, last: bool) -> Option<Standing>
    ensures { result ≡ end_with acked_standing last end }
{
    match end {
        Some(_) if last => Some(Standing::Acknowledged),
        other => other,
    }
}

/// The end's standing once a frame is lost.
fn end_lost(end: Option<Standing>, last: bool) -> Option<Standing>
    ensures { result ≡ end_with lost_standing last end }
{
    match end {
        Some(standing) if last => Some(lost(standing)),
        other => other,
    }
}

impl SendPart {
    /// Whether the end waits to be sent.
    fn end_waits(&self) -> bool
        ensures { result ≡ end_waits self.now.end }
    {
        match self.end {
            Some(standing) => is_waiting(standing),
            None => false,
        }
    }

    /// Whether the end is acknowledged.
    fn end_acked(&self) -> bool
        ensures { result ≡ end_acked self.now.end }
    {
        match self.end {
            Some(standing) => is_acked(standing),
            None => false,
        }
    }

    /// Whether nothing more is to be sent or acknowledged (RFC 9000, section 3.1): RESET_STREAM is
    /// acknowledged, or without a reset all bytes and the end are.
    #[tactic(auto, unfolding(crate::specs::Sending::is_done))]
    pub fn is_done(&self) -> bool
        ensures { result ≡ is_done self.now }
    {
        match self.reset {
            Some(reset) => is_acked(reset.standing),
            None => self.end_acked() && self.buffer.is_empty(),
        }
    }

    /// The code and the final size of a RESET_STREAM that waits to be sent (RFC 9000, section 19.4):
    /// as many bytes as were written.
    #[tactic(auto, unfolding(crate::specs::Sending::reset_owed))]
    pub fn reset_owed(&self) -> Option<(VarInt, u64)>
        ensures { result ≡ reset_owed self.now }
    {
        match self.reset {
            Some(reset) if is_waiting(reset.standing) => Some((reset.code, self.buffer.written())),
            _ => None,
        }
    }

    /// A STREAM frame with the bytes from `start` up to `end`, and with the stream's end where it
    /// is the last, was sealed.
    ///
    /// # Errors
    ///
    /// Want of memory; everything is then as before.
    #[tactic(auto, unfolding(crate::specs::Sending::part_sealed))]
    pub fn seal(&mut self, start: u64, end: u64, last: bool) -> Result<(), AllocError>
        ensures sealed { OnOk result (self.new ≡ part_sealed start end last self.old) }
        ensures err { OnErr result (self.new ≡ self.old) }
    {
        self.buffer.seal(start, end)?;
        self.end = end_sealed(self.end, last);
        Ok(())
    }

    /// Such a frame is acknowledged: what of its bytes was sent is kept no more. Answers how many
    /// bytes those are.
    ///
    /// # Errors
    ///
    /// Want of memory; everything is then as before.
    #[tactic(auto, unfolding(crate::specs::Sending::part_acked))]
    pub fn acknowledge(&mut self, start: u64, end: u64, last: bool) -> Result<u64, AllocError>
        ensures acked { OnOk result (self.new ≡ part_acked start end last self.old) }
        ensures count { IfOk result (λ n. n + kept_count self.new ≡ kept_count self.old) }
        ensures err { OnErr result (self.new ≡ self.old) }
    {
        let count = self.buffer.acknowledge(start, end)?;
        self.end = end_acknowledged(self.end, last);
        Ok(count)
    }

    /// Such a frame is lost: what of its bytes was sent and isn't acknowledged waits again, and so
    /// does the end.
    ///
    /// # Errors
    ///
    /// Want of memory; everything is then as before.
    #[tactic(auto, unfolding(crate::specs::Sending::part_lost))]
    pub fn lose(&mut self, start: u64, end: u64, last: bool) -> Result<(), AllocError>
        ensures lost { OnOk result (self.new ≡ part_lost start end last self.old) }
        ensures err { OnErr result (self.new ≡ self.old) }
    {
        self.buffer.lose(start, end)?;
        self.end = end_lost(self.end, last);
        Ok(())
    }

    /// A RESET_STREAM was sealed.
    #[tactic(auto, unfolding(crate::specs::Sending::reset_sealed))]
    pub fn reset_sealed(&mut self)
        ensures { self.new ≡ reset_sealed self.old }
    {
        if let Some(reset) = &mut self.reset {
            reset.standing = sealed(reset.standing);
        }
    }

    /// A RESET_STREAM is acknowledged: with that a stream that was reset is done.
    #[tactic(auto, unfolding(crate::specs::Sending::reset_acked))]
    pub fn reset_acknowledged(&mut self)
        ensures { self.new ≡ reset_acked self.old }
    {
        if let Some(reset) = &mut self.reset {
            reset.standing = Standing::Acknowledged;
        }
    }

    /// A RESET_STREAM is lost: it waits again.
    #[tactic(auto, unfolding(crate::specs::Sending::reset_lost))]
    pub fn reset_lost(&mut self)
        ensures { self.new ≡ reset_lost self.old }
    {
        if let Some(reset) = &mut self.reset {
            reset.standing = lost(reset.standing);
        }
    }

    /// Whether the stream ends where those bytes do.
    fn is_last(&self, offset: u64, bytes: &Bytes) -> bool
        requires { offset + length bytes.now ≤ self.now.buffer.written }
        ensures { result ≡ is_some self.now.end && (offset + length bytes.now == self.now.buffer.written) }
    {
        let written = self.buffer.written();
        self.end.is_some() && offset + bytes.len() as u64 == written
    }

    /// The part that bytes which wait make, or the end alone.
    #[tactic(auto, unfolding(crate::specs::Buffer::part_offset, crate::specs::Buffer::part_bytes))]
    fn part_of(&self, bytes: Option<(u64, Bytes)>) -> Option<Part>
        requires { part_offset bytes + length (part_bytes bytes) ≤ self.now.buffer.written }
        ensures { result ≡ part_of bytes self.now }
    {
        match bytes {
            Some((offset, bytes)) => {
                let last = self.is_last(offset, &bytes);
                Some(Part {
                    offset,
                    bytes,
                    last,
                })
            }
            None if self.end_waits() => Some(Part {
                offset: self.buffer.written(),
                bytes: Bytes::new(),
                last: true,
            }),
            None => None,
        }
    }

    /// Whether a STREAM frame is to be sent.
    #[tactic(auto, unfolding(crate::specs::Sending::has_more))]
    pub fn has_more(&mut self) -> bool
        ensures more { result ≡ has_more self.old }
        ensures same { self.new ≡ self.old }
    {
        let waits = self.buffer.waits();
        self.reset.is_none() && (waits || self.end_waits())
    }

    /// The same, and nothing changes: see [`SendBuffer::has_waiting`](crate::SendBuffer::has_waiting).
    #[tactic(auto, unfolding(crate::specs::Sending::has_more))]
    pub fn has_waiting(&self) -> bool
        ensures { result ≡ has_more self.now }
    {
        self.reset.is_none() && (self.buffer.has_waiting() || self.end_waits())
    }

    /// What is to be sent next, with at most so many bytes: lost ones before fresh ones, the lowest
    /// of them first; the stream's end with the bytes that reach it, or alone. None where nothing
    /// waits, and on a stream that was reset.
    ///
    /// # Errors
    ///
    /// Want of memory.
    pub fn offer(&mut self, most: usize) -> Result<Option<Part>, AllocError>
        ensures next { IfOk result (λ p. IsOffer most self.old p) }
        ensures same { self.new ≡ self.old }
    {
        let bytes = self.buffer.offer(most)?;
        if self.reset.is_some() {
            return Ok(None);
        }
        Ok(self.part_of(bytes))
    }
}
