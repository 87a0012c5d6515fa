//! Bytes that were written, until they are acknowledged.

ghost use Rattle.std.specs.Prelude.{◌≡◌, ◌+◌, ◌^◌, ◌<◌, ◌≤◌, not, take, drop, length, IfOk, OnOk, OnErr};
ghost use Rattle.qc_send_stream.specs.Buffer.{bytes_written, discarded, has_bytes, nothing, part_bytes, part_offset, range_acked, range_lost, range_sealed, sent_with, waiting, IsNext};

use crate::ends::{any_lost, first_lost, note_range};
use crate::fronts::take_range;
use crate::parts::{fresh_part, has_fresh, lost_part};
use crate::segments::{Segment, cut_range, keep, mark, unmark};
use bytes::{Buf, Bytes};
use std::alloc::{AllocError, Global};
use std::collections::{BTreeMap, BTreeSet};
use std::marker::Model;

/// What was written on a stream, in order and from offset 0 on, until it is acknowledged.
#[derive(Drop)]
pub struct SendBuffer {
    // how many bytes were written
    written: u64,
    // how many were sent at least once
    sent: u64,
    // how many aren't kept any more
    let_go: u64,
    // what isn't acknowledged: each segment under its end
    segments: BTreeMap<u64, Segment>,
    // the ends of all lost segments, and of some that aren't lost any more
    lost: BTreeSet<u64>,
}

impl Model for SendBuffer {
    ghost use Rattle.qc_send_stream.specs.Buffer.{Buffer};

    ghost Value = { Buffer };

    ghost use Rattle.qc_send_stream.specs.Segments.{IsSound, buffered};

    ghost view = { λ b. buffered b.written b.sent b.segments.entries };

    ghost invariant = { λ b. IsSound b.written b.sent b.let_go b.segments.entries b.lost.keys };
}

impl SendBuffer {
    /// A buffer into which nothing was written.
    pub fn new(alloc: Global) -> Self
        ensures { result ≡ nothing }
    {
        SendBuffer {
            written: 0,
            sent: 0,
            let_go: 0,
            segments: BTreeMap::new(alloc),
            lost: BTreeSet::new(alloc),
        }
    }

    /// How many bytes were written.
    pub fn written(&self) -> u64
        ensures { result ≡ self.now.written }
    {
        self.written
    }

    /// How many bytes were sent at least once.
    pub fn sent(&self) -> u64
        ensures { result ≡ self.now.sent }
    {
        self.sent
    }

    /// How many bytes are kept: of those that were written all but those that are acknowledged, or
    /// were let go.
    pub fn kept(&self) -> u64
        ensures { result ≡ length self.now.kept }
    {
        self.written - self.let_go
    }

    /// Whether all bytes that were written are acknowledged, or were let go.
    pub fn is_empty(&self) -> bool
        ensures { result ≡ not (has_bytes self.now.kept) }
    {
        self.segments.is_empty()
    }

    /// Keeps bytes that are written behind those that were written before.
    ///
    /// # Errors
    ///
    /// Want of memory; everything is then as before.
    pub fn write(&mut self, bytes: Bytes) -> Result<(), AllocError>
        requires { self.old.written + length bytes < 2 ^ 64 }
        ensures written { OnOk result (self.new ≡ bytes_written bytes self.old) }
        ensures err { OnErr result (self.new ≡ self.old) }
    {
        let count = bytes.len();
        if count == 0 {
            return Ok(());
        }
        let end = self.written + count as u64;
        keep(&mut self.segments, end, bytes, false)?;
        self.written = end;
        Ok(())
    }

    /// Keeps the front of a chunk behind the bytes that were written before, and cuts it off there.
    ///
    /// # Errors
    ///
    /// Want of memory; everything is then as before.
    pub fn write_front(&mut self, chunk: &mut Bytes, count: usize) -> Result<(), AllocError>
        requires within { count ≤ length chunk.old }
        requires fits { self.old.written + count < 2 ^ 64 }
        ensures written { OnOk result (self.new ≡ bytes_written (take count chunk.old) self.old) }
        ensures rest { OnOk result (chunk.new ≡ drop count chunk.old) }
        ensures err { OnErr result (self.new ≡ self.old) }
        ensures kept { OnErr result (chunk.new ≡ chunk.old) }
    {
        let front = chunk.slice(..count)?;
        self.write(front)?;
        chunk.advance(count);
        Ok(())
    }

    /// Whether a byte waits to be sent: one is lost or fresh.
    pub fn waits(&mut self) -> bool
        ensures waits { result ≡ has_bytes (waiting self.old) }
        ensures same { self.new ≡ self.old }
    {
        match first_lost(&self.segments, &mut self.lost) {
            Some(_) => true,
            None => has_fresh(&self.segments, self.sent),
        }
    }

    /// Whether a byte waits to be sent, as [`SendBuffer::waits`] answers it, and nothing changes. It
    /// takes longer where many bytes that were lost have come to be acknowledged since, and neither
    /// `waits` nor `offer` was called.
    pub fn has_waiting(&self) -> bool
        ensures { result ≡ has_bytes (waiting self.now) }
    {
        has_fresh(&self.segments, self.sent) || any_lost(&self.segments, &self.lost)
    }

    /// What is to be sent next, at most so many bytes: lost ones before fresh ones, the lowest of
    /// them first, with the offset of the first. None exactly where no byte is lost or fresh.
    ///
    /// # Errors
    ///
    /// Want of memory.
    #[inline(always)]
    pub fn offer(&mut self, most: usize) -> Result<Option<(u64, Bytes)>, AllocError>
        ensures next { IfOk result (λ p. IsNext most self.old p) }
        ensures fits { IfOk result (λ p. part_offset p + length (part_bytes p) ≤ self.old.written) }
        ensures same { self.new ≡ self.old }
    {
        match first_lost(&self.segments, &mut self.lost) {
            Some(end) => lost_part(&self.segments, end, most),
            None => fresh_part(&self.segments, self.sent, most),
        }
    }

    /// A frame with the bytes from `start` up to `end` was sealed: they are in flight. Fresh bytes
    /// are sent in order: where the range begins behind those that were sent before, its fresh bytes
    /// stay fresh.
    ///
    /// # Errors
    ///
    /// Want of memory; everything is then as before.
    pub fn seal(&mut self, start: u64, end: u64) -> Result<(), AllocError>
        ensures sealed { OnOk result (self.new ≡ range_sealed start end self.old) }
        ensures err { OnErr result (self.new ≡ self.old) }
    {
        unmark(&mut self.segments, &mut self.lost, start, end)?;
        self.sent = sent_with(start, end, self.sent, self.written);
        Ok(())
    }

    /// A frame with the bytes from `start` up to `end` is acknowledged: those that were sent are
    /// kept no more. Answers how many those are.
    ///
    /// # Errors
    ///
    /// Want of memory; everything is then as before.
    pub fn acknowledge(&mut self, start: u64, end: u64) -> Result<u64, AllocError>
        ensures acked { OnOk result (self.new ≡ range_acked start end self.old) }
        ensures count { IfOk result (λ n. n + length self.new.kept ≡ length self.old.kept) }
        ensures err { OnErr result (self.new ≡ self.old) }
    {
        let end = end.min(self.sent);
        let count = take_range(&mut self.segments, &mut self.lost, start, end)?;
        self.let_go += count;
        Ok(count)
    }

    /// A frame with the bytes from `start` up to `end` is lost: those that were sent and aren't
    /// acknowledged wait again.
    ///
    /// # Errors
    ///
    /// Want of memory; everything is then as before.
    pub fn lose(&mut self, start: u64, end: u64) -> Result<(), AllocError>
        ensures lost { OnOk result (self.new ≡ range_lost start end self.old) }
        ensures err { OnErr result (self.new ≡ self.old) }
    {
        let end = end.min(self.sent);
        cut_range(&mut self.segments, &mut self.lost, start, end)?;
        note_range(&self.segments, &mut self.lost, start, end)?;
        mark(&mut self.segments, true, start, end);
        Ok(())
    }

    /// Lets go of all bytes: nothing is sent any more.
    pub fn discard(&mut self)
        ensures { self.new ≡ discarded self.old }
    {
        self.segments.clear();
        self.lost.clear();
        self.let_go = self.written;
    }
}

/// How many bytes were sent at least once when a range is sealed.
#[tactic(auto, unfolding(crate::specs::Buffer::sent_with))]
fn sent_with(start: u64, end: u64, sent: u64, written: u64) -> u64
    ensures { result ≡ sent_with start end sent written }
{
    if start <= sent {
        sent.max(end.min(written))
    } else {
        sent
    }
}
