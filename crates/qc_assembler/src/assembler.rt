//! Bytes that come out of order, and are read once.
ghost use Rattle.std.specs.Prelude.{◌≡◌, ℕ, ◌+◌, ◌-◌, ◌^◌, ◌<◌, ◌≤◌, IsTrue, IfOk, OnOk, OnErr, length, Err};
ghost use Rattle.qc_assembler.specs.Assembly.{nothing, inserted, part_count, IsFirst, IsFront, advanced, bytes_of, discarded, chunk_bytes, chunk_offset, taken};

use crate::ahead::note_range;
use crate::chain::Chain;
use crate::front::{begins_at, discard_front, peek_front, take_front};
use crate::insert::{InsertError, insert_or_undo};
use crate::parts::part_count;
use crate::waiting::{follow, is_next, settle};
use bytes::Bytes;
use std::alloc::{AllocError, Global};
use std::collections::BTreeMap;
use std::marker::Model;

/// Bytes that came at offsets, in any order and more than once, until they are read.
#[derive(Drop)]
pub struct Assembler {
    // every offset below was read
    read: u64,
    // further offsets that were read: ranges, each start under its end
    ahead: BTreeMap<u64, u64>,
    // what came and wasn't read, each part under its end
    parts: BTreeMap<u64, Bytes>,
    // parts in a row that begin at the offset read so far, while no other waits
    front: Chain,
    // how many parts begin where the one before ends
    joined: u64,
    // the ends of the parts that the last insertion placed
    placed: Vec<u64>,
}

impl Model for Assembler {
    ghost use Rattle.qc_assembler.specs.Assembly.{Assembly};

    ghost Value = { Assembly };

    ghost use Rattle.qc_assembler.specs.Ahead.{assembled};
    ghost use Rattle.qc_assembler.specs.Waiting.{IsWhole, entries_with};

    ghost view = { λ a. assembled a.read a.ahead.entries (entries_with a.read a.front a.parts.entries) };

    ghost invariant = { λ a. IsWhole a.read a.ahead.entries a.front a.parts.entries a.joined };
}

impl Assembler {
    /// An assembler to which nothing came.
    pub fn new(alloc: Global) -> Self
        ensures { result ≡ nothing }
    {
        Assembler {
            read: 0,
            ahead: BTreeMap::new(alloc),
            parts: BTreeMap::new(alloc),
            front: Chain::new(alloc),
            joined: 0,
            placed: Vec::new(alloc),
        }
    }

    /// Keeps the bytes that come at the offset. Those that were read are passed over; where they
    /// overlap with bytes that came before, those that came first stay (RFC 9000, section 2.2).
    ///
    /// # Errors
    ///
    /// [`InsertError::TooManyParts`] exactly where more than [`MAX_PARTS`](crate::MAX_PARTS)
    /// separate parts would stand afterwards, and [`InsertError::OutOfMemory`]. After both,
    /// everything is as before.
    #[inline(always)]
    pub fn insert(&mut self, offset: u64, bytes: Bytes) -> Result<(), InsertError>
        requires { offset + length bytes < 2 ^ 64 }
        ensures came { OnOk result (self.new ≡ inserted offset bytes self.old) }
        ensures few { OnOk result (part_count (inserted offset bytes self.old).came ≤ 1024) }
        ensures many { result ≡ Err InsertError.TooManyParts → 1024 < part_count (inserted offset bytes self.old).came }
        ensures err { OnErr result (self.new ≡ self.old) }
    {
        if is_next(
            self.read,
            &self.ahead,
            &self.front,
            &self.parts,
            offset,
            &bytes,
        ) {
            return follow(&mut self.front, bytes);
        }
        if settle(self.read, &mut self.front, &mut self.parts).is_err() {
            return Err(InsertError::OutOfMemory);
        }
        insert_or_undo(
            self.read,
            &self.ahead,
            &mut self.parts,
            &mut self.joined,
            &mut self.placed,
            offset,
            bytes,
        )
    }

    /// How many separate parts came and weren't read: runs of offsets, each as long as it can be.
    pub fn parts(&self) -> u64
        ensures { result ≡ part_count self.now.came }
    {
        if self.front.is_none() {
            return part_count(&self.parts, self.joined);
        }
        1
    }
}

impl Assembler {
    /// Reads at most so many bytes in order: those that came first at the offsets from the first
    /// unread one on. None exactly where the next byte hasn't come.
    ///
    /// # Errors
    ///
    /// Want of memory; everything is then as before.
    #[inline(always)]
    pub fn read(&mut self, most: usize) -> Result<Option<Bytes>, AllocError>
        ensures front { IfOk result (λ chunk. IsFront most self.old chunk) }
        ensures after { IfOk result (λ chunk. self.new ≡ advanced (length (bytes_of chunk)) self.old) }
        ensures err { OnErr result (self.new ≡ self.old) }
    {
        if let Some(part) = self.front.take(most)? {
            self.read += part.len() as u64;
            return Ok(Some(part));
        }
        if !begins_at(&self.parts, self.read) {
            return Ok(None);
        }
        let Some((_, chunk)) = take_front(&mut self.parts, &mut self.joined, most)? else {
            return Ok(None);
        };
        self.read += chunk.len() as u64;
        Ok(Some(chunk))
    }

    /// Reads at most so many bytes out of order: those at the lowest offsets that came and weren't
    /// read, with the offset of the first. None exactly where none waits.
    ///
    /// # Errors
    ///
    /// Want of memory; everything is then as before.
    pub fn read_unordered(&mut self, most: usize) -> Result<Option<(u64, Bytes)>, AllocError>
        ensures first { IfOk result (λ chunk. IsFirst most self.old.came chunk) }
        ensures after { IfOk result (λ chunk. self.new ≡ taken (chunk_offset chunk) (length (chunk_bytes chunk)) self.old) }
        ensures err { OnErr result (self.new ≡ self.old) }
    {
        settle(self.read, &mut self.front, &mut self.parts)?;
        let Some((offset, chunk)) = peek_front(&self.parts, most)? else {
            return Ok(None);
        };
        let count = chunk.len();
        if count == 0 {
            return Ok(Some((offset, chunk)));
        }
        note_range(&mut self.ahead, offset, offset + count as u64)?;
        discard_front(&mut self.parts, &mut self.joined, count);
        Ok(Some((offset, chunk)))
    }

    /// Lets go of what waits.
    pub fn clear(&mut self)
        ensures { self.new ≡ discarded self.old }
    {
        self.front.clear();
        self.parts.clear();
        self.joined = 0;
    }

    /// The offset up to which all bytes were read in order.
    pub fn bytes_read(&self) -> u64
        ensures { result ≡ self.now.read }
    {
        self.read
    }
}
