//! Parts that follow one another, the first at the offset read so far: bytes that come in order are kept and read so, without a
//! tree.

ghost use Rattle.std.specs.Prelude.{◌≡◌, ℕ, ◌+◌, ◌^◌, ◌<◌, ◌≤◌, ◌++◌, ◌∷◌, [], not, IsTrue, IfOk, IfNone, OnOk, OnErr, Some, None, is_some, length, take, option_to_list};
ghost use Rattle.std.specs.List.{concat};
ghost use Rattle.std.specs.Option.{option_map};
ghost use Rattle.qc_assembler.specs.Assembly.{bytes_of};
ghost use Rattle.qc_assembler.specs.Waiting.{front_left};

use crate::waiting::take_waiting;
use bytes::Bytes;
use std::alloc::{AllocError, Global};
use std::collections::VecDeque;
use std::marker::Model;

/// Parts that follow one another. Contracts see their bytes in a row; none where there is no part.
#[derive(Drop)]
pub(crate) struct Chain {
    // the first part
    first: Option<Bytes>,
    // those behind it
    rest: VecDeque<Bytes>,
    // how many bytes they hold
    len: u64,
}

impl Model for Chain {
    ghost use Rattle.std.specs.Prelude.{ℕ, List, Option};
    ghost use Rattle.qc_assembler.specs.Chain.{IsLinked, linked};

    ghost Value = { Option (List ℕ) };

    ghost view = { λ c. linked c.first c.rest.items };

    ghost invariant = { λ c. IsLinked c.first c.rest.items c.len };
}

/// How many bytes a chunk has.
#[tactic(auto, unfolding(crate::specs::Assembly::bytes_of))]
fn chunk_len(chunk: &Option<Bytes>) -> u64
    ensures { result ≡ length (bytes_of chunk.now) }
{
    match chunk {
        None => 0,
        Some(bytes) => bytes.len() as u64,
    }
}

/// Adds a part behind those. Want of memory is the only refusal, and then nothing changes.
fn add(rest: &mut VecDeque<Bytes>, bytes: Bytes) -> Result<(), AllocError>
    ensures ok { OnOk result (rest.new.items ≡ rest.old.items ++ bytes ∷ []) }
    ensures err { OnErr result (rest.new.items ≡ rest.old.items) }
{
    rest.push_back(bytes)?;
    Ok(())
}

/// Takes the next part out.
fn next_of(rest: &mut VecDeque<Bytes>) -> Option<Bytes>
    ensures first { rest.old.items ≡ option_to_list result ++ rest.new.items }
    ensures none { IfNone result (rest.old.items ≡ []) }
{
    let part = rest.pop_front()?;
    Some(part)
}

/// Appends the bytes of these parts, one after the other. Want of memory is the only refusal.
fn put_all(out: &mut Vec<u8>, parts: &[Bytes]) -> Result<(), AllocError>
    ensures { OnOk result (out.new.items ≡ out.old.items ++ concat parts.now) }
{
    for part in parts {
        out.extend_from_slice(part.as_slice())?;
    }
    Ok(())
}

/// The bytes of a part and of those behind it, copied. Want of memory is the only refusal.
fn copied(first: &Bytes, rest: &VecDeque<Bytes>) -> Result<Bytes, AllocError>
    ensures { IfOk result (λ b. b ≡ first.now ++ concat rest.now.items) }
{
    let mut all = Vec::new(*rest.allocator());
    let (front, back) = rest.as_slices();
    all.extend_from_slice(first.as_slice())?;
    put_all(&mut all, front)?;
    put_all(&mut all, back)?;
    let all = Bytes::from_vec(all)?;
    Ok(all)
}

/// The bytes of a part and of those behind it: a part that stands alone is shared, several are copied. Want of memory is the only
/// refusal.
#[tactic(auto, using(crate::proofs::Chained::alone_is))]
fn gathered(first: &Bytes, rest: &VecDeque<Bytes>) -> Result<Bytes, AllocError>
    ensures { IfOk result (λ b. b ≡ first.now ++ concat rest.now.items) }
{
    if rest.is_empty() {
        let alone = first.clone()?;
        return Ok(alone);
    }
    copied(first, rest)
}

impl Chain {
    /// No part.
    #[tactic(auto, unfolding(crate::specs::Chain::IsLinked, crate::specs::Chain::linked))]
    pub fn new(alloc: Global) -> Chain
        ensures { result ≡ None }
    {
        Chain {
            first: None,
            rest: VecDeque::new(alloc),
            len: 0,
        }
    }

    /// Whether there is no part.
    pub fn is_none(&self) -> bool
        ensures { is_some self.now ≡ not result }
    {
        self.first.is_none()
    }

    /// How many bytes there are.
    pub fn len(&self) -> u64
        ensures { result ≡ length (bytes_of self.now) }
    {
        self.len
    }

    /// A part follows those that are there. Want of memory is the only refusal, and then nothing changes.
    pub fn push(&mut self, bytes: Bytes) -> Result<(), AllocError>
        requires some { 0 < length bytes }
        requires fits { length (bytes_of self.old) + length bytes < 2 ^ 64 }
        ensures ok { OnOk result (self.new ≡ Some (bytes_of self.old ++ bytes)) }
        ensures err { OnErr result (self.new ≡ self.old) }
    {
        let count = bytes.len() as u64;
        if self.first.is_none() {
            self.first = Some(bytes);
            self.len = count;
            return Ok(());
        }
        add(&mut self.rest, bytes)?;
        self.len += count;
        Ok(())
    }

    /// Takes bytes off the front, at most so many: those of the first part. None exactly where there is no part. Want of memory is the
    /// only refusal, and then nothing changes.
    pub fn take(&mut self, most: usize) -> Result<Option<Bytes>, AllocError>
        ensures chunk { IfOk result (λ chunk. chunk ≡ option_map (λ p. take (length (bytes_of chunk)) p) self.old) }
        ensures within { IfOk result (λ chunk. length (bytes_of chunk) ≤ most) }
        ensures some { IfOk result (λ chunk. 0 < most → IsTrue (is_some self.old) → 0 < length (bytes_of chunk)) }
        ensures left { IfOk result (λ chunk. self.new ≡ front_left (length (bytes_of chunk)) self.old) }
        ensures err { OnErr result (self.new ≡ self.old) }
    {
        let chunk = take_waiting(&mut self.first, most)?;
        self.len -= chunk_len(&chunk);
        if self.first.is_none() {
            self.first = next_of(&mut self.rest);
            return Ok(chunk);
        }
        Ok(chunk)
    }

    /// All bytes as one part, which stay. Want of memory is the only refusal.
    pub fn whole(&self) -> Result<Bytes, AllocError>
        ensures { IfOk result (λ b. b ≡ bytes_of self.now) }
    {
        match &self.first {
            None => Ok(Bytes::new()),
            Some(first) => gathered(first, &self.rest),
        }
    }

    /// Lets go of all parts.
    #[tactic(auto, unfolding(crate::specs::Chain::IsLinked, crate::specs::Chain::linked))]
    pub fn clear(&mut self)
        ensures { self.new ≡ None }
    {
        self.first = None;
        self.rest.clear();
        self.len = 0;
    }
}
