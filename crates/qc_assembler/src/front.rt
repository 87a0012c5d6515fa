//! The part at the lowest offsets, of which bytes are read.
ghost use Rattle.std.specs.Prelude.{◌≡◌, ℕ, ◌+◌, ◌-◌, ◌^◌, ◌<◌, ◌≤◌, IsTrue, IfOk, IfSome, OnOk, OnErr, IfNone, ◌∷◌, length, drop, take, Some};
ghost use Rattle.qc_assembler.specs.Assembly.{IsFirst, chunk_bytes, chunk_offset, begins_at};
ghost use Rattle.qc_assembler.specs.Parts.{flat, Apart, first_part, front_bytes, without_front, first_begin, first_length, starts_at, IsKept};

use crate::parts::one;
use bytes::{Buf, Bytes};
use std::alloc::AllocError;
use std::collections::BTreeMap;

/// Where the first part ends, and how long it is.
fn first_part(parts: &BTreeMap<u64, Bytes>) -> Option<(u64, usize)>
    ensures value { result ≡ first_part parts.now.entries }
    ensures fits { IfSome result (λ p. p.0 < 2 ^ 64) }
{
    match parts.first_key_value() {
        Some((end, part)) => Some((*end, part.len())),
        None => None,
    }
}

/// Cuts so many bytes off the front of the first part, which ends there.
fn cut_first(
    parts: &mut BTreeMap<u64, Bytes>,
    end: u64,
    held: usize,
    count: usize,
) -> Result<Bytes, AllocError>
    requires first { first_part parts.old.entries ≡ Some (end, held) }
    requires within { count ≤ held }
    ensures front { IfOk result (λ b. b ≡ front_bytes count parts.old.entries) }
    ensures left { OnOk result (parts.new.entries ≡ without_front count parts.old.entries) }
    ensures err { OnErr result (parts.new.entries ≡ parts.old.entries) }
{
    let Some(part) = parts.get_mut(&end) else {
        unreachable!()
    };
    part.split_to(count)
}

/// Whether the first part begins there.
fn starts_at(parts: &BTreeMap<u64, Bytes>, offset: u64) -> bool
    requires { Apart 0 parts.now.entries }
    ensures { result ≡ starts_at offset parts.now.entries }
{
    match first_part(parts) {
        Some((end, held)) => end - held as u64 == offset,
        None => false,
    }
}

/// Whether the first byte that is kept is there.
pub(crate) fn begins_at(parts: &BTreeMap<u64, Bytes>, offset: u64) -> bool
    requires { Apart 0 parts.now.entries }
    ensures { result ≡ begins_at offset (flat parts.now.entries) }
{
    starts_at(parts, offset)
}

/// Takes the whole first part out, which ends there.
fn take_first(parts: &mut BTreeMap<u64, Bytes>, joined: &mut u64, end: u64, held: usize) -> Bytes
    requires kept { IsKept parts.old.entries joined.old }
    requires first { first_part parts.old.entries ≡ Some (end, held) }
    ensures front { result ≡ front_bytes held parts.old.entries }
    ensures left { flat parts.new.entries ≡ drop held (flat parts.old.entries) }
    ensures behind { Apart end parts.new.entries }
    ensures kept { IsKept parts.new.entries joined.new }
{
    let Some((_, part)) = parts.pop_first() else {
        unreachable!()
    };
    *joined -= one(starts_at(parts, end));
    part
}

/// Takes at most so many bytes of the first part, and answers their offset too.
pub(crate) fn take_front(
    parts: &mut BTreeMap<u64, Bytes>,
    joined: &mut u64,
    most: usize,
) -> Result<Option<(u64, Bytes)>, AllocError>
    requires kept { IsKept parts.old.entries joined.old }
    ensures front { IfOk result (λ c. IsFirst most (flat parts.old.entries) c) }
    ensures left { IfOk result (λ c. flat parts.new.entries ≡ drop (length (chunk_bytes c)) (flat parts.old.entries)) }
    ensures fits { IfOk result (λ c. chunk_offset c + length (chunk_bytes c) < 2 ^ 64) }
    ensures behind { IfOk result (λ c. Apart (chunk_offset c + length (chunk_bytes c)) parts.new.entries) }
    ensures kept { IsKept parts.new.entries joined.new }
    ensures err { OnErr result (parts.new.entries ≡ parts.old.entries) }
{
    let Some((end, held)) = first_part(parts) else {
        return Ok(None);
    };
    let start = end - held as u64;
    if held <= most {
        return Ok(Some((start, take_first(parts, joined, end, held))));
    }
    let piece = cut_first(parts, end, held, most)?;
    Ok(Some((start, piece)))
}

/// A copy of so many bytes of the first part, which shares its memory.
fn copy_first(
    parts: &BTreeMap<u64, Bytes>,
    end: u64,
    held: usize,
    count: usize,
) -> Result<Bytes, AllocError>
    requires first { first_part parts.now.entries ≡ Some (end, held) }
    requires within { count ≤ held }
    ensures { IfOk result (λ b. b ≡ front_bytes count parts.now.entries) }
{
    let Some(part) = parts.get(&end) else {
        unreachable!()
    };
    part.slice(..count)
}

/// At most so many bytes of the first part, which stay, and their offset.
pub(crate) fn peek_front(
    parts: &BTreeMap<u64, Bytes>,
    most: usize,
) -> Result<Option<(u64, Bytes)>, AllocError>
    requires { Apart 0 parts.now.entries }
    ensures front { IfOk result (λ c. IsFirst most (flat parts.now.entries) c) }
    ensures fits { IfOk result (λ c. chunk_offset c + length (chunk_bytes c) < 2 ^ 64) }
    ensures within { IfOk result (λ c. length (chunk_bytes c) ≤ first_length parts.now.entries) }
    ensures begin { IfOk result (λ c. chunk_offset c ≡ first_begin parts.now.entries) }
{
    let Some((end, held)) = first_part(parts) else {
        return Ok(None);
    };
    let piece = copy_first(parts, end, held, held.min(most))?;
    Ok(Some((end - held as u64, piece)))
}

/// Passes over so many bytes of the first part.
fn advance_first(parts: &mut BTreeMap<u64, Bytes>, end: u64, held: usize, count: usize)
    requires first { first_part parts.old.entries ≡ Some (end, held) }
    requires within { count ≤ held }
    ensures { parts.new.entries ≡ without_front count parts.old.entries }
{
    let Some(part) = parts.get_mut(&end) else {
        unreachable!()
    };
    part.advance(count);
}

/// Takes so many bytes of the first part out, which holds at least as many.
pub(crate) fn discard_front(parts: &mut BTreeMap<u64, Bytes>, joined: &mut u64, count: usize)
    requires kept { IsKept parts.old.entries joined.old }
    requires within { count ≤ first_length parts.old.entries }
    ensures left { flat parts.new.entries ≡ drop count (flat parts.old.entries) }
    ensures behind { Apart (first_begin parts.old.entries + count) parts.new.entries }
    ensures kept { IsKept parts.new.entries joined.new }
{
    let Some((end, held)) = first_part(parts) else {
        return;
    };
    if count == held {
        take_first(parts, joined, end, held);
    } else {
        advance_first(parts, end, held, count);
    }
}
