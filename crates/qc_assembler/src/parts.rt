//! The parts that came: each under the offset where it ends.
ghost use Rattle.std.specs.Prelude.{◌≡◌, ℕ, ◌+◌, ◌-◌, ◌^◌, ◌<◌, ◌≤◌, IsTrue, IfOk, OnOk, OnErr, [], length, drop, if◌then◌else◌, Some};
ghost use Rattle.std.specs.BTreeMap.{insert_entry, is_at};
ghost use Rattle.std.specs.Map.{remove_entry};
ghost use Rattle.std.specs.Ordering.{nat_cmp};
ghost use Rattle.qc_assembler.specs.Assembly.{add, part_count};
ghost use Rattle.qc_assembler.specs.Parts.{flat, one, first_past, undone, ends_at, part_begins, HasRoom, IsKept};

use bytes::{Buf, Bytes};
use std::alloc::AllocError;
use std::collections::BTreeMap;
use std::ops::Bound;

/// Where the first part that ends behind an offset ends, and how long it is.
pub(crate) fn first_past(parts: &BTreeMap<u64, Bytes>, offset: u64) -> Option<(u64, usize)>
    ensures { result ≡ first_past offset parts.now.entries }
{
    match parts
        .range((Bound::Excluded(offset), Bound::Unbounded))
        .next()
    {
        Some((end, part)) => Some((*end, part.len())),
        None => None,
    }
}

/// 1 for a test that holds.
#[tactic(auto, unfolding(crate::specs::Parts::one))]
pub(crate) fn one(test: bool) -> u64
    ensures value { result ≡ one test }
    ensures small { result ≤ 1 }
{
    if test { 1 } else { 0 }
}

/// Places bytes that nothing that came overlaps. `next_begins` is whether a part begins where
/// they end.
fn place(
    parts: &mut BTreeMap<u64, Bytes>,
    joined: &mut u64,
    placed: &mut Vec<u64>,
    offset: u64,
    piece: Bytes,
    next_begins: bool,
) -> Result<(), AllocError>
    requires kept { IsKept parts.old.entries joined.old }
    requires some { 0 < length piece }
    requires fits { offset + length piece < 2 ^ 64 }
    requires room { HasRoom (offset + length piece) (first_past offset parts.old.entries) }
    requires next { next_begins ≡ part_begins (offset + length piece) (first_past offset parts.old.entries) }
    ensures came { OnOk result (flat parts.new.entries ≡ add offset piece (flat parts.old.entries)) }
    ensures kept { IsKept parts.new.entries joined.new }
    ensures undo { undone placed.new.items parts.new.entries ≡ undone placed.old.items parts.old.entries }
{
    let end = offset + piece.len() as u64;
    let follows = parts.contains_key(&offset);
    let _known = parts.len();
    placed.push(end)?;
    if let Err(error) = keep(parts, end, piece) {
        placed.pop();
        return Err(error);
    }
    *joined += one(follows) + one(next_begins);
    Ok(())
}

/// Keeps a part under its end.
pub(crate) fn keep(
    parts: &mut BTreeMap<u64, Bytes>,
    end: u64,
    part: Bytes,
) -> Result<(), AllocError>
    ensures kept { OnOk result (parts.new.entries ≡ insert_entry nat_cmp parts.old.entries end part) }
    ensures err { OnErr result (parts.new.entries ≡ parts.old.entries) }
{
    parts.insert(end, part)?;
    Ok(())
}

/// Keeps of the bytes at the offset those up to the next part, and answers how many of them
/// it took from their front: those that came before stay.
fn fill_once(
    parts: &mut BTreeMap<u64, Bytes>,
    joined: &mut u64,
    placed: &mut Vec<u64>,
    offset: u64,
    bytes: &mut Bytes,
) -> Result<usize, AllocError>
    requires kept { IsKept parts.old.entries joined.old }
    requires some { 0 < length bytes.old }
    requires fits { offset + length bytes.old < 2 ^ 64 }
    ensures taken { IfOk result (λ n. (0 < n) × (n ≤ length bytes.old) × (bytes.new ≡ drop n bytes.old)) }
    ensures came { IfOk result (λ n. add (offset + n) bytes.new (flat parts.new.entries) ≡ add offset bytes.old (flat parts.old.entries)) }
    ensures kept { IsKept parts.new.entries joined.new }
    ensures undo { undone placed.new.items parts.new.entries ≡ undone placed.old.items parts.old.entries }
{
    let len = bytes.len();
    let Some((end, held)) = first_past(parts, offset) else {
        let piece = bytes.split_to(len)?;
        place(parts, joined, placed, offset, piece, false)?;
        return Ok(len);
    };
    let start = end - held as u64;
    if start <= offset {
        let known = (end - offset).min(len as u64) as usize;
        bytes.advance(known);
        return Ok(known);
    }
    let room = (start - offset).min(len as u64) as usize;
    let piece = bytes.split_to(room)?;
    place(
        parts,
        joined,
        placed,
        offset,
        piece,
        start == offset + room as u64,
    )?;
    Ok(room)
}

/// Keeps the bytes at the offset that didn't come before.
pub(crate) fn fill(
    parts: &mut BTreeMap<u64, Bytes>,
    joined: &mut u64,
    placed: &mut Vec<u64>,
    mut offset: u64,
    mut bytes: Bytes,
) -> Result<(), AllocError>
    requires kept { IsKept parts.old.entries joined.old }
    requires fits { offset + length bytes < 2 ^ 64 }
    ensures came { OnOk result (flat parts.new.entries ≡ add offset bytes (flat parts.old.entries)) }
    ensures kept { IsKept parts.new.entries joined.new }
    ensures undo { undone placed.new.items parts.new.entries ≡ undone placed.old.items parts.old.entries }
{
    while !bytes.is_empty() {
        offset += fill_once(parts, joined, placed, offset, &mut bytes)? as u64;
    }
    Ok(())
}

/// Takes out the parts that were placed.
pub(crate) fn undo(parts: &mut BTreeMap<u64, Bytes>, placed: &mut Vec<u64>)
    ensures parts { parts.new.entries ≡ undone placed.old.items parts.old.entries }
    ensures placed { placed.new.items ≡ [] }
{
    while let Some(end) = placed.pop() {
        take_out(parts, end);
    }
}

/// Takes out the part that ends there.
fn take_out(parts: &mut BTreeMap<u64, Bytes>, end: u64)
    ensures { parts.new.entries ≡ remove_entry (is_at (nat_cmp end)) parts.old.entries }
{
    parts.remove(&end);
}

/// How many separate parts there are.
pub(crate) fn part_count(parts: &BTreeMap<u64, Bytes>, joined: u64) -> u64
    requires { IsKept parts.now.entries joined }
    ensures { result ≡ part_count (flat parts.now.entries) }
{
    parts.len() as u64 - joined
}
