//! Bytes that come: those that were read or came before are passed over.
ghost use Rattle.std.specs.Prelude.{◌≡◌, ℕ, ◌+◌, ◌-◌, ◌^◌, ◌<◌, ◌≤◌, IsTrue, IfOk, OnOk, OnErr, [], length, drop, Err, IsOk};
ghost use Rattle.qc_assembler.specs.Assembly.{inserted, part_count};
ghost use Rattle.qc_assembler.specs.Parts.{flat, undone, joints, IsKept};
ghost use Rattle.qc_assembler.specs.Ahead.{AllUnread, AreRanges, assembled, listed};

use crate::ahead::range_past;
use crate::parts::{fill, part_count, undo};
use bytes::{Buf, Bytes};
use std::alloc::AllocError;
use std::collections::BTreeMap;

/// How many separate parts are kept at most.
pub const MAX_PARTS: u64 = 1024;

/// Why bytes weren't kept.
#[derive(Clone, Copy, Debug, PartialEq, Eq)]
pub enum InsertError {
    /// More than [`MAX_PARTS`] separate parts would stand. What was kept is as before.
    TooManyParts,
    /// Memory ran out. What was kept is as before.
    OutOfMemory,
}

/// Passes over the bytes at the front that were read, or keeps those up to the next that was,
/// and answers how many it took.
fn insert_once(
    read: u64,
    ranges: &BTreeMap<u64, u64>,
    parts: &mut BTreeMap<u64, Bytes>,
    joined: &mut u64,
    placed: &mut Vec<u64>,
    offset: u64,
    bytes: &mut Bytes,
) -> Result<usize, AllocError>
    requires kept { IsKept parts.old.entries joined.old }
    requires ranges { AreRanges 0 ranges.now.entries }
    requires some { 0 < length bytes.old }
    requires fits { offset + length bytes.old < 2 ^ 64 }
    ensures taken { IfOk result (λ n. (0 < n) × (n ≤ length bytes.old) × (bytes.new ≡ drop n bytes.old)) }
    ensures came { IfOk result (λ n. inserted (offset + n) bytes.new (assembled read ranges.now.entries parts.new.entries)
        ≡ inserted offset bytes.old (assembled read ranges.now.entries parts.old.entries)) }
    ensures kept { IsKept parts.new.entries joined.new }
    ensures undo { undone placed.new.items parts.new.entries ≡ undone placed.old.items parts.old.entries }
{
    let len = bytes.len();
    if offset < read {
        let known = (read - offset).min(len as u64) as usize;
        bytes.advance(known);
        return Ok(known);
    }
    let Some((end, start)) = range_past(ranges, offset) else {
        let piece = bytes.split_to(len)?;
        fill(parts, joined, placed, offset, piece)?;
        return Ok(len);
    };
    if start <= offset {
        let known = (end - offset).min(len as u64) as usize;
        bytes.advance(known);
        return Ok(known);
    }
    let room = (start - offset).min(len as u64) as usize;
    let piece = bytes.split_to(room)?;
    fill(parts, joined, placed, offset, piece)?;
    Ok(room)
}

/// Keeps all bytes that weren't read and didn't come before.
fn insert_all(
    read: u64,
    ranges: &BTreeMap<u64, u64>,
    parts: &mut BTreeMap<u64, Bytes>,
    joined: &mut u64,
    placed: &mut Vec<u64>,
    mut offset: u64,
    mut bytes: Bytes,
) -> Result<(), AllocError>
    requires kept { IsKept parts.old.entries joined.old }
    requires ranges { AreRanges 0 ranges.now.entries }
    requires fits { offset + length bytes < 2 ^ 64 }
    ensures came { OnOk result (assembled read ranges.now.entries parts.new.entries
        ≡ inserted offset bytes (assembled read ranges.now.entries parts.old.entries)) }
    ensures kept { IsKept parts.new.entries joined.new }
    ensures undo { undone placed.new.items parts.new.entries ≡ undone placed.old.items parts.old.entries }
{
    while !bytes.is_empty() {
        offset += insert_once(read, ranges, parts, joined, placed, offset, &mut bytes)? as u64;
    }
    Ok(())
}

/// Keeps the bytes, or nothing of them where memory runs out or too many parts would stand.
pub(crate) fn insert_or_undo(
    read: u64,
    ranges: &BTreeMap<u64, u64>,
    parts: &mut BTreeMap<u64, Bytes>,
    joined: &mut u64,
    placed: &mut Vec<u64>,
    offset: u64,
    bytes: Bytes,
) -> Result<(), InsertError>
    requires kept { IsKept parts.old.entries joined.old }
    requires ranges { AreRanges 0 ranges.now.entries }
    requires unread { AllUnread read (listed ranges.now.entries) (flat parts.old.entries) }
    requires fits { offset + length bytes < 2 ^ 64 }
    ensures came { OnOk result (assembled read ranges.now.entries parts.new.entries
        ≡ inserted offset bytes (assembled read ranges.now.entries parts.old.entries)) }
    ensures kept { IsKept parts.new.entries joined.new }
    ensures unread { AllUnread read (listed ranges.now.entries) (flat parts.new.entries) }
    ensures err { OnErr result (parts.new.entries ≡ parts.old.entries) }
    ensures many { result ≡ Err InsertError.TooManyParts → 1024 < part_count (inserted offset bytes (assembled read ranges.now.entries parts.old.entries)).came }
    ensures few { OnOk result (part_count (inserted offset bytes (assembled read ranges.now.entries parts.old.entries)).came ≤ 1024) }
{
    let before = *joined;
    placed.clear();
    let outcome = insert_all(read, ranges, parts, joined, placed, offset, bytes);
    let judged = judge(outcome, part_count(parts, *joined));
    if judged.is_err() {
        undo(parts, placed);
        *joined = before;
    }
    judged
}

/// Whether bytes stay: with so many parts.
fn judge(outcome: Result<(), AllocError>, parts: u64) -> Result<(), InsertError>
    ensures ok { OnOk result ((parts ≤ 1024) × IsOk outcome) }
    ensures many { result ≡ Err InsertError.TooManyParts → (1024 < parts) × IsOk outcome }
{
    match outcome {
        Err(_) => Err(InsertError::OutOfMemory),
        Ok(()) if parts <= MAX_PARTS => Ok(()),
        Ok(()) => Err(InsertError::TooManyParts),
    }
}
