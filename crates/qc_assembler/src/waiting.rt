//! The parts that wait in a row at the offset read so far, while nothing else does: they stand outside of
//! the tree, so that bytes which come in order are kept and read without one.
ghost use Rattle.std.specs.Prelude.{◌≡◌, ℕ, ◌+◌, ◌^◌, ◌++◌, IfOk, OnOk, OnErr, Err, [], ◌<◌, IsTrue, None, Some, is_some, true, length, take};
ghost use Rattle.std.specs.Option.{option_map};
ghost use Rattle.qc_assembler.specs.Assembly.{bytes_of};
ghost use Rattle.qc_assembler.specs.Waiting.{entries_with, front_left, IsAlone};

use crate::chain::Chain;
use crate::insert::InsertError;
use crate::parts::keep;
use bytes::Bytes;
use std::alloc::AllocError;
use std::collections::BTreeMap;

/// Whether the offset is the one behind what waits at the offset read so far.
fn follows(read: u64, front: &Chain, offset: u64) -> bool
    ensures { IsTrue result → offset ≡ read + length (bytes_of front.now) }
{
    if offset < read {
        return false;
    }
    offset - read == front.len()
}

/// Whether bytes that come at the offset may wait outside of the tree: those are the next ones behind what waits there,
/// nothing was read ahead, and nothing waits in the tree.
pub(crate) fn is_next(
    read: u64,
    ranges: &BTreeMap<u64, u64>,
    front: &Chain,
    parts: &BTreeMap<u64, Bytes>,
    offset: u64,
    bytes: &Bytes,
) -> bool
    ensures place { IsTrue result → offset ≡ read + length (bytes_of front.now) }
    ensures some { IsTrue result → 0 < length bytes.now }
    ensures ranges { IsTrue result → ranges.now.entries ≡ [] }
    ensures parts { IsTrue result → parts.now.entries ≡ [] }
{
    follows(read, front, offset) && !bytes.is_empty() && ranges.is_empty() && parts.is_empty()
}

/// Bytes follow what waits there. Want of memory is the only refusal, and then nothing changes.
pub(crate) fn follow(front: &mut Chain, bytes: Bytes) -> Result<(), InsertError>
    requires some { 0 < length bytes }
    requires fits { length (bytes_of front.old) + length bytes < 2 ^ 64 }
    ensures ok { OnOk result (front.new ≡ Some (bytes_of front.old ++ bytes)) }
    ensures err { OnErr result (front.new ≡ front.old) }
    ensures few { result ≡ Err InsertError.TooManyParts → ⊥ }
{
    match front.push(bytes) {
        Ok(()) => Ok(()),
        Err(_) => Err(InsertError::OutOfMemory),
    }
}

/// Moves what waits there into the tree, as one part.
pub(crate) fn settle(
    read: u64,
    front: &mut Chain,
    parts: &mut BTreeMap<u64, Bytes>,
) -> Result<(), AllocError>
    requires { IsAlone read front.old parts.old.entries }
    ensures moved { OnOk result (parts.new.entries ≡ entries_with read front.old parts.old.entries) }
    ensures gone { OnOk result (front.new ≡ None) }
    ensures front { OnErr result (front.new ≡ front.old) }
    ensures parts { OnErr result (parts.new.entries ≡ parts.old.entries) }
{
    if front.is_none() {
        return Ok(());
    }
    move_in(read, front, parts)
}

/// Moves the parts that wait there into the tree, where there are any, as one.
fn move_in(read: u64, front: &mut Chain, parts: &mut BTreeMap<u64, Bytes>) -> Result<(), AllocError>
    requires alone { IsAlone read front.old parts.old.entries }
    requires some { is_some front.old ≡ true }
    ensures moved { OnOk result (parts.new.entries ≡ entries_with read front.old parts.old.entries) }
    ensures gone { OnOk result (front.new ≡ None) }
    ensures front { OnErr result (front.new ≡ front.old) }
    ensures parts { OnErr result (parts.new.entries ≡ parts.old.entries) }
{
    let end = read + front.len();
    let whole = front.whole()?;
    keep(parts, end, whole)?;
    front.clear();
    Ok(())
}

/// Takes at most so many bytes of the front part.
pub(crate) fn take_waiting(
    front: &mut Option<Bytes>,
    most: usize,
) -> Result<Option<Bytes>, AllocError>
    ensures chunk { IfOk result (λ chunk. chunk ≡ option_map (λ p. take most p) front.old) }
    ensures left { OnOk result (front.new ≡ front_left most front.old) }
    ensures err { OnErr result (front.new ≡ front.old) }
{
    let Some(part) = front else {
        return Ok(None);
    };
    if most < part.len() {
        return Ok(Some(part.split_to(most)?));
    }
    Ok(front.take())
}
