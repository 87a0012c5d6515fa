//! Reading a source to its end, and writing all of a text.

ghost use Rattle.std.specs.Prelude.{◌≡◌, ◌≢◌, ℕ, ◌+◌, ◌<◌, ◌≤◌, List, [], ◌++◌, length, take, drop, Option, Some, IfOk, IfErr, OnOk, OnErr, true, false};
ghost use Rattle.qc_run.specs.Outside.{Appends, AppendsPart, Gives, GivesMore, IsAtEnd, Rose};

use crate::sink::Sink;
use crate::source::{Failed, Source};
use std::alloc::{AllocError, Global};

/// The most bytes that a script may have: 2^26.
pub const SCRIPT_LIMIT: usize = 67_108_864;

/// How many bytes one read asks for at most.
const PIECE: usize = 65_536;

/// Why a source wasn't read to its end.
#[derive(Clone, Copy, Debug, PartialEq, Eq)]
pub enum ReadError {
    /// The source answered `Failed`.
    Failed,
    /// There was no memory for its bytes.
    OutOfMemory,
}

/// The bytes of the source up to its end, or its first `SCRIPT_LIMIT` + 1 bytes where it has more.
#[tactic(auto, using(crate::proofs::OutsideLemmas::gives_none, crate::proofs::OutsideLemmas::gives_grown))]
pub fn read_all<So: Source>(alloc: Global, source: &mut So) -> Result<Vec<u8>, ReadError>
    ensures gives { IfOk result (λ bytes. Gives (So.left source.old) (So.left source.new) bytes.items) }
    ensures end { IfOk result (λ bytes. length bytes.items ≤ SCRIPT_LIMIT → IsAtEnd (So.left source.new)) }
    ensures limit { IfOk result (λ bytes. length bytes.items ≤ SCRIPT_LIMIT + 1) }
    ensures never_falls { So.faults source.old ≤ So.faults source.new }
    ensures cause { result ≡ Err ReadError.Failed → Rose (So.faults source.old) (So.faults source.new) }
{
    let mut bytes = Vec::new(alloc);
    let mut piece = piece_buffer(alloc)?;
    while bytes.len() <= SCRIPT_LIMIT {
        let room = SCRIPT_LIMIT + 1 - bytes.len();
        if read_more(source, piece.as_mut_slice(), room, &mut bytes)? {
            return Ok(bytes);
        }
    }
    Ok(bytes)
}

/// A buffer for one read.
fn piece_buffer(alloc: Global) -> Result<Vec<u8>, ReadError>
    ensures size { IfOk result (λ piece. 0 < length piece.items) }
    ensures memory { IfErr result (λ e. e ≡ ReadError.OutOfMemory) }
{
    match vec![in alloc; 0u8; PIECE] {
        Ok(piece) => Ok(piece),
        Err(_) => Err(ReadError::OutOfMemory),
    }
}

/// Reads once, at most `room` bytes, and puts them at the end of `bytes`. Says whether this was the
/// source's end.
#[tactic(auto, using(crate::proofs::OutsideLemmas::gives_more))]
fn read_more<So: Source>(
    source: &mut So,
    piece: &mut [u8],
    room: usize,
    bytes: &mut Vec<u8>,
) -> Result<bool, ReadError>
    requires piece { 0 < length piece.old }
    requires room { 0 < room }
    ensures gives { OnOk result (GivesMore (So.left source.old) (So.left source.new) bytes.old.items bytes.new.items) }
    ensures end { IfOk result (λ ended. ended ≡ true → IsAtEnd (So.left source.new)) }
    ensures more { IfOk result (λ ended. ended ≡ false → length bytes.old.items < length bytes.new.items) }
    ensures limit { OnOk result (length bytes.new.items ≤ length bytes.old.items + room) }
    ensures never_falls { So.faults source.old ≤ So.faults source.new }
    ensures cause { result ≡ Err ReadError.Failed → Rose (So.faults source.old) (So.faults source.new) }
{
    let most = room.min(piece.len());
    let buf = &mut piece[..most];
    match source.read(buf) {
        Ok(count) => match bytes.extend_from_slice(&buf[..count]) {
            Ok(()) => Ok(count == 0),
            Err(_) => Err(ReadError::OutOfMemory),
        },
        Err(Failed) => Err(ReadError::Failed),
    }
}

/// Writes all of these bytes.
///
/// `Failed`: only where the sink's count of faults rose; a part from the front of the bytes may
/// then have been written.
#[tactic(auto, using(crate::proofs::OutsideLemmas::writing_none, crate::proofs::OutsideLemmas::writing_more, crate::proofs::OutsideLemmas::writing_kept, crate::proofs::OutsideLemmas::writing_all, crate::proofs::OutsideLemmas::writing_part))]
pub fn write_all<Si: Sink>(sink: &mut Si, bytes: &[u8]) -> Result<(), Failed>
    ensures ok { OnOk result (Appends (Si.held sink.old) (Si.held sink.new) bytes.now) }
    ensures part { AppendsPart (Si.held sink.old) (Si.held sink.new) bytes.now }
    ensures never_falls { Si.faults sink.old ≤ Si.faults sink.new }
    ensures cause { OnErr result (Rose (Si.faults sink.old) (Si.faults sink.new)) }
{
    let mut rest = bytes;
    while !rest.is_empty() {
        match sink.write(rest) {
            Ok(0) => return Err(Failed),
            Ok(count) => rest = &rest[count..],
            Err(Failed) => return Err(Failed),
        }
    }
    Ok(())
}
