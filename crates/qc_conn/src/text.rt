//! The text of the steps before an input that was refused. That of a whole trace is `qc_text`'s.

ghost use Rattle.std.specs.Prelude.{◌≡◌, ◌++◌, codes, decimal, IfOk, OnOk};
ghost use Rattle.qc_conn.specs.RefusedText.{why_text, refusal_line, refused_text};

use crate::driving::{BadWhy, DriveError, DriveKind};
use qc_base::Instant;
pub use qc_text::trace_text;
use qc_text::{put_number, steps_text};
use std::alloc::{AllocError, Global};

/// The text of the steps before an input that was refused, and, in place of the line `end`, the line that names the input
/// and says why: its time and the greatest time so far, or what is wrong with the call.
#[tactic(auto, unfolding(crate::specs::RefusedText::refused_text))]
pub fn refused_text(alloc: Global, error: &DriveError) -> Result<Vec<u8>, AllocError>
    ensures text { IfOk result (λ text. text.items ≡ refused_text error.now.done error.now.kind) }
{
    let mut out = steps_text(alloc, error.done.as_slice())?;
    put_refusal(&mut out, error.kind)?;
    Ok(out)
}

#[tactic(auto, unfolding(crate::specs::RefusedText::refusal_line))]
fn put_refusal(out: &mut Vec<u8>, kind: DriveKind) -> Result<(), AllocError>
    ensures { OnOk result (out.new.items ≡ out.old.items ++ refusal_line kind) }
{
    match kind {
        DriveKind::TimeBack {
            at,
            given,
            greatest,
        } => put_time_back(out, at, given, greatest),
        DriveKind::BadCall { at, why } => put_bad_call(out, at, why),
        DriveKind::OutOfMemory | DriveKind::Failed => Ok(()),
    }
}

#[tactic(auto, unfolding(crate::specs::RefusedText::refusal_line))]
fn put_time_back(
    out: &mut Vec<u8>,
    at: u64,
    given: Instant,
    greatest: Instant,
) -> Result<(), AllocError>
    ensures { OnOk result (out.new.items ≡ out.old.items ++ refusal_line (DriveKind.TimeBack at given greatest)) }
{
    out.extend_from_slice(b"input ")?;
    put_number(out, at)?;
    out.extend_from_slice(b" time back ")?;
    put_number(out, given.nanos())?;
    out.extend_from_slice(b" ")?;
    put_number(out, greatest.nanos())?;
    out.extend_from_slice(b"\n")
}

#[tactic(auto, unfolding(crate::specs::RefusedText::refusal_line))]
fn put_bad_call(out: &mut Vec<u8>, at: u64, why: BadWhy) -> Result<(), AllocError>
    ensures { OnOk result (out.new.items ≡ out.old.items ++ refusal_line (DriveKind.BadCall at why)) }
{
    out.extend_from_slice(b"input ")?;
    put_number(out, at)?;
    out.extend_from_slice(b" bad call ")?;
    put_why(out, why)?;
    out.extend_from_slice(b"\n")
}

/// Two numbers.
fn put_two(out: &mut Vec<u8>, first: u64, second: u64) -> Result<(), AllocError>
    ensures { OnOk result (out.new.items ≡ out.old.items ++ decimal first ++ codes " " ++ decimal second) }
{
    put_number(out, first)?;
    out.extend_from_slice(b" ")?;
    put_number(out, second)
}

#[tactic(auto, unfolding(crate::specs::RefusedText::why_text))]
fn put_why(out: &mut Vec<u8>, why: BadWhy) -> Result<(), AllocError>
    ensures { OnOk result (out.new.items ≡ out.old.items ++ why_text why) }
{
    match why {
        BadWhy::ZeroDatagrams => out.extend_from_slice(b"zero datagrams"),
        BadWhy::Direction { id } => {
            out.extend_from_slice(b"direction ")?;
            put_number(out, id.value())
        }
        BadWhy::NotAsked { asked, given } => {
            out.extend_from_slice(b"not asked ")?;
            put_two(out, asked, given)
        }
        BadWhy::Sequence { wanted, given } => {
            out.extend_from_slice(b"sequence ")?;
            put_two(out, wanted, given)
        }
        BadWhy::IdLength { wanted, given } => {
            out.extend_from_slice(b"id length ")?;
            put_two(out, wanted as u64, given as u64)
        }
    }
}
