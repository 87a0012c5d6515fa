//! Entries: an id, the length of a value and the value (RFC 9000, section 18).

ghost use Rattle.std.specs.Prelude.{◌≡◌, ◌<◌, length, MatchResult, Some, None, IfOk};
ghost use Rattle.std.specs.Option.{option_copied};
ghost use Rattle.qc_base.specs.Reading.{Finds};
ghost use Rattle.qc_params.specs.ParametersReading.{entry_of, value_in};

use crate::ParamError;
use qc_base::{Cut, read_blob, read_varint};

// The first entry.
#[tactic(auto, unfolding(crate::specs::ParametersReading::entry_of))]
fn read_entry(bytes: &[u8]) -> Result<(u64, &[u8], &[u8]), Cut>
    ensures exact { Finds (λ x. ((x.0, x.1.now), x.2.now)) result (entry_of bytes.now) }
    ensures shorter { IfOk result (λ x. length x.2.now < length bytes.now) }
{
    let (id, rest) = read_varint(bytes)?;
    let (value, rest) = read_blob(rest)?;
    Ok((id, value, rest))
}

// The value under an id, if there is one; a second one is refused.
#[tactic(auto, using(crate::proofs::EntryLaws::value_in_all, crate::proofs::EntryLaws::is_end, crate::proofs::EntryLaws::is_cut, crate::proofs::EntryLaws::is_other, crate::proofs::EntryLaws::is_first, crate::proofs::EntryLaws::is_again))]
pub(crate) fn value_under(bytes: &[u8], id: u64) -> Result<Option<&[u8]>, ParamError>
    ensures { MatchResult result
        (λ value. value_in id bytes.now ≡ Some (option_copied value))
        (λ e. (e ≡ ParamError.Malformed) × (value_in id bytes.now ≡ None)) }
{
    let mut found = None;
    let mut rest = bytes;
    while !rest.is_empty() {
        let (entry_id, value, behind) = read_entry(rest)?;
        if entry_id == id {
            if found.is_some() {
                return Err(ParamError::Malformed);
            }
            found = Some(value);
        }
        rest = behind;
    }
    Ok(found)
}
