//! The lines of ids that an endpoint gives.

ghost use Rattle.qc_base.specs.declared.ids.IssuedCid.{IssuedCid};
ghost use Rattle.qc_script.specs.Fields.{hex_field};
ghost use Rattle.qc_script.specs.Script.{AreIssued, IsIssued, IsLineRead, IsResetToken, ids_text, issued_text};
ghost use Rattle.std.specs.Prelude.{◌≡◌, ◌≢◌, ℕ, ◌<◌, List, ◌∷◌, ◌++◌, codes, length, IfOk, MatchOption};

use crate::fields::{first_number, read_hex, read_number, split_at_byte};
use crate::set_lines::read_id;
use qc_base::{Instant, IssuedCid, ResetToken};
use qc_state::{IdList, Input};
use std::alloc::{AllocError, Global};

/// The token that a field spells.
fn read_reset_token(alloc: Global, field: &[u8]) -> Result<Option<ResetToken>, AllocError>
    ensures { IfOk result (λ r. MatchOption r ((token : List ℕ) → IsResetToken token → field.now ≢ hex_field token) (λ token. (field.now ≡ hex_field token) × IsResetToken token)) }
{
    let Some(bytes) = read_hex(alloc, field)? else {
        return Ok(None);
    };
    let bytes = bytes.as_slice();
    if bytes.len() == 16 {
        Ok(Some(ResetToken::new(bytes)))
    } else {
        Ok(None)
    }
}

/// The id that a field spells: its number, its bytes and its token.
fn read_issued(alloc: Global, field: &[u8]) -> Result<Option<IssuedCid>, AllocError>
    ensures { IfOk result (λ r. MatchOption r ((issued : IssuedCid) → IsIssued issued → field.now ≢ issued_text issued) (λ issued. (field.now ≡ issued_text issued) × IsIssued issued)) }
{
    let Some((digits, rest)) = split_at_byte(field, b':') else {
        return Ok(None);
    };
    let Some(sequence) = read_number(digits) else {
        return Ok(None);
    };
    let Some((id, token)) = split_at_byte(rest, b':') else {
        return Ok(None);
    };
    let Some(id) = read_id(alloc, id)? else {
        return Ok(None);
    };
    let Some(reset_token) = read_reset_token(alloc, token)? else {
        return Ok(None);
    };
    Ok(Some(IssuedCid {
        sequence,
        id,
        reset_token,
    }))
}

/// The ids that these fields spell, one or more, with a space between each two.
fn read_ids(alloc: Global, fields: &[u8]) -> Result<Option<IdList>, AllocError>
    ensures { IfOk result (λ r. MatchOption r ((ids : List IssuedCid) → AreIssued ids → 32 ∷ fields.now ≢ ids_text ids) (λ ids. (32 ∷ fields.now ≡ ids_text ids) × (0 < length ids) × AreIssued ids)) }
{
    let mut ids = Vec::new(alloc);
    let mut rest = fields;
    while let Some((field, others)) = split_at_byte(rest, b' ') {
        let Some(issued) = read_issued(alloc, field)? else {
            return Ok(None);
        };
        ids.push(issued)?;
        rest = others;
    }
    let Some(last) = read_issued(alloc, rest)? else {
        return Ok(None);
    };
    ids.push(last)?;
    let ids = IdList::from_slice(alloc, ids.as_slice())?;
    Ok(Some(ids))
}

/// The ids that are given of a line with these fields.
pub fn ids_line(alloc: Global, fields: &[u8]) -> Result<Option<Input>, AllocError>
    ensures { IfOk result (IsLineRead (codes "ids " ++ fields.now)) }
{
    let Some((now, rest)) = first_number(fields) else {
        return Ok(None);
    };
    let Some(ids) = read_ids(alloc, rest)? else {
        return Ok(None);
    };
    Ok(Some(Input::Identifiers {
        now: Instant::from_nanos(now),
        ids,
    }))
}
