//! The fields of a line: words, numbers and bytes.

ghost use Rattle.hex.specs.Hex.{encode_lower, lower_digits};
ghost use Rattle.qc_base.specs.Grammar.{IsBytes};
ghost use Rattle.qc_base.specs.declared.side.Dir.{Dir};
ghost use Rattle.qc_script.specs.Fields.{AreFields, Begins, Lacks, dir_text, flag_text, hex_field};
ghost use Rattle.std.specs.Bool.{MatchBool, OnFalse, OnTrue};
ghost use Rattle.std.specs.Fmt.{decimal};
ghost use Rattle.std.specs.Int.{IsInRange};
ghost use Rattle.std.specs.Prelude.{◌≡◌, ◌≢◌, Bool, ℕ, ◌+◌, ◌-◌, ◌*◌, ◌^◌, ◌<◌, ◌≤◌, List, ◌∷◌, ◌++◌, length, take, slice_index, IfOk, MatchOption, IfSome, IfNone};

use qc_base::{Dir, VarInt};
use qc_state::Body;
use std::alloc::{AllocError, Global};

/// The number so far with this digit behind it.
fn next_number(number: u64, byte: u8) -> Option<u64>
    ensures some { IfSome result (λ next. IsInRange 48 57 byte × (next ≡ number * 10 + (byte - 48))) }
    ensures none { IfNone result (IsInRange 48 57 byte → 2 ^ 64 ≤ number * 10 + (byte - 48)) }
{
    if byte < b'0' || byte > b'9' {
        return None;
    }
    number.checked_mul(10)?.checked_add(u64::from(byte - b'0'))
}

/// The number below 2^64 that these digits are the decimal of, without leading zeros.
pub fn read_number(digits: &[u8]) -> Option<u64>
    ensures { MatchOption result ((n : ℕ) → n < 2 ^ 64 → digits.now ≢ decimal n) (λ n. digits.now ≡ decimal n) }
{
    if digits.is_empty() {
        return None;
    }
    if digits[0] == b'0' && digits.len() > 1 {
        return None;
    }
    let mut number: u64 = 0;
    for byte in digits {
        number = next_number(number, *byte)?;
    }
    Some(number)
}

/// The code that these digits are the decimal of, which is below 2^62.
pub fn read_code(digits: &[u8]) -> Option<VarInt>
    ensures { MatchOption result ((n : ℕ) → n < 2 ^ 62 → digits.now ≢ decimal n) (λ n. digits.now ≡ decimal n) }
{
    let code = read_number(digits)?;
    match VarInt::from_u64(code) {
        Ok(code) => Some(code),
        Err(_) => None,
    }
}

/// The port that these digits are the decimal of, which is below 2^16.
pub fn read_port(digits: &[u8]) -> Option<u16>
    ensures { MatchOption result ((n : ℕ) → n < 2 ^ 16 → digits.now ≢ decimal n) (λ n. digits.now ≡ decimal n) }
{
    let port = read_number(digits)?;
    if port < 65_536 {
        Some(port as u16)
    } else {
        None
    }
}

/// The count that these digits are the decimal of, which is below 2^32.
pub fn read_count(digits: &[u8]) -> Option<u32>
    ensures { MatchOption result ((n : ℕ) → n < 2 ^ 32 → digits.now ≢ decimal n) (λ n. digits.now ≡ decimal n) }
{
    let count = read_number(digits)?;
    if count < 4_294_967_296 {
        Some(count as u32)
    } else {
        None
    }
}

/// The direction that a field names.
pub fn read_dir(field: &[u8]) -> Option<Dir>
    ensures { MatchOption result ((dir : Dir) → field.now ≢ dir_text dir) (λ dir. field.now ≡ dir_text dir) }
{
    if field == b"bi".as_slice() {
        return Some(Dir::Bi);
    }
    if field == b"uni".as_slice() {
        return Some(Dir::Uni);
    }
    None
}

/// The flag that a field spells: `0` or `1`.
pub fn read_flag(field: &[u8]) -> Option<bool>
    ensures { MatchOption result ((flag : Bool) → field.now ≢ flag_text flag) (λ flag. field.now ≡ flag_text flag) }
{
    if field == b"0".as_slice() {
        return Some(false);
    }
    if field == b"1".as_slice() {
        return Some(true);
    }
    None
}

/// The text after this word.
pub fn after_word<'a>(text: &'a [u8], word: &[u8]) -> Option<&'a [u8]>
    ensures { MatchOption result ((rest : List ℕ) → text.now ≢ word.now ++ rest) (λ rest. text.now ≡ word.now ++ rest.now) }
{
    if text.len() < word.len() {
        return None;
    }
    let (front, rest) = text.split_at(word.len());
    if front == word { Some(rest) } else { None }
}

/// Whether such a byte is among these. All of them are looked at, so that they can be looked at side by side.
fn has_byte(chunk: &[u8; 16], byte: u8) -> bool
    ensures { MatchBool result (Lacks byte chunk.now → ⊥) (Lacks byte chunk.now) }
{
    let mut found = false;
    for b in chunk {
        found |= *b == byte;
    }
    found
}

/// The length of a front that lacks such a byte: of the chunks before the first that has one.
fn count_before(text: &[u8], byte: u8) -> usize
    ensures bound { result ≤ length text.now }
    ensures lacks { Lacks byte (take result text.now) }
{
    let (chunks, _) = text.as_chunks::<16>();
    let mut count = 0;
    for chunk in chunks {
        if has_byte(chunk, byte) {
            return count;
        }
        count += 16;
    }
    count
}

/// The parts before and after the first such byte.
#[tactic(auto, using(crate::proofs::NumberLemmas::lacks_more, crate::proofs::NumberLemmas::lacks_all, crate::proofs::NumberLemmas::split_found))]
pub fn split_at_byte(text: &[u8], byte: u8) -> Option<(&[u8], &[u8])>
    ensures { MatchOption result (Lacks byte text.now) (λ parts. (text.now ≡ parts.0.now ++ byte ∷ parts.1.now) × Lacks byte parts.0.now) }
{
    for place in count_before(text, byte)..text.len() {
        if text[place] == byte {
            return Some((&text[..place], &text[place + 1..]));
        }
    }
    None
}

/// The number below 2^64 that is the first field of a text, and what is behind it.
pub fn first_number(text: &[u8]) -> Option<(u64, &[u8])>
    ensures { MatchOption result ((n : ℕ) → (rest : List ℕ) → Begins (2 ^ 64) text.now n rest → ⊥) (λ x. Begins (2 ^ 64) text.now x.0 x.1.now) }
{
    let (digits, rest) = split_at_byte(text, b' ')?;
    let number = read_number(digits)?;
    Some((number, rest))
}

/// The direction that is the first field of a text, and what is behind it.
pub fn first_dir(text: &[u8]) -> Option<(Dir, &[u8])>
    ensures { MatchOption result ((dir : Dir) → (rest : List ℕ) → text.now ≢ dir_text dir ++ 32 ∷ rest) (λ x. text.now ≡ dir_text x.0 ++ 32 ∷ x.1.now) }
{
    let (field, rest) = split_at_byte(text, b' ')?;
    let dir = read_dir(field)?;
    Some((dir, rest))
}

/// The first three fields of a text and what is behind them, with a space between each two.
pub fn four_fields(text: &[u8]) -> Option<(&[u8], &[u8], &[u8], &[u8])>
    ensures { MatchOption result ((a b c d : List ℕ) → AreFields text.now a b c d → ⊥) (λ x. AreFields text.now x.0.now x.1.now x.2.now x.3.now) }
{
    let (first, rest) = split_at_byte(text, b' ')?;
    let (second, rest) = split_at_byte(rest, b' ')?;
    let (third, last) = split_at_byte(rest, b' ')?;
    Some((first, second, third, last))
}

/// The value of a digit of lower-case hex, and 16 where the byte is none.
fn digit_value(byte: u8) -> u8
    ensures digit { result < 16 → slice_index lower_digits result ≡ byte }
    ensures none { 16 ≤ result → (v : ℕ) → v < 16 → slice_index lower_digits v ≢ byte }
{
    match byte {
        b'0'..=b'9' => byte - b'0',
        b'a'..=b'f' => byte - b'a' + 10,
        _ => 16,
    }
}

/// Writes the bytes that these digits spell in lower-case hex, and says whether they do spell any. No digit ends the
/// loop, so that many can be read side by side.
fn decode(digits: &[u8], bytes: &mut [u8]) -> bool
    requires { length digits.now ≡ 2 * length bytes.old }
    ensures spelled { OnTrue result (digits.now ≡ encode_lower bytes.new) }
    ensures other { OnFalse result ((others : List ℕ) → IsBytes others → digits.now ≢ encode_lower others) }
{
    let mut greatest: u8 = 0;
    for place in 0..bytes.len() {
        let high = digit_value(digits[2 * place]);
        let low = digit_value(digits[2 * place + 1]);
        greatest = greatest.max(high).max(low);
        bytes[place] = high.wrapping_mul(16).wrapping_add(low);
    }
    greatest < 16
}

/// Each item of a slice of bytes is a byte. (This does nothing; its clause is the law.)
fn are_bytes(bytes: &[u8])
    ensures { IsBytes bytes.now }
{
    let _count = bytes.len();
}

/// The bytes that a field spells in hex.
pub fn read_hex(alloc: Global, field: &[u8]) -> Result<Option<Body>, AllocError>
    ensures { IfOk result (λ r. MatchOption r ((bytes : List ℕ) → IsBytes bytes → field.now ≢ hex_field bytes) (λ body. (field.now ≡ hex_field body) × IsBytes body)) }
{
    if field == b"-".as_slice() {
        return Ok(Some(Body::from_vec(Vec::new(alloc))));
    }
    if field.is_empty() || field.len() % 2 != 0 {
        return Ok(None);
    }
    let mut bytes = vec![in alloc; 0u8; field.len() / 2]?;
    if decode(field, bytes.as_mut_slice()) {
        are_bytes(bytes.as_slice());
        Ok(Some(Body::from_vec(bytes)))
    } else {
        Ok(None)
    }
}
