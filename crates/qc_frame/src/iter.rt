//! The frames of a payload (RFC 9000, section 12.4).

ghost use Rattle.std.specs.Prelude.{◌≡◌, ℕ, ◌<◌, ◌≤◌, ◌^◌, ◌↔◌, List, ◌∷◌, ◌++◌, length, map, replicate, drop, slice_index, IfOk, IfErr, IsErr, IsOkAnd};
ghost use Rattle.std.specs.List.{All};
ghost use Rattle.std.specs.Iterator.{YieldsFirstBy, item_count};
ghost use Rattle.std.specs.Result.{result_ok};
ghost use Rattle.qc_base.specs.Reading.{Gives};
ghost use Rattle.qc_frame.specs.Frame.{TypedValue, borrowed, typed};
ghost use Rattle.qc_frame.specs.FrameFits.{Fits};
ghost use Rattle.qc_frame.specs.FrameGrammar.{FrameAt, NoFrameAt, Payload};
ghost use Rattle.qc_frame.specs.FrameReading.{frame_at};
ghost use Rattle.qc_frame.specs.Payload.{Item, item_view, items_of, padding_item};

use crate::fault::InvalidFrame;
use crate::frames::TypedFrame;
use crate::read::{read_frame, read_item};
use qc_base::{TransportError, TransportErrorCode};
use std::marker::Model;

/// The frames of a payload, in their order. The first bytes that are no frame end it, after their
/// fault was given.
#[derive(Debug, Drop)]
pub struct Iter<'a> {
    bytes: &'a [u8],
}

impl<'a> Model for Iter<'a> {
    ghost use Rattle.std.specs.Prelude.{ℕ, List};

    ghost Value = { List ℕ };

    ghost view = { λ iter. iter.bytes.now };
}

impl<'a> Iter<'a> {
    /// The frames of `payload`. PROTOCOL_VIOLATION exactly where it is empty (RFC 9000, section
    /// 12.4).
    pub fn new(payload: &'a [u8]) -> Result<Iter<'a>, TransportError>
        ensures bytes { IfOk result (λ iter. iter ≡ payload.now) }
        ensures empty { IsErr result ↔ (length payload.now ≡ 0) }
        ensures error { IfErr result (λ e. (e.code ≡ 10) × (e.frame ≡ None)) }
        ensures grammar { Payload (items_of payload.now) payload.now }
        ensures fits { length payload.now < 2 ^ 62 → All (λ item. IfOk item (λ read. Fits read.frame)) (items_of payload.now) }
        ensures only { (items : List Item) → Payload items payload.now → map result_ok items ≡ map result_ok (items_of payload.now) }
    {
        if payload.is_empty() {
            return Err(TransportError {
                code: TransportErrorCode::PROTOCOL_VIOLATION,
                frame: None,
            });
        }
        Ok(Iter { bytes: payload })
    }

    /// Skips the PADDING frames that come next, a byte each, and says how many they were. A packet
    /// may have a thousand of them, which are read far faster so than frame by frame.
    pub fn skip_padding(&mut self) -> usize
        ensures skipped { items_of self.old ≡ replicate result padding_item ++ items_of self.new }
        ensures bytes { self.old ≡ replicate result 0 ++ self.new }
        ensures all { (rest : List ℕ) → self.new ≡ 0 ∷ rest → ⊥ }
    {
        let (count, rest) = split_padding(self.bytes);
        self.bytes = rest;
        count
    }
}

/// How many PADDING frames of a byte stand at the front, and the bytes behind them.
fn split_padding(bytes: &[u8]) -> (usize, &[u8])
    ensures skipped { items_of bytes.now ≡ replicate result.0 padding_item ++ items_of result.1.now }
    ensures bytes { bytes.now ≡ replicate result.0 0 ++ result.1.now }
    ensures all { (rest : List ℕ) → result.1.now ≡ 0 ∷ rest → ⊥ }
{
    let count = zeros_at_front(bytes);
    let (_, rest) = bytes.split_at(count);
    (count, rest)
}

/// How many zero bytes stand at the front.
fn zeros_at_front(bytes: &[u8]) -> usize
    ensures within { result ≤ length bytes.now }
    ensures zeros { (k : ℕ) → k < result → slice_index bytes.now k ≡ 0 }
    ensures stops { result < length bytes.now → slice_index bytes.now result ≡ 0 → ⊥ }
{
    for i in 0..bytes.len() {
        if bytes[i] != 0 {
            return i;
        }
    }
    bytes.len()
}

/// The frame at the front of the bytes with its type, and the bytes behind it. Refused exactly
/// where no frame stands there.
pub fn first_frame(bytes: &[u8]) -> Result<(TypedFrame<'_>, &[u8]), InvalidFrame>
    ensures exact { Gives (λ x. (typed x.0, x.1.now)) result (frame_at bytes.now) }
    ensures found { IfOk result (λ x. FrameAt (typed x.0) bytes.now x.1.now) }
    ensures only { (f : TypedValue) (rest : List ℕ) → FrameAt f bytes.now rest → IsOkAnd result (λ x. (typed x.0 ≡ f) × (x.1.now ≡ rest)) }
    ensures fits { length bytes.now < 2 ^ 62 → IfOk result (λ x. Fits (borrowed x.0.frame)) }
    ensures refused { IfErr result (λ e. NoFrameAt bytes.now e.ty) }
{
    read_frame(bytes)
}

impl<'a> Iterator for Iter<'a> {
    type Item = Result<TypedFrame<'a>, InvalidFrame>;

    ghost next_gives = { YieldsFirstBy item_view items_of };

    ghost remaining = { item_count items_of };

    fn next(&mut self) -> Option<Result<TypedFrame<'a>, InvalidFrame>> {
        if self.bytes.is_empty() {
            return None;
        }
        let (item, rest) = read_item(self.bytes);
        self.bytes = rest;
        Some(item)
    }
}
