//! The fixed bit of a first byte, where it may be 0 (RFC 9287).

ghost use Rattle.std.specs.Prelude.{◌≡◌, ◌≢◌, ℕ, ◌-◌, ◌/◌, ◌%◌, ◌≤◌, List, ◌∷◌, true, Some};
ghost use Rattle.std.specs.Int.{w32};
ghost use Rattle.qc_base.specs.Reading.{word_of};
ghost use Rattle.qc_header.specs.HeaderReading.{header_at};

/// A reader that takes packets with a fixed bit of 0 reads the same header whether that bit is set or
/// not: of each short header, and of each long one whose version isn't 0, as Version Negotiation's is,
/// where the bit is one of seven that mean nothing (RFC 9000, section 17.2.1). (This does nothing; its
/// clause is the law.)
pub fn fixed_bit_is_not_read()
    ensures { (size local_cid_len first : ℕ) (versions bytes : List ℕ)
        → first / 64 % 2 ≡ 1 → (128 ≤ first → (rest : List ℕ) → word_of w32 bytes ≢ Some (0, rest))
        → header_at size local_cid_len versions true ((first - 64) ∷ bytes) ≡ header_at size local_cid_len versions true (first ∷ bytes) }
{}
