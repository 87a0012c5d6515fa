//! That tokens come back.

ghost use Rattle.std.specs.Prelude.{◌≡◌, ◌<◌, ◌^◌, List, ℕ, Some};
ghost use Rattle.qc_token.specs.declared.token.Token.{Token};
ghost use Rattle.qc_token.specs.TokenSpelling.{IsWhole};
ghost use Rattle.qc_token.specs.Tokens.{IsTokenText, decoded, token_bytes};

use qc_crypto::AeadKey;

/// Laws of the bytes of a token that says whole seconds, and an address without flow label and scope: they are
/// that token, and decode to it. This function does nothing.
pub fn token_laws<A: AeadKey>()
    ensures text { (derived : List ℕ → A) (t : Token) → IsWhole t.payload → t.nonce < 2 ^ 128 → IsTokenText A.sealed derived t (token_bytes A.sealed derived t) }
    ensures back { (derived : List ℕ → A) (t : Token) → IsWhole t.payload → t.nonce < 2 ^ 128 → decoded A.opened derived (token_bytes A.sealed derived t) ≡ Some t }
{}
