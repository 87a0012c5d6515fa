//! Tokens sealed and opened.

ghost use Rattle.std.specs.Prelude.{◌≡◌, ◌+◌, ◌*◌, ◌/◌, ◌%◌, ◌^◌, ◌++◌, [], length, Some, IfOk, IfSome};
ghost use Rattle.rand_core.specs.Stream.{fill_bytes};
ghost use Rattle.qc_token.specs.declared.token.Token.{Token};
ghost use Rattle.qc_token.specs.Nonce.{nonce_bytes, nonce_of};
ghost use Rattle.qc_token.specs.TokenReading.{payload_of};
ghost use Rattle.qc_token.specs.TokenSpelling.{token_len};
ghost use Rattle.std.specs.Option.{option_and_then, option_map};
ghost use Rattle.qc_token.specs.Tokens.{IsOnlySealed, IsOnlyToken, IsSealedText, IsTokenText, decoded, token_bytes};

use crate::reading::{read_payload, sixteen};
use crate::writing::put_payload;
use crate::{Token, TokenPayload};
use qc_crypto::{AeadKey, HandshakeTokenKey};
use rand_core::Rng;
use std::alloc::{AllocError, Global};

// The bytes of a nonce, the lowest first.
#[tactic(auto, unfolding(crate::specs::Nonce::nonce_bytes))]
fn bytes_of_nonce(nonce: u128) -> [u8; 16]
    ensures { result ≡ nonce_bytes nonce }
{
    let low = (nonce % (1 << 64)) as u64;
    let high = (nonce / (1 << 64)) as u64;
    let l = low.to_le_bytes();
    let h = high.to_le_bytes();
    [
        l[0], l[1], l[2], l[3], l[4], l[5], l[6], l[7], h[0], h[1], h[2], h[3], h[4], h[5], h[6],
        h[7],
    ]
}

// The nonce of sixteen bytes, the lowest first.
#[tactic(auto, unfolding(crate::specs::Nonce::nonce_of))]
fn nonce_from_bytes(b: &[u8; 16]) -> u128
    ensures { result ≡ nonce_of b.now }
{
    let low = u64::from_le_bytes([b[0], b[1], b[2], b[3], b[4], b[5], b[6], b[7]]);
    let high = u64::from_le_bytes([b[8], b[9], b[10], b[11], b[12], b[13], b[14], b[15]]);
    (low as u128) + (1 << 64) * (high as u128)
}

// What the bytes say once they are opened.
fn open_payload<A: AeadKey>(aead: &A, body: &mut [u8]) -> Option<TokenPayload>
    ensures exact { result ≡ option_and_then payload_of (A.opened aead.now [] body.old) }
    ensures found { IfSome result (IsSealedText (A.sealed aead.now []) body.old) }
    ensures only { IsOnlySealed (A.sealed aead.now []) body.old result }
{
    match aead.open(body, &[]) {
        Ok(plain) => read_payload(plain),
        Err(_) => None,
    }
}

// The token of sealed bytes and a nonce.
fn decode_parts<K: HandshakeTokenKey>(key: &K, body: &mut [u8], nonce: &[u8]) -> Option<Token>
    requires { length nonce.now ≡ 16 }
    ensures exact { result ≡ option_map (λ p. record { payload = p; nonce = nonce_of nonce.now }) (option_and_then payload_of (K.Aead.opened (K.derived key.now nonce.now) [] body.old)) }
    ensures found { IfSome result (λ t. IsTokenText K.Aead.sealed (K.derived key.now) t (body.old ++ nonce.now)) }
    ensures only { IsOnlyToken K.Aead.sealed (K.derived key.now) (body.old ++ nonce.now) result }
{
    let aead = key.aead_from_hkdf(nonce);
    match open_payload(&aead, body) {
        Some(payload) => Some(Token {
            payload,
            nonce: nonce_from_bytes(&sixteen(nonce)),
        }),
        None => None,
    }
}

impl Token {
    /// A token that says this, with a nonce of 16 drawn bytes, the lowest first.
    pub fn new<R: Rng>(payload: TokenPayload, rng: &mut R) -> Token
        ensures payload { result.payload ≡ payload }
        ensures nonce { result.nonce ≡ nonce_of (fill_bytes 16 (R.stream rng.old)).0 }
        ensures drawn { R.stream rng.new ≡ (fill_bytes 16 (R.stream rng.old)).1 }
    {
        let mut bytes = [0; 16];
        rng.fill_bytes(&mut bytes);
        Token {
            payload,
            nonce: nonce_from_bytes(&bytes),
        }
    }

    /// The token's bytes: what it says, sealed under the key that is made of the nonce, and the nonce.
    ///
    /// A time is written in whole seconds, and an IPv6 address without its flow label and scope.
    ///
    /// # Errors
    ///
    /// Where there was no memory.
    #[tactic(auto, unfolding(crate::specs::Tokens::token_bytes, crate::specs::Tokens::sealed_token))]
    pub fn encode<K: HandshakeTokenKey>(
        &self,
        alloc: Global,
        key: &K,
    ) -> Result<Vec<u8>, AllocError>
        ensures bytes { IfOk result (λ bytes. bytes.items ≡ token_bytes K.Aead.sealed (K.derived key.now) self.now) }
        ensures size { IfOk result (λ bytes. length bytes.items ≡ token_len self.now.payload) }
    {
        let mut bytes = Vec::new(alloc);
        put_payload(&mut bytes, &self.payload)?;
        let nonce = bytes_of_nonce(self.nonce);
        let aead = key.aead_from_hkdf(&nonce);
        aead.seal(&mut bytes, &[])?;
        bytes.extend_from_slice(&nonce)?;
        Ok(bytes)
    }

    /// The token that these bytes are, as `key` made them: their last 16 bytes are its nonce, and the others are
    /// sealed. `None` exactly where they are none.
    ///
    /// # Errors
    ///
    /// Where there was no memory.
    #[tactic(auto, unfolding(crate::specs::Tokens::decoded))]
    pub fn decode<K: HandshakeTokenKey>(
        alloc: Global,
        key: &K,
        raw: &[u8],
    ) -> Result<Option<Token>, AllocError>
        ensures exact { IfOk result (λ token. token ≡ decoded K.Aead.opened (K.derived key.now) raw.now) }
        ensures found { IfOk result (λ token. IfSome token (λ t. IsTokenText K.Aead.sealed (K.derived key.now) t raw.now)) }
        ensures only { IfOk result (λ token. IsOnlyToken K.Aead.sealed (K.derived key.now) raw.now token) }
    {
        if raw.len() < 16 {
            return Ok(None);
        }
        let (sealed, nonce) = raw.split_at(raw.len() - 16);
        let mut body = Vec::from_slice(alloc, sealed)?;
        Ok(decode_parts(key, body.as_mut_slice(), nonce))
    }
}
