//! The toy's keys for tokens and stateless resets.

ghost use Rattle.std.specs.Prelude.{◌≡◌, slice_index};
ghost use Rattle.qc_toy.specs.Cipher.{toy_signature, token_key};

use crate::cipher::{checksum_of, open_in_place, seal_bytes, tag_of};
use qc_crypto::{AeadKey, CryptoError, HandshakeTokenKey, HmacKey};
use std::alloc::AllocError;

/// A key that signs.
#[derive(Clone, Copy, Debug, PartialEq, Eq)]
pub struct ToyHmacKey {
    bytes: [u8; 16],
}

impl ToyHmacKey {
    /// The key with these bytes.
    pub fn new(bytes: [u8; 16]) -> ToyHmacKey
        ensures { result ≡ record { bytes = bytes } }
    {
        ToyHmacKey { bytes }
    }
}

impl HmacKey for ToyHmacKey {
    ghost use Rattle.qc_toy.specs.CipherLaws.{length-toy_signature};

    ghost signature_of = { λ key. toy_signature key.bytes };

    ghost signature_size = { λ _. 16 };

    #[tactic(auto, unfolding(crate::specs::Cipher::toy_signature))]
    fn sign(&self, body: &[u8], signature_out: &mut [u8]) {
        let t = checksum_of(0, &[], body);
        signature_out.copy_from_slice(&tag_of(&self.bytes, t, 0));
    }

    fn signature_len(&self) -> usize {
        16
    }

    #[tactic(auto, unfolding(crate::specs::Cipher::toy_signature))]
    fn verify(&self, body: &[u8], signature: &[u8]) -> Result<(), CryptoError> {
        let t = checksum_of(0, &[], body);
        if signature == tag_of(&self.bytes, t, 0).as_slice() {
            Ok(())
        } else {
            Err(CryptoError)
        }
    }

    ghost signature_length = { λ key. length-toy_signature key.bytes };
}

/// A master key of tokens.
#[derive(Clone, Copy, Debug, PartialEq, Eq)]
pub struct ToyTokenKey {
    master: [u8; 16],
}

impl ToyTokenKey {
    /// The master key with these bytes.
    pub fn new(master: [u8; 16]) -> ToyTokenKey
        ensures { result ≡ record { master = master } }
    {
        ToyTokenKey { master }
    }
}

impl HandshakeTokenKey for ToyTokenKey {
    ghost use Rattle.qc_toy.specs.Cipher.{token_key};
    ghost use Rattle.qc_toy.specs.declared.token_keys.ToyAeadKey.{ToyAeadKey};

    type Aead = ToyAeadKey;

    ghost derived = { λ key nonce. record { bytes = token_key key.master nonce } };

    fn aead_from_hkdf(&self, random_bytes: &[u8]) -> ToyAeadKey {
        ToyAeadKey {
            bytes: bytes_of_token_key(&self.master, random_bytes),
        }
    }
}

fn byte_at(bytes: &[u8], i: usize) -> u8
    ensures { result ≡ slice_index bytes.now i }
{
    if i < bytes.len() { bytes[i] } else { 0 }
}

#[tactic(auto, unfolding(crate::specs::Cipher::token_key))]
fn bytes_of_token_key(master: &[u8; 16], nonce: &[u8]) -> [u8; 16]
    ensures { result ≡ token_key master.now nonce.now }
{
    let mut key = [0; 16];
    for i in 0..16 {
        key[i] = master[i] ^ byte_at(nonce, i);
    }
    key
}

/// The key of one token.
#[derive(Clone, Copy, Debug, PartialEq, Eq)]
pub struct ToyAeadKey {
    bytes: [u8; 16],
}

impl AeadKey for ToyAeadKey {
    ghost use Rattle.qc_toy.specs.Cipher.{toy_seal, toy_opening};
    ghost use Rattle.qc_toy.specs.CipherLaws.{length-toy_seal, opens_sealed as toy_opens_sealed, opens_only_sealed};

    ghost sealed = { λ key. toy_seal key.bytes 0 };

    ghost opened = { λ key. toy_opening key.bytes 0 };

    fn seal(&self, body: &mut Vec<u8>, additional: &[u8]) -> Result<(), AllocError> {
        body.extend_from_slice(&[0; 16])?;
        seal_bytes(&self.bytes, 0, additional, body.as_mut_slice());
        Ok(())
    }

    #[tactic(auto, unfolding(crate::specs::Cipher::toy_opening))]
    fn open_in_place(&self, body: &mut [u8], additional: &[u8]) -> Result<usize, CryptoError> {
        if body.len() < 16 {
            return Err(CryptoError);
        }
        if !open_in_place(&self.bytes, 0, additional, body) {
            return Err(CryptoError);
        }
        Ok(body.len() - 16)
    }

    ghost sealed_length = { λ key. length-toy_seal key.bytes 0 };

    ghost opens_sealed = { λ key. toy_opens_sealed key.bytes 0 };

    ghost opens_only = { λ key. opens_only_sealed key.bytes 0 };
}
