//! Keys for what a server hands out and takes back: tokens and stateless resets.

ghost use Rattle.std.specs.Prelude.{◌≡◌, ◌≢◌, ℕ, ◌+◌, ◌≤◌, List, Option, Some, None, length, take, OnOk, OnErr, IfOk};

use crate::CryptoError;
use std::alloc::AllocError;

/// A key that signs (RFC 9000, section 10.3.2, makes stateless reset tokens by one).
pub trait HmacKey: Drop {
    // The signature of some bytes, and how many bytes each signature has.
    ghost signature_of: { Self → List ℕ → List ℕ };

    ghost signature_size: { Self → ℕ };

    /// Writes the signature of `body`, which fills `signature_out`.
    fn sign(&self, body: &[u8], signature_out: &mut [u8])
        requires { length signature_out.old ≡ signature_size self.now }
        ensures { signature_out.new ≡ signature_of self.now body.now };

    /// How many bytes a signature has: at least 16.
    fn signature_len(&self) -> usize
        ensures value { result ≡ signature_size self.now }
        ensures least { 16 ≤ result };

    /// Compares `signature` with the signature of `body`.
    ///
    /// # Errors
    ///
    /// Exactly where they differ.
    fn verify(&self, body: &[u8], signature: &[u8]) -> Result<(), CryptoError>
        ensures ok { OnOk result (signature.now ≡ signature_of self.now body.now) }
        ensures refused { OnErr result (signature.now ≢ signature_of self.now body.now) };

    ghost signature_length: { (key : Self) (body : List ℕ) → length (signature_of key body) ≡ signature_size key };
}

/// A master key, of which the keys of single tokens are derived.
pub trait HandshakeTokenKey: Drop {
    /// What seals a token.
    type Aead: AeadKey;

    ghost derived: { Self → List ℕ → Self.Aead };

    /// The key of the token that carries these random bytes.
    fn aead_from_hkdf(&self, random_bytes: &[u8]) -> Self::Aead
        ensures { result ≡ derived self.now random_bytes.now };
}

/// A key that seals a token.
pub trait AeadKey: Drop {
    // The sealed bytes of additional and plain bytes, and the plain bytes of additional and sealed
    // ones, where they are what was sealed.
    ghost sealed: { Self → List ℕ → List ℕ → List ℕ };

    ghost opened: { Self → List ℕ → List ℕ → Option (List ℕ) };

    /// Seals `body`, which grows by its tag of 16 bytes. `additional` is authenticated with it.
    ///
    /// # Errors
    ///
    /// Where there was no memory: `body` is then as before.
    fn seal(&self, body: &mut Vec<u8>, additional: &[u8]) -> Result<(), AllocError>
        ensures ok { OnOk result (body.new.items ≡ sealed self.now additional.now body.old.items) }
        ensures err { OnErr result (body.new.items ≡ body.old.items) };

    /// Opens `body` in place, and answers how many bytes at its front are the plain text.
    ///
    /// # Errors
    ///
    /// Exactly where this key didn't seal `body` with these additional bytes. `body` is then as
    /// before.
    fn open_in_place(&self, body: &mut [u8], additional: &[u8]) -> Result<usize, CryptoError>
        ensures ok { IfOk result (λ len. opened self.now additional.now body.old ≡ Some (take len body.new)) }
        ensures within { IfOk result (λ len. len ≤ length body.old) }
        ensures refused { OnErr result (opened self.now additional.now body.old ≡ None) }
        ensures unchanged { OnErr result (body.new ≡ body.old) };

    /// Opens `body` in place, and answers its plain text.
    ///
    /// # Errors
    ///
    /// As [`AeadKey::open_in_place`].
    final fn open<'a>(
        &self,
        body: &'a mut [u8],
        additional: &[u8],
    ) -> Result<&'a mut [u8], CryptoError>
        ensures ok { IfOk result (λ plain. opened self.now additional.now body.old ≡ Some plain.now) }
        ensures refused { OnErr result (opened self.now additional.now body.old ≡ None) }
    {
        let len = self.open_in_place(body, additional)?;
        Ok(&mut body[..len])
    }

    // What is sealed is its body and a tag of 16 bytes (RFC 5116, section 5; RFC 8439, section 2.8).
    ghost sealed_length: { (key : Self) (additional plain : List ℕ) → length (sealed key additional plain) ≡ length plain + 16 };

    // What was sealed opens to itself, and nothing else opens.
    ghost opens_sealed: { (key : Self) (additional plain : List ℕ) → opened key additional (sealed key additional plain) ≡ Some plain };

    ghost opens_only: { (key : Self) (additional cipher plain : List ℕ) → opened key additional cipher ≡ Some plain → cipher ≡ sealed key additional plain };
}
