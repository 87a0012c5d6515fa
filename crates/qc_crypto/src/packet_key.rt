//! Keys that seal and open the payload of a packet (RFC 9001, section 5.3).

ghost use Rattle.std.specs.Prelude.{◌≡◌, ℕ, ◌+◌, ◌≤◌, List, Option, Some, None, length, OnOk, OnErr};
ghost use Rattle.qc_crypto.specs.Sealing.{sealed_in_place};

use crate::CryptoError;
use bytes::BytesMut;

/// A packet key: authenticated encryption with a tag of 16 bytes.
pub trait PacketKey: Drop {
    // The sealed payload, its tag included, of a packet number, a header and a plain payload.
    ghost seal: { Self → ℕ → List ℕ → List ℕ → List ℕ };

    // The plain payload of a packet number, a header and a sealed payload, where the tag fits.
    ghost opening: { Self → ℕ → List ℕ → List ℕ → Option (List ℕ) };

    ghost seal_limit: { Self → ℕ };

    ghost failure_limit: { Self → ℕ };

    /// Seals a packet in place. `buf` is its header, `header_len` bytes long, its plain payload,
    /// and 16 bytes of room for the tag.
    fn encrypt(&self, packet: u64, buf: &mut [u8], header_len: usize)
        requires { header_len + 16 ≤ length buf.old }
        ensures { buf.new ≡ sealed_in_place (seal self.now) packet buf.old header_len };

    /// Opens a sealed payload in place.
    ///
    /// # Errors
    ///
    /// `CryptoError` exactly where the payload isn't one that this key opens with this number and
    /// header. The payload is then unchanged.
    fn decrypt(&self, packet: u64, header: &[u8], payload: &mut BytesMut) -> Result<(), CryptoError>
        ensures ok { OnOk result (opening self.now packet header.now payload.old.items ≡ Some payload.new.items) }
        ensures refused { OnErr result (opening self.now packet header.now payload.old.items ≡ None) }
        ensures unchanged { OnErr result (payload.new ≡ payload.old) };

    /// How many bytes the tag has: 16.
    fn tag_len(&self) -> usize
        ensures { result ≡ 16 };

    /// How many packets this key may seal (RFC 9001, section 6.6).
    fn confidentiality_limit(&self) -> u64
        ensures { result ≡ seal_limit self.now };

    /// How many packets may fail to open before the connection has to end (RFC 9001, section 6.6).
    fn integrity_limit(&self) -> u64
        ensures { result ≡ failure_limit self.now };

    // A sealed payload is 16 bytes longer than the plain one, and only such a one opens.
    ghost sealed_length: { (key : Self) (number : ℕ) (header plain : List ℕ) → length (seal key number header plain) ≡ length plain + 16 };

    ghost opened_length: { (key : Self) (number : ℕ) (header sealed plain : List ℕ) → opening key number header sealed ≡ Some plain → length sealed ≡ length plain + 16 };
}
