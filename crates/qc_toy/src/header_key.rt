//! The toy's header keys.

ghost use Rattle.std.specs.Prelude.{◌≡◌};
ghost use Rattle.qc_toy.specs.ToyKeys.{header_key};

use crate::cipher::mask_of_sample;
use crate::key_bytes::{Level, Usage, bytes_of_key};
use qc_base::{HeaderMask, Side, mask_packet, unmask_packet};
use qc_crypto::HeaderKey;

/// A header key: 16 bytes.
#[derive(Clone, Copy, Debug, PartialEq, Eq)]
pub struct ToyHeaderKey {
    bytes: [u8; 16],
}

impl ToyHeaderKey {
    /// The header key of packets of this level that `from` sends.
    pub fn new(secret: [u8; 5], level: Level, from: Side) -> ToyHeaderKey
        ensures { result ≡ header_key secret level from }
    {
        ToyHeaderKey {
            bytes: bytes_of_key(secret, level, from, Usage::Header, 0),
        }
    }
}

impl HeaderMask for ToyHeaderKey {
    ghost use Rattle.qc_toy.specs.Cipher.{toy_mask};

    ghost mask_of = { λ key. toy_mask key.bytes };

    fn mask(&self, sample: &[u8]) -> [u8; 5] {
        mask_of_sample(&self.bytes, sample)
    }
}

impl HeaderKey for ToyHeaderKey {
    fn encrypt(&self, pn_offset: usize, packet: &mut [u8]) {
        mask_packet(self, pn_offset, packet);
    }

    fn decrypt(&self, pn_offset: usize, packet: &mut [u8]) {
        unmask_packet(self, pn_offset, packet);
    }

    fn sample_size(&self) -> usize {
        16
    }
}
