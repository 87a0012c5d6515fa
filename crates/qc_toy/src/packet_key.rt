//! The toy's packet keys.

ghost use Rattle.std.specs.Prelude.{◌≡◌};
ghost use Rattle.qc_toy.specs.Settings.{limit_of};
ghost use Rattle.qc_toy.specs.ToyKeys.{packet_key};

use crate::cipher::{open_in_place, seal_in_place};
use crate::key_bytes::{Level, Usage, bytes_of_key};
use crate::settings::ToySettings;
use bytes::BytesMut;
use qc_base::Side;
use qc_crypto::{CryptoError, PacketKey};

/// A packet key: 16 bytes, and how often it may be used.
#[derive(Clone, Copy, Debug, PartialEq, Eq)]
pub struct ToyPacketKey {
    bytes: [u8; 16],
    seals: u64,
    failures: u64,
}

impl ToyPacketKey {
    pub(crate) fn new(
        settings: &ToySettings,
        secret: [u8; 5],
        level: Level,
        from: Side,
        epoch: u64,
    ) -> ToyPacketKey
        ensures { result ≡ packet_key settings.now secret level from epoch }
    {
        ToyPacketKey {
            bytes: bytes_of_key(secret, level, from, Usage::Packet, epoch),
            seals: limit_at(settings, level),
            failures: settings.limit_failures,
        }
    }
}

fn limit_at(settings: &ToySettings, level: Level) -> u64
    ensures { result ≡ limit_of settings.now level }
{
    match level {
        Level::Initial => settings.limit_initial,
        Level::Handshake => settings.limit_handshake,
        Level::Data | Level::Early => settings.limit_data,
    }
}

impl PacketKey for ToyPacketKey {
    ghost use Rattle.qc_toy.specs.Cipher.{toy_seal, toy_opening};
    ghost use Rattle.qc_toy.specs.CipherLaws.{length-toy_seal, opened_length as toy_opened_length};

    ghost seal = { λ key. toy_seal key.bytes };

    ghost opening = { λ key. toy_opening key.bytes };

    ghost seal_limit = { λ key. key.seals };

    ghost failure_limit = { λ key. key.failures };

    fn encrypt(&self, packet: u64, buf: &mut [u8], header_len: usize) {
        seal_in_place(&self.bytes, packet, buf, header_len);
    }

    #[tactic(auto, unfolding(crate::specs::Cipher::toy_opening))]
    fn decrypt(
        &self,
        packet: u64,
        header: &[u8],
        payload: &mut BytesMut,
    ) -> Result<(), CryptoError> {
        let len = payload.len();
        if len < 16 {
            return Err(CryptoError);
        }
        if !open_in_place(&self.bytes, packet, header, payload.as_mut_slice()) {
            return Err(CryptoError);
        }
        payload.truncate(len - 16);
        Ok(())
    }

    fn tag_len(&self) -> usize {
        16
    }

    fn confidentiality_limit(&self) -> u64 {
        self.seals
    }

    fn integrity_limit(&self) -> u64 {
        self.failures
    }

    ghost sealed_length = { λ key. length-toy_seal key.bytes };

    ghost opened_length = { λ key. toy_opened_length key.bytes };
}
