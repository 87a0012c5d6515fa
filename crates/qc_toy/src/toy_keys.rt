//! The toy's keys without a session.

ghost use Rattle.std.specs.Prelude.{◌≡◌};
ghost use Rattle.qc_toy.specs.KeyBytes.{initial_secret};
ghost use Rattle.qc_toy.specs.Settings.{default_settings};
ghost use Rattle.qc_toy.specs.ToyKeys.{level_keys};

use crate::header_key::ToyHeaderKey;
use crate::key_bytes::{Level, secret_of_id};
use crate::keys::{keys_of_level, packet_keys_of};
use crate::packet_key::ToyPacketKey;
use crate::settings::ToySettings;
use qc_base::{ConnectionId, Side};
use qc_crypto::{KeyPair, KeySource, Keys};
use std::default::Default;

/// The keys of both ends of a toy connection, with the default limits. As a source of keys they are
/// the 1-RTT keys of each epoch.
#[derive(Clone, Copy, Debug, PartialEq, Eq)]
pub struct ToyKeys {
    /// What the keys are made of.
    pub secret: [u8; 5],
}

impl ToyKeys {
    /// The keys of the Initial space for this destination id (RFC 9001, section 5.2).
    pub fn of_id(id: &ConnectionId) -> ToyKeys
        ensures { result ≡ record { secret = initial_secret id.now } }
    {
        ToyKeys {
            secret: secret_of_id(id.as_slice()),
        }
    }

    /// The header and packet keys that the end `side` has at this level, in the first epoch.
    pub fn of_level(&self, level: Level, side: Side) -> Keys<ToyHeaderKey, ToyPacketKey>
        ensures { result ≡ level_keys default_settings self.now.secret level side }
    {
        keys_of_level(&ToySettings::default(), self.secret, level, side)
    }
}

impl KeySource<ToyPacketKey> for ToyKeys {
    ghost use Rattle.qc_toy.specs.declared.key_bytes.Level.TheVariants.{Data};
    ghost use Rattle.qc_toy.specs.ToyKeys.{packet_keys};
    ghost use Rattle.qc_toy.specs.SessionLaws.{packets_mate, packets_apart};

    ghost keys_of = { λ keys side. packet_keys default_settings keys.secret Data side };

    fn keys(&self, side: Side, epoch: u64) -> KeyPair<ToyPacketKey> {
        let settings = ToySettings::default();
        packet_keys_of(&settings, self.secret, Level::Data, side, epoch)
    }

    ghost mates = { λ keys. packets_mate default_settings default_settings keys.secret Data };

    ghost apart = { λ keys. packets_apart default_settings default_settings keys.secret Data };
}
