//! The toy's keys of one end.

ghost use Rattle.std.specs.Prelude.{◌≡◌};
ghost use Rattle.qc_toy.specs.ToyKeys.{other_side, packet_keys, level_keys};

use crate::header_key::ToyHeaderKey;
use crate::key_bytes::Level;
use crate::packet_key::ToyPacketKey;
use crate::settings::ToySettings;
use qc_base::Side;
use qc_crypto::{KeyPair, Keys};

fn peer_of(side: Side) -> Side
    ensures { result ≡ other_side side }
{
    match side {
        Side::Client => Side::Server,
        Side::Server => Side::Client,
    }
}

/// The packet keys of the end `side` in an epoch.
pub(crate) fn packet_keys_of(
    settings: &ToySettings,
    secret: [u8; 5],
    level: Level,
    side: Side,
    epoch: u64,
) -> KeyPair<ToyPacketKey>
    ensures { result ≡ packet_keys settings.now secret level side epoch }
{
    KeyPair {
        local: ToyPacketKey::new(settings, secret, level, side, epoch),
        remote: ToyPacketKey::new(settings, secret, level, peer_of(side), epoch),
    }
}

/// The header and packet keys of the end `side`, in the first epoch.
pub(crate) fn keys_of_level(
    settings: &ToySettings,
    secret: [u8; 5],
    level: Level,
    side: Side,
) -> Keys<ToyHeaderKey, ToyPacketKey>
    ensures { result ≡ level_keys settings.now secret level side }
{
    Keys {
        header: KeyPair {
            local: ToyHeaderKey::new(secret, level, side),
            remote: ToyHeaderKey::new(secret, level, peer_of(side)),
        },
        packet: packet_keys_of(settings, secret, level, side, 0),
    }
}
