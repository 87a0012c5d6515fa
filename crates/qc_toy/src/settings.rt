//! What the toy's sessions and keys are set up with.

use std::default::Default;

/// The settings of a toy session.
#[derive(Clone, Copy, Debug, PartialEq, Eq)]
pub struct ToySettings {
    /// The secret of all keys but the Initial ones. Sessions with equal secrets are paired.
    pub secret: [u8; 5],
    /// How many packets an Initial key may seal.
    pub limit_initial: u64,
    /// How many packets a Handshake key may seal.
    pub limit_handshake: u64,
    /// How many packets a 1-RTT key, or a 0-RTT key, may seal.
    pub limit_data: u64,
    /// How many packets may fail to open.
    pub limit_failures: u64,
    /// Whether there are 0-RTT keys.
    pub early: bool,
}

impl Default for ToySettings {
    ghost use Rattle.std.specs.Prelude.{◌≡◌};
    ghost use Rattle.qc_toy.specs.Settings.{default_settings};

    ghost is_default = { λ settings. settings ≡ default_settings };

    /// A secret of zeros, 2^23 packets a key, 2^52 failures, and no 0-RTT.
    fn default() -> ToySettings {
        ToySettings {
            secret: [0; 5],
            limit_initial: 0x80_0000,
            limit_handshake: 0x80_0000,
            limit_data: 0x80_0000,
            limit_failures: 0x10_0000_0000_0000,
            early: false,
        }
    }
}
