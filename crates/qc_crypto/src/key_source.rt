//! Where the keys of each epoch come from, for key rings without a session.

ghost use Rattle.std.specs.Prelude.{◌≡◌, ◌≢◌, ℕ, ◌<◌, ◌^◌};
ghost use Rattle.qc_base.specs.declared.side.Side.{Side};
ghost use Rattle.qc_crypto.specs.declared.keys.KeyPair.{KeyPair};
ghost use Rattle.qc_crypto.specs.Mates.{ArePacketMates, ArePacketsApart};

use crate::{KeyPair, PacketKey};
use qc_base::Side;

/// The 1-RTT keys of both ends of one connection, epoch by epoch (RFC 9001, section 6).
pub trait KeySource<P: PacketKey>: Drop {
    ghost keys_of: { Self → Side → ℕ → KeyPair P };

    /// The keys of the end `side` in this epoch, 0 being the first.
    fn keys(&self, side: Side, epoch: u64) -> KeyPair<P>
        ensures { result ≡ keys_of self.now side epoch };

    // In one epoch the ends open what each other seals, and what was sealed in another, they don't.
    ghost mates: { (source : Self) (epoch : ℕ) → ArePacketMates P.seal P.opening (keys_of source Side.Client epoch) (keys_of source Side.Server epoch) };

    ghost apart: { (source : Self) (one other : ℕ) → one < 2 ^ 64 → other < 2 ^ 64 → one ≢ other → ArePacketsApart P.seal P.opening (keys_of source Side.Client one) (keys_of source Side.Server other) };
}
