//! Connection ids that tell by a check value that they were made here.

ghost use Rattle.std.specs.Prelude.{◌≡◌, None, Some, true, is_ok, length};
ghost use Rattle.qc_ids.specs.HashedCid.{check_bytes, hashed_cid, is_hashed_cid, mix, nonce_number};

use crate::{ConnectionIdGenerator, InvalidCid};
use qc_base::{ConnectionId, Duration};
use rand_core::Rng;

/// Makes ids of 8 bytes: three random ones, and five that a key makes of them. So an endpoint can tell
/// cheaply that most ids aren't its own, also after it was started anew. The check value is no
/// cryptographic one: who wants to can find ids that pass.
#[derive(Clone, Copy, Debug, PartialEq, Eq)]
pub struct HashedConnectionIdGenerator {
    key: u64,
    lifetime: Option<Duration>,
}

// The number of a nonce, multiplied with the key over 64 bits, and mixed.
#[tactic(auto, unfolding(crate::specs::HashedCid::mix))]
fn mix_of(key: u64, nonce: &[u8; 3]) -> u64
    ensures { result ≡ mix key nonce.now }
{
    let number = u64::from(nonce[0]) + 256 * u64::from(nonce[1]) + 65536 * u64::from(nonce[2]);
    let spread = key.wrapping_add(number).wrapping_mul(0x9E37_79B9_7F4A_7C15);
    spread ^ (spread >> 32)
}

#[tactic(auto, unfolding(crate::specs::HashedCid::check_bytes))]
fn check_of(key: u64, nonce: &[u8; 3]) -> [u8; 5]
    ensures { result ≡ check_bytes key nonce.now }
{
    let mut check = [0; 5];
    check.copy_from_slice(&mix_of(key, nonce).to_le_bytes()[..5]);
    check
}

#[tactic(auto, unfolding(crate::specs::HashedCid::hashed_cid))]
fn cid_of(key: u64, nonce: &[u8; 3]) -> ConnectionId
    ensures value { result ≡ hashed_cid key nonce.now }
    ensures size { length result ≡ 8 }
{
    let check = check_of(key, nonce);
    ConnectionId::new(&[
        nonce[0], nonce[1], nonce[2], check[0], check[1], check[2], check[3], check[4],
    ])
}

impl HashedConnectionIdGenerator {
    /// Makes ids with check values by this key. They have no lifetime.
    pub fn from_key(key: u64) -> HashedConnectionIdGenerator
        ensures { result ≡ record { key = key; lifetime = None } }
    {
        HashedConnectionIdGenerator {
            key,
            lifetime: None,
        }
    }

    /// Sets how long after their issue its ids are to be retired.
    pub fn set_lifetime(&mut self, d: Duration) -> &mut Self
        ensures same { result.ghost_name ≡ self.entry.ghost_name }
        ensures set { result.now ≡ record self.old { lifetime = Some d } }
    {
        self.lifetime = Some(d);
        self
    }
}

impl ConnectionIdGenerator for HashedConnectionIdGenerator {
    ghost use Rattle.std.specs.Prelude.{refl};
    ghost use Rattle.rand_core.specs.Stream.{fill_bytes};
    ghost use Rattle.qc_ids.specs.HashedCid.{hashed_cid, is_hashed_cid};

    ghost generated = { λ g s. hashed_cid g.key (fill_bytes 3 s).0 };

    ghost after_generation = { λ g _. g };

    ghost stream_after = { λ _ s. (fill_bytes 3 s).1 };

    ghost accepts = { λ g. is_hashed_cid g.key };

    ghost id_length = { λ _. 8 };

    ghost lifetime_of = { λ g. g.lifetime };

    #[tactic(auto, using(crate::proofs::HashedCids::own_cid))]
    fn generate_cid<R: Rng>(&mut self, rng: &mut R) -> ConnectionId {
        let mut nonce = [0; 3];
        rng.fill_bytes(&mut nonce);
        cid_of(self.key, &nonce)
    }

    #[tactic(auto, unfolding(crate::specs::HashedCid::is_hashed_cid))]
    fn validate(&self, cid: &ConnectionId) -> Result<(), InvalidCid>
        ensures { is_ok result ≡ is_hashed_cid self.now.key cid.now }
    {
        let [first, second, third, check @ ..] = cid.as_slice() else {
            return Err(InvalidCid);
        };
        if check == check_of(self.key, &[*first, *second, *third]).as_slice() {
            return Ok(());
        }
        Err(InvalidCid)
    }

    fn cid_len(&self) -> usize {
        8
    }

    fn cid_lifetime(&self) -> Option<Duration> {
        self.lifetime
    }

    ghost same_ids = { λ _ _ _. refl };

    ghost same_length = { λ _ _. refl };

    ghost same_lifetime = { λ _ _. refl };
}
