//! Where the connection ids of this end come from.

ghost use Rattle.std.specs.Prelude.{◌≡◌, ◌≤◌, ℕ, List, Bool, true, false, Option, None, Some, OnErr, length};
ghost use Rattle.rand_core.specs.Stream.{Stream};
ghost use Rattle.qc_ids.specs.RandomIds.{random_ids};

use qc_base::{ConnectionId, Duration};
use rand_core::Rng;
use std::default::Default;
use std::marker::Model;

/// The id isn't one that the generator makes.
#[derive(Clone, Copy, Debug, PartialEq, Eq)]
pub struct InvalidCid;

/// What makes the connection ids that this end issues (RFC 9000, section 5.1).
///
/// An id must not tell anyone but its issuer which other ids belong to the same connection.
pub trait ConnectionIdGenerator: Drop {
    // The id that is made of a random source.
    ghost generated: { Self → Stream → List ℕ };

    // The generator that is left.
    ghost after_generation: { Self → Stream → Self };

    // What is left of the random source.
    ghost stream_after: { Self → Stream → Stream };

    // Whether the generator takes an id for one of its own.
    ghost accepts: { Self → List ℕ → Bool } = { λ _ _. true };

    // How many bytes each id has.
    ghost id_length: { Self → ℕ };

    // How long after its issue an id is to be retired, in nanoseconds; `None` where it isn't.
    ghost lifetime_of: { Self → Option ℕ };

    /// Makes an id. It has [`cid_len`](Self::cid_len) bytes, and [`validate`](Self::validate) takes it.
    fn generate_cid<R: Rng>(&mut self, rng: &mut R) -> ConnectionId
        ensures id { result ≡ generated self.old (R.stream rng.old) }
        ensures after { self.new ≡ after_generation self.old (R.stream rng.old) }
        ensures drawn { R.stream rng.new ≡ stream_after self.old (R.stream rng.old) }
        ensures size { length result ≡ id_length self.old }
        ensures own { accepts self.old result ≡ true };

    /// Looks quickly whether this generator may have made the id. It takes each id that it made, and may
    /// take others. By default it takes all.
    ///
    /// # Errors
    ///
    /// Only where the generator knows that it didn't make `cid`.
    fn validate(&self, cid: &ConnectionId) -> Result<(), InvalidCid>
        ensures { OnErr result (accepts self.now cid.now ≡ false) }
    {
        let _ = cid;
        Ok(())
    }

    /// How many bytes each id has: at most 20.
    fn cid_len(&self) -> usize
        ensures value { result ≡ id_length self.now }
        ensures most { result ≤ 20 };

    /// How long after its issue an id is to be retired; `None` where it isn't.
    fn cid_lifetime(&self) -> Option<Duration>
        ensures { result ≡ lifetime_of self.now };

    // What is promised of an id, its length and lifetime stays so.
    ghost same_ids: { (g : Self) (s : Stream) (id : List ℕ) → accepts (after_generation g s) id ≡ accepts g id };

    ghost same_length: { (g : Self) (s : Stream) → id_length (after_generation g s) ≡ id_length g };

    ghost same_lifetime: { (g : Self) (s : Stream) → lifetime_of (after_generation g s) ≡ lifetime_of g };
}

/// Makes ids of random bytes alone, so that [`validate`](ConnectionIdGenerator::validate) takes every id.
#[derive(Clone, Copy, Debug, PartialEq, Eq)]
pub struct RandomConnectionIdGenerator {
    cid_len: usize,
    lifetime: Option<Duration>,
}

impl Model for RandomConnectionIdGenerator {
    ghost use Rattle.std.specs.Prelude.{◌≤◌};
    ghost use Rattle.qc_ids.specs.RandomIds.{RandomIds, random_ids};

    ghost Value = { RandomIds };

    ghost view = { λ g. random_ids g.cid_len g.lifetime };

    ghost invariant = { λ g. g.cid_len ≤ 20 };

    ghost inverse = { λ g. record { cid_len = g.cid_len; lifetime = g.lifetime } };
}

impl RandomConnectionIdGenerator {
    /// Makes ids of `cid_len` bytes, at most 20, which have no lifetime.
    pub fn new(cid_len: usize) -> RandomConnectionIdGenerator
        requires { cid_len ≤ 20 }
        ensures { result ≡ random_ids cid_len None }
    {
        RandomConnectionIdGenerator {
            cid_len,
            lifetime: None,
        }
    }

    /// Sets how long after their issue its ids are to be retired.
    pub fn set_lifetime(&mut self, d: Duration) -> &mut Self
        ensures same { result.ghost_name ≡ self.entry.ghost_name }
        ensures set { result.now ≡ record self.old { lifetime = Some d } }
    {
        self.lifetime = Some(d);
        self
    }
}

impl Default for RandomConnectionIdGenerator {
    ghost use Rattle.std.specs.Prelude.{◌≡◌, None};
    ghost use Rattle.qc_ids.specs.RandomIds.{random_ids};

    ghost is_default = { λ g. g ≡ random_ids 8 None };

    /// Ids of 8 bytes, without a lifetime.
    fn default() -> Self {
        RandomConnectionIdGenerator::new(8)
    }
}

impl ConnectionIdGenerator for RandomConnectionIdGenerator {
    ghost use Rattle.std.specs.Prelude.{refl};
    ghost use Rattle.rand_core.specs.Stream.{fill_bytes};

    ghost generated = { λ g s. (fill_bytes g.cid_len s).0 };

    ghost after_generation = { λ g _. g };

    ghost stream_after = { λ g s. (fill_bytes g.cid_len s).1 };

    ghost id_length = { λ g. g.cid_len };

    ghost lifetime_of = { λ g. g.lifetime };

    fn generate_cid<R: Rng>(&mut self, rng: &mut R) -> ConnectionId {
        let len = self.cid_len;
        let mut bytes = [0; 20];
        rng.fill_bytes(&mut bytes[..len]);
        ConnectionId::new(&bytes[..len])
    }

    fn cid_len(&self) -> usize {
        self.cid_len
    }

    fn cid_lifetime(&self) -> Option<Duration> {
        self.lifetime
    }

    ghost same_ids = { λ _ _ _. refl };

    ghost same_length = { λ _ _. refl };

    ghost same_lifetime = { λ _ _. refl };
}
