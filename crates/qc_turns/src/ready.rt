//! Streams that take turns.

ghost use Rattle.std.specs.Prelude.{◌≡◌, [], OnOk, OnErr};
ghost use Rattle.qc_turns.specs.Ready.{next_turn, with_place, without_place};

use std::alloc::{AllocError, Global};
use std::collections::BTreeMap;
use std::marker::Model;

/// A rank, the least first, and a turn within it.
pub type Place = (i64, u64);

/// Streams that take turns, each at its place.
#[derive(Drop)]
pub struct Ready {
    places: BTreeMap<Place, u64>,
}

impl Model for Ready {
    ghost use Rattle.std.specs.Prelude.{ℕ, ℤ, List};

    ghost Value = { List ((ℤ × ℕ) × ℕ) };

    ghost view = { λ r. r.places.entries };
}

impl Ready {
    /// No stream.
    pub fn new(alloc: Global) -> Ready
        ensures { result ≡ [] }
    {
        Ready {
            places: BTreeMap::new(alloc),
        }
    }

    /// A stream takes a place.
    ///
    /// # Errors
    ///
    /// Want of memory; nothing changes then.
    #[inline(always)]
    pub fn insert(&mut self, place: Place, id: u64) -> Result<(), AllocError>
        ensures added { OnOk result (self.new ≡ with_place place id self.old) }
        ensures err { OnErr result (self.new ≡ self.old) }
    {
        self.places.insert(place, id)?;
        Ok(())
    }

    /// A place is given up.
    #[inline(always)]
    pub fn remove(&mut self, place: Place)
        ensures { self.new ≡ without_place place self.old }
    {
        self.places.remove(&place);
    }

    /// The streams, each under its place.
    pub fn as_map(&self) -> &BTreeMap<Place, u64>
        ensures { result.now.entries ≡ self.now }
    {
        &self.places
    }

    /// The stream whose turn is next; None where there is none.
    pub fn first(&self) -> Option<u64>
        ensures { result ≡ next_turn self.now }
    {
        match self.places.first_key_value() {
            Some((_, id)) => Some(*id),
            None => None,
        }
    }
}
