//! A set of streams.

ghost use Rattle.std.specs.Prelude.{◌≡◌, [], OnOk, OnErr};
ghost use Rattle.qc_turns.specs.Ids.{first_id, with_id, without_id};

use std::alloc::{AllocError, Global};
use std::collections::BTreeSet;
use std::marker::Model;

/// Streams of a set.
#[derive(Drop)]
pub struct Ids {
    set: BTreeSet<u64>,
}

impl Model for Ids {
    ghost use Rattle.std.specs.Prelude.{ℕ, List};

    ghost Value = { List ℕ };

    ghost view = { λ i. i.set.keys };
}

impl Ids {
    /// No stream.
    pub fn new(alloc: Global) -> Ids
        ensures { result ≡ [] }
    {
        Ids {
            set: BTreeSet::new(alloc),
        }
    }

    /// A stream comes in.
    ///
    /// # Errors
    ///
    /// Want of memory; nothing changes then.
    pub fn insert(&mut self, id: u64) -> Result<(), AllocError>
        ensures added { OnOk result (self.new ≡ with_id id self.old) }
        ensures err { OnErr result (self.new ≡ self.old) }
    {
        self.set.insert(id)?;
        Ok(())
    }

    /// A stream leaves.
    pub fn remove(&mut self, id: u64)
        ensures { self.new ≡ without_id id self.old }
    {
        self.set.remove(&id);
    }

    /// The streams, in ascending order.
    pub fn as_set(&self) -> &BTreeSet<u64>
        ensures { result.now.keys ≡ self.now }
    {
        &self.set
    }

    /// The least of them; None where there is none.
    pub fn first(&self) -> Option<u64>
        ensures { result ≡ first_id self.now }
    {
        match self.set.first() {
            Some(id) => Some(*id),
            None => None,
        }
    }
}
