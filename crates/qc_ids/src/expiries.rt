//! When the ids that this end issued expire.

ghost use Rattle.std.specs.Prelude.{◌≡◌, ◌++◌, [], ◌∷◌, option_to_list, IfNone, IfSome, OnOk, OnErr};
ghost use Rattle.qc_ids.specs.Expiries.{expiry_of, oldest_time};

use qc_base::{Duration, Instant};
use std::alloc::{AllocError, Global};
use std::collections::VecDeque;
use std::marker::Model;

/// When ids that were issued together expire.
#[derive(Clone, Copy, Debug, PartialEq, Eq)]
pub struct CidExpiry {
    /// The time.
    pub at: Instant,
    /// One more than the sequence number of the last of them.
    pub end: u64,
}

// Lists of ids, those issued first in front. The first one takes no memory.
#[derive(Drop)]
pub(crate) struct Expiries {
    oldest: Option<CidExpiry>,
    later: VecDeque<CidExpiry>,
}

impl Model for Expiries {
    ghost use Rattle.std.specs.Prelude.{List};
    ghost use Rattle.qc_ids.specs.declared.expiries.CidExpiry.{CidExpiry};
    ghost use Rattle.qc_ids.specs.Expiries.{expiries_of, HasOldest};

    ghost Value = { List CidExpiry };

    ghost view = { λ e. expiries_of e.oldest e.later.items };

    ghost invariant = { λ e. HasOldest e.oldest e.later.items };
}

// The expiry of ids up to `end`, without it, where they have a lifetime.
fn expiry(lifetime: &Option<Duration>, now: Instant, end: u64) -> Option<CidExpiry>
    ensures { option_to_list result ≡ expiry_of lifetime.now now end }
{
    match lifetime {
        Some(lifetime) => Some(CidExpiry {
            at: now.plus(*lifetime),
            end,
        }),
        None => None,
    }
}

impl Expiries {
    // The ids below `end` are the first ones.
    pub(crate) fn new(
        alloc: Global,
        lifetime: &Option<Duration>,
        now: Instant,
        end: u64,
    ) -> Expiries
        ensures { result ≡ expiry_of lifetime.now now end }
    {
        Expiries {
            oldest: expiry(lifetime, now, end),
            later: VecDeque::new(alloc),
        }
    }

    // One more list, where its ids have a lifetime.
    pub(crate) fn push(
        &mut self,
        lifetime: &Option<Duration>,
        now: Instant,
        end: u64,
    ) -> Result<(), AllocError>
        ensures ok { OnOk result (self.new ≡ self.old ++ expiry_of lifetime.now now end) }
        ensures err { OnErr result (self.new ≡ self.old) }
    {
        let Some(expiry) = expiry(lifetime, now, end) else {
            return Ok(());
        };
        if let None = self.oldest {
            self.oldest = Some(expiry);
            return Ok(());
        }
        self.later.push_back(expiry)?;
        Ok(())
    }

    // Takes the oldest list out.
    pub(crate) fn pop(&mut self) -> Option<CidExpiry>
        ensures first { IfSome result (λ e. self.old ≡ e ∷ self.new) }
        ensures none { IfNone result (self.old ≡ []) }
        ensures unchanged { IfNone result (self.new ≡ []) }
    {
        let oldest = self.oldest;
        self.oldest = self.later.pop_front();
        oldest
    }

    // When the oldest list expires.
    pub(crate) fn first(&self) -> Option<Instant>
        ensures { result ≡ oldest_time self.now }
    {
        match self.oldest {
            Some(expiry) => Some(expiry.at),
            None => None,
        }
    }
}
