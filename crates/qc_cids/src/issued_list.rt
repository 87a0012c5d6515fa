//! Ids of this end that wait to be told to the peer.

ghost use Rattle.std.specs.Prelude.{◌≡◌, ◌≢◌, ℕ, ◌<◌, ◌≤◌, [], ◌++◌, take, length, slice_index, IfSome, IfNone, OnOk, OnErr};
ghost use Rattle.qc_cids.specs.Cids.{cid_dropped, cid_placed, first_issued};
ghost use Rattle.qc_ids.specs.LocalCids.{sequences};

use qc_base::IssuedCid;
use std::alloc::{AllocError, Global};
use std::marker::Model;

/// Ids of this end that wait to be told to the peer (RFC 9000, section 19.15), that with the lowest number first.
#[derive(Drop)]
pub struct IssuedList {
    cids: Vec<IssuedCid>,
}

impl Model for IssuedList {
    ghost use Rattle.std.specs.Prelude.{List};
    ghost use Rattle.qc_base.specs.declared.ids.IssuedCid.{IssuedCid};

    ghost Value = { List IssuedCid };

    ghost view = { λ l. l.cids.items };
}

/// The number of the id at a place.
fn number_at(cids: &[IssuedCid], place: usize) -> u64
    requires { place < length cids.now }
    ensures { result ≡ slice_index (sequences cids.now) place }
{
    cids[place].sequence
}

/// Where an id with a number takes its place: before the first whose number isn't lower.
fn place_for(cids: &[IssuedCid], sequence: u64) -> usize
    ensures within { result ≤ length cids.now }
    ensures before { (k : ℕ) → k < result → slice_index (sequences cids.now) k < sequence }
    ensures here { result < length cids.now → sequence ≤ slice_index (sequences cids.now) result }
{
    for place in 0..cids.len() {
        if sequence <= number_at(cids, place) {
            return place;
        }
    }
    cids.len()
}

/// Where the first id with a number stands.
fn place_of(cids: &[IssuedCid], sequence: u64) -> Option<usize>
    ensures found { IfSome result (λ i. (i < length cids.now) × (slice_index (sequences cids.now) i ≡ sequence)) }
    ensures first { IfSome result (λ i. (k : ℕ) → k < i → slice_index (sequences cids.now) k ≢ sequence) }
    ensures none { IfNone result ((k : ℕ) → k < length cids.now → slice_index (sequences cids.now) k ≢ sequence) }
{
    for place in 0..cids.len() {
        if number_at(cids, place) == sequence {
            return Some(place);
        }
    }
    None
}

/// An id takes its place, unless one with its number is there.
///
/// # Errors
///
/// Want of memory; nothing changes then.
#[tactic(auto, using(crate::proofs::Places::cid_place, crate::proofs::Places::cid_there))]
fn place(cids: &mut Vec<IssuedCid>, cid: IssuedCid) -> Result<(), AllocError>
    ensures placed { OnOk result (cids.new.items ≡ cid_placed cid cids.old.items) }
    ensures err { OnErr result (cids.new.items ≡ cids.old.items) }
{
    let place = place_for(cids.as_slice(), cid.sequence);
    if place < cids.len() && number_at(cids.as_slice(), place) == cid.sequence {
        return Ok(());
    }
    cids.insert(place, cid)?;
    Ok(())
}

/// Takes the id with a number out, where it is there.
#[tactic(auto, using(crate::proofs::Places::cid_out, crate::proofs::Places::cid_none))]
fn drop_cid(cids: &mut Vec<IssuedCid>, sequence: u64)
    ensures { cids.new.items ≡ cid_dropped sequence cids.old.items }
{
    if let Some(place) = place_of(cids.as_slice(), sequence) {
        cids.remove(place);
    }
}

impl IssuedList {
    /// None waits.
    pub fn new(alloc: Global) -> IssuedList
        ensures { result ≡ [] }
    {
        IssuedList {
            cids: Vec::new(alloc),
        }
    }

    /// How many wait.
    pub fn len(&self) -> usize
        ensures { result ≡ length self.now }
    {
        self.cids.len()
    }

    /// The one with the lowest number; None where none waits.
    pub fn first(&self) -> Option<IssuedCid>
        ensures { result ≡ first_issued self.now }
    {
        match self.cids.as_slice() {
            [first, ..] => Some(*first),
            [] => None,
        }
    }

    /// One waits, unless one with its number does.
    ///
    /// # Errors
    ///
    /// Want of memory; nothing changes then.
    pub fn insert(&mut self, cid: IssuedCid) -> Result<(), AllocError>
        ensures placed { OnOk result (self.new ≡ cid_placed cid self.old) }
        ensures err { OnErr result (self.new ≡ self.old) }
    {
        place(&mut self.cids, cid)
    }

    /// The one with a number waits no more.
    pub fn remove(&mut self, sequence: u64)
        ensures { self.new ≡ cid_dropped sequence self.old }
    {
        drop_cid(&mut self.cids, sequence);
    }

    /// Others wait, behind those that do.
    ///
    /// # Errors
    ///
    /// Want of memory; nothing changes then.
    pub fn append(&mut self, cids: &[IssuedCid]) -> Result<(), AllocError>
        ensures appended { OnOk result (self.new ≡ self.old ++ cids.now) }
        ensures err { OnErr result (self.new ≡ self.old) }
    {
        self.cids.extend_from_slice(cids)
    }

    /// The first ones stay, as many as are named.
    pub(crate) fn keep_first(&mut self, count: usize)
        ensures { self.new ≡ take count self.old }
    {
        self.cids.truncate(count);
    }
}
