//! The connection ids that this end issued.

ghost use Rattle.std.specs.Prelude.{◌≡◌, ◌+◌, ◌<◌, ◌≤◌, ◌++◌, ◌⊎◌, ◌^◌, ℕ, Err, Some, None, IfOk, IfErr, IfSome, IfNone, OnOk, OnErr, length, nat_lt, is_ok, filter, not, ◌==◌, option_to_list, slice_index, ◌≢◌};
ghost use Rattle.std.specs.List.{list_any};
ghost use Rattle.qc_ids.specs.Expiries.{oldest_time};
ghost use Rattle.qc_ids.specs.LocalCids.{AreNext, allows_one_more, awaits_retirement, count_between, first_local_cids, issued_more, may_retire, newly_asked, numbers_up_to, retired, sequences, timed_out, without};
ghost use Rattle.qc_ids.specs.Numbers.{Rises};
ghost use Rattle.smallvec.specs.SmallVec.{HasRoomFor};

use crate::expiries::Expiries;
use qc_base::{Duration, Instant, IssuedCid, TransportError, TransportErrorCode};
use smallvec::SmallVec;
use std::alloc::{AllocError, Global};
use std::marker::Model;

/// The ids that this end issued to the other one, by sequence number (RFC 9000, section 5.1.1), and how they
/// are retired again when they grow old (section 5.1.2).
#[derive(Drop)]
pub struct CidState {
    active: SmallVec<u64, 8>,
    issued: u64,
    retire_prior_to: u64,
    expiries: Expiries,
    cid_len: usize,
    lifetime: Option<Duration>,
}

impl Model for CidState {
    ghost use Rattle.qc_ids.specs.LocalCids.{LocalCids};

    ghost Value = { LocalCids };

    ghost use Rattle.qc_ids.specs.CidState.{local_cids, IsHeld};

    ghost view = { local_cids };

    ghost invariant = { IsHeld };
}

// How many of the numbers lie from `low` up to, but without, `high`.
#[tactic(auto, unfolding(crate::specs::LocalCids::count_between))]
fn count(ns: &[u64], low: u64, high: u64) -> u64
    ensures { result ≡ count_between low high ns.now }
{
    ns.iter().filter(|n| low <= **n && **n < high).count() as u64
}

// Whether one of the numbers lies below `n`.
fn any_below(ns: &[u64], n: u64) -> bool
    ensures { result ≡ list_any (λ k. nat_lt k n) ns.now }
{
    ns.iter().any(|k| *k < n)
}

// The numbers of the ids of the handshake.
fn first_numbers(alloc: Global, issued: u64) -> SmallVec<u64, 8>
    requires { (issued ≡ 1) ⊎ (issued ≡ 2) }
    ensures { result.items ≡ numbers_up_to issued }
{
    let mut active = SmallVec::new(alloc);
    active.push_reserved(0);
    if issued == 2 {
        active.push_reserved(1);
    }
    active
}

// Where a number stands.
fn place_of(ns: &[u64], n: u64) -> Option<usize>
    ensures found { IfSome result (λ i. (i < length ns.now) × (slice_index ns.now i ≡ n)) }
    ensures none { IfNone result ((i : ℕ) → i < length ns.now → slice_index ns.now i ≢ n) }
{
    for (i, k) in ns.iter().enumerate() {
        if *k == n {
            return Some(i);
        }
    }
    None
}

// Takes a number out.
#[tactic(auto, using(crate::proofs::Numbers::not_there))]
fn take_out(active: &mut SmallVec<u64, 8>, sequence: u64)
    requires { Rises 0 (2 ^ 64) active.old.items }
    ensures { active.new.items ≡ without sequence active.old.items }
{
    if let Some(place) = place_of(active.as_slice(), sequence) {
        active.remove(place);
    }
}

// Adds the numbers of ids, for which there is room.
fn add_numbers(active: &mut SmallVec<u64, 8>, ids: &[IssuedCid])
    requires { HasRoomFor active.old (length ids.now) }
    ensures { active.new.items ≡ active.old.items ++ sequences ids.now }
{
    for id in ids {
        active.push_reserved(id.sequence);
    }
}

impl CidState {
    /// The ids of the handshake, under the numbers below `issued`: one, or two where a preferred address
    /// carries the second. Ids have `cid_len` bytes; with a lifetime, each one is to be retired that long
    /// after its issue. It takes no memory.
    #[tactic(auto, using(crate::proofs::Numbers::first_rises, crate::proofs::Numbers::first_ends), unfolding(crate::specs::LocalCids::first_local_cids))]
    pub fn new(
        alloc: Global,
        cid_len: usize,
        lifetime: Option<Duration>,
        now: Instant,
        issued: u64,
    ) -> CidState
        requires { (issued ≡ 1) ⊎ (issued ≡ 2) }
        ensures { result ≡ first_local_cids cid_len lifetime now issued }
    {
        CidState {
            active: first_numbers(alloc, issued),
            issued,
            retire_prior_to: 0,
            expiries: Expiries::new(alloc, &lifetime, now, issued),
            cid_len,
            lifetime,
        }
    }

    /// Takes note of ids that were issued: the next ones, in order. They expire together.
    ///
    /// # Errors
    ///
    /// Where there was no memory; nothing changes then.
    #[tactic(auto, using(crate::proofs::Numbers::more_rise, crate::proofs::Numbers::more_end, crate::proofs::Numbers::issued_none, crate::proofs::Numbers::issued_some))]
    pub fn new_cids(&mut self, ids: &[IssuedCid], now: Instant) -> Result<(), AllocError>
        requires { AreNext self.old.issued ids.now }
        ensures ok { OnOk result (self.new ≡ issued_more ids.now now self.old) }
        ensures err { OnErr result (self.new ≡ self.old) }
    {
        if ids.is_empty() {
            return Ok(());
        }
        let end = self.issued + ids.len() as u64;
        self.active.reserve(ids.len())?;
        self.expiries.push(&self.lifetime, now, end)?;
        add_numbers(&mut self.active, ids);
        self.issued = end;
        Ok(())
    }

    /// The other end retires an id (RFC 9000, section 19.16). Answers whether fewer than `limit` ids are
    /// active now, so that one more may be issued.
    ///
    /// # Errors
    ///
    /// PROTOCOL_VIOLATION exactly where this end's ids are empty, or the number wasn't issued yet. Nothing
    /// changes then.
    #[tactic(auto, using(crate::proofs::Numbers::without_rises, crate::proofs::Numbers::rises_wide), unfolding(crate::specs::LocalCids::may_retire, crate::specs::LocalCids::retired))]
    pub fn on_cid_retirement(&mut self, sequence: u64, limit: u64) -> Result<bool, TransportError>
        ensures allowed { is_ok result ≡ may_retire sequence self.old }
        ensures answer { IfOk result (λ more. more ≡ allows_one_more limit self.new) }
        ensures ok { OnOk result (self.new ≡ retired sequence self.old) }
        ensures error { IfErr result (λ e. e ≡ record { code = 10; frame = None }) }
        ensures err { OnErr result (self.new ≡ self.old) }
    {
        if self.cid_len == 0 || sequence >= self.issued {
            return Err(TransportError {
                code: TransportErrorCode::PROTOCOL_VIOLATION,
                frame: None,
            });
        }
        take_out(&mut self.active, sequence);
        Ok((self.active.len() as u64) < limit)
    }

    /// The oldest list of ids expires. The other end is asked to retire all ids up to its last one, unless it
    /// has still to retire an id that it was asked to before (RFC 9000, section 5.1.2). Answers how many
    /// active ids it is newly asked to retire: so many new ones may be issued in their stead.
    #[tactic(auto, using(crate::proofs::Numbers::tail_ends, crate::proofs::Numbers::waiting_ends))]
    pub fn on_cid_timeout(&mut self) -> u64
        ensures answer { result ≡ newly_asked self.old }
        ensures after { self.new ≡ timed_out self.old }
        ensures rises { self.old.retire_prior_to ≤ self.new.retire_prior_to }
    {
        let old = self.retire_prior_to;
        let Some(expiry) = self.expiries.pop() else {
            return 0;
        };
        if any_below(self.active.as_slice(), old) {
            return 0;
        }
        self.retire_prior_to = expiry.end;
        count(self.active.as_slice(), old, expiry.end)
    }

    /// When the oldest list of ids expires; `None` where none is to.
    pub fn next_timeout(&self) -> Option<Instant>
        ensures { result ≡ oldest_time self.now.expiries }
    {
        self.expiries.first()
    }

    /// The number below which the other end is asked to retire all ids (RFC 9000, section 19.15).
    pub fn retire_prior_to(&self) -> u64
        ensures { result ≡ self.now.retire_prior_to }
    {
        self.retire_prior_to
    }

    /// How many ids were issued: the number of the next one.
    pub fn issued(&self) -> u64
        ensures { result ≡ self.now.issued }
    {
        self.issued
    }

    /// How many bytes each id has.
    pub fn cid_len(&self) -> usize
        ensures { result ≡ self.now.cid_len }
    {
        self.cid_len
    }
}
