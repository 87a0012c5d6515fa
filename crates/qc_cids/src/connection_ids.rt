//! The connection ids of both ends of a connection.

ghost use Rattle.std.specs.Prelude.{◌≡◌, ◌<◌, ◌≤◌, ◌^◌, ◌⊎◌, IfOk, IfErr, OnOk, OnErr, None, if◌then◌else◌, is_ok};
ghost use Rattle.qc_cids.specs.Cids.{asks_anew, asks_one, can_be_told, first_ids, give_refusal, may_give, new_refusal, next_retired, next_token, next_told, preferred_cid, retires_too_many, told_with, token_by, uses_first, violation};
ghost use Rattle.qc_cids.specs.Steps.{after_step, Asked, Expired, Given, NewCame, Preferred, Renamed, RetireCame, RetireLost, RetireSealed, Switched, TellLost, TellSealed};
ghost use Rattle.qc_ids.specs.Expiries.{oldest_time};
ghost use Rattle.qc_ids.specs.LocalCids.{first_local_cids, may_retire};

use crate::giving::{GiveRefusal, bad_cid};
use crate::issued_list::IssuedList;
use crate::numbers::NumberList;
use crate::taking::NewTaken;
use qc_base::{ConnectionId, Duration, Instant, IssuedCid, ResetToken, TransportError};
use qc_frame::NewConnectionId;
use qc_ids::{CidQueue, CidState};
use std::alloc::{AllocError, Global};

/// How many numbers of ids there are: each fits a variable-length integer (RFC 9000, section 16).
const NUMBERS: u64 = 1 << 62;

/// How many retirements may wait: an end that makes its peer owe more is stopped (RFC 9000, section 5.1.2).
const MOST_RETIRED: usize = 256;

/// The connection ids of both ends of a connection (RFC 9000, section 5.1).
#[derive(Drop)]
pub struct ConnectionIds {
    /// The peer's, of which the first is in use.
    pub remote: CidQueue,
    /// Those that this end issued.
    pub local: CidState,
    /// Those of this end that wait to be told (RFC 9000, section 19.15).
    pub unsent: IssuedList,
    /// The numbers of the peer's that wait to be told as retired (RFC 9000, section 19.16).
    pub retired: NumberList,
    /// How many of this end are asked for.
    pub asked: u64,
}

/// The frame that tells an id, while ids below `floor` are to be retired.
fn told_with(floor: u64, cid: &IssuedCid) -> NewConnectionId
    ensures { result ≡ told_with floor cid.now }
{
    NewConnectionId {
        sequence: cid.sequence,
        retire_prior_to: floor.min(cid.sequence),
        id: cid.id,
        reset_token: cid.reset_token,
    }
}

/// Whether an id can be told.
fn can_be_told(cid: &IssuedCid) -> bool
    ensures { result ≡ can_be_told cid.now }
{
    cid.sequence < NUMBERS && !cid.id.is_empty()
}

/// One, or none.
fn count_of(one: bool) -> u64
    ensures { result ≡ (if one then 1 else 0) }
{
    if one { 1 } else { 0 }
}

impl ConnectionIds {
    /// The peer's first id is known, and this end issued those of the handshake, under the numbers below `issued`: one,
    /// or two where a preferred address carries the second. Its ids have `cid_len` bytes; with a lifetime, each is to be
    /// retired that long after its issue. It takes no memory.
    #[tactic(auto, unfolding(crate::specs::Cids::first_ids))]
    pub fn new(
        alloc: Global,
        remote: ConnectionId,
        cid_len: usize,
        lifetime: Option<Duration>,
        now: Instant,
        issued: u64,
    ) -> ConnectionIds
        requires { (issued ≡ 1) ⊎ (issued ≡ 2) }
        ensures { result ≡ first_ids remote (first_local_cids cid_len lifetime now issued) }
    {
        ConnectionIds {
            remote: CidQueue::new(remote),
            local: CidState::new(alloc, cid_len, lifetime, now, issued),
            unsent: IssuedList::new(alloc),
            retired: NumberList::new(alloc),
            asked: 0,
        }
    }

    /// A NEW_CONNECTION_ID came (RFC 9000, section 19.15). It is refused where packets to the peer carry no id, or where
    /// it issues more than are kept; nothing changes then. Else its id is kept, unless it was retired before it came, and
    /// the numbers that this end is to retire wait.
    ///
    /// # Errors
    ///
    /// Want of memory; nothing changes then.
    #[tactic(auto, unfolding(crate::specs::Steps::after_step, crate::specs::Steps::new_taken))]
    pub fn new_came(&mut self, cid: NewConnectionId) -> Result<NewTaken, AllocError>
        requires order { cid.retire_prior_to ≤ cid.sequence }
        requires bound { cid.sequence < 2 ^ 62 }
        ensures refused { IfOk result (λ taken. taken.refused ≡ new_refusal cid self.old.remote) }
        ensures token { IfOk result (λ taken. taken.token ≡ token_by cid self.old.remote) }
        ensures after { OnOk result (self.new ≡ after_step (NewCame cid) self.old) }
        ensures err { OnErr result (self.new ≡ self.old) }
    {
        self.retired.take_new(&mut self.remote, cid)
    }

    /// Whether more retirements wait than may (RFC 9000, section 5.1.2).
    #[tactic(auto, unfolding(crate::specs::Cids::retires_too_many))]
    pub fn retires_too_many(&self) -> bool
        ensures { result ≡ retires_too_many self.now }
    {
        self.retired.len() > MOST_RETIRED
    }

    /// Whether the id in use is the peer's first one.
    #[tactic(auto, unfolding(crate::specs::Cids::uses_first))]
    pub fn uses_first(&self) -> bool
        ensures { result ≡ uses_first self.now }
    {
        self.remote.active_seq() == 0
    }

    /// The next id of the peer is taken into use, where there is one. The answer is its reset token; the number that it
    /// replaces, and those between, wait to be told as retired.
    ///
    /// # Errors
    ///
    /// Want of memory; nothing changes then.
    #[tactic(auto, unfolding(crate::specs::Steps::after_step))]
    pub fn switch(&mut self) -> Result<Option<ResetToken>, AllocError>
        ensures token { IfOk result (λ token. token ≡ next_token self.old.remote) }
        ensures after { OnOk result (self.new ≡ after_step Switched self.old) }
        ensures err { OnErr result (self.new ≡ self.old) }
    {
        self.retired.take_next(&mut self.remote)
    }

    /// The peer chose another id in the place of the one in use, as with a Retry or its first Initial packet (RFC 9000,
    /// section 7.2).
    #[tactic(auto, unfolding(crate::specs::Steps::after_step))]
    pub fn rename(&mut self, id: ConnectionId)
        ensures { self.new ≡ after_step (Renamed id) self.old }
    {
        self.remote.update_initial_cid(id);
    }

    /// The peer named an id with the preferred address of its transport parameters: it has the number 1 (RFC 9000,
    /// section 5.1.1), and is kept like one of a frame.
    #[tactic(auto, unfolding(crate::specs::Steps::after_step))]
    pub fn prefer(&mut self, id: ConnectionId, reset_token: ResetToken)
        ensures { self.new ≡ after_step (Preferred (preferred_cid id reset_token)) self.old }
    {
        let _ = self.remote.insert(NewConnectionId {
            sequence: 1,
            retire_prior_to: 0,
            id,
            reset_token,
        });
    }

    /// A RETIRE_CONNECTION_ID came (RFC 9000, section 19.16), where `limit` ids may be active. The answer says whether
    /// one more is asked for.
    ///
    /// # Errors
    ///
    /// PROTOCOL_VIOLATION exactly where this end's ids are empty, or the number wasn't issued yet. Nothing changes then.
    #[tactic(auto, using(crate::proofs::Leaving::leaves_retired), unfolding(crate::specs::Steps::after_step, crate::specs::Cids::asks_one, crate::specs::Cids::asked_more))]
    pub fn retire_came(&mut self, limit: u64, sequence: u64) -> Result<bool, TransportError>
        ensures allowed { is_ok result ≡ may_retire sequence self.old.local }
        ensures asks { IfOk result (λ asks. asks ≡ asks_one limit sequence self.old) }
        ensures error { IfErr result (λ error. error ≡ violation) }
        ensures after { self.new ≡ after_step (RetireCame limit sequence) self.old }
    {
        let asks = self.local.on_cid_retirement(sequence, limit)?;
        self.ask(count_of(asks));
        Ok(asks)
    }

    /// So many ids of this end are asked for.
    #[tactic(auto, unfolding(crate::specs::Steps::after_step, crate::specs::Cids::asked_more))]
    pub fn ask(&mut self, count: u64)
        ensures { self.new ≡ after_step (Asked count) self.old }
    {
        self.asked = self.asked.saturating_add(count);
    }

    /// How many ids may be given.
    #[tactic(auto, unfolding(crate::specs::Cids::may_give))]
    pub fn may_give(&self) -> u64
        ensures { result ≡ may_give self.now }
    {
        self.asked.min(NUMBERS.saturating_sub(self.local.issued()))
    }

    /// Why ids may not be given, if they may not.
    #[tactic(auto, unfolding(crate::specs::Cids::give_refusal))]
    pub fn give_refusal(&self, ids: &[IssuedCid]) -> Option<GiveRefusal>
        ensures { result ≡ give_refusal ids.now self.now }
    {
        let asked = self.may_give();
        let given = ids.len() as u64;
        if asked < given {
            return Some(GiveRefusal::NotAsked { asked, given });
        }
        bad_cid(ids, self.local.cid_len(), self.local.issued())
    }

    /// Ids of this end that were asked for are given; they wait to be told.
    ///
    /// # Errors
    ///
    /// Want of memory; nothing changes then.
    #[tactic(auto, using(crate::proofs::NextIds::may_be_given), unfolding(crate::specs::Steps::after_step))]
    pub fn give(&mut self, ids: &[IssuedCid], now: Instant) -> Result<(), AllocError>
        requires { give_refusal ids.now self.old ≡ None }
        ensures after { OnOk result (self.new ≡ after_step (Given ids.now now) self.old) }
        ensures err { OnErr result (self.new ≡ self.old) }
    {
        let waiting = self.unsent.len();
        self.unsent.append(ids)?;
        if let Err(lack) = self.local.new_cids(ids, now) {
            self.unsent.keep_first(waiting);
            return Err(lack);
        }
        self.asked -= ids.len() as u64;
        Ok(())
    }

    /// The oldest ids of this end grew old (RFC 9000, section 5.1.2). The answer says how many are asked for in their
    /// place.
    #[tactic(auto, unfolding(crate::specs::Steps::after_step, crate::specs::Cids::asks_anew))]
    pub fn expire(&mut self) -> u64
        ensures asks { result ≡ asks_anew self.old }
        ensures after { self.new ≡ after_step Expired self.old }
    {
        self.local.on_cid_timeout()
    }

    /// When the oldest ids of this end grow old; None where none is to.
    pub fn next_timeout(&self) -> Option<Instant>
        ensures { result ≡ oldest_time self.now.local.expiries }
    {
        self.local.next_timeout()
    }

    /// The NEW_CONNECTION_ID that goes next, where one waits: that of the id with the lowest number.
    #[tactic(auto, unfolding(crate::specs::Cids::next_told))]
    pub fn next_told(&self) -> Option<NewConnectionId>
        ensures { result ≡ next_told self.now }
    {
        let cid = self.unsent.first()?;
        if !can_be_told(&cid) {
            return None;
        }
        Some(told_with(self.local.retire_prior_to(), &cid))
    }

    /// The number of the RETIRE_CONNECTION_ID that goes next, where one waits: the lowest.
    #[tactic(auto, unfolding(crate::specs::Cids::next_retired))]
    pub fn next_retired(&self) -> Option<u64>
        ensures { result ≡ next_retired self.now }
    {
        let number = self.retired.first()?;
        if number < NUMBERS { Some(number) } else { None }
    }

    /// A NEW_CONNECTION_ID with a number was sealed.
    #[tactic(auto, unfolding(crate::specs::Steps::after_step))]
    pub fn told(&mut self, sequence: u64)
        ensures { self.new ≡ after_step (TellSealed sequence) self.old }
    {
        self.unsent.remove(sequence);
    }

    /// A RETIRE_CONNECTION_ID of a number was sealed.
    #[tactic(auto, unfolding(crate::specs::Steps::after_step))]
    pub fn retirement_told(&mut self, sequence: u64)
        ensures { self.new ≡ after_step (RetireSealed sequence) self.old }
    {
        self.retired.remove(sequence);
    }

    /// The NEW_CONNECTION_ID that told an id was lost: it waits again.
    ///
    /// # Errors
    ///
    /// Want of memory; nothing changes then.
    #[tactic(auto, unfolding(crate::specs::Steps::after_step))]
    pub fn tell_lost(&mut self, cid: IssuedCid) -> Result<(), AllocError>
        ensures after { OnOk result (self.new ≡ after_step (TellLost cid) self.old) }
        ensures err { OnErr result (self.new ≡ self.old) }
    {
        self.unsent.insert(cid)
    }

    /// The RETIRE_CONNECTION_ID of a number was lost: it waits again.
    ///
    /// # Errors
    ///
    /// Want of memory; nothing changes then.
    #[tactic(auto, unfolding(crate::specs::Steps::after_step))]
    pub fn retire_lost(&mut self, sequence: u64) -> Result<(), AllocError>
        ensures after { OnOk result (self.new ≡ after_step (RetireLost sequence) self.old) }
        ensures err { OnErr result (self.new ≡ self.old) }
    {
        self.retired.insert(sequence)
    }
}
