//! The connection ids of the other end.

ghost use Rattle.std.specs.Prelude.{◌≡◌, ◌+◌, ◌-◌, ◌<◌, ◌≤◌, ◌^◌, ◌↔◌, ◌++◌, ◌&&◌, Err, IsNone, IsSome, IfOk, IfSome, OnOk, OnErr, length, nat_lt, nat_le};
ghost use Rattle.arrayvec.specs.ArrayVec.{array_vec_len};
ghost use Rattle.qc_ids.specs.CidQueue.{ExceedsLimit, IsQueue, IsTaken, active_of, active_seq_of, after_next, first_cid, insert_answer, inserted, is_above, is_between, kept_above, kept_between, next_answer, renamed, renewal_of};

use arrayvec::ArrayVec;
use qc_base::{ConnectionId, ResetToken};
use qc_frame::NewConnectionId;
use std::default::Default;
use std::marker::Model;
use std::ops::Range;

/// Why an id of the other end isn't taken.
#[derive(Clone, Copy, Debug, PartialEq, Eq)]
pub enum InsertError {
    /// Its sequence number lies below the active one: it was retired before it came, and the other end is
    /// to be told so (RFC 9000, section 19.15).
    Retired,
    /// The other end has issued more ids than this one takes (RFC 9000, section 5.1.1).
    ExceedsLimit,
}

/// An id of the other end, by its sequence number (RFC 9000, section 5.1.1).
#[derive(Clone, Copy, Debug, PartialEq, Eq)]
pub struct KeptCid {
    /// The number that the id was issued under.
    pub sequence: u64,
    /// The id.
    pub id: ConnectionId,
    /// The token that resets a connection which uses the id; `None` where the id came without one.
    pub reset_token: Option<ResetToken>,
}

impl Default for KeptCid {
    ghost use Rattle.std.specs.Prelude.{◌≡◌, [], None};

    ghost is_default = { λ c. c ≡ record { sequence = 0; id = []; reset_token = None } };

    /// An empty id under number 0, without a token.
    fn default() -> Self {
        KeptCid {
            sequence: 0,
            id: ConnectionId::new(&[]),
            reset_token: None,
        }
    }
}

/// The ids of the other end that this end may send to: at most five, one of which is in use. It takes no
/// memory.
#[derive(Debug, Drop)]
pub struct CidQueue {
    ids: ArrayVec<KeptCid, 5>,
}

impl Model for CidQueue {
    ghost use Rattle.std.specs.Prelude.{List};
    ghost use Rattle.qc_ids.specs.declared.cid_queue.KeptCid.{KeptCid};
    ghost use Rattle.qc_ids.specs.CidQueue.{IsQueue};

    ghost Value = { List KeptCid };

    ghost view = { λ q. q.ids.items };

    ghost invariant = { λ q. IsQueue q.ids.items };
}

fn lies_between(id: &KeptCid, low: u64, high: u64) -> bool
    ensures { result ≡ is_between low high id.now }
{
    low <= id.sequence && id.sequence < high
}

// Adds those of the ids whose numbers lie from `low` up to, but without, `high`.
#[tactic(auto, using(crate::proofs::Queues::between_in, crate::proofs::Queues::between_out))]
fn push_between(out: &mut ArrayVec<KeptCid, 5>, ids: &[KeptCid], low: u64, high: u64)
    requires { length out.old.items + length (kept_between low high ids.now) ≤ 5 }
    ensures { out.new.items ≡ out.old.items ++ kept_between low high ids.now }
{
    for id in ids {
        if lies_between(id, low, high) {
            out.push(*id);
        }
    }
}

// Adds those of the ids whose numbers lie above `sequence`.
#[tactic(auto, using(crate::proofs::Queues::above_in, crate::proofs::Queues::above_out))]
fn push_above(out: &mut ArrayVec<KeptCid, 5>, ids: &[KeptCid], sequence: u64)
    requires { length out.old.items + length (kept_above sequence ids.now) ≤ 5 }
    ensures { out.new.items ≡ out.old.items ++ kept_above sequence ids.now }
{
    for id in ids {
        if sequence < id.sequence {
            out.push(*id);
        }
    }
}

// What is kept once a frame was taken.
#[tactic(auto, using(crate::proofs::Queues::room_before, crate::proofs::Queues::room_behind), unfolding(crate::specs::CidQueue::inserted))]
fn rebuilt(ids: &[KeptCid], new: &NewConnectionId) -> ArrayVec<KeptCid, 5>
    requires { IsTaken new.now ids.now }
    ensures value { result.items ≡ inserted new.now ids.now }
    ensures queue { IsQueue result.items }
{
    let mut out = ArrayVec::new();
    push_between(&mut out, ids, new.retire_prior_to, new.sequence);
    out.push(KeptCid {
        sequence: new.sequence,
        id: new.id,
        reset_token: Some(new.reset_token),
    });
    push_above(&mut out, ids, new.sequence);
    out
}

// The numbers to be retired where `active` gave way to the first of the ids, and that one's token.
#[tactic(auto, unfolding(crate::specs::CidQueue::renewal_of))]
fn renewal(ids: &[KeptCid], active: u64) -> Option<(Range<u64>, ResetToken)>
    requires { active + 5 < 2 ^ 64 }
    ensures { result ≡ renewal_of active ids.now }
{
    let [first, ..] = ids else {
        return None;
    };
    match first.reset_token {
        Some(token) => Some((active..first.sequence.min(active + 5), token)),
        None => None,
    }
}

impl CidQueue {
    /// The queue of a connection that knows one id of the other end, under number 0.
    pub fn new(cid: ConnectionId) -> CidQueue
        ensures { result ≡ first_cid cid }
    {
        let mut ids = ArrayVec::new();
        ids.push(KeptCid {
            sequence: 0,
            id: cid,
            reset_token: None,
        });
        CidQueue { ids }
    }

    /// The id that is in use.
    pub fn active(&self) -> ConnectionId
        ensures { result ≡ active_of self.now }
    {
        match self.ids.as_slice() {
            [] => ConnectionId::new(&[]),
            [first, ..] => first.id,
        }
    }

    /// Its number.
    pub fn active_seq(&self) -> u64
        ensures { result ≡ active_seq_of self.now }
    {
        match self.ids.as_slice() {
            [] => 0,
            [first, ..] => first.sequence,
        }
    }

    #[tactic(auto, using(crate::proofs::Queues::queue_few), unfolding(crate::specs::CidQueue::insert_answer))]
    /// Keeps the id of a NEW_CONNECTION_ID frame (RFC 9000, section 19.15) in the stead of one under the same
    /// number, and gives up those that the frame retires. Where the active one is among these, the least
    /// number that is kept becomes active, and the answer is the range of numbers that the other end is to be
    /// told of as retired, at most 5 of them, with the token of the new active id. Numbers further up haven't
    /// come yet; they are retired when they come.
    ///
    /// # Errors
    ///
    /// `Retired` exactly where the frame's number lies below the active one. Else `ExceedsLimit` exactly where
    /// it lies 5 or more above the active one, or above the number that the frame retires up to, where that
    /// is greater. The queue is then as before.
    pub fn insert(
        &mut self,
        cid: NewConnectionId,
    ) -> Result<Option<(Range<u64>, ResetToken)>, InsertError>
        requires order { cid.retire_prior_to ≤ cid.sequence }
        requires bound { cid.sequence < 2 ^ 62 }
        ensures retired { (result ≡ Err InsertError.Retired) ↔ (cid.sequence < active_seq_of self.old) }
        ensures exceeds { (result ≡ Err InsertError.ExceedsLimit) ↔ ExceedsLimit cid self.old }
        ensures answer { IfOk result (λ answer. answer ≡ insert_answer cid self.old) }
        ensures renews { IfOk result (λ answer. IsSome answer ↔ (active_seq_of self.old < cid.retire_prior_to)) }
        ensures kept { OnOk result (self.new ≡ inserted cid self.old) }
        ensures most { length self.new ≤ 5 }
        ensures err { OnErr result (self.new ≡ self.old) }
    {
        let active = self.active_seq();
        if cid.sequence < active {
            return Err(InsertError::Retired);
        }
        let retired = cid.retire_prior_to.saturating_sub(active);
        if cid.sequence - active >= 5 + retired {
            return Err(InsertError::ExceedsLimit);
        }
        self.ids = rebuilt(self.ids.as_slice(), &cid);
        if retired == 0 {
            return Ok(None);
        }
        Ok(renewal(self.ids.as_slice(), active))
    }

    /// Makes the next id active, and answers its token with the range of numbers that the other end is to be
    /// told of as retired, at most 4 of them. None exactly where no other id is kept; nothing changes then.
    pub fn next(&mut self) -> Option<(ResetToken, Range<u64>)>
        ensures answer { result ≡ next_answer self.old }
        ensures none { IsNone result ↔ (length self.old ≡ 1) }
        ensures few { IfSome result (λ answer. answer.1.end ≤ answer.1.start + 4) }
        ensures after { self.new ≡ after_next self.old }
    {
        let [first, second, ..] = self.ids.as_slice() else {
            return None;
        };
        let retired = first.sequence..second.sequence;
        let token = second.reset_token;
        self.ids.remove(0);
        match token {
            Some(token) => Some((token, retired)),
            None => None,
        }
    }

    /// Puts another id in the place of the active one, as when the other end chose one of its own. The reset token of
    /// the one that it replaces goes with it.
    pub fn update_initial_cid(&mut self, cid: ConnectionId)
        ensures { self.new ≡ renamed cid self.old }
    {
        if let Some(first) = self.ids.get_mut(0) {
            first.id = cid;
            first.reset_token = None;
        }
    }
}
