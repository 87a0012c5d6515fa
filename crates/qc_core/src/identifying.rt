//! The moves about connection ids, one function each.

ghost use Rattle.std.specs.Prelude.{◌≡◌, ◌∷◌, ◌++◌, ◌&&◌, [], ◌≤◌, ◌<◌, ◌^◌, None, if◌then◌else◌, IfOk, OnOk};
ghost use Rattle.qc_cids.specs.Cids.{asks_anew, asks_one, give_refusal, next_token, token_by, uses_first};
ghost use Rattle.qc_cids.specs.Steps.{Given, NewCame, RetireCame, Switched, after};
ghost use Rattle.qc_frame.specs.FrameSpelling.{spelling};
ghost use Rattle.qc_frame.specs.declared.frames.FrameOf.TheVariants as frames;
ghost use Rattle.qc_ids.specs.CidQueue.{active_of};
ghost use Rattle.qc_ids.specs.LocalCids.{may_retire};
ghost use Rattle.qc_state.specs.Ids.{active_limit, insert_stop, owes_too_many, is_server, retire_stop};
ghost use Rattle.qc_frame.specs.Frame.{borrowed};
ghost use Rattle.qc_state.specs.Life.{retirement_told, token_told};
ghost use Rattle.qc_state.specs.Moves.{Insert, Issue, Outlive, Retire, Switch, move_to, state_move};
ghost use Rattle.qc_state.specs.View.{held, ideal};

use crate::state::Core;
use qc_base::{Instant, IssuedCid, Side, TransportError, TransportErrorCode};
use qc_cids::ConnectionIds;
use qc_frame::{Frame, FrameOf, NewConnectionId};
use qc_params::TransportParameters;
use qc_state::{Did, Dids, Given, Layer, Life, Suite};
use std::alloc::{AllocError, Global};
use std::net::SocketAddr;

/// How many may be active before the peer's parameters were read (RFC 9000, 18.2).
const LEAST_ACTIVE: u64 = 2;

/// How many ids of this end the peer lets be active at a time, of those that are issued at most.
#[tactic(auto, unfolding(qc_state::specs::Ids::active_limit))]
pub(crate) fn active_limit(peer: &Option<TransportParameters>) -> u64
    ensures { result ≡ active_limit peer.now }
{
    match peer {
        None => LEAST_ACTIVE,
        Some(parameters) => parameters.issue_cids_limit(),
    }
}

/// A frame is told as given to the ids, as it is spelled. Want of memory is the only refusal.
fn tell_ids(alloc: Global, did: &mut Dids, frame: &Frame<'_>) -> Result<(), AllocError>
    ensures { OnOk result (did.new ≡ did.old ++ Did.Gave Layer.Ids (spelling (borrowed frame.now)) ∷ []) }
{
    let frame = frame.to_owned(alloc)?;
    did.push_gave(Layer::Ids, Given::of_frame(frame))
}

/// CONNECTION_ID_LIMIT_ERROR, where more retirements wait than may (RFC 9000, 5.1.2).
#[tactic(auto, unfolding(qc_state::specs::Ids::owes_too_many))]
fn owes_too_many(ids: &ConnectionIds) -> Option<TransportError>
    ensures { result ≡ owes_too_many ids.now }
{
    if ids.retires_too_many() {
        return Some(TransportError {
            code: TransportErrorCode::CONNECTION_ID_LIMIT_ERROR,
            frame: None,
        });
    }
    None
}

/// A NEW_CONNECTION_ID came, whose reset token waits to be reported where its id is taken into use. Answers the error with which it stops its packet, if it does.
/// Want of memory is the only refusal of the call.
#[tactic(auto, unfolding(qc_cids::specs::Steps::after, qc_state::specs::Ids::insert_stop))]
fn insert(
    ids: &mut ConnectionIds,
    life: &mut Life,
    remote: SocketAddr,
    new: &NewConnectionId,
) -> Result<Option<TransportError>, AllocError>
    requires order { new.now.retire_prior_to ≤ new.now.sequence }
    requires bound { new.now.sequence < 2 ^ 62 }
    ensures stop { IfOk result (λ stop. stop ≡ insert_stop new.now ids.old) }
    ensures ids { OnOk result (ids.new ≡ after (NewCame new.now ∷ []) ids.old) }
    ensures told { OnOk result (life.new ≡ token_told life.old remote (token_by new.now ids.old.remote)) }
{
    let taken = ids.new_came(*new)?;
    life.tell_token(remote, taken.token)?;
    match taken.refused {
        Some(error) => Ok(Some(error)),
        None => Ok(owes_too_many(ids)),
    }
}

/// The next id of the peer is taken into use, whose reset token waits to be reported. Want of memory is the only refusal.
#[tactic(auto, unfolding(qc_cids::specs::Steps::after))]
fn switch(ids: &mut ConnectionIds, life: &mut Life, remote: SocketAddr) -> Result<(), AllocError>
    ensures ids { OnOk result (ids.new ≡ after (Switched ∷ []) ids.old) }
    ensures told { OnOk result (life.new ≡ token_told life.old remote (next_token ids.old.remote)) }
{
    let token = ids.switch()?;
    life.tell_token(remote, token)
}

/// A RETIRE_CONNECTION_ID came, which waits to be reported where it is taken. Answers the error with which it stops its packet, if it does.
/// Want of memory is the only refusal of the call.
#[tactic(auto, unfolding(qc_cids::specs::Steps::after, qc_state::specs::Ids::retire_stop))]
fn retire(
    ids: &mut ConnectionIds,
    life: &mut Life,
    now: Instant,
    limit: u64,
    sequence: u64,
) -> Result<Option<TransportError>, AllocError>
    ensures stop { IfOk result (λ stop. stop ≡ retire_stop sequence ids.old) }
    ensures ids { OnOk result (ids.new ≡ after (RetireCame limit sequence ∷ []) ids.old) }
    ensures told { OnOk result (life.new ≡ (if may_retire sequence ids.old.local then retirement_told life.old now sequence (asks_one limit sequence ids.old) else life.old)) }
{
    match ids.retire_came(limit, sequence) {
        Err(error) => Ok(Some(error)),
        Ok(more) => {
            life.tell_retirement(now, sequence, more)?;
            Ok(None)
        }
    }
}

#[tactic(auto, unfolding(qc_state::specs::Moves::move_to, qc_state::specs::Moves::state_move, qc_state::specs::Moves::numbers_move, qc_state::specs::Moves::keys_move, qc_state::specs::Moves::life_move, qc_state::specs::Moves::paths_move, qc_state::specs::Moves::timers_move, qc_state::specs::Moves::waiting_move, qc_state::specs::Moves::setup_move, qc_state::specs::Moves::lower_move, qc_state::specs::Lower::ids_stepped, qc_cids::specs::Steps::after, qc_state::specs::Setup::ideal_setup, qc_state::specs::Moves::deeds_move))]
impl<U: Suite> Core<U> {
    /// Whether this end is a server that still sends to the id of its client's first packets.
    pub fn uses_first_id(&self) -> bool
        ensures { result ≡ (is_server self.now.setup.fixed.side && uses_first self.now.lower.ids) }
    {
        match self.setup.fixed.side {
            Side::Client => false,
            Side::Server => self.lower.ids.uses_first(),
        }
    }

    /// The ids are handed a NEW_CONNECTION_ID. Answers the error with which it stops its packet, if it does. Want of memory is the only
    /// refusal of the call.
    pub fn do_insert(
        &mut self,
        alloc: Global,
        did: &mut Dids,
        new: NewConnectionId,
    ) -> Result<Option<TransportError>, AllocError>
        requires order { new.retire_prior_to ≤ new.sequence }
        requires bound { new.sequence < 2 ^ 62 }
        ensures stop { IfOk result (λ stop. stop ≡ insert_stop new self.old.lower.ids) }
        ensures leads { OnOk result ((held U.Random.stream self.new did.new) ≡ move_to (Insert new) (held U.Random.stream self.old did.old)) }
    {
        tell_ids(alloc, did, &FrameOf::NewConnectionId(new))?;
        let remote = self.paths.current.remote;
        let ids = &mut self.lower.ids;
        let stop = insert(ids, &mut self.life, remote, &new)?;
        self.paths.name(self.lower.ids.remote.active());
        Ok(stop)
    }

    /// Packets to the peer carry the next of its ids from then on. Want of memory is the only refusal.
    pub fn do_switch(&mut self) -> Result<(), AllocError>
        ensures { OnOk result ((ideal U.Random.stream self.new) ≡ state_move Switch (ideal U.Random.stream self.old)) }
    {
        let remote = self.paths.current.remote;
        switch(&mut self.lower.ids, &mut self.life, remote)?;
        self.paths.name(self.lower.ids.remote.active());
        Ok(())
    }

    /// The ids are handed a RETIRE_CONNECTION_ID. Answers the error with which it stops its packet, if it does. Want of memory is the only
    /// refusal of the call.
    pub fn do_retire(
        &mut self,
        alloc: Global,
        did: &mut Dids,
        now: Instant,
        sequence: u64,
    ) -> Result<Option<TransportError>, AllocError>
        ensures stop { IfOk result (λ stop. stop ≡ retire_stop sequence self.old.lower.ids) }
        ensures leads { OnOk result ((held U.Random.stream self.new did.new) ≡ move_to (Retire now sequence) (held U.Random.stream self.old did.old)) }
    {
        tell_ids(alloc, did, &FrameOf::RetireConnectionId { sequence })?;
        let limit = active_limit(&self.setup.peer);
        let ids = &mut self.lower.ids;
        retire(ids, &mut self.life, now, limit, sequence)
    }

    /// Ids of this end are given. Want of memory is the only refusal.
    pub fn do_issue(&mut self, now: Instant, given: &[IssuedCid]) -> Result<(), AllocError>
        requires { give_refusal given.now self.old.lower.ids ≡ None }
        ensures { OnOk result ((ideal U.Random.stream self.new) ≡ state_move (Issue now given.now) (ideal U.Random.stream self.old)) }
    {
        self.lower.ids.give(given, now)?;
        if !self.life.is_drained() {
            self.timers.issued(self.lower.ids.next_timeout(), now);
        }
        Ok(())
    }

    /// The oldest ids of this end have grown old. Answers how many others are wanted in their place.
    pub fn do_outlive(&mut self) -> u64
        ensures wanted { result ≡ asks_anew self.old.lower.ids }
        ensures leads { (ideal U.Random.stream self.new) ≡ state_move Outlive (ideal U.Random.stream self.old) }
    {
        self.timers.outlive();
        self.lower.ids.expire()
    }
}
