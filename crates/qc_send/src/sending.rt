//! One transmit: datagrams of one size, but for the last one, and of one packet or more each.

ghost use Rattle.std.specs.Prelude.{◌≡◌, ◌+◌, ◌≤◌, [], true, None, Some, length, OnOk, OnErr, IfOk};
ghost use Rattle.qc_send.specs.Ending.{EndsSo, SendsUpTo, ending_of, form_dying, held_if, next_dying, outcome_dying};
ghost use Rattle.qc_send.specs.Failing.{pings_of};
ghost use Rattle.qc_send.specs.Joining.{FallsTo, FilledIs, FollowIs, IsBelow, IsRoomy, LeavesFewer, MadeIs, MayTake, NextIs, OutcomeIs, follows, made_with, outcome_of};
ghost use Rattle.qc_state.specs.Forms.{number_space};
ghost use Rattle.qc_state.specs.Moves.{Say, move_to};
ghost use Rattle.qc_state.specs.declared.deeds.Quiet.TheVariants.{Killed};
ghost use Rattle.qc_state.specs.Sending.{MayBegin, SendsOne, Transmits, batch_from, ending_after, going, held_after, quiet_of, transmit_with};
ghost use Rattle.qc_state.specs.Stopping.{killed_after};
ghost use Rattle.qc_state.specs.View.{ideal, held};

use crate::joining::{Further, find_further};
use crate::owing::{
    Turn, form_in, is_key_nearly_used_up, is_probe_due, kill, next_number, turn_now,
};
use crate::planning::plan_packet;
use crate::probing::seal_probe;
use crate::sealing::{begin, finish, frame_room, seal, transmit_to};
use crate::taking::take;
use qc_base::{Instant, SpaceId};
use qc_core::Core;
use qc_state::spaces::Spaces;
use qc_state::{Batch, ConnectionError, Dids, Form, Means, Quiet, Suite, Transmit};
use std::alloc::{AllocError, Global};

/// The connection ends: a packet was to begin that can't.
#[derive(Drop)]
pub(crate) struct Dying {
    /// The form of the packet.
    pub form: Form,
    /// The reason.
    pub why: ConnectionError,
}

/// What follows a packet.
#[derive(Drop)]
pub(crate) enum Next {
    /// A packet of this space joins its datagram.
    Joins(SpaceId),
    /// None joins it.
    Full,
    /// The connection ends so.
    Dies(Dying),
}

/// What follows a datagram.
#[derive(Drop)]
pub(crate) enum Outcome {
    /// A packet of this space begins another one.
    Begins(SpaceId),
    /// The transmit ends, and perhaps the pacer holds another one back.
    Ends(bool),
    /// The connection ends so.
    Dies(Dying),
}

/// What is known of the datagrams of a transmit that begins, which is asked for at most so many.
#[tactic(auto, unfolding(qc_state::specs::Setup::ideal_setup))]
fn new_batch<U: Suite>(core: &Core<U>, asked: u64) -> Batch
    ensures { result ≡ batch_from asked (ideal U.Random.stream core.now) }
{
    let most = if core.setup.fixed.segmentation {
        asked
    } else {
        1
    };
    let segment = core.path_size();
    let least = core.paths.current.least();
    Batch::new(
        core.waiting.close_owed,
        core.setup.fixed.pads,
        most,
        segment,
        least,
    )
}

/// Seals one packet at the end of the buffer, in a datagram that begins with it, or that it joins. Answers which space's packet joins it. Want
/// of memory is the only refusal.
fn seal_packet<U: Suite>(
    core: &mut Core<U>,
    did: &mut Dids,
    alloc: Global,
    now: Instant,
    batch: &mut Batch,
    form: Form,
    opens: bool,
    buf: &mut Vec<u8>,
) -> Result<Option<SpaceId>, AllocError>
    requires begins { MayBegin ⟦<U as Means>⟧.meaning now (ideal U.Random.stream core.old) batch.old form opens }
    requires roomy { IsRoomy batch.old (number_space form) opens }
    requires full { length buf.old.items ≡ batch.old.total }
    ensures sends { OnOk result (SendsOne ⟦<U as Means>⟧.meaning now form (going (held U.Random.stream core.old did.old) batch.old buf.old.items) (going (held U.Random.stream core.new did.new) batch.new buf.new.items)) }
    ensures next { IfOk result (λ next. FollowIs ⟦<U as Means>⟧.meaning now (ideal U.Random.stream core.new) batch.new next) }
    ensures falls { IfOk result (λ next. IsBelow (number_space form) next) }
    ensures made { OnOk result (batch.new.made ≡ made_with opens batch.old.made) }
    ensures most { OnOk result (batch.new.most ≡ batch.old.most) }
    ensures full { OnOk result (length buf.new.items ≡ batch.new.total) }
{
    let nearly = is_key_nearly_used_up(core, form);
    let first = batch.made == 0;
    let probes = is_probe_due(core, form);
    begin(core, did, batch, form, opens)?;
    let left = batch.left();
    let room = frame_room(core, left, form);
    let number = next_number(core, form.space());
    let frames = take(core, alloc, now, batch.closing, first, probes, form, room)?;
    let plan = plan_packet(core, alloc, now, batch, form, room, nearly, &frames)?;
    let sealed = seal(
        core, alloc, did, now, form, left, room, plan.least, frames, buf,
    )?;
    core.fly_after(did, now, sealed.size, sealed.counts);
    batch.grow(
        form,
        number,
        sealed.size,
        sealed.padding,
        sealed.fills,
        nearly,
    );
    Ok(plan.next)
}

/// What follows a packet that was sealed.
fn follows(next: Option<SpaceId>) -> Next
    ensures { result ≡ follows next }
{
    match next {
        None => Next::Full,
        Some(space) => Next::Joins(space),
    }
}

/// Seals one packet of this space, in a datagram that begins with it, or that it joins; or the connection ends, where the packet can't begin. An
/// update of its keys is tried before. Want of memory is the only refusal.
fn packet_in<U: Suite>(
    core: &mut Core<U>,
    did: &mut Dids,
    alloc: Global,
    now: Instant,
    batch: &mut Batch,
    space: SpaceId,
    opens: bool,
    buf: &mut Vec<u8>,
) -> Result<Next, AllocError>
    requires takes { MayTake ⟦<U as Means>⟧.meaning now (ideal U.Random.stream core.old) batch.old space opens }
    requires full { length buf.old.items ≡ batch.old.total }
    ensures sends { IfOk result (λ next. SendsUpTo ⟦<U as Means>⟧.meaning now (next_dying next) (going (held U.Random.stream core.old did.old) batch.old buf.old.items) (going (held U.Random.stream core.new did.new) batch.new buf.new.items)) }
    ensures next { IfOk result (λ next. NextIs ⟦<U as Means>⟧.meaning now (ideal U.Random.stream core.new) batch.new next) }
    ensures falls { IfOk result (λ next. FallsTo space next) }
    ensures made { IfOk result (λ next. MadeIs (made_with opens batch.old.made) batch.new.made next) }
    ensures most { OnOk result (batch.new.most ≡ batch.old.most) }
    ensures full { OnOk result (length buf.new.items ≡ batch.new.total) }
{
    let form = form_in(core, space);
    core.try_update(did, form);
    match kill(core, batch, form) {
        Some(why) => return Ok(Next::Dies(Dying { form, why })),
        None => {}
    }
    let next = seal_packet(core, did, alloc, now, batch, form, opens, buf)?;
    Ok(follows(next))
}

/// Seals one datagram, which begins with a packet of this space. Answers why the connection ends, where it does: a packet was to begin that
/// can't. Want of memory is the only refusal.
fn fill<U: Suite>(
    core: &mut Core<U>,
    did: &mut Dids,
    alloc: Global,
    now: Instant,
    batch: &mut Batch,
    first: SpaceId,
    buf: &mut Vec<u8>,
) -> Result<Option<Dying>, AllocError>
    requires takes { MayTake ⟦<U as Means>⟧.meaning now (ideal U.Random.stream core.old) batch.old first true }
    requires full { length buf.old.items ≡ batch.old.total }
    ensures sends { IfOk result (λ dying. SendsUpTo ⟦<U as Means>⟧.meaning now (form_dying dying) (going (held U.Random.stream core.old did.old) batch.old buf.old.items) (going (held U.Random.stream core.new did.new) batch.new buf.new.items)) }
    ensures ends { IfOk result (λ dying. FilledIs ⟦<U as Means>⟧.meaning now (ideal U.Random.stream core.new) batch.new dying) }
    ensures made { IfOk result (λ dying. dying ≡ None → batch.new.made ≡ batch.old.made + 1) }
    ensures most { OnOk result (batch.new.most ≡ batch.old.most) }
    ensures full { OnOk result (length buf.new.items ≡ batch.new.total) }
{
    let mut space = first;
    let mut opens = true;
    loop {
        let next = packet_in(core, did, alloc, now, batch, space, opens, buf)?;
        match next {
            Next::Joins(later) => {
                space = later;
                opens = false;
            }
            Next::Full => return Ok(None),
            Next::Dies(dying) => return Ok(Some(dying)),
        }
    }
}

/// What follows a datagram that was sealed.
fn outcome_of(further: Further) -> Outcome
    ensures { result ≡ outcome_of further }
{
    match further {
        Further::Begins(space) => Outcome::Begins(space),
        Further::Paced => Outcome::Ends(true),
        Further::Ends => Outcome::Ends(false),
        Further::Passes => Outcome::Ends(false),
    }
}

/// Seals one datagram, which begins with a packet of this space, and answers what follows it. Want of memory is the only refusal.
fn datagram_in<U: Suite>(
    core: &mut Core<U>,
    did: &mut Dids,
    alloc: Global,
    now: Instant,
    batch: &mut Batch,
    space: SpaceId,
    buf: &mut Vec<u8>,
) -> Result<Outcome, AllocError>
    requires takes { MayTake ⟦<U as Means>⟧.meaning now (ideal U.Random.stream core.old) batch.old space true }
    requires full { length buf.old.items ≡ batch.old.total }
    ensures sends { IfOk result (λ outcome. SendsUpTo ⟦<U as Means>⟧.meaning now (outcome_dying outcome) (going (held U.Random.stream core.old did.old) batch.old buf.old.items) (going (held U.Random.stream core.new did.new) batch.new buf.new.items)) }
    ensures next { IfOk result (λ outcome. OutcomeIs ⟦<U as Means>⟧.meaning now (ideal U.Random.stream core.new) batch.new outcome) }
    ensures falls { IfOk result (λ outcome. LeavesFewer batch.old batch.new outcome) }
    ensures full { OnOk result (length buf.new.items ≡ batch.new.total) }
{
    let dies = fill(core, did, alloc, now, batch, space, buf)?;
    match dies {
        Some(dying) => return Ok(Outcome::Dies(dying)),
        None => {}
    }
    let found = find_further(core, alloc, now, batch)?;
    Ok(outcome_of(found))
}

/// Where the pacer holds a datagram back, the connection wants to be called when it may go.
#[tactic(auto, unfolding(qc_state::specs::Sending::held_after, qc_state::specs::Moves::move_to, qc_state::specs::Moves::deeds_move))]
pub(crate) fn hold<U: Suite>(
    core: &mut Core<U>,
    did: &Dids,
    now: Instant,
    batch: &Batch,
    quiet: Quiet,
)
    ensures { (held U.Random.stream core.new did.now) ≡ held_after ⟦<U as Means>⟧.meaning now quiet batch.now (held U.Random.stream core.old did.now) }
{
    match quiet {
        Quiet::Pacing => {
            let until = core.paced_until(now, batch.next_segment());
            core.do_hold(until);
        }
        Quiet::NothingOwed
        | Quiet::Silent
        | Quiet::Amplification
        | Quiet::Congestion
        | Quiet::Killed => {}
    }
}

/// So it is where the pacer holds another datagram back behind those that were sealed, as `paced` says.
fn hold_if<U: Suite>(core: &mut Core<U>, did: &Dids, now: Instant, batch: &Batch, paced: bool)
    ensures { (held U.Random.stream core.new did.now) ≡ held_if ⟦<U as Means>⟧.meaning now batch.now paced (held U.Random.stream core.old did.now) }
{
    if paced {
        hold(core, did, now, batch, Quiet::Pacing);
    }
}

/// In which spaces a PING waits.
fn pings_of<U: Suite>(core: &Core<U>) -> Spaces<bool>
    ensures { result ≡ pings_of core.now.waiting }
{
    let spaces = &core.waiting.spaces;
    Spaces {
        initial: spaces.initial.ping,
        handshake: spaces.handshake.ping,
        application: spaces.application.ping,
    }
}

/// A PING waits in these spaces, and in no other.
fn put_back<U: Suite>(core: &mut Core<U>, pings: Spaces<bool>)
    ensures { pings_of core.new.waiting ≡ pings }
{
    core.waiting.spaces.initial.ping = pings.initial;
    core.waiting.spaces.handshake.ping = pings.handshake;
    core.waiting.spaces.application.ping = pings.application;
}

/// The connection ends for this reason, and what was sealed goes nowhere. Want of memory is the only refusal.
pub(crate) fn die<U: Suite>(
    core: &mut Core<U>,
    did: &mut Dids,
    why: ConnectionError,
    buf: &mut Vec<u8>,
) -> Result<Option<Transmit>, AllocError>
    ensures leads { OnOk result ((held U.Random.stream core.new did.new) ≡ move_to (Say Killed) (killed_after why (held U.Random.stream core.old did.old))) }
    ensures none { IfOk result (λ sent. sent ≡ None) }
    ensures empty { buf.new.items ≡ [] }
{
    buf.clear();
    core.kill(did, why)?;
    core.do_say(did, Quiet::Killed)?;
    Ok(None)
}

/// A transmit ends that sealed packets; `paced` says that the pacer holds another datagram back. Want of memory is the only refusal.
fn end<U: Suite>(
    core: &mut Core<U>,
    did: &mut Dids,
    now: Instant,
    batch: &Batch,
    paced: bool,
) -> Result<Option<Transmit>, AllocError>
    ensures leads { OnOk result ((held U.Random.stream core.new did.new) ≡ ending_after ⟦<U as Means>⟧.meaning now (ending_of paced) batch.now (held U.Random.stream core.old did.old)) }
    ensures sent { IfOk result (λ sent. sent ≡ Some (transmit_with (ideal U.Random.stream core.old) batch.now)) }
{
    let to = transmit_to(core, batch);
    hold_if(core, did, now, batch, paced);
    finish(core, did, now, *batch)?;
    Ok(Some(to))
}

/// Seals datagrams, the first of which begins with a packet of this space. Want of memory is the only refusal.
fn seal_all<U: Suite>(
    core: &mut Core<U>,
    alloc: Global,
    now: Instant,
    batch: &mut Batch,
    first: SpaceId,
    buf: &mut Vec<u8>,
    did: &mut Dids,
) -> Result<Option<Transmit>, AllocError>
    requires takes { MayTake ⟦<U as Means>⟧.meaning now (ideal U.Random.stream core.old) batch.old first true }
    requires full { length buf.old.items ≡ batch.old.total }
    ensures { IfOk result (λ sent. EndsSo ⟦<U as Means>⟧.meaning now (going (held U.Random.stream core.old did.old) batch.old buf.old.items) (held U.Random.stream core.new did.new) sent buf.new.items) }
{
    let mut space = first;
    loop {
        let outcome = datagram_in(core, did, alloc, now, batch, space, buf)?;
        match outcome {
            Outcome::Begins(next) => space = next,
            Outcome::Ends(paced) => {
                let sent = end(core, did, now, batch, paced)?;
                return Ok(sent);
            }
            Outcome::Dies(dying) => {
                let sent = die(core, did, dying.why, buf)?;
                return Ok(sent);
            }
        }
    }
}

/// Nothing is due of what waits, for this cause: where a probe of the path's size is, it is sealed into the empty buffer; else the cause is told. Want
/// of memory is the only refusal.
fn seal_none<U: Suite>(
    core: &mut Core<U>,
    alloc: Global,
    now: Instant,
    batch: &Batch,
    quiet: Quiet,
    buf: &mut Vec<u8>,
    did: &mut Dids,
) -> Result<Option<Transmit>, AllocError>
    requires none { batch.now.made ≡ 0 }
    requires cause { quiet_of ⟦<U as Means>⟧.meaning now (ideal U.Random.stream core.old) batch.now ≡ Some quiet }
    requires empty { buf.old.items ≡ [] }
    ensures { IfOk result (λ sent. EndsSo ⟦<U as Means>⟧.meaning now (going (held U.Random.stream core.old did.old) batch.now buf.old.items) (held U.Random.stream core.new did.new) sent buf.new.items) }
{
    let size = match core.probe_size(now) {
        None => {
            hold(core, did, now, batch, quiet);
            core.do_say(did, quiet)?;
            return Ok(None);
        }
        Some(size) => size,
    };
    core.try_update(did, Form::OneRtt);
    match kill(core, batch, Form::OneRtt) {
        Some(why) => {
            let sent = die(core, did, why, buf)?;
            return Ok(sent);
        }
        None => {}
    }
    let sent = seal_probe(core, alloc, now, batch, quiet, size, buf, did)?;
    Ok(Some(sent))
}

/// Seals what is due into an empty buffer, at most so many datagrams, and says where they go. None where nothing is sealed, for the cause that the
/// last deed names. Want of memory is the only refusal, and then the buffer may be left with bytes, and a PING of a probe may wait.
fn seal_due<U: Suite>(
    core: &mut Core<U>,
    alloc: Global,
    now: Instant,
    asked: u64,
    buf: &mut Vec<u8>,
    did: &mut Dids,
) -> Result<Option<Transmit>, AllocError>
    requires some { 1 ≤ asked }
    requires empty { buf.old.items ≡ [] }
    ensures { IfOk result (λ sent. Transmits ⟦<U as Means>⟧.meaning now asked (held U.Random.stream core.old did.old) (held U.Random.stream core.new did.new) sent buf.new.items) }
{
    let mut batch = new_batch(core, asked);
    let space = match turn_now(core, now, &batch) {
        Turn::Holds(quiet) => {
            let sent = seal_none(core, alloc, now, &batch, quiet, buf, did)?;
            return Ok(sent);
        }
        Turn::Begins(space) => space,
    };
    let sent = seal_all(core, alloc, now, &mut batch, space, buf, did)?;
    Ok(sent)
}

/// Seals what is due into an empty buffer, at most so many datagrams, and says where they go. None where nothing is sealed, for the cause that the
/// last deed names. Want of memory is the only refusal: then the buffer is empty, and a PING waits in the spaces where one waited
/// before.
pub fn transmit<U: Suite>(
    core: &mut Core<U>,
    alloc: Global,
    now: Instant,
    max_datagrams: usize,
    buf: &mut Vec<u8>,
    did: &mut Dids,
) -> Result<Option<Transmit>, AllocError>
    requires some { 1 ≤ max_datagrams }
    requires empty { buf.old.items ≡ [] }
    ensures sends { IfOk result (λ sent. Transmits ⟦<U as Means>⟧.meaning now max_datagrams (held U.Random.stream core.old did.old) (held U.Random.stream core.new did.new) sent buf.new.items) }
    ensures cut_back { OnErr result (buf.new.items ≡ []) }
    ensures pings { OnErr result (pings_of core.new.waiting ≡ pings_of core.old.waiting) }
{
    let pings = pings_of(core);
    match seal_due(core, alloc, now, max_datagrams as u64, buf, did) {
        Ok(sent) => Ok(sent),
        Err(refused) => {
            buf.clear();
            put_back(core, pings);
            Err(refused)
        }
    }
}
