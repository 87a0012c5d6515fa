//! What a packet does that opened, by its verdict.

ghost use Rattle.std.specs.Prelude.{◌≡◌, OnOk};
ghost use Rattle.qc_state.specs.Receiving.{accepted_after, admitted_after, fixed_after, read_for_close, received_after, signs_of};
ghost use Rattle.qc_state.specs.Verdicts.{is_other_token, verdict_of};
ghost use Rattle.qc_state.specs.View.{ideal, held};

use crate::payloads::{apply_payload, elicits, holds_close};
use bytes::Bytes;
use qc_base::{ConnectionId, Side, SpaceId};
use qc_core::Core;
use qc_state::spaces::is_space;
use qc_state::{Coming, Dids, Means, Signs, Suite, Verdict};
use std::alloc::{AllocError, Global};

/// Whether a packet of this space has another token than the one that is expected, if one is: only Initial packets do.
fn is_other_token(space: SpaceId, expected: &Option<Bytes>, token: &[u8]) -> bool
    ensures { result ≡ is_other_token space expected.now token.now }
{
    match (space, expected) {
        (SpaceId::Initial, Some(expected)) => token != expected.as_slice(),
        _ => false,
    }
}

/// The first Initial packet that a client admits fixes the id that the peer chose (RFC 9000, section 7.2).
#[tactic(auto, unfolding(qc_state::specs::Receiving::fixed_after, qc_state::specs::Moves::move_to, qc_state::specs::Moves::deeds_move))]
fn fix<U: Suite>(core: &mut Core<U>, space: SpaceId, source: ConnectionId, did: &Dids)
    ensures { (held U.Random.stream core.new did.now) ≡ fixed_after space source (held U.Random.stream core.old did.now) }
{
    match space {
        SpaceId::Initial => {
            if core.paths.peer_cid.is_none() {
                core.do_fix(source);
            }
        }
        SpaceId::Handshake | SpaceId::Data => {}
    }
}

/// What a packet with this spin bit shows, whose datagram came so.
fn signs_of(coming: &Coming, spin: bool) -> Signs
    ensures { result ≡ signs_of coming.now spin }
{
    Signs {
        mark: coming.mark,
        spin,
    }
}

/// A packet is accepted: with a Handshake packet a server leaves the Initial space.
#[tactic(auto, unfolding(qc_state::specs::Receiving::accepted_after))]
fn accepted<U: Suite>(
    core: &mut Core<U>,
    did: &mut Dids,
    coming: &Coming,
    space: SpaceId,
    number: u64,
    eliciting: bool,
    spin: bool,
    verdict: Verdict,
) -> Result<(), AllocError>
    ensures { OnOk result ((held U.Random.stream core.new did.new) ≡ accepted_after coming.now space number eliciting spin verdict (held U.Random.stream core.old did.old)) }
{
    core.do_accept(
        did,
        coming.time,
        space,
        number,
        eliciting,
        signs_of(coming, spin),
        verdict,
    )?;
    let blocked = core.is_blocked();
    core.leave_initial(Side::Server, blocked, coming.time, space, did);
    Ok(())
}

/// A packet that is admitted.
#[tactic(auto, unfolding(qc_state::specs::Receiving::admitted_after))]
fn admitted<U: Suite>(
    core: &mut Core<U>,
    alloc: Global,
    did: &mut Dids,
    coming: &Coming,
    space: SpaceId,
    spin: bool,
    source: ConnectionId,
    number: u64,
    payload: &[u8],
) -> Result<(), AllocError>
    ensures { OnOk result ((held U.Random.stream core.new did.new) ≡ admitted_after ⟦<U as Means>⟧.meaning coming.now space spin source number payload.now (held U.Random.stream core.old did.old)) }
{
    let eliciting = elicits(payload);
    accepted(
        core,
        did,
        coming,
        space,
        number,
        eliciting,
        spin,
        Verdict::Admitted,
    )?;
    fix(core, space, source, did);
    apply_payload(core, alloc, did, coming, space, payload)
}

/// A packet that came once this end had closed: a close in it makes the connection drain, else this end's close is owed
/// again.
#[tactic(auto, unfolding(qc_state::specs::Receiving::read_for_close, qc_state::specs::Moves::move_to, qc_state::specs::Moves::deeds_move))]
fn read_for_close<U: Suite>(
    core: &mut Core<U>,
    did: &mut Dids,
    space: SpaceId,
    number: u64,
    payload: &[u8],
) -> Result<(), AllocError>
    ensures { OnOk result ((held U.Random.stream core.new did.new) ≡ read_for_close space number payload.now (held U.Random.stream core.old did.old)) }
{
    core.do_enter(did, space, number, Verdict::ReadForClose)?;
    if holds_close(payload) {
        return core.do_peer_closes_too(did);
    }
    core.do_owe();
    Ok(())
}

/// The verdict on a packet of this space with this source id, token and number that opened.
#[tactic(auto, unfolding(qc_state::specs::Verdicts::verdict_of, qc_state::specs::Setup::ideal_setup))]
fn verdict<U: Suite>(
    core: &Core<U>,
    space: SpaceId,
    source: ConnectionId,
    token: &[u8],
    number: u64,
) -> Verdict
    ensures { result ≡ verdict_of (ideal U.Random.stream core.now) space source token.now number }
{
    if !core.numbers.is_new(space, number) {
        return Verdict::Seen;
    }
    if core.life.is_closed() {
        return Verdict::ReadForClose;
    }
    if core.life.is_handshake()
        && (is_space(space, SpaceId::Data) || is_other_token(space, &core.setup.token, token))
    {
        return Verdict::NumberOnly;
    }
    if core.life.is_handshake() && core.paths.is_other_source(&source) {
        return Verdict::AckOnly;
    }
    Verdict::Admitted
}

/// A packet that opened in this space. Want of memory is the only refusal.
#[tactic(auto, unfolding(qc_state::specs::Receiving::received_after))]
pub fn received_in<U: Suite>(
    core: &mut Core<U>,
    alloc: Global,
    did: &mut Dids,
    coming: &Coming,
    space: SpaceId,
    spin: bool,
    source: ConnectionId,
    token: &[u8],
    number: u64,
    payload: &[u8],
) -> Result<(), AllocError>
    ensures { OnOk result ((held U.Random.stream core.new did.new) ≡ received_after ⟦<U as Means>⟧.meaning coming.now space spin source token.now number payload.now (held U.Random.stream core.old did.old)) }
{
    match verdict(core, space, source, token, number) {
        Verdict::Seen => { core.do_tell_piece(did, Some(space), Some(number), Verdict::Seen) }
        Verdict::ReadForClose => read_for_close(core, did, space, number, payload),
        Verdict::NumberOnly => core.do_enter(did, space, number, Verdict::NumberOnly),
        Verdict::AckOnly => {
            accepted(
                core,
                did,
                coming,
                space,
                number,
                false,
                spin,
                Verdict::AckOnly,
            )
        }
        Verdict::Admitted => {
            admitted(
                core, alloc, did, coming, space, spin, source, number, payload,
            )
        }
        Verdict::Ignored
        | Verdict::Failure
        | Verdict::BadBits
        | Verdict::BadUpdate
        | Verdict::RetryTaken
        | Verdict::Versions => Ok(()),
    }
}

/// The same of a packet whose token and payload are owned.
pub fn received<U: Suite>(
    core: &mut Core<U>,
    alloc: Global,
    did: &mut Dids,
    coming: &Coming,
    space: SpaceId,
    spin: bool,
    source: ConnectionId,
    token: Bytes,
    number: u64,
    payload: Bytes,
) -> Result<(), AllocError>
    ensures { OnOk result ((held U.Random.stream core.new did.new) ≡ received_after ⟦<U as Means>⟧.meaning coming.now space spin source token number payload (held U.Random.stream core.old did.old)) }
{
    received_in(
        core,
        alloc,
        did,
        coming,
        space,
        spin,
        source,
        token.as_slice(),
        number,
        payload.as_slice(),
    )
}
