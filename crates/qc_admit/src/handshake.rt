//! How the handshake goes on: the bytes of CRYPTO frames, what the session writes, and its end.

ghost use Rattle.std.specs.Prelude.{◌≡◌, ◌+◌, ◌-◌, ◌<◌, ◌≤◌, ◌^◌, ◌||◌, ◌&&◌, ◌==◌, nat_lt, nat_le, if◌then◌else◌, [], true, false, Some, None, length, OnOk, IfOk, IfSome, IfNone, is_none};
ghost use Rattle.qc_assembler.specs.Assembly.{inserted, part_count};
ghost use Rattle.qc_base.specs.declared.transport_error.TransportError.{TransportError};
ghost use Rattle.qc_admit.specs.Behind.{left_by};
ghost use Rattle.qc_admit.specs.Reading.{HasRead, HasWritten, keys_taken};
ghost use Rattle.qc_state.specs.Lower.{ready_bytes, stream_of};
ghost use Rattle.qc_state.specs.Progress.{ended_after, ids_fit, is_end, is_server_start, learned_after, learned_with, names_id, over_after, parameters_and, progress_after, same_named, token_after, written_after};
ghost use Rattle.qc_state.specs.Life.{is_handshake};
ghost use Rattle.qc_state.specs.Moves.{Confirm, Establish, Forget, armed_after, move_to};
ghost use Rattle.qc_base.specs.declared.side.SpaceId.TheVariants.{Handshake};
ghost use Rattle.qc_state.specs.Receiving.{answered_after, bytes_given, crypto_stop, ended_by, expected_below, expected_space, is_below, kept_after};
ghost use Rattle.qc_state.specs.Stopping.{internal_error_at};
ghost use Rattle.qc_state.specs.View.{At, ideal, held};

use crate::behind::Behind;
use bytes::Bytes;
use qc_assembler::InsertError;
use qc_base::{
    ConnectionId, Instant, ResetToken, Side, SpaceId, TransportError, TransportErrorCode,
};
use qc_core::Core;
use qc_core::stopping::error_at;
use qc_crypto::{Keys, Session, SessionError};
use qc_params::TransportParameters;
use qc_state::{Coming, Dids, Given, Layer, Means, OneRttKeys, SoundSession, SpaceKeys, Suite};
use std::alloc::{AllocError, Global};

/// Whether bytes at an offset reach past those that were read.
fn reaches_past(read: u64, offset: u64, len: usize) -> bool
    ensures { result ≡ nat_lt read (offset + len) }
{
    match offset.checked_add(len as u64) {
        None => true,
        Some(end) => read < end,
    }
}

/// Whether bytes at an offset reach past the end of any stream, or by more than `size` past those that were read.
fn is_too_far(size: usize, read: u64, offset: u64, len: usize) -> bool
    ensures { result ≡ (nat_le (2 ^ 62) (offset + len) || nat_lt size ((offset + len) - read)) }
{
    match offset.checked_add(len as u64) {
        None => true,
        Some(end) => 0x4000_0000_0000_0000 <= end || (size as u64) < end.saturating_sub(read),
    }
}

/// Whether a space lies below another one.
fn is_below(a: SpaceId, b: SpaceId) -> bool
    ensures { result ≡ is_below a b }
{
    match (a, b) {
        (SpaceId::Initial, SpaceId::Handshake)
        | (SpaceId::Initial, SpaceId::Data)
        | (SpaceId::Handshake, SpaceId::Data) => true,
        _ => false,
    }
}

/// The space whose CRYPTO bytes are expected before the handshake is over, where this is the highest space.
fn expected_below(highest: SpaceId) -> SpaceId
    ensures { result ≡ expected_below highest }
{
    match highest {
        SpaceId::Initial => SpaceId::Initial,
        SpaceId::Handshake | SpaceId::Data => SpaceId::Handshake,
    }
}

/// Whether the handshake is over behind a packet of this space.
fn is_end(space: SpaceId, handshaking: bool) -> bool
    ensures { result ≡ is_end space handshaking }
{
    match space {
        SpaceId::Handshake => !handshaking,
        SpaceId::Initial | SpaceId::Data => false,
    }
}

/// Whether an end of this side is a server that leaves the Initial space, which was the highest one before its session wrote.
fn is_server_start(side: Side, before: SpaceId, after: SpaceId) -> bool
    ensures { result ≡ is_server_start side before after }
{
    match (side, before, after) {
        (Side::Server, SpaceId::Initial, SpaceId::Handshake)
        | (Side::Server, SpaceId::Initial, SpaceId::Data) => true,
        _ => false,
    }
}

/// Whether an id is named, and is this one.
fn names_id(named: Option<ConnectionId>, id: ConnectionId) -> bool
    ensures { result ≡ names_id named id }
{
    match named {
        None => false,
        Some(named) => named.as_slice() == id.as_slice(),
    }
}

/// Whether an id that may be named is this one, which there may be.
fn same_named(named: Option<ConnectionId>, cid: Option<ConnectionId>) -> bool
    ensures { result ≡ same_named named cid }
{
    match (named, cid) {
        (None, None) => true,
        (Some(named), Some(cid)) => named.as_slice() == cid.as_slice(),
        (None, Some(_)) | (Some(_), None) => false,
    }
}

/// What a session answers to these bytes, which it is given. Want of memory is the only refusal.
fn answer_of<S: Session>(
    session: &mut SoundSession<S>,
    bytes: &[u8],
) -> Result<Result<bool, TransportError>, AllocError>
    ensures answer { IfOk result (λ answer. answer ≡ S.reads session.old bytes.now) }
    ensures after { OnOk result (session.new ≡ S.after_read session.old bytes.now) }
{
    match session.read(bytes) {
        Ok(ready) => Ok(Ok(ready)),
        Err(SessionError::Transport(error)) => Ok(Err(error)),
        Err(SessionError::OutOfMemory) => Err(AllocError),
    }
}

/// Whether there are neither bytes nor keys.
fn is_nothing<H: Drop, P: Drop>(bytes: &[u8], keys: &Option<Keys<H, P>>) -> bool
    ensures { result ≡ ((length bytes.now == 0) && is_none keys.now) }
{
    bytes.is_empty() && keys.is_none()
}

/// The space whose CRYPTO bytes are expected: Data once the handshake is over.
#[tactic(auto, unfolding(qc_state::specs::Receiving::expected_space))]
fn expected_space<U: Suite>(core: &Core<U>) -> SpaceId
    ensures { result ≡ expected_space (ideal U.Random.stream core.now) }
{
    if core.life.is_established() {
        return SpaceId::Data;
    }
    expected_below(core.keys.highest)
}

/// Whether bytes that are new come of a space that is over.
fn is_late<U: Suite>(core: &Core<U>, space: SpaceId, offset: u64, len: usize) -> bool
    ensures { result ≡ (nat_lt (stream_of core.now.lower space).read (offset + len) && is_below space (expected_space (ideal U.Random.stream core.now))) }
{
    let read = core.lower.stream(space).bytes_read();
    reaches_past(read, offset, len) && is_below(space, expected_space(core))
}

/// Whether bytes come too far ahead of those that the session was given, or past the end of any stream.
fn is_ahead<U: Suite>(core: &Core<U>, space: SpaceId, offset: u64, len: usize) -> bool
    ensures { result ≡ (nat_le (2 ^ 62) (offset + len) || nat_lt core.now.setup.fixed.crypto_buffer_size ((offset + len) - (stream_of core.now.lower space).read)) }
{
    let read = core.lower.stream(space).bytes_read();
    is_too_far(core.setup.fixed.crypto_buffer_size, read, offset, len)
}

/// The error with which a CRYPTO frame stops its packet before its bytes are kept, if it does.
fn crypto_refusal<U: Suite>(
    core: &Core<U>,
    space: SpaceId,
    offset: u64,
    body: &[u8],
) -> Option<TransportError>
    ensures refused { IfSome result (λ error. crypto_stop (ideal U.Random.stream core.now) space offset body.now ≡ Some error) }
    ensures kept { IfNone result (crypto_stop (ideal U.Random.stream core.now) space offset body.now ≡ (if nat_lt 1024 (part_count (inserted offset body.now (stream_of core.now.lower space)).came) then Some (internal_error_at None) else None)) }
    ensures within { IfNone result (offset + length body.now < 2 ^ 62) }
{
    if is_late(core, space, offset, body.len()) {
        return Some(error_at(TransportErrorCode::PROTOCOL_VIOLATION, None));
    }
    if is_ahead(core, space, offset, body.len()) {
        return Some(error_at(TransportErrorCode::CRYPTO_BUFFER_EXCEEDED, None));
    }
    None
}

/// The session reads all bytes of the space's CRYPTO stream that can be read in order, and answers. None exactly where
/// there are none; then nothing changes. Want of memory is the only refusal.
fn do_read<U: Suite>(
    core: &mut Core<U>,
    alloc: Global,
    did: &mut Dids,
    space: SpaceId,
) -> Result<Option<Result<bool, TransportError>>, AllocError>
    ensures { IfOk result (λ told. HasRead ⟦<U as Means>⟧.meaning space (ready_bytes (stream_of core.old.lower space)) told (held U.Random.stream core.old did.old) (held U.Random.stream core.new did.new)) }
{
    let bytes = core.lower.take_ready(alloc, space)?;
    if bytes.as_slice().is_empty() {
        return Ok(None);
    }
    let answer = answer_of(&mut core.lower.session, bytes.as_slice())?;
    did.push_gave(Layer::Session, Given::of_bytes(bytes))?;
    Ok(Some(answer))
}

/// The session answered a read: where it refused the bytes, this end closes.
fn answered<U: Suite>(
    core: &mut Core<U>,
    did: &mut Dids,
    coming: &Coming,
    answer: Result<bool, TransportError>,
) -> Result<Behind, AllocError>
    ensures { IfOk result (λ behind. left_by behind (held U.Random.stream core.new did.new) ≡ answered_after coming.now answer (held U.Random.stream core.old did.old)) }
{
    match answer {
        Err(error) => {
            core.stopped(did, coming.time, error)?;
            Ok(Behind::Ends)
        }
        Ok(ready) => {
            if ready {
                core.do_ready();
                return Ok(Behind::Goes);
            }
            Ok(Behind::Goes)
        }
    }
}

/// The session is given all bytes of the space's CRYPTO stream that can be read in order.
fn given<U: Suite>(
    core: &mut Core<U>,
    alloc: Global,
    did: &mut Dids,
    coming: &Coming,
    space: SpaceId,
) -> Result<Behind, AllocError>
    ensures { IfOk result (λ behind. left_by behind (held U.Random.stream core.new did.new) ≡ bytes_given ⟦<U as Means>⟧.meaning coming.now space (ready_bytes (stream_of core.old.lower space)) (held U.Random.stream core.old did.old)) }
{
    match do_read(core, alloc, did, space)? {
        None => Ok(Behind::Goes),
        Some(answer) => answered(core, did, coming, answer),
    }
}

/// A CRYPTO frame. It ends its packet where it stops it, or the session refuses the bytes.
pub(crate) fn crypto<U: Suite>(
    core: &mut Core<U>,
    alloc: Global,
    did: &mut Dids,
    coming: &Coming,
    space: SpaceId,
    offset: u64,
    body: &[u8],
) -> Result<Behind, AllocError>
    ensures { IfOk result (λ behind. left_by behind (held U.Random.stream core.new did.new) ≡ ended_by coming.now.time (crypto_stop (ideal U.Random.stream core.old) space offset body.now) (kept_after ⟦<U as Means>⟧.meaning coming.now space offset body.now) (held U.Random.stream core.old did.old)) }
{
    if let Some(error) = crypto_refusal(core, space, offset, body) {
        core.stopped(did, coming.time, error)?;
        return Ok(Behind::Ends);
    }
    let bytes = Bytes::copy_from_slice(alloc, body)?;
    match core.do_come(space, offset, bytes) {
        Ok(()) => given(core, alloc, did, coming, space),
        Err(InsertError::TooManyParts) => {
            core.stopped(
                did,
                coming.time,
                error_at(TransportErrorCode::INTERNAL_ERROR, None),
            )?;
            Ok(Behind::Ends)
        }
        Err(InsertError::OutOfMemory) => Err(AllocError),
    }
}

/// Keys that the session gave with a write, if it gave any: first those of the Handshake space, then the 1-RTT keys, behind which
/// the session is asked for those of the next epoch (RFC 9001, section 6.1); behind these come none.
fn take_keys<U: Suite>(
    core: &mut Core<U>,
    keys: Option<Keys<<U::Session as Session>::HeaderKey, <U::Session as Session>::PacketKey>>,
)
    ensures leads { (ideal U.Random.stream core.new) ≡ keys_taken ⟦<U as Means>⟧.meaning keys (ideal U.Random.stream core.old) }
    ensures left { U.Session.left core.new.lower.session ≤ U.Session.left core.old.lower.session }
{
    let keys = match keys {
        None => return,
        Some(keys) => keys,
    };
    match core.keys.highest {
        SpaceId::Initial => core.keys.give_handshake(SpaceKeys::new(keys)),
        SpaceId::Handshake => {
            if let Some(next) = core.lower.session.next_keys() {
                core.keys.give_data(OneRttKeys::new(keys, next));
            }
        }
        SpaceId::Data => {}
    }
}

/// The session writes once. Answers whether it wrote something or gave keys; otherwise nothing changes. Want of memory
/// is the only refusal.
fn write_once<U: Suite>(core: &mut Core<U>, alloc: Global, did: &Dids) -> Result<bool, AllocError>
    ensures { IfOk result (λ wrote. HasWritten ⟦<U as Means>⟧.meaning wrote (held U.Random.stream core.old did.now) (held U.Random.stream core.new did.now)) }
{
    let mut bytes = Vec::new(alloc);
    let keys = core.lower.session.write(&mut bytes)?;
    if is_nothing(bytes.as_slice(), &keys) {
        return Ok(false);
    }
    let bytes = Bytes::from_vec(bytes)?;
    core.waiting.write(core.keys.highest, bytes)?;
    take_keys(core, keys);
    Ok(true)
}

/// The session writes until nothing is left. Want of memory is the only refusal.
fn written<U: Suite>(core: &mut Core<U>, alloc: Global, did: &Dids) -> Result<(), AllocError>
    ensures { OnOk result ((held U.Random.stream core.new did.now) ≡ written_after ⟦<U as Means>⟧.meaning (held U.Random.stream core.old did.now)) }
{
    loop {
        if !write_once(core, alloc, did)? {
            return Ok(());
        }
    }
}

/// Whether the ids that the peer's parameters name are those of this connection.
#[tactic(auto, unfolding(qc_state::specs::Progress::ids_fit, qc_state::specs::Setup::ideal_setup))]
fn ids_fit<U: Suite>(core: &Core<U>, parameters: &TransportParameters) -> bool
    ensures { result ≡ ids_fit (ideal U.Random.stream core.now) parameters.now }
{
    let fits = names_id(parameters.initial_src_cid, core.paths.peer_id());
    match core.setup.fixed.side {
        Side::Client => {
            fits && (names_id(parameters.original_dst_cid, core.setup.fixed.first_cid)
                && same_named(parameters.retry_src_cid, core.setup.retry_cid))
        }
        Side::Server => fits,
    }
}

/// A client is told a server's token for a stateless reset, where its parameters have one.
#[tactic(auto, unfolding(qc_state::specs::Moves::move_to, qc_state::specs::Moves::deeds_move, qc_state::specs::Setup::ideal_setup))]
fn tell_token<U: Suite>(
    core: &mut Core<U>,
    token: Option<ResetToken>,
    did: &Dids,
) -> Result<(), AllocError>
    ensures { OnOk result ((held U.Random.stream core.new did.now) ≡ token_after core.old.setup.fixed.side token (held U.Random.stream core.old did.now)) }
{
    match (core.setup.fixed.side, token) {
        (Side::Client, Some(token)) => core.do_token(token),
        _ => Ok(()),
    }
}

/// The peer's parameters count from now on, and identifiers are wanted, where this end's ids aren't empty.
#[tactic(auto, unfolding(qc_state::specs::Progress::learned_with, qc_state::specs::Moves::move_to, qc_state::specs::Moves::deeds_move, qc_state::specs::Setup::ideal_setup))]
fn learn_with<U: Suite>(
    core: &mut Core<U>,
    now: Instant,
    parameters: TransportParameters,
    did: &Dids,
) -> Result<(), AllocError>
    ensures { OnOk result ((held U.Random.stream core.new did.now) ≡ learned_with now parameters (held U.Random.stream core.old did.now)) }
{
    let has_no_ids = core.setup.fixed.local_cid.is_empty();
    let issued = core.lower.ids.local.issued();
    let count = parameters.issue_cids_limit().saturating_sub(issued);
    core.do_learn(parameters);
    if has_no_ids {
        return Ok(());
    }
    core.do_want(now, count)
}

/// The peer's parameters, as the session gives them. Answers whether they can be read and their ids fit; otherwise this end
/// closes. A server's token counts also where the ids don't fit.
fn learned<U: Suite>(
    core: &mut Core<U>,
    did: &mut Dids,
    now: Instant,
    answer: Result<Option<TransportParameters>, TransportError>,
) -> Result<bool, AllocError>
    ensures ends { IfOk result (λ fits. fits ≡ false → (others : At _ → At _) → (held U.Random.stream core.new did.new) ≡ parameters_and now answer others (held U.Random.stream core.old did.old)) }
    ensures goes { IfOk result (λ fits. fits ≡ true → (others : At _ → At _) → others (held U.Random.stream core.new did.new) ≡ parameters_and now answer others (held U.Random.stream core.old did.old)) }
{
    match answer {
        Err(error) => core.stopped(did, now, error)?,
        Ok(None) => core.stopped(did, now, error_at(TransportErrorCode::crypto(0x6d), None))?,
        Ok(Some(parameters)) => {
            let fits = ids_fit(core, &parameters);
            tell_token(core, parameters.stateless_reset_token, did)?;
            if fits {
                learn_with(core, now, parameters, did)?;
                return Ok(true);
            }
            let error = error_at(TransportErrorCode::TRANSPORT_PARAMETER_ERROR, None);
            core.stopped(did, now, error)?;
        }
    }
    Ok(false)
}

/// A server reads the client's parameters as it leaves the Initial space; `before` was the highest space before its session
/// wrote.
#[tactic(auto, unfolding(qc_state::specs::Progress::learned_after, qc_state::specs::Setup::ideal_setup))]
fn learn<U: Suite>(
    core: &mut Core<U>,
    did: &mut Dids,
    now: Instant,
    before: SpaceId,
) -> Result<(), AllocError>
    ensures { OnOk result ((held U.Random.stream core.new did.new) ≡ learned_after ⟦<U as Means>⟧.meaning now before (held U.Random.stream core.old did.old)) }
{
    if !is_server_start(core.setup.fixed.side, before, core.keys.highest) {
        return Ok(());
    }
    let answer = core.lower.session.transport_parameters();
    let _fits = learned(core, did, now, answer)?;
    Ok(())
}

/// A server confirms the handshake, and drops the Handshake keys (RFC 9001, sections 4.1.2 and 4.9.2).
#[tactic(auto, unfolding(qc_state::specs::Moves::move_to, qc_state::specs::Moves::deeds_move))]
fn confirm<U: Suite>(core: &mut Core<U>, did: &mut Dids, now: Instant) -> Result<(), AllocError>
    ensures { OnOk result ((held U.Random.stream core.new did.new) ≡ move_to Establish (armed_after now (move_to (Forget Handshake) (move_to Confirm (held U.Random.stream core.old did.old))))) }
{
    core.do_confirm();
    core.do_forget(SpaceId::Handshake);
    core.arm(did, now);
    core.do_establish(did)
}

/// The handshake is over: a client reads the server's parameters, a server confirms it.
#[tactic(auto, unfolding(qc_state::specs::Setup::ideal_setup))]
fn over<U: Suite>(core: &mut Core<U>, did: &mut Dids, now: Instant) -> Result<(), AllocError>
    ensures { OnOk result ((held U.Random.stream core.new did.new) ≡ over_after ⟦<U as Means>⟧.meaning now core.old.setup.fixed.side (held U.Random.stream core.old did.old)) }
{
    match core.setup.fixed.side {
        Side::Client => {
            let answer = core.lower.session.transport_parameters();
            if learned(core, did, now, answer)? {
                return core.do_establish(did);
            }
            Ok(())
        }
        Side::Server => confirm(core, did, now),
    }
}

/// Whether the handshake is over behind a packet of this space.
fn is_ended<U: Suite>(core: &Core<U>, space: SpaceId) -> bool
    ensures { result ≡ (is_handshake core.now.life.state && is_end space (U.Session.handshaking core.now.lower.session)) }
{
    core.life.is_handshake() && is_end(space, core.lower.session.is_handshaking())
}

/// Behind a Handshake packet, where the handshake goes on no longer, the connection is established.
#[tactic(auto, unfolding(qc_state::specs::Progress::ended_after, qc_state::specs::Setup::ideal_setup))]
fn ended<U: Suite>(
    core: &mut Core<U>,
    did: &mut Dids,
    now: Instant,
    space: SpaceId,
) -> Result<(), AllocError>
    ensures { OnOk result ((held U.Random.stream core.new did.new) ≡ ended_after ⟦<U as Means>⟧.meaning now space (held U.Random.stream core.old did.old)) }
{
    if !is_ended(core, space) {
        return Ok(());
    }
    over(core, did, now)
}

/// Behind the frames of a packet the session writes, a server that leaves the Initial space so reads the client's parameters, and
/// where the handshake has ended, the connection is established.
#[tactic(auto, unfolding(qc_state::specs::Progress::progress_after))]
pub(crate) fn progress<U: Suite>(
    core: &mut Core<U>,
    alloc: Global,
    did: &mut Dids,
    now: Instant,
    space: SpaceId,
) -> Result<(), AllocError>
    ensures { OnOk result ((held U.Random.stream core.new did.new) ≡ progress_after ⟦<U as Means>⟧.meaning now space (held U.Random.stream core.old did.old)) }
{
    let before = core.keys.highest;
    written(core, alloc, did)?;
    learn(core, did, now, before)?;
    ended(core, did, now, space)
}
