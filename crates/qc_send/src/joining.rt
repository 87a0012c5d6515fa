//! What follows a packet: another one in its datagram, a further datagram, or the end of the transmit.

ghost use Rattle.std.specs.Prelude.{◌≡◌, ◌==◌, ◌||◌, not, true, false, IfOk};
ghost use Rattle.qc_send.specs.Joining.{FurtherIs, HasIn, IsFull, JoiningIs, JoinsIs, LacksIn, begins_behind, further_by, goes_on, is_later, is_small, joins_more, passes};
ghost use Rattle.qc_state.specs.Keys.{form_in};
ghost use Rattle.qc_state.specs.Offers.{wants_sending};
ghost use Rattle.qc_state.specs.Batches.{is_in_order};
ghost use Rattle.qc_state.specs.Sending.{begun_view, is_used_up, room_of};
ghost use Rattle.qc_state.specs.Spaces.{space_of};
ghost use Rattle.qc_state.specs.View.{ideal};

use crate::owing::{ack_fits, is_used_up, owes_ack, owes_in};
use crate::sealing::frame_room;
use qc_base::{Instant, SpaceId};
use qc_core::Core;
use qc_state::spaces::is_space;
use qc_state::{Batch, Form, JOINING_SIZE, Means, Quiet, Suite};
use std::alloc::{AllocError, Global};

/// What follows a datagram that no packet joins any more.
#[derive(Clone, Copy)]
pub(crate) enum Further {
    /// A packet of this space begins another one.
    Begins(SpaceId),
    /// The pacer holds another one back.
    Paced,
    /// The transmit ends.
    Ends,
    /// Another space may have something.
    Passes,
}

/// Whether a packet of this space may join a datagram behind the last one: its space is a later one.
fn is_later(last: Option<SpaceId>, space: SpaceId) -> bool
    ensures { result ≡ is_later last space }
{
    match last {
        None => false,
        Some(SpaceId::Initial) => match space {
            SpaceId::Initial => false,
            SpaceId::Handshake => true,
            SpaceId::Data => true,
        },
        Some(SpaceId::Handshake) => match space {
            SpaceId::Initial => false,
            SpaceId::Handshake => false,
            SpaceId::Data => true,
        },
        Some(SpaceId::Data) => false,
    }
}

/// Whether a packet of this space may begin a datagram behind the last one: spaces go in their order.
fn is_in_order(last: Option<SpaceId>, space: SpaceId) -> bool
    ensures { result ≡ is_in_order last space }
{
    match last {
        None => true,
        Some(SpaceId::Initial) => true,
        Some(SpaceId::Handshake) => match space {
            SpaceId::Initial => false,
            SpaceId::Handshake => true,
            SpaceId::Data => true,
        },
        Some(SpaceId::Data) => match space {
            SpaceId::Initial => false,
            SpaceId::Handshake => false,
            SpaceId::Data => true,
        },
    }
}

/// How much room for frames a packet of the space has in so many bytes, once it is begun.
fn room_for<U: Suite>(core: &Core<U>, left: usize, space: SpaceId) -> usize
    ensures { result ≡ room_of left (begun_view (ideal U.Random.stream core.now) space false) (form_in core.now.keys space) }
{
    match space {
        SpaceId::Initial => {
            let initial = frame_room(core, left, Form::Initial);
            initial
        }
        SpaceId::Handshake => {
            let handshake = frame_room(core, left, Form::Handshake);
            handshake
        }
        SpaceId::Data => {
            let application = core.short_room(left);
            application
        }
    }
}

/// Whether something waits in the space that has room wherever a packet joins; or its next number can't be spelled, so that the connection
/// ends as its packet is to begin.
fn wants_any<U: Suite>(core: &Core<U>, space: SpaceId) -> bool
    ensures { result ≡ (wants_sending (ideal U.Random.stream core.now) space || (not ((space_of core.now.waiting.spaces space).probes == 0) || is_used_up (ideal U.Random.stream core.now) space)) }
{
    core.wants_sending(space) || (core.waiting.owes_probe(space) || is_used_up(core, space))
}

/// Whether a packet of the space, which owes something, holds some of it in so many bytes: it does, but where no close is owed, and all that is
/// is a DATAGRAM or an ACK for which there is no room. Want of memory is the only refusal.
fn holds<U: Suite>(
    core: &Core<U>,
    alloc: Global,
    now: Instant,
    closing: bool,
    left: usize,
    space: SpaceId,
) -> Result<bool, AllocError>
    ensures lacks { IfOk result (λ some. some ≡ false → LacksIn now left (ideal U.Random.stream core.now) space) }
    ensures has { IfOk result (λ some. some ≡ true → HasIn closing now left (ideal U.Random.stream core.now) space) }
{
    if closing {
        return Ok(true);
    }
    let wants = wants_any(core, space);
    if wants {
        return Ok(true);
    }
    let room = room_for(core, left, space);
    let first = core.datagram_fits(space, room);
    if first {
        return Ok(true);
    }
    let owes = owes_ack(core, space);
    if !owes {
        return Ok(false);
    }
    let fits = ack_fits(core, alloc, now, space, room)?;
    Ok(fits)
}

/// Whether a packet of the space joins the open datagram, which takes another one: its space is a later one, and has something for it. Want
/// of memory is the only refusal.
fn joins<U: Suite>(
    core: &Core<U>,
    alloc: Global,
    now: Instant,
    batch: &Batch,
    space: SpaceId,
) -> Result<bool, AllocError>
    ensures { IfOk result (λ joins. JoinsIs now (ideal U.Random.stream core.now) batch.now space joins) }
{
    let later = is_later(batch.space, space);
    if !later {
        return Ok(false);
    }
    let owes = owes_in(core, batch, space);
    if !owes {
        return Ok(false);
    }
    let left = batch.left();
    let some = holds(core, alloc, now, batch.closing, left, space)?;
    Ok(some)
}

/// Whether a packet may join behind the last one: no key is to seal the close as its next packet, and the open datagram takes another one.
fn joins_more(batch: &Batch) -> bool
    ensures { result ≡ joins_more batch.now }
{
    !batch.worn && batch.takes_another()
}

/// Which space's packet joins the open datagram, by what is known of it behind its last packet: the first behind that of the last one that
/// has something. Want of memory is the only refusal.
pub(crate) fn joining<U: Suite>(
    core: &Core<U>,
    alloc: Global,
    now: Instant,
    batch: &Batch,
) -> Result<Option<SpaceId>, AllocError>
    ensures { IfOk result (λ next. JoiningIs now (ideal U.Random.stream core.now) batch.now next) }
{
    let more = joins_more(batch);
    if !more {
        return Ok(None);
    }
    let handshake = joins(core, alloc, now, batch, SpaceId::Handshake)?;
    if handshake {
        return Ok(Some(SpaceId::Handshake));
    }
    let application = joins(core, alloc, now, batch, SpaceId::Data)?;
    if application {
        return Ok(Some(SpaceId::Data));
    }
    Ok(None)
}

/// What a datagram that a packet of the space would begin comes to, by the limits: the window lets the next spaces have a try.
fn further_by(space: SpaceId, limit: Option<Quiet>) -> Further
    ensures { result ≡ further_by space limit }
{
    match limit {
        None => Further::Begins(space),
        Some(Quiet::Congestion) => Further::Passes,
        Some(Quiet::Pacing) => Further::Paced,
        Some(_) => Further::Ends,
    }
}

/// Whether another datagram may stand behind the open one: no key is to seal the close as its next packet, there may be one more, the last
/// one has the size of the first, and one of that size has room for a packet.
fn goes_on(batch: &Batch) -> bool
    ensures { result ≡ goes_on batch.now }
{
    let more = !batch.worn && batch.made < batch.most;
    more && (batch.is_whole() && JOINING_SIZE <= batch.next_segment())
}

/// Whether the space owes something, and its packet may begin a datagram behind the last packet.
fn begins_behind<U: Suite>(core: &Core<U>, batch: &Batch, space: SpaceId) -> bool
    ensures { result ≡ begins_behind (ideal U.Random.stream core.now) batch.now space }
{
    let behind = batch.is_done() || is_space(space, SpaceId::Initial);
    is_in_order(batch.space, space) && (behind && owes_in(core, batch, space))
}

/// Whether another datagram has too few bytes for a packet of this space: an Initial packet may have to fill it.
fn is_small(batch: &Batch, space: SpaceId) -> bool
    ensures { result ≡ is_small batch.now space }
{
    is_space(space, SpaceId::Initial) && batch.next_segment() < batch.least
}

/// Whether a packet of the space begins another datagram: it may stand behind the last packet, and its space has something for it. Want of
/// memory is the only refusal.
fn further_in<U: Suite>(
    core: &Core<U>,
    alloc: Global,
    now: Instant,
    batch: &Batch,
    space: SpaceId,
) -> Result<Further, AllocError>
    requires full { IsFull now (ideal U.Random.stream core.now) batch.now }
    requires more { goes_on batch.now ≡ true }
    ensures { IfOk result (λ further. FurtherIs ⟦<U as Means>⟧.meaning now (ideal U.Random.stream core.now) batch.now further) }
{
    let begins = begins_behind(core, batch, space);
    if !begins {
        return Ok(Further::Passes);
    }
    let left = batch.next_segment() as usize;
    let some = holds(core, alloc, now, batch.closing, left, space)?;
    if !some {
        return Ok(Further::Passes);
    }
    let small = is_small(batch, space);
    if small {
        return Ok(Further::Ends);
    }
    let limit = core.limit(now, batch, space);
    Ok(further_by(space, limit))
}

/// Whether another space may have something.
fn passes(further: Further) -> bool
    ensures { result ≡ passes further }
{
    match further {
        Further::Begins(_) => false,
        Further::Paced => false,
        Further::Ends => false,
        Further::Passes => true,
    }
}

/// What follows a datagram that no packet joins any more: a further one, where there may be one more and the last one has the size of the
/// first, from the space of the last packet on. Want of memory is the only refusal.
pub(crate) fn find_further<U: Suite>(
    core: &Core<U>,
    alloc: Global,
    now: Instant,
    batch: &Batch,
) -> Result<Further, AllocError>
    requires { IsFull now (ideal U.Random.stream core.now) batch.now }
    ensures { IfOk result (λ further. FurtherIs ⟦<U as Means>⟧.meaning now (ideal U.Random.stream core.now) batch.now further) }
{
    let more = goes_on(batch);
    if !more {
        return Ok(Further::Ends);
    }
    let initial = further_in(core, alloc, now, batch, SpaceId::Initial)?;
    if !passes(initial) {
        return Ok(initial);
    }
    let handshake = further_in(core, alloc, now, batch, SpaceId::Handshake)?;
    if !passes(handshake) {
        return Ok(handshake);
    }
    let application = further_in(core, alloc, now, batch, SpaceId::Data)?;
    Ok(application)
}
