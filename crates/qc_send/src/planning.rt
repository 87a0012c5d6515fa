//! How many bytes a packet is to have, and what follows it.

ghost use Rattle.std.specs.Prelude.{◌≡◌, ◌+◌, ◌-◌, ◌≤◌, length, IfOk};
ghost use Rattle.qc_base.specs.PacketNumber.{number_len, number_of};
ghost use Rattle.qc_frame.specs.FrameSpelling.{frames_spelling};
ghost use Rattle.qc_send.specs.Filling.{batch_planned, size_to};
ghost use Rattle.qc_send.specs.Joining.{JoiningIs, evens_out, least_by, least_last};
ghost use Rattle.qc_state.specs.Forms.{number_space};
ghost use Rattle.qc_state.specs.Numbers.{acked_number, next_number};
ghost use Rattle.qc_state.specs.Sending.{room_of};
ghost use Rattle.qc_state.specs.View.{ideal};

use crate::joining::joining;
use crate::owing::next_number;
use crate::sealing::{TAG, fills_up, spelled_number};
use qc_base::{Instant, SpaceId};
use qc_core::Core;
use qc_frame::FrameList;
use qc_state::{Batch, Form, Means, Suite};
use std::alloc::{AllocError, Global};

/// What is to become of a packet whose frames were taken.
#[derive(Clone, Copy)]
pub(crate) struct Plan {
    /// The space of the packet that joins its datagram, if one does.
    pub next: Option<SpaceId>,
    /// How many bytes it is to have at least.
    pub least: usize,
}

/// How many bytes a packet has without PADDING whose frames stand in so much room, of so many bytes that are left for it.
pub(crate) fn plain_size(left: usize, room: usize, frames: &FrameList) -> usize
    requires within { room ≤ left }
    requires fits { length (frames_spelling frames.now) ≤ room }
    requires most { left ≤ 16383 }
    ensures { result ≡ left - room + length (frames_spelling frames.now) }
{
    (left - room).saturating_add(frames.spelled_len())
}

/// How many bytes the number of the next packet has, which is of this form.
pub(crate) fn number_len<U: Suite>(core: &Core<U>, form: Form) -> usize
    ensures value { result ≡ number_len (number_of (next_number core.now.numbers (number_space form)) (acked_number core.now.numbers (number_space form))) }
    ensures most { result ≤ 4 }
{
    let space = form.space();
    spelled_number(core.numbers.next(space), core.numbers.acked_number(space)).len()
}

/// How many bytes the id has that packets carry.
pub(crate) fn cid_len<U: Suite>(core: &Core<U>) -> usize
    ensures value { result ≡ length core.now.paths.current.remote_cid }
    ensures most { result ≤ 20 }
{
    core.paths.current.remote_cid.len()
}

/// How many bytes a packet of this form has with the PADDING that it needs for itself: 4 from its number on beside its tag, which header
/// protection samples, and 6 beside its destination id and its tag. Its frames stand in so much room, of so many bytes that are left for it.
fn needed_size<U: Suite>(
    core: &Core<U>,
    form: Form,
    left: usize,
    room: usize,
    frames: &FrameList,
) -> usize
    requires room { room ≡ room_of left (ideal U.Random.stream core.now) form }
    requires wide { 25 ≤ room }
    requires within { room ≤ left }
    requires fits { length (frames_spelling frames.now) ≤ room }
    requires most { left ≤ 16383 }
    ensures { result ≡ size_to (ideal U.Random.stream core.now) form 0 frames.now }
{
    let plain = plain_size(left, room, frames);
    let number = number_len(core, form);
    let sample = left - room + 4 - number;
    let most = plain.max(sample);
    let cid = cid_len(core);
    most.max(cid + 6 + TAG)
}

/// What is known of the datagrams behind a packet of this form with these frames that has as many bytes as it needs for itself, by the batch
/// once it was begun. The frames stand in so much room.
fn planned<U: Suite>(
    core: &Core<U>,
    batch: &Batch,
    form: Form,
    room: usize,
    nearly: bool,
    frames: &FrameList,
) -> Batch
    requires room { room ≡ room_of (batch.now.capacity - batch.now.filled) (ideal U.Random.stream core.now) form }
    requires wide { 25 ≤ room }
    requires within { room ≤ batch.now.capacity - batch.now.filled }
    requires fits { length (frames_spelling frames.now) ≤ room }
    requires most { batch.now.capacity - batch.now.filled ≤ 16383 }
    ensures { result ≡ batch_planned (ideal U.Random.stream core.now) form nearly frames.now batch.now }
{
    let space = form.space();
    let needed = needed_size(core, form, batch.left(), room, frames);
    let number = next_number(core, space);
    let fills = fills_up(core, form, frames);
    let mut behind = *batch;
    behind.grow(form, number, needed as u64, 0, fills, nearly);
    behind
}

/// Whether a later datagram gets the size of those before it, for which at most 16 bytes lack.
fn evens_out(batch: &Batch) -> bool
    ensures { result ≡ evens_out batch.now }
{
    let lacks = batch.segment.saturating_sub(batch.filled);
    1 < batch.made && (lacks <= 16 && batch.segment <= batch.capacity)
}

/// How many bytes a packet is to have at least that is the last one of its datagram: so many that this is filled up, where it is to be, or gets
/// the size of those before it. The batch is that behind it, and `before` is how many bytes the datagram has before it.
fn least_last(batch: &Batch, before: u64) -> usize
    ensures { result ≡ least_last batch.now before }
{
    let wanted = batch.wanted();
    if 0 < wanted {
        return wanted.saturating_sub(before) as usize;
    }
    let evens = evens_out(batch);
    if evens {
        return batch.segment.saturating_sub(before) as usize;
    }
    0
}

/// How many bytes a packet is to have at least: one that another one joins, none.
fn least_by(next: Option<SpaceId>, batch: &Batch, before: u64) -> usize
    ensures { result ≡ least_by next batch.now before }
{
    match next {
        Some(_) => 0,
        None => least_last(batch, before),
    }
}

/// What is to become of a packet of this form whose frames were taken, by the batch once it was begun: which packet joins its datagram, and how
/// many bytes it is to have at least. The frames stand in so much room. Want of memory is the only refusal.
pub(crate) fn plan_packet<U: Suite>(
    core: &Core<U>,
    alloc: Global,
    now: Instant,
    batch: &Batch,
    form: Form,
    room: usize,
    nearly: bool,
    frames: &FrameList,
) -> Result<Plan, AllocError>
    requires room { room ≡ room_of (batch.now.capacity - batch.now.filled) (ideal U.Random.stream core.now) form }
    requires wide { 25 ≤ room }
    requires within { room ≤ batch.now.capacity - batch.now.filled }
    requires fits { length (frames_spelling frames.now) ≤ room }
    requires most { batch.now.capacity - batch.now.filled ≤ 16383 }
    ensures next { IfOk result (λ plan. JoiningIs now (ideal U.Random.stream core.now) (batch_planned (ideal U.Random.stream core.now) form nearly frames.now batch.now) plan.next) }
    ensures least { IfOk result (λ plan. plan.least ≡ least_by plan.next (batch_planned (ideal U.Random.stream core.now) form nearly frames.now batch.now) batch.now.filled) }
{
    let behind = planned(core, batch, form, room, nearly, frames);
    let next = joining(core, alloc, now, &behind)?;
    let least = least_by(next, &behind, batch.filled);
    Ok(Plan { next, least })
}
