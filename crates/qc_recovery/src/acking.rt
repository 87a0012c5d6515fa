//! An ACK in one packet number space.

ghost use Rattle.std.specs.Prelude.{◌≡◌, ℕ, ◌≤◌, ◌^◌, ◌&&◌, IfOk, OnErr, List, min, []};
ghost use Rattle.qc_base.specs.RangeSet.{Normal};
ghost use Rattle.qc_flight.specs.Packets.{Entry, PassesUpTo, is_acked, up_to};
ghost use Rattle.qc_recovery.specs.Acking.{held_back};
ghost use Rattle.qc_recovery.specs.Steps.{has_eliciting, losses_found, marks_read, path_acked, path_lost, sampled_if, space_after, space_timed, space_with};

use crate::calls::{AckValues, Around, Occasion, Settled};
use crate::ecn::{kept, verdict};
use crate::limits::Limits;
use crate::losses::{delay_of_loss, in_data};
use crate::path::PathData;
use crate::power::power_of_two;
use crate::space::{SpaceRecovery, is_raised, limit_of};
use crate::telling::{shows_persistent, take_sample, tell_acks, tell_ecn, tell_end, tell_losses};
use qc_base::{Duration, Instant, NumberRange, SpaceId};
use qc_flight::{PacketList, Room};
use qc_path::Controller;
use std::alloc::AllocError;

/// Whether one of the packets elicits an ACK.
#[tactic(auto, using(crate::proofs::Places::any_here, crate::proofs::Places::any_more, crate::proofs::Places::any_none))]
fn any_eliciting(packets: &PacketList) -> bool
    ensures { result ≡ has_eliciting packets.now }
{
    let mut place = 0;
    while place < packets.len() {
        let entry = packets.entry(place);
        if entry.1.ack_eliciting {
            return true;
        }
        place += 1;
    }
    false
}

/// For how long the peer held an ACK back.
#[tactic(auto, unfolding(crate::specs::Acking::held_back))]
fn delay_of(space: SpaceId, around: &Around, delay: u64) -> Duration
    ensures { result ≡ held_back space around.now delay }
{
    if !in_data(space) {
        return Duration::ZERO;
    }
    let micros = delay.saturating_mul(power_of_two(u64::from(around.ack_delay_exponent.min(63))));
    let nanos = micros.saturating_mul(1000);
    Duration::from_nanos(nanos.min(around.max_ack_delay.nanos()))
}

fn sample_if<C: Controller>(
    path: &mut PathData<C>,
    takes: bool,
    occasion: &Occasion,
    delay: Duration,
    at: Instant,
)
    ensures { path.new ≡ sampled_if takes occasion.now delay at path.old }
{
    if takes {
        take_sample(
            path,
            occasion.time,
            occasion.space,
            occasion.next,
            delay,
            at,
        );
    }
}

fn both(a: bool, b: bool) -> bool
    ensures { result ≡ (a && b) }
{
    a && b
}

/// The path is told of packets that an ACK newly acknowledges.
#[tactic(auto, unfolding(crate::specs::Steps::path_acked))]
fn tell_acked<C: Controller>(
    path: &mut PathData<C>,
    occasion: &Occasion,
    ack: &AckValues,
    around: &Around,
    raises: bool,
    acked: &PacketList,
    space: &SpaceRecovery,
)
    ensures { path.new ≡ path_acked C.Controller occasion.now ack.now around.now raises acked.now space.now path.old }
{
    let limited = around.app_limited;
    tell_acks(path, occasion.time, occasion.space, limited, acked);
    let in_flight = occasion.others.saturating_add(space.bytes());
    tell_end(path, occasion.time, in_flight, limited, space.greatest);
    let takes = both(raises, any_eliciting(acked));
    let delay = delay_of(occasion.space, around, ack.delay);
    let at = space.kept_at.unwrap_or(occasion.began);
    sample_if(path, takes, occasion, delay, at);
}

/// The path is told of packets that an ACK shows to be lost.
#[tactic(auto, unfolding(crate::specs::Steps::path_lost))]
fn tell_lost<C: Controller>(
    path: &mut PathData<C>,
    limits: &Limits,
    occasion: &Occasion,
    around: &Around,
    lost: &PacketList,
)
    ensures { path.new ≡ path_lost C.Controller limits.now occasion.now around.now lost.now path.old }
{
    let persistent = shows_persistent(path, limits, occasion.space, around.max_ack_delay, lost);
    tell_losses(path, occasion.time, occasion.space, persistent, lost);
}

/// The counts of an ACK are looked at.
#[tactic(auto, unfolding(crate::specs::Steps::marks_read))]
fn read_marks<C: Controller>(
    space: &mut SpaceRecovery,
    path: &mut PathData<C>,
    occasion: &Occasion,
    ack: &AckValues,
    raises: bool,
    acked: &PacketList,
)
    ensures { (lost : List Entry) → space_with space.new path.new acked.now lost ≡ marks_read C.Controller occasion.now ack.now raises acked.now lost space.old path.old }
{
    let shown = verdict(
        path.sending_ecn,
        raises,
        space.counts,
        ack.ecn,
        acked.len() as u64,
    );
    space.counts = kept(shown, space.counts, ack.ecn);
    let at = space.kept_at.unwrap_or(occasion.began);
    tell_ecn(path, occasion.time, at, shown);
}

/// Loss is looked for below the greatest number acknowledged.
#[tactic(auto, unfolding(crate::specs::Steps::losses_found))]
fn find_losses<C: Controller>(
    space: &mut SpaceRecovery,
    path: &mut PathData<C>,
    limits: &Limits,
    occasion: &Occasion,
    ack: &AckValues,
    around: &Around,
    raises: bool,
    largest: u64,
    acked: &PacketList,
    room: Room,
) -> PacketList
    requires { up_to largest space.old.flight ≤ room }
    ensures { space_with space.new path.new acked.now result ≡ losses_found C.Controller limits.now occasion.now ack.now around.now raises largest acked.now space.old path.old }
{
    let delay = delay_of_loss(limits, &path.rtt);
    let lost = space.take_lost(limits, occasion.time, delay, largest, room);
    tell_lost(path, limits, occasion, around, &lost);
    read_marks(space, path, occasion, ack, raises, acked);
    lost
}

/// An ACK in one space. After want of memory all is as before.
#[tactic(auto, unfolding(crate::specs::Steps::space_after))]
pub(crate) fn acknowledge<C: Controller>(
    space: &mut SpaceRecovery,
    path: &mut PathData<C>,
    limits: &Limits,
    occasion: &Occasion,
    ack: &AckValues,
    ranges: &[NumberRange],
    around: &Around,
) -> Result<Settled, AllocError>
    requires normal { Normal ranges.now }
    requires largest { PassesUpTo ack.now.largest (is_acked ranges.now) }
    ensures ok { IfOk result (λ s. space_with space.new path.new s.acked s.lost ≡ space_after C.Controller limits.now occasion.now ack.now ranges.now around.now space.old path.old) }
    ensures space { OnErr result (space.new ≡ space.old) }
    ensures path { OnErr result (path.new ≡ path.old) }
{
    let raises = is_raised(space.greatest, ack.largest);
    let largest = limit_of(space.greatest, ack.largest);
    let room = space.flight.room(ack.largest)?;
    let room_for_lost = space.flight.room(largest)?;
    let acked = space.acknowledge(ack.largest, ranges, room);
    if acked.is_empty() {
        read_marks(space, path, occasion, ack, raises, &acked);
        return Ok(Settled {
            acked,
            lost: PacketList::none(room_for_lost),
        });
    }
    tell_acked(path, occasion, ack, around, raises, &acked, space);
    let lost = find_losses(
        space,
        path,
        limits,
        occasion,
        ack,
        around,
        raises,
        largest,
        &acked,
        room_for_lost,
    );
    Ok(Settled { acked, lost })
}

/// Packets of one space are lost for their age. After want of memory all is as before.
#[tactic(auto, unfolding(crate::specs::Steps::space_timed))]
pub(crate) fn lose<C: Controller>(
    space: &mut SpaceRecovery,
    path: &mut PathData<C>,
    limits: &Limits,
    now: Instant,
    id: SpaceId,
) -> Result<PacketList, AllocError>
    ensures ok { IfOk result (λ lost. space_with space.new path.new [] lost ≡ space_timed C.Controller limits.now now id space.old path.old) }
    ensures space { OnErr result (space.new ≡ space.old) }
    ensures path { OnErr result (path.new ≡ path.old) }
{
    let largest = space.greatest.unwrap_or(0);
    let room = space.flight.room(largest)?;
    let delay = delay_of_loss(limits, &path.rtt);
    let lost = space.take_lost(limits, now, delay, largest, room);
    tell_losses(path, now, id, false, &lost);
    Ok(lost)
}
