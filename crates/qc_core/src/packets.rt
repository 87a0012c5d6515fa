//! What a packet changes in the groups as it is sealed, or accepted, and what its ACK does.

ghost use Rattle.std.specs.Prelude.{◌≡◌, ◌<◌, ◌^◌, ◌==◌, length, nat_le, not, IfOk, OnOk};
ghost use Rattle.qc_path.specs.Arrived.{arrived};
ghost use Rattle.qc_state.specs.Forms.{number_space};
ghost use Rattle.qc_state.specs.Keys.{key_used};
ghost use Rattle.qc_state.specs.Numbers.{came_in, number_accepted, number_acked, number_used, received_number};
ghost use Rattle.qc_state.specs.Paths.{path_accepted, path_spun};
ghost use Rattle.qc_state.specs.Timers.{timers_accepted, timers_holding};
ghost use Rattle.qc_state.specs.Waiting.{bundle_next, holds_back, packet_came, packet_told, packets_acked, packets_lost};

use qc_base::{Duration, EcnCodepoint, Instant, Side, SpaceId};
use qc_frame::FrameList;
use qc_path::{Arrival, Controller};
use qc_recovery::Settled;
use qc_state::{Form, KeyGroup, Numbers, Paths, Timers, Verdict, Waiting};
use std::alloc::AllocError;

/// A packet of the form with this number is sealed: its number and its key are used.
pub(crate) fn use_number<H: Drop, P: Drop>(
    numbers: &mut Numbers,
    keys: &mut KeyGroup<H, P>,
    form: Form,
    number: u64,
)
    requires { number < 2 ^ 62 }
    ensures numbers { numbers.new ≡ number_used numbers.old (number_space form) number }
    ensures keys { keys.new ≡ key_used keys.old form number }
{
    numbers.used(form.space(), number);
    keys.used(form, number);
}

/// A packet with these frames is sealed, in the last of the spaces with keys or not: it is told of what waits, and behind an ACK no other
/// one is bundled before `next`.
pub(crate) fn tell_waiting(waiting: &mut Waiting, last: bool, frames: &FrameList, next: Instant)
    ensures { waiting.new ≡ bundle_next (packet_told waiting.old last) frames.now next }
{
    waiting.tell(last);
    waiting.bundle_next(frames, next);
}

/// A packet of the space came with this mark and is accepted. Answers whether its number is the greatest one of the space so far,
/// and whether its ACK is held back from now on.
#[tactic(auto, using(qc_state::proofs::Arrivals::came_accepted))]
pub(crate) fn enter(
    numbers: &mut Numbers,
    waiting: &mut Waiting,
    space: SpaceId,
    packet: &Arrival,
    mark: Option<EcnCodepoint>,
) -> (bool, bool)
    ensures numbers { numbers.new ≡ number_accepted numbers.old space packet.now.number }
    ensures waiting { waiting.new ≡ packet_came waiting.old space (arrived packet.now.number (came_in numbers.old space)) packet.now mark }
    ensures greatest { result.0 ≡ nat_le (received_number numbers.old space) packet.now.number }
    ensures holds { result.1 ≡ holds_back waiting.old space (arrived packet.now.number (came_in numbers.old space)) packet.now }
{
    let greatest = numbers.received(space) <= packet.number;
    numbers.accepted(space, packet.number);
    let holds = waiting.came(space, numbers.came(space), packet, mark);
    (greatest, holds)
}

/// A packet of the space with this spin bit is accepted by an end of this side, the greatest one of its space so far or not.
pub(crate) fn accept_on<C: Controller>(
    paths: &mut Paths<C>,
    space: SpaceId,
    verdict: Verdict,
    side: Side,
    greatest: bool,
    spin: bool,
)
    ensures { paths.new ≡ path_spun (path_accepted paths.old space verdict) side greatest spin }
{
    paths.accepted(space, verdict);
    paths.spun(side, greatest, spin);
}

/// A packet is accepted, whose ACK is held back from now on or not.
pub(crate) fn set_accepted(
    timers: &mut Timers,
    limit: Option<Duration>,
    probe: Duration,
    holds: bool,
    now: Instant,
)
    ensures { timers.new ≡ timers_holding (timers_accepted timers.old limit probe now) holds now }
{
    timers.accepted(limit, probe, now);
    timers.hold(holds, now);
}

/// An ACK of the space with this largest number acknowledged packets, by which others are lost. Answers whether some are newly
/// acknowledged. Want of memory is the only refusal.
pub(crate) fn settle_in(
    numbers: &mut Numbers,
    waiting: &mut Waiting,
    space: SpaceId,
    largest: u64,
    settled: Settled,
) -> Result<bool, AllocError>
    ensures newly { IfOk result (λ newly. newly ≡ not (length settled.acked == 0)) }
    ensures numbers { numbers.new ≡ number_acked numbers.old space largest }
    ensures waiting { OnOk result (waiting.new ≡ packets_lost (packets_acked waiting.old space settled.acked) space settled.lost) }
{
    let newly = !settled.acked.is_empty();
    numbers.acked(space, largest);
    waiting.settle(space, settled)?;
    Ok(newly)
}
