//! Loss recovery over the three packet number spaces (RFC 9002).

ghost use Rattle.std.specs.Prelude.{◌≡◌, ◌↔◌, if◌then◌else◌, IfOk, IsTrue, OnErr, OnOk};
ghost use Rattle.std.specs.Option.{option_copied};
ghost use Rattle.qc_base.specs.RangeSet.{Normal};
ghost use Rattle.qc_flight.specs.Packets.{AllBelow, PassesUpTo, first_of, is_acked};
ghost use Rattle.qc_frame.specs.Frame.{ack_map};
ghost use Rattle.qc_frame.specs.FrameFits.{Fits};
ghost use Rattle.qc_frame.specs.declared.frames.FrameOf.TheVariants as frames;
ghost use Rattle.qc_recovery.specs.Frames.{ranges_up_of, values_of};
ghost use Rattle.qc_recovery.specs.Calls.{begun_recovery, dropped_after};
ghost use Rattle.qc_recovery.specs.Steps.{ack_after, after_with, all_bytes, armed_at, backed_off, count_after, fired_with, is_handshake, is_quiet, later_by, loss_first, losses_fired, other_bytes, path_dropped, placed, probe_fired, probe_first, probe_in, probe_line, probe_of_nothing, probe_timeout, probes_of, sent_after, sooner, space_after, space_of, space_timed, time_of, timed, timeout_after, was_acknowledged};

use crate::ack::{ranges_up, values};
use crate::acking::{acknowledge, lose};
use crate::calls::{AckValues, Around, Fired, Occasion, Settled};
use crate::limits::Limits;
use crate::losses::in_data;
use crate::path::PathData;
use crate::power::power_of_two;
use crate::space::SpaceRecovery;
use crate::transport_config::TransportConfig;
use qc_base::{Duration, Instant, NumberRange, SpaceId};
use qc_flight::{PacketList, SentPacket};
use qc_frame::{Ack, ranges_lie_apart};
use qc_path::{Controller, RttEstimator};
use std::alloc::{AllocError, Global};

/// The packets in flight of all spaces, and what is known of those that were acknowledged.
#[derive(Drop)]
pub struct Recovery {
    initial: SpaceRecovery,
    handshake: SpaceRecovery,
    application: SpaceRecovery,
    limits: Limits,
    count: u64,
}

fn earlier_of(
    first: (Instant, SpaceId),
    b: Option<(Instant, SpaceId)>,
) -> Option<(Instant, SpaceId)>
    ensures { result ≡ sooner (Some first) b }
{
    match b {
        None => Some(first),
        Some(second) => {
            if second.0.nanos() < first.0.nanos() {
                Some(second)
            } else {
                Some(first)
            }
        }
    }
}

fn earlier(
    a: Option<(Instant, SpaceId)>,
    b: Option<(Instant, SpaceId)>,
) -> Option<(Instant, SpaceId)>
    ensures { result ≡ sooner a b }
{
    match a {
        None => b,
        Some(first) => earlier_of(first, b),
    }
}

fn due(space: SpaceId, time: Option<Instant>) -> Option<(Instant, SpaceId)>
    ensures { result ≡ timed space time }
{
    match time {
        None => None,
        Some(time) => Some((time, space)),
    }
}

fn after(duration: Duration, time: Option<Instant>) -> Option<Instant>
    ensures { result ≡ later_by duration time }
{
    match time {
        None => None,
        Some(time) => Some(time.plus(duration)),
    }
}

fn time(due: Option<(Instant, SpaceId)>) -> Option<Instant>
    ensures { result ≡ time_of due }
{
    match due {
        None => None,
        Some(due) => Some(due.0),
    }
}

fn is_handshake_space(space: SpaceId) -> bool
    ensures { result ≡ is_handshake space }
{
    match space {
        SpaceId::Handshake => true,
        SpaceId::Initial | SpaceId::Data => false,
    }
}

/// A duration, doubled for each time that the timer fired without an answer.
#[tactic(auto, unfolding(crate::specs::Steps::backed_off))]
fn back_off(duration: Duration, count: u64) -> Duration
    ensures { result ≡ backed_off duration count }
{
    duration.times(power_of_two(count.min(16)))
}

/// The probe timeout of a space, but for how often it is doubled.
#[tactic(auto, unfolding(crate::specs::Steps::probe_timeout))]
fn timeout_of(space: SpaceId, around: &Around, rtt: &RttEstimator) -> Duration
    ensures { result ≡ probe_timeout space around.now rtt.now }
{
    let base = rtt.pto_base();
    if in_data(space) {
        base.plus(around.max_ack_delay)
    } else {
        base.plus(Duration::ZERO)
    }
}

/// When a space is probed.
#[tactic(auto, unfolding(crate::specs::Steps::probe_in))]
fn probe_of(
    id: SpaceId,
    around: &Around,
    rtt: &RttEstimator,
    count: u64,
    space: &SpaceRecovery,
) -> Option<(Instant, SpaceId)>
    ensures { result ≡ probe_in id around.now rtt.now count space.now }
{
    if space.flight.counted() == 0 {
        return None;
    }
    let timeout = back_off(timeout_of(id, around, rtt), count);
    due(id, after(timeout, space.eliciting_at))
}

fn if_keys(keys: bool, time: Instant, space: SpaceId) -> Option<(Instant, SpaceId)>
    ensures { result ≡ (if keys then Some (time, space) else None) }
{
    if keys { Some((time, space)) } else { None }
}

impl Recovery {
    /// Nothing is in flight; the thresholds are those of the configuration. No memory is taken.
    #[tactic(auto, unfolding(crate::specs::Calls::begun_recovery))]
    pub fn new(alloc: Global, config: &TransportConfig) -> Recovery
        ensures { result ≡ begun_recovery config.now }
    {
        let threshold = config.get_time_threshold();
        Recovery {
            initial: SpaceRecovery::new(alloc),
            handshake: SpaceRecovery::new(alloc),
            application: SpaceRecovery::new(alloc),
            limits: Limits {
                packet_threshold: u64::from(config.get_packet_threshold()),
                time_numerator: u64::from(threshold.0),
                time_denominator: u64::from(threshold.1),
                persistent: u64::from(config.get_persistent_congestion_threshold()),
            },
            count: 0,
        }
    }

    /// A packet is in flight; its number is above every earlier one of the space. After want of
    /// memory all is as before.
    #[tactic(auto, unfolding(crate::specs::Steps::sent_after))]
    pub fn sent(
        &mut self,
        space: SpaceId,
        number: u64,
        packet: SentPacket,
    ) -> Result<(), AllocError>
        requires { AllBelow number (space_of space self.old).flight }
        ensures ok { OnOk result (self.new ≡ sent_after space number packet self.old) }
        ensures err { OnErr result (self.new ≡ self.old) }
    {
        match space {
            SpaceId::Initial => self.initial.sent(number, packet),
            SpaceId::Handshake => self.handshake.sent(number, packet),
            SpaceId::Data => self.application.sent(number, packet),
        }
    }

    /// Whether a number is above those of all packets in flight of a space.
    pub fn is_above(&self, space: SpaceId, number: u64) -> bool
        ensures { IsTrue result ↔ AllBelow number (space_of space self.now).flight }
    {
        match space {
            SpaceId::Initial => self.initial.flight.is_above(number),
            SpaceId::Handshake => self.handshake.flight.is_above(number),
            SpaceId::Data => self.application.flight.is_above(number),
        }
    }

    /// The bytes in flight of the spaces but for this one, at most 2^64 - 1.
    fn bytes_beside(&self, space: SpaceId) -> u64
        ensures { result ≡ other_bytes space self.now }
    {
        match space {
            SpaceId::Initial => {
                let bytes = self.handshake.bytes();
                bytes.saturating_add(self.application.bytes())
            }
            SpaceId::Handshake => {
                let bytes = self.initial.bytes();
                bytes.saturating_add(self.application.bytes())
            }
            SpaceId::Data => {
                let bytes = self.initial.bytes();
                bytes.saturating_add(self.handshake.bytes())
            }
        }
    }

    /// The bytes of the packets in flight that count, of all spaces, at most 2^64 - 1.
    #[tactic(auto, unfolding(crate::specs::Steps::all_bytes))]
    pub fn in_flight(&self) -> u64
        ensures { result ≡ all_bytes self.now }
    {
        let bytes = self.initial.bytes();
        let bytes = bytes.saturating_add(self.handshake.bytes());
        bytes.saturating_add(self.application.bytes())
    }

    fn acknowledge_in<C: Controller>(
        &mut self,
        occasion: &Occasion,
        ack: &AckValues,
        ranges: &[NumberRange],
        around: &Around,
        path: &mut PathData<C>,
    ) -> Result<Settled, AllocError>
        requires normal { Normal ranges.now }
        requires largest { PassesUpTo ack.now.largest (is_acked ranges.now) }
        ensures ok { IfOk result (λ s. after_with self.new path.new s.acked s.lost ≡ placed occasion.now.space self.old (space_after C.Controller self.old.limits occasion.now ack.now ranges.now around.now (space_of occasion.now.space self.old) path.old)) }
        ensures recovery { OnErr result (self.new ≡ self.old) }
        ensures path { OnErr result (path.new ≡ path.old) }
    {
        let limits = self.limits;
        match occasion.space {
            SpaceId::Initial => {
                acknowledge(
                    &mut self.initial,
                    path,
                    &limits,
                    occasion,
                    ack,
                    ranges,
                    around,
                )
            }
            SpaceId::Handshake => {
                acknowledge(
                    &mut self.handshake,
                    path,
                    &limits,
                    occasion,
                    ack,
                    ranges,
                    around,
                )
            }
            SpaceId::Data => {
                acknowledge(
                    &mut self.application,
                    path,
                    &limits,
                    occasion,
                    ack,
                    ranges,
                    around,
                )
            }
        }
    }

    /// An ACK came. `next` is the number that the space seals next, and `began` the moment at which
    /// it began. After want of memory all is as before.
    #[tactic(auto, using(crate::proofs::AckedRanges::up_to_largest))]
    pub fn on_ack<C: Controller>(
        &mut self,
        alloc: Global,
        now: Instant,
        space: SpaceId,
        next: u64,
        began: Instant,
        ack: &Ack<'_>,
        around: &Around,
        path: &mut PathData<C>,
    ) -> Result<Settled, AllocError>
        requires { Fits (frames.Ack (ack_map (λ bytes. bytes.now) ack.now)) }
        ensures ok { IfOk result (λ s. after_with self.new path.new s.acked s.lost ≡ ack_after C.Controller now space next began (values_of (ack_map (λ bytes. bytes.now) ack.now)) (ranges_up_of (ack_map (λ bytes. bytes.now) ack.now)) around.now self.old path.old) }
        ensures recovery { OnErr result (self.new ≡ self.old) }
        ensures path { OnErr result (path.new ≡ path.old) }
    {
        ranges_lie_apart();
        let ranges = ranges_up(alloc, ack)?;
        let values = values(ack);
        self.on_ranges(
            now,
            space,
            next,
            began,
            &values,
            ranges.as_slice(),
            around,
            path,
        )
    }

    /// An ACK came, which names the numbers of `ranges`, from low to high, up to the largest one.
    #[tactic(auto, unfolding(crate::specs::Steps::ack_after))]
    pub(crate) fn on_ranges<C: Controller>(
        &mut self,
        now: Instant,
        space: SpaceId,
        next: u64,
        began: Instant,
        ack: &AckValues,
        ranges: &[NumberRange],
        around: &Around,
        path: &mut PathData<C>,
    ) -> Result<Settled, AllocError>
        requires normal { Normal ranges.now }
        requires largest { PassesUpTo ack.now.largest (is_acked ranges.now) }
        ensures ok { IfOk result (λ s. after_with self.new path.new s.acked s.lost ≡ ack_after C.Controller now space next began ack.now ranges.now around.now self.old path.old) }
        ensures recovery { OnErr result (self.new ≡ self.old) }
        ensures path { OnErr result (path.new ≡ path.old) }
    {
        let occasion = Occasion {
            time: now,
            space,
            next,
            began,
            others: self.bytes_beside(space),
        };
        let settled = self.acknowledge_in(&occasion, ack, ranges, around, path)?;
        self.count = count_of(around, &settled.acked, self.count);
        Ok(settled)
    }

    /// The space's packets in flight leave the flight.
    #[tactic(auto, unfolding(crate::specs::Calls::dropped_after))]
    fn drop_space(&mut self, space: SpaceId) -> PacketList
        ensures all { result ≡ (space_of space self.old).flight }
        ensures recovery { self.new ≡ dropped_after space self.old }
    {
        match space {
            SpaceId::Initial => self.initial.discard(),
            SpaceId::Handshake => self.handshake.discard(),
            SpaceId::Data => self.application.discard(),
        }
    }

    /// A space is dropped: its packets leave the flight, and are the answer. No memory is taken.
    #[tactic(auto, unfolding(crate::specs::Steps::path_dropped))]
    pub fn discard<C: Controller>(&mut self, space: SpaceId, path: &mut PathData<C>) -> PacketList
        ensures all { result ≡ (space_of space self.old).flight }
        ensures recovery { self.new ≡ dropped_after space self.old }
        ensures path { path.new ≡ path_dropped space path.old }
    {
        if in_data(space) {
            path.mtud.forget_probe();
        }
        self.drop_space(space)
    }

    /// The space's packet in flight with the least number; None exactly where there is none.
    pub fn oldest(&self, space: SpaceId) -> Option<&SentPacket>
        ensures { option_copied result ≡ first_of (space_of space self.now).flight }
    {
        match space {
            SpaceId::Initial => self.initial.flight.oldest(),
            SpaceId::Handshake => self.handshake.flight.oldest(),
            SpaceId::Data => self.application.flight.oldest(),
        }
    }

    /// Whether the peer sent an ACK in the space.
    pub fn was_acknowledged(&self, space: SpaceId) -> bool
        ensures { result ≡ was_acknowledged space self.now }
    {
        match space {
            SpaceId::Initial => self.initial.greatest.is_some(),
            SpaceId::Handshake => self.handshake.greatest.is_some(),
            SpaceId::Data => self.application.greatest.is_some(),
        }
    }

    /// The probe timeout of a space (RFC 9002, section 6.2.1), but for how often it is doubled.
    pub fn pto(&self, space: SpaceId, around: &Around, rtt: &RttEstimator) -> Duration
        ensures { result ≡ probe_timeout space around.now rtt.now }
    {
        timeout_of(space, around, rtt)
    }

    #[tactic(auto, unfolding(crate::specs::Steps::is_quiet))]
    fn is_quiet(&self) -> bool
        ensures { result ≡ is_quiet self.now }
    {
        self.initial.flight.eliciting() == 0
            && self.handshake.flight.eliciting() == 0
            && self.application.flight.eliciting() == 0
    }

    #[tactic(auto, unfolding(crate::specs::Steps::loss_first))]
    fn first_loss(&self) -> Option<(Instant, SpaceId)>
        ensures { result ≡ loss_first self.now }
    {
        let initial = due(SpaceId::Initial, self.initial.loss_time);
        let handshake = due(SpaceId::Handshake, self.handshake.loss_time);
        let application = due(SpaceId::Data, self.application.loss_time);
        earlier(earlier(initial, handshake), application)
    }

    #[tactic(auto, unfolding(crate::specs::Steps::probe_of_nothing))]
    fn probe_without_packets(
        &self,
        now: Instant,
        around: &Around,
        rtt: &RttEstimator,
    ) -> Option<(Instant, SpaceId)>
        ensures { result ≡ probe_of_nothing now around.now rtt.now self.now }
    {
        let time = now.plus(back_off(rtt.pto_base(), self.count));
        if is_handshake_space(around.highest) {
            return if_keys(around.handshake_keys, time, SpaceId::Handshake);
        }
        if_keys(around.initial_keys, time, SpaceId::Initial)
    }

    fn data_probe(&self, around: &Around, rtt: &RttEstimator) -> Option<(Instant, SpaceId)>
        ensures { result ≡ (if around.now.handshake_over then probe_in SpaceId.Data around.now rtt.now self.now.count self.now.application else None) }
    {
        if around.handshake_over {
            probe_of(SpaceId::Data, around, rtt, self.count, &self.application)
        } else {
            None
        }
    }

    #[tactic(auto, unfolding(crate::specs::Steps::probe_first))]
    fn first_probe(&self, around: &Around, rtt: &RttEstimator) -> Option<(Instant, SpaceId)>
        ensures { result ≡ probe_first around.now rtt.now self.now }
    {
        let initial = probe_of(SpaceId::Initial, around, rtt, self.count, &self.initial);
        let handshake = probe_of(SpaceId::Handshake, around, rtt, self.count, &self.handshake);
        earlier(earlier(initial, handshake), self.data_probe(around, rtt))
    }

    #[inline(always)]
    #[tactic(auto, unfolding(crate::specs::Steps::probe_line))]
    fn line(&self, now: Instant, around: &Around, rtt: &RttEstimator) -> Option<(Instant, SpaceId)>
        ensures { result ≡ probe_line now around.now rtt.now self.now }
    {
        if around.blocked {
            return None;
        }
        let quiet = self.is_quiet();
        if quiet && around.peer_validated {
            return None;
        }
        if quiet {
            return self.probe_without_packets(now, around, rtt);
        }
        self.first_probe(around, rtt)
    }

    /// The time of the loss timer (RFC 9002, appendix A.8); None where it is stopped. No packet is
    /// looked at.
    #[tactic(auto, unfolding(crate::specs::Steps::armed_at))]
    pub fn arm<C: Controller>(
        &self,
        now: Instant,
        around: &Around,
        path: &PathData<C>,
    ) -> Option<Instant>
        ensures { result ≡ armed_at now around.now path.now.rtt self.now }
    {
        match self.first_loss() {
            Some(loss) => Some(loss.0),
            None => time(self.line(now, around, &path.rtt)),
        }
    }

    fn lose_in<C: Controller>(
        &mut self,
        now: Instant,
        id: SpaceId,
        path: &mut PathData<C>,
    ) -> Result<Fired, AllocError>
        ensures ok { IfOk result (λ f. fired_with self.new path.new f ≡ losses_fired id self.old (space_timed C.Controller self.old.limits now id (space_of id self.old) path.old)) }
        ensures recovery { OnErr result (self.new ≡ self.old) }
        ensures path { OnErr result (path.new ≡ path.old) }
    {
        let limits = self.limits;
        let packets = match id {
            SpaceId::Initial => lose(&mut self.initial, path, &limits, now, id)?,
            SpaceId::Handshake => lose(&mut self.handshake, path, &limits, now, id)?,
            SpaceId::Data => lose(&mut self.application, path, &limits, now, id)?,
        };
        Ok(Fired::Lost { space: id, packets })
    }

    fn probes(&self) -> u8
        ensures { result ≡ probes_of self.now }
    {
        if self.is_quiet() { 1 } else { 2 }
    }

    fn probe<C: Controller>(&mut self, due: Option<(Instant, SpaceId)>, path: &PathData<C>) -> Fired
        ensures { fired_with self.new path.now result ≡ probe_fired due self.old path.now }
    {
        match due {
            None => Fired::Nothing,
            Some(due) => {
                let count = self.probes();
                self.count = self.count.saturating_add(1);
                Fired::Probe {
                    space: due.1,
                    count,
                }
            }
        }
    }

    /// The loss timer fires (RFC 9002, appendix A.9). After want of memory all is as before.
    #[tactic(auto, unfolding(crate::specs::Steps::timeout_after))]
    pub fn on_timeout<C: Controller>(
        &mut self,
        now: Instant,
        around: &Around,
        path: &mut PathData<C>,
    ) -> Result<Fired, AllocError>
        ensures ok { IfOk result (λ f. fired_with self.new path.new f ≡ timeout_after C.Controller now around.now self.old path.old) }
        ensures recovery { OnErr result (self.new ≡ self.old) }
        ensures path { OnErr result (path.new ≡ path.old) }
    {
        match self.first_loss() {
            Some(loss) => self.lose_in(now, loss.1, path),
            None => {
                let due = self.line(now, around, &path.rtt);
                Ok(self.probe(due, path))
            }
        }
    }
}

fn count_of(around: &Around, acked: &PacketList, count: u64) -> u64
    ensures { result ≡ count_after around.now acked.now count }
{
    if around.peer_validated && !acked.is_empty() {
        0
    } else {
        count
    }
}
