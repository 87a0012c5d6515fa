//! The moves of a connection, one function each.

ghost use Rattle.std.specs.Prelude.{◌≡◌, [], ◌+◌, ◌-◌, ◌<◌, ◌≤◌, ◌^◌, ◌==◌, ◌++◌, Err, true, false, length, map, not, option_to_list, slice_get, if◌then◌else◌, OnOk, OnErr, IfOk, ◌∷◌};
ghost use Rattle.qc_assembler.specs.Assembly.{inserted, part_count};
ghost use Rattle.qc_state.specs.Acks.{AckPart, is_ack, may_acknowledge};
ghost use Rattle.qc_state.specs.Life.{ready_event, connected_event, lost_event, first_notice, drained_event};
ghost use Rattle.qc_state.specs.Lower.{handed_stop, packet_flown, ready_bytes, stream_of};
ghost use Rattle.qc_frame.specs.Frame.{ack_map, borrowed};
ghost use Rattle.qc_frame.specs.FrameFits.{Fits};
ghost use Rattle.qc_frame.specs.FrameSpelling.{elicits, frames_spelling};
ghost use Rattle.qc_frame.specs.declared.frames.FrameOf.TheVariants as frames;
ghost use Rattle.std.specs.List.{list_any};
ghost use Rattle.qc_state.specs.Flight.{flown_packet};
ghost use Rattle.qc_state.specs.Moves.{Clock, Ask, Take, Forget, Expect, Enter, Fail, Accept, Fix, Hear, Ack, Fire, Arm, Come, Pace, Ready, Release, Seal, Skip, Token, Learn, Want, Confirm, Establish, Tell, PeerClosesToo, PeerCloses, Owe, Shut, Raise, Say, Hand, Post, ReportReady, ReportConnected, ReportHeard, ReportAllHeard, ReportStream, ReportStreams, ReportLost, ReportNotice, ReportNotices, ReportDrained, move_to, state_move, tells_congestion};
ghost use Rattle.qc_base.specs.declared.side.SpaceId.TheVariants.{«Data»};
ghost use Rattle.qc_state.specs.Numbers.{is_skipped};
ghost use Rattle.qc_state.specs.Offers.{offers_in};
ghost use Rattle.qc_state.specs.Recovering.{fired_by, probe_timeout_now, settled_by};
ghost use Rattle.qc_state.specs.Setup.{idle_limit_now};
ghost use Rattle.qc_state.specs.Spaces.{is_space, space_of};
ghost use Rattle.qc_state.specs.StreamFrames.{sealed_steps};
ghost use Rattle.qc_state.specs.Streams.{events_of};
ghost use Rattle.qc_state.specs.Timers.{timers_acking, timers_sealed};
ghost use Rattle.qc_streams.specs.Owed.{next_event};
ghost use Rattle.qc_streams.specs.Steps.{AllMay};
ghost use Rattle.qc_datagrams.specs.Datagrams.{send_refusal};
ghost use Rattle.qc_datagrams.specs.Queue.{first};
ghost use Rattle.qc_datagrams.specs.Steps.{Sent, Taken};
ghost use Rattle.qc_state.specs.Datagrams.{AllOldest};
ghost use Rattle.qc_state.specs.Ids.{AllNext};
ghost use Rattle.qc_state.specs.Tokens.{AllIssued, made_by};
ghost use Rattle.qc_state.specs.View.{ideal, held};
ghost use Rattle.std.specs.Net.Socket.{socket_ip};
ghost use Rattle.qc_state.specs.Taking.{TakenPart};

use crate::datagrams::{send_datagram, shrink};
use crate::handing::hand;
use crate::packets::{accept_on, enter, set_accepted, settle_in, tell_waiting, use_number};
use crate::recovering::shows_validated;
use crate::state::Core;
use bytes::Bytes;
use qc_assembler::InsertError;
use qc_base::{ConnectionId, EcnCodepoint, Instant, ResetToken, SpaceId, TransportError};
use qc_datagrams::SendRefusal;
use qc_frame::{Ack, Frame, FrameList, FrameOf};
use qc_params::TransportParameters;
use qc_path::{Arrival, next_bundled_ack_time};
use qc_state::flight::flown_packet;
use qc_state::spaces::is_space;
use qc_state::stream_settling::{fire, settle};
use qc_state::tokens::asked_tokens;
use qc_state::unblocking::take_frames;
use qc_state::waiting::holds_ack;
use qc_state::{
    Body, Close, Did, Dids, EndpointEvent, EndpointEvents, Event, Events, Form, Given, Layer,
    Means, Quiet, SPARE_ROOM, Signs, State, Suite, Verdict, id_settling,
};
use qc_streams::StreamEvent;
use std::alloc::{AllocError, Global};

/// Whether a mark tells of congestion (RFC 3168).
fn tells_congestion(mark: Option<EcnCodepoint>) -> bool
    ensures { result ≡ tells_congestion mark }
{
    match mark {
        Some(EcnCodepoint::Ce) => true,
        _ => false,
    }
}

#[tactic(auto, unfolding(qc_state::specs::Moves::move_to, qc_state::specs::Moves::state_move, qc_state::specs::Moves::numbers_move, qc_state::specs::Moves::keys_move, qc_state::specs::Moves::life_move, qc_state::specs::Moves::paths_move, qc_state::specs::Moves::timers_move, qc_state::specs::Moves::waiting_move, qc_state::specs::Moves::setup_move, qc_state::specs::Moves::lower_move, qc_state::specs::Moves::deeds_move, qc_state::specs::Offers::offers_in, qc_state::specs::Setup::ideal_setup, qc_state::specs::Setup::idle_limit_now, qc_state::specs::Setup::parameters_known, qc_state::specs::Setup::token_expected, qc_state::specs::Lower::session_wrote, qc_state::specs::Lower::datagrams_stepped, qc_state::specs::Lower::streams_stepped, qc_state::specs::Lower::ids_stepped, qc_state::specs::Life::datagram_heard, qc_datagrams::specs::Steps::after, qc_datagrams::specs::Steps::after_step, qc_cids::specs::Steps::after, qc_state::specs::Paths::path_kept))]
impl<U: Suite> Core<U> {
    /// The connection is told a time.
    pub fn do_clock(&mut self, now: Instant)
        ensures { (ideal U.Random.stream self.new) ≡ state_move (Clock now) (ideal U.Random.stream self.old) }
    {
        self.timers.told(now);
    }

    /// A PING is asked for.
    pub fn do_ask(&mut self, space: SpaceId)
        ensures { (ideal U.Random.stream self.new) ≡ state_move (Ask space) (ideal U.Random.stream self.old) }
    {
        self.waiting.ask_ping(space);
    }

    /// Frames leave what waits, for a packet with so much room for them; a NEW_TOKEN is made for the path's address; where a DATAGRAM among them
    /// gives room that one was refused for before, that waits to be reported.
    pub fn do_take(
        &mut self,
        alloc: Global,
        now: Instant,
        space: SpaceId,
        room: usize,
    ) -> Result<FrameList, AllocError>
        ensures frames { IfOk result (λ frames. TakenPart now self.old.waiting.bundled (is_space space «Data») (space_of self.old.waiting.spaces space) room frames) }
        ensures may { IfOk result (λ frames. AllMay (sealed_steps frames) self.old.lower.streams) }
        ensures oldest { IfOk result (λ frames. AllOldest frames self.old.lower.datagrams) }
        ensures next { IfOk result (λ frames. AllNext frames self.old.lower.ids) }
        ensures issued { IfOk result (λ frames. AllIssued (made_by ⟦<U as Means>⟧.meaning.token self.old.issuer) (socket_ip self.old.paths.current.remote) frames (space_of self.old.waiting.spaces space) (U.Random.stream self.old.setup.random)) }
        ensures leads { IfOk result (λ frames. (ideal U.Random.stream self.new) ≡ state_move (Take space frames) (ideal U.Random.stream self.old)) }
        ensures full { IfOk result (λ frames. SPARE_ROOM ≤ room - length (frames_spelling frames) → offers_in (ideal U.Random.stream self.new) space ≡ false) }
    {
        take_frames(
            &mut self.waiting,
            &mut self.lower,
            &mut self.life,
            &self.issuer,
            self.paths.current.remote.ip(),
            &mut self.setup.random,
            alloc,
            now,
            space,
            room,
        )
    }

    /// The PING of 1-RTT packets alone leaves what waits. Want of memory is the only refusal.
    pub fn do_take_ping(&mut self, alloc: Global) -> Result<FrameList, AllocError>
        ensures frames { IfOk result (λ list. list ≡ frames.Ping ∷ []) }
        ensures leads { OnOk result ((ideal U.Random.stream self.new) ≡ state_move (Take «Data» (frames.Ping ∷ [])) (ideal U.Random.stream self.old)) }
    {
        let mut frames = FrameList::new(alloc);
        frames.push(FrameOf::Ping)?;
        self.waiting.spaces.application.ping = false;
        Ok(frames)
    }

    /// The ACK leaves what waits, where there is something to acknowledge and so much room for it.
    pub fn do_take_ack(
        &mut self,
        alloc: Global,
        now: Instant,
        space: SpaceId,
        room: usize,
    ) -> Result<FrameList, AllocError>
        ensures frames { IfOk result (λ frames. AckPart now (space_of self.old.waiting.spaces space) room frames (may_acknowledge (space_of self.old.waiting.spaces space).acks)) }
        ensures leads { IfOk result (λ frames. (ideal U.Random.stream self.new) ≡ state_move (Take space frames) (ideal U.Random.stream self.old)) }
    {
        self.waiting.take_ack(alloc, now, space, room)
    }

    /// A packet with these frames is to be sealed: one that elicits an acknowledgement sets the idle timer, and behind one with an
    /// ACK none is held back.
    fn time_packet(&mut self, now: Instant, space: SpaceId, frames: &FrameList)
        ensures { self.new ≡ record self.old { timers = timers_acking (if list_any elicits frames.now then timers_sealed self.old.timers (idle_limit_now self.old.setup) (probe_timeout_now (ideal U.Random.stream self.old) space) now else self.old.timers) (list_any is_ack frames.now) } }
    {
        if frames.elicits() {
            let probe = self.probe_timeout(space);
            self.timers.sealed(self.setup.idle_limit(), probe, now);
        }
        self.timers.acknowledging(holds_ack(frames));
    }

    /// A packet with these frames is in flight from now on, unless a close is owed. Want of memory is the only refusal.
    fn fly(
        &mut self,
        alloc: Global,
        now: Instant,
        space: SpaceId,
        number: u64,
        size: u64,
        frames: &FrameList,
    ) -> Result<(), AllocError>
        ensures { OnOk result (self.new ≡ record self.old { lower = if self.old.waiting.close_owed then self.old.lower else packet_flown self.old.lower space number (flown_packet now size frames.now) }) }
    {
        if self.waiting.close_owed {
            return Ok(());
        }
        let packet = flown_packet(alloc, now, size, frames)?;
        self.lower.fly(space, number, packet)
    }

    /// A packet with these frames is sealed, but for its deed. Want of memory is the only refusal.
    fn count_sealed(
        &mut self,
        alloc: Global,
        now: Instant,
        form: Form,
        number: u64,
        size: u64,
        frames: &FrameList,
    ) -> Result<(), AllocError>
        requires { number < 2 ^ 62 }
        ensures { OnOk result ((ideal U.Random.stream self.new) ≡ state_move (Seal now form number size frames.now) (ideal U.Random.stream self.old)) }
    {
        let space = form.space();
        let next = next_bundled_ack_time(
            now,
            self.paths.current.kept.rtt.get(),
            self.setup.peer_delay(),
        );
        self.time_packet(now, space, frames);
        self.fly(alloc, now, space, number, size, frames)?;
        let last = is_space(space, self.keys.highest);
        use_number(&mut self.numbers, &mut self.keys, form, number);
        tell_waiting(&mut self.waiting, last, frames, next);
        Ok(())
    }

    /// A packet is sealed.
    pub fn do_seal(
        &mut self,
        alloc: Global,
        did: &mut Dids,
        now: Instant,
        form: Form,
        number: u64,
        size: u64,
        frames: FrameList,
    ) -> Result<(), AllocError>
        requires { number < 2 ^ 62 }
        ensures { OnOk result ((held U.Random.stream self.new did.new) ≡ move_to (Seal now form number size frames) (held U.Random.stream self.old did.old)) }
    {
        let epoch = self.keys.epoch(form);
        match self.count_sealed(alloc, now, form, number, size, &frames) {
            Ok(()) => did.push_sealed(form.space(), number, epoch, form.is_early(), frames),
            Err(refused) => Err(refused),
        }
    }

    /// The next number of 1-RTT packets is skipped; the one that is skipped behind it is drawn.
    pub fn do_skip(&mut self)
        requires { is_skipped self.old.numbers Data ≡ true }
        ensures { (ideal U.Random.stream self.new) ≡ state_move Skip (ideal U.Random.stream self.old) }
    {
        self.numbers.skip(&mut self.setup.random);
    }

    /// The keys of a space are dropped.
    pub fn do_forget(&mut self, space: SpaceId)
        ensures { (ideal U.Random.stream self.new) ≡ state_move (Forget space) (ideal U.Random.stream self.old) }
    {
        self.keys.forget(space);
        self.waiting.forget(space);
        self.lower.drop_flight(space, &mut self.paths.current.kept);
    }

    /// A server's first packet came, with this token.
    pub fn do_expect(&mut self, token: Bytes)
        ensures { (ideal U.Random.stream self.new) ≡ state_move (Expect token) (ideal U.Random.stream self.old) }
    {
        self.setup.expect(token);
    }

    /// A packet came whose number counts, and whose frames don't.
    pub fn do_enter(
        &mut self,
        did: &mut Dids,
        space: SpaceId,
        number: u64,
        verdict: Verdict,
    ) -> Result<(), AllocError>
        ensures { OnOk result ((held U.Random.stream self.new did.new) ≡ move_to (Enter space number verdict) (held U.Random.stream self.old did.old)) }
    {
        self.numbers.entered(space, number);
        did.push_piece(Some(space), Some(number), verdict)
    }

    /// A packet didn't open.
    pub fn do_fail(&mut self)
        ensures { (ideal U.Random.stream self.new) ≡ state_move Fail (ideal U.Random.stream self.old) }
    {
        self.keys.failed();
    }

    /// A packet was accepted.
    pub fn do_accept(
        &mut self,
        did: &mut Dids,
        now: Instant,
        space: SpaceId,
        number: u64,
        eliciting: bool,
        signs: Signs,
        verdict: Verdict,
    ) -> Result<(), AllocError>
        ensures { OnOk result ((held U.Random.stream self.new did.new) ≡ move_to (Accept now space number eliciting signs verdict) (held U.Random.stream self.old did.old)) }
    {
        let probe = self.probe_timeout(space);
        let packet = Arrival {
            number,
            at: now,
            ack_eliciting: eliciting,
            ce: tells_congestion(signs.mark),
        };
        let entered = enter(
            &mut self.numbers,
            &mut self.waiting,
            space,
            &packet,
            signs.mark,
        );
        self.waiting
            .ask_tokens(asked_tokens(space, verdict, &self.issuer));
        let side = self.setup.fixed.side;
        accept_on(&mut self.paths, space, verdict, side, entered.0, signs.spin);
        let limit = self.setup.idle_limit();
        set_accepted(&mut self.timers, limit, probe, entered.1, now);
        did.push_piece(Some(space), Some(number), verdict)
    }

    /// The peer has chosen its id.
    pub fn do_fix(&mut self, cid: ConnectionId)
        ensures { (ideal U.Random.stream self.new) ≡ state_move (Fix cid) (ideal U.Random.stream self.old) }
    {
        self.paths.fix(cid);
        self.lower.ids.rename(cid);
    }

    /// So many bytes came from the path's address.
    pub fn do_hear(&mut self, bytes: u64)
        ensures { (ideal U.Random.stream self.new) ≡ state_move (Hear bytes) (ideal U.Random.stream self.old) }
    {
        self.paths.received(bytes);
    }

    /// The peer acknowledged packets; where that shows a black hole, datagrams that no longer fit are dropped. Answers whether some packets are
    /// newly acknowledged. Want of memory is the only refusal.
    pub fn do_ack(
        &mut self,
        alloc: Global,
        now: Instant,
        space: SpaceId,
        ack: &Ack<'_>,
    ) -> Result<bool, AllocError>
        requires { Fits (frames.Ack (ack_map (λ bytes. bytes.now) ack.now)) }
        ensures newly { IfOk result (λ newly. newly ≡ not (length (settled_by ⟦<U as Means>⟧.meaning now space (ack_map (λ bytes. bytes.now) ack.now) (ideal U.Random.stream self.old)).acked == 0)) }
        ensures leads { OnOk result ((ideal U.Random.stream self.new) ≡ state_move (Ack space ack.now.largest (settled_by ⟦<U as Means>⟧.meaning now space (ack_map (λ bytes. bytes.now) ack.now) (ideal U.Random.stream self.old))) (ideal U.Random.stream self.old)) }
    {
        let blocked = self.is_blocked();
        let around = self.around(blocked, shows_validated(space));
        let next = self.numbers.next(space);
        let began = self.numbers.began(space);
        let before = self.paths.current.kept.mtud.current_mtu();
        let path = &mut self.paths.current.kept;
        let settled = self
            .lower
            .settle(alloc, now, space, next, began, ack, &around, path)?;
        settle(&mut self.lower.streams, &settled)?;
        id_settling::settle(&mut self.lower.ids, &settled)?;
        shrink(
            &mut self.lower.datagrams,
            before,
            &self.paths.current,
            &self.setup.peer,
        );
        self.keys.acked(space, ack.largest);
        settle_in(
            &mut self.numbers,
            &mut self.waiting,
            space,
            ack.largest,
            settled,
        )
    }

    /// The loss timer fires: packets are lost, or probes are due; where that shows a black hole, datagrams that no longer fit are dropped. Want of
    /// memory is the only refusal.
    pub fn do_fire(&mut self, now: Instant) -> Result<(), AllocError>
        ensures { OnOk result ((ideal U.Random.stream self.new) ≡ state_move (Fire (fired_by ⟦<U as Means>⟧.meaning now (ideal U.Random.stream self.old))) (ideal U.Random.stream self.old)) }
    {
        let blocked = self.is_blocked();
        let around = self.around(blocked, false);
        let before = self.paths.current.kept.mtud.current_mtu();
        let fired = self.lower.fire(now, &around, &mut self.paths.current.kept)?;
        fire(&mut self.lower.streams, &fired)?;
        id_settling::fire(&mut self.lower.ids, &fired)?;
        shrink(
            &mut self.lower.datagrams,
            before,
            &self.paths.current,
            &self.setup.peer,
        );
        self.waiting.fire(fired)
    }

    /// The datagram that the pacer held back may go.
    pub fn do_pace(&mut self)
        ensures { (ideal U.Random.stream self.new) ≡ state_move Pace (ideal U.Random.stream self.old) }
    {
        self.timers.pace();
    }

    /// The ACK that was held back is owed.
    pub fn do_release(&mut self)
        ensures { (ideal U.Random.stream self.new) ≡ state_move Release (ideal U.Random.stream self.old) }
    {
        self.timers.release();
        self.waiting.release();
    }

    /// The loss timer is set to a time, or stopped.
    pub fn do_arm(&mut self, at: Option<Instant>)
        ensures { (ideal U.Random.stream self.new) ≡ state_move (Arm at) (ideal U.Random.stream self.old) }
    {
        self.timers.arm(at);
    }

    /// Bytes of a CRYPTO stream came. `TooManyParts` exactly where too many separate parts would stand.
    pub fn do_come(&mut self, space: SpaceId, offset: u64, bytes: Bytes) -> Result<(), InsertError>
        requires { offset + length bytes < 2 ^ 64 }
        ensures came { OnOk result ((ideal U.Random.stream self.new) ≡ state_move (Come space offset bytes) (ideal U.Random.stream self.old)) }
        ensures few { OnOk result (part_count (inserted offset bytes (stream_of self.old.lower space)).came ≤ 1024) }
        ensures many { result ≡ Err InsertError.TooManyParts → 1024 < part_count (inserted offset bytes (stream_of self.old.lower space)).came }
        ensures err { OnErr result (self.new ≡ self.old) }
    {
        self.lower.came(space, offset, bytes)
    }

    /// What the handshake settles is ready.
    pub fn do_ready(&mut self)
        ensures { (ideal U.Random.stream self.new) ≡ state_move Ready (ideal U.Random.stream self.old) }
    {
        self.life.data_ready();
    }

    /// The peer's token for a stateless reset was read.
    pub fn do_token(&mut self, token: ResetToken) -> Result<(), AllocError>
        ensures { OnOk result ((ideal U.Random.stream self.new) ≡ state_move (Token token) (ideal U.Random.stream self.old)) }
    {
        self.life.learn_token(self.paths.current.remote, token)
    }

    /// So many identifiers are wanted.
    pub fn do_want(&mut self, now: Instant, count: u64) -> Result<(), AllocError>
        ensures { OnOk result ((ideal U.Random.stream self.new) ≡ state_move (Want now count) (ideal U.Random.stream self.old)) }
    {
        self.lower.ids.ask(count);
        self.life.want(now, count)
    }

    /// The peer's parameters were read.
    pub fn do_learn(&mut self, parameters: TransportParameters)
        ensures { (ideal U.Random.stream self.new) ≡ state_move (Learn parameters) (ideal U.Random.stream self.old) }
    {
        self.lower.learn_limits(&parameters);
        self.paths.cap(&parameters);
        self.paths.name(self.lower.ids.remote.active());
        self.setup.learn(parameters);
    }

    /// A server has confirmed the handshake: a HANDSHAKE_DONE is owed.
    pub fn do_confirm(&mut self)
        ensures { (ideal U.Random.stream self.new) ≡ state_move Confirm (ideal U.Random.stream self.old) }
    {
        self.waiting.ask_done();
    }

    /// The handshake is over.
    pub fn do_establish(&mut self, did: &mut Dids) -> Result<(), AllocError>
        ensures { OnOk result ((held U.Random.stream self.new did.new) ≡ move_to Establish (held U.Random.stream self.old did.old)) }
    {
        self.life.establish();
        did.push_rose(1)
    }

    /// A packet that enters no number is told of.
    pub fn do_tell_piece(
        &self,
        did: &mut Dids,
        space: Option<SpaceId>,
        number: Option<u64>,
        verdict: Verdict,
    ) -> Result<(), AllocError>
        ensures { OnOk result ((held U.Random.stream self.now did.new) ≡ move_to (Tell (Did.Piece space number verdict)) (held U.Random.stream self.now did.old)) }
    {
        did.push_piece(space, number, verdict)
    }

    /// A frame is given to a layer.
    pub fn do_tell_gave(&self, did: &mut Dids, layer: Layer, body: Given) -> Result<(), AllocError>
        ensures { OnOk result ((held U.Random.stream self.now did.new) ≡ move_to (Tell (Did.Gave layer body)) (held U.Random.stream self.now did.old)) }
    {
        did.push_gave(layer, body)
    }

    /// The streams or the datagrams are handed a frame. Answers the error with which it is refused, if it is. Want of memory is the only
    /// refusal of the call.
    pub fn do_hand(
        &mut self,
        alloc: Global,
        did: &mut Dids,
        frame: &Frame<'_>,
    ) -> Result<Option<TransportError>, AllocError>
        requires { Fits (borrowed frame.now) }
        ensures stop { IfOk result (λ stop. stop ≡ handed_stop (borrowed frame.now) self.old.lower) }
        ensures leads { OnOk result ((held U.Random.stream self.new did.new) ≡ move_to (Hand (borrowed frame.now)) (held U.Random.stream self.old did.old)) }
    {
        hand(&mut self.lower, &mut self.life, alloc, did, frame)
    }

    /// The peer closed as well.
    pub fn do_peer_closes_too(&mut self, did: &mut Dids) -> Result<(), AllocError>
        ensures { OnOk result ((held U.Random.stream self.new did.new) ≡ move_to PeerClosesToo (held U.Random.stream self.old did.old)) }
    {
        self.life.drain();
        self.lower.close_streams();
        did.push_rose(3)
    }

    /// The peer closed.
    pub fn do_peer_closes(&mut self, did: &mut Dids, now: Instant) -> Result<(), AllocError>
        ensures { OnOk result ((held U.Random.stream self.new did.new) ≡ move_to (PeerCloses now) (held U.Random.stream self.old did.old)) }
    {
        let probe = self.probe_timeout(self.keys.highest);
        self.life.drain();
        self.timers.closing(probe, now);
        self.lower.close_streams();
        did.push_rose(3)
    }

    /// A close is owed again.
    pub fn do_owe(&mut self)
        ensures { (ideal U.Random.stream self.new) ≡ state_move Owe (ideal U.Random.stream self.old) }
    {
        self.waiting.owe_close();
    }

    /// This end closes.
    pub fn do_shut(&mut self, now: Instant, close: Close)
        ensures { (ideal U.Random.stream self.new) ≡ state_move (Shut now close) (ideal U.Random.stream self.old) }
    {
        let probe = self.probe_timeout(self.keys.highest);
        self.life.shut(close);
        self.timers.closing(probe, now);
        self.waiting.owe_close();
        self.lower.close_streams();
    }

    /// The life rises.
    pub fn do_raise(&mut self, did: &mut Dids, to: State) -> Result<(), AllocError>
        ensures { OnOk result ((held U.Random.stream self.new did.new) ≡ move_to (Raise to) (held U.Random.stream self.old did.old)) }
    {
        self.life.raise(to);
        self.timers.stop();
        self.lower.close_streams();
        did.push_rose(qc_state::life::rank(to))
    }

    /// A transmit sends nothing, for this cause.
    pub fn do_say(&mut self, did: &mut Dids, quiet: Quiet) -> Result<(), AllocError>
        ensures { OnOk result ((held U.Random.stream self.new did.new) ≡ move_to (Say quiet) (held U.Random.stream self.old did.old)) }
    {
        self.paths.quiet(quiet);
        did.push_quiet(quiet)
    }

    /// That the handshake's data is ready is reported, where it waits.
    pub fn do_report_ready(&mut self) -> Option<Event>
        ensures event { result ≡ ready_event self.old.life }
        ensures leads { (ideal U.Random.stream self.new) ≡ state_move ReportReady (ideal U.Random.stream self.old) }
    {
        self.life.take_ready()
    }

    /// That the handshake is over is reported, where it waits.
    pub fn do_report_connected(&mut self) -> Option<Event>
        ensures event { result ≡ connected_event self.old.life }
        ensures leads { (ideal U.Random.stream self.new) ≡ state_move ReportConnected (ideal U.Random.stream self.old) }
    {
        self.life.take_connected()
    }

    /// The reason of the end is reported, where it waits.
    pub fn do_report_lost(&mut self) -> Option<Event>
        ensures event { result ≡ lost_event self.old.life }
        ensures leads { (ideal U.Random.stream self.new) ≡ state_move ReportLost (ideal U.Random.stream self.old) }
    {
        self.life.take_lost()
    }

    /// The first that waits of datagrams is reported, where something does.
    pub fn do_report_heard(&mut self) -> Option<Event>
        ensures event { result ≡ slice_get self.old.life.heard 0 }
        ensures leads { (ideal U.Random.stream self.new) ≡ state_move ReportHeard (ideal U.Random.stream self.old) }
    {
        self.life.take_heard()
    }

    /// All that waits of datagrams is reported, behind the others. Want of memory is the only refusal.
    pub fn do_report_all_heard(&mut self, events: &mut Events) -> Result<(), AllocError>
        ensures events { OnOk result (events.new ≡ events.old ++ self.old.life.heard) }
        ensures leads { OnOk result ((ideal U.Random.stream self.new) ≡ state_move ReportAllHeard (ideal U.Random.stream self.old)) }
    {
        self.life.take_all_heard(events)
    }

    /// The application sends a datagram, for which the oldest are dropped that wait; it may have `most` bytes, where the peer takes any.
    /// Answers why it is refused, if it is. Want of memory is the only refusal of the call.
    pub fn do_send_datagram(
        &mut self,
        alloc: Global,
        most: Option<u64>,
        body: &Body,
    ) -> Result<Option<SendRefusal>, AllocError>
        ensures refusal { IfOk result (λ refusal. refusal ≡ send_refusal most true body.now self.old.lower.datagrams) }
        ensures leads { OnOk result ((ideal U.Random.stream self.new) ≡ state_move (Post (Sent most true body.now)) (ideal U.Random.stream self.old)) }
    {
        send_datagram(&mut self.lower.datagrams, alloc, most, body)
    }

    /// The application takes the oldest datagram that came, where there is one.
    pub fn do_take_datagram(&mut self) -> Option<Bytes>
        ensures given { option_to_list result ≡ first self.old.lower.datagrams.incoming }
        ensures leads { (ideal U.Random.stream self.new) ≡ state_move (Post Taken) (ideal U.Random.stream self.old) }
    {
        self.lower.datagrams.incoming.pop()
    }

    /// The first event of the streams is reported, where one waits.
    pub fn do_report_stream(&mut self) -> Option<StreamEvent>
        ensures event { result ≡ next_event self.old.lower.streams }
        ensures leads { (ideal U.Random.stream self.new) ≡ state_move ReportStream (ideal U.Random.stream self.old) }
    {
        self.lower.take_event()
    }

    /// All events of the streams are reported, behind the others. Want of memory is the only refusal.
    pub fn do_report_streams(&mut self, events: &mut Events) -> Result<(), AllocError>
        ensures events { OnOk result (events.new ≡ events.old ++ map Event.Stream (events_of self.old.lower.streams)) }
        ensures leads { OnOk result ((ideal U.Random.stream self.new) ≡ state_move ReportStreams (ideal U.Random.stream self.old)) }
    {
        self.lower.take_events(events)
    }

    /// The first that waits for the endpoint before the end is reported, where something does.
    pub fn do_report_notice(&mut self) -> Option<EndpointEvent>
        ensures event { result ≡ first_notice self.old.life }
        ensures leads { (ideal U.Random.stream self.new) ≡ state_move ReportNotice (ideal U.Random.stream self.old) }
    {
        self.life.take_notice()
    }

    /// All that waits for the endpoint before the end is reported.
    pub fn do_report_notices(&mut self, alloc: Global) -> EndpointEvents
        ensures events { result ≡ self.old.life.notices }
        ensures leads { (ideal U.Random.stream self.new) ≡ state_move ReportNotices (ideal U.Random.stream self.old) }
    {
        self.life.take_notices(alloc)
    }

    /// The end is reported, where it waits.
    pub fn do_report_drained(&mut self) -> Option<EndpointEvent>
        ensures event { result ≡ drained_event self.old.life }
        ensures leads { (ideal U.Random.stream self.new) ≡ state_move ReportDrained (ideal U.Random.stream self.old) }
    {
        self.life.take_drained()
    }
}
