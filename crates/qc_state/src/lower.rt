//! The layers below: the session, the bytes of its CRYPTO streams that came, and loss recovery.

ghost use Rattle.std.specs.Prelude.{◌≡◌, ◌+◌, ◌<◌, ◌≤◌, ◌^◌, ◌++◌, Err, length, map, IfOk, OnOk, OnErr};
ghost use Rattle.qc_assembler.specs.Assembly.{advanced, inserted, part_count};
ghost use Rattle.qc_frame.specs.Frame.{ack_map, owned};
ghost use Rattle.qc_frame.specs.FrameFits.{Fits};
ghost use Rattle.qc_frame.specs.declared.frames.FrameOf.TheVariants as frames;
ghost use Rattle.qc_recovery.specs.Frames.{ranges_up_of, values_of};
ghost use Rattle.qc_recovery.specs.Steps.{ack_after, after_with, fired_with, path_dropped, timeout_after};
ghost use Rattle.qc_state.specs.Lower.{bytes_came, events_told, flight_dropped, packet_flown, packets_settled, ready_bytes, session_read, stream_of, timer_fired, frame_handed, handed_stop, limits_learned, streams_closed, event_told};
ghost use Rattle.qc_state.specs.Datagrams.{tells_datagram};
ghost use Rattle.qc_state.specs.Streams.{asked_for, events_of};
ghost use Rattle.qc_streams.specs.Waits.{after};
ghost use Rattle.qc_streams.specs.Owed.{next_event};

use crate::datagrams::hand_datagram;
use crate::events::{Event, Events};
use crate::spaces::Spaces;
use crate::streams::hand;
use bytes::Bytes;
use qc_assembler::{Assembler, InsertError};
use qc_base::{Instant, SpaceId, TransportError};
use qc_cids::ConnectionIds;
use qc_datagrams::Datagrams;
use qc_flight::SentPacket;
use qc_frame::{Ack, FrameOf, OwnedFrame};
use qc_params::TransportParameters;
use qc_path::Controller;
use qc_recovery::{Around, Fired, PathData, Recovery, Settled};
use qc_streams::{PeerLimits, StreamEvent, StreamsState};
use std::alloc::{AllocError, Global};

/// The states of the layers below the connection.
#[derive(Drop)]
pub struct Lower<S> {
    /// The cryptographic handshake (RFC 9001).
    pub session: S,
    /// The bytes of each space's CRYPTO stream that came, and how many were given to the session (RFC 9000, 19.6).
    pub crypto: Spaces<Assembler>,
    /// The packets in flight, and what was acknowledged (RFC 9002). What loss recovery keeps of a path stands with the path.
    pub recovery: Recovery,
    /// The streams of the application (RFC 9000, 2 to 4).
    pub streams: StreamsState,
    /// The datagrams of the application (RFC 9221).
    pub datagrams: Datagrams,
    /// The connection ids of both ends (RFC 9000, 5.1).
    pub ids: ConnectionIds,
}

#[tactic(auto, unfolding(crate::specs::Lower::stream_of, crate::specs::Lower::bytes_came, crate::specs::Lower::session_read, crate::specs::Lower::packet_flown, crate::specs::Lower::packets_settled, crate::specs::Lower::timer_fired, crate::specs::Lower::flight_dropped, crate::specs::Lower::streams_stepped, crate::specs::Lower::frame_handed, crate::specs::Lower::handed_stop, crate::specs::Lower::datagrams_stepped, crate::specs::Streams::streams_stop, crate::specs::Streams::steps_of_frame, qc_datagrams::specs::Steps::after, crate::specs::Lower::limits_learned, crate::specs::Lower::streams_closed, crate::specs::Lower::event_told, crate::specs::Lower::events_told, qc_streams::specs::Waits::after, qc_streams::specs::Waits::after_step))]
impl<S> Lower<S> {
    /// What came of the space's CRYPTO stream.
    pub fn stream(&self, space: SpaceId) -> &Assembler
        ensures { result.now ≡ stream_of self.now space }
    {
        self.crypto.get(space)
    }

    /// Bytes of the space's CRYPTO stream came.
    ///
    /// # Errors
    ///
    /// `TooManyParts` exactly where more separate parts than are kept would stand afterwards, and `OutOfMemory`. After both,
    /// everything is as before.
    pub fn came(&mut self, space: SpaceId, offset: u64, bytes: Bytes) -> Result<(), InsertError>
        requires { offset + length bytes < 2 ^ 64 }
        ensures came { OnOk result (self.new ≡ bytes_came self.old space offset bytes) }
        ensures few { OnOk result (part_count (inserted offset bytes (stream_of self.old space)).came ≤ 1024) }
        ensures many { result ≡ Err InsertError.TooManyParts → 1024 < part_count (inserted offset bytes (stream_of self.old space)).came }
        ensures err { OnErr result (self.new ≡ self.old) }
    {
        match space {
            SpaceId::Initial => self.crypto.initial.insert(offset, bytes),
            SpaceId::Handshake => self.crypto.handshake.insert(offset, bytes),
            SpaceId::Data => self.crypto.application.insert(offset, bytes),
        }
    }

    /// Takes all bytes of the space's CRYPTO stream that can be read in order. Want of memory is the only refusal.
    pub fn take_ready(&mut self, alloc: Global, space: SpaceId) -> Result<Vec<u8>, AllocError>
        ensures bytes { IfOk result (λ bytes. bytes.items ≡ ready_bytes (stream_of self.old space)) }
        ensures rest { IfOk result (λ bytes. self.new ≡ session_read self.old space (length bytes.items) self.old.session) }
    {
        match space {
            SpaceId::Initial => take_ready(&mut self.crypto.initial, alloc),
            SpaceId::Handshake => take_ready(&mut self.crypto.handshake, alloc),
            SpaceId::Data => take_ready(&mut self.crypto.application, alloc),
        }
    }

    /// A packet of the space is in flight from now on. Want of memory is the only refusal.
    pub fn fly(&mut self, space: SpaceId, number: u64, packet: SentPacket) -> Result<(), AllocError>
        ensures { OnOk result (self.new ≡ packet_flown self.old space number packet) }
    {
        // Numbers rise, so that each is above those in flight: this refusal doesn't come.
        if !self.recovery.is_above(space, number) {
            return Err(AllocError);
        }
        self.recovery.sent(space, number, packet)
    }

    /// An ACK of the space came. `next` is the number that the space seals next, and `began` the moment at which it began. Answers
    /// which packets it newly acknowledges, and which are lost by it. `path` is what loss recovery keeps of the path in use. Want of
    /// memory is the only refusal.
    pub fn settle<C: Controller>(
        &mut self,
        alloc: Global,
        now: Instant,
        space: SpaceId,
        next: u64,
        began: Instant,
        ack: &Ack<'_>,
        around: &Around,
        path: &mut PathData<C>,
    ) -> Result<Settled, AllocError>
        requires { Fits (frames.Ack (ack_map (λ bytes. bytes.now) ack.now)) }
        ensures after { IfOk result (λ s. after_with self.new.recovery path.new s.acked s.lost ≡ ack_after C.Controller now space next began (values_of (ack_map (λ bytes. bytes.now) ack.now)) (ranges_up_of (ack_map (λ bytes. bytes.now) ack.now)) around.now self.old.recovery path.old) }
        ensures lower { IfOk result (λ s. self.new ≡ packets_settled self.old (after_with self.new.recovery path.new s.acked s.lost)) }
    {
        self.recovery
            .on_ack(alloc, now, space, next, began, ack, around, path)
    }

    /// The loss timer fired. Answers what it does: packets are lost, probes are due, or nothing. `path` is what loss recovery keeps of
    /// the path in use. Want of memory is the only refusal.
    pub fn fire<C: Controller>(
        &mut self,
        now: Instant,
        around: &Around,
        path: &mut PathData<C>,
    ) -> Result<Fired, AllocError>
        ensures after { IfOk result (λ f. fired_with self.new.recovery path.new f ≡ timeout_after C.Controller now around.now self.old.recovery path.old) }
        ensures lower { IfOk result (λ f. self.new ≡ timer_fired self.old (fired_with self.new.recovery path.new f)) }
    {
        self.recovery.on_timeout(now, around, path)
    }

    /// The keys of the space were dropped: none of its packets is in flight any more (RFC 9002, 6.4). `path` is what loss recovery keeps
    /// of the path in use.
    pub fn drop_flight<C: Controller>(&mut self, space: SpaceId, path: &mut PathData<C>)
        ensures lower { self.new ≡ flight_dropped self.old space }
        ensures path { path.new ≡ path_dropped space path.old }
    {
        let _ = self.recovery.discard(space, path);
    }

    /// The streams or the datagrams are handed a frame, if it is about them. Answers the error with which it is refused, if it is, and
    /// whether it is to be told that a datagram came. Want of memory is the only refusal of the call.
    pub fn hand(&mut self, frame: &OwnedFrame) -> Result<(Option<TransportError>, bool), AllocError>
        requires { Fits (owned frame.now) }
        ensures stop { IfOk result (λ r. r.0 ≡ handed_stop (owned frame.now) self.old) }
        ensures tells { IfOk result (λ r. r.1 ≡ tells_datagram (owned frame.now) self.old.datagrams) }
        ensures leads { OnOk result (self.new ≡ frame_handed (owned frame.now) self.old) }
    {
        match frame {
            FrameOf::Datagram { body } => hand_datagram(&mut self.datagrams, body),
            _ => {
                let stop = hand(&mut self.streams, frame)?;
                Ok((stop, false))
            }
        }
    }

    /// The peer's limits on streams are known, from its parameters, and the id that it named with an address, if it did (RFC 9000, 18.2).
    #[tactic(auto, unfolding(crate::specs::Lower::limits_learned, crate::specs::Lower::streams_stepped, crate::specs::Lower::ids_stepped, qc_streams::specs::Waits::after, qc_streams::specs::Waits::after_step, qc_cids::specs::Steps::after))]
    pub fn learn_limits(&mut self, parameters: &TransportParameters)
        ensures { self.new ≡ limits_learned parameters.now self.old }
    {
        self.streams.set_limits(PeerLimits {
            all_data: parameters.initial_max_data.into_inner(),
            bidi_streams: parameters.initial_max_streams_bidi.into_inner(),
            uni_streams: parameters.initial_max_streams_uni.into_inner(),
            peer_bidi_data: parameters.initial_max_stream_data_bidi_local,
            own_bidi_data: parameters.initial_max_stream_data_bidi_remote,
            own_uni_data: parameters.initial_max_stream_data_uni,
        });
        if let Some(address) = &parameters.preferred_address {
            self.ids.prefer(address.id, address.reset_token);
        }
    }

    /// The connection isn't open any more, which the streams are told.
    pub fn close_streams(&mut self)
        ensures { self.new ≡ streams_closed self.old }
    {
        self.streams.close();
    }

    /// The first event of the streams, which is told. None exactly where none waits.
    pub fn take_event(&mut self) -> Option<StreamEvent>
        ensures event { result ≡ next_event self.old.streams }
        ensures told { self.new ≡ event_told self.old }
    {
        self.streams.poll()
    }

    /// All events of the streams, which are told, behind the others. Want of memory is the only refusal.
    pub fn take_events(&mut self, events: &mut Events) -> Result<(), AllocError>
        ensures events { OnOk result (events.new ≡ events.old ++ map Event.Stream (events_of self.old.streams)) }
        ensures told { OnOk result (self.new ≡ events_told self.old) }
    {
        take_events(&mut self.streams, events)
    }
}

/// Takes all bytes that can be read in order. Want of memory is the only refusal.
fn take_ready(stream: &mut Assembler, alloc: Global) -> Result<Vec<u8>, AllocError>
    ensures bytes { IfOk result (λ bytes. bytes.items ≡ ready_bytes stream.old) }
    ensures rest { IfOk result (λ bytes. stream.new ≡ advanced (length bytes.items) stream.old) }
{
    let mut bytes = Vec::new(alloc);
    loop {
        match stream.read(usize::MAX)? {
            None => return Ok(bytes),
            Some(chunk) => bytes.extend_from_slice(chunk.as_slice())?,
        }
    }
}

/// All events that wait, which are told, behind the others. Want of memory is the only refusal.
fn take_events(streams: &mut StreamsState, events: &mut Events) -> Result<(), AllocError>
    ensures events { OnOk result (events.new ≡ events.old ++ map Event.Stream (events_of streams.old)) }
    ensures told { OnOk result (streams.new ≡ after (asked_for (length (events_of streams.old))) streams.old) }
{
    loop {
        match streams.poll() {
            None => return Ok(()),
            Some(event) => events.push_stream(event)?,
        }
    }
}
