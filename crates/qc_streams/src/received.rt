//! The frames that come, each by its table of refusals and its step.

ghost use Rattle.std.specs.Prelude.{◌≡◌, ◌<◌, ◌^◌, true, IfErr, OnOk, None, Some};
ghost use Rattle.std.specs.Option.{option_map};
ghost use Rattle.qc_recv.specs.Receiving.{reset_refusal, reset_taken, stream_refusal, stream_taken};
ghost use Rattle.qc_streams.specs.declared.fault.Refusal.TheVariants.{Side};
ghost use Rattle.qc_streams.specs.declared.events.StreamEvent.TheVariants.{Readable};
ghost use Rattle.qc_streams.specs.Calls.{gives};
ghost use Rattle.qc_streams.specs.Credit.{room};
ghost use Rattle.qc_streams.specs.Refusals.{IsRefusal, KeptOn, fault_of};
ghost use Rattle.qc_streams.specs.Stream.{reads_if, refusal_at, with_receiving};
ghost use Rattle.qc_streams.specs.Records.{changed, record_of};
ghost use Rattle.qc_streams.specs.Streams.{counted, dir_of, fresh_peer, is_peer_unopened, met, opened_with, settled, target, told_if};
ghost use Rattle.qc_streams.specs.Frames.{bars_sending, reads_more, receive_bar, receive_refusal, reset_came, send_refusal, stream_came};

use crate::events::StreamEvent;
use crate::fault::{Refusal, StreamFault};
use crate::kinds::{dir_of, is_uni};
use crate::state::StreamsState;
use crate::stream::Totals;
use bytes::Bytes;
use qc_base::{StreamId, VarInt};
use qc_recv::FrameFault;

/// A fault of a stream's receiving side as one of the connection.
fn side_fault(fault: FrameFault) -> StreamFault
    ensures { result ≡ fault_of fault }
{
    match fault {
        FrameFault::Refused(refusal) => StreamFault::Refused(Refusal::Side(refusal)),
        FrameFault::OutOfMemory => StreamFault::OutOfMemory,
    }
}

impl StreamsState {
    /// Why no frame may come about what comes on a stream.
    #[tactic(auto, unfolding(crate::specs::Frames::receive_bar, crate::specs::Frames::bars_receiving, crate::specs::Refusals::first_row))]
    fn receive_bar(&self, id: u64) -> Option<Refusal>
        ensures { result ≡ receive_bar id self.now }
    {
        if self.is_own(id) && (is_uni(id) || self.is_own_unopened(id)) {
            return Some(Refusal::State);
        }
        if self.is_past_limit(id) {
            return Some(Refusal::Limit);
        }
        None
    }

    /// Why a frame about what is sent on a stream is refused.
    #[tactic(auto, unfolding(crate::specs::Frames::send_refusal, crate::specs::Refusals::first_row))]
    pub(crate) fn send_refusal(&self, id: u64) -> Option<Refusal>
        ensures { result ≡ send_refusal id self.now }
    {
        if self.bars_sending(id) {
            return Some(Refusal::State);
        }
        if self.is_past_limit(id) {
            return Some(Refusal::Limit);
        }
        None
    }

    /// Whether nothing is sent on the stream with an id.
    #[tactic(auto, unfolding(crate::specs::Frames::bars_sending))]
    fn bars_sending(&self, id: u64) -> bool
        ensures { result ≡ bars_sending id self.now }
    {
        if self.is_own(id) {
            self.is_own_unopened(id)
        } else {
            is_uni(id)
        }
    }

    /// Whether the application is told of a frame about what comes.
    #[tactic(auto, unfolding(crate::specs::Frames::reads_more))]
    fn reads_more(&self, id: u64) -> bool
        ensures { result ≡ reads_more id self.now }
    {
        !self.is_peer_unopened(id) && self.records.is_reading(id)
    }

    /// A STREAM frame that opens its stream.
    #[tactic(auto, using(crate::proofs::Faults::side_refused, crate::proofs::Faults::memory_is_free), unfolding(crate::specs::Refusals::KeptOn))]
    fn first_stream(
        &mut self,
        id: u64,
        offset: u64,
        bytes: Bytes,
        last: bool,
    ) -> Result<(), StreamFault>
        requires id { id < 2 ^ 62 }
        requires offset { offset < 2 ^ 62 }
        ensures opened { OnOk result (self.new ≡ opened_with id (with_receiving (stream_taken offset bytes last) (fresh_peer (dir_of id) self.old)) self.old) }
        ensures fits { OnOk result (option_map Side (refusal_at (stream_refusal offset bytes last (room self.old.incoming)) (Some (fresh_peer (dir_of id) self.old))) ≡ None) }
        ensures refused { IfErr result (λ e. IsRefusal e (option_map Side (refusal_at (stream_refusal offset bytes last (room self.old.incoming)) (Some (fresh_peer (dir_of id) self.old))))) }
        ensures kept { IfErr result (λ e. KeptOn e self.old self.new) }
    {
        let mut stream = self.fresh_peer(dir_of(id));
        let room = self.incoming.room();
        match stream.take_stream(offset, bytes, last, room) {
            Ok(()) => {}
            Err(fault) => return Err(side_fault(fault)),
        }
        match self.open_with(id, stream) {
            Ok(()) => Ok(()),
            Err(_) => Err(StreamFault::OutOfMemory),
        }
    }

    /// The same; what came counts for the connection's credit.
    #[tactic(auto, unfolding(crate::specs::Frames::stream_came, crate::specs::Frames::comes, crate::specs::Frames::reads_more, crate::specs::Streams::met, crate::specs::Streams::target, crate::specs::Refusals::IsRefusal, crate::specs::Refusals::KeptOn))]
    fn open_by_stream(
        &mut self,
        id: StreamId,
        offset: u64,
        bytes: Bytes,
        last: bool,
    ) -> Result<(), StreamFault>
        requires offset { offset < 2 ^ 62 }
        requires unopened { is_peer_unopened id self.old ≡ true }
        ensures taken { OnOk result (self.new ≡ stream_came id offset bytes last self.old) }
        ensures fits { OnOk result (option_map Side (refusal_at (stream_refusal offset bytes last (room self.old.incoming)) (target id self.old)) ≡ None) }
        ensures refused { IfErr result (λ e. IsRefusal e (option_map Side (refusal_at (stream_refusal offset bytes last (room self.old.incoming)) (target id self.old)))) }
        ensures kept { IfErr result (λ e. KeptOn e self.old self.new) }
    {
        let before = self.records.totals(id.value());
        self.first_stream(id.value(), offset, bytes, last)?;
        self.note(id, before, false)
    }

    /// A STREAM frame on a stream that is open, or has ended: one look at it.
    #[tactic(auto, using(crate::proofs::Sequels::gives_so, crate::proofs::Faults::side_refused, crate::proofs::Faults::memory_is_free), unfolding(crate::specs::Refusals::KeptOn))]
    fn next_stream(
        &mut self,
        id: StreamId,
        offset: u64,
        bytes: Bytes,
        last: bool,
    ) -> Result<(), StreamFault>
        requires { offset < 2 ^ 62 }
        ensures taken { OnOk result (self.new ≡ told_if (reads_if (record_of id self.old.records)) (Readable id) (gives (stream_taken offset bytes last) id self.old)) }
        ensures fits { OnOk result (option_map Side (refusal_at (stream_refusal offset bytes last (room self.old.incoming)) (record_of id self.old.records)) ≡ None) }
        ensures refused { IfErr result (λ e. IsRefusal e (option_map Side (refusal_at (stream_refusal offset bytes last (room self.old.incoming)) (record_of id self.old.records)))) }
        ensures kept { IfErr result (λ e. KeptOn e self.old self.new) }
    {
        let incoming = &mut self.incoming;
        let arrival = match self
            .records
            .receive(id.value(), offset, bytes, last, incoming)
        {
            Ok(arrival) => arrival,
            Err(fault) => return Err(side_fault(fault)),
        };
        self.follow(arrival.sequel, id.value());
        match self.tell_if(arrival.tells, StreamEvent::Readable { id }) {
            Ok(()) => Ok(()),
            Err(_) => Err(StreamFault::OutOfMemory),
        }
    }

    /// A RESET_STREAM frame that opens its stream.
    #[tactic(auto, unfolding(crate::specs::Refusals::IsRefusal, crate::specs::Refusals::KeptOn))]
    fn first_reset(&mut self, id: u64, code: VarInt, size: u64) -> Result<(), StreamFault>
        requires { id < 2 ^ 62 }
        ensures opened { OnOk result (self.new ≡ opened_with id (with_receiving (reset_taken code size) (fresh_peer (dir_of id) self.old)) self.old) }
        ensures fits { OnOk result (option_map Side (refusal_at (reset_refusal size (room self.old.incoming)) (Some (fresh_peer (dir_of id) self.old))) ≡ None) }
        ensures refused { IfErr result (λ e. IsRefusal e (option_map Side (refusal_at (reset_refusal size (room self.old.incoming)) (Some (fresh_peer (dir_of id) self.old))))) }
        ensures kept { IfErr result (λ e. KeptOn e self.old self.new) }
    {
        let mut stream = self.fresh_peer(dir_of(id));
        let room = self.incoming.room();
        match stream.take_reset(code, size, room) {
            Ok(()) => {}
            Err(refusal) => return Err(StreamFault::Refused(Refusal::Side(refusal))),
        }
        match self.open_with(id, stream) {
            Ok(()) => Ok(()),
            Err(_) => Err(StreamFault::OutOfMemory),
        }
    }

    /// A RESET_STREAM frame on a stream that is open, or has ended.
    #[tactic(auto, unfolding(crate::specs::Refusals::IsRefusal, crate::specs::Refusals::KeptOn))]
    fn next_reset(&mut self, id: u64, code: VarInt, size: u64) -> Result<(), StreamFault>
        ensures taken { OnOk result (self.new ≡ record self.old { records = changed (with_receiving (reset_taken code size)) id self.old.records }) }
        ensures fits { OnOk result (option_map Side (refusal_at (reset_refusal size (room self.old.incoming)) (record_of id self.old.records)) ≡ None) }
        ensures refused { IfErr result (λ e. IsRefusal e (option_map Side (refusal_at (reset_refusal size (room self.old.incoming)) (record_of id self.old.records)))) }
        ensures kept { IfErr result (λ e. KeptOn e self.old self.new) }
    {
        let room = self.incoming.room();
        match self.records.take_reset(id, code, size, room) {
            Ok(()) => Ok(()),
            Err(refusal) => Err(StreamFault::Refused(Refusal::Side(refusal))),
        }
    }

    /// A RESET_STREAM frame meets its stream.
    #[tactic(auto, unfolding(crate::specs::Streams::met, crate::specs::Streams::target))]
    fn meet_reset(&mut self, id: u64, code: VarInt, size: u64) -> Result<(), StreamFault>
        requires { id < 2 ^ 62 }
        ensures taken { OnOk result (self.new ≡ met (with_receiving (reset_taken code size)) id self.old) }
        ensures fits { OnOk result (option_map Side (refusal_at (reset_refusal size (room self.old.incoming)) (target id self.old)) ≡ None) }
        ensures refused { IfErr result (λ e. IsRefusal e (option_map Side (refusal_at (reset_refusal size (room self.old.incoming)) (target id self.old)))) }
        ensures kept { IfErr result (λ e. KeptOn e self.old self.new) }
    {
        if self.is_peer_unopened(id) {
            self.first_reset(id, code, size)
        } else {
            self.next_reset(id, code, size)
        }
    }

    /// What came on a stream since it counted `before` counts; an event waits, if it is to be told;
    /// a stream that has ended leaves.
    fn note(&mut self, id: StreamId, before: Totals, tells: bool) -> Result<(), StreamFault>
        ensures noted { OnOk result (self.new ≡ told_if tells (Readable id) (settled id (counted before id self.old))) }
        ensures err { IfErr result (λ e. e ≡ StreamFault.OutOfMemory) }
    {
        self.count(before, id.value());
        self.settle(id.value());
        match self.tell_if(tells, StreamEvent::Readable { id }) {
            Ok(()) => Ok(()),
            Err(_) => Err(StreamFault::OutOfMemory),
        }
    }

    /// Takes a STREAM frame (RFC 9000, section 19.8). A stream that the peer hasn't opened is opened,
    /// with all lower ones of its kind; on one that has ended the frame is passed over.
    ///
    /// # Errors
    ///
    /// A [`Refusal`], exactly by the table of the definition; nothing changes then, and no stream is
    /// opened. Or want of memory.
    #[tactic(auto, unfolding(crate::specs::Frames::stream_came, crate::specs::Frames::comes, crate::specs::Frames::reads_more, crate::specs::Frames::receive_refusal, crate::specs::Calls::gives, crate::specs::Streams::met, crate::specs::Streams::target, crate::specs::Refusals::IsRefusal, crate::specs::Refusals::KeptOn))]
    pub fn received(
        &mut self,
        id: StreamId,
        offset: u64,
        body: Bytes,
        fin: bool,
    ) -> Result<(), StreamFault>
        requires { offset < 2 ^ 62 }
        ensures taken { OnOk result (self.new ≡ stream_came id offset body fin self.old) }
        ensures fits { OnOk result (receive_refusal (stream_refusal offset body fin (room self.old.incoming)) id self.old ≡ None) }
        ensures refused { IfErr result (λ e. IsRefusal e (receive_refusal (stream_refusal offset body fin (room self.old.incoming)) id self.old)) }
        ensures kept { IfErr result (λ e. KeptOn e self.old self.new) }
    {
        if let Some(refusal) = self.receive_bar(id.value()) {
            return Err(StreamFault::Refused(refusal));
        }
        if self.is_peer_unopened(id.value()) {
            return self.open_by_stream(id, offset, body, fin);
        }
        self.next_stream(id, offset, body, fin)
    }

    /// Takes a RESET_STREAM frame (RFC 9000, section 19.4). A stream that the peer hasn't opened is
    /// opened, with all lower ones of its kind; on one that has ended the frame is passed over.
    ///
    /// # Errors
    ///
    /// A [`Refusal`], exactly by the table of the definition; nothing changes then, and no stream is
    /// opened. Or want of memory.
    #[tactic(auto, unfolding(crate::specs::Frames::reset_came, crate::specs::Frames::comes, crate::specs::Frames::receive_refusal, crate::specs::Refusals::IsRefusal, crate::specs::Refusals::KeptOn))]
    pub fn received_reset(
        &mut self,
        id: StreamId,
        error_code: VarInt,
        final_size: u64,
    ) -> Result<(), StreamFault>
        ensures taken { OnOk result (self.new ≡ reset_came id error_code final_size self.old) }
        ensures fits { OnOk result (receive_refusal (reset_refusal final_size (room self.old.incoming)) id self.old ≡ None) }
        ensures refused { IfErr result (λ e. IsRefusal e (receive_refusal (reset_refusal final_size (room self.old.incoming)) id self.old)) }
        ensures kept { IfErr result (λ e. KeptOn e self.old self.new) }
    {
        if let Some(refusal) = self.receive_bar(id.value()) {
            return Err(StreamFault::Refused(refusal));
        }
        let tells = self.reads_more(id.value());
        let before = self.records.totals(id.value());
        self.meet_reset(id.value(), error_code, final_size)?;
        self.note(id, before, tells)
    }
}
