//! Frames that come about what this end sends, and about limits.

ghost use Rattle.std.specs.Prelude.{◌≡◌, ◌<◌, ◌^◌, IfErr, IfOk, OnOk, None};
ghost use Rattle.qc_streams.specs.Refusals.{IsRefusal, KeptOn};
ghost use Rattle.qc_streams.specs.Stream.{limit_taken, stop_taken, stops_at, with_sending};
ghost use Rattle.qc_streams.specs.Streams.{met, target};
ghost use Rattle.qc_streams.specs.Frames.{blocked_refusal, count_refusal, limit_came, send_refusal, stop_came, stream_limit_came, streams_limit_came};

use crate::events::StreamEvent;
use crate::fault::{Refusal, StreamFault};
use crate::kinds::{dir_of, is_uni};
use crate::state::StreamsState;
use qc_base::{Dir, StreamId, VarInt};
use std::alloc::AllocError;

impl StreamsState {
    /// A STOP_SENDING frame meets its stream: whether it is the first.
    #[tactic(auto, unfolding(crate::specs::Streams::met, crate::specs::Streams::target))]
    fn meet_stop(&mut self, id: u64, code: VarInt) -> Result<bool, AllocError>
        requires { id < 2 ^ 62 }
        ensures first { IfOk result (λ first. first ≡ stops_at (target id self.old)) }
        ensures stopped { OnOk result (self.new ≡ met (with_sending (stop_taken code)) id self.old) }
    {
        if !self.is_peer_unopened(id) {
            return Ok(self.records.stop_sending(id, code));
        }
        let mut stream = self.fresh_peer(dir_of(id));
        let first = stream.stop_sending(code);
        self.open_with(id, stream)?;
        Ok(first)
    }

    /// A MAX_STREAM_DATA frame meets its stream.
    #[tactic(auto, unfolding(crate::specs::Streams::met))]
    fn meet_limit(&mut self, id: u64, limit: VarInt) -> Result<(), AllocError>
        requires { id < 2 ^ 62 }
        ensures { OnOk result (self.new ≡ met (with_sending (limit_taken limit)) id self.old) }
    {
        if !self.is_peer_unopened(id) {
            self.records.raise_limit(id, limit);
            return Ok(());
        }
        let mut stream = self.fresh_peer(dir_of(id));
        stream.raise_limit(limit);
        self.open_with(id, stream)
    }

    /// The same; the stream waits for the connection, where a write was blocked on it.
    #[tactic(auto, unfolding(crate::specs::Frames::stream_limit_came))]
    pub(crate) fn raise_stream(&mut self, id: StreamId, limit: VarInt) -> Result<(), AllocError>
        ensures { OnOk result (self.new ≡ stream_limit_came id limit self.old) }
    {
        self.meet_limit(id.value(), limit)?;
        self.watch(id)?;
        self.tell_writables(None);
        Ok(())
    }

    /// A STOP_SENDING frame meets its stream, with the event of a first one.
    #[tactic(auto, unfolding(crate::specs::Frames::stop_came))]
    fn tell_stop(&mut self, id: StreamId, error_code: VarInt) -> Result<(), AllocError>
        ensures { OnOk result (self.new ≡ stop_came id error_code self.old) }
    {
        let first = self.meet_stop(id.value(), error_code)?;
        self.tell_if(first, StreamEvent::Stopped { id, error_code })
    }

    /// Takes a STOP_SENDING frame (RFC 9000, section 19.5). A stream that the peer hasn't opened is
    /// opened, with all lower ones of its kind; the first such frame of a stream is told.
    ///
    /// # Errors
    ///
    /// A [`Refusal`], exactly by the table of the definition; nothing changes then, and no stream is
    /// opened. Or want of memory.
    #[tactic(auto, unfolding(crate::specs::Refusals::IsRefusal, crate::specs::Refusals::KeptOn))]
    pub fn received_stop_sending(
        &mut self,
        id: StreamId,
        error_code: VarInt,
    ) -> Result<(), StreamFault>
        ensures taken { OnOk result (self.new ≡ stop_came id error_code self.old) }
        ensures fits { OnOk result (send_refusal id self.old ≡ None) }
        ensures refused { IfErr result (λ e. IsRefusal e (send_refusal id self.old)) }
        ensures kept { IfErr result (λ e. KeptOn e self.old self.new) }
    {
        if let Some(refusal) = self.send_refusal(id.value()) {
            return Err(StreamFault::Refused(refusal));
        }
        match self.tell_stop(id, error_code) {
            Ok(()) => Ok(()),
            Err(_) => Err(StreamFault::OutOfMemory),
        }
    }

    /// Takes a MAX_STREAM_DATA frame (RFC 9000, section 19.10). A stream that the peer hasn't opened
    /// is opened, with all lower ones of its kind; a limit only rises.
    ///
    /// # Errors
    ///
    /// A [`Refusal`], exactly by the table of the definition; nothing changes then, and no stream is
    /// opened. Or want of memory.
    #[tactic(auto, unfolding(crate::specs::Refusals::IsRefusal, crate::specs::Refusals::KeptOn))]
    pub fn received_max_stream_data(
        &mut self,
        id: StreamId,
        limit: VarInt,
    ) -> Result<(), StreamFault>
        ensures taken { OnOk result (self.new ≡ stream_limit_came id limit self.old) }
        ensures fits { OnOk result (send_refusal id self.old ≡ None) }
        ensures refused { IfErr result (λ e. IsRefusal e (send_refusal id self.old)) }
        ensures kept { IfErr result (λ e. KeptOn e self.old self.new) }
    {
        if let Some(refusal) = self.send_refusal(id.value()) {
            return Err(StreamFault::Refused(refusal));
        }
        match self.raise_stream(id, limit) {
            Ok(()) => Ok(()),
            Err(_) => Err(StreamFault::OutOfMemory),
        }
    }

    /// Why a number of streams is refused.
    #[tactic(auto, unfolding(crate::specs::Frames::count_refusal))]
    fn count_refusal(count: u64) -> Option<Refusal>
        ensures { result ≡ count_refusal count }
    {
        if count > 1 << 60 {
            Some(Refusal::Encoding)
        } else {
            None
        }
    }

    /// The same limit, told where it rises.
    #[tactic(auto, unfolding(crate::specs::Frames::streams_limit_came))]
    fn raise_streams(&mut self, dir: Dir, count: u64) -> Result<(), AllocError>
        ensures { OnOk result (self.new ≡ streams_limit_came dir count self.old) }
    {
        let rises = self.own.get(dir).limit.value() < count;
        let own = self.own.get(dir).with_limit(count);
        self.own.put(dir, own);
        self.tell_if(rises, StreamEvent::Available { dir })
    }

    /// Takes a MAX_STREAMS frame (RFC 9000, section 19.11): a limit that rises is told.
    ///
    /// # Errors
    ///
    /// A [`Refusal`], exactly where the number exceeds 2^60; nothing changes then. Or want of memory.
    #[tactic(auto, unfolding(crate::specs::Refusals::IsRefusal, crate::specs::Refusals::KeptOn))]
    pub fn received_max_streams(&mut self, dir: Dir, count: u64) -> Result<(), StreamFault>
        ensures taken { OnOk result (self.new ≡ streams_limit_came dir count self.old) }
        ensures fits { OnOk result (count_refusal count ≡ None) }
        ensures refused { IfErr result (λ e. IsRefusal e (count_refusal count)) }
        ensures kept { IfErr result (λ e. KeptOn e self.old self.new) }
    {
        if let Some(refusal) = StreamsState::count_refusal(count) {
            return Err(StreamFault::Refused(refusal));
        }
        match self.raise_streams(dir, count) {
            Ok(()) => Ok(()),
            Err(_) => Err(StreamFault::OutOfMemory),
        }
    }

    /// Takes a MAX_DATA frame (RFC 9000, section 19.9): a limit only rises.
    #[tactic(auto, unfolding(crate::specs::Frames::limit_came))]
    pub fn received_max_data(&mut self, limit: VarInt)
        ensures { self.new ≡ limit_came limit self.old }
    {
        self.outgoing.raise_limit(limit.into_inner());
        self.tell_writables(None);
    }

    /// Takes a STREAM_DATA_BLOCKED frame (RFC 9000, section 19.13), which changes nothing: it is only
    /// refused, exactly by the table of the definition.
    #[tactic(auto, unfolding(crate::specs::Frames::blocked_refusal, crate::specs::Refusals::first_row))]
    pub fn received_stream_data_blocked(&self, id: StreamId) -> Option<Refusal>
        ensures { result ≡ blocked_refusal id self.now }
    {
        if self.is_own(id.value()) && is_uni(id.value()) {
            return Some(Refusal::State);
        }
        if self.is_past_limit(id.value()) {
            return Some(Refusal::Limit);
        }
        None
    }

    /// Takes a STREAMS_BLOCKED frame (RFC 9000, section 19.14), which changes nothing: it is only
    /// refused, exactly where the number exceeds 2^60.
    pub fn received_streams_blocked(limit: u64) -> Option<Refusal>
        ensures { result ≡ count_refusal limit }
    {
        StreamsState::count_refusal(limit)
    }
}
