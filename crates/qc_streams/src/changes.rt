//! What a frame makes of a stream that is open.

ghost use Rattle.std.specs.Prelude.{◌≡◌, ◌<◌, ◌^◌, IfErr, IfOk, OnOk, OnErr, None, Some};
ghost use Rattle.std.specs.Option.{option_map};
ghost use Rattle.qc_recv.specs.Receiving.{IsRefusal as IsSideRefusal, reset_refusal, reset_taken, stream_refusal, stream_taken};
ghost use Rattle.qc_streams.specs.Credit.{room, tallied};
ghost use Rattle.qc_streams.specs.Kept.{kept_of};
ghost use Rattle.qc_streams.specs.Records.{changed, record_of};
ghost use Rattle.qc_streams.specs.Sends.{sends_of};
ghost use Rattle.qc_streams.specs.Sequel.{sequel_at, sequel_of, settling};
ghost use Rattle.qc_streams.specs.Stream.{limit_taken, refusal_at, side_refusal, stop_taken, stops_at, totals_at, totals_if, totals_of, is_reading, reads_if, with_receiving, with_sending, has_ended};

use crate::credit::Incoming;
use crate::records::Records;
use crate::sequel::Sequel;
use crate::stream::{Stream, Totals};
use bytes::Bytes;
use qc_base::VarInt;
use qc_recv::{FrameFault, Refusal as SideRefusal};

/// What a STREAM frame left to be done.
#[derive(Clone, Copy, Debug)]
pub(crate) struct Arrival {
    /// Whether it is told to the application.
    pub(crate) tells: bool,
    /// What is to be done for its stream.
    pub(crate) sequel: Sequel,
}

impl Totals {
    /// Nothing came.
    pub(crate) fn none() -> Totals
        ensures { result ≡ totals_if None }
    {
        Totals {
            received: 0,
            returned: 0,
        }
    }
}

impl Stream {
    /// Takes a STREAM frame, which counts for the connection's credit.
    #[tactic(auto, unfolding(crate::specs::Sequel::settling))]
    fn receive(
        &mut self,
        offset: u64,
        bytes: Bytes,
        last: bool,
        incoming: &mut Incoming,
    ) -> Result<Arrival, FrameFault>
        requires { offset < 2 ^ 62 }
        ensures taken { OnOk result (self.new ≡ settling (with_receiving (stream_taken offset bytes last)) self.old) }
        ensures counted { OnOk result (incoming.new ≡ tallied (totals_of self.old.receiving) (totals_of (with_receiving (stream_taken offset bytes last) self.old).receiving) incoming.old) }
        ensures tells { IfOk result (λ a. a.tells ≡ is_reading self.old.receiving) }
        ensures sequel { IfOk result (λ a. a.sequel ≡ sequel_of (with_receiving (stream_taken offset bytes last) self.old)) }
        ensures same { kept_of self.new ≡ kept_of self.old }
        ensures still { sends_of self.new ≡ sends_of self.old }
        ensures fits { OnOk result (side_refusal (stream_refusal offset bytes last (room incoming.old)) self.old.receiving ≡ None) }
        ensures refused { IfErr result (λ e. IsSideRefusal e (side_refusal (stream_refusal offset bytes last (room incoming.old)) self.old.receiving)) }
        ensures err { OnErr result (self.new ≡ self.old) }
        ensures uncounted { OnErr result (incoming.new ≡ incoming.old) }
    {
        let tells = self.is_reading();
        let before = self.totals();
        self.take_stream(offset, bytes, last, incoming.room())?;
        incoming.tally(before, self.totals());
        let sequel = self.look_at();
        Ok(Arrival { tells, sequel })
    }
}

impl Records {
    /// A STREAM frame on the stream with an id, where one is open: it counts for the connection's credit.
    #[tactic(auto, using(crate::proofs::Back::record_back, crate::proofs::Keeping::same, crate::proofs::Sending::still), unfolding(crate::specs::Stream::totals_at))]
    pub(crate) fn receive(
        &mut self,
        id: u64,
        offset: u64,
        bytes: Bytes,
        last: bool,
        incoming: &mut Incoming,
    ) -> Result<Arrival, FrameFault>
        requires { offset < 2 ^ 62 }
        ensures taken { OnOk result (self.new ≡ changed (settling (with_receiving (stream_taken offset bytes last))) id self.old) }
        ensures counted { OnOk result (incoming.new ≡ tallied (totals_at id self.old) (totals_if (option_map (with_receiving (stream_taken offset bytes last)) (record_of id self.old))) incoming.old) }
        ensures tells { IfOk result (λ a. a.tells ≡ reads_if (record_of id self.old)) }
        ensures sequel { IfOk result (λ a. a.sequel ≡ sequel_at (option_map (with_receiving (stream_taken offset bytes last)) (record_of id self.old))) }
        ensures fits { OnOk result (refusal_at (stream_refusal offset bytes last (room incoming.old)) (record_of id self.old) ≡ None) }
        ensures refused { IfErr result (λ e. IsSideRefusal e (refusal_at (stream_refusal offset bytes last (room incoming.old)) (record_of id self.old))) }
        ensures err { OnErr result (self.new ≡ self.old) }
        ensures uncounted { OnErr result (incoming.new ≡ incoming.old) }
    {
        let Some(stream) = self.streams.get_mut(id) else {
            incoming.tally(Totals::none(), Totals::none());
            return Ok(Arrival {
                tells: false,
                sequel: Sequel::Nothing,
            });
        };
        stream.receive(offset, bytes, last, incoming)
    }

    /// A RESET_STREAM frame on the stream with an id, where one is open.
    #[tactic(auto, using(crate::proofs::Back::record_back, crate::proofs::Keeping::same, crate::proofs::Sending::still))]
    pub(crate) fn take_reset(
        &mut self,
        id: u64,
        code: VarInt,
        size: u64,
        room: u64,
    ) -> Result<(), SideRefusal>
        ensures taken { OnOk result (self.new ≡ changed (with_receiving (reset_taken code size)) id self.old) }
        ensures fits { OnOk result (refusal_at (reset_refusal size room) (record_of id self.old) ≡ None) }
        ensures refused { IfErr result (λ e. refusal_at (reset_refusal size room) (record_of id self.old) ≡ Some e) }
        ensures err { OnErr result (self.new ≡ self.old) }
    {
        match self.streams.get_mut(id) {
            Some(stream) => stream.take_reset(code, size, room),
            None => Ok(()),
        }
    }

    /// A STOP_SENDING frame on the stream with an id, where one is open: whether it is to be told.
    #[tactic(auto, using(crate::proofs::Keeping::same, crate::proofs::Sending::still))]
    pub(crate) fn stop_sending(&mut self, id: u64, code: VarInt) -> bool
        ensures first { result ≡ stops_at (record_of id self.old) }
        ensures stopped { self.new ≡ changed (with_sending (stop_taken code)) id self.old }
    {
        match self.streams.get_mut(id) {
            Some(stream) => stream.stop_sending(code),
            None => false,
        }
    }

    /// A MAX_STREAM_DATA frame on the stream with an id, where one is open.
    #[tactic(auto, using(crate::proofs::Keeping::same, crate::proofs::Sending::still))]
    pub(crate) fn raise_limit(&mut self, id: u64, limit: VarInt)
        ensures { self.new ≡ changed (with_sending (limit_taken limit)) id self.old }
    {
        let Some(stream) = self.streams.get_mut(id) else {
            return;
        };
        stream.raise_limit(limit);
    }

    /// What the stream with an id counts for the connection's credit.
    #[tactic(auto, unfolding(crate::specs::Stream::totals_at))]
    pub(crate) fn totals(&self, id: u64) -> Totals
        ensures { result ≡ totals_at id self.now }
    {
        match self.streams.get(id) {
            Some(stream) => stream.totals(),
            None => Totals::none(),
        }
    }

    /// Whether there is a stream with an id from which the application is told of more.
    pub(crate) fn is_reading(&self, id: u64) -> bool
        ensures { result ≡ reads_if (record_of id self.now) }
    {
        match self.streams.get(id) {
            Some(stream) => stream.is_reading(),
            None => false,
        }
    }

    /// Whether there is a stream with an id that has ended.
    pub(crate) fn has_ended(&self, id: u64) -> bool
        ensures { result ≡ has_ended (record_of id self.now) }
    {
        match self.streams.get(id) {
            Some(stream) => stream.is_over(),
            None => false,
        }
    }
}
