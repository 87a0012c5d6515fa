//! Reading begins.

ghost use Rattle.std.specs.Prelude.{◌≡◌, IfErr, OnErr, OnOk, None, Some};
ghost use Rattle.qc_recv.specs.Receiving.{opened};
ghost use Rattle.qc_streams.specs.Calls.{begin_refusal, reading_begun, receiving_at, receiving_of};
ghost use Rattle.qc_streams.specs.Kept.{kept_of};
ghost use Rattle.qc_streams.specs.Records.{changed, record_of};
ghost use Rattle.qc_streams.specs.Sends.{sends_of};
ghost use Rattle.qc_streams.specs.Stream.{with_receiving};
ghost use Rattle.qc_streams.specs.Views.{owes_frames};
ghost use Rattle.qc_streams.specs.Queues.{owes_credit};

use crate::records::Records;
use crate::state::StreamsState;
use crate::stream::Stream;
use qc_base::StreamId;
use qc_recv::ReadableError;

impl Stream {
    /// Begins to read it, in order or, from then on, out of order.
    #[tactic(auto, unfolding(crate::specs::Stream::with_receiving))]
    fn begin(&mut self, ordered: bool) -> Result<(), ReadableError>
        ensures begun { OnOk result (self.new ≡ with_receiving (opened ordered) self.old) }
        ensures same { kept_of self.new ≡ kept_of self.old }
        ensures still { sends_of self.new ≡ sends_of self.old }
        ensures fits { OnOk result (begin_refusal ordered self.old.receiving ≡ None) }
        ensures refused { IfErr result (λ e. begin_refusal ordered self.old.receiving ≡ Some e) }
        ensures err { OnErr result (self.new ≡ self.old) }
    {
        match &mut self.receiving {
            Some(receiving) => receiving.open(ordered),
            None => Err(ReadableError::ClosedStream),
        }
    }

    /// Whether a MAX_STREAM_DATA waits.
    fn owes_credit(&self) -> bool
        ensures { result ≡ owes_credit self.now.receiving }
    {
        match &self.receiving {
            Some(receiving) => receiving.credit_waits,
            None => false,
        }
    }
}

impl Records {
    /// Begins to read the stream with an id.
    #[tactic(auto, using(crate::proofs::Back::record_back, crate::proofs::Keeping::same, crate::proofs::Sending::still))]
    fn begin(&mut self, id: u64, ordered: bool) -> Result<(), ReadableError>
        ensures begun { OnOk result (self.new ≡ changed (with_receiving (opened ordered)) id self.old) }
        ensures fits { OnOk result (begin_refusal ordered (receiving_of (record_of id self.old)) ≡ None) }
        ensures refused { IfErr result (λ e. begin_refusal ordered (receiving_of (record_of id self.old)) ≡ Some e) }
        ensures err { OnErr result (self.new ≡ self.old) }
    {
        let Some(stream) = self.streams.get_mut(id) else {
            return Err(ReadableError::ClosedStream);
        };
        stream.begin(ordered)
    }

    /// Whether a MAX_STREAM_DATA of the stream with an id waits.
    fn owes_credit(&self, id: u64) -> bool
        ensures { result ≡ owes_credit (receiving_of (record_of id self.now)) }
    {
        match self.streams.get(id) {
            Some(stream) => stream.owes_credit(),
            None => false,
        }
    }
}

impl StreamsState {
    /// Begins to read a stream, in order or, from then on, out of order.
    ///
    /// # Errors
    ///
    /// `ClosedStream` exactly where the stream is unknown, stopped, or its end or its reset was told;
    /// `IllegalOrderedRead` exactly where it isn't and is to be read in order after it was read out of
    /// order. Nothing changes then.
    #[tactic(auto, unfolding(crate::specs::Calls::reading_begun, crate::specs::Calls::receiving_at))]
    pub fn begin(&mut self, id: StreamId, ordered: bool) -> Result<(), ReadableError>
        ensures begun { OnOk result (self.new ≡ reading_begun ordered id self.old) }
        ensures fits { OnOk result (begin_refusal ordered (receiving_at id self.old) ≡ None) }
        ensures refused { IfErr result (λ e. begin_refusal ordered (receiving_at id self.old) ≡ Some e) }
        ensures err { OnErr result (self.new ≡ self.old) }
    {
        self.records.begin(id.value(), ordered)
    }

    /// Whether credit waits to be sent: a MAX_DATA, a MAX_STREAMS, or the stream's MAX_STREAM_DATA.
    #[tactic(auto, unfolding(crate::specs::Views::owes_frames, crate::specs::Calls::receiving_at))]
    pub(crate) fn owes_frames(&self, id: StreamId) -> bool
        ensures { result ≡ owes_frames id self.now }
    {
        self.incoming.waits
            || self.peer.bi.waits
            || self.peer.uni.waits
            || self.records.owes_credit(id.value())
    }
}
