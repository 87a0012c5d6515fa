//! The application's view of a stream that it reads.

ghost use Rattle.std.specs.Prelude.{◌≡◌, false, IfErr, IfOk, OnErr, OnOk, None, Some, is_err};
ghost use Rattle.std.specs.Borrow.{RestsIfErr, sem};
ghost use Rattle.qc_recv.specs.Receiving.{reset_asked, stop_asked};
ghost use Rattle.qc_streams.specs.contracts.state.StreamsState.{the_row};
ghost use Rattle.qc_streams.specs.Calls.{begin_refusal, closed_to, gives, reading_begun, receiving_at, reset_of};
ghost use Rattle.qc_streams.specs.Views.{IsAnswer, after_next, is_lost, owes_frames, told_after};

use crate::fault::{ClosedStream, ReadError};
use crate::state::StreamsState;
use qc_base::{StreamId, VarInt};
use qc_recv::{Chunk, ReadableError};

/// A stream that the application reads.
#[derive(Drop)]
pub struct RecvStream<'a> {
    pub(crate) state: &'a mut StreamsState,
    pub(crate) id: StreamId,
}

/// What a reading of chunks was told of the stream's end.
#[derive(Clone, Copy, Debug, PartialEq, Eq)]
pub(crate) enum Told {
    /// Nothing.
    Nothing,
    /// That all was read.
    End,
    /// That the peer reset the stream, with this code.
    Reset(VarInt),
}

/// The chunks of a stream that is read.
#[derive(Drop)]
pub struct Chunks<'a> {
    pub(crate) state: &'a mut StreamsState,
    pub(crate) id: StreamId,
    pub(crate) ordered: bool,
    pub(crate) told: Told,
    ghost readable: { is_lost told ordered (receiving_at id state.now) ≡ false },
}

/// Whether a reading of chunks leaves something to be sent.
#[derive(Clone, Copy, Debug, PartialEq, Eq)]
pub struct ShouldTransmit(bool);

impl ShouldTransmit {
    /// Whether there is something to be sent.
    pub fn should_transmit(self) -> bool
        ensures { result ≡ self.0 }
    {
        self.0
    }
}

impl StreamsState {
    /// The application's view of the stream with an id, to read it.
    pub fn recv_stream(&mut self, id: StreamId) -> RecvStream<'_>
        ensures same_reference { result.state.ghost_name ≡ self.entry.ghost_name }
        ensures same_value { result.state.now ≡ self.old }
        ensures id { result.id ≡ id }
    {
        RecvStream { state: self, id }
    }

    /// Begins to read the chunks of the stream with an id, in order or, from then on, out of order.
    ///
    /// # Errors
    ///
    /// Those of [`StreamsState::begin`]; nothing changes then.
    #[tactic(auto, using(crate::proofs::Views::begun_so))]
    pub fn chunks(&mut self, id: StreamId, ordered: bool) -> Result<Chunks<'_>, ReadableError>
        ensures* rests { sem 𝓛 (RestsIfErr the_row self.entry (λ c. c.state.ghost_name) result (λ last. last ≡ self.old)) }
        ensures same_reference { IfOk result (λ c. c.state.ghost_name ≡ self.entry.ghost_name) }
        ensures begun { IfOk result (λ c. c.state.now ≡ reading_begun ordered id self.old) }
        ensures id { IfOk result (λ c. c.id ≡ id) }
        ensures ordered { IfOk result (λ c. c.ordered ≡ ordered) }
        ensures told { IfOk result (λ c. c.told ≡ Told.Nothing) }
        ensures fits { OnOk result (begin_refusal ordered (receiving_at id self.old) ≡ None) }
        ensures refused { IfErr result (λ e. begin_refusal ordered (receiving_at id self.old) ≡ Some e) }
    {
        self.begin(id, ordered)?;
        Ok(Chunks {
            state: self,
            id,
            ordered,
            told: Told::Nothing,
        })
    }
}

impl<'a> RecvStream<'a> {
    /// Begins to read the stream's chunks, in order or, from then on, out of order.
    ///
    /// # Errors
    ///
    /// `ClosedStream` exactly where the stream is unknown, stopped, or its end or its reset was told;
    /// `IllegalOrderedRead` exactly where it isn't and is to be read in order after it was read out of
    /// order. Nothing changes then.
    pub fn read(&mut self, ordered: bool) -> Result<Chunks<'_>, ReadableError>
        ensures begun { IfOk result (λ c. c.state.now ≡ reading_begun ordered self.old.id self.old.state.now) }
        ensures id { IfOk result (λ c. c.id ≡ self.old.id) }
        ensures ordered { IfOk result (λ c. c.ordered ≡ ordered) }
        ensures told { IfOk result (λ c. c.told ≡ Told.Nothing) }
        ensures fits { OnOk result (begin_refusal ordered (receiving_at self.old.id self.old.state.now) ≡ None) }
        ensures refused { IfErr result (λ e. begin_refusal ordered (receiving_at self.old.id self.old.state.now) ≡ Some e) }
    {
        let id = self.id;
        let state = &mut *self.state;
        state.chunks(id, ordered)
    }

    /// The application wants no more of the stream: what waits is let go, and gives credit back.
    ///
    /// # Errors
    ///
    /// Exactly where the stream is unknown, stopped, or its end or its reset was told; nothing changes
    /// then.
    pub fn stop(&mut self, error_code: VarInt) -> Result<(), ClosedStream>
        ensures same_reference { self.new.state.ghost_name ≡ self.old.state.ghost_name }
        ensures same_id { self.new.id ≡ self.old.id }
        ensures stopped { OnOk result (self.new.state.now ≡ gives (stop_asked error_code) self.old.id self.old.state.now) }
        ensures refused { is_err result ≡ closed_to (receiving_at self.old.id self.old.state.now) }
        ensures err { OnErr result (self.new.state.now ≡ self.old.state.now) }
    {
        self.state.stop(self.id, error_code)
    }

    /// The code with which the peer reset the stream, which is told then. None exactly where it didn't.
    ///
    /// # Errors
    ///
    /// Exactly where the stream is unknown, stopped, or its end or its reset was told; nothing changes
    /// then.
    pub fn received_reset(&mut self) -> Result<Option<VarInt>, ClosedStream>
        ensures same_reference { self.new.state.ghost_name ≡ self.old.state.ghost_name }
        ensures same_id { self.new.id ≡ self.old.id }
        ensures code { IfOk result (λ code. code ≡ reset_of (receiving_at self.old.id self.old.state.now)) }
        ensures told { OnOk result (self.new.state.now ≡ gives reset_asked self.old.id self.old.state.now) }
        ensures refused { is_err result ≡ closed_to (receiving_at self.old.id self.old.state.now) }
        ensures err { OnErr result (self.new.state.now ≡ self.old.state.now) }
    {
        self.state.reset_received(self.id)
    }
}

impl<'a> Chunks<'a> {
    /// The next bytes of the stream, at most so many. None exactly at the end, which is told then.
    ///
    /// # Errors
    ///
    /// Exactly, in this order: `Failed` where the connection has failed; `Reset` where the peer reset
    /// the stream, which is told then; `Blocked` where no byte can be read and the end isn't reached; or
    /// `OutOfMemory` for want of memory, and then the connection has failed. The end and a reset are
    /// told again to who asks again.
    pub fn next(&mut self, max_length: usize) -> Result<Option<Chunk>, ReadError>
        ensures same_reference { self.new.state.ghost_name ≡ self.old.state.ghost_name }
        ensures same_id { self.new.id ≡ self.old.id }
        ensures same_order { self.new.ordered ≡ self.old.ordered }
        ensures answer { IsAnswer self.old.state.now.failed self.old.told max_length self.old.ordered (receiving_at self.old.id self.old.state.now) result }
        ensures leads { self.new.state.now ≡ after_next self.old.state.now.failed self.old.told self.old.ordered result self.old.id self.old.state.now }
        ensures told { self.new.told ≡ told_after result self.old.told }
    {
        let answer = self
            .state
            .try_read(self.id, self.ordered, self.told, max_length);
        self.told = told_after(&answer, self.told);
        answer
    }

    /// Ends the reading, and answers whether credit waits to be sent: a MAX_DATA, a MAX_STREAMS, or this
    /// stream's MAX_STREAM_DATA.
    pub fn finalize(self) -> ShouldTransmit
        ensures value { result.0 ≡ owes_frames self.entry.id self.entry.state.now }
        ensures same { self.exit.0.now ≡ self.entry.state.now }
    {
        let Chunks { state, id, .. } = self;
        ShouldTransmit(state.owes_frames(id))
    }
}

/// What a reading of chunks was told of the end, once this was answered too.
fn told_after(answer: &Result<Option<Chunk>, ReadError>, told: Told) -> Told
    ensures { result ≡ told_after answer.now told }
{
    match answer {
        Ok(None) => Told::End,
        Err(ReadError::Reset(code)) => Told::Reset(*code),
        _ => told,
    }
}
