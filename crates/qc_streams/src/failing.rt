//! The application's calls that take memory: where it wants, the connection has failed, and from then on
//! they answer so.

ghost use Rattle.std.specs.Prelude.{◌≡◌, ◌≤◌, ◌<◌, length, take, IfErr, IfOk, OnErr, OnOk, None, Some, false, if◌then◌else◌};
ghost use Rattle.std.specs.List.{concat};
ghost use Rattle.qc_streams.specs.Calls.{IsRefused, count_taken, known, known_at, known_of, receiving_at, send_room, write_refusal, write_refused, wrote};
ghost use Rattle.qc_streams.specs.Chunks.{cut_front, whole_in};
ghost use Rattle.qc_streams.specs.Credit.{budget};
ghost use Rattle.qc_streams.specs.Records.{record_of};
ghost use Rattle.qc_streams.specs.Streams.{may_open, next_own, opened_own};
ghost use Rattle.qc_streams.specs.Views.{IsAnswer, IsBarred, IsGiven, IsUntaken, after_next, fault_marked, fault_of, given_up, is_lost, is_shut, read_error, read_on, side_marked, told_after, unrefused, unwritten, write_bar, write_error};

use crate::chunks::Written;
use crate::fault::{ReadError, ReadFault, WriteError, write_error};
use crate::records::Records;
use crate::recv_stream::Told;
use crate::state::StreamsState;
use crate::stream::Stream;
use bytes::Bytes;
use qc_base::{Dir, Fault, StreamId};
use qc_recv::Chunk;
use qc_send_stream::{SendPart, WriteError as SideWrite};
use std::alloc::{AllocError, Global};

/// How many bytes a write takes, none where it is refused.
#[tactic(auto, unfolding(qc_send_stream::specs::Sending::takes, qc_send_stream::specs::Sending::write_refusal))]
fn unrefused(sending: &Option<SendPart>, wanted: usize, most: u64) -> usize
    ensures count { result ≡ unrefused wanted most (known sending.now) }
    ensures within { result ≤ wanted }
{
    let Some(part) = sending else {
        return 0;
    };
    if part.is_done() || part.is_closed() || part.stopped.is_some() {
        return 0;
    }
    let credit = part.limit.saturating_sub(part.buffer.written());
    (wanted as u64).min(credit.min(most)) as usize
}

/// So many bytes of the front, copied.
fn copied(alloc: Global, body: &[u8], count: usize) -> Result<Bytes, AllocError>
    requires { count ≤ length body.now }
    ensures front { IfOk result (λ chunk. chunk ≡ take count body.now) }
    ensures some { OnErr result (0 < count) }
{
    if count == 0 {
        return Ok(Bytes::new());
    }
    Bytes::copy_from_slice(alloc, &body[..count])
}

impl Records {
    /// How many bytes a write on the stream with an id takes, none where it is refused.
    fn unrefused(&self, id: u64, wanted: usize, most: u64) -> usize
        ensures count { result ≡ unrefused wanted most (known_of (record_of id self.now)) }
        ensures within { result ≤ wanted }
    {
        match self.streams.get(id) {
            Some(stream) => unrefused(&stream.sending, wanted, most),
            None => 0,
        }
    }
}

impl StreamsState {
    /// Opens a stream. None exactly where the connection is closed or the peer's limit is reached.
    ///
    /// # Errors
    ///
    /// `Failed` exactly where the connection has failed; else want of memory, and then it has failed.
    pub(crate) fn try_open(&mut self, dir: Dir) -> Result<Option<StreamId>, Fault>
        ensures id { IfOk result (λ id. id ≡ (if may_open dir self.old then Some (next_own dir self.old) else None)) }
        ensures opened { OnOk result (self.new ≡ (if may_open dir self.old then opened_own dir self.old else self.old)) }
        ensures first { OnOk result (self.old.failed ≡ false) }
        ensures fault { IfErr result (λ e. e ≡ fault_of self.old.failed) }
        ensures err { IfErr result (λ e. self.new ≡ given_up e self.old) }
    {
        if self.failed {
            return Err(Fault::Failed);
        }
        match self.open(dir) {
            Ok(id) => Ok(id),
            Err(_) => {
                self.fail();
                Err(Fault::OutOfMemory)
            }
        }
    }

    /// How many bytes a write takes, none where it is refused.
    #[tactic(auto, unfolding(crate::specs::Calls::known_at))]
    fn unrefused(&self, id: StreamId, wanted: usize) -> usize
        ensures count { result ≡ (if self.now.closed then 0 else unrefused wanted (budget (send_room self.now) self.now.outgoing) (known_at id self.now)) }
        ensures within { result ≤ wanted }
    {
        if self.closed {
            return 0;
        }
        let most = self.outgoing.budget(self.send_room());
        self.records.unrefused(id.value(), wanted, most)
    }

    /// Copies the front of bytes, as many as a write takes, and writes them.
    #[tactic(auto, unfolding(crate::specs::Calls::write_refused))]
    fn write_copy(&mut self, id: StreamId, body: &[u8]) -> Result<usize, SideWrite>
        ensures count { IfOk result (λ n. n ≡ count_taken (length body.now) (budget (send_room self.old) self.old.outgoing) (known_at id self.old)) }
        ensures written { IfOk result (λ n. self.new ≡ wrote id n body.now self.old) }
        ensures fits { OnOk result (write_refusal id self.old ≡ None) }
        ensures refused { IfErr result (λ e. IsRefused e (write_refusal id self.old)) }
        ensures err { IfErr result (λ e. self.new ≡ write_refused e id self.old) }
    {
        let count = self.unrefused(id, body.len());
        let Ok(mut chunk) = copied(self.records.alloc(), body, count) else {
            return Err(SideWrite::OutOfMemory);
        };
        let taken = self.write(id, &mut chunk)?;
        Ok(taken)
    }

    /// Why a write takes no bytes; after want of memory the connection has failed.
    fn mark_write(&mut self, error: SideWrite) -> WriteError
        ensures error { result ≡ write_error error }
        ensures marked { self.new ≡ side_marked error self.old }
    {
        if error == SideWrite::OutOfMemory {
            self.fail();
        }
        write_error(error)
    }

    /// Writes as many bytes of the front as fit, which are copied.
    ///
    /// # Errors
    ///
    /// `Failed` exactly where the connection has failed; else as [`StreamsState::write`]. After want of
    /// memory it has failed.
    #[tactic(auto, using(crate::proofs::Views::barred_so, crate::proofs::Views::fits_so, crate::proofs::Views::failed_bar, crate::proofs::Views::failed_so))]
    pub(crate) fn try_write(&mut self, id: StreamId, body: &[u8]) -> Result<usize, WriteError>
        ensures count { IfOk result (λ n. n ≡ count_taken (length body.now) (budget (send_room self.old) self.old.outgoing) (known_at id self.old)) }
        ensures written { IfOk result (λ n. self.new ≡ wrote id n body.now self.old) }
        ensures fits { OnOk result (write_bar id self.old ≡ None) }
        ensures refused { IfErr result (λ e. IsBarred e (write_bar id self.old)) }
        ensures err { IfErr result (λ e. self.new ≡ unwritten e id self.old) }
    {
        if self.failed {
            return Err(WriteError::Failed);
        }
        match self.write_copy(id, body) {
            Ok(count) => Ok(count),
            Err(error) => Err(self.mark_write(error)),
        }
    }

    /// Writes as many bytes of the front of chunks as fit, which are cut off them.
    ///
    /// # Errors
    ///
    /// `Failed` exactly where the connection has failed; else as [`StreamsState::write_chunks`]. After
    /// want of memory it has failed.
    #[tactic(auto, using(crate::proofs::Views::barred_so, crate::proofs::Views::fits_so, crate::proofs::Views::failed_bar, crate::proofs::Views::untaken_so, crate::proofs::Views::failed_untaken))]
    pub(crate) fn try_write_chunks(
        &mut self,
        id: StreamId,
        chunks: &mut [Bytes],
    ) -> Result<Written, WriteError>
        ensures count { IfOk result (λ w. w.bytes ≡ count_taken (length (concat chunks.old)) (budget (send_room self.old) self.old.outgoing) (known_at id self.old)) }
        ensures whole { IfOk result (λ w. w.chunks ≡ whole_in w.bytes chunks.old) }
        ensures written { IfOk result (λ w. self.new ≡ wrote id w.bytes (concat chunks.old) self.old) }
        ensures rest { IfOk result (λ w. chunks.new ≡ cut_front w.bytes chunks.old) }
        ensures fits { OnOk result (write_bar id self.old ≡ None) }
        ensures refused { IfErr result (λ e. IsBarred e (write_bar id self.old)) }
        ensures err { IfErr result (λ e. IsUntaken e chunks.old chunks.new id self.old self.new) }
    {
        if self.failed {
            return Err(WriteError::Failed);
        }
        match self.write_chunks(id, chunks) {
            Ok(written) => Ok(written),
            Err(error) => Err(self.mark_write(error)),
        }
    }

    /// Why a read gives nothing; after want of memory the connection has failed. A stream that can be read
    /// is neither closed nor to be read in another order.
    fn mark_read(&mut self, fault: ReadFault) -> ReadError
        ensures error { result ≡ read_error fault }
        ensures marked { self.new ≡ fault_marked fault self.old }
    {
        match fault {
            ReadFault::Reset(code) => ReadError::Reset(code),
            ReadFault::OutOfMemory => {
                self.fail();
                ReadError::OutOfMemory
            }
            ReadFault::Blocked => ReadError::Blocked,
            ReadFault::ClosedStream => ReadError::Blocked,
            ReadFault::IllegalOrderedRead => ReadError::Blocked,
        }
    }

    /// The next bytes of a stream that can be read.
    #[tactic(auto, using(crate::proofs::Views::given_so, crate::proofs::Views::refused_so, crate::proofs::Views::left_given))]
    fn read_on(
        &mut self,
        id: StreamId,
        ordered: bool,
        most: usize,
    ) -> Result<Option<Chunk>, ReadError>
        requires { is_shut ordered (receiving_at id self.old) ≡ false }
        ensures answer { IsGiven most ordered (receiving_at id self.old) result }
        ensures leads { self.new ≡ read_on ordered result id self.old }
    {
        match self.read(id, ordered, most) {
            Ok(chunk) => Ok(chunk),
            Err(fault) => Err(self.mark_read(fault)),
        }
    }

    /// The next bytes of a stream, at most so many, where that was told of its end.
    ///
    /// # Errors
    ///
    /// `Failed` exactly where the connection has failed; else as [`StreamsState::read`], and a reset that
    /// was told is told again. After want of memory the connection has failed.
    #[tactic(auto, using(crate::proofs::Views::next_again), unfolding(crate::specs::Views::IsAnswer, crate::specs::Views::after_next))]
    pub(crate) fn try_read(
        &mut self,
        id: StreamId,
        ordered: bool,
        told: Told,
        most: usize,
    ) -> Result<Option<Chunk>, ReadError>
        requires { is_lost told ordered (receiving_at id self.old) ≡ false }
        ensures answer { IsAnswer self.old.failed told most ordered (receiving_at id self.old) result }
        ensures leads { self.new ≡ after_next self.old.failed told ordered result id self.old }
        ensures again { is_lost (told_after result told) ordered (receiving_at id self.new) ≡ false }
    {
        if self.failed {
            return Err(ReadError::Failed);
        }
        match told {
            Told::Nothing => self.read_on(id, ordered, most),
            Told::End => Ok(None),
            Told::Reset(code) => Err(ReadError::Reset(code)),
        }
    }
}
