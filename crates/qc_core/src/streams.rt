//! The application's calls on the streams: each is one of the streams' own steps, or is refused and changes nothing but that a blocked
//! write is noted.

ghost use Rattle.std.specs.Prelude.{◌≡◌, not, if◌then◌else◌, is_some, IfOk, OnOk};
ghost use Rattle.qc_core.specs.StreamCalls.{Answers, CallsStreams};
ghost use Rattle.qc_state.specs.Streams.{closed_answer, count_written, finish_answer, had_memory, read_answer, unless, write_answer, write_steps};
ghost use Rattle.qc_state.specs.View.{ideal};
ghost use Rattle.qc_streams.specs.Calls.{bars_reset, closed_to, finish_refusal, known_at, receiving_at, write_refusal};
ghost use Rattle.qc_streams.specs.Counts.{by_dir, has_accepted};
ghost use Rattle.qc_streams.specs.Streams.{may_open, next_accepted, next_own};
ghost use Rattle.qc_streams.specs.Waits.{Opened, Accepted, Finished, WasReset, Stopped, after};

use crate::state::Core;
use bytes::Bytes;
use qc_base::{Dir, StreamId, VarInt};
use qc_send_stream::{FinishError, WriteError};
use qc_state::{Answer, Body, Input, Refusal, Suite};
use qc_streams::{Chunk, ReadFault, StreamsState};
use std::alloc::{AllocError, Global};

/// A stream is opened, where the peer's limit lets it be. Want of memory is the only refusal of the call.
#[tactic(auto, unfolding(qc_streams::specs::Waits::after, qc_streams::specs::Waits::after_step))]
fn open(streams: &mut StreamsState, dir: Dir) -> Result<Answer, AllocError>
    ensures answer { IfOk result (λ answer. answer ≡ (if may_open dir streams.old then Answer.Opened (next_own dir streams.old) else Answer.Nothing)) }
    ensures leads { OnOk result (streams.new ≡ after (unless (not (may_open dir streams.old)) (Opened dir)) streams.old) }
{
    match streams.open(dir)? {
        None => Ok(Answer::Nothing),
        Some(id) => Ok(Answer::Opened(id)),
    }
}

/// A stream that the peer opened is accepted, where one is left.
#[tactic(auto, unfolding(qc_streams::specs::Waits::after, qc_streams::specs::Waits::after_step))]
fn accept(streams: &mut StreamsState, dir: Dir) -> Answer
    ensures answer { result ≡ (if has_accepted (by_dir dir streams.old.peer) then Answer.Nothing else Answer.Accepted (next_accepted dir streams.old)) }
    ensures leads { streams.new ≡ after (unless (has_accepted (by_dir dir streams.old.peer)) (Accepted dir)) streams.old }
{
    match streams.accept(dir) {
        None => Answer::Nothing,
        Some(id) => Answer::Accepted(id),
    }
}

/// These bytes are written on a stream, as many of them as fit. Want of memory is the only refusal of the call.
#[tactic(auto, unfolding(qc_streams::specs::Waits::after, qc_streams::specs::Waits::after_step, qc_streams::specs::Calls::IsRefused, qc_state::specs::Streams::count_written))]
fn write(
    streams: &mut StreamsState,
    alloc: Global,
    id: StreamId,
    body: &Body,
) -> Result<Answer, AllocError>
    ensures answer { IfOk result (λ answer. answer ≡ write_answer (write_refusal id streams.old) (count_written id body.now streams.old)) }
    ensures leads { OnOk result (streams.new ≡ after (write_steps (write_refusal id streams.old) id (count_written id body.now streams.old) body.now) streams.old) }
{
    let mut bytes = Bytes::copy_from_slice(alloc, body.as_slice())?;
    match streams.write(id, &mut bytes) {
        Ok(count) => Ok(Answer::Wrote(count as u64)),
        Err(error) => match error {
            WriteError::Blocked => Ok(Answer::Error(Refusal::Blocked)),
            WriteError::ClosedStream => Ok(Answer::Error(Refusal::ClosedStream)),
            WriteError::Stopped(code) => Ok(Answer::Error(Refusal::Stopped(code))),
            WriteError::OutOfMemory => Err(AllocError),
        },
    }
}

/// A stream is finished.
#[tactic(auto, unfolding(qc_streams::specs::Waits::after, qc_streams::specs::Waits::after_step))]
fn finish(streams: &mut StreamsState, id: StreamId) -> Answer
    ensures answer { result ≡ finish_answer (finish_refusal (known_at id streams.old)) }
    ensures leads { streams.new ≡ after (unless (is_some (finish_refusal (known_at id streams.old))) (Finished id)) streams.old }
{
    match streams.finish(id) {
        Ok(()) => Answer::Done,
        Err(error) => match error {
            FinishError::ClosedStream => Answer::Error(Refusal::ClosedStream),
            FinishError::Stopped(code) => Answer::Error(Refusal::Stopped(code)),
        },
    }
}

/// A stream is reset.
#[tactic(auto, unfolding(qc_streams::specs::Waits::after, qc_streams::specs::Waits::after_step))]
fn reset(streams: &mut StreamsState, id: StreamId, code: VarInt) -> Answer
    ensures answer { result ≡ closed_answer (bars_reset (known_at id streams.old)) }
    ensures leads { streams.new ≡ after (unless (bars_reset (known_at id streams.old)) (WasReset code id)) streams.old }
{
    match streams.reset(id, code) {
        Ok(()) => Answer::Done,
        Err(_) => Answer::Error(Refusal::ClosedStream),
    }
}

/// No more is wanted of a stream.
#[tactic(auto, unfolding(qc_streams::specs::Waits::after, qc_streams::specs::Waits::after_step))]
fn stop(streams: &mut StreamsState, id: StreamId, code: VarInt) -> Answer
    ensures answer { result ≡ closed_answer (closed_to (receiving_at id streams.old)) }
    ensures leads { streams.new ≡ after (unless (closed_to (receiving_at id streams.old)) (Stopped code id)) streams.old }
{
    match streams.stop(id, code) {
        Ok(()) => Answer::Done,
        Err(_) => Answer::Error(Refusal::ClosedStream),
    }
}

/// The answer to a read. Want of memory is the only refusal.
fn read_answer(alloc: Global, read: Result<Option<Chunk>, ReadFault>) -> Result<Answer, AllocError>
    ensures answer { IfOk result (λ answer. answer ≡ read_answer read) }
    ensures memory { OnOk result (had_memory read) }
{
    match read {
        Ok(Some(chunk)) => {
            let body = Body::from_slice(alloc, chunk.bytes.as_slice())?;
            Ok(Answer::Read {
                offset: chunk.offset,
                body,
            })
        }
        Ok(None) => Ok(Answer::Ended),
        Err(fault) => match fault {
            ReadFault::ClosedStream => Ok(Answer::Error(Refusal::ClosedStream)),
            ReadFault::IllegalOrderedRead => Ok(Answer::Error(Refusal::IllegalOrderedRead)),
            ReadFault::Reset(code) => Ok(Answer::Error(Refusal::Reset(code))),
            ReadFault::Blocked => Ok(Answer::Error(Refusal::Blocked)),
            ReadFault::OutOfMemory => Err(AllocError),
        },
    }
}

/// The call of the streams that an input is for; any other input does nothing here. Want of memory is the only refusal.
#[tactic(auto, using(crate::proofs::StreamCalls::answers, crate::proofs::StreamCalls::read_answers), unfolding(qc_streams::specs::Waits::after, qc_streams::specs::Waits::after_step))]
fn call(streams: &mut StreamsState, alloc: Global, input: &Input) -> Result<Answer, AllocError>
    ensures { IfOk result (λ answer. Answers input.now streams.old streams.new answer) }
{
    match input {
        Input::Open { dir, .. } => open(streams, *dir),
        Input::Accept { dir, .. } => Ok(accept(streams, *dir)),
        Input::Write { id, body, .. } => write(streams, alloc, *id, body),
        Input::Finish { id, .. } => Ok(finish(streams, *id)),
        Input::ResetSend { id, code, .. } => Ok(reset(streams, *id, *code)),
        Input::StopRecv { id, code, .. } => Ok(stop(streams, *id, *code)),
        Input::Read { id, max, .. } => {
            let read = streams.read(*id, true, *max);
            read_answer(alloc, read)
        }
        Input::MaxStreams { dir, count, .. } => {
            streams.set_max_concurrent_streams(*dir, *count);
            Ok(Answer::Done)
        }
        Input::SendWindow { size, .. } => {
            streams.set_send_window(*size);
            Ok(Answer::Done)
        }
        Input::ReceiveWindow { size, .. } => {
            streams.set_receive_window(*size);
            Ok(Answer::Done)
        }
        Input::Datagram { .. }
        | Input::Timeout { .. }
        | Input::Transmit { .. }
        | Input::SendDatagram { .. }
        | Input::RecvDatagram { .. }
        | Input::Close { .. }
        | Input::Ping { .. }
        | Input::Update { .. }
        | Input::Identifiers { .. } => Ok(Answer::Done),
    }
}

impl<U: Suite> Core<U> {
    /// The application's call on the streams that an input is for, with its answer. An input that is for none does nothing here, and is
    /// done. Want of memory is the only refusal: a write that is blocked or a stream that is unknown is an answer.
    pub fn call_streams(&mut self, alloc: Global, input: &Input) -> Result<Answer, AllocError>
        ensures { IfOk result (λ answer. CallsStreams input.now (ideal U.Random.stream self.old) (ideal U.Random.stream self.new) answer) }
    {
        call(&mut self.lower.streams, alloc, input)
    }
}
