//! The lines of a step: its head, its deeds, its answer, its events and its timer.

ghost use Rattle.std.specs.Prelude.{◌≡◌, ◌<◌, ◌^◌, ◌++◌, OnOk};
ghost use Rattle.std.specs.List.{All, flat_map};
ghost use Rattle.qc_base.specs.Grammar.{IsBytes};
ghost use Rattle.qc_text.specs.OneText.{IsAddressInRange, IsAnswerInRange, IsEndpointInRange, IsEventInRange, IsInRange, IsOptionInRange};
ghost use Rattle.qc_text.specs.TraceText.{answer_text, ecn_text, endpoint_text, event_text, marks_text, flag_text, need_text, nothing_text, out_text, reset_token_text, retire_text, retired_text, step_head, step_text, target_text, timer_text};

use crate::deeds::{put_dids, put_reason};
use crate::digits::put_hex;
use crate::names::word_of;
use crate::pieces::{put_address, put_bytes, put_line, put_number, put_optional};
use crate::streams::{put_datagram, put_read, put_refusal, put_stream_event};
use qc_base::{EcnCodepoint, Instant, ResetToken};
use qc_state::{Answer, EndpointEvent, Event, Step, Word};
use std::alloc::AllocError;
use std::net::SocketAddr;

/// Appends the lines of a step.
#[tactic(auto, unfolding(crate::specs::TraceText::step_text))]
pub fn put_step(out: &mut Vec<u8>, step: &Step) -> Result<(), AllocError>
    ensures text { OnOk result (out.new.items ≡ out.old.items ++ step_text step.entry.now) }
    ensures in_range { OnOk result (IsInRange step.entry.now) }
{
    put_head(out, step.at, step.word, step.now)?;
    put_dids(out, step.did.as_slice())?;
    put_answer(out, step.word, &step.answer)?;
    put_events(out, step.events.as_slice())?;
    put_endpoint_events(out, step.endpoint.as_slice())?;
    put_timer(out, step.timeout)
}

#[tactic(auto, unfolding(crate::specs::TraceText::step_head))]
fn put_head(out: &mut Vec<u8>, at: u64, word: Word, now: Instant) -> Result<(), AllocError>
    ensures text { OnOk result (out.new.items ≡ out.old.items ++ step_head at word now) }
    ensures in_range { OnOk result ((at < 2 ^ 64) × (now < 2 ^ 64)) }
{
    out.extend_from_slice(b"step ")?;
    put_number(out, at)?;
    out.extend_from_slice(b" ")?;
    out.extend_from_slice(word_of(word))?;
    out.extend_from_slice(b" ")?;
    put_number(out, now.nanos())?;
    out.extend_from_slice(b"\n")
}

#[tactic(auto, unfolding(crate::specs::TraceText::answer_text, crate::specs::TraceText::read_text))]
fn put_answer(out: &mut Vec<u8>, word: Word, answer: &Answer) -> Result<(), AllocError>
    ensures text { OnOk result (out.new.items ≡ out.old.items ++ answer_text word answer.now) }
    ensures in_range { OnOk result (IsAnswerInRange answer.now) }
{
    match answer {
        Answer::Done => out.extend_from_slice(b"answer done\n"),
        Answer::Dropped => out.extend_from_slice(b"answer dropped\n"),
        Answer::Nothing => put_nothing(out, word),
        Answer::Flag(true) => out.extend_from_slice(b"answer true\n"),
        Answer::Flag(false) => out.extend_from_slice(b"answer false\n"),
        Answer::Opened(id) => put_line(out, b"answer opened ", id.value()),
        Answer::Accepted(id) => put_line(out, b"answer accepted ", id.value()),
        Answer::Wrote(count) => put_line(out, b"answer wrote ", *count),
        Answer::Read { offset, body } => {
            put_read(out, b"answer read ", *offset, body.as_slice())
        }
        Answer::Ended => out.extend_from_slice(b"answer ended\n"),
        Answer::Datagram(body) => put_datagram(out, b"answer datagram ", body.as_slice()),
        Answer::Error(why) => put_refusal(out, b"answer error ", *why),
        Answer::Out {
            destination,
            segment,
            ecn,
            bytes,
        } => put_out(out, *destination, *segment, *ecn, bytes.as_slice()),
    }
}

/// A transmit that sent nothing has a deed that says why, and no answer.
fn put_nothing(out: &mut Vec<u8>, word: Word) -> Result<(), AllocError>
    ensures { OnOk result (out.new.items ≡ out.old.items ++ nothing_text word) }
{
    match word {
        Word::Transmit => Ok(()),
        _ => out.extend_from_slice(b"answer none\n"),
    }
}

#[tactic(auto, unfolding(crate::specs::TraceText::out_text))]
fn put_out(
    out: &mut Vec<u8>,
    destination: SocketAddr,
    segment: Option<u64>,
    ecn: Option<EcnCodepoint>,
    bytes: &[u8],
) -> Result<(), AllocError>
    ensures text { OnOk result (out.new.items ≡ out.old.items ++ out_text destination segment ecn bytes.now) }
    ensures in_range { OnOk result (IsAnswerInRange (Answer.Out destination segment ecn bytes.now)) }
{
    put_target(out, destination, bytes.len() as u64)?;
    put_marks(out, segment, ecn)?;
    put_hex(out, bytes)?;
    out.extend_from_slice(b"\n")
}

#[tactic(auto, unfolding(crate::specs::TraceText::target_text))]
fn put_target(out: &mut Vec<u8>, destination: SocketAddr, size: u64) -> Result<(), AllocError>
    ensures text { OnOk result (out.new.items ≡ out.old.items ++ target_text destination size) }
    ensures in_range { OnOk result (IsAddressInRange destination) }
{
    out.extend_from_slice(b"out ")?;
    put_address(out, destination)?;
    out.extend_from_slice(b" ")?;
    put_number(out, size)?;
    out.extend_from_slice(b" ")
}

#[tactic(auto, unfolding(crate::specs::TraceText::marks_text))]
fn put_marks(
    out: &mut Vec<u8>,
    segment: Option<u64>,
    ecn: Option<EcnCodepoint>,
) -> Result<(), AllocError>
    ensures text { OnOk result (out.new.items ≡ out.old.items ++ marks_text segment ecn) }
    ensures in_range { OnOk result (IsOptionInRange segment) }
{
    put_optional(out, segment)?;
    out.extend_from_slice(b" ")?;
    put_ecn(out, ecn)?;
    out.extend_from_slice(b" ")
}

#[tactic(auto, unfolding(crate::specs::TraceText::ecn_text))]
fn put_ecn(out: &mut Vec<u8>, ecn: Option<EcnCodepoint>) -> Result<(), AllocError>
    ensures { OnOk result (out.new.items ≡ out.old.items ++ ecn_text ecn) }
{
    match ecn {
        None => out.extend_from_slice(b"-"),
        Some(mark) => put_number(out, mark.bits() as u64),
    }
}

fn put_events(out: &mut Vec<u8>, events: &[Event]) -> Result<(), AllocError>
    ensures text { OnOk result (out.new.items ≡ out.old.items ++ flat_map event_text events.now) }
    ensures in_range { OnOk result (All IsEventInRange events.now) }
{
    for event in events {
        put_event(out, event)?;
    }
    Ok(())
}

#[tactic(auto, unfolding(crate::specs::TraceText::event_text))]
fn put_event(out: &mut Vec<u8>, event: &Event) -> Result<(), AllocError>
    ensures text { OnOk result (out.new.items ≡ out.old.items ++ event_text event.now) }
    ensures in_range { OnOk result (IsEventInRange event.now) }
{
    match event {
        Event::HandshakeDataReady => out.extend_from_slice(b"event handshake-data\n"),
        Event::Connected => out.extend_from_slice(b"event connected\n"),
        Event::ConnectionLost { reason } => put_reason(out, b"event lost ", reason),
        Event::DatagramReceived => out.extend_from_slice(b"event datagram\n"),
        Event::DatagramsUnblocked => out.extend_from_slice(b"event unblocked\n"),
        Event::Stream(event) => put_stream_event(out, b"event stream ", *event),
    }
}

fn put_endpoint_events(out: &mut Vec<u8>, events: &[EndpointEvent]) -> Result<(), AllocError>
    ensures text { OnOk result (out.new.items ≡ out.old.items ++ flat_map endpoint_text events.now) }
    ensures in_range { OnOk result (All IsEndpointInRange events.now) }
{
    for event in events {
        put_endpoint_event(out, *event)?;
    }
    Ok(())
}

#[tactic(auto, unfolding(crate::specs::TraceText::endpoint_text))]
fn put_endpoint_event(out: &mut Vec<u8>, event: EndpointEvent) -> Result<(), AllocError>
    ensures text { OnOk result (out.new.items ≡ out.old.items ++ endpoint_text event) }
    ensures in_range { OnOk result (IsEndpointInRange event) }
{
    match event {
        EndpointEvent::ResetToken(remote, token) => put_reset_token(out, remote, token),
        EndpointEvent::NeedIdentifiers(now, count) => put_need(out, now, count),
        EndpointEvent::RetireConnectionId(now, sequence, more) => {
            put_retire(out, now, sequence, more)
        }
        EndpointEvent::Drained => out.extend_from_slice(b"endpoint drained\n"),
    }
}

#[tactic(auto, unfolding(crate::specs::TraceText::reset_token_text))]
fn put_reset_token(
    out: &mut Vec<u8>,
    remote: SocketAddr,
    token: ResetToken,
) -> Result<(), AllocError>
    ensures text { OnOk result (out.new.items ≡ out.old.items ++ reset_token_text remote token) }
    ensures in_range { OnOk result (IsAddressInRange remote × IsBytes token) }
{
    out.extend_from_slice(b"endpoint reset-token ")?;
    put_address(out, remote)?;
    out.extend_from_slice(b" ")?;
    put_bytes(out, &*token)?;
    out.extend_from_slice(b"\n")
}

#[tactic(auto, unfolding(crate::specs::TraceText::need_text))]
fn put_need(out: &mut Vec<u8>, now: Instant, count: u64) -> Result<(), AllocError>
    ensures text { OnOk result (out.new.items ≡ out.old.items ++ need_text now count) }
    ensures in_range { OnOk result ((now < 2 ^ 64) × (count < 2 ^ 64)) }
{
    out.extend_from_slice(b"endpoint need ")?;
    put_number(out, now.nanos())?;
    out.extend_from_slice(b" ")?;
    put_number(out, count)?;
    out.extend_from_slice(b"\n")
}

#[tactic(auto, unfolding(crate::specs::TraceText::retire_text))]
fn put_retire(out: &mut Vec<u8>, now: Instant, sequence: u64, more: bool) -> Result<(), AllocError>
    ensures text { OnOk result (out.new.items ≡ out.old.items ++ retire_text now sequence more) }
    ensures in_range { OnOk result ((now < 2 ^ 64) × (sequence < 2 ^ 64)) }
{
    out.extend_from_slice(b"endpoint retire ")?;
    put_number(out, now.nanos())?;
    out.extend_from_slice(b" ")?;
    put_retired(out, sequence, more)?;
    out.extend_from_slice(b"\n")
}

#[tactic(auto, unfolding(crate::specs::TraceText::retired_text))]
fn put_retired(out: &mut Vec<u8>, sequence: u64, more: bool) -> Result<(), AllocError>
    ensures text { OnOk result (out.new.items ≡ out.old.items ++ retired_text sequence more) }
    ensures in_range { OnOk result (sequence < 2 ^ 64) }
{
    put_number(out, sequence)?;
    out.extend_from_slice(b" ")?;
    put_flag(out, more)
}

#[tactic(auto, unfolding(crate::specs::TraceText::flag_text))]
fn put_flag(out: &mut Vec<u8>, flag: bool) -> Result<(), AllocError>
    ensures { OnOk result (out.new.items ≡ out.old.items ++ flag_text flag) }
{
    if flag {
        return out.extend_from_slice(b"1");
    }
    out.extend_from_slice(b"0")
}

#[tactic(auto, unfolding(crate::specs::TraceText::timer_text))]
fn put_timer(out: &mut Vec<u8>, timeout: Option<Instant>) -> Result<(), AllocError>
    ensures text { OnOk result (out.new.items ≡ out.old.items ++ timer_text timeout) }
    ensures in_range { OnOk result (IsOptionInRange timeout) }
{
    out.extend_from_slice(b"timer ")?;
    put_optional(out, nanos_of(timeout))?;
    out.extend_from_slice(b"\n")
}

fn nanos_of(time: Option<Instant>) -> Option<u64>
    ensures { result ≡ time }
{
    match time {
        Some(time) => Some(time.nanos()),
        None => None,
    }
}
