//! One input of a driven connection: its call, and the reports after it.

ghost use Rattle.std.specs.Prelude.{◌≡◌, ◌<◌, ◌≤◌, ◌++◌, [], true, false, length, OnOk, IfOk, IfSome, None, option_to_list};
ghost use Rattle.qc_state.specs.declared.input.Input.TheVariants as input;
ghost use Rattle.qc_cids.specs.Cids.{bad_cid, give_refusal, may_give};
ghost use Rattle.qc_conn.specs.Refusal.{bad_call};
ghost use Rattle.qc_conn.specs.Seen.{Sends};
ghost use Rattle.qc_laws.specs.StreamsLaws.{is_streams_call};
ghost use Rattle.qc_receive.specs.Cutting.{rest_of};
ghost use Rattle.qc_receive.specs.Events.{GivesRight, LeavesBytes, handed_after, time_of_event};
ghost use Rattle.qc_receive.specs.FirstPacket.{first_reason, size_of};
ghost use Rattle.qc_state.specs.Life.{is_drained};
ghost use Rattle.qc_state.specs.Moves.{Clock, Issue, ReportReady, ReportConnected, ReportAllHeard, ReportStreams, ReportLost, ReportNotices, ReportDrained, state_move};
ghost use Rattle.qc_state.specs.Polls.{endpoint_events, waiting_events};
ghost use Rattle.qc_state.specs.Receiving.{datagram_after, first_packet_after, is_taken};
ghost use Rattle.qc_state.specs.Setup.{is_first_awaited};
ghost use Rattle.qc_state.specs.Run.{began, time_of, word_of, out_of, close_after, Calls, IsStep};
ghost use Rattle.qc_state.specs.Timeouts.{timeout_after};
ghost use Rattle.qc_state.specs.Timers.{has_come};
ghost use Rattle.qc_state.specs.View.{ideal, held};

use bytes::{Bytes, BytesMut};
use qc_base::{EcnCodepoint, Instant, IssuedCid, VarInt};
use qc_core::Core;
use qc_header::InitialPacket;
use qc_receive::{ConnectionEvent, datagram, first_datagram, first_packet};
use qc_send::transmit;
use qc_state::{
    Answer, Body, Coming, ConnectionError, Dids, EndpointEvents, Event, Events, IdList, Input,
    Means, Step, Suite, Transmit, Word,
};
use std::alloc::{AllocError, Global};
use std::net::SocketAddr;

/// The size of each datagram but the last, where there are several.
fn segment_told(size: Option<usize>) -> Option<u64>
    ensures { result ≡ size }
{
    match size {
        None => None,
        Some(size) => Some(size as u64),
    }
}

/// The answer to a transmit.
fn sent_answer(sent: Option<Transmit>, buf: Vec<u8>) -> Answer
    ensures { result ≡ out_of sent buf.items }
{
    match sent {
        None => Answer::Nothing,
        Some(sent) => Answer::Out {
            destination: sent.destination,
            segment: segment_told(sent.segment_size),
            ecn: sent.ecn,
            bytes: Body::from_vec(buf),
        },
    }
}

/// A transmit at `now` into an empty buffer. No one keeps its deeds, of which `did` gives the room.
pub(crate) fn core_send<U: Suite>(
    core: &mut Core<U>,
    alloc: Global,
    now: Instant,
    max_datagrams: usize,
    buf: &mut Vec<u8>,
    did: &mut Dids,
) -> Result<Option<Transmit>, AllocError>
    requires some { 1 ≤ max_datagrams }
    requires empty { buf.old.items ≡ [] }
    ensures { IfOk result (λ sent. Sends ⟦<U as Means>⟧.meaning now max_datagrams (ideal U.Random.stream core.old) (ideal U.Random.stream core.new) sent buf.new.items) }
{
    did.clear();
    core.clock(now);
    let sent = transmit(core, alloc, now, max_datagrams, buf, did)?;
    did.clear();
    Ok(sent)
}

/// A datagram came to a server that waits for its first packet, whose deeds no one keeps.
#[tactic(auto, using(crate::proofs::Firsts::still_awaited, crate::proofs::Firsts::first_answer))]
pub(crate) fn core_first<U: Suite>(
    core: &mut Core<U>,
    alloc: Global,
    coming: &Coming,
    bytes: BytesMut,
) -> Result<bool, AllocError>
    requires { is_first_awaited core.old.setup ≡ true }
    ensures answer { IfOk result (λ taken. taken ≡ is_taken ⟦<U as Means>⟧.meaning (began (ideal U.Random.stream core.old) coming.now.time).state coming.now.remote bytes.items) }
    ensures leads { OnOk result ((ideal U.Random.stream core.new) ≡ (datagram_after ⟦<U as Means>⟧.meaning coming.now bytes.items (began (ideal U.Random.stream core.old) coming.now.time)).state) }
{
    let mut did = Dids::new(alloc);
    core.clock(coming.time);
    let taken = first_datagram(core, alloc, &mut did, coming, bytes)?;
    Ok(taken)
}

/// The connection is told a time, which leaves it that these ids may be given: no more than are asked for, each with the next number and as
/// long as this end's.
fn clock_for<U: Suite>(core: &mut Core<U>, now: Instant, given: &[IssuedCid])
    requires few { length given.now ≤ may_give core.old.lower.ids }
    requires right { bad_cid core.old.lower.ids.local.cid_len core.old.lower.ids.local.issued given.now ≡ None }
    ensures leads { (ideal U.Random.stream core.new) ≡ state_move (Clock now) (ideal U.Random.stream core.old) }
    ensures given { give_refusal given.now core.new.lower.ids ≡ None }
{
    core.clock(now);
}

/// Ids of this end are given at a time: no more than are asked for, each with the next number and as long as this end's. Want of memory is the only refusal.
fn core_ids<U: Suite>(
    core: &mut Core<U>,
    now: Instant,
    given: &[IssuedCid],
) -> Result<(), AllocError>
    requires few { length given.now ≤ may_give core.old.lower.ids }
    requires right { bad_cid core.old.lower.ids.local.cid_len core.old.lower.ids.local.issued given.now ≡ None }
    ensures { OnOk result ((ideal U.Random.stream core.new) ≡ state_move (Issue now given.now) (state_move (Clock now) (ideal U.Random.stream core.old))) }
{
    clock_for(core, now, given);
    core.issue(now, given)
}

/// An endpoint hands over what came. Answers what was done, in the room of these deeds, which are let go.
pub(crate) fn core_event<U: Suite>(
    core: &mut Core<U>,
    alloc: Global,
    event: ConnectionEvent,
    room: Dids,
) -> Result<Dids, AllocError>
    requires some { LeavesBytes event }
    requires given { GivesRight event core.old.lower.ids }
    ensures { IfOk result (λ did. (held U.Random.stream core.new did) ≡ handed_after ⟦<U as Means>⟧.meaning event (began (ideal U.Random.stream core.old) (time_of_event event))) }
{
    let mut did = room;
    did.clear();
    match event {
        ConnectionEvent::Datagram {
            now,
            remote,
            ecn,
            first_decode,
            remaining,
        } => {
            let coming = Coming {
                time: now,
                remote,
                mark: ecn,
            };
            core.clock(now);
            qc_receive::event(core, alloc, &mut did, &coming, first_decode, remaining)?;
            Ok(did)
        }
        ConnectionEvent::NewIdentifiers { ids, now } => {
            core_ids(core, now, ids.as_slice())?;
            Ok(did)
        }
    }
}

/// A server's first packet came, which opened with this number, and what is behind it; no one keeps the deeds.
/// Answers the reason for the end that the packet gave.
pub(crate) fn core_first_packet<U: Suite>(
    core: &mut Core<U>,
    alloc: Global,
    coming: &Coming,
    number: u64,
    packet: InitialPacket,
    behind: Option<BytesMut>,
) -> Result<Option<ConnectionError>, AllocError>
    requires { IfSome behind (λ b. 0 < length b.items) }
    ensures answer { IfOk result (λ why. why ≡ first_reason ⟦<U as Means>⟧.meaning coming.now packet.header.src_cid packet.header.token number packet.payload.items (began (ideal U.Random.stream core.old) coming.now.time)) }
    ensures leads { OnOk result ((ideal U.Random.stream core.new) ≡ (first_packet_after ⟦<U as Means>⟧.meaning coming.now packet.header.src_cid packet.header.token number packet.payload.items (rest_of behind) (size_of packet (rest_of behind)) (began (ideal U.Random.stream core.old) coming.now.time)).state) }
{
    let mut did = Dids::new(alloc);
    core.clock(coming.time);
    let why = first_packet(core, alloc, &mut did, coming, number, packet, behind)?;
    Ok(why)
}

/// Timers may have come by `now`; no one keeps the deeds.
pub(crate) fn core_timeout<U: Suite>(
    core: &mut Core<U>,
    alloc: Global,
    now: Instant,
) -> Result<(), AllocError>
    ensures leads { OnOk result ((ideal U.Random.stream core.new) ≡ (timeout_after ⟦<U as Means>⟧.meaning now (began (ideal U.Random.stream core.old) now)).state) }
    ensures idle { OnOk result (is_drained core.old.life.state ≡ false → has_come core.new.timers.idle now ≡ false) }
    ensures close { OnOk result (is_drained core.old.life.state ≡ false → has_come core.new.timers.close now ≡ false) }
    ensures keys { OnOk result (is_drained core.old.life.state ≡ false → has_come core.new.timers.key_discard now ≡ false) }
    ensures paced { OnOk result (is_drained core.old.life.state ≡ false → has_come core.new.timers.pacing now ≡ false) }
    ensures aged { OnOk result (is_drained core.old.life.state ≡ false → has_come core.new.timers.push_new_cid now ≡ false) }
    ensures held { OnOk result (is_drained core.old.life.state ≡ false → has_come core.new.timers.max_ack_delay now ≡ false) }
{
    let mut did = Dids::new(alloc);
    core.clock(now);
    core.handle_timeout(now, &mut did)
}

/// A transmit at `now`.
#[tactic(auto, using(qc_laws::proofs::Steps::calls_transmit))]
fn transmit_call<U: Suite>(
    core: &mut Core<U>,
    alloc: Global,
    now: Instant,
    max_datagrams: usize,
    did: &mut Dids,
) -> Result<Answer, AllocError>
    requires some { 1 ≤ max_datagrams }
    requires none { did.old ≡ [] }
    ensures { IfOk result (λ answer. Calls ⟦<U as Means>⟧.meaning (ideal U.Random.stream core.old) (Input.Transmit now max_datagrams) (held U.Random.stream core.new did.new) answer) }
{
    let mut buf = Vec::new(alloc);
    core.clock(now);
    let sent = transmit(core, alloc, now, max_datagrams, &mut buf, did)?;
    Ok(sent_answer(sent, buf))
}

/// The application closes at `now`: the rise of the life is told where this made it.
#[tactic(auto, unfolding(qc_state::specs::Run::close_after, qc_state::specs::Moves::move_to, qc_state::specs::Moves::deeds_move))]
fn close_told<U: Suite>(
    core: &mut Core<U>,
    now: Instant,
    code: VarInt,
    reason: Bytes,
    did: &mut Dids,
) -> Result<(), AllocError>
    ensures { OnOk result ((held U.Random.stream core.new did.new) ≡ close_after now code reason (held U.Random.stream core.old did.old)) }
{
    if core.close(now, code, reason) {
        return did.push_rose(2);
    }
    Ok(())
}

/// A close of the application at `now`.
#[tactic(auto, using(qc_laws::proofs::Steps::calls_close))]
fn close_call<U: Suite>(
    core: &mut Core<U>,
    alloc: Global,
    now: Instant,
    code: VarInt,
    reason: &Body,
    did: &mut Dids,
) -> Result<Answer, AllocError>
    requires { did.old ≡ [] }
    ensures { IfOk result (λ answer. Calls ⟦<U as Means>⟧.meaning (ideal U.Random.stream core.old) (Input.Close now code reason.now) (held U.Random.stream core.new did.new) answer) }
{
    let reason = Bytes::copy_from_slice(alloc, reason.as_slice())?;
    core.clock(now);
    close_told(core, now, code, reason, did)?;
    Ok(Answer::Done)
}

/// Timers may have come by `now`.
fn timeout_call<U: Suite>(
    core: &mut Core<U>,
    now: Instant,
    did: &mut Dids,
) -> Result<Answer, AllocError>
    requires { did.old ≡ [] }
    ensures { IfOk result (λ answer. Calls ⟦<U as Means>⟧.meaning (ideal U.Random.stream core.old) (Input.Timeout now) (held U.Random.stream core.new did.new) answer) }
{
    core.clock(now);
    core.handle_timeout(now, did)?;
    Ok(Answer::Done)
}

/// A PING is asked for at `now`.
#[tactic(auto, using(qc_laws::proofs::Steps::calls_ping))]
fn ping_call<U: Suite>(core: &mut Core<U>, now: Instant, did: &Dids) -> Answer
    requires { did.now ≡ [] }
    ensures { Calls ⟦<U as Means>⟧.meaning (ideal U.Random.stream core.old) (Input.Ping now) (held U.Random.stream core.new did.now) result }
{
    core.clock(now);
    core.ping();
    Answer::Done
}

/// An update of the keys is asked for at `now`.
#[tactic(auto, using(qc_laws::proofs::Steps::calls_update))]
fn update_call<U: Suite>(core: &mut Core<U>, now: Instant, did: &Dids) -> Answer
    requires { did.now ≡ [] }
    ensures { Calls ⟦<U as Means>⟧.meaning (ideal U.Random.stream core.old) (Input.Update now) (held U.Random.stream core.new did.now) result }
{
    core.clock(now);
    Answer::Flag(core.update())
}

/// A datagram came from `remote` at `now`.
fn datagram_call<U: Suite>(
    core: &mut Core<U>,
    alloc: Global,
    now: Instant,
    remote: SocketAddr,
    ecn: Option<EcnCodepoint>,
    bytes: &Body,
    did: &mut Dids,
) -> Result<Answer, AllocError>
    requires { did.old ≡ [] }
    ensures { IfOk result (λ answer. Calls ⟦<U as Means>⟧.meaning (ideal U.Random.stream core.old) (Input.Datagram now remote ecn bytes.now) (held U.Random.stream core.new did.new) answer) }
{
    let bytes = BytesMut::copy_from_slice(alloc, bytes.as_slice())?;
    core.clock(now);
    let coming = Coming {
        time: now,
        remote,
        mark: ecn,
    };
    if datagram(core, alloc, did, &coming, bytes)? {
        return Ok(Answer::Done);
    }
    Ok(Answer::Dropped)
}

/// A datagram of the application is sent at `now`.
fn send_call<U: Suite>(
    core: &mut Core<U>,
    alloc: Global,
    now: Instant,
    body: &Body,
    did: &Dids,
) -> Result<Answer, AllocError>
    requires { did.now ≡ [] }
    ensures { IfOk result (λ answer. Calls ⟦<U as Means>⟧.meaning (ideal U.Random.stream core.old) (Input.SendDatagram now body.now) (held U.Random.stream core.new did.now) answer) }
{
    core.clock(now);
    let answer = core.send_datagram(alloc, body)?;
    Ok(answer)
}

/// The application takes a datagram that came, at `now`.
fn recv_call<U: Suite>(
    core: &mut Core<U>,
    alloc: Global,
    now: Instant,
    did: &Dids,
) -> Result<Answer, AllocError>
    requires { did.now ≡ [] }
    ensures { IfOk result (λ answer. Calls ⟦<U as Means>⟧.meaning (ideal U.Random.stream core.old) (Input.RecvDatagram now) (held U.Random.stream core.new did.now) answer) }
{
    core.clock(now);
    let answer = core.recv_datagram(alloc)?;
    Ok(answer)
}

/// A call on the streams.
fn stream_call<U: Suite>(
    core: &mut Core<U>,
    alloc: Global,
    input: &Input,
    did: &Dids,
) -> Result<Answer, AllocError>
    requires streams { is_streams_call input.now ≡ true }
    requires none { did.now ≡ [] }
    ensures { IfOk result (λ answer. Calls ⟦<U as Means>⟧.meaning (ideal U.Random.stream core.old) input.now (held U.Random.stream core.new did.now) answer) }
{
    core.clock(time(input));
    let answer = core.call_streams(alloc, input)?;
    Ok(answer)
}

/// Ids of this end are given. Want of memory is the only refusal.
#[tactic(auto, using(crate::proofs::Firsts::still_given, qc_laws::proofs::Steps::calls_issue))]
fn issue_call<U: Suite>(
    core: &mut Core<U>,
    now: Instant,
    ids: &IdList,
    did: &Dids,
) -> Result<Answer, AllocError>
    requires good { give_refusal ids.now core.old.lower.ids ≡ None }
    requires none { did.now ≡ [] }
    ensures { IfOk result (λ answer. Calls ⟦<U as Means>⟧.meaning (ideal U.Random.stream core.old) (input.Identifiers now ids.now) (held U.Random.stream core.new did.now) answer) }
{
    core.clock(now);
    core.issue(now, ids.as_slice())?;
    Ok(Answer::Done)
}

/// The call that an input is for.
#[tactic(auto, using(crate::proofs::Refusals::ids_good, crate::proofs::Refusals::some_allowed))]
fn call<U: Suite>(
    core: &mut Core<U>,
    alloc: Global,
    input: &Input,
    did: &mut Dids,
) -> Result<Answer, AllocError>
    requires none { did.old ≡ [] }
    requires good { bad_call (ideal U.Random.stream core.old) input.now ≡ None }
    ensures { IfOk result (λ answer. Calls ⟦<U as Means>⟧.meaning (ideal U.Random.stream core.old) input.now (held U.Random.stream core.new did.new) answer) }
{
    match input {
        Input::Datagram {
            now,
            remote,
            ecn,
            bytes,
        } => datagram_call(core, alloc, *now, *remote, *ecn, bytes, did),
        Input::Timeout { now } => timeout_call(core, *now, did),
        Input::Transmit { now, max_datagrams } => transmit_call(
            core,
            alloc,
            *now,
            *max_datagrams,
            did,
        ),
        Input::Close { now, code, reason } => close_call(core, alloc, *now, *code, reason, did),
        Input::Ping { now } => Ok(ping_call(core, *now, did)),
        Input::Update { now } => Ok(update_call(core, *now, did)),
        Input::SendDatagram { now, body } => send_call(core, alloc, *now, body, did),
        Input::RecvDatagram { now } => recv_call(core, alloc, *now, did),
        Input::Open { .. }
        | Input::Accept { .. }
        | Input::Write { .. }
        | Input::Finish { .. }
        | Input::ResetSend { .. }
        | Input::StopRecv { .. }
        | Input::Read { .. }
        | Input::MaxStreams { .. }
        | Input::SendWindow { .. }
        | Input::ReceiveWindow { .. } => stream_call(core, alloc, input, did),
        Input::Identifiers { now, ids } => issue_call(core, *now, ids, did),
    }
}

/// An event that waits, if one does, behind the others.
fn report_next(event: Option<Event>, events: &mut Events) -> Result<(), AllocError>
    ensures { OnOk result (events.new ≡ events.old ++ option_to_list event) }
{
    match event {
        None => Ok(()),
        Some(event) => match event {
            Event::HandshakeDataReady => events.push_ready(),
            Event::Connected => events.push_connected(),
            Event::ConnectionLost { reason } => events.push_lost(reason),
            Event::DatagramReceived => events.push_datagram(),
            Event::DatagramsUnblocked => events.push_unblocked(),
            Event::Stream(event) => events.push_stream(event),
        },
    }
}

/// What waits to be reported to the application, one after the other.
fn report_events<U: Suite>(core: &mut Core<U>, alloc: Global) -> Result<Events, AllocError>
    ensures events { IfOk result (λ events. events ≡ waiting_events (ideal U.Random.stream core.old)) }
    ensures leads { OnOk result ((ideal U.Random.stream core.new) ≡ state_move ReportLost (state_move ReportStreams (state_move ReportAllHeard (state_move ReportConnected (state_move ReportReady (ideal U.Random.stream core.old)))))) }
{
    let mut events = Events::new(alloc);
    report_next(core.poll_ready(), &mut events)?;
    report_next(core.poll_connected(), &mut events)?;
    core.take_heard_events(&mut events)?;
    core.take_stream_events(&mut events)?;
    report_next(core.poll_lost(), &mut events)?;
    Ok(events)
}

/// What waits to be reported to the endpoint, one after the other.
fn take_endpoint_events<U: Suite>(
    core: &mut Core<U>,
    alloc: Global,
) -> Result<EndpointEvents, AllocError>
    ensures events { IfOk result (λ events. events ≡ endpoint_events (ideal U.Random.stream core.old)) }
    ensures leads { OnOk result ((ideal U.Random.stream core.new) ≡ state_move ReportDrained (state_move ReportNotices (ideal U.Random.stream core.old))) }
{
    let mut events = core.take_notices(alloc);
    events.push(core.poll_drained())?;
    Ok(events)
}

/// What waits to be reported to the endpoint; mostly nothing does.
#[tactic(auto, using(crate::proofs::Reports::none_waits_endpoint, crate::proofs::Reports::none_leads_endpoint))]
fn report_endpoint<U: Suite>(
    core: &mut Core<U>,
    alloc: Global,
) -> Result<EndpointEvents, AllocError>
    ensures events { IfOk result (λ events. events ≡ endpoint_events (ideal U.Random.stream core.old)) }
    ensures leads { OnOk result ((ideal U.Random.stream core.new) ≡ state_move ReportDrained (state_move ReportNotices (ideal U.Random.stream core.old))) }
{
    if core.has_endpoint_events() {
        return take_endpoint_events(core, alloc);
    }
    Ok(EndpointEvents::new(alloc))
}

/// The kind of an input.
fn word(input: &Input) -> Word
    ensures { result ≡ word_of input.now }
{
    match input {
        Input::Datagram { .. } => Word::Datagram,
        Input::Timeout { .. } => Word::Timeout,
        Input::Transmit { .. } => Word::Transmit,
        Input::Open { .. } => Word::Open,
        Input::Accept { .. } => Word::Accept,
        Input::Write { .. } => Word::Write,
        Input::Finish { .. } => Word::Finish,
        Input::ResetSend { .. } => Word::ResetSend,
        Input::StopRecv { .. } => Word::StopRecv,
        Input::Read { .. } => Word::Read,
        Input::SendDatagram { .. } => Word::SendDatagram,
        Input::RecvDatagram { .. } => Word::RecvDatagram,
        Input::Close { .. } => Word::Close,
        Input::Ping { .. } => Word::Ping,
        Input::Update { .. } => Word::Update,
        Input::MaxStreams { .. } => Word::MaxStreams,
        Input::SendWindow { .. } => Word::SendWindow,
        Input::ReceiveWindow { .. } => Word::ReceiveWindow,
        Input::Identifiers { .. } => Word::Identifiers,
    }
}

/// The time of an input.
pub(crate) fn time(input: &Input) -> Instant
    ensures { result ≡ time_of input.now }
{
    match input {
        Input::Datagram { now, .. } => *now,
        Input::Timeout { now } => *now,
        Input::Transmit { now, .. } => *now,
        Input::Open { now, .. } => *now,
        Input::Accept { now, .. } => *now,
        Input::Write { now, .. } => *now,
        Input::Finish { now, .. } => *now,
        Input::ResetSend { now, .. } => *now,
        Input::StopRecv { now, .. } => *now,
        Input::Read { now, .. } => *now,
        Input::SendDatagram { now, .. } => *now,
        Input::RecvDatagram { now } => *now,
        Input::Close { now, .. } => *now,
        Input::Ping { now } => *now,
        Input::Update { now } => *now,
        Input::MaxStreams { now, .. } => *now,
        Input::SendWindow { now, .. } => *now,
        Input::ReceiveWindow { now, .. } => *now,
        Input::Identifiers { now, .. } => *now,
    }
}

/// One input: the call, and the reports after it. Want of memory is the only refusal.
#[tactic(auto, using(qc_laws::proofs::Steps::is_step))]
pub(crate) fn core_step<U: Suite>(
    core: &mut Core<U>,
    alloc: Global,
    at: u64,
    input: &Input,
) -> Result<Step, AllocError>
    requires forward { core.old.timers.greatest ≤ time_of input.now }
    requires good { bad_call (ideal U.Random.stream core.old) input.now ≡ None }
    ensures { IfOk result (λ x. IsStep ⟦<U as Means>⟧.meaning at (ideal U.Random.stream core.old) input.now x (ideal U.Random.stream core.new)) }
{
    let mut did = Dids::new(alloc);
    let answer = call(core, alloc, input, &mut did)?;
    let events = report_events(core, alloc)?;
    let endpoint = report_endpoint(core, alloc)?;
    let timeout = core.poll_timeout();
    Ok(Step {
        at,
        word: word(input),
        now: time(input),
        did,
        answer,
        events,
        endpoint,
        timeout,
    })
}
