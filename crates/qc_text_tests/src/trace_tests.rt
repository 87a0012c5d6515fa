//! Texts of traces that are made by hand. The lines are written by hand, by the rules of the trace's text; the frames in
//! them are spelled by RFC 9000, sections 19.2 to 19.11, 19.19 and 19.20.

use bytes::Bytes;
use qc_base::{
    Dir, EcnCodepoint, Instant, ResetToken, Side, SpaceId, StreamId, TransportErrorCode, VarInt,
};
use qc_frame::{FrameList, FrameOf, OwnedFrame};
use qc_state::{
    Answer, ApplicationClose, Body, ConnectionClose, ConnectionError, Dids, EndpointEvent,
    EndpointEvents, Events, Given, Layer, Quiet, Refusal, Step, Trace, Verdict, Word,
};
use qc_streams::StreamEvent;
use qc_text::{given_frames_have_their_names, steps_text, trace_text};
use std::alloc::{AllocError, Global};
use std::net::{IpAddr, Ipv4Addr, Ipv6Addr, SocketAddr};
use std::test::Fail;

/// A step at time 5 with these deeds and this answer, which reports nothing.
fn step(alloc: Global, word: Word, did: Dids, answer: Answer) -> Step {
    reporting(
        word,
        did,
        answer,
        Events::new(alloc),
        EndpointEvents::new(alloc),
    )
}

/// A step at time 5 with these deeds, this answer and these reports.
fn reporting(
    word: Word,
    did: Dids,
    answer: Answer,
    events: Events,
    endpoint: EndpointEvents,
) -> Step {
    Step {
        at: 0,
        word,
        now: Instant::from_nanos(5),
        did,
        answer,
        events,
        endpoint,
        timeout: None,
    }
}

/// A trace with this step alone.
fn trace_of(alloc: Global, step: Step) -> Result<Trace, AllocError> {
    let mut trace = Trace::new(alloc);
    trace.push(step)?;
    Ok(trace)
}

/// The text of a trace with this step alone.
fn text(alloc: Global, step: Step) -> Result<Vec<u8>, AllocError> {
    let trace = trace_of(alloc, step)?;
    trace_text(alloc, &trace)
}

/// Whether the text of a trace with this step alone is this.
fn is_text(alloc: Global, step: Step, told: &str) -> Result<bool, AllocError> {
    let text = text(alloc, step)?;
    Ok(text.as_slice() == told.as_bytes())
}

/// Whether the texts of no steps are these: that of the whole trace, and that of its steps.
fn are_texts(alloc: Global, whole: &str, begun: &str) -> Result<(bool, bool), AllocError> {
    let trace = Trace::new(alloc);
    let is_whole = is_trace_text(alloc, &trace, whole)?;
    let is_begun = is_steps_text(alloc, trace.as_slice(), begun)?;
    Ok((is_whole, is_begun))
}

/// Whether the text of a trace is this.
fn is_trace_text(alloc: Global, trace: &Trace, told: &str) -> Result<bool, AllocError> {
    let text = trace_text(alloc, trace)?;
    Ok(text.as_slice() == told.as_bytes())
}

/// Whether the text of these steps is this.
fn is_steps_text(alloc: Global, steps: &[Step], told: &str) -> Result<bool, AllocError> {
    let text = steps_text(alloc, steps)?;
    Ok(text.as_slice() == told.as_bytes())
}

#[test]
fn no_steps(rt: HostRuntime) -> Result<(), Fail> {
    let are = are_texts(rt.alloc(), "qconn 1\nend\n", "qconn 1\n")?;
    assert_eq!(rt; are, (true, true));
    Ok(())
}

/// A packet of each verdict.
fn put_pieces(did: &mut Dids) -> Result<(), AllocError> {
    did.push_piece(Some(SpaceId::Initial), Some(0), Verdict::Admitted)?;
    did.push_piece(Some(SpaceId::Handshake), None, Verdict::Failure)?;
    did.push_piece(Some(SpaceId::Data), Some(7), Verdict::Seen)?;
    did.push_piece(None, None, Verdict::Ignored)?;
    did.push_piece(Some(SpaceId::Initial), Some(1), Verdict::AckOnly)?;
    did.push_piece(Some(SpaceId::Initial), Some(2), Verdict::BadBits)?;
    did.push_piece(Some(SpaceId::Initial), Some(3), Verdict::ReadForClose)?;
    did.push_piece(Some(SpaceId::Data), Some(4), Verdict::NumberOnly)
}

/// A step in which such packets came.
fn pieces_step(alloc: Global) -> Result<Step, AllocError> {
    let mut did = Dids::new(alloc);
    put_pieces(&mut did)?;
    Ok(step(alloc, Word::Datagram, did, Answer::Done))
}

#[test]
fn packets_that_came(rt: HostRuntime) -> Result<(), Fail> {
    let step = pieces_step(rt.alloc())?;
    let told =
        "qconn 1\nstep 0 datagram 5\npiece initial 0 Admitted\npiece handshake - Failure\npiece data 7 Seen\npiece - - Ignored\npiece initial 1 AckOnly\npiece initial 2 BadBits\npiece initial 3 ReadForClose\npiece data 4 NumberOnly\nanswer done\ntimer -\nend\n";
    assert!(rt; is_text(rt.alloc(), step, told)?);
    Ok(())
}

/// A step whose deed is that a layer was given these bytes.
fn given_step(alloc: Global, layer: Layer, bytes: &[u8]) -> Result<Step, AllocError> {
    let given = Given::of_bytes(Vec::from_slice(alloc, bytes)?);
    let mut did = Dids::new(alloc);
    did.push_gave(layer, given)?;
    Ok(step(alloc, Word::Datagram, did, Answer::Done))
}

/// Whether that a layer was given these bytes is told by this line.
fn is_given(alloc: Global, layer: Layer, bytes: &[u8], line: &str) -> Result<bool, Fail> {
    let step = given_step(alloc, layer, bytes)?;
    let text = String::from_utf8(text(alloc, step)?)?;
    Ok(text.as_str().contains(line))
}

/// What the layer of the connection's life is given, and how it is told: a close with code 5, no frame and no reason; an
/// application's close with code 7 and the reason "bye"; HANDSHAKE_DONE; a PING, which no layer is given; and no frame.
const GIVEN_TO_LIFE: &[(&[u8], &str)] = &[
    (&[0x1c, 5, 0, 0], "\ngave life CONNECTION_CLOSE/1c050000\n"),
    (
        &[0x1d, 7, 3, 0x62, 0x79, 0x65],
        "\ngave life APPLICATION_CLOSE/1d0703627965\n",
    ),
    (&[0x1e], "\ngave life HANDSHAKE_DONE/1e\n"),
    (&[1], "\ngave life -/01\n"),
    (&[], "\ngave life -/\n"),
];

/// What recovery is given: an ACK of number 0 alone, without and with counts of ECN.
const GIVEN_TO_RECOVERY: &[(&[u8], &str)] = &[
    (&[2, 0, 0, 0, 0], "\ngave recovery ACK/0200000000\n"),
    (
        &[3, 0, 0, 0, 0, 1, 0, 0],
        "\ngave recovery ACK/0300000000010000\n",
    ),
];

/// What the ids of both ends are given: an id of 4 bytes with number 1 and the token of the bytes from 0 to 15, and the retirement of
/// the one with number 5. Frames of the types next to those have no name.
const GIVEN_TO_IDS: &[(&[u8], &str)] = &[
    (
        &[
            0x18, 1, 0, 4, 10, 11, 12, 13, 0, 1, 2, 3, 4, 5, 6, 7, 8, 9, 10, 11, 12, 13, 14, 15,
        ],
        "\ngave ids NEW_CONNECTION_ID/180100040a0b0c0d000102030405060708090a0b0c0d0e0f\n",
    ),
    (&[0x19, 5], "\ngave ids RETIRE_CONNECTION_ID/1905\n"),
    (&[0x17, 5], "\ngave ids -/1705\n"),
    (&[0x1a, 5], "\ngave ids -/1a05\n"),
];

/// What the streams are given: a reset and a stop of stream 0 with code 7; STREAM frames of stream 0 with neither an offset nor a
/// length, and of stream 4 with both and the end; frames that give credit; and datagrams without and with a length. Frames of the types
/// next to those have no name.
const GIVEN_TO_STREAMS: &[(&[u8], &str)] = &[
    (&[4, 0, 7, 5], "\ngave streams RESET_STREAM/04000705\n"),
    (&[5, 0, 7], "\ngave streams STOP_SENDING/050007\n"),
    (&[6, 0, 0], "\ngave streams -/060000\n"),
    (&[8, 0, 0x68, 0x69], "\ngave streams STREAM/08006869\n"),
    (
        &[0x0f, 4, 1, 2, 0x68, 0x69],
        "\ngave streams STREAM/0f0401026869\n",
    ),
    (&[0x10, 5], "\ngave streams MAX_DATA/1005\n"),
    (&[0x11, 0, 5], "\ngave streams MAX_STREAM_DATA/110005\n"),
    (&[0x12, 5], "\ngave streams MAX_STREAMS/1205\n"),
    (&[0x13, 5], "\ngave streams MAX_STREAMS/1305\n"),
    (&[0x14, 5], "\ngave streams -/1405\n"),
    (&[0x2f, 5], "\ngave streams -/2f05\n"),
    (&[0x30, 0x68], "\ngave streams DATAGRAM/3068\n"),
    (&[0x31, 1, 0x68], "\ngave streams DATAGRAM/310168\n"),
    (&[0x32, 5], "\ngave streams -/3205\n"),
];

/// What the store is given: a NEW_TOKEN.
const GIVEN_TO_STORE: &[(&[u8], &str)] = &[(&[7, 1, 0x68], "\ngave store NEW_TOKEN/070168\n")];

#[test]
fn frames_that_layers_are_given(rt: HostRuntime) -> Result<(), Fail> {
    for (bytes, line) in GIVEN_TO_RECOVERY {
        assert!(rt;
            is_given(rt.alloc(), Layer::Recovery, bytes, line)?,
            "{line}"
        );
    }
    for (bytes, line) in GIVEN_TO_LIFE {
        assert!(rt; is_given(rt.alloc(), Layer::Life, bytes, line)?, "{line}");
    }
    for (bytes, line) in GIVEN_TO_STREAMS {
        assert!(rt;
            is_given(rt.alloc(), Layer::Streams, bytes, line)?,
            "{line}"
        );
    }
    for (bytes, line) in GIVEN_TO_IDS {
        assert!(rt; is_given(rt.alloc(), Layer::Ids, bytes, line)?, "{line}");
    }
    for (bytes, line) in GIVEN_TO_STORE {
        assert!(rt; is_given(rt.alloc(), Layer::Store, bytes, line)?, "{line}");
    }
    given_frames_have_their_names();
    Ok(())
}

// They begin like an ACK, and have no name: they are no frame.
#[test]
fn bytes_that_the_session_is_given(rt: HostRuntime) -> Result<(), Fail> {
    let step = given_step(rt.alloc(), Layer::Session, &[2, 0, 0x16, 0xff])?;
    let told = "qconn 1\nstep 0 datagram 5\ngave session 020016ff\nanswer done\ntimer -\nend\n";
    assert!(rt; is_text(rt.alloc(), step, told)?);
    Ok(())
}

/// The deed that the life rose to this.
fn rose(alloc: Global, life: u8) -> Result<Dids, AllocError> {
    let mut did = Dids::new(alloc);
    did.push_rose(life)?;
    Ok(did)
}

/// The events of a handshake that is over.
fn connected(alloc: Global) -> Result<Events, AllocError> {
    let mut events = Events::new(alloc);
    events.push_ready()?;
    events.push_connected()?;
    Ok(events)
}

/// A step in which the handshake is over.
fn handshake_step(alloc: Global) -> Result<Step, AllocError> {
    let did = rose(alloc, 1)?;
    let events = connected(alloc)?;
    let endpoint = EndpointEvents::new(alloc);
    Ok(reporting(Word::Datagram, did, Answer::Done, events, endpoint))
}

#[test]
fn the_handshake(rt: HostRuntime) -> Result<(), Fail> {
    let step = handshake_step(rt.alloc())?;
    let told =
        "qconn 1\nstep 0 datagram 5\nlife 1\nanswer done\nevent handshake-data\nevent connected\ntimer -\nend\n";
    assert!(rt; is_text(rt.alloc(), step, told)?);
    Ok(())
}

#[test]
fn a_dropped_datagram(rt: HostRuntime) -> Result<(), Fail> {
    let step = step(
        rt.alloc(),
        Word::Datagram,
        Dids::new(rt.alloc()),
        Answer::Dropped,
    );
    let told = "qconn 1\nstep 0 datagram 5\nanswer dropped\ntimer -\nend\n";
    assert!(rt; is_text(rt.alloc(), step, told)?);
    Ok(())
}

/// The deeds that the life rose to this, for this reason.
fn rose_for(alloc: Global, life: u8, reason: ConnectionError) -> Result<Dids, AllocError> {
    let mut did = rose(alloc, life)?;
    did.push_lost(reason)?;
    Ok(did)
}

/// The event that the connection was lost for this reason.
fn lost_event(alloc: Global, reason: ConnectionError) -> Result<Events, AllocError> {
    let mut events = Events::new(alloc);
    events.push_lost(reason)?;
    Ok(events)
}

/// A step in which the connection drained for this reason, and told of it; it wants to be called at 9.
fn lost_step(alloc: Global, reason: ConnectionError) -> Result<Step, AllocError> {
    let did = rose_for(alloc, 3, reason.copy()?)?;
    let events = lost_event(alloc, reason)?;
    let endpoint = EndpointEvents::new(alloc);
    let mut step = reporting(Word::Datagram, did, Answer::Done, events, endpoint);
    step.timeout = Some(Instant::from_nanos(9));
    Ok(step)
}

/// Whether the text of a trace in which the connection drained for this reason is this.
fn is_lost_text(alloc: Global, reason: ConnectionError, told: &str) -> Result<bool, AllocError> {
    let step = lost_step(alloc, reason)?;
    is_text(alloc, step, told)
}

#[test]
fn a_close_of_the_peer(rt: HostRuntime) -> Result<(), Fail> {
    let reason = ConnectionError::ConnectionClosed(ConnectionClose {
        error_code: TransportErrorCode::STREAM_STATE_ERROR,
        frame_type: None,
        reason: Bytes::new(),
    });
    let told =
        "qconn 1\nstep 0 datagram 5\nlife 3\nlost ConnectionClosed 5 - -\nanswer done\nevent lost ConnectionClosed 5 - -\ntimer 9\nend\n";
    assert!(rt; is_lost_text(rt.alloc(), reason, told)?);
    Ok(())
}

#[test]
fn a_close_of_the_peer_with_its_reason(rt: HostRuntime) -> Result<(), Fail> {
    let reason = ConnectionError::ConnectionClosed(ConnectionClose {
        error_code: TransportErrorCode::PROTOCOL_VIOLATION,
        frame_type: Some(6),
        reason: Bytes::from_static(b"no"),
    });
    let told =
        "qconn 1\nstep 0 datagram 5\nlife 3\nlost ConnectionClosed 10 6 6e6f\nanswer done\nevent lost ConnectionClosed 10 6 6e6f\ntimer 9\nend\n";
    assert!(rt; is_lost_text(rt.alloc(), reason, told)?);
    Ok(())
}

#[test]
fn a_close_of_the_application(rt: HostRuntime) -> Result<(), Fail> {
    let reason = ConnectionError::ApplicationClosed(ApplicationClose {
        error_code: VarInt::from_u32(7),
        reason: Bytes::from_static(b"bye"),
    });
    let told =
        "qconn 1\nstep 0 datagram 5\nlife 3\nlost ApplicationClosed 7 627965\nanswer done\nevent lost ApplicationClosed 7 627965\ntimer 9\nend\n";
    assert!(rt; is_lost_text(rt.alloc(), reason, told)?);
    Ok(())
}

/// The event that the connection is drained.
fn drained(alloc: Global) -> Result<EndpointEvents, AllocError> {
    let mut endpoint = EndpointEvents::new(alloc);
    endpoint.push(Some(EndpointEvent::Drained))?;
    Ok(endpoint)
}

/// A step in which the connection ended with these deeds, because the peer gave no sign.
fn silent_step_of(alloc: Global, did: Dids) -> Result<Step, AllocError> {
    let events = lost_event(alloc, ConnectionError::TimedOut)?;
    let endpoint = drained(alloc)?;
    Ok(reporting(Word::Timeout, did, Answer::Done, events, endpoint))
}

/// A step in which the connection ended because the peer gave no sign.
fn silent_step(alloc: Global) -> Result<Step, AllocError> {
    let did = rose_for(alloc, 4, ConnectionError::TimedOut)?;
    silent_step_of(alloc, did)
}

// A reason without values ends its line.
#[test]
fn an_end_without_a_sign(rt: HostRuntime) -> Result<(), Fail> {
    let step = silent_step(rt.alloc())?;
    let told =
        "qconn 1\nstep 0 timeout 5\nlife 4\nlost TimedOut\nanswer done\nevent lost TimedOut\nendpoint drained\ntimer -\nend\n";
    assert!(rt; is_text(rt.alloc(), step, told)?);
    Ok(())
}

/// A packet with a PING and three PADDING frames.
fn frames(alloc: Global) -> Result<FrameList, AllocError> {
    let mut frames = FrameList::new(alloc);
    frames.push(FrameOf::Ping)?;
    frames.push_padding(3)?;
    Ok(frames)
}

/// The deed that a packet with these frames was sealed.
fn sealed(
    alloc: Global,
    space: SpaceId,
    number: u64,
    frames: FrameList,
) -> Result<Dids, AllocError> {
    let mut did = Dids::new(alloc);
    did.push_sealed(space, number, 0, false, frames)?;
    Ok(did)
}

/// The answer that two bytes are sent.
fn out(alloc: Global) -> Result<Answer, AllocError> {
    let bytes = Body::from_slice(alloc, &[0xab, 1])?;
    Ok(Answer::Out {
        destination: SocketAddr::new(IpAddr::V4(Ipv4Addr::new(192, 0, 2, 1)), 4433),
        segment: None,
        ecn: Some(EcnCodepoint::Ect0),
        bytes,
    })
}

/// A step in which a packet was sent.
fn sent_step(alloc: Global) -> Result<Step, AllocError> {
    let did = sealed(alloc, SpaceId::Handshake, 12, frames(alloc)?)?;
    let answer = out(alloc)?;
    Ok(step(alloc, Word::Transmit, did, answer))
}

#[test]
fn a_packet_that_was_sent(rt: HostRuntime) -> Result<(), Fail> {
    let step = sent_step(rt.alloc())?;
    let told =
        "qconn 1\nstep 0 transmit 5\nseal handshake 12 0 PING/01 PADDING*3\nout c0000201/4433 2 - 2 ab01\ntimer -\nend\n";
    assert!(rt; is_text(rt.alloc(), step, told)?);
    Ok(())
}

/// An application's close with code 7 and the reason "bye".
fn application_close(alloc: Global) -> Result<OwnedFrame, AllocError> {
    let reason = Bytes::copy_from_slice(alloc, b"bye")?;
    Ok(FrameOf::ApplicationClose {
        error_code: VarInt::from_u32(7),
        reason,
    })
}

/// That close, and two PADDING frames.
fn close_frames(alloc: Global) -> Result<FrameList, AllocError> {
    let close = application_close(alloc)?;
    let mut frames = FrameList::new(alloc);
    frames.push(close)?;
    frames.push_padding(2)?;
    Ok(frames)
}

/// A step in which a packet with these frames was sealed and nothing was sent.
fn close_step(alloc: Global) -> Result<Step, AllocError> {
    let did = sealed(alloc, SpaceId::Data, 3, close_frames(alloc)?)?;
    Ok(step(alloc, Word::Transmit, did, Answer::Nothing))
}

// The close stands in a 1-RTT packet.
#[test]
fn a_close_of_this_application(rt: HostRuntime) -> Result<(), Fail> {
    let step = close_step(rt.alloc())?;
    let told =
        "qconn 1\nstep 0 transmit 5\nseal data 3 0 APPLICATION_CLOSE/1d0703627965 PADDING*2\ntimer -\nend\n";
    assert!(rt; is_text(rt.alloc(), step, told)?);
    Ok(())
}

/// What the endpoint is told: a token, nothing, that 7 ids were wanted at 5, and that at 9 the peer retired one in whose place one more
/// is wanted, and at 10 the first one, in whose place none is.
fn put_reports(endpoint: &mut EndpointEvents) -> Result<(), AllocError> {
    let ip = Ipv6Addr::new(0x2001, 0xdb8, 0, 0, 0, 0, 0, 1);
    let token = ResetToken::from([
        240, 241, 242, 243, 244, 245, 246, 247, 248, 249, 250, 251, 252, 253, 254, 255,
    ]);
    let address = SocketAddr::new(IpAddr::V6(ip), 4433);
    endpoint.push(Some(EndpointEvent::ResetToken(address, token)))?;
    endpoint.push(None)?;
    endpoint.push(Some(EndpointEvent::NeedIdentifiers(Instant::from_nanos(5), 7)))?;
    let retired = EndpointEvent::RetireConnectionId(Instant::from_nanos(9), u64::MAX, true);
    endpoint.push(Some(retired))?;
    let first = EndpointEvent::RetireConnectionId(Instant::from_nanos(10), 0, false);
    endpoint.push(Some(first))
}

/// A step that tells the endpoint so.
fn reports_step(alloc: Global) -> Result<Step, AllocError> {
    let mut endpoint = EndpointEvents::new(alloc);
    put_reports(&mut endpoint)?;
    let did = Dids::new(alloc);
    let events = Events::new(alloc);
    Ok(reporting(Word::Datagram, did, Answer::Done, events, endpoint))
}

// The token is the bytes from 240 to 255, and holds for the port 4433 of 2001:db8::1.
#[test]
fn reports_to_the_endpoint(rt: HostRuntime) -> Result<(), Fail> {
    let step = reports_step(rt.alloc())?;
    let told =
        "qconn 1\nstep 0 datagram 5\nanswer done\nendpoint reset-token 20010db8000000000000000000000001/4433 f0f1f2f3f4f5f6f7f8f9fafbfcfdfeff\nendpoint need 5 7\nendpoint retire 9 18446744073709551615 1\nendpoint retire 10 0 0\ntimer -\nend\n";
    assert!(rt; is_text(rt.alloc(), step, told)?);
    Ok(())
}

/// The deeds of a transmit that ended the connection.
fn killed(alloc: Global) -> Result<Dids, AllocError> {
    let mut did = rose(alloc, 4)?;
    did.push_quiet(Quiet::Killed)?;
    Ok(did)
}

/// A step in which a transmit ended the connection.
fn killed_step(alloc: Global) -> Result<Step, AllocError> {
    let did = killed(alloc)?;
    let endpoint = drained(alloc)?;
    let events = Events::new(alloc);
    Ok(reporting(Word::Transmit, did, Answer::Nothing, events, endpoint))
}

#[test]
fn the_end(rt: HostRuntime) -> Result<(), Fail> {
    let step = killed_step(rt.alloc())?;
    let told = "qconn 1\nstep 0 transmit 5\nlife 4\nquiet Killed\nendpoint drained\ntimer -\nend\n";
    assert!(rt; is_text(rt.alloc(), step, told)?);
    Ok(())
}

/// Each kind of an input, and its word.
const WORDS: &[(Word, &str)] = &[
    (Word::Datagram, "datagram"),
    (Word::Timeout, "timeout"),
    (Word::Open, "open"),
    (Word::Accept, "accept"),
    (Word::Write, "write"),
    (Word::Finish, "finish"),
    (Word::ResetSend, "reset"),
    (Word::StopRecv, "stop"),
    (Word::Read, "read"),
    (Word::SendDatagram, "send"),
    (Word::RecvDatagram, "recv"),
    (Word::Close, "close"),
    (Word::Ping, "ping"),
    (Word::Update, "update"),
    (Word::MaxStreams, "streams"),
    (Word::SendWindow, "sendwindow"),
    (Word::ReceiveWindow, "recvwindow"),
    (Word::Identifiers, "ids"),
];

/// Whether a step of this kind that answered so is told by this word and this line.
fn is_answered(
    alloc: Global,
    word: Word,
    name: &str,
    answer: Answer,
    line: &str,
) -> Result<bool, Fail> {
    let step = step(alloc, word, Dids::new(alloc), answer);
    let told = format!(in alloc; "qconn 1\nstep 0 {name} 5\n{line}\ntimer -\nend\n")?;
    Ok(is_text(alloc, step, told.as_str())?)
}

#[test]
fn words_of_inputs(rt: HostRuntime) -> Result<(), Fail> {
    for (word, name) in WORDS {
        assert!(rt;
            is_answered(rt.alloc(), *word, name, Answer::Done, "answer done")?,
            "{name}"
        );
    }
    Ok(())
}

/// What calls on streams may answer, but for bytes that are read: stream 5 is the second one that a server opens for both ends, and
/// stream 2 the first one that a client opens for itself.
fn answers() -> [(Answer, &'static str); 6] {
    [
        (Answer::Nothing, "answer none"),
        (
            Answer::Opened(StreamId::new(Side::Server, Dir::Bi, 1)),
            "answer opened 5",
        ),
        (
            Answer::Accepted(StreamId::new(Side::Client, Dir::Uni, 0)),
            "answer accepted 2",
        ),
        (Answer::Wrote(u64::MAX), "answer wrote 18446744073709551615"),
        (Answer::Wrote(0), "answer wrote 0"),
        (Answer::Ended, "answer ended"),
    ]
}

/// Why they may be refused.
fn refusals() -> [(Answer, &'static str); 8] {
    [
        (Answer::Error(Refusal::Blocked), "answer error Blocked"),
        (
            Answer::Error(Refusal::ClosedStream),
            "answer error ClosedStream",
        ),
        (
            Answer::Error(Refusal::Stopped(VarInt::from_u32(7))),
            "answer error Stopped 7",
        ),
        (
            Answer::Error(Refusal::IllegalOrderedRead),
            "answer error IllegalOrderedRead",
        ),
        (
            Answer::Error(Refusal::Reset(VarInt::from_u32(0))),
            "answer error Reset 0",
        ),
        (Answer::Error(Refusal::Disabled), "answer error Disabled"),
        (
            Answer::Error(Refusal::UnsupportedByPeer),
            "answer error UnsupportedByPeer",
        ),
        (Answer::Error(Refusal::TooLarge), "answer error TooLarge"),
    ]
}

#[test]
fn answers_of_calls(rt: HostRuntime) -> Result<(), Fail> {
    for (answer, line) in answers() {
        assert!(rt;
            is_answered(rt.alloc(), Word::Read, "read", answer, line)?,
            "{line}"
        );
    }
    for (answer, line) in refusals() {
        assert!(rt;
            is_answered(rt.alloc(), Word::Write, "write", answer, line)?,
            "{line}"
        );
    }
    Ok(())
}

/// Whether that these bytes were read at this offset is told by this line.
fn is_read(alloc: Global, offset: u64, bytes: &[u8], line: &str) -> Result<bool, Fail> {
    let body = Body::from_slice(alloc, bytes)?;
    is_answered(
        alloc,
        Word::Read,
        "read",
        Answer::Read { offset, body },
        line,
    )
}

/// Whether that this datagram was taken is told by this line.
fn is_taken(alloc: Global, bytes: &[u8], line: &str) -> Result<bool, Fail> {
    let body = Body::from_slice(alloc, bytes)?;
    is_answered(
        alloc,
        Word::RecvDatagram,
        "recv",
        Answer::Datagram(body),
        line,
    )
}

#[test]
fn bytes_that_are_read(rt: HostRuntime) -> Result<(), Fail> {
    assert!(rt; is_read(rt.alloc(), 12, &[0, 255], "answer read 12 00ff")?);
    assert!(rt; is_read(rt.alloc(), 0, &[], "answer read 0 -")?);
    assert!(rt; is_taken(rt.alloc(), &[0, 255], "answer datagram 00ff")?);
    assert!(rt; is_taken(rt.alloc(), &[], "answer datagram -")?);
    Ok(())
}

/// That a datagram came, that there is room for others again, and what may happen on a stream, or to how many there may be.
fn put_stream_events(events: &mut Events) -> Result<(), AllocError> {
    let id = StreamId::new(Side::Client, Dir::Bi, 0);
    let error_code = VarInt::from_u32(7);
    events.push_datagram()?;
    events.push_unblocked()?;
    events.push_stream(StreamEvent::Opened { dir: Dir::Bi })?;
    events.push_stream(StreamEvent::Readable { id })?;
    events.push_stream(StreamEvent::Writable { id })?;
    events.push_stream(StreamEvent::Finished { id })?;
    events.push_stream(StreamEvent::Stopped { id, error_code })?;
    events.push_stream(StreamEvent::Available { dir: Dir::Uni })
}

/// A step that tells the application so.
fn stream_events_step(alloc: Global) -> Result<Step, AllocError> {
    let mut events = Events::new(alloc);
    put_stream_events(&mut events)?;
    let did = Dids::new(alloc);
    let endpoint = EndpointEvents::new(alloc);
    Ok(reporting(Word::Datagram, did, Answer::Done, events, endpoint))
}

#[test]
fn events_of_streams(rt: HostRuntime) -> Result<(), Fail> {
    let step = stream_events_step(rt.alloc())?;
    let told =
        "qconn 1\nstep 0 datagram 5\nanswer done\nevent datagram\nevent unblocked\nevent stream Opened bi\nevent stream Readable 0\nevent stream Writable 0\nevent stream Finished 0\nevent stream Stopped 0 7\nevent stream Available uni\ntimer -\nend\n";
    assert!(rt; is_text(rt.alloc(), step, told)?);
    Ok(())
}
