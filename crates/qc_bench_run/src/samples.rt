//! One frame of each type that can stand before others (RFC 9000, section 19; RFC 9221, section 4).

ghost use Rattle.std.specs.Prelude.{◌≡◌, OnOk};
ghost use Rattle.qc_bench_run.specs.Mixed.{GainsFrame};
ghost use Rattle.qc_frame.specs.Frame.{ack_map, borrowed};
ghost use Rattle.qc_frame.specs.FrameFits.{Fits};
ghost use Rattle.qc_frame.specs.declared.frames.FrameOf.TheVariants as frames;

use qc_base::{ConnectionId, Dir, ResetToken, StreamId, TransportErrorCode, VarInt};
use qc_frame::{Ack, AckOf, EcnCounts, Frame, FrameOf, NewConnectionId, put_frame};
use std::alloc::AllocError;

/// How many samples there are: the types 00 to 07, those of STREAM with a length, 10 to 1e, and 31.
pub const SAMPLES: u32 = 28;

/// The id of the first stream that a client opens.
fn first_stream() -> StreamId {
    StreamId::from(VarInt::from_u32(0))
}

/// Appends the sample of this index, counted from 0.
pub fn put_sample(out: &mut Vec<u8>, index: u32) -> Result<(), AllocError>
    ensures { OnOk result (GainsFrame out.old.items out.new.items) }
{
    // The prover has to see the type of an ACK where a frame is lent.
    let ack = ack();
    let frame = sample(index, ack);
    put_frame(out, &frame)
}

fn sample(index: u32, ack: Ack<'static>) -> Frame<'static>
    requires { Fits (frames.Ack (ack_map (λ b. b.now) ack)) }
    ensures { Fits (borrowed result) }
{
    match index {
        0..=6 => handshake_frame(index, ack),
        7..=13 => stream_frame(index),
        14..=21 => limit_frame(index),
        _ => path_frame(index),
    }
}

#[tactic(auto, unfolding(qc_frame::specs::FrameFits::Fits))]
fn handshake_frame(index: u32, ack: Ack<'static>) -> Frame<'static>
    requires { Fits (frames.Ack (ack_map (λ b. b.now) ack)) }
    ensures { Fits (borrowed result) }
{
    match index {
        0 => FrameOf::Padding,
        1 => FrameOf::Ping,
        2 => FrameOf::Ack(ack),
        3 => FrameOf::Ack(AckOf {
            largest: ack.largest,
            delay: ack.delay,
            additional: ack.additional,
            ecn: Some(EcnCounts {
                ect0: 100,
                ect1: 0,
                ce: 3,
            }),
        }),
        4 => FrameOf::Crypto {
            offset: 300,
            body: b"hello, world",
        },
        5 => FrameOf::NewToken {
            token: b"a token of a server",
        },
        _ => FrameOf::HandshakeDone,
    }
}

// Acknowledges 990 to 1000, 980, and 970 to 975.
#[tactic(auto, unfolding(qc_frame::specs::FrameFits::Fits), using(crate::proofs::MixedLemmas::three_ranges_fit))]
fn ack() -> Ack<'static>
    ensures { Fits (frames.Ack (ack_map (λ b. b.now) result)) }
{
    AckOf {
        largest: 1000,
        delay: 25,
        additional: b"\x0a\x08\x00\x03\x05",
        ecn: None,
    }
}

#[tactic(auto, unfolding(qc_frame::specs::FrameFits::Fits))]
fn stream_frame(index: u32) -> Frame<'static>
    ensures { Fits (borrowed result) }
{
    let id = first_stream();
    let error_code = VarInt::from_u32(77);
    let body: &[u8] = b"sixteen bytes of";
    match index {
        7 => FrameOf::ResetStream {
            id,
            error_code,
            final_size: 20000,
        },
        8 => FrameOf::StopSending { id, error_code },
        9 => FrameOf::Stream {
            id,
            offset: 0,
            fin: false,
            body,
        },
        10 => FrameOf::Stream {
            id,
            offset: 0,
            fin: true,
            body,
        },
        11 => FrameOf::Stream {
            id,
            offset: 70000,
            fin: false,
            body,
        },
        12 => FrameOf::Stream {
            id,
            offset: 70000,
            fin: true,
            body,
        },
        _ => FrameOf::Datagram { body },
    }
}

#[tactic(auto, unfolding(qc_frame::specs::FrameFits::Fits))]
fn limit_frame(index: u32) -> Frame<'static>
    ensures { Fits (borrowed result) }
{
    let id = first_stream();
    match index {
        14 => FrameOf::MaxData(1_000_000),
        15 => FrameOf::MaxStreamData { id, offset: 50000 },
        16 => FrameOf::MaxStreams {
            dir: Dir::Bi,
            count: 100,
        },
        17 => FrameOf::MaxStreams {
            dir: Dir::Uni,
            count: 3,
        },
        18 => FrameOf::DataBlocked { offset: 1_000_000 },
        19 => FrameOf::StreamDataBlocked { id, offset: 50000 },
        20 => FrameOf::StreamsBlocked {
            dir: Dir::Bi,
            limit: 100,
        },
        _ => FrameOf::StreamsBlocked {
            dir: Dir::Uni,
            limit: 3,
        },
    }
}

#[tactic(auto, unfolding(qc_frame::specs::FrameFits::Fits))]
fn path_frame(index: u32) -> Frame<'static>
    ensures { Fits (borrowed result) }
{
    match index {
        22 => FrameOf::NewConnectionId(new_id()),
        23 => FrameOf::RetireConnectionId { sequence: 1 },
        24 => FrameOf::PathChallenge(0x0102_0304_0506_0708),
        25 => FrameOf::PathResponse(0x0102_0304_0506_0708),
        26 => FrameOf::ConnectionClose {
            error_code: TransportErrorCode::PROTOCOL_VIOLATION,
            frame_type: Some(6),
            reason: b"no such",
        },
        _ => FrameOf::ApplicationClose {
            error_code: VarInt::from_u32(9),
            reason: b"goodbye",
        },
    }
}

#[tactic(auto, unfolding(qc_frame::specs::FrameFits::Fits))]
fn new_id() -> NewConnectionId
    ensures { Fits (frames.NewConnectionId result) }
{
    NewConnectionId {
        sequence: 4,
        retire_prior_to: 2,
        id: ConnectionId::new(&[8; 8]),
        reset_token: ResetToken::from([9; 16]),
    }
}
