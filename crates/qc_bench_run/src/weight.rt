//! A number that depends on every field of a frame, so that no field is read in vain.

ghost use Rattle.std.specs.Prelude.{◌≡◌, ◌+◌, ◌%◌, ◌^◌};
ghost use Rattle.std.specs.List.{sum};
ghost use Rattle.qc_frame.specs.Frame.{borrowed, ack_map};
ghost use Rattle.qc_bench_run.specs.Weights.{frame_sum, ack_sum, id_sum};

use qc_frame::{Ack, Frame, FrameOf, NewConnectionId};

/// The sum of a frame's numbers and of the lengths of its byte strings, modulo 2^64.
#[tactic(auto, unfolding(crate::specs::Weights::frame_sum))]
pub fn weight_of(frame: &Frame<'_>) -> u64
    ensures { result ≡ frame_sum (borrowed frame.now) % 2 ^ 64 }
{
    match frame {
        FrameOf::Padding | FrameOf::Ping | FrameOf::HandshakeDone => 0,
        FrameOf::Ack(ack) => weight_of_ack(ack),
        FrameOf::ResetStream {
            id,
            error_code,
            final_size,
        } => sum(id.value(), error_code.into_inner(), *final_size),
        FrameOf::StopSending { id, error_code } => sum(id.value(), error_code.into_inner(), 0),
        FrameOf::Crypto { offset, body } => sum(*offset, body.len() as u64, 0),
        FrameOf::NewToken { token } => token.len() as u64,
        FrameOf::Stream {
            id,
            offset,
            fin,
            body,
        } => sum(id.value(), *offset, u64::from(*fin)).wrapping_add(body.len() as u64),
        FrameOf::MaxData(limit) => *limit,
        FrameOf::MaxStreamData { id, offset } => sum(id.value(), *offset, 0),
        FrameOf::MaxStreams { count, .. } => *count,
        FrameOf::DataBlocked { offset } => *offset,
        FrameOf::StreamDataBlocked { id, offset } => sum(id.value(), *offset, 0),
        FrameOf::StreamsBlocked { limit, .. } => *limit,
        FrameOf::NewConnectionId(new) => weight_of_id(new),
        FrameOf::RetireConnectionId { sequence } => *sequence,
        FrameOf::PathChallenge(word) => *word,
        FrameOf::PathResponse(word) => *word,
        FrameOf::ConnectionClose {
            error_code,
            frame_type,
            reason,
        } => sum(
            error_code.into_inner(),
            frame_type.unwrap_or(0),
            reason.len() as u64,
        ),
        FrameOf::ApplicationClose { error_code, reason } => {
            sum(error_code.into_inner(), reason.len() as u64, 0)
        }
        FrameOf::Datagram { body } => body.len() as u64,
    }
}

/// The sum of three numbers, modulo 2^64.
fn sum(one: u64, two: u64, three: u64) -> u64
    ensures { result ≡ (one + two + three) % 2 ^ 64 }
{
    one.wrapping_add(two).wrapping_add(three)
}

fn weight_of_ack(ack: &Ack<'_>) -> u64
    ensures { result ≡ ack_sum (ack_map (λ bytes. bytes.now) ack.now) % 2 ^ 64 }
{
    let counts = match ack.ecn {
        None => 0,
        Some(counts) => sum(counts.ect0, counts.ect1, counts.ce),
    };
    sum(ack.largest, ack.delay, ack.additional.len() as u64).wrapping_add(counts)
}

/// The sum of bytes, modulo 2^64.
fn sum_of_bytes(bytes: &[u8]) -> u64
    ensures { result ≡ sum bytes.now % 2 ^ 64 }
{
    let mut total = 0u64;
    for i in 0..bytes.len() {
        total = total.wrapping_add(bytes[i] as u64);
    }
    total
}

fn weight_of_id(new: &NewConnectionId) -> u64
    ensures { result ≡ id_sum new.now % 2 ^ 64 }
{
    let token = sum_of_bytes(new.reset_token.as_slice());
    let id = sum_of_bytes(new.id.as_slice());
    sum(new.sequence, new.retire_prior_to, token.wrapping_add(id))
}
