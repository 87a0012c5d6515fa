//! DATAGRAM frames: those that are handed to the datagrams of the application, each of which is one of their own steps, or is refused and
//! changes nothing; and those that are taken for a packet.

ghost use Rattle.std.specs.Prelude.{◌≡◌, ◌+◌, ◌≤◌, ◌==◌, ◌&&◌, nat_le, [], ◌∷◌, Some, None, if◌then◌else◌, length, not, option_to_list, IfOk, IfSome, IfNone, OnOk};
ghost use Rattle.qc_base.specs.Varint.{varint};
ghost use Rattle.qc_datagrams.specs.Datagrams.{is_refused};
ghost use Rattle.qc_datagrams.specs.Queue.{first};
ghost use Rattle.qc_datagrams.specs.Steps.{Came, Sealed, after, after_step};
ghost use Rattle.qc_frame.specs.Frame.{owned};
ghost use Rattle.qc_frame.specs.FrameSpelling.{spelling};
ghost use Rattle.qc_frame.specs.declared.frames.FrameOf.TheVariants as frames;
ghost use Rattle.qc_state.specs.Datagrams.{first_fits};
ghost use Rattle.qc_state.specs.Taking.{TakesDatagrams};

use bytes::Bytes;
use qc_base::{TransportError, TransportErrorCode, varint_size};
use qc_datagrams::{DatagramFault, Datagrams};
use qc_frame::{FrameList, FrameOf, OwnedFrame};
use std::alloc::AllocError;

/// How many bytes a length of two bytes can tell at most.
const MOST: usize = 16_383;

/// A DATAGRAM frame came (RFC 9221, 4). Answers the error with which it is refused, if it is, and whether that one came is to be told.
/// Want of memory is the only refusal of the call.
#[tactic(auto, unfolding(qc_datagrams::specs::Steps::after, qc_datagrams::specs::Steps::after_step))]
pub(crate) fn hand_datagram(
    datagrams: &mut Datagrams,
    body: &Bytes,
) -> Result<(Option<TransportError>, bool), AllocError>
    ensures stop { IfOk result (λ r. r.0 ≡ (if is_refused body.now datagrams.old then Some (record { code = 0x0a; frame = None }) else None)) }
    ensures tells { IfOk result (λ r. r.1 ≡ (not (is_refused body.now datagrams.old) && (length datagrams.old.incoming == 0))) }
    ensures leads { OnOk result (datagrams.new ≡ after (Came body.now ∷ []) datagrams.old) }
{
    let body = body.clone()?;
    match datagrams.take_frame(body) {
        Ok(first) => Ok((None, first)),
        Err(DatagramFault::Refused) => Ok((
            Some(TransportError {
                code: TransportErrorCode::PROTOCOL_VIOLATION,
                frame: None,
            }),
            false,
        )),
        Err(DatagramFault::OutOfMemory) => Err(AllocError),
    }
}

/// How many bytes of type and length a DATAGRAM frame has that holds so many bytes and is spelled with its length (RFC 9221, 4).
fn head_size(len: usize) -> usize
    ensures value { result ≡ 1 + length (varint len) }
    ensures most { result ≤ 9 }
{
    1 + varint_size(len as u64)
}

/// Whether a DATAGRAM frame that holds so many bytes, and is spelled with its length, fits into so much room.
fn frame_fits(len: usize, room: usize) -> bool
    ensures { result ≡ nat_le (1 + length (varint len) + len) room }
{
    let head = head_size(len);
    head <= room && len <= room - head
}

/// Whether the oldest datagram that is to be sent fits into so much room, as its frame is spelled with its length. It doesn't where none
/// is.
#[tactic(auto, using(crate::proofs::DatagramsTaken::none_fits, crate::proofs::DatagramsTaken::some_fits))]
pub fn first_fits(datagrams: &Datagrams, room: usize) -> bool
    ensures { result ≡ first_fits room datagrams.now.outgoing }
{
    match datagrams.outgoing.first_len() {
        None => false,
        Some(len) => frame_fits(len, room),
    }
}

/// How many bytes the frame of the oldest datagram that is to be sent has, where it fits into so much room, else 0.
pub(crate) fn first_size(datagrams: &Datagrams, room: usize) -> usize
    ensures { result ≤ room }
{
    match datagrams.outgoing.first_len() {
        None => 0,
        Some(len) => {
            let size = head_size(len).saturating_add(len);
            if size <= room { size } else { 0 }
        }
    }
}

/// The oldest datagram that is to be sent, where its frame fits into so much room: it is sealed then. None exactly where it doesn't, or none
/// is.
#[tactic(auto, using(crate::proofs::DatagramsTaken::drawn_first))]
fn draw_datagram(datagrams: &mut Datagrams, room: usize) -> Option<Bytes>
    ensures none { IfNone result (datagrams.new ≡ datagrams.old) }
    ensures given { IfSome result (λ body. first datagrams.old.outgoing ≡ body ∷ []) }
    ensures fits { IfSome result (λ body. length (spelling (frames.Datagram body)) ≤ room) }
    ensures sealed { IfSome result (λ body. datagrams.new ≡ after_step Sealed datagrams.old) }
{
    if !first_fits(datagrams, room) {
        return None;
    }
    datagrams.seal()
}

/// How many bytes the frame of a datagram has that is spelled with its length.
#[tactic(auto, using(crate::proofs::DatagramsTaken::size_so))]
fn frame_size(datagram: &Bytes) -> usize
    requires { length datagram.now ≤ 16383 }
    ensures { result ≡ length (spelling (frames.Datagram datagram.now)) }
{
    head_size(datagram.len()) + datagram.len()
}

/// The frame of a datagram.
fn frame_of(datagram: Bytes) -> OwnedFrame
    ensures { owned result ≡ frames.Datagram datagram }
{
    FrameOf::Datagram { body: datagram }
}

/// Takes the datagrams that are to be sent, the oldest first, as long as the first one fits into the room, and answers how much of it they
/// leave. Want of memory is the only refusal.
pub(crate) fn take_datagrams(
    datagrams: &mut Datagrams,
    room: usize,
    frames: &mut FrameList,
) -> Result<usize, AllocError>
    ensures { IfOk result (λ left. TakesDatagrams room datagrams.old datagrams.new frames.old frames.new left) }
{
    let mut left = room;
    loop {
        let Some(datagram) = draw_datagram(datagrams, left.min(MOST)) else {
            return Ok(left);
        };
        left -= frame_size(&datagram);
        let frame = frame_of(datagram);
        frames.push(frame)?;
    }
}
