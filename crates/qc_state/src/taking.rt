//! The frames that are taken for a packet of a space, and in which order.

ghost use Rattle.std.specs.Prelude.{◌≡◌, ◌+◌, ◌-◌, ◌<◌, ◌≤◌, ◌^◌, ◌||◌, ◌++◌, ◌∷◌, [], true, false, length, OnOk, IfOk};
ghost use Rattle.qc_frame.specs.AckRanges.{ArePackets};
ghost use Rattle.qc_frame.specs.Frame.{ack_map};
ghost use Rattle.qc_frame.specs.FrameSpelling.{frames_spelling, spelling};
ghost use Rattle.qc_state.specs.Acks.{AckPart, IsLongAck, IsShortAck, SaysAck, is_ack_first, is_ack_last, is_ack_owed, may_acknowledge, told_count, told_counts};
ghost use Rattle.qc_frame.specs.declared.frames.FrameOf.TheVariants as frames;
ghost use Rattle.qc_state.specs.Taking.{TakenPart, TakesAck, TakesCrypto, TakesOffered, marks_part};
ghost use Rattle.qc_state.specs.Datagrams.{AllOldest};
ghost use Rattle.qc_state.specs.Ids.{AllNext};
ghost use Rattle.qc_state.specs.Lower.{frames_sealed};
ghost use Rattle.qc_state.specs.Offers.{ids_offer, offers_here, streams_offer, tokens_wait};
ghost use Rattle.qc_state.specs.StreamFrames.{sealed_steps};
ghost use Rattle.qc_state.specs.Tokens.{AllIssued, behind_tokens, made_by, token_with};
ghost use Rattle.qc_state.specs.Waiting.{crypto_waits, without_all};
ghost use Rattle.qc_streams.specs.Steps.{AllMay};

use crate::datagrams::{first_size, take_datagrams};
use crate::id_frames::take_ids;
use crate::lower::Lower;
use crate::stream_frames::{take_controls, take_parts};
use crate::tokens::{Issuer, take_tokens};
use crate::transmit::SPARE_ROOM;
use crate::waiting::{CRYPTO_HEAD, SpaceWaiting};
use bytes::Bytes;
use qc_base::{Instant, varint_size};
use qc_crypto::HandshakeTokenKey;
use qc_datagrams::Datagrams;
use qc_frame::{Ack, EcnCounts, FrameList, FrameOf, OwnedAck, put_frame};
use qc_path::PendingAcks;
use qc_token::TimeSource;
use rand_core::Rng;
use std::alloc::{AllocError, Global};
use std::net::IpAddr;

/// Whether there is something to acknowledge, and each number is one of a packet.
#[tactic(auto, unfolding(crate::specs::Acks::may_acknowledge), using(crate::proofs::AckLemmas::packets_by))]
fn may_acknowledge(acks: &PendingAcks) -> bool
    ensures value { result ≡ may_acknowledge acks.now }
    ensures packets { result ≡ true → ArePackets acks.now.ranges }
{
    let ranges = acks.ranges().as_slice();
    if ranges.is_empty() {
        return false;
    }
    ranges[ranges.len() - 1].last < 1 << 62
}

/// Whether an ACK is owed.
#[tactic(auto, unfolding(crate::specs::Acks::is_ack_owed))]
pub(crate) fn is_ack_owed(acks: &PendingAcks) -> bool
    ensures { result ≡ is_ack_owed acks.now }
{
    let may = may_acknowledge(acks);
    acks.owes() && may
}

/// Whether an ACK stands in front of other frames: it is owed, or joins them.
#[tactic(auto, unfolding(crate::specs::Acks::is_ack_first))]
fn is_ack_first(acks: &PendingAcks) -> bool
    ensures value { result ≡ is_ack_first acks.now }
    ensures packets { result ≡ true → ArePackets acks.now.ranges }
{
    let may = may_acknowledge(acks);
    acks.gives(Instant::from_nanos(0), None) && may
}

/// Whether an ACK stands behind other frames: it is only bundled with them, which it may be from `bundled` on.
#[tactic(auto, unfolding(crate::specs::Acks::is_ack_last))]
fn is_ack_last(acks: &PendingAcks, now: Instant, bundled: Option<Instant>) -> bool
    ensures value { result ≡ is_ack_last now bundled acks.now }
    ensures packets { result ≡ true → ArePackets acks.now.ranges }
{
    let may = may_acknowledge(acks);
    let first = acks.gives(now, None);
    !first && (acks.gives(now, bundled) && may)
}

/// A count as an ACK tells it.
fn told_count(count: u64) -> u64
    ensures value { result ≡ told_count count }
    ensures most { result < 2 ^ 62 }
{
    count.min((1 << 62) - 1)
}

/// The counts of marks as an ACK tells them: none before a packet of the connection came with a mark.
fn told_counts(counts: Option<EcnCounts>) -> Option<EcnCounts>
    ensures { result ≡ told_counts counts }
{
    match counts {
        None => None,
        Some(counts) => Some(EcnCounts {
            ect0: told_count(counts.ect0),
            ect1: told_count(counts.ect1),
            ce: told_count(counts.ce),
        }),
    }
}

/// The ACK of the numbers to acknowledge in a space at a time. Want of memory is the only refusal.
#[tactic(auto, using(crate::proofs::AckLemmas::says, crate::proofs::AckLemmas::small_delay))]
fn ack_of(alloc: Global, now: Instant, space: &SpaceWaiting) -> Result<OwnedAck, AllocError>
    requires { ArePackets space.now.acks.ranges }
    ensures { IfOk result (λ ack. SaysAck now space.now (ack_map (λ bytes. bytes) ack)) }
{
    let delay = space.acks.delay(now);
    let counts = told_counts(space.marks);
    match OwnedAck::of_numbers(alloc, space.acks.ranges(), delay, counts)? {
        Some(ack) => Ok(ack),
        None => unreachable!(),
    }
}

/// How many bytes an ACK has. Want of memory is the only refusal.
fn ack_len(alloc: Global, ack: &OwnedAck) -> Result<usize, AllocError>
    ensures { IfOk result (λ n. n ≡ length (frames_spelling (frames.Ack (ack_map (λ bytes. bytes) ack.now) ∷ []))) }
{
    let mut bytes = Vec::new(alloc);
    let frame = FrameOf::Ack(Ack {
        largest: ack.largest,
        delay: ack.delay,
        additional: ack.additional.as_slice(),
        ecn: ack.ecn,
    });
    put_frame(&mut bytes, &frame)?;
    Ok(bytes.len())
}

/// Takes the ACK, where it is due and has room, and answers how many bytes it has. Want of memory is the only refusal.
#[inline(always)]
#[tactic(auto, unfolding(crate::specs::Waiting::without_all, crate::specs::Waiting::without))]
fn take_ack(
    space: &mut SpaceWaiting,
    alloc: Global,
    now: Instant,
    due: bool,
    room: usize,
    frames: &mut FrameList,
) -> Result<usize, AllocError>
    requires { due ≡ true → ArePackets space.old.acks.ranges }
    ensures { IfOk result (λ n. TakesAck now due room space.old space.new frames.old frames.new n) }
{
    if !due {
        return Ok(0);
    }
    let ack = ack_of(alloc, now, space)?;
    let len = ack_len(alloc, &ack)?;
    if room < len {
        return Ok(0);
    }
    frames.push(FrameOf::Ack(ack))?;
    space.acks.sent();
    Ok(len)
}

/// How much of the room an ACK in front of other frames may have: all of it where it is owed; else it leaves room for what is owed, be it
/// any frame that waits, or the oldest datagram, where it fits.
fn front_room(datagrams: &Datagrams, owed: bool, in_data: bool, room: usize) -> usize
    ensures few { result ≤ room }
    ensures owed { owed ≡ true → result ≡ room }
{
    if owed {
        return room;
    }
    let datagram = if in_data {
        first_size(datagrams, room)
    } else {
        0
    };
    room.saturating_sub(datagram.max(SPARE_ROOM))
}

/// Takes the HANDSHAKE_DONE and the PING that wait, and answers how many frames that are. Want of memory is the only refusal.
#[tactic(auto, unfolding(crate::specs::Taking::marks_part, crate::specs::Taking::done_part, crate::specs::Taking::ping_part, crate::specs::Waiting::without_all, crate::specs::Waiting::without))]
fn take_marks(space: &mut SpaceWaiting, frames: &mut FrameList) -> Result<usize, AllocError>
    ensures frames { OnOk result (frames.new ≡ frames.old ++ marks_part space.old) }
    ensures rest { OnOk result (space.new ≡ without_all space.old (marks_part space.old)) }
    ensures count { IfOk result (λ n. n ≡ length (marks_part space.old)) }
{
    let mut count = 0;
    if space.done {
        frames.push(FrameOf::HandshakeDone)?;
        space.done = false;
        count += 1;
    }
    if space.ping {
        frames.push(FrameOf::Ping)?;
        space.ping = false;
        count += 1;
    }
    Ok(count)
}

/// How many bytes a CRYPTO frame has with these bytes from this offset on (RFC 9000, section 19.6).
#[tactic(auto, using(crate::proofs::Taken::crypto_size))]
fn crypto_len(offset: u64, bytes: &Bytes) -> usize
    requires { length bytes.now + CRYPTO_HEAD < 2 ^ 64 }
    ensures value { result ≡ length (spelling (frames.Crypto offset bytes.now)) }
    ensures most { result ≤ length bytes.now + CRYPTO_HEAD }
    ensures some { 0 < result }
{
    let count = bytes.len();
    1 + varint_size(offset) + varint_size(count as u64) + count
}

/// Takes the CRYPTO bytes that wait first, as many as fit, and answers how much of the room they leave. Want of memory is the only
/// refusal.
#[tactic(auto, unfolding(crate::specs::Taking::CryptoPart, crate::specs::Waiting::without_all, crate::specs::Waiting::without))]
fn take_crypto(
    space: &mut SpaceWaiting,
    room: usize,
    frames: &mut FrameList,
) -> Result<usize, AllocError>
    ensures takes { IfOk result (λ left. TakesCrypto room space.old space.new frames.old frames.new left) }
    ensures full { IfOk result (λ left. CRYPTO_HEAD < left → crypto_waits space.new ≡ false) }
{
    let mut left = room;
    while left > CRYPTO_HEAD {
        match space.crypto.take(left - CRYPTO_HEAD)? {
            None => return Ok(left),
            Some((offset, bytes)) => {
                left -= crypto_len(offset, &bytes);
                frames.push(FrameOf::Crypto {
                    offset,
                    body: bytes,
                })?;
            }
        }
    }
    Ok(left)
}

/// Takes the frames that the layers below offer, in a 1-RTT packet, as many as fit: first those of streams without bytes, then those about
/// connection ids, then datagrams, then NEW_TOKENs, for which tokens for this address are made, then the bytes of streams. Answers how much of
/// the room they leave. Want of memory is the only refusal.
pub(crate) fn take_offered<S, K: HandshakeTokenKey, T: TimeSource, R: Rng>(
    space: &mut SpaceWaiting,
    lower: &mut Lower<S>,
    issuer: &Option<Issuer<K, T>>,
    ip: IpAddr,
    random: &mut R,
    alloc: Global,
    in_data: bool,
    room: usize,
    frames: &mut FrameList,
) -> Result<usize, AllocError>
    ensures takes { IfOk result (λ left. TakesOffered (made_by (token_with K.Aead.sealed K.derived T.time_of) issuer.now) ip in_data room space.old space.new (R.stream random.old) (R.stream random.new) lower.old lower.new frames.old frames.new left) }
    ensures full { IfOk result (λ left. in_data ≡ true → SPARE_ROOM ≤ left → (streams_offer lower.new.streams || (ids_offer lower.new.ids || tokens_wait space.new)) ≡ false) }
{
    if !in_data {
        return Ok(room);
    }
    let more = take_controls(&mut lower.streams, room, frames)?;
    let rest = take_ids(&mut lower.ids, more, frames)?;
    let least = take_datagrams(&mut lower.datagrams, rest, frames)?;
    let left = take_tokens(space, issuer, ip, random, alloc, least, frames)?;
    take_parts(&mut lower.streams, left, frames)
}

/// Takes frames that wait at a time for a packet with so much room, in a packet of 1-RTT also those that the layers below offer, and
/// NEW_TOKENs, for which tokens for this address are made; an ACK may be bundled with them from `bundled` on. Want of memory is the only refusal.
pub(crate) fn take<S, K: HandshakeTokenKey, T: TimeSource, R: Rng>(
    space: &mut SpaceWaiting,
    lower: &mut Lower<S>,
    issuer: &Option<Issuer<K, T>>,
    ip: IpAddr,
    random: &mut R,
    alloc: Global,
    now: Instant,
    bundled: Option<Instant>,
    in_data: bool,
    room: usize,
) -> Result<FrameList, AllocError>
    ensures frames { IfOk result (λ frames. TakenPart now bundled in_data space.old room frames) }
    ensures rest { IfOk result (λ frames. space.new ≡ without_all space.old frames) }
    ensures may { IfOk result (λ frames. AllMay (sealed_steps frames) lower.old.streams) }
    ensures oldest { IfOk result (λ frames. AllOldest frames lower.old.datagrams) }
    ensures next { IfOk result (λ frames. AllNext frames lower.old.ids) }
    ensures issued { IfOk result (λ frames. AllIssued (made_by (token_with K.Aead.sealed K.derived T.time_of) issuer.now) ip frames space.old (R.stream random.old)) }
    ensures drawn { IfOk result (λ frames. R.stream random.new ≡ behind_tokens frames (R.stream random.old)) }
    ensures leads { IfOk result (λ frames. lower.new ≡ frames_sealed frames lower.old) }
    ensures full { IfOk result (λ frames. SPARE_ROOM ≤ room - length (frames_spelling frames) → offers_here in_data space.new lower.new.streams lower.new.ids ≡ false) }
{
    let mut frames = FrameList::new(alloc);
    let owed = is_ack_owed(&space.acks);
    let first = is_ack_first(&space.acks);
    let last = is_ack_last(&space.acks, now, bundled);
    let count = take_marks(space, &mut frames)?;
    let room = room.saturating_sub(count);
    let most = front_room(&lower.datagrams, owed, in_data, room);
    let len = take_ack(space, alloc, now, first, most, &mut frames)?;
    let rest = take_crypto(space, room.saturating_sub(len), &mut frames)?;
    let left = take_offered(
        space,
        lower,
        issuer,
        ip,
        random,
        alloc,
        in_data,
        rest,
        &mut frames,
    )?;
    take_ack(space, alloc, now, last, left, &mut frames)?;
    Ok(frames)
}

/// Whether the ACK of a space at a time has so much room; true where there is none. Want of memory is the only refusal.
pub(crate) fn ack_fits(
    space: &SpaceWaiting,
    alloc: Global,
    now: Instant,
    room: usize,
) -> Result<bool, AllocError>
    ensures long { IfOk result (λ fits. fits ≡ false → IsLongAck now space.now room) }
    ensures short { IfOk result (λ fits. fits ≡ true → may_acknowledge space.now.acks ≡ true → IsShortAck now space.now room) }
{
    let due = may_acknowledge(&space.acks);
    if due {
        let ack = ack_of(alloc, now, space)?;
        let len = ack_len(alloc, &ack)?;
        return Ok(len <= room);
    }
    Ok(true)
}

/// Takes the ACK at a time, where there is something to acknowledge and so much room for it. Want of memory is the only refusal.
pub(crate) fn ack_alone(
    space: &mut SpaceWaiting,
    alloc: Global,
    now: Instant,
    room: usize,
) -> Result<FrameList, AllocError>
    ensures frames { IfOk result (λ frames. AckPart now space.old room frames (may_acknowledge space.old.acks)) }
    ensures rest { IfOk result (λ frames. space.new ≡ without_all space.old frames) }
{
    let mut frames = FrameList::new(alloc);
    let due = may_acknowledge(&space.acks);
    take_ack(space, alloc, now, due, room, &mut frames)?;
    Ok(frames)
}
