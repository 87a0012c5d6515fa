//! One packet: how it is begun, its header, and its bytes; and what a transmit does once behind its packets.

ghost use Rattle.std.specs.Prelude.{◌≡◌, ◌+◌, ◌-◌, ◌<◌, ◌≤◌, ◌^◌, ◌++◌, [], true, false, None, IsSome, IfSome, if◌then◌else◌, length, option_map, replicate, OnOk, IfOk};
ghost use Rattle.qc_send.specs.Headers.{header_with, token_bytes, token_in};
ghost use Rattle.qc_send.specs.Filling.{padded_to, padding_to};
ghost use Rattle.qc_base.specs.PacketNumber.{number_of};
ghost use Rattle.qc_base.specs.declared.side.SpaceId.TheVariants.{Initial};
ghost use Rattle.qc_frame.specs.FrameSpelling.{frames_spelling};
ghost use Rattle.qc_frame.specs.declared.frames.FrameOf.TheVariants.{Padding};
ghost use Rattle.qc_packet.specs.Building.{kill_of, min_size_of, padded_size};
ghost use Rattle.qc_packet.specs.PacketSpelling.{padding_len};
ghost use Rattle.qc_header.specs.HeaderSpelling.{header_spelling, header_number};
ghost use Rattle.qc_state.specs.Forms.{number_space};
ghost use Rattle.qc_state.specs.Keys.{has_keys_for, header_key, packet_key, reaches_limit, usage_of};
ghost use Rattle.qc_state.specs.Moves.{Seal, move_to};
ghost use Rattle.qc_state.specs.Numbers.{next_number, acked_number};
ghost use Rattle.qc_state.specs.Batches.{segment_of};
ghost use Rattle.qc_state.specs.Sending.{begun_after, begun_batch, fills, fills_up, finished_after, flips_now, header_in, is_flown, packet_bytes, packet_size, room_of, sealed_with, slot_with, spared_after, spin_now, transmit_with};
ghost use Rattle.qc_state.specs.Spaces.{is_space};
ghost use Rattle.qc_state.specs.View.{ideal, held};

use crate::owing::{is_probe_due, next_number};
use crate::planning::{cid_len, number_len, plain_size};
use bytes::Bytes;
use qc_base::{EcnCodepoint, Instant, LongType, PacketNumber, Side, SpaceId, varint_size};
use qc_core::Core;
use qc_core::stopping::key_limit_error;
use qc_frame::FrameList;
use qc_header::{Header, InitialHeader};
use qc_packet::{Slot, seal_padded};
use qc_state::{Batch, Dids, Form, JOINING_SIZE, Means, Suite, Transmit};
use std::alloc::{AllocError, Global};

/// The size of a packet's tag, in bytes (RFC 9001, 5.3).
pub(crate) const TAG: usize = 16;

/// The size of the greatest close without a reason, in bytes.
pub(crate) const GREATEST_CLOSE: usize = 25;

/// Whether a packet fills a datagram: a client's Initial packet does, and a server's that elicits an acknowledgement.
fn fills(side: Side, space: SpaceId, eliciting: bool) -> bool
    ensures { result ≡ fills side space eliciting }
{
    match (side, space) {
        (Side::Client, SpaceId::Initial) => true,
        (Side::Server, SpaceId::Initial) => eliciting,
        _ => false,
    }
}

/// How many bytes a token adds to the header of a packet of this form: its own, and those of its length beyond the
/// one that an empty token has.
fn token_bytes(form: Form, token: &[u8]) -> usize
    ensures { result ≡ token_bytes form token.now }
{
    match form {
        Form::Initial => varint_size(token.len() as u64) - 1 + token.len(),
        Form::Handshake | Form::Early | Form::OneRtt => 0,
    }
}

/// The number of a packet as it is spelled, by the greatest acknowledged one: in as few bytes as tell it apart (RFC 9000, section 17.1), and in
/// four where none do; no packet is sealed then.
pub(crate) fn spelled_number(number: u64, acked: u64) -> PacketNumber
    requires { acked ≤ number }
    ensures { result ≡ number_of number acked }
{
    if number - acked < 1 << 31 {
        return PacketNumber::new(number, acked);
    }
    PacketNumber::U32((number % 0x1_0000_0000) as u32)
}

/// The header of the next packet, of this form, with this spin bit where it is a 1-RTT packet, and this token where it is an Initial
/// one.
#[inline(always)]
#[tactic(auto, unfolding(qc_state::specs::Setup::ideal_setup))]
fn header_with<U: Suite>(core: &Core<U>, form: Form, spin: bool, token: Bytes) -> Header
    ensures { result ≡ header_with (ideal U.Random.stream core.now) form spin token }
{
    let space = form.space();
    let number = spelled_number(core.numbers.next(space), core.numbers.acked_number(space));
    let dst_cid = core.paths.current.remote_cid;
    let src_cid = core.setup.fixed.local_cid;
    let version = core.setup.fixed.version;
    match form {
        Form::Initial => Header::Initial(InitialHeader {
            dst_cid,
            src_cid,
            token,
            number,
            version,
        }),
        Form::Handshake => Header::Long {
            ty: LongType::Handshake,
            dst_cid,
            src_cid,
            number,
            version,
        },
        Form::Early => Header::Long {
            ty: LongType::ZeroRtt,
            dst_cid,
            src_cid,
            number,
            version,
        },
        Form::OneRtt => Header::Short {
            spin,
            key_phase: core.keys.phase(),
            dst_cid,
            number,
        },
    }
}

/// How many bytes the header of the next packet, of this form, has as it is written without a token.
fn written_len<U: Suite>(core: &Core<U>, form: Form) -> usize
    ensures value { result ≡ length (header_spelling (header_with (ideal U.Random.stream core.now) form false []) 0) }
    ensures most { result ≤ 61 }
{
    header_with(core, form, false, Bytes::new()).encoded_len()
}

/// The same, where a 1-RTT packet's header isn't written for it.
fn bare_len<U: Suite>(core: &Core<U>, form: Form) -> usize
    ensures value { result ≡ length (header_spelling (header_with (ideal U.Random.stream core.now) form false []) 0) }
    ensures most { result ≤ 61 }
{
    match form {
        Form::OneRtt => 1 + cid_len(core) + number_len(core, form),
        Form::Initial | Form::Handshake | Form::Early => written_len(core, form),
    }
}

/// How much room for frames the next packet, of this form, has where so many bytes are left in its datagram: behind its header, and before
/// its tag.
#[inline(always)]
#[tactic(auto, unfolding(qc_state::specs::Setup::ideal_setup))]
pub(crate) fn frame_room<U: Suite>(core: &Core<U>, left: usize, form: Form) -> usize
    ensures value { result ≡ room_of left (ideal U.Random.stream core.now) form }
    ensures wide { is_space (number_space form) Initial ≡ false → JOINING_SIZE ≤ left → 25 ≤ result }
    ensures within { result ≤ left }
{
    let bare = bare_len(core, form);
    let rest = left.saturating_sub(TAG);
    let room = rest.saturating_sub(bare);
    room.saturating_sub(token_bytes(form, core.setup.initial_token.as_slice()))
}

/// The token that a packet of this form carries: none but an Initial one has any. Want of memory is the only refusal.
fn token<U: Suite>(core: &Core<U>, form: Form) -> Result<Bytes, AllocError>
    ensures { IfOk result (λ token. token ≡ token_in form core.now.setup.initial_token) }
{
    match form {
        Form::Initial => core.setup.initial_token.clone(),
        Form::Handshake | Form::Early | Form::OneRtt => Ok(Bytes::new()),
    }
}

/// The spin bit of the next packet, where it is a 1-RTT one: that of the path where the connection spins, else the drawn one.
#[tactic(auto, unfolding(qc_state::specs::Sending::spin_now, qc_state::specs::Setup::ideal_setup))]
fn spin<U: Suite>(core: &Core<U>) -> bool
    ensures { result ≡ spin_now (ideal U.Random.stream core.now) }
{
    if core.setup.fixed.spins {
        return core.paths.spin;
    }
    core.setup.drawn.spin
}

/// The header of the next packet, of this form. Want of memory is the only refusal.
fn header<U: Suite>(core: &Core<U>, form: Form) -> Result<Header, AllocError>
    ensures { IfOk result (λ header. header ≡ header_in (ideal U.Random.stream core.now) form) }
{
    let token = token(core, form)?;
    Ok(header_with(core, form, spin(core), token))
}

/// Whether a packet of this form with these frames fills up its datagram.
#[tactic(auto, unfolding(qc_state::specs::Sending::fills_up, qc_state::specs::Setup::ideal_setup))]
pub(crate) fn fills_up<U: Suite>(core: &Core<U>, form: Form, frames: &FrameList) -> bool
    ensures { result ≡ fills_up (ideal U.Random.stream core.now) form frames.now }
{
    fills(core.setup.fixed.side, form.space(), frames.elicits())
}

/// A packet of this form is begun, and a datagram with it where it opens one: the number that would be next is skipped where it is to be, and
/// a probe that is due in its space is spent. Want of memory is the only refusal.
#[inline(always)]
#[tactic(auto, unfolding(qc_state::specs::Sending::begun_after, qc_state::specs::Sending::skipped_after, qc_state::specs::Moves::move_to, qc_state::specs::Moves::deeds_move))]
pub(crate) fn begin_packet<U: Suite>(
    core: &mut Core<U>,
    form: Form,
    opens: bool,
    did: &Dids,
) -> Result<(), AllocError>
    ensures { OnOk result ((held U.Random.stream core.new did.now) ≡ begun_after (number_space form) opens (held U.Random.stream core.old did.now)) }
{
    let space = form.space();
    if core.numbers.is_skipped(space) {
        core.do_skip();
    }
    core.do_begin(space, opens)
}

/// The same, and what is known of the datagrams then. Want of memory is the only refusal.
#[tactic(auto, unfolding(qc_state::specs::Sending::begun_batch))]
pub(crate) fn begin<U: Suite>(
    core: &mut Core<U>,
    did: &Dids,
    batch: &mut Batch,
    form: Form,
    opens: bool,
) -> Result<(), AllocError>
    ensures leads { OnOk result ((held U.Random.stream core.new did.now) ≡ begun_after (number_space form) opens (held U.Random.stream core.old did.now)) }
    ensures batch { OnOk result (batch.new ≡ begun_batch (ideal U.Random.stream core.old) (number_space form) opens batch.old) }
{
    let probes = is_probe_due(core, form);
    begin_packet(core, form, opens, did)?;
    batch.open(opens, probes);
    Ok(())
}

/// What a transmit does once, behind its packets: a client that sealed a Handshake packet leaves the Initial space, this end closes
/// where the key of the last packet may seal only one more, and the bytes of the datagrams go to the path's address, of which the congestion
/// controller is told. Want of memory is the only refusal.
#[tactic(auto, unfolding(qc_state::specs::Sending::finished_after, qc_state::specs::Moves::move_to, qc_state::specs::Moves::deeds_move))]
pub(crate) fn finish<U: Suite>(
    core: &mut Core<U>,
    did: &mut Dids,
    now: Instant,
    batch: Batch,
) -> Result<(), AllocError>
    ensures { OnOk result ((held U.Random.stream core.new did.new) ≡ finished_after ⟦<U as Means>⟧.meaning now batch (held U.Random.stream core.old did.old)) }
{
    if batch.shook {
        core.leave_initial(Side::Client, false, now, SpaceId::Handshake, did);
    }
    spare(core, did, now, batch.worn)?;
    core.tell_sent(did, now, &batch);
    Ok(())
}

/// This end closes behind a packet that was sealed, where its key may seal only one more, so that this one can be the close
/// (RFC 9001, section 6.6). `nearly` is what `is_key_nearly_used_up` said before the packet.
#[tactic(auto, unfolding(qc_state::specs::Sending::spared_after))]
pub(crate) fn spare<U: Suite>(
    core: &mut Core<U>,
    did: &mut Dids,
    now: Instant,
    nearly: bool,
) -> Result<(), AllocError>
    ensures { OnOk result ((held U.Random.stream core.new did.new) ≡ spared_after now nearly (held U.Random.stream core.old did.old)) }
{
    if nearly {
        return core.stopped(did, now, key_limit_error());
    }
    Ok(())
}

/// The mark of ECN that datagrams go with: ECT(0) while the path is taken to pass it on (RFC 9000, section 13.4.2).
fn mark<U: Suite>(core: &Core<U>) -> Option<EcnCodepoint>
    ensures { result ≡ (if core.now.paths.current.kept.sending_ecn then Some EcnCodepoint.Ect0 else None) }
{
    if core.paths.current.kept.sending_ecn {
        return Some(EcnCodepoint::Ect0);
    }
    None
}

/// The size of each datagram but the last, where there are several.
fn segment_of(batch: &Batch) -> Option<usize>
    ensures { result ≡ segment_of batch.now }
{
    if 1 < batch.made {
        return Some(batch.segment as usize);
    }
    None
}

/// Where the datagrams of a batch go.
#[tactic(auto, unfolding(qc_state::specs::Sending::transmit_with, qc_state::specs::Setup::ideal_setup))]
pub(crate) fn transmit_to<U: Suite>(core: &Core<U>, batch: &Batch) -> Transmit
    ensures { result ≡ transmit_with (ideal U.Random.stream core.now) batch.now }
{
    Transmit {
        destination: core.paths.current.remote,
        ecn: mark(core),
        size: batch.total as usize,
        segment_size: segment_of(batch),
        src_ip: core.setup.fixed.local_ip,
    }
}

/// What the builder is given of the next packet, of this form. None exactly where there are no keys.
#[tactic(auto, unfolding(qc_state::specs::Sending::flips_now, qc_state::specs::Setup::ideal_setup))]
fn slot<U: Suite>(core: &Core<U>, form: Form) -> Option<Slot>
    ensures { result ≡ option_map (slot_with (ideal U.Random.stream core.now) form) (usage_of core.now.keys form) }
{
    match core.keys.usage(form) {
        None => None,
        Some(usage) => Some(Slot {
            space: form.space(),
            number: core.numbers.next(form.space()),
            largest_acked: core.numbers.acked_number(form.space()),
            sealed: usage.sealed,
            limit: usage.limit,
            flip: core.setup.flips(),
        }),
    }
}

/// Seals the next packet, of this form, with this header and these frames at the end of a buffer, filled up with PADDING to `least` bytes
/// at least, and to what each packet has to have. The PADDING frames are added to the list. Want of memory is the only refusal.
fn seal_with<U: Suite>(
    core: &Core<U>,
    form: Form,
    header: &Header,
    frames: &mut FrameList,
    left: usize,
    least: usize,
    buf: &mut Vec<u8>,
) -> Result<(), AllocError>
    requires keyed { has_keys_for core.now.keys form ≡ true }
    requires numbered { IsSome (header_number header.now) }
    requires begins { IfSome (usage_of core.now.keys form) (λ usage. kill_of (slot_with (ideal U.Random.stream core.now) form usage) header.now 0 left ≡ None) }
    requires sized { min_size_of 0 header.now + 16 ≤ left }
    requires room { length (header_spelling header.now 0) + length (frames_spelling frames.old) + 16 ≤ left }
    requires small { least ≤ left }
    requires most { left ≤ 16383 }
    ensures frames { OnOk result (frames.new ≡ frames.old ++ replicate (padding_len header.now frames.old (padded_size header.now frames.old least)) Padding) }
    ensures bytes { OnOk result (buf.new.items ≡ buf.old.items ++ sealed_with ⟦<U as Means>⟧.meaning (header_key core.now.keys form) (packet_key core.now.keys form) (flips_now (ideal U.Random.stream core.now)) header.now (next_number core.now.numbers (number_space form)) (frames_spelling frames.new)) }
    ensures full { OnOk result (length buf.new.items ≡ length buf.old.items + padded_size header.now frames.old least) }
{
    let header_key = match core.keys.header_key(form) {
        Some(key) => key,
        None => unreachable!(),
    };
    let packet_key = match core.keys.packet_key(form) {
        Some(key) => key,
        None => unreachable!(),
    };
    let slot = match slot(core, form) {
        Some(slot) => slot,
        None => unreachable!(),
    };
    match seal_padded(
        header_key, packet_key, &slot, header, frames, left, least, buf,
    ) {
        Ok(()) => Ok(()),
        Err(_) => Err(AllocError),
    }
}

/// What a packet came to that was sealed.
#[derive(Clone, Copy)]
pub(crate) struct Sealed {
    /// How many bytes it has.
    pub size: u64,
    /// How many of them are PADDING.
    pub padding: u64,
    /// Whether it fills up its datagram.
    pub fills: bool,
    /// Whether it counts as in flight.
    pub counts: bool,
}

/// Seals the next packet, of this form, with these frames at the end of a buffer, filled up with PADDING to `least` bytes and to what it has to
/// have, and counts it. The frames stand in so much room, of so many bytes that are left for the packet. Want of memory is the only
/// refusal.
pub(crate) fn seal<U: Suite>(
    core: &mut Core<U>,
    alloc: Global,
    did: &mut Dids,
    now: Instant,
    form: Form,
    left: usize,
    room: usize,
    least: usize,
    frames: FrameList,
    buf: &mut Vec<u8>,
) -> Result<Sealed, AllocError>
    requires low { next_number core.old.numbers (number_space form) < 2 ^ 62 - 1 }
    requires near { next_number core.old.numbers (number_space form) - acked_number core.old.numbers (number_space form) < 2 ^ 31 }
    requires keyed { has_keys_for core.old.keys form ≡ true }
    requires fresh { reaches_limit 0 (usage_of core.old.keys form) ≡ false }
    requires room { room ≡ room_of left (ideal U.Random.stream core.old) form }
    requires wide { 25 ≤ room }
    requires within { room ≤ left }
    requires fits { length (frames_spelling frames) ≤ room }
    requires small { least ≤ left }
    requires most { left ≤ 16383 }
    ensures leads { OnOk result ((held U.Random.stream core.new did.new) ≡ move_to (Seal now form (next_number core.old.numbers (number_space form)) (packet_size (ideal U.Random.stream core.old) form (padded_to (ideal U.Random.stream core.old) form least frames)) (padded_to (ideal U.Random.stream core.old) form least frames)) (held U.Random.stream core.old did.old)) }
    ensures bytes { OnOk result (buf.new.items ≡ buf.old.items ++ packet_bytes ⟦<U as Means>⟧.meaning (ideal U.Random.stream core.old) form (padded_to (ideal U.Random.stream core.old) form least frames)) }
    ensures full { OnOk result (length buf.new.items ≡ length buf.old.items + packet_size (ideal U.Random.stream core.old) form (padded_to (ideal U.Random.stream core.old) form least frames)) }
    ensures long { OnOk result (length buf.new.items < 2 ^ 64) }
    ensures size { IfOk result (λ sealed. sealed.size ≡ packet_size (ideal U.Random.stream core.old) form (padded_to (ideal U.Random.stream core.old) form least frames)) }
    ensures padding { IfOk result (λ sealed. sealed.padding ≡ padding_to (ideal U.Random.stream core.old) form least frames) }
    ensures fills { IfOk result (λ sealed. sealed.fills ≡ fills_up (ideal U.Random.stream core.old) form (padded_to (ideal U.Random.stream core.old) form least frames)) }
    ensures counts { IfOk result (λ sealed. sealed.counts ≡ is_flown (ideal U.Random.stream core.old) (padded_to (ideal U.Random.stream core.old) form least frames)) }
{
    let mut frames = frames;
    let plain = plain_size(left, room, &frames);
    // Room for the whole packet, so that the buffer doesn't grow step by step.
    buf.reserve(plain.max(least))?;
    let start = buf.len();
    let number = next_number(core, form.space());
    let header = header(core, form)?;
    seal_with(core, form, &header, &mut frames, left, least, buf)?;
    let end = buf.len();
    let size = end.saturating_sub(start);
    let fills = fills_up(core, form, &frames);
    let counts = core.is_flown(&frames);
    let padding = size.saturating_sub(plain);
    core.do_seal(alloc, did, now, form, number, size as u64, frames)?;
    Ok(Sealed {
        size: size as u64,
        padding: padding as u64,
        fills,
        counts,
    })
}
