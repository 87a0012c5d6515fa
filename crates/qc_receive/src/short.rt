//! Datagrams that are one 1-RTT packet: it is opened where it stands, and nothing is allocated for it.

ghost use Rattle.std.specs.Prelude.{◌≡◌, ◌≤◌, ◌/◌, ◌%◌, ◌==◌, ◌&&◌, if◌then◌else◌, ℕ, List, nat_lt, length, take, Some, None, OnOk};
ghost use Rattle.std.specs.Option.{option_copied};
ghost use Rattle.qc_base.specs.Mask.{first_byte};
ghost use Rattle.qc_base.specs.declared.side.SpaceId.TheVariants.{«Data»};
ghost use Rattle.qc_receive.specs.Short.{header_of, judged_short, short_in, short_told};
ghost use Rattle.qc_header.specs.Unprotected.{short_packet};
ghost use Rattle.qc_packet.specs.OpenedPacket.{is_bad_update, opened_by as opened_under_key, remote_of};
ghost use Rattle.qc_rings.specs.Keyed.{key_of};
ghost use Rattle.qc_state.specs.Opening.{judged, opened_by, opened_numbered, opened_under, opening_of};
ghost use Rattle.qc_state.specs.Receiving.{opening_after, piece_after};
ghost use Rattle.qc_state.specs.View.{ideal, held};

use crate::receiving::failed;
use bytes::BytesMut;
use qc_admit::received_in;
use qc_base::{ConnectionId, HeaderMask, SpaceId};
use qc_core::Core;
use qc_core::stopping::update_error;
use qc_crypto::{KeyPair, PacketKey};
use qc_header::{ShortHeader, ShortPiece, finish_short, leading_byte};
use qc_packet::{KeyRing, Which};
use qc_state::{Coming, Dids, Form, Means, Suite, Verdict};
use std::alloc::{AllocError, Global};

/// How many bytes a short header has at most: the first one, 20 of an id and 4 of a number.
const SHORT_HEADER_SIZE: usize = 25;

/// What opening a packet told.
#[derive(Clone, Copy)]
pub(crate) enum Told {
    /// A key that it needs is missing, or it is too short.
    Unreadable,
    /// Its key didn't open it.
    Unopened,
    /// It opened, and its reserved bits aren't 0.
    Reserved {
        /// Its whole number.
        number: u64,
    },
    /// The next keys opened it, where its sender wasn't allowed to update its keys.
    Untimely {
        /// Its whole number.
        number: u64,
    },
    /// It opened, and its payload stands in place of what was sealed.
    Opened {
        /// Its whole number.
        number: u64,
        /// Its spin bit.
        spin: bool,
        /// Which keys of the ring opened it.
        which: Which,
    },
}

/// Whether a datagram is one 1-RTT packet with the fixed bit set: it begins with a short header, whose id has this length.
pub(crate) fn is_short(local_cid_len: usize, bytes: &[u8]) -> bool
    ensures { result ≡ ((first_byte bytes.now / 64 == 1) && nat_lt local_cid_len (length bytes.now)) }
{
    leading_byte(bytes) / 64 == 1 && local_cid_len < bytes.len()
}

/// The first `len` bytes, at the front of an array.
fn head_of(bytes: &[u8], len: usize) -> [u8; SHORT_HEADER_SIZE]
    requires fits { len ≤ 25 }
    requires within { len ≤ length bytes.now }
    ensures { take len result ≡ take len bytes.now }
{
    let mut head = [0; SHORT_HEADER_SIZE];
    head[..len].copy_from_slice(&bytes[..len]);
    head
}

/// What is told of a packet with this header and number that these keys of the ring opened, by whether its sender made an update that it
/// wasn't allowed to make.
fn told_opened(header: &ShortHeader, number: u64, which: Which, bad: bool) -> Told
    ensures { (dst payload : List ℕ) → short_told result payload ≡ judged_short header.now dst number which bad payload }
{
    if header.reserved_bits != 0 {
        return Told::Reserved { number };
    }
    if bad {
        return Told::Untimely { number };
    }
    Told::Opened {
        number,
        spin: header.spin,
        which,
    }
}

/// Whether these keys of the ring show an update that the peer wasn't allowed to make.
fn is_bad<P: PacketKey>(ring: &KeyRing<P>, which: Which, rx: u64, number: u64) -> bool
    ensures { result ≡ is_bad_update (Some which) (Some ring.now) rx number }
{
    match which {
        Which::Next => number <= rx || ring.is_update_unanswered(),
        Which::Current | Which::Previous => false,
    }
}

/// Opens a payload behind this header, whose bytes are `head`, in place, under the peer's key of a pair, if it is there: these keys of the
/// ring, which show an update that the peer wasn't allowed to make, or don't.
#[tactic(auto, unfolding(qc_packet::specs::OpenedPacket::opened_by))]
fn open_with<P: PacketKey>(
    keys: Option<&KeyPair<P>>,
    number: u64,
    header: &ShortHeader,
    which: Which,
    bad: bool,
    head: &[u8],
    payload: &mut BytesMut,
) -> Told
    requires { header.now.reserved_bits ≡ first_byte head.now / 8 % 4 }
    ensures { (dst : List ℕ) → short_told result payload.new.items ≡ judged (header_of header.now dst) number head.now (Some which) bad
        (opened_under_key P.opening (remote_of (option_copied keys.entry)) number head.now payload.old.items) }
{
    match keys {
        None => Told::Unopened,
        Some(keys) => match keys.remote.decrypt(number, head, payload) {
            Err(_) => Told::Unopened,
            Ok(()) => told_opened(header, number, which, bad),
        },
    }
}

/// Opens a payload behind this header in place, under the key of a ring that the header and the number name.
#[tactic(auto, unfolding(qc_packet::specs::OpenedPacket::key_named))]
fn open_in_ring<P: PacketKey>(
    ring: &KeyRing<P>,
    rx: u64,
    number: u64,
    header: &ShortHeader,
    head: &[u8],
    payload: &mut BytesMut,
) -> Told
    requires { header.now.reserved_bits ≡ first_byte head.now / 8 % 4 }
    ensures { (dst : List ℕ) → short_told result payload.new.items ≡ opened_numbered P.opening None (Some ring.now) rx number (header_of header.now dst) head.now payload.old.items }
{
    let which = ring.named(header.key_phase, number);
    let bad = is_bad(ring, which, rx, number);
    open_with(ring.key(which), number, header, which, bad, head, payload)
}

/// Opens the payload behind a header in place, under the key that it names.
fn open_behind<P: PacketKey>(
    ring: Option<&KeyRing<P>>,
    rx: u64,
    header: &ShortHeader,
    head: &[u8],
    payload: &mut BytesMut,
) -> Told
    requires { header.now.reserved_bits ≡ first_byte head.now / 8 % 4 }
    ensures { (dst : List ℕ)
        → short_told result payload.new.items ≡ opened_by P.opening None (option_copied ring.entry) rx (header_of header.now dst) head.now payload.old.items }
{
    match ring {
        None => Told::Unopened,
        Some(ring) => {
            let number = header.number.expand(rx.saturating_add(1));
            open_in_ring(ring, rx, number, header, head, payload)
        }
    }
}

/// Takes the mask off a 1-RTT packet whose number begins at `pn_offset`, and opens it under the key that it names: the payload is
/// left of its bytes.
fn open_short_with<H: HeaderMask, P: PacketKey>(
    key: &H,
    ring: Option<&KeyRing<P>>,
    rx: u64,
    pn_offset: usize,
    bytes: &mut BytesMut,
) -> Told
    requires { pn_offset ≤ 21 }
    ensures { (dst : List ℕ)
        → short_told result bytes.new.items ≡ opened_under H.mask_of P.opening key.now None (option_copied ring.entry) rx (short_packet dst pn_offset bytes.old.items) }
{
    match finish_short(key, pn_offset, bytes.as_mut_slice()) {
        None => Told::Unreadable,
        Some(header) => {
            let head = head_of(bytes.as_slice(), header.len);
            bytes.advance(header.len);
            open_behind(ring, rx, &header, &head[..header.len], bytes)
        }
    }
}

/// Takes the mask off a 1-RTT packet whose number begins at `pn_offset`, and opens it: the payload is left of its bytes.
#[tactic(auto, unfolding(qc_state::specs::Opening::opening_of, qc_state::specs::Keys::opening_key, qc_state::specs::Keys::plain_keys))]
fn open_short<U: Suite>(core: &Core<U>, pn_offset: usize, bytes: &mut BytesMut) -> Told
    requires { pn_offset ≤ 21 }
    ensures { (dst : List ℕ)
        → short_told result bytes.new.items ≡ opening_of ⟦<U as Means>⟧.meaning (ideal U.Random.stream core.now) (short_packet dst pn_offset bytes.old.items) }
{
    let rx = core.numbers.received(SpaceId::Data);
    match core.keys.unmasking(Form::OneRtt) {
        None => Told::Unreadable,
        Some(key) => open_short_with(key, core.keys.ring(), rx, pn_offset, bytes),
    }
}

/// What a 1-RTT packet does, by what opening it told. Want of memory is the only refusal.
#[tactic(auto, unfolding(qc_state::specs::Moves::move_to, qc_state::specs::Moves::deeds_move))]
fn told_short<U: Suite>(
    core: &mut Core<U>,
    alloc: Global,
    did: &mut Dids,
    coming: &Coming,
    told: Told,
    payload: &[u8],
) -> Result<(), AllocError>
    ensures { OnOk result ((held U.Random.stream core.new did.new) ≡ opening_after ⟦<U as Means>⟧.meaning coming.now (Some Data) (short_told told payload.now) (held U.Random.stream core.old did.old)) }
{
    match told {
        Told::Unreadable => { core.do_tell_piece(did, Some(SpaceId::Data), None, Verdict::Ignored) }
        Told::Unopened => failed(core, did, Some(SpaceId::Data)),
        Told::Reserved { number } => {
            core.do_tell_piece(did, Some(SpaceId::Data), Some(number), Verdict::BadBits)?;
            core.violated(did, coming.time)
        }
        Told::Untimely { number } => {
            core.do_tell_piece(did, Some(SpaceId::Data), Some(number), Verdict::BadUpdate)?;
            core.stopped(did, coming.time, update_error())
        }
        Told::Opened {
            number,
            spin,
            which,
        } => {
            core.unsealed(did, coming.time, Some(which), number);
            received_in(
                core,
                alloc,
                did,
                coming,
                SpaceId::Data,
                spin,
                ConnectionId::new(&[]),
                &[],
                number,
                payload,
            )
        }
    }
}

/// A 1-RTT packet that came to an end which takes packets. Want of memory is the only refusal.
pub(crate) fn short_opened<U: Suite>(
    core: &mut Core<U>,
    alloc: Global,
    did: &mut Dids,
    coming: &Coming,
    short: ShortPiece,
) -> Result<(), AllocError>
    requires { short.pn_offset ≤ 21 }
    ensures { OnOk result ((held U.Random.stream core.new did.new) ≡ opening_after ⟦<U as Means>⟧.meaning coming.now (Some Data) (opening_of ⟦<U as Means>⟧.meaning (ideal U.Random.stream core.old) (short_packet short.dst_cid short.pn_offset short.bytes.items)) (held U.Random.stream core.old did.old)) }
{
    let mut bytes = short.bytes;
    let told = open_short(core, short.pn_offset, &mut bytes);
    told_short(core, alloc, did, coming, told, bytes.as_slice())
}

/// A datagram's packet that is all of it, a 1-RTT packet whose id has this length. Want of memory is the only refusal.
#[tactic(auto, unfolding(qc_state::specs::Receiving::piece_after, qc_state::specs::Moves::move_to, qc_state::specs::Moves::deeds_move))]
pub(crate) fn short_piece<U: Suite>(
    core: &mut Core<U>,
    alloc: Global,
    did: &mut Dids,
    coming: &Coming,
    local_cid_len: usize,
    bytes: BytesMut,
) -> Result<(), AllocError>
    requires { local_cid_len ≤ 20 }
    ensures { OnOk result ((held U.Random.stream core.new did.new) ≡ piece_after ⟦<U as Means>⟧.meaning coming.now (short_in local_cid_len bytes.items) (held U.Random.stream core.old did.old)) }
{
    if core.life.is_over() {
        return core.do_tell_piece(did, Some(SpaceId::Data), None, Verdict::Ignored);
    }
    let mut bytes = bytes;
    let told = open_short(core, 1 + local_cid_len, &mut bytes);
    told_short(core, alloc, did, coming, told, bytes.as_slice())
}
