//! Opening packets whose header protection was taken off (RFC 9001, section 5.5).

ghost use Rattle.std.specs.Prelude.{◌≡◌, ◌+◌, ◌<◌, ◌^◌, ℕ, true, IsFalse, is_some};
ghost use Rattle.std.specs.Option.{option_copied};
ghost use Rattle.qc_base.specs.Mask.{first_byte};
ghost use Rattle.qc_header.specs.HeaderSpelling.{header_number};
ghost use Rattle.qc_packet.specs.OpenedPacket.{IsNumberOf, key_named, ring_key, which_in, opened_by, opened_payload, payload_after, reserved_bits, is_bad_update, result_of, opening_answer};

use bytes::BytesMut;
use qc_base::LongType;
use qc_crypto::PacketKey;
use qc_header::{Header, Packet};
use qc_rings::{KeyRing, Which};

/// The keys that may open a packet, each where this end has it.
#[derive(Debug, Drop)]
pub struct OpenKeys<'a, P> {
    /// The key of an Initial or Handshake packet's space.
    pub plain: Option<&'a P>,
    /// The key of 0-RTT packets.
    pub early: Option<&'a P>,
    /// The keys of 1-RTT packets.
    pub ring: Option<&'a KeyRing<P>>,
}

/// What is known of a packet that was opened.
#[derive(Clone, Copy, Debug, PartialEq, Eq)]
pub struct DecryptPacketResult {
    /// Its full number.
    pub number: u64,
    /// Whether it shows that the peer has come to the epoch that this end began: a 1-RTT packet that the
    /// current keys opened while the previous ones have no floor.
    pub outgoing_key_update_acked: bool,
    /// Whether the next keys opened it: the peer began a new epoch.
    pub incoming_key_update: bool,
}

/// Why a packet isn't taken.
#[derive(Clone, Copy, Debug, PartialEq, Eq)]
pub enum OpenError {
    /// The key that it names opens nothing, or isn't there (RFC 9001, section 5.5).
    Unopened,
    /// Its reserved bits aren't 0 (RFC 9000, section 17.2).
    Reserved,
    /// The next keys opened it, and its number isn't above all received, or the peer's last update isn't
    /// answered yet (RFC 9001, sections 6.2 and 6.4).
    KeyUpdate,
}

/// The key of a ring that a phase and a number name.
fn key_in_ring<P: PacketKey>(ring: &KeyRing<P>, phase: bool, number: u64) -> Option<&P>
    ensures { option_copied result ≡ ring_key (Some ring.now) phase number }
{
    match ring.key(ring.named(phase, number)) {
        None => None,
        Some(keys) => Some(&keys.remote),
    }
}

/// The key that a packet names.
#[tactic(auto, unfolding(crate::specs::OpenedPacket::key_named))]
fn named_key<'a, P: PacketKey>(
    header: &Header,
    keys: &OpenKeys<'a, P>,
    number: u64,
) -> Option<&'a P>
    ensures { option_copied result ≡ key_named header.now (option_copied keys.now.plain) (option_copied keys.now.early) (option_copied keys.now.ring) number }
{
    match header {
        Header::Initial(_) => keys.plain,
        Header::Long { ty, .. } => match *ty {
            LongType::Handshake => keys.plain,
            LongType::ZeroRtt => keys.early,
        },
        Header::Short { key_phase, .. } => match keys.ring {
            None => None,
            Some(ring) => key_in_ring(ring, *key_phase, number),
        },
        Header::Retry { .. } | Header::VersionNegotiate { .. } => None,
    }
}

/// The reserved bits of an unprotected first byte.
fn reserved(header: &Header, first: u8) -> u8
    ensures { result ≡ reserved_bits header.now first }
{
    match header {
        Header::Short { .. } => first / 8 % 4,
        Header::Initial(_)
        | Header::Long { .. }
        | Header::Retry { .. }
        | Header::VersionNegotiate { .. } => first / 4 % 4,
    }
}

/// The first byte, or 0 where there is none.
fn first_of(bytes: &[u8]) -> u8
    ensures { result ≡ first_byte bytes.now }
{
    match bytes {
        [] => 0,
        [first, ..] => *first,
    }
}

/// Which keys of the ring a packet names, if it is a 1-RTT packet.
fn named_in_ring<P: PacketKey>(
    header: &Header,
    ring: Option<&KeyRing<P>>,
    number: u64,
) -> Option<Which>
    ensures { result ≡ which_in header.now (option_copied ring.entry) number }
{
    match header {
        Header::Short { key_phase, .. } => match ring {
            None => None,
            Some(ring) => Some(ring.named(*key_phase, number)),
        },
        Header::Initial(_)
        | Header::Long { .. }
        | Header::Retry { .. }
        | Header::VersionNegotiate { .. } => None,
    }
}

/// Whether an update is one that the peer wasn't allowed to make.
fn is_bad<P: PacketKey>(
    which: Option<Which>,
    ring: Option<&KeyRing<P>>,
    rx: u64,
    number: u64,
) -> bool
    ensures { result ≡ is_bad_update which (option_copied ring.entry) rx number }
{
    match which {
        Some(Which::Next) => match ring {
            None => number <= rx,
            Some(ring) => number <= rx || ring.is_update_unanswered(),
        },
        Some(Which::Current) | Some(Which::Previous) | None => false,
    }
}

/// What is told of a packet that these keys of the ring opened.
fn told<P: PacketKey>(
    which: Option<Which>,
    ring: Option<&KeyRing<P>>,
    number: u64,
) -> DecryptPacketResult
    ensures { result ≡ result_of which (option_copied ring.entry) number }
{
    let is_floor_missing = match ring {
        None => false,
        Some(ring) => ring.is_floor_missing(),
    };
    match which {
        Some(Which::Next) => DecryptPacketResult {
            number,
            outgoing_key_update_acked: false,
            incoming_key_update: true,
        },
        Some(Which::Current) => DecryptPacketResult {
            number,
            outgoing_key_update_acked: is_floor_missing,
            incoming_key_update: false,
        },
        Some(Which::Previous) | None => DecryptPacketResult {
            number,
            outgoing_key_update_acked: false,
            incoming_key_update: false,
        },
    }
}

/// The answer for a packet that its key opened.
#[tactic(auto, unfolding(crate::specs::OpenedPacket::opening_answer))]
fn answer<P: PacketKey>(
    header: &Header,
    first: u8,
    ring: Option<&KeyRing<P>>,
    rx: u64,
    number: u64,
) -> Result<Option<DecryptPacketResult>, OpenError>
    ensures answer { result ≡ opening_answer header.now first (option_copied ring.entry) rx number true }
    ensures opened { result ≡ Err OpenError.Unopened → ⊥ }
{
    let which = named_in_ring(header, ring, number);
    if reserved(header, first) != 0 {
        return Err(OpenError::Reserved);
    }
    if is_bad(which, ring, rx, number) {
        return Err(OpenError::KeyUpdate);
    }
    Ok(Some(told(which, ring, number)))
}

/// Opens a payload with a key, if it is there; answers whether it did. Where it didn't, nothing is changed.
#[tactic(auto, unfolding(crate::specs::OpenedPacket::opened_by))]
fn open<P: PacketKey>(key: Option<&P>, number: u64, header: &[u8], payload: &mut BytesMut) -> bool
    ensures opened { result ≡ is_some (opened_by P.opening (option_copied key.entry) number header.now payload.old.items) }
    ensures payload { payload.new.items ≡ payload_after payload.old.items (opened_by P.opening (option_copied key.entry) number header.now payload.old.items) }
    ensures unopened { IsFalse result → payload.new ≡ payload.old }
{
    match key {
        None => false,
        Some(key) => match key.decrypt(number, header, payload) {
            Ok(()) => true,
            Err(_) => false,
        },
    }
}

/// Opens a packet that has this full number, in place.
#[tactic(auto, unfolding(crate::specs::OpenedPacket::opening_answer))]
fn decrypt_numbered<P: PacketKey>(
    packet: &mut Packet,
    keys: &OpenKeys<'_, P>,
    rx: u64,
    number: u64,
) -> Result<Option<DecryptPacketResult>, OpenError>
    ensures answer { result ≡ opening_answer packet.old.header (first_byte packet.old.header_data) (option_copied keys.now.ring) rx number
        (is_some (opened_payload P.opening packet.old keys.now number)) }
    ensures payload { packet.new.payload.items ≡ payload_after packet.old.payload.items
        (opened_payload P.opening packet.old keys.now number) }
    ensures header { packet.new.header ≡ packet.old.header }
    ensures header_data { packet.new.header_data ≡ packet.old.header_data }
    ensures unopened { result ≡ Err OpenError.Unopened → packet.new ≡ packet.old }
{
    let key = named_key(&packet.header, keys, number);
    let first = first_of(packet.header_data.as_slice());
    if !open(
        key,
        number,
        packet.header_data.as_slice(),
        &mut packet.payload,
    ) {
        return Err(OpenError::Unopened);
    }
    answer(&packet.header, first, keys.ring, rx, number)
}

/// Opens a packet whose header protection was taken off, in place. `rx` is the greatest number received in
/// its space before, 0 if there is none. None exactly for the forms without protection.
///
/// # Errors
///
/// The first of these: `Unopened` exactly where the key that the packet names doesn't open it, and the
/// packet is then unchanged; `Reserved` exactly where its reserved bits aren't 0; `KeyUpdate` exactly where
/// the next keys opened it and its number isn't above `rx`, or the peer's last update isn't answered yet
/// (RFC 9001, sections 5.5, 6.2 and 6.4).
pub fn decrypt_packet_body<P: PacketKey>(
    packet: &mut Packet,
    keys: &OpenKeys<'_, P>,
    rx: u64,
) -> Result<Option<DecryptPacketResult>, OpenError>
    ensures unprotected { header_number packet.old.header ≡ None → (result ≡ Ok None) × (packet.new ≡ packet.old) }
    ensures answer { (number : ℕ) → IsNumberOf (header_number packet.old.header) rx number
        → result ≡ opening_answer packet.old.header (first_byte packet.old.header_data) (option_copied keys.now.ring) rx number
        (is_some (opened_payload P.opening packet.old keys.now number)) }
    ensures payload { (number : ℕ) → IsNumberOf (header_number packet.old.header) rx number
        → packet.new.payload.items ≡ payload_after packet.old.payload.items
        (opened_payload P.opening packet.old keys.now number) }
    ensures header { packet.new.header ≡ packet.old.header }
    ensures header_data { packet.new.header_data ≡ packet.old.header_data }
    ensures unopened { result ≡ Err OpenError.Unopened → packet.new ≡ packet.old }
{
    let number = match packet.header.number() {
        None => return Ok(None),
        Some(low) => low.expand(rx.saturating_add(1)),
    };
    decrypt_numbered(packet, keys, rx, number)
}
