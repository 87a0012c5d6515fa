//! Taking the protection off a packet that came.

ghost use Rattle.std.specs.Prelude.{◌≡◌, IsSome, IfOk};
ghost use Rattle.std.specs.Option.{option_copied};
ghost use Rattle.qc_receive.specs.Told.{opening_told};
ghost use Rattle.qc_header.specs.HeaderSpelling.{header_number};
ghost use Rattle.qc_packet.specs.OpenedPacket.{IsNumberOf, which_in};
ghost use Rattle.qc_state.specs.Opening.{opened_form, source_of, spin_of, token_of, whole_number, opened_by, opened_under, opening_of};
ghost use Rattle.qc_state.specs.View.{ideal};

use bytes::Bytes;
use qc_base::{ConnectionId, HeaderMask, LongType};
use qc_core::Core;
use qc_crypto::PacketKey;
use qc_header::{Header, Packet, PartialDecode, ProtectedHeader};
use qc_packet::{
    DecryptPacketResult, KeyRing, OpenError, OpenKeys, Which, decrypt_packet_body, unprotect_header,
};
use qc_state::{Form, Means, Opening, Suite};
use std::alloc::AllocError;

/// The form of a packet with this header. None where it isn't taken so far.
fn opened_form(header: &ProtectedHeader) -> Option<Form>
    ensures { result ≡ opened_form header.now }
{
    match header {
        ProtectedHeader::Initial { .. } => Some(Form::Initial),
        ProtectedHeader::Long { ty, .. } => match *ty {
            LongType::Handshake => Some(Form::Handshake),
            LongType::ZeroRtt => None,
        },
        ProtectedHeader::Short { .. } => Some(Form::OneRtt),
        ProtectedHeader::Retry { .. } | ProtectedHeader::VersionNegotiate { .. } => None,
    }
}

/// The source id of a long header.
fn source_of(header: &Header) -> ConnectionId
    ensures { result ≡ source_of header.now }
{
    match header {
        Header::Initial(header) => header.src_cid,
        Header::Long { src_cid, .. } => *src_cid,
        Header::Retry { src_cid, .. } => *src_cid,
        Header::Short { .. } => ConnectionId::new(&[]),
        Header::VersionNegotiate { src_cid, .. } => *src_cid,
    }
}

/// The token of a header; only Initial headers have one. Want of memory is the only refusal.
fn token_of(header: &Header) -> Result<Bytes, AllocError>
    ensures { IfOk result (λ token. token ≡ token_of header.now) }
{
    match header {
        Header::Initial(header) => header.token.clone(),
        Header::Long { .. }
        | Header::Retry { .. }
        | Header::Short { .. }
        | Header::VersionNegotiate { .. } => Ok(Bytes::new()),
    }
}

/// The spin bit of a header; only short headers have one.
fn spin_of(header: &Header) -> bool
    ensures { result ≡ spin_of header.now }
{
    match header {
        Header::Short { spin, .. } => *spin,
        Header::Initial(_)
        | Header::Long { .. }
        | Header::Retry { .. }
        | Header::VersionNegotiate { .. } => false,
    }
}

/// The whole number of a packet: the one that is nearest to the number behind the greatest one that was accepted.
fn whole_number(header: &Header, rx: u64) -> u64
    ensures value { result ≡ whole_number (header_number header.now) rx }
    ensures nearest { IsSome (header_number header.now) → IsNumberOf (header_number header.now) rx result }
{
    match header.number() {
        None => 0,
        Some(number) => number.expand(rx.saturating_add(1)),
    }
}

/// Which keys of the ring a packet with this number names, if it is a 1-RTT packet.
fn which_in<P: PacketKey>(header: &Header, ring: Option<&KeyRing<P>>, number: u64) -> Option<Which>
    ensures { result ≡ which_in header.now (option_copied ring.entry) number }
{
    match (header, ring) {
        (Header::Short { key_phase, .. }, Some(ring)) => Some(ring.named(*key_phase, number)),
        _ => None,
    }
}

/// What becomes of a packet with this number, which names these keys of the ring, by what opening it told. Want of memory is the only
/// refusal.
fn judged(
    told: Result<Option<DecryptPacketResult>, OpenError>,
    number: u64,
    which: Option<Which>,
    packet: Packet,
) -> Result<Opening, AllocError>
    ensures { IfOk result (λ o. o ≡ opening_told told number which packet) }
{
    let number = match told {
        Ok(Some(told)) => told.number,
        Ok(None) | Err(OpenError::Unopened) => return Ok(Opening::Unopened),
        Err(OpenError::Reserved) => return Ok(Opening::Reserved { number }),
        Err(OpenError::KeyUpdate) => return Ok(Opening::Untimely { number }),
    };
    let source = source_of(&packet.header);
    let token = token_of(&packet.header)?;
    let spin = spin_of(&packet.header);
    match packet.payload.freeze() {
        Ok(payload) => Ok(Opening::Opened {
            source,
            token,
            spin,
            which,
            number,
            payload,
        }),
        Err(_) => Err(AllocError),
    }
}

/// Opens a packet whose mask was taken off, in place, under the key that it names: its space's own one, or one of the ring. Want
/// of memory is the only refusal.
#[tactic(auto, unfolding(qc_state::specs::Opening::opened_by))]
fn open_packet<'a, P: PacketKey>(
    plain: Option<&'a P>,
    ring: Option<&'a KeyRing<P>>,
    rx: u64,
    packet: Packet,
) -> Result<Opening, AllocError>
    ensures { IfOk result (λ o. o ≡ opened_by P.opening (option_copied plain.entry) (option_copied ring.entry) rx packet.header packet.header_data packet.payload.items) }
{
    let number = whole_number(&packet.header, rx);
    let which = which_in(&packet.header, ring, number);
    let keys = OpenKeys {
        plain,
        early: None,
        ring,
    };
    let mut packet = packet;
    let told = decrypt_packet_body(&mut packet, &keys, rx);
    judged(told, number, which, packet)
}

/// Takes the protection off a packet: its mask with this key, and then under the key that it names. Want of memory is the only
/// refusal.
#[tactic(auto, using(crate::proofs::Opens::none_is, crate::proofs::Opens::reset_is))]
fn open_under<H: HeaderMask, P: PacketKey>(
    key: &H,
    plain: Option<&P>,
    ring: Option<&KeyRing<P>>,
    rx: u64,
    partial: PartialDecode,
) -> Result<Opening, AllocError>
    requires form { IsSome (opened_form partial.header) }
    ensures { IfOk result (λ o. o ≡ opened_under H.mask_of P.opening key.now (option_copied plain.entry) (option_copied ring.entry) rx partial) }
{
    match unprotect_header(partial, Some(key), None)? {
        None => Ok(Opening::Unreadable),
        Some(told) => match told.packet {
            None => Ok(Opening::Unreadable),
            Some(packet) => open_packet(plain, ring, rx, packet),
        },
    }
}

/// What comes of taking the protection off a packet. Want of memory is the only refusal.
#[tactic(auto, unfolding(qc_state::specs::Opening::opening_of))]
pub(crate) fn open_piece<U: Suite>(
    core: &Core<U>,
    partial: PartialDecode,
) -> Result<Opening, AllocError>
    ensures { IfOk result (λ o. o ≡ opening_of ⟦<U as Means>⟧.meaning (ideal U.Random.stream core.now) partial) }
{
    let form = match opened_form(partial.header()) {
        None => return Ok(Opening::Unreadable),
        Some(form) => form,
    };
    let rx = core.numbers.received(form.space());
    match core.keys.unmasking(form) {
        None => Ok(Opening::Unreadable),
        Some(key) => open_under(key, core.keys.opening(form), core.keys.ring(), rx, partial),
    }
}
