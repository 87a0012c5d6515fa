//! Packets built, sealed, unmasked and opened.

ghost use Rattle.std.specs.Prelude.{◌≡◌, ◌≤◌, ℕ, false, List, [], ◌∷◌, Ok, Some, IfOk, OnOk, IfSome, IsSome};
ghost use Rattle.qc_crypto.specs.Mates.{OpensItsPackets};
ghost use Rattle.qc_header.specs.HeaderReading.{piece_at};
ghost use Rattle.qc_header.specs.Piece.{Piece};
ghost use Rattle.qc_packet.specs.Arrival.{IsSealed};
ghost use Rattle.qc_packet.specs.PacketSpelling.{packet_spelling};
ghost use Rattle.qc_packet.specs.Unprotected.{is_cut, IsUnprotected};
ghost use Rattle.qc_bench_run.specs.Passing.{passing_header, passing_payload, number_in};

use crate::keys::Opened;
use bytes::BytesMut;
use qc_base::{ConnectionId, PacketNumber, SpaceId};
use qc_crypto::{HeaderKey, Keys, PacketKey};
use qc_header::{Header, Packet, PacketDecodeError, PartialDecode};
use qc_packet::{
    DecryptPacketResult, KeyRing, OpenError, OpenKeys, PacketBuilder, Slot, decrypt_packet_body,
    unprotect_header,
};
use std::alloc::{AllocError, Global};
use std::mem;

/// The least size that is measured: a header of 13 bytes, a frame, and 20 bytes of padding and tag.
pub const LEAST_SIZE: u16 = 34;

/// The greatest size that is measured: that of a packet whose Length field would be full.
pub const MOST_SIZE: u16 = 16_383;

/// The receiver's id, and how many bytes it has.
const ID: &[u8; 8] = b"receiver";

/// The header of the packet with this number: a 1-RTT packet's of the first epoch, with an id of 8 bytes
/// and a number of 4.
fn header_of(number: u32) -> Header
    ensures { result ≡ passing_header number }
{
    Header::Short {
        spin: false,
        key_phase: false,
        dst_cid: ConnectionId::new(ID),
        number: PacketNumber::U32(number),
    }
}

/// Builds and seals a packet of `size` bytes that holds a PING and padding, in an empty buffer.
fn build<H: HeaderKey, P: PacketKey>(
    header_key: &H,
    packet_key: &P,
    number: u32,
    size: u16,
    buf: &mut Vec<u8>,
) -> Result<(), AllocError>
    requires empty { buf.old.items ≡ [] }
    requires least { LEAST_SIZE ≤ size }
    requires most { size ≤ MOST_SIZE }
    ensures { OnOk result (buf.new.items
        ≡ packet_spelling (H.mask_of header_key.now) (P.seal packet_key.now) (passing_header number) number (passing_payload size)) }
{
    let slot = Slot {
        space: SpaceId::Data,
        number: number as u64,
        largest_acked: number as u64,
        sealed: 0,
        limit: 1,
        flip: false,
    };
    let header = header_of(number);
    let mut builder = match PacketBuilder::new(&slot, &header, buf, MOST_SIZE as usize, 0, true) {
        Ok(builder) => builder,
        Err(_) => return Err(AllocError),
    };
    buf.push(1)?;
    builder.pad_to(size);
    let _ = builder.finish(header_key, packet_key, buf)?;
    Ok(())
}

/// Reads a packet as far as its header protection lets it, if it can be read.
fn read(packet: Vec<u8>) -> Result<Option<PartialDecode>, AllocError>
    ensures { (p : Piece) → piece_at 8 (1 ∷ []) false packet.items ≡ Ok (p, []) → IfOk result (λ r. r ≡ Some p) }
{
    match PartialDecode::new(BytesMut::from_vec(packet), ID.len(), &[1], false) {
        Ok((partial, _)) => Ok(Some(partial)),
        Err(PacketDecodeError::OutOfMemory) => Err(AllocError),
        Err(_) => Ok(None),
    }
}

/// Takes a packet's header protection off, if it is long enough.
fn unmask<H: HeaderKey>(partial: PartialDecode, key: &H) -> Result<Option<Packet>, AllocError>
    ensures some { is_cut partial ≡ false → IfOk result IsSome }
    ensures packet { IfOk result (λ r. IfSome r (λ packet. IsUnprotected (H.mask_of key.now) partial packet)) }
{
    match unprotect_header(partial, Some(key), None)? {
        None => Ok(None),
        Some(told) => Ok(told.packet),
    }
}

/// The full number of a packet that was opened.
fn number_told(answer: Result<Option<DecryptPacketResult>, OpenError>) -> Option<u64>
    ensures { result ≡ number_in answer }
{
    match answer {
        Ok(Some(told)) => Some(told.number),
        Ok(None) | Err(_) => None,
    }
}

/// Opens a packet whose sealer had sealed all lower numbers, and gives its full number, if it opens.
fn open<P: PacketKey>(packet: &mut Packet, ring: &KeyRing<P>, number: u32) -> Option<u64>
    ensures { (sealer : P) (plain : List ℕ) → OpensItsPackets (P.seal sealer) (P.opening ring.now.current.remote) → ring.now.ring.epoch ≡ 0
        → IsSealed (P.seal sealer) false (passing_header number) number plain packet.old → result ≡ Some number }
{
    let keys = OpenKeys {
        plain: None,
        early: None,
        ring: Some(ring),
    };
    let rx = number.saturating_sub(1) as u64;
    let answer = decrypt_packet_body(packet, &keys, rx);
    number_told(answer)
}

/// The buffer of a packet that is done with, emptied.
fn emptied(packet: Packet) -> Result<Vec<u8>, AllocError>
    ensures { IfOk result (λ buf. buf.items ≡ []) }
{
    let Packet {
        header,
        header_data,
        mut payload,
    } = packet;
    drop(header);
    drop(header_data);
    payload.clear();
    match payload.into_vec() {
        Ok(buf) => Ok(buf),
        Err(_) => Err(AllocError),
    }
}

/// Passes one packet from its sealer to its opener, which gives its full number, if it opens. The packet is built in
/// the empty buffer and opened in place there; the buffer is then empty again.
fn pass<H: HeaderKey, P: PacketKey>(
    alloc: Global,
    sealer: &Keys<H, P>,
    opener: &Keys<H, P>,
    ring: &KeyRing<P>,
    number: u32,
    size: u16,
    buf: &mut Vec<u8>,
) -> Result<Option<u64>, AllocError>
    requires empty { buf.old.items ≡ [] }
    requires least { LEAST_SIZE ≤ size }
    requires most { size ≤ MOST_SIZE }
    requires masks { H.mask_of sealer.now.header.local ≡ H.mask_of opener.now.header.remote }
    requires mates { OpensItsPackets (P.seal sealer.now.packet.local) (P.opening ring.now.current.remote) }
    requires epoch { ring.now.ring.epoch ≡ 0 }
    ensures number { IfOk result (λ r. r ≡ Some number) }
    ensures empty { OnOk result (buf.new.items ≡ []) }
{
    build(
        &sealer.header.local,
        &sealer.packet.local,
        number,
        size,
        buf,
    )?;
    let packet = mem::replace(buf, Vec::new(alloc));
    let partial = match read(packet)? {
        None => return Ok(None),
        Some(partial) => partial,
    };
    match unmask(partial, &opener.header.remote)? {
        None => Ok(None),
        Some(mut packet) => {
            let full = open(&mut packet, ring, number);
            *buf = emptied(packet)?;
            Ok(full)
        }
    }
}

/// Builds, seals, unmasks and opens `count` packets of `size` bytes, each with the number of its place, all in one buffer.
pub fn pass_packets<H: HeaderKey, P: PacketKey>(
    alloc: Global,
    sealer: &Keys<H, P>,
    opener: &Keys<H, P>,
    ring: &KeyRing<P>,
    count: u32,
    size: u16,
) -> Result<Opened, AllocError>
    requires least { LEAST_SIZE ≤ size }
    requires most { size ≤ MOST_SIZE }
    requires masks { H.mask_of sealer.now.header.local ≡ H.mask_of opener.now.header.remote }
    requires mates { OpensItsPackets (P.seal sealer.now.packet.local) (P.opening ring.now.current.remote) }
    requires epoch { ring.now.ring.epoch ≡ 0 }
    ensures { IfOk result (λ opened. opened.packets ≡ count) }
{
    let mut buf = Vec::with_capacity(alloc, size as usize)?;
    let mut packets = 0;
    let mut sum = 0u64;
    for number in 0..count {
        match pass(alloc, sealer, opener, ring, number, size, &mut buf)? {
            Some(full) => {
                packets += 1;
                sum = sum.wrapping_add(full);
            }
            None => {}
        }
    }
    Ok(Opened { packets, sum })
}
