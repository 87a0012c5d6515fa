//! Building a packet: its header, its sizes, and its sealing (RFC 9001, section 5).

ghost use Rattle.std.specs.Prelude.{◌≡◌, ◌+◌, ◌-◌, ◌<◌, ◌≤◌, ◌^◌, ◌++◌, ℕ, List, Bool, [], length, replicate, nat_lt, max, vec_capacity, OnOk, OnErr, IfOk, IfErr, IfSome, IsSome, Some, None, Err};
ghost use Rattle.qc_base.specs.Time.{plus};
ghost use Rattle.qc_header.specs.declared.header.Header.{Header};
ghost use Rattle.qc_header.specs.HeaderSpelling.{header_spelling, header_number};
ghost use Rattle.qc_packet.specs.Building.{dst_cid_of, is_initial, is_short, pn_len, min_size_of, max_size_of, lacks_room, kill_of, sizes_of, builder_for, IsSound, IsReady, IsOf, end_of};
ghost use Rattle.qc_base.specs.Mask.{first_byte};
ghost use Rattle.qc_packet.specs.PacketSpelling.{len_of, header_bytes, with_flip, sealed_packet};
ghost use Rattle.qc_base.specs.Mask.{masked};
ghost use Rattle.qc_crypto.specs.Sealing.{sealed_in_place};

use crate::slot::{BuildError, Kill, Slot};
use qc_base::SpaceId;
use qc_crypto::{HeaderKey, PacketKey};
use qc_header::{Header, PartialEncode};
use std::alloc::AllocError;

/// The size of a packet's tag, in bytes (RFC 9001, section 5.3).
const TAG_LEN: usize = 16;

/// A packet whose header stands in a buffer, and whose frames are appended there.
#[derive(Clone, Copy, Debug, PartialEq, Eq)]
pub struct PacketBuilder {
    /// Its packet number space.
    pub space: SpaceId,
    /// Its full number.
    pub exact_number: u64,
    /// Whether it has a short header.
    pub short_header: bool,
    /// Where its payload ends at the earliest, the tag left out; padding fills it up.
    pub min_size: usize,
    /// Where its payload ends at the latest, the tag left out.
    pub max_size: usize,
    /// The size of its tag: 16.
    pub tag_len: usize,
    /// Whether it elicits an acknowledgement.
    pub ack_eliciting: bool,
    /// Where its datagram begins in the buffer.
    pub datagram_start: usize,
    start: usize,
    header_len: usize,
    pn_len: usize,
}

/// Where the payload of a packet ends in its buffer, the tag left out: at the earliest, so that padding fills it up, and at the
/// latest.
#[derive(Clone, Copy, Debug, PartialEq, Eq)]
pub struct PacketSizes {
    /// At the earliest.
    pub min_size: usize,
    /// At the latest.
    pub max_size: usize,
}

/// How many bytes the destination id of a header has.
fn dst_cid_len(header: &Header) -> usize
    ensures value { result ≡ length (dst_cid_of header.now) }
    ensures most { result ≤ 20 }
{
    match header {
        Header::Initial(initial) => initial.dst_cid.len(),
        Header::Long { dst_cid, .. } => dst_cid.len(),
        Header::Retry { dst_cid, .. } => dst_cid.len(),
        Header::Short { dst_cid, .. } => dst_cid.len(),
        Header::VersionNegotiate { dst_cid, .. } => dst_cid.len(),
    }
}

fn has_short_header(header: &Header) -> bool
    ensures { result ≡ is_short header.now }
{
    match header {
        Header::Short { .. } => true,
        Header::Initial(_)
        | Header::Long { .. }
        | Header::Retry { .. }
        | Header::VersionNegotiate { .. } => false,
    }
}

fn is_initial_header(header: &Header) -> bool
    ensures { result ≡ is_initial header.now }
{
    match header {
        Header::Initial(_) => true,
        Header::Long { .. }
        | Header::Short { .. }
        | Header::Retry { .. }
        | Header::VersionNegotiate { .. } => false,
    }
}

/// How many bytes the packet number of this header has, 0 where its form has none.
fn number_len(header: &Header) -> usize
    ensures value { result ≡ pn_len header.now }
    ensures most { result ≤ 4 }
    ensures least { IsSome (header_number header.now) → 1 ≤ result }
{
    match header.number() {
        Some(number) => number.len(),
        None => 0,
    }
}

/// Where the payload of a packet that begins at `start` ends at the earliest.
#[tactic(auto, unfolding(crate::specs::Building::min_size_of))]
fn min_size(start: usize, header: &Header) -> usize
    requires { start + length (header_spelling header.now 0) < 2 ^ 63 }
    ensures { result ≡ min_size_of start header.now }
{
    let header_end = start + header.encoded_len();
    let sample = header_end + (4 - number_len(header));
    let reset = start + dst_cid_len(header) + 6;
    sample.max(reset)
}

/// Where the payload of a packet that begins at `start` ends at the latest.
#[tactic(auto, unfolding(crate::specs::Building::max_size_of))]
fn max_size(start: usize, header: &Header, capacity: usize) -> usize
    requires { start + length (header_spelling header.now 0) < 2 ^ 63 }
    ensures { result ≡ max_size_of start header.now capacity }
{
    let within = capacity.saturating_sub(TAG_LEN);
    if has_short_header(header) {
        return within;
    }
    within.min(start + header.encoded_len() - number_len(header) + 16_367)
}

/// Whether fewer than 25 bytes are left for frames. The sum may exceed what memory holds.
#[tactic(auto, unfolding(crate::specs::Building::lacks_room, crate::specs::Building::min_size_of, crate::specs::Building::max_size_of))]
fn is_room_lacking(start: usize, header: &Header, capacity: usize) -> bool
    ensures { result ≡ lacks_room start header.now capacity }
{
    let header_end = start as u128 + header.encoded_len() as u128;
    let within = capacity.saturating_sub(TAG_LEN) as u128;
    let long = header_end - number_len(header) as u128 + 16_367;
    let max_size = if has_short_header(header) {
        within
    } else {
        within.min(long)
    };
    let sample = header_end + (4 - number_len(header)) as u128;
    let reset = start as u128 + dst_cid_len(header) as u128 + 6;
    max_size < sample.max(reset) || max_size - header_end < 25
}

/// Why a packet can't be begun.
#[tactic(auto, unfolding(crate::specs::Building::kill_of))]
fn kill(slot: &Slot, header: &Header, start: usize, capacity: usize) -> Option<Kill>
    ensures { result ≡ kill_of slot.now header.now start capacity }
{
    if slot.sealed >= slot.limit {
        return Some(Kill::KeyLimit);
    }
    if slot.number >= 0x3fff_ffff_ffff_ffff
        || slot.number as u128 >= slot.largest_acked as u128 + 0x8000_0000
    {
        return Some(Kill::NumberLimit);
    }
    if is_initial_header(header) && is_room_lacking(start, header, capacity) {
        return Some(Kill::TokenRoom);
    }
    None
}

/// Flips the fixed bit of a header that was written at the end of a buffer, where it should be.
fn flip_fixed_bit(flip: bool, header: &mut [u8])
    requires { 0x40 ≤ first_byte header.old }
    ensures { header.new ≡ with_flip flip header.old }
{
    if flip {
        header[0] -= 0x40;
    }
}

/// Writes a header at the end of a buffer, its fixed bit flipped or not.
#[tactic(auto, using(crate::proofs::Flips::fixed_bit_behind))]
fn put_header(flip: bool, header: &Header, buf: &mut Vec<u8>) -> Result<(), AllocError>
    ensures ok { OnOk result (buf.new.items ≡ buf.old.items ++ with_flip flip (header_spelling header.now 0)) }
    ensures err { OnErr result (buf.new.items ≡ buf.old.items) }
{
    let start = buf.len();
    let _ = header.encode(buf)?;
    let (_, written) = buf.as_mut_slice().split_at_mut(start);
    flip_fixed_bit(flip, written);
    Ok(())
}

/// Begins a packet in a buffer: writes its header.
#[tactic(auto, using(crate::proofs::Finishes::flip_len))]
fn begin(
    space: SpaceId,
    number: u64,
    flip: bool,
    header: &Header,
    buf: &mut Vec<u8>,
    capacity: usize,
    datagram_start: usize,
    ack_eliciting: bool,
) -> Result<PacketBuilder, AllocError>
    ensures header { OnOk result (buf.new.items ≡ buf.old.items ++ with_flip flip (header_spelling header.now 0)) }
    ensures builder { IfOk result (λ b. b ≡ builder_for space number header.now (length buf.old.items) capacity datagram_start ack_eliciting) }
    ensures begun { IfOk result (λ b. b.start + b.header_len ≡ length buf.new.items) }
    ensures sound { IfOk result (λ b. IsSome (header_number header.now) → IsSound b) }
    ensures err { OnErr result (buf.new.items ≡ buf.old.items) }
{
    let start = buf.len();
    put_header(flip, header, buf)?;
    Ok(PacketBuilder {
        space,
        exact_number: number,
        short_header: has_short_header(header),
        min_size: min_size(start, header),
        max_size: max_size(start, header, capacity),
        tag_len: TAG_LEN,
        ack_eliciting,
        datagram_start,
        start,
        header_len: header.encoded_len(),
        pn_len: number_len(header),
    })
}

/// Fills a buffer up with zeros to `end` bytes, for which it has room.
#[tactic(auto, using(crate::proofs::Sealed::filled))]
fn fill(buf: &mut Vec<u8>, end: usize)
    requires longer { length buf.old.items ≤ end }
    requires room { end ≤ vec_capacity buf.old }
    ensures bytes { buf.new.items ≡ buf.old.items ++ replicate (end - length buf.old.items) 0 }
    ensures full { length buf.new.items ≡ end }
    ensures capacity { vec_capacity buf.old ≤ vec_capacity buf.new }
{
    let _ = buf.resize(end, 0);
}

/// Writes the Length field of the header that a packet begins with, where its form has one.
fn set_length_field(header_len: usize, pn_len: usize, length_field: u16, packet: &mut [u8])
    requires { length_field < 2 ^ 14 }
    ensures { (flip : Bool) (h : Header) (behind : List ℕ) → header_len ≡ length (header_spelling h 0) → pn_len ≡ len_of (header_number h) → 1 ≤ pn_len
        → packet.old ≡ with_flip flip (header_spelling h 0) ++ behind
        → packet.new ≡ with_flip flip (header_spelling h length_field) ++ behind }
{
    let header = PartialEncode {
        start: 0,
        header_len,
        pn_len: Some(pn_len),
    };
    header.set_length(packet, length_field);
}

/// Seals and masks a packet in the slice that holds it: its header, its plain payload and room for the tag.
fn protect<H: HeaderKey, P: PacketKey>(
    header_key: &H,
    packet_key: &P,
    number: u64,
    header_len: usize,
    pn_offset: usize,
    packet: &mut [u8],
)
    requires sample { pn_offset + 20 ≤ length packet.old }
    requires tag { header_len + 16 ≤ length packet.old }
    ensures { packet.new ≡ masked (H.mask_of header_key.now) pn_offset (sealed_in_place (P.seal packet_key.now) number packet.old header_len) }
{
    packet_key.encrypt(number, packet, header_len);
    header_key.encrypt(pn_offset, packet);
}

/// Completes the header of a packet, seals it and masks it, in the slice that holds it.
fn seal_slice<H: HeaderKey, P: PacketKey>(
    header_key: &H,
    packet_key: &P,
    builder: &PacketBuilder,
    length_field: u16,
    packet: &mut [u8],
)
    requires field { length_field < 2 ^ 14 }
    requires number { builder.now.pn_len ≤ builder.now.header_len }
    requires sample { builder.now.header_len + 20 ≤ length packet.old + builder.now.pn_len }
    requires tag { builder.now.header_len + 16 ≤ length packet.old }
    ensures { (flip : Bool) (h : Header) (plain : List ℕ) → IsOf builder.now h → header_spelling h length_field ≡ header_bytes h plain
        → packet.old ≡ with_flip flip (header_spelling h 0) ++ (plain ++ replicate 16 0)
        → packet.new ≡ sealed_packet (H.mask_of header_key.now) (P.seal packet_key.now) flip h builder.now.exact_number plain }
{
    set_length_field(builder.header_len, builder.pn_len, length_field, packet);
    protect(
        header_key,
        packet_key,
        builder.exact_number,
        builder.header_len,
        builder.header_len - builder.pn_len,
        packet,
    );
}

/// The same for a packet that begins where the builder says.
fn seal_behind<H: HeaderKey, P: PacketKey>(
    header_key: &H,
    packet_key: &P,
    builder: &PacketBuilder,
    length_field: u16,
    bytes: &mut [u8],
)
    requires field { length_field < 2 ^ 14 }
    requires number { builder.now.pn_len ≤ builder.now.header_len }
    requires sample { builder.now.start + builder.now.header_len + 20 ≤ length bytes.old + builder.now.pn_len }
    requires tag { builder.now.start + builder.now.header_len + 16 ≤ length bytes.old }
    ensures { (before : List ℕ) (flip : Bool) (h : Header) (plain : List ℕ) → builder.now.start ≡ length before → IsOf builder.now h
        → header_spelling h length_field ≡ header_bytes h plain
        → bytes.old ≡ before ++ (with_flip flip (header_spelling h 0) ++ (plain ++ replicate 16 0))
        → bytes.new ≡ before ++ sealed_packet (H.mask_of header_key.now) (P.seal packet_key.now) flip h builder.now.exact_number plain }
{
    let (_, packet) = bytes.split_at_mut(builder.start);
    seal_slice(header_key, packet_key, builder, length_field, packet);
}

impl PacketBuilder {
    /// Why no packet with this header can be begun at `start` in a datagram that may reach `capacity`: None exactly where
    /// [`PacketBuilder::new`] refuses it for want of memory alone. Takes no memory and writes nothing.
    pub fn kill(slot: &Slot, header: &Header, start: usize, capacity: usize) -> Option<Kill>
        ensures { result ≡ kill_of slot.now header.now start capacity }
    {
        kill(slot, header, start, capacity)
    }

    /// The sizes of a packet with this header that begins at `start` in a datagram that may reach `capacity`. Takes no memory
    /// and writes nothing.
    pub fn sizes(header: &Header, start: usize, capacity: usize) -> PacketSizes
        requires { start + length (header_spelling header.now 0) < 2 ^ 63 }
        ensures { result ≡ sizes_of start header.now capacity }
    {
        PacketSizes {
            min_size: min_size(start, header),
            max_size: max_size(start, header, capacity),
        }
    }

    /// Begins a packet at the end of a buffer: writes its header there. A datagram may fill the buffer up to
    /// `capacity`, and begins at `datagram_start`.
    ///
    /// # Errors
    ///
    /// `Kill` exactly where no packet like it can be begun: `KeyLimit`, else `NumberLimit`, else, for an
    /// Initial packet, `TokenRoom`. Else `OutOfMemory`. The buffer is then as before.
    pub fn new(
        slot: &Slot,
        header: &Header,
        buf: &mut Vec<u8>,
        capacity: usize,
        datagram_start: usize,
        ack_eliciting: bool,
    ) -> Result<PacketBuilder, BuildError>
        ensures kill { IfSome (kill_of slot.now header.now (length buf.old.items) capacity) (λ k. result ≡ Err (BuildError.Kill k)) }
        ensures memory { kill_of slot.now header.now (length buf.old.items) capacity ≡ None → IfErr result (λ e. e ≡ BuildError.OutOfMemory) }
        ensures refused { OnErr result (buf.new.items ≡ buf.old.items) }
        ensures header { OnOk result (buf.new.items ≡ buf.old.items ++ with_flip slot.now.flip (header_spelling header.now 0)) }
        ensures builder { IfOk result (λ b. b ≡ builder_for slot.now.space slot.now.number header.now (length buf.old.items) capacity datagram_start ack_eliciting) }
        ensures begun { IfOk result (λ b. b.start + b.header_len ≡ length buf.new.items) }
        ensures sound { IfOk result (λ b. IsSome (header_number header.now) → IsSound b) }
    {
        if let Some(kill) = kill(slot, header, buf.len(), capacity) {
            return Err(BuildError::Kill(kill));
        }
        let builder = begin(
            slot.space,
            slot.number,
            slot.flip,
            header,
            buf,
            capacity,
            datagram_start,
            ack_eliciting,
        )?;
        Ok(builder)
    }

    /// Asks for a datagram of at least `min_size` bytes, tag and all: the packet is padded so far. Below 16
    /// bytes that is nothing.
    pub fn pad_to(&mut self, min_size: u16)
        ensures size { self.new ≡ record self.old { min_size = max self.old.min_size (plus self.old.datagram_start (min_size - 16)) } }
        ensures sound { IsSound self.old → IsSound self.new }
    {
        let end = self
            .datagram_start
            .saturating_add((min_size as usize).saturating_sub(TAG_LEN));
        self.min_size = self.min_size.max(end);
    }

    /// Finishes the packet, whose frames were appended to the buffer: pads it with zeros, sets its Length
    /// field, seals it and masks it. Answers how many bytes it has, and whether it was padded. Want of memory
    /// is the only refusal, and the buffer is then as before.
    pub fn finish<H: HeaderKey, P: PacketKey>(
        self,
        header_key: &H,
        packet_key: &P,
        buf: &mut Vec<u8>,
    ) -> Result<(usize, bool), AllocError>
        requires { IsReady self (length buf.old.items) }
        ensures packet { OnOk result ((before : List ℕ) (flip : Bool) (h : Header) (plain : List ℕ) → self.start ≡ length before → IsOf self h
            → buf.old.items ≡ before ++ (with_flip flip (header_spelling h 0) ++ plain)
            → buf.new.items ≡ before ++ sealed_packet (H.mask_of header_key.now) (P.seal packet_key.now) flip h self.exact_number
            (plain ++ replicate (self.min_size - length buf.old.items) 0)) }
        ensures end { OnOk result (length buf.new.items ≡ end_of self (length buf.old.items) + 16) }
        ensures size { IfOk result (λ r. r.0 + self.start ≡ length buf.new.items) }
        ensures padded { IfOk result (λ r. r.1 ≡ nat_lt (length buf.old.items) self.min_size) }
        ensures err { OnErr result (buf.new.items ≡ buf.old.items) }
    {
        let len = buf.len();
        let end = len.max(self.min_size) + TAG_LEN;
        buf.reserve(end - len)?;
        Ok(self.finish_reserved(header_key, packet_key, buf))
    }

    /// Finishes the packet as [`PacketBuilder::finish`] does, in a buffer that has room for its padding and its tag. It refuses
    /// nothing, and keeps the buffer's room.
    pub fn finish_reserved<H: HeaderKey, P: PacketKey>(
        self,
        header_key: &H,
        packet_key: &P,
        buf: &mut Vec<u8>,
    ) -> (usize, bool)
        requires ready { IsReady self (length buf.old.items) }
        requires room { end_of self (length buf.old.items) + 16 ≤ vec_capacity buf.old }
        ensures packet { (before : List ℕ) (flip : Bool) (h : Header) (plain : List ℕ) → self.start ≡ length before → IsOf self h
            → buf.old.items ≡ before ++ (with_flip flip (header_spelling h 0) ++ plain)
            → buf.new.items ≡ before ++ sealed_packet (H.mask_of header_key.now) (P.seal packet_key.now) flip h self.exact_number
            (plain ++ replicate (self.min_size - length buf.old.items) 0) }
        ensures end { length buf.new.items ≡ end_of self (length buf.old.items) + 16 }
        ensures size { result.0 + self.start ≡ length buf.new.items }
        ensures padded { result.1 ≡ nat_lt (length buf.old.items) self.min_size }
        ensures capacity { vec_capacity buf.old ≤ vec_capacity buf.new }
    {
        let len = buf.len();
        let end = len.max(self.min_size) + TAG_LEN;
        fill(buf, end);
        let behind = end + self.pn_len - (self.start + self.header_len);
        let length_field = behind.min(16_383) as u16;
        seal_behind(
            header_key,
            packet_key,
            &self,
            length_field,
            buf.as_mut_slice(),
        );
        (end - self.start, len < self.min_size)
    }
}
