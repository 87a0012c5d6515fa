//! Taking header protection off (RFC 9001, section 5.4).

ghost use Rattle.std.specs.Prelude.{◌≡◌, ◌≢◌, ◌+◌, ◌<◌, ◌≤◌, ◌^◌, ◌⊎◌, ◌↔◌, ℕ, length, take, drop, IfOk, IfErr, IfSome, IfNone, IsErrOf, IsTrue, IsSome, IsNone};
ghost use Rattle.qc_base.specs.Mask.{unmasked, first_byte, number_len_in};
ghost use Rattle.qc_header.specs.declared.header.InitialHeader.{InitialHeader};
ghost use Rattle.qc_header.specs.Piece.{is_protected, token_end};
ghost use Rattle.qc_header.specs.Unprotected.{IsCut, masks_of, unprotected, header_end, header_from, number_from};

use crate::header::{Header, InitialHeader};
use crate::partial_decode::PartialDecode;
use crate::protected::{PacketDecodeError, ProtectedHeader};
use bytes::{Bytes, BytesMut};
use qc_base::{HeaderMask, PacketNumber, unmask_packet};
use std::alloc::AllocError;

/// A packet without header protection.
#[derive(Debug, Drop)]
pub struct Packet {
    /// Its header.
    pub header: Header,
    /// The header's bytes, up to and with the packet number.
    pub header_data: Bytes,
    /// What is behind the header.
    pub payload: BytesMut,
}

/// An Initial packet without header protection.
#[derive(Debug, Drop)]
pub struct InitialPacket {
    /// Its header.
    pub header: InitialHeader,
    /// The header's bytes, up to and with the packet number.
    pub header_data: Bytes,
    /// What is behind the header.
    pub payload: BytesMut,
}

impl InitialPacket {
    /// The packet as an Initial packet; None exactly where it has another form.
    pub fn from_packet(packet: Packet) -> Option<InitialPacket>
        ensures header { IfSome result (λ p. packet.header ≡ Header.Initial p.header) }
        ensures header_data { IfSome result (λ p. p.header_data ≡ packet.header_data) }
        ensures payload { IfSome result (λ p. p.payload ≡ packet.payload) }
        ensures none { IfNone result ((h : InitialHeader) → packet.header ≢ Header.Initial h) }
    {
        let Packet {
            header,
            header_data,
            payload,
        } = packet;
        match header {
            Header::Initial(header) => Some(InitialPacket {
                header,
                header_data,
                payload,
            }),
            Header::Long { .. }
            | Header::Retry { .. }
            | Header::Short { .. }
            | Header::VersionNegotiate { .. } => None,
        }
    }
}

/// The number that is spelled by these 1 to 4 bytes.
pub(crate) fn read_number(bytes: &[u8]) -> PacketNumber
    ensures { result ≡ number_from bytes.now }
{
    match bytes {
        [] => PacketNumber::U8(0),
        [a] => PacketNumber::U8(*a),
        [a, b] => PacketNumber::U16(256 * *a as u16 + *b as u16),
        [a, b, c] => PacketNumber::U24(65_536 * *a as u32 + 256 * *b as u32 + *c as u32),
        [a, b, c, d, ..] => PacketNumber::U32(
            16_777_216 * *a as u32 + 65_536 * *b as u32 + 256 * *c as u32 + *d as u32,
        ),
    }
}

/// The first byte, or 0 where there is none.
pub fn leading_byte(bytes: &[u8]) -> u8
    ensures { result ≡ first_byte bytes.now }
{
    match bytes {
        [] => 0,
        [first, ..] => *first,
    }
}

/// The whole header, whose number begins at `pn_offset` of the unprotected bytes `header_data`.
fn read_header(
    header: &ProtectedHeader,
    pn_offset: usize,
    header_data: &Bytes,
) -> Result<Header, AllocError>
    requires pn_offset { pn_offset ≤ length header_data.now }
    requires token { token_end header.now ≤ pn_offset }
    ensures { IfOk result (λ h. h ≡ header_from header.now pn_offset header_data.now) }
{
    let number = read_number(&header_data.as_slice()[pn_offset..]);
    match header {
        ProtectedHeader::Initial {
            dst_cid,
            src_cid,
            token_start,
            token_len,
            version,
        } => {
            let token = header_data.slice(*token_start..*token_start + *token_len)?;
            Ok(Header::Initial(InitialHeader {
                dst_cid: *dst_cid,
                src_cid: *src_cid,
                token,
                number,
                version: *version,
            }))
        }
        ProtectedHeader::Long {
            ty,
            dst_cid,
            src_cid,
            version,
        } => Ok(Header::Long {
            ty: *ty,
            dst_cid: *dst_cid,
            src_cid: *src_cid,
            number,
            version: *version,
        }),
        ProtectedHeader::Retry {
            dst_cid,
            src_cid,
            version,
        } => Ok(Header::Retry {
            dst_cid: *dst_cid,
            src_cid: *src_cid,
            version: *version,
        }),
        ProtectedHeader::Short { spin, dst_cid } => Ok(Header::Short {
            spin: *spin,
            key_phase: leading_byte(header_data.as_slice()) / 4 % 2 == 1,
            dst_cid: *dst_cid,
            number,
        }),
        ProtectedHeader::VersionNegotiate {
            random,
            src_cid,
            dst_cid,
        } => Ok(Header::VersionNegotiate {
            random: *random,
            src_cid: *src_cid,
            dst_cid: *dst_cid,
        }),
    }
}

/// Takes header protection off a packet whose number begins at `pn_offset`, and gives where its header
/// ends; None exactly where the packet is too short for a sample (RFC 9001, section 5.4.2), and then it
/// is as before.
pub(crate) fn unmask_header<H: HeaderMask>(
    key: &H,
    pn_offset: usize,
    packet: &mut [u8],
) -> Option<usize>
    ensures cut { IsNone result ↔ (length packet.old < pn_offset + 20) }
    ensures kept { IsNone result → packet.new ≡ packet.old }
    ensures unmasked { IsSome result → packet.new ≡ unmasked (H.mask_of key.now) pn_offset packet.old }
    ensures end { IfSome result (λ end. end ≡ pn_offset + number_len_in packet.new) }
    ensures begins { IfSome result (λ end. pn_offset ≤ end) }
    ensures fits { IfSome result (λ end. end ≤ length packet.new) }
{
    if packet.len() < 20 {
        return None;
    }
    if packet.len() - 20 < pn_offset {
        return None;
    }
    unmask_packet(key, pn_offset, packet);
    let tag = leading_byte(packet) % 4;
    Some(pn_offset + tag as usize + 1)
}

/// Takes header protection off a packet, if it is protected, and gives where its header ends; None exactly
/// where a protected packet is too short for a sample.
fn unprotect<H: HeaderMask>(
    header: &ProtectedHeader,
    pn_offset: usize,
    bytes: &mut BytesMut,
    key: Option<&H>,
) -> Option<usize>
    requires key { IsTrue (is_protected header.now) → IsSome key }
    requires fits { pn_offset ≤ length bytes.old.items }
    ensures cut { IsNone result ↔ IsCut (record { header = header.now; pn_offset = pn_offset; bytes = bytes.old.items }) }
    ensures unprotected { IsSome result → bytes.new.items
        ≡ unprotected (masks_of H.mask_of key.entry) (record { header = header.now; pn_offset = pn_offset; bytes = bytes.old.items }) }
    ensures end { IfSome result (λ end. end ≡ header_end (record { header = header.now; pn_offset = pn_offset; bytes = bytes.old.items }) bytes.new.items) }
    ensures begins { IfSome result (λ end. pn_offset ≤ end) }
    ensures fits { IfSome result (λ end. end ≤ length bytes.new.items) }
{
    if !header.is_protected() {
        return Some(pn_offset);
    }
    match key {
        Some(key) => { unmask_header(key, pn_offset, bytes.as_mut_slice()) }
        None => unreachable!(),
    }
}

impl PartialDecode {
    /// Takes the packet's header protection off with `key`, which a protected packet needs, and
    /// cuts the header from the payload. `InvalidHeader` exactly where a protected packet has fewer
    /// than 20 bytes from where its number begins on (RFC 9001, section 5.4.2).
    pub fn finish<H: HeaderMask>(self, key: Option<&H>) -> Result<Packet, PacketDecodeError>
        requires { IsTrue (is_protected self.header) → IsSome key }
        ensures cut { IsErrOf result PacketDecodeError.InvalidHeader ↔ IsCut self }
        ensures refused { IfErr result (λ e. (e ≡ PacketDecodeError.OutOfMemory)
            ⊎ (e ≡ PacketDecodeError.InvalidHeader)) }
        ensures header { IfOk result (λ p. p.header
            ≡ header_from self.header self.pn_offset p.header_data) }
        ensures header_data { IfOk result (λ p.
            let bytes = unprotected (masks_of H.mask_of key.entry) self in
            p.header_data ≡ take (header_end self bytes) bytes) }
        ensures payload { IfOk result (λ p.
            let bytes = unprotected (masks_of H.mask_of key.entry) self in
            p.payload.items ≡ drop (header_end self bytes) bytes) }
    {
        let PartialDecode {
            header,
            pn_offset,
            mut bytes,
        } = self;
        let end = unprotect(&header, pn_offset, &mut bytes, key);
        cut(&header, pn_offset, end, bytes)
    }
}

/// Cuts a packet without header protection where its header ends, if the packet was long enough.
fn cut(
    header: &ProtectedHeader,
    pn_offset: usize,
    end: Option<usize>,
    mut bytes: BytesMut,
) -> Result<Packet, PacketDecodeError>
    requires token { token_end header.now ≤ pn_offset }
    requires pn_offset { IfSome end (λ e. pn_offset ≤ e) }
    requires end { IfSome end (λ e. e ≤ length bytes.items) }
    ensures cut { IsErrOf result PacketDecodeError.InvalidHeader ↔ IsNone end }
    ensures refused { IfErr result (λ e. (e ≡ PacketDecodeError.OutOfMemory)
        ⊎ (e ≡ PacketDecodeError.InvalidHeader)) }
    ensures header { IfOk result (λ p. p.header ≡ header_from header.now pn_offset p.header_data) }
    ensures header_data { IfOk result (λ p. IfSome end (λ e. p.header_data ≡ take e bytes.items)) }
    ensures payload { IfOk result (λ p. IfSome end (λ e. p.payload.items ≡ drop e bytes.items)) }
{
    let end = match end {
        Some(end) => end,
        None => return Err(PacketDecodeError::InvalidHeader),
    };
    let header_data = match bytes.freeze_to(end) {
        Ok(header_data) => header_data,
        Err(_) => return Err(PacketDecodeError::OutOfMemory),
    };
    match read_header(header, pn_offset, &header_data) {
        Ok(header) => Ok(Packet {
            header,
            header_data,
            payload: bytes,
        }),
        Err(_) => Err(PacketDecodeError::OutOfMemory),
    }
}
