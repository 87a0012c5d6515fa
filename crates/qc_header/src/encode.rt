//! Writing headers (RFC 9000, section 17).

ghost use Rattle.std.specs.Prelude.{◌≡◌, ◌+◌, ◌^◌, ◌<◌, ◌≤◌, ℕ, List, ◌++◌, ◌∷◌, [], nat_lt, take, length, vec_len, OnOk, OnErr, IfOk, IfSome};
ghost use Rattle.std.specs.Option.{option_map};
ghost use Rattle.qc_base.specs.Mask.{first_byte};
ghost use Rattle.qc_base.specs.PacketNumber.{number_len};
ghost use Rattle.qc_base.specs.Spelling.{bit};
ghost use Rattle.qc_header.specs.HeaderSpelling.{header_spelling, header_number, header_most, initial_spelling, short_spelling, length_and_number, long_start, number_tag};
ghost use Rattle.qc_header.specs.SetLength.{length_place, with_length, begun_by, IsPlaceOf};

use crate::finish::leading_byte;
use crate::header::{Header, InitialHeader};
use qc_base::{ConnectionId, LongType, PacketNumber, or_cut_back, put_varint, varint_size};
use std::alloc::AllocError;

/// Where a header was written that is not yet protected.
#[derive(Clone, Copy, Debug, PartialEq, Eq)]
pub struct PartialEncode {
    /// The place of its first byte.
    pub start: usize,
    /// How many bytes it has.
    pub header_len: usize,
    /// How many bytes its packet number has; None where its form has no number.
    pub pn_len: Option<usize>,
}

impl PartialEncode {
    /// Where the Length field begins in `bytes`, if the header's form has one.
    #[tactic(auto, unfolding(crate::specs::SetLength::length_place))]
    fn length_place(self, bytes: &[u8]) -> Option<usize>
        ensures place { result ≡ length_place self bytes.now }
        ensures within { IfSome result (λ place. place + 2 ≤ length bytes.now) }
    {
        let pn_len = self.pn_len?;
        if bytes.len() < self.start {
            return None;
        }
        let header = &bytes[self.start..];
        if leading_byte(header) < 0x80 || header.len() < self.header_len {
            return None;
        }
        if self.header_len < pn_len || self.header_len - pn_len < 3 {
            return None;
        }
        Some(self.start + (self.header_len - pn_len - 2))
    }

    /// Writes the Length field over the one that is there.
    #[tactic(auto, unfolding(crate::specs::SetLength::with_length))]
    fn put_length(self, buf: &mut [u8], length_field: u16)
        requires { length_field < 2 ^ 14 }
        ensures { buf.new ≡ with_length self length_field buf.old }
    {
        if let Some(place) = self.length_place(buf) {
            buf[place..place + 2].copy_from_slice(&(0x4000 + length_field).to_be_bytes());
        }
    }

    /// Sets the Length field of the header that stands at its place in `buf`: how many bytes number,
    /// payload and tag have (RFC 9000, section 17.2). All other bytes stay. Nothing is changed where
    /// the form has no Length field (1-RTT, Retry, Version Negotiation), nor where `buf` ends before
    /// the header does.
    ///
    /// The fixed bit may have been flipped since the header was written (RFC 9287).
    pub fn set_length(self, buf: &mut [u8], length_field: u16)
        requires { length_field < 2 ^ 14 }
        ensures bytes { buf.new ≡ with_length self length_field buf.old }
        ensures header { (h : Header) (was : ℕ) (before behind : List ℕ) → IsPlaceOf self before h
            → buf.old ≡ before ++ header_spelling h was ++ behind
            → buf.new ≡ before ++ header_spelling h length_field ++ behind }
        ensures flipped { (h : Header) (was first : ℕ) (before behind : List ℕ) → IsPlaceOf self before h
            → nat_lt first 128 ≡ nat_lt (first_byte (header_spelling h 0)) 128
            → buf.old ≡ before ++ begun_by first (header_spelling h was) ++ behind
            → buf.new ≡ before ++ begun_by first (header_spelling h length_field) ++ behind }
    {
        self.put_length(buf, length_field);
    }
}

/// Appends what every long header begins with.
#[tactic(auto, unfolding(crate::specs::HeaderSpelling::long_start))]
fn put_long_start(
    out: &mut Vec<u8>,
    first: u8,
    version: u32,
    dst_cid: &ConnectionId,
    src_cid: &ConnectionId,
) -> Result<(), AllocError>
    ensures ok { OnOk result (out.new.items ≡ out.old.items ++ long_start first version dst_cid.now src_cid.now) }
    ensures kept { take (length out.old.items) out.new.items ≡ out.old.items }
{
    out.extend_from_slice(&[first])?;
    out.extend_from_slice(&version.to_be_bytes())?;
    out.extend_from_slice(&[dst_cid.len() as u8])?;
    out.extend_from_slice(dst_cid.as_slice())?;
    out.extend_from_slice(&[src_cid.len() as u8])?;
    out.extend_from_slice(src_cid.as_slice())
}

/// How many bytes that is.
#[tactic(auto, unfolding(crate::specs::HeaderSpelling::long_start))]
fn long_start_len(dst_cid: &ConnectionId, src_cid: &ConnectionId) -> usize
    ensures value { (first version : ℕ) → result ≡ length (long_start first version dst_cid.now src_cid.now) }
    ensures most { result ≤ 47 }
{
    1 + 4 + 1 + dst_cid.len() + 1 + src_cid.len()
}

/// Appends the Length field and the packet number.
#[tactic(auto, unfolding(crate::specs::HeaderSpelling::length_and_number))]
fn put_length_and_number(
    out: &mut Vec<u8>,
    length_field: u16,
    number: PacketNumber,
) -> Result<(), AllocError>
    requires { length_field < 2 ^ 14 }
    ensures ok { OnOk result (out.new.items ≡ out.old.items ++ length_and_number length_field number) }
    ensures kept { take (vec_len out.old) out.new.items ≡ out.old.items }
{
    out.extend_from_slice(&(0x4000 + length_field).to_be_bytes())?;
    number.encode(out)
}

/// How many bytes these are.
#[tactic(auto, unfolding(crate::specs::HeaderSpelling::length_and_number))]
fn length_and_number_len(number: PacketNumber) -> usize
    ensures value { (n : ℕ) → result ≡ length (length_and_number n number) }
    ensures most { result ≤ 6 }
    ensures behind { number_len number < result }
{
    2 + number.len()
}

/// The two lowest bits of a first byte.
fn tag_of(number: PacketNumber) -> u8
    ensures value { result ≡ number_tag number }
    ensures range { result < 4 }
{
    (number.len() - 1) as u8
}

/// Appends the header of an Initial packet.
#[tactic(auto, unfolding(crate::specs::HeaderSpelling::initial_spelling))]
fn put_initial(
    out: &mut Vec<u8>,
    header: &InitialHeader,
    length_field: u16,
) -> Result<(), AllocError>
    requires { length_field < 2 ^ 14 }
    ensures ok { OnOk result (out.new.items ≡ out.old.items ++ initial_spelling header.now length_field) }
    ensures kept { take (vec_len out.old) out.new.items ≡ out.old.items }
{
    let first = 0xc0 + tag_of(header.number);
    put_long_start(out, first, header.version, &header.dst_cid, &header.src_cid)?;
    put_varint(out, header.token.len() as u64)?;
    out.extend_from_slice(header.token.as_slice())?;
    put_length_and_number(out, length_field, header.number)
}

/// How many bytes the header of an Initial packet has.
#[tactic(auto, unfolding(crate::specs::HeaderSpelling::initial_spelling))]
fn initial_len(header: &InitialHeader) -> usize
    ensures len { (n : ℕ) → result ≡ length (initial_spelling header.now n) }
    ensures behind { number_len header.now.number < result }
    ensures most { result ≤ 61 + length header.now.token }
{
    let token_len = header.token.len();
    let start_len = long_start_len(&header.dst_cid, &header.src_cid);
    start_len + varint_size(token_len as u64) + token_len + length_and_number_len(header.number)
}

/// Appends a header of a 0-RTT or Handshake packet.
#[tactic(auto, unfolding(crate::specs::HeaderSpelling::header_spelling))]
fn put_long(
    out: &mut Vec<u8>,
    ty: LongType,
    dst_cid: &ConnectionId,
    src_cid: &ConnectionId,
    number: PacketNumber,
    version: u32,
    length_field: u16,
) -> Result<(), AllocError>
    requires { length_field < 2 ^ 14 }
    ensures ok { OnOk result (out.new.items
        ≡ out.old.items ++ header_spelling (Header.Long ty dst_cid.now src_cid.now number version) length_field) }
    ensures kept { take (vec_len out.old) out.new.items ≡ out.old.items }
{
    let first = match ty {
        LongType::ZeroRtt => 0xd0,
        LongType::Handshake => 0xe0,
    };
    put_long_start(out, first + tag_of(number), version, dst_cid, src_cid)?;
    put_length_and_number(out, length_field, number)
}

/// The first byte of a 1-RTT packet.
fn short_first(spin: bool, key_phase: bool, number: PacketNumber) -> u8
    ensures { result ≡ 0x40 + bit spin 0x20 + bit key_phase 0x04 + number_tag number }
{
    let spin = if spin { 0x20 } else { 0 };
    let key_phase = if key_phase { 0x04 } else { 0 };
    0x40 + spin + key_phase + tag_of(number)
}

/// Appends the header of a 1-RTT packet.
#[tactic(auto, unfolding(crate::specs::HeaderSpelling::short_spelling))]
fn put_short(
    out: &mut Vec<u8>,
    spin: bool,
    key_phase: bool,
    dst_cid: &ConnectionId,
    number: PacketNumber,
) -> Result<(), AllocError>
    ensures ok { OnOk result (out.new.items ≡ out.old.items ++ short_spelling spin key_phase dst_cid.now number) }
    ensures kept { take (vec_len out.old) out.new.items ≡ out.old.items }
{
    out.extend_from_slice(&[short_first(spin, key_phase, number)])?;
    out.extend_from_slice(dst_cid.as_slice())?;
    number.encode(out)
}

/// Appends a header, its Length field being `length_field`.
#[tactic(auto, unfolding(crate::specs::HeaderSpelling::header_spelling))]
fn put_header(out: &mut Vec<u8>, header: &Header, length_field: u16) -> Result<(), AllocError>
    requires { length_field < 2 ^ 14 }
    ensures ok { OnOk result (out.new.items ≡ out.old.items ++ header_spelling header.now length_field) }
    ensures kept { take (vec_len out.old) out.new.items ≡ out.old.items }
{
    match header {
        Header::Initial(initial) => put_initial(out, initial, length_field),
        Header::Long {
            ty,
            dst_cid,
            src_cid,
            number,
            version,
        } => put_long(out, *ty, dst_cid, src_cid, *number, *version, length_field),
        Header::Retry {
            dst_cid,
            src_cid,
            version,
        } => put_long_start(out, 0xf0, *version, dst_cid, src_cid),
        Header::Short {
            spin,
            key_phase,
            dst_cid,
            number,
        } => put_short(out, *spin, *key_phase, dst_cid, *number),
        Header::VersionNegotiate {
            random,
            src_cid,
            dst_cid,
        } => put_long_start(out, 0x80 + *random % 0x80, 0, dst_cid, src_cid),
    }
}

impl Header {
    /// Its packet number, where its form has one.
    pub fn number(&self) -> Option<PacketNumber>
        ensures { result ≡ header_number self.now }
    {
        match self {
            Header::Initial(initial) => Some(initial.number),
            Header::Long { number, .. } => Some(*number),
            Header::Short { number, .. } => Some(*number),
            Header::Retry { .. } | Header::VersionNegotiate { .. } => None,
        }
    }

    /// Appends the header without header protection. Its Length field, where the form has one,
    /// is written as 0 in its two bytes. After want of memory `buf` is as before.
    pub fn encode(&self, buf: &mut Vec<u8>) -> Result<PartialEncode, AllocError>
        ensures ok { OnOk result (buf.new.items ≡ buf.old.items ++ header_spelling self.now 0) }
        ensures err { OnErr result (buf.new.items ≡ buf.old.items) }
        ensures start { IfOk result (λ p. p.start ≡ length buf.old.items) }
        ensures header_len { IfOk result (λ p. p.header_len ≡ length (header_spelling self.now 0)) }
        ensures pn_len { IfOk result (λ p. p.pn_len ≡ option_map number_len (header_number self.now)) }
    {
        self.encode_sized(0, buf)
    }

    /// Appends the header without header protection, its Length field, where the form has one,
    /// being `length_field`: how many bytes number, payload and tag have (RFC 9000, section 17.2). After
    /// want of memory `buf` is as before.
    pub fn encode_sized(
        &self,
        length_field: u16,
        buf: &mut Vec<u8>,
    ) -> Result<PartialEncode, AllocError>
        requires { length_field < 2 ^ 14 }
        ensures ok { OnOk result (buf.new.items ≡ buf.old.items ++ header_spelling self.now length_field) }
        ensures err { OnErr result (buf.new.items ≡ buf.old.items) }
        ensures start { IfOk result (λ p. p.start ≡ length buf.old.items) }
        ensures header_len { IfOk result (λ p. p.header_len ≡ length (header_spelling self.now length_field)) }
        ensures pn_len { IfOk result (λ p. p.pn_len ≡ option_map number_len (header_number self.now)) }
    {
        let start = buf.len();
        or_cut_back(put_header(buf, self, length_field), buf, start)?;
        let pn_len = match self.number() {
            Some(number) => Some(number.len()),
            None => None,
        };
        Ok(PartialEncode {
            start,
            header_len: buf.len() - start,
            pn_len,
        })
    }

    /// How many bytes the header has, whatever its Length field says.
    #[tactic(auto, unfolding(crate::specs::HeaderSpelling::header_spelling, crate::specs::HeaderSpelling::short_spelling))]
    pub fn encoded_len(&self) -> usize
        ensures len { (n : ℕ) → result ≡ length (header_spelling self.now n) }
        ensures behind { IfSome (header_number self.now) (λ number. number_len number < result) }
        ensures most { result ≤ header_most self.now }
    {
        match self {
            Header::Initial(initial) => initial_len(initial),
            Header::Long {
                dst_cid,
                src_cid,
                number,
                ..
            } => long_start_len(dst_cid, src_cid) + length_and_number_len(*number),
            Header::Short {
                dst_cid,
                number,
                ..
            } => 1 + dst_cid.len() + number.len(),
            Header::Retry {
                dst_cid,
                src_cid,
                ..
            }
            | Header::VersionNegotiate {
                dst_cid,
                src_cid,
                ..
            } => long_start_len(dst_cid, src_cid),
        }
    }
}
