//! Taking header protection off a 1-RTT packet where it stands (RFC 9001, section 5.4).

ghost use Rattle.std.specs.Prelude.{◌≡◌, ◌+◌, ◌/◌, ◌%◌, ◌<◌, ◌≤◌, ◌↔◌, List, ℕ, length, take, IfSome, IsSome, IsNone};
ghost use Rattle.qc_base.specs.Mask.{first_byte, unmasked};
ghost use Rattle.qc_header.specs.Unprotected.{IsCut, header_end, header_from, short_packet, unprotected};
ghost use Rattle.qc_header.specs.declared.header.Header.TheVariants as open_header;
ghost use Rattle.qc_header.specs.declared.protected.ProtectedHeader.TheVariants.{Short};

use crate::finish::{leading_byte, read_number, unmask_header};
use qc_base::{HeaderMask, PacketNumber};

/// A short header without header protection (RFC 9000, section 17.3.1), but for its connection id,
/// whose length its reader chose.
#[derive(Clone, Copy, Debug, PartialEq, Eq)]
pub struct ShortHeader {
    /// The latency spin bit (RFC 9000, section 17.4), which header protection leaves readable.
    pub spin: bool,
    /// The two reserved bits. They are 0 in each packet that keeps the rules; where they aren't, a
    /// receiver whose key opens the packet closes the connection with PROTOCOL_VIOLATION.
    pub reserved_bits: u8,
    /// The key phase, which tells the keys of one update from those of the next (RFC 9001, section 6).
    pub key_phase: bool,
    /// The packet number's lowest bytes.
    pub number: PacketNumber,
    /// How many bytes the header has, up to and with the packet number.
    pub len: usize,
}

/// The fields of the header `head`, whose number begins at `pn_offset`, of a packet with this spin bit.
fn short_header(spin: bool, pn_offset: usize, head: &[u8]) -> ShortHeader
    requires { pn_offset ≤ length head.now }
    ensures header { (dst_cid : List ℕ)
        → open_header.Short result.spin result.key_phase dst_cid result.number ≡ header_from (Short spin dst_cid) pn_offset head.now }
    ensures reserved_bits { result.reserved_bits ≡ first_byte head.now / 8 % 4 }
    ensures len { result.len ≡ length head.now }
{
    let first = leading_byte(head);
    ShortHeader {
        spin,
        reserved_bits: first / 8 % 4,
        key_phase: first / 4 % 2 == 1,
        number: read_number(&head[pn_offset..]),
        len: head.len(),
    }
}

/// Takes the header protection off a 1-RTT packet in place with `key`, and gives its header, which
/// takes no memory: it is what [`PartialDecode::finish`](crate::PartialDecode::finish) makes of the
/// same packet. The packet number begins at `pn_offset`, one byte behind the connection id's length.
///
/// None exactly where the packet has fewer than 20 bytes from there on (RFC 9001, section 5.4.2); then
/// it is as before.
pub fn finish_short<H: HeaderMask>(
    key: &H,
    pn_offset: usize,
    packet: &mut [u8],
) -> Option<ShortHeader>
    ensures cut { (dst_cid : List ℕ) → IsNone result ↔ IsCut (short_packet dst_cid pn_offset packet.old) }
    ensures kept { IsNone result → packet.new ≡ packet.old }
    ensures unprotected { (dst_cid : List ℕ) → IsSome result
        → packet.new ≡ unprotected (H.mask_of key.now) (short_packet dst_cid pn_offset packet.old) }
    ensures header { (dst_cid : List ℕ) → IfSome result (λ h.
        let p = short_packet dst_cid pn_offset packet.old in
        open_header.Short h.spin h.key_phase dst_cid h.number ≡ header_from p.header pn_offset (take (header_end p packet.new) packet.new)) }
    ensures reserved_bits { IfSome result (λ h. h.reserved_bits ≡ first_byte packet.new / 8 % 4) }
    ensures len { (dst_cid : List ℕ) → IfSome result (λ h. h.len ≡ header_end (short_packet dst_cid pn_offset packet.old) packet.new) }
    ensures begins { IfSome result (λ h. pn_offset < h.len) }
    ensures most { IfSome result (λ h. h.len ≤ pn_offset + 4) }
    ensures fits { IfSome result (λ h. h.len ≤ length packet.new) }
{
    let spin = leading_byte(packet) / 32 % 2 == 1;
    match unmask_header(key, pn_offset, packet) {
        None => None,
        Some(end) => Some(short_header(spin, pn_offset, &packet[..end])),
    }
}
