//! What is sealed arrives: laws over the definitions, for callers' proofs.

ghost use Rattle.std.specs.Prelude.{◌≡◌, ℕ, true, Bool, List, Option, Some};
ghost use Rattle.qc_base.specs.Mask.{first_byte};
ghost use Rattle.qc_crypto.specs.Mates.{OpensItsPackets};
ghost use Rattle.qc_header.specs.declared.finish.Packet.{Packet};
ghost use Rattle.qc_header.specs.declared.header.Header.{Header};
ghost use Rattle.qc_header.specs.HeaderSpelling.{header_number};
ghost use Rattle.qc_header.specs.Pieces.{pieces_of};
ghost use Rattle.qc_packet.specs.Arrival.{CanArrive, Arrives, IsSealed, IsInReach, HasKey, arrival_answer, SealedAs, AllCanArrive, coalesced, pieces_as};
ghost use Rattle.qc_packet.specs.declared.decrypt.OpenKeys.{OpenKeys};
ghost use Rattle.qc_packet.specs.OpenedPacket.{IsNumberOf, opened_payload, opening_answer};
ghost use Rattle.qc_rings.specs.Keyed.{Keyed};

use qc_crypto::PacketKey;

/// A packet that was sealed and masked comes back, its fixed bit flipped or not, at a reader that takes it so
/// (RFC 9287). At the front of its datagram its receiver finds it, whatever is behind; under the same mask header
/// and sealed payload come out; its full number is the one that it was sealed with, where that lies within half a
/// window of the one after the greatest received (RFC 9000, appendix A.3); a key that opens what the sealer's
/// seals gives the plain payload; and it is taken, unless it begins a key update that the peer wasn't allowed to
/// make.
pub fn sealed_packet_arrives<P: PacketKey>()
    ensures arrives { (mask : List ℕ → List ℕ) (sealer : P) (local_cid_len : ℕ) (versions : List ℕ) (grease_quic_bit flip : Bool) (h : Header) (number : ℕ) (plain rest : List ℕ)
        → CanArrive local_cid_len versions grease_quic_bit flip h plain rest
        → Arrives mask (P.seal sealer) local_cid_len versions grease_quic_bit flip h number plain rest }
    ensures number { (h : Header) (rx number : ℕ) → IsInReach (header_number h) rx number → IsNumberOf (header_number h) rx number }
    ensures opened { (sealer opener : P) (flip : Bool) (h : Header) (number : ℕ) (plain : List ℕ) (p : Packet) (keys : OpenKeys P)
        → OpensItsPackets (P.seal sealer) (P.opening opener) → IsSealed (P.seal sealer) flip h number plain p → HasKey keys h number opener
        → opened_payload P.opening p keys number ≡ Some plain }
    ensures taken { (sealer : P) (flip : Bool) (h : Header) (number rx : ℕ) (plain : List ℕ) (p : Packet) (ring : Option (Keyed P)) → IsNumberOf (header_number h) rx number → IsSealed (P.seal sealer) flip h number plain p
        → opening_answer p.header (first_byte p.header_data) ring rx number true ≡ arrival_answer h ring rx number }
{}

/// A datagram of such packets, with nothing between or behind them, is cut into these and nothing else (RFC 9000,
/// section 12.2).
pub fn coalesced_packets_arrive<P: PacketKey>()
    ensures { (local_cid_len : ℕ) (versions : List ℕ) (grease_quic_bit : Bool) (packets : List (SealedAs P)) → AllCanArrive P.seal local_cid_len versions grease_quic_bit packets
        → pieces_of local_cid_len versions grease_quic_bit (coalesced P.seal packets) ≡ pieces_as P.seal packets }
{}
