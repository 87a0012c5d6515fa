//! The headers of QUIC packets (RFC 9000, section 17): writing and reading them.
#![tactic(auto)]

mod datagram;
mod encode;
mod finish;
mod fixed_bit;
mod header;
mod partial_decode;
mod protected;
mod read;
mod round_trip;
mod short;

pub use datagram::datagram_is_pieces;
pub use encode::PartialEncode;
pub use finish::{InitialPacket, Packet, leading_byte};
pub use fixed_bit::fixed_bit_is_not_read;
pub use header::{Header, InitialHeader};
pub use partial_decode::{PartialDecode, ShortPiece};
pub use protected::{PacketDecodeError, ProtectedHeader};
pub use round_trip::{header_comes_back, header_is_read};
pub use short::{ShortHeader, finish_short};
