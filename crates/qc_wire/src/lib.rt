//! What goes over the wire between two QUIC endpoints: numbers, ids, packet headers, frames and
//! transport parameters, under one name. All that `frame` and `params` have, their laws too, stands
//! in modules of their own.
#![tactic(auto)]

pub use qc_base::{
    ArrayRangeSet, ConnectionId, Cut, Dir, Duration, EcnCodepoint, Fault, HeaderMask, Instant,
    IssuedCid, LongType, NumberRange, PacketNumber, ResetToken, Side, SpaceId, StreamId,
    SystemTime, TransportError, TransportErrorCode, VarInt, VarIntBoundsExceeded, constant_time,
    mask_comes_off, mask_packet, or_cut_back, put_mask, put_varint, read_blob, read_byte,
    read_bytes, read_u16, read_u32, read_u64, read_varint, sample, take_mask, unmask_packet,
    varint_size,
};
pub use qc_frame as frame;
pub use qc_header::{
    Header, InitialHeader, InitialPacket, Packet, PacketDecodeError, PartialDecode, PartialEncode,
    ProtectedHeader, ShortHeader, datagram_is_pieces, finish_short, fixed_bit_is_not_read,
    header_comes_back, header_is_read, leading_byte,
};
pub use qc_params as params;
pub use qc_params::{ParamError, PreferredAddress, TransportParameters};
