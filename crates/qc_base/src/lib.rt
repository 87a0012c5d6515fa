//! The numbers, names and small types that every part of a QUIC connection speaks of.
#![tactic(auto)]

pub mod constant_time;
mod ecn;
mod fault;
mod ids;
mod mask;
mod packet_number;
mod range_set;
mod reading;
mod side;
mod stream_id;
mod time;
mod transport_error;
mod varint;
mod writing;

pub use ecn::EcnCodepoint;
pub use fault::Fault;
pub use ids::{ConnectionId, IssuedCid, ResetToken};
pub use mask::{
    HeaderMask, mask_comes_off, mask_packet, put_mask, sample, take_mask, unmask_packet,
};
pub use packet_number::PacketNumber;
pub use range_set::{ArrayRangeSet, NumberRange};
pub use reading::{
    Cut, read_blob, read_byte, read_bytes, read_u16, read_u32, read_u64, read_varint,
};
pub use side::{Dir, LongType, Side, SpaceId};
pub use stream_id::StreamId;
pub use time::{Duration, Instant, SystemTime};
pub use transport_error::{TransportError, TransportErrorCode};
pub use varint::{VarInt, VarIntBoundsExceeded, put_varint, varint_size};
pub use writing::or_cut_back;
