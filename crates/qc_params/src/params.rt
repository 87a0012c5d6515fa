ghost use Rattle.std.specs.Prelude.{◌≡◌};

use qc_base::{ConnectionId, ResetToken, VarInt};
use std::default::Default;
use std::net::{Ipv4Addr, Ipv6Addr};

/// The transport parameters that one end announces (RFC 9000, section 18.2).
///
/// A value that equals the default of [`TransportParameters::default`] is not written.
#[derive(Clone, Copy, PartialEq, Eq, Debug)]
pub struct TransportParameters {
    /// 0x00: the Destination Connection ID of the client's first Initial packet. Of a server alone.
    pub original_dst_cid: Option<ConnectionId>,
    /// 0x01: the idle timeout in milliseconds; 0 is none.
    pub max_idle_timeout: VarInt,
    /// 0x02: the token of a stateless reset (RFC 9000, section 10.3). Of a server alone.
    pub stateless_reset_token: Option<ResetToken>,
    /// 0x03: the greatest UDP payload in bytes that the sender of the parameters takes.
    pub max_udp_payload_size: VarInt,
    /// 0x04: how many bytes of stream data in all may be sent to it.
    pub initial_max_data: VarInt,
    /// 0x05: the bytes that may be sent on each bidirectional stream that it opens.
    pub initial_max_stream_data_bidi_local: VarInt,
    /// 0x06: the bytes that may be sent on each bidirectional stream that the other end opens.
    pub initial_max_stream_data_bidi_remote: VarInt,
    /// 0x07: the bytes that may be sent on each unidirectional stream that the other end opens.
    pub initial_max_stream_data_uni: VarInt,
    /// 0x08: how many bidirectional streams the other end may open.
    pub initial_max_streams_bidi: VarInt,
    /// 0x09: how many unidirectional streams the other end may open.
    pub initial_max_streams_uni: VarInt,
    /// 0x0a: the delay of its ACK frames counts units of 2 to this power microseconds.
    pub ack_delay_exponent: VarInt,
    /// 0x0b: the greatest time in milliseconds by which it delays an ACK.
    pub max_ack_delay: VarInt,
    /// 0x0c: whether the other end must not migrate to another address.
    pub disable_active_migration: bool,
    /// 0x0d: an address to which a client may move. Of a server alone.
    pub preferred_address: Option<PreferredAddress>,
    /// 0x0e: how many connection ids of the other end it keeps.
    pub active_connection_id_limit: VarInt,
    /// 0x0f: the Source Connection ID of its first Initial packet.
    pub initial_src_cid: Option<ConnectionId>,
    /// 0x10: the Source Connection ID of its Retry packet. Of a server alone.
    pub retry_src_cid: Option<ConnectionId>,
    /// 0x20: the greatest DATAGRAM frame in bytes that it takes (RFC 9221); `None`: it takes none.
    pub max_datagram_frame_size: Option<VarInt>,
    /// 0x2ab2: whether it takes packets whose QUIC bit is 0 (RFC 9287).
    pub grease_quic_bit: bool,
}

/// A server's preferred address (RFC 9000, sections 9.6 and 18.2).
#[derive(Clone, Copy, PartialEq, Eq, Debug)]
pub struct PreferredAddress {
    /// The IPv4 address; unspecified where there is none.
    pub ipv4: Ipv4Addr,
    /// The port at the IPv4 address.
    pub port_v4: u16,
    /// The IPv6 address; unspecified where there is none.
    pub ipv6: Ipv6Addr,
    /// The port at the IPv6 address.
    pub port_v6: u16,
    /// The connection id with sequence number 1.
    pub id: ConnectionId,
    /// The token of that id.
    pub reset_token: ResetToken,
}

impl Default for TransportParameters {
    ghost use Rattle.std.specs.Prelude.{◌≡◌};
    ghost use Rattle.qc_params.specs.ParametersSpelling.{default_parameters};

    ghost is_default = { λ p. p ≡ default_parameters };

    /// The value that each absent parameter has (RFC 9000, section 18.2).
    fn default() -> Self {
        TransportParameters {
            original_dst_cid: None,
            max_idle_timeout: VarInt::from_u32(0),
            stateless_reset_token: None,
            max_udp_payload_size: VarInt::from_u32(65527),
            initial_max_data: VarInt::from_u32(0),
            initial_max_stream_data_bidi_local: VarInt::from_u32(0),
            initial_max_stream_data_bidi_remote: VarInt::from_u32(0),
            initial_max_stream_data_uni: VarInt::from_u32(0),
            initial_max_streams_bidi: VarInt::from_u32(0),
            initial_max_streams_uni: VarInt::from_u32(0),
            ack_delay_exponent: VarInt::from_u32(3),
            max_ack_delay: VarInt::from_u32(25),
            disable_active_migration: false,
            preferred_address: None,
            active_connection_id_limit: VarInt::from_u32(2),
            initial_src_cid: None,
            retry_src_cid: None,
            max_datagram_frame_size: None,
            grease_quic_bit: false,
        }
    }
}
