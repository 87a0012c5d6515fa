ghost use Rattle.std.specs.Prelude.{◌≡◌, min, unwrap_or};
ghost use Rattle.std.specs.Option.{option_map};
ghost use Rattle.qc_config.specs.Announcement.{announced_parameters, id_limit_of};

use qc_base::{ConnectionId, VarInt};
use qc_params::TransportParameters;
use qc_recovery::TransportConfig;
use std::default::Default;

// No end may open more streams of one kind (RFC 9000, section 4.6).
const MOST_STREAMS: u64 = 1 << 60;

// No UDP payload is larger, and so no DATAGRAM frame.
const MOST_DATAGRAM: usize = 65535;

/// The transport parameters that both a client and a server announce (RFC 9000, section 18.2).
///
/// `max_udp_payload_size` and `grease_quic_bit` are the endpoint's settings, and `local_cid` is the
/// connection id that this end chose for itself. With a local id it takes five ids of the other end,
/// and with an empty one two, the least number. A server sets besides what a server alone announces.
#[tactic(auto, unfolding(crate::specs::Announcement::announced_parameters))]
pub fn announced(
    transport: &TransportConfig,
    max_udp_payload_size: u16,
    local_cid: ConnectionId,
    grease_quic_bit: bool,
) -> TransportParameters
    ensures { result ≡ announced_parameters transport.now max_udp_payload_size local_cid grease_quic_bit }
{
    TransportParameters {
        max_idle_timeout: idle_millis(transport),
        max_udp_payload_size: VarInt::from_u32(u32::from(max_udp_payload_size)),
        initial_max_data: transport.get_receive_window(),
        initial_max_stream_data_bidi_local: transport.get_stream_receive_window(),
        initial_max_stream_data_bidi_remote: transport.get_stream_receive_window(),
        initial_max_stream_data_uni: transport.get_stream_receive_window(),
        initial_max_streams_bidi: held_at(
            transport.get_max_concurrent_bidi_streams(),
            MOST_STREAMS,
        ),
        initial_max_streams_uni: held_at(transport.get_max_concurrent_uni_streams(), MOST_STREAMS),
        active_connection_id_limit: id_limit(&local_cid),
        initial_src_cid: Some(local_cid),
        max_datagram_frame_size: datagram_size(transport),
        grease_quic_bit,
        ..TransportParameters::default()
    }
}

// The idle timeout in milliseconds; 0 says that there is none.
fn idle_millis(transport: &TransportConfig) -> VarInt
    ensures { result ≡ unwrap_or transport.now.max_idle_timeout 0 }
{
    match transport.get_max_idle_timeout() {
        Some(timeout) => VarInt::from(timeout),
        None => VarInt::from_u32(0),
    }
}

fn held_at(value: VarInt, most: u64) -> VarInt
    ensures { result ≡ min value most }
{
    match VarInt::from_u64(value.into_inner().min(most)) {
        Ok(held) => held,
        Err(_) => unreachable!(),
    }
}

fn id_limit(local_cid: &ConnectionId) -> VarInt
    ensures { result ≡ id_limit_of local_cid.now }
{
    if local_cid.is_empty() {
        return VarInt::from_u32(2);
    }
    VarInt::from_u32(5)
}

fn datagram_size(transport: &TransportConfig) -> Option<VarInt>
    ensures { result ≡ option_map (λ size. min size 65535) transport.now.datagram_receive_buffer_size }
{
    match transport.get_datagram_receive_buffer_size() {
        Some(size) => Some(VarInt::from_u32(size.min(MOST_DATAGRAM) as u32)),
        None => None,
    }
}
