//! What a client announces, and a store that keeps nothing.

use bytes::Bytes;
use qc_base::{ConnectionId, VarInt};
use qc_config::{NoneTokenStore, TokenStore, announced};
use qc_params::TransportParameters;
use qc_recovery::TransportConfig;
use std::alloc::{AllocError, Global};
use std::test::Fail;

#[test]
fn a_client_announces(rt: HostRuntime) -> Result<(), Fail> {
    let window = VarInt::from_u32(1250000);
    let expected = TransportParameters {
        max_idle_timeout: VarInt::from_u32(30000),
        max_udp_payload_size: VarInt::from_u32(1472),
        initial_max_data: VarInt::MAX,
        initial_max_stream_data_bidi_local: window,
        initial_max_stream_data_bidi_remote: window,
        initial_max_stream_data_uni: window,
        initial_max_streams_bidi: VarInt::from_u32(100),
        initial_max_streams_uni: VarInt::from_u32(100),
        active_connection_id_limit: VarInt::from_u32(5),
        initial_src_cid: Some(ConnectionId::new(&[1; 8])),
        max_datagram_frame_size: Some(VarInt::from_u32(65535)),
        grease_quic_bit: true,
        ..TransportParameters::default()
    };
    let config = TransportConfig::default();
    let parameters = announced(&config, 1472, ConnectionId::new(&[1; 8]), true);
    assert_eq!(rt; parameters, expected);
    let nameless = announced(&config, 1472, ConnectionId::new(&[]), true);
    assert_eq!(rt; nameless.active_connection_id_limit, VarInt::from_u32(2));
    Ok(())
}

fn take_back<S: TokenStore>(store: &mut S, alloc: Global) -> Result<Option<Bytes>, AllocError> {
    store.insert("example", Bytes::copy_from_slice(alloc, b"token")?)?;
    store.take("example")
}

#[test]
fn nothing_is_kept(rt: HostRuntime) -> Result<(), Fail> {
    let mut store = NoneTokenStore;
    assert!(rt; take_back(&mut store, rt.alloc())?.is_none());
    Ok(())
}
