use qc_base::{Duration, VarInt};
use qc_recovery::{IdleTimeout, MtuDiscoveryConfig, TransportConfig};
use std::test::Fail;

#[test]
fn settings_are_kept(rt: HostRuntime) -> Result<(), Fail> {
    let mut config = TransportConfig::default();
    let two = VarInt::from_u32(2);
    config
        .max_concurrent_bidi_streams(two)
        .max_concurrent_uni_streams(VarInt::from_u32(3))
        .stream_receive_window(VarInt::from_u32(4))
        .receive_window(VarInt::from_u32(5))
        .send_window(6);
    assert_eq!(rt; config.get_max_concurrent_bidi_streams(), two);
    assert_eq!(rt;
        config.get_max_concurrent_uni_streams(),
        VarInt::from_u32(3)
    );
    assert_eq!(rt; config.get_stream_receive_window(), VarInt::from_u32(4));
    assert_eq!(rt; config.get_receive_window(), VarInt::from_u32(5));
    assert_eq!(rt; config.get_send_window(), 6);
    let timeout = IdleTimeout::from(Duration::from_nanos(1_999_999));
    config
        .max_idle_timeout(Some(timeout))
        .initial_rtt(Duration::from_nanos(7));
    let kept = config.get_max_idle_timeout().ok_or("no timeout")?;
    assert_eq!(rt; VarInt::from(kept), VarInt::from_u32(1));
    assert_eq!(rt;
        IdleTimeout::from(two),
        IdleTimeout::from(Duration::from_nanos(2_000_000))
    );
    assert_eq!(rt; config.get_initial_rtt(), Duration::from_nanos(7));
    config
        .initial_mtu(1199)
        .min_mtu(20000)
        .packet_threshold(8)
        .time_threshold(9, 10);
    assert_eq!(rt; config.get_initial_mtu(), 1200);
    assert_eq!(rt; config.get_min_mtu(), 16383);
    assert_eq!(rt; config.get_packet_threshold(), 8);
    assert_eq!(rt; config.get_time_threshold(), (9, 10));
    Ok(())
}

#[test]
fn more_settings_are_kept(rt: HostRuntime) -> Result<(), Fail> {
    let mut config = TransportConfig::default();
    config
        .persistent_congestion_threshold(11)
        .mtu_discovery_config(None);
    config
        .keep_alive_interval(Some(Duration::from_nanos(12)))
        .crypto_buffer_size(13);
    config
        .datagram_send_buffer_size(14)
        .datagram_receive_buffer_size(None);
    config
        .send_fairness(false)
        .pad_to_mtu(true)
        .allow_spin(false)
        .enable_segmentation_offload(false);
    assert_eq!(rt; config.get_persistent_congestion_threshold(), 11);
    assert!(rt; config.get_mtu_discovery_config().is_none());
    assert_eq!(rt;
        config.get_keep_alive_interval(),
        Some(Duration::from_nanos(12))
    );
    assert_eq!(rt; config.get_crypto_buffer_size(), 13);
    assert_eq!(rt; config.get_datagram_send_buffer_size(), 14);
    assert_eq!(rt; config.get_datagram_receive_buffer_size(), None);
    assert!(rt; !config.get_send_fairness());
    assert!(rt; config.get_pad_to_mtu());
    assert!(rt; !config.get_allow_spin());
    assert!(rt; !config.get_enable_segmentation_offload());
    let mut search = MtuDiscoveryConfig::default();
    search.interval(Duration::from_nanos(1)).upper_bound(65535);
    search
        .black_hole_cooldown(Duration::from_nanos(2))
        .minimum_change(3);
    assert_eq!(rt; search.get_interval(), Duration::from_nanos(1));
    assert_eq!(rt; search.get_upper_bound(), 65527);
    assert_eq!(rt; search.get_black_hole_cooldown(), Duration::from_nanos(2));
    assert_eq!(rt; search.get_minimum_change(), 3);
    Ok(())
}
