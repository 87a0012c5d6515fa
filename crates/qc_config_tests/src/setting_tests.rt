//! Settings that are kept.

use qc_base::{Duration, SystemTime, VarInt};
use qc_config::{
    ClientConfig, EndpointConfig, FixedTime, NoneTokenLog, NoneTokenStore, ServerConfig,
    ValidationTokenConfig,
};
use qc_recovery::TransportConfig;
use qc_toy::{ToyClient, ToyHmacKey, ToyServer, ToySettings, ToyTokenKey};
use std::alloc::{AllocError, Global};
use std::default::Default;
use std::net::{Ipv4Addr, Ipv6Addr, SocketAddrV4, SocketAddrV6};
use std::test::Fail;

fn transport(window: u32) -> TransportConfig {
    let mut transport = TransportConfig::default();
    transport.receive_window(VarInt::from_u32(window));
    transport
}

#[test]
fn a_client_keeps_its_settings(rt: HostRuntime) -> Result<(), Fail> {
    let crypto = ToyClient {
        settings: ToySettings::default(),
    };
    let mut config = ClientConfig::new(crypto, NoneTokenStore);
    assert_eq!(rt; config.get_version(), 1);
    config
        .transport_config(transport(7))
        .token_store(NoneTokenStore)
        .version(2);
    assert_eq!(rt; config.get_version(), 2);
    assert_eq!(rt; config.get_crypto(), &crypto);
    let window = config.get_transport_config().get_receive_window();
    assert_eq!(rt; window, VarInt::from_u32(7));
    let NoneTokenStore = config.get_token_store();
    Ok(())
}

type Server = ServerConfig<ToyServer, ToyTokenKey, FixedTime, NoneTokenLog>;

const KEY: [u8; 16] = [1; 16];

fn clock() -> FixedTime {
    FixedTime(SystemTime::from_nanos(3))
}

fn server() -> Server {
    let crypto = ToyServer {
        settings: ToySettings::default(),
    };
    ServerConfig::new(
        crypto,
        ToyTokenKey::new(KEY),
        clock(),
        ValidationTokenConfig::default(),
    )
}

// Whether a server that was just set up has the key and the clock that it was given.
fn has_what_it_was_given() -> bool {
    let config = server();
    *config.get_token_key() == ToyTokenKey::new(KEY) && *config.get_time_source() == clock()
}

// The lifetime of its Retry tokens, and whether its clients may migrate.
fn first_lifetime() -> (Duration, bool) {
    let config = server();
    (config.get_retry_token_lifetime(), config.get_migration())
}

// How many clients may wait, and with how many bytes each and in all.
fn first_limits() -> (usize, u64, u64) {
    let config = server();
    limits(&config)
}

fn limits(config: &Server) -> (usize, u64, u64) {
    (
        config.get_max_incoming(),
        config.get_incoming_buffer_size(),
        config.get_incoming_buffer_size_total(),
    )
}

// Whether it has neither of the preferred addresses.
fn has_no_address() -> bool {
    let config = server();
    config.get_preferred_address_v4().is_none() && config.get_preferred_address_v6().is_none()
}

// Whether another key and another clock are kept.
fn keeps_key_and_clock() -> bool {
    let mut config = server();
    let clock = FixedTime(SystemTime::from_nanos(9));
    config
        .token_key(ToyTokenKey::new([2; 16]))
        .time_source(clock);
    *config.get_token_key() == ToyTokenKey::new([2; 16]) && *config.get_time_source() == clock
}

fn kept_lifetime(lifetime: Duration, migration: bool) -> (Duration, bool) {
    let mut config = server();
    config.retry_token_lifetime(lifetime).migration(migration);
    (config.get_retry_token_lifetime(), config.get_migration())
}

fn kept_limits(incoming: usize, each: u64, total: u64) -> (usize, u64, u64) {
    let mut config = server();
    config
        .max_incoming(incoming)
        .incoming_buffer_size(each)
        .incoming_buffer_size_total(total);
    limits(&config)
}

fn keeps_addresses(v4: SocketAddrV4, v6: SocketAddrV6) -> bool {
    let mut config = server();
    config
        .preferred_address_v4(Some(v4))
        .preferred_address_v6(Some(v6));
    config.get_preferred_address_v4() == Some(v4) && config.get_preferred_address_v6() == Some(v6)
}

// The window of a transport configuration that was handed to the server, with settings of tokens.
fn kept_window(window: u32) -> VarInt {
    let mut config = server();
    config
        .transport_config(transport(window))
        .validation_token_config(ValidationTokenConfig::new(NoneTokenLog));
    config.transport.get_receive_window()
}

#[test]
fn a_server_keeps_its_settings(rt: HostRuntime) {
    assert!(rt; has_what_it_was_given());
    assert_eq!(rt;
        first_lifetime(),
        (Duration::from_nanos(15_000_000_000), true)
    );
    assert_eq!(rt; first_limits(), (65536, 10_485_760, 104_857_600));
    assert!(rt; has_no_address());
    assert!(rt; keeps_key_and_clock());
    let lifetime = Duration::from_nanos(4);
    assert_eq!(rt; kept_lifetime(lifetime, false), (lifetime, false));
    assert_eq!(rt; kept_limits(5, 6, 8), (5, 6, 8));
    let v4 = SocketAddrV4::new(Ipv4Addr::new(127, 0, 0, 1), 443);
    let v6 = SocketAddrV6::new(Ipv6Addr::new(0, 0, 0, 0, 0, 0, 0, 1), 443, 0, 0);
    assert!(rt; keeps_addresses(v4, v6));
    assert_eq!(rt; kept_window(7), VarInt::from_u32(7));
}

#[test]
fn tokens_keep_their_settings(rt: HostRuntime) -> Result<(), Fail> {
    let mut config = ValidationTokenConfig::default();
    assert_eq!(rt;
        config.get_lifetime(),
        Duration::from_nanos(1_209_600_000_000_000)
    );
    assert_eq!(rt; config.get_sent(), 0);
    config
        .lifetime(Duration::from_nanos(2))
        .log(NoneTokenLog)
        .sent(3);
    assert_eq!(rt; config.get_lifetime(), Duration::from_nanos(2));
    assert_eq!(rt; config.get_log(), &NoneTokenLog);
    assert_eq!(rt; config.get_sent(), 3);
    Ok(())
}

fn endpoint(alloc: Global) -> Result<EndpointConfig<ToyHmacKey>, AllocError> {
    EndpointConfig::new(alloc, ToyHmacKey::new([0; 16]))
}

// Whether an endpoint that was just set up greases the fixed bit, waits 20 ms between resets, and has no seed.
fn first_settings(alloc: Global) -> Result<(bool, Duration, bool), AllocError> {
    let config = endpoint(alloc)?;
    Ok((
        config.get_grease_quic_bit(),
        config.get_min_reset_interval(),
        config.get_rng_seed().is_none(),
    ))
}

fn kept_settings(alloc: Global) -> Result<(bool, Duration, bool), AllocError> {
    let mut config = endpoint(alloc)?;
    config
        .grease_quic_bit(false)
        .min_reset_interval(Duration::ZERO)
        .rng_seed(Some([7; 32]));
    Ok((
        config.get_grease_quic_bit(),
        config.get_min_reset_interval(),
        config.get_rng_seed() == Some([7; 32]),
    ))
}

fn keeps_reset_key(alloc: Global, key: ToyHmacKey) -> Result<bool, AllocError> {
    let mut config = endpoint(alloc)?;
    config.reset_key(key);
    Ok(*config.get_reset_key() == key)
}

fn with_versions(
    alloc: Global,
    versions: Vec<u32>,
) -> Result<EndpointConfig<ToyHmacKey>, AllocError> {
    let mut config = endpoint(alloc)?;
    config.supported_versions(versions);
    Ok(config)
}

fn keeps_versions(alloc: Global) -> Result<bool, AllocError> {
    let versions = Vec::from_slice(alloc, &[1, 2])?;
    let config = with_versions(alloc, versions)?;
    Ok(config.get_supported_versions() == [1, 2].as_slice())
}

#[test]
fn an_endpoint_keeps_its_settings(rt: HostRuntime) -> Result<(), Fail> {
    assert_eq!(rt;
        first_settings(rt.alloc())?,
        (true, Duration::from_nanos(20_000_000), true)
    );
    assert_eq!(rt; kept_settings(rt.alloc())?, (false, Duration::ZERO, true));
    assert!(rt; keeps_reset_key(rt.alloc(), ToyHmacKey::new([1; 16]))?);
    assert!(rt; keeps_versions(rt.alloc())?);
    Ok(())
}
