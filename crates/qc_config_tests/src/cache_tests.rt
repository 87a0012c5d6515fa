//! The cache of tokens, and what an endpoint is set up with.

use bytes::Bytes;
use qc_base::{ConnectionId, ResetToken};
use qc_config::{ConfigError, EndpointConfig, TokenMemoryCache, TokenStore, reset_token};
use qc_toy::ToyHmacKey;
use std::alloc::{AllocError, Global};
use std::test::Fail;

fn put(
    cache: &mut TokenMemoryCache,
    alloc: Global,
    name: &str,
    token: u8,
) -> Result<(), AllocError> {
    cache.insert(name, Bytes::copy_from_slice(alloc, &[token])?)
}

// The token of one byte that is taken of a name; 0 where there is none.
fn take(cache: &mut TokenMemoryCache, name: &str) -> Result<u8, AllocError> {
    match cache.take(name)? {
        Some(token) => Ok(token.as_slice().first().copied().unwrap_or(0)),
        None => Ok(0),
    }
}

#[test]
fn a_cache_without_room_keeps_nothing(rt: HostRuntime) -> Result<(), Fail> {
    for (names, tokens) in [(0, 2), (256, 0)] {
        let mut cache = TokenMemoryCache::new(rt.alloc(), names, tokens)?;
        put(&mut cache, rt.alloc(), "a", 1)?;
        assert_eq!(rt; take(&mut cache, "a")?, 0);
    }
    Ok(())
}

#[test]
fn the_last_servers_are_kept(rt: HostRuntime) -> Result<(), Fail> {
    let mut cache = TokenMemoryCache::new(rt.alloc(), 2, 2)?;
    for (name, token) in [("a", 1), ("b", 2), ("a", 3), ("c", 4)] {
        put(&mut cache, rt.alloc(), name, token)?;
    }
    for (name, token) in [("b", 0), ("a", 1), ("a", 3), ("c", 4), ("c", 0)] {
        assert_eq!(rt; take(&mut cache, name)?, token, "of {name}");
    }
    let mut usual = TokenMemoryCache::with_defaults(rt.alloc())?;
    for token in 1..=3 {
        put(&mut usual, rt.alloc(), "a", token)?;
    }
    assert_eq!(rt; take(&mut usual, "a")?, 2);
    Ok(())
}

#[test]
fn an_endpoint_is_set_up(rt: HostRuntime) -> Result<(), Fail> {
    let key = ToyHmacKey::new([0; 16]);
    let mut config = EndpointConfig::new(rt.alloc(), key)?;
    assert_eq!(rt; config.get_max_udp_payload_size(), 1472);
    for (size, taken) in [(1199, false), (1200, true), (65527, true), (65528, false)] {
        assert_eq!(rt; config.max_udp_payload_size(size).is_ok(), taken);
    }
    assert_eq!(rt; config.get_max_udp_payload_size(), 65527);
    assert!(rt; config.get_supported_versions().len() == 7);
    let text = format!(in rt.alloc(); "{}", ConfigError::OutOfBounds)?;
    assert_eq!(rt; text.as_str(), "value exceeds supported bounds");
    let token = reset_token(rt.alloc(), &key, ConnectionId::new(&[1; 8]))?;
    let expected = [
        0x24, 0x48, 0x6c, 0x90, 0xb4, 0xd8, 0xfc, 0x20, 0x44, 0x68, 0x8c, 0xb0, 0xd4, 0xf8, 0x1c,
        0x40,
    ];
    assert!(rt; token == ResetToken::from(expected));
    Ok(())
}
