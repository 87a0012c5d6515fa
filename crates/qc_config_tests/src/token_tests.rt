//! Tokens that a server hands out and takes back.

use bytes::Bytes;
use qc_base::{ConnectionId, Duration, PacketNumber, SystemTime};
use qc_config::{
    FixedTime, HeaderError, IncomingToken, InvalidRetryTokenError, NoneTokenLog, ServerConfig,
    Token, TokenLog, TokenPayload, TokenReuseError, ValidationTokenConfig,
};
use qc_crypto::{AeadKey, HandshakeTokenKey};
use qc_header::InitialHeader;
use qc_toy::{ToyServer, ToySettings, ToyTokenKey, ZeroRandom};
use std::alloc::{AllocError, Global};
use std::default::Default;
use std::net::{IpAddr, Ipv4Addr, Ipv6Addr, SocketAddr};
use std::test::Fail;

fn seconds(n: u64) -> SystemTime {
    SystemTime::from_nanos(n.saturating_mul(1_000_000_000))
}

fn local() -> IpAddr {
    IpAddr::V6(Ipv6Addr::new(0, 0, 0, 0, 0, 0, 0, 1))
}

// A Validation token of ::1 at 42 s, as plain bytes.
const PLAIN: [u8; 26] = [
    1, 1, 0, 0, 0, 0, 0, 0, 0, 0, 0, 0, 0, 0, 0, 0, 0, 1, 0, 0, 0, 0, 0, 0, 0, 42,
];

// The same sealed under the key of a nonce of zeros: its tag, and the nonce.
const SEALED: [u8; 58] = [
    1, 1, 0, 0, 0, 0, 0, 0, 0, 0, 0, 0, 0, 0, 0, 0, 0, 1, 0, 0, 0, 0, 0, 0, 0, 42, 0x59, 0xb2,
    0x0b, 0x64, 0xbd, 0x16, 0x6f, 0xc8, 0x21, 0x7a, 0xd3, 0x2c, 0x85, 0xde, 0x37, 0x90, 0, 0, 0, 0,
    0, 0, 0, 0, 0, 0, 0, 0, 0, 0, 0, 0,
];

fn zero_key() -> ToyTokenKey {
    ToyTokenKey::new([0; 16])
}

fn is_written_as(alloc: Global, token: &Token, expected: &[u8]) -> Result<bool, AllocError> {
    let bytes = token.encode(alloc, &zero_key())?;
    Ok(bytes.as_slice() == expected)
}

fn decoded(alloc: Global, raw: &[u8]) -> Result<Option<Token>, AllocError> {
    Token::decode(alloc, &zero_key(), raw)
}

// Plain bytes that are one longer than the token's, sealed under the key of a nonce of zeros.
fn longer(alloc: Global) -> Result<Vec<u8>, AllocError> {
    let mut bytes = Vec::from_slice(alloc, &PLAIN)?;
    bytes.push(0)?;
    zero_key().aead_from_hkdf(&[0; 16]).seal(&mut bytes, &[])?;
    bytes.extend_from_slice(&[0; 16])?;
    Ok(bytes)
}

fn is_decoded(alloc: Global, raw: &[u8]) -> Result<bool, AllocError> {
    match decoded(alloc, raw) {
        Ok(token) => Ok(token.is_some()),
        Err(error) => Err(error),
    }
}

fn is_longer_one_decoded(alloc: Global) -> Result<bool, AllocError> {
    let bytes = longer(alloc)?;
    is_decoded(alloc, bytes.as_slice())
}

#[test]
fn a_validation_token_is_sealed(rt: HostRuntime) -> Result<(), Fail> {
    let token = Token {
        payload: TokenPayload::Validation {
            ip: local(),
            issued: seconds(42),
        },
        nonce: 0,
    };
    assert!(rt; Token::new(token.payload, &mut ZeroRandom) == token);
    assert!(rt; is_written_as(rt.alloc(), &token, &SEALED)?);
    assert!(rt; decoded(rt.alloc(), &SEALED)? == Some(token));
    assert!(rt; !is_longer_one_decoded(rt.alloc())?);
    assert!(rt; decoded(rt.alloc(), &[0; 15])?.is_none());
    Ok(())
}

// With a tag of 16 bytes and a nonce of 16 a Validation token has 46 bytes for an IPv4 address and 58 for an IPv6 one.
#[test]
fn a_token_has_a_known_size(rt: HostRuntime) -> Result<(), Fail> {
    for (ip, size) in [(IpAddr::V4(Ipv4Addr::new(127, 0, 0, 1)), 46), (local(), 58)] {
        let payload = TokenPayload::Validation {
            ip,
            issued: seconds(42),
        };
        assert_eq!(rt; payload.encoded_len(), size);
        assert_eq!(rt; written_len(rt.alloc(), payload)?, size);
    }
    Ok(())
}

fn written_len(alloc: Global, payload: TokenPayload) -> Result<usize, AllocError> {
    let bytes = Token { payload, nonce: 3 }.encode(alloc, &zero_key())?;
    Ok(bytes.len())
}

fn header(token: Bytes) -> InitialHeader {
    InitialHeader {
        dst_cid: ConnectionId::new(&[7; 8]),
        src_cid: ConnectionId::new(&[]),
        token,
        number: PacketNumber::U8(0),
        version: 1,
    }
}

// A log that takes every token.
#[derive(Clone, Copy)]
struct OpenLog;

impl TokenLog for OpenLog {
    ghost use Rattle.std.specs.Prelude.{Ok};

    ghost takes = { λ _ _ _ _. Ok tt };

    ghost after_token = { λ log _ _ _. log };

    fn check_and_insert(
        &mut self,
        _nonce: u128,
        _issued: SystemTime,
        _lifetime: Duration,
    ) -> Result<Result<(), TokenReuseError>, AllocError> {
        Ok(Ok(()))
    }
}

// What a server says at a time to a token that came from a port of ::1.
fn taken<L: TokenLog>(
    alloc: Global,
    log: L,
    key: &ToyTokenKey,
    token: &Token,
    now: u64,
    port: u16,
) -> Result<Result<IncomingToken, HeaderError>, AllocError> {
    let bytes = token.encode(alloc, key)?;
    let header = header(Bytes::copy_from_slice(alloc, bytes.as_slice())?);
    let crypto = ToyServer {
        settings: ToySettings::default(),
    };
    let mut config = ServerConfig::new(
        crypto,
        *key,
        FixedTime(seconds(now)),
        ValidationTokenConfig::new(log),
    );
    let remote = SocketAddr::new(local(), port);
    Ok(IncomingToken::from_header(alloc, &header, &mut config, remote))
}

#[test]
fn a_retry_token_comes_back(rt: HostRuntime) -> Result<(), Fail> {
    let key = ToyTokenKey::new([5; 16]);
    let token = Token {
        payload: TokenPayload::Retry {
            address: SocketAddr::new(local(), 4433),
            orig_dst_cid: ConnectionId::new(&[9; 20]),
            issued: seconds(42),
        },
        nonce: 3,
    };
    let bytes = token.encode(rt.alloc(), &key)?;
    assert_eq!(rt; bytes.len(), 81);
    assert!(rt; Token::decode(rt.alloc(), &key, bytes.as_slice())? == Some(token));
    let good = IncomingToken {
        retry_src_cid: Some(ConnectionId::new(&[7; 8])),
        orig_dst_cid: ConnectionId::new(&[9; 20]),
        validated: true,
    };
    let bad = HeaderError::Retry(InvalidRetryTokenError);
    assert!(rt; taken(rt.alloc(), NoneTokenLog, &key, &token, 57, 4433)? == Ok(good));
    assert!(rt; taken(rt.alloc(), NoneTokenLog, &key, &token, 58, 4433)? == Err(bad));
    assert!(rt; taken(rt.alloc(), NoneTokenLog, &key, &token, 57, 4434)? == Err(bad));
    Ok(())
}

// Each row: the last byte of the token's address, the time in seconds, whether the log takes tokens, and whether
// the client is taken to be at its address. The token is valid for two weeks.
#[test]
fn a_validation_token_is_taken_once(rt: HostRuntime) -> Result<(), Fail> {
    let key = ToyTokenKey::new([5; 16]);
    let rows = [
        (1, 57, true, true),
        (1, 57, false, false),
        (2, 57, true, false),
        (1, 1_209_642, true, true),
        (1, 1_209_643, true, false),
    ];
    for (last, now, open, validated) in rows {
        let token = Token {
            payload: TokenPayload::Validation {
                ip: IpAddr::V6(Ipv6Addr::new(0, 0, 0, 0, 0, 0, 0, last)),
                issued: seconds(42),
            },
            nonce: 3,
        };
        let expected = IncomingToken {
            retry_src_cid: None,
            orig_dst_cid: ConnectionId::new(&[7; 8]),
            validated,
        };
        let answer = if open {
            taken(rt.alloc(), OpenLog, &key, &token, now, 4433)?
        } else {
            taken(rt.alloc(), NoneTokenLog, &key, &token, now, 4433)?
        };
        assert!(rt; answer == Ok(expected));
    }
    Ok(())
}
