//! Clients that take a token out of a store, and give those of their server's to it (RFC 9000, section 8.1.3).

use crate::clients::client_of;
use crate::event_tests::{address, sealed};
use bytes::Bytes;
use qc_base::Instant;
use qc_config::{TokenMemoryCache, TokenStore};
use qc_conn::drive;
use qc_state::{Body, Input};
use std::alloc::Global;
use std::test::Fail;

/// The length of the hello of a client of this server, with a token out of the store where there is one, and whether these bytes
/// stand at 23.
fn hello_to(
    alloc: Global,
    store: &mut TokenMemoryCache,
    name: &str,
    behind: &[u8],
) -> Result<(usize, bool), Fail> {
    let mut client = client_of(alloc, store, name).ok_or("no client")?;
    let hello = sealed(alloc, &mut client).ok_or("no hello")?;
    let bytes = hello.as_slice();
    match bytes.split_at_checked(23) {
        Some((_, rest)) => Ok((bytes.len(), rest.starts_with(behind))),
        None => Ok((bytes.len(), false)),
    }
}

/// Puts a token into the store.
fn put(alloc: Global, store: &mut TokenMemoryCache, name: &str, token: &[u8]) -> Result<(), Fail> {
    let token = Bytes::copy_from_slice(alloc, token)?;
    store.insert(name, token)?;
    Ok(())
}

// A token is given once, to a client of the server that it came from, the oldest one first. In a hello its length stands behind the
// first byte, 4 of the version and two ids of 8 bytes with their lengths, at 23, and the token behind it. The field Length is what is
// left of 1200 bytes.
#[test]
fn a_client_takes_a_token_of_its_server(rt: HostRuntime) -> Result<(), Fail> {
    let alloc = rt.alloc();
    let mut store = TokenMemoryCache::with_defaults(alloc)?;
    for (name, token) in [
        ("one", [10, 11, 12]),
        ("other", [20, 21, 22]),
        ("one", [13, 14, 15]),
    ] {
        put(alloc, &mut store, name, &token)?;
    }
    let cases: [(&str, &[u8]); 5] = [
        ("one", &[3, 10, 11, 12, 0x44, 0x93]),
        ("third", &[0, 0x44, 0x96]),
        ("one", &[3, 13, 14, 15, 0x44, 0x93]),
        ("one", &[0, 0x44, 0x96]),
        ("other", &[3, 20, 21, 22, 0x44, 0x93]),
    ];
    for (name, behind) in cases {
        let (length, is_told) = hello_to(alloc, &mut store, name, behind)?;
        assert_eq!(rt; length, 1200);
        assert!(rt; is_told, "{name}");
    }
    Ok(())
}

/// A server's reply and its end, in an Initial and a Handshake packet, sealed by a program of its own in another language under the toy's keys of a
/// first id of eight bytes 02.
const REPLY_AND_END: [u8; 124] =
    *b"\xc6\x00\x00\x00\x01\x08\x01\x01\x01\x01\x01\x01\x01\x01\x08\x04\x04\x04\x04\x04\x04\x04\x04\x00\x40\x1d\x0c\x06\x04\x04\x02\x02\x06\x01\x04\x02\x00\x01\x00\x77\xea\x5d\xce\x41\xb2\x26\x98\x0b\x7e\xf1\x64\xd7\x4a\xbd\x30\xe3\x00\x00\x00\x01\x08\x01\x01\x01\x01\x01\x01\x01\x01\x08\x04\x04\x04\x04\x04\x04\x04\x04\x40\x2c\x00\x06\x00\x18\x03\x00\x14\x01\x00\x08\x02\x02\x02\x02\x02\x02\x02\x02\x0f\x08\x04\x04\x05\x05\x04\x04\x04\x04\xad\x5a\x07\xb4\x61\x0f\xbc\x68\x15\xc2\x6f\x1c\xc9\x76\x23\xd0";

/// A 1-RTT packet of the same, number 0, with two NEW_TOKEN frames, whose tokens are aabb and cc.
const TOKENS: [u8; 33] =
    *b"\x5b\x01\x01\x01\x01\x01\x01\x01\x01\x07\x07\x02\xaa\xbb\x07\x03\xcd\xb2\x64\x16\xc8\x7a\x2e\xdf\x90\x42\xf4\xa6\x58\x0a\xbc\x6e\x20";

/// A datagram with these bytes that comes at this time.
fn datagram(alloc: Global, nanos: u64, bytes: &[u8]) -> Result<Input, Fail> {
    Ok(Input::Datagram {
        now: Instant::from_nanos(nanos),
        remote: address(),
        ecn: None,
        bytes: Body::from_slice(alloc, bytes)?,
    })
}

/// Whether the store gives this token of the server; none where it has no bytes.
fn is_taken(store: &mut TokenMemoryCache, name: &str, token: &[u8]) -> Result<bool, Fail> {
    match store.take(name)? {
        Some(taken) => Ok(taken.as_slice() == token),
        None => Ok(token.is_empty()),
    }
}

// The tokens of one packet are there in order, under the server's name, each once; the next client of this server carries one, as above.
#[test]
fn tokens_go_into_the_store(rt: HostRuntime) -> Result<(), Fail> {
    let alloc = rt.alloc();
    let mut store = TokenMemoryCache::with_defaults(alloc)?;
    let mut client = client_of(alloc, &mut store, "one").ok_or("no client")?;
    let inputs = [
        Input::Transmit {
            now: Instant::from_nanos(0),
            max_datagrams: 1,
        },
        datagram(alloc, 1, &REPLY_AND_END)?,
        datagram(alloc, 2, &TOKENS)?,
    ];
    assert!(rt; drive(alloc, &mut client, &inputs, &mut store).is_ok());
    assert!(rt; is_taken(&mut store, "other", &[])?);
    assert!(rt; is_taken(&mut store, "one", &[0xaa, 0xbb])?);
    let (length, is_told) = hello_to(alloc, &mut store, "one", &[1, 0xcc, 0x44, 0x95])?;
    assert_eq!(rt; length, 1200);
    assert!(rt; is_told);
    assert!(rt; is_taken(&mut store, "one", &[])?);
    Ok(())
}
