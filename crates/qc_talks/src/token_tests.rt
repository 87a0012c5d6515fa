//! A server's tokens, and the next connections of the same client (RFC 9000, section 8.1.3).

use crate::ends::End;
use crate::pair::{ONCE, deliver};
use qc_config::TokenMemoryCache;
use std::alloc::Global;
use std::test::Fail;

/// What stands in a hello behind the first byte, the version and two ids of 8 bytes with their lengths, where the client has a token:
/// its length, 46, and itself; then the field Length of what is left of 1200 bytes, 1128. In the token stand the kind 1, the kind of
/// address 0, 192.0.2.1, the 42 seconds, all sealed by a program of its own in another language under a key of zeros, the tag and 16
/// random bytes, which are zeros too.
const WITH_TOKEN: [u8; 49] =
    *b"\x2e\x01\x00\xc0\x00\x02\x01\x00\x00\x00\x00\x00\x00\x00\x2a\x9d\x3a\xd7\x74\x11\xae\x4b\xe8\x85\x22\xbf\x5c\xf9\x96\x33\xd0\x00\x00\x00\x00\x00\x00\x00\x00\x00\x00\x00\x00\x00\x00\x00\x00\x44\x68";

/// What stands there where it has none: the length 0, and 1174 bytes are left.
const WITHOUT: [u8; 3] = [0, 0x44, 0x96];

/// Datagrams go from each end to the other, until all are there. The client's tokens go into the store.
fn talk(
    alloc: Global,
    client: &mut End,
    server: &mut End,
    store: &mut TokenMemoryCache,
) -> Result<(), Fail> {
    let mut nanos: u64 = 0;
    for _ in 0..8 {
        nanos = nanos.saturating_add(1000);
        let flight = client.flight(alloc, nanos)?;
        deliver(alloc, client, server, nanos, flight.as_slice(), ONCE)?;
        nanos = nanos.saturating_add(1000);
        let flight = server.flight(alloc, nanos)?;
        for datagram in &flight {
            let bytes = datagram.as_slice();
            client.takes_storing(alloc, nanos, server.address, bytes, store)?;
        }
    }
    Ok(())
}

/// Whether these bytes stand at 23 in the hello of the next client with this store.
fn next_hello_has(
    alloc: Global,
    store: &mut TokenMemoryCache,
    behind: &[u8],
) -> Result<bool, Fail> {
    let mut client = End::client_storing(alloc, store)?;
    let hello = client.sends(alloc, 1)?.ok_or("no hello")?;
    match hello.as_slice().split_at_checked(23) {
        Some((_, rest)) => Ok(rest.starts_with(behind)),
        None => Ok(false),
    }
}

// A server that sends one token: its client keeps it, the next client of that server takes it into its first packet, and a third one
// finds none any more.
#[test]
fn the_next_client_takes_the_token(rt: HostRuntime) -> Result<(), Fail> {
    let alloc = rt.alloc();
    let mut store = TokenMemoryCache::with_defaults(alloc)?;
    let mut client = End::client_storing(alloc, &mut store)?;
    let mut server = End::server_sending(alloc, 1)?;
    talk(alloc, &mut client, &mut server, &mut store)?;
    assert!(rt; next_hello_has(alloc, &mut store, &WITH_TOKEN)?);
    assert!(rt; next_hello_has(alloc, &mut store, &WITHOUT)?);
    Ok(())
}

// A server that sends two: two clients find one each.
#[test]
fn each_token_is_for_one_client(rt: HostRuntime) -> Result<(), Fail> {
    let alloc = rt.alloc();
    let mut store = TokenMemoryCache::with_defaults(alloc)?;
    let mut client = End::client_storing(alloc, &mut store)?;
    let mut server = End::server_sending(alloc, 2)?;
    talk(alloc, &mut client, &mut server, &mut store)?;
    assert!(rt; next_hello_has(alloc, &mut store, &WITH_TOKEN)?);
    assert!(rt; next_hello_has(alloc, &mut store, &WITH_TOKEN)?);
    assert!(rt; next_hello_has(alloc, &mut store, &WITHOUT)?);
    Ok(())
}
