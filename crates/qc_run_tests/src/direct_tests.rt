//! A connection that the set lines of a script make, called without a script; and the token that resets it.

use bytes::Bytes;
use qc_base::{ConnectionId, Instant, Side, VarInt};
use qc_config::reset_token;
use qc_conn::Connection;
use qc_run::{Toy, script_end};
use qc_script::Settings;
use qc_toy::ToyHmacKey;
use std::alloc::Global;
use std::test::Fail;

/// The length of what the connection sends at this time, if it sends anything.
fn sent(end: &mut Connection<Toy>, alloc: Global, now: Instant) -> Result<Option<usize>, Fail> {
    let mut buf = Vec::new(alloc);
    match end.poll_transmit(alloc, now, 1, &mut buf)? {
        Some(_) => Ok(Some(buf.len())),
        None => Ok(None),
    }
}

// The hello goes out first; then nothing is owed until a PING is asked for, and nothing behind it until the close.
#[test]
fn a_client_is_called_directly(rt: HostRuntime) -> Result<(), Fail> {
    let set = Settings {
        side: Side::Client,
        random: None,
        time: None,
        local: None,
        remote: None,
        first: None,
        orig: None,
        retry: None,
        addr: None,
        validated: None,
        token: None,
        secret: None,
        limit_initial: None,
        limit_handshake: None,
        limit_data: None,
        limit_failures: None,
        idle: None,
        mtud: None,
        gso: None,
        sent: None,
        clock: None,
    };
    let mut client = script_end(rt.alloc(), &set)?;
    let now = Instant::from_nanos(5);
    assert!(rt; client.poll_timeout().is_none());
    for asks in [false, true] {
        if asks {
            client.ping();
        }
        assert_eq!(rt; sent(&mut client, rt.alloc(), now)?, Some(1200));
        assert_eq!(rt; sent(&mut client, rt.alloc(), now)?, None);
    }
    assert!(rt; client.poll().is_none());
    assert!(rt; client.poll_endpoint_events().is_none());
    let timeout = client.poll_timeout().ok_or("no timer")?;
    assert_eq!(rt; timeout.nanos(), 999_000_005);
    client.close(now, VarInt::from_u32(7), Bytes::new());
    assert!(rt; sent(&mut client, rt.alloc(), now)?.is_some());
    Ok(())
}

// The token's expected value was computed by hand from the toy's rules: its checksum under a key of zeros.
#[test]
fn reset_token_is_the_front_of_the_signature(rt: HostRuntime) -> Result<(), Fail> {
    let key = ToyHmacKey::new([0; 16]);
    let token = reset_token(rt.alloc(), &key, ConnectionId::new(&[1; 8]))?;
    let text = format!(in rt.alloc(); "{token}")?;
    assert_eq!(rt; text.as_str(), "24486c90b4d8fc2044688cb0d4f81c40");
    Ok(())
}
