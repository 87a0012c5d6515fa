//! Timers of a client that come. Expected times are computed by hand: the loss timer stands a probe timeout of 333 + 4 * 166.5 =
//! 999 ms after the packet, and doubles each time that it fires (RFC 9002, 6.2.1 and 6.2.2); the idle timer stands after the limit
//! or three probe timeouts, the longer one (RFC 9000, 10.1), and the close timer three probe timeouts after the close (10.2).

use crate::clients::{Toy, client_with_limit, has_endpoint_event, has_event, sealed_len};
use bytes::Bytes;
use qc_base::{Instant, VarInt};
use qc_conn::Connection;
use qc_state::{ConnectionError, EndpointEvent, Event};
use std::alloc::Global;
use std::test::Fail;

/// The next timeout in nanoseconds, once timers that had come at this time were looked at.
fn after(alloc: Global, client: &mut Connection<Toy>, nanos: u64) -> Option<u64> {
    client
        .handle_timeout(alloc, Instant::from_nanos(nanos))
        .ok()?;
    next(client)
}

/// The next timeout in nanoseconds.
fn next(client: &Connection<Toy>) -> Option<u64> {
    match client.poll_timeout() {
        None => None,
        Some(time) => Some(time.nanos()),
    }
}

/// Whether the next event tells that the peer gave no sign for too long.
fn timed_out(client: &mut Connection<Toy>) -> bool {
    let event = client.poll();
    matches!(
        &event,
        Some(Event::ConnectionLost {
            reason: ConnectionError::TimedOut,
        },)
    )
}

/// Whether the next event for the endpoint tells that the connection has ended.
fn drained(client: &mut Connection<Toy>) -> bool {
    let event = client.poll_endpoint_events();
    matches!(&event, Some(EndpointEvent::Drained))
}

// The loss timer fires 999, 2 * 999 and 4 * 999 ms after the hello; 8 * 999 ms lie behind the end.
#[test]
fn an_idle_client_ends_once(rt: HostRuntime) -> Result<(), Fail> {
    let mut client = client_with_limit(rt.alloc(), 5_000).ok_or("no client")?;
    assert_eq!(rt; sealed_len(rt.alloc(), &mut client, 7), Some(1200));
    assert_eq!(rt; next(&client), Some(999_000_007));
    assert_eq!(rt;
        after(rt.alloc(), &mut client, 999_000_006),
        Some(999_000_007)
    );
    assert_eq!(rt;
        after(rt.alloc(), &mut client, 999_000_007),
        Some(1_998_000_007)
    );
    assert_eq!(rt;
        after(rt.alloc(), &mut client, 1_998_000_007),
        Some(3_996_000_007)
    );
    assert_eq!(rt;
        after(rt.alloc(), &mut client, 3_996_000_007),
        Some(5_000_000_007)
    );
    assert_eq!(rt;
        after(rt.alloc(), &mut client, 5_000_000_006),
        Some(5_000_000_007)
    );
    assert!(rt; !has_event(&mut client));
    assert_eq!(rt; after(rt.alloc(), &mut client, 5_000_000_007), None);
    assert!(rt; timed_out(&mut client));
    assert!(rt; !has_event(&mut client));
    assert!(rt; drained(&mut client));
    assert!(rt; !has_endpoint_event(&mut client));
    assert_eq!(rt; after(rt.alloc(), &mut client, 5_000_000_008), None);
    assert!(rt; !has_event(&mut client));
    assert!(rt; !has_endpoint_event(&mut client));
    Ok(())
}

// A limit below three probe timeouts: the end stands before the third time that the loss timer would fire.
#[test]
fn a_short_limit_waits_for_three_probes(rt: HostRuntime) -> Result<(), Fail> {
    let mut client = client_with_limit(rt.alloc(), 100).ok_or("no client")?;
    assert_eq!(rt; sealed_len(rt.alloc(), &mut client, 7), Some(1200));
    assert_eq!(rt;
        after(rt.alloc(), &mut client, 999_000_007),
        Some(1_998_000_007)
    );
    assert_eq!(rt;
        after(rt.alloc(), &mut client, 1_998_000_007),
        Some(2_997_000_007)
    );
    assert!(rt; !has_event(&mut client));
    assert_eq!(rt; after(rt.alloc(), &mut client, 2_997_000_007), None);
    assert!(rt; timed_out(&mut client));
    Ok(())
}

#[test]
fn a_closed_client_ends_for_no_reason(rt: HostRuntime) -> Result<(), Fail> {
    let mut client = client_with_limit(rt.alloc(), 5_000).ok_or("no client")?;
    client.close(Instant::from_nanos(7), VarInt::from_u32(0), Bytes::new());
    assert_eq!(rt;
        after(rt.alloc(), &mut client, 2_997_000_006),
        Some(2_997_000_007)
    );
    assert!(rt; !has_endpoint_event(&mut client));
    assert_eq!(rt; after(rt.alloc(), &mut client, 2_997_000_007), None);
    assert!(rt; !has_event(&mut client));
    assert!(rt; drained(&mut client));
    assert!(rt; !has_endpoint_event(&mut client));
    Ok(())
}
