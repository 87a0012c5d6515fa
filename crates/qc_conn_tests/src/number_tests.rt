//! Clients near the limit of packet numbers, one that met want of memory, and limits on idle time.

use crate::clients::{Toy, client_at, has_endpoint_event, has_event, missing, sealed_len};
use qc_base::{Duration, Instant, TransportErrorCode, VarInt};
use qc_config::NoneTokenStore;
use qc_conn::{Connection, DriveKind, drive, negotiate_max_idle_timeout, text_tells_run};
use qc_state::{ConnectionError, Event, Input};
use std::alloc::Global;
use std::test::Fail;

/// The code of the error with which this end closed; None where no such event waits.
fn lost_code(client: &mut Connection<Toy>) -> Option<TransportErrorCode> {
    let event = client.poll();
    match &event {
        Some(
            Event::ConnectionLost {
                reason: ConnectionError::TransportError(error),
            },
        ) => Some(error.code),
        _ => None,
    }
}

// The largest number that can be spelled while nothing was acknowledged is 2^31 - 1 (RFC 9000, A.2). The packet after
// it ends the connection, with one reason and one report of each kind.
#[test]
fn the_last_number_ends_the_connection(rt: HostRuntime) -> Result<(), Fail> {
    let mut client = client_at(rt.alloc(), 0x7fff_ffff, false).ok_or("no client")?;
    assert_eq!(rt; sealed_len(rt.alloc(), &mut client, 1), Some(1200));
    assert_eq!(rt; sealed_len(rt.alloc(), &mut client, 2), None);
    assert!(rt; !has_event(&mut client));
    assert!(rt; client.poll_timeout().is_some());
    client.ping();
    assert_eq!(rt; sealed_len(rt.alloc(), &mut client, 3), None);
    assert_eq!(rt;
        lost_code(&mut client),
        Some(TransportErrorCode::INTERNAL_ERROR)
    );
    assert!(rt; !has_event(&mut client));
    assert!(rt; has_endpoint_event(&mut client));
    assert!(rt; !has_endpoint_event(&mut client));
    assert!(rt; client.poll_timeout().is_none());
    client.ping();
    assert_eq!(rt; sealed_len(rt.alloc(), &mut client, 4), None);
    assert!(rt; !has_event(&mut client));
    Ok(())
}

/// A transmit, a PING and a transmit at time 1, and a transmit.
fn inputs() -> [Input; 4] {
    let start = Instant::from_nanos(0);
    let then = Instant::from_nanos(1);
    let last = Instant::from_nanos(2);
    [
        Input::Transmit {
            now: start,
            max_datagrams: 1,
        },
        Input::Ping { now: then },
        Input::Transmit {
            now: then,
            max_datagrams: 1,
        },
        Input::Transmit {
            now: last,
            max_datagrams: 1,
        },
    ]
}

/// The place of the first of these parts that the text hasn't of a client whose next packet has this number; None where it has them
/// all.
fn missing_from(alloc: Global, number: u64, parts: &[&str]) -> Result<Option<usize>, Fail> {
    let mut client = client_at(alloc, number, false).ok_or("no client")?;
    missing(alloc, &mut client, &inputs(), parts)
}

// The lines are written by hand, by the rules of the trace's text.
#[test]
fn the_trace_tells_how_the_last_number_ended_it(rt: HostRuntime) -> Result<(), Fail> {
    let parts = [
        "step 0 transmit 0\nseal initial 2147483647 0 CRYPTO/0600",
        "step 1 ping 1\nanswer done\ntimer ",
        "step 2 transmit 1\nlife 4\nlost TransportError 1 -\nquiet Killed\nevent lost TransportError 1 -\nendpoint drained\ntimer -\n",
        "step 3 transmit 2\nquiet Silent\ntimer -\nend\n",
    ];
    assert_eq!(rt; missing_from(rt.alloc(), 0x7fff_ffff, &parts)?, None);
    text_tells_run::<Toy, Toy>();
    Ok(())
}

// One number before the limit nothing ends.
#[test]
fn numbers_below_the_limit_go_on(rt: HostRuntime) -> Result<(), Fail> {
    let parts = [
        "seal initial 2147483646 0 CRYPTO/0600",
        "seal initial 2147483647 0 PING/01 PADDING*",
        "step 3 transmit 2\nquiet NothingOwed\ntimer ",
    ];
    assert_eq!(rt; missing_from(rt.alloc(), 0x7fff_fffe, &parts)?, None);
    Ok(())
}

/// Why these inputs are refused, and how many steps came before.
fn refused(
    alloc: Global,
    client: &mut Connection<Toy>,
    inputs: &[Input],
) -> Option<(DriveKind, usize)> {
    match drive(alloc, client, inputs, &mut NoneTokenStore) {
        Ok(_) => None,
        Err(error) => Some((error.kind, error.done.as_slice().len())),
    }
}

#[test]
fn a_failed_connection_refuses(rt: HostRuntime) -> Result<(), Fail> {
    let mut client = client_at(rt.alloc(), 0, true).ok_or("no client")?;
    assert_eq!(rt;
        refused(rt.alloc(), &mut client, &inputs()),
        Some((DriveKind::Failed, 0))
    );
    assert_eq!(rt; sealed_len(rt.alloc(), &mut client, 3), None);
    Ok(())
}

// The lesser of two limits on idle time in milliseconds holds; none and 0 are no limit (RFC 9000, 10.1).
#[test]
fn the_lesser_limit_holds(rt: HostRuntime) -> Result<(), Fail> {
    let cases = [
        (None, None, None),
        (None, Some(0), None),
        (Some(0), Some(0), None),
        (None, Some(2), Some(2)),
        (Some(2), Some(0), Some(2)),
        (Some(1), Some(4), Some(1)),
    ];
    for (x, y, millis) in cases {
        for (a, b) in [(x, y), (y, x)] {
            let limit = negotiate_max_idle_timeout(varint(a), varint(b));
            assert_eq!(rt; limit, millis.map(Duration::from_millis));
        }
    }
    Ok(())
}

/// A number of milliseconds, where there is one.
fn varint(millis: Option<u32>) -> Option<VarInt> {
    match millis {
        None => None,
        Some(millis) => Some(VarInt::from_u32(millis)),
    }
}
