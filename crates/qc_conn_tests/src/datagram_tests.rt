//! The application's view of a connection's datagrams (RFC 9221).

use crate::call_tests::{END_TAKES_100, TWO_DATAGRAMS, Told, establish, hear, number_of, seals};
use crate::clients::{
    Toy, client_at, client_with_buffers, fresh_client, has_event, missing, sealed_len,
};
use crate::limit_tests::{datagram, transmit};
use bytes::Bytes;
use qc_conn::{Connection, Event, SendDatagramError};
use std::alloc::Global;
use std::test::Fail;

/// The trace's text of a packet of this number with a DATAGRAM of ten bytes 07, spelled with its length.
const TEN_SEVENS: &str = "seal data 1 0 DATAGRAM/310a07070707070707070707\n";

/// An established client whose peer takes frames of 100 bytes, and which keeps 100 bytes of datagrams that are to be sent.
fn client(alloc: Global) -> Option<Box<Connection<Toy>>> {
    let mut client = client_with_buffers(alloc, Some(1000), 100)?;
    let _answer = establish(alloc, &mut client, &END_TAKES_100)?;
    Some(client)
}

/// What the view answers that sends these bytes; None for want of memory.
fn sent(
    alloc: Global,
    client: &mut Connection<Toy>,
    bytes: &[u8],
    drop: bool,
) -> Option<Result<(), SendDatagramError>> {
    let body = Bytes::copy_from_slice(alloc, bytes).ok()?;
    Some(client.datagrams().send(body, drop))
}

/// How many bytes are given back of a datagram that is blocked.
fn given_back(answer: Option<Result<(), SendDatagramError>>) -> Option<usize> {
    match answer {
        Some(Err(SendDatagramError::Blocked(body))) => Some(body.len()),
        _ => None,
    }
}

/// The number that the bytes of the oldest datagram spell that came.
fn taken(client: &mut Connection<Toy>) -> Option<u64> {
    let datagram = client.datagrams().recv()?;
    Some(number_of(datagram.as_slice()))
}

// Of a frame of 100 bytes the head takes 9 at most. In a buffer each counts 32 bytes more than it has: of 100 bytes one of 68 may be sent,
// and beside one of ten another of 26 (RFC 9221, section 3).
#[test]
fn datagrams_are_sent_and_taken_by_a_view(rt: HostRuntime) -> Result<(), Fail> {
    let alloc = rt.alloc();
    let mut client = client(alloc).ok_or("no client")?;
    assert_eq!(rt; client.datagrams().max_size(), Some(91));
    assert_eq!(rt; client.datagrams().send_buffer_space(), 68);
    assert_eq!(rt; sent(alloc, &mut client, &[7; 10], false), Some(Ok(())));
    assert_eq!(rt; client.datagrams().send_buffer_space(), 26);
    assert!(rt; seals(alloc, &mut client, TEN_SEVENS)?);
    assert_eq!(rt; client.datagrams().send_buffer_space(), 68);
    assert_eq!(rt;
        hear(alloc, &mut client, 4, &TWO_DATAGRAMS),
        Some(Told::Done)
    );
    assert_eq!(rt; taken(&mut client), Some(0xabcd));
    assert_eq!(rt; taken(&mut client), Some(0x1_0203));
    assert_eq!(rt; taken(&mut client), None);
    Ok(())
}

// The refusal is remembered until the next packet with a DATAGRAM, and told with that one alone.
#[test]
fn that_there_is_room_again_is_told_once(rt: HostRuntime) -> Result<(), Fail> {
    let alloc = rt.alloc();
    let mut client = client(alloc).ok_or("no client")?;
    assert_eq!(rt; sent(alloc, &mut client, &[7; 10], false), Some(Ok(())));
    assert_eq!(rt;
        given_back(sent(alloc, &mut client, &[0; 27], false)),
        Some(27)
    );
    assert_eq!(rt; sent(alloc, &mut client, &[8; 26], false), Some(Ok(())));
    assert!(rt; !has_event(&mut client));
    assert!(rt; sealed_len(alloc, &mut client, 4).is_some());
    assert!(rt; client.poll() == Some(Event::DatagramsUnblocked));
    assert!(rt; !has_event(&mut client));
    assert_eq!(rt; sent(alloc, &mut client, &[7; 10], false), Some(Ok(())));
    assert!(rt; sealed_len(alloc, &mut client, 5).is_some());
    assert!(rt; !has_event(&mut client));
    Ok(())
}

// A packet without a DATAGRAM tells nothing of it.
#[test]
fn the_trace_tells_that_there_is_room_again(rt: HostRuntime) -> Result<(), Fail> {
    let alloc = rt.alloc();
    let mut client = client(alloc).ok_or("no client")?;
    assert_eq!(rt;
        given_back(sent(alloc, &mut client, &[0; 69], false)),
        Some(69)
    );
    client.ping();
    assert!(rt; sealed_len(alloc, &mut client, 4).is_some());
    assert!(rt; !has_event(&mut client));
    assert_eq!(rt; sent(alloc, &mut client, &[0; 68], false), Some(Ok(())));
    let told = missing(alloc, &mut client, &[transmit(5)], &["event unblocked\n"])?;
    assert!(rt; told.is_none());
    assert_eq!(rt; sent(alloc, &mut client, &[0; 68], false), Some(Ok(())));
    let again = missing(alloc, &mut client, &[transmit(6)], &["event unblocked\n"])?;
    assert!(rt; again.is_some());
    Ok(())
}

// Where the oldest may be dropped, none is blocked, and nothing is told: one of 91 bytes counts more than the buffer has, and stays alone.
#[test]
fn the_oldest_are_dropped_where_they_may_be(rt: HostRuntime) -> Result<(), Fail> {
    let alloc = rt.alloc();
    let mut client = client(alloc).ok_or("no client")?;
    assert_eq!(rt; sent(alloc, &mut client, &[0; 91], true), Some(Ok(())));
    assert_eq!(rt; client.datagrams().send_buffer_space(), 0);
    assert_eq!(rt; sent(alloc, &mut client, &[7; 10], true), Some(Ok(())));
    assert!(rt; seals(alloc, &mut client, TEN_SEVENS)?);
    assert!(rt; !has_event(&mut client));
    Ok(())
}

#[test]
fn datagrams_are_refused_for_their_cause(rt: HostRuntime) -> Result<(), Fail> {
    let alloc = rt.alloc();
    let mut disabled = client_with_buffers(alloc, None, 100).ok_or("no client")?;
    assert_eq!(rt;
        sent(alloc, &mut disabled, &[0; 92], false),
        Some(Err(SendDatagramError::Disabled))
    );
    let mut early = fresh_client(alloc).ok_or("no client")?;
    assert_eq!(rt; early.datagrams().max_size(), None);
    assert_eq!(rt;
        sent(alloc, &mut early, &[0; 92], false),
        Some(Err(SendDatagramError::UnsupportedByPeer))
    );
    let mut client = client(alloc).ok_or("no client")?;
    assert_eq!(rt;
        sent(alloc, &mut client, &[0; 92], false),
        Some(Err(SendDatagramError::TooLarge))
    );
    let mut failed = client_at(alloc, 0, true).ok_or("no client")?;
    assert_eq!(rt;
        sent(alloc, &mut failed, &[0; 92], false),
        Some(Err(SendDatagramError::Failed))
    );
    assert_eq!(rt; taken(&mut failed), None);
    Ok(())
}

/// Whether a client that keeps so many bytes of datagrams that came closes as two come, of two and of three bytes: PROTOCOL_VIOLATION is 10
/// (RFC 9000, section 20.1).
fn refuses(alloc: Global, receive: Option<usize>) -> Result<bool, Fail> {
    let mut client = client_with_buffers(alloc, receive, 100).ok_or("no client")?;
    let _last = establish(alloc, &mut client, &END_TAKES_100).ok_or("no end")?;
    let bytes = Vec::from_slice(alloc, &TWO_DATAGRAMS)?;
    let inputs = [datagram(4, bytes)];
    let told = missing(alloc, &mut client, &inputs, &["lost TransportError 10 -\n"])?;
    Ok(told.is_none())
}

// None may come to an end that announced no size, and none longer than what it announced (RFC 9221, section 3).
#[test]
fn a_datagram_that_may_not_come_closes(rt: HostRuntime) -> Result<(), Fail> {
    let alloc = rt.alloc();
    assert!(rt; refuses(alloc, None)?);
    assert!(rt; refuses(alloc, Some(2))?);
    assert!(rt; !refuses(alloc, Some(3))?);
    Ok(())
}
