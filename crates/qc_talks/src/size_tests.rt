//! The sizes of datagrams, as the configuration of the transport has them.

use crate::ends::lines_with;
use crate::pair::{ONCE, Pair};
use qc_base::{Dir, Instant, Side, StreamId};
use qc_recovery::TransportConfig;
use qc_state::{Body, Input};
use std::alloc::{AllocError, Global};
use std::default::Default;
use std::process::Abort;
use std::test::Fail;

/// How many lines a text has.
fn count_lines(text: &str) -> usize {
    let mut count: usize = 0;
    let mut rest = text;
    for _ in 0..text.len() {
        match rest.split_once("\n") {
            Some((_, behind)) => {
                count = count.saturating_add(1);
                rest = behind;
            }
            None => return count,
        }
    }
    count
}

/// Checks that a text tells so many datagrams to the server, all of them of this size, which is the third word of their lines.
fn sent(rt: &impl Abort, alloc: Global, text: &str, size: &str, count: usize) -> Result<(), Fail> {
    let mut words = String::from_str(alloc, "out c0000201/4433 ")?;
    words.push_str(size)?;
    words.push_str(" ")?;
    let all = lines_with(alloc, text, "out ")?;
    let such = lines_with(alloc, text, words.as_str())?;
    assert_eq!(rt; such.as_str(), all.as_str());
    assert_eq!(rt; count_lines(such.as_str()), count);
    Ok(())
}

// A client's first datagram is filled up to the size that every path takes (RFC 9000, section 14.1), as far as the configuration says: 1300 bytes here,
// which is then the size of the path's datagrams too.
#[test]
fn the_hello_is_filled_up_to_the_least_size(rt: HostRuntime) -> Result<(), Fail> {
    let alloc = rt.alloc();
    let mut transport = TransportConfig::default();
    transport.min_mtu(1300);
    let mut pair = Pair::of(alloc, transport, None)?;
    let _sent = pair.carry_one(alloc, true, ONCE)?;
    sent(&rt, alloc, pair.client.text.as_str(), "1300", 1)
}

// It isn't filled up to the path's size.
#[test]
fn the_hello_is_not_filled_up_to_the_path_s_size(rt: HostRuntime) -> Result<(), Fail> {
    let alloc = rt.alloc();
    let mut transport = TransportConfig::default();
    transport.initial_mtu(1400).pad_to_mtu(true);
    let mut pair = Pair::of(alloc, transport, None)?;
    let _sent = pair.carry_one(alloc, true, ONCE)?;
    sent(&rt, alloc, pair.client.text.as_str(), "1200", 1)
}

// A datagram with a 1-RTT packet has the path's size where the configuration pads such ones: beside the header of 10 bytes, the tag of 16 and the PING,
// 1400 - 27 = 1373 bytes are PADDING. The peer takes datagrams of 1472 bytes.
#[test]
fn each_datagram_is_padded(rt: HostRuntime) -> Result<(), Fail> {
    let alloc = rt.alloc();
    let mut transport = TransportConfig::default();
    transport.initial_mtu(1400).pad_to_mtu(true);
    let mut pair = Pair::of(alloc, transport, None)?;
    pair.carry(alloc, ONCE)?;
    pair.forget();
    for _ in 0..3 {
        pair.ping(alloc, true)?;
        let _sent = pair.carry_one(alloc, true, ONCE)?;
    }
    sent(&rt, alloc, pair.client.text.as_str(), "1400", 3)?;
    let padded = pair.client.told(alloc, "seal data ")?;
    assert!(rt; padded.as_str().contains("PING/01 PADDING*1373"));
    Ok(())
}

/// So many bytes of 0.
fn zeros(alloc: Global, count: usize) -> Result<Body, AllocError> {
    let mut bytes = Vec::new(alloc);
    for _ in 0..count {
        bytes.push(0)?;
    }
    Ok(Body::from_vec(bytes))
}

// So is each one of a transmit that has several, the last one too. Behind the header of 10 bytes and before the tag of 16 there are 1374, 19 of which are kept for the
// head of a STREAM frame: 3000 bytes of a stream go in two datagrams with 1355 of them, and one with 290.
#[test]
fn each_datagram_of_a_transmit_is_padded(rt: HostRuntime) -> Result<(), Fail> {
    let alloc = rt.alloc();
    let mut transport = TransportConfig::default();
    transport.initial_mtu(1400).pad_to_mtu(true);
    let mut pair = Pair::of(alloc, transport, None)?;
    pair.carry(alloc, ONCE)?;
    pair.forget();
    let now = Instant::from_nanos(pair.nanos);
    pair.client
        .calls(alloc, &Input::Open { now, dir: Dir::Bi })?;
    let id = StreamId::new(Side::Client, Dir::Bi, 0);
    let body = zeros(alloc, 3000)?;
    pair.client.calls(alloc, &Input::Write { now, id, body })?;
    let input = Input::Transmit {
        now,
        max_datagrams: 10,
    };
    pair.client.calls(alloc, &input)?;
    sent(&rt, alloc, pair.client.text.as_str(), "4200 1400", 1)
}

// Without that it has as many bytes as it needs: the second PING goes without an ACK beside it, in 10 + 4 + 16 bytes.
#[test]
fn datagrams_are_not_padded(rt: HostRuntime) -> Result<(), Fail> {
    let alloc = rt.alloc();
    let mut transport = TransportConfig::default();
    transport.initial_mtu(1400);
    let mut pair = Pair::of(alloc, transport, None)?;
    pair.carry(alloc, ONCE)?;
    pair.ping(alloc, true)?;
    let _sent = pair.carry_one(alloc, true, ONCE)?;
    pair.forget();
    pair.ping(alloc, true)?;
    let _sent = pair.carry_one(alloc, true, ONCE)?;
    sent(&rt, alloc, pair.client.text.as_str(), "30", 1)
}
