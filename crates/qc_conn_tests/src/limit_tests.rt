//! Clients whose keys may seal only so many packets, and let only so many pass that don't open (RFC 9001, section 6.6).

use crate::clients::{client_with, missing};
use crate::event_tests::address;
use qc_base::Instant;
use qc_state::{Body, Input};
use qc_toy::ToySettings;
use std::alloc::Global;
use std::default::Default;
use std::test::Fail;

/// An Initial packet of a server with its reply, and a Handshake packet with its end, sealed by a program of its own in another language
/// under the toy's keys of a first id of eight bytes 02: with them the client is established. The first has 55 bytes.
const REPLY_AND_END: [u8; 124] =
    *b"\xc6\x00\x00\x00\x01\x08\x01\x01\x01\x01\x01\x01\x01\x01\x08\x04\x04\x04\x04\x04\x04\x04\x04\x00\x40\x1d\x0c\x06\x04\x04\x02\x02\x06\x01\x04\x02\x00\x01\x00\x77\xea\x5d\xce\x41\xb2\x26\x98\x0b\x7e\xf1\x64\xd7\x4a\xbd\x30\xe3\x00\x00\x00\x01\x08\x01\x01\x01\x01\x01\x01\x01\x01\x08\x04\x04\x04\x04\x04\x04\x04\x04\x40\x2c\x00\x06\x00\x18\x03\x00\x14\x01\x00\x08\x02\x02\x02\x02\x02\x02\x02\x02\x0f\x08\x04\x04\x05\x05\x04\x04\x04\x04\xad\x5a\x07\xb4\x61\x0f\xbc\x68\x15\xc2\x6f\x1c\xc9\x76\x23\xd0";

/// A 1-RTT packet of the server's with a PING.
const DATA_PING: [u8; 29] =
    *b"\x42\x01\x01\x01\x01\x01\x01\x01\x01\x05\x01\x00\x00\x82\x04\x86\x08\x8a\x0e\x8f\x10\x92\x14\x96\x18\x9a\x1c\x9e\x20";

/// A transmit at this time.
pub(crate) fn transmit(nanos: u64) -> Input {
    Input::Transmit {
        now: Instant::from_nanos(nanos),
        max_datagrams: 1,
    }
}

/// A PING is asked for at this time.
fn ping(nanos: u64) -> Input {
    Input::Ping {
        now: Instant::from_nanos(nanos),
    }
}

/// A datagram of the server's comes at this time.
pub(crate) fn datagram(nanos: u64, bytes: Vec<u8>) -> Input {
    Input::Datagram {
        now: Instant::from_nanos(nanos),
        remote: address(),
        ecn: None,
        bytes: Body::from_vec(bytes),
    }
}

/// The inputs of a client that is to send four PINGs in Handshake packets, behind the server's first datagram; then its second one
/// comes.
fn handshake_inputs(first: Vec<u8>, second: Vec<u8>) -> [Input; 14] {
    [
        transmit(0),
        datagram(1, first),
        transmit(1),
        ping(2),
        transmit(2),
        ping(3),
        transmit(3),
        ping(4),
        transmit(4),
        ping(5),
        transmit(5),
        transmit(6),
        datagram(7, second),
        transmit(7),
    ]
}

/// The place of the first of these parts that the text hasn't of a client whose keys have these limits, and which follows these
/// inputs; None where it has them all.
fn missing_of(
    alloc: Global,
    settings: ToySettings,
    inputs: &[Input],
    parts: &[&str],
) -> Result<Option<usize>, Fail> {
    let mut client = client_with(alloc, settings).ok_or("no client")?;
    missing(alloc, &mut client, inputs, parts)
}

// Of five packets the fourth starts the close, which the fifth tells; what is owed after that ends the connection.
#[test]
fn a_handshake_key_has_its_limit(rt: HostRuntime) -> Result<(), Fail> {
    let parts = [
        "step 4 transmit 2\nseal handshake 0 0 PING/01",
        "step 8 transmit 4\nseal handshake 2 0 PING/01",
        "step 10 transmit 5\nseal handshake 3 0 PING/01",
        "\nlife 2\nlost TransportError 15 -\nout c0000201/4433 ",
        "step 11 transmit 6\nseal handshake 4 0 CONNECTION_CLOSE/1c0f0000",
        "step 12 datagram 7\npiece handshake 0 ReadForClose\n",
        "step 13 transmit 7\nlife 4\nquiet Killed\nendpoint drained\ntimer -\nend\n",
    ];
    let (reply, end) = REPLY_AND_END.split_at(55);
    let first = Vec::from_slice(rt.alloc(), reply)?;
    let second = Vec::from_slice(rt.alloc(), end)?;
    let inputs = handshake_inputs(first, second);
    let mut settings = ToySettings::default();
    settings.limit_handshake = 5;
    assert_eq!(rt; missing_of(rt.alloc(), settings, &inputs, &parts)?, None);
    Ok(())
}

/// The inputs of a client that is to send two PINGs once it is established; once it has closed, a packet of the server's comes.
fn data_inputs(first: Vec<u8>, behind: Vec<u8>) -> [Input; 14] {
    [
        transmit(0),
        datagram(1, first),
        transmit(2),
        transmit(3),
        ping(4),
        transmit(4),
        ping(5),
        transmit(5),
        transmit(6),
        transmit(7),
        transmit(8),
        datagram(9, behind),
        transmit(9),
        transmit(10),
    ]
}

// Of three packets the second starts the close, which the third tells, behind one of the Handshake space, whose keys the client has
// still, in one datagram of 51 + 30 bytes. A close that is owed after that ends the connection as it is the turn of the 1-RTT space: what
// was sealed of the Handshake space then isn't sent. A 1-RTT header with a number of 1 byte has 10 bytes, so 3 bytes of PADDING behind a
// PING come to the 14 that it needs before its tag. Number 0 is skipped. A client's datagram with an Initial packet has 1200 bytes; of them
// its packets have 27 + 5 + 16 for an ACK and 26 + 5 + 6 + 16 for an ACK and the end, so 1099 are PADDING.
#[test]
fn a_data_key_has_its_limit(rt: HostRuntime) -> Result<(), Fail> {
    let parts = [
        "step 2 transmit 2\nseal initial 1 0 ACK/020a000000\nseal handshake 0 0 ACK/0200000000 CRYPTO/060003040000 PADDING*1099\nout c0000201/4433 1200 ",
        "step 3 transmit 3\nquiet NothingOwed\n",
        "step 5 transmit 4\nseal data 1 0 PING/01 PADDING*3\nout c0000201/4433 30 ",
        "step 7 transmit 5\nseal data 2 0 PING/01 PADDING*3\nlife 2\nlost TransportError 15 -\nout c0000201/4433 30 ",
        "step 8 transmit 6\nseal handshake 1 0 ACK/0200000000 CONNECTION_CLOSE/1c0f0000\nseal data 3 0 CONNECTION_CLOSE/1c0f0000\nout c0000201/4433 81 ",
        "step 9 transmit 7\nquiet Silent\n",
        "step 10 transmit 8\nquiet Silent\n",
        "step 11 datagram 9\npiece data 1 ReadForClose\n",
        "step 12 transmit 9\nseal handshake 2 0 ACK/0200000000 CONNECTION_CLOSE/1c0f0000\nlife 4\nquiet Killed\nendpoint drained\ntimer -\n",
        "step 13 transmit 10\nquiet Silent\ntimer -\nend\n",
    ];
    let first = Vec::from_slice(rt.alloc(), &REPLY_AND_END)?;
    let behind = Vec::from_slice(rt.alloc(), &DATA_PING)?;
    let inputs = data_inputs(first, behind);
    let mut settings = ToySettings::default();
    settings.limit_data = 3;
    assert_eq!(rt; missing_of(rt.alloc(), settings, &inputs, &parts)?, None);
    Ok(())
}
