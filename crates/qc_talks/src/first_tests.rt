//! Which datagram a server takes as its first one.

use crate::closing_tests::tells;
use crate::ends::End;
use crate::setups::{address, client_address};
use std::alloc::{AllocError, Global};
use std::net::SocketAddr;
use std::process::Abort;
use std::test::Fail;

// A client's hello, sealed by a program of its own in another language: an Initial packet, number 0, with a CRYPTO frame of 11
// bytes, PADDING and the tag. Its parameters name the source id of eight bytes 02.

/// The header in front of its field Length.
const IDS: [u8; 24] = [
    0xc4, 0, 0, 0, 1, 8, 3, 3, 3, 3, 3, 3, 3, 3, 8, 2, 2, 2, 2, 2, 2, 2, 2, 0,
];

/// The masked number, and the sealed CRYPTO frame.
const FRONT: [u8; 18] = [5, 0, 6, 8, 2, 3, 11, 0, 15, 8, 2, 2, 2, 2, 2, 2, 2, 4];

/// Sealed PADDING: these bytes again and again.
const PADDING: [u8; 16] = [6, 6, 3, 3, 0, 0, 0, 0, 0, 0, 0, 0, 0, 0, 0, 6];

/// What tells packets of the same hello apart.
struct Hello {
    /// The field Length: the bytes behind it.
    length: [u8; 2],
    /// How many bytes of PADDING there are.
    paddings: usize,
    /// The tag.
    tag: [u8; 16],
}

/// A packet of 24 + 2 + 18 + 1140 + 16 = 1200 bytes, 1174 behind the field Length.
const WHOLE: Hello = Hello {
    length: [0x44, 0x96],
    paddings: 1140,
    tag: [
        0x12, 0x1e, 0x2a, 0x33, 0x3f, 0x48, 0x54, 0x60, 0x6c, 0x78, 0x84, 0x90, 0x9c, 0xa8, 0xb4,
        0xc0,
    ],
};

/// One of 1199 bytes.
const SHORT: Hello = Hello {
    length: [0x44, 0x95],
    paddings: 1139,
    tag: [
        0xf8, 0xea, 0xdc, 0xcb, 0xbd, 0xac, 0x9e, 0x90, 0x82, 0x74, 0x66, 0x58, 0x4a, 0x3c, 0x2e,
        0x20,
    ],
};

/// The bytes of a hello.
fn bytes_of(alloc: Global, hello: &Hello) -> Result<Vec<u8>, AllocError> {
    let mut bytes = Vec::from_slice(alloc, &IDS)?;
    bytes.extend_from_slice(&hello.length)?;
    bytes.extend_from_slice(&FRONT)?;
    for i in 0..hello.paddings {
        bytes.push(PADDING[i % 16])?;
    }
    bytes.extend_from_slice(&hello.tag)?;
    Ok(bytes)
}

/// The hello of a client.
fn hello_of(alloc: Global, client: &mut End) -> Result<Vec<u8>, Fail> {
    match client.sends(alloc, 1)? {
        Some(datagram) => Ok(datagram),
        None => Err(Fail::from("no hello")),
    }
}

/// The hello of the client whose first packets go to the id of eight such bytes.
fn hello_to(alloc: Global, first: u8) -> Result<Vec<u8>, Fail> {
    let mut client = End::client(alloc, first)?;
    hello_of(alloc, &mut client)
}

/// Checks that the server doesn't take this datagram from there: it drops it, sends nothing, since nothing is owed, and gives no event.
fn drops(
    rt: &impl Abort,
    alloc: Global,
    server: &mut End,
    remote: SocketAddr,
    datagram: &[u8],
) -> Result<(), Fail> {
    server.forget();
    server.takes(alloc, 2, remote, None, datagram)?;
    let sent = server.sends(alloc, 2)?;
    assert!(rt; sent.is_none());
    tells(rt, alloc, server, "answer ", "answer dropped\n")?;
    tells(rt, alloc, server, "piece ", "")?;
    tells(rt, alloc, server, "quiet ", "quiet NothingOwed\n")?;
    tells(rt, alloc, server, "event ", "")
}

/// Checks that the server takes this datagram from its client's address, and answers.
fn takes(rt: &impl Abort, alloc: Global, server: &mut End, datagram: &[u8]) -> Result<(), Fail> {
    server.forget();
    server.takes(alloc, 3, client_address(), None, datagram)?;
    tells(rt, alloc, server, "answer ", "answer done\n")?;
    tells(rt, alloc, server, "piece ", "piece initial 0 Admitted\n")?;
    tells(rt, alloc, server, "event ", "event handshake-data\n")?;
    let sent = server.sends(alloc, 3)?;
    assert!(rt; sent.is_some());
    Ok(())
}

/// Checks that the server takes the whole hello.
fn takes_whole(rt: &impl Abort, alloc: Global, server: &mut End) -> Result<(), Fail> {
    let whole = bytes_of(alloc, &WHOLE)?;
    assert_eq!(rt; whole.len(), 1200);
    takes(rt, alloc, server, whole.as_slice())
}

/// Checks that the server drops three datagrams, and then takes the right one.
fn waits(rt: &impl Abort, alloc: Global, server: &mut End) -> Result<(), Fail> {
    let short = bytes_of(alloc, &SHORT)?;
    assert_eq!(rt; short.len(), 1199);
    drops(rt, alloc, server, client_address(), short.as_slice())?;
    let wrong = hello_to(alloc, 5)?;
    drops(rt, alloc, server, client_address(), wrong.as_slice())?;
    let right = hello_to(alloc, 3)?;
    drops(rt, alloc, server, address(50001), right.as_slice())?;
    takes(rt, alloc, server, right.as_slice())
}

// A server drops an Initial packet in a datagram of less than 1200 bytes (RFC 9000, section 14.1). This one is made for the id and the
// address of its client: one whose packet was made for another id doesn't open, and another address's datagram isn't its own. None of
// them keeps it from taking the right one then.
#[test]
fn a_server_waits_for_its_first_datagram(rt: HostRuntime) -> Result<(), Fail> {
    let alloc = rt.alloc();
    let mut server = End::server(alloc, None)?;
    waits(&rt, alloc, &mut server)
}

// With one byte of PADDING more the short hello is long enough.
#[test]
fn a_hello_of_1200_bytes_is_taken(rt: HostRuntime) -> Result<(), Fail> {
    let alloc = rt.alloc();
    let mut server = End::server(alloc, None)?;
    takes_whole(&rt, alloc, &mut server)
}
