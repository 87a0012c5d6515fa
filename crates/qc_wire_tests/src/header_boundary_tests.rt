//! The least and greatest lengths that a header may have, by hand from RFC 9000, sections 16 and 17.

ghost use Rattle.std.specs.Prelude.{◌<◌, ◌^◌};

use bytes::BytesMut;
use qc_base::ConnectionId;
use qc_header::{PacketDecodeError, PartialDecode, ProtectedHeader};
use std::alloc::{AllocError, Global};
use std::test::Fail;

/// A Retry packet whose ids have so many bytes, all of them 7.
fn retry(alloc: Global, dst_len: u8, src_len: u8) -> Result<BytesMut, AllocError> {
    let mut packet = b"\xf0\x00\x00\x00\x01".to_vec(alloc)?;
    packet.extend_from_slice(&[dst_len])?;
    let dst_end = packet.len() + dst_len as usize;
    packet.resize(dst_end, 7)?;
    packet.extend_from_slice(&[src_len])?;
    let src_end = packet.len() + src_len as usize;
    packet.resize(src_end, 7)?;
    BytesMut::copy_from_slice(alloc, packet.as_slice())
}

/// What the packet is read as, where version 1 is known.
fn header_of(packet: BytesMut) -> Result<ProtectedHeader, PacketDecodeError> {
    let (partial, _) = PartialDecode::new(packet, 0, &[1], false)?;
    Ok(*partial.header())
}

// An id has 0 to 20 bytes (RFC 9000, section 17.2).
#[test]
fn id_lengths(rt: HostRuntime) -> Result<(), Fail> {
    let read = Ok(ProtectedHeader::Retry {
        dst_cid: ConnectionId::new(b""),
        src_cid: ConnectionId::new(&[7; 20]),
        version: 1,
    });
    assert!(rt; header_of(retry(rt.alloc(), 0, 20)?) == read);
    let read = Ok(ProtectedHeader::Retry {
        dst_cid: ConnectionId::new(&[7; 20]),
        src_cid: ConnectionId::new(b""),
        version: 1,
    });
    assert!(rt; header_of(retry(rt.alloc(), 20, 0)?) == read);
    for (dst_len, src_len) in [(21, 0), (0, 21), (255, 255)] {
        let packet = retry(rt.alloc(), dst_len, src_len)?;
        assert_eq!(rt;
            header_of(packet).err(),
            Some(PacketDecodeError::InvalidHeader)
        );
    }
    Ok(())
}

/// A Handshake packet without ids: its Length field, and so many bytes behind it.
fn handshake(alloc: Global, length_field: &[u8], behind: usize) -> Result<BytesMut, AllocError>
    requires { behind < 2 ^ 33 }
{
    let mut packet = b"\xe0\x00\x00\x00\x01\x00\x00".to_vec(alloc)?;
    packet.extend_from_slice(length_field)?;
    let end = packet.len() + behind;
    packet.resize(end, 0)?;
    BytesMut::copy_from_slice(alloc, packet.as_slice())
}

/// How many bytes the first packet has, and how many are behind it.
fn sizes(datagram: BytesMut) -> Option<(usize, usize)> {
    match PartialDecode::new(datagram, 0, &[1], false) {
        Ok((partial, rest)) => Some((partial.len(), rest.map_or(0, |rest| rest.len()))),
        Err(_) => None,
    }
}

/// How many bytes each packet of a datagram has, at most 4, and the fault behind them.
fn pieces(datagram: BytesMut, sizes: &mut [usize; 4]) -> Option<PacketDecodeError> {
    let mut rest = Some(datagram);
    for size in sizes {
        let Some(bytes) = rest else {
            return None;
        };
        match PartialDecode::new(bytes, 0, &[1], false) {
            Ok((partial, behind)) => {
                *size = partial.len();
                rest = behind;
            }
            Err(e) => return Some(e),
        }
    }
    None
}

// Handshake packets of 8 and 10 bytes, a Retry, which takes all bytes behind it; and the same with
// bytes between them that begin with no packet (RFC 9000, section 12.2).
#[test]
fn datagrams(rt: HostRuntime) -> Result<(), Fail> {
    let table: [(&[u8], [usize; 4], Option<PacketDecodeError>); 3] = [
        (
            b"\xe0\x00\x00\x00\x01\x00\x00\x00\xef\x00\x00\x00\x01\x00\x00\x40\x01\x07",
            [8, 10, 0, 0],
            None,
        ),
        (
            b"\xe0\x00\x00\x00\x01\x00\x00\x00\xf0\x00\x00\x00\x01\x00\x00\xe0\x00\x00\x00\x01\x00\x00\x00",
            [8, 15, 0, 0],
            None,
        ),
        (
            b"\xe0\x00\x00\x00\x01\x00\x00\x00\x00\xe0\x00\x00\x00\x01\x00\x00\x00",
            [8, 0, 0, 0],
            Some(PacketDecodeError::InvalidHeader),
        ),
    ];
    for (datagram, want, fault) in table {
        let mut sizes = [0; 4];
        let bytes = BytesMut::copy_from_slice(rt.alloc(), datagram)?;
        assert_eq!(rt; pieces(bytes, &mut sizes), fault);
        assert_eq!(rt; sizes, want);
    }
    Ok(())
}

// A Length field, of what value it is, and how many bytes packets with it have.
const LENGTHS: [(&[u8], u32, usize); 7] = [
    (b"\x00", 0, 8),
    (b"\x3f", 63, 71),
    (b"\x40\x40", 64, 73),
    (b"\x7f\xff", 16_383, 16_392),
    (b"\x80\x00\x40\x00", 16_384, 16_395),
    (b"\x40\x05", 5, 14),
    (b"\xc0\x00\x00\x00\x00\x00\x00\x05", 5, 20),
];

#[test]
fn lengths(rt: HostRuntime) -> Result<(), Fail> {
    for (length_field, value, size) in LENGTHS {
        let value = value as usize;
        let whole = handshake(rt.alloc(), length_field, value)?;
        assert_eq!(rt; sizes(whole), Some((size, 0)), "{value}");
        let more = handshake(rt.alloc(), length_field, value + 2)?;
        assert_eq!(rt; sizes(more), Some((size, 2)), "{value}");
        if value > 0 {
            let less = handshake(rt.alloc(), length_field, value - 1)?;
            assert_eq!(rt; sizes(less), None, "{value}");
        }
    }
    let most = handshake(rt.alloc(), b"\xff\xff\xff\xff\xff\xff\xff\xff", 40)?;
    assert_eq!(rt; sizes(most), None);
    Ok(())
}

/// An Initial packet without ids: its token's length, so many bytes, and what is behind them.
fn initial(
    alloc: Global,
    token_len: &[u8],
    token: usize,
    behind: &[u8],
) -> Result<BytesMut, AllocError>
    requires { token < 2 ^ 33 }
{
    let mut packet = b"\xc0\x00\x00\x00\x01\x00\x00".to_vec(alloc)?;
    packet.extend_from_slice(token_len)?;
    let end = packet.len() + token;
    packet.resize(end, 0)?;
    packet.extend_from_slice(behind)?;
    BytesMut::copy_from_slice(alloc, packet.as_slice())
}

/// Where the token begins, and how many bytes it has.
fn token_of(packet: BytesMut) -> Option<(usize, usize)> {
    match header_of(packet) {
        Ok(
            ProtectedHeader::Initial {
                token_start,
                token_len,
                ..
            },
        ) => Some((token_start, token_len)),
        _ => None,
    }
}

// A token's length, of what value it is, and where the token begins.
const TOKENS: [(&[u8], u32, usize); 6] = [
    (b"\x00", 0, 8),
    (b"\x3f", 63, 8),
    (b"\x40\x40", 64, 9),
    (b"\x7f\xff", 16_383, 9),
    (b"\x80\x00\x40\x00", 16_384, 11),
    (b"\xc0\x00\x00\x00\x00\x00\x00\x01", 1, 15),
];

#[test]
fn tokens(rt: HostRuntime) -> Result<(), Fail> {
    for (token_len, value, start) in TOKENS {
        let value = value as usize;
        let whole = initial(rt.alloc(), token_len, value, b"\x02\x00\x00")?;
        assert_eq!(rt; token_of(whole), Some((start, value)), "{value}");
        let no_length = initial(rt.alloc(), token_len, value, b"")?;
        assert_eq!(rt; token_of(no_length), None, "{value}");
        if value > 0 {
            let cut = initial(rt.alloc(), token_len, value - 1, b"")?;
            assert_eq!(rt; token_of(cut), None, "{value}");
        }
    }
    let most = initial(rt.alloc(), b"\xff\xff\xff\xff\xff\xff\xff\xff", 40, b"\x00")?;
    assert_eq!(rt; token_of(most), None);
    Ok(())
}
