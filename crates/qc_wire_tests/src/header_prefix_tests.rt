//! Each prefix of one packet of each form, where ids of this end have 4 bytes and version 1 is
//! known. Where each prefix begins to be read was computed by a reader written apart from this one,
//! by the tables of RFC 9000, section 17.

ghost use Rattle.std.specs.Prelude.{◌≤◌, ◌+◌, length};

use crate::header_tests::FixedMask;
use bytes::{Bytes, BytesMut};
use qc_base::{ConnectionId, LongType, PacketNumber};
use qc_header::{Header, InitialHeader, Packet, PacketDecodeError, PartialDecode, ProtectedHeader};
use std::alloc::{AllocError, Global};
use std::test::Fail;

/// What is behind the number of each packet that has one.
const PAYLOAD: &[u8] = b"abcdefghijklmnopqr";

fn dst_cid() -> ConnectionId {
    ConnectionId::new(b"\xa1\xa2\xa3\xa4")
}

fn src_cid() -> ConnectionId {
    ConnectionId::new(b"\xb1\xb2")
}

/// What the first packet of a datagram is read as.
fn read(
    datagram: BytesMut,
    grease_quic_bit: bool,
) -> Result<(PartialDecode, Option<BytesMut>), PacketDecodeError> {
    PartialDecode::new(datagram, 4, &[1], grease_quic_bit)
}

/// Whether each prefix of less than `end` bytes is refused so, from `start` bytes on.
fn are_refused(
    alloc: Global,
    packet: &[u8],
    start: usize,
    end: usize,
    why: &PacketDecodeError,
) -> Result<bool, AllocError>
    requires { end ≤ length packet.now + 1 }
{
    for len in start..end {
        let datagram = BytesMut::copy_from_slice(alloc, &packet[..len])?;
        if read(datagram, false).err() != Some(*why) {
            return Ok(false);
        }
    }
    Ok(true)
}

/// Whether each prefix is refused as no header that has less than `end` bytes.
fn are_invalid(alloc: Global, packet: &[u8], end: usize) -> Result<bool, AllocError>
    requires { end ≤ length packet.now + 1 }
{
    are_refused(alloc, packet, 0, end, &PacketDecodeError::InvalidHeader)
}

/// Whether the datagram is read as one packet with this header.
fn is_read(datagram: BytesMut, grease_quic_bit: bool, header: &ProtectedHeader) -> bool {
    let len = datagram.len();
    match read(datagram, grease_quic_bit) {
        Ok((partial, rest)) => *partial.header() == *header
            && partial.len() == len
            && rest.is_none(),
        Err(_) => false,
    }
}

/// Whether each prefix of `start` bytes or more is read as one packet with this header.
fn are_read(
    alloc: Global,
    packet: &[u8],
    start: usize,
    grease_quic_bit: bool,
    header: &ProtectedHeader,
) -> Result<bool, AllocError> {
    for len in start..packet.len() + 1 {
        let datagram = BytesMut::copy_from_slice(alloc, &packet[..len])?;
        if !is_read(datagram, grease_quic_bit, header) {
            return Ok(false);
        }
    }
    Ok(true)
}

/// The packet without a mask, which changes nothing.
fn finish(datagram: BytesMut, grease_quic_bit: bool) -> Result<Packet, PacketDecodeError> {
    let (partial, _) = read(datagram, grease_quic_bit)?;
    let key = FixedMask([0; 5]);
    partial.finish(Some(&key))
}

/// Whether the packet has this header, and behind it these bytes.
fn is_packet(
    alloc: Global,
    packet: &[u8],
    header: &Header,
    payload: &[u8],
) -> Result<bool, AllocError> {
    let datagram = BytesMut::copy_from_slice(alloc, packet)?;
    Ok(match finish(datagram, false) {
        Ok(packet) => packet.header == *header && packet.payload.as_slice() == payload,
        Err(_) => false,
    })
}

#[test]
fn initial(rt: HostRuntime) -> Result<(), Fail> {
    let packet =
        b"\xc1\x00\x00\x00\x01\x04\xa1\xa2\xa3\xa4\x02\xb1\xb2\x03tok\x14\x01\x02abcdefghijklmnopqr";
    assert!(rt; are_invalid(rt.alloc(), packet, 38)?);
    let readable = ProtectedHeader::Initial {
        dst_cid: dst_cid(),
        src_cid: src_cid(),
        token_start: 14,
        token_len: 3,
        version: 1,
    };
    assert!(rt; are_read(rt.alloc(), packet, 38, false, &readable)?);
    let header = Header::Initial(InitialHeader {
        dst_cid: dst_cid(),
        src_cid: src_cid(),
        token: Bytes::copy_from_slice(rt.alloc(), b"tok")?,
        number: PacketNumber::U16(0x0102),
        version: 1,
    });
    assert!(rt; is_packet(rt.alloc(), packet, &header, PAYLOAD)?);
    Ok(())
}

/// Whether no strict prefix is read of a 0-RTT or Handshake packet, and the whole is.
fn is_long(alloc: Global, packet: &[u8], ty: LongType) -> Result<bool, AllocError> {
    let readable = ProtectedHeader::Long {
        ty,
        dst_cid: dst_cid(),
        src_cid: src_cid(),
        version: 1,
    };
    let header = Header::Long {
        ty,
        dst_cid: dst_cid(),
        src_cid: src_cid(),
        number: PacketNumber::U16(0x0102),
        version: 1,
    };
    Ok(
        are_invalid(alloc, packet, packet.len())?
            && are_read(alloc, packet, packet.len(), false, &readable)?
            && is_packet(alloc, packet, &header, PAYLOAD)?,
    )
}

#[test]
fn zero_rtt_and_handshake(rt: HostRuntime) -> Result<(), Fail> {
    let zero_rtt =
        b"\xd1\x00\x00\x00\x01\x04\xa1\xa2\xa3\xa4\x02\xb1\xb2\x14\x01\x02abcdefghijklmnopqr";
    assert!(rt; is_long(rt.alloc(), zero_rtt, LongType::ZeroRtt)?);
    let handshake =
        b"\xe1\x00\x00\x00\x01\x04\xa1\xa2\xa3\xa4\x02\xb1\xb2\x14\x01\x02abcdefghijklmnopqr";
    assert!(rt; is_long(rt.alloc(), handshake, LongType::Handshake)?);
    Ok(())
}

#[test]
fn retry(rt: HostRuntime) -> Result<(), Fail> {
    let packet = b"\xff\x00\x00\x00\x01\x04\xa1\xa2\xa3\xa4\x02\xb1\xb2tag";
    assert!(rt; are_invalid(rt.alloc(), packet, 13)?);
    let readable = ProtectedHeader::Retry {
        dst_cid: dst_cid(),
        src_cid: src_cid(),
        version: 1,
    };
    assert!(rt; are_read(rt.alloc(), packet, 13, false, &readable)?);
    let header = Header::Retry {
        dst_cid: dst_cid(),
        src_cid: src_cid(),
        version: 1,
    };
    assert!(rt; is_packet(rt.alloc(), packet, &header, b"tag")?);
    Ok(())
}

/// What is readable of a Version Negotiation packet, of whose first byte these are the low bits.
fn negotiation(random: u8) -> ProtectedHeader {
    ProtectedHeader::VersionNegotiate {
        random,
        src_cid: src_cid(),
        dst_cid: dst_cid(),
    }
}

#[test]
fn version_negotiation(rt: HostRuntime) -> Result<(), Fail> {
    let packet = b"\xc5\x00\x00\x00\x00\x04\xa1\xa2\xa3\xa4\x02\xb1\xb2\x00\x00\x00\x01";
    assert!(rt; are_invalid(rt.alloc(), packet, 13)?);
    assert!(rt; are_read(rt.alloc(), packet, 13, false, &negotiation(0x45))?);
    let header = Header::VersionNegotiate {
        random: 0x45,
        src_cid: src_cid(),
        dst_cid: dst_cid(),
    };
    assert!(rt; is_packet(rt.alloc(), packet, &header, b"\x00\x00\x00\x01")?);
    Ok(())
}

// The packet's fixed bit is unset.
#[test]
fn greased_version_negotiation(rt: HostRuntime) -> Result<(), Fail> {
    let greased = b"\x85\x00\x00\x00\x00\x04\xa1\xa2\xa3\xa4\x02\xb1\xb2\x00\x00\x00\x01";
    assert!(rt; are_invalid(rt.alloc(), greased, 18)?);
    assert!(rt; are_read(rt.alloc(), greased, 13, true, &negotiation(0x05))?);
    Ok(())
}

/// Whether each prefix of `start` to less than `end` bytes is too short for a sample.
fn are_cut(alloc: Global, packet: &[u8], start: usize, end: usize) -> Result<bool, AllocError>
    requires { end ≤ length packet.now + 1 }
{
    for len in start..end {
        let datagram = BytesMut::copy_from_slice(alloc, &packet[..len])?;
        if finish(datagram, false).err() != Some(PacketDecodeError::InvalidHeader) {
            return Ok(false);
        }
    }
    Ok(true)
}

#[test]
fn short(rt: HostRuntime) -> Result<(), Fail> {
    let packet = b"\x65\xa1\xa2\xa3\xa4\x01\x02abcdefghijklmnopqr";
    assert!(rt; are_invalid(rt.alloc(), packet, 5)?);
    let readable = ProtectedHeader::Short {
        spin: true,
        dst_cid: dst_cid(),
    };
    assert!(rt; are_read(rt.alloc(), packet, 5, false, &readable)?);
    assert!(rt; are_cut(rt.alloc(), packet, 5, 25)?);
    let header = Header::Short {
        spin: true,
        key_phase: true,
        dst_cid: dst_cid(),
        number: PacketNumber::U16(0x0102),
    };
    assert!(rt; is_packet(rt.alloc(), packet, &header, PAYLOAD)?);
    Ok(())
}

#[test]
fn unknown_version(rt: HostRuntime) -> Result<(), Fail> {
    let packet = b"\xc1\x00\x00\x00\x09\x04\xa1\xa2\xa3\xa4\x02\xb1\xb2\x03tok\x14";
    assert!(rt; are_invalid(rt.alloc(), packet, 13)?);
    let unknown = PacketDecodeError::UnsupportedVersion {
        src_cid: src_cid(),
        dst_cid: dst_cid(),
        version: 9,
    };
    assert!(rt; are_refused(rt.alloc(), packet, 13, 19, &unknown)?);
    Ok(())
}
