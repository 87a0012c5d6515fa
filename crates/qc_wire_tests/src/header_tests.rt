//! Worked examples of RFC 9001, appendix A, and one call of each kind.

ghost use Rattle.std.specs.Prelude.{ℕ, ◌≤◌, List};

use bytes::{Bytes, BytesMut};
use qc_base::{ConnectionId, HeaderMask, LongType, PacketNumber, SpaceId};
use qc_header::{
    Header, InitialHeader, InitialPacket, Packet, PacketDecodeError, PartialDecode, ShortHeader,
    finish_short,
};
use std::alloc::{AllocError, Global};
use std::test::Fail;

pub(crate) struct FixedMask(pub(crate) [u8; 5]);

impl Drop for FixedMask {
    fn drop(self) {
        let FixedMask(_) = self;
    }
}

impl HeaderMask for FixedMask {
    ghost mask_of = { λ key sample. key.0 };

    fn mask(&self, _sample: &[u8]) -> [u8; 5] {
        self.0
    }
}

// The headers of RFC 9001, appendices A.2 (with its Length field), A.3 and A.5.
#[test]
fn encoded(rt: HostRuntime) -> Result<(), Fail> {
    let none = ConnectionId::new(b"");
    let initial = Header::Initial(InitialHeader {
        dst_cid: ConnectionId::new(b"\x83\x94\xc8\xf0\x3e\x51\x57\x08"),
        src_cid: none,
        token: Bytes::new(),
        number: PacketNumber::U32(2),
        version: 1,
    });
    let mut out = b"ab".to_vec(rt.alloc())?;
    let written = initial.encode_sized(0x49e, &mut out)?;
    let want =
        b"ab\xc3\x00\x00\x00\x01\x08\x83\x94\xc8\xf0\x3e\x51\x57\x08\x00\x00\x44\x9e\x00\x00\x00\x02";
    assert_eq!(rt; out.as_slice(), want.as_slice());
    assert_eq!(rt;
        (written.start, written.header_len, written.pn_len),
        (2, 22, Some(4))
    );
    assert_eq!(rt; initial.encoded_len(), 22);

    let short = Header::Short {
        spin: false,
        key_phase: false,
        dst_cid: none,
        number: PacketNumber::U24(0xbff4),
    };
    let mut out = Vec::new(rt.alloc());
    let _ = short.encode(&mut out)?;
    assert_eq!(rt; out.as_slice(), b"\x42\x00\xbf\xf4".as_slice());

    let retry = Header::Retry {
        dst_cid: none,
        src_cid: ConnectionId::new(b"\xf0\x67\xa5\x50\x2a\x42\x62\xb5"),
        version: 1,
    };
    let mut out = Vec::new(rt.alloc());
    let written = retry.encode(&mut out)?;
    assert_eq!(rt;
        out.as_slice(),
        b"\xf0\x00\x00\x00\x01\x00\x08\xf0\x67\xa5\x50\x2a\x42\x62\xb5".as_slice()
    );
    assert_eq!(rt; written.pn_len, None);
    Ok(())
}

// The header of RFC 9001, appendix A.2, behind 2 bytes and before 3.
#[test]
fn length_set(rt: HostRuntime) -> Result<(), Fail> {
    let initial = Header::Initial(InitialHeader {
        dst_cid: ConnectionId::new(b"\x83\x94\xc8\xf0\x3e\x51\x57\x08"),
        src_cid: ConnectionId::new(b""),
        token: Bytes::new(),
        number: PacketNumber::U32(2),
        version: 1,
    });
    let mut out = b"ab".to_vec(rt.alloc())?;
    let written = initial.encode(&mut out)?;
    out.extend_from_slice(b"cde")?;
    let zero =
        b"ab\xc3\x00\x00\x00\x01\x08\x83\x94\xc8\xf0\x3e\x51\x57\x08\x00\x00\x40\x00\x00\x00\x00\x02cde";
    assert_eq!(rt; out.as_slice(), zero.as_slice());
    written.set_length(out.as_mut_slice(), 0x49e);
    let want =
        b"ab\xc3\x00\x00\x00\x01\x08\x83\x94\xc8\xf0\x3e\x51\x57\x08\x00\x00\x44\x9e\x00\x00\x00\x02cde";
    assert_eq!(rt; out.as_slice(), want.as_slice());
    out[2] = 0x83;
    written.set_length(out.as_mut_slice(), 0x3fff);
    let greased =
        b"ab\x83\x00\x00\x00\x01\x08\x83\x94\xc8\xf0\x3e\x51\x57\x08\x00\x00\x7f\xff\x00\x00\x00\x02cde";
    assert_eq!(rt; out.as_slice(), greased.as_slice());
    out.truncate(20);
    written.set_length(out.as_mut_slice(), 1);
    let cut = b"ab\x83\x00\x00\x00\x01\x08\x83\x94\xc8\xf0\x3e\x51\x57\x08\x00\x00\x7f\xff";
    assert_eq!(rt; out.as_slice(), cut.as_slice());
    Ok(())
}

// A short header has no Length field.
#[test]
fn no_length_set(rt: HostRuntime) -> Result<(), Fail> {
    let short = Header::Short {
        spin: false,
        key_phase: false,
        dst_cid: ConnectionId::new(b""),
        number: PacketNumber::U24(0xbff4),
    };
    let mut out = Vec::new(rt.alloc());
    let written = short.encode(&mut out)?;
    written.set_length(out.as_mut_slice(), 5);
    assert_eq!(rt; out.as_slice(), b"\x42\x00\xbf\xf4".as_slice());
    Ok(())
}

/// The packet at the front of a datagram, where ids of this end have so many bytes, and how many bytes
/// are behind it.
fn piece(
    alloc: Global,
    datagram: &[u8],
    local_cid_len: usize,
) -> Result<(PartialDecode, usize), Fail>
    requires { local_cid_len ≤ 20 }
{
    let bytes = BytesMut::copy_from_slice(alloc, datagram)?;
    let (partial, rest) = PartialDecode::new(bytes, local_cid_len, &[1], false)
        .ok()
        .ok_or("unread")?;
    Ok((partial, rest.map_or(0, |rest| rest.len())))
}

/// The same without header protection.
fn opened(
    alloc: Global,
    datagram: &[u8],
    local_cid_len: usize,
    key: &FixedMask,
) -> Result<Packet, Fail>
    requires { local_cid_len ≤ 20 }
{
    let (partial, _) = piece(alloc, datagram, local_cid_len)?;
    let packet = partial.finish(Some(key)).ok().ok_or("cut")?;
    Ok(packet)
}

// The packet of RFC 9001, appendix A.5.
const SHORT: &[u8] =
    b"\x4c\xfe\x41\x89\x65\x5e\x5c\xd5\x5c\x41\xf6\x90\x80\x57\x5d\x79\x99\xc2\x5a\x5b\xfb";

/// Whether the packet is a 1-RTT packet of this size with nothing behind it.
fn is_piece(
    alloc: Global,
    datagram: &[u8],
    local_cid_len: usize,
    space: SpaceId,
    len: usize,
    behind: usize,
) -> Result<bool, Fail>
    requires { local_cid_len ≤ 20 }
{
    let (partial, left) = piece(alloc, datagram, local_cid_len)?;
    Ok(
        partial.space() == Some(space)
            && partial.len() == len
            && left == behind
            && !partial.is_0rtt(),
    )
}

#[test]
fn short_decoded(rt: HostRuntime) -> Result<(), Fail> {
    assert!(rt; is_piece(rt.alloc(), SHORT, 0, SpaceId::Data, 21, 0)?);
    let key = FixedMask([0xae, 0xfe, 0xfe, 0x7d, 0x03]);
    let packet = opened(rt.alloc(), SHORT, 0, &key)?;
    let want = Header::Short {
        spin: false,
        key_phase: false,
        dst_cid: ConnectionId::new(b""),
        number: PacketNumber::U24(0xbff4),
    };
    assert!(rt; packet.header == want && packet.payload.len() == 17);
    assert!(rt; packet.header_data.as_slice() == b"\x42\x00\xbf\xf4".as_slice());
    Ok(())
}

// The same packet where it stands. With a byte less it is as before.
#[test]
fn short_decoded_in_place(rt: HostRuntime) {
    let key = FixedMask([0xae, 0xfe, 0xfe, 0x7d, 0x03]);
    let mut packet = [0; 21];
    packet.copy_from_slice(SHORT);
    assert_eq!(rt; finish_short(&key, 1, &mut packet[..20]), None);
    assert!(rt; packet.as_slice() == SHORT);
    let want = ShortHeader {
        spin: false,
        reserved_bits: 0,
        key_phase: false,
        number: PacketNumber::U24(0xbff4),
        len: 4,
    };
    assert_eq!(rt; finish_short(&key, 1, &mut packet), Some(want));
    assert_eq!(rt; &packet[..4], b"\x42\x00\xbf\xf4".as_slice());
    assert!(rt; packet[4..] == SHORT[4..]);
}

// A Handshake packet of 2 bytes of number and 20 of payload, and one byte behind it.
fn handshake() -> Header {
    Header::Long {
        ty: LongType::Handshake,
        dst_cid: ConnectionId::new(b"\xaa\xbb"),
        src_cid: ConnectionId::new(b"\xcc"),
        number: PacketNumber::U16(0x1234),
        version: 1,
    }
}

fn handshake_datagram(alloc: Global) -> Result<Vec<u8>, AllocError> {
    let mut datagram = Vec::new(alloc);
    let _ = handshake().encode_sized(22, &mut datagram)?;
    datagram.extend_from_slice(b"abcdefghijklmnopqrstZ")?;
    Ok(datagram)
}

/// Whether the packet has this header and payload.
fn has_parts(packet: &Packet, header: &Header, payload: &[u8]) -> bool {
    packet.header == *header && packet.payload.as_slice() == payload
}

#[test]
fn long_decoded(rt: HostRuntime) -> Result<(), Fail> {
    let datagram = handshake_datagram(rt.alloc())?;
    assert!(rt;
        is_piece(
            rt.alloc(),
            datagram.as_slice(),
            8,
            SpaceId::Handshake,
            34,
            1
        )?
    );
    let packet = opened(rt.alloc(), datagram.as_slice(), 8, &FixedMask([0; 5]))?;
    assert!(rt; has_parts(&packet, &handshake(), b"abcdefghijklmnopqrst"));
    assert!(rt; InitialPacket::from_packet(packet).is_none());
    Ok(())
}

/// Whether the packet is an Initial packet with this number, these bytes of header and this payload.
fn is_initial(packet: Packet, number: PacketNumber, head: &[u8], payload: &[u8]) -> bool {
    match InitialPacket::from_packet(packet) {
        Some(initial) => initial.header.number == number
            && initial.header_data.as_slice() == head
            && initial.payload.as_slice() == payload,
        None => false,
    }
}

// The same as an Initial packet without ids and token, of 1 byte of number.
#[test]
fn initial_decoded(rt: HostRuntime) -> Result<(), Fail> {
    let datagram = b"\xc0\x00\x00\x00\x01\x00\x00\x00\x15\x07abcdefghijklmnopqrst";
    let packet = opened(rt.alloc(), datagram, 8, &FixedMask([0; 5]))?;
    assert!(rt;
        is_initial(
            packet,
            PacketNumber::U8(7),
            &datagram[..10],
            &datagram[10..]
        )
    );
    Ok(())
}

/// Why the datagram is refused where version 1 is known.
fn refusal(datagram: BytesMut) -> Option<PacketDecodeError> {
    PartialDecode::new(datagram, 0, &[1], false).err()
}

// RFC 9000, sections 17.2.1 and 6.1.
#[test]
fn refused(rt: HostRuntime) -> Result<(), Fail> {
    let unknown = PacketDecodeError::UnsupportedVersion {
        src_cid: ConnectionId::new(b"\xbb"),
        dst_cid: ConnectionId::new(b"\xaa"),
        version: 9,
    };
    let bytes = BytesMut::copy_from_slice(rt.alloc(), b"\xc0\x00\x00\x00\x09\x01\xaa\x01\xbb")?;
    assert_eq!(rt; refusal(bytes), Some(unknown));
    let table: [&[u8]; 3] = [b"\xc0\x00\x00\x00\x01\x15", b"\x00\x01\x02", b""];
    for datagram in table {
        let bytes = BytesMut::copy_from_slice(rt.alloc(), datagram)?;
        assert_eq!(rt; refusal(bytes), Some(PacketDecodeError::InvalidHeader));
    }
    let bytes = BytesMut::copy_from_slice(
        rt.alloc(),
        b"\x80\x00\x00\x00\x00\x01\xaa\x01\xbb\x00\x00\x00\x01",
    )?;
    let (partial, _) = PartialDecode::new(bytes, 0, &[1], true)
        .ok()
        .ok_or("unread")?;
    assert_eq!(rt; partial.space(), None);
    let key: Option<&FixedMask> = None;
    let packet = partial.finish(key).ok().ok_or("cut")?;
    assert_eq!(rt; packet.payload.as_slice(), b"\x00\x00\x00\x01".as_slice());
    Ok(())
}
