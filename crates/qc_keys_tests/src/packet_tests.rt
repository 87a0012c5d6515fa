//! Packets built and opened with toy keys.

use bytes::{Bytes, BytesMut};
use qc_base::{ConnectionId, LongType, PacketNumber, ResetToken, Side, SpaceId};
use qc_crypto::{HeaderKey, KeySource, PacketKey, ServerConfig};
use qc_frame::{FrameList, FrameOf};
use qc_header::{Header, InitialHeader, Packet, PartialDecode};
use qc_packet::{
    BuildError, DecryptPacketResult, KeyRing, Kill, OpenError, OpenKeys, PacketBuilder, Slot,
    decrypt_packet_body, seal_padded, unprotect_header,
};
use qc_toy::{ToyHeaderKey, ToyKeys, ToyPacketKey, ToyServer, ToySettings};
use std::alloc::{AllocError, Global};
use std::default::Default;
use std::test::Fail;

const KEYS: ToyKeys = ToyKeys { secret: [0; 5] };

// The header key of a secret of zeros, which the Initial keys of an empty id have.
fn header_key() -> Option<ToyHeaderKey> {
    let server = ToyServer {
        settings: ToySettings::default(),
    };
    let keys = server.initial_keys(1, &ConnectionId::new(b"")).ok()?;
    Some(keys.header.local)
}

fn slot(number: u64) -> Slot {
    Slot {
        space: SpaceId::Data,
        number,
        largest_acked: 0,
        sealed: 0,
        limit: 10,
        flip: false,
    }
}

// The 1-RTT packet of the client's that has number 7 and holds a PING.
fn ping(alloc: Global, epoch: u64) -> Result<Vec<u8>, Fail> {
    let header = Header::Short {
        spin: false,
        key_phase: epoch % 2 == 1,
        dst_cid: ConnectionId::new(b""),
        number: PacketNumber::U8(7),
    };
    let mut buf = Vec::new(alloc);
    let builder = PacketBuilder::new(&slot(7), &header, &mut buf, 1200, 0, true)
        .ok()
        .ok_or("refused")?;
    buf.push(1)?;
    if builder.min_size > builder.max_size || buf.len() > builder.max_size {
        return Err("too long".into());
    }
    let header_key = header_key().ok_or("no keys")?;
    let keys = KEYS.keys(Side::Client, epoch);
    let (size, padded) = builder.finish(&header_key, &keys.local, &mut buf)?;
    if size != buf.len() || !padded {
        return Err("size".into());
    }
    Ok(buf)
}

// The packet at the front of these bytes, and what is behind it.
fn first(alloc: Global, bytes: &[u8]) -> Result<(PartialDecode, Option<BytesMut>), Fail> {
    let datagram = BytesMut::copy_from_slice(alloc, bytes)?;
    let cut = PartialDecode::new(datagram, 0, &[1], false)
        .ok()
        .ok_or("no header")?;
    Ok(cut)
}

// What becomes of the packet at the front of these bytes at a server in epoch 0 that received up to `rx`, and its payload
// afterwards. The server opens Handshake packets with the key of its 1-RTT packets.
fn opened(
    alloc: Global,
    bytes: &[u8],
    rx: u32,
) -> Result<(Result<Option<DecryptPacketResult>, OpenError>, BytesMut), Fail> {
    let (partial, _) = first(alloc, bytes)?;
    let key = header_key().ok_or("no keys")?;
    let told = unprotect_header(partial, Some(&key), None)?.ok_or("cut")?;
    let mut packet = told.packet.ok_or("cut")?;
    let ring = KeyRing::new(KEYS.keys(Side::Server, 0), KEYS.keys(Side::Server, 1));
    let plain = KEYS.keys(Side::Server, 0).remote;
    let keys = OpenKeys {
        plain: Some(&plain),
        early: None,
        ring: Some(&ring),
    };
    let answer = decrypt_packet_body(&mut packet, &keys, rx as u64);
    let Packet { payload, .. } = packet;
    Ok((answer, payload))
}

// A PING and padding, sealed and masked as the toy's rules say by hand.
#[test]
fn a_packet_is_built_and_opened(rt: HostRuntime) -> Result<(), Fail> {
    let packet = ping(rt.alloc(), 0)?;
    let sealed =
        b"\x40\x5f\x01\x00\x00\x00\x58\xb0\x08\x60\xb8\x12\x68\xc0\x18\x70\xc8\x20\x78\xd0\x28\x80";
    assert_eq!(rt; packet.as_slice(), sealed.as_slice());

    let told = DecryptPacketResult {
        number: 7,
        outgoing_key_update_acked: false,
        incoming_key_update: false,
    };
    let (answer, payload) = opened(rt.alloc(), sealed, 0)?;
    assert_eq!(rt; answer, Ok(Some(told)));
    assert_eq!(rt; payload.as_slice(), b"\x01\x00\x00\x00".as_slice());

    let changed =
        b"\x40\x5f\x01\x00\x00\x00\x58\xb0\x08\x60\xb8\x12\x68\xc0\x18\x70\xc8\x20\x78\xd0\x28\x81";
    let (answer, payload) = opened(rt.alloc(), changed, 0)?;
    assert_eq!(rt; answer, Err(OpenError::Unopened));
    assert_eq!(rt; payload.as_slice(), &changed[2..]);
    Ok(())
}

// The header of a 1-RTT packet of the first epoch that has number 7 and goes to an empty id.
fn short_header() -> Header {
    Header::Short {
        spin: false,
        key_phase: false,
        dst_cid: ConnectionId::new(b""),
        number: PacketNumber::U8(7),
    }
}

// Seals a PING in a packet of at most 1200 bytes at the end of a buffer, in one call, and gives the frames that there are then.
#[tactic(auto, using(qc_packet::proofs::Full::room_enough, qc_packet::proofs::Behind::most_is))]
fn seal_ping(
    alloc: Global,
    slot: &Slot,
    header: &Header,
    buf: &mut Vec<u8>,
) -> Result<(Result<(), BuildError>, FrameList), Fail> {
    let header_key = header_key().ok_or("no keys")?;
    let keys = KEYS.keys(Side::Client, 0);
    let mut frames = FrameList::new(alloc);
    frames.push(FrameOf::Ping)?;
    let mut payload = Vec::new(alloc);
    frames.put(&mut payload)?;
    let len = header.encoded_len();
    if header.number().is_none() || len > 1180 || len + payload.len() > 1184 {
        return Err("too long".into());
    }
    let sealed = seal_padded(
        &header_key,
        &keys.local,
        slot,
        header,
        &mut frames,
        1200,
        0,
        buf,
    );
    Ok((sealed, frames))
}

// The same packet, sealed in one call, and its frames: it is filled up to the 22 bytes that each packet has at least.
fn sealed_ping(alloc: Global, flip: bool) -> Result<(Vec<u8>, FrameList), Fail> {
    let slot = Slot { flip, ..slot(7) };
    let mut buf = Vec::new(alloc);
    let (sealed, frames) = seal_ping(alloc, &slot, &short_header(), &mut buf)?;
    sealed.ok().ok_or("refused")?;
    Ok((buf, frames))
}

#[test]
fn a_padded_packet_is_sealed(rt: HostRuntime) -> Result<(), Fail> {
    let (packet, frames) = sealed_ping(rt.alloc(), false)?;
    let sealed =
        b"\x40\x5f\x01\x00\x00\x00\x58\xb0\x08\x60\xb8\x12\x68\xc0\x18\x70\xc8\x20\x78\xd0\x28\x80";
    assert_eq!(rt; packet.as_slice(), sealed.as_slice());
    let (listed, padding) = frames.parts();
    assert_eq!(rt; listed.len(), 1);
    assert_eq!(rt; padding, 3);
    Ok(())
}

// With its fixed bit flipped the header is 00 07 before it is masked. The checksum of header, payload and number is
// 1 * 0x00 + 2 * 0x07 + 3 * 0x01 + 7 = 0x18, and the tag's bytes are its multiples 1 to 16, modulo 256, the sixth with
// 2 more for the key's sixth byte, which says 1-RTT. The key's other bytes are 0, so the payload is sealed as it is.
// Of the mask, which is the sample 00 18 30 48 60, the first byte leaves the header's first as it is, and the second
// makes the number 0x07 xor 0x18 = 0x1f.
#[test]
fn a_packet_with_a_flipped_fixed_bit_is_sealed(rt: HostRuntime) -> Result<(), Fail> {
    let (packet, _) = sealed_ping(rt.alloc(), true)?;
    let sealed =
        b"\x00\x1f\x01\x00\x00\x00\x18\x30\x48\x60\x78\x92\xa8\xc0\xd8\xf0\x08\x20\x38\x50\x68\x80";
    assert_eq!(rt; packet.as_slice(), sealed.as_slice());
    Ok(())
}

// The header of a Handshake packet that has number 7, between empty ids.
fn handshake_header() -> Header {
    Header::Long {
        ty: LongType::Handshake,
        dst_cid: ConnectionId::new(b""),
        src_cid: ConnectionId::new(b""),
        number: PacketNumber::U8(7),
        version: 1,
    }
}

// A 1-RTT packet that is sealed behind a Handshake packet has the bytes that it has by itself, and their buffer is a datagram
// of both, which open. The first is padded until its number of one byte and its payload have 4 bytes, the second until it has 6
// bytes beside its tag.
#[test]
fn a_packet_is_sealed_behind_another(rt: HostRuntime) -> Result<(), Fail> {
    let mut buf = Vec::new(rt.alloc());
    for header in [handshake_header(), short_header()] {
        let (sealed, _) = seal_ping(rt.alloc(), &slot(7), &header, &mut buf)?;
        sealed.ok().ok_or("refused")?;
    }
    let (_, rest) = first(rt.alloc(), buf.as_slice())?;
    let behind = rest.ok_or("one packet")?;
    let sealed =
        b"\x40\x5f\x01\x00\x00\x00\x58\xb0\x08\x60\xb8\x12\x68\xc0\x18\x70\xc8\x20\x78\xd0\x28\x80";
    assert_eq!(rt; behind.as_slice(), sealed.as_slice());
    let told = DecryptPacketResult {
        number: 7,
        outgoing_key_update_acked: false,
        incoming_key_update: false,
    };
    for (bytes, want) in [
        (buf.as_slice(), b"\x01\x00\x00".as_slice()),
        (behind.as_slice(), b"\x01\x00\x00\x00".as_slice()),
    ] {
        let (answer, payload) = opened(rt.alloc(), bytes, 0)?;
        assert_eq!(rt; answer, Ok(Some(told)));
        assert_eq!(rt; payload.as_slice(), want);
    }
    Ok(())
}

// A packet of the next epoch, and one with a reserved bit.
#[test]
fn updates_and_reserved_bits(rt: HostRuntime) -> Result<(), Fail> {
    let packet = ping(rt.alloc(), 1)?;
    let told = DecryptPacketResult {
        number: 7,
        outgoing_key_update_acked: false,
        incoming_key_update: true,
    };
    let (answer, _) = opened(rt.alloc(), packet.as_slice(), 6)?;
    assert_eq!(rt; answer, Ok(Some(told)));
    let (answer, _) = opened(rt.alloc(), packet.as_slice(), 7)?;
    assert_eq!(rt; answer, Err(OpenError::KeyUpdate));

    let mut reserved = *b"\x48\x07\x01\0\0\0\0\0\0\0\0\0\0\0\0\0\0\0\0\0\0\0";
    KEYS.keys(Side::Client, 0)
        .local
        .encrypt(7, &mut reserved, 2);
    header_key().ok_or("no keys")?.encrypt(1, &mut reserved);
    let (answer, payload) = opened(rt.alloc(), &reserved, 0)?;
    assert_eq!(rt; answer, Err(OpenError::Reserved));
    assert_eq!(rt; payload.as_slice(), b"\x01\0\0\0".as_slice());
    Ok(())
}

// Behind an id of one byte, 21 bytes are too few for a sample, and enough for a reset.
#[test]
fn cut_packets_and_resets(rt: HostRuntime) -> Result<(), Fail> {
    let bytes =
        *b"\x40\x09\x00\x00\x00\x01\x02\x03\x04\x05\x06\x07\x08\x09\x0a\x0b\x0c\x0d\x0e\x0f\x10";
    let token = ResetToken::from(
        *b"\x01\x02\x03\x04\x05\x06\x07\x08\x09\x0a\x0b\x0c\x0d\x0e\x0f\x10",
    );
    let key = header_key().ok_or("no keys")?;
    let datagram = BytesMut::copy_from_slice(rt.alloc(), &bytes)?;
    let (partial, _) = PartialDecode::new(datagram, 1, &[1], false)
        .ok()
        .ok_or("no header")?;
    let told = unprotect_header(partial, Some(&key), Some(token))?.ok_or("no reset")?;
    assert_eq!(rt;
        (told.packet.is_some(), told.stateless_reset),
        (false, true)
    );
    Ok(())
}

// The header of an Initial packet with a token of so many bytes.
fn initial_header(alloc: Global, token: usize) -> Result<Header, AllocError> {
    let mut bytes = Vec::new(alloc);
    bytes.resize(token, 7)?;
    Ok(Header::Initial(InitialHeader {
        dst_cid: ConnectionId::new(&[2; 20]),
        src_cid: ConnectionId::new(&[1; 8]),
        token: Bytes::copy_from_slice(alloc, bytes.as_slice())?,
        number: PacketNumber::U8(0),
        version: 1,
    }))
}

// How many bytes an Initial packet with a token of so many has for its frames, up to a capacity of 1200.
fn room(alloc: Global, token: usize) -> Result<Result<usize, BuildError>, AllocError> {
    let header = initial_header(alloc, token)?;
    let slot = Slot {
        space: SpaceId::Initial,
        number: 0,
        largest_acked: 0,
        sealed: 0,
        limit: 1,
        flip: false,
    };
    let mut buf = Vec::new(alloc);
    match PacketBuilder::new(&slot, &header, &mut buf, 1200, 0, true) {
        Ok(builder) => Ok(Ok(builder.max_size.saturating_sub(buf.len()))),
        Err(e) => Ok(Err(e)),
    }
}

// The header has 40 bytes besides the token, and the tag 16.
#[test]
fn tokens_leave_room(rt: HostRuntime) -> Result<(), Fail> {
    for (token, want) in [
        (1083, Ok(61)),
        (1084, Ok(60)),
        (1119, Ok(25)),
        (1120, Err(BuildError::Kill(Kill::TokenRoom))),
    ] {
        assert_eq!(rt; room(rt.alloc(), token)?, want, "at {token}");
    }
    Ok(())
}

// What a slot and a header are refused with, which refuse a builder and a packet behind a byte alike: list and buffer are then
// as before.
fn refusal(alloc: Global, slot: &Slot, header: &Header) -> Result<Option<BuildError>, Fail> {
    let mut begun = Vec::new(alloc);
    let refused = PacketBuilder::new(slot, header, &mut begun, 1200, 0, true).err();
    let mut buf = Vec::new(alloc);
    buf.push(1)?;
    let (sealed, frames) = seal_ping(alloc, slot, header, &mut buf)?;
    if sealed.err() != refused || begun.is_empty() != refused.is_some() {
        return Err("not alike".into());
    }
    let (listed, padding) = frames.parts();
    if refused.is_some()
        && (buf.as_slice() != b"\x01".as_slice() || listed.len() != 1 || padding != 0)
    {
        return Err("changed".into());
    }
    Ok(refused)
}

#[test]
fn limits_of_keys_and_numbers(rt: HostRuntime) -> Result<(), Fail> {
    let last = 0x3fff_ffff_ffff_fffe;
    for (number, largest_acked, sealed, want) in [
        (0, 0, 9, None),
        (0, 0, 10, Some(BuildError::Kill(Kill::KeyLimit))),
        (0x7fff_ffff, 0, 0, None),
        (0x8000_0000, 0, 0, Some(BuildError::Kill(Kill::NumberLimit))),
        (0x8000_0000, 0, 10, Some(BuildError::Kill(Kill::KeyLimit))),
        (last, last, 0, None),
        (last + 1, last, 0, Some(BuildError::Kill(Kill::NumberLimit))),
    ] {
        let slot = Slot {
            space: SpaceId::Data,
            number,
            largest_acked,
            sealed,
            limit: 10,
            flip: false,
        };
        assert_eq!(rt;
            refusal(rt.alloc(), &slot, &short_header())?,
            want,
            "at {number}"
        );
    }
    Ok(())
}

// With the 40 bytes besides the token and the tag's 16, a token of 1119 bytes leaves 25 of 1200 for frames, and one of 1120
// leaves 24. The key's limit comes first.
#[test]
fn tokens_without_room(rt: HostRuntime) -> Result<(), Fail> {
    for (token, sealed, want) in [
        (1119, 0, None),
        (1120, 0, Some(BuildError::Kill(Kill::TokenRoom))),
        (1120, 1, Some(BuildError::Kill(Kill::KeyLimit))),
    ] {
        let slot = Slot {
            space: SpaceId::Initial,
            number: 0,
            largest_acked: 0,
            sealed,
            limit: 1,
            flip: false,
        };
        let header = initial_header(rt.alloc(), token)?;
        assert_eq!(rt; refusal(rt.alloc(), &slot, &header)?, want, "at {token}");
    }
    Ok(())
}
