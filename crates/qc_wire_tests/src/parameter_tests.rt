use qc_base::{ConnectionId, ResetToken, Side, TransportError, VarInt};
use qc_params::{
    ParamError, PreferredAddress, TransportParameters, entries_are_read,
    parameters_written_are_read,
};
use std::alloc::{AllocError, Global};
use std::net::{Ipv4Addr, Ipv6Addr};
use std::test::Fail;

// Each parameter with a value that is not its default, and whether a client may send it.
const ENTRIES: [(&[u8], bool); 19] = [
    (b"\x00\x02\x02\x03", false),
    (b"\x01\x04\x80\x00\x75\x30", true),
    (b"\x02\x10TTTTTTTTTTTTTTTT", false),
    (b"\x03\x02\x45\xc0", true),
    (b"\x04\x08\xff\xff\xff\xff\xff\xff\xff\xff", true),
    (b"\x05\x04\x80\x13\x12\xd0", true),
    (b"\x06\x02\x40\x40", true),
    (b"\x07\x04\x80\x00\x40\x00", true),
    (b"\x08\x02\x40\x64", true),
    (b"\x09\x08\xd0\x00\x00\x00\x00\x00\x00\x00", true),
    (b"\x0a\x01\x14", true),
    (b"\x0b\x02\x7f\xff", true),
    (b"\x0c\x00", true),
    (
        b"\x0d\x2a\x7f\x00\x00\x01\x11\x51\x00\x00\x00\x00\x00\x00\x00\x00\x00\x00\x00\x00\x00\x00\
        \x00\x01\x01\xbb\x01\x09UUUUUUUUUUUUUUUU",
        false,
    ),
    (b"\x0e\x01\x05", true),
    (b"\x0f\x04abcd", true),
    (b"\x10\x00", false),
    (b"\x20\x04\x80\x00\xff\xff", true),
    (b"\x6a\xb2\x00", true),
];

// The same values.
fn all_parameters() -> TransportParameters {
    TransportParameters {
        original_dst_cid: Some(ConnectionId::new(&[2, 3])),
        stateless_reset_token: Some(ResetToken::from(*b"TTTTTTTTTTTTTTTT")),
        preferred_address: Some(PreferredAddress {
            ipv4: Ipv4Addr::new(127, 0, 0, 1),
            port_v4: 4433,
            ipv6: Ipv6Addr::LOCALHOST,
            port_v6: 443,
            id: ConnectionId::new(&[9]),
            reset_token: ResetToken::from(*b"UUUUUUUUUUUUUUUU"),
        }),
        retry_src_cid: Some(ConnectionId::new(&[])),
        ..client_parameters()
    }
}

// Those of them that a client may send.
fn client_parameters() -> TransportParameters {
    let streams = VarInt::from_u64(1_152_921_504_606_846_976);
    TransportParameters {
        max_idle_timeout: VarInt::from_u32(30_000),
        max_udp_payload_size: VarInt::from_u32(1472),
        initial_max_data: VarInt::MAX,
        initial_max_stream_data_bidi_local: VarInt::from_u32(1_250_000),
        initial_max_stream_data_bidi_remote: VarInt::from_u32(64),
        initial_max_stream_data_uni: VarInt::from_u32(16_384),
        initial_max_streams_bidi: VarInt::from_u32(100),
        initial_max_streams_uni: streams.unwrap_or(VarInt::MAX),
        ack_delay_exponent: VarInt::from_u32(20),
        max_ack_delay: VarInt::from_u32(16_383),
        disable_active_migration: true,
        active_connection_id_limit: VarInt::from_u32(5),
        initial_src_cid: Some(ConnectionId::new(b"abcd")),
        max_datagram_frame_size: Some(VarInt::from_u32(65_535)),
        grease_quic_bit: true,
        ..TransportParameters::default()
    }
}

// The entries of a client, or of a server.
fn spelled(alloc: Global, side: Side) -> Result<Vec<u8>, AllocError> {
    let mut bytes = Vec::new(alloc);
    for (entry, is_clients) in ENTRIES {
        if side == Side::Server || is_clients {
            bytes.extend_from_slice(entry)?;
        }
    }
    Ok(bytes)
}

// Whether the parameters are written so.
fn are_written(
    alloc: Global,
    parameters: &TransportParameters,
    bytes: &[u8],
) -> Result<bool, AllocError> {
    let mut written = Vec::new(alloc);
    parameters.write(&mut written)?;
    Ok(written.as_slice() == bytes)
}

// Whether the bytes are read as these parameters.
fn are_read(side: Side, bytes: &[u8], parameters: &TransportParameters) -> bool {
    match TransportParameters::read(side, bytes) {
        Ok(read) => read == *parameters,
        Err(_) => false,
    }
}

// Whether they are what that side sends: written so, and read so by its peer.
fn are_sent(
    alloc: Global,
    side: Side,
    peer: Side,
    parameters: &TransportParameters,
) -> Result<bool, Fail> {
    let bytes = spelled(alloc, side)?;
    let written = are_written(alloc, parameters, bytes.as_slice())?;
    Ok(written && are_read(peer, bytes.as_slice(), parameters))
}

#[test]
fn a_server_announces(rt: HostRuntime) -> Result<(), Fail> {
    assert!(rt; are_sent(rt.alloc(), Side::Server, Side::Client, &all_parameters())?);
    Ok(())
}

#[test]
fn a_client_announces(rt: HostRuntime) -> Result<(), Fail> {
    assert!(rt; are_sent(rt.alloc(), Side::Client, Side::Server, &client_parameters())?);
    parameters_written_are_read();
    entries_are_read();
    Ok(())
}

// Why the bytes are refused, if they are.
fn refusal(side: Side, bytes: &[u8]) -> Option<ParamError> {
    match TransportParameters::read(side, bytes) {
        Ok(_) => None,
        Err(error) => Some(error),
    }
}

// The bytes are read, and written again as they were.
fn is_read(alloc: Global, bytes: &[u8]) -> Result<bool, Fail> {
    let read = TransportParameters::read(Side::Client, bytes);
    let parameters = read.ok().ok_or("refused")?;
    let mut written = Vec::new(alloc);
    parameters.write(&mut written)?;
    Ok(written.as_slice() == bytes)
}

// Each front of all parameters: it is refused where it ends in an entry.
#[test]
fn each_prefix_is_read(rt: HostRuntime) -> Result<(), Fail> {
    let mut bytes = Vec::new(rt.alloc());
    for (entry, _) in ENTRIES {
        for (at, byte) in entry.iter().enumerate() {
            bytes.push(*byte)?;
            if at + 1 == entry.len() {
                assert!(rt; is_read(rt.alloc(), bytes.as_slice())?);
            } else {
                let refusal = refusal(Side::Client, bytes.as_slice());
                assert_eq!(rt; refusal, Some(ParamError::Malformed));
            }
        }
    }
    Ok(())
}

// Read by a server.
const TAKEN: &[&[u8]] = &[
    // nothing, an unknown id twice, and a number in a longer form
    b"",
    b"\x21\x00\x21\x01\x05",
    b"\x01\x08\xc0\x00\x00\x00\x00\x00\x00\x05",
    // an id in a longer form
    b"\x40\x01\x01\x05",
    // a payload of 1200 bytes and of 2^62 - 1, an exponent of 20, a delay of 2^14 - 1 ms, two ids
    b"\x03\x02\x44\xb0",
    b"\x03\x08\xff\xff\xff\xff\xff\xff\xff\xff",
    b"\x0a\x01\x14",
    b"\x0b\x02\x7f\xff",
    b"\x0e\x01\x02",
    // 2^60 streams
    b"\x08\x08\xd0\x00\x00\x00\x00\x00\x00\x00",
    b"\x09\x08\xd0\x00\x00\x00\x00\x00\x00\x00",
    // ids of 0 and of 20 bytes
    b"\x0f\x00",
    b"\x0f\x14aaaaaaaaaaaaaaaaaaaa",
];

#[test]
fn taken_parameters(rt: HostRuntime) {
    for bytes in TAKEN {
        assert_eq!(rt; refusal(Side::Server, bytes), None);
    }
}

// Read by a server.
const REFUSED: &[(&[u8], ParamError)] = &[
    // an id, a length and a value that are cut
    (b"\x40", ParamError::Malformed),
    (b"\x01", ParamError::Malformed),
    (b"\x01\x02\x05", ParamError::Malformed),
    (
        b"\x01\xff\xff\xff\xff\xff\xff\xff\xff\x05",
        ParamError::Malformed,
    ),
    // a number of no bytes, one that is cut, one with a byte behind it, and a flag with a value
    (b"\x01\x00", ParamError::Malformed),
    (b"\x01\x01\x40", ParamError::Malformed),
    (b"\x01\x02\x05\x05", ParamError::Malformed),
    (b"\x0c\x01\x01", ParamError::Malformed),
    // an id of 21 bytes, tokens of 15 and of 17
    (b"\x0f\x15aaaaaaaaaaaaaaaaaaaaa", ParamError::Malformed),
    (b"\x02\x0fttttttttttttttt", ParamError::Malformed),
    (b"\x02\x11ttttttttttttttttt", ParamError::Malformed),
    // a parameter twice, also where its id has two forms
    (b"\x01\x01\x05\x01\x01\x05", ParamError::Malformed),
    (b"\x01\x01\x05\x40\x01\x01\x05", ParamError::Malformed),
    (b"\x0c\x00\x0c\x00", ParamError::Malformed),
    (b"\x0f\x00\x0e\x01\x02\x0f\x00", ParamError::Malformed),
    (b"\x20\x01\x05\x20\x01\x05", ParamError::Malformed),
    // what a server alone sends
    (b"\x00\x01\x05", ParamError::IllegalValue),
    (b"\x02\x10tttttttttttttttt", ParamError::IllegalValue),
    (
        b"\x0d\x2aAAAAPPBBBBBBBBBBBBBBBBpp\x01atttttttttttttttt",
        ParamError::IllegalValue,
    ),
    (b"\x10\x00", ParamError::IllegalValue),
    // a payload of 1199 bytes, an exponent of 21, a delay of 2^14 ms, one connection id
    (b"\x03\x02\x44\xaf", ParamError::IllegalValue),
    (b"\x0a\x01\x15", ParamError::IllegalValue),
    (b"\x0b\x04\x80\x00\x40\x00", ParamError::IllegalValue),
    (b"\x0e\x01\x01", ParamError::IllegalValue),
    // 2^60 + 1 streams
    (
        b"\x08\x08\xd0\x00\x00\x00\x00\x00\x00\x01",
        ParamError::IllegalValue,
    ),
    (
        b"\x09\x08\xd0\x00\x00\x00\x00\x00\x00\x01",
        ParamError::IllegalValue,
    ),
    // badly formed comes first
    (b"\x0e\x01\x01\x01", ParamError::Malformed),
];

#[test]
fn refused_parameters(rt: HostRuntime) {
    for (bytes, error) in REFUSED {
        assert_eq!(rt; refusal(Side::Server, bytes), Some(*error));
    }
    let closed = TransportError::from(ParamError::Malformed);
    assert_eq!(rt; (closed.code.into_inner(), closed.frame), (8, None));
}

// Preferred addresses that a client reads, and why they are refused: ids of 1, 20, 21 and 0 bytes, a
// byte behind the token, and a token that is cut.
const ADDRESSES: [(&[u8], Option<ParamError>); 6] = [
    (
        b"\x0d\x2aAAAAPPBBBBBBBBBBBBBBBBpp\x01atttttttttttttttt",
        None,
    ),
    (
        b"\x0d\x3dAAAAPPBBBBBBBBBBBBBBBBpp\x14aaaaaaaaaaaaaaaaaaaatttttttttttttttt",
        None,
    ),
    (
        b"\x0d\x3eAAAAPPBBBBBBBBBBBBBBBBpp\x15aaaaaaaaaaaaaaaaaaaaatttttttttttttttt",
        Some(ParamError::Malformed),
    ),
    (
        b"\x0d\x29AAAAPPBBBBBBBBBBBBBBBBpp\x00tttttttttttttttt",
        Some(ParamError::IllegalValue),
    ),
    (
        b"\x0d\x2bAAAAPPBBBBBBBBBBBBBBBBpp\x01attttttttttttttttz",
        Some(ParamError::Malformed),
    ),
    (
        b"\x0d\x29AAAAPPBBBBBBBBBBBBBBBBpp\x01attttttttttttttt",
        Some(ParamError::Malformed),
    ),
];

#[test]
fn preferred_addresses(rt: HostRuntime) {
    for (bytes, error) in ADDRESSES {
        assert_eq!(rt; refusal(Side::Client, bytes), error);
    }
}

// Early data may be sent again where no limit that it was sent by is lower now; other parameters may
// change.
#[test]
fn limits_are_kept(rt: HostRuntime) {
    let now = TransportParameters::default();
    let one = VarInt::from_u32(1);
    let cached = [
        TransportParameters {
            initial_max_data: one,
            ..now
        },
        TransportParameters {
            initial_max_stream_data_bidi_local: one,
            ..now
        },
        TransportParameters {
            initial_max_stream_data_bidi_remote: one,
            ..now
        },
        TransportParameters {
            initial_max_stream_data_uni: one,
            ..now
        },
        TransportParameters {
            initial_max_streams_bidi: one,
            ..now
        },
        TransportParameters {
            initial_max_streams_uni: one,
            ..now
        },
        TransportParameters {
            active_connection_id_limit: VarInt::from_u32(3),
            ..now
        },
        TransportParameters {
            max_datagram_frame_size: Some(VarInt::from_u32(0)),
            ..now
        },
        TransportParameters {
            grease_quic_bit: true,
            ..now
        },
    ];
    for parameters in &cached {
        assert!(rt; now.validate_resumption_from(parameters).is_err());
        assert!(rt; parameters.validate_resumption_from(&now).is_ok());
    }
    let slower = TransportParameters {
        max_idle_timeout: one,
        max_ack_delay: one,
        ..now
    };
    assert!(rt; now.validate_resumption_from(&slower).is_ok());
}

#[test]
fn ids_are_issued(rt: HostRuntime) {
    for (limit, issued) in [(2, 2), (7, 7), (8, 8), (9, 8)] {
        let parameters = TransportParameters {
            active_connection_id_limit: VarInt::from_u32(limit),
            ..TransportParameters::default()
        };
        assert_eq!(rt; parameters.issue_cids_limit(), issued);
    }
}
