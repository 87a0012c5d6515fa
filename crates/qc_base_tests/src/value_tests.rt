//! Ids, names, marks, streams and times: one call of each kind.

use qc_base::{
    ConnectionId, Dir, Duration, EcnCodepoint, Instant, ResetToken, Side, StreamId, SystemTime,
    TransportError, TransportErrorCode, constant_time,
};
use std::alloc::Global;
use std::test::Fail;

#[test]
fn ids(rt: HostRuntime) -> Result<(), Fail> {
    let table: [&[u8]; 3] = [b"", b"\x01\x02", b"0123456789abcdefghij"];
    for bytes in table {
        assert!(rt; bytes.len() <= 20);
        let id = ConnectionId::new(bytes);
        assert_eq!(rt; id.as_slice(), bytes);
        assert_eq!(rt; id.len(), bytes.len());
        assert_eq!(rt; id.is_empty(), bytes.is_empty());
    }
    let token = ResetToken::from(
        *b"\x00\x0f\xa0\xff\x12\x34\x56\x78\x9a\xbc\xde\xf0\x01\x23\x45\x67",
    );
    let text = token.to_string(rt.alloc())?;
    assert_eq!(rt; text.as_str(), "000fa0ff123456789abcdef001234567");
    assert!(rt; token == ResetToken::from(*token));
    Ok(())
}

#[test]
fn secrets_are_compared(rt: HostRuntime) {
    let table: [(&[u8], &[u8], bool); 5] = [
        (b"", b"", true),
        (b"ab", b"ab", true),
        (b"ab", b"ac", false),
        (b"bb", b"ab", false),
        (b"ab", b"abc", false),
    ];
    for (a, b, same) in table {
        assert_eq!(rt; constant_time::eq(a, b), same);
    }
}

// Whether the error is shown as this text.
fn is_shown(alloc: Global, error: TransportError, text: &str) -> Result<bool, Fail> {
    let shown = error.to_string(alloc)?;
    Ok(shown.as_str() == text)
}

// RFC 9000, section 20.1.
#[test]
fn codes_have_names(rt: HostRuntime) -> Result<(), Fail> {
    let table: [(TransportErrorCode, u64, &str); 17] = [
        (TransportErrorCode::NO_ERROR, 0x00, "NO_ERROR"),
        (TransportErrorCode::INTERNAL_ERROR, 0x01, "INTERNAL_ERROR"),
        (
            TransportErrorCode::CONNECTION_REFUSED,
            0x02,
            "CONNECTION_REFUSED",
        ),
        (
            TransportErrorCode::FLOW_CONTROL_ERROR,
            0x03,
            "FLOW_CONTROL_ERROR",
        ),
        (
            TransportErrorCode::STREAM_LIMIT_ERROR,
            0x04,
            "STREAM_LIMIT_ERROR",
        ),
        (
            TransportErrorCode::STREAM_STATE_ERROR,
            0x05,
            "STREAM_STATE_ERROR",
        ),
        (
            TransportErrorCode::FINAL_SIZE_ERROR,
            0x06,
            "FINAL_SIZE_ERROR",
        ),
        (
            TransportErrorCode::FRAME_ENCODING_ERROR,
            0x07,
            "FRAME_ENCODING_ERROR",
        ),
        (
            TransportErrorCode::TRANSPORT_PARAMETER_ERROR,
            0x08,
            "TRANSPORT_PARAMETER_ERROR",
        ),
        (
            TransportErrorCode::CONNECTION_ID_LIMIT_ERROR,
            0x09,
            "CONNECTION_ID_LIMIT_ERROR",
        ),
        (
            TransportErrorCode::PROTOCOL_VIOLATION,
            0x0a,
            "PROTOCOL_VIOLATION",
        ),
        (TransportErrorCode::INVALID_TOKEN, 0x0b, "INVALID_TOKEN"),
        (
            TransportErrorCode::APPLICATION_ERROR,
            0x0c,
            "APPLICATION_ERROR",
        ),
        (
            TransportErrorCode::CRYPTO_BUFFER_EXCEEDED,
            0x0d,
            "CRYPTO_BUFFER_EXCEEDED",
        ),
        (
            TransportErrorCode::KEY_UPDATE_ERROR,
            0x0e,
            "KEY_UPDATE_ERROR",
        ),
        (
            TransportErrorCode::AEAD_LIMIT_REACHED,
            0x0f,
            "AEAD_LIMIT_REACHED",
        ),
        (TransportErrorCode::NO_VIABLE_PATH, 0x10, "NO_VIABLE_PATH"),
    ];
    for (code, number, name) in table {
        assert_eq!(rt; code.into_inner(), number);
        assert!(rt;
            is_shown(rt.alloc(), TransportError { code, frame: None }, name)?,
            "{name}"
        );
    }
    let alert = TransportErrorCode::crypto(42);
    assert_eq!(rt; alert.into_inner(), 0x12a);
    let error = TransportError {
        code: alert,
        frame: Some(6),
    };
    assert!(rt; is_shown(rt.alloc(), error, "298")?);
    assert_eq!(rt; TransportErrorCode::from(0x11).into_inner(), 0x11);
    Ok(())
}

// RFC 3168, section 5, figure 1.
#[test]
fn marks(rt: HostRuntime) {
    let table: [(u8, Option<EcnCodepoint>); 5] = [
        (0b00, None),
        (0b01, Some(EcnCodepoint::Ect1)),
        (0b10, Some(EcnCodepoint::Ect0)),
        (0b11, Some(EcnCodepoint::Ce)),
        (0b1111_1110, Some(EcnCodepoint::Ect0)),
    ];
    for (bits, mark) in table {
        assert_eq!(rt; EcnCodepoint::from_bits(bits), mark);
        if let Some(mark) = mark {
            assert_eq!(rt; mark.bits(), bits % 4);
        }
    }
    assert!(rt; EcnCodepoint::Ce.is_ce() && !EcnCodepoint::Ect0.is_ce());
}

// RFC 9000, section 2.1, table 1.
#[test]
fn streams(rt: HostRuntime) {
    let table: [(Side, Dir, u64, u64); 6] = [
        (Side::Client, Dir::Bi, 0, 0x00),
        (Side::Server, Dir::Bi, 0, 0x01),
        (Side::Client, Dir::Uni, 0, 0x02),
        (Side::Server, Dir::Uni, 0, 0x03),
        (Side::Server, Dir::Uni, 3, 15),
        (
            Side::Server,
            Dir::Uni,
            0xfff_ffff_ffff_ffff,
            0x3fff_ffff_ffff_ffff,
        ),
    ];
    for (side, dir, index, value) in table {
        assert!(rt; index < 0x1000_0000_0000_0000);
        let stream = StreamId::new(side, dir, index);
        assert_eq!(rt; stream.value(), value);
        assert!(rt; stream.initiator() == side && stream.dir() == dir);
        assert_eq!(rt; stream.index(), index);
    }
    assert!(rt; Side::Client.is_client() && !Side::Client.is_server());
    assert!(rt; Side::Client < Side::Server && Dir::Bi < Dir::Uni);
}

#[test]
fn times(rt: HostRuntime) -> Result<(), Fail> {
    let start = Instant::from_nanos(5);
    let later = start.plus(Duration::from_millis(2));
    assert_eq!(rt; later.nanos(), 2_000_005);
    assert_eq!(rt; later.since(start), Duration::from_nanos(2_000_000));
    assert_eq!(rt; start.since(later), Duration::ZERO);
    let longest = Duration::from_secs(u64::MAX);
    assert_eq!(rt; longest.nanos(), u64::MAX);
    assert_eq!(rt;
        Duration::from_secs(3)
            .times(2)
            .minus(Duration::from_secs(1))
            .plus(Duration::ZERO)
            .nanos(),
        5_000_000_000
    );
    let day = SystemTime::from_nanos(7).plus(Duration::from_nanos(8));
    assert_eq!(rt; day.since(SystemTime::from_nanos(7)).nanos(), 8);
    assert_eq!(rt; day.nanos(), 15);
    Ok(())
}
