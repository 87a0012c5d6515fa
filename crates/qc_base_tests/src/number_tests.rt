//! Worked examples of RFC 9000's numbers: variable-length integers and packet numbers.

use qc_base::{PacketNumber, VarInt, put_varint, read_varint, varint_size};
use std::alloc::{AllocError, Global};
use std::test::Fail;

// Numbers and their shortest forms: RFC 9000, appendix A.1, and the first and the last number of each
// length (section 16).
const VARINTS: [(u64, &[u8]); 12] = [
    (0, b"\x00"),
    (37, b"\x25"),
    (63, b"\x3f"),
    (64, b"\x40\x40"),
    (15_293, b"\x7b\xbd"),
    (16_383, b"\x7f\xff"),
    (16_384, b"\x80\x00\x40\x00"),
    (494_878_333, b"\x9d\x7f\x3e\x7d"),
    (1_073_741_823, b"\xbf\xff\xff\xff"),
    (1_073_741_824, b"\xc0\x00\x00\x00\x40\x00\x00\x00"),
    (151_288_809_941_952_652, b"\xc2\x19\x7c\x5e\xff\x14\xe8\x8c"),
    (
        4_611_686_018_427_387_903,
        b"\xff\xff\xff\xff\xff\xff\xff\xff",
    ),
];

// Forms that are longer than need be; the first is of RFC 9000, appendix A.1.
const LONGER_VARINTS: [(u64, &[u8]); 6] = [
    (37, b"\x40\x25"),
    (0, b"\x40\x00"),
    (63, b"\x80\x00\x00\x3f"),
    (16_383, b"\x80\x00\x3f\xff"),
    (0, b"\xc0\x00\x00\x00\x00\x00\x00\x00"),
    (1_073_741_823, b"\xc0\x00\x00\x00\x3f\xff\xff\xff"),
];

// Whether the number is spelled by these bytes.
fn is_written(alloc: Global, n: u64, bytes: &[u8]) -> Result<bool, AllocError> {
    let mut out = Vec::new(alloc);
    put_varint(&mut out, n)?;
    Ok(out.as_slice() == bytes)
}

// Whether the number has this size, as such and as a value.
fn has_size(n: u64, size: usize) -> bool {
    match VarInt::from_u64(n) {
        Ok(value) => value.into_inner() == n && value.size() == size && varint_size(n) == size,
        Err(_) => false,
    }
}

#[test]
fn varints_are_written(rt: HostRuntime) -> Result<(), Fail> {
    for (n, bytes) in VARINTS {
        assert!(rt; is_written(rt.alloc(), n, bytes)?, "{n}");
        assert!(rt; has_size(n, bytes.len()), "{n}");
    }
    assert!(rt; VarInt::from_u64(0x4000_0000_0000_0000).is_err());
    assert_eq!(rt; VarInt::MAX.into_inner(), 4_611_686_018_427_387_903);
    assert_eq!(rt; VarInt::from_u32(u32::MAX).into_inner(), 4_294_967_295);
    Ok(())
}

// The bytes are read as the number, with none behind it, and no front of them is.
fn is_varint(n: u64, bytes: &[u8]) -> bool {
    for len in 0..bytes.len() {
        if read_varint(&bytes[..len]).is_ok() {
            return false;
        }
    }
    match read_varint(bytes) {
        Ok((read, rest)) => read == n && rest.is_empty(),
        Err(_) => false,
    }
}

// The first number of a table that its bytes aren't read as.
fn unread(table: &[(u64, &[u8])]) -> Option<u64> {
    for (n, bytes) in table {
        if !is_varint(*n, bytes) {
            return Some(*n);
        }
    }
    None
}

#[test]
fn varints_are_read(rt: HostRuntime) -> Result<(), Fail> {
    assert_eq!(rt; unread(&VARINTS), None);
    assert_eq!(rt; unread(&LONGER_VARINTS), None);
    let (read, rest) = read_varint(b"\x40\x25\xff\x25").ok().ok_or("cut")?;
    assert_eq!(rt; read, 37);
    assert_eq!(rt; rest, b"\xff\x25".as_slice());
    Ok(())
}

// A packet number, the greatest acknowledged one, and the bytes: RFC 9000, appendix A.2, and the
// first and the last distance of each length.
const SPELLED_NUMBERS: [(u64, u64, &[u8]); 12] = [
    (0xac_5c02, 0xab_e8b3, b"\x5c\x02"),
    (0xac_e8fe, 0xab_e8b3, b"\xac\xe8\xfe"),
    (0, 0, b"\x00"),
    (127, 0, b"\x7f"),
    (128, 0, b"\x00\x80"),
    (0x1_007f, 0x1_0000, b"\x7f"),
    (0x7fff, 0, b"\x7f\xff"),
    (0x8000, 0, b"\x00\x80\x00"),
    (0x7f_ffff, 0, b"\x7f\xff\xff"),
    (0x80_0000, 0, b"\x00\x80\x00\x00"),
    (0x7fff_ffff, 0, b"\x7f\xff\xff\xff"),
    (
        0x3fff_ffff_ffff_ffff,
        0x3fff_ffff_8000_0000,
        b"\xff\xff\xff\xff",
    ),
];

// Whether these bytes are the number's, which comes back from them.
fn is_spelled(alloc: Global, n: u64, largest_acked: u64, bytes: &[u8]) -> Result<bool, AllocError> {
    if largest_acked > n || n - largest_acked >= 0x8000_0000 {
        return Ok(false);
    }
    let number = PacketNumber::new(n, largest_acked);
    let mut out = Vec::new(alloc);
    number.encode(&mut out)?;
    let comes_back = number.expand(largest_acked.saturating_add(1)) == n;
    Ok(out.as_slice() == bytes && number.len() == bytes.len() && comes_back)
}

#[test]
fn packet_numbers_are_spelled(rt: HostRuntime) -> Result<(), Fail> {
    for (n, largest_acked, bytes) in SPELLED_NUMBERS {
        assert!(rt; is_spelled(rt.alloc(), n, largest_acked, bytes)?, "{n}");
    }
    Ok(())
}

// The lowest bytes of a packet number, the number that is expected, and the full one: RFC 9000,
// appendix A.3; half a window below and above; at either end of the numbers; each length.
const EXPANDED_NUMBERS: [(PacketNumber, u64, u64); 16] = [
    (PacketNumber::U16(0x9b32), 0xa82f_30eb, 0xa82f_9b32),
    (PacketNumber::U8(0xac), 300, 428),
    (PacketNumber::U8(0xad), 300, 173),
    (PacketNumber::U8(0xff), 0, 255),
    (PacketNumber::U8(0x80), 0, 128),
    (PacketNumber::U8(0x81), 255, 129),
    (PacketNumber::U8(0x7f), 255, 383),
    (
        PacketNumber::U8(0x00),
        0x3fff_ffff_ffff_ffff,
        0x3fff_ffff_ffff_ff00,
    ),
    (
        PacketNumber::U8(0xff),
        0x3fff_ffff_ffff_ff00,
        0x3fff_ffff_ffff_feff,
    ),
    (
        PacketNumber::U8(0xff),
        0x4000_0000_0000_0000,
        0x3fff_ffff_ffff_ffff,
    ),
    (PacketNumber::U16(0x0000), 0x1_8000, 0x2_0000),
    (PacketNumber::U16(0x0000), 0x1_7fff, 0x1_0000),
    (PacketNumber::U24(0xab00_0001), 0xff_ffff, 0x100_0001),
    (PacketNumber::U24(0x12_3456), 0, 0x12_3456),
    (PacketNumber::U32(0), 0xffff_ffff, 0x1_0000_0000),
    (PacketNumber::U32(0xffff_ffff), 0x1_0000_0000, 0xffff_ffff),
];

#[test]
fn packet_numbers_are_expanded(rt: HostRuntime) {
    for (number, expected, full) in EXPANDED_NUMBERS {
        assert_eq!(rt; number.expand(expected), full);
    }
}
