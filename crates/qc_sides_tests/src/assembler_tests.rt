//! Parts in every order, reads in pieces, and the greatest number of parts.

use bytes::Bytes;
use qc_assembler::{Assembler, InsertError, MAX_PARTS, reads_what_came};
use std::alloc::Global;
use std::test::Fail;

/// Bytes come: whether they are kept, and in an error why not.
fn come(
    assembler: &mut Assembler,
    alloc: Global,
    offset: u32,
    bytes: &[u8],
) -> Result<Result<(), InsertError>, Fail> {
    let bytes = Bytes::copy_from_slice(alloc, bytes)?;
    Ok(assembler.insert(u64::from(offset), bytes))
}

/// Whether a read of at most so many bytes gives these.
fn gives(assembler: &mut Assembler, most: usize, bytes: Option<&[u8]>) -> Result<bool, Fail> {
    match (assembler.read(most)?, bytes) {
        (Some(chunk), Some(bytes)) => Ok(&chunk[..] == bytes),
        (None, None) => Ok(true),
        _ => Ok(false),
    }
}

/// Whether a read out of order of at most 3 bytes gives these, with that offset.
fn gives_unordered(assembler: &mut Assembler, given: Option<(u64, &[u8])>) -> Result<bool, Fail> {
    match (assembler.read_unordered(3)?, given) {
        (Some((at, chunk)), Some((offset, bytes))) => Ok(at == offset && &chunk[..] == bytes),
        (None, None) => Ok(true),
        _ => Ok(false),
    }
}

/// Reads at most so many bytes, behind those that were read before.
fn read_more(assembler: &mut Assembler, most: usize, got: &mut Vec<u8>) -> Result<bool, Fail> {
    match assembler.read(most)? {
        Some(chunk) => {
            got.extend_from_slice(&chunk)?;
            Ok(chunk.len() <= most)
        }
        None => Ok(true),
    }
}

// Three parts that overlap and differ where they do, and what stays of them in each order.
const PARTS: [(u32, &[u8]); 3] = [(0, b"abc"), (2, b"CdE"), (4, b"efg")];

const ORDERS: [([usize; 3], &[u8]); 6] = [
    ([0, 1, 2], b"abcdEfg"),
    ([0, 2, 1], b"abcdefg"),
    ([1, 0, 2], b"abCdEfg"),
    ([1, 2, 0], b"abCdEfg"),
    ([2, 0, 1], b"abcdefg"),
    ([2, 1, 0], b"abCdefg"),
];

#[test]
fn first_bytes_stay_in_every_order(rt: HostRuntime) -> Result<(), Fail> {
    for (order, left) in ORDERS {
        let mut assembler = Assembler::new(rt.alloc());
        for at in order {
            let (offset, part) = PARTS.get(at).ok_or("no such part")?;
            assert!(rt; come(&mut assembler, rt.alloc(), *offset, part)? == Ok(()));
        }
        assert_eq!(rt; assembler.parts(), 1);
        let mut got = Vec::new(rt.alloc());
        for most in [0, 2, 100, 100, 100, 100] {
            assert!(rt; read_more(&mut assembler, most, &mut got)?);
        }
        assert_eq!(rt; got.as_slice(), left);
        assert!(rt; gives(&mut assembler, 100, None)?);
        assert_eq!(rt; assembler.parts(), 0);
    }
    reads_what_came();
    Ok(())
}

#[test]
fn parts_are_counted_before_reading(rt: HostRuntime) -> Result<(), Fail> {
    let mut assembler = Assembler::new(rt.alloc());
    assert_eq!(rt; MAX_PARTS, 1024);
    for at in 1..1025 {
        assert!(rt; come(&mut assembler, rt.alloc(), 2 * at, b"x")? == Ok(()));
    }
    // an offset, whether a byte that comes there is kept, and how many parts there are then
    const STEPS: [(u32, bool, u64); 7] = [
        (0, false, 1024),
        (5000, false, 1024),
        (4, true, 1024),
        (1, true, 1024),
        (0, true, 1024),
        (3, true, 1023),
        (5000, true, 1024),
    ];
    for (offset, kept, parts) in STEPS {
        let came = come(&mut assembler, rt.alloc(), offset, b"y")?;
        assert!(rt;
            came == if kept {
                Ok(())
            } else {
                Err(InsertError::TooManyParts)
            }
        );
        assert_eq!(rt; assembler.parts(), parts);
    }
    Ok(())
}

// A read out of order gives what waits at the lowest offset; what it gave comes no more, neither
// again nor in order, and what fills the gaps comes once.
#[test]
fn unordered_reads_give_each_byte_once(rt: HostRuntime) -> Result<(), Fail> {
    // what comes, and what one read of at most 3 bytes gives then
    const STEPS: [(u32, &[u8], Option<(u64, &[u8])>); 8] = [
        (10, b"klmn", Some((10, b"klm"))),
        (9, b"jKLMNo", Some((9, b"j"))),
        (20, b"", Some((13, b"n"))),
        (20, b"", Some((14, b"o"))),
        (20, b"", None),
        (4, b"efg", Some((4, b"efg"))),
        (0, b"abcdEFGhiJKLMNOp", Some((0, b"abc"))),
        (3, b"d", Some((3, b"d"))),
    ];
    let mut assembler = Assembler::new(rt.alloc());
    for (offset, bytes, given) in STEPS {
        assert!(rt; come(&mut assembler, rt.alloc(), offset, bytes)? == Ok(()));
        assert!(rt; gives_unordered(&mut assembler, given)?);
    }
    // hi and p are left
    assert_eq!(rt; assembler.parts(), 2);
    Ok(())
}

// Bytes that come in order are read before others, and others come while they wait: in each step
// bytes come, and then one read gives what it may.
#[test]
fn bytes_in_order_wait_beside_others(rt: HostRuntime) -> Result<(), Fail> {
    // what comes, how many parts there are then, and what one read of at most 3 bytes gives
    const STEPS: [(u32, &[u8], u64, Option<&[u8]>); 9] = [
        (0, b"abcde", 1, Some(b"abc")),
        (0, b"ABCDE", 1, Some(b"de")),
        (5, b"f", 1, Some(b"f")),
        (6, b"", 0, None),
        (6, b"ghijk", 1, Some(b"ghi")),
        (10, b"Kl", 1, Some(b"jk")),
        (14, b"op", 2, Some(b"l")),
        (12, b"mnO", 1, Some(b"mn")),
        (6, b"", 1, Some(b"op")),
    ];
    let mut assembler = Assembler::new(rt.alloc());
    for (offset, bytes, parts, given) in STEPS {
        assert!(rt; come(&mut assembler, rt.alloc(), offset, bytes)? == Ok(()));
        assert_eq!(rt; assembler.parts(), parts);
        assert!(rt; gives(&mut assembler, 3, given)?);
    }
    assert_eq!(rt; assembler.bytes_read(), 16);
    assert_eq!(rt; assembler.parts(), 0);
    Ok(())
}
