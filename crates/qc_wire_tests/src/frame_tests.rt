use qc_base::{ArrayRangeSet, NumberRange, TransportErrorCode, VarInt};
use qc_frame::{
    FrameFault, FrameList, FrameOf, InvalidFrame, Iter, OwnedAck, OwnedFrame, first_frame,
    fit_application_reason, fit_close_reason, put_frame, put_frames, put_last_frame,
};
use std::alloc::{AllocError, Global};
use std::process::Abort;
use std::test::Fail;

// A frame as it comes, its type and its name, and its spelling.
type ReadFrame = (&'static [u8], u64, &'static str, &'static [u8]);

// Each type of frame but those that go on to the payload's end.
const FRAMES: [ReadFrame; 28] = [
    (b"\x00", 0x00, "PADDING", b"\x00"),
    (b"\x40\x01", 0x01, "PING", b"\x01"),
    (
        b"\x02\x40\x40\x05\x01\x40\x03\x02\x01",
        0x02,
        "ACK",
        b"\x02\x40\x40\x05\x01\x03\x02\x01",
    ),
    (
        b"\x03\x0a\x00\x00\x0a\x01\x02\x03",
        0x03,
        "ACK",
        b"\x03\x0a\x00\x00\x0a\x01\x02\x03",
    ),
    (
        b"\x04\x04\x07\x41\x00",
        0x04,
        "RESET_STREAM",
        b"\x04\x04\x07\x41\x00",
    ),
    (b"\x05\x04\x07", 0x05, "STOP_SENDING", b"\x05\x04\x07"),
    (b"\x06\x00\x03abc", 0x06, "CRYPTO", b"\x06\x00\x03abc"),
    (b"\x07\x02\xaa\xbb", 0x07, "NEW_TOKEN", b"\x07\x02\xaa\xbb"),
    (b"\x0a\x04\x02hi", 0x0a, "STREAM", b"\x0a\x04\x02hi"),
    (b"\x0b\x04\x00", 0x0b, "STREAM", b"\x0b\x04\x00"),
    (b"\x0e\x04\x00\x02hi", 0x0e, "STREAM", b"\x0a\x04\x02hi"),
    (b"\x0f\x04\x05\x02hi", 0x0f, "STREAM", b"\x0f\x04\x05\x02hi"),
    (
        b"\x10\x80\x01\x00\x00",
        0x10,
        "MAX_DATA",
        b"\x10\x80\x01\x00\x00",
    ),
    (
        b"\x11\x04\x41\x00",
        0x11,
        "MAX_STREAM_DATA",
        b"\x11\x04\x41\x00",
    ),
    (b"\x12\x05", 0x12, "MAX_STREAMS", b"\x12\x05"),
    (b"\x13\x05", 0x13, "MAX_STREAMS", b"\x13\x05"),
    (b"\x14\x00", 0x14, "DATA_BLOCKED", b"\x14\x00"),
    (
        b"\x15\x04\x01",
        0x15,
        "STREAM_DATA_BLOCKED",
        b"\x15\x04\x01",
    ),
    (b"\x16\x01", 0x16, "STREAMS_BLOCKED", b"\x16\x01"),
    (b"\x17\x01", 0x17, "STREAMS_BLOCKED", b"\x17\x01"),
    (
        b"\x18\x02\x01\x04abcd0123456789ABCDEF",
        0x18,
        "NEW_CONNECTION_ID",
        b"\x18\x02\x01\x04abcd0123456789ABCDEF",
    ),
    (b"\x19\x02", 0x19, "RETIRE_CONNECTION_ID", b"\x19\x02"),
    (b"\x1aABCDEFGH", 0x1a, "PATH_CHALLENGE", b"\x1aABCDEFGH"),
    (b"\x1bABCDEFGH", 0x1b, "PATH_RESPONSE", b"\x1bABCDEFGH"),
    (
        b"\x1c\x0a\x06\x02no",
        0x1c,
        "CONNECTION_CLOSE",
        b"\x1c\x0a\x06\x02no",
    ),
    (
        b"\x1d\x07\x02no",
        0x1d,
        "APPLICATION_CLOSE",
        b"\x1d\x07\x02no",
    ),
    (b"\x1e", 0x1e, "HANDSHAKE_DONE", b"\x1e"),
    (b"\x31\x02hi", 0x31, "DATAGRAM", b"\x31\x02hi"),
];

// The types that go on to the payload's end, each with the number of bytes after which it may end.
const LAST_FRAMES: [(ReadFrame, usize); 5] = [
    ((b"\x08\x04hi", 0x08, "STREAM", b"\x0a\x04\x02hi"), 2),
    ((b"\x09\x04hi", 0x09, "STREAM", b"\x0b\x04\x02hi"), 2),
    (
        (b"\x0c\x04\x40\x05hi", 0x0c, "STREAM", b"\x0e\x04\x05\x02hi"),
        4,
    ),
    (
        (b"\x0d\x04\x05hi", 0x0d, "STREAM", b"\x0f\x04\x05\x02hi"),
        3,
    ),
    ((b"\x30hi", 0x30, "DATAGRAM", b"\x31\x02hi"), 1),
];

// Whether the bytes are read as this frame, and nothing is behind it.
fn is_read(row: &ReadFrame) -> bool {
    let (wire, number, name, spelled) = *row;
    match first_frame(wire) {
        Ok((read, rest)) => rest.is_empty()
            && read.ty == number
            && read.frame.name() == name
            && read.frame.len() == spelled.len()
            && first_of(spelled) == Some(read.frame.ty()),
        Err(_) => false,
    }
}

fn first_of(bytes: &[u8]) -> Option<u64> {
    match bytes {
        [first, ..] => Some(u64::from(*first)),
        [] => None,
    }
}

// The frame at the front of the bytes, written again.
fn written(alloc: Global, wire: &[u8]) -> Result<Vec<u8>, AllocError> {
    let mut out = Vec::new(alloc);
    if let Ok((read, _)) = first_frame(wire) {
        put_frame(&mut out, &read.frame)?;
    }
    Ok(out)
}

// Whether the frame is written so.
fn is_written(alloc: Global, row: &ReadFrame) -> Result<bool, AllocError> {
    let (wire, _, _, spelled) = *row;
    let out = written(alloc, wire)?;
    Ok(out.as_slice() == spelled)
}

fn check(rt: &(impl Abort + AllocGlobal), row: &ReadFrame) -> Result<(), Fail> {
    assert!(rt; is_read(row), "{}", row.2);
    assert!(rt; is_written(rt.alloc(), row)?, "{}", row.2);
    Ok(())
}

#[test]
fn each_kind_is_read_and_written(rt: HostRuntime) -> Result<(), Fail> {
    for row in &FRAMES {
        check(&rt, row)?;
    }
    for (row, _) in &LAST_FRAMES {
        check(&rt, row)?;
    }
    Ok(())
}

// How many frames a payload has, and the fault that ends it.
fn walk(payload: &[u8]) -> (usize, Option<InvalidFrame>) {
    let mut count = 0usize;
    let mut fault = None;
    if let Ok(frames) = Iter::new(payload) {
        for item in frames {
            match item {
                Ok(_) => count = count.wrapping_add(1),
                Err(invalid) => fault = Some(invalid),
            }
        }
    }
    (count, fault)
}

// Whether a payload of `whole` frames and the first `len` bytes of another is read so: before its type
// and its first `least` bytes are there it ends in a fault.
fn is_walked(payload: &[u8], whole: usize, row: &ReadFrame, len: usize, least: usize) -> bool {
    let (wire, number, _, _) = *row;
    let (count, fault) = walk(payload);
    if len >= least {
        return count == whole.wrapping_add(1) && fault.is_none();
    }
    let has_type = len > 1 || first_of(wire).is_some_and(|first| first < 64);
    let ty = if has_type { Some(number) } else { None };
    let why = FrameFault::UnexpectedEnd;
    count == whole && fault == Some(InvalidFrame { ty, why })
}

// Adds a frame to `whole` others, a byte at a time, and gives the first length at which it isn't read
// as it should be.
fn grow(
    payload: &mut Vec<u8>,
    whole: usize,
    row: &ReadFrame,
    least: usize,
) -> Result<Option<usize>, Fail> {
    for (at, byte) in row.0.iter().enumerate() {
        payload.push(*byte)?;
        if !is_walked(payload.as_slice(), whole, row, at + 1, least) {
            return Ok(Some(at));
        }
    }
    Ok(None)
}

// Adds each of the frames, and gives the type of the first that isn't read as it should be.
fn grow_all(payload: &mut Vec<u8>) -> Result<Option<u64>, Fail> {
    for (whole, row) in FRAMES.iter().enumerate() {
        if grow(payload, whole, row, row.0.len())?.is_some() {
            return Ok(Some(row.1));
        }
    }
    Ok(None)
}

// The same behind them of each that goes on to the payload's end.
fn grow_last(payload: &mut Vec<u8>) -> Result<Option<u64>, Fail> {
    let len = payload.len();
    for (row, least) in &LAST_FRAMES {
        if grow(payload, FRAMES.len(), row, *least)?.is_some() {
            return Ok(Some(row.1));
        }
        payload.truncate(len);
    }
    Ok(None)
}

// Each front of a payload that has every kind of frame.
#[test]
fn each_prefix_is_read(rt: HostRuntime) -> Result<(), Fail> {
    let mut payload = Vec::new(rt.alloc());
    assert_eq!(rt; grow_all(&mut payload)?, None);
    assert_eq!(rt; grow_last(&mut payload)?, None);
    Ok(())
}

// The least and the greatest fields.
const BOUNDS: [ReadFrame; 21] = [
    // a type in its longest form
    (
        b"\xc0\x00\x00\x00\x00\x00\x00\x10\x05",
        0x10,
        "MAX_DATA",
        b"\x10\x05",
    ),
    // the only range, the second range and the second range's gap go down to 0
    (
        b"\x02\x05\x00\x00\x05",
        0x02,
        "ACK",
        b"\x02\x05\x00\x00\x05",
    ),
    (
        b"\x02\x05\x00\x01\x02\x00\x01",
        0x02,
        "ACK",
        b"\x02\x05\x00\x01\x02\x00\x01",
    ),
    (
        b"\x02\x05\x00\x01\x03\x00\x00",
        0x02,
        "ACK",
        b"\x02\x05\x00\x01\x03\x00\x00",
    ),
    (
        b"\x02\x05\x00\x01\x00\x03\x00",
        0x02,
        "ACK",
        b"\x02\x05\x00\x01\x00\x03\x00",
    ),
    // bodies of no bytes
    (b"\x06\x00\x00", 0x06, "CRYPTO", b"\x06\x00\x00"),
    (b"\x08\x00", 0x08, "STREAM", b"\x0a\x00\x00"),
    (b"\x30", 0x30, "DATAGRAM", b"\x31\x00"),
    (b"\x31\x00", 0x31, "DATAGRAM", b"\x31\x00"),
    // a code and a frame type of 0, and of 2^62 - 1
    (
        b"\x1c\x00\x00\x00",
        0x1c,
        "CONNECTION_CLOSE",
        b"\x1c\x00\x00\x00",
    ),
    (
        b"\x1c\xff\xff\xff\xff\xff\xff\xff\xff\xff\xff\xff\xff\xff\xff\xff\xff\x00",
        0x1c,
        "CONNECTION_CLOSE",
        b"\x1c\xff\xff\xff\xff\xff\xff\xff\xff\xff\xff\xff\xff\xff\xff\xff\xff\x00",
    ),
    (b"\x1d\x00\x00", 0x1d, "APPLICATION_CLOSE", b"\x1d\x00\x00"),
    // ids of 1 byte and of 20, and one that retires all before it
    (
        b"\x18\x05\x00\x01a0123456789ABCDEF",
        0x18,
        "NEW_CONNECTION_ID",
        b"\x18\x05\x00\x01a0123456789ABCDEF",
    ),
    (
        b"\x18\x05\x00\x14abcdefghijklmnopqrst0123456789ABCDEF",
        0x18,
        "NEW_CONNECTION_ID",
        b"\x18\x05\x00\x14abcdefghijklmnopqrst0123456789ABCDEF",
    ),
    (
        b"\x18\x05\x05\x01a0123456789ABCDEF",
        0x18,
        "NEW_CONNECTION_ID",
        b"\x18\x05\x05\x01a0123456789ABCDEF",
    ),
    // what has a form, though a receiver refuses it: more than 2^60 streams, a token of no bytes,
    // and bytes that end at 2^62 or above
    (
        b"\x12\xd0\x00\x00\x00\x00\x00\x00\x01",
        0x12,
        "MAX_STREAMS",
        b"\x12\xd0\x00\x00\x00\x00\x00\x00\x01",
    ),
    (
        b"\x17\xd0\x00\x00\x00\x00\x00\x00\x01",
        0x17,
        "STREAMS_BLOCKED",
        b"\x17\xd0\x00\x00\x00\x00\x00\x00\x01",
    ),
    (b"\x07\x00", 0x07, "NEW_TOKEN", b"\x07\x00"),
    (
        b"\x0e\x04\xff\xff\xff\xff\xff\xff\xff\xff\x01a",
        0x0e,
        "STREAM",
        b"\x0e\x04\xff\xff\xff\xff\xff\xff\xff\xff\x01a",
    ),
    (
        b"\x06\xff\xff\xff\xff\xff\xff\xff\xff\x02ab",
        0x06,
        "CRYPTO",
        b"\x06\xff\xff\xff\xff\xff\xff\xff\xff\x02ab",
    ),
    // the greatest stream
    (
        b"\x05\xff\xff\xff\xff\xff\xff\xff\xff\x00",
        0x05,
        "STOP_SENDING",
        b"\x05\xff\xff\xff\xff\xff\xff\xff\xff\x00",
    ),
];

#[test]
fn bounds_are_read_and_written(rt: HostRuntime) -> Result<(), Fail> {
    for row in &BOUNDS {
        check(&rt, row)?;
    }
    Ok(())
}

// MAX_DATA frames: the first and the last number of each length, and small ones in longer forms.
const NUMBERS: [(u64, &[u8]); 11] = [
    (0, b"\x10\x00"),
    (63, b"\x10\x3f"),
    (64, b"\x10\x40\x40"),
    (16_383, b"\x10\x7f\xff"),
    (16_384, b"\x10\x80\x00\x40\x00"),
    (1_073_741_823, b"\x10\xbf\xff\xff\xff"),
    (1_073_741_824, b"\x10\xc0\x00\x00\x00\x40\x00\x00\x00"),
    (
        4_611_686_018_427_387_903,
        b"\x10\xff\xff\xff\xff\xff\xff\xff\xff",
    ),
    (5, b"\x10\x40\x05"),
    (5, b"\x10\x80\x00\x00\x05"),
    (5, b"\x10\xc0\x00\x00\x00\x00\x00\x00\x05"),
];

#[test]
fn numbers_of_each_length_are_read(rt: HostRuntime) {
    for (number, wire) in &NUMBERS {
        match first_frame(wire) {
            Ok((read, _)) => match read.frame {
                FrameOf::MaxData(limit) => assert_eq!(rt; limit, *number),
                _ => assert!(rt; false, "{number}"),
            },
            Err(_) => assert!(rt; false, "{number}"),
        }
    }
}

// CRYPTO frames with bodies at whose length the length's own form grows.
#[test]
fn bodies_of_each_length_are_written(rt: HostRuntime) -> Result<(), Fail> {
    let table: [(&[u8], usize); 4] = [
        (b"\x06\x00\x3f", 63),
        (b"\x06\x00\x40\x40", 64),
        (b"\x06\x00\x7f\xff", 16_383),
        (b"\x06\x00\x80\x00\x40\x00", 16_384),
    ];
    for (head, len) in table {
        let body = vec![in rt.alloc(); 7; len]?;
        let mut wire = Vec::from_slice(rt.alloc(), head)?;
        wire.extend_from_slice(body.as_slice())?;
        let again = written(rt.alloc(), wire.as_slice())?;
        assert!(rt; again.as_slice() == wire.as_slice());
    }
    Ok(())
}

// Bytes that are no frame, the type that was read, and what is wrong.
type Refused = (&'static [u8], Option<u64>, FrameFault);

const REFUSED: [Refused; 26] = [
    // the type is cut
    (b"", None, FrameFault::UnexpectedEnd),
    (b"\x40", None, FrameFault::UnexpectedEnd),
    (
        b"\xc0\x00\x00\x00\x00\x00\x00",
        None,
        FrameFault::UnexpectedEnd,
    ),
    // there is no such type
    (b"\x1f", Some(0x1f), FrameFault::InvalidFrameId),
    (b"\x20", Some(0x20), FrameFault::InvalidFrameId),
    (b"\x2f", Some(0x2f), FrameFault::InvalidFrameId),
    (b"\x32", Some(0x32), FrameFault::InvalidFrameId),
    (b"\x40\x40", Some(0x40), FrameFault::InvalidFrameId),
    (
        b"\xff\xff\xff\xff\xff\xff\xff\xff",
        Some(0x3fff_ffff_ffff_ffff),
        FrameFault::InvalidFrameId,
    ),
    // a body that is cut
    (b"\x06\x00\x05a", Some(0x06), FrameFault::UnexpectedEnd),
    (
        b"\x06\x00\xff\xff\xff\xff\xff\xff\xff\xff",
        Some(0x06),
        FrameFault::UnexpectedEnd,
    ),
    // the first range falls below 0
    (b"\x02\x02\x00\x00\x03", Some(0x02), FrameFault::Malformed),
    // so does the second, at its gap and at its length
    (
        b"\x02\x05\x00\x01\x04\x00\x00",
        Some(0x02),
        FrameFault::Malformed,
    ),
    (
        b"\x02\x05\x00\x01\x00\x04\x00",
        Some(0x02),
        FrameFault::Malformed,
    ),
    (
        b"\x02\x05\x00\x01\x02\x00\x02",
        Some(0x02),
        FrameFault::Malformed,
    ),
    (
        b"\x02\x05\x00\x01\x02\xff\xff\xff\xff\xff\xff\xff\xff\x00",
        Some(0x02),
        FrameFault::Malformed,
    ),
    // what comes first is told: a range below 0 before a cut, and a cut before the next range
    (b"\x02\x05\x00\x01\x06", Some(0x02), FrameFault::Malformed),
    (
        b"\x02\x05\x00\x01\x05",
        Some(0x02),
        FrameFault::UnexpectedEnd,
    ),
    (
        b"\x02\x05\x00\x01\x04\x00",
        Some(0x02),
        FrameFault::Malformed,
    ),
    (
        b"\x02\x05\x00\x01\x03\x00",
        Some(0x02),
        FrameFault::UnexpectedEnd,
    ),
    // ids that retire themselves, of no bytes, of 21 and of 255; an id and a token that are cut
    (b"\x18\x01\x02", Some(0x18), FrameFault::Malformed),
    (b"\x18\x01\x00\x00", Some(0x18), FrameFault::Malformed),
    (b"\x18\x01\x00\x15", Some(0x18), FrameFault::Malformed),
    (b"\x18\x01\x00\xff", Some(0x18), FrameFault::Malformed),
    (
        b"\x18\x01\x01\x14abcdefghijklmnopqrs",
        Some(0x18),
        FrameFault::UnexpectedEnd,
    ),
    (
        b"\x18\x01\x01\x01a0123456789ABCDE",
        Some(0x18),
        FrameFault::UnexpectedEnd,
    ),
];

#[test]
fn what_is_no_frame_is_refused(rt: HostRuntime) {
    for (bytes, ty, why) in &REFUSED {
        match first_frame(bytes) {
            Ok(_) => assert!(rt; false),
            Err(invalid) => {
                assert_eq!(rt; invalid.ty, *ty);
                assert_eq!(rt; invalid.why, *why);
            }
        }
    }
}

// The frames of a payload, and the fault that ends it.
fn listed(alloc: Global, payload: &[u8]) -> Result<(FrameList, Option<InvalidFrame>), Fail> {
    let frames = Iter::new(payload).ok().ok_or("no payload")?;
    Ok(FrameList::read_all(alloc, frames)?)
}

// Whether the list is spelled so.
fn list_is_spelled(alloc: Global, list: &FrameList, spelled: &[u8]) -> Result<bool, AllocError> {
    let mut out = Vec::new(alloc);
    list.put(&mut out)?;
    Ok(out.as_slice() == spelled && list.spelled_len() == spelled.len())
}

// Whether a copy of the list is.
fn copy_is_spelled(alloc: Global, list: &FrameList, spelled: &[u8]) -> Result<bool, AllocError> {
    let copy = list.copy(alloc)?;
    list_is_spelled(alloc, &copy, spelled)
}

// Whether the frames but for PADDING at the end are spelled so, and so many PADDING frames follow.
fn parts_are_spelled(
    alloc: Global,
    list: &FrameList,
    spelled: &[u8],
    padding: u64,
) -> Result<bool, AllocError> {
    let (frames, behind) = list.parts();
    let mut out = Vec::new(alloc);
    put_frames(&mut out, frames)?;
    Ok(behind == padding && out.as_slice() == spelled)
}

// Whether the list and its copy are spelled so, of which the PADDING at the end is counted.
fn is_list(
    alloc: Global,
    list: &FrameList,
    spelled: &[u8],
    parts: &[u8],
    padding: u64,
) -> Result<bool, AllocError> {
    Ok(
        list_is_spelled(alloc, list, spelled)?
            && copy_is_spelled(alloc, list, spelled)?
            && parts_are_spelled(alloc, list, parts, padding)?,
    )
}

#[test]
fn a_payload_is_kept_in_a_list(rt: HostRuntime) -> Result<(), Fail> {
    let alloc = rt.alloc();
    assert!(rt; Iter::new(b"").is_err());
    let (mut list, fault) = listed(alloc, b"\x01\x00\x00\x06\x00\x01a\x00\x00\x1f")?;
    list.push_padding(2)?;
    let spelled = b"\x01\x00\x00\x06\x00\x01a\x00\x00\x00\x00";
    let is_list = is_list(alloc, &list, spelled, b"\x01\x00\x00\x06\x00\x01a", 4)?;
    assert!(rt; is_list && list.elicits() && !list.is_empty());
    assert_eq!(rt;
        fault.map(|invalid| invalid.why),
        Some(FrameFault::InvalidFrameId)
    );
    Ok(())
}

// Whether the frame is written so as the last one of a packet.
fn is_written_last(alloc: Global, wire: &[u8], spelled: &[u8]) -> Result<bool, AllocError> {
    let mut out = Vec::new(alloc);
    match first_frame(wire) {
        Ok((read, _)) => {
            put_last_frame(&mut out, &read.frame)?;
            Ok(out.as_slice() == spelled && read.frame.last_len() == spelled.len())
        }
        Err(_) => Ok(false),
    }
}

#[test]
fn the_last_frame_needs_no_length(rt: HostRuntime) -> Result<(), Fail> {
    assert!(rt; is_written_last(rt.alloc(), b"\x0b\x04\x02hi", b"\x09\x04hi")?);
    assert!(rt; is_written_last(rt.alloc(), b"\x31\x02hi", b"\x30hi")?);
    assert!(rt; is_written_last(rt.alloc(), b"\x06\x00\x01a", b"\x06\x00\x01a")?);
    Ok(())
}

#[test]
fn a_reason_is_cut_to_fit(rt: HostRuntime) {
    let reason = b"0123456789012345678901234567890123456789012345678901234567890123456789";
    let code = TransportErrorCode::PROTOCOL_VIOLATION;
    assert_eq!(rt; fit_close_reason(code, None, reason, 100).len(), 70);
    assert_eq!(rt; fit_close_reason(code, Some(6), reason, 67).len(), 63);
    assert_eq!(rt; fit_close_reason(code, Some(6), reason, 69).len(), 64);
    assert_eq!(rt; fit_close_reason(code, None, reason, 4).len(), 0);
    assert_eq!(rt; fit_close_reason(code, None, reason, 3).len(), 0);
    assert_eq!(rt;
        fit_application_reason(VarInt::from_u32(7), reason, 10).len(),
        7
    );
    assert_eq!(rt;
        fit_application_reason(VarInt::from_u32(7), reason, 2).len(),
        0
    );
}

#[test]
fn a_run_of_padding_is_skipped(rt: HostRuntime) {
    match Iter::new(b"\x00\x00\x00\x01\x00\x40\x00") {
        Ok(frames) => {
            let mut frames = frames;
            assert_eq!(rt; frames.skip_padding(), 3);
            assert_eq!(rt; frames.skip_padding(), 0);
            assert!(rt; frames.next().is_some());
            assert_eq!(rt; frames.skip_padding(), 1);
            assert!(rt; frames.next().is_some());
            assert!(rt; frames.next().is_none());
            assert_eq!(rt; frames.skip_padding(), 0);
        }
        Err(_) => assert!(rt; false),
    }
}

// An ACK of the packets 0, 3, 4 and 8 to 10.
fn acknowledged(alloc: Global) -> Result<Option<OwnedAck>, AllocError> {
    let mut numbers = ArrayRangeSet::new();
    for number in [8u64, 4, 0, 10, 9, 3] {
        numbers.insert_one(number);
    }
    OwnedAck::of_numbers(alloc, &numbers, 5, None)
}

// Whether the ACK has these ranges.
fn has_ranges(ack: &OwnedAck, wanted: &[(u64, u64)]) -> bool {
    let mut ranges = ack.ranges();
    for (first, last) in wanted {
        let range = NumberRange {
            first: *first,
            last: *last,
        };
        if ranges.next() != Some(range) {
            return false;
        }
    }
    ranges.next().is_none()
}

// Whether the ACK is spelled so.
fn ack_is_spelled(alloc: Global, ack: OwnedAck, spelled: &[u8]) -> Result<bool, AllocError> {
    let frame = OwnedFrame::Ack(ack);
    let mut out = Vec::new(alloc);
    put_frame(&mut out, &frame.as_frame())?;
    Ok(out.as_slice() == spelled && frame.as_frame().len() == spelled.len())
}

// 8 to 10, then three not there (gap 2), 3 and 4, then two not there (gap 1), and 0.
#[test]
fn packets_are_acknowledged(rt: HostRuntime) -> Result<(), Fail> {
    let ack = acknowledged(rt.alloc())?.ok_or("no ACK")?;
    assert!(rt; ack.largest == 10 && has_ranges(&ack, &[(8, 10), (3, 4), (0, 0)]));
    let spelled = b"\x02\x0a\x05\x02\x02\x02\x01\x01\x00";
    assert!(rt; ack_is_spelled(rt.alloc(), ack, spelled)?);
    Ok(())
}
