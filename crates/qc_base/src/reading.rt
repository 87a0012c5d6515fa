//! Values at the front of bytes. Each function gives the value and the bytes behind it.

ghost use Rattle.std.specs.Prelude.{◌≡◌, ◌+◌, ◌<◌, ◌≤◌, ◌^◌, length, IfOk};
ghost use Rattle.std.specs.Int.{w16, w32, w64};
ghost use Rattle.qc_base.specs.Reading.{Finds, byte_of, bytes_of, blob_of, varint_of, word_of};

/// The bytes end before the value does.
#[derive(Clone, Copy, Debug, PartialEq, Eq)]
pub struct Cut;

/// The first byte.
pub fn read_byte(bytes: &[u8]) -> Result<(u8, &[u8]), Cut>
    ensures exact { Finds (λ x. (x.0, x.1.now)) result (byte_of bytes.now) }
    ensures shorter { IfOk result (λ x. length x.1.now < length bytes.now) }
{
    match bytes.split_first() {
        Some((first, rest)) => Ok((*first, rest)),
        None => Err(Cut),
    }
}

/// The first `count` bytes.
pub fn read_bytes(bytes: &[u8], count: u64) -> Result<(&[u8], &[u8]), Cut>
    ensures exact { Finds (λ x. (x.0.now, x.1.now)) result (bytes_of count bytes.now) }
    ensures length { IfOk result (λ x. length x.0.now ≡ count) }
    ensures shorter { IfOk result (λ x. length x.1.now + count ≡ length bytes.now) }
{
    if (bytes.len() as u64) < count {
        return Err(Cut);
    }
    Ok(bytes.split_at(count as usize))
}

/// Two bytes as a big-endian number.
#[tactic(auto, unfolding(crate::specs::Reading::word_of))]
pub fn read_u16(bytes: &[u8]) -> Result<(u16, &[u8]), Cut>
    ensures exact { Finds (λ x. (x.0, x.1.now)) result (word_of w16 bytes.now) }
    ensures shorter { IfOk result (λ x. length x.1.now < length bytes.now) }
{
    if bytes.len() < 2 {
        return Err(Cut);
    }
    let (front, rest) = bytes.split_at(2);
    Ok((u16::from_be_bytes([front[0], front[1]]), rest))
}

/// Four bytes as a big-endian number.
#[tactic(auto, unfolding(crate::specs::Reading::word_of))]
pub fn read_u32(bytes: &[u8]) -> Result<(u32, &[u8]), Cut>
    ensures exact { Finds (λ x. (x.0, x.1.now)) result (word_of w32 bytes.now) }
    ensures shorter { IfOk result (λ x. length x.1.now < length bytes.now) }
{
    if bytes.len() < 4 {
        return Err(Cut);
    }
    let (front, rest) = bytes.split_at(4);
    Ok((
        u32::from_be_bytes([front[0], front[1], front[2], front[3]]),
        rest,
    ))
}

/// Eight bytes as a big-endian number.
#[tactic(auto, unfolding(crate::specs::Reading::word_of))]
pub fn read_u64(bytes: &[u8]) -> Result<(u64, &[u8]), Cut>
    ensures exact { Finds (λ x. (x.0, x.1.now)) result (word_of w64 bytes.now) }
    ensures shorter { IfOk result (λ x. length x.1.now < length bytes.now) }
{
    if bytes.len() < 8 {
        return Err(Cut);
    }
    let (f, rest) = bytes.split_at(8);
    let word = [f[0], f[1], f[2], f[3], f[4], f[5], f[6], f[7]];
    Ok((u64::from_be_bytes(word), rest))
}

/// A variable-length integer, of any of its four lengths (RFC 9000, section 16).
#[tactic(auto, unfolding(crate::specs::Reading::varint_of))]
pub fn read_varint(bytes: &[u8]) -> Result<(u64, &[u8]), Cut>
    ensures exact { Finds (λ x. (x.0, x.1.now)) result (varint_of bytes.now) }
    ensures range { IfOk result (λ x. x.0 < 2 ^ 62) }
    ensures shorter { IfOk result (λ x. length x.1.now < length bytes.now) }
{
    if bytes.is_empty() {
        return Err(Cut);
    }
    let first = bytes[0];
    if first < 64 {
        let (_, rest) = bytes.split_at(1);
        Ok((first as u64, rest))
    } else if first < 128 {
        if bytes.len() < 2 {
            return Err(Cut);
        }
        let (f, rest) = bytes.split_at(2);
        let word = u16::from_be_bytes([f[0], f[1]]);
        Ok(((word - 0x4000) as u64, rest))
    } else if first < 192 {
        if bytes.len() < 4 {
            return Err(Cut);
        }
        let (f, rest) = bytes.split_at(4);
        let word = u32::from_be_bytes([f[0], f[1], f[2], f[3]]);
        Ok(((word - 0x8000_0000) as u64, rest))
    } else {
        if bytes.len() < 8 {
            return Err(Cut);
        }
        let (f, rest) = bytes.split_at(8);
        let word = u64::from_be_bytes([f[0], f[1], f[2], f[3], f[4], f[5], f[6], f[7]]);
        Ok((word - 0xc000_0000_0000_0000, rest))
    }
}

/// A byte string behind its length, which is a variable-length integer.
#[tactic(auto, unfolding(crate::specs::Reading::blob_of))]
pub fn read_blob(bytes: &[u8]) -> Result<(&[u8], &[u8]), Cut>
    ensures exact { Finds (λ x. (x.0.now, x.1.now)) result (blob_of bytes.now) }
    ensures shorter { IfOk result (λ x. length x.0.now + length x.1.now < length bytes.now) }
{
    let (count, rest) = read_varint(bytes)?;
    read_bytes(rest, count)
}
