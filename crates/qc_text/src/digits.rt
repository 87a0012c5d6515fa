//! Bytes in lower-case hex.

ghost use Rattle.std.specs.Prelude.{◌≡◌, ◌++◌, ◌*◌, ◌<◌, length, slice_index, OnOk};
ghost use Rattle.hex.specs.Hex.{encode_lower, lower_digits};
ghost use Rattle.qc_base.specs.Grammar.{IsBytes};

use std::alloc::AllocError;

/// Appends bytes in lower-case hex, in parts of 512 bytes, so that the memory for a part's digits is still at hand when they are
/// written.
pub fn put_hex(out: &mut Vec<u8>, bytes: &[u8]) -> Result<(), AllocError>
    ensures text { OnOk result (out.new.items ≡ out.old.items ++ encode_lower bytes.now) }
    ensures in_range { IsBytes bytes.now }
{
    'parts: for part in bytes.chunks(512) {
        put_part(out, part)?;
    }
    Ok(())
}

/// Appends a part of some bytes in lower-case hex.
fn put_part(out: &mut Vec<u8>, bytes: &[u8]) -> Result<(), AllocError>
    ensures { OnOk result (out.new.items ≡ out.old.items ++ encode_lower bytes.now) }
{
    let start = out.len();
    let Some(end) = bytes
        .len()
        .checked_mul(2)
        .and_then(|digits| digits.checked_add(start))
    else {
        return Err(AllocError);
    };
    out.resize(end, 0)?;
    write_digits(bytes, &mut out.as_mut_slice()[start..]);
    Ok(())
}

/// Writes two digits for each byte. The loop has no table, so that the compiler can do many bytes
/// at once.
fn write_digits(bytes: &[u8], digits: &mut [u8])
    requires { length digits.old ≡ 2 * length bytes.now }
    ensures { digits.new ≡ encode_lower bytes.now }
{
    'bytes: for i in 0..bytes.len() {
        let byte = bytes[i];
        digits[2 * i] = digit(byte / 16);
        digits[2 * i + 1] = digit(byte % 16);
    }
}

/// The digit of a number below 16.
fn digit(value: u8) -> u8
    requires { value < 16 }
    ensures { result ≡ slice_index lower_digits value }
{
    if value < 10 {
        b'0' + value
    } else {
        b'a' - 10 + value
    }
}
