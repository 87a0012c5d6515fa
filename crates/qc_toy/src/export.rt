//! The keying material that the toy exports.

ghost use Rattle.std.specs.Prelude.{◌≡◌, ◌%◌, ◌+◌, sum, slice_index, length};
ghost use Rattle.qc_toy.specs.Cipher.{tabulated};

/// The sum of some bytes, modulo 256.
pub(crate) fn sum_of(bytes: &[u8]) -> u8
    ensures { result ≡ sum bytes.now % 256 }
{
    let mut total = 0u8;
    for b in bytes {
        total = total.wrapping_add(*b);
    }
    total
}

/// Fills `output`: byte i is byte i mod 5 of the secret, and `shift`, and i.
pub(crate) fn put_exported(output: &mut [u8], secret: &[u8; 5], shift: u8)
    ensures { output.new ≡ tabulated (λ i. (slice_index secret.now (i % 5) + shift + i) % 256) 0 (length output.old) }
{
    for i in 0..output.len() {
        output[i] = secret[i % 5]
            .wrapping_add(shift)
            .wrapping_add((i % 256) as u8);
    }
}
