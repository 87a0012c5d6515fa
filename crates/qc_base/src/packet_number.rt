//! Packet numbers as the wire carries them (RFC 9000, section 17.1).

ghost use Rattle.std.specs.Prelude.{◌≡◌, ◌+◌, ◌-◌, ◌*◌, ◌%◌, ◌^◌, ◌<◌, ◌≤◌, ◌++◌, ℕ, length, OnOk, OnErr};
ghost use Rattle.qc_base.specs.PacketNumber.{number_of, number_len, number_bytes, number_window, number_low, IsNearest, IsInWindow};

/// The greatest packet number, 2^62 - 1 (RFC 9000, section 12.3).
const GREATEST: u64 = 0x3fff_ffff_ffff_ffff;

use std::alloc::AllocError;

/// The lowest 1 to 4 bytes of a packet number. Of the number in `U24` the lowest 3 bytes count.
#[derive(Clone, Copy, Debug, PartialEq, Eq)]
pub enum PacketNumber {
    /// One byte.
    U8(u8),
    /// Two bytes.
    U16(u16),
    /// Three bytes.
    U24(u32),
    /// Four bytes.
    U32(u32),
}

impl PacketNumber {
    /// The packet number `n` in as few bytes as the peer can read, which acknowledged
    /// `largest_acked`: the least length L with 2 * (n - largest_acked) < 2^(8 * L)
    /// (RFC 9000, section 17.1 and appendix A.2).
    #[tactic(auto, unfolding(crate::specs::PacketNumber::number_of))]
    pub fn new(n: u64, largest_acked: u64) -> PacketNumber
        requires order { largest_acked ≤ n }
        requires near { n - largest_acked < 2 ^ 31 }
        ensures number { result ≡ number_of n largest_acked }
        ensures far { 2 * (n - largest_acked) < number_window result }
    {
        let span = 2 * (n - largest_acked);
        if span < 0x100 {
            PacketNumber::U8((n % 0x100) as u8)
        } else if span < 0x1_0000 {
            PacketNumber::U16((n % 0x1_0000) as u16)
        } else if span < 0x100_0000 {
            PacketNumber::U24((n % 0x100_0000) as u32)
        } else {
            PacketNumber::U32((n % 0x1_0000_0000) as u32)
        }
    }

    /// How many bytes it has: 1 to 4.
    #[tactic(auto, unfolding(crate::specs::PacketNumber::number_bytes))]
    pub fn len(self) -> usize
        ensures value { result ≡ number_len self }
        ensures bytes { result ≡ length (number_bytes self) }
        ensures least { 1 ≤ result }
        ensures most { result ≤ 4 }
    {
        match self {
            PacketNumber::U8(_) => 1,
            PacketNumber::U16(_) => 2,
            PacketNumber::U24(_) => 3,
            PacketNumber::U32(_) => 4,
        }
    }

    /// Appends its bytes, the highest first. After want of memory `out` is as before.
    #[inline(always)]
    #[tactic(auto, unfolding(crate::specs::PacketNumber::number_bytes))]
    pub fn encode(self, out: &mut Vec<u8>) -> Result<(), AllocError>
        ensures ok { OnOk result (out.new.items ≡ out.old.items ++ number_bytes self) }
        ensures err { OnErr result (out.new.items ≡ out.old.items) }
    {
        match self {
            PacketNumber::U8(n) => out.extend_from_slice(&n.to_be_bytes()),
            PacketNumber::U16(n) => out.extend_from_slice(&n.to_be_bytes()),
            PacketNumber::U24(n) => {
                let [_, high, middle, low] = n.to_be_bytes();
                out.extend_from_slice(&[high, middle, low])
            }
            PacketNumber::U32(n) => out.extend_from_slice(&n.to_be_bytes()),
        }
    }

    /// The full packet number below 2^62 that has these low bytes and is nearest to `expected`, the
    /// number after the greatest received so far; the greater one where two are as near
    /// (RFC 9000, appendix A.3). So a number that `new` cut comes back wherever it lies within half
    /// a window of the expected one.
    #[inline(always)]
    pub fn expand(self, expected: u64) -> u64
        ensures nearest { IsNearest (number_window self) (number_low self) expected result }
        ensures comes_back { (n largest_acked : ℕ) → self ≡ number_of n largest_acked → n < 2 ^ 62
            → IsInWindow (number_window self) expected n → result ≡ n }
    {
        nearest_of(self, expected)
    }
}

/// The number that `expand` gives.
fn nearest_of(number: PacketNumber, expected: u64) -> u64
    ensures { IsNearest (number_window number) (number_low number) expected result }
{
    match number {
        PacketNumber::U8(n) => nearest(0x100, n as u64, expected),
        PacketNumber::U16(n) => nearest(0x1_0000, n as u64, expected),
        PacketNumber::U24(n) => nearest(0x100_0000, n as u64 % 0x100_0000, expected),
        PacketNumber::U32(n) => nearest(0x1_0000_0000, n as u64, expected),
    }
}

/// The number below 2^62 nearest to `expected` whose remainder by `window` is `low`.
fn nearest(window: u64, low: u64, expected: u64) -> u64
    requires some { low < window }
    requires few { window ≤ 2 ^ 32 }
    requires whole { 2 ^ 62 % window ≡ 0 }
    ensures { IsNearest window low expected result }
{
    let expected = expected.min(GREATEST);
    let near = expected - expected % window + low;
    if near < expected {
        if 2 * (expected - near) >= window {
            if near + window <= GREATEST {
                return near + window;
            }
        }
        near
    } else {
        if 2 * (near - expected) > window {
            if near >= window {
                return near - window;
            }
        }
        near
    }
}
