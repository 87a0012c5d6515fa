//! Variable-length integers (RFC 9000, section 16).

ghost use Rattle.std.specs.Prelude.{◌≡◌, ◌++◌, ◌<◌, ◌≤◌, ◌^◌, ◌↔◌, length, OnOk, OnErr, IfOk, is_err, nat_le};
ghost use Rattle.qc_base.specs.Varint.{varint};

use std::alloc::AllocError;
use std::marker::Model;

/// A number below 2^62, as the wire's variable-length integers hold it.
#[derive(Clone, Copy, Debug, PartialEq, Eq, PartialOrd, Ord, Hash)]
pub struct VarInt(u64);

impl Model for VarInt {
    ghost use Rattle.std.specs.Prelude.{ℕ, ◌<◌, ◌^◌};

    ghost Value = { ℕ };

    ghost view = { λ v. v.0 };

    ghost invariant = { λ v. v.0 < 2 ^ 62 };

    ghost inverse = { λ n. record { 0 = n } };
}

/// The number is 2^62 or more, and so has no variable-length form.
#[derive(Clone, Copy, Debug, PartialEq, Eq)]
pub struct VarIntBoundsExceeded;

impl VarInt {
    /// The largest number that a variable-length integer holds, 2^62 - 1.
    pub const MAX: VarInt = VarInt(0x3fff_ffff_ffff_ffff);

    /// Any 32-bit number fits.
    pub fn from_u32(n: u32) -> VarInt
        ensures { result ≡ n }
    {
        VarInt(n as u64)
    }

    /// Refused exactly from 2^62 on.
    pub fn from_u64(n: u64) -> Result<VarInt, VarIntBoundsExceeded>
        ensures ok { IfOk result (λ v. v ≡ n) }
        ensures refused { is_err result ≡ nat_le (2 ^ 62) n }
    {
        if n < 0x4000_0000_0000_0000 {
            Ok(VarInt(n))
        } else {
            Err(VarIntBoundsExceeded)
        }
    }

    /// The number.
    pub fn into_inner(self) -> u64
        ensures value { result ≡ self }
        ensures range { result < 2 ^ 62 }
    {
        self.0
    }

    /// How many bytes its shortest form has: 1, 2, 4 or 8.
    pub fn size(self) -> usize
        ensures { result ≡ length (varint self) }
    {
        varint_size(self.0)
    }
}

/// How many bytes the shortest form of `n` has: 1, 2, 4 or 8.
#[tactic(auto, unfolding(crate::specs::Varint::varint))]
pub fn varint_size(n: u64) -> usize
    ensures size { result ≡ length (varint n) }
    ensures least { 1 ≤ result }
    ensures most { result ≤ 8 }
{
    if n < 0x40 {
        1
    } else if n < 0x4000 {
        2
    } else if n < 0x4000_0000 {
        4
    } else {
        8
    }
}

/// Appends `n` in its shortest form, `n` being below 2^62. (Of a greater number the lowest 62 bits
/// are written, in eight bytes.) After want of memory `out` is as before.
#[inline(always)]
#[tactic(auto, unfolding(crate::specs::Varint::varint))]
pub fn put_varint(out: &mut Vec<u8>, n: u64) -> Result<(), AllocError>
    ensures ok { OnOk result (out.new.items ≡ out.old.items ++ varint n) }
    ensures err { OnErr result (out.new.items ≡ out.old.items) }
{
    if n < 0x40 {
        out.extend_from_slice(&(n as u8).to_be_bytes())
    } else if n < 0x4000 {
        out.extend_from_slice(&(0x4000 + n as u16).to_be_bytes())
    } else if n < 0x4000_0000 {
        out.extend_from_slice(&(0x8000_0000 + n as u32).to_be_bytes())
    } else {
        out.extend_from_slice(&(0xc000_0000_0000_0000 + n % 0x4000_0000_0000_0000).to_be_bytes())
    }
}
