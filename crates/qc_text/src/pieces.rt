//! Pieces of lines: numbers, bytes and addresses.

ghost use Rattle.std.specs.Prelude.{◌≡◌, ◌++◌, codes, decimal, OnOk};
ghost use Rattle.qc_base.specs.Grammar.{IsBytes};
ghost use Rattle.qc_text.specs.OneText.{IsAddressInRange, IsIpInRange, IsOptionInRange};
ghost use Rattle.qc_text.specs.TraceText.{address_text, bytes_or_dash, ip_text, number_or_dash};

use crate::digits::put_hex;
use itoa::Buffer;
use std::alloc::AllocError;
use std::net::{IpAddr, SocketAddr};

/// Appends a number's decimal. Want of memory is the only refusal.
pub fn put_number(out: &mut Vec<u8>, number: u64) -> Result<(), AllocError>
    ensures { OnOk result (out.new.items ≡ out.old.items ++ decimal number) }
{
    let mut buffer = Buffer::new();
    out.extend_from_slice(buffer.format(number).as_bytes())
}

/// Appends the line of a number, after these words.
pub fn put_line(out: &mut Vec<u8>, words: &[u8], number: u64) -> Result<(), AllocError>
    ensures { OnOk result (out.new.items ≡ out.old.items ++ (words.now ++ decimal number ++ codes "\n")) }
{
    out.extend_from_slice(words)?;
    put_number(out, number)?;
    out.extend_from_slice(b"\n")
}

/// Appends a number's decimal, or `-` where there is none.
#[tactic(auto, unfolding(crate::specs::TraceText::number_or_dash))]
pub fn put_optional(out: &mut Vec<u8>, number: Option<u64>) -> Result<(), AllocError>
    ensures text { OnOk result (out.new.items ≡ out.old.items ++ number_or_dash number) }
    ensures in_range { IsOptionInRange number }
{
    match number {
        Some(number) => put_number(out, number),
        None => out.extend_from_slice(b"-"),
    }
}

/// Appends bytes in lower-case hex, or `-` where there are none.
#[tactic(auto, unfolding(crate::specs::TraceText::bytes_or_dash))]
pub fn put_bytes(out: &mut Vec<u8>, bytes: &[u8]) -> Result<(), AllocError>
    ensures text { OnOk result (out.new.items ≡ out.old.items ++ bytes_or_dash bytes.now) }
    ensures in_range { OnOk result (IsBytes bytes.now) }
{
    if bytes.is_empty() {
        return out.extend_from_slice(b"-");
    }
    put_hex(out, bytes)
}

/// Appends the hex of an IP address, `/` and the port.
#[tactic(auto, unfolding(crate::specs::TraceText::address_text))]
pub fn put_address(out: &mut Vec<u8>, address: SocketAddr) -> Result<(), AllocError>
    ensures text { OnOk result (out.new.items ≡ out.old.items ++ address_text address) }
    ensures in_range { OnOk result (IsAddressInRange address) }
{
    put_ip(out, address.ip())?;
    out.extend_from_slice(b"/")?;
    put_number(out, u64::from(address.port()))
}

#[tactic(auto, unfolding(crate::specs::TraceText::ip_text))]
fn put_ip(out: &mut Vec<u8>, ip: IpAddr) -> Result<(), AllocError>
    ensures text { OnOk result (out.new.items ≡ out.old.items ++ ip_text ip) }
    ensures in_range { OnOk result (IsIpInRange ip) }
{
    match ip {
        IpAddr::V4(ip) => put_hex(out, &ip.octets()),
        IpAddr::V6(ip) => put_hex(out, &ip.octets()),
    }
}
