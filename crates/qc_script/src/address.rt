//! Where a datagram came from, and its mark.

ghost use Rattle.qc_script.specs.Fields.{IsAddress, IsIpInRange, address_text, ecn_text, ip_octets, ip_text};
ghost use Rattle.std.specs.Prelude.{◌≡◌, ◌≢◌, [], ◌∷◌, Option, length, IfOk, MatchOption};

use crate::fields::{read_hex, read_port, split_at_byte};
use qc_base::EcnCodepoint;
use std::alloc::{AllocError, Global};
use std::net::{IpAddr, Ipv4Addr, Ipv6Addr, SocketAddr};

fn four(bytes: &[u8]) -> [u8; 4]
    requires { length bytes.now ≡ 4 }
    ensures { result ≡ bytes.now }
{
    let mut octets = [0; 4];
    octets.copy_from_slice(bytes);
    octets
}

fn sixteen(bytes: &[u8]) -> [u8; 16]
    requires { length bytes.now ≡ 16 }
    ensures { result ≡ bytes.now }
{
    let mut octets = [0; 16];
    octets.copy_from_slice(bytes);
    octets
}

/// The IP address of these octets, where they are 4 or 16.
fn ip_of(octets: &[u8]) -> Option<IpAddr>
    ensures { MatchOption result ((ip : IpAddr) → IsIpInRange ip → octets.now ≢ ip_octets ip) (λ ip. (octets.now ≡ ip_octets ip) × IsIpInRange ip) }
{
    match octets.len() {
        4 => Some(IpAddr::V4(Ipv4Addr::from_octets(four(octets)))),
        16 => Some(IpAddr::V6(Ipv6Addr::from_octets(sixteen(octets)))),
        _ => None,
    }
}

/// The IP address whose octets these digits are.
fn read_ip(alloc: Global, digits: &[u8]) -> Result<Option<IpAddr>, AllocError>
    ensures { IfOk result (λ r. MatchOption r ((ip : IpAddr) → IsIpInRange ip → digits.now ≢ ip_text ip) (λ ip. (digits.now ≡ ip_text ip) × IsIpInRange ip)) }
{
    match read_hex(alloc, digits)? {
        Some(octets) => Ok(ip_of(octets.as_slice())),
        None => Ok(None),
    }
}

/// The address that a field spells.
pub fn read_address(alloc: Global, field: &[u8]) -> Result<Option<SocketAddr>, AllocError>
    ensures { IfOk result (λ r. MatchOption r ((address : SocketAddr) → IsAddress address → field.now ≢ address_text address) (λ address. (field.now ≡ address_text address) × IsAddress address)) }
{
    let Some((digits, port)) = split_at_byte(field, b'/') else {
        return Ok(None);
    };
    let Some(port) = read_port(port) else {
        return Ok(None);
    };
    match read_ip(alloc, digits)? {
        Some(ip) => Ok(Some(SocketAddr::new(ip, port))),
        None => Ok(None),
    }
}

/// The mark that this digit is, or that there is none.
fn mark_of(digit: u8) -> Option<Option<EcnCodepoint>>
    ensures { MatchOption result ((mark : Option EcnCodepoint) → digit ∷ [] ≢ ecn_text mark) (λ mark. digit ∷ [] ≡ ecn_text mark) }
{
    match digit {
        b'-' => Some(None),
        b'1' => Some(Some(EcnCodepoint::Ect1)),
        b'2' => Some(Some(EcnCodepoint::Ect0)),
        b'3' => Some(Some(EcnCodepoint::Ce)),
        _ => None,
    }
}

/// The mark that a field spells, or that there is none.
pub fn read_mark(field: &[u8]) -> Option<Option<EcnCodepoint>>
    ensures { MatchOption result ((mark : Option EcnCodepoint) → field.now ≢ ecn_text mark) (λ mark. field.now ≡ ecn_text mark) }
{
    if field.len() == 1 {
        mark_of(field[0])
    } else {
        None
    }
}
