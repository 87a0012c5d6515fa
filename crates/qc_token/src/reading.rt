//! Plain bytes read as a token.

ghost use Rattle.std.specs.Prelude.{◌≡◌, ◌≤◌, ◌<◌, length, IfOk, IfSome, Ok};
ghost use Rattle.std.specs.Int.{w16};
ghost use Rattle.qc_base.specs.Reading.{Finds, Gives, word_of};
ghost use Rattle.qc_token.specs.TokenGrammar.{IsPayloadText, socket_of};
ghost use Rattle.qc_token.specs.TokenReading.{ip_at, payload_at, payload_of, retry_at, time_at, validation_at};

use crate::TokenPayload;
use qc_base::{ConnectionId, Cut, SystemTime, read_byte, read_bytes, read_u64};
use std::net::{IpAddr, Ipv4Addr, Ipv6Addr, SocketAddr, SocketAddrV4, SocketAddrV6};

fn four(bytes: &[u8]) -> [u8; 4]
    requires { length bytes.now ≡ 4 }
    ensures { result ≡ bytes.now }
{
    let mut octets = [0; 4];
    octets.copy_from_slice(bytes);
    octets
}

pub(crate) fn sixteen(bytes: &[u8]) -> [u8; 16]
    requires { length bytes.now ≡ 16 }
    ensures { result ≡ bytes.now }
{
    let mut octets = [0; 16];
    octets.copy_from_slice(bytes);
    octets
}

#[tactic(auto, unfolding(qc_base::specs::Reading::word_of))]
fn read_port(bytes: &[u8]) -> Result<(u16, &[u8]), Cut>
    ensures { Finds (λ x. (x.0, x.1.now)) result (word_of w16 bytes.now) }
{
    if bytes.len() < 2 {
        return Err(Cut);
    }
    let (front, rest) = bytes.split_at(2);
    Ok((u16::from_be_bytes([front[0], front[1]]), rest))
}

#[tactic(auto, unfolding(crate::specs::TokenReading::ip_at))]
fn read_ip(bytes: &[u8]) -> Result<(IpAddr, &[u8]), Cut>
    ensures { Gives (λ x. (x.0, x.1.now)) result (ip_at bytes.now) }
{
    let (kind, rest) = read_byte(bytes)?;
    match kind {
        0 => {
            let (octets, rest) = read_bytes(rest, 4)?;
            Ok((IpAddr::V4(Ipv4Addr::from_octets(four(octets))), rest))
        }
        1 => {
            let (octets, rest) = read_bytes(rest, 16)?;
            Ok((IpAddr::V6(Ipv6Addr::from_octets(sixteen(octets))), rest))
        }
        _ => Err(Cut),
    }
}

// A time in nanoseconds.
#[tactic(auto, unfolding(crate::specs::TokenReading::time_at))]
fn read_time(bytes: &[u8]) -> Result<(u64, &[u8]), Cut>
    ensures { Gives (λ x. (x.0, x.1.now)) result (time_at bytes.now) }
{
    let (seconds, rest) = read_u64(bytes)?;
    match seconds.checked_mul(1_000_000_000) {
        Some(nanos) => Ok((nanos, rest)),
        None => Err(Cut),
    }
}

fn socket(ip: IpAddr, port: u16) -> SocketAddr
    ensures { result ≡ socket_of ip port }
{
    match ip {
        IpAddr::V4(ip) => SocketAddr::V4(SocketAddrV4::new(ip, port)),
        IpAddr::V6(ip) => SocketAddr::V6(SocketAddrV6::new(ip, port, 0, 0)),
    }
}

#[tactic(auto, unfolding(crate::specs::TokenReading::retry_at))]
fn read_retry(bytes: &[u8]) -> Result<(TokenPayload, &[u8]), Cut>
    ensures { Gives (λ x. (x.0, x.1.now)) result (retry_at bytes.now) }
{
    let (ip, rest) = read_ip(bytes)?;
    let (port, rest) = read_port(rest)?;
    let (len, rest) = read_byte(rest)?;
    if len > 20 {
        return Err(Cut);
    }
    let (id, rest) = read_bytes(rest, len as u64)?;
    let (nanos, rest) = read_time(rest)?;
    let payload = TokenPayload::Retry {
        address: socket(ip, port),
        orig_dst_cid: ConnectionId::new(id),
        issued: SystemTime::from_nanos(nanos),
    };
    Ok((payload, rest))
}

#[tactic(auto, unfolding(crate::specs::TokenReading::validation_at))]
fn read_validation(bytes: &[u8]) -> Result<(TokenPayload, &[u8]), Cut>
    ensures { Gives (λ x. (x.0, x.1.now)) result (validation_at bytes.now) }
{
    let (ip, rest) = read_ip(bytes)?;
    let (nanos, rest) = read_time(rest)?;
    let payload = TokenPayload::Validation {
        ip,
        issued: SystemTime::from_nanos(nanos),
    };
    Ok((payload, rest))
}

#[tactic(auto, unfolding(crate::specs::TokenReading::payload_at))]
fn read_front(bytes: &[u8]) -> Result<(TokenPayload, &[u8]), Cut>
    ensures { Gives (λ x. (x.0, x.1.now)) result (payload_at bytes.now) }
{
    let (kind, rest) = read_byte(bytes)?;
    match kind {
        0 => read_retry(rest),
        1 => read_validation(rest),
        _ => Err(Cut),
    }
}

#[tactic(auto, unfolding(crate::specs::TokenReading::payload_of))]
fn read_all(bytes: &[u8]) -> Option<TokenPayload>
    ensures { result ≡ payload_of bytes.now }
{
    match read_front(bytes) {
        Ok((payload, rest)) => {
            if rest.is_empty() {
                return Some(payload);
            }
            None
        }
        Err(_) => None,
    }
}

// The token that all of the bytes are.
pub(crate) fn read_payload(bytes: &[u8]) -> Option<TokenPayload>
    ensures exact { result ≡ payload_of bytes.now }
    ensures found { IfSome result (λ p. IsPayloadText p bytes.now) }
{
    read_all(bytes)
}
