//! A preferred address (RFC 9000, section 18.2, figure 22).

ghost use Rattle.std.specs.Prelude.{◌≡◌, ◌≤◌, length, MatchResult, Some, None, IfOk};
ghost use Rattle.std.specs.Option.{ok_or};
ghost use Rattle.qc_base.specs.Reading.{Finds};
ghost use Rattle.qc_params.specs.ParametersReading.{address_value, ipv4_of, ipv6_of, issued_of};
ghost use Rattle.std.specs.Net.Addr.{ipv4_octets, ipv6_segments};
ghost use Rattle.qc_params.specs.ParametersFit.{AddressFits};

use crate::octets::{four, sixteen};
use crate::{ParamError, PreferredAddress};
use qc_base::{ConnectionId, Cut, ResetToken, read_byte, read_bytes, read_u16};
use std::net::{Ipv4Addr, Ipv6Addr};

#[tactic(auto, unfolding(crate::specs::ParametersReading::ipv4_of))]
fn ipv4(value: &[u8]) -> Result<((Ipv4Addr, u16), &[u8]), Cut>
    ensures exact { Finds (λ x. (x.0, x.1.now)) result (ipv4_of value.now) }
    ensures fits { IfOk result (λ x. length (ipv4_octets x.0.0) ≡ 4) }
{
    let (octets, rest) = read_bytes(value, 4)?;
    let (port, rest) = read_u16(rest)?;
    Ok(((Ipv4Addr::from_octets(four(octets)), port), rest))
}

#[tactic(auto, unfolding(crate::specs::ParametersReading::ipv6_of))]
fn ipv6(value: &[u8]) -> Result<((Ipv6Addr, u16), &[u8]), Cut>
    ensures exact { Finds (λ x. (x.0, x.1.now)) result (ipv6_of value.now) }
    ensures fits { IfOk result (λ x. length (ipv6_segments x.0.0) ≡ 8) }
{
    let (octets, rest) = read_bytes(value, 16)?;
    let (port, rest) = read_u16(rest)?;
    Ok(((Ipv6Addr::from_octets(sixteen(octets)), port), rest))
}

// The id, and its token.
#[tactic(auto, unfolding(crate::specs::ParametersReading::issued_of))]
fn issued(value: &[u8]) -> Result<(&[u8], &[u8], &[u8]), Cut>
    ensures exact { Finds (λ x. ((x.0.now, x.1.now), x.2.now)) result (issued_of value.now) }
    ensures id { IfOk result (λ x. length x.0.now ≤ 20) }
    ensures token { IfOk result (λ x. length x.1.now ≡ 16) }
{
    let (len, rest) = read_byte(value)?;
    let (id, rest) = read_bytes(rest, len as u64)?;
    let (token, rest) = read_bytes(rest, 16)?;
    if len > 20 {
        return Err(Cut);
    }
    Ok((id, token, rest))
}

#[tactic(auto, unfolding(crate::specs::ParametersReading::address_value, crate::specs::ParametersReading::address_of))]
pub(crate) fn preferred_address(value: &[u8]) -> Result<PreferredAddress, ParamError>
    ensures exact { result ≡ ok_or (address_value value.now) ParamError.Malformed }
    ensures fits { IfOk result AddressFits }
{
    let ((ipv4, port_v4), rest) = ipv4(value)?;
    let ((ipv6, port_v6), rest) = ipv6(rest)?;
    let (id, token, rest) = issued(rest)?;
    if !rest.is_empty() {
        return Err(ParamError::Malformed);
    }
    Ok(PreferredAddress {
        ipv4,
        port_v4,
        ipv6,
        port_v6,
        id: ConnectionId::new(id),
        reset_token: ResetToken::new(token),
    })
}
