//! The values of parameters (RFC 9000, section 18.2).

ghost use Rattle.std.specs.Prelude.{◌≡◌, ◌<◌, ◌≤◌, length, MatchResult, Some, None, IfOk};
ghost use Rattle.std.specs.Option.{option_copied, ok_or, option_map};
ghost use Rattle.std.specs.Net.Addr.{ipv4_octets, ipv6_segments};
ghost use Rattle.qc_base.specs.Reading.{Finds};
ghost use Rattle.qc_params.specs.ParametersReading.{number_value, id_value, token_value, flag_value, number_in, maybe_in, flag_in, id_in, token_in, address_in};
ghost use Rattle.qc_base.specs.Varint.{IsNumber};
ghost use Rattle.qc_params.specs.ParametersFit.{IsId, IsToken, AddressFits, Each};

use crate::address::preferred_address;
use crate::entries::value_under;
use crate::{ParamError, PreferredAddress};
use qc_base::{ConnectionId, ResetToken, VarInt, read_varint};

// A variable-length integer, in any of its forms.
#[tactic(auto, unfolding(crate::specs::ParametersReading::number_value))]
fn number(value: &[u8]) -> Result<VarInt, ParamError>
    ensures exact { result ≡ ok_or (number_value value.now) ParamError.Malformed }
    ensures fits { IfOk result IsNumber }
{
    let (n, rest) = read_varint(value)?;
    if !rest.is_empty() {
        return Err(ParamError::Malformed);
    }
    match VarInt::from_u64(n) {
        Ok(number) => Ok(number),
        Err(_) => unreachable!(),
    }
}

fn cid(value: &[u8]) -> Result<ConnectionId, ParamError>
    ensures exact { result ≡ ok_or (id_value value.now) ParamError.Malformed }
    ensures fits { IfOk result IsId }
{
    if value.len() > 20 {
        return Err(ParamError::Malformed);
    }
    Ok(ConnectionId::new(value))
}

fn token(value: &[u8]) -> Result<ResetToken, ParamError>
    ensures exact { result ≡ ok_or (token_value value.now) ParamError.Malformed }
    ensures fits { IfOk result IsToken }
{
    if value.len() != 16 {
        return Err(ParamError::Malformed);
    }
    Ok(ResetToken::new(value))
}

fn flag(value: &[u8]) -> Result<bool, ParamError>
    ensures { result ≡ ok_or (flag_value value.now) ParamError.Malformed }
{
    if !value.is_empty() {
        return Err(ParamError::Malformed);
    }
    Ok(true)
}

// A parameter that is a number, or what it is where it is absent.
#[tactic(auto, unfolding(crate::specs::ParametersReading::number_in))]
pub(crate) fn number_under(bytes: &[u8], id: u64, default: u32) -> Result<VarInt, ParamError>
    ensures exact { result ≡ ok_or (number_in id default bytes.now) ParamError.Malformed }
    ensures fits { IfOk result IsNumber }
{
    match value_under(bytes, id)? {
        Some(value) => number(value),
        None => Ok(VarInt::from_u32(default)),
    }
}

// A number that may be absent.
#[tactic(auto, unfolding(crate::specs::ParametersReading::maybe_in))]
pub(crate) fn maybe_under(bytes: &[u8], id: u64) -> Result<Option<VarInt>, ParamError>
    ensures exact { result ≡ ok_or (maybe_in id bytes.now) ParamError.Malformed }
    ensures fits { IfOk result (Each IsNumber) }
{
    match value_under(bytes, id)? {
        Some(value) => Ok(Some(number(value)?)),
        None => Ok(None),
    }
}

// Whether a flag is set.
#[tactic(auto, unfolding(crate::specs::ParametersReading::flag_in))]
pub(crate) fn flag_under(bytes: &[u8], id: u64) -> Result<bool, ParamError>
    ensures { result ≡ ok_or (flag_in id bytes.now) ParamError.Malformed }
{
    match value_under(bytes, id)? {
        Some(value) => flag(value),
        None => Ok(false),
    }
}

#[tactic(auto, unfolding(crate::specs::ParametersReading::id_in))]
pub(crate) fn id_under(bytes: &[u8], id: u64) -> Result<Option<ConnectionId>, ParamError>
    ensures exact { result ≡ ok_or (id_in id bytes.now) ParamError.Malformed }
    ensures fits { IfOk result (Each IsId) }
{
    match value_under(bytes, id)? {
        Some(value) => Ok(Some(cid(value)?)),
        None => Ok(None),
    }
}

#[tactic(auto, unfolding(crate::specs::ParametersReading::token_in))]
pub(crate) fn token_under(bytes: &[u8], id: u64) -> Result<Option<ResetToken>, ParamError>
    ensures exact { result ≡ ok_or (token_in id bytes.now) ParamError.Malformed }
    ensures fits { IfOk result (Each IsToken) }
{
    match value_under(bytes, id)? {
        Some(value) => Ok(Some(token(value)?)),
        None => Ok(None),
    }
}

#[tactic(auto, unfolding(crate::specs::ParametersReading::address_in))]
pub(crate) fn address_under(bytes: &[u8], id: u64) -> Result<Option<PreferredAddress>, ParamError>
    ensures exact { result ≡ ok_or (address_in id bytes.now) ParamError.Malformed }
    ensures fits { IfOk result (Each AddressFits) }
{
    match value_under(bytes, id)? {
        Some(value) => Ok(Some(preferred_address(value)?)),
        None => Ok(None),
    }
}
