ghost use Rattle.std.specs.Prelude.{◌≡◌, Some, IfOk};
ghost use Rattle.std.specs.Option.{ok_or};
ghost use Rattle.qc_params.specs.ParametersReading.{first_parameters_of, limits_of, middle_of, parameters_of, may_come_to, client_may_send, is_address_allowed, is_legal, judged, parameters_read, IsReading};
ghost use Rattle.qc_params.specs.ParametersFit.{FirstFit, LimitsFit, MiddleFit, LastFit, ParametersFit};
ghost use Rattle.qc_params.specs.declared.params.TransportParameters.{TransportParameters};
ghost use Rattle.qc_params.specs.ParametersGrammar.{Parameters};

use crate::values::{address_under, flag_under, id_under, maybe_under, number_under, token_under};
use crate::{ParamError, PreferredAddress, TransportParameters, parameter_ids};
use qc_base::Side;
use std::default::Default;

// No end may open more streams of one kind (RFC 9000, section 4.6).
const MOST_STREAMS: u64 = 1 << 60;

// 0x00 to 0x03
#[tactic(auto, unfolding(crate::specs::ParametersReading::first_parameters_of))]
fn read_first(bytes: &[u8]) -> Result<TransportParameters, ParamError>
    ensures exact { result ≡ ok_or (first_parameters_of bytes.now) ParamError.Malformed }
    ensures first { IfOk result FirstFit }
{
    Ok(TransportParameters {
        original_dst_cid: id_under(bytes, parameter_ids::ORIGINAL_DST_CID)?,
        max_idle_timeout: number_under(bytes, parameter_ids::MAX_IDLE_TIMEOUT, 0)?,
        stateless_reset_token: token_under(bytes, parameter_ids::STATELESS_RESET_TOKEN)?,
        max_udp_payload_size: number_under(bytes, parameter_ids::MAX_UDP_PAYLOAD_SIZE, 65527)?,
        ..TransportParameters::default()
    })
}

// up to 0x09
#[tactic(auto, unfolding(crate::specs::ParametersReading::limits_of))]
fn read_limits(bytes: &[u8]) -> Result<TransportParameters, ParamError>
    ensures exact { result ≡ ok_or (limits_of bytes.now) ParamError.Malformed }
    ensures first { IfOk result FirstFit }
    ensures limits { IfOk result LimitsFit }
{
    let p = read_first(bytes)?;
    Ok(TransportParameters {
        initial_max_data: number_under(bytes, parameter_ids::INITIAL_MAX_DATA, 0)?,
        initial_max_stream_data_bidi_local: number_under(
            bytes,
            parameter_ids::INITIAL_MAX_STREAM_DATA_BIDI_LOCAL,
            0,
        )?,
        initial_max_stream_data_bidi_remote: number_under(
            bytes,
            parameter_ids::INITIAL_MAX_STREAM_DATA_BIDI_REMOTE,
            0,
        )?,
        initial_max_stream_data_uni: number_under(
            bytes,
            parameter_ids::INITIAL_MAX_STREAM_DATA_UNI,
            0,
        )?,
        initial_max_streams_bidi: number_under(bytes, parameter_ids::INITIAL_MAX_STREAMS_BIDI, 0)?,
        initial_max_streams_uni: number_under(bytes, parameter_ids::INITIAL_MAX_STREAMS_UNI, 0)?,
        ..p
    })
}

// up to 0x0e
#[tactic(auto, unfolding(crate::specs::ParametersReading::middle_of))]
fn read_middle(bytes: &[u8]) -> Result<TransportParameters, ParamError>
    ensures exact { result ≡ ok_or (middle_of bytes.now) ParamError.Malformed }
    ensures first { IfOk result FirstFit }
    ensures limits { IfOk result LimitsFit }
    ensures middle { IfOk result MiddleFit }
{
    let p = read_limits(bytes)?;
    Ok(TransportParameters {
        ack_delay_exponent: number_under(bytes, parameter_ids::ACK_DELAY_EXPONENT, 3)?,
        max_ack_delay: number_under(bytes, parameter_ids::MAX_ACK_DELAY, 25)?,
        disable_active_migration: flag_under(bytes, parameter_ids::DISABLE_ACTIVE_MIGRATION)?,
        preferred_address: address_under(bytes, parameter_ids::PREFERRED_ADDRESS)?,
        active_connection_id_limit: number_under(
            bytes,
            parameter_ids::ACTIVE_CONNECTION_ID_LIMIT,
            2,
        )?,
        ..p
    })
}

// all
#[tactic(auto, unfolding(crate::specs::ParametersReading::parameters_of))]
fn read_all(bytes: &[u8]) -> Result<TransportParameters, ParamError>
    ensures exact { result ≡ ok_or (parameters_of bytes.now) ParamError.Malformed }
    ensures first { IfOk result FirstFit }
    ensures limits { IfOk result LimitsFit }
    ensures middle { IfOk result MiddleFit }
    ensures last { IfOk result LastFit }
{
    let p = read_middle(bytes)?;
    Ok(TransportParameters {
        initial_src_cid: id_under(bytes, parameter_ids::INITIAL_SRC_CID)?,
        retry_src_cid: id_under(bytes, parameter_ids::RETRY_SRC_CID)?,
        max_datagram_frame_size: maybe_under(bytes, parameter_ids::MAX_DATAGRAM_FRAME_SIZE)?,
        grease_quic_bit: flag_under(bytes, parameter_ids::GREASE_QUIC_BIT)?,
        ..p
    })
}

#[tactic(auto, unfolding(crate::specs::ParametersReading::is_legal))]
fn is_legal(side: Side, p: &TransportParameters) -> bool
    ensures { result ≡ is_legal side p.now }
{
    may_come_to(side, p)
        && p.max_udp_payload_size.into_inner() >= 1200
        && p.initial_max_streams_bidi.into_inner() <= MOST_STREAMS
        && p.initial_max_streams_uni.into_inner() <= MOST_STREAMS
        && p.ack_delay_exponent.into_inner() <= 20
        && p.max_ack_delay.into_inner() < 1 << 14
        && is_address_allowed(&p.preferred_address)
        && p.active_connection_id_limit.into_inner() >= 2
}

fn may_come_to(side: Side, p: &TransportParameters) -> bool
    ensures { result ≡ may_come_to side p.now }
{
    match side {
        Side::Client => true,
        Side::Server => client_may_send(p),
    }
}

fn client_may_send(p: &TransportParameters) -> bool
    ensures { result ≡ client_may_send p.now }
{
    !(p.original_dst_cid.is_some()
        || p.stateless_reset_token.is_some()
        || p.preferred_address.is_some()
        || p.retry_src_cid.is_some())
}

fn is_address_allowed(address: &Option<PreferredAddress>) -> bool
    ensures { result ≡ is_address_allowed address.now }
{
    match address {
        Some(address) => !address.id.is_empty(),
        None => true,
    }
}

#[tactic(auto, unfolding(crate::specs::ParametersReading::parameters_read))]
fn read_parameters(side: Side, bytes: &[u8]) -> Result<TransportParameters, ParamError>
    ensures exact { result ≡ parameters_read side bytes.now }
    ensures fits { IfOk result ParametersFit }
{
    let p = read_all(bytes)?;
    if !is_legal(side, &p) {
        return Err(ParamError::IllegalValue);
    }
    Ok(p)
}

impl TransportParameters {
    /// Reads the parameters that the other end sent; `side` is the reader's (RFC 9000, section 18).
    /// Unknown ids are skipped, and an absent parameter has its default. It takes no memory. What is
    /// read is what the grammar has, in any form of its numbers, and nothing that the grammar has is
    /// read as anything else.
    ///
    /// # Errors
    ///
    /// [`ParamError::Malformed`] exactly where the bytes are no parameters: an id, a length or a
    /// value is cut short, a length doesn't fit its value, or a known id stands there twice.
    /// Else [`ParamError::IllegalValue`] exactly where a value is not allowed: a payload size below
    /// 1200, more than 2^60 streams, an exponent above 20, a delay of 2^14 ms or more, fewer than
    /// two connection ids, an empty id at a preferred address, or from a client one of the four
    /// parameters that a server alone sends (RFC 9000, section 18.2).
    #[tactic(auto, using(crate::proofs::ReadingLaws::read_only))]
    pub fn read(side: Side, bytes: &[u8]) -> Result<TransportParameters, ParamError>
        ensures exact { result ≡ parameters_read side bytes.now }
        ensures fits { IfOk result ParametersFit }
        ensures reading { IsReading side bytes.now result }
        ensures only { (p : TransportParameters) → Parameters p bytes.now → result ≡ judged side (Some p) }
    {
        read_parameters(side, bytes)
    }
}
