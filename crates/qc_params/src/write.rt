ghost use Rattle.std.specs.Prelude.{◌≡◌, ◌++◌, ◌<◌, ◌≤◌, ◌^◌, [], OnOk, OnErr, length, take};
ghost use Rattle.std.specs.Option.{option_map};
ghost use Rattle.std.specs.Net.Addr.{ipv4_octets, ipv6_segments};
ghost use Rattle.qc_base.specs.Varint.{IsNumber, varint};
ghost use Rattle.qc_params.specs.ParametersSpelling.{parameter, number_text, flag_text, row_text, rows_text, address_bytes, parameters_spelling};
ghost use Rattle.qc_params.specs.ParametersFit.{IsId, IsToken, AddressFits, Each, FirstFit, LimitsFit, MiddleFit, LastFit, ParametersFit, ReadsBack};

use crate::parameter_ids;
use crate::params::{PreferredAddress, TransportParameters};
use qc_base::{ConnectionId, ResetToken, VarInt, or_cut_back, put_varint, varint_size};
use std::alloc::AllocError;

// Appends the id and the length of a value, which the caller appends next.
fn put_head(buf: &mut Vec<u8>, id: u64, value_len: usize) -> Result<(), AllocError>
    ensures ok { OnOk result (buf.new.items ≡ buf.old.items ++ varint id ++ varint value_len) }
    ensures kept { take (length buf.old.items) buf.new.items ≡ buf.old.items }
{
    put_varint(buf, id)?;
    put_varint(buf, value_len as u64)
}

#[tactic(auto, unfolding(crate::specs::ParametersSpelling::parameter))]
fn put_bytes(buf: &mut Vec<u8>, id: u64, value: &[u8]) -> Result<(), AllocError>
    ensures ok { OnOk result (buf.new.items ≡ buf.old.items ++ parameter id value.now) }
    ensures kept { take (length buf.old.items) buf.new.items ≡ buf.old.items }
{
    put_head(buf, id, value.len())?;
    buf.extend_from_slice(value)
}

#[tactic(auto, unfolding(crate::specs::ParametersSpelling::parameter))]
fn put_varint_value(buf: &mut Vec<u8>, id: u64, n: u64) -> Result<(), AllocError>
    ensures ok { OnOk result (buf.new.items ≡ buf.old.items ++ parameter id (varint n)) }
    ensures kept { take (length buf.old.items) buf.new.items ≡ buf.old.items }
{
    put_head(buf, id, varint_size(n))?;
    put_varint(buf, n)
}

#[tactic(auto, unfolding(crate::specs::ParametersSpelling::number_text, crate::specs::ParametersSpelling::row_text))]
fn put_number(buf: &mut Vec<u8>, id: u64, default: u64, value: VarInt) -> Result<(), AllocError>
    ensures ok { OnOk result (buf.new.items ≡ buf.old.items ++ row_text id (number_text default value)) }
    ensures kept { take (length buf.old.items) buf.new.items ≡ buf.old.items }
    ensures fits { IsNumber value }
{
    let n = value.into_inner();
    if n == default {
        return Ok(());
    }
    put_varint_value(buf, id, n)
}

#[tactic(auto, unfolding(crate::specs::ParametersSpelling::row_text))]
fn put_maybe(buf: &mut Vec<u8>, id: u64, value: Option<VarInt>) -> Result<(), AllocError>
    ensures ok { OnOk result (buf.new.items ≡ buf.old.items ++ row_text id (option_map varint value)) }
    ensures kept { take (length buf.old.items) buf.new.items ≡ buf.old.items }
    ensures fits { Each IsNumber value }
{
    match value {
        Some(n) => put_varint_value(buf, id, n.into_inner()),
        None => Ok(()),
    }
}

#[tactic(auto, unfolding(crate::specs::ParametersSpelling::row_text))]
fn put_flag(buf: &mut Vec<u8>, id: u64, value: bool) -> Result<(), AllocError>
    ensures ok { OnOk result (buf.new.items ≡ buf.old.items ++ row_text id (flag_text value)) }
    ensures kept { take (length buf.old.items) buf.new.items ≡ buf.old.items }
{
    if value {
        return put_bytes(buf, id, &[]);
    }
    Ok(())
}

#[tactic(auto, unfolding(crate::specs::ParametersSpelling::row_text))]
fn put_id(buf: &mut Vec<u8>, id: u64, value: &Option<ConnectionId>) -> Result<(), AllocError>
    ensures ok { OnOk result (buf.new.items ≡ buf.old.items ++ row_text id value.now) }
    ensures kept { take (length buf.old.items) buf.new.items ≡ buf.old.items }
    ensures fits { Each IsId value.now }
{
    match value {
        Some(cid) => put_bytes(buf, id, cid.as_slice()),
        None => Ok(()),
    }
}

#[tactic(auto, unfolding(crate::specs::ParametersSpelling::row_text))]
fn put_token(buf: &mut Vec<u8>, id: u64, value: &Option<ResetToken>) -> Result<(), AllocError>
    ensures ok { OnOk result (buf.new.items ≡ buf.old.items ++ row_text id value.now) }
    ensures kept { take (length buf.old.items) buf.new.items ≡ buf.old.items }
    ensures fits { Each IsToken value.now }
{
    match value {
        Some(token) => put_bytes(buf, id, &**token),
        None => Ok(()),
    }
}

#[tactic(auto, unfolding(crate::specs::ParametersSpelling::address_bytes))]
fn put_address_bytes(buf: &mut Vec<u8>, address: &PreferredAddress) -> Result<(), AllocError>
    ensures ok { OnOk result (buf.new.items ≡ buf.old.items ++ address_bytes address.now) }
    ensures kept { take (length buf.old.items) buf.new.items ≡ buf.old.items }
    ensures port_v4 { OnOk result (address.now.port_v4 < 65536) }
    ensures port_v6 { OnOk result (address.now.port_v6 < 65536) }
{
    buf.extend_from_slice(&address.ipv4.octets())?;
    buf.extend_from_slice(&address.port_v4.to_be_bytes())?;
    buf.extend_from_slice(&address.ipv6.octets())?;
    buf.extend_from_slice(&address.port_v6.to_be_bytes())?;
    let id = address.id.as_slice();
    buf.extend_from_slice(&[id.len() as u8])?;
    buf.extend_from_slice(id)?;
    buf.extend_from_slice(&*address.reset_token)
}

#[tactic(auto, using(crate::proofs::AddressLength::address_length, crate::proofs::ValueLaws::length_octets))]
fn address_len(address: &PreferredAddress) -> usize
    ensures value { result ≡ length (address_bytes address.now) }
    ensures ipv4 { length (ipv4_octets address.now.ipv4) ≡ 4 }
    ensures ipv6 { length (ipv6_segments address.now.ipv6) ≡ 8 }
    ensures id { IsId address.now.id }
    ensures reset_token { IsToken address.now.reset_token }
{
    let ipv4: &[u8] = &address.ipv4.octets();
    let ipv6: &[u8] = &address.ipv6.octets();
    let token: &[u8] = &*address.reset_token;
    ipv4.len() + ipv6.len() + address.id.len() + token.len() + 5
}

#[tactic(auto, unfolding(crate::specs::ParametersSpelling::row_text, crate::specs::ParametersSpelling::parameter))]
fn put_address(
    buf: &mut Vec<u8>,
    id: u64,
    value: &Option<PreferredAddress>,
) -> Result<(), AllocError>
    ensures ok { OnOk result (buf.new.items ≡ buf.old.items ++ row_text id (option_map address_bytes value.now)) }
    ensures kept { take (length buf.old.items) buf.new.items ≡ buf.old.items }
    ensures fits { OnOk result (Each AddressFits value.now) }
{
    match value {
        Some(address) => {
            put_head(buf, id, address_len(address))?;
            put_address_bytes(buf, address)
        },
        None => Ok(()),
    }
}

impl TransportParameters {
    ghost use Rattle.qc_params.specs.ParametersSpelling.{first_rows, limit_rows, middle_rows, last_rows};

    /// Appends the parameters: those that differ from their defaults, by ascending ids, each as its
    /// id, the length of its value and the value (RFC 9000, section 18). A side that may be sent the
    /// parameters reads them back.
    ///
    /// # Errors
    ///
    /// `AllocError` for want of memory; `buf` is then as it was.
    pub fn write(&self, buf: &mut Vec<u8>) -> Result<(), AllocError>
        ensures ok { OnOk result (buf.new.items ≡ buf.old.items ++ parameters_spelling self.now) }
        ensures err { OnErr result (buf.new.items ≡ buf.old.items) }
        ensures fits { OnOk result (ParametersFit self.now) }
        ensures reads_back { OnOk result (ReadsBack self.now) }
    {
        let start = buf.len();
        or_cut_back(self.put_rows(buf), buf, start)
    }

    #[tactic(auto, unfolding(crate::specs::ParametersSpelling::parameters_spelling))]
    fn put_rows(&self, buf: &mut Vec<u8>) -> Result<(), AllocError>
        ensures ok { OnOk result (buf.new.items ≡ buf.old.items ++ parameters_spelling self.now) }
        ensures kept { take (length buf.old.items) buf.new.items ≡ buf.old.items }
        ensures fits { OnOk result (ParametersFit self.now) }
    {
        self.put_first_rows(buf)?;
        self.put_limit_rows(buf)?;
        self.put_middle_rows(buf)?;
        self.put_last_rows(buf)
    }

    // 0x00 to 0x03
    fn put_first_rows(&self, buf: &mut Vec<u8>) -> Result<(), AllocError>
        ensures ok { OnOk result (buf.new.items ≡ buf.old.items ++ rows_text (first_rows self.now)) }
        ensures kept { take (length buf.old.items) buf.new.items ≡ buf.old.items }
        ensures fits { OnOk result (FirstFit self.now) }
    {
        put_id(buf, parameter_ids::ORIGINAL_DST_CID, &self.original_dst_cid)?;
        put_number(
            buf,
            parameter_ids::MAX_IDLE_TIMEOUT,
            0,
            self.max_idle_timeout,
        )?;
        put_token(
            buf,
            parameter_ids::STATELESS_RESET_TOKEN,
            &self.stateless_reset_token,
        )?;
        put_number(
            buf,
            parameter_ids::MAX_UDP_PAYLOAD_SIZE,
            65527,
            self.max_udp_payload_size,
        )
    }

    // 0x04 to 0x09
    fn put_limit_rows(&self, buf: &mut Vec<u8>) -> Result<(), AllocError>
        ensures ok { OnOk result (buf.new.items ≡ buf.old.items ++ rows_text (limit_rows self.now)) }
        ensures kept { take (length buf.old.items) buf.new.items ≡ buf.old.items }
        ensures fits { OnOk result (LimitsFit self.now) }
    {
        put_number(
            buf,
            parameter_ids::INITIAL_MAX_DATA,
            0,
            self.initial_max_data,
        )?;
        put_number(
            buf,
            parameter_ids::INITIAL_MAX_STREAM_DATA_BIDI_LOCAL,
            0,
            self.initial_max_stream_data_bidi_local,
        )?;
        put_number(
            buf,
            parameter_ids::INITIAL_MAX_STREAM_DATA_BIDI_REMOTE,
            0,
            self.initial_max_stream_data_bidi_remote,
        )?;
        put_number(
            buf,
            parameter_ids::INITIAL_MAX_STREAM_DATA_UNI,
            0,
            self.initial_max_stream_data_uni,
        )?;
        put_number(
            buf,
            parameter_ids::INITIAL_MAX_STREAMS_BIDI,
            0,
            self.initial_max_streams_bidi,
        )?;
        put_number(
            buf,
            parameter_ids::INITIAL_MAX_STREAMS_UNI,
            0,
            self.initial_max_streams_uni,
        )
    }

    // 0x0a to 0x0e
    fn put_middle_rows(&self, buf: &mut Vec<u8>) -> Result<(), AllocError>
        ensures ok { OnOk result (buf.new.items ≡ buf.old.items ++ rows_text (middle_rows self.now)) }
        ensures kept { take (length buf.old.items) buf.new.items ≡ buf.old.items }
        ensures fits { OnOk result (MiddleFit self.now) }
    {
        put_number(
            buf,
            parameter_ids::ACK_DELAY_EXPONENT,
            3,
            self.ack_delay_exponent,
        )?;
        put_number(buf, parameter_ids::MAX_ACK_DELAY, 25, self.max_ack_delay)?;
        put_flag(
            buf,
            parameter_ids::DISABLE_ACTIVE_MIGRATION,
            self.disable_active_migration,
        )?;
        put_address(
            buf,
            parameter_ids::PREFERRED_ADDRESS,
            &self.preferred_address,
        )?;
        put_number(
            buf,
            parameter_ids::ACTIVE_CONNECTION_ID_LIMIT,
            2,
            self.active_connection_id_limit,
        )
    }

    // 0x0f to 0x2ab2
    fn put_last_rows(&self, buf: &mut Vec<u8>) -> Result<(), AllocError>
        ensures ok { OnOk result (buf.new.items ≡ buf.old.items ++ rows_text (last_rows self.now)) }
        ensures kept { take (length buf.old.items) buf.new.items ≡ buf.old.items }
        ensures fits { OnOk result (LastFit self.now) }
    {
        put_id(buf, parameter_ids::INITIAL_SRC_CID, &self.initial_src_cid)?;
        put_id(buf, parameter_ids::RETRY_SRC_CID, &self.retry_src_cid)?;
        put_maybe(
            buf,
            parameter_ids::MAX_DATAGRAM_FRAME_SIZE,
            self.max_datagram_frame_size,
        )?;
        put_flag(buf, parameter_ids::GREASE_QUIC_BIT, self.grease_quic_bit)
    }
}
