ghost use Rattle.std.specs.Prelude.{◌≡◌, ◌↔◌, min, IsOk, IfErr, IsTrue, None};
ghost use Rattle.qc_params.specs.Resumption.{IsNoLower, KeepsLimits};

use crate::TransportParameters;
use qc_base::{TransportError, TransportErrorCode, VarInt};

impl TransportParameters {
    /// Whether a server that resumes a session keeps to what it announced when the session was made:
    /// early data was sent by these parameters, which are `cached` (RFC 9000, section 7.4.1; RFC 9221,
    /// section 3; RFC 9287, section 3.1).
    ///
    /// # Errors
    ///
    /// PROTOCOL_VIOLATION exactly where a limit fell: on data, on streams, on connection ids or on
    /// DATAGRAM frames, or where the QUIC bit is no longer free.
    pub fn validate_resumption_from(
        &self,
        cached: &TransportParameters,
    ) -> Result<(), TransportError>
        ensures kept { IsOk result ↔ KeepsLimits cached.now self.now }
        ensures violation { IfErr result (λ e. e ≡ record { code = 10; frame = None }) }
    {
        if keeps_limits(self, cached) {
            return Ok(());
        }
        Err(TransportError {
            code: TransportErrorCode::PROTOCOL_VIOLATION,
            frame: None,
        })
    }

    /// How many connection ids this end issues to the sender of the parameters: as many as it takes,
    /// and 8 at most (RFC 9000, section 5.1.1).
    pub fn issue_cids_limit(&self) -> u64
        ensures { result ≡ min self.now.active_connection_id_limit 8 }
    {
        self.active_connection_id_limit.into_inner().min(8)
    }
}

fn keeps_limits(current: &TransportParameters, cached: &TransportParameters) -> bool
    ensures { IsTrue result ↔ KeepsLimits cached.now current.now }
{
    cached.initial_max_data <= current.initial_max_data
        && cached.initial_max_stream_data_bidi_local <= current.initial_max_stream_data_bidi_local
        && cached.initial_max_stream_data_bidi_remote <= current.initial_max_stream_data_bidi_remote
        && cached.initial_max_stream_data_uni <= current.initial_max_stream_data_uni
        && cached.initial_max_streams_bidi <= current.initial_max_streams_bidi
        && cached.initial_max_streams_uni <= current.initial_max_streams_uni
        && cached.active_connection_id_limit <= current.active_connection_id_limit
        && is_no_lower(
            cached.max_datagram_frame_size,
            current.max_datagram_frame_size,
        )
        && (!cached.grease_quic_bit || current.grease_quic_bit)
}

fn is_no_lower(cached: Option<VarInt>, current: Option<VarInt>) -> bool
    ensures { IsTrue result ↔ IsNoLower cached current }
{
    match (cached, current) {
        (None, _) => true,
        (Some(_), None) => false,
        (Some(limit), Some(current)) => limit <= current,
    }
}
