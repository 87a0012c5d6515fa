ghost use Rattle.std.specs.Prelude.{None};

use qc_base::{Cut, TransportError, TransportErrorCode};

/// Why bytes are no transport parameters (RFC 9000, sections 7.4 and 18). Each closes the connection
/// with TRANSPORT_PARAMETER_ERROR.
#[derive(Clone, Copy, Debug, PartialEq, Eq)]
pub enum ParamError {
    /// A value, a length or an id is cut short, a length doesn't fit its value, or a parameter that
    /// is known here stands there twice.
    Malformed,
    /// A value that the parameter must not have, or a parameter that a client must not send.
    IllegalValue,
}

impl From<Cut> for ParamError {
    ghost use Rattle.std.specs.Prelude.{◌≡◌};
    ghost use Rattle.qc_params.specs.declared.error.ParamError.TheVariants.{Malformed};

    ghost from_gives = { λ _ e. e ≡ Malformed };

    fn from(value: Cut) -> ParamError {
        let Cut = value;
        ParamError::Malformed
    }
}

impl From<ParamError> for TransportError {
    ghost use Rattle.std.specs.Prelude.{◌≡◌, None};

    ghost from_gives = { λ _ e. e ≡ record { code = 8; frame = None } };

    /// TRANSPORT_PARAMETER_ERROR, of no frame.
    fn from(value: ParamError) -> TransportError {
        let (ParamError::Malformed | ParamError::IllegalValue) = value;
        TransportError {
            code: TransportErrorCode::TRANSPORT_PARAMETER_ERROR,
            frame: None,
        }
    }
}
