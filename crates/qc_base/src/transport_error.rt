//! The codes that a connection closes with (RFC 9000, section 20.1).

ghost use Rattle.std.specs.Prelude.{◌≡◌, ◌+◌, Some};
ghost use Rattle.qc_base.specs.TransportErrorCode.{code_text};

use std::fmt;
use std::marker::Model;

/// A transport error code (RFC 9000, section 20.1).
#[derive(Clone, Copy, Debug, PartialEq, Eq)]
pub struct TransportErrorCode(u64);

impl Model for TransportErrorCode {
    ghost use Rattle.std.specs.Prelude.{ℕ};

    ghost Value = { ℕ };

    ghost view = { λ code. code.0 };

    ghost inverse = { λ n. record { 0 = n } };
}

impl TransportErrorCode {
    /// The connection is closed with no error.
    pub const NO_ERROR: TransportErrorCode = TransportErrorCode(0);

    /// The sender met a fault of its own and cannot go on.
    pub const INTERNAL_ERROR: TransportErrorCode = TransportErrorCode(1);

    /// The server refuses the connection.
    pub const CONNECTION_REFUSED: TransportErrorCode = TransportErrorCode(2);

    /// More data came than was allowed.
    pub const FLOW_CONTROL_ERROR: TransportErrorCode = TransportErrorCode(3);

    /// A frame named a stream above the limit.
    pub const STREAM_LIMIT_ERROR: TransportErrorCode = TransportErrorCode(4);

    /// A frame came for a stream in a state that does not allow it.
    pub const STREAM_STATE_ERROR: TransportErrorCode = TransportErrorCode(5);

    /// A stream's final size changed, or data came beyond it.
    pub const FINAL_SIZE_ERROR: TransportErrorCode = TransportErrorCode(6);

    /// A frame could not be read.
    pub const FRAME_ENCODING_ERROR: TransportErrorCode = TransportErrorCode(7);

    /// The transport parameters were badly formed or held a value that is not allowed.
    pub const TRANSPORT_PARAMETER_ERROR: TransportErrorCode = TransportErrorCode(8);

    /// The peer issued more connection ids than were allowed.
    pub const CONNECTION_ID_LIMIT_ERROR: TransportErrorCode = TransportErrorCode(9);

    /// A rule of the protocol was broken that no more exact code covers.
    pub const PROTOCOL_VIOLATION: TransportErrorCode = TransportErrorCode(0xa);

    /// A client's token is not valid.
    pub const INVALID_TOKEN: TransportErrorCode = TransportErrorCode(0xb);

    /// The application or the handshake closed the connection.
    pub const APPLICATION_ERROR: TransportErrorCode = TransportErrorCode(0xc);

    /// More handshake data came than is kept.
    pub const CRYPTO_BUFFER_EXCEEDED: TransportErrorCode = TransportErrorCode(0xd);

    /// A key update was faulty.
    pub const KEY_UPDATE_ERROR: TransportErrorCode = TransportErrorCode(0xe);

    /// The keys were used as often as they may be.
    pub const AEAD_LIMIT_REACHED: TransportErrorCode = TransportErrorCode(0xf);

    /// No path is left that the connection can go on over.
    pub const NO_VIABLE_PATH: TransportErrorCode = TransportErrorCode(0x10);

    /// The code of a handshake that failed with the TLS alert `alert` (RFC 9001, section 4.8).
    pub fn crypto(alert: u8) -> TransportErrorCode
        ensures { result ≡ 0x100 + alert }
    {
        TransportErrorCode(0x100 + alert as u64)
    }

    /// The code as the number that the wire carries.
    pub fn into_inner(self) -> u64
        ensures { result ≡ self }
    {
        self.0
    }
}

impl From<u64> for TransportErrorCode {
    ghost from_gives = { λ n code. code ≡ n };

    fn from(value: u64) -> TransportErrorCode {
        TransportErrorCode(value)
    }
}

impl From<TransportErrorCode> for u64 {
    ghost from_gives = { λ code n. n ≡ code };

    fn from(value: TransportErrorCode) -> u64 {
        value.0
    }
}

impl fmt::Display for TransportErrorCode {
    ghost output = { λ code. Some (code_text code) };

    #[tactic(auto, unfolding(crate::specs::TransportErrorCode::code_text))]
    fn fmt<W: fmt::Write>(&self, f: &mut fmt::Formatter<W>) -> fmt::Result {
        match self.0 {
            0 => write!(f, "NO_ERROR"),
            1 => write!(f, "INTERNAL_ERROR"),
            2 => write!(f, "CONNECTION_REFUSED"),
            3 => write!(f, "FLOW_CONTROL_ERROR"),
            4 => write!(f, "STREAM_LIMIT_ERROR"),
            5 => write!(f, "STREAM_STATE_ERROR"),
            6 => write!(f, "FINAL_SIZE_ERROR"),
            7 => write!(f, "FRAME_ENCODING_ERROR"),
            8 => write!(f, "TRANSPORT_PARAMETER_ERROR"),
            9 => write!(f, "CONNECTION_ID_LIMIT_ERROR"),
            0xa => write!(f, "PROTOCOL_VIOLATION"),
            0xb => write!(f, "INVALID_TOKEN"),
            0xc => write!(f, "APPLICATION_ERROR"),
            0xd => write!(f, "CRYPTO_BUFFER_EXCEEDED"),
            0xe => write!(f, "KEY_UPDATE_ERROR"),
            0xf => write!(f, "AEAD_LIMIT_REACHED"),
            0x10 => write!(f, "NO_VIABLE_PATH"),
            code => write!(f, "{code}"),
        }
    }
}

/// Why this end closes the connection.
#[derive(Clone, Copy, Debug, PartialEq, Eq)]
pub struct TransportError {
    /// The code that the peer is told.
    pub code: TransportErrorCode,
    /// The type of the frame that was at fault, where one was.
    pub frame: Option<u64>,
}

impl fmt::Display for TransportError {
    ghost output = { λ error. Some (code_text error.code) };

    fn fmt<W: fmt::Write>(&self, f: &mut fmt::Formatter<W>) -> fmt::Result {
        self.code.fmt(f)
    }
}
