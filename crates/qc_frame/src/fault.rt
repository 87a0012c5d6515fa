//! Why bytes are no frame.

ghost use Rattle.std.specs.Prelude.{◌≡◌};

use qc_base::{Cut, TransportError, TransportErrorCode};

/// What is wrong with a frame (RFC 9000, section 12.4).
#[derive(Clone, Copy, Debug, PartialEq, Eq)]
pub enum FrameFault {
    /// A field is cut short.
    UnexpectedEnd,
    /// The type is that of no frame.
    InvalidFrameId,
    /// A field has a value that its kind of frame does not allow.
    Malformed,
}

impl From<Cut> for FrameFault {
    ghost use Rattle.qc_frame.specs.declared.fault.FrameFault.TheVariants.{UnexpectedEnd};
    ghost use Rattle.std.specs.Prelude.{◌≡◌};

    ghost from_gives = { λ _ fault. fault ≡ UnexpectedEnd };

    fn from(_: Cut) -> FrameFault {
        FrameFault::UnexpectedEnd
    }
}

/// Bytes that are no frame.
#[derive(Clone, Copy, Debug, PartialEq, Eq)]
pub struct InvalidFrame {
    /// The frame's type; `None` where the type itself is cut short.
    pub ty: Option<u64>,
    /// What is wrong.
    pub why: FrameFault,
}

impl From<InvalidFrame> for TransportError {
    ghost from_gives = { λ invalid error. (error.code ≡ 7) × (error.frame ≡ invalid.ty) };

    /// The error that such bytes close a connection with, FRAME_ENCODING_ERROR (RFC 9000, section
    /// 20.1).
    fn from(invalid: InvalidFrame) -> TransportError {
        TransportError {
            code: TransportErrorCode::FRAME_ENCODING_ERROR,
            frame: invalid.ty,
        }
    }
}
