//! The errors of sessions and keys.

use qc_base::TransportError;

/// A packet, a token or a signature didn't authenticate.
#[derive(Clone, Copy, Debug, PartialEq, Eq)]
pub struct CryptoError;

/// The configuration's list of versions lacks the version asked for.
#[derive(Clone, Copy, Debug, PartialEq, Eq)]
pub struct UnsupportedVersion;

/// More keying material was asked for than the session exports in one call.
#[derive(Clone, Copy, Debug, PartialEq, Eq)]
pub struct ExportKeyingMaterialError;

/// Why a client's session didn't start.
#[derive(Clone, Copy, Debug, PartialEq, Eq)]
pub enum ConnectError {
    /// The configuration's list of versions lacks the version asked for.
    UnsupportedVersion,
    /// There was no memory.
    OutOfMemory,
}

impl From<UnsupportedVersion> for ConnectError {
    ghost use Rattle.std.specs.Prelude.{◌≡◌};
    ghost use Rattle.qc_crypto.specs.declared.errors.ConnectError.{ConnectError};

    ghost from_gives = { λ _ error. error ≡ ConnectError.UnsupportedVersion };

    fn from(_error: UnsupportedVersion) -> ConnectError {
        ConnectError::UnsupportedVersion
    }
}

/// Why a session took no handshake bytes.
#[derive(Clone, Copy, Debug, PartialEq, Eq)]
pub enum SessionError {
    /// The session refuses them, and the connection is to close with this error.
    Transport(TransportError),
    /// There was no memory.
    OutOfMemory,
}
