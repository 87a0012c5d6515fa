//! The error of a setting.

ghost use Rattle.std.specs.Prelude.{Some, codes};

use qc_base::VarIntBoundsExceeded;
use std::error::Error;
use std::fmt;

/// A setting isn't taken.
#[derive(Clone, Copy, Debug, PartialEq, Eq)]
pub enum ConfigError {
    /// The value lies outside what is allowed.
    OutOfBounds,
}

impl fmt::Display for ConfigError {
    ghost output = { λ _. Some (codes "value exceeds supported bounds") };

    fn fmt<W: fmt::Write>(&self, f: &mut fmt::Formatter<W>) -> fmt::Result {
        write!(f, "value exceeds supported bounds")
    }
}

impl Error for ConfigError {}

impl From<VarIntBoundsExceeded> for ConfigError {
    ghost use Rattle.std.specs.Prelude.{◌≡◌};
    ghost use Rattle.qc_config.specs.declared.config_error.ConfigError.{ConfigError};

    ghost from_gives = { λ _ error. error ≡ ConfigError.OutOfBounds };

    fn from(_error: VarIntBoundsExceeded) -> ConfigError {
        ConfigError::OutOfBounds
    }
}
