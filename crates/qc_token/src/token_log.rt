//! How a server sees to it that a token is used once.

ghost use Rattle.std.specs.Prelude.{◌≡◌, ℕ, Result, OnOk, OnErr, IfOk};
ghost use Rattle.qc_token.specs.declared.token_log.TokenReuseError.{TokenReuseError};

use qc_base::{Duration, SystemTime};
use std::alloc::AllocError;

/// A token may have been used before.
#[derive(Clone, Copy, Debug, PartialEq, Eq)]
pub struct TokenReuseError;

/// What a server remembers of the Validation tokens that were used, so that none is used twice (RFC 9000,
/// section 8.1.4). It may refuse a token that wasn't used; each token that it takes again helps an attacker
/// who copies it.
///
/// Want of memory aside, what a call answers and leaves is a function of the log and of what is passed. After
/// want of memory the log is as before.
pub trait TokenLog: Drop {
    // Whether a token is taken, of its nonce, its time of issue and its lifetime.
    ghost takes: { Self → ℕ → ℕ → ℕ → Result (Unit {0}) TokenReuseError };

    // The log after it was asked.
    ghost after_token: { Self → ℕ → ℕ → ℕ → Self };

    /// Takes note that a token was used. `issued` is when it was issued, and `lifetime` how long tokens are
    /// valid after that: it need not be remembered any longer.
    ///
    /// # Errors
    ///
    /// Inner `TokenReuseError` where the token may have been used before; `AllocError` for want of memory.
    fn check_and_insert(
        &mut self,
        nonce: u128,
        issued: SystemTime,
        lifetime: Duration,
    ) -> Result<Result<(), TokenReuseError>, AllocError>
        ensures answer { IfOk result (λ answer. answer ≡ takes self.old nonce issued lifetime) }
        ensures after { OnOk result (self.new ≡ after_token self.old nonce issued lifetime) }
        ensures err { OnErr result (self.new ≡ self.old) };
}

/// A log that takes no token.
#[derive(Clone, Copy, Debug, PartialEq, Eq)]
pub struct NoneTokenLog;

impl TokenLog for NoneTokenLog {
    ghost use Rattle.std.specs.Prelude.{Err};

    ghost takes = { λ _ _ _ _. Err (record {}) };

    ghost after_token = { λ log _ _ _. log };

    fn check_and_insert(
        &mut self,
        nonce: u128,
        issued: SystemTime,
        lifetime: Duration,
    ) -> Result<Result<(), TokenReuseError>, AllocError> {
        Ok(Err(TokenReuseError))
    }
}
