//! The settings of Validation tokens.

ghost use Rattle.std.specs.Prelude.{◌≡◌, IfOk, OnOk, OnErr};

use crate::{NoneTokenLog, TokenLog, TokenReuseError};
use qc_base::{Duration, SystemTime};
use std::alloc::AllocError;
use std::default::Default;
use std::marker::Model;

/// How a server sends and takes Validation tokens: those of NEW_TOKEN frames (RFC 9000, section 8.1.3).
#[derive(Drop)]
pub struct ValidationTokenConfig<L> {
    pub(crate) lifetime: Duration,
    pub(crate) log: L,
    pub(crate) sent: u32,
}

impl<L> Model for ValidationTokenConfig<L> {
    ghost use Rattle.qc_config.specs.ServerValues.{TokenValues};

    ghost Value = { TokenValues L };

    ghost view = { λ c. record { lifetime = c.lifetime; log = c.log; sent = c.sent } };
}

impl Default for ValidationTokenConfig<NoneTokenLog> {
    ghost use Rattle.std.specs.Prelude.{◌≡◌};
    ghost use Rattle.qc_config.specs.ServerValues.{default_tokens};

    ghost is_default = { λ c. c ≡ default_tokens (record {}) };

    /// Tokens that no server takes: [`NoneTokenLog`], and none sent.
    fn default() -> Self {
        ValidationTokenConfig::new(NoneTokenLog)
    }
}

/// Each setter keeps all other values, and each value has a reading call of the name `get_..`.
impl<L: TokenLog> ValidationTokenConfig<L> {
    ghost use Rattle.qc_config.specs.ServerValues.{default_tokens};
    ghost use Rattle.qc_config.specs.Incoming.{is_fresh};

    /// Tokens that are valid for two weeks. `log` sees to it that each is used once. None is sent.
    pub fn new(log: L) -> Self
        ensures { result ≡ default_tokens log }
    {
        ValidationTokenConfig {
            lifetime: Duration::from_nanos(1_209_600_000_000_000),
            log,
            sent: 0,
        }
    }

    /// Sets how long a token is valid after its issue.
    pub fn lifetime(&mut self, value: Duration) -> &mut Self
        ensures same { result.ghost_name ≡ self.entry.ghost_name }
        ensures set { result.now ≡ record self.old { lifetime = value } }
    {
        self.lifetime = value;
        self
    }

    /// How long a token is valid after its issue.
    pub fn get_lifetime(&self) -> Duration
        ensures { result ≡ self.now.lifetime }
    {
        self.lifetime
    }

    /// Sets what remembers the tokens that were used.
    pub fn log(&mut self, value: L) -> &mut Self
        ensures same { result.ghost_name ≡ self.entry.ghost_name }
        ensures set { result.now ≡ record self.old { log = value } }
    {
        self.log = value;
        self
    }

    /// What remembers the tokens that were used.
    pub fn get_log(&self) -> &L
        ensures { result.now ≡ self.now.log }
    {
        &self.log
    }

    /// Sets how many tokens a client is sent when its path is validated.
    pub fn sent(&mut self, value: u32) -> &mut Self
        ensures same { result.ghost_name ≡ self.entry.ghost_name }
        ensures set { result.now ≡ record self.old { sent = value } }
    {
        self.sent = value;
        self
    }

    /// How many tokens a client is sent when its path is validated.
    pub fn get_sent(&self) -> u32
        ensures { result ≡ self.now.sent }
    {
        self.sent
    }

    // Tells the log that a token is used, and answers whether it takes the token.
    pub(crate) fn use_token(&mut self, nonce: u128, issued: SystemTime) -> Result<bool, AllocError>
        ensures answer { IfOk result (λ taken. taken ≡ is_fresh (L.takes self.old.log nonce issued self.old.lifetime)) }
        ensures after { OnOk result (self.new ≡ record self.old { log = L.after_token self.old.log nonce issued self.old.lifetime }) }
        ensures err { OnErr result (self.new ≡ self.old) }
    {
        match self.log.check_and_insert(nonce, issued, self.lifetime)? {
            Ok(()) => Ok(true),
            Err(TokenReuseError) => Ok(false),
        }
    }
}
