//! What a client is set up with.

ghost use Rattle.std.specs.Prelude.{◌≡◌};

use crate::TokenStore;
use qc_recovery::TransportConfig;
use std::default::Default;
use std::marker::Model;

/// The settings of the connections that a client makes. `C` is what its sessions are started with
/// ([`qc_crypto::ClientConfig`]), and `S` its store of tokens.
///
/// So far no endpoint reads them: who makes a connection hands over what it takes of them.
#[derive(Drop)]
pub struct ClientConfig<C, S> {
    transport: TransportConfig,
    crypto: C,
    token_store: S,
    version: u32,
}

impl<C, S> Model for ClientConfig<C, S> {
    ghost use Rattle.qc_config.specs.ServerValues.{ClientValues};

    ghost Value = { ClientValues C S };

    ghost view = { λ c. record { transport = c.transport; crypto = c.crypto; token_store = c.token_store; version = c.version } };
}

/// Each setter keeps all other values, and each value has a reading call of the name `get_..`.
impl<C: qc_crypto::ClientConfig, S: TokenStore> ClientConfig<C, S> {
    ghost use Rattle.qc_config.specs.ServerValues.{default_client};

    /// A client that starts its sessions with `crypto`, keeps tokens in `token_store`, and speaks version 1.
    pub fn new(crypto: C, token_store: S) -> Self
        ensures { result ≡ default_client crypto token_store }
    {
        ClientConfig {
            transport: TransportConfig::default(),
            crypto,
            token_store,
            version: 1,
        }
    }

    /// What sessions are started with.
    pub fn get_crypto(&self) -> &C
        ensures { result.now ≡ self.now.crypto }
    {
        &self.crypto
    }

    /// Sets the settings that both clients and servers have.
    pub fn transport_config(&mut self, value: TransportConfig) -> &mut Self
        ensures same { result.ghost_name ≡ self.entry.ghost_name }
        ensures set { result.now ≡ record self.old { transport = value } }
    {
        self.transport = value;
        self
    }

    /// The settings that both clients and servers have.
    pub fn get_transport_config(&self) -> &TransportConfig
        ensures { result.now ≡ self.now.transport }
    {
        &self.transport
    }

    /// Sets where the tokens are kept that servers gave.
    pub fn token_store(&mut self, value: S) -> &mut Self
        ensures same { result.ghost_name ≡ self.entry.ghost_name }
        ensures set { result.now ≡ record self.old { token_store = value } }
    {
        self.token_store = value;
        self
    }

    /// Where the tokens are kept that servers gave.
    pub fn get_token_store(&self) -> &S
        ensures { result.now ≡ self.now.token_store }
    {
        &self.token_store
    }

    /// Sets the QUIC version that is spoken.
    pub fn version(&mut self, value: u32) -> &mut Self
        ensures same { result.ghost_name ≡ self.entry.ghost_name }
        ensures set { result.now ≡ record self.old { version = value } }
    {
        self.version = value;
        self
    }

    /// The QUIC version that is spoken.
    pub fn get_version(&self) -> u32
        ensures { result ≡ self.now.version }
    {
        self.version
    }
}
