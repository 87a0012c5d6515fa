//! What a server is set up with.

ghost use Rattle.std.specs.Prelude.{◌≡◌};

use crate::{TimeSource, TokenLog, ValidationTokenConfig};
use qc_base::Duration;
use qc_crypto::HandshakeTokenKey;
use qc_recovery::TransportConfig;
use std::default::Default;
use std::marker::Model;
use std::net::{SocketAddrV4, SocketAddrV6};

/// The settings of the connections that a server takes. `C` is what its sessions are started with
/// ([`qc_crypto::ServerConfig`]), `K` the key of its tokens, `T` its clock, and `L` its log of used tokens.
///
/// So far no endpoint reads them: who makes a connection hands over what it takes of them.
#[derive(Drop)]
pub struct ServerConfig<C, K, T, L> {
    /// The settings that both clients and servers have.
    pub transport: TransportConfig,
    /// What sessions are started with.
    pub crypto: C,
    /// The settings of Validation tokens.
    pub validation_token: ValidationTokenConfig<L>,
    pub(crate) token_key: K,
    pub(crate) retry_token_lifetime: Duration,
    migration: bool,
    preferred_address_v4: Option<SocketAddrV4>,
    preferred_address_v6: Option<SocketAddrV6>,
    max_incoming: usize,
    incoming_buffer_size: u64,
    incoming_buffer_size_total: u64,
    pub(crate) time_source: T,
}

impl<C, K, T, L> Model for ServerConfig<C, K, T, L> {
    ghost use Rattle.qc_config.specs.ServerValues.{ServerValues};

    ghost Value = { ServerValues C K T L };

    ghost view = { λ c. record { transport = c.transport; crypto = c.crypto; validation_token = c.validation_token; token_key = c.token_key; retry_token_lifetime = c.retry_token_lifetime; migration = c.migration; preferred_address_v4 = c.preferred_address_v4; preferred_address_v6 = c.preferred_address_v6; max_incoming = c.max_incoming; incoming_buffer_size = c.incoming_buffer_size; incoming_buffer_size_total = c.incoming_buffer_size_total; time_source = c.time_source } };
}

/// Each setter keeps all other values, and each value that has no public field has a reading call of the name
/// `get_..`.
impl<C: qc_crypto::ServerConfig, K: HandshakeTokenKey, T: TimeSource, L: TokenLog> ServerConfig<
    C,
    K,
    T,
    L,
> {
    ghost use Rattle.qc_config.specs.ServerValues.{default_server};

    /// A server that starts its sessions with `crypto` and seals its tokens with `token_key`: tokens of Retry
    /// packets valid for 15 s, clients that may migrate, no preferred address, and at most 65536 clients that
    /// wait to be taken, with 10 MiB of packets each and 100 MiB in all.
    pub fn new(
        crypto: C,
        token_key: K,
        time_source: T,
        validation_token: ValidationTokenConfig<L>,
    ) -> Self
        ensures { result ≡ default_server crypto token_key time_source validation_token }
    {
        ServerConfig {
            transport: TransportConfig::default(),
            crypto,
            validation_token,
            token_key,
            retry_token_lifetime: Duration::from_nanos(15_000_000_000),
            migration: true,
            preferred_address_v4: None,
            preferred_address_v6: None,
            max_incoming: 65536,
            incoming_buffer_size: 10_485_760,
            incoming_buffer_size_total: 104_857_600,
            time_source,
        }
    }

    /// Sets the settings that both clients and servers have.
    pub fn transport_config(&mut self, value: TransportConfig) -> &mut Self
        ensures same { result.ghost_name ≡ self.entry.ghost_name }
        ensures set { result.now ≡ record self.old { transport = value } }
    {
        self.transport = value;
        self
    }

    /// Sets the settings of Validation tokens.
    pub fn validation_token_config(&mut self, value: ValidationTokenConfig<L>) -> &mut Self
        ensures same { result.ghost_name ≡ self.entry.ghost_name }
        ensures set { result.now ≡ record self.old { validation_token = value } }
    {
        self.validation_token = value;
        self
    }

    /// Sets the key of tokens.
    pub fn token_key(&mut self, value: K) -> &mut Self
        ensures same { result.ghost_name ≡ self.entry.ghost_name }
        ensures set { result.now ≡ record self.old { token_key = value } }
    {
        self.token_key = value;
        self
    }

    /// The key of tokens.
    pub fn get_token_key(&self) -> &K
        ensures { result.now ≡ self.now.token_key }
    {
        &self.token_key
    }

    /// Sets how long a token of a Retry packet is valid after its issue.
    pub fn retry_token_lifetime(&mut self, value: Duration) -> &mut Self
        ensures same { result.ghost_name ≡ self.entry.ghost_name }
        ensures set { result.now ≡ record self.old { retry_token_lifetime = value } }
    {
        self.retry_token_lifetime = value;
        self
    }

    /// How long a token of a Retry packet is valid after its issue.
    pub fn get_retry_token_lifetime(&self) -> Duration
        ensures { result ≡ self.now.retry_token_lifetime }
    {
        self.retry_token_lifetime
    }

    /// Sets whether clients may move to other addresses (RFC 9000, section 9). It has no effect yet: no connection follows.
    pub fn migration(&mut self, value: bool) -> &mut Self
        ensures same { result.ghost_name ≡ self.entry.ghost_name }
        ensures set { result.now ≡ record self.old { migration = value } }
    {
        self.migration = value;
        self
    }

    /// Whether clients may move to other addresses (RFC 9000, section 9).
    pub fn get_migration(&self) -> bool
        ensures { result ≡ self.now.migration }
    {
        self.migration
    }

    /// Sets the IPv4 address that clients are asked to move to (RFC 9000, section 9.6), if there is one. It has no effect yet.
    pub fn preferred_address_v4(&mut self, value: Option<SocketAddrV4>) -> &mut Self
        ensures same { result.ghost_name ≡ self.entry.ghost_name }
        ensures set { result.now ≡ record self.old { preferred_address_v4 = value } }
    {
        self.preferred_address_v4 = value;
        self
    }

    /// The IPv4 address that clients are asked to move to (RFC 9000, section 9.6), if there is one.
    pub fn get_preferred_address_v4(&self) -> Option<SocketAddrV4>
        ensures { result ≡ self.now.preferred_address_v4 }
    {
        self.preferred_address_v4
    }

    /// Sets the IPv6 address that clients are asked to move to (RFC 9000, section 9.6), if there is one. It has no effect yet.
    pub fn preferred_address_v6(&mut self, value: Option<SocketAddrV6>) -> &mut Self
        ensures same { result.ghost_name ≡ self.entry.ghost_name }
        ensures set { result.now ≡ record self.old { preferred_address_v6 = value } }
    {
        self.preferred_address_v6 = value;
        self
    }

    /// The IPv6 address that clients are asked to move to (RFC 9000, section 9.6), if there is one.
    pub fn get_preferred_address_v6(&self) -> Option<SocketAddrV6>
        ensures { result ≡ self.now.preferred_address_v6 }
    {
        self.preferred_address_v6
    }

    /// Sets how many clients may wait to be taken.
    pub fn max_incoming(&mut self, value: usize) -> &mut Self
        ensures same { result.ghost_name ≡ self.entry.ghost_name }
        ensures set { result.now ≡ record self.old { max_incoming = value } }
    {
        self.max_incoming = value;
        self
    }

    /// How many clients may wait to be taken.
    pub fn get_max_incoming(&self) -> usize
        ensures { result ≡ self.now.max_incoming }
    {
        self.max_incoming
    }

    /// Sets how many bytes are kept of the packets of one client that waits to be taken.
    pub fn incoming_buffer_size(&mut self, value: u64) -> &mut Self
        ensures same { result.ghost_name ≡ self.entry.ghost_name }
        ensures set { result.now ≡ record self.old { incoming_buffer_size = value } }
    {
        self.incoming_buffer_size = value;
        self
    }

    /// How many bytes are kept of the packets of one client that waits to be taken.
    pub fn get_incoming_buffer_size(&self) -> u64
        ensures { result ≡ self.now.incoming_buffer_size }
    {
        self.incoming_buffer_size
    }

    /// Sets how many bytes are kept of the packets of all clients that wait to be taken.
    pub fn incoming_buffer_size_total(&mut self, value: u64) -> &mut Self
        ensures same { result.ghost_name ≡ self.entry.ghost_name }
        ensures set { result.now ≡ record self.old { incoming_buffer_size_total = value } }
    {
        self.incoming_buffer_size_total = value;
        self
    }

    /// How many bytes are kept of the packets of all clients that wait to be taken.
    pub fn get_incoming_buffer_size_total(&self) -> u64
        ensures { result ≡ self.now.incoming_buffer_size_total }
    {
        self.incoming_buffer_size_total
    }

    /// Sets the server's clock.
    pub fn time_source(&mut self, value: T) -> &mut Self
        ensures same { result.ghost_name ≡ self.entry.ghost_name }
        ensures set { result.now ≡ record self.old { time_source = value } }
    {
        self.time_source = value;
        self
    }

    /// The server's clock.
    pub fn get_time_source(&self) -> &T
        ensures { result.now ≡ self.now.time_source }
    {
        &self.time_source
    }
}
