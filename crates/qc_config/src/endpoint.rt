//! What an endpoint is set up with.

ghost use Rattle.std.specs.Prelude.{◌≡◌, None, Some, IfOk, IfErr, OnErr, OnOk, is_ok};

use crate::ConfigError;
use qc_base::Duration;
use qc_crypto::HmacKey;
use std::alloc::{AllocError, Global};
use std::marker::Model;

/// The settings of an endpoint, which all of its connections share.
///
/// So far no endpoint reads them: who makes a connection hands over what it takes of them.
#[derive(Drop)]
pub struct EndpointConfig<H> {
    reset_key: H,
    max_udp_payload_size: u16,
    supported_versions: Vec<u32>,
    grease_quic_bit: bool,
    min_reset_interval: Duration,
    rng_seed: Option<[u8; 32]>,
}

impl<H> Model for EndpointConfig<H> {
    ghost use Rattle.qc_config.specs.EndpointValues.{EndpointValues};

    ghost Value = { EndpointValues H };

    ghost view = { λ c. record { reset_key = c.reset_key; max_udp_payload_size = c.max_udp_payload_size; supported_versions = c.supported_versions.items; grease_quic_bit = c.grease_quic_bit; min_reset_interval = c.min_reset_interval; rng_seed = c.rng_seed } };
}

/// Each setter keeps all other values, and each value has a reading call of the name `get_..`.
impl<H: HmacKey> EndpointConfig<H> {
    ghost use Rattle.qc_config.specs.EndpointValues.{default_endpoint, is_payload_size};
    ghost use Rattle.qc_config.specs.declared.config_error.ConfigError.{ConfigError};

    /// A configuration that makes its reset tokens by `reset_key`: payloads of 1472 bytes at most, version 1
    /// and drafts 29 to 34, a fixed bit that may be unset, 20 ms between stateless resets, and no seed.
    ///
    /// # Errors
    ///
    /// Where there was no memory.
    pub fn new(alloc: Global, reset_key: H) -> Result<Self, AllocError>
        ensures { IfOk result (λ c. c ≡ default_endpoint reset_key) }
    {
        let supported_versions = vec![in alloc;
            1,
            0xff00_001d,
            0xff00_001e,
            0xff00_001f,
            0xff00_0020,
            0xff00_0021,
            0xff00_0022,
        ]?;
        Ok(EndpointConfig {
            reset_key,
            max_udp_payload_size: 1472,
            supported_versions,
            grease_quic_bit: true,
            min_reset_interval: Duration::from_nanos(20_000_000),
            rng_seed: None,
        })
    }

    /// Sets the key of the tokens by which an endpoint resets connections that it has lost (RFC 9000, section
    /// 10.3).
    pub fn reset_key(&mut self, key: H) -> &mut Self
        ensures same { result.ghost_name ≡ self.entry.ghost_name }
        ensures set { result.now ≡ record self.old { reset_key = key } }
    {
        self.reset_key = key;
        self
    }

    /// The key of the tokens of stateless resets.
    pub fn get_reset_key(&self) -> &H
        ensures { result.now ≡ self.now.reset_key }
    {
        &self.reset_key
    }

    // Sets the greatest size of a UDP payload, where it is one.
    fn set_payload_size(&mut self, value: u16) -> Result<(), ConfigError>
        ensures bounds { is_ok result ≡ is_payload_size value }
        ensures ok { OnOk result (self.new ≡ record self.old { max_udp_payload_size = value }) }
        ensures error { IfErr result (λ e. e ≡ ConfigError.OutOfBounds) }
        ensures unchanged { OnErr result (self.new ≡ self.old) }
    {
        if !(1200..=65527).contains(&value) {
            return Err(ConfigError::OutOfBounds);
        }
        self.max_udp_payload_size = value;
        Ok(())
    }

    /// Sets the greatest size in bytes of a UDP payload that is taken (RFC 9000, section 18.2).
    ///
    /// # Errors
    ///
    /// `OutOfBounds` exactly where it isn't from 1200 to 65527. Nothing changes then.
    pub fn max_udp_payload_size(&mut self, value: u16) -> Result<&mut Self, ConfigError>
        ensures bounds { is_ok result ≡ is_payload_size value }
        ensures error { IfErr result (λ e. e ≡ ConfigError.OutOfBounds) }
        ensures same { IfOk result (λ c. c.ghost_name ≡ self.entry.ghost_name) }
        ensures set { IfOk result (λ c. c.now ≡ record self.old { max_udp_payload_size = value }) }
    {
        self.set_payload_size(value)?;
        Ok(self)
    }

    /// The greatest size in bytes of a UDP payload that is taken.
    pub fn get_max_udp_payload_size(&self) -> u64
        ensures { result ≡ self.now.max_udp_payload_size }
    {
        self.max_udp_payload_size as u64
    }

    /// Sets the QUIC versions that are spoken.
    pub fn supported_versions(&mut self, supported_versions: Vec<u32>) -> &mut Self
        ensures same { result.ghost_name ≡ self.entry.ghost_name }
        ensures set { result.now ≡ record self.old { supported_versions = supported_versions.items } }
    {
        self.supported_versions = supported_versions;
        self
    }

    /// The QUIC versions that are spoken.
    pub fn get_supported_versions(&self) -> &[u32]
        ensures { result.now ≡ self.now.supported_versions }
    {
        self.supported_versions.as_slice()
    }

    /// Sets whether packets are taken whose fixed bit is unset (RFC 9287).
    pub fn grease_quic_bit(&mut self, value: bool) -> &mut Self
        ensures same { result.ghost_name ≡ self.entry.ghost_name }
        ensures set { result.now ≡ record self.old { grease_quic_bit = value } }
    {
        self.grease_quic_bit = value;
        self
    }

    /// Whether packets are taken whose fixed bit is unset (RFC 9287).
    pub fn get_grease_quic_bit(&self) -> bool
        ensures { result ≡ self.now.grease_quic_bit }
    {
        self.grease_quic_bit
    }

    /// Sets the least time between two stateless resets (RFC 9000, section 10.3).
    pub fn min_reset_interval(&mut self, value: Duration) -> &mut Self
        ensures same { result.ghost_name ≡ self.entry.ghost_name }
        ensures set { result.now ≡ record self.old { min_reset_interval = value } }
    {
        self.min_reset_interval = value;
        self
    }

    /// The least time between two stateless resets (RFC 9000, section 10.3).
    pub fn get_min_reset_interval(&self) -> Duration
        ensures { result ≡ self.now.min_reset_interval }
    {
        self.min_reset_interval
    }

    /// Sets the seed of the endpoint's random numbers; `None`: the endpoint chooses one.
    pub fn rng_seed(&mut self, seed: Option<[u8; 32]>) -> &mut Self
        ensures same { result.ghost_name ≡ self.entry.ghost_name }
        ensures set { result.now ≡ record self.old { rng_seed = seed } }
    {
        self.rng_seed = seed;
        self
    }

    /// The seed of the endpoint's random numbers; `None`: the endpoint chooses one.
    pub fn get_rng_seed(&self) -> Option<[u8; 32]>
        ensures { result ≡ self.now.rng_seed }
    {
        self.rng_seed
    }
}
