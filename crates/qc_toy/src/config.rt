//! The toy's configurations of clients and servers.

ghost use Rattle.std.specs.Prelude.{◌≡◌};

use crate::body::Body;
use crate::header_key::ToyHeaderKey;
use crate::key_bytes::{Level, secret_of_id};
use crate::keys::keys_of_level;
use crate::packet_key::ToyPacketKey;
use crate::session::{ToySession, tag_of_retry};
use crate::settings::ToySettings;
use qc_base::{ConnectionId, Side};
use qc_crypto::{ClientConfig, ConnectError, Keys, ServerConfig, UnsupportedVersion};
use qc_params::TransportParameters;
use std::alloc::{AllocError, Global};

/// Starts toy sessions of clients. Its list of versions holds 1 alone.
#[derive(Clone, Copy, Debug, PartialEq, Eq)]
pub struct ToyClient {
    /// What each session is set up with.
    pub settings: ToySettings,
}

/// Starts toy sessions of servers. Its list of versions holds 1 alone.
#[derive(Clone, Copy, Debug, PartialEq, Eq)]
pub struct ToyServer {
    /// What each session is set up with.
    pub settings: ToySettings,
}

impl ClientConfig for ToyClient {
    ghost use Rattle.std.specs.Prelude.{◌==◌};
    ghost use Rattle.qc_base.specs.declared.side.Side.TheVariants.{Client};
    ghost use Rattle.std.proofs.Common.{subst, sym};
    ghost use Rattle.qc_toy.specs.declared.session.ToySession.{ToySession};
    ghost use Rattle.qc_toy.specs.Handshake.{IsFresh};
    ghost use Rattle.qc_toy.specs.Start.{session_of, start_fresh, start_side, version_one};

    type Session = ToySession;

    ghost supports = { λ _ version. version == 1 };

    ghost starts = { λ config _ _ params session. session ≡ session_of config.settings Client params };

    fn start_session(
        &self,
        alloc: Global,
        version: u32,
        _server_name: &str,
        params: &TransportParameters,
    ) -> Result<ToySession, ConnectError> {
        if version != 1 {
            return Err(ConnectError::UnsupportedVersion);
        }
        match ToySession::start(alloc, &self.settings, Side::Client, params) {
            Ok(session) => Ok(session),
            Err(_) => Err(ConnectError::OutOfMemory),
        }
    }

    ghost fresh = { λ config _ _ params _ e. subst IsFresh (sym e) (start_fresh config.settings Client params) };

    ghost client = { λ config _ _ params _ e. subst (λ (s : ToySession). s.side ≡ Client) (sym e) (start_side config.settings Client params) };

    ghost of_version = { λ _ version _ _ _ h _. version_one version h };
}

impl ServerConfig for ToyServer {
    ghost use Rattle.std.specs.Prelude.{◌==◌};
    ghost use Rattle.qc_base.specs.declared.side.Side.TheVariants.{Server};
    ghost use Rattle.qc_toy.specs.declared.key_bytes.Level.TheVariants.{Initial};
    ghost use Rattle.qc_toy.specs.KeyBytes.{initial_secret};
    ghost use Rattle.qc_toy.specs.ToyKeys.{level_keys};
    ghost use Rattle.qc_toy.specs.Handshake.{retry_tag as toy_retry_tag};
    ghost use Rattle.qc_toy.specs.Start.{session_of, start_fresh, start_side, version_one, same_initial, server_fits, server_retry_fits};
    ghost use Rattle.std.proofs.Common.{subst, sym};
    ghost use Rattle.qc_toy.specs.declared.session.ToySession.{ToySession};
    ghost use Rattle.qc_toy.specs.Handshake.{IsFresh};

    type Session = ToySession;

    ghost supports = { λ _ version. version == 1 };

    ghost initial_of = { λ config _ id. level_keys config.settings (initial_secret id) Initial Server };

    ghost retry_tag_of = { λ _ _. toy_retry_tag };

    ghost starts = { λ config _ params session. session ≡ session_of config.settings Server params };

    fn initial_keys(
        &self,
        version: u32,
        dst_cid: &ConnectionId,
    ) -> Result<Keys<ToyHeaderKey, ToyPacketKey>, UnsupportedVersion> {
        if version != 1 {
            return Err(UnsupportedVersion);
        }
        let secret = secret_of_id(dst_cid.as_slice());
        Ok(keys_of_level(&self.settings, secret, Level::Initial, Side::Server))
    }

    fn retry_tag(&self, _version: u32, orig_dst_cid: &ConnectionId, packet: &[u8]) -> [u8; 16] {
        tag_of_retry(orig_dst_cid.as_slice(), packet, &[])
    }

    fn start_session(
        &self,
        alloc: Global,
        _version: u32,
        params: &TransportParameters,
    ) -> Result<ToySession, AllocError> {
        ToySession::start(alloc, &self.settings, Side::Server, params)
    }

    ghost fresh = { λ config _ params _ e. subst IsFresh (sym e) (start_fresh config.settings Server params) };

    ghost server = { λ config _ params _ e. subst (λ (s : ToySession). s.side ≡ Server) (sym e) (start_side config.settings Server params) };

    ghost of_version = { λ _ version _ _ h _. version_one version h };

    ghost same_initial = { λ config _ params session id _ e. same_initial config.settings session params id e };

    ghost initial_fits = { λ config session _ id _ _ _. server_fits config.settings session id };

    ghost retry_fits = { λ _ _ _ id header token _ _ _. server_retry_fits id header token };
}
