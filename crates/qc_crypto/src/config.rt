//! What sessions are started with.

ghost use Rattle.std.specs.Prelude.{◌≡◌, ℕ, ◌++◌, List, Bool, true, false, Option, Result, Ok, Err, ◌↔◌, IfOk, is_ok};
ghost use Rattle.qc_base.specs.declared.side.Side.{Side};
ghost use Rattle.qc_params.specs.declared.params.TransportParameters.{TransportParameters};
ghost use Rattle.qc_crypto.specs.declared.keys.Keys.{Keys};
ghost use Rattle.qc_crypto.specs.Mates.{ReadEachOther};

use crate::{ConnectError, Keys, Session, UnsupportedVersion};
use qc_base::{ConnectionId, Side};
use qc_params::TransportParameters;
use std::alloc::{AllocError, Global};

/// What a client's sessions are started with.
pub trait ClientConfig: Drop {
    /// The sessions that it starts.
    type Session: Session;

    // Whether a version is in the list.
    ghost supports: { Self → ℕ → Bool };

    // What may start of a version, a server's name and the client's own parameters. It is a relation,
    // since two sessions that start alike have different secrets.
    ghost starts: { Self → ℕ → List ℕ → TransportParameters → Self.Session → Type 0 };

    /// Starts the session of one connection. `params` are what the client announces.
    ///
    /// # Errors
    ///
    /// `UnsupportedVersion` exactly where the list lacks `version`; `OutOfMemory` where there was no
    /// memory.
    fn start_session(
        &self,
        alloc: Global,
        version: u32,
        server_name: &str,
        params: &TransportParameters,
    ) -> Result<Self::Session, ConnectError>
        ensures ok { IfOk result (starts self.now version server_name.now params.now) }
        ensures unsupported { (result ≡ Err ConnectError.UnsupportedVersion) ↔ (supports self.now version ≡ false) };

    // What starts is a fresh session of a client, and of that version.
    ghost fresh: { (config : Self) (version : ℕ) (name : List ℕ) (params : TransportParameters) (session : Self.Session) → starts config version name params session → Self.Session.is_fresh session };

    ghost client: { (config : Self) (version : ℕ) (name : List ℕ) (params : TransportParameters) (session : Self.Session) → starts config version name params session → Self.Session.side_of session ≡ Side.Client };

    ghost of_version: { (config : Self) (version : ℕ) (name : List ℕ) (params : TransportParameters) (session : Self.Session) → supports config version ≡ true → starts config version name params session → Self.Session.version_of session ≡ version };
}

/// What a server's sessions are started with.
pub trait ServerConfig: Drop {
    /// The sessions that it starts.
    type Session: Session;

    // Whether a version is in the list.
    ghost supports: { Self → ℕ → Bool };

    // The server's Initial keys of a version and a destination id.
    ghost initial_of: { Self → ℕ → List ℕ → Keys Self.Session.HeaderKey Self.Session.PacketKey };

    // The integrity tag of a version, the id that the client first sent to, and a Retry packet up
    // to its tag.
    ghost retry_tag_of: { Self → ℕ → List ℕ → List ℕ → List ℕ };

    // What may start of a version and the server's own parameters.
    ghost starts: { Self → ℕ → TransportParameters → Self.Session → Type 0 };

    /// The server's keys of the Initial space, from the destination id of the client's first
    /// packet (RFC 9001, section 5.2).
    ///
    /// # Errors
    ///
    /// Exactly where the list lacks `version`.
    fn initial_keys(
        &self,
        version: u32,
        dst_cid: &ConnectionId,
    ) -> Result<
        Keys<<Self::Session as Session>::HeaderKey, <Self::Session as Session>::PacketKey>,
        UnsupportedVersion,
    >
        ensures ok { IfOk result (λ keys. keys ≡ initial_of self.now version dst_cid.now) }
        ensures supported { is_ok result ≡ supports self.now version };

    /// The integrity tag of a Retry packet (RFC 9001, section 5.8).
    fn retry_tag(&self, version: u32, orig_dst_cid: &ConnectionId, packet: &[u8]) -> [u8; 16]
        requires { supports self.now version ≡ true }
        ensures { result ≡ retry_tag_of self.now version orig_dst_cid.now packet.now };

    /// Starts the session of one connection. `params` are what the server announces.
    ///
    /// # Errors
    ///
    /// Where there was no memory.
    fn start_session(
        &self,
        alloc: Global,
        version: u32,
        params: &TransportParameters,
    ) -> Result<Self::Session, AllocError>
        requires { supports self.now version ≡ true }
        ensures { IfOk result (starts self.now version params.now) };

    // What starts is a fresh session of a server, of that version, with these Initial keys.
    ghost fresh: { (config : Self) (version : ℕ) (params : TransportParameters) (session : Self.Session) → starts config version params session → Self.Session.is_fresh session };

    ghost server: { (config : Self) (version : ℕ) (params : TransportParameters) (session : Self.Session) → starts config version params session → Self.Session.side_of session ≡ Side.Server };

    ghost of_version: { (config : Self) (version : ℕ) (params : TransportParameters) (session : Self.Session) → supports config version ≡ true → starts config version params session → Self.Session.version_of session ≡ version };

    ghost same_initial: { (config : Self) (version : ℕ) (params : TransportParameters) (session : Self.Session) (id : List ℕ) → supports config version ≡ true → starts config version params session → Self.Session.initial session id Side.Server ≡ initial_of config version id };

    // The server and each sound session of the version read each other with Initial keys of one id.
    ghost initial_fits: { (config : Self) (session : Self.Session) (version : ℕ) (id : List ℕ) → supports config version ≡ true → Self.Session.is_sound session → Self.Session.version_of session ≡ version → ReadEachOther Self.Session.HeaderKey.mask_of Self.Session.PacketKey.seal Self.Session.PacketKey.opening (Self.Session.initial session id Side.Client) (initial_of config version id) };

    // To each sound session of the version the tag fits the packet that it was made for.
    ghost retry_fits: { (config : Self) (session : Self.Session) (version : ℕ) (id header token : List ℕ) → supports config version ≡ true → Self.Session.is_sound session → Self.Session.version_of session ≡ version → Self.Session.fits_retry session id header (token ++ retry_tag_of config version id (header ++ token)) ≡ true };
}
