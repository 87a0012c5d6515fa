//! What a client's token says of it.

ghost use Rattle.std.specs.Prelude.{◌≡◌, ◌≤◌, ◌+◌, ◌⊎◌, ◌&&◌, not, false, Result, Ok, Err, if◌then◌else◌, IsTrue, IfOk, IfErr, OnOk, OnErr};
ghost use Rattle.std.specs.Net.Socket.{socket_ip};
ghost use Rattle.qc_config.specs.Incoming.{IsLiveToken, IsOwnToken, asks_log, incoming, is_expired, log_after, retry_row, unvalidated, validation_row};
ghost use Rattle.qc_token.specs.Tokens.{decoded};

use crate::{ServerConfig, TimeSource, Token, TokenLog, TokenPayload};
use qc_base::{ConnectionId, Duration, SystemTime};
use qc_crypto::HandshakeTokenKey;
use qc_header::InitialHeader;
use std::alloc::{AllocError, Global};
use std::net::{IpAddr, SocketAddr};

/// A token of a Retry packet isn't valid: the client can't be let in (RFC 9000, section 8.1.2).
#[derive(Clone, Copy, Debug, PartialEq, Eq)]
pub struct InvalidRetryTokenError;

/// Why a client's first header isn't taken.
#[derive(Clone, Copy, Debug, PartialEq, Eq)]
pub enum HeaderError {
    /// Its token is one of a Retry packet, and isn't valid.
    Retry(InvalidRetryTokenError),
    /// There was no memory.
    OutOfMemory,
}

impl From<AllocError> for HeaderError {
    ghost use Rattle.std.specs.Prelude.{◌≡◌};
    ghost use Rattle.qc_config.specs.declared.incoming.HeaderError.{HeaderError};

    ghost from_gives = { λ _ error. error ≡ HeaderError.OutOfMemory };

    fn from(_error: AllocError) -> HeaderError {
        HeaderError::OutOfMemory
    }
}

/// What a client's token, or the want of one, says of it.
#[derive(Clone, Copy, Debug, PartialEq, Eq)]
pub struct IncomingToken {
    /// The id that a Retry packet gave the client to send to, where it was sent one.
    pub retry_src_cid: Option<ConnectionId>,
    /// The id that the client's very first packet was sent to.
    pub orig_dst_cid: ConnectionId,
    /// Whether the client has shown that it can be reached at its address.
    pub validated: bool,
}

fn unvalidated_client(dst_cid: &ConnectionId) -> IncomingToken
    ensures { result ≡ unvalidated dst_cid.now }
{
    IncomingToken {
        retry_src_cid: None,
        orig_dst_cid: *dst_cid,
        validated: false,
    }
}

fn has_expired(issued: SystemTime, lifetime: Duration, now: SystemTime) -> bool
    ensures value { result ≡ is_expired issued lifetime now }
    ensures live { result ≡ false → now ≤ issued + lifetime }
{
    issued.plus(lifetime) < now
}

// What a token of a Retry packet says to its address, as an error or not.
fn check_retry(
    address: &SocketAddr,
    remote: &SocketAddr,
    issued: SystemTime,
    lifetime: Duration,
    now: SystemTime,
) -> bool
    ensures value { result ≡ (⟦<SocketAddr as PartialEq>⟧.eq address.now remote.now && not (is_expired issued lifetime now)) }
    ensures own { IsTrue result → address.now ≡ remote.now }
    ensures live { IsTrue result → now ≤ issued + lifetime }
{
    address == remote && !has_expired(issued, lifetime, now)
}

// Whether the log is to be asked about a Validation token.
fn check_validation(
    ip: &IpAddr,
    remote: &SocketAddr,
    issued: SystemTime,
    lifetime: Duration,
    now: SystemTime,
) -> bool
    ensures value { result ≡ (⟦<IpAddr as PartialEq>⟧.eq ip.now (socket_ip remote.now) && not (is_expired issued lifetime now)) }
    ensures own { IsTrue result → ip.now ≡ socket_ip remote.now }
    ensures live { IsTrue result → now ≤ issued + lifetime }
{
    *ip == remote.ip() && !has_expired(issued, lifetime, now)
}

impl<C: qc_crypto::ServerConfig, K: HandshakeTokenKey, T: TimeSource, L: TokenLog> ServerConfig<
    C,
    K,
    T,
    L,
> {
    ghost use Rattle.qc_config.specs.Taking.{taker_of, with_log};

    // What a token of a Retry packet brings.
    #[tactic(auto, unfolding(crate::specs::Incoming::retry_row))]
    fn take_retry(
        &self,
        address: &SocketAddr,
        orig_dst_cid: &ConnectionId,
        issued: SystemTime,
        dst_cid: &ConnectionId,
        remote: &SocketAddr,
    ) -> Result<IncomingToken, HeaderError>
        ensures value { result ≡ retry_row ⟦<SocketAddr as PartialEq>⟧.eq (taker_of T.time_of L.takes self.now) dst_cid.now remote.now address.now orig_dst_cid.now issued }
        ensures own { OnOk result (address.now ≡ remote.now) }
        ensures live { OnOk result (T.time_of self.now.time_source ≤ issued + self.now.retry_token_lifetime) }
    {
        let now = self.time_source.now();
        if check_retry(address, remote, issued, self.retry_token_lifetime, now) {
            return Ok(IncomingToken {
                retry_src_cid: Some(*dst_cid),
                orig_dst_cid: *orig_dst_cid,
                validated: true,
            });
        }
        Err(HeaderError::Retry(InvalidRetryTokenError))
    }

    // What a Validation token brings. The log is asked about one that was made for the client's IP address and
    // hasn't expired.
    #[tactic(auto, unfolding(crate::specs::Incoming::validation_row, crate::specs::Incoming::asks_log))]
    fn take_validation(
        &mut self,
        ip: &IpAddr,
        issued: SystemTime,
        nonce: u128,
        dst_cid: &ConnectionId,
        remote: &SocketAddr,
    ) -> Result<IncomingToken, AllocError>
        ensures value { IfOk result (λ t. t ≡ validation_row ⟦<IpAddr as PartialEq>⟧.eq (taker_of T.time_of L.takes self.old) dst_cid.now remote.now ip.now issued nonce) }
        ensures after { OnOk result (self.new ≡ with_log (if asks_log ⟦<IpAddr as PartialEq>⟧.eq (taker_of T.time_of L.takes self.old) remote.now ip.now issued then L.after_token self.old.validation_token.log nonce issued self.old.validation_token.lifetime else self.old.validation_token.log) self.old) }
        ensures own { IfOk result (λ t. IsTrue t.validated → ip.now ≡ socket_ip remote.now) }
        ensures live { IfOk result (λ t. IsTrue t.validated → T.time_of self.old.time_source ≤ issued + self.old.validation_token.lifetime) }
        ensures fresh { IfOk result (λ t. IsTrue t.validated → L.takes self.old.validation_token.log nonce issued self.old.validation_token.lifetime ≡ Ok tt) }
        ensures err { OnErr result (self.new ≡ self.old) }
    {
        let now = self.time_source.now();
        let lifetime = self.validation_token.get_lifetime();
        if !check_validation(ip, remote, issued, lifetime, now) {
            return Ok(unvalidated_client(dst_cid));
        }
        if self.validation_token.use_token(nonce, issued)? {
            return Ok(IncomingToken {
                retry_src_cid: None,
                orig_dst_cid: *dst_cid,
                validated: true,
            });
        }
        Ok(unvalidated_client(dst_cid))
    }
}

impl IncomingToken {
    ghost use Rattle.qc_config.specs.Taking.{taker_of, with_log};
    ghost use Rattle.qc_config.specs.declared.incoming.HeaderError.{HeaderError};

    /// What the token of a client's first packet says of it. `remote_address` is where the packet came from.
    ///
    /// - No token, or bytes that this server's key doesn't open to one: nothing.
    /// - A token of a Retry packet for this address that hasn't expired: the client can be reached, and first
    ///   sent to the id that the token names.
    /// - A Validation token for this IP address that hasn't expired, and that the log takes: the client can be
    ///   reached. A token is valid up to and at its time of issue plus its lifetime. The log is asked last.
    ///
    /// # Errors
    ///
    /// `Retry` exactly where the token is one of a Retry packet for another address (port, flow label and scope
    /// included), or has expired. `OutOfMemory` for want of memory. The configuration is then as before.
    #[tactic(auto, unfolding(crate::specs::Incoming::incoming, crate::specs::Incoming::log_after, crate::specs::Incoming::IsOwnToken, crate::specs::Incoming::IsLiveToken))]
    pub fn from_header<
        C: qc_crypto::ServerConfig,
        K: HandshakeTokenKey,
        T: TimeSource,
        L: TokenLog,
    >(
        alloc: Global,
        header: &InitialHeader,
        server_config: &mut ServerConfig<C, K, T, L>,
        remote_address: SocketAddr,
    ) -> Result<IncomingToken, HeaderError>
        ensures ok { IfOk result (λ t. incoming ⟦<SocketAddr as PartialEq>⟧.eq ⟦<IpAddr as PartialEq>⟧.eq (taker_of T.time_of L.takes server_config.old) header.now.dst_cid remote_address (decoded K.Aead.opened (K.derived server_config.old.token_key) header.now.token) ≡ Ok t) }
        ensures error { IfErr result (λ e. (e ≡ HeaderError.OutOfMemory) ⊎ (incoming ⟦<SocketAddr as PartialEq>⟧.eq ⟦<IpAddr as PartialEq>⟧.eq (taker_of T.time_of L.takes server_config.old) header.now.dst_cid remote_address (decoded K.Aead.opened (K.derived server_config.old.token_key) header.now.token) ≡ Err e)) }
        ensures log { OnOk result (server_config.new ≡ with_log (log_after ⟦<IpAddr as PartialEq>⟧.eq (taker_of T.time_of L.takes server_config.old) L.after_token server_config.old.validation_token.log remote_address (decoded K.Aead.opened (K.derived server_config.old.token_key) header.now.token)) server_config.old) }
        ensures own { IfOk result (λ t. IsTrue t.validated → IsOwnToken remote_address (decoded K.Aead.opened (K.derived server_config.old.token_key) header.now.token)) }
        ensures live { IfOk result (λ t. IsTrue t.validated → IsLiveToken (taker_of T.time_of L.takes server_config.old) (decoded K.Aead.opened (K.derived server_config.old.token_key) header.now.token)) }
        ensures err { OnErr result (server_config.new ≡ server_config.old) }
    {
        let Some(token) = Token::decode(alloc, &server_config.token_key, header.token.as_slice())?
        else {
            return Ok(unvalidated_client(&header.dst_cid));
        };
        match &token.payload {
            TokenPayload::Retry {
                address,
                orig_dst_cid,
                issued,
            } => server_config.take_retry(
                address,
                orig_dst_cid,
                *issued,
                &header.dst_cid,
                &remote_address,
            ),
            TokenPayload::Validation { ip, issued } => Ok(server_config.take_validation(
                ip,
                *issued,
                token.nonce,
                &header.dst_cid,
                &remote_address,
            )?),
        }
    }
}
