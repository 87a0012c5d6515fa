//! The tokens that a server sends its client for its later connections (RFC 9000, 8.1.3).

ghost use Rattle.std.specs.Prelude.{◌≡◌, ◌+◌, ◌≤◌, false, length, Some, IfOk, OnOk};
ghost use Rattle.qc_token.specs.TokenSpelling.{ip_len};
ghost use Rattle.qc_state.specs.Draws.{behind_nonce, nonce};
ghost use Rattle.qc_state.specs.Offers.{tokens_wait};
ghost use Rattle.qc_state.specs.Taking.{TakesTokens};
ghost use Rattle.qc_state.specs.Tokens.{asked_tokens, first_tokens, made_by, token_with};

use crate::deeds::Verdict;
use crate::transmit::SPARE_ROOM;
use crate::waiting::SpaceWaiting;
use bytes::Bytes;
use qc_base::SpaceId;
use qc_crypto::HandshakeTokenKey;
use qc_frame::{FrameList, FrameOf};
use qc_token::{TimeSource, Token, TokenPayload};
use rand_core::Rng;
use std::alloc::{AllocError, Global};
use std::net::IpAddr;

/// What a server makes tokens of.
#[derive(Drop)]
pub struct Issuer<K, T> {
    /// The master key, of which the keys of single tokens are derived.
    pub key: K,
    /// Where the time of issue comes from.
    pub time: T,
    /// How many tokens a client is sent once its address is validated.
    pub sent: u32,
}

/// How many bytes a token for an address has: what it says, a tag and a nonce of 16 bytes each.
fn token_len(ip: &IpAddr) -> usize
    ensures value { result ≡ ip_len ip.now + 41 }
    ensures most { result ≤ 58 }
{
    match ip {
        IpAddr::V4(_) => 46,
        IpAddr::V6(_) => 58,
    }
}

/// So many tokens are asked for anew, where that is to be: as a server accepts a Handshake packet.
pub fn asked_tokens<K: HandshakeTokenKey, T: TimeSource>(
    space: SpaceId,
    verdict: Verdict,
    issuer: &Option<Issuer<K, T>>,
) -> Option<u64>
    ensures { result ≡ asked_tokens space verdict issuer.now }
{
    match (space, verdict, issuer) {
        (SpaceId::Handshake, Verdict::Admitted, Some(issuer)) => Some(u64::from(issuer.sent)),
        _ => None,
    }
}

impl<K: HandshakeTokenKey, T: TimeSource> Issuer<K, T> {
    /// How many tokens wait of a server that was just made: some where the client's address is validated already.
    pub fn first_tokens(&self, validated: bool) -> u64
        ensures { result ≡ first_tokens validated self.now }
    {
        if validated {
            return u64::from(self.sent);
        }
        0
    }

    /// The bytes of a token for an address, with a nonce that is drawn. Want of memory is the only refusal.
    #[tactic(auto, unfolding(qc_token::specs::TokenSpelling::token_len), using(crate::proofs::TokensTaken::token_made))]
    fn token<R: Rng>(
        &self,
        alloc: Global,
        ip: IpAddr,
        random: &mut R,
    ) -> Result<Vec<u8>, AllocError>
        ensures token { IfOk result (λ token. token.items ≡ token_with K.Aead.sealed K.derived T.time_of self.now.key self.now.time ip (nonce (R.stream random.old))) }
        ensures size { IfOk result (λ token. length token.items ≡ ip_len ip + 41) }
        ensures drawn { OnOk result (R.stream random.new ≡ behind_nonce (R.stream random.old)) }
    {
        let payload = TokenPayload::Validation {
            ip,
            issued: self.time.now(),
        };
        Token::new(payload, random).encode(alloc, &self.key)
    }

    /// A token for an address, with a nonce that is drawn. Want of memory is the only refusal.
    fn issue<R: Rng>(&self, alloc: Global, ip: IpAddr, random: &mut R) -> Result<Bytes, AllocError>
        ensures token { IfOk result (λ token. token ≡ token_with K.Aead.sealed K.derived T.time_of self.now.key self.now.time ip (nonce (R.stream random.old))) }
        ensures size { IfOk result (λ token. length token ≡ ip_len ip + 41) }
        ensures drawn { OnOk result (R.stream random.new ≡ behind_nonce (R.stream random.old)) }
    {
        let token = self.token(alloc, ip, random)?;
        Ok(Bytes::from_vec(token)?)
    }
}

/// Takes NEW_TOKENs with tokens that this makes for an address, as many as wait and fit, and answers how much of the room they leave. Want of
/// memory is the only refusal.
fn take_issued<K: HandshakeTokenKey, T: TimeSource, R: Rng>(
    space: &mut SpaceWaiting,
    issuer: &Issuer<K, T>,
    ip: IpAddr,
    random: &mut R,
    alloc: Global,
    room: usize,
    frames: &mut FrameList,
) -> Result<usize, AllocError>
    ensures takes { IfOk result (λ left. TakesTokens (Some (token_with K.Aead.sealed K.derived T.time_of issuer.now.key issuer.now.time)) ip room space.old space.new (R.stream random.old) (R.stream random.new) frames.old frames.new left) }
    ensures full { IfOk result (λ left. SPARE_ROOM ≤ left → tokens_wait space.new ≡ false) }
{
    let size = 2 + token_len(&ip);
    let mut left = room;
    while left >= size {
        if space.tokens == 0 {
            return Ok(left);
        }
        let token = issuer.issue(alloc, ip, random)?;
        frames.push(FrameOf::NewToken { token })?;
        space.tokens -= 1;
        left -= size;
    }
    Ok(left)
}

/// Takes NEW_TOKENs, as many as wait and fit, and answers how much of the room they leave. Want of memory is the only refusal: where nothing
/// makes tokens, none waits.
#[tactic(auto, using(crate::proofs::TokensTaken::takes_no_token))]
pub(crate) fn take_tokens<K: HandshakeTokenKey, T: TimeSource, R: Rng>(
    space: &mut SpaceWaiting,
    issuer: &Option<Issuer<K, T>>,
    ip: IpAddr,
    random: &mut R,
    alloc: Global,
    room: usize,
    frames: &mut FrameList,
) -> Result<usize, AllocError>
    ensures takes { IfOk result (λ left. TakesTokens (made_by (token_with K.Aead.sealed K.derived T.time_of) issuer.now) ip room space.old space.new (R.stream random.old) (R.stream random.new) frames.old frames.new left) }
    ensures full { IfOk result (λ left. SPARE_ROOM ≤ left → tokens_wait space.new ≡ false) }
{
    match issuer {
        Some(issuer) => take_issued(space, issuer, ip, random, alloc, room, frames),
        None => {
            if space.tokens != 0 {
                return Err(AllocError);
            }
            Ok(room)
        }
    }
}
