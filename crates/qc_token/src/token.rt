//! Tokens.

ghost use Rattle.std.specs.Prelude.{◌≡◌};
ghost use Rattle.qc_token.specs.TokenSpelling.{ip_len, token_len};

use qc_base::{ConnectionId, SystemTime};
use std::net::{IpAddr, SocketAddr};

/// What a token says, to the server that made it alone.
#[derive(Clone, Copy, PartialEq, Eq)]
pub enum TokenPayload {
    /// A token of a Retry packet (RFC 9000, section 8.1.2).
    Retry {
        /// The client's address.
        address: SocketAddr,
        /// The id that the client's first packet was sent to.
        orig_dst_cid: ConnectionId,
        /// When the token was issued.
        issued: SystemTime,
    },
    /// A token of a NEW_TOKEN frame (RFC 9000, section 8.1.3).
    Validation {
        /// The client's IP address; its port may be another one at its next connection.
        ip: IpAddr,
        /// When the token was issued.
        issued: SystemTime,
    },
}

fn ip_len(ip: &IpAddr) -> usize
    ensures { result ≡ ip_len ip.now }
{
    match ip {
        IpAddr::V4(_) => 5,
        IpAddr::V6(_) => 17,
    }
}

impl TokenPayload {
    /// How many bytes a token has that says this, whatever its nonce and the key that seals it
    /// ([`Token::encode`]).
    #[tactic(auto, unfolding(crate::specs::TokenSpelling::token_len))]
    pub fn encoded_len(&self) -> usize
        ensures { result ≡ token_len self.now }
    {
        match self {
            TokenPayload::Retry {
                address,
                orig_dst_cid,
                ..
            } => ip_len(&address.ip()) + orig_dst_cid.len() + 44,
            TokenPayload::Validation { ip, .. } => ip_len(ip) + 41,
        }
    }
}

/// A token, and the number that its key is made of.
#[derive(Clone, Copy, PartialEq, Eq)]
pub struct Token {
    /// What it says.
    pub payload: TokenPayload,
    /// A random number, which the client sees. No two tokens are to have the same one.
    pub nonce: u128,
}
