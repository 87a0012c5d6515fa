//! Connection ids (RFC 9000, section 5.1) and stateless reset tokens (section 10.3).

ghost use Rattle.std.specs.Prelude.{◌≡◌, ◌≤◌, ◌==◌, length, nat_eq, Some};
ghost use Rattle.std.specs.Cmp.Lexicographic.{pointwise, nat_list_eq_equiv};
ghost use Rattle.std.specs.Cmp.{partial_equiv_from_equiv};
ghost use Rattle.std.specs.Cmp.Rules.{hashing};
ghost use Rattle.std.specs.Hash as fed;
ghost use Rattle.std.proofs.Common.{rules};
ghost use Rattle.qc_base.specs.ResetToken.{byte_text, token_text};

use crate::constant_time;
use std::fmt;
use std::hash::{Hash, Hasher};
use std::marker::Model;
use std::ops::Deref;

/// A connection id: at most 20 bytes.
#[derive(Clone, Copy, Debug, PartialEq, Eq, Hash)]
pub struct ConnectionId {
    len: u8,
    bytes: [u8; 20],
}

impl Model for ConnectionId {
    ghost use Rattle.std.specs.Prelude.{ℕ, List, take};

    ghost Value = { List ℕ };

    ghost use Rattle.qc_base.specs.ConnectionId.{IsPadded, padded, padded-take};

    ghost view = { λ id. take id.len id.bytes };

    ghost invariant = { IsPadded };

    ghost inverse = { padded };

    ghost inverse_ok = { padded-take };
}

impl ConnectionId {
    /// The id with these bytes, at most 20.
    pub fn new(bytes: &[u8]) -> ConnectionId
        requires { length bytes.now ≤ 20 }
        ensures { result ≡ bytes.now }
    {
        let len = bytes.len();
        let mut padded = [0; 20];
        padded[..len].copy_from_slice(bytes);
        ConnectionId {
            len: len as u8,
            bytes: padded,
        }
    }

    /// Its bytes.
    pub fn as_slice(&self) -> &[u8]
        ensures value { result.now ≡ self.now }
        ensures fits { length self.now ≤ 20 }
    {
        &self.bytes[..self.len as usize]
    }

    /// How many bytes it has.
    pub fn len(&self) -> usize
        ensures value { result ≡ length self.now }
        ensures fits { result ≤ 20 }
    {
        self.len as usize
    }

    /// Whether it has no byte.
    pub fn is_empty(&self) -> bool
        ensures { result ≡ (length self.now == 0) }
    {
        self.len == 0
    }
}

/// A stateless reset token (RFC 9000, section 10.3): 16 secret bytes that go with a connection id.
#[derive(Clone, Copy, Debug)]
pub struct ResetToken([u8; 16]);

impl Model for ResetToken {
    ghost use Rattle.std.specs.Prelude.{◌≡◌, ℕ, List, length};

    ghost Value = { List ℕ };

    ghost view = { λ token. token.0 };

    ghost invariant = { λ token. length token.0 ≡ 16 };

    ghost inverse = { λ bytes. record { 0 = bytes } };
}

impl ResetToken {
    /// The token with these 16 bytes.
    pub fn new(bytes: &[u8]) -> ResetToken
        requires { length bytes.now ≡ 16 }
        ensures { result ≡ bytes.now }
    {
        let mut token = [0; 16];
        token.copy_from_slice(bytes);
        ResetToken(token)
    }
}

impl From<[u8; 16]> for ResetToken {
    ghost from_gives = { λ bytes token. token ≡ bytes };

    fn from(value: [u8; 16]) -> ResetToken {
        ResetToken(value)
    }
}

impl Deref for ResetToken {
    type Target = [u8; 16];

    ghost deref_gives = { λ token bytes. bytes ≡ token };

    fn deref(&self) -> &[u8; 16] {
        &self.0
    }
}

impl PartialEq for ResetToken {
    ghost eq = { pointwise nat_eq };

    ghost laws = { partial_equiv_from_equiv nat_list_eq_equiv };

    fn eq(&self, other: &ResetToken) -> bool {
        constant_time::eq(&self.0, &other.0)
    }
}

impl Eq for ResetToken {
    ghost laws = { nat_list_eq_equiv };
}

impl Hash for ResetToken {
    ghost hash_input = { fed.slice fed.u8 };

    ghost respects_eq = { Prim.search (hashing, rules) };

    fn hash<H: Hasher>(&self, state: &mut H) {
        self.0.as_slice().hash(state);
    }
}

/// A byte that is printed as two lower hexadecimal digits.
#[derive(Drop)]
struct HexByte(u8);

impl fmt::Display for HexByte {
    ghost output = { λ byte. Some (byte_text byte.0) };

    #[tactic(auto, using(std::proofs::lemmas::Fmt::hex_byte))]
    fn fmt<W: fmt::Write>(&self, f: &mut fmt::Formatter<W>) -> fmt::Result {
        let byte = self.0;
        write!(f, "{byte:02x}")
    }
}

impl fmt::Display for ResetToken {
    ghost output = { λ token. Some (token_text token) };

    fn fmt<W: fmt::Write>(&self, f: &mut fmt::Formatter<W>) -> fmt::Result {
        for byte in &self.0 {
            let byte = HexByte(*byte);
            write!(f, "{byte}")?;
        }
        Ok(())
    }
}

/// A connection id that this end issued to its peer (RFC 9000, section 19.15).
#[derive(Clone, Copy, Debug, PartialEq, Eq)]
pub struct IssuedCid {
    /// The number that the id was issued under.
    pub sequence: u64,
    /// The id.
    pub id: ConnectionId,
    /// The token that resets a connection which uses the id.
    pub reset_token: ResetToken,
}
