//! The names of a token cache, and the queues of tokens.

ghost use Rattle.std.specs.Prelude.{◌≡◌, [], ◌∷◌, ◌<◌, ◌++◌, length, drop, nat_eq, nat_le, slice_get, IfOk, OnOk, OnErr};
ghost use Rattle.std.specs.Cmp.Lexicographic.{pointwise, nat_list_eq_equiv};
ghost use Rattle.std.specs.Cmp.{partial_equiv_from_equiv};
ghost use Rattle.std.specs.Cmp.Rules.{hashing};
ghost use Rattle.std.specs.Hash as fed;
ghost use Rattle.std.proofs.Common.{rules};
ghost use Rattle.qc_config.specs.TokenCache.{pushed};

use bytes::Bytes;
use std::alloc::{AllocError, Global};
use std::collections::VecDeque;
use std::hash::{Hash, Hasher};
use std::marker::Model;

// The name of a server, by its bytes.
#[derive(Drop)]
pub(crate) struct ServerName {
    bytes: Vec<u8>,
}

impl Model for ServerName {
    ghost use Rattle.std.specs.Prelude.{List, ℕ};

    ghost Value = { List ℕ };

    ghost view = { λ n. n.bytes.items };
}

impl ServerName {
    pub(crate) fn from_str(alloc: Global, name: &str) -> Result<ServerName, AllocError>
        ensures { IfOk result (λ n. n ≡ name.now) }
    {
        let bytes = Vec::from_slice(alloc, name.as_bytes())?;
        Ok(ServerName { bytes })
    }
}

impl PartialEq for ServerName {
    ghost eq = { pointwise nat_eq };

    ghost laws = { partial_equiv_from_equiv nat_list_eq_equiv };

    fn eq(&self, other: &ServerName) -> bool {
        self.bytes.as_slice() == other.bytes.as_slice()
    }
}

impl Eq for ServerName {
    ghost laws = { nat_list_eq_equiv };
}

impl Hash for ServerName {
    ghost hash_input = { fed.slice fed.u8 };

    ghost respects_eq = { Prim.search (hashing, rules) };

    fn hash<H: Hasher>(&self, state: &mut H) {
        self.bytes.as_slice().hash(state);
    }
}

// The tokens of one server, the oldest first.
#[derive(Drop)]
pub(crate) struct TokenQueue {
    tokens: VecDeque<Bytes>,
}

impl Model for TokenQueue {
    ghost use Rattle.std.specs.Prelude.{List, ℕ};

    ghost Value = { List (List ℕ) };

    ghost view = { λ q. q.tokens.items };
}

impl TokenQueue {
    // One token.
    pub(crate) fn one(alloc: Global, token: Bytes) -> Result<TokenQueue, AllocError>
        ensures { IfOk result (λ q. q ≡ token ∷ []) }
    {
        let mut tokens = VecDeque::with_capacity(alloc, 1)?;
        tokens.push_back_reserved(token);
        Ok(TokenQueue { tokens })
    }

    // How many tokens it has.
    pub(crate) fn len(&self) -> usize
        ensures { result ≡ length self.now }
    {
        self.tokens.len()
    }

    // Puts a token at the end; a full queue drops its oldest one.
    #[tactic(auto, unfolding(crate::specs::TokenCache::pushed))]
    pub(crate) fn push(&mut self, token: Bytes, most: usize) -> Result<(), AllocError>
        requires { 0 < most }
        ensures ok { OnOk result (self.new ≡ pushed most token self.old) }
        ensures err { OnErr result (self.new ≡ self.old) }
    {
        if self.tokens.len() < most {
            self.tokens.push_back(token)?;
            return Ok(());
        }
        let _oldest = self.tokens.pop_front();
        self.tokens.push_back_reserved(token);
        Ok(())
    }

    // Takes the oldest token out.
    pub(crate) fn pop(&mut self) -> Option<Bytes>
        ensures token { result ≡ slice_get self.old 0 }
        ensures rest { self.new ≡ drop 1 self.old }
    {
        self.tokens.pop_front()
    }
}
