//! Where a client keeps the tokens that servers gave it.

ghost use Rattle.std.specs.Prelude.{◌≡◌, ℕ, List, Option, None, OnOk, OnErr, IfOk};

use bytes::Bytes;
use std::alloc::AllocError;

/// Where a client keeps the tokens that servers gave it by NEW_TOKEN frames, to prove its address to
/// them at a later connection (RFC 9000, section 8.1.3).
///
/// Want of memory aside, what a call answers and leaves is a function of the store and of what is
/// passed. After want of memory the store is as before.
pub trait TokenStore: Drop {
    /// The store after a token of a server came.
    ghost inserted: { Self → List ℕ → List ℕ → Self };

    /// The token that is handed out next for a server.
    ghost taken: { Self → List ℕ → Option (List ℕ) };

    /// The store after a token was asked for.
    ghost after_take: { Self → List ℕ → Self };

    /// Keeps a token of the server.
    ///
    /// # Errors
    ///
    /// `AllocError` for want of memory.
    fn insert(&mut self, server_name: &str, token: Bytes) -> Result<(), AllocError>
        ensures ok { OnOk result (self.new ≡ inserted self.old server_name.now token) }
        ensures err { OnErr result (self.new ≡ self.old) };

    /// Takes a token of the server out of the store, if there is one; a token is to be used once.
    ///
    /// # Errors
    ///
    /// `AllocError` for want of memory.
    fn take(&mut self, server_name: &str) -> Result<Option<Bytes>, AllocError>
        ensures answer { IfOk result (λ token. token ≡ taken self.old server_name.now) }
        ensures after { OnOk result (self.new ≡ after_take self.old server_name.now) }
        ensures err { OnErr result (self.new ≡ self.old) };
}

/// A store that keeps nothing.
#[derive(Clone, Copy, Debug)]
pub struct NoneTokenStore;

impl TokenStore for NoneTokenStore {
    ghost inserted = { λ store _ _. store };

    ghost taken = { λ _ _. None };

    ghost after_take = { λ store _. store };

    fn insert(&mut self, server_name: &str, token: Bytes) -> Result<(), AllocError> {
        Ok(())
    }

    fn take(&mut self, server_name: &str) -> Result<Option<Bytes>, AllocError> {
        Ok(None)
    }
}
