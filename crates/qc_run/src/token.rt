//! The token that a script's client has.

ghost use Rattle.std.specs.Prelude.{◌≡◌, IfOk};

use bytes::Bytes;
use qc_config::TokenStore;
use qc_state::Body;
use std::alloc::{AllocError, Global};

/// A store of one token, which it gives for any server's name.
#[derive(Drop)]
pub struct OneToken {
    token: Option<Bytes>,
}

impl OneToken {
    /// A store of this token, or an empty one. Want of memory is the only error.
    pub fn new(alloc: Global, token: &Option<Body>) -> Result<OneToken, AllocError>
        ensures { IfOk result (λ store. store.token ≡ token.now) }
    {
        match token {
            None => Ok(OneToken { token: None }),
            Some(bytes) => {
                let token = Bytes::copy_from_slice(alloc, bytes.as_slice())?;
                Ok(OneToken { token: Some(token) })
            }
        }
    }
}

impl TokenStore for OneToken {
    ghost use Rattle.std.specs.Prelude.{None, Some};

    ghost inserted = { λ _ _ token. record { token = Some token } };

    ghost taken = { λ store _. store.token };

    ghost after_take = { λ _ _. record { token = None } };

    fn insert(&mut self, server_name: &str, token: Bytes) -> Result<(), AllocError> {
        self.token = Some(token);
        Ok(())
    }

    fn take(&mut self, server_name: &str) -> Result<Option<Bytes>, AllocError> {
        Ok(self.token.take())
    }
}
