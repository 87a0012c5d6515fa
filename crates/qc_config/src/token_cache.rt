//! A store of tokens in memory.

ghost use Rattle.std.specs.Prelude.{◌≡◌, ◌<◌, IfOk, OnOk, OnErr};
ghost use Rattle.lru.specs.LruCache.{lru_cache};
ghost use Rattle.qc_config.specs.TokenCache.{cache_after_take, cache_inserted, cache_taken, empty_cache, entries_with, entries_without, oldest_of, room_of};
ghost use Rattle.std.specs.NonZero.{non_zero_usize_get};

use crate::TokenStore;
use crate::cache_parts::{ServerName, TokenQueue};
use bytes::Bytes;
use lru::LruCache;
use std::alloc::{AllocError, Global};
use std::marker::Model;
use std::num::NonZeroUsize;

/// A store that keeps the last tokens of the servers that were last spoken to.
#[derive(Drop)]
pub struct TokenMemoryCache {
    names: LruCache<ServerName, TokenQueue>,
    max_server_names: u32,
    max_tokens_per_server: usize,
    alloc: Global,
}

impl Model for TokenMemoryCache {
    ghost use Rattle.std.specs.Prelude.{◌≡◌};
    ghost use Rattle.qc_config.specs.TokenCache.{CacheValues, HaveTokens, room_of};

    ghost Value = { CacheValues };

    ghost view = { λ c. record { max_server_names = c.max_server_names; max_tokens_per_server = c.max_tokens_per_server; entries = c.names.entries } };

    ghost invariant = { λ c. (c.names.cap ≡ room_of c.max_server_names) × HaveTokens c.max_tokens_per_server c.names.entries };
}

fn room_for(names: u32) -> NonZeroUsize
    ensures { non_zero_usize_get result ≡ room_of names }
{
    match NonZeroUsize::new(names as usize) {
        Some(names) => names,
        None => NonZeroUsize::MIN,
    }
}

impl TokenMemoryCache {
    /// An empty cache for so many servers, with so many tokens each. Where one of the two is 0, it keeps nothing.
    ///
    /// # Errors
    ///
    /// Where there was no memory.
    pub fn new(
        alloc: Global,
        max_server_names: u32,
        max_tokens_per_server: usize,
    ) -> Result<Self, AllocError>
        ensures { IfOk result (λ c. c ≡ empty_cache max_server_names max_tokens_per_server) }
    {
        let names = LruCache::sparse(alloc, room_for(max_server_names))?;
        Ok(TokenMemoryCache {
            names,
            max_server_names,
            max_tokens_per_server,
            alloc,
        })
    }

    /// An empty cache for 256 servers, with 2 tokens each.
    ///
    /// # Errors
    ///
    /// Where there was no memory.
    pub fn with_defaults(alloc: Global) -> Result<Self, AllocError>
        ensures { IfOk result (λ c. c ≡ empty_cache 256 2) }
    {
        TokenMemoryCache::new(alloc, 256, 2)
    }
}

// Puts a token into a cache that has room for some.
fn put_token(
    names: &mut LruCache<ServerName, TokenQueue>,
    alloc: Global,
    name: ServerName,
    token: Bytes,
    most: usize,
) -> Result<(), AllocError>
    requires { 0 < most }
    ensures ok { OnOk result (names.new ≡ lru_cache (entries_with names.old.cap most name token names.old.entries) names.old.cap) }
    ensures err { OnErr result (names.new ≡ names.old) }
{
    if let Some(queue) = names.peek_mut(&name) {
        match queue.push(token, most) {
            Ok(()) => {}
            Err(error) => return Err(error),
        }
        names.promote(&name);
        return Ok(());
    }
    let queue = TokenQueue::one(alloc, token)?;
    names.put(name, queue)?;
    Ok(())
}

// Takes the oldest token of a name.
fn take_token(names: &mut LruCache<ServerName, TokenQueue>, name: &ServerName) -> Option<Bytes>
    ensures token { result ≡ oldest_of name.now names.old.entries }
    ensures after { names.new ≡ lru_cache (entries_without name.now names.old.entries) names.old.cap }
{
    if let Some(queue) = names.peek_mut(name) {
        let is_last = queue.len() <= 1;
        let token = queue.pop();
        if is_last {
            names.pop(name);
            return token;
        }
        names.promote(name);
        return token;
    }
    None
}

impl TokenStore for TokenMemoryCache {
    ghost use Rattle.qc_config.specs.TokenCache.{cache_after_take, cache_inserted, cache_taken};

    ghost inserted = { cache_inserted };

    ghost taken = { cache_taken };

    ghost after_take = { cache_after_take };

    /// Puts the token at the end of the server's queue, whose oldest token is dropped where it is full, and
    /// brings the server to the front. A new server drops the one that was longest not used where there are as
    /// many as there may be.
    #[tactic(auto, using(crate::proofs::CacheEntries::with_tokens), unfolding(crate::specs::TokenCache::cache_inserted))]
    fn insert(&mut self, server_name: &str, token: Bytes) -> Result<(), AllocError> {
        if self.max_server_names == 0 || self.max_tokens_per_server == 0 {
            return Ok(());
        }
        let name = ServerName::from_str(self.alloc, server_name)?;
        put_token(
            &mut self.names,
            self.alloc,
            name,
            token,
            self.max_tokens_per_server,
        )
    }

    /// Takes the server's oldest token, and brings the server to the front; a server without a token goes.
    #[tactic(auto, using(crate::proofs::CacheEntries::without_tokens), unfolding(crate::specs::TokenCache::cache_taken, crate::specs::TokenCache::cache_after_take))]
    fn take(&mut self, server_name: &str) -> Result<Option<Bytes>, AllocError> {
        let name = ServerName::from_str(self.alloc, server_name)?;
        Ok(take_token(&mut self.names, &name))
    }
}
