//! That a token is used once, and isn't lost.

ghost use Rattle.std.specs.Prelude.{ℕ, List};
ghost use Rattle.qc_config.specs.CacheLaws.{CacheCall, GivesInOrder, GivesKept, GivesOnce};

/// A law of a [`TokenMemoryCache`](crate::TokenMemoryCache), over any calls: a token is given at most once for
/// each time that it was put in, and under the name that it was put in with (RFC 9000, section 8.1.3). This
/// function does nothing.
#[tactic(auto, using(crate::proofs::CacheLaws::gives_once))]
pub fn cache_law()
    ensures { (names tokens : ℕ) (calls : List CacheCall) → GivesOnce names tokens calls }
{}

/// Laws of a [`TokenMemoryCache`](crate::TokenMemoryCache), over any calls: a token that was put in is given to its
/// server's name, unless as many tokens of that server as there may be, or as many other servers, pushed it out; and the
/// tokens of a server are given in the order in which they came. This function does nothing.
#[tactic(auto, using(crate::proofs::KeptTokens::gives_kept, crate::proofs::KeptTokens::gives_in_order))]
pub fn cache_gives_law()
    ensures order { (names tokens : ℕ) (name : List ℕ) (calls : List CacheCall) → GivesInOrder names tokens name calls }
    ensures kept { (names tokens : ℕ) (before : List CacheCall) (name token : List ℕ) (calls : List CacheCall) → GivesKept names tokens before name token calls }
{}
