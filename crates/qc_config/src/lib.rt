//! How the two ends of a connection are set up, and what they keep from one connection to the next.

#![tactic(auto)]

mod announcement;
mod cache_laws;
mod cache_parts;
mod client;
mod config_error;
mod endpoint;
mod incoming;
mod server;
mod stateless_reset;
mod token_cache;
mod validation_token;

pub use announcement::announced;
pub use cache_laws::{cache_gives_law, cache_law};
pub use client::ClientConfig;
pub use config_error::ConfigError;
pub use endpoint::EndpointConfig;
pub use incoming::{HeaderError, IncomingToken, InvalidRetryTokenError};
pub use qc_token::{
    FixedTime, NoneTokenLog, NoneTokenStore, TimeSource, Token, TokenLog, TokenPayload,
    TokenReuseError, TokenStore,
};
pub use server::ServerConfig;
pub use stateless_reset::reset_token;
pub use token_cache::TokenMemoryCache;
pub use validation_token::ValidationTokenConfig;
