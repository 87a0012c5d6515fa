//! The tokens by which a client shows that it can be reached at its address (RFC 9000, section 8.1), and where each end keeps
//! what it knows of them.
#![tactic(auto)]

mod coding;
mod laws;
mod reading;
mod time_source;
mod token;
mod token_log;
mod token_store;
mod writing;

pub use laws::token_laws;
pub use time_source::{FixedTime, TimeSource};
pub use token::{Token, TokenPayload};
pub use token_log::{NoneTokenLog, TokenLog, TokenReuseError};
pub use token_store::{NoneTokenStore, TokenStore};
