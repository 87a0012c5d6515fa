//! The toy session: a handshake and keys with a real handshake's shape and no secrecy at all. It
//! makes a connection's behaviour visible byte by byte.
#![tactic(auto)]

mod body;
mod cipher;
mod config;
mod export;
mod header_key;
mod key_bytes;
mod keys;
mod laws;
mod messages;
mod packet_key;
mod session;
mod settings;
mod token_keys;
mod toy_keys;
mod zero_random;

pub use config::{ToyClient, ToyServer};
pub use header_key::ToyHeaderKey;
pub use key_bytes::{Level, secret_of_id};
pub use laws::{completes_behind_both, hears_in_order, one_secret_pairs};
pub use packet_key::ToyPacketKey;
pub use session::ToySession;
pub use settings::ToySettings;
pub use token_keys::{ToyAeadKey, ToyHmacKey, ToyTokenKey};
pub use toy_keys::ToyKeys;
pub use zero_random::ZeroRandom;
