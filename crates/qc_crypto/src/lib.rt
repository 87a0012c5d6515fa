//! What a QUIC connection asks of its cryptography: traits for sessions and keys, with the laws
//! that each implementation is proved to keep.
#![tactic(auto)]

mod config;
mod errors;
mod header_key;
mod key_source;
mod keys;
mod packet_key;
mod session;
mod token_keys;

pub use config::{ClientConfig, ServerConfig};
pub use errors::{
    ConnectError, CryptoError, ExportKeyingMaterialError, SessionError, UnsupportedVersion,
};
pub use header_key::HeaderKey;
pub use key_source::KeySource;
pub use keys::{KeyPair, Keys};
pub use packet_key::PacketKey;
pub use session::Session;
pub use token_keys::{AeadKey, HandshakeTokenKey, HmacKey};
