//! The transport parameters of QUIC (RFC 9000, section 18): what each end tells the other about
//! itself in its handshake, their bytes, and what follows from them.

#![tactic(auto)]

mod address;
mod entries;
mod error;
mod laws;
mod limits;
mod octets;
mod parameter_ids;
mod params;
mod read;
mod values;
mod write;

pub use error::ParamError;
pub use laws::{entries_are_read, parameters_written_are_read};
pub use params::{PreferredAddress, TransportParameters};
