//! The connection ids of both ends of a connection (RFC 9000, section 5.1): the peer's, of which one is in use, those
//! that this end issued, and what of both waits to be told in NEW_CONNECTION_ID and RETIRE_CONNECTION_ID frames
//! (sections 19.15 and 19.16).
#![tactic(auto)]

mod connection_ids;
mod giving;
mod issued_list;
mod laws;
mod numbers;
mod taking;

pub use connection_ids::ConnectionIds;
pub use giving::GiveRefusal;
pub use issued_list::IssuedList;
pub use laws::{id_laws, telling_laws};
pub use numbers::NumberList;
pub use taking::NewTaken;
