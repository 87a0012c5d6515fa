//! The receiving side of a packet number space as a whole, for one who acknowledges packets without a
//! connection. The connection hasn't it: it keeps the numbers, the ACKs that are owed and the marks of a
//! space beside what it has of its packets. It counts marks by `with_mark`.
#![tactic(auto)]

mod space;

pub use space::{PacketSpace, with_mark};
