//! A second session, as small as can be, that meets the laws of sessions as one of TLS does: its
//! Handshake and 1-RTT keys come of a share of each end, so that they aren't known before the peer
//! was heard, and no two sessions are called paired. It protects nothing.
#![tactic(auto)]

mod session;

pub use session::SharesSession;
