//! The types that a connection stands on.

ghost use Rattle.qc_state.specs.Tokens.{token_with};
ghost use Rattle.qc_state.specs.Types.{Types, Meaning, meaning as meaning_of};

use qc_crypto::{HandshakeTokenKey, Session};
use qc_path::ControllerFactory;
use qc_token::TimeSource;
use rand_core::Rng;

/// The types that a connection is generic in. Every session that keeps the laws of its trait can stand here.
pub trait Suite {
    /// The cryptographic handshake.
    type Session: Session;

    /// What makes the congestion controllers (RFC 9002, 7).
    type Control: ControllerFactory + Drop;

    /// The source of random words.
    type Random: Rng + Drop;

    /// The key of a server's tokens (RFC 9000, 8.1.4).
    type TokenKey: HandshakeTokenKey;

    /// The time of the calendar, at which a server's tokens are issued.
    type Time: TimeSource;
}

/// What a suite means, for contracts: each suite has it, and nothing has to be written for it.
///
/// Its meanings: `types`, the types that contracts see values of, and `meaning`, what the calls on such values answer and leave.
pub trait Means: Suite {
    ghost types: { Types };

    ghost meaning: { Meaning types };
}

impl<U: Suite> Means for U {
    ghost types = { record { S = U.Session; H = U.Session.HeaderKey; P = U.Session.PacketKey; D = U.Session.HandshakeData; I = U.Session.PeerIdentity; C = U.Control.Controller; K = U.TokenKey; T = U.Time } };

    ghost meaning = { meaning_of U.Session.Session U.Session.HeaderKey.HeaderMask U.Session.PacketKey.PacketKey U.Control.Controller.Controller (token_with U.TokenKey.Aead.sealed U.TokenKey.derived U.Time.time_of) };
}
