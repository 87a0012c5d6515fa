//! The state of a connection.

use qc_crypto::Session;
use qc_path::ControllerFactory;
use qc_state::{
    Issuer, KeyGroup, Life, Lower, Numbers, Paths, Setup, SoundSession, Suite, Timers, Waiting,
};
use std::marker::Model;

/// A connection without its mark of want of memory. Contracts see the nine groups of its view.
#[derive(Drop)]
pub struct Core<U: Suite> {
    /// The packet numbers of the three spaces.
    pub numbers: Numbers,
    /// The keys of the three spaces.
    pub keys: KeyGroup<<U::Session as Session>::HeaderKey, <U::Session as Session>::PacketKey>,
    /// How far the connection has come, and why it ended.
    pub life: Life,
    /// The path that packets go by.
    pub paths: Paths<<U::Control as ControllerFactory>::Controller>,
    /// The timers, and the greatest time that was told.
    pub timers: Timers,
    /// What waits to be sent.
    pub waiting: Waiting,
    /// What the connection was made of.
    pub setup: Setup<U::Random>,
    /// The session, and loss recovery.
    pub lower: Lower<SoundSession<U::Session>>,
    /// On a server what makes the tokens that it sends its client (RFC 9000, 8.1.3); none on a client.
    pub issuer: Option<Issuer<U::TokenKey, U::Time>>,
}

impl<U: Suite> Model for Core<U> {
    ghost use Rattle.qc_state.specs.View.{Held};

    ghost Value = { Held (record { S = U.Session; H = U.Session.HeaderKey; P = U.Session.PacketKey; D = U.Session.HandshakeData; I = U.Session.PeerIdentity; C = U.Control.Controller; K = U.TokenKey; T = U.Time }) U.Random };

    ghost view = { λ c. record {
      numbers = c.numbers;
      keys = c.keys;
      life = c.life;
      paths = c.paths;
      timers = c.timers;
      waiting = c.waiting;
      setup = c.setup;
      lower = c.lower;
      issuer = c.issuer;
    } };
}
