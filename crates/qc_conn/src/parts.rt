//! What a suite is made of, for contracts on what is lent of a connection.

ghost use Rattle.qc_conn.specs.Parts.{SuiteParts};

use qc_state::Suite;

/// What a suite is made of, for contracts that say what a connection is once a loan of its streams is over: each suite has it, and
/// nothing has to be written for it.
///
/// Its meaning: `parts`, the suite's types and what the calls on their values mean, as a connection's type is made of them.
pub trait Parts: Suite {
    ghost parts: { SuiteParts };
}

impl<U: Suite> Parts for U {
    ghost parts = { record {
      suite = U.row;
      session = U.Session.row;
      control = U.Control.row;
      random = U.Random.row;
      token_key = U.TokenKey.row;
      token_aead = U.TokenKey.Aead.row;
      time = U.Time.row;
      header_key = U.Session.HeaderKey.row;
      packet_key = U.Session.PacketKey.row;
      handshake_data = U.Session.HandshakeData.row;
      peer_identity = U.Session.PeerIdentity.row;
      controller = U.Control.Controller.row;
      session_calls = U.Session.Session;
      mask_calls = U.Session.HeaderKey.HeaderMask;
      packet_calls = U.Session.PacketKey.PacketKey;
      control_calls = U.Control.ControllerFactory;
      controller_calls = U.Control.Controller.Controller;
      random_calls = U.Random.Rng;
      token_calls = U.TokenKey.HandshakeTokenKey;
      aead_calls = U.TokenKey.Aead.AeadKey;
      time_calls = U.Time.TimeSource;
    } };
}
