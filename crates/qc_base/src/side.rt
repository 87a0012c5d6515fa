//! Who speaks, in which direction, and with which keys.

ghost use Rattle.std.specs.Prelude.{◌≡◌, ◌↔◌, IsTrue};

/// An end of the connection (RFC 9000, section 5): the client opened it.
#[derive(Clone, Copy, Debug, PartialEq, Eq, PartialOrd, Ord)]
pub enum Side {
    /// The end that opened the connection.
    Client,
    /// The end that accepted it.
    Server,
}

impl Side {
    /// Whether this is the end that opened the connection.
    pub fn is_client(self) -> bool
        ensures { IsTrue result ↔ (self ≡ Side.Client) }
    {
        match self {
            Side::Client => true,
            Side::Server => false,
        }
    }

    /// Whether this is the end that accepted the connection.
    pub fn is_server(self) -> bool
        ensures { IsTrue result ↔ (self ≡ Side.Server) }
    {
        match self {
            Side::Client => false,
            Side::Server => true,
        }
    }
}

/// Whether a stream carries data both ways (RFC 9000, section 2.1).
#[derive(Clone, Copy, Debug, PartialEq, Eq, PartialOrd, Ord)]
pub enum Dir {
    /// Both ends send.
    Bi,
    /// Only the end that opened the stream sends.
    Uni,
}

/// A packet number space (RFC 9000, section 12.3). 0-RTT and 1-RTT packets share `Data`.
#[derive(Clone, Copy, Debug, PartialEq, Eq, PartialOrd, Ord)]
pub enum SpaceId {
    /// Initial packets.
    Initial,
    /// Handshake packets.
    Handshake,
    /// 0-RTT and 1-RTT packets.
    Data,
}

/// The types of packet with a long header that carry a number and no token (RFC 9000, section 17.2).
#[derive(Clone, Copy, Debug, PartialEq, Eq, PartialOrd, Ord)]
pub enum LongType {
    /// A Handshake packet (RFC 9000, section 17.2.4).
    Handshake,
    /// A 0-RTT packet (RFC 9000, section 17.2.3).
    ZeroRtt,
}
