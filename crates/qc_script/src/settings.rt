//! What the set lines of a script say.

ghost use Rattle.qc_script.specs.Items.{setting_place, side_alone, with_setting};
ghost use Rattle.std.specs.Prelude.{◌≡◌};

use qc_base::{ConnectionId, Instant, Side, VarInt};
use qc_state::Body;
use std::net::SocketAddr;

/// Where random words come from.
#[derive(Clone, Copy, Debug, PartialEq, Eq)]
pub enum RandomWords {
    /// From zeros alone.
    Zeros,
    /// From ChaCha20 with this seed.
    Seed([u8; 32]),
}

/// What the set lines of a script say: which end this one is, and each value for which there is a line.
#[derive(Drop)]
pub struct Settings {
    /// This end's side.
    pub side: Side,
    /// Where random words come from.
    pub random: Option<RandomWords>,
    /// When the connection is made.
    pub time: Option<Instant>,
    /// This end's id.
    pub local: Option<ConnectionId>,
    /// On a client the destination id of its first packets, of 8 bytes at least (RFC 9000, 7.2); on a server the client's id.
    pub remote: Option<ConnectionId>,
    /// On a server the destination id of the client's first packets; none on a client.
    pub first: Option<ConnectionId>,
    /// On a server the destination id of the client's packets before its Retry; none on a client.
    pub orig: Option<ConnectionId>,
    /// On a server the source id of its Retry (RFC 9000, 17.2.5); none on a client.
    pub retry: Option<ConnectionId>,
    /// The peer's address.
    pub addr: Option<SocketAddr>,
    /// On a server whether the peer's address is validated (RFC 9000, 8.1); none on a client.
    pub validated: Option<bool>,
    /// On a client the token that its Initial packets carry (RFC 9000, 8.1); none on a server.
    pub token: Option<Body>,
    /// The secret of the toy's keys.
    pub secret: Option<[u8; 5]>,
    /// How many packets an Initial key may seal.
    pub limit_initial: Option<u64>,
    /// How many packets a Handshake key may seal.
    pub limit_handshake: Option<u64>,
    /// How many packets a 1-RTT key may seal.
    pub limit_data: Option<u64>,
    /// How many packets may fail to open (RFC 9001, 6.6).
    pub limit_failures: Option<u64>,
    /// This end's limit on idle time in milliseconds; 0 is none (RFC 9000, 10.1).
    pub idle: Option<VarInt>,
    /// Whether larger datagrams are looked for (RFC 9000, 14.3).
    pub mtud: Option<bool>,
    /// Whether the datagrams of a transmit may stand behind each other; where they may not, a transmit has at most one.
    pub gso: Option<bool>,
    /// On a server how many tokens it sends its client for later connections (RFC 9000, 8.1.3); none on a client.
    pub sent: Option<u32>,
    /// On a server the time of its clock in seconds since the start of 1970; none on a client.
    pub clock: Option<u64>,
}

/// What one set line behind the first says.
#[derive(Drop)]
pub enum Setting {
    /// Where random words come from.
    Random(RandomWords),
    /// When the connection is made.
    Time(Instant),
    /// This end's id.
    Local(ConnectionId),
    /// What `Settings::remote` is.
    Remote(ConnectionId),
    /// What `Settings::first` is.
    First(ConnectionId),
    /// What `Settings::orig` is.
    Orig(ConnectionId),
    /// What `Settings::retry` is.
    Retry(ConnectionId),
    /// The peer's address.
    Addr(SocketAddr),
    /// What `Settings::validated` is.
    Validated(bool),
    /// What `Settings::token` is.
    Token(Body),
    /// The secret of the toy's keys.
    Secret([u8; 5]),
    /// How many packets an Initial key may seal.
    LimitInitial(u64),
    /// How many packets a Handshake key may seal.
    LimitHandshake(u64),
    /// How many packets a 1-RTT key may seal.
    LimitData(u64),
    /// How many packets may fail to open.
    LimitFailures(u64),
    /// This end's limit on idle time in milliseconds.
    Idle(VarInt),
    /// What `Settings::mtud` is.
    Mtud(bool),
    /// What `Settings::gso` is.
    Gso(bool),
    /// What `Settings::sent` is.
    Sent(u32),
    /// What `Settings::clock` is.
    Clock(u64),
}

impl Setting {
    /// The place of its line in the order of set lines; the side's line has place 0.
    pub fn place(&self) -> u8
        ensures { result ≡ setting_place self.now }
    {
        match self {
            Setting::Random(_) => 1,
            Setting::Time(_) => 2,
            Setting::Local(_) => 3,
            Setting::Remote(_) => 4,
            Setting::First(_) => 5,
            Setting::Orig(_) => 6,
            Setting::Retry(_) => 7,
            Setting::Addr(_) => 8,
            Setting::Validated(_) => 9,
            Setting::Token(_) => 10,
            Setting::Secret(_) => 11,
            Setting::LimitInitial(_) => 12,
            Setting::LimitHandshake(_) => 13,
            Setting::LimitData(_) => 14,
            Setting::LimitFailures(_) => 15,
            Setting::Idle(_) => 16,
            Setting::Mtud(_) => 17,
            Setting::Gso(_) => 18,
            Setting::Sent(_) => 19,
            Setting::Clock(_) => 20,
        }
    }
}

impl Settings {
    /// What a script says whose one line names this side.
    pub(crate) fn new(side: Side) -> Settings
        ensures { result ≡ side_alone side }
    {
        Settings {
            side,
            random: None,
            time: None,
            local: None,
            remote: None,
            first: None,
            orig: None,
            retry: None,
            addr: None,
            validated: None,
            token: None,
            secret: None,
            limit_initial: None,
            limit_handshake: None,
            limit_data: None,
            limit_failures: None,
            idle: None,
            mtud: None,
            gso: None,
            sent: None,
            clock: None,
        }
    }

    /// Sets what this line says.
    pub(crate) fn set(&mut self, setting: Setting)
        ensures { self.new ≡ with_setting self.old setting }
    {
        match setting {
            Setting::Random(words) => self.random = Some(words),
            Setting::Time(now) => self.time = Some(now),
            Setting::Local(id) => self.local = Some(id),
            Setting::Remote(id) => self.remote = Some(id),
            Setting::First(id) => self.first = Some(id),
            Setting::Orig(id) => self.orig = Some(id),
            Setting::Retry(id) => self.retry = Some(id),
            Setting::Addr(address) => self.addr = Some(address),
            Setting::Validated(validated) => self.validated = Some(validated),
            Setting::Token(bytes) => self.token = Some(bytes),
            Setting::Secret(bytes) => self.secret = Some(bytes),
            Setting::LimitInitial(packets) => self.limit_initial = Some(packets),
            Setting::LimitHandshake(packets) => self.limit_handshake = Some(packets),
            Setting::LimitData(packets) => self.limit_data = Some(packets),
            Setting::LimitFailures(packets) => self.limit_failures = Some(packets),
            Setting::Idle(limit) => self.idle = Some(limit),
            Setting::Mtud(allowed) => self.mtud = Some(allowed),
            Setting::Gso(allowed) => self.gso = Some(allowed),
            Setting::Sent(count) => self.sent = Some(count),
            Setting::Clock(seconds) => self.clock = Some(seconds),
        }
    }
}
