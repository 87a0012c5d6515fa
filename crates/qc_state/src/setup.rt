//! What a connection was made with, and its source of random words.

ghost use Rattle.std.specs.Prelude.{◌≡◌, ◌&&◌, not, if◌then◌else◌, Some};
ghost use Rattle.qc_state.specs.Draws.{bit, behind_bit};
ghost use Rattle.qc_state.specs.Setup.{ideal_setup, idle_limit_of, idle_limit_now, peer_delay, peer_exponent, takes_grease, behind_spin, drawn_for, packet_drawn, parameters_known, retry_taken, token_expected, is_first_awaited, awaits_first};
ghost use Rattle.qc_state.specs.Forms.{is_one_rtt};
ghost use Rattle.qc_state.specs.Timers.{least};

use crate::form::Form;
use bytes::Bytes;
use qc_base::{ConnectionId, Duration, Side, VarInt};
use qc_params::TransportParameters;
use rand_core::Rng;
use std::net::IpAddr;

/// The values that a connection was made with. They don't change.
#[derive(Drop)]
pub struct Fixed {
    /// This end's side.
    pub side: Side,
    /// The version of QUIC (RFC 9000, 15).
    pub version: u32,
    /// This end's id: the source of its long headers (RFC 9000, 5.1).
    pub local_cid: ConnectionId,
    /// The destination id of a client's first packets (RFC 9000, 7.2).
    pub first_cid: ConnectionId,
    /// How long an id of this end is used; without a limit where there is none (RFC 9000, 5.1.2).
    pub cid_lifetime: Option<Duration>,
    /// How many ids of this end stand with the handshake: 1, or 2 where a preferred address carries the second (RFC 9000, 18.2).
    pub issued: u64,
    /// The address to send from, where one was given.
    pub local_ip: Option<IpAddr>,
    /// This end's limit on idle time; none where it has none (RFC 9000, 10.1).
    pub idle_limit: Option<Duration>,
    /// How many bytes of a CRYPTO stream beyond those that the session was given are kept (RFC 9000, 7.5).
    pub crypto_buffer_size: usize,
    /// Whether this end takes packets whose fixed bit isn't set (RFC 9287).
    pub grease_quic_bit: bool,
    /// Whether 1-RTT packets carry the spin bit of the path; else each has a drawn one (RFC 9000, 17.4).
    pub spins: bool,
    /// How many packets the first 1-RTT keys seal before others take their place (RFC 9001, 6).
    pub key_phase_size: u64,
    /// Whether the datagrams of a transmit may stand behind each other in one buffer; else a transmit has at most one.
    pub segmentation: bool,
    /// Whether each datagram that holds a packet of the Data space is padded up to the size of the others.
    pub pads: bool,
}

/// What a connection was made with, and its source of random words.
#[derive(Drop)]
pub struct Setup<R> {
    /// The values that don't change.
    pub fixed: Fixed,
    /// The peer's transport parameters, once this end has read them (RFC 9000, 7.4).
    pub peer: Option<TransportParameters>,
    /// On a server, once its first packet came, that packet's token, which its other Initial packets repeat (RFC 9000,
    /// 17.2.2).
    pub token: Option<Bytes>,
    /// The token that this end's Initial packets carry, empty where it has none (RFC 9000, 8.1).
    pub initial_token: Bytes,
    /// The source id of the Retry that a client took, if it took one (RFC 9000, 17.2.5).
    pub retry_cid: Option<ConnectionId>,
    /// What was drawn for the packet that was begun last.
    pub drawn: Drawn,
    /// The source of random words. Contracts know it by its stream alone.
    pub random: R,
}

/// What is drawn for a packet as it is begun.
#[derive(Clone, Copy, Debug)]
pub struct Drawn {
    /// The spin bit of a 1-RTT packet, where the connection doesn't spin (RFC 9000, 17.4).
    pub spin: bool,
    /// Whether the packet's fixed bit is flipped, where the peer takes such packets (RFC 9287).
    pub flip: bool,
}

/// The limit on idle time of a number of milliseconds: none where it is 0 (RFC 9000, 10.1).
pub fn limit_of_millis(millis: u64) -> Option<Duration>
    ensures { result ≡ idle_limit_of (Some millis) }
{
    if millis == 0 {
        return None;
    }
    Some(Duration::from_millis(millis))
}

/// The limit on idle time that two ends come to of theirs in milliseconds: the lesser one; none and 0 are no limit (RFC 9000,
/// 10.1).
pub fn negotiate_max_idle_timeout(x: Option<VarInt>, y: Option<VarInt>) -> Option<Duration>
    ensures { result ≡ least (idle_limit_of x) (idle_limit_of y) }
{
    lesser(limit_of(x), limit_of(y))
}

/// The limit of a number of milliseconds, where there is one.
fn limit_of(millis: Option<VarInt>) -> Option<Duration>
    ensures { result ≡ idle_limit_of millis }
{
    match millis {
        None => None,
        Some(millis) => limit_of_millis(millis.into_inner()),
    }
}

/// The lesser of two limits, where there is one.
fn lesser(a: Option<Duration>, b: Option<Duration>) -> Option<Duration>
    ensures { result ≡ least a b }
{
    match (a, b) {
        (None, limit) => limit,
        (Some(limit), None) => Some(limit),
        (Some(a), Some(b)) => {
            if a.nanos() <= b.nanos() {
                Some(a)
            } else {
                Some(b)
            }
        }
    }
}

/// How long the peer holds an acknowledgement back at most: 25 ms until its parameters were read (RFC 9000, 18.2).
fn peer_delay(peer: &Option<TransportParameters>) -> Duration
    ensures { result ≡ peer_delay peer.now }
{
    match peer {
        None => Duration::from_millis(25),
        Some(peer) => Duration::from_millis(peer.max_ack_delay.into_inner()),
    }
}

/// Whether the peer takes packets whose fixed bit isn't set, as its parameters say (RFC 9287).
fn takes_grease(peer: &Option<TransportParameters>) -> bool
    ensures { result ≡ takes_grease peer.now }
{
    match peer {
        None => false,
        Some(peer) => peer.grease_quic_bit,
    }
}

/// Draws a bit.
fn draw_bit<R: Rng>(random: &mut R) -> bool
    ensures value { result ≡ bit (R.stream random.old) }
    ensures left { R.stream random.new ≡ behind_bit (R.stream random.old) }
{
    random.next_u32() % 2 == 1
}

/// Whether an end of this side, with this token of a first packet, waits for its first packet: a server does.
fn awaits_first(side: Side, token: &Option<Bytes>) -> bool
    ensures { result ≡ awaits_first side token.now }
{
    match side {
        Side::Client => false,
        Side::Server => token.is_none(),
    }
}

#[tactic(auto, unfolding(crate::specs::Setup::idle_limit_now, crate::specs::Setup::parameters_known, crate::specs::Setup::token_expected, crate::specs::Setup::retry_taken, crate::specs::Setup::is_first_awaited))]
impl<R> Setup<R> {
    /// The limit on idle time: this end's own one, and once the peer's parameters were read the lesser of the two ends'.
    pub fn idle_limit(&self) -> Option<Duration>
        ensures { result ≡ idle_limit_now self.now }
    {
        match &self.peer {
            None => self.fixed.idle_limit,
            Some(peer) => lesser(
                self.fixed.idle_limit,
                limit_of_millis(peer.max_idle_timeout.into_inner()),
            ),
        }
    }

    /// How long the peer holds an acknowledgement back at most: 25 ms until its parameters were read (RFC 9000, 18.2).
    pub fn peer_delay(&self) -> Duration
        ensures { result ≡ peer_delay self.now.peer }
    {
        peer_delay(&self.peer)
    }

    /// The exponent of the delays in the peer's ACK frames: 3 until its parameters were read, and 20 at most (RFC 9000, 18.2).
    pub fn peer_exponent(&self) -> u8
        ensures { result ≡ peer_exponent self.now.peer }
    {
        match &self.peer {
            None => 3,
            Some(peer) => peer.ack_delay_exponent.into_inner().min(20) as u8,
        }
    }

    /// The peer's parameters were read.
    pub fn learn(&mut self, parameters: TransportParameters)
        ensures { self.new ≡ parameters_known self.old parameters }
    {
        self.peer = Some(parameters);
    }

    /// A server's first packet came, with this token.
    pub fn expect(&mut self, token: Bytes)
        ensures { self.new ≡ token_expected self.old token }
    {
        self.token = Some(token);
    }

    /// A Retry with this source id and this token was taken.
    pub fn retry(&mut self, cid: ConnectionId, token: Bytes)
        ensures { self.new ≡ retry_taken self.old cid token }
    {
        self.initial_token = token;
        self.retry_cid = Some(cid);
    }

    /// Whether the fixed bit of the packet that was begun last is flipped: it was drawn so, where the peer takes such packets (RFC 9287).
    pub fn flips(&self) -> bool
        ensures { result ≡ (takes_grease self.now.peer && self.now.drawn.flip) }
    {
        takes_grease(&self.peer) && self.drawn.flip
    }

    /// Whether this end is a server whose first packet didn't come yet.
    pub fn is_first_awaited(&self) -> bool
        ensures { result ≡ is_first_awaited self.now }
    {
        awaits_first(self.fixed.side, &self.token)
    }
}

#[tactic(auto, unfolding(crate::specs::Setup::ideal_setup, crate::specs::Setup::behind_spin, crate::specs::Setup::drawn_for, crate::specs::Setup::packet_drawn))]
impl<R: Rng> Setup<R> {
    /// Draws the spin bit of a packet of this form: of a 1-RTT packet, where the connection doesn't spin.
    fn draw_spin(&mut self, form: Form) -> bool
        ensures value { result ≡ ((is_one_rtt form && not self.old.fixed.spins) && bit (R.stream self.old.random)) }
        ensures left { ideal_setup R.stream self.new ≡ record (ideal_setup R.stream self.old) { random = behind_spin (ideal_setup R.stream self.old) form } }
    {
        if form.is_one_rtt() && !self.fixed.spins {
            return draw_bit(&mut self.random);
        }
        false
    }

    /// Draws whether the fixed bit of a packet is flipped, where the peer takes such packets (RFC 9287).
    fn draw_flip(&mut self) -> bool
        ensures value { result ≡ (takes_grease self.old.peer && bit (R.stream self.old.random)) }
        ensures left { ideal_setup R.stream self.new ≡ record (ideal_setup R.stream self.old) { random = if takes_grease self.old.peer then behind_bit (R.stream self.old.random) else R.stream self.old.random } }
    {
        if takes_grease(&self.peer) {
            return draw_bit(&mut self.random);
        }
        false
    }

    /// Draws what is drawn for a packet of this form, and keeps it: its spin bit, and whether its fixed bit is flipped.
    pub fn draw_packet(&mut self, form: Form)
        ensures { ideal_setup R.stream self.new ≡ packet_drawn (ideal_setup R.stream self.old) form }
    {
        let spin = self.draw_spin(form);
        let flip = self.draw_flip();
        self.drawn = Drawn { spin, flip };
    }
}
