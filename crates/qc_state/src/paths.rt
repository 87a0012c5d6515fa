//! The path to the peer.

ghost use Rattle.std.specs.Prelude.{◌≡◌, ◌≢◌, true, false};
ghost use Rattle.qc_state.specs.Paths.{held_size, least_on, most_on, path_capped, path_probed, new_path, only_path, path_quiet, path_sent, path_received, path_accepted, path_spun, spun_by, path_named, peer_fixed, peer_id, is_blocked, is_blocked_behind, is_other_source, same_address};
ghost use Rattle.std.specs.Net.Addr.{ipv4_octets, ipv6_segments};

use crate::deeds::{Quiet, Verdict};
use crate::transmit::DATAGRAM_SIZE;
use qc_base::{ConnectionId, Instant, Side, SpaceId};
use qc_params::TransportParameters;
use qc_path::Controller;
use qc_recovery::PathData;
use std::net::SocketAddr;

/// No datagram that this end makes has more bytes.
const MOST_SIZE: u16 = 16383;

/// The greatest UDP payload that there is, in bytes (RFC 9000, 18.2).
const MOST_PAYLOAD: u64 = 65527;

/// A path to the peer (RFC 9000, 9).
#[derive(Drop)]
pub struct Path<C: Controller> {
    /// The peer's address.
    pub remote: SocketAddr,
    /// The id that packets on this path carry as their destination (RFC 9000, 5.1).
    pub remote_cid: ConnectionId,
    /// Whether it is known that the peer gets what is sent to its address (RFC 9000, 8.1). A client takes it for known.
    pub validated: bool,
    /// Bytes sent to the peer's address. They stand still at 2^64 - 1.
    pub sent: u64,
    /// The size of the path's first datagrams, in bytes. While its address isn't validated none has more.
    pub first_mtu: u16,
    /// Bytes received from the peer's address, as far as they count (RFC 9000, 8.1). They stand still at 2^64 - 1.
    pub received: u64,
    /// What loss recovery keeps of the path: round trip times, and the congestion controller (RFC 9002).
    pub kept: PathData<C>,
}

/// The paths to the peer (RFC 9000, 9), and what is kept beside them.
#[derive(Drop)]
pub struct Paths<C: Controller> {
    /// The path in use.
    pub current: Path<C>,
    /// The path that was in use before the peer's address changed. None so far, since the address doesn't change.
    pub previous: Option<Path<C>>,
    /// The id that the peer chose, once it is known (RFC 9000, 7.2).
    pub peer_cid: Option<ConnectionId>,
    /// The spin bit of 1-RTT packets to the peer (RFC 9000, 17.4).
    pub spin: bool,
    /// Whether the last transmit sent nothing, so that what there is to send holds sending back, and not the window of the
    /// congestion controller (RFC 9002, 7.8).
    pub app_limited: bool,
}

/// The spin bit of an end of this side by that of a packet: a server repeats it, and a client turns it round.
fn spun_by(side: Side, bit: bool) -> bool
    ensures { result ≡ spun_by side bit }
{
    match side {
        Side::Client => !bit,
        Side::Server => bit,
    }
}

/// A size of datagrams, held between the bytes that each path takes (RFC 9000, 14) and those with which each length in a packet has two
/// bytes at most.
pub fn held_size(size: u16) -> u64
    ensures { result ≡ held_size size }
{
    u64::from(size.min(MOST_SIZE)).max(DATAGRAM_SIZE)
}

#[tactic(auto, unfolding(crate::specs::Paths::new_path, crate::specs::Paths::most_on, crate::specs::Paths::least_on))]
impl<C: Controller> Path<C> {
    /// A path on which nothing was sent or received so far, whose packets carry this id, and of which loss recovery keeps this.
    pub fn new(
        remote: SocketAddr,
        remote_cid: ConnectionId,
        validated: bool,
        kept: PathData<C>,
    ) -> Path<C>
        ensures { result ≡ new_path remote remote_cid validated kept }
    {
        Path {
            remote,
            remote_cid,
            validated,
            sent: 0,
            first_mtu: kept.mtud.current_mtu(),
            received: 0,
            kept,
        }
    }

    /// How many bytes a datagram to the path may have: as many as its search found; while its address isn't validated, no more than it
    /// began with.
    pub fn most(&self) -> u64
        ensures { result ≡ most_on self.now }
    {
        let found = self.kept.mtud.current_mtu();
        let most = if self.validated {
            found
        } else {
            self.first_mtu.min(found)
        };
        held_size(most)
    }

    /// Up to how many bytes a datagram to it is filled up that is to be: the size that each path takes, by the configuration, and at most
    /// that.
    pub fn least(&self) -> u64
        ensures { result ≡ least_on self.now }
    {
        held_size(self.kept.mtud.least_mtu()).min(self.most())
    }
}

#[tactic(auto, unfolding(crate::specs::Paths::only_path, crate::specs::Paths::path_sent, crate::specs::Paths::path_quiet, crate::specs::Paths::path_received, crate::specs::Paths::peer_fixed, crate::specs::Paths::path_named, crate::specs::Paths::path_accepted, crate::specs::Paths::path_spun, crate::specs::Paths::is_blocked, crate::specs::Paths::is_blocked_behind, crate::specs::Paths::path_capped, crate::specs::Paths::path_kept, crate::specs::Paths::path_probed))]
impl<C: Controller> Paths<C> {
    /// A connection's first path, with the id that the peer chose, where it did.
    pub fn new(path: Path<C>, peer_cid: Option<ConnectionId>) -> Paths<C>
        ensures { result ≡ only_path path peer_cid }
    {
        Paths {
            current: path,
            previous: None,
            peer_cid,
            spin: false,
            app_limited: false,
        }
    }

    /// So many bytes came from the path's address.
    pub fn received(&mut self, bytes: u64)
        ensures { self.new ≡ path_received self.old bytes }
    {
        self.current.received = self.current.received.saturating_add(bytes);
    }

    /// A packet of this space was accepted: a Handshake packet that was admitted shows that the peer gets what is sent to its
    /// address (RFC 9000, 8.1).
    pub fn accepted(&mut self, space: SpaceId, verdict: Verdict)
        ensures { self.new ≡ path_accepted self.old space verdict }
    {
        match (space, verdict) {
            (SpaceId::Handshake, Verdict::Admitted) => self.current.validated = true,
            _ => {}
        }
    }

    /// A packet with this spin bit was accepted by an end of this side: where it is the greatest one of its space so far, it
    /// sets the bit that is sent (RFC 9000, 17.4).
    pub fn spun(&mut self, side: Side, greatest: bool, bit: bool)
        ensures { self.new ≡ path_spun self.old side greatest bit }
    {
        if greatest {
            self.spin = spun_by(side, bit);
        }
    }

    /// Whether no datagram may be begun: the address isn't validated, and three times the bytes that came from it were sent
    /// (RFC 9000, 8.1).
    pub fn is_blocked(&self) -> bool
        ensures { result ≡ is_blocked self.now }
    {
        !self.current.validated
            && 3 * u128::from(self.current.received) <= u128::from(self.current.sent)
    }

    /// So it is with so many bytes more, which were sent there and aren't counted yet.
    pub fn is_blocked_behind(&self, bytes: u64) -> bool
        ensures { result ≡ is_blocked_behind self.now bytes }
    {
        let sent = u128::from(bytes) + u128::from(self.current.sent);
        !self.current.validated && 3 * u128::from(self.current.received) <= sent
    }

    /// The peer has chosen the id that packets to it carry.
    pub fn fix(&mut self, cid: ConnectionId)
        ensures { self.new ≡ peer_fixed self.old cid }
    {
        self.current.remote_cid = cid;
        self.peer_cid = Some(cid);
    }

    /// Packets to the peer carry another one of its ids from then on.
    pub fn name(&mut self, cid: ConnectionId)
        ensures { self.new ≡ path_named self.old cid }
    {
        self.current.remote_cid = cid;
    }

    /// So many bytes were sent to the path's address.
    pub fn sent(&mut self, bytes: u64)
        ensures { self.new ≡ path_sent self.old bytes }
    {
        self.current.sent = self.current.sent.saturating_add(bytes);
        self.app_limited = false;
    }

    /// The greatest datagrams that the peer takes are known, by its parameters (RFC 9000, 18.2): those to it have no more bytes.
    pub fn cap(&mut self, parameters: &TransportParameters)
        ensures { self.new ≡ path_capped self.old parameters.now }
    {
        let most = parameters
            .max_udp_payload_size
            .into_inner()
            .min(MOST_PAYLOAD);
        self.current.kept.mtud.peer_takes(most as u16);
    }

    /// A probe of the path's size was sent, with this number and so many bytes, by a transmit that would have sent nothing for this cause: the
    /// search waits for it, and the controller is told nothing.
    pub fn probed(&mut self, now: Instant, number: u64, bytes: u64, quiet: Quiet)
        ensures { self.new ≡ path_probed self.old now number bytes quiet }
    {
        self.current.sent = self.current.sent.saturating_add(bytes);
        self.current.kept.mtud.probe_sent(now, number);
        self.quiet(quiet);
    }

    /// Whether packets with this source id come from another end than the one that chose its id, where it did.
    pub fn is_other_source(&self, source: &ConnectionId) -> bool
        ensures { result ≡ is_other_source self.now.peer_cid source.now }
    {
        match &self.peer_cid {
            None => false,
            Some(chosen) => source.as_slice() != chosen.as_slice(),
        }
    }

    /// The id by which the peer is known: the one that it chose, and until then the one that packets to it carry.
    pub fn peer_id(&self) -> ConnectionId
        ensures { result ≡ peer_id self.now }
    {
        match self.peer_cid {
            None => self.current.remote_cid,
            Some(chosen) => chosen,
        }
    }

    /// A transmit sent nothing, for this cause: what there is to send holds sending back, but where the congestion controller
    /// does. The call that ends the connection says nothing of it.
    pub fn quiet(&mut self, quiet: Quiet)
        ensures { self.new ≡ path_quiet self.old quiet }
    {
        match quiet {
            Quiet::NothingOwed | Quiet::Silent | Quiet::Amplification => self.app_limited = true,
            Quiet::Congestion | Quiet::Pacing => self.app_limited = false,
            Quiet::Killed => {}
        }
    }
}

/// Whether two addresses are one, flow label and scope included.
#[tactic(auto, unfolding(crate::specs::Paths::same_address))]
pub fn same_address(a: SocketAddr, b: SocketAddr) -> bool
    ensures meaning { result ≡ same_address a b }
    ensures same { result ≡ true → a ≡ b }
    ensures other { result ≡ false → a ≢ b }
{
    match (a, b) {
        (SocketAddr::V4(a), SocketAddr::V4(b)) => {
            a.ip().octets() == b.ip().octets() && a.port() == b.port()
        }
        (SocketAddr::V6(a), SocketAddr::V6(b)) => {
            a.ip().segments() == b.ip().segments()
                && (a.port() == b.port()
                    && (a.flowinfo() == b.flowinfo() && a.scope_id() == b.scope_id()))
        }
        (SocketAddr::V4(_), SocketAddr::V6(_)) | (SocketAddr::V6(_), SocketAddr::V4(_)) => false,
    }
}
