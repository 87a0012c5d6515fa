//! What recovery keeps of a path.

ghost use Rattle.std.specs.Prelude.{◌≡◌};
ghost use Rattle.qc_recovery.specs.Paths.{begun_path, first_size, moved_path, renewed_path, searched, searched_if};

use crate::mtu_config::MtuDiscoveryConfig;
use crate::transport_config::TransportConfig;
use qc_base::{Instant, SpaceId};
use qc_path::{Controller, MtuDiscovery, Pacer, PathRate, RttEstimator, SearchSettings};

/// What recovery keeps of a path.
#[derive(Drop)]
pub struct PathData<C: Controller> {
    /// Its round trip times.
    pub rtt: RttEstimator,
    /// Its congestion controller.
    pub congestion: C,
    /// What spreads its packets.
    pub pacing: Pacer,
    /// The size of its datagrams.
    pub mtud: MtuDiscovery,
    /// The word of the PATH_CHALLENGE by which it is being validated, if it is.
    pub challenge: Option<u64>,
    /// Whether its packets carry a mark of ECN.
    pub sending_ecn: bool,
    /// The space of the ACK that gave its first round trip time, and the number that was next there.
    pub first_sample: Option<(SpaceId, u64)>,
}

/// No datagram that a connection makes has more bytes, so that each length in a packet has two bytes at most.
const MOST_SIZE: u16 = 16383;

fn settings_of(config: &Option<MtuDiscoveryConfig>) -> Option<SearchSettings>
    ensures { result ≡ searched config.now }
{
    match config {
        None => None,
        Some(config) => Some(SearchSettings {
            interval: config.get_interval(),
            upper_bound: config.get_upper_bound().min(MOST_SIZE),
            black_hole_cooldown: config.get_black_hole_cooldown(),
            minimum_change: config.get_minimum_change(),
        }),
    }
}

fn search_of(config: &TransportConfig, allow_mtud: bool) -> Option<SearchSettings>
    ensures { result ≡ searched_if allow_mtud config.now }
{
    if allow_mtud {
        settings_of(config.get_mtu_discovery_config())
    } else {
        None
    }
}

/// The size in bytes of the first datagrams on a path: the greater of the two that the configuration
/// gives, and at most what the peer takes, where that is known. A controller for the path is built
/// with it.
#[tactic(auto, unfolding(crate::specs::Paths::first_size, qc_path::specs::Mtu::first_mtu))]
pub fn first_mtu(config: &TransportConfig, peer: Option<u16>) -> u16
    ensures { result ≡ first_size config.now peer }
{
    MtuDiscovery::new(config.get_initial_mtu(), config.get_min_mtu(), peer, None).current_mtu()
}

impl<C: Controller> PathData<C> {
    /// A path that begins at `now`, with its controller. Without `allow_mtud` no larger datagram is
    /// looked for; `peer` is the greatest size that the peer takes, where that is known.
    #[tactic(auto, unfolding(crate::specs::Paths::begun_path))]
    pub fn new(
        now: Instant,
        config: &TransportConfig,
        congestion: C,
        allow_mtud: bool,
        peer: Option<u16>,
    ) -> PathData<C>
        ensures { result ≡ begun_path C.Controller now config.now congestion allow_mtud peer }
    {
        let initial_rtt = config.get_initial_rtt();
        let mtud = MtuDiscovery::new(
            config.get_initial_mtu(),
            config.get_min_mtu(),
            peer,
            search_of(config, allow_mtud),
        );
        let rate = PathRate {
            window: congestion.window(),
            rtt: initial_rtt,
            mtu: mtud.current_mtu(),
        };
        PathData {
            rtt: RttEstimator::new(initial_rtt),
            congestion,
            pacing: Pacer::new(now, &rate),
            mtud,
            challenge: None,
            sending_ecn: true,
            first_sample: None,
        }
    }

    /// The path after a migration to the same IPv4 address, where another port is all that changed
    /// (RFC 9000, section 9.4): round trips, controller, size and search go on, with the probe in
    /// flight. Its pacer is full, it isn't being validated yet, and its packets are marked.
    #[tactic(auto, unfolding(crate::specs::Paths::moved_path))]
    pub fn moved(&self, now: Instant) -> PathData<C>
        ensures { result ≡ moved_path C.Controller now self.now }
    {
        let congestion = self.congestion.copy();
        let mtud = self.mtud.copy();
        let rate = PathRate {
            window: congestion.window(),
            rtt: self.rtt.get(),
            mtu: mtud.current_mtu(),
        };
        PathData {
            rtt: self.rtt,
            congestion,
            pacing: Pacer::new(now, &rate),
            mtud,
            challenge: None,
            sending_ecn: true,
            first_sample: self.first_sample,
        }
    }

    /// The path after the application said that it changed: round trips, controller, pacer, size and
    /// search begin anew, as in [`PathData::new`]. Whether it is being validated, whether its packets
    /// are marked and its first round trip time stay.
    #[tactic(auto, unfolding(crate::specs::Paths::renewed_path))]
    pub fn renewed(
        &self,
        now: Instant,
        config: &TransportConfig,
        congestion: C,
        allow_mtud: bool,
        peer: Option<u16>,
    ) -> PathData<C>
        ensures { result ≡ renewed_path C.Controller now config.now congestion allow_mtud peer self.now }
    {
        let path = PathData::new(now, config, congestion, allow_mtud, peer);
        PathData {
            rtt: path.rtt,
            congestion: path.congestion,
            pacing: path.pacing,
            mtud: path.mtud,
            challenge: self.challenge,
            sending_ecn: self.sending_ecn,
            first_sample: self.first_sample,
        }
    }
}
