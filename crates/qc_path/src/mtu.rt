//! The search for a larger datagram that the path takes (RFC 8899; RFC 9000, section 14.3).

ghost use Rattle.std.specs.Prelude.{◌≡◌};
ghost use Rattle.qc_path.specs.Mtu.{begun, capped, rested_after_hole, first_mtu, goes_on, has_number, is_probe, middle, mtu_acked, mtu_burst, mtu_forgotten, mtu_probe_lost, peer_known, probe_due, probe_of, probe_sent, raised_if_searching, rested_if_set, search_at, search_lowered, size_of_probe};

use crate::black_hole::{AckedPacket, BlackHoleDetector, LossBurst};
use qc_base::{Duration, Instant};
use std::marker::Model;

/// How often one size is tried before it counts as too large.
const TRIES: u8 = 3;

/// How a path's search goes.
#[derive(Clone, Copy, Debug)]
pub struct SearchSettings {
    /// The time from the end of one search to the start of the next.
    pub interval: Duration,
    /// The greatest size that is tried.
    pub upper_bound: u16,
    /// How long no larger size is tried after a black hole.
    pub black_hole_cooldown: Duration,
    /// The difference below which a search ends; one of 0 counts as 1.
    pub minimum_change: u16,
}

/// A search between the greatest size that passed and the greatest that may pass.
#[derive(Clone, Copy, Debug)]
pub struct Search {
    lower: u16,
    upper: u16,
    losses: u8,
    probe: Option<(u64, u16)>,
}

/// How far a search is.
#[derive(Clone, Copy, Debug)]
pub enum Phase {
    /// None has begun.
    Unbegun,
    /// It goes on.
    Searching(Search),
    /// It begins again at this time.
    Resting(Instant),
}

/// The size of a path's datagrams, and the search for a larger one.
#[derive(Debug, Drop)]
pub struct MtuDiscovery {
    current: u16,
    least: u16,
    peer: Option<u16>,
    settings: Option<SearchSettings>,
    phase: Phase,
    holes: BlackHoleDetector,
}

impl Model for MtuDiscovery {
    ghost use Rattle.qc_path.specs.Mtu.{Mtu};

    ghost Value = { Mtu };

    ghost view = { λ m. record { current = m.current; least = m.least; peer = m.peer; settings = m.settings; phase = m.phase; holes = m.holes } };
}

fn cap(most: Option<u16>, size: u16) -> u16
    ensures { result ≡ capped most size }
{
    match most {
        None => size,
        Some(most) => size.min(most),
    }
}

fn has_next(settings: &SearchSettings, search: &Search) -> bool
    ensures { result ≡ goes_on settings.now search.now }
{
    settings.minimum_change.max(1) <= search.upper.saturating_sub(search.lower)
}

fn middle_of(search: &Search) -> u16
    ensures { result ≡ middle search.now }
{
    let middle = search.lower + search.upper.saturating_sub(search.lower) / 2;
    let next = search.lower.saturating_add(1).min(search.upper);
    middle.max(next)
}

fn rest(now: Instant, settings: Option<SearchSettings>, search: Search) -> Phase
    ensures { result ≡ rested_if_set now settings search }
{
    match settings {
        None => Phase::Searching(search),
        Some(settings) => {
            if has_next(&settings, &search) {
                Phase::Searching(search)
            } else {
                Phase::Resting(now.plus(settings.interval))
            }
        }
    }
}

fn cool(now: Instant, settings: Option<SearchSettings>, phase: Phase) -> Phase
    ensures { result ≡ rested_after_hole now settings phase }
{
    match settings {
        None => phase,
        Some(settings) => Phase::Resting(now.plus(settings.black_hole_cooldown)),
    }
}

fn probe_in(phase: Phase) -> Option<(u64, u16)>
    ensures { result ≡ probe_of phase }
{
    match phase {
        Phase::Searching(search) => search.probe,
        Phase::Unbegun | Phase::Resting(_) => None,
    }
}

fn has(probe: Option<(u64, u16)>, number: u64) -> bool
    ensures { result ≡ has_number number probe }
{
    match probe {
        None => false,
        Some(probe) => probe.0 == number,
    }
}

impl MtuDiscovery {
    /// The size of a path that begins: the greater of `initial` and `least`, and at most what the
    /// peer takes, where that is known. Without `settings` no larger size is looked for.
    #[tactic(auto, unfolding(crate::specs::Mtu::first_mtu))]
    pub fn new(
        initial: u16,
        least: u16,
        peer: Option<u16>,
        settings: Option<SearchSettings>,
    ) -> MtuDiscovery
        ensures { result ≡ first_mtu initial least peer settings }
    {
        MtuDiscovery {
            current: cap(peer, initial.max(least)),
            least,
            peer,
            settings,
            phase: Phase::Unbegun,
            holes: BlackHoleDetector::new(),
        }
    }

    /// The peer takes datagrams of at most this size (RFC 9000, section 18.2).
    #[tactic(auto, unfolding(crate::specs::Mtu::peer_known))]
    pub fn peer_takes(&mut self, size: u16)
        ensures { self.new ≡ peer_known size self.old }
    {
        self.current = self.current.min(size);
        self.peer = Some(size);
        self.phase = Phase::Unbegun;
    }

    /// A path that begins, with what the peer takes, the least size and the settings of this one.
    pub fn renewed(&self, initial: u16) -> MtuDiscovery
        ensures { result ≡ first_mtu initial self.now.least self.now.peer self.now.settings }
    {
        MtuDiscovery::new(initial, self.least, self.peer, self.settings)
    }

    /// The size in use, in bytes of UDP payload.
    pub fn current_mtu(&self) -> u16
        ensures { result ≡ self.now.current }
    {
        self.current
    }

    /// The size that every path takes, in bytes of UDP payload.
    pub fn least_mtu(&self) -> u16
        ensures { result ≡ self.now.least }
    {
        self.least
    }

    #[tactic(auto, unfolding(crate::specs::Mtu::begun))]
    fn begin(&self, settings: &SearchSettings) -> Search
        ensures { result ≡ begun settings.now self.now }
    {
        Search {
            lower: self.current,
            upper: self.current.max(cap(self.peer, settings.upper_bound)),
            losses: 0,
            probe: None,
        }
    }

    fn search(&self, now: Instant, settings: &SearchSettings) -> Option<Search>
        ensures { result ≡ search_at now settings.now self.now self.now.phase }
    {
        match self.phase {
            Phase::Unbegun => Some(self.begin(settings)),
            Phase::Searching(search) => Some(search),
            Phase::Resting(until) => {
                if until.nanos() <= now.nanos() {
                    Some(self.begin(settings))
                } else {
                    None
                }
            }
        }
    }

    /// The size of the probe that is due, where one is: there is a search, it isn't over, and no
    /// probe is in flight.
    #[tactic(auto, unfolding(crate::specs::Mtu::probe_due))]
    pub fn probe_due(&self, now: Instant) -> Option<u16>
        ensures { result ≡ probe_due now self.now }
    {
        match self.settings {
            None => None,
            Some(settings) => due(&settings, self.search(now, &settings)),
        }
    }

    /// The probe that is due was sent, with this number.
    #[tactic(auto, unfolding(crate::specs::Mtu::probe_sent))]
    pub fn probe_sent(&mut self, now: Instant, number: u64)
        ensures { self.new ≡ probe_sent now number self.old }
    {
        if let Some(settings) = self.settings {
            if let Some(search) = self.search(now, &settings) {
                self.phase = Phase::Searching(Search {
                    lower: search.lower,
                    upper: search.upper,
                    losses: search.losses,
                    probe: Some((number, middle_of(&search))),
                });
            }
        }
    }

    /// The probe in flight, if there is one: its packet's number in the Data space, and its size.
    pub fn probe(&self) -> Option<(u64, u16)>
        ensures { result ≡ probe_of self.now.phase }
    {
        probe_in(self.phase)
    }

    /// Whether a packet of the Data space is the probe in flight.
    #[tactic(auto, unfolding(crate::specs::Mtu::is_probe))]
    pub fn is_probe(&self, number: u64) -> bool
        ensures { result ≡ is_probe number self.now }
    {
        has(probe_in(self.phase), number)
    }

    fn raise(&mut self, now: Instant)
        ensures { self.new ≡ raised_if_searching now self.old.phase self.old }
    {
        if let Phase::Searching(search) = self.phase {
            if let Some(probe) = search.probe {
                self.current = probe.1;
                self.holes = self.holes.probe_passed(AckedPacket {
                    number: probe.0,
                    size: u64::from(probe.1),
                });
                self.phase = rest(
                    now,
                    self.settings,
                    Search {
                        lower: probe.1,
                        upper: search.upper,
                        losses: 0,
                        probe: None,
                    },
                );
            }
        }
    }

    /// A packet of the Data space was acknowledged.
    #[tactic(auto, unfolding(crate::specs::Mtu::mtu_acked))]
    pub fn on_acked(&mut self, now: Instant, number: u64, size: u64)
        ensures { self.new ≡ mtu_acked now number size self.old }
    {
        if self.is_probe(number) {
            self.raise(now);
        } else if u64::from(self.least) < size {
            self.holes = self.holes.passed(AckedPacket { number, size });
        }
    }

    fn lower(&mut self, now: Instant, search: Search)
        ensures { self.new ≡ search_lowered now self.old search search.probe }
    {
        if let Some(probe) = search.probe {
            if TRIES - 1 <= search.losses {
                self.phase = rest(
                    now,
                    self.settings,
                    Search {
                        lower: search.lower,
                        upper: probe.1.saturating_sub(1),
                        losses: 0,
                        probe: None,
                    },
                );
            } else {
                self.phase = Phase::Searching(Search {
                    lower: search.lower,
                    upper: search.upper,
                    losses: search.losses + 1,
                    probe: None,
                });
            }
        }
    }

    /// The probe in flight was lost.
    #[tactic(auto, unfolding(crate::specs::Mtu::mtu_probe_lost))]
    pub fn on_probe_lost(&mut self, now: Instant)
        ensures { self.new ≡ mtu_probe_lost now self.old }
    {
        if let Phase::Searching(search) = self.phase {
            self.lower(now, search);
        }
    }

    /// Packets of consecutive numbers in the Data space were lost at once, probes aside: the smallest of
    /// them has this size, and `last` is their greatest number. The fourth such burst that counts shows
    /// a black hole. One counts where all its packets are above the least size, until a packet that was
    /// sent later, and is at least as large as the smallest, is acknowledged, or a probe.
    #[tactic(auto, unfolding(crate::specs::Mtu::mtu_burst))]
    pub fn on_burst_lost(&mut self, now: Instant, smallest: u64, last: u64)
        ensures { self.new ≡ mtu_burst now smallest last self.old }
    {
        let burst = LossBurst { smallest, last };
        if smallest <= u64::from(self.least) || self.holes.clears(burst) {
            return;
        }
        match self.holes.with(burst) {
            Some(holes) => self.holes = holes,
            None => {
                self.current = cap(self.peer, self.least);
                self.holes = BlackHoleDetector::new();
                self.phase = cool(now, self.settings, self.phase);
            }
        }
    }

    /// The probe in flight left the flight, neither acknowledged nor lost.
    #[tactic(auto, unfolding(crate::specs::Mtu::mtu_forgotten))]
    pub fn forget_probe(&mut self)
        ensures { self.new ≡ mtu_forgotten self.old }
    {
        if let Phase::Searching(search) = self.phase {
            self.phase = Phase::Searching(Search {
                lower: search.lower,
                upper: search.upper,
                losses: search.losses,
                probe: None,
            });
        }
    }

    /// The same sizes, and the same search.
    pub fn copy(&self) -> MtuDiscovery
        ensures { result ≡ self.now }
    {
        MtuDiscovery {
            current: self.current,
            least: self.least,
            peer: self.peer,
            settings: self.settings,
            phase: self.phase,
            holes: self.holes,
        }
    }
}

fn due(settings: &SearchSettings, search: Option<Search>) -> Option<u16>
    ensures { result ≡ size_of_probe settings.now search }
{
    match search {
        None => None,
        Some(search) => {
            if search.probe.is_none() && has_next(settings, &search) {
                Some(middle_of(&search))
            } else {
                None
            }
        }
    }
}
