//! How many streams of a kind may be opened, and how many were.

ghost use Rattle.std.specs.Prelude.{◌≡◌, ◌+◌, ◌^◌, ◌<◌, ◌≤◌};
ghost use Rattle.qc_streams.specs.Settings.{concurrent_set};
ghost use Rattle.qc_streams.specs.Early.{places_anew};
ghost use Rattle.qc_streams.specs.Counts.{at_most, by_dir, dir_put, own_opened, own_raised, peer_opened, opening_told, owes_places, place_freed, places_lost, places_sealed, has_accepted, accepted};

use qc_base::Dir;
use std::marker::Model;

/// A number of streams, at most 2^60: more ids there aren't (RFC 9000, section 4.6).
#[derive(Clone, Copy, Debug, PartialEq, Eq)]
pub struct StreamLimit(u64);

impl Model for StreamLimit {
    ghost use Rattle.std.specs.Prelude.{ℕ, ◌≤◌, ◌^◌};

    ghost Value = { ℕ };

    ghost view = { λ limit. limit.0 };

    ghost invariant = { λ limit. limit.0 ≤ 2 ^ 60 };

    ghost inverse = { λ n. record { 0 = n } };
}

impl StreamLimit {
    /// So many streams, held at 2^60.
    #[tactic(auto, unfolding(crate::specs::Counts::at_most))]
    pub fn new(count: u64) -> Self
        ensures { result ≡ at_most count }
    {
        StreamLimit(count.min(1 << 60))
    }

    /// The number.
    pub fn value(self) -> u64
        ensures value { result ≡ self }
        ensures range { result ≤ 2 ^ 60 }
    {
        self.0
    }
}

/// One value for the streams of each direction.
#[derive(Clone, Copy, Debug)]
pub struct ByDir<T> {
    /// That of the bidirectional ones.
    pub bi: T,
    /// That of the unidirectional ones.
    pub uni: T,
}

impl<T: Copy> ByDir<T> {
    /// The value of a direction.
    pub fn get(&self, dir: Dir) -> T
        ensures { result ≡ by_dir dir self.now }
    {
        match dir {
            Dir::Bi => self.bi,
            Dir::Uni => self.uni,
        }
    }

    /// Another value for a direction.
    pub fn put(&mut self, dir: Dir, value: T)
        ensures { self.new ≡ dir_put dir value self.old }
    {
        match dir {
            Dir::Bi => self.bi = value,
            Dir::Uni => self.uni = value,
        }
    }
}

/// This end's own streams of a direction.
#[derive(Clone, Copy, Debug)]
pub struct OwnStreams {
    /// How many the peer lets this end open.
    pub limit: StreamLimit,
    /// How many were opened.
    pub opened: u64,
}

impl OwnStreams {
    /// One more was opened.
    #[tactic(auto, unfolding(crate::specs::Counts::own_opened))]
    pub fn with_one(self) -> OwnStreams
        requires { self.opened < 2 ^ 60 }
        ensures { result ≡ own_opened self }
    {
        OwnStreams {
            limit: self.limit,
            opened: self.opened + 1,
        }
    }

    /// The peer lets this end open so many: a limit only rises.
    #[tactic(auto, unfolding(crate::specs::Counts::own_raised, crate::specs::Counts::at_most))]
    pub fn with_limit(self, count: u64) -> OwnStreams
        ensures { result ≡ own_raised count self }
    {
        OwnStreams {
            limit: StreamLimit::new(self.limit.value().max(count)),
            opened: self.opened,
        }
    }
}

/// The peer's streams of a direction.
#[derive(Clone, Copy, Debug)]
pub struct PeerStreams {
    /// How many may be open at the same time.
    pub concurrent: StreamLimit,
    /// How many the peer may open in all.
    pub limit: StreamLimit,
    /// The limit that the peer was told.
    pub announced: StreamLimit,
    /// How many the peer opened.
    pub opened: StreamLimit,
    /// The limit that the transport parameters announced.
    pub first: StreamLimit,
    /// How many of them ended.
    pub ended: u64,
    /// How many of them the application accepted.
    pub accepted: u64,
    /// Whether the application is to be told that the peer opened some.
    pub tells: bool,
    /// Whether a MAX_STREAMS waits.
    pub waits: bool,
}

impl PeerStreams {
    /// The peer opened all up to that index.
    #[tactic(auto, unfolding(crate::specs::Counts::peer_opened))]
    pub fn with_opened(self, index: u64) -> PeerStreams
        requires { index < 2 ^ 60 }
        ensures { result ≡ peer_opened index self }
    {
        let mut next = self;
        next.opened = StreamLimit::new(index + 1);
        next.tells = true;
        next
    }

    /// Whether the peer is owed the number of places.
    #[tactic(auto, unfolding(crate::specs::Counts::owes_places))]
    fn owes_places(&self) -> bool
        ensures { result ≡ owes_places self.now }
    {
        let places = self.limit.value().saturating_sub(self.announced.value());
        self.concurrent.value() / 8 < places
    }

    /// One of them ended, which frees a place.
    #[tactic(auto, unfolding(crate::specs::Counts::place_freed, crate::specs::Counts::with_place, crate::specs::Counts::saturated))]
    pub fn with_place(self) -> PeerStreams
        ensures { result ≡ place_freed self }
    {
        let ended = self.ended.saturating_add(1);
        let mut next = self;
        next.ended = ended;
        let places = ended.saturating_add(self.concurrent.value());
        next.limit = StreamLimit::new(self.limit.value().max(places));
        next.waits = next.waits || next.owes_places();
        next
    }

    /// So many of them may be open at a time.
    #[tactic(auto, unfolding(crate::specs::Settings::concurrent_set, crate::specs::Settings::with_concurrent, crate::specs::Counts::saturated, crate::specs::Counts::at_most))]
    pub fn with_concurrent(self, count: u64) -> PeerStreams
        ensures { result ≡ concurrent_set count self }
    {
        let concurrent = StreamLimit::new(count);
        let mut next = self;
        next.concurrent = concurrent;
        let places = self.ended.saturating_add(concurrent.value());
        next.limit = StreamLimit::new(self.limit.value().max(places));
        next.waits = next.waits || next.owes_places();
        next
    }

    /// None was opened, and the peer knows the transport parameters alone.
    #[tactic(auto, unfolding(crate::specs::Early::places_anew, crate::specs::Counts::at_most))]
    pub(crate) fn anew(self) -> PeerStreams
        ensures { result ≡ places_anew self }
    {
        let mut next = self;
        next.announced = self.first;
        next.opened = StreamLimit::new(0);
        next.ended = 0;
        next.accepted = 0;
        next.tells = false;
        next.waits = next.owes_places();
        next
    }

    /// A MAX_STREAMS with the limit was sealed.
    #[tactic(auto, unfolding(crate::specs::Counts::places_sealed))]
    pub fn with_sealed(self) -> PeerStreams
        ensures { result ≡ places_sealed self }
    {
        let mut next = self;
        next.announced = self.limit;
        next.waits = false;
        next
    }

    /// A MAX_STREAMS was lost.
    #[tactic(auto, unfolding(crate::specs::Counts::places_lost))]
    pub fn with_lost(self) -> PeerStreams
        ensures { result ≡ places_lost self }
    {
        let mut next = self;
        next.waits = true;
        next
    }

    /// That the peer opened some was told.
    #[tactic(auto, unfolding(crate::specs::Counts::opening_told))]
    pub fn with_told(self) -> PeerStreams
        ensures { result ≡ opening_told self }
    {
        let mut next = self;
        next.tells = false;
        next
    }

    /// Whether all of them were accepted.
    #[tactic(auto, unfolding(crate::specs::Counts::has_accepted))]
    pub fn has_accepted(self) -> bool
        ensures { result ≡ has_accepted self }
    {
        self.accepted >= self.opened.value()
    }

    /// The next one is accepted.
    #[tactic(auto, unfolding(crate::specs::Counts::accepted))]
    pub fn with_accepted(self) -> PeerStreams
        requires { self.accepted < self.opened }
        ensures { result ≡ accepted self }
    {
        let mut next = self;
        next.accepted = self.accepted + 1;
        next
    }
}
