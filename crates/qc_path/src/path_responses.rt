//! Answers to the peer's PATH_CHALLENGEs (RFC 9000, section 8.2.2).

ghost use Rattle.std.specs.Prelude.{◌≡◌, ◌==◌, [], length, position};
ghost use Rattle.qc_path.specs.PathResponses.{IsToNobody, IsWithin, challenged, counting, is_for, is_for_other, left_at, taken_at};

use arrayvec::ArrayVec;
use std::default::Default;
use std::marker::Model;
use std::net::{IpAddr, Ipv4Addr, SocketAddr};

/// For how many addresses an answer waits at most.
const ADDRESSES: usize = 16;

/// An answer that waits.
#[derive(Clone, Copy, Drop)]
pub struct PathResponse {
    /// The number of the packet that held the challenge.
    pub number: u64,
    /// The challenge's word, which the answer repeats.
    pub word: u64,
    /// The address that the challenge came from, to which the answer goes.
    pub remote: SocketAddr,
}

impl Default for PathResponse {
    ghost is_default = { IsToNobody };

    /// An answer to nobody.
    fn default() -> Self {
        PathResponse {
            number: 0,
            word: 0,
            remote: SocketAddr::new(IpAddr::V4(Ipv4Addr::new(0, 0, 0, 0)), 0),
        }
    }
}

/// The answers that wait, for each address at most one, and for at most 16 addresses.
#[derive(Drop)]
pub struct PathResponses {
    waiting: ArrayVec<PathResponse, 16>,
}

impl Model for PathResponses {
    ghost use Rattle.std.specs.Prelude.{List};
    ghost use Rattle.qc_path.specs.declared.path_responses.PathResponse.{PathResponse};

    ghost Value = { List PathResponse };

    ghost view = { λ r. r.waiting.items };
}

/// Which of two answers to one address counts.
fn counting_of(old: PathResponse, new: PathResponse) -> PathResponse
    ensures { result ≡ counting old new }
{
    if old.number <= new.number { new } else { old }
}

impl PathResponses {
    /// None waits.
    pub fn new() -> PathResponses
        ensures { result ≡ [] }
    {
        PathResponses {
            waiting: ArrayVec::new(),
        }
    }

    /// Whether none waits.
    pub fn is_empty(&self) -> bool
        ensures { result ≡ (length self.now == 0) }
    {
        self.waiting.is_empty()
    }

    /// The place of the first answer to an address.
    fn place_for(&self, remote: &SocketAddr) -> Option<usize>
        ensures place { result ≡ position (is_for ⟦<SocketAddr as PartialEq>⟧.eq remote.now) self.now }
        ensures within { IsWithin result self.now }
    {
        self.waiting
            .as_slice()
            .iter()
            .position(|response| response.remote == *remote)
    }

    /// The place of the first answer to another address.
    fn place_for_other(&self, remote: &SocketAddr) -> Option<usize>
        ensures place { result ≡ position (is_for_other ⟦<SocketAddr as PartialEq>⟧.eq remote.now) self.now }
        ensures within { IsWithin result self.now }
    {
        self.waiting
            .as_slice()
            .iter()
            .position(|response| response.remote != *remote)
    }

    /// A challenge came. Where an answer to its address waits already, the one to the packet with the
    /// greater number counts, and the later one on a tie; where answers to 16 other addresses wait, the
    /// challenge isn't kept.
    #[tactic(auto, unfolding(crate::specs::PathResponses::challenged))]
    pub fn push(&mut self, response: PathResponse)
        ensures { self.new ≡ challenged ⟦<SocketAddr as PartialEq>⟧.eq response self.old }
    {
        match self.place_for(&response.remote) {
            None => {
                if self.waiting.len() < ADDRESSES {
                    self.waiting.push(response);
                }
            }
            Some(place) => {
                let known = self.waiting[place];
                self.waiting.as_mut_slice()[place] = counting_of(known, response);
            }
        }
    }

    /// The answer at a place is taken, if there is a place.
    fn take(&mut self, place: Option<usize>) -> Option<PathResponse>
        requires { IsWithin place self.old }
        ensures taken { result ≡ taken_at place self.old }
        ensures left { self.new ≡ left_at place self.old }
    {
        match place {
            None => None,
            Some(place) => Some(self.waiting.remove(place)),
        }
    }

    /// The answer at a place, if there is a place.
    fn at(&self, place: Option<usize>) -> Option<PathResponse>
        requires { IsWithin place self.now }
        ensures { result ≡ taken_at place self.now }
    {
        match place {
            None => None,
            Some(place) => Some(self.waiting[place]),
        }
    }

    /// A look at the answer to the path's address, which stays, if one waits.
    pub fn peek_on_path(&self, remote: &SocketAddr) -> Option<PathResponse>
        ensures { result ≡ taken_at (position (is_for ⟦<SocketAddr as PartialEq>⟧.eq remote.now) self.now) self.now }
    {
        self.at(self.place_for(remote))
    }

    /// A look at the first answer to another address than the path's, which stays, if one waits.
    pub fn peek_off_path(&self, remote: &SocketAddr) -> Option<PathResponse>
        ensures { result ≡ taken_at (position (is_for_other ⟦<SocketAddr as PartialEq>⟧.eq remote.now) self.now) self.now }
    {
        self.at(self.place_for_other(remote))
    }

    /// Takes the answer to the path's address, if one waits.
    pub fn pop_on_path(&mut self, remote: &SocketAddr) -> Option<PathResponse>
        ensures taken { result ≡ taken_at (position (is_for ⟦<SocketAddr as PartialEq>⟧.eq remote.now) self.old) self.old }
        ensures left { self.new ≡ left_at (position (is_for ⟦<SocketAddr as PartialEq>⟧.eq remote.now) self.old) self.old }
    {
        let place = self.place_for(remote);
        self.take(place)
    }

    /// Takes the first answer to another address than the path's, if one waits.
    pub fn pop_off_path(&mut self, remote: &SocketAddr) -> Option<PathResponse>
        ensures taken { result ≡ taken_at (position (is_for_other ⟦<SocketAddr as PartialEq>⟧.eq remote.now) self.old) self.old }
        ensures left { self.new ≡ left_at (position (is_for_other ⟦<SocketAddr as PartialEq>⟧.eq remote.now) self.old) self.old }
    {
        let place = self.place_for_other(remote);
        self.take(place)
    }
}
