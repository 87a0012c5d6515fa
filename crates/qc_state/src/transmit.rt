//! The datagrams of a transmit: what is known of them as it goes on, and where they go.

ghost use Rattle.std.specs.Prelude.{◌≡◌, ◌-◌};
ghost use Rattle.qc_state.specs.Batches.{batch_begun, batch_grown, batch_opened, is_done, is_last_in, is_whole, next_segment, takes_another, wanted_size};

use crate::form::Form;
use crate::spaces::is_space;
use qc_base::{EcnCodepoint, SpaceId};
use std::cmp::min;
use std::net::{IpAddr, SocketAddr};

/// The size of a client's datagrams that hold an Initial packet, in bytes (RFC 9000, 14.1).
pub const DATAGRAM_SIZE: u64 = 1200;

/// How many bytes a packet leaves at least where another one joins its datagram: those of the longest header of a 1-RTT packet, 32 of
/// frames, and a tag.
pub const JOINING_SIZE: u64 = 103;

/// How much of its room a packet leaves at most while frames wait that could go with it: each frame that cannot be cut has fewer bytes, and so
/// has the head of any other with a byte of its own.
pub const SPARE_ROOM: usize = 64;

/// What is known of the datagrams of a transmit, as it goes on.
#[derive(Clone, Copy)]
pub struct Batch {
    /// Whether a close was owed as the transmit began.
    pub closing: bool,
    /// Whether datagrams with a packet of the Data space are padded up to the size of the others.
    pub pads: bool,
    /// How many datagrams there may be.
    pub most: u64,
    /// How many datagrams were begun.
    pub made: u64,
    /// How many bytes the first datagram may have, and behind it how many each has but the last.
    pub segment: u64,
    /// Up to how many bytes one is filled up that is to be, and how many one for a probe may have at most.
    pub least: u64,
    /// How many bytes the open datagram may have.
    pub capacity: u64,
    /// How many bytes it has. The count stands still at 2^64 - 1.
    pub filled: u64,
    /// How many of them are PADDING. The count stands still at 2^64 - 1.
    pub padding: u64,
    /// Whether a packet in it has a short header, which says not where it ends.
    pub short: bool,
    /// Whether it is to be filled up.
    pub fills: bool,
    /// Whether it is to have the size of the others, where it may.
    pub wide: bool,
    /// How many bytes all of them have. The count stands still at 2^64 - 1.
    pub total: u64,
    /// The space of the last packet.
    pub space: Option<SpaceId>,
    /// The number of the last packet.
    pub last: u64,
    /// Whether the key of the last packet could seal only two packets more before it: the next one is to be the close.
    pub worn: bool,
    /// Whether a Handshake packet was sealed.
    pub shook: bool,
}

/// Whether the last packet is one of this space.
fn is_last_in(last: Option<SpaceId>, space: SpaceId) -> bool
    ensures { result ≡ is_last_in last space }
{
    match last {
        None => false,
        Some(last) => is_space(last, space),
    }
}

#[tactic(auto, unfolding(crate::specs::Batches::batch_opened, crate::specs::Batches::batch_grown, crate::specs::Batches::is_closed_up))]
impl Batch {
    /// A transmit of at most `most` datagrams begins, with a close owed or without one, on a path whose datagrams have at most `segment`
    /// bytes, and are filled up to `least` that are to be. `pads` says that those with a packet of the Data space are padded up to the size of
    /// the others.
    pub fn new(closing: bool, pads: bool, most: u64, segment: u64, least: u64) -> Batch
        ensures { result ≡ batch_begun closing pads most segment least }
    {
        Batch {
            closing,
            pads,
            most,
            made: 0,
            segment,
            least,
            capacity: 0,
            filled: 0,
            padding: 0,
            short: false,
            fills: false,
            wide: false,
            total: 0,
            space: None,
            last: 0,
            worn: false,
            shook: false,
        }
    }

    /// How many bytes the next datagram may have: what the path takes, and behind the first one what that one has.
    pub fn next_segment(&self) -> u64
        ensures { result ≡ next_segment self.now }
    {
        if self.made == 1 {
            return self.filled;
        }
        self.segment
    }

    /// Whether the last packet is one of this space.
    pub fn is_last_in(&self, space: SpaceId) -> bool
        ensures { result ≡ is_last_in self.now.space space }
    {
        is_last_in(self.space, space)
    }

    /// How many bytes are left in the open datagram.
    pub fn left(&self) -> usize
        ensures { result ≡ self.now.capacity - self.now.filled }
    {
        self.capacity.saturating_sub(self.filled) as usize
    }

    /// Whether no packet need join the open datagram: there is none, or its last packet is one that says not where it ends, or fewer than
    /// 128 bytes are left beside its PADDING.
    pub fn is_done(&self) -> bool
        ensures { result ≡ is_done self.now }
    {
        let filled = self.filled.saturating_sub(self.padding);
        self.made == 0 || (self.short || self.capacity.saturating_sub(filled) < 128)
    }

    /// Whether a further packet joins the open datagram.
    pub fn takes_another(&self) -> bool
        ensures { result ≡ takes_another self.now }
    {
        0 < self.made && (!self.short && JOINING_SIZE <= self.capacity.saturating_sub(self.filled))
    }

    /// Whether another datagram may stand behind the open one: it has as many bytes as each but the last is to have.
    pub fn is_whole(&self) -> bool
        ensures { result ≡ is_whole self.now }
    {
        self.made == 0 || self.filled == self.next_segment()
    }

    /// A packet is begun; a datagram begins with it, or it joins one. `probes` says that a probe is due in its space: the datagram
    /// then has at most the size that others are filled up to.
    pub fn open(&mut self, opens: bool, probes: bool)
        ensures { self.new ≡ batch_opened opens probes self.old }
    {
        if opens {
            let segment = self.next_segment();
            self.capacity = if probes {
                min(self.least, segment)
            } else {
                segment
            };
            self.made = self.made.saturating_add(1);
            self.segment = segment;
            self.filled = 0;
            self.padding = 0;
            self.short = false;
            self.fills = false;
            self.wide = false;
        }
    }

    /// How many bytes the open datagram is to have at least, by what its packets ask for.
    pub fn wanted(&self) -> u64
        ensures { result ≡ wanted_size self.now }
    {
        if self.wide && self.segment <= self.capacity {
            return self.segment;
        }
        if self.fills {
            return self.least;
        }
        0
    }

    /// A packet of this form was sealed, with this number, so many bytes, and so many of PADDING among them; `fills` says that it fills
    /// up its datagram, and `nearly` that its key could seal only two packets more before.
    pub fn grow(
        &mut self,
        form: Form,
        number: u64,
        size: u64,
        padding: u64,
        fills: bool,
        nearly: bool,
    )
        ensures { self.new ≡ batch_grown form number size padding fills nearly self.old }
    {
        self.filled = self.filled.saturating_add(size);
        self.padding = self.padding.saturating_add(padding);
        self.short = self.short || form.is_one_rtt();
        self.fills = self.fills || fills;
        self.wide = self.wide || (self.pads && is_space(form.space(), SpaceId::Data));
        self.total = self.total.saturating_add(size);
        self.space = Some(form.space());
        self.last = number;
        self.worn = nearly;
        self.shook = self.shook || is_space(form.space(), SpaceId::Handshake);
    }
}

/// Where the datagrams of a transmit go, and how. Their bytes stand in the buffer that was handed in.
#[derive(Clone, Copy)]
pub struct Transmit {
    /// The address to send to.
    pub destination: SocketAddr,
    /// The mark of explicit congestion notification (RFC 9000, 13.4).
    pub ecn: Option<EcnCodepoint>,
    /// How many bytes of the buffer were written.
    pub size: usize,
    /// The size of each datagram but the last, where there are several.
    pub segment_size: Option<usize>,
    /// The address to send from, where the connection was given one.
    pub src_ip: Option<IpAddr>,
}
