//! The state over all streams of a connection.

ghost use Rattle.std.specs.Prelude.{◌≡◌, ◌-◌, ◌<◌, ◌^◌, IsTrue, IfOk, OnOk, OnErr, None, Some, if◌then◌else◌};
ghost use Rattle.qc_streams.specs.Counts.{by_dir, has_accepted};
ghost use Rattle.qc_streams.specs.Kept.{kept_of};
ghost use Rattle.qc_recv.specs.Receiving.{new_receiving};
ghost use Rattle.qc_streams.specs.Streams.{accepted_one, closed, failed, fresh_own, fresh_peer, limits_set, may_open, new_streams, next_accepted, next_own, no_limits, no_own, no_peer, opened_own, other};

use crate::blocked::Blocked;
use crate::counts::{ByDir, OwnStreams, PeerStreams, StreamLimit};
use crate::credit::{Incoming, Outgoing};
use crate::events::Events;
use crate::records::Records;
use crate::stream::Stream;
use crate::waiting::Waiting;
use qc_base::{Dir, Side, StreamId, VarInt};
use qc_recv::Recv;
use qc_send_stream::SendPart;
use std::alloc::{AllocError, Global};

/// The peer's first limits, as its transport parameters tell them (RFC 9000, section 18.2).
#[derive(Clone, Copy, Debug)]
pub struct PeerLimits {
    /// How many bytes it takes of all streams together.
    pub all_data: u64,
    /// How many bidirectional streams it lets this end open.
    pub bidi_streams: u64,
    /// How many unidirectional ones.
    pub uni_streams: u64,
    /// How many bytes it takes of a bidirectional stream that it opens.
    pub peer_bidi_data: VarInt,
    /// How many of a bidirectional stream that this end opens.
    pub own_bidi_data: VarInt,
    /// How many of a unidirectional stream that this end opens.
    pub own_uni_data: VarInt,
}

/// The state over all streams of a connection (RFC 9000, sections 2 to 4).
#[derive(Drop)]
pub struct StreamsState {
    /// Which end this is.
    pub side: Side,
    /// Whether the connection is closed.
    pub closed: bool,
    /// Whether memory ran out in a call of the application: the connection has failed.
    pub failed: bool,
    /// The streams that are open: those that were opened and haven't ended.
    pub records: Records,
    /// How many streams this end opened, and may open.
    pub own: ByDir<OwnStreams>,
    /// How many streams the peer opened, and may open.
    pub peer: ByDir<PeerStreams>,
    /// The peer's first limits.
    pub limits: PeerLimits,
    /// How many bytes of a stream may be underway or unread.
    pub stream_window: u64,
    /// How many bytes may be kept until they are acknowledged, on all streams.
    pub send_window: u64,
    /// The credit for what comes.
    pub incoming: Incoming,
    /// The credit for what is sent.
    pub outgoing: Outgoing,
    /// The events that wait.
    pub events: Events,
    /// What waits to be sent for single streams.
    pub waiting: Waiting,
    /// Streams that wait until they can be written on again.
    pub blocked: Blocked,
    /// Whether streams of one priority take turns.
    pub fair: bool,
}

impl PeerLimits {
    /// The peer takes nothing yet.
    #[tactic(auto, unfolding(crate::specs::Streams::no_limits))]
    pub fn none() -> PeerLimits
        ensures { result ≡ no_limits }
    {
        let nothing = VarInt::from_u32(0);
        PeerLimits {
            all_data: 0,
            bidi_streams: 0,
            uni_streams: 0,
            peer_bidi_data: nothing,
            own_bidi_data: nothing,
            own_uni_data: nothing,
        }
    }
}

/// So many streams may be opened, and none was.
#[tactic(auto, unfolding(crate::specs::Streams::no_own))]
pub(crate) fn no_own(limit: u64) -> OwnStreams
    ensures { result ≡ no_own limit }
{
    OwnStreams {
        limit: StreamLimit::new(limit),
        opened: 0,
    }
}

/// The peer may have so many streams open, and opened none.
#[tactic(auto, unfolding(crate::specs::Streams::no_peer, crate::specs::Counts::at_most))]
fn no_peer(limit: u64) -> PeerStreams
    ensures { result ≡ no_peer limit }
{
    let limit = StreamLimit::new(limit);
    PeerStreams {
        concurrent: limit,
        limit,
        announced: limit,
        first: limit,
        opened: StreamLimit::new(0),
        ended: 0,
        accepted: 0,
        tells: false,
        waits: false,
    }
}

impl StreamsState {
    /// No stream is open: the peer may have so many of each direction open, and sends no more than
    /// the windows allow; no more than the send window is kept until it is acknowledged.
    #[tactic(auto, unfolding(crate::specs::Streams::new_streams))]
    pub fn new(
        alloc: Global,
        side: Side,
        uni: VarInt,
        bi: VarInt,
        window: VarInt,
        stream_window: VarInt,
        send_window: u64,
        fair: bool,
    ) -> Self
        ensures { result ≡ new_streams side uni bi window stream_window send_window fair }
    {
        StreamsState {
            side,
            closed: false,
            failed: false,
            records: Records::new(alloc),
            own: ByDir {
                bi: no_own(0),
                uni: no_own(0),
            },
            peer: ByDir {
                bi: no_peer(bi.into_inner()),
                uni: no_peer(uni.into_inner()),
            },
            limits: PeerLimits::none(),
            stream_window: stream_window.into_inner(),
            send_window,
            incoming: Incoming::new(window.into_inner()),
            outgoing: Outgoing::new(),
            events: Events::new(alloc),
            waiting: Waiting::new(alloc),
            blocked: Blocked::new(alloc),
            fair,
        }
    }

    /// The peer's first limits are known (RFC 9000, section 18.2).
    #[tactic(auto, unfolding(crate::specs::Streams::limits_set))]
    pub fn set_limits(&mut self, limits: PeerLimits)
        ensures { self.new ≡ limits_set limits self.old }
    {
        let data = limits.all_data;
        self.outgoing.raise_limit(data);
        let bi = self.own.get(Dir::Bi).with_limit(limits.bidi_streams);
        let uni = self.own.get(Dir::Uni).with_limit(limits.uni_streams);
        self.own = ByDir { bi, uni };
        self.limits = limits;
        self.tell_writables(None);
    }

    /// A receiving side of which nothing came.
    fn fresh_receiving(&self) -> Recv
        ensures { result ≡ new_receiving self.now.stream_window }
    {
        Recv::new(self.records.alloc(), self.stream_window)
    }

    /// A stream that this end opens.
    #[tactic(auto, unfolding(crate::specs::Stream::fresh_stream, qc_send_stream::specs::Sending::new_sending, qc_send_stream::specs::Buffer::nothing))]
    fn fresh_own(&self, dir: Dir) -> Stream
        ensures fresh { result ≡ fresh_own dir self.now }
        ensures none { kept_of result ≡ 0 }
    {
        let alloc = self.records.alloc();
        match dir {
            Dir::Bi => {
                let sending = SendPart::new(alloc, self.limits.own_bidi_data);
                Stream::fresh(true, Some(self.fresh_receiving()), Some(sending))
            }
            Dir::Uni => {
                let sending = SendPart::new(alloc, self.limits.own_uni_data);
                Stream::fresh(true, None, Some(sending))
            }
        }
    }

    /// A stream that the peer opens.
    #[tactic(auto, unfolding(crate::specs::Stream::fresh_stream, qc_send_stream::specs::Sending::new_sending, qc_send_stream::specs::Buffer::nothing))]
    pub(crate) fn fresh_peer(&self, dir: Dir) -> Stream
        ensures fresh { result ≡ fresh_peer dir self.now }
        ensures none { kept_of result ≡ 0 }
    {
        let alloc = self.records.alloc();
        match dir {
            Dir::Bi => {
                let sending = SendPart::new(alloc, self.limits.peer_bidi_data);
                Stream::fresh(false, Some(self.fresh_receiving()), Some(sending))
            }
            Dir::Uni => Stream::fresh(false, Some(self.fresh_receiving()), None),
        }
    }

    /// Whether the application may open a stream.
    #[tactic(auto, unfolding(crate::specs::Streams::may_open))]
    pub fn may_open(&self, dir: Dir) -> bool
        ensures may { result ≡ may_open dir self.now }
        ensures fits { IsTrue result → (by_dir dir self.now.own).opened < 2 ^ 60 }
    {
        let own = self.own.get(dir);
        !self.closed && own.opened < own.limit.value()
    }

    /// Adds the next stream of this end.
    #[tactic(auto, unfolding(crate::specs::Streams::opened_own, crate::specs::Streams::next_own))]
    fn open_next(&mut self, dir: Dir) -> Result<StreamId, AllocError>
        requires { (by_dir dir self.old.own).opened < 2 ^ 60 }
        ensures id { IfOk result (λ id. id ≡ next_own dir self.old) }
        ensures opened { OnOk result (self.new ≡ opened_own dir self.old) }
        ensures err { OnErr result (self.new ≡ self.old) }
    {
        let own = self.own.get(dir);
        let id = StreamId::new(self.side, dir, own.opened);
        let stream = self.fresh_own(dir);
        self.add(id.value(), stream)?;
        self.own.put(dir, own.with_one());
        Ok(id)
    }

    /// Opens a stream. None exactly where the connection is closed or the peer's limit is reached
    /// (RFC 9000, section 4.6).
    ///
    /// # Errors
    ///
    /// Want of memory; nothing changes then.
    pub fn open(&mut self, dir: Dir) -> Result<Option<StreamId>, AllocError>
        ensures id { IfOk result (λ id. id ≡ (if may_open dir self.old then Some (next_own dir self.old) else None)) }
        ensures opened { OnOk result (self.new ≡ (if may_open dir self.old then opened_own dir self.old else self.old)) }
        ensures err { OnErr result (self.new ≡ self.old) }
    {
        if !self.may_open(dir) {
            return Ok(None);
        }
        let id = self.open_next(dir)?;
        Ok(Some(id))
    }

    /// The other end.
    fn other(&self) -> Side
        ensures { result ≡ other self.now.side }
    {
        match self.side {
            Side::Client => Side::Server,
            Side::Server => Side::Client,
        }
    }

    /// Accepts the next stream that the peer opened. None exactly where all were accepted.
    #[tactic(auto, unfolding(crate::specs::Streams::accepted_one, crate::specs::Streams::next_accepted, crate::specs::Counts::has_accepted))]
    pub fn accept(&mut self, dir: Dir) -> Option<StreamId>
        ensures id { result ≡ (if has_accepted (by_dir dir self.old.peer) then None else Some (next_accepted dir self.old)) }
        ensures accepted { self.new ≡ (if has_accepted (by_dir dir self.old.peer) then self.old else accepted_one dir self.old) }
    {
        let peer = self.peer.get(dir);
        if peer.accepted >= peer.opened.value() {
            return None;
        }
        let id = StreamId::new(self.other(), dir, peer.accepted);
        self.peer.put(dir, peer.with_accepted());
        self.records.take(id.value());
        Some(id)
    }

    /// How many streams the peer opened that haven't ended.
    pub fn remote_open_streams(&self, dir: Dir) -> u64
        ensures { result ≡ (by_dir dir self.now.peer).opened - (by_dir dir self.now.peer).ended }
    {
        let peer = self.peer.get(dir);
        peer.opened.value().saturating_sub(peer.ended)
    }

    /// The connection is closed.
    pub fn close(&mut self)
        ensures { self.new ≡ closed self.old }
    {
        self.closed = true;
    }

    /// Memory ran out: the connection has failed.
    pub(crate) fn fail(&mut self)
        ensures { self.new ≡ failed self.old }
    {
        self.failed = true;
    }
}
