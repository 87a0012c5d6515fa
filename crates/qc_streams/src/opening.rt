//! Which streams are open, and how they come and go.

ghost use Rattle.std.specs.Prelude.{◌≡◌, ◌<◌, ◌^◌, ◌||◌, OnOk, OnErr, if◌then◌else◌};
ghost use Rattle.qc_streams.specs.Counts.{by_dir, dir_put, place_freed};
ghost use Rattle.qc_streams.specs.Kept.{kept_of};
ghost use Rattle.qc_streams.specs.Streams.{counted, dir_of, is_own, is_own_unopened, is_past_limit, is_peer_unopened, opened_with, left_over, lingering, released, settled, stops_later, told_if, removed, with_lower};
ghost use Rattle.qc_streams.specs.Queues.{place_made};
ghost use Rattle.qc_streams.specs.Records.{changed, record_of, with_new};
ghost use Rattle.qc_streams.specs.Sends.{sends_of};
ghost use Rattle.qc_streams.specs.Stream.{is_freed, with_freed};

use crate::events::StreamEvent;
use crate::kinds::{dir_of, of_kind};
use crate::records::Records;
use crate::state::StreamsState;
use crate::stream::{Stream, Totals};
use crate::waiting::owes_stop;
use qc_base::Side;
use std::alloc::AllocError;

impl Stream {
    /// Its place is freed.
    #[tactic(auto, unfolding(crate::specs::Stream::with_freed))]
    fn set_freed(&mut self)
        ensures freed { self.new ≡ with_freed self.old }
        ensures same { kept_of self.new ≡ kept_of self.old }
        ensures still { sends_of self.new ≡ sends_of self.old }
    {
        self.freed = true;
    }
}

impl Records {
    /// Whether there is a stream with an id whose place was freed.
    fn is_freed(&self, id: u64) -> bool
        ensures { result ≡ is_freed (record_of id self.now) }
    {
        match self.streams.get(id) {
            Some(stream) => stream.freed,
            None => false,
        }
    }

    /// Whether there is a stream with an id whose STOP_SENDING waits.
    fn stops_later(&self, id: u64) -> bool
        ensures { result ≡ stops_later (record_of id self.now) }
    {
        match self.streams.get(id) {
            Some(stream) => owes_stop(&stream.receiving),
            None => false,
        }
    }

    /// The place of the stream with an id is freed.
    #[tactic(auto, using(crate::proofs::Keeping::same, crate::proofs::Sending::still))]
    fn set_freed(&mut self, id: u64)
        ensures { self.new ≡ changed with_freed id self.old }
    {
        let Some(stream) = self.streams.get_mut(id) else {
            return;
        };
        stream.set_freed();
    }
}

impl StreamsState {
    /// Whether this end opens the stream with an id.
    #[tactic(auto, unfolding(crate::specs::Streams::is_own))]
    pub(crate) fn is_own(&self, id: u64) -> bool
        ensures { result ≡ is_own self.now.side id }
    {
        let bit = match self.side {
            Side::Client => 0,
            Side::Server => 1,
        };
        id % 2 == bit
    }

    /// Whether this end hasn't opened its stream with an id yet.
    #[tactic(auto, unfolding(crate::specs::Streams::is_own_unopened))]
    pub(crate) fn is_own_unopened(&self, id: u64) -> bool
        ensures { result ≡ is_own_unopened id self.now }
    {
        let own = self.own.get(dir_of(id));
        own.opened <= id / 4
    }

    /// Whether the peer hasn't opened its stream with an id yet.
    #[tactic(auto, unfolding(crate::specs::Streams::is_peer_unopened))]
    pub(crate) fn is_peer_unopened(&self, id: u64) -> bool
        ensures { result ≡ is_peer_unopened id self.now }
    {
        let peer = self.peer.get(dir_of(id));
        !self.is_own(id) && peer.opened.value() <= id / 4
    }

    /// Whether the peer may not open its stream with an id.
    #[tactic(auto, unfolding(crate::specs::Streams::is_past_limit))]
    pub(crate) fn is_past_limit(&self, id: u64) -> bool
        ensures { result ≡ is_past_limit id self.now }
    {
        let peer = self.peer.get(dir_of(id));
        !self.is_own(id) && peer.limit.value() <= id / 4
    }

    /// Adds a stream, with a place for its mark.
    #[tactic(auto, unfolding(crate::specs::Queues::place_made))]
    pub(crate) fn add(&mut self, id: u64, stream: Stream) -> Result<(), AllocError>
        requires { kept_of stream ≡ 0 }
        ensures added { OnOk result (self.new ≡ record self.old { records = with_new id stream self.old.records; waiting = place_made self.old.waiting }) }
        ensures err { OnErr result (self.new ≡ self.old) }
    {
        self.waiting.marks.add_place()?;
        match self.records.insert(id, stream) {
            Ok(()) => Ok(()),
            Err(error) => {
                self.waiting.marks.drop_place();
                Err(error)
            }
        }
    }

    /// Adds all streams of the peer that lie below an id of their kind and aren't open.
    #[tactic(auto, unfolding(crate::specs::Streams::lower_opened, crate::specs::Streams::lower_unopened, crate::specs::Streams::made, crate::specs::Queues::places_made))]
    fn open_lower(&mut self, id: u64) -> Result<(), AllocError>
        requires { id < 2 ^ 62 }
        ensures { OnOk result (self.new ≡ with_lower id self.old) }
    {
        let dir = dir_of(id);
        let first = self.peer.get(dir).opened.value();
        let missing = (id / 4).saturating_sub(first);
        let mut count = 0;
        while count < missing {
            let stream = self.fresh_peer(dir);
            self.add(of_kind(id, first + count), stream)?;
            count += 1;
        }
        Ok(())
    }

    /// The peer opens the stream with an id, and all lower ones of its kind.
    #[tactic(auto, unfolding(crate::specs::Streams::opened_with, crate::specs::Streams::lower_opened))]
    pub(crate) fn open_with(&mut self, id: u64, stream: Stream) -> Result<(), AllocError>
        requires id { id < 2 ^ 62 }
        requires none { kept_of stream ≡ 0 }
        ensures { OnOk result (self.new ≡ opened_with id stream self.old) }
    {
        self.open_lower(id)?;
        self.add(id, stream)?;
        let dir = dir_of(id);
        let peer = self.peer.get(dir).with_opened(id / 4);
        self.peer.put(dir, peer);
        Ok(())
    }

    /// A stream of the peer that has ended frees its place, unless it did before.
    fn free_place(&mut self, id: u64)
        ensures { self.new ≡ record self.old { peer = if is_own self.old.side id || is_freed (record_of id self.old.records) then self.old.peer else dir_put (dir_of id) (place_freed (by_dir (dir_of id) self.old.peer)) self.old.peer } }
    {
        if self.is_own(id) || self.records.is_freed(id) {
            return;
        }
        let dir = dir_of(id);
        let peer = self.peer.get(dir).with_place();
        self.peer.put(dir, peer);
    }

    /// A stream leaves.
    #[tactic(auto, unfolding(crate::specs::Streams::removed, crate::specs::Queues::place_left))]
    fn remove(&mut self, id: u64)
        ensures { self.new ≡ removed id self.old }
    {
        self.free_place(id);
        if self.records.is_idle(id) {
            self.waiting.marks.drop_place();
        }
        self.records.remove(id);
    }

    /// A stream that has ended stays for its STOP_SENDING, and frees its place.
    #[tactic(auto, unfolding(crate::specs::Streams::lingering))]
    pub(crate) fn linger(&mut self, id: u64)
        ensures { self.new ≡ lingering id self.old }
    {
        self.free_place(id);
        self.records.set_freed(id);
        self.touch(id);
    }

    /// A stream that has ended leaves.
    #[tactic(auto, unfolding(crate::specs::Streams::left_over))]
    pub(crate) fn let_go(&mut self, id: u64)
        ensures { self.new ≡ left_over id self.old }
    {
        if self.records.has_ended(id) {
            self.release(id);
        }
    }

    /// A stream leaves, with its turn and with what it owes.
    #[tactic(auto, unfolding(crate::specs::Streams::released, crate::specs::Streams::forgotten))]
    pub(crate) fn release(&mut self, id: u64)
        ensures { self.new ≡ released id self.old }
    {
        self.waiting.forget(id);
        self.leave(id);
        self.remove(id);
    }

    /// A stream that has ended leaves, once no STOP_SENDING of it waits; of another it is looked at what it
    /// owes now.
    #[tactic(auto, unfolding(crate::specs::Streams::settled))]
    pub(crate) fn settle(&mut self, id: u64)
        ensures { self.new ≡ settled id self.old }
    {
        if !self.records.has_ended(id) {
            self.touch(id);
        } else if self.records.stops_later(id) {
            self.linger(id);
        } else {
            self.release(id);
        }
    }

    /// What came on a stream since it counted `before` counts for the connection.
    #[tactic(auto, unfolding(crate::specs::Streams::counted))]
    pub(crate) fn count(&mut self, before: Totals, id: u64)
        ensures { self.new ≡ counted before id self.old }
    {
        let after = self.records.totals(id);
        self.incoming.tally(before, after);
    }

    /// An event waits, if it is to be told.
    #[tactic(auto, unfolding(crate::specs::Streams::told_if))]
    pub(crate) fn tell_if(&mut self, tells: bool, event: StreamEvent) -> Result<(), AllocError>
        ensures { OnOk result (self.new ≡ told_if tells event self.old) }
    {
        if tells {
            self.events.push(event)?;
        }
        Ok(())
    }
}
