//! The events that are told, and the credit and the places that are owed to the peer.

ghost use Rattle.std.specs.Prelude.{◌≡◌, Some};
ghost use Rattle.qc_streams.specs.Owed.{max_data_lost, max_data_owed, max_data_sealed, max_streams_lost, max_streams_owed, max_streams_sealed, next_event, polled, told_opened};

use crate::events::StreamEvent;
use crate::state::StreamsState;
use qc_base::Dir;

impl StreamsState {
    /// That the peer opened streams is told.
    #[tactic(auto, unfolding(crate::specs::Owed::told_opened))]
    fn tell_opened(&mut self, dir: Dir) -> Option<StreamEvent>
        ensures event { result ≡ Some (StreamEvent.Opened dir) }
        ensures told { self.new ≡ told_opened dir self.old }
    {
        let peer = self.peer.get(dir).with_told();
        self.peer.put(dir, peer);
        Some(StreamEvent::Opened { dir })
    }

    /// The next event: that the peer opened streams comes before all others, the others come in the
    /// order of their causes. None exactly where none waits.
    #[tactic(auto, unfolding(crate::specs::Owed::next_event, crate::specs::Owed::polled))]
    pub fn poll(&mut self) -> Option<StreamEvent>
        ensures event { result ≡ next_event self.old }
        ensures told { self.new ≡ polled self.old }
    {
        if self.peer.bi.tells {
            return self.tell_opened(Dir::Bi);
        }
        if self.peer.uni.tells {
            return self.tell_opened(Dir::Uni);
        }
        self.events.pop()
    }

    /// The credit of a MAX_DATA that waits (RFC 9000, section 19.9).
    #[tactic(auto, unfolding(crate::specs::Owed::max_data_owed))]
    pub fn max_data_owed(&self) -> Option<u64>
        ensures { result ≡ max_data_owed self.now }
    {
        if self.incoming.waits {
            Some(self.incoming.credit_value())
        } else {
            None
        }
    }

    /// A MAX_DATA with that credit was sealed.
    #[tactic(auto, unfolding(crate::specs::Owed::max_data_sealed))]
    pub fn max_data_sealed(&mut self)
        ensures { self.new ≡ max_data_sealed self.old }
    {
        self.incoming.credit_sealed();
    }

    /// A MAX_DATA was lost.
    #[tactic(auto, unfolding(crate::specs::Owed::max_data_lost))]
    pub fn max_data_lost(&mut self)
        ensures { self.new ≡ max_data_lost self.old }
    {
        self.incoming.credit_lost();
    }

    /// The number of a MAX_STREAMS that waits (RFC 9000, section 19.11).
    #[tactic(auto, unfolding(crate::specs::Owed::max_streams_owed))]
    pub fn max_streams_owed(&self, dir: Dir) -> Option<u64>
        ensures { result ≡ max_streams_owed dir self.now }
    {
        let peer = self.peer.get(dir);
        if peer.waits {
            Some(peer.limit.value())
        } else {
            None
        }
    }

    /// A MAX_STREAMS with that number was sealed.
    #[tactic(auto, unfolding(crate::specs::Owed::max_streams_sealed))]
    pub fn max_streams_sealed(&mut self, dir: Dir)
        ensures { self.new ≡ max_streams_sealed dir self.old }
    {
        let peer = self.peer.get(dir).with_sealed();
        self.peer.put(dir, peer);
    }

    /// A MAX_STREAMS was lost.
    #[tactic(auto, unfolding(crate::specs::Owed::max_streams_lost))]
    pub fn max_streams_lost(&mut self, dir: Dir)
        ensures { self.new ≡ max_streams_lost dir self.old }
    {
        let peer = self.peer.get(dir).with_lost();
        self.peer.put(dir, peer);
    }
}
