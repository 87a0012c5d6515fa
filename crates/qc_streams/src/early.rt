//! Early data that the server refuses.

ghost use Rattle.std.specs.Prelude.{◌≡◌};
ghost use Rattle.qc_streams.specs.Early.{early_refused};

use crate::blocked::Blocked;
use crate::counts::ByDir;
use crate::credit::Outgoing;
use crate::events::Events;
use crate::records::Records;
use crate::state::{PeerLimits, StreamsState, no_own};
use crate::waiting::Waiting;

impl StreamsState {
    /// The server refused early data: all streams are as new, none is open, and the peer's limits are
    /// unknown until its transport parameters come (RFC 9001, section 4.6.2). What the application set
    /// stays; where the peer was told of it in early data alone, it waits to be told again.
    #[tactic(auto, unfolding(crate::specs::Early::early_refused))]
    pub fn early_refused(&mut self)
        ensures { self.new ≡ early_refused self.old }
    {
        let alloc = self.records.alloc();
        self.records = Records::new(alloc);
        self.own = ByDir {
            bi: no_own(0),
            uni: no_own(0),
        };
        self.peer = ByDir {
            bi: self.peer.bi.anew(),
            uni: self.peer.uni.anew(),
        };
        self.limits = PeerLimits::none();
        self.incoming = self.incoming.anew();
        self.outgoing = Outgoing::new();
        self.events = Events::new(alloc);
        self.waiting = Waiting::new(alloc);
        self.blocked = Blocked::new(alloc);
    }
}
