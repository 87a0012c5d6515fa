//! The connection's credit for what comes, and for what is sent.

ghost use Rattle.std.specs.Prelude.{◌≡◌, ◌≤◌};
ghost use Rattle.qc_streams.specs.Early.{credit_anew};
ghost use Rattle.qc_streams.specs.Credit.{new_incoming, incoming_credit, room, incoming_owes, tallied, credit_value, credit_sealed, credit_lost, new_outgoing, outgoing_raised, outgoing_written, budget, window_set};

use crate::stream::Totals;

/// The connection's credit for what comes (RFC 9000, section 4.1).
#[derive(Clone, Copy, Debug)]
pub struct Incoming {
    /// How many bytes came: each offset up to a stream's greatest end counts once.
    pub received: u64,
    /// How many of them were read, or are let go.
    pub returned: u64,
    /// How many bytes may be underway or unread.
    pub window: u64,
    /// Up to where the peer might send when the window was last set.
    pub reached: u64,
    /// The credit that was announced to the peer.
    pub announced: u64,
    /// The credit that the transport parameters announced.
    pub first: u64,
    /// Whether a MAX_DATA waits.
    pub waits: bool,
}

impl Incoming {
    /// Nothing came.
    #[tactic(auto, unfolding(crate::specs::Credit::new_incoming))]
    pub fn new(window: u64) -> Incoming
        ensures { result ≡ new_incoming window }
    {
        Incoming {
            received: 0,
            returned: 0,
            window,
            reached: 0,
            announced: window,
            first: window,
            waits: false,
        }
    }

    /// Up to where the peer may send.
    #[tactic(auto, unfolding(crate::specs::Credit::incoming_credit, crate::specs::Counts::saturated))]
    pub fn credit(&self) -> u64
        ensures { result ≡ incoming_credit self.now }
    {
        let now = self.returned.saturating_add(self.window);
        self.reached.max(now)
    }

    /// How many new bytes may come.
    #[tactic(auto, unfolding(crate::specs::Credit::room))]
    pub fn room(&self) -> u64
        ensures { result ≡ room self.now }
    {
        self.credit().saturating_sub(self.received)
    }

    /// Whether credit is owed to the peer.
    #[tactic(auto, unfolding(crate::specs::Credit::incoming_owes))]
    fn owes(&self) -> bool
        ensures { result ≡ incoming_owes self.now }
    {
        let credit = self.credit_value();
        self.announced < credit && self.window / 8 <= credit - self.announced
    }

    /// A stream counted `before`, and counts `after` now.
    #[tactic(auto, unfolding(crate::specs::Credit::tallied, crate::specs::Credit::with_totals, crate::specs::Counts::saturated))]
    pub fn tally(&mut self, before: Totals, after: Totals)
        ensures { self.new ≡ tallied before after self.old }
    {
        let came = after.received.saturating_sub(before.received);
        let given = after.returned.saturating_sub(before.returned);
        self.received = self.received.saturating_add(came);
        self.returned = self.returned.saturating_add(given);
        if self.owes() {
            self.waits = true;
        }
    }

    /// The window is set: no credit is taken back.
    #[tactic(auto, unfolding(crate::specs::Credit::window_set, crate::specs::Credit::with_window))]
    pub fn set_window(&mut self, window: u64)
        ensures { self.new ≡ window_set window self.old }
    {
        self.reached = self.credit();
        self.window = window;
        if self.owes() {
            self.waits = true;
        }
    }

    /// Nothing came, and the peer knows the transport parameters alone.
    #[tactic(auto, unfolding(crate::specs::Early::credit_anew))]
    pub(crate) fn anew(self) -> Incoming
        ensures { result ≡ credit_anew self }
    {
        let mut next = self;
        next.received = 0;
        next.returned = 0;
        next.announced = self.first;
        next.waits = next.owes();
        next
    }

    /// The credit that a MAX_DATA announces (RFC 9000, section 19.9).
    #[tactic(auto, unfolding(crate::specs::Credit::credit_value))]
    pub fn credit_value(&self) -> u64
        ensures { result ≡ credit_value self.now }
    {
        self.credit().min((1 << 62) - 1)
    }

    /// A MAX_DATA with that credit was sealed.
    #[tactic(auto, unfolding(crate::specs::Credit::credit_sealed))]
    pub fn credit_sealed(&mut self)
        ensures { self.new ≡ credit_sealed self.old }
    {
        self.announced = self.credit_value();
        self.waits = false;
    }

    /// A MAX_DATA was lost.
    #[tactic(auto, unfolding(crate::specs::Credit::credit_lost))]
    pub fn credit_lost(&mut self)
        ensures { self.new ≡ credit_lost self.old }
    {
        self.waits = true;
    }
}

/// The connection's credit for what is sent (RFC 9000, section 4.1).
#[derive(Clone, Copy, Debug)]
pub struct Outgoing {
    /// Up to where the peer lets this end send.
    pub limit: u64,
    /// How many bytes were written, on all streams.
    pub written: u64,
}

impl Outgoing {
    /// Nothing may be sent.
    #[tactic(auto, unfolding(crate::specs::Credit::new_outgoing))]
    pub fn new() -> Outgoing
        ensures { result ≡ new_outgoing }
    {
        Outgoing {
            limit: 0,
            written: 0,
        }
    }

    /// Takes the peer's MAX_DATA (RFC 9000, section 19.9): a limit only rises.
    #[tactic(auto, unfolding(crate::specs::Credit::outgoing_raised))]
    pub fn raise_limit(&mut self, limit: u64)
        ensures { self.new ≡ outgoing_raised limit self.old }
    {
        self.limit = self.limit.max(limit);
    }

    /// How many bytes may be written, where so many more may be kept until they are acknowledged.
    #[tactic(auto, unfolding(crate::specs::Credit::budget))]
    pub fn budget(&self, room: u64) -> u64
        ensures budget { result ≡ budget room self.now }
        ensures within { result ≤ room }
    {
        self.limit.saturating_sub(self.written).min(room)
    }

    /// So many bytes were written.
    #[tactic(auto, unfolding(crate::specs::Credit::outgoing_written, crate::specs::Counts::saturated))]
    pub fn write(&mut self, count: u64)
        ensures { self.new ≡ outgoing_written count self.old }
    {
        self.written = self.written.saturating_add(count);
    }
}
