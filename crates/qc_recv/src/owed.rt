//! What waits to be sent for a stream that is received.

ghost use Rattle.std.specs.Prelude.{◌≡◌};
ghost use Rattle.qc_recv.specs.Owed.{credit_value, credit_sealed, credit_lost, stop_sealed, stop_lost};

use crate::recv::Recv;

impl Recv {
    /// The credit that a MAX_STREAM_DATA announces (RFC 9000, section 19.10).
    #[tactic(auto, unfolding(crate::specs::Owed::credit_value))]
    pub fn credit_value(&self) -> u64
        ensures { result ≡ credit_value self.now }
    {
        self.credit().min((1 << 62) - 1)
    }

    /// A MAX_STREAM_DATA with that credit was sealed.
    #[tactic(auto, unfolding(crate::specs::Owed::credit_sealed))]
    pub fn credit_sealed(&mut self)
        ensures { self.new ≡ credit_sealed self.old }
    {
        self.announced = self.credit_value();
        self.credit_waits = false;
    }

    /// A MAX_STREAM_DATA was lost.
    #[tactic(auto, unfolding(crate::specs::Owed::credit_lost))]
    pub fn credit_lost(&mut self)
        ensures { self.new ≡ credit_lost self.old }
    {
        self.credit_waits = self.credit_waits || self.size.is_none();
    }

    /// A STOP_SENDING was sealed (RFC 9000, section 19.5).
    #[tactic(auto, unfolding(crate::specs::Owed::stop_sealed))]
    pub fn stop_sealed(&mut self)
        ensures { self.new ≡ stop_sealed self.old }
    {
        self.stop_waits = false;
    }

    /// A STOP_SENDING was lost.
    #[tactic(auto, unfolding(crate::specs::Owed::stop_lost))]
    pub fn stop_lost(&mut self)
        ensures { self.new ≡ stop_lost self.old }
    {
        self.stop_waits = self.stopped.is_some();
    }
}
