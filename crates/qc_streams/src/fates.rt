//! What becomes of frames of a stream without bytes of it.

ghost use Rattle.std.specs.Prelude.{◌≡◌};
ghost use Rattle.qc_recv.specs.Owed.{credit_lost, credit_sealed, stop_lost, stop_sealed};
ghost use Rattle.qc_send_stream.specs.Sending.{reset_acked, reset_lost, reset_sealed};
ghost use Rattle.qc_streams.specs.Kept.{kept_of};
ghost use Rattle.qc_streams.specs.Sends.{sends_of};
ghost use Rattle.qc_streams.specs.Records.{changed};
ghost use Rattle.qc_streams.specs.Stream.{with_receiving, with_sending};

use crate::records::Records;
use crate::sends::recounted;
use crate::stream::Stream;

impl Stream {
    /// A RESET_STREAM of it is sealed.
    #[tactic(auto, using(crate::proofs::Done::reset_sealed_still), unfolding(crate::specs::Stream::with_sending, qc_send_stream::specs::Sending::reset_sealed))]
    fn reset_sealed(&mut self)
        ensures changed { self.new ≡ with_sending reset_sealed self.old }
        ensures same { kept_of self.new ≡ kept_of self.old }
        ensures still { sends_of self.new ≡ sends_of self.old }
    {
        if let Some(sending) = &mut self.sending {
            sending.reset_sealed();
        }
    }

    /// A RESET_STREAM of it is lost.
    #[tactic(auto, using(crate::proofs::Done::reset_lost_still), unfolding(crate::specs::Stream::with_sending, qc_send_stream::specs::Sending::reset_lost))]
    fn reset_lost(&mut self)
        ensures changed { self.new ≡ with_sending reset_lost self.old }
        ensures same { kept_of self.new ≡ kept_of self.old }
        ensures still { sends_of self.new ≡ sends_of self.old }
    {
        if let Some(sending) = &mut self.sending {
            sending.reset_lost();
        }
    }

    /// A RESET_STREAM of it is acknowledged.
    #[tactic(auto, unfolding(crate::specs::Stream::with_sending, qc_send_stream::specs::Sending::reset_acked))]
    fn reset_acked(&mut self)
        ensures changed { self.new ≡ with_sending reset_acked self.old }
        ensures same { kept_of self.new ≡ kept_of self.old }
    {
        if let Some(sending) = &mut self.sending {
            sending.reset_acknowledged();
        }
    }

    /// A STOP_SENDING of it is sealed.
    #[tactic(auto, unfolding(crate::specs::Stream::with_receiving))]
    fn stop_sealed(&mut self)
        ensures changed { self.new ≡ with_receiving stop_sealed self.old }
        ensures same { kept_of self.new ≡ kept_of self.old }
        ensures still { sends_of self.new ≡ sends_of self.old }
    {
        if let Some(receiving) = &mut self.receiving {
            receiving.stop_sealed();
        }
    }

    /// A STOP_SENDING of it is lost.
    #[tactic(auto, unfolding(crate::specs::Stream::with_receiving))]
    fn stop_lost(&mut self)
        ensures changed { self.new ≡ with_receiving stop_lost self.old }
        ensures same { kept_of self.new ≡ kept_of self.old }
        ensures still { sends_of self.new ≡ sends_of self.old }
    {
        if let Some(receiving) = &mut self.receiving {
            receiving.stop_lost();
        }
    }

    /// A MAX_STREAM_DATA of it is sealed.
    #[tactic(auto, unfolding(crate::specs::Stream::with_receiving))]
    fn credit_sealed(&mut self)
        ensures changed { self.new ≡ with_receiving credit_sealed self.old }
        ensures same { kept_of self.new ≡ kept_of self.old }
        ensures still { sends_of self.new ≡ sends_of self.old }
    {
        if let Some(receiving) = &mut self.receiving {
            receiving.credit_sealed();
        }
    }

    /// A MAX_STREAM_DATA of it is lost.
    #[tactic(auto, unfolding(crate::specs::Stream::with_receiving))]
    fn credit_lost(&mut self)
        ensures changed { self.new ≡ with_receiving credit_lost self.old }
        ensures same { kept_of self.new ≡ kept_of self.old }
        ensures still { sends_of self.new ≡ sends_of self.old }
    {
        if let Some(receiving) = &mut self.receiving {
            receiving.credit_lost();
        }
    }
}

impl Records {
    /// A RESET_STREAM of the stream with an id is sealed.
    #[tactic(auto, using(crate::proofs::Keeping::same, crate::proofs::Sending::still))]
    pub(crate) fn reset_sealed(&mut self, id: u64)
        ensures { self.new ≡ changed (with_sending reset_sealed) id self.old }
    {
        let Some(stream) = self.streams.get_mut(id) else {
            return;
        };
        stream.reset_sealed();
    }

    /// A RESET_STREAM of the stream with an id is lost.
    #[tactic(auto, using(crate::proofs::Keeping::same, crate::proofs::Sending::still))]
    pub(crate) fn reset_lost(&mut self, id: u64)
        ensures { self.new ≡ changed (with_sending reset_lost) id self.old }
    {
        let Some(stream) = self.streams.get_mut(id) else {
            return;
        };
        stream.reset_lost();
    }

    /// A RESET_STREAM of the stream with an id is acknowledged.
    #[tactic(auto, using(crate::proofs::Keeping::same, crate::proofs::Sending::recounts))]
    pub(crate) fn reset_acked(&mut self, id: u64)
        ensures { self.new ≡ changed (with_sending reset_acked) id self.old }
    {
        if let Some(stream) = self.streams.get_mut(id) {
            let before = stream.sends();
            stream.reset_acked();
            let after = stream.sends();
            let _count = self.streams.len();
            self.sending = recounted(self.sending, before, after);
        }
    }

    /// A STOP_SENDING of the stream with an id is sealed.
    #[tactic(auto, using(crate::proofs::Keeping::same, crate::proofs::Sending::still))]
    pub(crate) fn stop_sealed(&mut self, id: u64)
        ensures { self.new ≡ changed (with_receiving stop_sealed) id self.old }
    {
        let Some(stream) = self.streams.get_mut(id) else {
            return;
        };
        stream.stop_sealed();
    }

    /// A STOP_SENDING of the stream with an id is lost.
    #[tactic(auto, using(crate::proofs::Keeping::same, crate::proofs::Sending::still))]
    pub(crate) fn stop_lost(&mut self, id: u64)
        ensures { self.new ≡ changed (with_receiving stop_lost) id self.old }
    {
        let Some(stream) = self.streams.get_mut(id) else {
            return;
        };
        stream.stop_lost();
    }

    /// A MAX_STREAM_DATA of the stream with an id is sealed.
    #[tactic(auto, using(crate::proofs::Keeping::same, crate::proofs::Sending::still))]
    pub(crate) fn credit_sealed(&mut self, id: u64)
        ensures { self.new ≡ changed (with_receiving credit_sealed) id self.old }
    {
        let Some(stream) = self.streams.get_mut(id) else {
            return;
        };
        stream.credit_sealed();
    }

    /// A MAX_STREAM_DATA of the stream with an id is lost.
    #[tactic(auto, using(crate::proofs::Keeping::same, crate::proofs::Sending::still))]
    pub(crate) fn credit_lost(&mut self, id: u64)
        ensures { self.new ≡ changed (with_receiving credit_lost) id self.old }
    {
        let Some(stream) = self.streams.get_mut(id) else {
            return;
        };
        stream.credit_lost();
    }
}
