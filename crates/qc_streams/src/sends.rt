//! How many streams this end sends on.

ghost use Rattle.std.specs.Prelude.{◌≡◌, ◌+◌, ◌-◌};
ghost use Rattle.qc_streams.specs.Counts.{saturated};
ghost use Rattle.qc_streams.specs.Kept.{kept_of};
ghost use Rattle.qc_streams.specs.Records.{changed};
ghost use Rattle.qc_streams.specs.Sends.{recounted, sends_at, sends_in, sends_of, was_taken};

use crate::records::Records;
use crate::state::StreamsState;
use crate::stream::Stream;

/// A count of streams that this end sends on, where one counted `before` and counts `after` now.
#[tactic(auto, unfolding(crate::specs::Counts::saturated))]
pub(crate) fn recounted(count: u64, before: u64, after: u64) -> u64
    ensures { result ≡ recounted count before after }
{
    count.saturating_sub(before).saturating_add(after)
}

/// What a stream counts among those that this end sends on, nothing where there is no stream.
pub(crate) fn sends_at(stream: &Option<Stream>) -> u64
    ensures { result ≡ sends_at stream.now }
{
    match stream {
        Some(stream) => stream.sends(),
        None => 0,
    }
}

impl Stream {
    /// 1 where this end opened or accepted it and sends on it, and else 0.
    pub fn sends(&self) -> u64
        ensures { result ≡ sends_of self.now }
    {
        match &self.sending {
            Some(sending) if self.taken && !sending.is_done() => 1,
            _ => 0,
        }
    }

    /// The application accepts it.
    #[tactic(auto, unfolding(crate::specs::Sends::was_taken))]
    fn take(&mut self)
        ensures taken { self.new ≡ was_taken self.old }
        ensures same { kept_of self.new ≡ kept_of self.old }
    {
        self.taken = true;
    }
}

impl Records {
    /// The application accepts the stream with an id.
    #[tactic(auto, using(crate::proofs::Keeping::same, crate::proofs::Sending::recounts))]
    pub(crate) fn take(&mut self, id: u64)
        ensures { self.new ≡ changed was_taken id self.old }
    {
        if let Some(stream) = self.streams.get_mut(id) {
            let before = stream.sends();
            stream.take();
            let after = stream.sends();
            let _count = self.streams.len();
            self.sending = recounted(self.sending, before, after);
        }
    }

    /// How many streams this end sends on, of those that it opened or accepted.
    pub fn sending(&self) -> u64
        ensures { result ≡ sends_in self.now }
    {
        self.sending
    }
}

impl StreamsState {
    /// How many streams there are with a sending side that this end opened or accepted, and whose
    /// bytes and end, or whose reset, aren't all acknowledged (RFC 9000, section 3.1).
    pub fn send_streams(&self) -> u64
        ensures { result ≡ sends_in self.now.records }
    {
        self.records.sending()
    }
}
