//! What the application sets, and asks of a stream that it sends on.

ghost use Rattle.std.specs.Prelude.{◌≡◌, ◌+◌, max, IfOk, OnErr, OnOk, is_err};
ghost use Rattle.qc_streams.specs.Calls.{known, known_at, known_of};
ghost use Rattle.qc_streams.specs.Counts.{by_dir, saturated};
ghost use Rattle.qc_streams.specs.Credit.{incoming_credit};
ghost use Rattle.qc_streams.specs.Kept.{kept_of};
ghost use Rattle.qc_streams.specs.Sends.{sends_of};
ghost use Rattle.qc_streams.specs.Records.{changed, record_of};
ghost use Rattle.qc_streams.specs.Settings.{is_unknown, max_concurrent_set, priority_set, receive_window_set, send_window_set, stop_code, with_priority};
ghost use Rattle.qc_streams.specs.Queues.{priority_at};

use crate::fault::ClosedStream;
use crate::records::Records;
use crate::state::StreamsState;
use crate::stream::Stream;
use qc_base::{Dir, StreamId, VarInt};
use qc_send_stream::SendPart;

/// The code with which the peer stopped a sending side that the application knows.
fn stop_code(sending: &Option<SendPart>) -> Result<Option<VarInt>, ClosedStream>
    ensures value { IfOk result (λ code. code ≡ stop_code (known sending.now)) }
    ensures refused { is_err result ≡ is_unknown (known sending.now) }
{
    match sending {
        Some(sending) if !sending.is_done() => Ok(sending.stopped),
        _ => Err(ClosedStream),
    }
}

impl Stream {
    /// Its priority is set.
    #[tactic(auto, unfolding(crate::specs::Settings::with_priority))]
    fn set_priority(&mut self, priority: i32)
        ensures priority { self.new ≡ with_priority priority self.old }
        ensures same { kept_of self.new ≡ kept_of self.old }
        ensures still { sends_of self.new ≡ sends_of self.old }
    {
        self.priority = priority;
    }
}

impl Records {
    /// The code with which the peer stopped the stream with an id.
    fn stop_code(&self, id: u64) -> Result<Option<VarInt>, ClosedStream>
        ensures value { IfOk result (λ code. code ≡ stop_code (known_of (record_of id self.now))) }
        ensures refused { is_err result ≡ is_unknown (known_of (record_of id self.now)) }
    {
        match self.streams.get(id) {
            Some(stream) => stop_code(&stream.sending),
            None => Err(ClosedStream),
        }
    }

    /// The priority of the stream with an id is set.
    #[tactic(auto, using(crate::proofs::Keeping::same, crate::proofs::Sending::still))]
    fn set_priority(&mut self, id: u64, priority: i32)
        ensures { self.new ≡ changed (with_priority priority) id self.old }
    {
        let Some(stream) = self.streams.get_mut(id) else {
            return;
        };
        stream.set_priority(priority);
    }
}

impl StreamsState {
    /// The code with which the peer stopped a stream. None exactly where it didn't.
    ///
    /// # Errors
    ///
    /// Exactly where the stream is unknown.
    #[tactic(auto, unfolding(crate::specs::Calls::known_at))]
    pub fn stopped(&self, id: StreamId) -> Result<Option<VarInt>, ClosedStream>
        ensures value { IfOk result (λ code. code ≡ stop_code (known_at id self.now)) }
        ensures refused { is_err result ≡ is_unknown (known_at id self.now) }
    {
        self.records.stop_code(id.value())
    }

    /// Sets a stream's priority, which counts from its next turn on.
    ///
    /// # Errors
    ///
    /// Exactly where the stream is unknown; nothing changes then.
    #[tactic(auto, unfolding(crate::specs::Settings::priority_set))]
    pub fn set_priority(&mut self, id: StreamId, priority: i32) -> Result<(), ClosedStream>
        ensures set { OnOk result (self.new ≡ priority_set priority id self.old) }
        ensures refused { is_err result ≡ is_unknown (known_at id self.old) }
        ensures err { OnErr result (self.new ≡ self.old) }
    {
        self.stopped(id)?;
        self.records.set_priority(id.value(), priority);
        Ok(())
    }

    /// A stream's priority.
    ///
    /// # Errors
    ///
    /// Exactly where the stream is unknown.
    pub fn priority(&self, id: StreamId) -> Result<i32, ClosedStream>
        ensures value { IfOk result (λ p. p ≡ priority_at (record_of id self.now.records)) }
        ensures refused { is_err result ≡ is_unknown (known_at id self.now) }
    {
        self.stopped(id)?;
        Ok(self.records.priority(id.value()))
    }

    /// Sets how many bytes may be kept until they are acknowledged, on all streams.
    #[tactic(auto, unfolding(crate::specs::Settings::send_window_set))]
    pub fn set_send_window(&mut self, window: u64)
        ensures { self.new ≡ send_window_set window self.old }
    {
        self.send_window = window;
        self.tell_writables(None);
    }

    /// Sets how many bytes may be underway or unread, on all streams: the credit is the greatest sum so
    /// far of a window and the bytes that were given back, so a lower window takes none back (RFC 9000,
    /// section 4.1).
    #[tactic(auto, unfolding(crate::specs::Settings::receive_window_set, crate::specs::Credit::window_set, crate::specs::Credit::with_window, crate::specs::Credit::incoming_credit))]
    pub fn set_receive_window(&mut self, receive_window: VarInt)
        ensures set { self.new ≡ receive_window_set receive_window self.old }
        ensures credit { incoming_credit self.new.incoming ≡ max (incoming_credit self.old.incoming) (saturated (self.old.incoming.returned + receive_window)) }
    {
        self.incoming.set_window(receive_window.into_inner());
    }

    /// Sets how many streams of a direction the peer may have open at a time: more may be opened at
    /// once, fewer as streams end.
    #[tactic(auto, unfolding(crate::specs::Settings::max_concurrent_set))]
    pub fn set_max_concurrent_streams(&mut self, dir: Dir, count: VarInt)
        ensures { self.new ≡ max_concurrent_set dir count self.old }
    {
        let peer = self.peer.get(dir).with_concurrent(count.into_inner());
        self.peer.put(dir, peer);
    }

    /// How many streams of a direction the peer may have open at a time.
    pub fn max_concurrent(&self, dir: Dir) -> u64
        ensures { result ≡ (by_dir dir self.now.peer).concurrent }
    {
        self.peer.get(dir).concurrent.value()
    }
}
