//! Whether anything waits to be sent.

ghost use Rattle.std.specs.Prelude.{◌≡◌, is_some};
ghost use Rattle.std.specs.List.{list_any};
ghost use Rattle.qc_streams.specs.Pending.{bytes_wait, credit_waits, frames_wait, has_control, has_waiting, limits_wait, reset_waits, stop_waits};
ghost use Rattle.qc_streams.specs.Queues.{dues_at, dues_of, owes_data, owes_frames};
ghost use Rattle.qc_streams.specs.Records.{record_of};
ghost use Rattle.qc_streams.specs.Stops.{first_stop};

use crate::records::Records;
use crate::state::StreamsState;
use crate::stream::Stream;
use crate::waiting::{Dues, owes_credit, owes_reset, owes_stop};

impl Stream {
    /// Whether bytes of it wait, or its end, and nothing changes.
    #[inline(always)]
    pub(crate) fn has_waiting(&self) -> bool
        ensures { result ≡ owes_data self.now.sending }
    {
        match &self.sending {
            Some(sending) => sending.has_waiting(),
            None => false,
        }
    }

    /// What waits of it, and nothing changes.
    #[tactic(auto, unfolding(crate::specs::Queues::dues_of))]
    fn owes(&self) -> Dues
        ensures { result ≡ dues_of self.now }
    {
        Dues {
            reset: owes_reset(&self.sending),
            stop: owes_stop(&self.receiving),
            credit: owes_credit(&self.receiving),
            bytes: self.has_waiting(),
        }
    }
}

impl Records {
    /// What waits of the stream with an id, nothing where there is none.
    #[inline(always)]
    fn owes(&self, id: u64) -> Dues
        ensures { result ≡ dues_at (record_of id self.now) }
    {
        match self.streams.get(id) {
            Some(stream) => stream.owes(),
            None => Dues::none(),
        }
    }
}

impl StreamsState {
    /// Whether bytes wait, or an end, of a stream that has a turn.
    fn turns_wait(&self) -> bool
        ensures { result ≡ list_any (λ e. bytes_wait self.now e.1) self.now.waiting.ready }
    {
        let mut turns = self.waiting.ready.as_map().iter();
        turns.any(|turn| self.records.owes(*turn.1).bytes)
    }

    /// Whether bytes wait, or an end, of a stream that is marked.
    fn marks_wait(&self) -> bool
        ensures { result ≡ list_any (bytes_wait self.now) self.now.waiting.marks.ids }
    {
        let mut marks = self.waiting.marks.as_deque().iter();
        marks.any(|id| self.records.owes(*id).bytes)
    }

    /// Whether a STREAM frame waits: bytes of a stream do, which were lost, or were written and never
    /// sealed, or its end (RFC 9000, section 2.2). It counts streams that weren't looked at since, and takes no
    /// memory: where it is false, `file_marks` and `draw_part` draw nothing, and else they draw one
    /// wherever there is room.
    #[tactic(auto, unfolding(crate::specs::Pending::has_waiting))]
    pub fn has_waiting(&self) -> bool
        ensures { result ≡ has_waiting self.now }
    {
        self.turns_wait() || self.marks_wait()
    }

    /// Whether a MAX_DATA waits, or a MAX_STREAMS.
    fn limits_wait(&self) -> bool
        ensures { result ≡ limits_wait self.now }
    {
        self.incoming.waits || (self.peer.bi.waits || self.peer.uni.waits)
    }

    /// Whether an open stream that was looked at owes a RESET_STREAM.
    fn resets_wait(&self) -> bool
        ensures { result ≡ list_any (reset_waits self.now) self.now.waiting.resets }
    {
        let mut ids = self.waiting.resets.as_set().iter();
        ids.any(|id| self.records.owes(*id).reset)
    }

    /// The same of a STOP_SENDING.
    fn stops_wait(&self) -> bool
        ensures { result ≡ list_any (stop_waits self.now) self.now.waiting.stops }
    {
        let mut ids = self.waiting.stops.as_set().iter();
        ids.any(|id| self.records.owes(*id).stop)
    }

    /// The same of a MAX_STREAM_DATA.
    fn credits_wait(&self) -> bool
        ensures { result ≡ list_any (credit_waits self.now) self.now.waiting.credits }
    {
        let mut ids = self.waiting.credits.as_set().iter();
        ids.any(|id| self.records.owes(*id).credit)
    }

    /// Whether a stream that is marked owes one of them.
    fn frames_wait(&self) -> bool
        ensures { result ≡ list_any (frames_wait self.now) self.now.waiting.marks.ids }
    {
        let mut marks = self.waiting.marks.as_deque().iter();
        marks.any(|id| self.records.owes(*id).owes_frames())
    }

    /// Whether a frame without bytes waits (RFC 9000, sections 3.3, 3.5 and 4). It counts streams that weren't
    /// looked at since, and takes no memory: where it is false, `file_marks` and `draw_control` draw nothing, and
    /// else they draw one wherever there is room.
    #[tactic(auto, unfolding(crate::specs::Pending::has_control))]
    pub fn has_control(&self) -> bool
        ensures { result ≡ has_control self.now }
    {
        self.limits_wait()
            || (self.waiting.gone_stops.first().is_some()
                || (self.resets_wait()
                    || (self.stops_wait() || (self.credits_wait() || self.frames_wait()))))
    }
}
