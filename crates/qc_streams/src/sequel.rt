//! What is to be done for a stream once it was changed.

ghost use Rattle.std.specs.Prelude.{◌≡◌, true, not};
ghost use Rattle.qc_streams.specs.Kept.{kept_of};
ghost use Rattle.qc_streams.specs.Sends.{sends_of};
ghost use Rattle.qc_streams.specs.Sequel.{followed, looked_at, sequel_of};
ghost use Rattle.qc_streams.specs.Queues.{with_mark};

use crate::state::StreamsState;
use crate::stream::Stream;
use crate::waiting::owes_stop;

/// What is to be done for a stream once it was changed.
#[derive(Clone, Copy, Debug, PartialEq, Eq)]
pub(crate) enum Sequel {
    /// It has ended, and leaves.
    Leaves,
    /// It has ended, and stays for its STOP_SENDING.
    Lingers,
    /// It wasn't marked, and its mark is put behind the others.
    Marks,
    /// Nothing: it was marked, or there is no stream.
    Nothing,
}

impl Stream {
    /// It was changed: it is marked, unless it has ended. Answers what is to be done.
    #[tactic(auto, unfolding(crate::specs::Sequel::looked_at, crate::specs::Sequel::sequel_of, crate::specs::Queues::with_mark))]
    pub(crate) fn look_at(&mut self) -> Sequel
        ensures sequel { result ≡ sequel_of self.old }
        ensures looked { self.new ≡ looked_at self.old }
        ensures same { kept_of self.new ≡ kept_of self.old }
        ensures still { sends_of self.new ≡ sends_of self.old }
    {
        if self.is_over() {
            return if owes_stop(&self.receiving) {
                Sequel::Lingers
            } else {
                Sequel::Leaves
            };
        }
        let marked = self.marked;
        self.marked = true;
        if marked {
            Sequel::Nothing
        } else {
            Sequel::Marks
        }
    }
}

impl Stream {
    /// It is marked; answers whether it wasn't before.
    #[tactic(auto, unfolding(crate::specs::Queues::with_mark))]
    pub(crate) fn mark(&mut self) -> bool
        ensures idle { result ≡ not self.old.marked }
        ensures marked { self.new ≡ with_mark true self.old }
        ensures same { kept_of self.new ≡ kept_of self.old }
        ensures still { sends_of self.new ≡ sends_of self.old }
    {
        let marked = self.marked;
        self.marked = true;
        !marked
    }
}

impl StreamsState {
    /// What is to be done for a stream is done.
    pub(crate) fn follow(&mut self, sequel: Sequel, id: u64)
        ensures { self.new ≡ followed sequel id self.old }
    {
        match sequel {
            Sequel::Leaves => self.release(id),
            Sequel::Lingers => self.linger(id),
            Sequel::Marks => self.waiting.marks.mark(id),
            Sequel::Nothing => {}
        }
    }
}
