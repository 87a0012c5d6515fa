//! Marks on streams, and how what they owe comes to where it waits.

ghost use Rattle.std.specs.Prelude.{◌≡◌, OnOk, Some, true, is_some};
ghost use Rattle.qc_streams.specs.Kept.{kept_of};
ghost use Rattle.qc_streams.specs.Records.{changed, record_of};
ghost use Rattle.qc_streams.specs.Sends.{sends_of};
ghost use Rattle.qc_streams.specs.Queues.{all_filed, due_next, dues_at, dues_of, file_one, filed, filed_turn, is_idle, left, mark_taken, or_next, owes_data, place_behind, priority_at, queue_one, queued, takes_number, touched, turn_at, turn_moved, with_mark, with_turn};

use crate::records::Records;
use crate::state::StreamsState;
use crate::stream::Stream;
use crate::waiting::{Dues, Waiting, owes_data};
use qc_turns::Place;
use std::alloc::AllocError;

/// What a stream that was looked at owes, and its place.
#[derive(Clone, Copy, Debug)]
struct Filed {
    // whether there is a stream
    known: bool,
    dues: Dues,
    // the place that it had
    turn: Option<Place>,
    // the place that it takes where it has none
    next: Place,
}

impl Stream {
    /// It is looked at, where so many turns were given.
    #[tactic(auto, unfolding(crate::specs::Queues::file_one, crate::specs::Queues::with_mark, crate::specs::Queues::with_turn, crate::specs::Queues::dues_of))]
    fn file(&mut self, turns: u64) -> Filed
        ensures filed { self.new ≡ file_one turns self.old }
        ensures known { result.known ≡ true }
        ensures dues { result.dues ≡ dues_of self.old }
        ensures turn { result.turn ≡ self.old.turn }
        ensures next { result.next ≡ place_behind turns (Some self.old) }
        ensures same { kept_of self.new ≡ kept_of self.old }
        ensures still { sends_of self.new ≡ sends_of self.old }
    {
        let dues = self.dues();
        let turn = self.turn;
        let next = or_next(self.due, (-i64::from(self.priority), turns));
        self.marked = false;
        self.move_turn(dues.bytes, next);
        Filed {
            known: true,
            dues,
            turn,
            next,
        }
    }
}

/// A place that is put by, or where there is none another.
fn or_next(due: Option<Place>, next: Place) -> Place
    ensures { result ≡ or_next due next }
{
    match due {
        Some(place) => place,
        None => next,
    }
}

impl Stream {
    /// It was looked at: it takes a place where it has none and bytes wait, or the end, and gives up the one
    /// that it has where neither does.
    #[tactic(auto, unfolding(crate::specs::Queues::with_turn))]
    fn move_turn(&mut self, owes: bool, next: Place)
        ensures moved { self.new ≡ filed_turn owes self.old.turn next self.old }
        ensures same { kept_of self.new ≡ kept_of self.old }
        ensures still { sends_of self.new ≡ sends_of self.old }
    {
        match self.turn {
            Some(_) => {
                if !owes {
                    self.set_turn(None);
                }
            }
            None => {
                if owes {
                    self.set_turn(Some(next));
                }
            }
        }
    }

    /// It began to wait, where so many turns were given, or waits no more; answers whether a number is taken.
    fn queue(&mut self, turns: u64) -> bool
        ensures queued { self.new ≡ queue_one turns self.old }
        ensures number { result ≡ takes_number (Some self.old) }
        ensures same { kept_of self.new ≡ kept_of self.old }
        ensures still { sends_of self.new ≡ sends_of self.old }
    {
        let owes = owes_data(&mut self.sending);
        self.wait(owes, turns)
    }

    /// The same, where it is known whether bytes wait, or the end.
    #[tactic(auto, unfolding(crate::specs::Queues::queue_one, crate::specs::Queues::dues_of))]
    pub(crate) fn wait(&mut self, owes: bool, turns: u64) -> bool
        requires { owes ≡ owes_data self.old.sending }
        ensures queued { self.new ≡ queue_one turns self.old }
        ensures number { result ≡ takes_number (Some self.old) }
        ensures same { kept_of self.new ≡ kept_of self.old }
        ensures still { sends_of self.new ≡ sends_of self.old }
    {
        let numbered = owes && (self.turn.is_none() && self.due.is_none());
        self.due = due_next(
            owes,
            self.turn,
            self.due,
            (-i64::from(self.priority), turns),
        );
        numbered
    }
}

/// The place that is put by for a stream whose bytes wait, or its end.
fn due_next(owes: bool, turn: Option<Place>, due: Option<Place>, next: Place) -> Option<Place>
    ensures { result ≡ due_next owes turn due next }
{
    if !owes {
        return None;
    }
    match turn {
        Some(_) => due,
        None => match due {
            Some(place) => Some(place),
            None => Some(next),
        },
    }
}

impl Waiting {
    /// The oldest mark is taken off; its place goes with its stream.
    fn take_mark(&mut self, known: bool)
        ensures { self.new ≡ mark_taken known self.old }
    {
        self.marks.unmark();
        if !known {
            self.marks.drop_place();
        }
    }

    /// A stream takes the next place where it has none, and gives up the one that it has, by what it owes.
    #[tactic(auto, unfolding(crate::specs::Counts::saturated))]
    fn move_turn(&mut self, filed: Filed, id: u64) -> Result<(), AllocError>
        ensures { OnOk result (self.new ≡ turn_moved filed.dues.bytes filed.turn filed.next id self.old) }
    {
        match filed.turn {
            Some(place) => {
                if !filed.dues.bytes {
                    self.ready.remove(place);
                }
            }
            None => {
                if filed.dues.bytes {
                    self.ready.insert(filed.next, id)?;
                    self.turns = self.turns.saturating_add(1);
                }
            }
        }
        Ok(())
    }
}

impl Records {
    /// The stream with an id is looked at, where so many turns were given: it loses its mark, and has a place
    /// exactly where bytes wait, or the end.
    #[tactic(auto, using(crate::proofs::Keeping::same, crate::proofs::Sending::still))]
    fn file(&mut self, id: u64, turns: u64) -> Filed
        ensures filed { self.new ≡ changed (file_one turns) id self.old }
        ensures known { result.known ≡ is_some (record_of id self.old) }
        ensures dues { result.dues ≡ dues_at (record_of id self.old) }
        ensures turn { result.turn ≡ turn_at (record_of id self.old) }
        ensures next { result.next ≡ place_behind turns (record_of id self.old) }
    {
        match self.streams.get_mut(id) {
            Some(stream) => stream.file(turns),
            None => Filed {
                known: false,
                dues: Dues::none(),
                turn: None,
                next: (0, turns),
            },
        }
    }

    /// The stream with an id began to wait, where so many turns were given; answers whether a number is taken.
    #[tactic(auto, using(crate::proofs::Keeping::same, crate::proofs::Sending::still))]
    fn queue(&mut self, id: u64, turns: u64) -> bool
        ensures queued { self.new ≡ changed (queue_one turns) id self.old }
        ensures number { result ≡ takes_number (record_of id self.old) }
    {
        let Some(stream) = self.streams.get_mut(id) else {
            return false;
        };
        stream.queue(turns)
    }

    /// The stream with an id is marked, or isn't any more.
    #[tactic(auto, using(crate::proofs::Keeping::same, crate::proofs::Sending::still))]
    fn set_mark(&mut self, id: u64, marked: bool)
        ensures { self.new ≡ changed (with_mark marked) id self.old }
    {
        let Some(stream) = self.streams.get_mut(id) else {
            return;
        };
        stream.set_mark(marked);
    }

    /// The stream with an id has a place, or none.
    #[tactic(auto, using(crate::proofs::Keeping::same, crate::proofs::Sending::still))]
    fn set_turn(&mut self, id: u64, turn: Option<Place>)
        ensures { self.new ≡ changed (with_turn turn) id self.old }
    {
        let Some(stream) = self.streams.get_mut(id) else {
            return;
        };
        stream.set_turn(turn);
    }

    /// Whether there is a stream with an id that isn't marked.
    pub(crate) fn is_idle(&self, id: u64) -> bool
        ensures { result ≡ is_idle (record_of id self.now) }
    {
        match self.streams.get(id) {
            Some(stream) => !stream.marked,
            None => false,
        }
    }

    /// Whether there is a stream with an id.
    pub(crate) fn has(&self, id: u64) -> bool
        ensures { result ≡ is_some (record_of id self.now) }
    {
        match self.streams.get(id) {
            Some(_) => true,
            None => false,
        }
    }

    /// The place of the stream with an id.
    fn turn(&self, id: u64) -> Option<Place>
        ensures { result ≡ turn_at (record_of id self.now) }
    {
        match self.streams.get(id) {
            Some(stream) => stream.turn,
            None => None,
        }
    }

    /// The priority of the stream with an id.
    pub(crate) fn priority(&self, id: u64) -> i32
        ensures { result ≡ priority_at (record_of id self.now) }
    {
        match self.streams.get(id) {
            Some(stream) => stream.priority,
            None => 0,
        }
    }
}

impl StreamsState {
    /// What a stream owes is to be looked at.
    #[tactic(auto, unfolding(crate::specs::Queues::touched))]
    pub(crate) fn touch(&mut self, id: u64)
        ensures { self.new ≡ touched id self.old }
    {
        if self.records.is_idle(id) {
            self.waiting.marks.mark(id);
        }
        self.records.set_mark(id, true);
    }

    /// A stream began to wait: its first turn is that of this moment.
    #[tactic(auto, unfolding(crate::specs::Queues::queued, crate::specs::Counts::saturated))]
    pub(crate) fn queue(&mut self, id: u64)
        ensures { self.new ≡ queued id self.old }
    {
        if self.records.queue(id, self.waiting.turns) {
            self.waiting.turns = self.waiting.turns.saturating_add(1);
        }
    }

    /// A stream gives its place up.
    #[tactic(auto, unfolding(crate::specs::Queues::left))]
    pub(crate) fn leave(&mut self, id: u64)
        ensures { self.new ≡ left id self.old }
    {
        if let Some(place) = self.records.turn(id) {
            self.waiting.ready.remove(place);
            self.records.set_turn(id, None);
        }
    }

    /// What the stream that was marked first owes is put where it waits.
    #[tactic(auto, using(crate::proofs::Filings::filed_so))]
    fn file(&mut self, id: u64) -> Result<(), AllocError>
        ensures { OnOk result (self.new ≡ filed id self.old) }
    {
        let filed = self.records.file(id, self.waiting.turns);
        self.waiting.take_mark(filed.known);
        self.waiting.file_sets(filed.dues, id)?;
        self.waiting.move_turn(filed, id)
    }

    /// What streams owe since they were looked at is put where it waits: to be called before frames
    /// are drawn.
    ///
    /// # Errors
    ///
    /// Want of memory.
    pub fn file_marks(&mut self) -> Result<(), AllocError>
        ensures { OnOk result (self.new ≡ all_filed self.old.waiting.marks.ids self.old) }
    {
        while let Some(id) = self.waiting.marks.first() {
            self.file(id)?;
        }
        Ok(())
    }
}
