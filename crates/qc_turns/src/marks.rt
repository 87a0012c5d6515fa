//! Marks in their order, for which places are made beforehand.

ghost use Rattle.std.specs.Prelude.{◌≡◌, OnOk, OnErr};
ghost use Rattle.qc_turns.specs.Marks.{first_mark, marked, no_marks, place_added, place_dropped, unmarked};

use std::alloc::{AllocError, Global};
use std::collections::VecDeque;
use std::marker::Model;

/// Marks on streams, and places for more: whoever has a place is marked without memory.
#[derive(Drop)]
pub struct Marks {
    ids: VecDeque<u64>,
    free: usize,
}

impl Model for Marks {
    ghost use Rattle.qc_turns.specs.Marks.{MarkList};

    ghost Value = { MarkList };

    ghost use Rattle.std.specs.Prelude.{◌+◌, ◌≤◌, length};
    ghost use Rattle.std.specs.VecDeque.{deque_capacity};

    ghost view = { λ m. record { ids = m.ids.items; free = m.free } };

    ghost invariant = { λ m. length m.ids.items + m.free ≤ deque_capacity m.ids };
}

impl Marks {
    /// No mark, and no place.
    #[tactic(auto, unfolding(crate::specs::Marks::no_marks))]
    pub fn new(alloc: Global) -> Marks
        ensures { result ≡ no_marks }
    {
        Marks {
            ids: VecDeque::new(alloc),
            free: 0,
        }
    }

    /// Makes one more place.
    ///
    /// # Errors
    ///
    /// Want of memory; nothing changes then.
    #[tactic(auto, unfolding(crate::specs::Marks::place_added))]
    pub fn add_place(&mut self) -> Result<(), AllocError>
        ensures added { OnOk result (self.new ≡ place_added self.old) }
        ensures err { OnErr result (self.new ≡ self.old) }
    {
        let _capacity = self.ids.capacity();
        self.ids.reserve(self.free + 1)?;
        self.free += 1;
        Ok(())
    }

    /// Gives a place up.
    #[tactic(auto, unfolding(crate::specs::Marks::place_dropped))]
    pub fn drop_place(&mut self)
        ensures { self.new ≡ place_dropped self.old }
    {
        self.free = self.free.saturating_sub(1);
    }

    /// Marks a stream, where there is a place.
    #[tactic(auto, unfolding(crate::specs::Marks::marked))]
    pub fn mark(&mut self, id: u64)
        ensures { self.new ≡ marked id self.old }
    {
        if self.free > 0 {
            self.free -= 1;
            self.ids.push_back_reserved(id);
        }
    }

    /// The marked streams, the oldest mark first.
    pub fn as_deque(&self) -> &VecDeque<u64>
        ensures { result.now.items ≡ self.now.ids }
    {
        &self.ids
    }

    /// The oldest mark; None where there is none.
    pub fn first(&self) -> Option<u64>
        ensures { result ≡ first_mark self.now.ids }
    {
        match self.ids.front() {
            Some(id) => Some(*id),
            None => None,
        }
    }

    /// Takes the oldest mark off, which gives its place back.
    #[tactic(auto, unfolding(crate::specs::Marks::unmarked))]
    pub fn unmark(&mut self)
        ensures { self.new ≡ unmarked self.old }
    {
        if self.ids.pop_front().is_some() {
            self.free += 1;
        }
    }
}
