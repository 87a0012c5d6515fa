//! Where the program's output goes.

ghost use Rattle.std.specs.Prelude.{◌≡◌, ◌≢◌, ℕ, ◌+◌, ◌-◌, ◌<◌, ◌≤◌, ◌↔◌, List, [], ◌++◌, length, take, min, Option, Some, None, IfOk, OnErr, IsErr, Contains, vec_len, vec_capacity};
ghost use Rattle.qc_run.specs.Outside.{Keeps, Appends, Rose};

use crate::source::Failed;
use std::alloc::{AllocError, Global};

/// A sink of bytes that may fail.
///
/// Its meanings: `held`, the bytes that it has taken, where it tells them, and `faults`, a count of
/// its faults that never falls.
pub trait Sink {
    ghost held: { Self → Option (List ℕ) };

    ghost faults: { Self → ℕ };

    /// Takes bytes from the front of `bytes` to the end of what is held, and says how many. Of a
    /// piece that isn't empty it takes none only where the count of faults rose.
    ///
    /// `Failed`: only where the count of faults rose. What is held is then as before.
    fn write(&mut self, bytes: &[u8]) -> Result<usize, Failed>
        ensures within { IfOk result (λ n. n ≤ length bytes.now) }
        ensures takes { IfOk result (λ n. Appends (held self.old) (held self.new) (take n bytes.now)) }
        ensures kept { OnErr result (Keeps (held self.old) (held self.new)) }
        ensures never_falls { faults self.old ≤ faults self.new }
        ensures cause { OnErr result (Rose (faults self.old) (faults self.new)) }
        ensures idle { IfOk result (λ n. n ≡ 0 → 0 < length bytes.now → Rose (faults self.old) (faults self.new)) };
}

/// Bytes in memory, with lists of the calls that are to fail and of those that are to take no
/// bytes, counted from 0. A write that finds the room full takes none either.
#[derive(Drop)]
pub struct MemorySink {
    held: Vec<u8>,
    room: usize,
    calls: u64,
    failing: Vec<u64>,
    idle: Vec<u64>,
    faults: u64,
    ghost taken: { room ≤ vec_capacity held },
}

impl MemorySink {
    /// An empty sink with room for so many bytes, which is taken here.
    ///
    /// `AllocError`: there is no memory for the room.
    pub fn new(
        alloc: Global,
        room: usize,
        failing: Vec<u64>,
        idle: Vec<u64>,
    ) -> Result<Self, AllocError>
        ensures held { IfOk result (λ s. ⟦<MemorySink as Sink>⟧.held s ≡ Some []) }
        ensures faults { IfOk result (λ s. ⟦<MemorySink as Sink>⟧.faults s ≡ 0) }
        ensures room { IfOk result (λ s. s.room ≡ room) }
        ensures calls { IfOk result (λ s. s.calls ≡ 0) }
        ensures failing { IfOk result (λ s. s.failing ≡ failing) }
        ensures idle { IfOk result (λ s. s.idle ≡ idle) }
    {
        let held = Vec::with_capacity(alloc, room)?;
        Ok(MemorySink {
            held,
            room,
            calls: 0,
            failing,
            idle,
            faults: 0,
        })
    }

    /// The bytes that it has taken.
    pub fn held(&self) -> &[u8]
        ensures { ⟦<MemorySink as Sink>⟧.held self.now ≡ Some result.now }
    {
        self.held.as_slice()
    }

    /// One fault more.
    fn fault(&mut self)
        ensures held { self.new.held ≡ self.old.held }
        ensures room { self.new.room ≡ self.old.room }
        ensures calls { self.new.calls ≡ self.old.calls }
        ensures failing { self.new.failing ≡ self.old.failing }
        ensures idle { self.new.idle ≡ self.old.idle }
        ensures rose { Rose self.old.faults self.new.faults }
        ensures never_falls { self.old.faults ≤ self.new.faults }
    {
        self.faults = self.faults.saturating_add(1);
    }
}

impl Sink for MemorySink {
    ghost held = { λ s. Some s.held.items };

    ghost faults = { λ s. s.faults };

    fn write(&mut self, bytes: &[u8]) -> Result<usize, Failed>
        ensures within { IfOk result (λ n. n ≤ length bytes.now) }
        ensures takes { IfOk result (λ n. Appends (Some self.old.held.items) (Some self.new.held.items) (take n bytes.now)) }
        ensures kept { OnErr result (Keeps (Some self.old.held.items) (Some self.new.held.items)) }
        ensures never_falls { self.old.faults ≤ self.new.faults }
        ensures cause { OnErr result (Rose self.old.faults self.new.faults) }
        ensures idle { IfOk result (λ n. n ≡ 0 → 0 < length bytes.now → Rose self.old.faults self.new.faults) }

        // The calls that are named fail, and no others do: of those the ones that are named idle take nothing, and the rest
        // take all, or as much as there is room for.
        ensures fails { IsErr result ↔ Contains self.old.failing.items self.old.calls }
        ensures rests { Contains self.old.idle.items self.old.calls → IfOk result (λ n. n ≡ 0) }
        ensures count { (¬ Contains self.old.idle.items self.old.calls) → IfOk result (λ n. n ≡ min (self.old.room - vec_len self.old.held) (length bytes.now)) }
        ensures no_fault { IfOk result (λ n. 0 < n → self.new.faults ≡ self.old.faults) }

        // Each call counts, and from then on the same ones fail or take nothing, and the room is the same.
        ensures calls { self.new.calls ≡ min (self.old.calls + 1) u64.MAX }
        ensures failing { self.new.failing ≡ self.old.failing }
        ensures idles { self.new.idle ≡ self.old.idle }
        ensures room { self.new.room ≡ self.old.room }
    {
        let call = self.calls;
        self.calls = call.saturating_add(1);
        if self.failing.as_slice().contains(&call) {
            self.fault();
            return Err(Failed);
        }
        if self.idle.as_slice().contains(&call) {
            self.fault();
            return Ok(0);
        }
        let free = self.room.saturating_sub(self.held.len());
        if free == 0 {
            self.fault();
            return Ok(0);
        }
        let count = free.min(bytes.len());
        match self.held.extend_from_slice(&bytes[..count]) {
            Ok(()) => Ok(count),
            Err(_) => unreachable!(),
        }
    }
}
