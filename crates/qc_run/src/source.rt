//! Where the program's input comes from.

ghost use Rattle.std.specs.Prelude.{◌≡◌, ◌≢◌, ℕ, ◌+◌, ◌<◌, ◌≤◌, ◌↔◌, List, [], length, take, drop, min, Option, Some, None, IfOk, OnOk, OnErr, IsErr, Contains};
ghost use Rattle.qc_run.specs.Outside.{Keeps, Gives, IsAtEnd, Rose};

/// A read or a write that failed: the source or sink raised its count of faults.
#[derive(Clone, Copy, Debug, PartialEq, Eq)]
pub struct Failed;

/// A source of bytes that may fail.
///
/// Its meanings: `left`, the bytes that it has yet to give, where it tells them, and `faults`, a
/// count of its faults that never falls. A read of no bytes into a buffer that isn't empty is the
/// end of the bytes.
pub trait Source {
    ghost left: { Self → Option (List ℕ) };

    ghost faults: { Self → ℕ };

    /// Puts bytes from the front of what is left into the front of `buf`, and says how many.
    ///
    /// `Failed`: only where the count of faults rose. What is left is then as before.
    fn read(&mut self, buf: &mut [u8]) -> Result<usize, Failed>
        ensures within { IfOk result (λ n. n ≤ length buf.new) }
        ensures gives { IfOk result (λ n. Gives (left self.old) (left self.new) (take n buf.new)) }
        ensures end { IfOk result (λ n. n ≡ 0 → 0 < length buf.new → IsAtEnd (left self.new)) }
        ensures kept { OnErr result (Keeps (left self.old) (left self.new)) }
        ensures never_falls { faults self.old ≤ faults self.new }
        ensures cause { OnErr result (Rose (faults self.old) (faults self.new)) };
}

/// Bytes in memory, with a list of the calls that are to fail, counted from 0.
#[derive(Drop)]
pub struct MemorySource {
    bytes: Vec<u8>,
    given: usize,
    calls: u64,
    failing: Vec<u64>,
    faults: u64,
    ghost in_range: { given ≤ length bytes.items },
}

impl MemorySource {
    /// A source of these bytes whose calls named in `failing` fail.
    pub fn new(bytes: Vec<u8>, failing: Vec<u64>) -> Self
        ensures left { ⟦<MemorySource as Source>⟧.left result ≡ Some bytes.items }
        ensures faults { ⟦<MemorySource as Source>⟧.faults result ≡ 0 }
        ensures calls { result.calls ≡ 0 }
        ensures failing { result.failing ≡ failing }
    {
        MemorySource {
            bytes,
            given: 0,
            calls: 0,
            failing,
            faults: 0,
        }
    }
}

impl Source for MemorySource {
    ghost left = { λ s. Some (drop s.given s.bytes.items) };

    ghost faults = { λ s. s.faults };

    fn read(&mut self, buf: &mut [u8]) -> Result<usize, Failed>
        ensures within { IfOk result (λ n. n ≤ length buf.new) }
        ensures gives { IfOk result (λ n. Gives (Some (drop self.old.given self.old.bytes.items)) (Some (drop self.new.given self.new.bytes.items)) (take n buf.new)) }
        ensures end { IfOk result (λ n. n ≡ 0 → 0 < length buf.new → IsAtEnd (Some (drop self.new.given self.new.bytes.items))) }
        ensures kept { OnErr result (Keeps (Some (drop self.old.given self.old.bytes.items)) (Some (drop self.new.given self.new.bytes.items))) }
        ensures never_falls { self.old.faults ≤ self.new.faults }
        ensures cause { OnErr result (Rose self.old.faults self.new.faults) }

        // The calls that are named fail, and no others do: those give all that is left, or as much as the buffer holds.
        ensures fails { IsErr result ↔ Contains self.old.failing.items self.old.calls }
        ensures count { IfOk result (λ n. n ≡ min (length (drop self.old.given self.old.bytes.items)) (length buf.new)) }
        ensures no_fault { OnOk result (self.new.faults ≡ self.old.faults) }

        // Each call counts, and the same ones fail from then on.
        ensures calls { self.new.calls ≡ min (self.old.calls + 1) u64.MAX }
        ensures failing { self.new.failing ≡ self.old.failing }
    {
        let call = self.calls;
        self.calls = call.saturating_add(1);
        if self.failing.as_slice().contains(&call) {
            self.faults = self.faults.saturating_add(1);
            return Err(Failed);
        }
        let given = self.given;
        let count = (self.bytes.len() - given).min(buf.len());
        buf[..count].copy_from_slice(&self.bytes.as_slice()[given..given + count]);
        self.given = given + count;
        Ok(count)
    }
}

/// Bytes in memory that are given without faults.
#[derive(Drop)]
pub struct SliceSource<'a> {
    bytes: &'a [u8],
}

impl<'a> SliceSource<'a> {
    /// A source of these bytes.
    pub fn new(bytes: &'a [u8]) -> Self
        ensures left { ⟦<SliceSource<'a> as Source>⟧.left result ≡ Some bytes.entry.now }
    {
        SliceSource { bytes }
    }
}

impl Source for SliceSource<'_> {
    ghost left = { λ s. Some s.bytes.now };

    ghost faults = { λ _. 0 };

    fn read(&mut self, buf: &mut [u8]) -> Result<usize, Failed> {
        let count = self.bytes.len().min(buf.len());
        let (front, rest) = self.bytes.split_at(count);
        buf[..count].copy_from_slice(front);
        self.bytes = rest;
        Ok(count)
    }
}
