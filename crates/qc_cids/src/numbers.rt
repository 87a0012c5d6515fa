//! Numbers of the peer's ids that wait to be told as retired.

ghost use Rattle.std.specs.Prelude.{◌≡◌, ◌≢◌, ℕ, ◌+◌, ◌-◌, ◌<◌, ◌≤◌, [], length, slice_index, vec_len, vec_capacity, IfSome, IfNone, OnOk, OnErr};
ghost use Rattle.qc_cids.specs.Cids.{first_number, number_dropped, number_placed, numbers_placed};
ghost use Rattle.qc_ids.specs.Numbers.{numbers_on};

use std::alloc::{AllocError, Global};
use std::marker::Model;

/// Numbers of the peer's ids that it is to be told of as retired (RFC 9000, section 19.16), the lowest first. One can
/// wait more than once.
#[derive(Drop)]
pub struct NumberList {
    pub(crate) numbers: Vec<u64>,
}

impl Model for NumberList {
    ghost use Rattle.std.specs.Prelude.{List, ℕ};

    ghost Value = { List ℕ };

    ghost view = { λ l. l.numbers.items };
}

/// Where a number takes its place: before the first that is greater.
fn place_for(numbers: &[u64], n: u64) -> usize
    ensures within { result ≤ length numbers.now }
    ensures before { (k : ℕ) → k < result → slice_index numbers.now k ≤ n }
    ensures here { result < length numbers.now → n < slice_index numbers.now result }
{
    for (i, k) in numbers.iter().enumerate() {
        if n < *k {
            return i;
        }
    }
    numbers.len()
}

/// Where a number stands for the first time.
fn place_of(numbers: &[u64], n: u64) -> Option<usize>
    ensures found { IfSome result (λ i. (i < length numbers.now) × (slice_index numbers.now i ≡ n)) }
    ensures first { IfSome result (λ i. (k : ℕ) → k < i → slice_index numbers.now k ≢ n) }
    ensures none { IfNone result ((k : ℕ) → k < length numbers.now → slice_index numbers.now k ≢ n) }
{
    for (i, k) in numbers.iter().enumerate() {
        if *k == n {
            return Some(i);
        }
    }
    None
}

/// Takes a number out once, where it is there.
#[tactic(auto, using(crate::proofs::Places::number_out, crate::proofs::Places::number_none))]
fn drop_number(numbers: &mut Vec<u64>, n: u64)
    ensures { numbers.new.items ≡ number_dropped n numbers.old.items }
{
    if let Some(place) = place_of(numbers.as_slice(), n) {
        numbers.remove(place);
    }
}

/// A number, for which there is room, takes its place.
#[tactic(auto, using(crate::proofs::Places::number_place))]
pub(crate) fn place(numbers: &mut Vec<u64>, n: u64)
    requires { vec_len numbers.old < vec_capacity numbers.old }
    ensures items { numbers.new.items ≡ number_placed n numbers.old.items }
    ensures len { vec_len numbers.new ≡ vec_len numbers.old + 1 }
    ensures capacity { vec_capacity numbers.old ≤ vec_capacity numbers.new }
{
    let place = place_for(numbers.as_slice(), n);
    let _ = numbers.insert(place, n);
}

/// The numbers from one up to, but without, another take their places, for which there is room.
#[tactic(auto, using(crate::proofs::Places::placed_more, crate::proofs::Places::placed_all))]
pub(crate) fn place_all(numbers: &mut Vec<u64>, start: u64, end: u64)
    requires { vec_len numbers.old + (end - start) ≤ vec_capacity numbers.old }
    ensures { numbers.new.items ≡ numbers_placed (numbers_on start (end - start)) numbers.old.items }
{
    for n in start..end {
        place(numbers, n);
    }
}

impl NumberList {
    /// None waits.
    pub fn new(alloc: Global) -> NumberList
        ensures { result ≡ [] }
    {
        NumberList {
            numbers: Vec::new(alloc),
        }
    }

    /// How many wait, each as often as it waits.
    pub fn len(&self) -> usize
        ensures { result ≡ length self.now }
    {
        self.numbers.len()
    }

    /// The lowest; None where none waits.
    pub fn first(&self) -> Option<u64>
        ensures { result ≡ first_number self.now }
    {
        match self.numbers.as_slice() {
            [first, ..] => Some(*first),
            [] => None,
        }
    }

    /// One waits, also where it waits already.
    ///
    /// # Errors
    ///
    /// Want of memory; nothing changes then.
    pub fn insert(&mut self, n: u64) -> Result<(), AllocError>
        ensures placed { OnOk result (self.new ≡ number_placed n self.old) }
        ensures err { OnErr result (self.new ≡ self.old) }
    {
        self.numbers.reserve(1)?;
        place(&mut self.numbers, n);
        Ok(())
    }

    /// One waits no more, or once less.
    pub fn remove(&mut self, n: u64)
        ensures { self.new ≡ number_dropped n self.old }
    {
        drop_number(&mut self.numbers, n);
    }
}
