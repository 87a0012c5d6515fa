//! A queue of datagrams, the oldest first.

ghost use Rattle.std.specs.Prelude.{◌≡◌, ℕ, ◌+◌, ◌-◌, ◌<◌, ◌≤◌, [], ◌∷◌, ◌++◌, ◌==◌, IsTrue, drop, length, IfOk, OnOk, OnErr, IfSome, IfNone, option_to_list, ◌^◌};
ghost use Rattle.std.specs.VecDeque.{deque_len, deque_capacity};
ghost use Rattle.qc_datagrams.specs.Queue.{first, first_len, fits, has_room, no_longer_than, queued, rest, space, total, weight, with_room};

use bytes::Bytes;
use std::alloc::{AllocError, Global};
use std::collections::VecDeque;
use std::marker::Model;

/// Datagrams that wait, the oldest first. Each counts its length and 32 bytes.
#[derive(Drop)]
pub struct DatagramQueue {
    items: VecDeque<Bytes>,
    // what they count together
    bytes: u64,
}

impl Model for DatagramQueue {
    ghost use Rattle.std.specs.Prelude.{◌≡◌, List, ℕ};

    ghost Value = { List (List ℕ) };

    ghost use Rattle.qc_datagrams.specs.Queue.{total};

    ghost view = { λ q. q.items.items };

    ghost invariant = { λ q. q.bytes ≡ total q.items.items };
}

/// What a datagram counts.
#[tactic(auto, unfolding(crate::specs::Queue::weight))]
fn weight(datagram: &Bytes) -> u64
    ensures value { result ≡ weight datagram.now }
    ensures some { 0 < result }
{
    datagram.len() as u64 + 32
}

impl DatagramQueue {
    /// An empty queue.
    #[tactic(auto, unfolding(crate::specs::Queue::total))]
    pub fn new(alloc: Global) -> Self
        ensures { result ≡ [] }
    {
        DatagramQueue {
            items: VecDeque::new(alloc),
            bytes: 0,
        }
    }

    /// Whether no datagram waits.
    pub fn is_empty(&self) -> bool
        ensures { result ≡ (length self.now == 0) }
    {
        self.items.is_empty()
    }

    /// Whether a datagram fits beside those that wait into a buffer of so many bytes.
    #[tactic(auto, unfolding(crate::specs::Queue::fits))]
    pub fn fits(&self, limit: u64, datagram: &Bytes) -> bool
        ensures { result ≡ fits limit datagram.now self.now }
    {
        fits(&self.items, self.bytes, limit, datagram)
    }

    /// How long a datagram may be that fits beside those that wait.
    #[tactic(auto, unfolding(crate::specs::Queue::space))]
    pub fn space(&self, limit: u64) -> u64
        ensures { result ≡ space limit self.now }
    {
        limit.saturating_sub(self.bytes).saturating_sub(32)
    }

    /// How long the oldest datagram is; None exactly where none waits.
    #[tactic(auto, unfolding(crate::specs::Queue::first_len))]
    pub fn first_len(&self) -> Option<usize>
        ensures { result ≡ first_len self.now }
    {
        match self.items.front() {
            Some(datagram) => Some(datagram.len()),
            None => None,
        }
    }

    /// The oldest datagram leaves the queue; None exactly where none waits.
    #[tactic(auto, using(crate::proofs::Room::popped_first, crate::proofs::Room::popped_rest))]
    pub fn pop(&mut self) -> Option<Bytes>
        ensures given { option_to_list result ≡ first self.old }
        ensures left { self.new ≡ rest self.old }
    {
        pop_front(&mut self.items, &mut self.bytes)
    }

    /// Drops all datagrams that are longer than so many bytes, wherever they stand. The others stay,
    /// in their order.
    #[tactic(auto, unfolding(crate::specs::Queue::no_longer_than))]
    pub fn drop_longer(&mut self, most: u64)
        ensures { self.new ≡ no_longer_than most self.old }
    {
        self.bytes = drop_longer(&mut self.items, self.bytes, most);
    }

    /// Drops all datagrams.
    #[tactic(auto, unfolding(crate::specs::Queue::total))]
    pub fn clear(&mut self)
        ensures { self.new ≡ [] }
    {
        self.items.clear();
        self.bytes = 0;
    }

    /// Queues a datagram in a buffer of so many bytes: the oldest are dropped until it fits, or
    /// none is left.
    ///
    /// # Errors
    ///
    /// Want of memory; nothing changes then.
    #[tactic(auto, unfolding(crate::specs::Queue::queued))]
    pub fn push(&mut self, limit: u64, datagram: Bytes) -> Result<(), AllocError>
        ensures queued { OnOk result (self.new ≡ queued limit datagram self.old) }
        ensures err { OnErr result (self.new ≡ self.old) }
    {
        self.items.reserve(1)?;
        make_room(&mut self.items, &mut self.bytes, limit, &datagram);
        self.bytes += weight(&datagram);
        self.items.push_back_reserved(datagram);
        Ok(())
    }
}

/// Whether a datagram fits beside others that count so much.
#[tactic(auto, unfolding(crate::specs::Queue::fits))]
fn fits(items: &VecDeque<Bytes>, bytes: u64, limit: u64, datagram: &Bytes) -> bool
    requires { bytes ≡ total items.now.items }
    ensures { result ≡ fits limit datagram.now items.now.items }
{
    let weight = weight(datagram);
    weight <= limit && bytes <= limit - weight
}

/// Drops the datagrams that are longer than so many bytes; answers what the others count.
fn drop_longer(items: &mut VecDeque<Bytes>, bytes: u64, most: u64) -> u64
    requires { bytes ≡ total items.old.items }
    ensures dropped { items.new.items ≡ no_longer_than most items.old.items }
    ensures bytes { result ≡ total items.new.items }
{
    keep_within(items, most);
    count(items, bytes)
}

/// Keeps the datagrams that have at most so many bytes.
fn keep_within(items: &mut VecDeque<Bytes>, most: u64)
    ensures { items.new.items ≡ no_longer_than most items.old.items }
{
    items.retain(|datagram| datagram.len() as u64 <= most);
}

/// What datagrams count together, which is at most so much.
fn count(items: &VecDeque<Bytes>, most: u64) -> u64
    requires { total items.now.items ≤ most }
    ensures { result ≡ total items.now.items }
{
    let mut sum = 0;
    let mut place = 0;
    while place < items.len() {
        sum += weight(&items[place]);
        place += 1;
    }
    sum
}

/// Takes the oldest datagram out.
fn pop_front(items: &mut VecDeque<Bytes>, bytes: &mut u64) -> Option<Bytes>
    requires { bytes.old ≡ total items.old.items }
    ensures first { items.old.items ≡ option_to_list result ++ items.new.items }
    ensures bytes { bytes.new ≡ total items.new.items }
    ensures capacity { deque_capacity items.new ≡ deque_capacity items.old }
    ensures len { deque_len items.new ≤ deque_len items.old }
    ensures none { IfNone result (items.old.items ≡ []) }
{
    let datagram = items.pop_front()?;
    *bytes -= weight(&datagram);
    Some(datagram)
}

/// Whether a datagram fits beside those, or none of them is left.
#[tactic(auto, using(crate::proofs::Room::room_of_none), unfolding(crate::specs::Queue::fits))]
fn has_room(items: &VecDeque<Bytes>, bytes: u64, limit: u64, datagram: &Bytes) -> bool
    requires { bytes ≡ total items.now.items }
    ensures room { result ≡ has_room limit datagram.now items.now.items }
    ensures small { IsTrue result → total items.now.items + weight datagram.now < 2 ^ 64 }
{
    let weight = weight(datagram);
    if items.is_empty() {
        return true;
    }
    weight <= limit && bytes <= limit - weight
}

/// Drops the oldest datagram.
fn drop_oldest(items: &mut VecDeque<Bytes>, bytes: &mut u64)
    requires { bytes.old ≡ total items.old.items }
    ensures rest { items.new.items ≡ drop 1 items.old.items }
    ensures bytes { bytes.new ≡ total items.new.items }
    ensures capacity { deque_capacity items.new ≡ deque_capacity items.old }
    ensures len { deque_len items.new ≤ deque_len items.old }
{
    pop_front(items, bytes);
}

/// Drops the oldest datagrams until one fits beside the others, or none is left.
fn make_room(items: &mut VecDeque<Bytes>, bytes: &mut u64, limit: u64, datagram: &Bytes)
    requires { bytes.old ≡ total items.old.items }
    ensures room { items.new.items ≡ with_room limit datagram.now items.old.items }
    ensures bytes { bytes.new ≡ total items.new.items }
    ensures small { total items.new.items + weight datagram.now < 2 ^ 64 }
    ensures capacity { deque_capacity items.new ≡ deque_capacity items.old }
    ensures len { deque_len items.new ≤ deque_len items.old }
{
    while !has_room(items, *bytes, limit, datagram) {
        drop_oldest(items, bytes);
    }
}
