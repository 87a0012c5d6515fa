ghost use Rattle.std.specs.Prelude.{◌≡◌, ◌≤◌, [], IfOk};
ghost use Rattle.std.specs.VecDeque.{deque_capacity, deque_len};

use crate::sent::SentPacket;
use std::alloc::{AllocError, Global};
use std::collections::VecDeque;
use std::marker::Model;

/// Memory for packets that are about to leave a flight, taken before anything changes, so that
/// nothing that follows can fail for want of it.
#[derive(Debug, Drop)]
pub struct Room {
    packets: VecDeque<(u64, SentPacket)>,
}

impl Model for Room {
    ghost use Rattle.std.specs.Prelude.{ℕ, ◌≡◌, []};
    ghost use Rattle.std.specs.VecDeque.{deque_capacity, deque_len};

    ghost Value = { ℕ };

    ghost view = { λ r. deque_capacity r.packets };

    ghost invariant = { λ r. (r.packets.items ≡ []) × (deque_len r.packets ≡ 0) };
}

impl Room {
    /// For so many packets.
    pub(crate) fn for_packets(alloc: Global, count: usize) -> Result<Room, AllocError>
        ensures { IfOk result (λ room. count ≤ room) }
    {
        let packets = VecDeque::with_capacity(alloc, count)?;
        Ok(Room { packets })
    }

    /// The memory.
    pub(crate) fn buffer(self) -> VecDeque<(u64, SentPacket)>
        ensures items { result.items ≡ [] }
        ensures none { deque_len result ≡ 0 }
        ensures room { deque_capacity result ≡ self }
    {
        let Room { packets } = self;
        packets
    }
}
