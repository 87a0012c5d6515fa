ghost use Rattle.std.specs.Prelude.{◌≡◌, ◌==◌, ◌<◌, ◌++◌, ◌↔◌, [], length, IsSome, slice_index_or};
ghost use Rattle.std.specs.Option.{option_to_list};
ghost use Rattle.qc_flight.specs.Packets.{Entry};

use crate::room::Room;
use crate::sent::SentPacket;
use std::collections::VecDeque;
use std::marker::Model;

/// Packets with their numbers, in ascending order of number.
#[derive(Debug, Drop)]
pub struct PacketList {
    packets: VecDeque<(u64, SentPacket)>,
}

impl Model for PacketList {
    ghost use Rattle.std.specs.Prelude.{List};
    ghost use Rattle.qc_flight.specs.Packets.{Entry};

    ghost Value = { List Entry };

    ghost view = { λ l. l.packets.items };
}

impl PacketList {
    /// Of these packets.
    pub(crate) fn of(packets: VecDeque<(u64, SentPacket)>) -> PacketList
        ensures { result ≡ packets.items }
    {
        PacketList { packets }
    }

    /// No packets, in room that was taken for some.
    pub fn none(room: Room) -> PacketList
        ensures { result ≡ [] }
    {
        PacketList {
            packets: room.buffer(),
        }
    }

    /// How many there are.
    pub fn len(&self) -> usize
        ensures { result ≡ length self.now }
    {
        self.packets.len()
    }

    /// Whether there is none.
    pub fn is_empty(&self) -> bool
        ensures { result ≡ (length self.now == 0) }
    {
        self.packets.len() == 0
    }

    /// The number and the packet at a place.
    pub fn entry(&self, place: usize) -> &(u64, SentPacket)
        requires { place < length self.now }
        ensures { result.now ≡ slice_index_or self.now place result.now }
    {
        &self.packets[place]
    }

    /// Takes the first one out, if there is one.
    pub fn pop_front(&mut self) -> Option<(u64, SentPacket)>
        ensures packets { self.old ≡ option_to_list result ++ self.new }
        ensures some { IsSome result ↔ (0 < length self.old) }
    {
        self.packets.pop_front()
    }
}
