//! Stream ids (RFC 9000, section 2.1).

ghost use Rattle.std.specs.Prelude.{◌≡◌, ◌<◌, ◌^◌, ◌/◌, ◌%◌};
ghost use Rattle.qc_base.specs.StreamId.{dir_bit, initiator_bit, stream_id};

use crate::side::{Dir, Side};
use crate::varint::VarInt;
use std::marker::Model;

/// A stream's id, below 2^62: its two lowest bits say which end opened it and whether it carries
/// data both ways (RFC 9000, section 2.1).
#[derive(Clone, Copy, Debug, PartialEq, Eq, PartialOrd, Ord, Hash)]
pub struct StreamId(u64);

impl Model for StreamId {
    ghost use Rattle.std.specs.Prelude.{ℕ, ◌<◌, ◌^◌};

    ghost Value = { ℕ };

    ghost view = { λ id. id.0 };

    ghost invariant = { λ id. id.0 < 2 ^ 62 };

    ghost inverse = { λ n. record { 0 = n } };
}

impl StreamId {
    /// The id of the stream of this direction that `initiator` opens after `index` others.
    pub fn new(initiator: Side, dir: Dir, index: u64) -> StreamId
        requires { index < 2 ^ 60 }
        ensures { result ≡ stream_id initiator dir index }
    {
        let dir = match dir {
            Dir::Bi => 0,
            Dir::Uni => 2,
        };
        let initiator = match initiator {
            Side::Client => 0,
            Side::Server => 1,
        };
        StreamId(4 * index + dir + initiator)
    }

    /// The end that opens the stream.
    pub fn initiator(self) -> Side
        ensures { initiator_bit result ≡ self % 2 }
    {
        if self.0 % 2 == 0 {
            Side::Client
        } else {
            Side::Server
        }
    }

    /// Whether the stream carries data both ways.
    pub fn dir(self) -> Dir
        ensures { dir_bit result ≡ self / 2 % 2 }
    {
        if self.0 / 2 % 2 == 0 {
            Dir::Bi
        } else {
            Dir::Uni
        }
    }

    /// How many streams of its direction its end opens before it.
    pub fn index(self) -> u64
        ensures value { result ≡ self / 4 }
        ensures range { result < 2 ^ 60 }
    {
        self.0 / 4
    }

    /// The id as a number.
    pub fn value(self) -> u64
        ensures value { result ≡ self }
        ensures range { result < 2 ^ 62 }
    {
        self.0
    }
}

impl From<VarInt> for StreamId {
    ghost from_gives = { λ n id. id ≡ n };

    /// The stream id that is spelled by this number.
    fn from(n: VarInt) -> StreamId {
        StreamId(n.into_inner())
    }
}

impl From<StreamId> for VarInt {
    ghost from_gives = { λ id n. n ≡ id };

    /// The number that spells this stream id.
    fn from(id: StreamId) -> VarInt {
        VarInt::from_u64(id.0).unwrap()
    }
}
