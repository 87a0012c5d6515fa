//! What an id says of its stream (RFC 9000, section 2.1).

ghost use Rattle.std.specs.Prelude.{◌≡◌, ◌+◌, ◌*◌, ◌%◌, ◌<◌, ◌^◌};
ghost use Rattle.qc_streams.specs.Streams.{dir_of, is_uni};

use qc_base::Dir;

/// The direction of the stream with an id.
#[tactic(auto, unfolding(crate::specs::Streams::dir_of))]
pub(crate) fn dir_of(id: u64) -> Dir
    ensures { result ≡ dir_of id }
{
    if id / 2 % 2 == 0 { Dir::Bi } else { Dir::Uni }
}

/// Whether only one end sends on the stream with an id.
#[tactic(auto, unfolding(crate::specs::Streams::is_uni))]
pub(crate) fn is_uni(id: u64) -> bool
    ensures { result ≡ is_uni id }
{
    id / 2 % 2 != 0
}

/// The id of the stream with an index that has the kind of another one.
pub(crate) fn of_kind(id: u64, index: u64) -> u64
    requires { index < 2 ^ 60 }
    ensures { result ≡ 4 * index + id % 4 }
{
    4 * index + id % 4
}
