//! On which streams an end sends and receives, by their ids (RFC 9000, 2.1).

ghost use Rattle.std.specs.Prelude.{◌≡◌};
ghost use Rattle.qc_state.specs.Streams.{receives_on, sends_on};
ghost use Rattle.qc_streams.specs.Streams.{is_own, is_uni};

use qc_base::{Side, StreamId};

/// Whether an end of this side opens the stream.
#[tactic(auto, unfolding(qc_streams::specs::Streams::is_own))]
fn is_own(side: Side, id: StreamId) -> bool
    ensures { result ≡ is_own side id }
{
    let bit = match side {
        Side::Client => 0,
        Side::Server => 1,
    };
    id.value() % 2 == bit
}

/// Whether one end alone sends on the stream.
#[tactic(auto, unfolding(qc_streams::specs::Streams::is_uni))]
fn is_uni(id: StreamId) -> bool
    ensures { result ≡ is_uni id }
{
    id.value() / 2 % 2 != 0
}

/// Whether an end of this side sends on the stream: on its own, and on one that both ends send on.
pub(crate) fn sends_on(side: Side, id: StreamId) -> bool
    ensures { result ≡ sends_on side id }
{
    !is_uni(id) || is_own(side, id)
}

/// Whether it receives on the stream: on the peer's, and on one that both ends send on.
pub(crate) fn receives_on(side: Side, id: StreamId) -> bool
    ensures { result ≡ receives_on side id }
{
    !is_uni(id) || !is_own(side, id)
}
