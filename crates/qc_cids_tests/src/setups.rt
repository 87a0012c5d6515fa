//! Ids and frames of tests.

ghost use Rattle.std.specs.Prelude.{◌≡◌};

use qc_base::{ConnectionId, Duration, Instant, IssuedCid, ResetToken};
use qc_cids::ConnectionIds;
use qc_frame::NewConnectionId;
use std::alloc::Global;

/// The id of a number: eight bytes that are that number.
pub(crate) fn id(number: u8) -> ConnectionId {
    ConnectionId::new(&[number; 8])
}

/// The token of a number: sixteen bytes that are that number.
pub(crate) fn token(number: u8) -> ResetToken {
    ResetToken::from([number; 16])
}

/// The frame that tells the id of a number, and retires those below another.
pub(crate) fn frame(number: u8, retire_prior_to: u64) -> NewConnectionId
    ensures sequence { result.sequence ≡ number }
    ensures retire { result.retire_prior_to ≡ retire_prior_to }
{
    NewConnectionId {
        sequence: number as u64,
        retire_prior_to,
        id: id(number),
        reset_token: token(number),
    }
}

/// The id that this end issued under a number.
pub(crate) fn issued(number: u8) -> IssuedCid {
    IssuedCid {
        sequence: number as u64,
        id: id(number),
        reset_token: token(number),
    }
}

/// The peer's first id is that of 0; this end issued one id of eight bytes, and each has a lifetime of ten nanoseconds.
pub(crate) fn ids(alloc: Global) -> ConnectionIds {
    let lifetime = Some(Duration::from_nanos(10));
    ConnectionIds::new(alloc, id(0), 8, lifetime, Instant::from_nanos(5), 1)
}

/// Packets to the peer carry no id; this end issued two of eight bytes.
pub(crate) fn ids_without_remote(alloc: Global) -> ConnectionIds {
    let none = ConnectionId::new(&[]);
    ConnectionIds::new(alloc, none, 8, None, Instant::from_nanos(5), 2)
}
