//! Connection ids: how they are made, kept, issued and retired.

ghost use Rattle.std.specs.Prelude.{◌≡◌};

use qc_base::{ConnectionId, Duration, Instant, IssuedCid, ResetToken, TransportErrorCode};
use qc_frame::NewConnectionId;
use qc_ids::{
    CidQueue, CidState, ConnectionIdGenerator, HashedConnectionIdGenerator, InsertError,
    InvalidCid, RandomConnectionIdGenerator,
};
use rand_core::Rng;
use std::default::Default;
use std::ops::Range;
use std::test::Fail;

// Gives the byte 1, and zeros behind it.
#[derive(Clone, Copy)]
struct OneByte;

impl Rng for OneByte {
    ghost use Rattle.std.specs.Prelude.{replicate, slice_set};

    ghost stream = { λ _. record { u32_after = λ _. 1; u64_after = λ _. 1; bytes_after = λ _ n. slice_set (replicate n 0) 0 1 } };

    #[tactic(auto, unfolding(rand_core::specs::Stream::next_u32))]
    fn next_u32(&mut self) -> u32 {
        1
    }

    #[tactic(auto, unfolding(rand_core::specs::Stream::next_u64))]
    fn next_u64(&mut self) -> u64 {
        1
    }

    #[tactic(auto, unfolding(rand_core::specs::Stream::fill_bytes))]
    fn fill_bytes(&mut self, dst: &mut [u8]) {
        dst.fill(0);
        if !dst.is_empty() {
            dst[0] = 1;
        }
    }
}

#[test]
fn ids_are_made_and_known_again(rt: HostRuntime) -> Result<(), Fail> {
    let mut hashed = HashedConnectionIdGenerator::from_key(0);
    let id = hashed.generate_cid(&mut OneByte);
    assert_eq!(rt;
        id,
        ConnectionId::new(&[1, 0, 0, 0xac, 0x05, 0x7d, 0xe1, 0xb9])
    );
    assert_eq!(rt; hashed.validate(&id), Ok(()));
    for len in [2, 7, 9] {
        let id = ConnectionId::new(&[1, 0, 0, 0xac, 0x05, 0x7d, 0xe1, 0xb9, 0][..len]);
        assert_eq!(rt; hashed.validate(&id), Err(InvalidCid));
    }
    let other = ConnectionId::new(&[2, 0, 0, 0xac, 0x05, 0x7d, 0xe1, 0xb9]);
    assert_eq!(rt; hashed.validate(&other), Err(InvalidCid));
    hashed.set_lifetime(Duration::from_secs(1));
    assert_eq!(rt;
        hashed.cid_lifetime(),
        Some(Duration::from_nanos(1_000_000_000))
    );
    assert_eq!(rt; hashed.cid_len(), 8);
    let mut random = RandomConnectionIdGenerator::default();
    let id = random.generate_cid(&mut OneByte);
    assert_eq!(rt; id, ConnectionId::new(&[1, 0, 0, 0, 0, 0, 0, 0]));
    assert_eq!(rt; random.validate(&other), Ok(()));
    random.set_lifetime(Duration::from_nanos(7));
    assert_eq!(rt; random.cid_lifetime(), Some(Duration::from_nanos(7)));
    let mut short = RandomConnectionIdGenerator::new(4);
    assert_eq!(rt; short.cid_len(), 4);
    assert_eq!(rt;
        short.generate_cid(&mut OneByte),
        ConnectionId::new(&[1, 0, 0, 0])
    );
    Ok(())
}

fn frame(sequence: u64, retire_prior_to: u64) -> NewConnectionId
    ensures sequence { result.sequence ≡ sequence }
    ensures retire { result.retire_prior_to ≡ retire_prior_to }
{
    NewConnectionId {
        sequence,
        retire_prior_to,
        id: ConnectionId::new(&[7; 8]),
        reset_token: ResetToken::from([9; 16]),
    }
}

// The range that an answer tells to retire; from 0 to 0 where it tells none.
fn range_of(answer: Option<(Range<u64>, ResetToken)>) -> (u64, u64) {
    match answer {
        Some((range, _token)) => (range.start, range.end),
        None => (0, 0),
    }
}

// Each row: a frame's number, the number that it retires up to, whether it is taken or why not, the numbers that
// are then to be retired, and the active number.
#[test]
fn frames_bring_ids(rt: HostRuntime) -> Result<(), Fail> {
    let rows = [
        (1, 0, Ok((0, 0)), 0),
        (4, 0, Ok((0, 0)), 0),
        (5, 0, Err(InsertError::ExceedsLimit), 0),
        (4, 1, Ok((0, 1)), 1),
        (5, 0, Ok((0, 0)), 1),
        (6, 1, Err(InsertError::ExceedsLimit), 1),
        (8, 4, Ok((1, 4)), 4),
        (3, 3, Err(InsertError::Retired), 4),
        (12, 12, Ok((4, 9)), 12),
    ];
    let mut queue = CidQueue::new(ConnectionId::new(&[]));
    for (sequence, retire, expected, active) in rows {
        if retire <= sequence && sequence < 100 {
            let found = queue.insert(frame(sequence, retire)).map(range_of);
            assert_eq!(rt; found, expected);
            assert_eq!(rt; queue.active_seq(), active);
        }
    }
    assert!(rt; queue.next().is_none());
    assert_eq!(rt; queue.insert(frame(14, 12)).map(range_of), Ok((0, 0)));
    let next = queue.next().map(|(token, range)| (range, token));
    assert_eq!(rt; range_of(next), (12, 14));
    assert_eq!(rt; queue.active_seq(), 14);
    queue.update_initial_cid(ConnectionId::new(&[3]));
    assert_eq!(rt; queue.active(), ConnectionId::new(&[3]));
    Ok(())
}

fn issued(sequence: u64) -> IssuedCid
    ensures { result.sequence ≡ sequence }
{
    IssuedCid {
        sequence,
        id: ConnectionId::new(&[7; 8]),
        reset_token: ResetToken::from([9; 16]),
    }
}

#[test]
#[tactic(auto, unfolding(qc_ids::specs::LocalCids::first_local_cids))]
fn ids_grow_old(rt: HostRuntime) -> Result<(), Fail> {
    let lifetime = Some(Duration::from_nanos(10));
    let mut state = CidState::new(rt.alloc(), 8, lifetime, Instant::from_nanos(5), 2);
    state.new_cids(&[issued(2), issued(3)], Instant::from_nanos(7))?;
    assert_eq!(rt; state.cid_len(), 8);
    assert_eq!(rt; state.next_timeout(), Some(Instant::from_nanos(15)));
    assert_eq!(rt; state.on_cid_timeout(), 2);
    assert_eq!(rt; state.retire_prior_to(), 2);
    assert_eq!(rt; state.on_cid_retirement(0, 3), Ok(false));
    assert_eq!(rt; state.on_cid_retirement(0, 4), Ok(true));
    assert_eq!(rt; state.next_timeout(), Some(Instant::from_nanos(17)));
    assert_eq!(rt; state.on_cid_timeout(), 0);
    assert_eq!(rt; state.retire_prior_to(), 2);
    assert_eq!(rt; state.next_timeout(), None);
    match state.on_cid_retirement(4, 9) {
        Ok(_) => assert!(rt; false),
        Err(error) => assert_eq!(rt; error.code, TransportErrorCode::PROTOCOL_VIOLATION),
    }
    Ok(())
}
