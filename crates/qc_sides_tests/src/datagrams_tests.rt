//! Room in a buffer, and each refusal at its edge.

use bytes::Bytes;
use qc_datagrams::{DatagramFault, Datagrams, SendRefusal, gives_what_was_queued, max_size};
use std::alloc::Global;
use std::test::Fail;

fn of_length(alloc: Global, len: usize) -> Result<Bytes, Fail> {
    let zeros = [0u8; 120];
    Ok(Bytes::copy_from_slice(alloc, zeros.get(..len).ok_or("too long")?)?)
}

/// Takes a frame of so many bytes: whether none had waited.
fn take(
    datagrams: &mut Datagrams,
    alloc: Global,
    len: usize,
) -> Result<Result<bool, DatagramFault>, Fail> {
    Ok(datagrams.take_frame(of_length(alloc, len)?))
}

/// How long the oldest is of those that came.
fn oldest(datagrams: &mut Datagrams) -> Option<usize> {
    let datagram = datagrams.incoming.pop()?;
    Some(datagram.len())
}

#[test]
fn oldest_make_room_for_those_that_come(rt: HostRuntime) -> Result<(), Fail> {
    // how long one is, whether none waited before it, and what a buffer of 100 bytes leaves then for
    // another: each counts 32 bytes more than it has
    const FRAMES: [(usize, bool, u64); 5] = [
        (10, true, 26),
        (20, false, 0),
        (30, false, 6),
        (100, false, 0),
        (0, false, 36),
    ];
    let mut datagrams = Datagrams::new(rt.alloc(), Some(100), 100);
    for (len, first, space) in FRAMES {
        assert!(rt; take(&mut datagrams, rt.alloc(), len)? == Ok(first));
        assert_eq!(rt; datagrams.incoming.space(100), space);
    }
    assert!(rt; take(&mut datagrams, rt.alloc(), 101)? == Err(DatagramFault::Refused));
    assert!(rt; oldest(&mut datagrams) == Some(0));
    assert!(rt; oldest(&mut datagrams).is_none());
    Ok(())
}

#[test]
fn none_come_without_a_buffer(rt: HostRuntime) -> Result<(), Fail> {
    let mut disabled = Datagrams::new(rt.alloc(), None, 100);
    assert!(rt; take(&mut disabled, rt.alloc(), 0)? == Err(DatagramFault::Refused));
    Ok(())
}

/// Why a datagram of so many bytes isn't queued, which is noted.
fn refused(
    datagrams: &mut Datagrams,
    alloc: Global,
    most: Option<u64>,
    drops: bool,
    len: usize,
) -> Result<Option<SendRefusal>, Fail> {
    let datagram = of_length(alloc, len)?;
    let refusal = datagrams.send_refusal(most, drops, &datagram);
    if let Some(refusal) = refusal {
        datagrams.refused(refusal);
    }
    Ok(refusal)
}

#[test]
fn sends_are_refused_in_order(rt: HostRuntime) -> Result<(), Fail> {
    // whether datagrams may come, how long the peer takes them, whether the oldest may be dropped,
    // and how long one is; 42 of 100 bytes are taken
    const SENDS: [(bool, Option<u64>, bool, usize, Option<SendRefusal>); 7] = [
        (false, None, false, 50, Some(SendRefusal::Disabled)),
        (true, None, false, 50, Some(SendRefusal::UnsupportedByPeer)),
        (true, Some(49), false, 50, Some(SendRefusal::TooLarge)),
        (true, Some(50), false, 50, Some(SendRefusal::Blocked)),
        (true, Some(50), true, 50, None),
        (true, Some(50), false, 27, Some(SendRefusal::Blocked)),
        (true, Some(50), false, 26, None),
    ];
    for (enabled, most, drops, len, refusal) in SENDS {
        let buffer = if enabled { Some(100) } else { None };
        let mut datagrams = Datagrams::new(rt.alloc(), buffer, 100);
        datagrams.send(of_length(rt.alloc(), 10)?)?;
        assert!(rt; refused(&mut datagrams, rt.alloc(), most, drops, len)? == refusal);
        assert_eq!(rt; datagrams.blocked, refusal == Some(SendRefusal::Blocked));
    }
    Ok(())
}

/// How long the oldest is of those that are to be sent, which leaves the queue.
fn sent(datagrams: &mut Datagrams) -> Option<usize> {
    let len = datagrams.outgoing.first_len();
    let datagram = datagrams.outgoing.pop()?;
    if len == Some(datagram.len()) {
        len
    } else {
        None
    }
}

#[test]
fn long_ones_are_dropped_wherever_they_stand(rt: HostRuntime) -> Result<(), Fail> {
    let mut datagrams = Datagrams::new(rt.alloc(), Some(100), 1000);
    for len in [30, 10, 40, 20] {
        datagrams.send(of_length(rt.alloc(), len)?)?;
    }
    datagrams.refused(SendRefusal::Blocked);
    // 1000 bytes less 100 of the four, 32 of each, and 32 of another
    assert_eq!(rt; datagrams.outgoing.space(1000), 740);
    datagrams.drop_longer(20);
    assert!(rt; datagrams.blocked);
    // less 30 of the two, 32 of each, and 32 of another
    assert_eq!(rt; datagrams.outgoing.space(1000), 874);
    assert!(rt; sent(&mut datagrams) == Some(10));
    datagrams.outgoing.clear();
    assert!(rt; datagrams.outgoing.first_len().is_none());
    assert_eq!(rt; datagrams.outgoing.space(1000), 968);
    assert!(rt; datagrams.blocked);
    gives_what_was_queued();
    Ok(())
}

#[test]
fn sealing_takes_the_oldest_and_forgets_a_refusal(rt: HostRuntime) -> Result<(), Fail> {
    let mut datagrams = Datagrams::new(rt.alloc(), Some(100), 100);
    for len in [10, 20] {
        datagrams.send(of_length(rt.alloc(), len)?)?;
    }
    datagrams.refused(SendRefusal::Blocked);
    for len in [10, 20] {
        let sealed = datagrams.seal().ok_or("none is to be sent")?;
        assert_eq!(rt; sealed.len(), len);
        assert!(rt; !datagrams.blocked);
    }
    assert!(rt; datagrams.seal().is_none());
    Ok(())
}

#[test]
fn the_path_and_the_peer_bound_the_size(rt: HostRuntime) {
    // the MTU, the length of the connection id, the peer's max_datagram_frame_size, and how long a
    // datagram may be: the MTU less the first byte, the id, 4 bytes of a number, a tag of 16 and a
    // frame's head of 9, or the frame's size less its head
    const SIZES: [(u64, usize, Option<u64>, Option<u64>); 7] = [
        (1200, 8, Some(65535), Some(1162)),
        (1200, 20, Some(65535), Some(1150)),
        (1452, 8, Some(65535), Some(1414)),
        (1200, 8, Some(100), Some(91)),
        (1200, 8, Some(9), Some(0)),
        (1200, 8, Some(5), Some(0)),
        (1200, 8, None, None),
    ];
    for (mtu, cid_len, frame, size) in SIZES {
        assert!(rt; max_size(mtu, cid_len, frame) == size);
    }
}
