//! The counts of marks that ACKs bring. What is expected was worked by hand from RFC 9000, section
//! 13.4.2, and RFC 9002, section 7.

use crate::sender::{Sender, at};
use std::alloc::Global;
use std::test::Fail;

// Whether packets are still marked, and the window, after ACKs of packet 0, 1 and 2, one each, with these
// counts of ECT(0) and CE.
fn after_counts(alloc: Global, counts: [Option<(u32, u32)>; 3]) -> Result<(bool, u64), Fail> {
    let mut sender = Sender::new(alloc);
    for number in 0..3 {
        sender.send(alloc, number, at(0))?;
    }
    let mut number = 0;
    for count in counts {
        sender.acknowledge(alloc, at(100), &[number], count)?;
        number = number.saturating_add(1);
    }
    Ok((sender.path.sending_ecn, sender.window()))
}

#[test]
fn counts_of_marks_are_looked_at(rt: HostRuntime) -> Result<(), Fail> {
    let rows = [
        ([Some((1, 0)), Some((2, 0)), Some((3, 0))], true, 15_600),
        ([Some((1, 0)), Some((1, 0)), Some((3, 0))], false, 15_600),
        ([Some((1, 0)), Some((1, 1)), Some((2, 1))], true, 7_200),
        ([Some((2, 0)), Some((1, 2)), Some((3, 0))], false, 15_600),
        ([Some((1, 0)), None, Some((2, 0))], false, 15_600),
    ];
    for (counts, marks, window) in rows {
        assert_eq!(rt; after_counts(rt.alloc(), counts)?, (marks, window));
    }
    Ok(())
}

// The same after ACKs of some numbers, each with these counts; packets 0, 1, 2 and 8 were sent.
fn after_acks(alloc: Global, acks: &[(u64, Option<(u32, u32)>)]) -> Result<(bool, u64), Fail> {
    let mut sender = Sender::new(alloc);
    for number in [0, 1, 2, 8] {
        sender.send(alloc, number, at(0))?;
    }
    for ack in acks {
        sender.acknowledge(alloc, at(100), &[ack.0], ack.1)?;
    }
    Ok((sender.path.sending_ecn, sender.window()))
}

// An ACK of 5, which isn't in flight, raises the greatest number: a rise of CE halves the window of
// 13,200, no counts change nothing, and counts that fall are kept (so those of the ACK of 8 rise by one, and
// packets 1 and 2 are lost). A second ACK of 5 isn't looked at.
#[test]
fn counts_of_an_ack_of_no_packet_are_looked_at(rt: HostRuntime) -> Result<(), Fail> {
    let first = (0, Some((1, 0)));
    assert_eq!(rt;
        after_acks(rt.alloc(), &[first, (5, Some((1, 1)))])?,
        (true, 6600)
    );
    assert_eq!(rt;
        after_acks(rt.alloc(), &[first, (5, None)])?,
        (true, 13_200)
    );
    let falls = [first, (5, Some((0, 0))), (8, Some((1, 0)))];
    assert_eq!(rt; after_acks(rt.alloc(), &falls)?, (true, 7200));
    let again = [first, (5, Some((1, 0))), (5, Some((1, 1)))];
    assert_eq!(rt; after_acks(rt.alloc(), &again)?, (true, 13_200));
    Ok(())
}
