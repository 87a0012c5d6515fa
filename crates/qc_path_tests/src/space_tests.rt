//! Packets that came to one space.

use qc_base::{EcnCodepoint, Instant};
use qc_frame::EcnCounts;
use qc_space::{PacketSpace, with_mark};
use std::test::Fail;

// Two packets that elicit an ACK are acknowledged at once in the Data space, and the first of them within a delay (RFC
// 9000, 13.2.1 and 13.2.2). A mark is counted for each packet (RFC 9000, 13.4.1).
#[test]
fn packets_come(rt: HostRuntime) -> Result<(), Fail> {
    let mut space = PacketSpace::new();
    let rows = [
        (0, Some(EcnCodepoint::Ect0), true, false, (1, 0, 0)),
        (1, Some(EcnCodepoint::Ect1), false, true, (1, 1, 0)),
        (2, None, false, true, (1, 1, 0)),
        (3, Some(EcnCodepoint::Ce), false, true, (1, 1, 1)),
    ];
    for (number, mark, sets, owes, marks) in rows {
        let at = Instant::from_nanos(number);
        let held_back = space.received(true, number, at, true, mark);
        assert_eq!(rt; held_back, sets, "{number}");
        assert_eq!(rt; space.acks.owes(), owes, "{number}");
        assert!(rt; !space.seen.is_new(number), "{number}");
        let counts = (space.marks.ect0, space.marks.ect1, space.marks.ce);
        assert_eq!(rt; counts, marks, "{number}");
    }
    Ok(())
}

// One more of the mark that a packet came with, and of none where it had none. A count stands still at 2^62 - 1, the greatest that
// an ACK has room for (RFC 9000, 16).
#[test]
fn a_mark_counts_one_packet(rt: HostRuntime) {
    let greatest = 0x3fff_ffff_ffff_ffff;
    let counts = EcnCounts {
        ect0: 5,
        ect1: greatest - 1,
        ce: greatest,
    };
    for (mark, ect0, ect1, ce) in [
        (None, 5, greatest - 1, greatest),
        (Some(EcnCodepoint::Ect0), 6, greatest - 1, greatest),
        (Some(EcnCodepoint::Ect1), 5, greatest, greatest),
        (Some(EcnCodepoint::Ce), 5, greatest - 1, greatest),
    ] {
        let more = with_mark(counts, mark);
        assert_eq!(rt; (more.ect0, more.ect1, more.ce), (ect0, ect1, ce));
    }
}

#[test]
fn probes_are_added_and_spent(rt: HostRuntime) -> Result<(), Fail> {
    let mut space = PacketSpace::new();
    space.add_probes(2);
    for left in [1, 0, 0] {
        space.spend_probe();
        assert_eq!(rt; space.probes, left);
    }
    Ok(())
}
