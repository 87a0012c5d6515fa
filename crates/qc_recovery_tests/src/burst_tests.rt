//! Bursts of lost packets, and the datagram size that they leave. What is expected was worked by hand:
//! a burst is a run of consecutive numbers, and the fourth whose packets are all larger than 1200 bytes
//! leaves 1200.

use crate::sender::{Sender, at};
use std::alloc::Global;
use std::test::Fail;

// A sender whose first packet probed for 1326 bytes, with success.
fn sender_of_1326(alloc: Global) -> Result<Sender, Fail> {
    let mut sender = Sender::new(alloc);
    if sender.path.mtud.probe_due(at(0)) != Some(1326) {
        return Err(Fail::from("a probe of 1326 bytes is due"));
    }
    sender.path.mtud.probe_sent(at(0), 0);
    sender.send_sized(alloc, 0, at(0), 1326)?;
    sender.acknowledge(alloc, at(10), &[0], None)?;
    Ok(sender)
}

// The size of datagrams after an ACK of some of the packets 1 to 13, of which some had 1300 bytes and the
// others 1200; with a probe among them, if any.
fn size_after(
    alloc: Global,
    large: &[u64],
    acked: &[u64],
    probe: Option<u64>,
) -> Result<u16, Fail> {
    let mut sender = sender_of_1326(alloc)?;
    if let Some(number) = probe {
        sender.path.mtud.probe_sent(at(50), number);
    }
    for number in 1..14 {
        let size = if large.contains(&number) { 1300 } else { 1200 };
        sender.send_sized(alloc, number, at(50), size)?;
    }
    sender.acknowledge(alloc, at(60), acked, None)?;
    Ok(sender.path.mtud.current_mtu())
}

// The ACK of 11 shows all numbers up to 8 to be lost that it doesn't name. Four bursts; three, of which
// one has two packets; four, of which one has a small packet; the first again with a probe for a packet.
#[test]
fn four_runs_of_large_packets_are_a_black_hole(rt: HostRuntime) -> Result<(), Fail> {
    assert_eq!(rt;
        size_after(rt.alloc(), &[1, 3, 5, 7], &[2, 4, 6, 8, 11], None)?,
        1200
    );
    assert_eq!(rt;
        size_after(rt.alloc(), &[1, 2, 4, 6], &[3, 5, 7, 8, 11], None)?,
        1326
    );
    assert_eq!(rt;
        size_after(rt.alloc(), &[1, 3, 5], &[2, 4, 6, 8, 11], None)?,
        1326
    );
    assert_eq!(rt;
        size_after(rt.alloc(), &[1, 3, 5, 7], &[2, 4, 6, 8, 11], Some(7))?,
        1326
    );
    Ok(())
}

// The ACK of 13 shows 1, 3, 5, 7 and 9 to be lost: four large packets, and a small one between them.
#[test]
fn a_burst_with_a_small_packet_breaks_no_row(rt: HostRuntime) -> Result<(), Fail> {
    let large = [1, 3, 7, 9];
    assert_eq!(rt;
        size_after(rt.alloc(), &large, &[2, 4, 6, 8, 10, 13], None)?,
        1200
    );
    Ok(())
}
