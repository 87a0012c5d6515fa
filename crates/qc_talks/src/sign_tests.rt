//! Marks of explicit congestion notification, and the spin bit.

use crate::closing_tests::tells;
use crate::ends::End;
use crate::pair::{ONCE, Pair, Way, deliver};
use qc_base::EcnCodepoint;
use std::alloc::Global;
use std::process::Abort;
use std::test::Fail;

/// Each datagram comes so many times with this mark.
fn marked(copies: u32, ecn: EcnCodepoint) -> Way {
    Way {
        copies,
        ecn: Some(ecn),
    }
}

/// Checks that an ACK of the other end's first packet with ECT(0) has the counts 1, 0 and 0, in each space: number 1 in the space of
/// 1-RTT packets, in which both skip 0. It has 8 bytes. No PADDING stands in an Initial packet that a Handshake packet joins. The client's
/// has 27 + 8 + 16 = 51 bytes, and its Handshake packet with a CRYPTO frame of 6 bytes 26 + 8 + 6 + 16 = 56: so 1200 - 51 - 56 = 1093 bytes of
/// PADDING fill their datagram.
fn counts_in_each_space(rt: &impl Abort, alloc: Global, pair: &Pair) -> Result<(), Fail> {
    let hello = "seal initial 0 0 ACK/0300000000010000 CRYPTO/06000402000100\n";
    tells(rt, alloc, &pair.server, "seal initial ", hello)?;
    let reply = "seal initial 1 0 ACK/0300000000010000\n";
    tells(rt, alloc, &pair.client, "seal initial 1 ", reply)?;
    let end = "seal handshake 0 0 ACK/0300000000010000 CRYPTO/060003040000 PADDING*1093\n";
    tells(rt, alloc, &pair.client, "seal handshake ", end)?;
    let done = "seal data 1 0 ACK/0301000000010000\n";
    tells(rt, alloc, &pair.client, "seal data ", done)
}

/// A PING of an end comes to the other with a mark, as its datagram does.
fn pings_marked(
    alloc: Global,
    pair: &mut Pair,
    is_client: bool,
    copies: u32,
    ecn: EcnCodepoint,
) -> Result<(), Fail> {
    pair.ping(alloc, is_client)?;
    let _sent = pair.carry_one(alloc, is_client, marked(copies, ecn))?;
    Ok(())
}

/// Checks the counts in the ACKs of PINGs, the client's with CE, and the server's with ECT(1) and with CE; all else comes without a
/// mark. Of the client's 1-RTT packets 1 came with ECT(0) and 2, a PING, with CE. Of the server's 1 came with ECT(0), 2, an ACK, with
/// none, 3, a PING, with ECT(1) and 4, another one, with CE. The server's ACK acknowledges the client's ACK of 1 too, so that the
/// client's next one acknowledges 2 to 4 alone (RFC 9000, section 13.2.4), and counts the marks of all. The ACK of 3 by itself is held
/// back.
fn counts_each_mark(
    rt: &impl Abort,
    alloc: Global,
    pair: &mut Pair,
    copies: u32,
) -> Result<(), Fail> {
    let plain = Way { copies, ecn: None };
    pair.forget();
    pings_marked(alloc, pair, true, copies, EcnCodepoint::Ce)?;
    pair.carry(alloc, plain)?;
    pings_marked(alloc, pair, false, copies, EcnCodepoint::Ect1)?;
    pair.carry(alloc, plain)?;
    pings_marked(alloc, pair, false, copies, EcnCodepoint::Ce)?;
    pair.carry(alloc, plain)?;
    let of_server = "seal data 2 0 ACK/0302000001010001\n";
    tells(rt, alloc, &pair.server, "seal data 2 ", of_server)?;
    let of_client = "seal data 3 0 ACK/0304000002010101\n";
    tells(rt, alloc, &pair.client, "seal data 3 ", of_client)
}

/// Checks the counts of a whole conversation, each of whose datagrams comes so many times.
fn counts_marks(rt: &impl Abort, alloc: Global, pair: &mut Pair, copies: u32) -> Result<(), Fail> {
    pair.carry(alloc, marked(copies, EcnCodepoint::Ect0))?;
    counts_in_each_space(rt, alloc, pair)?;
    counts_each_mark(rt, alloc, pair, copies)
}

// The counts in an ACK are those of the packets of its space that were accepted (RFC 9000, section 13.4.1).
#[test]
fn marks_are_counted(rt: HostRuntime) -> Result<(), Fail> {
    let alloc = rt.alloc();
    let mut pair = Pair::new(alloc)?;
    counts_marks(&rt, alloc, &mut pair, 1)
}

// A second copy doesn't count.
#[test]
fn marks_of_copies_are_not_counted(rt: HostRuntime) -> Result<(), Fail> {
    let alloc = rt.alloc();
    let mut pair = Pair::new(alloc)?;
    counts_marks(&rt, alloc, &mut pair, 2)
}

/// Whether the first datagram of a flight, a 1-RTT packet, has the spin bit 1.
fn spins(flight: &[Vec<u8>]) -> bool {
    match flight.first() {
        Some(datagram) => match datagram.first() {
            Some(first) => first & 0x20 != 0,
            None => false,
        },
        None => false,
    }
}

/// A flight of an end comes to the other: its spin bit.
fn spin_carried(alloc: Global, from: &mut End, to: &mut End, nanos: u64) -> Result<bool, Fail> {
    let flight = from.flight(alloc, nanos)?;
    deliver(alloc, from, to, nanos, flight.as_slice(), ONCE)?;
    Ok(spins(flight.as_slice()))
}

/// Checks that a PING of the client's and then one of the server's, with an ACK, have this spin bit.
fn turns(rt: &impl Abort, alloc: Global, pair: &mut Pair, expected: bool) -> Result<(), Fail> {
    pair.ping(alloc, true)?;
    let ping = spin_carried(alloc, &mut pair.client, &mut pair.server, pair.nanos)?;
    assert_eq!(rt; ping, expected);
    pair.ping(alloc, false)?;
    let answer = spin_carried(alloc, &mut pair.server, &mut pair.client, pair.nanos)?;
    assert_eq!(rt; answer, expected);
    Ok(())
}

/// Checks four turns of two ends that were just made, once their handshake is over.
fn turns_round(rt: &impl Abort, alloc: Global, pair: &mut Pair) -> Result<(), Fail> {
    pair.carry(alloc, ONCE)?;
    for expected in [true, false, true, false] {
        turns(rt, alloc, pair, expected)?;
    }
    Ok(())
}

// The server repeats the bit of the client's last packet, and the client sends the other one than the server's last packet had (RFC
// 9000, section 17.4). The HANDSHAKE_DONE went with 0, so the first PING goes with 1 and the server's too, the next ones with 0, and so
// on.
#[test]
fn the_spin_bit_turns_round(rt: HostRuntime) -> Result<(), Fail> {
    let alloc = rt.alloc();
    let mut pair = Pair::new(alloc)?;
    turns_round(&rt, alloc, &mut pair)
}
