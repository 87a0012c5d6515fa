//! Packets of one space that leave its flight. What is expected was worked by hand from RFC 9002,
//! sections 2, 6.1 and appendix A.1.

ghost use Rattle.std.specs.Prelude.{◌<◌, length};
ghost use Rattle.qc_base.specs.RangeSet.{Normal};
ghost use Rattle.qc_flight.specs.Packets.{PassesUpTo, is_acked};

use qc_base::{ArrayRangeSet, Duration, Instant, NumberRange};
use qc_flight::{Flight, PacketList, SentPacket, StreamMetaVec};
use qc_frame::FrameList;
use std::alloc::{AllocError, Global};
use std::test::Fail;

fn at(millis: u64) -> Instant {
    Instant::from_nanos(millis.saturating_mul(1_000_000))
}

// A packet of 100 bytes and 10 for each number below its own, sent as many milliseconds after 0 as its
// number says. The third one doesn't count as in flight, and the fourth one asks for no ACK.
fn packet(alloc: Global, number: u64) -> SentPacket {
    SentPacket {
        at: at(number),
        size: number.saturating_mul(10).saturating_add(100),
        counted: number != 3,
        ack_eliciting: number != 4,
        frames: FrameList::new(alloc),
        stream_frames: StreamMetaVec::new(alloc),
        new_token: None,
    }
}

fn send(flight: &mut Flight, number: u64, packet: SentPacket) -> Result<(), AllocError> {
    if flight.is_above(number) {
        flight.sent(number, packet)?;
    }
    Ok(())
}

fn ten_packets(alloc: Global) -> Result<Flight, AllocError> {
    let mut flight = Flight::new(alloc);
    for number in 0..10 {
        send(&mut flight, number, packet(alloc, number))?;
    }
    Ok(flight)
}

// Whether packets have these numbers.
fn are(list: PacketList, numbers: &[u64]) -> bool {
    for (place, number) in numbers.iter().enumerate() {
        if list.len() <= place {
            return false;
        }
        if list.entry(place).0 != *number {
            return false;
        }
    }
    list.len() == numbers.len()
}

#[test]
fn nothing_is_in_flight_at_first(rt: HostRuntime) -> Result<(), Fail> {
    let mut flight = Flight::new(rt.alloc());
    assert_eq!(rt; flight.bytes(), 0);
    assert_eq!(rt; flight.eliciting(), 0);
    assert_eq!(rt; flight.counted(), 0);
    assert!(rt; flight.oldest().is_none());
    assert!(rt; flight.is_above(0));
    assert!(rt; flight.earliest_below(u64::MAX).is_none());
    assert!(rt; flight.discard().is_empty());
    Ok(())
}

#[test]
fn what_is_in_flight_is_counted(rt: HostRuntime) -> Result<(), Fail> {
    let mut flight = ten_packets(rt.alloc())?;
    assert_eq!(rt; flight.bytes(), 1320);
    assert_eq!(rt; flight.eliciting(), 9);
    assert_eq!(rt; flight.counted(), 9);
    assert_eq!(rt; flight.oldest().map(|packet| packet.size), Some(100));
    assert!(rt; !flight.is_above(9));
    assert!(rt; flight.is_above(10));
    assert_eq!(rt; flight.earliest_below(1), Some(at(0)));
    assert_eq!(rt; flight.discard().len(), 10);
    assert_eq!(rt; flight.bytes(), 0);
    assert!(rt; flight.oldest().is_none());
    Ok(())
}

fn set_of(numbers: &[u64]) -> ArrayRangeSet {
    let mut set = ArrayRangeSet::new();
    for number in numbers {
        let _ = set.insert_one(*number);
    }
    set
}

// The greatest number of ranges from low to high.
#[tactic(auto, using(qc_flight::proofs::Ranges::none_above_last))]
fn greatest(ranges: &[NumberRange]) -> u64
    requires normal { Normal ranges.now }
    requires some { 0 < length ranges.now }
    ensures { PassesUpTo result (is_acked ranges.now) }
{
    let range = ranges[ranges.len() - 1];
    range.last
}

// Takes out the packets that an ACK of these numbers names.
fn acknowledge(
    flight: &mut Flight,
    numbers: &ArrayRangeSet,
) -> Result<Option<PacketList>, AllocError> {
    let ranges = numbers.as_slice();
    if ranges.is_empty() {
        return Ok(None);
    }
    let largest = greatest(ranges);
    let room = flight.room(largest)?;
    Ok(Some(flight.acknowledge(largest, ranges, room)))
}

// Whether an ACK of some numbers takes packets with these ones.
fn takes(flight: &mut Flight, acked: &[u64], numbers: &[u64]) -> Result<bool, AllocError> {
    match acknowledge(flight, &set_of(acked))? {
        None => Ok(false),
        Some(list) => Ok(are(list, numbers)),
    }
}

#[test]
fn an_ack_takes_the_numbers_of_its_ranges(rt: HostRuntime) -> Result<(), Fail> {
    let mut flight = ten_packets(rt.alloc())?;
    assert!(rt; takes(&mut flight, &[1, 2, 5, 8, 9, 12], &[1, 2, 5, 8, 9])?);
    assert_eq!(rt; flight.bytes(), 570);
    assert_eq!(rt; flight.eliciting(), 4);
    assert_eq!(rt; flight.counted(), 4);
    assert!(rt; takes(&mut flight, &[1, 2, 5, 8, 9, 12], &[])?);
    assert!(rt; are(flight.discard(), &[0, 3, 4, 6, 7]));
    Ok(())
}

// The number and the size of the first packet, and how many come after it.
fn first_of(mut list: PacketList) -> Option<(u64, u64, usize)> {
    match list.pop_front() {
        None => None,
        Some(entry) => Some((entry.0, entry.1.size, list.len())),
    }
}

fn first_taken(
    flight: &mut Flight,
    acked: &[u64],
) -> Result<Option<(u64, u64, usize)>, AllocError> {
    match acknowledge(flight, &set_of(acked))? {
        None => Ok(None),
        Some(list) => Ok(first_of(list)),
    }
}

#[test]
fn packets_are_handed_out_from_the_front(rt: HostRuntime) -> Result<(), Fail> {
    let mut flight = ten_packets(rt.alloc())?;
    assert_eq!(rt;
        first_taken(&mut flight, &[1, 2, 5, 8, 9, 12])?,
        Some((1, 110, 4))
    );
    Ok(())
}

fn lose(
    flight: &mut Flight,
    largest: u64,
    now: Instant,
    delay: Duration,
) -> Result<PacketList, AllocError> {
    let room = flight.room(largest)?;
    Ok(flight.take_lost(largest, 3, now, delay, room))
}

// Whether packets with these numbers are lost.
fn loses(
    flight: &mut Flight,
    largest: u64,
    now: u64,
    delay: u64,
    numbers: &[u64],
) -> Result<bool, AllocError> {
    let lost = lose(flight, largest, at(now), Duration::from_millis(delay))?;
    Ok(are(lost, numbers))
}

// The greatest number acknowledged, the time, after how long a packet is lost, and the numbers lost and
// left: three numbers below the greatest, or sent so long ago.
#[test]
fn packets_are_lost_by_number_and_by_age(rt: HostRuntime) -> Result<(), Fail> {
    let mut flight = ten_packets(rt.alloc())?;
    assert!(rt; loses(&mut flight, 2, 9, 10, &[])?);
    assert!(rt; loses(&mut flight, 4, 9, 10, &[0, 1])?);
    assert!(rt; loses(&mut flight, 4, 12, 10, &[2])?);
    assert_eq!(rt; flight.earliest_below(5), Some(at(3)));
    assert!(rt; loses(&mut flight, 9, 19, 12, &[3, 4, 5, 6, 7])?);
    assert_eq!(rt; flight.bytes(), 370);
    assert!(rt; are(flight.discard(), &[8, 9]));
    Ok(())
}

// A packet of the greatest size, sent as the clock ends.
fn last_packet(alloc: Global) -> SentPacket {
    SentPacket {
        at: Instant::from_nanos(u64::MAX),
        size: u64::MAX,
        counted: true,
        ack_eliciting: true,
        frames: FrameList::new(alloc),
        stream_frames: StreamMetaVec::new(alloc),
        new_token: None,
    }
}

// How many packets are lost at a time, for their age, where that packet is in flight.
fn lost_at(alloc: Global, now: u64, delay: u64) -> Result<usize, AllocError> {
    let mut flight = Flight::new(alloc);
    send(&mut flight, u64::MAX - 1, last_packet(alloc))?;
    let now = Instant::from_nanos(now);
    Ok(lose(&mut flight, u64::MAX, now, Duration::from_nanos(delay))?.len())
}

// A clock that stands at its end, or went back, makes no packet older than it is.
#[test]
fn ages_stop_at_nothing(rt: HostRuntime) -> Result<(), Fail> {
    let rows = [(0, 1, 0), (0, 0, 1), (u64::MAX, 1, 0), (u64::MAX, 0, 1)];
    for (now, delay, lost) in rows {
        assert_eq!(rt; lost_at(rt.alloc(), now, delay)?, lost);
    }
    Ok(())
}
