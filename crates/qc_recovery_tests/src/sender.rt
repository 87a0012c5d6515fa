//! A sender: its packets in flight and its path, with NewReno. What its calls answer is told as
//! numbers.

use qc_base::{ArrayRangeSet, Duration, Instant, SpaceId};
use qc_flight::{PacketList, SentPacket, StreamMetaVec};
use qc_frame::{Ack, EcnCounts, FrameList, OwnedAck};
use qc_path::{Controller, ControllerFactory, NewReno, NewRenoConfig};
use qc_recovery::{Around, Fired, PathData, Recovery, Settled, TransportConfig, first_mtu};
use std::alloc::{AllocError, Global};
use std::default::Default;
use std::test::Fail;

/// So many milliseconds after the clock began.
pub(crate) fn at(millis: u64) -> Instant {
    Instant::from_nanos(millis.saturating_mul(1_000_000))
}

/// A path that begins with the clock.
pub(crate) fn path() -> PathData<NewReno> {
    let config = TransportConfig::default();
    let congestion = NewRenoConfig::default().build(at(0), first_mtu(&config, None));
    PathData::new(at(0), &config, congestion, true, None)
}

/// A connection after the handshake, whose peer holds an ACK back for 25 ms at most.
pub(crate) fn around() -> Around {
    Around {
        blocked: false,
        peer_validated: true,
        handshake_over: true,
        highest: SpaceId::Data,
        initial_keys: false,
        handshake_keys: false,
        max_ack_delay: Duration::from_millis(25),
        ack_delay_exponent: 3,
        app_limited: false,
    }
}

/// What the loss timer did.
#[derive(Clone, Copy, Debug, PartialEq)]
pub(crate) enum Deed {
    /// So many packets are lost, the first of them with this number.
    Lost(u64, usize),
    /// So many probes are due in a space.
    Probe(SpaceId, u8),
    /// Nothing.
    Nothing,
}

/// The number of the first packet, and how many there are.
fn lost_of(mut packets: PacketList) -> Deed {
    let count = packets.len();
    match packets.pop_front() {
        None => Deed::Lost(0, 0),
        Some(first) => Deed::Lost(first.0, count),
    }
}

fn deed_of(fired: Fired) -> Deed {
    match fired {
        Fired::Lost { packets, .. } => lost_of(packets),
        Fired::Probe { space, count } => Deed::Probe(space, count),
        Fired::Nothing => Deed::Nothing,
    }
}

/// How many packets an ACK acknowledged, and how many it showed to be lost.
fn numbers_of(settled: Settled) -> (usize, usize) {
    (settled.acked.len(), settled.lost.len())
}

fn set_of(numbers: &[u64]) -> ArrayRangeSet {
    let mut set = ArrayRangeSet::new();
    for n in numbers {
        let _ = set.insert_one(*n);
    }
    set
}

/// A packet that elicits an ACK.
fn packet(alloc: Global, time: Instant, size: u64) -> SentPacket {
    SentPacket {
        at: time,
        size,
        counted: true,
        ack_eliciting: true,
        frames: FrameList::new(alloc),
        stream_frames: StreamMetaVec::new(alloc),
        new_token: None,
    }
}

/// The number behind the last one.
fn next_after(numbers: &[u64]) -> u64 {
    let mut next = 0;
    for n in numbers {
        next = n.saturating_add(1);
    }
    next
}

/// A sender.
#[derive(Drop)]
pub(crate) struct Sender {
    /// Its packets in flight.
    pub(crate) recovery: Recovery,
    /// Its path.
    pub(crate) path: PathData<NewReno>,
}

impl Sender {
    /// Nothing was sent.
    pub(crate) fn new(alloc: Global) -> Sender {
        Sender {
            recovery: Recovery::new(alloc, &TransportConfig::default()),
            path: path(),
        }
    }

    fn sent(&mut self, space: SpaceId, number: u64, packet: SentPacket) -> Result<(), AllocError> {
        if self.recovery.is_above(space, number) {
            self.recovery.sent(space, number, packet)?;
        }
        Ok(())
    }

    /// A Data packet of so many bytes that elicits an ACK is sent.
    pub(crate) fn send_sized(
        &mut self,
        alloc: Global,
        number: u64,
        time: Instant,
        size: u64,
    ) -> Result<(), AllocError> {
        self.sent(SpaceId::Data, number, packet(alloc, time, size))
    }

    /// The same with 1200 bytes.
    pub(crate) fn send(
        &mut self,
        alloc: Global,
        number: u64,
        time: Instant,
    ) -> Result<(), AllocError> {
        self.send_sized(alloc, number, time, 1200)
    }

    fn settle(
        &mut self,
        alloc: Global,
        now: Instant,
        numbers: &[u64],
        counts: Option<(u32, u32)>,
    ) -> Result<Settled, Fail> {
        let ecn = match counts {
            None => None,
            Some(counts) => Some(EcnCounts {
                ect0: u64::from(counts.0),
                ect1: 0,
                ce: u64::from(counts.1),
            }),
        };
        let owned = OwnedAck::of_numbers(alloc, &set_of(numbers), 0, ecn)?.ok_or("no numbers")?;
        let ack = Ack {
            largest: owned.largest,
            delay: owned.delay,
            additional: owned.additional.as_slice(),
            ecn: owned.ecn,
        };
        let next = next_after(numbers);
        let settled = self.recovery.on_ack(
            alloc,
            now,
            SpaceId::Data,
            next,
            at(0),
            &ack,
            &around(),
            &mut self.path,
        )?;
        Ok(settled)
    }

    /// An ACK of these numbers in the Data space, the last of them the greatest that was sent, with
    /// counts of ECT(0) and CE if any.
    pub(crate) fn acknowledge(
        &mut self,
        alloc: Global,
        now: Instant,
        numbers: &[u64],
        counts: Option<(u32, u32)>,
    ) -> Result<(usize, usize), Fail> {
        let settled = self.settle(alloc, now, numbers, counts)?;
        Ok(numbers_of(settled))
    }

    /// The congestion window in bytes.
    pub(crate) fn window(&self) -> u64 {
        self.path.congestion.window()
    }

    /// The time of the loss timer.
    pub(crate) fn arm(&self, now: Instant, around: &Around) -> Option<Instant> {
        self.recovery.arm(now, around, &self.path)
    }

    /// The loss timer fires.
    pub(crate) fn fire(&mut self, now: Instant, around: &Around) -> Result<Deed, AllocError> {
        let fired = self.recovery.on_timeout(now, around, &mut self.path)?;
        Ok(deed_of(fired))
    }
}
