//! The frames that wait to be sealed.

ghost use Rattle.std.specs.Prelude.{◌≡◌, ◌-◌, ◌≤◌, ◌==◌, not, true, false, length, map, OnOk, IfOk};
ghost use Rattle.std.specs.List.{list_any};
ghost use Rattle.qc_base.specs.Time.{plus};
ghost use Rattle.qc_frame.specs.Frame.{owned};
ghost use Rattle.qc_frame.specs.FrameSpelling.{frames_spelling};
ghost use Rattle.qc_state.specs.Acks.{AckPart, IsLongAck, IsShortAck, is_ack, is_ack_owed, may_acknowledge};
ghost use Rattle.qc_base.specs.declared.side.SpaceId.TheVariants.{«Data»};
ghost use Rattle.qc_path.specs.Acks.{sets_delay};
ghost use Rattle.qc_state.specs.Spaces.{is_space, space_of, with_space};
ghost use Rattle.qc_state.specs.Datagrams.{AllOldest};
ghost use Rattle.qc_state.specs.Ids.{AllNext};
ghost use Rattle.qc_state.specs.Lower.{frames_sealed};
ghost use Rattle.qc_state.specs.Offers.{offers_here};
ghost use Rattle.qc_state.specs.StreamFrames.{sealed_steps};
ghost use Rattle.qc_state.specs.Taking.{TakenPart};
ghost use Rattle.qc_state.specs.Tokens.{AllIssued, behind_tokens, made_by, token_with};
ghost use Rattle.qc_state.specs.Waiting.{ack_released, bundle_next, bytes_again, came_in, close_begun, counts_begun, crypto_written, done_asked, fired_in, frames_again, hello_again, holds_back, mark_counted, marks_begun, nothing_left, packet_came, packet_told, packets_acked, packets_lost, ping_asked, probe_spent, probes_added, space_left, tokens_asked, waiting_without, wants_here};
ghost use Rattle.qc_streams.specs.Steps.{AllMay};

use crate::crypto_queue::CryptoQueue;
use crate::lower::Lower;
use crate::settling::{acknowledge, all_again, lose};
use crate::spaces::Spaces;
use crate::taking::{ack_alone, ack_fits, is_ack_owed, take};
use crate::tokens::Issuer;
use crate::transmit::SPARE_ROOM;
use bytes::Bytes;
use qc_base::{EcnCodepoint, Instant, SpaceId};
use qc_crypto::HandshakeTokenKey;
use qc_flight::PacketList;
use qc_frame::{EcnCounts, FrameList, FrameOf, OwnedFrame};
use qc_path::{Arrival, Dedup, PendingAcks};
use qc_recovery::{Fired, Settled};
use qc_space::with_mark;
use qc_token::TimeSource;
use rand_core::Rng;
use std::alloc::{AllocError, Global};
use std::net::IpAddr;

/// The greatest size of a CRYPTO frame's type, offset and length together, in bytes.
pub const CRYPTO_HEAD: usize = 17;

/// What waits to be sealed in one space.
#[derive(Drop)]
pub struct SpaceWaiting {
    /// Whether a HANDSHAKE_DONE waits (RFC 9000, 19.20).
    pub done: bool,
    /// Whether a PING waits (RFC 9000, 19.2).
    pub ping: bool,
    /// The bytes that the session wrote, and which of them wait (RFC 9000, 19.6).
    pub crypto: CryptoQueue,
    /// How many NEW_TOKENs wait: tokens for the path's address, which are made as they are taken (RFC 9000, 19.7).
    pub tokens: u64,
    /// The numbers of packets that came and are to be acknowledged, and whether an ACK is owed (RFC 9000, 13.2).
    pub acks: PendingAcks,
    /// How many packets of the space were accepted with each mark of ECN; none before one of the connection was accepted with a
    /// mark (RFC 9000, 13.4.1).
    pub marks: Option<EcnCounts>,
    /// How many probes are due (RFC 9002, 6.2.4).
    pub probes: u64,
}

/// What waits to be sealed.
#[derive(Drop)]
pub struct Waiting {
    /// One record a space.
    pub spaces: Spaces<SpaceWaiting>,
    /// Whether a close is owed: the connection closed, and no packet of the last space has told so (RFC 9000, 10.2).
    pub close_owed: bool,
    /// From when on an ACK may be bundled with other frames, in each space; at no time where there is none.
    pub bundled: Option<Instant>,
}

/// Whether a frame waits here that elicits an acknowledgement, NEW_TOKENs aside.
fn wants_here(space: &SpaceWaiting) -> bool
    ensures { result ≡ wants_here space.now }
{
    space.done || (space.ping || space.crypto.waits())
}

/// A probe is spent.
fn spend(space: &mut SpaceWaiting)
    ensures { space.new ≡ record space.old { probes = space.old.probes - 1 } }
{
    space.probes = space.probes.saturating_sub(1);
}

/// Probes are due.
fn add_probes(space: &mut SpaceWaiting, count: u64)
    ensures { space.new ≡ record space.old { probes = plus space.old.probes count } }
{
    space.probes = space.probes.saturating_add(count);
}

/// The counts of a space, which begin with the first mark that comes on the connection.
fn begin_counts(mark: Option<EcnCodepoint>, counts: Option<EcnCounts>) -> Option<EcnCounts>
    ensures { result ≡ counts_begun mark counts }
{
    match (mark, counts) {
        (None, counts) => counts,
        (Some(_), None) => Some(EcnCounts {
            ect0: 0,
            ect1: 0,
            ce: 0,
        }),
        (Some(_), Some(counts)) => Some(counts),
    }
}

/// The counts of a space behind a packet with this mark.
fn count_mark(mark: Option<EcnCodepoint>, counts: Option<EcnCounts>) -> Option<EcnCounts>
    ensures { result ≡ mark_counted mark counts }
{
    match begin_counts(mark, counts) {
        None => None,
        Some(counts) => Some(with_mark(counts, mark)),
    }
}

/// A packet came and was accepted. Answers whether its ACK is held back from now on.
#[inline(always)]
#[tactic(auto, unfolding(crate::specs::Waiting::came_in))]
fn came(
    space: &mut SpaceWaiting,
    in_data: bool,
    seen: &Dedup,
    packet: &Arrival,
    mark: Option<EcnCodepoint>,
) -> bool
    ensures after { space.new ≡ came_in in_data seen.now packet.now mark space.old }
    ensures holds { result ≡ sets_delay in_data seen.now packet.now space.old.acks.marks }
{
    let holds = space.acks.received(in_data, seen, packet);
    space.marks = count_mark(mark, space.marks);
    holds
}

/// Whether a frame is an ACK.
fn is_ack(frame: &OwnedFrame) -> bool
    ensures { result ≡ is_ack (owned frame.now) }
{
    matches!(frame, FrameOf::Ack(_))
}

/// Whether one of these frames is an ACK.
fn any_ack(frames: &[OwnedFrame]) -> bool
    ensures { result ≡ list_any is_ack (map owned frames.now) }
{
    for frame in frames {
        if is_ack(frame) {
            return true;
        }
    }
    false
}

/// Whether one of the frames is an ACK.
#[tactic(auto, using(crate::proofs::KeptFrames::acks_padded))]
pub fn holds_ack(frames: &FrameList) -> bool
    ensures { result ≡ list_any is_ack frames.now }
{
    let (listed, _padding) = frames.parts();
    any_ack(listed)
}

/// Nothing waits any more.
#[tactic(auto, unfolding(crate::specs::Waiting::nothing_left))]
fn leave(space: &mut SpaceWaiting)
    ensures { space.new ≡ nothing_left space.old }
{
    space.done = false;
    space.ping = false;
    space.crypto.discard();
    space.tokens = 0;
    space.probes = 0;
}

/// All CRYPTO bytes wait again, and nothing else that elicits an acknowledgement. Want of memory is the only refusal.
#[tactic(auto, unfolding(crate::specs::Waiting::bytes_again))]
fn lose_all(space: &mut SpaceWaiting) -> Result<(), AllocError>
    ensures { OnOk result (space.new ≡ bytes_again space.old) }
{
    space.ping = false;
    space.probes = 0;
    space.crypto.lose_all()
}

#[tactic(auto, unfolding(crate::specs::Waiting::packets_lost, crate::specs::Waiting::packets_acked, crate::specs::Waiting::probes_added, crate::specs::Waiting::probe_spent, crate::specs::Waiting::frames_again, crate::specs::Waiting::packet_came, crate::specs::Waiting::holds_back, crate::specs::Waiting::ack_released, crate::specs::Waiting::bundle_next, crate::specs::Waiting::crypto_written, crate::specs::Waiting::space_left, crate::specs::Waiting::close_begun, crate::specs::Waiting::packet_told, crate::specs::Waiting::ping_asked, crate::specs::Waiting::done_asked, crate::specs::Waiting::waiting_without, crate::specs::Waiting::hello_again))]
impl Waiting {
    /// Whether a frame waits here in the space that elicits an acknowledgement, NEW_TOKENs aside.
    pub fn wants(&self, space: SpaceId) -> bool
        ensures { result ≡ wants_here (space_of self.now.spaces space) }
    {
        wants_here(self.spaces.get(space))
    }

    /// Whether an ACK is owed in the space.
    pub fn owes_ack(&self, space: SpaceId) -> bool
        ensures { result ≡ is_ack_owed (space_of self.now.spaces space).acks }
    {
        is_ack_owed(&self.spaces.get(space).acks)
    }

    /// Whether a probe is due in the space.
    pub fn owes_probe(&self, space: SpaceId) -> bool
        ensures { result ≡ not ((space_of self.now.spaces space).probes == 0) }
    {
        self.spaces.get(space).probes != 0
    }

    /// Packets of the space were lost: their frames wait again. Want of memory is the only refusal.
    fn lose(&mut self, space: SpaceId, lost: &mut PacketList) -> Result<(), AllocError>
        ensures { OnOk result (self.new ≡ packets_lost self.old space lost.old) }
    {
        match space {
            SpaceId::Initial => lose(&mut self.spaces.initial, lost),
            SpaceId::Handshake => lose(&mut self.spaces.handshake, lost),
            SpaceId::Data => lose(&mut self.spaces.application, lost),
        }
    }

    /// Packets of the space were acknowledged.
    fn acknowledge(&mut self, space: SpaceId, acked: &mut PacketList)
        ensures { self.new ≡ packets_acked self.old space acked.old }
    {
        match space {
            SpaceId::Initial => acknowledge(&mut self.spaces.initial, acked),
            SpaceId::Handshake => acknowledge(&mut self.spaces.handshake, acked),
            SpaceId::Data => acknowledge(&mut self.spaces.application, acked),
        }
    }

    /// An ACK of the space acknowledged packets, and others are lost by it. Want of memory is the only refusal.
    pub fn settle(&mut self, space: SpaceId, settled: Settled) -> Result<(), AllocError>
        ensures { OnOk result (self.new ≡ packets_lost (packets_acked self.old space settled.acked) space settled.lost) }
    {
        let mut settled = settled;
        self.acknowledge(space, &mut settled.acked);
        self.lose(space, &mut settled.lost)
    }

    /// Probes are due in the space.
    fn add_probes(&mut self, space: SpaceId, count: u64)
        ensures { self.new ≡ probes_added self.old space count }
    {
        match space {
            SpaceId::Initial => add_probes(&mut self.spaces.initial, count),
            SpaceId::Handshake => add_probes(&mut self.spaces.handshake, count),
            SpaceId::Data => add_probes(&mut self.spaces.application, count),
        }
    }

    /// The loss timer fired. Want of memory is the only refusal.
    pub fn fire(&mut self, fired: Fired) -> Result<(), AllocError>
        ensures { OnOk result (self.new ≡ fired_in self.old fired) }
    {
        match fired {
            Fired::Lost { space, mut packets } => self.lose(space, &mut packets),
            Fired::Probe { space, count } => {
                self.add_probes(space, u64::from(count));
                Ok(())
            }
            Fired::Nothing => Ok(()),
        }
    }

    /// A probe that is due in the space is spent.
    pub fn spend(&mut self, space: SpaceId)
        ensures { self.new ≡ probe_spent self.old space }
    {
        match space {
            SpaceId::Initial => spend(&mut self.spaces.initial),
            SpaceId::Handshake => spend(&mut self.spaces.handshake),
            SpaceId::Data => spend(&mut self.spaces.application),
        }
    }

    /// These frames of a packet wait again in its space. Want of memory is the only refusal.
    pub fn again(&mut self, space: SpaceId, frames: &FrameList) -> Result<(), AllocError>
        ensures { OnOk result (self.new ≡ frames_again self.old space frames.now) }
    {
        match space {
            SpaceId::Initial => all_again(&mut self.spaces.initial, frames),
            SpaceId::Handshake => all_again(&mut self.spaces.handshake, frames),
            SpaceId::Data => all_again(&mut self.spaces.application, frames),
        }
    }

    /// A close is owed from now on.
    pub fn owe_close(&mut self)
        ensures { self.new ≡ close_begun self.old }
    {
        self.close_owed = true;
    }

    /// A packet was sealed: in the last of the spaces, a close is owed no longer.
    pub fn tell(&mut self, last: bool)
        ensures { self.new ≡ packet_told self.old last }
    {
        if last {
            self.close_owed = false;
        }
    }

    /// A packet of the space came, which that space takes in. Answers whether its ACK is held back from now on.
    fn take_in(
        &mut self,
        space: SpaceId,
        seen: &Dedup,
        packet: &Arrival,
        mark: Option<EcnCodepoint>,
    ) -> bool
        ensures after { self.new ≡ record self.old { spaces = with_space self.old.spaces space (came_in (is_space space Data) seen.now packet.now mark (space_of self.old.spaces space)) } }
        ensures holds { result ≡ holds_back self.old space seen.now packet.now }
    {
        match space {
            SpaceId::Initial => came(&mut self.spaces.initial, false, seen, packet, mark),
            SpaceId::Handshake => came(&mut self.spaces.handshake, false, seen, packet, mark),
            SpaceId::Data => came(&mut self.spaces.application, true, seen, packet, mark),
        }
    }

    /// With the first mark of the connection the counts of every space begin.
    fn begin_marks(&mut self, mark: Option<EcnCodepoint>)
        ensures { self.new ≡ record self.old { spaces = marks_begun mark self.old.spaces } }
    {
        self.spaces.initial.marks = begin_counts(mark, self.spaces.initial.marks);
        self.spaces.handshake.marks = begin_counts(mark, self.spaces.handshake.marks);
        self.spaces.application.marks = begin_counts(mark, self.spaces.application.marks);
    }

    /// A packet of the space came with this mark and was accepted, whose number `seen` has already. Answers whether its ACK is held
    /// back from now on; then an ACK may be bundled with other frames at once. The mark counts in this space, and with the first
    /// one the ACKs of every space have counts from then on.
    pub fn came(
        &mut self,
        space: SpaceId,
        seen: &Dedup,
        packet: &Arrival,
        mark: Option<EcnCodepoint>,
    ) -> bool
        ensures after { self.new ≡ packet_came self.old space seen.now packet.now mark }
        ensures holds { result ≡ holds_back self.old space seen.now packet.now }
    {
        let holds = self.take_in(space, seen, packet, mark);
        self.begin_marks(mark);
        if holds {
            self.bundled = Some(packet.at);
        }
        holds
    }

    /// The ACK of 1-RTT packets that was held back is owed at last, where there is something to acknowledge.
    pub fn release(&mut self)
        ensures { self.new ≡ ack_released self.old }
    {
        self.spaces.application.acks.expired();
    }

    /// A packet with these frames was sealed: with an ACK among them, another one may be bundled with other frames from `next` on.
    pub fn bundle_next(&mut self, frames: &FrameList, next: Instant)
        ensures { self.new ≡ bundle_next self.old frames.now next }
    {
        if holds_ack(frames) {
            self.bundled = Some(next);
        }
    }

    /// The session wrote bytes for the space's CRYPTO stream. Want of memory is the only refusal.
    pub fn write(&mut self, space: SpaceId, bytes: Bytes) -> Result<(), AllocError>
        ensures { OnOk result (self.new ≡ crypto_written self.old space bytes) }
    {
        match space {
            SpaceId::Initial => self.spaces.initial.crypto.write(bytes),
            SpaceId::Handshake => self.spaces.handshake.crypto.write(bytes),
            SpaceId::Data => self.spaces.application.crypto.write(bytes),
        }
    }

    /// The keys of the space were dropped: nothing waits in it any more.
    pub fn forget(&mut self, space: SpaceId)
        ensures { self.new ≡ space_left self.old space }
    {
        match space {
            SpaceId::Initial => leave(&mut self.spaces.initial),
            SpaceId::Handshake => leave(&mut self.spaces.handshake),
            SpaceId::Data => leave(&mut self.spaces.application),
        }
    }

    /// A client's hello waits again in the Initial space, from its first byte on, and nothing else does there that elicits an acknowledgement.
    /// Want of memory is the only refusal.
    pub fn renew(&mut self) -> Result<(), AllocError>
        ensures { OnOk result (self.new ≡ hello_again self.old) }
    {
        lose_all(&mut self.spaces.initial)
    }

    /// A PING waits from now on in the space.
    pub fn ask_ping(&mut self, space: SpaceId)
        ensures { self.new ≡ ping_asked self.old space }
    {
        match space {
            SpaceId::Initial => self.spaces.initial.ping = true,
            SpaceId::Handshake => self.spaces.handshake.ping = true,
            SpaceId::Data => self.spaces.application.ping = true,
        }
    }

    /// A HANDSHAKE_DONE waits from now on.
    pub fn ask_done(&mut self)
        ensures { self.new ≡ done_asked self.old }
    {
        self.spaces.application.done = true;
    }

    /// So many NEW_TOKENs wait from now on in place of those that wait, where a number is given.
    pub fn ask_tokens(&mut self, count: Option<u64>)
        ensures { self.new ≡ tokens_asked count self.old }
    {
        match count {
            None => {}
            Some(count) => self.spaces.application.tokens = count,
        }
    }

    /// Takes frames that wait in the space at a time, for a packet with so much room for them; those that the layers below offer go in
    /// the space of 1-RTT packets, and so do NEW_TOKENs, for which tokens for this address are made. Want of memory is the only refusal.
    pub fn take<S, K: HandshakeTokenKey, T: TimeSource, R: Rng>(
        &mut self,
        lower: &mut Lower<S>,
        issuer: &Option<Issuer<K, T>>,
        ip: IpAddr,
        random: &mut R,
        alloc: Global,
        now: Instant,
        space: SpaceId,
        room: usize,
    ) -> Result<FrameList, AllocError>
        ensures frames { IfOk result (λ frames. TakenPart now self.old.bundled (is_space space «Data») (space_of self.old.spaces space) room frames) }
        ensures rest { IfOk result (λ frames. self.new ≡ waiting_without self.old space frames) }
        ensures may { IfOk result (λ frames. AllMay (sealed_steps frames) lower.old.streams) }
        ensures oldest { IfOk result (λ frames. AllOldest frames lower.old.datagrams) }
        ensures next { IfOk result (λ frames. AllNext frames lower.old.ids) }
        ensures issued { IfOk result (λ frames. AllIssued (made_by (token_with K.Aead.sealed K.derived T.time_of) issuer.now) ip frames (space_of self.old.spaces space) (R.stream random.old)) }
        ensures drawn { IfOk result (λ frames. R.stream random.new ≡ behind_tokens frames (R.stream random.old)) }
        ensures leads { IfOk result (λ frames. lower.new ≡ frames_sealed frames lower.old) }
        ensures full { IfOk result (λ frames. SPARE_ROOM ≤ room - length (frames_spelling frames) → offers_here (is_space space «Data») (space_of self.new.spaces space) lower.new.streams lower.new.ids ≡ false) }
    {
        let bundled = self.bundled;
        let spaces = &mut self.spaces;
        match space {
            SpaceId::Initial => take(
                &mut spaces.initial,
                lower,
                issuer,
                ip,
                random,
                alloc,
                now,
                bundled,
                false,
                room,
            ),
            SpaceId::Handshake => take(
                &mut spaces.handshake,
                lower,
                issuer,
                ip,
                random,
                alloc,
                now,
                bundled,
                false,
                room,
            ),
            SpaceId::Data => take(
                &mut spaces.application,
                lower,
                issuer,
                ip,
                random,
                alloc,
                now,
                bundled,
                true,
                room,
            ),
        }
    }

    /// Whether the ACK of the space at a time has so much room; true where there is none. Want of memory is the only refusal.
    pub fn ack_fits(
        &self,
        alloc: Global,
        now: Instant,
        space: SpaceId,
        room: usize,
    ) -> Result<bool, AllocError>
        ensures long { IfOk result (λ fits. fits ≡ false → IsLongAck now (space_of self.now.spaces space) room) }
        ensures short { IfOk result (λ fits. fits ≡ true → may_acknowledge (space_of self.now.spaces space).acks ≡ true → IsShortAck now (space_of self.now.spaces space) room) }
    {
        ack_fits(self.spaces.get(space), alloc, now, room)
    }

    /// Takes the ACK of the space at a time, where there is something to acknowledge and so much room for it. Want of memory is the
    /// only refusal.
    pub fn take_ack(
        &mut self,
        alloc: Global,
        now: Instant,
        space: SpaceId,
        room: usize,
    ) -> Result<FrameList, AllocError>
        ensures frames { IfOk result (λ frames. AckPart now (space_of self.old.spaces space) room frames (may_acknowledge (space_of self.old.spaces space).acks)) }
        ensures rest { IfOk result (λ frames. self.new ≡ waiting_without self.old space frames) }
    {
        match space {
            SpaceId::Initial => ack_alone(&mut self.spaces.initial, alloc, now, room),
            SpaceId::Handshake => ack_alone(&mut self.spaces.handshake, alloc, now, room),
            SpaceId::Data => ack_alone(&mut self.spaces.application, alloc, now, room),
        }
    }
}
