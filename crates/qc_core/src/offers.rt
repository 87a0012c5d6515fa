//! What waits to be sealed in a space, over all layers, and what a packet that is begun makes wait.

ghost use Rattle.std.specs.Prelude.{◌≡◌, ◌&&◌, ◌||◌, ◌≤◌, not, OnOk};
ghost use Rattle.qc_base.specs.PacketNumber.{number_len, number_of};
ghost use Rattle.qc_state.specs.Acks.{is_ack_owed};
ghost use Rattle.qc_state.specs.Ids.{ids_want};
ghost use Rattle.qc_state.specs.Keys.{form_in};
ghost use Rattle.qc_state.specs.Moves.{Begin, state_move};
ghost use Rattle.qc_state.specs.Offers.{datagram_fits, datagram_waits, oldest_in, packet_again, packet_begun, path_size, probe_begun, probe_sent, short_room, streams_filed, streams_want, tokens_want, waits_in, wants_sending, with_ping};
ghost use Rattle.qc_state.specs.Sending.{wants_in};
ghost use Rattle.qc_state.specs.Setup.{ideal_setup, packet_drawn};
ghost use Rattle.qc_state.specs.Spaces.{space_of};
ghost use Rattle.qc_state.specs.View.{ideal};

use crate::state::Core;
use qc_base::SpaceId;
use qc_cids::ConnectionIds;
use qc_state::datagrams::first_fits;
use qc_state::id_settling::frames_lost;
use qc_state::stream_settling::{file, packet_lost};
use qc_state::{Suite, Waiting};
use qc_streams::StreamsState;
use std::alloc::AllocError;

/// Whether a frame about connection ids waits in the space: they go in packets of 1-RTT alone.
#[tactic(auto, unfolding(qc_state::specs::Ids::ids_want))]
fn ids_want(ids: &ConnectionIds, space: SpaceId) -> bool
    ensures { result ≡ ids_want space ids.now }
{
    match space {
        SpaceId::Initial | SpaceId::Handshake => false,
        SpaceId::Data => ids.next_told().is_some() || ids.next_retired().is_some(),
    }
}

/// Whether the streams want to send in the space: their frames go in packets of 1-RTT alone.
fn streams_want(streams: &StreamsState, space: SpaceId) -> bool
    ensures { result ≡ streams_want space streams.now }
{
    match space {
        SpaceId::Initial | SpaceId::Handshake => false,
        SpaceId::Data => streams.has_waiting() || streams.has_control(),
    }
}

/// Whether a NEW_TOKEN waits in the space: they go in packets of 1-RTT alone.
fn tokens_want(waiting: &Waiting, space: SpaceId) -> bool
    ensures { result ≡ tokens_want space (space_of waiting.now.spaces space) }
{
    match space {
        SpaceId::Initial | SpaceId::Handshake => false,
        SpaceId::Data => waiting.spaces.application.tokens != 0,
    }
}

/// The size of a packet's tag, in bytes (RFC 9001, 5.3).
const TAG: usize = 16;

/// How many bytes a packet number has, where the peer acknowledged `acked` (RFC 9000, 17.1).
#[tactic(auto, using(crate::proofs::NumberLengths::one_byte, crate::proofs::NumberLengths::two_bytes, crate::proofs::NumberLengths::three_bytes, crate::proofs::NumberLengths::four_bytes))]
fn number_len(number: u64, acked: u64) -> usize
    ensures value { result ≡ number_len (number_of number acked) }
    ensures most { result ≤ 4 }
{
    let apart = number.saturating_sub(acked);
    if apart < 0x80 {
        1
    } else if apart < 0x8000 {
        2
    } else if apart < 0x80_0000 {
        3
    } else {
        4
    }
}

impl<U: Suite> Core<U> {
    /// How many bytes a datagram to the path in use may have.
    pub fn path_size(&self) -> u64
        ensures { result ≡ path_size (ideal U.Random.stream self.now) }
    {
        self.paths.current.most()
    }

    /// How much room for frames a 1-RTT packet has that has so many bytes, with the number that comes next.
    #[tactic(auto, unfolding(qc_state::specs::Offers::short_room, qc_state::specs::Setup::ideal_setup))]
    pub fn short_room(&self, left: usize) -> usize
        ensures { result ≡ short_room left (ideal U.Random.stream self.now) }
    {
        let number = self.numbers.coming(SpaceId::Data);
        let acked = self.numbers.acked_number(SpaceId::Data);
        let header = 1 + self.paths.current.remote_cid.len() + number_len(number, acked);
        left.saturating_sub(TAG).saturating_sub(header)
    }

    /// Whether the first DATAGRAM that waits has so much room in a packet of the space: they go in 1-RTT packets.
    pub fn datagram_fits(&self, space: SpaceId, room: usize) -> bool
        ensures { result ≡ datagram_fits space room (ideal U.Random.stream self.now) }
    {
        match space {
            SpaceId::Initial | SpaceId::Handshake => false,
            SpaceId::Data => first_fits(&self.lower.datagrams, room),
        }
    }

    /// Whether a DATAGRAM waits in the space: the first one fits alone into a datagram of the path.
    #[tactic(auto, unfolding(qc_state::specs::Offers::datagram_waits))]
    pub(crate) fn datagram_waits(&self, space: SpaceId) -> bool
        ensures { result ≡ datagram_waits space (ideal U.Random.stream self.now) }
    {
        self.datagram_fits(space, self.short_room(self.path_size() as usize))
    }

    /// Whether a frame waits in the space that elicits an acknowledgement, DATAGRAMs aside.
    #[inline(always)]
    #[tactic(auto, unfolding(qc_state::specs::Offers::wants_sending))]
    pub fn wants_sending(&self, space: SpaceId) -> bool
        ensures { result ≡ wants_sending (ideal U.Random.stream self.now) space }
    {
        self.waiting.wants(space)
            || (streams_want(&self.lower.streams, space)
                || (ids_want(&self.lower.ids, space) || tokens_want(&self.waiting, space)))
    }

    /// Whether a frame waits in the space that elicits an acknowledgement.
    pub fn wants(&self, space: SpaceId) -> bool
        ensures { result ≡ wants_in (ideal U.Random.stream self.now) space }
    {
        self.wants_sending(space) || self.datagram_waits(space)
    }

    /// Whether something waits in the space: such a frame, a DATAGRAM, an ACK that is owed, or a probe that is due.
    #[tactic(auto, unfolding(qc_state::specs::Offers::waits_in))]
    pub fn waits(&self, space: SpaceId) -> bool
        ensures { result ≡ waits_in (ideal U.Random.stream self.now) space }
    {
        self.wants_sending(space)
            || (self.datagram_waits(space)
                || (self.waiting.owes_ack(space) || self.waiting.owes_probe(space)))
    }

    /// Whether an ACK is all that is owed in the space, a probe aside.
    #[tactic(auto, using(crate::proofs::NothingHeld::none_owed, crate::proofs::NothingHeld::owed_alone))]
    pub fn owes_ack_alone(&self, space: SpaceId) -> bool
        ensures { result ≡ (not (wants_sending (ideal U.Random.stream self.now) space || datagram_waits space (ideal U.Random.stream self.now)) && is_ack_owed (space_of self.now.waiting.spaces space).acks) }
    {
        let owes = self.waiting.owes_ack(space);
        if !owes {
            return false;
        }
        !self.wants(space)
    }

    /// The frames of the space's oldest packet in flight wait again, where there is one. Want of memory is the only refusal.
    #[tactic(auto, unfolding(qc_state::specs::Lower::streams_stepped, qc_state::specs::Lower::ids_stepped))]
    fn repeat(&mut self, space: SpaceId) -> Result<(), AllocError>
        ensures { OnOk result ((ideal U.Random.stream self.new) ≡ packet_again space (oldest_in (ideal U.Random.stream self.old) space) (ideal U.Random.stream self.old)) }
    {
        let lower = &mut self.lower;
        match lower.recovery.oldest(space) {
            None => Ok(()),
            Some(packet) => {
                packet_lost(&mut lower.streams, packet)?;
                frames_lost(&mut lower.ids, &packet.frames)?;
                self.waiting.again(space, &packet.frames)
            }
        }
    }

    /// A PING waits in the space, where no frame does that elicits an acknowledgement, DATAGRAMs aside.
    #[tactic(auto, unfolding(qc_state::specs::Offers::with_ping))]
    fn ping_instead(&mut self, space: SpaceId)
        ensures { (ideal U.Random.stream self.new) ≡ with_ping space (ideal U.Random.stream self.old) }
    {
        if !self.wants_sending(space) {
            self.waiting.ask_ping(space);
        }
    }

    /// A probe is sent: where no frame waits that elicits an acknowledgement, DATAGRAMs aside, those of the oldest packet in flight wait
    /// again, and where it has none, a PING does. Want of memory is the only refusal.
    #[tactic(auto, unfolding(qc_state::specs::Offers::probe_sent))]
    fn probe(&mut self, space: SpaceId) -> Result<(), AllocError>
        ensures { OnOk result ((ideal U.Random.stream self.new) ≡ probe_sent space (ideal U.Random.stream self.old)) }
    {
        if !self.wants_sending(space) {
            self.repeat(space)?;
        }
        self.ping_instead(space);
        Ok(())
    }

    /// Where a probe is due in the space of a packet that is begun, its frames wait from now on, and a datagram that the packet opens
    /// spends it. Want of memory is the only refusal.
    #[tactic(auto, unfolding(qc_state::specs::Offers::probe_begun))]
    fn begin(&mut self, space: SpaceId, opens: bool) -> Result<(), AllocError>
        ensures { OnOk result ((ideal U.Random.stream self.new) ≡ probe_begun space opens (ideal U.Random.stream self.old)) }
    {
        if !self.waiting.owes_probe(space) {
            return Ok(());
        }
        if opens {
            self.waiting.spend(space);
        }
        self.probe(space)
    }

    /// Streams that may owe something are looked at, as a packet of 1-RTT is begun. Want of memory is the only refusal.
    #[tactic(auto, unfolding(qc_state::specs::Offers::streams_filed, qc_state::specs::Lower::streams_stepped))]
    fn file(&mut self, space: SpaceId) -> Result<(), AllocError>
        ensures { OnOk result ((ideal U.Random.stream self.new) ≡ streams_filed space (ideal U.Random.stream self.old)) }
    {
        file(&mut self.lower.streams, space)
    }

    /// What waits as a packet of a space is begun: where it opens a datagram, a probe that is due there is spent. Want of memory is the
    /// only refusal.
    #[tactic(auto, unfolding(qc_state::specs::Offers::packet_begun))]
    fn begin_waiting(&mut self, space: SpaceId, opens: bool) -> Result<(), AllocError>
        ensures { OnOk result ((ideal U.Random.stream self.new) ≡ packet_begun space opens (ideal U.Random.stream self.old)) }
    {
        self.begin(space, opens)?;
        self.file(space)
    }

    /// The own bits of a packet of a space are drawn.
    fn draw(&mut self, space: SpaceId)
        ensures { (ideal U.Random.stream self.new) ≡ record (ideal U.Random.stream self.old) { setup = packet_drawn (ideal_setup U.Random.stream self.old.setup) (form_in self.old.keys space) } }
    {
        self.setup.draw_packet(self.keys.form_in(space));
    }

    /// A packet of a space is begun, and its own bits are drawn; where it opens a datagram, a probe that is due there is spent. Want of
    /// memory is the only refusal.
    #[tactic(auto, using(crate::proofs::Beginnings::begun_drawn))]
    pub fn do_begin(&mut self, space: SpaceId, opens: bool) -> Result<(), AllocError>
        ensures { OnOk result ((ideal U.Random.stream self.new) ≡ state_move (Begin space opens) (ideal U.Random.stream self.old)) }
    {
        self.begin_waiting(space, opens)?;
        self.draw(space);
        Ok(())
    }
}
