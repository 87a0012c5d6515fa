//! Frames of streams and of limits without bytes of a stream: which is sent next, and what becomes of them.

ghost use Rattle.std.specs.Prelude.{◌≡◌, ◌≤◌, IfSome, OnErr, OnOk, Some};
ghost use Rattle.qc_base.specs.declared.side.Dir.TheVariants.{Bi, Uni};
ghost use Rattle.qc_turns.specs.Ids.{first_id};
ghost use Rattle.qc_streams.specs.Control.{control_acked, control_drawn, control_len, control_lost, control_sealed, credit_due, credit_of, data_with, gone_stop, if_fits, next_control, next_limit, of_first, or_else, reset_due, reset_of, stop_again, stop_due, stop_of, streams_with};
ghost use Rattle.qc_streams.specs.Owed.{max_data_owed, max_streams_owed};
ghost use Rattle.qc_streams.specs.Records.{record_of};

use crate::records::Records;
use crate::state::StreamsState;
use qc_base::{Dir, VarInt, varint_size};
use qc_recv::Recv;
use qc_send_stream::SendPart;
use std::alloc::AllocError;

/// A frame of a stream or of a limit, without bytes of a stream; streams are named by their ids.
#[derive(Clone, Copy, Debug, PartialEq, Eq, Drop)]
pub enum Control {
    /// RESET_STREAM (RFC 9000, section 19.4).
    Reset { id: u64, code: VarInt, size: u64 },
    /// STOP_SENDING (RFC 9000, section 19.5).
    Stop { id: u64, code: VarInt },
    /// MAX_DATA (RFC 9000, section 19.9).
    MaxData { limit: u64 },
    /// MAX_STREAM_DATA (RFC 9000, section 19.10).
    MaxStreamData { id: u64, limit: u64 },
    /// MAX_STREAMS (RFC 9000, section 19.11).
    MaxStreams { dir: Dir, limit: u64 },
}

/// The code and the final size of the RESET_STREAM that a sending side owes.
fn reset_due(sending: &Option<SendPart>) -> Option<(VarInt, u64)>
    ensures { result ≡ reset_due sending.now }
{
    match sending {
        Some(sending) => sending.reset_owed(),
        None => None,
    }
}

/// The code of the STOP_SENDING that a receiving side owes.
fn stop_due(receiving: &Option<Recv>) -> Option<VarInt>
    ensures { result ≡ stop_due receiving.now }
{
    match receiving {
        Some(receiving) if receiving.stop_waits => receiving.stopped,
        _ => None,
    }
}

/// The credit of the MAX_STREAM_DATA that a receiving side owes.
fn credit_due(receiving: &Option<Recv>) -> Option<u64>
    ensures { result ≡ credit_due receiving.now }
{
    match receiving {
        Some(receiving) if receiving.credit_waits => Some(receiving.credit_value()),
        _ => None,
    }
}

impl Records {
    /// The RESET_STREAM of the stream with an id.
    fn reset_of(&self, id: u64) -> Option<Control>
        ensures { result ≡ reset_of id (record_of id self.now) }
    {
        let Some(stream) = self.streams.get(id) else {
            return None;
        };
        match reset_due(&stream.sending) {
            Some((code, size)) => Some(Control::Reset { id, code, size }),
            None => None,
        }
    }

    /// The STOP_SENDING of the stream with an id.
    fn stop_of(&self, id: u64) -> Option<Control>
        ensures { result ≡ stop_of id (record_of id self.now) }
    {
        let Some(stream) = self.streams.get(id) else {
            return None;
        };
        match stop_due(&stream.receiving) {
            Some(code) => Some(Control::Stop { id, code }),
            None => None,
        }
    }

    /// The MAX_STREAM_DATA of the stream with an id.
    fn credit_of(&self, id: u64) -> Option<Control>
        ensures { result ≡ credit_of id (record_of id self.now) }
    {
        let Some(stream) = self.streams.get(id) else {
            return None;
        };
        match credit_due(&stream.receiving) {
            Some(limit) => Some(Control::MaxStreamData { id, limit }),
            None => None,
        }
    }
}

impl Control {
    /// How many bytes the frame takes: its type, of one byte, and its fields.
    pub fn len(&self) -> usize
        ensures len { result ≡ control_len self.now }
        ensures most { result ≤ 25 }
    {
        match self {
            Control::Reset { id, code, size } => {
                1 + varint_size(*id) + varint_size(code.into_inner()) + varint_size(*size)
            }
            Control::Stop { id, code } => 1 + varint_size(*id) + varint_size(code.into_inner()),
            Control::MaxData { limit } => 1 + varint_size(*limit),
            Control::MaxStreamData { id, limit } => 1 + varint_size(*id) + varint_size(*limit),
            Control::MaxStreams { limit, .. } => 1 + varint_size(*limit),
        }
    }
}

/// A frame, where there is room for it.
fn if_fits(room: usize, frame: Option<Control>) -> Option<Control>
    ensures { result ≡ if_fits room frame }
{
    match frame {
        Some(frame) => {
            if frame.len() <= room {
                Some(frame)
            } else {
                None
            }
        }
        None => None,
    }
}

/// A frame, or where there is none another.
fn or_else(frame: Option<Control>, other: Option<Control>) -> Option<Control>
    ensures { result ≡ or_else frame other }
{
    match frame {
        Some(frame) => Some(frame),
        None => other,
    }
}

impl StreamsState {
    /// The RESET_STREAM that is sent next.
    fn reset_to_send(&self) -> Option<Control>
        ensures { result ≡ of_first reset_of (first_id self.now.waiting.resets) self.now }
    {
        match self.waiting.resets.first() {
            Some(id) => self.records.reset_of(id),
            None => None,
        }
    }

    /// The STOP_SENDING that is sent next.
    fn stop_to_send(&self) -> Option<Control>
        ensures { result ≡ of_first stop_of (first_id self.now.waiting.stops) self.now }
    {
        match self.waiting.stops.first() {
            Some(id) => self.records.stop_of(id),
            None => None,
        }
    }

    /// The STOP_SENDING of a stream that has gone.
    fn gone_stop(&self) -> Option<Control>
        ensures { result ≡ gone_stop self.now }
    {
        match self.waiting.gone_stops.first() {
            Some((id, code)) => Some(Control::Stop { id, code }),
            None => None,
        }
    }

    /// The MAX_STREAM_DATA that is sent next.
    fn credit_to_send(&self) -> Option<Control>
        ensures { result ≡ of_first credit_of (first_id self.now.waiting.credits) self.now }
    {
        match self.waiting.credits.first() {
            Some(id) => self.records.credit_of(id),
            None => None,
        }
    }

    /// The MAX_DATA that is sent next.
    fn next_data_limit(&self) -> Option<Control>
        ensures { result ≡ data_with (max_data_owed self.now) }
    {
        match self.max_data_owed() {
            Some(limit) => Some(Control::MaxData { limit }),
            None => None,
        }
    }

    /// The MAX_STREAMS that is sent next.
    fn next_streams_limit(&self, dir: Dir) -> Option<Control>
        ensures { result ≡ streams_with dir (max_streams_owed dir self.now) }
    {
        match self.max_streams_owed(dir) {
            Some(limit) => Some(Control::MaxStreams { dir, limit }),
            None => None,
        }
    }

    /// The frame of a limit that is sent next, where there is room for so many bytes.
    fn next_limit(&self, room: usize) -> Option<Control>
        ensures { result ≡ next_limit room self.now }
    {
        let data = if_fits(room, self.next_data_limit());
        if data.is_some() {
            return data;
        }
        let credit = if_fits(room, self.credit_to_send());
        if credit.is_some() {
            return credit;
        }
        let bi = if_fits(room, self.next_streams_limit(Dir::Bi));
        let uni = if_fits(room, self.next_streams_limit(Dir::Uni));
        or_else(bi, uni)
    }

    /// The frame that is sent next, where there is room for so many bytes.
    #[tactic(auto, unfolding(crate::specs::Control::next_control))]
    pub fn next_control(&self, room: usize) -> Option<Control>
        ensures { result ≡ next_control room self.now }
    {
        let reset = if_fits(room, self.reset_to_send());
        if reset.is_some() {
            return reset;
        }
        let stop = if_fits(room, self.stop_to_send());
        if stop.is_some() {
            return stop;
        }
        let gone = if_fits(room, self.gone_stop());
        if gone.is_some() {
            return gone;
        }
        self.next_limit(room)
    }

    /// A frame was sealed: with its STOP_SENDING a stream leaves that has ended.
    #[tactic(auto, unfolding(crate::specs::Control::control_sealed))]
    pub fn control_sealed(&mut self, frame: &Control)
        ensures { self.new ≡ control_sealed frame.now self.old }
    {
        match frame {
            Control::Reset { id, .. } => {
                self.records.reset_sealed(*id);
                self.waiting.resets.remove(*id);
            }
            Control::Stop { id, .. } => {
                self.records.stop_sealed(*id);
                self.waiting.stops.remove(*id);
                self.waiting.gone_stops.remove(*id);
                self.let_go(*id);
            }
            Control::MaxData { .. } => self.max_data_sealed(),
            Control::MaxStreamData { id, .. } => {
                self.records.credit_sealed(*id);
                self.waiting.credits.remove(*id);
            }
            Control::MaxStreams { dir, .. } => self.max_streams_sealed(*dir),
        }
    }

    /// Draws the frame that is sent next, where there is room for so many bytes: RESET_STREAM comes
    /// before STOP_SENDING (those of streams that have gone last), MAX_DATA, MAX_STREAM_DATA and
    /// MAX_STREAMS, and none is drawn that doesn't fit. It counts as sealed.
    pub fn draw_control(&mut self, room: usize) -> Option<Control>
        ensures next { result ≡ next_control room self.old }
        ensures drawn { self.new ≡ control_drawn result self.old }
    {
        match self.next_control(room) {
            Some(frame) => {
                self.control_sealed(&frame);
                Some(frame)
            }
            None => None,
        }
    }

    /// A STOP_SENDING was lost: it waits again, by itself where its stream has gone.
    #[tactic(auto, unfolding(crate::specs::Control::stop_again))]
    fn stop_again(&mut self, id: u64, code: VarInt) -> Result<(), AllocError>
        ensures again { OnOk result (self.new ≡ stop_again id code self.old) }
        ensures err { OnErr result (self.new ≡ self.old) }
    {
        if !self.records.has(id) {
            return self.waiting.gone_stops.insert(id, code);
        }
        self.records.stop_lost(id);
        self.touch(id);
        Ok(())
    }

    /// A frame was lost: it waits again, where it still holds.
    ///
    /// # Errors
    ///
    /// Want of memory, for a STOP_SENDING whose stream has gone; nothing changes then.
    #[tactic(auto, unfolding(crate::specs::Control::control_lost))]
    pub fn control_lost(&mut self, frame: &Control) -> Result<(), AllocError>
        ensures lost { OnOk result (self.new ≡ control_lost frame.now self.old) }
        ensures err { OnErr result (self.new ≡ self.old) }
    {
        match frame {
            Control::Reset { id, .. } => {
                self.records.reset_lost(*id);
                self.touch(*id);
            }
            Control::Stop { id, code } => return self.stop_again(*id, *code),
            Control::MaxData { .. } => self.max_data_lost(),
            Control::MaxStreamData { id, .. } => {
                self.records.credit_lost(*id);
                self.touch(*id);
            }
            Control::MaxStreams { dir, .. } => self.max_streams_lost(*dir),
        }
        Ok(())
    }

    /// A frame was acknowledged: with its RESET_STREAM a sending side has ended.
    #[tactic(auto, unfolding(crate::specs::Control::control_acked))]
    pub fn control_acked(&mut self, frame: &Control)
        ensures { self.new ≡ control_acked frame.now self.old }
    {
        match frame {
            Control::Reset { id, .. } => {
                self.records.reset_acked(*id);
                self.settle(*id);
            }
            Control::Stop { .. } | Control::MaxData { .. } => {}
            Control::MaxStreamData { .. } | Control::MaxStreams { .. } => {}
        }
    }
}
