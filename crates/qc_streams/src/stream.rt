//! One stream: its receiving and its sending side.

ghost use Rattle.std.specs.Prelude.{◌≡◌, ◌<◌, ◌^◌, IfErr, OnOk, OnErr, None, Some};
ghost use Rattle.qc_recv.specs.Receiving.{IsRefusal, stream_taken, stream_refusal, reset_taken, reset_refusal};
ghost use Rattle.qc_send_stream.specs.Sending.{is_done, kept_count};
ghost use Rattle.qc_streams.specs.Kept.{kept_of};
ghost use Rattle.qc_streams.specs.Sends.{sends_of};
ghost use Rattle.qc_streams.specs.Stream.{fresh_stream, is_over, totals_of, side_refusal, with_receiving, with_sending, is_reading, limit_taken, stop_taken, stops_first};

use bytes::Bytes;
use qc_base::VarInt;
use qc_recv::{FrameFault, Recv, Refusal as SideRefusal};
use qc_send_stream::SendPart;
use qc_turns::Place;

/// A stream (RFC 9000, section 3).
#[derive(Drop)]
pub struct Stream {
    /// What comes, where the peer sends on it.
    pub receiving: Option<Recv>,
    /// What is sent, where this end sends on it.
    pub sending: Option<SendPart>,
    /// Its priority among those that have bytes to send.
    pub priority: i32,
    /// Its place among them, while it has one.
    pub turn: Option<Place>,
    /// The place that it takes once it is looked at: that of the moment when its bytes, or its end, began
    /// to wait.
    pub due: Option<Place>,
    /// Whether it is marked, so that what it owes is looked at.
    pub marked: bool,
    /// Whether this end opened it, or the application accepted it.
    pub taken: bool,
    /// Whether its place was freed: it has ended, and stays for its STOP_SENDING alone.
    pub freed: bool,
}

/// What a stream counts for the connection's credit.
#[derive(Clone, Copy, Debug)]
pub struct Totals {
    /// The greatest end of what came.
    pub received: u64,
    /// How many bytes give credit back.
    pub returned: u64,
}

impl Stream {
    /// A stream of which nothing came and nothing was sent, and whether this end opened it.
    #[tactic(auto, unfolding(crate::specs::Stream::fresh_stream))]
    pub(crate) fn fresh(taken: bool, receiving: Option<Recv>, sending: Option<SendPart>) -> Stream
        ensures { result ≡ fresh_stream taken receiving sending }
    {
        Stream {
            receiving,
            sending,
            priority: 0,
            turn: None,
            due: None,
            marked: false,
            taken,
            freed: false,
        }
    }

    /// Whether nothing more happens on it.
    #[tactic(auto, unfolding(crate::specs::Stream::is_over))]
    pub fn is_over(&self) -> bool
        ensures { result ≡ is_over self.now }
    {
        let received = match &self.receiving {
            Some(receiving) => receiving.is_ended(),
            None => true,
        };
        let sent = match &self.sending {
            Some(sending) => sending.is_done(),
            None => true,
        };
        received && sent
    }

    /// What it counts for the connection's credit.
    pub fn totals(&self) -> Totals
        ensures { result ≡ totals_of self.now.receiving }
    {
        match &self.receiving {
            Some(receiving) => Totals {
                received: receiving.greatest,
                returned: receiving.returned(),
            },
            None => Totals {
                received: 0,
                returned: 0,
            },
        }
    }

    /// How many bytes it keeps until they are acknowledged.
    pub fn kept(&self) -> u64
        ensures { result ≡ kept_of self.now }
    {
        match &self.sending {
            Some(sending) => sending.kept(),
            None => 0,
        }
    }

    /// Whether bytes that come are kept for the application.
    pub fn is_reading(&self) -> bool
        ensures { result ≡ is_reading self.now.receiving }
    {
        match &self.receiving {
            Some(receiving) => receiving.keeps() && !receiving.is_ended(),
            None => false,
        }
    }

    /// Takes a STREAM frame, where the connection has room for so many new bytes.
    ///
    /// # Errors
    ///
    /// The receiving side's refusal; want of memory. Nothing changes then.
    #[inline(always)]
    #[tactic(auto, unfolding(crate::specs::Stream::with_receiving))]
    pub fn take_stream(
        &mut self,
        offset: u64,
        bytes: Bytes,
        last: bool,
        room: u64,
    ) -> Result<(), FrameFault>
        requires { offset < 2 ^ 62 }
        ensures taken { OnOk result (self.new ≡ with_receiving (stream_taken offset bytes last) self.old) }
        ensures same { kept_of self.new ≡ kept_of self.old }
        ensures still { sends_of self.new ≡ sends_of self.old }
        ensures fits { OnOk result (side_refusal (stream_refusal offset bytes last room) self.old.receiving ≡ None) }
        ensures refused { IfErr result (λ e. IsRefusal e (side_refusal (stream_refusal offset bytes last room) self.old.receiving)) }
        ensures err { OnErr result (self.new ≡ self.old) }
    {
        match &mut self.receiving {
            Some(receiving) => receiving.take_stream(offset, bytes, last, room),
            None => Ok(()),
        }
    }

    /// Takes a RESET_STREAM frame, where the connection has room for so many new bytes.
    ///
    /// # Errors
    ///
    /// The receiving side's refusal; nothing changes then.
    #[tactic(auto, unfolding(crate::specs::Stream::with_receiving))]
    pub fn take_reset(&mut self, code: VarInt, size: u64, room: u64) -> Result<(), SideRefusal>
        ensures taken { OnOk result (self.new ≡ with_receiving (reset_taken code size) self.old) }
        ensures same { kept_of self.new ≡ kept_of self.old }
        ensures still { sends_of self.new ≡ sends_of self.old }
        ensures fits { OnOk result (side_refusal (reset_refusal size room) self.old.receiving ≡ None) }
        ensures refused { IfErr result (λ e. side_refusal (reset_refusal size room) self.old.receiving ≡ Some e) }
        ensures err { OnErr result (self.new ≡ self.old) }
    {
        match &mut self.receiving {
            Some(receiving) => receiving.take_reset(code, size, room),
            None => Ok(()),
        }
    }

    /// Takes a STOP_SENDING frame, unless all that was sent is acknowledged; answers whether it is
    /// the first.
    #[tactic(auto, unfolding(crate::specs::Stream::with_sending))]
    pub fn stop_sending(&mut self, code: VarInt) -> bool
        ensures first { result ≡ stops_first self.old.sending }
        ensures stopped { self.new ≡ with_sending (stop_taken code) self.old }
        ensures same { kept_of self.new ≡ kept_of self.old }
        ensures still { sends_of self.new ≡ sends_of self.old }
    {
        match &mut self.sending {
            Some(sending) => stop(sending, code),
            None => false,
        }
    }

    /// Takes a MAX_STREAM_DATA frame, unless all that was sent is acknowledged.
    #[tactic(auto, unfolding(crate::specs::Stream::with_sending))]
    pub fn raise_limit(&mut self, limit: VarInt)
        ensures raised { self.new ≡ with_sending (limit_taken limit) self.old }
        ensures same { kept_of self.new ≡ kept_of self.old }
        ensures still { sends_of self.new ≡ sends_of self.old }
    {
        if let Some(sending) = &mut self.sending {
            raise(sending, limit);
        }
    }
}

/// The peer stops a sending side; answers whether for the first time.
#[tactic(auto, unfolding(crate::specs::Stream::stop_taken, qc_send_stream::specs::Sending::was_stopped, qc_send_stream::specs::Sending::is_done))]
fn stop(sending: &mut SendPart, code: VarInt) -> bool
    ensures first { result ≡ stops_first (Some sending.old) }
    ensures stopped { sending.new ≡ stop_taken code sending.old }
    ensures same { kept_count sending.new ≡ kept_count sending.old }
    ensures still { is_done sending.new ≡ is_done sending.old }
{
    !sending.is_done() && sending.stop(code)
}

/// The peer raises a sending side's limit.
#[tactic(auto, unfolding(crate::specs::Stream::limit_taken, qc_send_stream::specs::Sending::limit_raised, qc_send_stream::specs::Sending::is_done))]
fn raise(sending: &mut SendPart, limit: VarInt)
    ensures raised { sending.new ≡ limit_taken limit sending.old }
    ensures same { kept_count sending.new ≡ kept_count sending.old }
    ensures still { is_done sending.new ≡ is_done sending.old }
{
    if !sending.is_done() {
        sending.raise_limit(limit);
    }
}
