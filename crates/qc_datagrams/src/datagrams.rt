//! The datagrams of a connection: those that came, and those that are to be sent.

ghost use Rattle.std.specs.Prelude.{◌≡◌, ℕ, ◌++◌, ◌==◌, true, false, length, IfOk, IfErr, OnOk, OnErr, Some, None, Err, is_err, option_to_list};
ghost use Rattle.qc_datagrams.specs.Datagrams.{new_datagrams, is_refused, frame_taken, send_refusal, send_queued, send_refused, room_told, longer_dropped};
ghost use Rattle.qc_datagrams.specs.Queue.{first};
ghost use Rattle.qc_datagrams.specs.Steps.{Sealed, after_step};

use crate::queue::DatagramQueue;
use bytes::Bytes;
use std::alloc::{AllocError, Global};

/// The datagrams of a connection.
#[derive(Drop)]
pub struct Datagrams {
    /// Those that came and weren't taken.
    pub incoming: DatagramQueue,
    /// Those that are to be sent.
    pub outgoing: DatagramQueue,
    /// How many bytes are kept of those that came. None where none may come.
    pub receive_buffer: Option<u64>,
    /// How many bytes are kept of those that are to be sent.
    pub send_buffer: u64,
    /// Whether one was refused since a datagram was last sealed, because the buffer was full.
    pub blocked: bool,
}

/// Why a datagram isn't queued to be sent.
#[derive(Clone, Copy, Debug, PartialEq, Eq)]
pub enum SendRefusal {
    /// No receive buffer is configured.
    Disabled,
    /// The peer takes no datagrams.
    UnsupportedByPeer,
    /// It is longer than a packet or the peer takes.
    TooLarge,
    /// The buffer is full, and nothing may be dropped.
    Blocked,
}

impl Datagrams {
    /// Nothing came, and nothing is to be sent.
    #[tactic(auto, unfolding(crate::specs::Datagrams::new_datagrams))]
    pub fn new(alloc: Global, receive_buffer: Option<u64>, send_buffer: u64) -> Self
        ensures { result ≡ new_datagrams receive_buffer send_buffer }
    {
        Datagrams {
            incoming: DatagramQueue::new(alloc),
            outgoing: DatagramQueue::new(alloc),
            receive_buffer,
            send_buffer,
            blocked: false,
        }
    }
}

/// Why a DATAGRAM frame wasn't taken.
#[derive(Clone, Copy, Debug, PartialEq, Eq)]
pub enum DatagramFault {
    /// None may come, or it is longer than the receive buffer: PROTOCOL_VIOLATION (RFC 9221,
    /// section 3).
    Refused,
    /// Memory ran out.
    OutOfMemory,
}

impl Datagrams {
    /// Whether a DATAGRAM frame is refused.
    #[tactic(auto, unfolding(crate::specs::Datagrams::is_refused))]
    fn is_refused(&self, datagram: &Bytes) -> bool
        ensures { result ≡ is_refused datagram.now self.now }
    {
        self.receive_buffer.is_none() || self.receive_buffer.unwrap_or(0) < datagram.len() as u64
    }

    /// Takes a DATAGRAM frame; the oldest of those that came make room for it. The answer says
    /// whether none had waited.
    ///
    /// # Errors
    ///
    /// `Refused` exactly where none may come or it is longer than the receive buffer; want of
    /// memory. Nothing changes then.
    #[tactic(auto, unfolding(crate::specs::Datagrams::frame_taken))]
    pub fn take_frame(&mut self, datagram: Bytes) -> Result<bool, DatagramFault>
        ensures taken { OnOk result (self.new ≡ frame_taken datagram self.old) }
        ensures first { IfOk result (λ first. first ≡ (length self.old.incoming == 0)) }
        ensures fits { OnOk result (is_refused datagram self.old ≡ false) }
        ensures refused { result ≡ Err DatagramFault.Refused → is_refused datagram self.old ≡ true }
        ensures err { OnErr result (self.new ≡ self.old) }
    {
        if self.is_refused(&datagram) {
            return Err(DatagramFault::Refused);
        }
        let limit = self.receive_buffer.unwrap_or(0);
        let first = self.incoming.is_empty();
        match self.incoming.push(limit, datagram) {
            Ok(()) => Ok(first),
            Err(_) => Err(DatagramFault::OutOfMemory),
        }
    }

    /// Why a datagram isn't queued to be sent. `most` is how long it may be, where the peer takes
    /// datagrams.
    #[tactic(auto, unfolding(crate::specs::Datagrams::send_refusal, crate::specs::Datagrams::first_row))]
    pub fn send_refusal(
        &self,
        most: Option<u64>,
        drops: bool,
        datagram: &Bytes,
    ) -> Option<SendRefusal>
        ensures { result ≡ send_refusal most drops datagram.now self.now }
    {
        if self.receive_buffer.is_none() {
            return Some(SendRefusal::Disabled);
        }
        if most.is_none() {
            return Some(SendRefusal::UnsupportedByPeer);
        }
        if most.unwrap_or(0) < datagram.len() as u64 {
            return Some(SendRefusal::TooLarge);
        }
        if !drops && !self.outgoing.fits(self.send_buffer, datagram) {
            return Some(SendRefusal::Blocked);
        }
        None
    }

    /// Queues a datagram to be sent; the oldest make room for it.
    ///
    /// # Errors
    ///
    /// Want of memory; nothing changes then.
    #[tactic(auto, unfolding(crate::specs::Datagrams::send_queued))]
    pub fn send(&mut self, datagram: Bytes) -> Result<(), AllocError>
        ensures queued { OnOk result (self.new ≡ send_queued datagram self.old) }
        ensures err { OnErr result (self.new ≡ self.old) }
    {
        self.outgoing.push(self.send_buffer, datagram)
    }

    /// Drops all datagrams to be sent that are longer than so many bytes, wherever they stand, since
    /// the path takes no longer ones any more. The others stay in their order, and so does what is
    /// remembered of one that was refused.
    #[tactic(auto, unfolding(crate::specs::Datagrams::longer_dropped))]
    pub fn drop_longer(&mut self, most: u64)
        ensures { self.new ≡ longer_dropped most self.old }
    {
        self.outgoing.drop_longer(most);
    }

    /// Remembers that a datagram was refused because the buffer was full.
    #[tactic(auto, unfolding(crate::specs::Datagrams::send_refused))]
    pub fn refused(&mut self, refusal: SendRefusal)
        ensures { self.new ≡ send_refused refusal self.old }
    {
        if let SendRefusal::Blocked = refusal {
            self.blocked = true;
        }
    }

    /// The oldest datagram that is to be sent leaves the queue, to be sealed; whether one was refused
    /// before, because the buffer was full, is remembered no longer. None exactly where none is to be sent.
    #[tactic(auto, unfolding(crate::specs::Steps::after_step, crate::specs::Datagrams::room_told))]
    pub fn seal(&mut self) -> Option<Bytes>
        ensures given { option_to_list result ≡ first self.old.outgoing }
        ensures sealed { self.new ≡ after_step Sealed self.old }
    {
        self.blocked = false;
        self.outgoing.pop()
    }
}
