//! The application's view of a connection's datagrams (RFC 9221).

ghost use Rattle.std.specs.Prelude.{◌≡◌, false, None, IfErr, OnErr, OnOk, option_to_list};
ghost use Rattle.qc_conn.specs.Posting.{marked, posted, refused_as, send_error, taken_one, unsent, with_datagrams};
ghost use Rattle.qc_datagrams.specs.Datagrams.{send_queued, send_refusal, send_refused};
ghost use Rattle.qc_datagrams.specs.Queue.{first, space};
ghost use Rattle.qc_state.specs.Run.{datagram_limit};
ghost use Rattle.qc_state.specs.View.{ideal};

use bytes::Bytes;
use qc_core::Core;
use qc_datagrams::SendRefusal;
use qc_state::Suite;

/// Why a datagram isn't sent.
#[derive(Debug, Drop, PartialEq, Eq)]
pub enum SendDatagramError {
    /// The peer takes no datagrams (RFC 9221, 3), or its parameters aren't known yet.
    UnsupportedByPeer,
    /// No receive buffer for datagrams is configured, and so none are sent.
    Disabled,
    /// It has more bytes than `max_size` gives.
    TooLarge,
    /// The buffer is full, and no other was to be dropped. The datagram is given back; once there is room again, the connection reports
    /// `DatagramsUnblocked`.
    Blocked(Bytes),
    /// Memory ran out in this call and the connection has failed.
    OutOfMemory,
    /// The connection had failed before this call.
    Failed,
}

/// The datagrams of a connection, as the application sends them, and takes those that came.
#[derive(Drop)]
pub struct Datagrams<'a, U: Suite> {
    pub(crate) core: &'a mut Core<U>,
}

/// Why a datagram is refused, as the application is told; one that may be sent later is given back.
fn refused(refusal: SendRefusal, body: Bytes) -> SendDatagramError
    ensures { result ≡ refused_as refusal body }
{
    match refusal {
        SendRefusal::Disabled => SendDatagramError::Disabled,
        SendRefusal::UnsupportedByPeer => SendDatagramError::UnsupportedByPeer,
        SendRefusal::TooLarge => SendDatagramError::TooLarge,
        SendRefusal::Blocked => SendDatagramError::Blocked(body),
    }
}

/// A datagram is queued to be sent; the oldest make room for it.
///
/// # Errors
///
/// `OutOfMemory` for want of memory; the connection has failed then.
fn queue<U: Suite>(core: &mut Core<U>, body: Bytes) -> Result<(), SendDatagramError>
    ensures queued { OnOk result (core.new ≡ with_datagrams core.old (send_queued body core.old.lower.datagrams)) }
    ensures fault { IfErr result (λ e. e ≡ SendDatagramError.OutOfMemory) }
    ensures marked { OnErr result (core.new ≡ marked core.old) }
{
    match core.lower.datagrams.send(body) {
        Ok(()) => Ok(()),
        Err(_) => {
            core.lower.streams.failed = true;
            Err(SendDatagramError::OutOfMemory)
        }
    }
}

/// A datagram is sent that may have `most` bytes, where the peer takes any: it is queued, or why it isn't is noted.
#[tactic(auto, unfolding(qc_state::specs::Lower::datagrams_stepped, qc_datagrams::specs::Steps::after, qc_datagrams::specs::Steps::after_step), using(crate::proofs::Posting::refusal_leaves))]
fn post<U: Suite>(
    core: &mut Core<U>,
    most: Option<u64>,
    drop: bool,
    body: Bytes,
) -> Result<(), SendDatagramError>
    ensures sent { OnOk result (core.new ≡ posted most drop body core.old) }
    ensures fits { OnOk result (send_refusal most drop body core.old.lower.datagrams ≡ None) }
    ensures cause { IfErr result (λ e. e ≡ send_error false (send_refusal most drop body core.old.lower.datagrams) body) }
    ensures err { IfErr result (λ e. core.new ≡ unsent e most drop body core.old) }
{
    match core.lower.datagrams.send_refusal(most, drop, &body) {
        Some(refusal) => {
            core.lower.datagrams.refused(refusal);
            Err(refused(refusal, body))
        }
        None => queue(core, body),
    }
}

/// A datagram is sent, unless the connection has failed.
fn send<U: Suite>(core: &mut Core<U>, body: Bytes, drop: bool) -> Result<(), SendDatagramError>
    ensures sent { OnOk result (core.new ≡ posted (datagram_limit (ideal U.Random.stream core.old)) drop body core.old) }
    ensures alive { OnOk result (core.old.lower.streams.failed ≡ false) }
    ensures fits { OnOk result (send_refusal (datagram_limit (ideal U.Random.stream core.old)) drop body core.old.lower.datagrams ≡ None) }
    ensures cause { IfErr result (λ e. e ≡ send_error core.old.lower.streams.failed (send_refusal (datagram_limit (ideal U.Random.stream core.old)) drop body core.old.lower.datagrams) body) }
    ensures err { IfErr result (λ e. core.new ≡ unsent e (datagram_limit (ideal U.Random.stream core.old)) drop body core.old) }
{
    if core.lower.streams.failed {
        return Err(SendDatagramError::Failed);
    }
    let most = core.datagram_limit();
    post(core, most, drop, body)
}

/// The oldest datagram that came is taken.
#[tactic(auto, unfolding(qc_state::specs::Lower::datagrams_stepped, qc_datagrams::specs::Steps::after, qc_datagrams::specs::Steps::after_step))]
fn take<U: Suite>(core: &mut Core<U>) -> Option<Bytes>
    ensures given { option_to_list result ≡ first core.old.lower.datagrams.incoming }
    ensures leads { core.new ≡ taken_one core.old }
{
    core.lower.datagrams.incoming.pop()
}

/// How many bytes a datagram may have that waits beside the others.
fn buffer_space<U: Suite>(core: &Core<U>) -> u64
    ensures { result ≡ space core.now.lower.datagrams.send_buffer core.now.lower.datagrams.outgoing }
{
    let limit = core.lower.datagrams.send_buffer;
    core.lower.datagrams.outgoing.space(limit)
}

impl<'a, U: Suite> Datagrams<'a, U> {
    /// Sends a datagram, which waits until a packet has room for it. Where the buffer of those that wait has no room, the oldest are dropped
    /// until it fits or none is left, if `drop` says so (RFC 9221, 5).
    ///
    /// # Errors
    ///
    /// Exactly, in this order: `Failed` where the connection has failed, `Disabled` where no receive buffer is configured,
    /// `UnsupportedByPeer` where the peer takes none or its parameters aren't known, `TooLarge` where it is longer than `max_size`,
    /// `Blocked` where `drop` is false and the buffer is full; or `OutOfMemory` for want of memory, and then the connection has failed. All
    /// else is as before, but that one was blocked is noted: the next packet that holds a DATAGRAM then reports `DatagramsUnblocked`, once.
    pub fn send(&mut self, body: Bytes, drop: bool) -> Result<(), SendDatagramError>
        ensures same_reference { self.new.core.ghost_name ≡ self.old.core.ghost_name }
        ensures sent { OnOk result (self.new.core.now ≡ posted (datagram_limit (ideal U.Random.stream self.old.core.now)) drop body self.old.core.now) }
        ensures alive { OnOk result (self.old.core.now.lower.streams.failed ≡ false) }
        ensures fits { OnOk result (send_refusal (datagram_limit (ideal U.Random.stream self.old.core.now)) drop body self.old.core.now.lower.datagrams ≡ None) }
        ensures cause { IfErr result (λ e. e ≡ send_error self.old.core.now.lower.streams.failed (send_refusal (datagram_limit (ideal U.Random.stream self.old.core.now)) drop body self.old.core.now.lower.datagrams) body) }
        ensures err { IfErr result (λ e. self.new.core.now ≡ unsent e (datagram_limit (ideal U.Random.stream self.old.core.now)) drop body self.old.core.now) }
    {
        send(self.core, body, drop)
    }

    /// Takes the oldest datagram that came. None exactly where none is queued. It takes no memory, and is done of a connection that has
    /// failed too.
    pub fn recv(&mut self) -> Option<Bytes>
        ensures same_reference { self.new.core.ghost_name ≡ self.old.core.ghost_name }
        ensures given { option_to_list result ≡ first self.old.core.now.lower.datagrams.incoming }
        ensures leads { self.new.core.now ≡ taken_one self.old.core.now }
    {
        take(self.core)
    }

    /// How many bytes a datagram that is sent may have: it fits with its frame's head into a 1-RTT packet of the path, and into the frame
    /// size that the peer announced (RFC 9221, 3). None exactly where the peer announced none, or its parameters aren't known.
    pub fn max_size(&self) -> Option<usize>
        ensures { result ≡ datagram_limit (ideal U.Random.stream self.now.core.now) }
    {
        match self.core.datagram_limit() {
            None => None,
            Some(most) => Some(most as usize),
        }
    }

    /// How many bytes a datagram may have that waits beside the others without one being dropped: each counts its bytes and 32 more.
    pub fn send_buffer_space(&self) -> usize
        ensures { result ≡ space self.now.core.now.lower.datagrams.send_buffer self.now.core.now.lower.datagrams.outgoing }
    {
        buffer_space(self.core) as usize
    }
}
