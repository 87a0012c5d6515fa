//! The session of a connection, from which calls lead on from a fresh one.

ghost use Rattle.std.specs.Prelude.{◌≡◌, ◌^◌, ◌<◌, ◌≤◌, ◌⊎◌, [], ◌++◌, None, Ok, length, IsSome, IfOk, IfErr, OnOk, OnErr};
ghost use Rattle.qc_crypto.specs.Refusal.{AnswersError, LeavesAfter};

use qc_base::{ConnectionId, Side, TransportError};
use qc_crypto::{KeyPair, Keys, Session, SessionError};
use qc_params::TransportParameters;
use std::alloc::AllocError;
use std::marker::Model;

/// A session that was fresh once, and to which nothing was done since but the calls of its trait. Contracts see the session.
#[derive(Drop)]
pub struct SoundSession<S: Session> {
    session: S,
}

impl<S: Session> Model for SoundSession<S> {
    ghost Value = { S };

    ghost view = { λ s. s.session };

    ghost invariant = { λ s. S.is_sound s.session };
}

impl<S: Session> SoundSession<S> {
    /// A fresh session.
    pub fn new(session: S) -> SoundSession<S>
        requires { S.is_fresh session }
        ensures { result ≡ session }
    {
        SoundSession { session }
    }

    /// The keys of the Initial space for `side`, of the destination id of a client's first packet.
    pub fn initial_keys(
        &self,
        dst_cid: &ConnectionId,
        side: Side,
    ) -> Keys<S::HeaderKey, S::PacketKey>
        ensures { result ≡ S.initial self.now dst_cid.now side }
    {
        self.session.initial_keys(dst_cid, side)
    }

    /// Whether the integrity tag of a Retry packet fits the destination id of a client's first packet (RFC 9001, 5.8). `header` is the packet
    /// up to its token, and `payload` the token and the tag.
    pub fn is_valid_retry(&self, first_cid: &ConnectionId, header: &[u8], payload: &[u8]) -> bool
        ensures { result ≡ S.fits_retry self.now first_cid.now header.now payload.now }
    {
        self.session.is_valid_retry(first_cid, header, payload)
    }

    /// Whether the handshake goes on still.
    pub fn is_handshaking(&self) -> bool
        ensures { result ≡ S.handshaking self.now }
    {
        self.session.is_handshaking()
    }

    /// The peer's transport parameters, once they are known.
    ///
    /// # Errors
    ///
    /// Where the peer's parameters can't be read or aren't allowed (RFC 9000, 7.4).
    pub fn transport_parameters(&self) -> Result<Option<TransportParameters>, TransportError>
        ensures { result ≡ S.parameters self.now }
    {
        self.session.transport_parameters()
    }

    /// Gives the session handshake bytes of the peer. Answers true where they made the handshake's data ready.
    ///
    /// # Errors
    ///
    /// `SessionError::Transport` where the session refuses the bytes; `SessionError::OutOfMemory` for want of memory, and then
    /// it is as before.
    pub fn read(&mut self, bytes: &[u8]) -> Result<bool, SessionError>
        ensures ok { IfOk result (λ ready. S.reads self.old bytes.now ≡ Ok ready) }
        ensures after { OnOk result (self.new ≡ S.after_read self.old bytes.now) }
        ensures refused { IfErr result (AnswersError (S.reads self.old bytes.now)) }
        ensures err { IfErr result (LeavesAfter (S.after_read self.old bytes.now) self.old self.new) }
    {
        self.session.read_handshake(bytes)
    }

    /// Appends the handshake bytes that are due, and gives the keys of the next space, if they are ready. Writes end: `left`
    /// falls with each that appends or gives something, and one that does neither leaves the session.
    ///
    /// # Errors
    ///
    /// Where there was no memory: the session and `buf` are then as before.
    pub fn write(
        &mut self,
        buf: &mut Vec<u8>,
    ) -> Result<Option<Keys<S::HeaderKey, S::PacketKey>>, AllocError>
        ensures keys { IfOk result (λ keys. keys ≡ S.write_keys self.old) }
        ensures after { OnOk result (self.new ≡ S.after_write self.old) }
        ensures bytes { OnOk result (buf.new.items ≡ buf.old.items ++ S.writes self.old) }
        ensures short { OnOk result (length (S.writes self.old) < 2 ^ 62) }
        ensures falls { OnOk result ((0 < length (S.writes self.old)) ⊎ IsSome (S.write_keys self.old) → S.left self.new < S.left self.old) }
        ensures idle { OnOk result (S.writes self.old ≡ [] → S.write_keys self.old ≡ None → self.new ≡ self.old) }
        ensures err { OnErr result (self.new ≡ self.old) }
        ensures err_bytes { OnErr result (buf.new.items ≡ buf.old.items) }
    {
        self.session.write_handshake(buf)
    }

    /// The 1-RTT keys of the next epoch (RFC 9001, 6.1). None before 1-RTT keys were given. They leave no more to write.
    pub fn next_keys(&mut self) -> Option<KeyPair<S::PacketKey>>
        ensures keys { result ≡ S.next_keys self.old }
        ensures after { self.new ≡ S.after_next self.old }
        ensures left { S.left self.new ≤ S.left self.old }
    {
        self.session.next_1rtt_keys()
    }
}
