//! A cryptographic session: the handshake of one connection, and the keys that come of it.

ghost use Rattle.std.specs.Prelude.{◌≡◌, ◌≢◌, ℕ, ◌<◌, ◌≤◌, ◌+◌, ◌^◌, ◌==◌, if◌then◌else◌, List, [], ◌++◌, Bool, true, false, Option, Some, None, Result, Ok, Err, ◌⊎◌, length, nat_lt, is_err, IsSome, IfOk, IfErr, OnOk, OnErr};
ghost use Rattle.std.specs.Option.{option_copied};
ghost use Rattle.qc_base.specs.declared.side.Side.{Side};
ghost use Rattle.qc_base.specs.declared.side.SpaceId.{SpaceId};
ghost use Rattle.qc_base.specs.declared.transport_error.TransportError.{TransportError};
ghost use Rattle.qc_params.specs.declared.params.TransportParameters.{TransportParameters};
ghost use Rattle.qc_params.specs.ParametersReading.{is_legal};
ghost use Rattle.qc_crypto.specs.declared.keys.Keys.{Keys};
ghost use Rattle.qc_crypto.specs.declared.keys.KeyPair.{KeyPair};
ghost use Rattle.qc_crypto.specs.Mates.{AreEarlyMates, AreMates, ArePacketMates, ArePacketsApart, ReadEachOther};
ghost use Rattle.qc_crypto.specs.Refusal.{AnswersError, IsSendable, LeavesAfter};
ghost use Rattle.qc_crypto.specs.Start.{GivesParameters};
ghost use Rattle.qc_crypto.specs.GivenKeys.{keys_given, space_of_change};

use crate::{ExportKeyingMaterialError, HeaderKey, KeyPair, Keys, PacketKey, SessionError};
use qc_base::{ConnectionId, Side, TransportError};
use qc_params::TransportParameters;
use std::alloc::AllocError;

/// A cryptographic session (RFC 9001, section 4): it reads and writes the handshake's bytes, which
/// travel in CRYPTO frames, and gives the keys of each packet number space.
///
/// A session's meaning is its own value. Each answer, and the session after a call, is a function
/// of the session before it and of the arguments, want of memory aside. The laws speak of sound
/// sessions: those that calls lead to from a fresh one.
pub trait Session: Drop {
    /// What masks headers.
    type HeaderKey: HeaderKey;
    /// What seals packets.
    type PacketKey: PacketKey;
    /// What the handshake settles beside keys and transport parameters.
    type HandshakeData;
    /// Who the peer has shown itself to be.
    type PeerIdentity;

    // The keys of the Initial space, of the destination id of a client's first packet and of the
    // side that uses them.
    ghost initial: { Self → List ℕ → Side → Keys Self.HeaderKey Self.PacketKey };

    ghost negotiated: { Self → Option Self.HandshakeData };

    ghost identity: { Self → Option Self.PeerIdentity };

    // The 0-RTT keys, and whether the peer took what they sealed.
    ghost early: { Self → Option (Self.HeaderKey × Self.PacketKey) };

    ghost early_taken: { Self → Option Bool };

    ghost handshaking: { Self → Bool };

    // What reading some bytes answers, and the session after it.
    ghost reads: { Self → List ℕ → Result Bool TransportError };

    ghost after_read: { Self → List ℕ → Self };

    // The peer's parameters, once they are known.
    ghost parameters: { Self → Result (Option TransportParameters) TransportError };

    // What a write appends, the keys that it gives, and the session after it.
    ghost writes: { Self → List ℕ };

    ghost write_keys: { Self → Option (Keys Self.HeaderKey Self.PacketKey) };

    ghost after_write: { Self → Self };

    // A number that falls with each write that writes or gives something.
    ghost left: { Self → ℕ };

    // How often the keys have changed, and how many bytes the session can still write.
    ghost changes: { Self → ℕ };

    ghost unwritten: { Self → ℕ };

    // The 1-RTT keys of the next epoch, and the session after they were given.
    ghost next_keys: { Self → Option (KeyPair Self.PacketKey) };

    ghost after_next: { Self → Self };

    ghost fits_retry: { Self → List ℕ → List ℕ → List ℕ → Bool };

    // The most bytes of keying material in one call, and these bytes, of their number, a label and
    // a context.
    ghost export_limit: { Self → ℕ };

    ghost exported: { Self → ℕ → List ℕ → List ℕ → List ℕ };

    // A session that has neither read nor written, and one that calls can lead to from such a one.
    ghost is_fresh: { Self → Type 0 };

    ghost is_sound: { Self → Type 0 };

    // Which end this is, and the version of QUIC that it speaks.
    ghost side_of: { Self → Side };

    ghost version_of: { Self → ℕ };

    // The keys of the Handshake and the Data space, the 1-RTT keys of each epoch, and the epoch of
    // the newest keys that were given. Keys that weren't given yet may come to be others.

    ghost space_keys: { Self → SpaceId → Keys Self.HeaderKey Self.PacketKey };

    ghost epoch_keys: { Self → ℕ → KeyPair Self.PacketKey };

    ghost epoch: { Self → ℕ };

    // A client and a server whose handshakes agree on the same secrets, whatever they read. A
    // session whose keys depend on what it reads calls no two paired.
    ghost are_paired: { Self → Self → Type 0 };

    /// The keys of the Initial space for `side`, from the destination id of the client's first
    /// packet (RFC 9001, section 5.2).
    fn initial_keys(
        &self,
        dst_cid: &ConnectionId,
        side: Side,
    ) -> Keys<Self::HeaderKey, Self::PacketKey>
        ensures { result ≡ initial self.now dst_cid.now side };

    /// What the handshake has settled, once it has.
    fn handshake_data(&self) -> Option<&Self::HandshakeData>
        ensures { option_copied result ≡ negotiated self.now };

    /// Who the peer is, once it has shown it.
    fn peer_identity(&self) -> Option<&Self::PeerIdentity>
        ensures { option_copied result ≡ identity self.now };

    /// The keys of 0-RTT packets, where the session has them (RFC 9001, section 4.6).
    fn early_crypto(&self) -> Option<(Self::HeaderKey, Self::PacketKey)>
        ensures { result ≡ early self.now };

    /// Whether the server took 0-RTT, once that is known.
    fn early_data_accepted(&self) -> Option<bool>
        ensures { result ≡ early_taken self.now };

    /// Whether the handshake goes on still.
    fn is_handshaking(&self) -> bool
        ensures { result ≡ handshaking self.now };

    /// Reads handshake bytes of the peer, in order. Answers true where they made the handshake's
    /// data ready.
    ///
    /// # Errors
    ///
    /// `SessionError::Transport` where the session refuses the bytes; the connection is to close
    /// with that error. `SessionError::OutOfMemory` where there was no memory: the session is then
    /// as before.
    fn read_handshake(&mut self, buf: &[u8]) -> Result<bool, SessionError>
        ensures ok { IfOk result (λ ready. reads self.old buf.now ≡ Ok ready) }
        ensures after { OnOk result (self.new ≡ after_read self.old buf.now) }
        ensures refused { IfErr result (AnswersError (reads self.old buf.now)) }
        ensures err { IfErr result (LeavesAfter (after_read self.old buf.now) self.old self.new) };

    /// The peer's transport parameters (RFC 9001, section 8.2), once they are known. A client with
    /// early keys knows those of an earlier connection until it reads new ones.
    ///
    /// # Errors
    ///
    /// Where the peer's parameters can't be read or aren't allowed; the connection is to close
    /// with that error.
    fn transport_parameters(&self) -> Result<Option<TransportParameters>, TransportError>
        ensures { result ≡ parameters self.now };

    /// Appends the handshake bytes that are due in the present space, and gives the keys of the
    /// next space, if they are ready: the bytes of later writes then belong to that space.
    ///
    /// # Errors
    ///
    /// Where there was no memory: the session and `buf` are then as before.
    fn write_handshake(
        &mut self,
        buf: &mut Vec<u8>,
    ) -> Result<Option<Keys<Self::HeaderKey, Self::PacketKey>>, AllocError>
        ensures keys { IfOk result (λ keys. keys ≡ write_keys self.old) }
        ensures after { OnOk result (self.new ≡ after_write self.old) }
        ensures bytes { OnOk result (buf.new.items ≡ buf.old.items ++ writes self.old) }
        ensures err { OnErr result (self.new ≡ self.old) }
        ensures err_bytes { OnErr result (buf.new.items ≡ buf.old.items) };

    /// The 1-RTT keys of the next epoch (RFC 9001, section 6.1). None before 1-RTT keys were given.
    fn next_1rtt_keys(&mut self) -> Option<KeyPair<Self::PacketKey>>
        ensures keys { result ≡ next_keys self.old }
        ensures after { self.new ≡ after_next self.old };

    /// Whether the integrity tag of a Retry packet fits (RFC 9001, section 5.8). `header` is the
    /// packet up to its token, and `payload` the token and the tag.
    fn is_valid_retry(&self, orig_dst_cid: &ConnectionId, header: &[u8], payload: &[u8]) -> bool
        ensures { result ≡ fits_retry self.now orig_dst_cid.now header.now payload.now };

    /// Fills `output` with keying material that both ends of the connection derive alike.
    ///
    /// # Errors
    ///
    /// Exactly where `output` is longer than the session's limit. It is then unchanged.
    fn export_keying_material(
        &self,
        output: &mut [u8],
        label: &[u8],
        context: &[u8],
    ) -> Result<(), ExportKeyingMaterialError>
        ensures ok { OnOk result (output.new ≡ exported self.now (length output.old) label.now context.now) }
        ensures refused { is_err result ≡ nat_lt (export_limit self.now) (length output.old) }
        ensures unchanged { OnErr result (output.new ≡ output.old) };

    // A fresh session is sound, and each call keeps a sound one so.
    ghost fresh_sound: { (s : Self) → is_fresh s → is_sound s };

    ghost sound_read: { (s : Self) (bytes : List ℕ) → is_sound s → is_sound (after_read s bytes) };

    ghost sound_write: { (s : Self) → is_sound s → is_sound (after_write s) };

    ghost sound_next: { (s : Self) → is_sound s → is_sound (after_next s) };

    // A fresh session has given no keys.
    ghost fresh_changes: { (s : Self) → is_fresh s → changes s ≡ 0 };

    ghost fresh_epoch: { (s : Self) → is_fresh s → epoch s ≡ 0 };

    // A fresh client's first write has its whole hello: it gives no keys, and nothing more is due
    // before the session reads.
    ghost hello_first: { (s : Self) → is_fresh s → side_of s ≡ Side.Client → 0 < length (writes s) };

    ghost hello_no_keys: { (s : Self) → is_fresh s → side_of s ≡ Side.Client → write_keys s ≡ None };

    ghost hello_whole: { (s : Self) → is_fresh s → side_of s ≡ Side.Client → writes (after_write s) ≡ [] };

    ghost hello_alone: { (s : Self) → is_fresh s → side_of s ≡ Side.Client → write_keys (after_write s) ≡ None };

    // Where a fresh client has early keys, it knows the peer's parameters of an earlier connection.
    ghost fresh_early: { (s : Self) → is_fresh s → side_of s ≡ Side.Client → IsSome (early s) → GivesParameters (parameters s) };

    // Writes end: `left` falls with each that writes or gives something, and one that does neither
    // leaves the session.
    ghost falls: { (s : Self) → is_sound s → (0 < length (writes s)) ⊎ IsSome (write_keys s) → left (after_write s) < left s };

    ghost idle: { (s : Self) → is_sound s → writes s ≡ [] → write_keys s ≡ None → after_write s ≡ s };

    // All writes of a session together have fewer than 2^62 bytes.
    ghost unwritten_most: { (s : Self) → is_sound s → unwritten s < 2 ^ 62 };

    ghost unwritten_write: { (s : Self) → is_sound s → length (writes s) + unwritten (after_write s) ≤ unwritten s };

    ghost unwritten_read: { (s : Self) (bytes : List ℕ) → is_sound s → unwritten (after_read s bytes) ≤ unwritten s };

    ghost unwritten_next: { (s : Self) → is_sound s → unwritten (after_next s) ≤ unwritten s };

    // The keys change at most twice, and only in writes that give keys.
    ghost changes_most: { (s : Self) → is_sound s → changes s ≤ 2 };

    ghost changes_write: { (s : Self) → is_sound s → changes (after_write s) ≡ changes s + keys_given (write_keys s) };

    ghost changes_read: { (s : Self) (bytes : List ℕ) → is_sound s → changes (after_read s bytes) ≡ changes s };

    ghost changes_next: { (s : Self) → is_sound s → changes (after_next s) ≡ changes s };

    // The keys of the next epoch leave no more to write.
    ghost left_next: { (s : Self) → is_sound s → left (after_next s) ≤ left s };

    // A handshake ends only after the second change of keys, and never begins again. Where there
    // were early keys, the session knows then whether the peer took them.
    ghost over_late: { (s : Self) → is_sound s → handshaking s ≡ false → changes s ≡ 2 };

    ghost over_read: { (s : Self) (bytes : List ℕ) → is_sound s → handshaking s ≡ false → handshaking (after_read s bytes) ≡ false };

    ghost over_write: { (s : Self) → is_sound s → handshaking s ≡ false → handshaking (after_write s) ≡ false };

    ghost over_next: { (s : Self) → is_sound s → handshaking s ≡ false → handshaking (after_next s) ≡ false };

    ghost over_early: { (s : Self) → is_sound s → handshaking s ≡ false → IsSome (early s) → IsSome (early_taken s) };

    // Reading answers true at most once: the data wasn't ready before, is ready then, and stays so.
    ghost ready_once: { (s : Self) (bytes : List ℕ) → is_sound s → reads s bytes ≡ Ok true → negotiated s ≡ None };

    ghost ready_then: { (s : Self) (bytes : List ℕ) → is_sound s → reads s bytes ≡ Ok true → IsSome (negotiated (after_read s bytes)) };

    ghost ready_read: { (s : Self) (bytes : List ℕ) → is_sound s → IsSome (negotiated s) → IsSome (negotiated (after_read s bytes)) };

    ghost ready_write: { (s : Self) → is_sound s → IsSome (negotiated s) → IsSome (negotiated (after_write s)) };

    ghost ready_next: { (s : Self) → is_sound s → IsSome (negotiated s) → IsSome (negotiated (after_next s)) };

    // A refusal can be sent to the peer.
    ghost refusal: { (s : Self) (bytes : List ℕ) (error : TransportError) → is_sound s → reads s bytes ≡ Err error → IsSendable error };

    ghost unreadable: { (s : Self) (error : TransportError) → is_sound s → parameters s ≡ Err error → IsSendable error };

    // The parameters that are given are allowed (RFC 9000, section 18.2). A server that changed keys
    // has read the client's, or can't read them.
    ghost allowed: { (s : Self) (p : TransportParameters) → is_sound s → parameters s ≡ Ok (Some p) → is_legal (side_of s) p ≡ true };

    ghost server_knows: { (s : Self) → is_sound s → side_of s ≡ Side.Server → 0 < changes s → parameters s ≢ Ok None };

    // Writing tells nothing new of the peer, and the next epoch's keys change nothing of what is due
    // or known.
    ghost write_parameters: { (s : Self) → is_sound s → parameters (after_write s) ≡ parameters s };

    ghost write_early: { (s : Self) → is_sound s → early (after_write s) ≡ early s };

    // The early keys that a client was given stay, whatever it reads.
    ghost early_read: { (s : Self) (bytes : List ℕ) (keys : Self.HeaderKey × Self.PacketKey) → is_sound s → side_of s ≡ Side.Client → early s ≡ Some keys → early (after_read s bytes) ≡ Some keys };

    ghost next_parameters: { (s : Self) → is_sound s → parameters (after_next s) ≡ parameters s };

    ghost next_early: { (s : Self) → is_sound s → early (after_next s) ≡ early s };

    ghost next_writes: { (s : Self) → is_sound s → writes (after_next s) ≡ writes s };

    ghost next_write_keys: { (s : Self) → is_sound s → write_keys (after_next s) ≡ write_keys s };

    // A session stays the same end, of the same version.
    ghost side_read: { (s : Self) (bytes : List ℕ) → is_sound s → side_of (after_read s bytes) ≡ side_of s };

    ghost side_write: { (s : Self) → is_sound s → side_of (after_write s) ≡ side_of s };

    ghost side_next: { (s : Self) → is_sound s → side_of (after_next s) ≡ side_of s };

    ghost version_read: { (s : Self) (bytes : List ℕ) → is_sound s → version_of (after_read s bytes) ≡ version_of s };

    ghost version_write: { (s : Self) → is_sound s → version_of (after_write s) ≡ version_of s };

    ghost version_next: { (s : Self) → is_sound s → version_of (after_next s) ≡ version_of s };

    // The Initial keys are the same at all times.
    ghost initial_read: { (s : Self) (bytes id : List ℕ) (side : Side) → is_sound s → initial (after_read s bytes) id side ≡ initial s id side };

    ghost initial_write: { (s : Self) (id : List ℕ) (side : Side) → is_sound s → initial (after_write s) id side ≡ initial s id side };

    ghost initial_next: { (s : Self) (id : List ℕ) (side : Side) → is_sound s → initial (after_next s) id side ≡ initial s id side };

    // The keys that a write gives are those that the session has after it, first of the Handshake
    // space, then of the Data space.
    ghost given_keys: { (s : Self) (keys : Keys Self.HeaderKey Self.PacketKey) → is_sound s → write_keys s ≡ Some keys → keys ≡ space_keys (after_write s) (space_of_change (changes s)) };

    // Keys that were given stay.
    ghost handshake_read: { (s : Self) (bytes : List ℕ) → is_sound s → 0 < changes s → space_keys (after_read s bytes) SpaceId.Handshake ≡ space_keys s SpaceId.Handshake };

    ghost handshake_write: { (s : Self) → is_sound s → 0 < changes s → space_keys (after_write s) SpaceId.Handshake ≡ space_keys s SpaceId.Handshake };

    ghost handshake_next: { (s : Self) → is_sound s → 0 < changes s → space_keys (after_next s) SpaceId.Handshake ≡ space_keys s SpaceId.Handshake };

    ghost data_read: { (s : Self) (bytes : List ℕ) → is_sound s → changes s ≡ 2 → space_keys (after_read s bytes) SpaceId.Data ≡ space_keys s SpaceId.Data };

    ghost data_write: { (s : Self) → is_sound s → changes s ≡ 2 → space_keys (after_write s) SpaceId.Data ≡ space_keys s SpaceId.Data };

    ghost data_next: { (s : Self) → is_sound s → changes s ≡ 2 → space_keys (after_next s) SpaceId.Data ≡ space_keys s SpaceId.Data };

    ghost epochs_read: { (s : Self) (bytes : List ℕ) (n : ℕ) → is_sound s → changes s ≡ 2 → epoch_keys (after_read s bytes) n ≡ epoch_keys s n };

    ghost epochs_write: { (s : Self) (n : ℕ) → is_sound s → changes s ≡ 2 → epoch_keys (after_write s) n ≡ epoch_keys s n };

    ghost epochs_next: { (s : Self) (n : ℕ) → is_sound s → changes s ≡ 2 → epoch_keys (after_next s) n ≡ epoch_keys s n };

    // The first 1-RTT keys are those of epoch 0. Later ones are given epoch by epoch, once the first
    // were, and reads and writes keep the epoch.
    ghost first_epoch: { (s : Self) → is_sound s → changes s ≡ 2 → (space_keys s SpaceId.Data).packet ≡ epoch_keys s 0 };

    ghost given_next: { (s : Self) → is_sound s → next_keys s ≡ (if changes s == 2 then Some (epoch_keys s (epoch s + 1)) else None) };

    ghost next_epoch: { (s : Self) → is_sound s → epoch s + 1 < 2 ^ 64 → epoch (after_next s) ≡ (if changes s == 2 then epoch s + 1 else epoch s) };

    ghost epoch_read: { (s : Self) (bytes : List ℕ) → is_sound s → epoch (after_read s bytes) ≡ epoch s };

    ghost epoch_write: { (s : Self) → is_sound s → epoch (after_write s) ≡ epoch s };

    // With Initial keys of one id the two ends read each other.
    ghost initial_fits: { (s : Self) (id : List ℕ) → is_sound s → ReadEachOther Self.HeaderKey.mask_of Self.PacketKey.seal Self.PacketKey.opening (initial s id Side.Client) (initial s id Side.Server) };

    // Each call of either end keeps a pair.
    ghost pair_client_read: { (client server : Self) (bytes : List ℕ) → are_paired client server → are_paired (after_read client bytes) server };

    ghost pair_client_write: { (client server : Self) → are_paired client server → are_paired (after_write client) server };

    ghost pair_client_next: { (client server : Self) → are_paired client server → are_paired (after_next client) server };

    ghost pair_server_read: { (client server : Self) (bytes : List ℕ) → are_paired client server → are_paired client (after_read server bytes) };

    ghost pair_server_write: { (client server : Self) → are_paired client server → are_paired client (after_write server) };

    ghost pair_server_next: { (client server : Self) → are_paired client server → are_paired client (after_next server) };

    // All keys of a pair are mates, but those of two epochs open nothing of each other, and the two
    // ends export the same bytes.
    ghost initial_mates: { (client server : Self) (id : List ℕ) → are_paired client server → AreMates Self.HeaderKey.mask_of Self.PacketKey.seal Self.PacketKey.opening (initial client id Side.Client) (initial server id Side.Server) };

    ghost space_mates: { (client server : Self) (space : SpaceId) → are_paired client server → AreMates Self.HeaderKey.mask_of Self.PacketKey.seal Self.PacketKey.opening (space_keys client space) (space_keys server space) };

    ghost early_mates: { (client server : Self) (one other : Self.HeaderKey × Self.PacketKey) → are_paired client server → early client ≡ Some one → early server ≡ Some other → AreEarlyMates Self.HeaderKey.mask_of Self.PacketKey.seal Self.PacketKey.opening one other };

    ghost epoch_mates: { (client server : Self) (epoch : ℕ) → are_paired client server → ArePacketMates Self.PacketKey.seal Self.PacketKey.opening (epoch_keys client epoch) (epoch_keys server epoch) };

    ghost epochs_apart: { (client server : Self) (one other : ℕ) → are_paired client server → one < 2 ^ 64 → other < 2 ^ 64 → one ≢ other → ArePacketsApart Self.PacketKey.seal Self.PacketKey.opening (epoch_keys client one) (epoch_keys server other) };

    ghost same_exports: { (client server : Self) (count : ℕ) (label context : List ℕ) → are_paired client server → exported client count label context ≡ exported server count label context };
}
