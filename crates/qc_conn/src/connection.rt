//! A connection and its calls.

ghost use Rattle.std.specs.Prelude.{◌≡◌, ◌<◌, ◌≤◌, [], true, false, length, None, Err, OnOk, OnErr, IfOk, IfSome, IsSome, max, unwrap_or, string_bytes};
ghost use Rattle.qc_base.specs.Time.{plus};
ghost use Rattle.qc_state.specs.declared.form.Form.TheVariants.{OneRtt};
ghost use Rattle.qc_state.specs.Keys.{epoch_in};
ghost use Rattle.qc_state.specs.Updating.{fresh_now, may_update_now, updated_after};
ghost use Rattle.qc_text.specs.OneText.{IsPlainAddress, IsPlainStart};
ghost use Rattle.qc_conn.specs.Opened.{OnDone, lost_of};
ghost use Rattle.qc_conn.specs.Seen.{Sends, SendsSealed, counted, with_streams};
ghost use Rattle.qc_conn.specs.Stored.{StoresMore, stored, tokens_in};
ghost use Rattle.qc_receive.specs.Cutting.{rest_of};
ghost use Rattle.qc_receive.specs.Events.{GivesRight, IsExpected, LeavesBytes, handed_after, time_of_event};
ghost use Rattle.qc_receive.specs.FirstPacket.{IsFirstPacket, first_reason, size_of};
ghost use Rattle.qc_recovery.specs.Paths.{first_size};
ghost use Rattle.qc_state.specs.Receiving.{datagram_after, first_packet_after, is_taken};
ghost use Rattle.qc_state.specs.Setup.{is_first_awaited};
ghost use Rattle.qc_base.specs.declared.side.SpaceId.{SpaceId};
ghost use Rattle.qc_laws.specs.AckLaws.{AckHolds};
ghost use Rattle.qc_laws.specs.CryptoLaws.{CryptoKept};
ghost use Rattle.qc_laws.specs.EndLaws.{Ends};
ghost use Rattle.qc_laws.specs.EventLaws.{OnlyDoneWaits};
ghost use Rattle.qc_state.specs.First.{allowed_by, first_view, server_view, fixed_of};
ghost use Rattle.qc_state.specs.Life.{is_drained};
ghost use Rattle.qc_state.specs.Moves.{Ask, Call, state_move};
ghost use Rattle.qc_state.specs.Polls.{first_endpoint_event, first_event, polled, polled_endpoint};
ghost use Rattle.qc_cids.specs.Cids.{give_refusal};
ghost use Rattle.qc_conn.specs.Refusal.{bad_call};
ghost use Rattle.qc_state.specs.Run.{began, time_of, close_after, IsStep};
ghost use Rattle.qc_state.specs.Timeouts.{timeout_after};
ghost use Rattle.qc_laws.specs.CidLaws.{HasNewIds};
ghost use Rattle.qc_laws.specs.FitLaws.{SpaceKeysFit};
ghost use Rattle.qc_laws.specs.KeyLaws.{SparesKeys};
ghost use Rattle.qc_laws.specs.UpdateLaws.{AreLast};
ghost use Rattle.qc_laws.specs.IdLaws.{CarriesUsed};
ghost use Rattle.qc_laws.specs.PostLaws.{HasNewDatagrams};
ghost use Rattle.qc_laws.specs.ReadLaws.{HasNewStreams};
ghost use Rattle.qc_laws.specs.RetryLaws.{HasSpaceKeys};
ghost use Rattle.qc_laws.specs.StreamLaws.{IsUnread};
ghost use Rattle.qc_laws.specs.TimerLaws.{TimerHolds};
ghost use Rattle.qc_state.specs.Timers.{has_come, next_timeout};
ghost use Rattle.qc_state.specs.View.{at, ideal, held};
ghost use Rattle.qc_streams.specs.Counts.{by_dir};
ghost use Rattle.qc_streams.specs.Streams.{failed};
ghost use Rattle.qc_streams.specs.Settings.{max_concurrent_set, receive_window_set, send_window_set};
ghost use Rattle.qc_streams.specs.Waits.{ConcurrentSet, ReceiveWindowSet, SendWindowSet};

use crate::steps::{core_event, core_first, core_first_packet, core_send, core_step, core_timeout};
use crate::storing::store_all;
use bytes::{Bytes, BytesMut};
use qc_base::{Dir, EcnCodepoint, Fault, Instant, IssuedCid, Side, SpaceId, VarInt};
use qc_cids::GiveRefusal;
use qc_config::TokenStore;
use qc_core::Core;
use qc_header::InitialPacket;
use qc_making::{ClientSetup, ServerSetup};
use qc_receive::ConnectionEvent;
use qc_state::{
    Coming, ConnectionError, Dids, EndpointEvent, Event, Input, Means, Step, Suite, Transmit,
};
use std::alloc::{AllocError, Global};
use std::marker::Model;
use std::mem::replace;
use std::net::SocketAddr;

/// A connection. It does no input or output: inputs are handed in, and what is to be sent comes out of `poll_transmit`.
///
/// A call that answers `OutOfMemory` marks the connection as failed, be it one of its own or one of the views that it lends of its
/// streams; from then on each call that can want memory answers `Failed`, nothing is sealed and no packet number is taken. The mark
/// stands in the state of the streams, which the views share with it.
#[derive(Drop)]
pub struct Connection<U: Suite> {
    pub(crate) core: Core<U>,
    steps: u64,
    server_name: String,
    // the room for the deeds of calls, which no one keeps
    deeds: Dids,
}

/// Why a server that was handed its first packet doesn't go on.
#[derive(Debug, Drop, PartialEq, Eq)]
pub enum FirstError {
    /// The packet gave this reason for the connection's end. The connection reports it as well, once.
    Lost(ConnectionError),
    /// The call gave up.
    Fault(Fault),
}

impl<U: Suite> Model for Connection<U> {
    ghost use Rattle.std.specs.Prelude.{string_bytes};
    ghost use Rattle.qc_conn.specs.Seen.{Seen};

    ghost Value = { Seen (record { S = U.Session; H = U.Session.HeaderKey; P = U.Session.PacketKey; D = U.Session.HandshakeData; I = U.Session.PeerIdentity; C = U.Control.Controller; K = U.TokenKey; T = U.Time }) U.Random };

    ghost view = { λ c. record { core = c.core; failed = c.core.lower.streams.failed; steps = c.steps; name = string_bytes c.server_name } };
}

/// A token of this server, taken out of the store; one without bytes where the store has none.
fn token_of<G: TokenStore>(store: &mut G, server_name: &str) -> Result<Bytes, AllocError>
    ensures token { IfOk result (λ token. token ≡ unwrap_or (G.taken store.old server_name.now) []) }
    ensures store { OnOk result (store.new ≡ G.after_take store.old server_name.now) }
{
    match store.take(server_name)? {
        Some(token) => Ok(token),
        None => Ok(Bytes::new()),
    }
}

impl<U: Suite> Connection<U> {
    /// A client's connection, made at `now` of a client's session that has neither read nor written: its hello waits to be
    /// sealed. A token of the server's name is taken out of the store, where there is one, and the connection's Initial packets
    /// carry it (RFC 9000, 8.1.3).
    ///
    /// # Errors
    ///
    /// `AllocError` for want of memory alone. The store may have lost that token then.
    pub fn new_client<G: TokenStore>(
        alloc: Global,
        setup: ClientSetup<U>,
        store: &mut G,
        now: Instant,
    ) -> Result<Connection<U>, AllocError>
        requires fresh { U.Session.is_fresh setup.session }
        requires client { U.Session.side_of setup.session ≡ Side.Client }
        ensures made { IfOk result (λ c. (ideal U.Random.stream c.core) ≡ first_view ⟦<U as Means>⟧.meaning setup.session (U.Random.stream setup.random) (fixed_of Side.Client setup.version setup.local_cid setup.first_cid setup.cid_lifetime false setup.local_ip (allowed_by setup.allow_mtud setup.transport) setup.grease_quic_bit (U.Random.stream setup.random)) setup.remote setup.first_cid (unwrap_or (G.taken store.old (string_bytes setup.server_name)) []) (allowed_by setup.allow_mtud setup.transport) (U.Control.built setup.control now (first_size (allowed_by setup.allow_mtud setup.transport) None)) now) }
        ensures plain { IsPlainAddress setup.remote → IfOk result (λ c. IsPlainStart c.core.waiting c.core.paths c.core.life) }
        ensures told { IfOk result (λ c. OnlyDoneWaits c.core.life) }
        ensures ends { IfOk result (λ c. Ends (ideal U.Random.stream c.core)) }
        ensures last { IfOk result (λ c. AreLast (ideal U.Random.stream c.core)) }
        ensures crypto { IfOk result (λ c. (id : SpaceId) → CryptoKept id [] (ideal U.Random.stream c.core)) }
        ensures timer { IfOk result (λ c. TimerHolds false (ideal U.Random.stream c.core)) }
        ensures held { IfOk result (λ c. AckHolds (ideal U.Random.stream c.core)) }
        ensures unread { IfOk result (λ c. IsUnread (ideal U.Random.stream c.core)) }
        ensures streams { IfOk result (λ c. HasNewStreams (ideal U.Random.stream c.core)) }
        ensures datagrams { IfOk result (λ c. HasNewDatagrams (ideal U.Random.stream c.core)) }
        ensures ids { IfOk result (λ c. CarriesUsed (ideal U.Random.stream c.core)) }
        ensures new_ids { IfOk result (λ c. HasNewIds (ideal U.Random.stream c.core)) }
        ensures space_keys { IfOk result (λ c. HasSpaceKeys ⟦<U as Means>⟧.meaning (ideal U.Random.stream c.core)) }
        ensures own_keys { IfOk result (λ c. SpaceKeysFit ⟦<U as Means>⟧.meaning U.Session.Session (ideal U.Random.stream c.core)) }
        ensures spared { IfOk result (λ c. SparesKeys (ideal U.Random.stream c.core)) }
        ensures alive { IfOk result (λ c. c.failed ≡ false) }
        ensures name { IfOk result (λ c. c.name ≡ string_bytes setup.server_name) }
        ensures store { OnOk result (store.new ≡ G.after_take store.old (string_bytes setup.server_name)) }
    {
        let server_name = String::from_str(alloc, setup.server_name.as_str())?;
        let token = token_of(store, setup.server_name.as_str())?;
        let core = qc_making::new_client(alloc, setup, token, now)?;
        Ok(Connection {
            core,
            steps: 0,
            server_name,
            deeds: Dids::new(alloc),
        })
    }

    /// A server's connection, made at `now` of a server's session that has neither read nor written, for a client whose first
    /// packet came from `remote` with these ids: it waits for that packet.
    ///
    /// # Errors
    ///
    /// `AllocError` for want of memory alone.
    pub fn new_server(
        alloc: Global,
        setup: ServerSetup<U>,
        now: Instant,
    ) -> Result<Connection<U>, AllocError>
        requires fresh { U.Session.is_fresh setup.session }
        ensures made { IfOk result (λ c. (ideal U.Random.stream c.core) ≡ server_view ⟦<U as Means>⟧.meaning setup.session (U.Random.stream setup.random) (fixed_of Side.Server setup.version setup.local_cid setup.first_cid setup.cid_lifetime setup.preferred setup.local_ip (allowed_by setup.allow_mtud setup.transport) setup.grease_quic_bit (U.Random.stream setup.random)) setup.remote setup.remote_cid setup.validated (record { key = setup.token_key; time = setup.time; sent = setup.sent }) (allowed_by setup.allow_mtud setup.transport) (U.Control.built setup.control now (first_size (allowed_by setup.allow_mtud setup.transport) None)) now) }
        ensures plain { IsPlainAddress setup.remote → IfOk result (λ c. IsPlainStart c.core.waiting c.core.paths c.core.life) }
        ensures told { IfOk result (λ c. OnlyDoneWaits c.core.life) }
        ensures ends { IfOk result (λ c. Ends (ideal U.Random.stream c.core)) }
        ensures last { IfOk result (λ c. AreLast (ideal U.Random.stream c.core)) }
        ensures crypto { IfOk result (λ c. (id : SpaceId) → CryptoKept id [] (ideal U.Random.stream c.core)) }
        ensures timer { IfOk result (λ c. TimerHolds false (ideal U.Random.stream c.core)) }
        ensures held { IfOk result (λ c. AckHolds (ideal U.Random.stream c.core)) }
        ensures unread { IfOk result (λ c. IsUnread (ideal U.Random.stream c.core)) }
        ensures streams { IfOk result (λ c. HasNewStreams (ideal U.Random.stream c.core)) }
        ensures datagrams { IfOk result (λ c. HasNewDatagrams (ideal U.Random.stream c.core)) }
        ensures ids { IfOk result (λ c. CarriesUsed (ideal U.Random.stream c.core)) }
        ensures new_ids { IfOk result (λ c. HasNewIds (ideal U.Random.stream c.core)) }
        ensures space_keys { IfOk result (λ c. HasSpaceKeys ⟦<U as Means>⟧.meaning (ideal U.Random.stream c.core)) }
        ensures own_keys { IfOk result (λ c. SpaceKeysFit ⟦<U as Means>⟧.meaning U.Session.Session (ideal U.Random.stream c.core)) }
        ensures spared { IfOk result (λ c. SparesKeys (ideal U.Random.stream c.core)) }
        ensures alive { IfOk result (λ c. c.failed ≡ false) }
    {
        let core = qc_making::new_server(alloc, setup, now)?;
        Ok(Connection {
            core,
            steps: 0,
            server_name: String::new(alloc),
            deeds: Dids::new(alloc),
        })
    }

    /// Whether this is a server that waits for its first packet: then `first_datagram` takes what comes, and else `handle_event`.
    pub fn awaits_first(&self) -> bool
        ensures { result ≡ is_first_awaited self.now.core.setup }
    {
        self.core.setup.is_first_awaited()
    }

    /// A datagram came from `remote` at `now` to a server that waits for its first packet. True exactly where it is taken: the
    /// handshake goes on, it has at least 1200 bytes, it comes from the path's address, and it begins with an Initial packet
    /// with the ids that this end was made with, which opens and whose reserved bits are 0. Its token is then expected of the
    /// client's other Initial packets, and the datagram does what any other one does. Otherwise nothing changes but the
    /// greatest time that was told.
    ///
    /// # Errors
    ///
    /// `OutOfMemory` for want of memory; the connection is then marked as failed. `Failed` exactly where it was marked
    /// before; then nothing changes.
    pub fn first_datagram(
        &mut self,
        alloc: Global,
        now: Instant,
        remote: SocketAddr,
        ecn: Option<EcnCodepoint>,
        bytes: BytesMut,
    ) -> Result<bool, Fault>
        requires awaited { is_first_awaited self.old.core.setup ≡ true }
        ensures answer { IfOk result (λ taken. taken ≡ is_taken ⟦<U as Means>⟧.meaning (began (ideal U.Random.stream self.old.core) now).state remote bytes.items) }
        ensures leads { OnOk result ((ideal U.Random.stream self.new.core) ≡ (datagram_after ⟦<U as Means>⟧.meaning (record { time = now; remote = remote; mark = ecn }) bytes.items (began (ideal U.Random.stream self.old.core) now)).state) }
        ensures clock { OnOk result (self.new.core.timers.greatest ≡ max self.old.core.timers.greatest now) }
        ensures alive { OnOk result (self.new.failed ≡ false) }
        ensures failed { self.old.failed ≡ true → (result ≡ Err Fault.Failed) × (self.new ≡ self.old) }
        ensures cause { result ≡ Err Fault.Failed → self.old.failed ≡ true }
        ensures memory { result ≡ Err Fault.OutOfMemory → self.new.failed ≡ true }
    {
        if self.is_failed() {
            return Err(Fault::Failed);
        }
        let coming = Coming {
            time: now,
            remote,
            mark: ecn,
        };
        match core_first(&mut self.core, alloc, &coming, bytes) {
            Ok(taken) => Ok(taken),
            Err(_) => {
                self.fail();
                Err(Fault::OutOfMemory)
            }
        }
    }

    /// What an endpoint hands over, but for the tokens. Answers what was done. `OutOfMemory` for want of memory; the connection is then marked
    /// as failed. `Failed` exactly where it was marked before; then nothing changes.
    fn take_event(&mut self, alloc: Global, event: ConnectionEvent) -> Result<Dids, Fault>
        requires some { LeavesBytes event }
        requires given { GivesRight event self.old.core.lower.ids }
        ensures leads { IfOk result (λ did. (held U.Random.stream self.new.core did) ≡ handed_after ⟦<U as Means>⟧.meaning event (began (ideal U.Random.stream self.old.core) (time_of_event event))) }
        ensures clock { OnOk result (self.new.core.timers.greatest ≡ max self.old.core.timers.greatest (time_of_event event)) }
        ensures alive { OnOk result (self.new.failed ≡ false) }
        ensures failed { self.old.failed ≡ true → (result ≡ Err Fault.Failed) × (self.new ≡ self.old) }
        ensures cause { result ≡ Err Fault.Failed → self.old.failed ≡ true }
        ensures memory { result ≡ Err Fault.OutOfMemory → self.new.failed ≡ true }
        ensures name { self.new.name ≡ self.old.name }
    {
        if self.is_failed() {
            return Err(Fault::Failed);
        }
        let room = replace(&mut self.deeds, Dids::new(alloc));
        match core_event(&mut self.core, alloc, event, room) {
            Ok(did) => Ok(did),
            Err(_) => {
                self.fail();
                Err(Fault::OutOfMemory)
            }
        }
    }

    /// Lets go of deeds, and keeps their room.
    fn keep_room(&mut self, did: Dids)
        ensures { self.new ≡ self.old }
    {
        let mut did = did;
        did.clear();
        self.deeds = did;
    }

    /// The tokens of what was done go into the store under the server's name. Want of memory is the only refusal: the first of them may be there
    /// then, and the connection is marked as failed.
    pub(crate) fn store_tokens<G: TokenStore>(
        &mut self,
        alloc: Global,
        did: &Dids,
        store: &mut G,
    ) -> Result<(), AllocError>
        ensures kept { OnOk result (self.new ≡ self.old) }
        ensures mark { OnErr result (self.new.failed ≡ true) }
        ensures steps { self.new.steps ≡ self.old.steps }
        ensures name { self.new.name ≡ self.old.name }
        ensures store { OnOk result (store.new ≡ stored G.inserted self.old.name (tokens_in did.now) store.old) }
        ensures store_part { OnErr result (StoresMore G.inserted self.old.name store.old store.new) }
    {
        match store_all(alloc, store, self.server_name.as_str(), did.as_slice()) {
            Ok(()) => Ok(()),
            Err(e) => {
                self.fail();
                Err(e)
            }
        }
    }

    /// An endpoint hands over what came: a datagram that it cut with this connection's version, the length of its ids and its
    /// word on the fixed bit, as `PartialDecode::new` gave its first packet and what is behind it: `remaining` is None where
    /// nothing is, and never has no bytes. The datagram does what it does whole at an end that doesn't wait for its first packet.
    /// Or it gives ids of this end for the peer to use (RFC 9000, 5.1.1): no more than `NeedIdentifiers` and `RetireConnectionId` asked
    /// for, with the next sequence numbers, and as long as this end's. The tokens of the NEW_TOKEN frames of admitted packets go into the store, in
    /// order, under the server's name (RFC 9000, 8.1.3).
    ///
    /// # Errors
    ///
    /// `OutOfMemory` for want of memory; the connection is then marked as failed. `Failed` exactly where it was marked
    /// before; then nothing changes.
    pub fn handle_event<G: TokenStore>(
        &mut self,
        alloc: Global,
        event: ConnectionEvent,
        store: &mut G,
    ) -> Result<(), Fault>
        requires heard { IsExpected event (is_first_awaited self.old.core.setup) }
        requires some { LeavesBytes event }
        requires given { GivesRight event self.old.core.lower.ids }
        ensures leads { OnOk result ((ideal U.Random.stream self.new.core) ≡ (handed_after ⟦<U as Means>⟧.meaning event (began (ideal U.Random.stream self.old.core) (time_of_event event))).state) }
        ensures clock { OnOk result (self.new.core.timers.greatest ≡ max self.old.core.timers.greatest (time_of_event event)) }
        ensures alive { OnOk result (self.new.failed ≡ false) }
        ensures failed { self.old.failed ≡ true → (result ≡ Err Fault.Failed) × (self.new ≡ self.old) }
        ensures cause { result ≡ Err Fault.Failed → self.old.failed ≡ true }
        ensures memory { result ≡ Err Fault.OutOfMemory → self.new.failed ≡ true }
        ensures store { OnOk result (store.new ≡ stored G.inserted self.old.name (tokens_in (handed_after ⟦<U as Means>⟧.meaning event (began (ideal U.Random.stream self.old.core) (time_of_event event))).did) store.old) }
        ensures store_part { OnErr result (StoresMore G.inserted self.old.name store.old store.new) }
        ensures unstored { result ≡ Err Fault.Failed → store.new ≡ store.old }
    {
        match self.take_event(alloc, event) {
            Ok(did) => match self.store_tokens(alloc, &did, store) {
                Ok(()) => {
                    self.keep_room(did);
                    Ok(())
                }
                Err(_) => Err(Fault::OutOfMemory),
            },
            Err(fault) => Err(fault),
        }
    }

    /// An endpoint hands a server its first packet, which it opened itself: the packet came from `remote` at `now` in front of
    /// `remaining`, which is None where nothing is behind it, and never has no bytes. The endpoint has seen that it opens under
    /// the Initial keys of the packet's destination id, with this whole number, and that its reserved bits are 0: of an opened
    /// packet this can't be seen any more. Its token is then expected of the client's other Initial packets, it does what a packet
    /// does that opened, and so do the packets behind it.
    ///
    /// # Errors
    ///
    /// `Lost` exactly where this packet gave a reason for the connection's end; all is done then as well, and the reason is
    /// reported by `poll` too. `OutOfMemory` for want of memory; the connection is then marked as failed. `Failed` exactly
    /// where it was marked before; then nothing changes.
    pub fn handle_first_packet(
        &mut self,
        alloc: Global,
        now: Instant,
        remote: SocketAddr,
        ecn: Option<EcnCodepoint>,
        packet_number: u64,
        packet: InitialPacket,
        remaining: Option<BytesMut>,
    ) -> Result<(), FirstError>
        requires first { IsFirstPacket self.old.core remote packet_number packet (rest_of remaining) }
        requires some { IfSome remaining (λ b. 0 < length b.items) }
        ensures answer { OnDone result (lost_of result ≡ first_reason ⟦<U as Means>⟧.meaning (record { time = now; remote = remote; mark = ecn }) packet.header.src_cid packet.header.token packet_number packet.payload.items (began (ideal U.Random.stream self.old.core) now)) }
        ensures leads { OnDone result ((ideal U.Random.stream self.new.core) ≡ (first_packet_after ⟦<U as Means>⟧.meaning (record { time = now; remote = remote; mark = ecn }) packet.header.src_cid packet.header.token packet_number packet.payload.items (rest_of remaining) (size_of packet (rest_of remaining)) (began (ideal U.Random.stream self.old.core) now)).state) }
        ensures clock { OnDone result (self.new.core.timers.greatest ≡ max self.old.core.timers.greatest now) }
        ensures alive { OnDone result (self.new.failed ≡ false) }
        ensures failed { self.old.failed ≡ true → (result ≡ Err (FirstError.Fault Fault.Failed)) × (self.new ≡ self.old) }
        ensures cause { result ≡ Err (FirstError.Fault Fault.Failed) → self.old.failed ≡ true }
        ensures memory { result ≡ Err (FirstError.Fault Fault.OutOfMemory) → self.new.failed ≡ true }
    {
        if self.is_failed() {
            return Err(FirstError::Fault(Fault::Failed));
        }
        let coming = Coming {
            time: now,
            remote,
            mark: ecn,
        };
        match core_first_packet(
            &mut self.core,
            alloc,
            &coming,
            packet_number,
            packet,
            remaining,
        ) {
            Ok(None) => Ok(()),
            Ok(Some(why)) => Err(FirstError::Lost(why)),
            Err(_) => {
                self.fail();
                Err(FirstError::Fault(Fault::OutOfMemory))
            }
        }
    }

    /// Timers may have come by `now`: each that has, to that time or an earlier one, does what it is for, in this order. The loss
    /// timer: packets are lost, whose frames wait again, or probes are due (RFC 9002, 6.1.2 and 6.2.4); it is set anew. The idle
    /// timer: the connection ends at once, for `TimedOut`. The close timer: the connection, which closed before, ends. The timer of
    /// old keys: 1-RTT keys of the epoch before are dropped (RFC 9001, 6.5). The pacing timer: a datagram that the pacer held back
    /// may go, by a transmit. The timer of this end's ids: the peer is asked to retire those that have grown old, and others are
    /// wanted in their place (RFC 9000, 5.1.1). The timer of an ACK that was held back: it is owed at last (RFC 9000, 13.2.1).
    /// Afterwards none of these six is left that has come; the loss timer may stand at a time that has come again, as a probe
    /// timeout counts from the last packet that was sent. In a connection that had ended nothing happens.
    ///
    /// # Errors
    ///
    /// `OutOfMemory` for want of memory; the connection is then marked as failed. `Failed` exactly where it was marked
    /// before; then nothing changes.
    pub fn handle_timeout(&mut self, alloc: Global, now: Instant) -> Result<(), Fault>
        ensures leads { OnOk result ((ideal U.Random.stream self.new.core) ≡ (timeout_after ⟦<U as Means>⟧.meaning now (began (ideal U.Random.stream self.old.core) now)).state) }
        ensures idle { OnOk result (is_drained self.old.core.life.state ≡ false → has_come self.new.core.timers.idle now ≡ false) }
        ensures close { OnOk result (is_drained self.old.core.life.state ≡ false → has_come self.new.core.timers.close now ≡ false) }
        ensures keys { OnOk result (is_drained self.old.core.life.state ≡ false → has_come self.new.core.timers.key_discard now ≡ false) }
        ensures paced { OnOk result (is_drained self.old.core.life.state ≡ false → has_come self.new.core.timers.pacing now ≡ false) }
        ensures aged { OnOk result (is_drained self.old.core.life.state ≡ false → has_come self.new.core.timers.push_new_cid now ≡ false) }
        ensures held { OnOk result (is_drained self.old.core.life.state ≡ false → has_come self.new.core.timers.max_ack_delay now ≡ false) }
        ensures clock { OnOk result (self.new.core.timers.greatest ≡ max self.old.core.timers.greatest now) }
        ensures alive { OnOk result (self.new.failed ≡ false) }
        ensures failed { self.old.failed ≡ true → (result ≡ Err Fault.Failed) × (self.new ≡ self.old) }
        ensures cause { result ≡ Err Fault.Failed → self.old.failed ≡ true }
        ensures memory { result ≡ Err Fault.OutOfMemory → self.new.failed ≡ true }
    {
        if self.is_failed() {
            return Err(Fault::Failed);
        }
        match core_timeout(&mut self.core, alloc, now) {
            Ok(()) => Ok(()),
            Err(_) => {
                self.fail();
                Err(Fault::OutOfMemory)
            }
        }
    }

    /// Seals what is due at `now` into `buf`, which is empty, and says where it goes: at most `max_datagrams` datagrams, or one where the
    /// configuration allows no segmentation. None exactly where nothing is sealed: the connection had ended, nothing was owed, the path is
    /// blocked, or a limit is reached, which ends the connection: the key has sealed as many packets as it may, the packet
    /// numbers are used up, or an Initial packet's token leaves no room for a close. Behind a packet whose key may seal only one more the connection closes.
    ///
    /// # Errors
    ///
    /// `OutOfMemory` for want of memory; the connection is then marked as failed, and `buf` is empty. `Failed` exactly
    /// where it was marked before; then nothing changes.
    pub fn poll_transmit(
        &mut self,
        alloc: Global,
        now: Instant,
        max_datagrams: usize,
        buf: &mut Vec<u8>,
    ) -> Result<Option<Transmit>, Fault>
        requires some { 1 ≤ max_datagrams }
        requires empty { buf.old.items ≡ [] }
        ensures sends { IfOk result (λ sent. Sends ⟦<U as Means>⟧.meaning now max_datagrams (ideal U.Random.stream self.old.core) (ideal U.Random.stream self.new.core) sent buf.new.items) }
        ensures datagrams { IfOk result (λ sent. SendsSealed ⟦<U as Means>⟧.meaning (ideal U.Random.stream self.old.core) sent buf.new.items) }
        ensures clock { OnOk result (self.new.core.timers.greatest ≡ max self.old.core.timers.greatest now) }
        ensures alive { OnOk result (self.new.failed ≡ false) }
        ensures failed { self.old.failed ≡ true → (result ≡ Err Fault.Failed) × (self.new ≡ self.old) }
        ensures cause { result ≡ Err Fault.Failed → self.old.failed ≡ true }
        ensures memory { result ≡ Err Fault.OutOfMemory → self.new.failed ≡ true }
        ensures cut_back { OnErr result (buf.new.items ≡ []) }
    {
        if self.is_failed() {
            return Err(Fault::Failed);
        }
        match core_send(
            &mut self.core,
            alloc,
            now,
            max_datagrams,
            buf,
            &mut self.deeds,
        ) {
            Ok(sent) => Ok(sent),
            Err(_) => {
                self.fail();
                buf.clear();
                Err(Fault::OutOfMemory)
            }
        }
    }

    /// The application closes the connection at `now` (RFC 9000, 10.2): from now on all that is sent is the close, which
    /// tells the peer the code and the reason once the handshake is over, and before only that this end closed. A later
    /// close changes nothing but the greatest time that was told. Neither takes memory.
    pub fn close(&mut self, now: Instant, error_code: VarInt, reason: Bytes)
        ensures leads { (ideal U.Random.stream self.new.core) ≡ (close_after now error_code reason (began (ideal U.Random.stream self.old.core) now)).state }
        ensures clock { self.new.core.timers.greatest ≡ max self.old.core.timers.greatest now }
        ensures mark { self.new.failed ≡ self.old.failed }
    {
        self.core.clock(now);
        let _raised = self.core.close(now, error_code, reason);
    }

    /// A PING is owed from now on in the highest space (RFC 9000, 19.2).
    pub fn ping(&mut self)
        ensures leads { (ideal U.Random.stream self.new.core) ≡ state_move (Ask self.old.core.keys.highest) (ideal U.Random.stream self.old.core) }
        ensures mark { self.new.failed ≡ self.old.failed }
    {
        self.core.ping();
    }

    /// This end updates its 1-RTT keys, where it may: the connection is established, no keys of the epoch before are kept, and a packet of
    /// this epoch was acknowledged (RFC 9001, 6.1 and 6.5). Answers whether it may; else nothing changes. It takes no memory.
    pub fn force_key_update(&mut self) -> bool
        ensures may { result ≡ may_update_now (ideal U.Random.stream self.old.core) }
        ensures leads { (ideal U.Random.stream self.new.core) ≡ (updated_after ⟦<U as Means>⟧.meaning (at (ideal U.Random.stream self.old.core) [])).state }
        ensures mark { self.new.failed ≡ self.old.failed }
        ensures kept { result ≡ false → self.new ≡ self.old }
        ensures rises { result ≡ true → IsSome (fresh_now ⟦<U as Means>⟧.meaning (ideal U.Random.stream self.old.core)) → epoch_in self.new.core.keys OneRtt ≡ plus (epoch_in self.old.core.keys OneRtt) 1 }
    {
        self.core.update()
    }

    /// The same as `force_key_update`.
    pub fn initiate_key_update(&mut self) -> bool
        ensures may { result ≡ may_update_now (ideal U.Random.stream self.old.core) }
        ensures leads { (ideal U.Random.stream self.new.core) ≡ (updated_after ⟦<U as Means>⟧.meaning (at (ideal U.Random.stream self.old.core) [])).state }
        ensures mark { self.new.failed ≡ self.old.failed }
        ensures kept { result ≡ false → self.new ≡ self.old }
        ensures rises { result ≡ true → IsSome (fresh_now ⟦<U as Means>⟧.meaning (ideal U.Random.stream self.old.core)) → epoch_in self.new.core.keys OneRtt ≡ plus (epoch_in self.old.core.keys OneRtt) 1 }
    {
        self.force_key_update()
    }

    /// The next event for the application. None exactly where none waits.
    pub fn poll(&mut self) -> Option<Event>
        ensures event { result ≡ first_event (ideal U.Random.stream self.old.core) }
        ensures leads { (ideal U.Random.stream self.new.core) ≡ polled (ideal U.Random.stream self.old.core) }
        ensures mark { self.new.failed ≡ self.old.failed }
    {
        self.core.poll()
    }

    /// The next event for the endpoint. None exactly where none waits.
    pub fn poll_endpoint_events(&mut self) -> Option<EndpointEvent>
        ensures event { result ≡ first_endpoint_event (ideal U.Random.stream self.old.core) }
        ensures leads { (ideal U.Random.stream self.new.core) ≡ polled_endpoint (ideal U.Random.stream self.old.core) }
        ensures mark { self.new.failed ≡ self.old.failed }
    {
        self.core.poll_endpoint_events()
    }

    /// The time at which the connection wants to be called again, in nanoseconds. None exactly where no timer is set.
    pub fn poll_timeout(&self) -> Option<Instant>
        ensures { result ≡ next_timeout self.now.core.timers }
    {
        self.core.poll_timeout()
    }

    /// A connection of this core, whose server has no name, and which has failed where the core's streams are so marked.
    pub fn from_core(alloc: Global, core: Core<U>) -> Connection<U>
        ensures core { result.core ≡ core }
        ensures mark { result.failed ≡ core.lower.streams.failed }
        ensures name { result.name ≡ [] }
    {
        Connection {
            core,
            steps: 0,
            server_name: String::new(alloc),
            deeds: Dids::new(alloc),
        }
    }

    /// One input of `drive`: the call, and the reports after it.
    pub(crate) fn call(&mut self, alloc: Global, at: u64, input: &Input) -> Result<Step, Fault>
        requires forward { self.old.core.timers.greatest ≤ time_of input.now }
        requires good { bad_call (ideal U.Random.stream self.old.core) input.now ≡ None }
        ensures step { IfOk result (λ x. IsStep ⟦<U as Means>⟧.meaning at (ideal U.Random.stream self.old.core) input.now x (ideal U.Random.stream self.new.core)) }
        ensures alive { OnOk result (self.new.failed ≡ false) }
        ensures failed { self.old.failed ≡ true → (result ≡ Err Fault.Failed) × (self.new ≡ self.old) }
        ensures cause { result ≡ Err Fault.Failed → self.old.failed ≡ true }
        ensures memory { result ≡ Err Fault.OutOfMemory → self.new.failed ≡ true }
        ensures count { self.new.steps ≡ self.old.steps }
        ensures name { self.new.name ≡ self.old.name }
    {
        if self.is_failed() {
            return Err(Fault::Failed);
        }
        match core_step(&mut self.core, alloc, at, input) {
            Ok(step) => Ok(step),
            Err(_) => {
                self.fail();
                Err(Fault::OutOfMemory)
            }
        }
    }

    /// The greatest time that the connection was told, its creation included.
    pub(crate) fn greatest(&self) -> Instant
        ensures { result ≡ self.now.core.timers.greatest }
    {
        self.core.greatest()
    }

    /// Why ids may not be given to `handle_event`, if they may not: the first reason that holds, of more than are asked for, a number
    /// that isn't the next one, and a length that isn't this end's (RFC 9000, 5.1.1).
    pub fn give_refusal(&self, ids: &[IssuedCid]) -> Option<GiveRefusal>
        ensures { result ≡ give_refusal ids.now self.now.core.lower.ids }
    {
        self.core.lower.ids.give_refusal(ids)
    }

    /// This end's side.
    pub(crate) fn side(&self) -> Side
        ensures { result ≡ self.now.core.setup.fixed.side }
    {
        self.core.setup.fixed.side
    }

    /// Whether a call met want of memory, be it one of a view: each call that can want memory then answers `Failed`.
    pub fn is_failed(&self) -> bool
        ensures { result ≡ self.now.failed }
    {
        self.core.lower.streams.failed
    }

    /// Marks the connection as failed.
    pub(crate) fn fail(&mut self)
        ensures { self.new ≡ with_streams self.old (failed self.old.core.lower.streams) }
    {
        self.core.lower.streams.failed = true;
    }

    /// How many steps `drive` gave of this connection, as far as the type counts.
    pub(crate) fn steps(&self) -> u64
        ensures steps { result ≡ self.now.steps }
        ensures fits { self.now.steps ≤ 18446744073709551615 }
    {
        self.steps
    }

    /// `drive` gave one step more of it.
    pub(crate) fn count(&mut self)
        ensures count { self.new.steps ≡ counted self.old.steps 1 }
        ensures name { self.new.name ≡ self.old.name }
        ensures mark { self.new.failed ≡ self.old.failed }
        ensures core { self.new.core ≡ self.old.core }
    {
        self.steps = self.steps.saturating_add(1);
    }
}

#[tactic(auto, unfolding(qc_state::specs::Moves::state_move, qc_state::specs::Moves::numbers_move, qc_state::specs::Moves::keys_move, qc_state::specs::Moves::life_move, qc_state::specs::Moves::paths_move, qc_state::specs::Moves::timers_move, qc_state::specs::Moves::waiting_move, qc_state::specs::Moves::setup_move, qc_state::specs::Moves::lower_move, qc_state::specs::Lower::streams_stepped, qc_streams::specs::Waits::after, qc_streams::specs::Waits::after_step), using(crate::proofs::MarkSteps::concurrent_mark, crate::proofs::MarkSteps::send_window_mark, crate::proofs::MarkSteps::receive_window_mark))]
impl<U: Suite> Connection<U> {
    /// Sets how many streams of a direction the peer may have open at a time (RFC 9000, 4.6): more may be opened at once, fewer as streams
    /// end. It takes no memory, and is done of a connection that has failed too.
    pub fn set_max_concurrent_streams(&mut self, dir: Dir, count: VarInt)
        ensures leads { (ideal U.Random.stream self.new.core) ≡ state_move (Call (ConcurrentSet dir count)) (ideal U.Random.stream self.old.core) }
        ensures set { self.new.core.lower.streams ≡ max_concurrent_set dir count self.old.core.lower.streams }
        ensures mark { self.new.failed ≡ self.old.failed }
    {
        self.core
            .lower
            .streams
            .set_max_concurrent_streams(dir, count);
    }

    /// How many streams of a direction the peer may have open at a time.
    pub fn max_concurrent_streams(&self, dir: Dir) -> u64
        ensures { result ≡ (by_dir dir self.now.core.lower.streams.peer).concurrent }
    {
        self.core.lower.streams.max_concurrent(dir)
    }

    /// Sets how many bytes may be kept until they are acknowledged, on all streams. It takes no memory, and is done of a connection that
    /// has failed too.
    pub fn set_send_window(&mut self, send_window: u64)
        ensures leads { (ideal U.Random.stream self.new.core) ≡ state_move (Call (SendWindowSet send_window)) (ideal U.Random.stream self.old.core) }
        ensures set { self.new.core.lower.streams ≡ send_window_set send_window self.old.core.lower.streams }
        ensures mark { self.new.failed ≡ self.old.failed }
    {
        self.core.lower.streams.set_send_window(send_window);
    }

    /// Sets how many bytes may be underway or unread, on all streams (RFC 9000, 4.1): a lower window takes no credit back. It takes no
    /// memory, and is done of a connection that has failed too.
    pub fn set_receive_window(&mut self, receive_window: VarInt)
        ensures leads { (ideal U.Random.stream self.new.core) ≡ state_move (Call (ReceiveWindowSet receive_window)) (ideal U.Random.stream self.old.core) }
        ensures set { self.new.core.lower.streams ≡ receive_window_set receive_window self.old.core.lower.streams }
        ensures mark { self.new.failed ≡ self.old.failed }
    {
        self.core.lower.streams.set_receive_window(receive_window);
    }
}
