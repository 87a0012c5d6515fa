//! Driving a connection: inputs in, the trace out.

ghost use Rattle.std.specs.Prelude.{◌≡◌, ◌≢◌, ◌≤◌, ◌<◌, ◌++◌, ◌∷◌, ℕ, List, [], length, true, false, None, OnOk, OnErr, IfOk, IfErr, IsErr};
ghost use Rattle.std.specs.List.{All};
ghost use Rattle.qc_text.specs.OneText.{IsPlain, IsPlainStart};
ghost use Rattle.qc_conn.specs.Refusal.{bad_call, bad_direction, bad_ids, refusal_of, NamesInput, RefusedAt, TakesAll};
ghost use Rattle.qc_conn.specs.Seen.{KeepsCredit, counted};
ghost use Rattle.qc_base.specs.declared.side.SpaceId.{SpaceId};
ghost use Rattle.qc_laws.specs.AckLaws.{AckHolds, EachHoldsAck};
ghost use Rattle.qc_laws.specs.AckedLaws.{AcksFrames};
ghost use Rattle.qc_laws.specs.BytesLaws.{KeepsWritten};
ghost use Rattle.qc_laws.specs.CidLaws.{HasNewIds, KeepsLength, TellsIssued, UsesPeers};
ghost use Rattle.qc_laws.specs.CryptoLaws.{KeepsBytes};
ghost use Rattle.qc_laws.specs.EndLaws.{Ends};
ghost use Rattle.qc_conn.specs.Stored.{StoresMore, StoresPart, StoresStep, stored, tokens_in};
ghost use Rattle.qc_laws.specs.EventLaws.{EachTells, OnlyDoneWaits, TellsOnce, untold_of};
ghost use Rattle.qc_laws.specs.InitialLaws.{LeavesInitial};
ghost use Rattle.qc_laws.specs.FitLaws.{SpaceKeysFit};
ghost use Rattle.qc_laws.specs.KeyLaws.{CountsBehind, EachLimitEnds, KeysHold, SparesKeys};
ghost use Rattle.qc_laws.specs.MarkLaws.{EachTold};
ghost use Rattle.qc_laws.specs.IdLaws.{FoldsIds, IdsHold};
ghost use Rattle.qc_laws.specs.PathLaws.{PathHolds, all_from};
ghost use Rattle.qc_laws.specs.PieceLaws.{EachTellsPieces};
ghost use Rattle.qc_state.specs.Headline.{deeds_of, EachRises, EachAdmitted, EachAcksKnown, Harmless, LifeRises, OnlyCloses, LosesOnce};
ghost use Rattle.qc_laws.specs.PostLaws.{FoldsPosts, HasNewDatagrams, SealsSent, TakesTrace};
ghost use Rattle.qc_laws.specs.ReadLaws.{HasNewStreams, ReadsTrace};
ghost use Rattle.qc_laws.specs.ReasonLaws.{EndsBehind, EachCauses};
ghost use Rattle.qc_state.specs.Life.{rank_of};
ghost use Rattle.qc_laws.specs.RetryLaws.{AreOfInputs, EachMismatch, HasSpaceKeys, TakesOneRetry};
ghost use Rattle.qc_laws.specs.WriteLaws.{SealsWritten};
ghost use Rattle.qc_laws.specs.SealLaws.{EachSealsAnswer};
ghost use Rattle.qc_laws.specs.RecoveryLaws.{EachSettlesOnce, Recovers};
ghost use Rattle.qc_state.specs.Run.{time_of, Adds, Run, Ran};
ghost use Rattle.qc_laws.specs.StreamLaws.{GivesStream};
ghost use Rattle.qc_laws.specs.StreamsLaws.{FoldsStreams};
ghost use Rattle.qc_laws.specs.TimerLaws.{KeepsTimer};
ghost use Rattle.qc_laws.specs.UpdateLaws.{AreLast, FoldsKeys, KeepsEpochs};
ghost use Rattle.qc_state.specs.View.{ideal};

use crate::connection::Connection;
use crate::directions::{receives_on, sends_on};
use crate::steps::time;
use qc_base::{Instant, StreamId};
use qc_cids::GiveRefusal;
use qc_config::TokenStore;
use qc_state::{Input, Means, Step, Suite, Trace};
use std::alloc::{AllocError, Global};

/// What is wrong with a call that its input asks for.
#[derive(Clone, Copy, Debug, PartialEq, Eq)]
pub enum BadWhy {
    /// A transmit that may send no datagram.
    ZeroDatagrams,
    /// A call of a stream whose direction doesn't allow it to this end (RFC 9000, 2.1).
    Direction {
        /// The stream.
        id: StreamId,
    },
    /// More ids are given than were asked for (RFC 9000, 5.1.1).
    NotAsked {
        /// How many were asked for, and not given so far.
        asked: u64,
        /// How many are given.
        given: u64,
    },
    /// An id has another sequence number than the next one.
    Sequence {
        /// The next one.
        wanted: u64,
        /// The id's.
        given: u64,
    },
    /// An id has another length than this end's ids.
    IdLength {
        /// How many bytes these have.
        wanted: usize,
        /// How many it has.
        given: usize,
    },
}

/// Why `drive` stopped.
#[derive(Clone, Copy, Debug, PartialEq, Eq)]
pub enum DriveKind {
    /// There was no memory. The connection is then marked as failed.
    OutOfMemory,
    /// The time of an input lies before the greatest time so far, the connection's creation included.
    TimeBack {
        /// The input's place in the list of inputs.
        at: u64,
        /// The input's time.
        given: Instant,
        /// The greatest time so far.
        greatest: Instant,
    },
    /// An input asks for a call that can't be made.
    BadCall {
        /// The input's place in the list of inputs.
        at: u64,
        /// What is wrong with the call.
        why: BadWhy,
    },
    /// The connection had met want of memory before this call.
    Failed,
}

/// Why `drive` stopped, and the steps of the inputs before.
#[derive(Drop)]
pub struct DriveError {
    /// The steps of the inputs before the one that was refused.
    pub done: Trace,
    /// Why it was refused.
    pub kind: DriveKind,
}

/// A step is put at the trace's end, and its tokens into the store. After want of memory the trace is as before, the connection is marked as
/// failed, and the store may have the first tokens.
fn keep_step<U: Suite, G: TokenStore>(
    connection: &mut Connection<U>,
    alloc: Global,
    step: Step,
    trace: &mut Trace,
    store: &mut G,
) -> Result<(), AllocError>
    ensures core { OnOk result (connection.new.core ≡ connection.old.core) }
    ensures alive { OnOk result (connection.new.failed ≡ connection.old.failed) }
    ensures mark { OnErr result (connection.new.failed ≡ true) }
    ensures trace { OnOk result (trace.new ≡ trace.old ++ step ∷ []) }
    ensures kept { OnErr result (trace.new ≡ trace.old) }
    ensures count { OnOk result (connection.new.steps ≡ counted connection.old.steps 1) }
    ensures uncounted { OnErr result (connection.new.steps ≡ connection.old.steps) }
    ensures name { connection.new.name ≡ connection.old.name }
    ensures store { OnOk result (store.new ≡ stored G.inserted connection.old.name (tokens_in step.did) store.old) }
    ensures store_part { OnErr result (StoresMore G.inserted connection.old.name store.old store.new) }
{
    match connection.store_tokens(alloc, &step.did, store) {
        Ok(()) => match trace.push(step) {
            Ok(()) => {
                connection.count();
                Ok(())
            }
            Err(e) => {
                connection.fail();
                Err(e)
            }
        },
        Err(e) => Err(e),
    }
}

/// One input more: its step is put at the trace's end. After want of memory the trace is as before, and the connection
/// is marked as failed.
fn add_step<U: Suite, G: TokenStore>(
    connection: &mut Connection<U>,
    alloc: Global,
    at: u64,
    input: &Input,
    trace: &mut Trace,
    store: &mut G,
) -> Result<(), AllocError>
    requires alive { connection.old.failed ≡ false }
    requires forward { connection.old.core.timers.greatest ≤ time_of input.now }
    requires good { bad_call (ideal U.Random.stream connection.old.core) input.now ≡ None }
    ensures adds { OnOk result (Adds ⟦<U as Means>⟧.meaning at (ideal U.Random.stream connection.old.core) input.now (ideal U.Random.stream connection.new.core) trace.old trace.new) }
    ensures time { OnOk result (connection.new.core.timers.greatest ≡ time_of input.now) }
    ensures alive { OnOk result (connection.new.failed ≡ false) }
    ensures mark { OnErr result (connection.new.failed ≡ true) }
    ensures kept { OnErr result (trace.new ≡ trace.old) }
    ensures count { OnOk result (connection.new.steps ≡ counted connection.old.steps 1) }
    ensures uncounted { OnErr result (connection.new.steps ≡ connection.old.steps) }
    ensures name { connection.new.name ≡ connection.old.name }
    ensures store { OnOk result (StoresStep G.inserted connection.old.name trace.old trace.new store.old store.new) }
    ensures store_part { OnErr result (StoresMore G.inserted connection.old.name store.old store.new) }
{
    match connection.call(alloc, at, input) {
        Ok(step) => match keep_step(connection, alloc, step, trace, store) {
            Ok(()) => Ok(()),
            Err(e) => Err(e),
        },
        Err(_) => Err(AllocError),
    }
}

/// What is wrong with a call of this stream, whose direction allows it or not.
fn bad_direction(allowed: bool, id: StreamId) -> Option<BadWhy>
    ensures { result ≡ bad_direction allowed id }
{
    if allowed {
        None
    } else {
        Some(BadWhy::Direction { id })
    }
}

/// What is wrong with ids that are given, if anything is.
fn bad_ids(refusal: Option<GiveRefusal>) -> Option<BadWhy>
    ensures { result ≡ bad_ids refusal }
{
    match refusal {
        None => None,
        Some(GiveRefusal::NotAsked { asked, given }) => Some(BadWhy::NotAsked { asked, given }),
        Some(GiveRefusal::Sequence { wanted, given }) => Some(BadWhy::Sequence { wanted, given }),
        Some(GiveRefusal::IdLength { wanted, given }) => Some(BadWhy::IdLength { wanted, given }),
    }
}

/// What is wrong with the call that the input asks for of the connection, if anything is.
#[tactic(auto, unfolding(qc_state::specs::Setup::ideal_setup))]
fn bad_call<U: Suite>(connection: &Connection<U>, input: &Input) -> Option<BadWhy>
    ensures { result ≡ bad_call (ideal U.Random.stream connection.now.core) input.now }
{
    let side = connection.side();
    match input {
        Input::Transmit { max_datagrams, .. } => {
            if *max_datagrams == 0 {
                return Some(BadWhy::ZeroDatagrams);
            }
            None
        }
        Input::Write { id, .. } => bad_direction(sends_on(side, *id), *id),
        Input::Finish { id, .. } => bad_direction(sends_on(side, *id), *id),
        Input::ResetSend { id, .. } => bad_direction(sends_on(side, *id), *id),
        Input::StopRecv { id, .. } => bad_direction(receives_on(side, *id), *id),
        Input::Read { id, .. } => bad_direction(receives_on(side, *id), *id),
        Input::Identifiers { ids, .. } => bad_ids(connection.give_refusal(ids.as_slice())),
        Input::Datagram { .. }
        | Input::Timeout { .. }
        | Input::Open { .. }
        | Input::Accept { .. }
        | Input::Close { .. }
        | Input::Ping { .. }
        | Input::Update { .. }
        | Input::SendDatagram { .. }
        | Input::RecvDatagram { .. }
        | Input::MaxStreams { .. }
        | Input::SendWindow { .. }
        | Input::ReceiveWindow { .. } => None,
    }
}

/// Why the connection refuses the input at this place, if it does.
fn refusal<U: Suite>(connection: &Connection<U>, at: u64, input: &Input) -> Option<DriveKind>
    ensures { result ≡ refusal_of at (ideal U.Random.stream connection.now.core) input.now }
{
    let given = time(input);
    let greatest = connection.greatest();
    if given.nanos() < greatest.nanos() {
        return Some(DriveKind::TimeBack {
            at,
            given,
            greatest,
        });
    }
    match bad_call(connection, input) {
        Some(why) => Some(DriveKind::BadCall { at, why }),
        None => None,
    }
}

/// Hands the inputs to a connection that hasn't failed.
fn drive_all<U: Suite, G: TokenStore>(
    connection: &mut Connection<U>,
    alloc: Global,
    inputs: &[Input],
    store: &mut G,
) -> Result<Trace, DriveError>
    requires alive { connection.old.failed ≡ false }
    ensures run { IfOk result (λ trace. Run ⟦<U as Means>⟧.meaning 0 (ideal U.Random.stream connection.old.core) inputs.now trace (ideal U.Random.stream connection.new.core)) }
    ensures valid { IfOk result (λ trace. TakesAll ⟦<U as Means>⟧.meaning 0 (ideal U.Random.stream connection.old.core) inputs.now trace (ideal U.Random.stream connection.new.core)) }
    ensures part { IfErr result (λ e. Ran ⟦<U as Means>⟧.meaning 0 (ideal U.Random.stream connection.old.core) inputs.now e.done) }
    ensures alive { OnOk result (connection.new.failed ≡ false) }
    ensures memory { IfErr result (λ e. e.kind ≡ DriveKind.OutOfMemory → connection.new.failed ≡ true) }
    ensures refused { IfErr result (λ e. NamesInput e.kind → RefusedAt ⟦<U as Means>⟧.meaning (ideal U.Random.stream connection.old.core) inputs.now e.kind e.done (ideal U.Random.stream connection.new.core) connection.new.failed) }
    ensures failed { IfErr result (λ e. e.kind ≢ DriveKind.Failed) }
    ensures count { IfOk result (λ trace. connection.new.steps ≡ counted connection.old.steps (length trace)) }
    ensures count_part { IfErr result (λ e. (connection.new.steps ≡ counted connection.old.steps (length e.done)) × (length e.done < length inputs.now)) }
    ensures store { IfOk result (λ trace. store.new ≡ stored G.inserted connection.old.name (tokens_in (deeds_of trace)) store.old) }
    ensures store_part { IfErr result (λ e. StoresPart G.inserted connection.old.name e.kind e.done store.old store.new) }
{
    let _before = connection.steps();
    let mut trace = Trace::new(alloc);
    let mut at = 0;
    for input in inputs {
        if let Some(kind) = refusal(connection, at, input) {
            return Err(DriveError { done: trace, kind });
        }
        match add_step(connection, alloc, at, input, &mut trace, store) {
            Ok(()) => {}
            Err(_) => {
                return Err(DriveError {
                    done: trace,
                    kind: DriveKind::OutOfMemory,
                });
            }
        }
        at += 1;
    }
    Ok(trace)
}

/// Hands inputs to a connection, one after another: for each the one call, then the reports to the application and to
/// the endpoint until none is left, then the time of the next timeout. The trace has one step an input.
///
/// # Errors
///
/// `Failed` exactly where the connection had met want of memory before; then nothing changes. `TimeBack` and `BadCall`
/// name the first input whose time lies before the greatest so far, or which asks for a call that can't be made; the
/// connection is as the inputs before left it, and their steps are carried. `OutOfMemory` for want of memory; the steps
/// of the inputs before are carried, and the connection is marked as failed.
pub fn drive<U: Suite, G: TokenStore>(
    alloc: Global,
    connection: &mut Connection<U>,
    inputs: &[Input],
    store: &mut G,
) -> Result<Trace, DriveError>
    // The trace is a run from the connection's view at entry to its view at exit.
    ensures run { IfOk result (λ trace. Run ⟦<U as Means>⟧.meaning 0 (ideal U.Random.stream connection.old.core) inputs.now trace (ideal U.Random.stream connection.new.core)) }
    ensures part { IfErr result (λ e. Ran ⟦<U as Means>⟧.meaning 0 (ideal U.Random.stream connection.old.core) inputs.now e.done) }

    // No step is lost: the connection counts the steps that were given of it, and the trace has them all. So want of memory leaves
    // one for each input before the one that met it.
    ensures count { IfOk result (λ trace. connection.new.steps ≡ counted connection.old.steps (length trace)) }
    ensures count_part { IfErr result (λ e. e.kind ≢ DriveKind.Failed → (connection.new.steps ≡ counted connection.old.steps (length e.done)) × (length e.done < length inputs.now)) }

    // No packet number is used twice, only packets that were accepted are acknowledged, and ACKs tell how many of them came with
    // each mark of ECN; the life never falls, all that is sent after a close is the close, no key seals more than it may, at most one
    // reason for the end is given, the close timer stands from a close on until no timer does, and no Initial packet is sealed once the
    // Initial space was left. The path keeps its address, and the peer the id that it chose; packets to it carry the one of its ids that
    // is in use, where they did before.
    ensures rising { IfOk result (λ trace. EachRises (ideal U.Random.stream connection.old.core) trace) }
    ensures rising_part { IfErr result (λ e. EachRises (ideal U.Random.stream connection.old.core) e.done) }
    ensures admitted { IfOk result (λ trace. EachAdmitted (ideal U.Random.stream connection.old.core) trace) }
    ensures admitted_part { IfErr result (λ e. EachAdmitted (ideal U.Random.stream connection.old.core) e.done) }
    ensures acknowledged { IfOk result (λ trace. EachAcksKnown (ideal U.Random.stream connection.old.core) trace) }
    ensures acknowledged_part { IfErr result (λ e. EachAcksKnown (ideal U.Random.stream connection.old.core) e.done) }
    ensures marks { IfOk result (λ trace. EachTold (ideal U.Random.stream connection.old.core) inputs.now trace) }
    ensures marks_part { IfErr result (λ e. EachTold (ideal U.Random.stream connection.old.core) inputs.now e.done) }
    ensures life { IfOk result (λ trace. LifeRises (ideal U.Random.stream connection.old.core) trace) }
    ensures life_part { IfErr result (λ e. LifeRises (ideal U.Random.stream connection.old.core) e.done) }
    ensures closing { IfOk result (λ trace. OnlyCloses (ideal U.Random.stream connection.old.core) trace) }
    ensures closing_part { IfErr result (λ e. OnlyCloses (ideal U.Random.stream connection.old.core) e.done) }
    ensures paths { IfOk result (λ trace. PathHolds (all_from connection.old.core.paths.current.remote inputs.now) (deeds_of trace) connection.old.core.paths.current connection.new.core.paths.current) }
    ensures ids { OnOk result (IdsHold (ideal U.Random.stream connection.old.core) (ideal U.Random.stream connection.new.core)) }
    ensures keys { KeysHold connection.old.core.keys → OnOk result (KeysHold connection.new.core.keys) }
    ensures counts { IfOk result (λ trace. CountsBehind (deeds_of trace) connection.old.core.keys connection.new.core.keys) }
    ensures ends { Ends (ideal U.Random.stream connection.old.core) → OnOk result (Ends (ideal U.Random.stream connection.new.core)) }
    ensures initial { IfOk result (λ trace. LeavesInitial (deeds_of trace) (ideal U.Random.stream connection.old.core) (ideal U.Random.stream connection.new.core)) }
    ensures harmless { IfOk result (λ trace. Harmless (ideal U.Random.stream connection.old.core) inputs.now trace (ideal U.Random.stream connection.new.core)) }
    ensures reason { IfOk result (λ trace. LosesOnce (ideal U.Random.stream connection.old.core) trace) }
    ensures reason_part { IfErr result (λ e. LosesOnce (ideal U.Random.stream connection.old.core) e.done) }

    // What is told of packets that came, and of what the layers are given, is what the datagrams do. Each packet is told of, with its number
    // where it opened, and with the first verdict whose row holds; and the layers are given what the applied frames of admitted packets give:
    // those up to the first that stops its packet, in order, none left out and none made up.
    ensures tells { IfOk result (λ trace. EachTellsPieces ⟦<U as Means>⟧.meaning 0 (ideal U.Random.stream connection.old.core) inputs.now trace (ideal U.Random.stream connection.new.core)) }

    // Just what came to pass is told, in the step in which it did, and each thing once: a loss with its reason, that the handshake is
    // over with the rise to Established, and the end with the rise to Drained; where nothing else waited to be told before.
    ensures told { OnlyDoneWaits connection.old.core.life → IfOk result (λ trace. EachTells (untold_of connection.old.core.life) trace) }
    ensures told_part { OnlyDoneWaits connection.old.core.life → IfErr result (λ e. EachTells (untold_of connection.old.core.life) e.done) }
    ensures once { OnlyDoneWaits connection.old.core.life → IfOk result (λ trace. TellsOnce connection.old.core.life trace) }
    ensures once_part { OnlyDoneWaits connection.old.core.life → IfErr result (λ e. TellsOnce connection.old.core.life e.done) }
    ensures told_end { OnlyDoneWaits connection.old.core.life → OnOk result (OnlyDoneWaits connection.new.core.life) }

    // What loss recovery keeps is what its own steps leave, by the ACKs that admitted packets gave it, in order; and each packet that is
    // sealed, but for closes, is acknowledged, lost, dropped with its space or in flight, and that once; so each byte that the session
    // wrote waits, is in flight or was acknowledged. And the loss timer stands where an acknowledgement is waited for, or a client has to
    // probe.
    ensures recovers { Ends (ideal U.Random.stream connection.old.core) → IfOk result (λ trace. Recovers ⟦<U as Means>⟧.meaning (deeds_of trace) (ideal U.Random.stream connection.old.core) (ideal U.Random.stream connection.new.core)) }
    ensures crypto { Ends (ideal U.Random.stream connection.old.core) → IfOk result (λ trace. KeepsBytes ⟦<U as Means>⟧.meaning (deeds_of trace) (ideal U.Random.stream connection.old.core) (ideal U.Random.stream connection.new.core)) }
    ensures timer { Ends (ideal U.Random.stream connection.old.core) → IfOk result (λ trace. KeepsTimer (deeds_of trace) (ideal U.Random.stream connection.old.core) (ideal U.Random.stream connection.new.core)) }
    ensures settles { Ends (ideal U.Random.stream connection.old.core) → IfOk result (λ trace. EachSettlesOnce (deeds_of trace) (ideal U.Random.stream connection.old.core) (ideal U.Random.stream connection.new.core)) }

    // The 1-RTT keys are what their own steps leave, each of which may be made: those of the packets that were sealed, of those that were
    // opened, of the ACKs that came, and of updates that this end may make, in order, none left out and none made up. So their epoch never falls,
    // packets are sealed under keys of epochs that never do, and each while fewer were sealed in its epoch than its key may seal.
    ensures updates { AreLast (ideal U.Random.stream connection.old.core) → IfOk result (λ trace. FoldsKeys trace (ideal U.Random.stream connection.old.core) (ideal U.Random.stream connection.new.core)) }
    ensures epochs { AreLast (ideal U.Random.stream connection.old.core) → IfOk result (λ trace. KeepsEpochs trace (ideal U.Random.stream connection.old.core) (ideal U.Random.stream connection.new.core)) }
    ensures last { AreLast (ideal U.Random.stream connection.old.core) → OnOk result (AreLast (ideal U.Random.stream connection.new.core)) }

    // While the connection is open, each of its keys that has sealed a packet may seal two more, if they could at the start. A transmit by which
    // one may seal at most one more ends with the packet that did it, behind which this end closes with AEAD_LIMIT_REACHED; and no transmit
    // closes, or gives this reason, where each key may seal two more.
    ensures spared { SparesKeys (ideal U.Random.stream connection.old.core) → OnOk result (SparesKeys (ideal U.Random.stream connection.new.core)) }
    ensures limits { SparesKeys (ideal U.Random.stream connection.old.core) → IfOk result (λ trace. EachLimitEnds ⟦<U as Means>⟧.meaning 0 (ideal U.Random.stream connection.old.core) inputs.now trace (ideal U.Random.stream connection.new.core)) }

    // A Retry is taken only by a client that wasn't answered: at most one, and none once a packet was accepted; nor does a list of versions count
    // then. Each came with the inputs: a Retry whose tag fits leaves its source id and its token, and such a list lacks this end's version.
    // Initial keys are those that the session gives of the destination id of the client's first packets, or of the source id of that Retry, and
    // Handshake keys those that it gave as it wrote; and both are the connection's own session's (`own_keys`). And VersionMismatch ends the connection only behind a list of versions without this end's.
    ensures retry { IfOk result (λ trace. TakesOneRetry (deeds_of trace) (ideal U.Random.stream connection.old.core) (ideal U.Random.stream connection.new.core)) }
    ensures retries { IfOk result (λ trace. AreOfInputs ⟦<U as Means>⟧.meaning inputs.now (deeds_of trace) (ideal U.Random.stream connection.old.core) (ideal U.Random.stream connection.new.core)) }
    ensures space_keys { HasSpaceKeys ⟦<U as Means>⟧.meaning (ideal U.Random.stream connection.old.core) → OnOk result (HasSpaceKeys ⟦<U as Means>⟧.meaning (ideal U.Random.stream connection.new.core)) }
    ensures own_keys { SpaceKeysFit ⟦<U as Means>⟧.meaning U.Session.Session (ideal U.Random.stream connection.old.core) → OnOk result (SpaceKeysFit ⟦<U as Means>⟧.meaning U.Session.Session (ideal U.Random.stream connection.new.core)) }
    ensures mismatch { IfOk result (λ trace. EachMismatch trace) }
    ensures mismatch_part { IfErr result (λ e. EachMismatch e.done) }

    // This end ends the connection with KEY_UPDATE_ERROR only right behind a packet that shows an update which its sender wasn't allowed to make,
    // or where the session refuses with that code the bytes that it was just given, or the peer's parameters. And right behind such a packet, or
    // one whose reserved bits aren't 0, an open connection is closed; and right behind a list of versions without this end's it drains.
    ensures update_errors { IfOk result (λ trace. EachCauses ⟦<U as Means>⟧.meaning 0 (ideal U.Random.stream connection.old.core) inputs.now trace (ideal U.Random.stream connection.new.core)) }
    ensures faults { IfOk result (λ trace. EndsBehind (rank_of connection.old.core.life.state) (deeds_of trace)) }

    // The session is given the bytes of each space's CRYPTO stream in order, each once: from a new connection on the front of what came.
    ensures streams { (id : SpaceId) → IfOk result (λ trace. GivesStream id (deeds_of trace) (ideal U.Random.stream connection.old.core) (ideal U.Random.stream connection.new.core)) }

    // The streams of the application are what their own steps leave: each may be made as its turn comes, those of frames are the ones of the
    // frames that were given to them and of those that were sealed, and those of calls the ones of the inputs, which answer so.
    ensures folded { IfOk result (λ trace. FoldsStreams inputs.now trace (ideal U.Random.stream connection.old.core) (ideal U.Random.stream connection.new.core)) }

    // Frames of theirs are acknowledged that stood in packets which loss recovery acknowledged, in order, and no others: an ACK in an admitted
    // packet acknowledges the number of such a packet, and it was sealed with these frames, where it wasn't in flight before.
    ensures frames { Ends (ideal U.Random.stream connection.old.core) → IfOk result (λ trace. AcksFrames ⟦<U as Means>⟧.meaning inputs.now trace (ideal U.Random.stream connection.old.core) (ideal U.Random.stream connection.new.core)) }

    // Where they were new, what was read of each are the first bytes that came on it, each once; what sealed STREAM frames hold was written
    // there; and flow control is kept.
    ensures reads { HasNewStreams (ideal U.Random.stream connection.old.core) → IfOk result (λ trace. ReadsTrace inputs.now trace) }
    ensures written { HasNewStreams (ideal U.Random.stream connection.old.core) → IfOk result (λ trace. SealsWritten inputs.now trace) }
    ensures credit { OnOk result (KeepsCredit connection.old.core.lower.streams connection.new.core.lower.streams) }

    // And each byte that was written on one, which wasn't reset, waits to be sealed, is in flight or was acknowledged, while the connection is
    // open.
    ensures bytes { Ends (ideal U.Random.stream connection.old.core) → HasNewStreams (ideal U.Random.stream connection.old.core) → IfOk result (λ trace. KeepsWritten ⟦<U as Means>⟧.meaning inputs.now trace (ideal U.Random.stream connection.old.core) (ideal U.Random.stream connection.new.core)) }

    // So are its datagrams what their own steps leave, those of the frames that came and were sealed and of the inputs that send or take one,
    // which answer so; and where they were new, those that are taken are some of those that came, and those that are sealed some of those
    // that were sent, in order, each once.
    ensures posts { IfOk result (λ trace. FoldsPosts inputs.now trace (ideal U.Random.stream connection.old.core) (ideal U.Random.stream connection.new.core)) }
    ensures taken { HasNewDatagrams (ideal U.Random.stream connection.old.core) → IfOk result (λ trace. TakesTrace inputs.now trace) }
    ensures sent { HasNewDatagrams (ideal U.Random.stream connection.old.core) → IfOk result (λ trace. SealsSent inputs.now trace) }

    // And so are the connection ids of both ends: those steps of frames that come are the ones of the frames that were given to them, those
    // with which ids are given the inputs', and those with which frames are sealed the ones of the packets that are sealed.
    ensures identifiers { IfOk result (λ trace. FoldsIds inputs.now trace (ideal U.Random.stream connection.old.core) (ideal U.Random.stream connection.new.core)) }

    // Where they were new, packets carry an id of the peer's that it gave and hasn't retired, those that are retired have lower numbers, each
    // id that is told was given, and each that was given is as long as this end's first one, by which headers are cut.
    ensures uses { HasNewIds (ideal U.Random.stream connection.old.core) → IfOk result (λ trace. UsesPeers (deeds_of trace) (ideal U.Random.stream connection.old.core) (ideal U.Random.stream connection.new.core)) }
    ensures issues { HasNewIds (ideal U.Random.stream connection.old.core) → IfOk result (λ trace. TellsIssued inputs.now trace) }
    ensures lengths { HasNewIds (ideal U.Random.stream connection.old.core) → IfOk result (λ trace. KeepsLength inputs.now trace (ideal U.Random.stream connection.old.core) (ideal U.Random.stream connection.new.core)) }

    // What a transmit answers, cut at multiples of its segment size, is its datagrams, each of them the bytes of its packets; these are those that
    // are told as sealed, in their order, under the keys of the epochs that are told.
    ensures datagrams { IfOk result (λ trace. EachSealsAnswer ⟦<U as Means>⟧.meaning 0 (ideal U.Random.stream connection.old.core) inputs.now trace (ideal U.Random.stream connection.new.core)) }

    // An ACK of 1-RTT packets is asked for just behind an accepted one whose payload elicits it, until one is sealed. It is owed then until one
    // is sealed, or held back for 25 ms at most, or until an ACK is sealed in any space.
    ensures held { AckHolds (ideal U.Random.stream connection.old.core) → IfOk result (λ trace. EachHoldsAck ⟦<U as Means>⟧.meaning 0 (ideal U.Random.stream connection.old.core) inputs.now trace (ideal U.Random.stream connection.new.core)) }
    ensures held_end { AckHolds (ideal U.Random.stream connection.old.core) → OnOk result (AckHolds (ideal U.Random.stream connection.new.core)) }

    // Where the path's address has neither flow label nor scope, the trace's text leaves nothing out.
    ensures plain { IsPlainStart connection.old.core.waiting connection.old.core.paths connection.old.core.life → IfOk result (λ trace. All IsPlain trace) }
    ensures plain_part { IsPlainStart connection.old.core.waiting connection.old.core.paths connection.old.core.life → IfErr result (λ e. All IsPlain e.done) }
    ensures plain_end { IsPlainStart connection.old.core.waiting connection.old.core.paths connection.old.core.life → OnOk result (IsPlainStart connection.new.core.waiting connection.new.core.paths connection.new.core.life) }

    // The first input that is to be refused is named, with the values that don't fit, and changes nothing.
    ensures valid { IfOk result (λ trace. TakesAll ⟦<U as Means>⟧.meaning 0 (ideal U.Random.stream connection.old.core) inputs.now trace (ideal U.Random.stream connection.new.core)) }
    ensures refused { IfErr result (λ e. NamesInput e.kind → RefusedAt ⟦<U as Means>⟧.meaning (ideal U.Random.stream connection.old.core) inputs.now e.kind e.done (ideal U.Random.stream connection.new.core) connection.new.failed) }

    ensures alive { OnOk result (connection.new.failed ≡ false) }
    ensures failed { connection.old.failed ≡ true → IfErr result (λ e. (e.kind ≡ DriveKind.Failed) × (e.done ≡ [])) × (connection.new ≡ connection.old) }
    ensures ended { connection.old.failed ≡ true → IsErr result }
    ensures cause { IfErr result (λ e. e.kind ≡ DriveKind.Failed → connection.old.failed ≡ true) }
    ensures memory { IfErr result (λ e. e.kind ≡ DriveKind.OutOfMemory → connection.new.failed ≡ true) }

    // The store has the tokens that it was given, in order, under the server's name, none left out and none made up; of the input that met
    // want of memory it may have some.
    ensures store { IfOk result (λ trace. store.new ≡ stored G.inserted connection.old.name (tokens_in (deeds_of trace)) store.old) }
    ensures store_part { IfErr result (λ e. StoresPart G.inserted connection.old.name e.kind e.done store.old store.new) }
{
    if connection.is_failed() {
        return Err(DriveError {
            done: Trace::new(alloc),
            kind: DriveKind::Failed,
        });
    }
    drive_all(connection, alloc, inputs, store)
}
