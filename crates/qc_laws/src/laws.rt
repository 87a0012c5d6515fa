//! What follows from the laws of runs.

ghost use Rattle.std.specs.Prelude.{◌≡◌, ◌⊎◌, ◌∷◌, ◌++◌, ◌≤◌, ◌<◌, ◌^◌, ℕ, length, Bool, true, false, if◌then◌else◌, List, [], Option, Some, Ok};
ghost use Rattle.qc_base.specs.declared.side.SpaceId.{SpaceId};
ghost use Rattle.qc_base.specs.declared.side.SpaceId.TheVariants.{«Data»};
ghost use Rattle.qc_frame.specs.Frame.{FrameValue};
ghost use Rattle.qc_header.specs.HeaderReading.{piece_at};
ghost use Rattle.qc_header.specs.Piece.{Piece, space_of};
ghost use Rattle.qc_path.specs.Arrived.{Remembers, Window, is_among};
ghost use Rattle.qc_laws.specs.AckLaws.{AckHolds, EachHoldsAck};
ghost use Rattle.qc_laws.specs.AckedLaws.{AcksFrames};
ghost use Rattle.qc_laws.specs.BytesLaws.{KeepsWritten};
ghost use Rattle.qc_laws.specs.CidLaws.{HasNewIds, KeepsLength, TellsIssued, UsesPeers};
ghost use Rattle.qc_laws.specs.CryptoLaws.{KeepsBytes};
ghost use Rattle.qc_laws.specs.DatagramLaws.{DatagramHolds};
ghost use Rattle.qc_laws.specs.EndLaws.{Ends};
ghost use Rattle.qc_laws.specs.FitLaws.{KeysFit, SpaceKeysFit};
ghost use Rattle.qc_laws.specs.EventLaws.{EachTells, OnlyDoneWaits, TellsOnce, untold_of};
ghost use Rattle.qc_state.specs.Headline.{deeds_of, accepted_in, is_datagram, AcksOnly, EachAcksKnown, EachNew, Harmless, IsKept, NoneTwice};
ghost use Rattle.qc_laws.specs.IdLaws.{FoldsIds, IdsHold};
ghost use Rattle.qc_laws.specs.InitialLaws.{LeavesInitial};
ghost use Rattle.qc_laws.specs.KeyLaws.{CountsBehind, EachLimitEnds, KeysHold, LimitsEnd, SparesKeys};
ghost use Rattle.qc_laws.specs.MarkLaws.{EachTold};
ghost use Rattle.qc_state.specs.Numbers.{next_number};
ghost use Rattle.qc_state.specs.Opening.{opening_of};
ghost use Rattle.qc_laws.specs.MirrorLaws.{RunMirrors};
ghost use Rattle.qc_laws.specs.PathLaws.{PathHolds, all_from};
ghost use Rattle.qc_state.specs.Paths.{same_address};
ghost use Rattle.qc_laws.specs.PieceLaws.{TellsDatagram, TellsPiece, given_in, piece_deed, piece_gifts, pieces_in};
ghost use Rattle.qc_state.specs.Receiving.{datagram_after, event_after, first_packet_after, first_token, piece_after};
ghost use Rattle.qc_laws.specs.PostLaws.{FoldsPosts, HasNewDatagrams, SealsSent, TakesTrace};
ghost use Rattle.qc_laws.specs.ReadLaws.{HasNewStreams, ReadsTrace};
ghost use Rattle.qc_rings.specs.declared.which.Which.{Which};
ghost use Rattle.qc_state.specs.Life.{is_over, rank_of};
ghost use Rattle.qc_laws.specs.ReasonLaws.{EachCauses, EndsBehind, Fails};
ghost use Rattle.qc_laws.specs.RecoveryLaws.{EachSettlesOnce, Recovers};
ghost use Rattle.qc_laws.specs.RetryLaws.{AreOfInputs, EachMismatch, HasSpaceKeys, TakesOneRetry};
ghost use Rattle.qc_laws.specs.SealLaws.{EachSealsAnswer, KeepsFields, SealsBetween};
ghost use Rattle.qc_base.specs.declared.side.Side.{Side};
ghost use Rattle.qc_base.specs.declared.side.Side.TheVariants.{Client, Server};
ghost use Rattle.rand_core.specs.Stream.{Stream};
ghost use Rattle.std.specs.declared.net.SocketAddr.{SocketAddr};
ghost use Rattle.qc_state.specs.declared.setup.Fixed.{Fixed};
ghost use Rattle.qc_state.specs.declared.tokens.Issuer.{Issuer};
ghost use Rattle.qc_recovery.specs.TransportValues.{TransportValues};
ghost use Rattle.qc_state.specs.First.{first_streams, first_view, server_view};
ghost use Rattle.qc_streams.specs.Within.{StaysWithin};
ghost use Rattle.qc_state.specs.Run.{IsStep, Run, began, placed_behind};
ghost use Rattle.qc_state.specs.Sending.{Transmits};
ghost use Rattle.qc_state.specs.Setup.{is_first_awaited};
ghost use Rattle.qc_laws.specs.StreamLaws.{GivesStream};
ghost use Rattle.qc_laws.specs.StreamsLaws.{FoldsStreams};
ghost use Rattle.qc_laws.specs.TimerLaws.{KeepsTimer};
ghost use Rattle.qc_laws.specs.UpdateLaws.{AreLast, FoldsKeys, KeepsEpochs};
ghost use Rattle.qc_laws.specs.WindowLaws.{EachKeepsWindow};
ghost use Rattle.qc_laws.specs.WriteLaws.{SealsWritten};
ghost use Rattle.qc_state.specs.View.{View, At, at};
ghost use Rattle.qc_state.specs.declared.coming.Coming.{Coming};
ghost use Rattle.qc_state.specs.declared.deeds.Did.{Did};
ghost use Rattle.qc_state.specs.declared.deeds.Did.TheVariants as did;
ghost use Rattle.qc_state.specs.declared.input.Input.{Input};
ghost use Rattle.qc_state.specs.declared.input.Input.TheVariants as input;
ghost use Rattle.qc_state.specs.declared.opening.Opening.TheVariants.{Opened, Unopened};
ghost use Rattle.qc_state.specs.declared.trace.Step.{Step};
ghost use Rattle.qc_state.specs.declared.transmit.Transmit.{Transmit};

use qc_state::suite::{Means, Suite};

/// A law, which runs no code. Numbers of which each is new as its turn comes, in a window that remembers what came before,
/// are different from one another and from all that came before: so no packet number is admitted twice in its space.
pub fn numbers_count_once()
    ensures once { (came ns : List ℕ) (w : Window) → Remembers came w → EachNew w ns → NoneTwice ns }
    ensures before { (came ns : List ℕ) (w : Window) → Remembers came w → EachNew w ns → (m : ℕ) → is_among came m ≡ true → is_among ns m ≡ false }
{}

/// A law, which runs no code. A run, and another one that begins where it ended, are one run over both lists of inputs: so the
/// traces of two calls of `drive`, one after the other, are a trace, where the steps of the second are counted behind those of
/// the first.
pub fn runs_join<U: Suite>()
    ensures { (s mid last : View ⟦<U as Means>⟧.types) (is js : List Input) (xs ys : List Step) → Run ⟦<U as Means>⟧.meaning 0 s is xs mid → Run ⟦<U as Means>⟧.meaning 0 mid js ys last → Run ⟦<U as Means>⟧.meaning 0 s (is ++ js) (xs ++ placed_behind (length xs) ys) last }
{}

/// A law, which runs no code. Where the steps from a view on acknowledge known numbers only, each number that a sealed ACK
/// acknowledges is that of a packet which was accepted in its space by a deed before the sealing, or was kept to be
/// acknowledged at the start.
pub fn acks_were_accepted<U: Suite>()
    ensures { (s : View ⟦<U as Means>⟧.types) (xs : List Step) (id : SpaceId) (ds es : List Did) (number epoch : ℕ) (early : Bool) (fs : List FrameValue) → EachAcksKnown s xs → deeds_of xs ≡ ds ++ did.Sealed id number epoch early fs ∷ es → AcksOnly (λ n. (is_among (accepted_in id ds) n ≡ true) ⊎ IsKept id s.waiting n) fs }
{}

/// A law, which runs no code. Over a run the path keeps its address, which is validated only where it was before or a Handshake
/// packet was admitted; no more bytes count as received on it than came in datagrams from that address; and what is sent to an address
/// that isn't validated stays less than three times what came from it, and one datagram of the size with which its path began (RFC 9000,
/// section 8.1).
pub fn paths_hold<U: Suite>()
    ensures { (s last : View ⟦<U as Means>⟧.types) (k : ℕ) (is : List Input) (xs : List Step) → Run ⟦<U as Means>⟧.meaning k s is xs last → PathHolds (all_from s.paths.current.remote is) (deeds_of xs) s.paths.current last.paths.current }
{}

/// A law, which runs no code. Over a run the id that the peer chose stays, once it is known (RFC 9000, 7.2); and packets carry the id of the
/// peer's that is in use, where they did so at the start (RFC 9000, 5.1).
pub fn ids_hold<U: Suite>()
    ensures { (s last : View ⟦<U as Means>⟧.types) (k : ℕ) (is : List Input) (xs : List Step) → Run ⟦<U as Means>⟧.meaning k s is xs last → IdsHold s last }
{}

/// A law, which runs no code. Over a run the connection ids of both ends are what their own steps leave, one after the other. Those of frames
/// that come are the ones of the frames that the deeds gave to the ids, refused or not; those with which ids are given are the inputs'; and
/// those with which frames are sealed are the ones of the packets that are sealed: each in order, none left out, and none made up. So every law
/// over their steps holds of a run (RFC 9000, 5.1).
pub fn folds_ids<U: Suite>()
    ensures { (s last : View ⟦<U as Means>⟧.types) (k : ℕ) (is : List Input) (xs : List Step) → Run ⟦<U as Means>⟧.meaning k s is xs last → FoldsIds is xs s last }
{}

/// A law, which runs no code. Over a run from new ids on, packets to the peer carry an id of its that it chose in its handshake, named with the
/// address that it prefers, or gave in a NEW_CONNECTION_ID; the first id only until it chose one. While the connection is open, no
/// NEW_CONNECTION_ID that came has retired the id in use; and each RETIRE_CONNECTION_ID that is sealed names a number below that of the id in use,
/// so never that one (RFC 9000, 5.1.1, 5.1.2, 7.2 and 19.16).
pub fn known_ids_are_used<U: Suite>()
    ensures { (s last : View ⟦<U as Means>⟧.types) (k : ℕ) (is : List Input) (xs : List Step) → Run ⟦<U as Means>⟧.meaning k s is xs last → HasNewIds s → UsesPeers (deeds_of xs) s last }
{}

/// A law, which runs no code. Over a run from new ids on, each NEW_CONNECTION_ID in a packet that is sealed tells an id of this end that an input
/// gave before, with its number and its reset token (RFC 9000, 19.15).
pub fn issued_ids_are_told<U: Suite>()
    ensures { (s last : View ⟦<U as Means>⟧.types) (k : ℕ) (is : List Input) (xs : List Step) → Run ⟦<U as Means>⟧.meaning k s is xs last → HasNewIds s → TellsIssued is xs }
{}

/// A law, which runs no code. Over a run from new ids on, each id of this end that an input gives is as long as its first one, by whose length
/// the headers of 1-RTT packets are cut from first to last (RFC 9000, 17.3.1).
pub fn ids_have_one_length<U: Suite>()
    ensures { (s last : View ⟦<U as Means>⟧.types) (k : ℕ) (is : List Input) (xs : List Step) → Run ⟦<U as Means>⟧.meaning k s is xs last → HasNewIds s → KeepsLength is xs s last }
{}

/// A law, which runs no code. Over a run no key seals more packets than it may (RFC 9001, 6.6): each packet that is sealed under
/// it counts, and the count stays within the limit. Of 1-RTT keys each epoch has a count of its own.
pub fn keys_hold<U: Suite>()
    ensures { (s last : View ⟦<U as Means>⟧.types) (k : ℕ) (is : List Input) (xs : List Step) → Run ⟦<U as Means>⟧.meaning k s is xs last → KeysHold s.keys → KeysHold last.keys }
{}

/// A law, which runs no code. Over a run the Initial and the Handshake keys count the packets that are sealed under them, as the deeds tell them, from
/// when they were given on; those of the Initial space begin anew where a Retry is taken (RFC 9001, 5.2 and 6.6).
pub fn keys_count<U: Suite>()
    ensures { (s last : View ⟦<U as Means>⟧.types) (k : ℕ) (is : List Input) (xs : List Step) → Run ⟦<U as Means>⟧.meaning k s is xs last → CountsBehind (deeds_of xs) s.keys last.keys }
{}

/// A law, which runs no code. Over a run the 1-RTT keys are what their own steps leave, one after the other, and each step may be made as its
/// turn comes: they are given once; a packet is sealed under a key that may seal one more; an update of the peer's is followed only where the one
/// before was answered; this end updates them only where it may. The steps of sealed packets are those of the 1-RTT packets that were sealed, with
/// their epochs, and the steps of opened ones and of acknowledgements those that the deeds tell: each in order, none left out, and none made up. So
/// their epoch never falls, 1-RTT packets are sealed under keys of epochs that never do (RFC 9001, 6), and fewer were sealed in the epoch of each, as
/// the deeds tell them, than its key may seal (RFC 9001, 6.6).
pub fn keys_are_folded<U: Suite>()
    ensures folded { (s last : View ⟦<U as Means>⟧.types) (k : ℕ) (is : List Input) (xs : List Step) → Run ⟦<U as Means>⟧.meaning k s is xs last → AreLast s → FoldsKeys xs s last }
    ensures epochs { (s last : View ⟦<U as Means>⟧.types) (k : ℕ) (is : List Input) (xs : List Step) → Run ⟦<U as Means>⟧.meaning k s is xs last → AreLast s → KeepsEpochs xs s last }
    ensures last { (s last : View ⟦<U as Means>⟧.types) (k : ℕ) (is : List Input) (xs : List Step) → Run ⟦<U as Means>⟧.meaning k s is xs last → AreLast s → AreLast last }
{}

/// A law, which runs no code. Over a run the session, the 1-RTT keys and the numbers of 1-RTT packets go by steps of a ledger, from any that shows
/// the start to one that shows the end: a packet that is sealed, one of the inputs' that is opened, what one acknowledges or gives to a layer, an
/// update, and keys that are dropped. It is what two connections ask of each one (RFC 9001, 6).
pub fn runs_mirror<U: Suite>()
    ensures { (s last : View ⟦<U as Means>⟧.types) (k : ℕ) (is : List Input) (xs : List Step) → Run ⟦<U as Means>⟧.meaning k s is xs last → AreLast s → RunMirrors ⟦<U as Means>⟧.meaning is xs s last }
{}

/// A law, which runs no code. Over a run the 1-RTT keys stay the session's, each of its epoch (RFC 9001, 6.1): header keys those of the Data space,
/// packet keys those of the ring's epoch, of the next one and of the one before, with the limits of the key that seals; the session gave keys up to
/// the next epoch, and no further. Epochs are no more than twice as many as numbers, and one. It is said while packet numbers have their range
/// (RFC 9000, 12.3).
pub fn keys_fit_their_session<U: Suite>()
    ensures { (s last : View ⟦<U as Means>⟧.types) (k : ℕ) (is : List Input) (xs : List Step) → Run ⟦<U as Means>⟧.meaning k s is xs last → AreLast s → next_number last.numbers «Data» ≤ 4611686018427387904 → KeysFit ⟦<U as Means>⟧.meaning U.Session.Session s → KeysFit ⟦<U as Means>⟧.meaning U.Session.Session last }
{}

/// A law, which runs no code. Over a run the Initial and the Handshake keys, while there are any, stay the session's, whatever it reads and writes behind
/// them: those of the destination id of the client's first packets, or of the source id of the Retry that was taken, and those of its Handshake space,
/// each with the limits of the key that seals (`run`; RFC 9001, 4.1.4, 5.1, 5.2 and 6.6). So it is from a new connection on: a client's, whose
/// fresh session wrote its hello, and a server's, whose session is fresh (`client`, `server`).
pub fn space_keys_fit<U: Suite>()
    ensures run { (s last : View ⟦<U as Means>⟧.types) (k : ℕ) (is : List Input) (xs : List Step) → Run ⟦<U as Means>⟧.meaning k s is xs last → SpaceKeysFit ⟦<U as Means>⟧.meaning U.Session.Session s → SpaceKeysFit ⟦<U as Means>⟧.meaning U.Session.Session last }
    ensures client { (session : ⟦<U as Means>⟧.types.S) (words : Stream) (fixed : Fixed) (remote : SocketAddr) (first_cid token : List ℕ) (transport : TransportValues) (congestion : ⟦<U as Means>⟧.types.C) (time : ℕ) → U.Session.is_fresh session → U.Session.side_of session ≡ Client → fixed.first_cid ≡ first_cid → fixed.side ≡ Client → SpaceKeysFit ⟦<U as Means>⟧.meaning U.Session.Session (first_view ⟦<U as Means>⟧.meaning session words fixed remote first_cid token transport congestion time) }
    ensures server { (session : ⟦<U as Means>⟧.types.S) (words : Stream) (fixed : Fixed) (remote : SocketAddr) (remote_cid : List ℕ) (validated : Bool) (issuer : Issuer ⟦<U as Means>⟧.types.K ⟦<U as Means>⟧.types.T) (transport : TransportValues) (congestion : ⟦<U as Means>⟧.types.C) (time : ℕ) → U.Session.is_fresh session → fixed.side ≡ Server → SpaceKeysFit ⟦<U as Means>⟧.meaning U.Session.Session (server_view ⟦<U as Means>⟧.meaning session words fixed remote remote_cid validated issuer transport congestion time) }
{}

/// A law, which runs no code. Over a run this end gives an error of its own with KEY_UPDATE_ERROR's code as the reason for the end (RFC 9001,
/// 6.7) only where, in the same step, it closed right behind a packet that it tells as one with an update which its sender wasn't allowed to make
/// (RFC 9001, 6.2 and 6.4); or right behind bytes that the session was given and refuses with this very error; or where the session, as calls
/// since the step began left it, refuses the peer's parameters with it. So packets that don't open, frames, timers and transmits never bring it about.
pub fn update_errors_are_caused<U: Suite>()
    ensures { (s last : View ⟦<U as Means>⟧.types) (k : ℕ) (is : List Input) (xs : List Step) → Run ⟦<U as Means>⟧.meaning k s is xs last → EachCauses ⟦<U as Means>⟧.meaning k s is xs last }
{}

/// A law, which runs no code. A packet that its key didn't open is counted and told of; and the connection ends at once, with AEAD_LIMIT_REACHED as the
/// reason, unless one was given before, where more didn't open than the key that seals in the highest space lets pass, and only there (RFC
/// 9001, 6.6).
pub fn failures_end<U: Suite>()
    ensures { (a : At ⟦<U as Means>⟧.types) (coming : Coming) (p : Piece) (space : SpaceId) → is_over a.state.life.state ≡ false → space_of p.header ≡ Some space → opening_of ⟦<U as Means>⟧.meaning a.state p ≡ Unopened → Fails space a (piece_after ⟦<U as Means>⟧.meaning coming p a) }
{}

/// A law, which runs no code. Over a run from keys that are spared on, each key that has sealed a packet may seal two more, while the connection is
/// open. A transmit by which one of them may seal at most one more ends with the packet that did it: right behind that packet the connection is
/// closed with AEAD_LIMIT_REACHED, which is the reason, unless one was given before; and this key may seal the close, if it may seal two packets at
/// all. A transmit that ends the connection at once, as a packet is about to begin, does it with this reason where the packet's key has sealed as many as
/// it may, and there alone. No transmit closes or gives this reason where each key may seal two packets more (RFC 9001, 6.6). So it is with each transmit
/// by itself.
pub fn limits_end<U: Suite>()
    ensures spared { (s last : View ⟦<U as Means>⟧.types) (k : ℕ) (is : List Input) (xs : List Step) → Run ⟦<U as Means>⟧.meaning k s is xs last → SparesKeys s → SparesKeys last }
    ensures ended { (s last : View ⟦<U as Means>⟧.types) (k : ℕ) (is : List Input) (xs : List Step) → Run ⟦<U as Means>⟧.meaning k s is xs last → SparesKeys s → EachLimitEnds ⟦<U as Means>⟧.meaning k s is xs last }
    ensures transmit { (time asked : ℕ) (s : View ⟦<U as Means>⟧.types) (b : At ⟦<U as Means>⟧.types) (sent : Option Transmit) (bytes : List ℕ) → Transmits ⟦<U as Means>⟧.meaning time asked (at s []) b sent bytes → SparesKeys s → LimitsEnd b.did s b.state }
{}

/// A law, which runs no code. Over a run an open connection ends right behind each packet that shows a fault of its sender's, before anything else
/// is done: it is closed where the packet's reserved bits aren't 0 (RFC 9000, 17.2 and 17.3.1), or where it shows an update that its sender wasn't
/// allowed to make (RFC 9001, 6.2 and 6.4); and it drains behind a list of versions without this end's (RFC 9000, 6.2).
pub fn faults_close<U: Suite>()
    ensures { (s last : View ⟦<U as Means>⟧.types) (k : ℕ) (is : List Input) (xs : List Step) → Run ⟦<U as Means>⟧.meaning k s is xs last → EndsBehind (rank_of s.life.state) (deeds_of xs) }
{}

/// A law, which runs no code. Over a run a connection of which an end has closed comes to its end: while it is closed, or drains, the
/// close timer stands (RFC 9000, 10.2), and once it has drained, no timer does; and a close is owed only where an end has closed.
pub fn ends_hold<U: Suite>()
    ensures { (s last : View ⟦<U as Means>⟧.types) (k : ℕ) (is : List Input) (xs : List Step) → Run ⟦<U as Means>⟧.meaning k s is xs last → Ends s → Ends last }
{}

/// A law, which runs no code. Over a run no Initial packet is sealed behind a Handshake packet that a client sealed, or that a server
/// accepted, nor where the space had no keys, or the connection had ended: with such a packet an end leaves the Initial space (RFC 9001,
/// 4.9.1), whose keys it drops, unless the connection ends before it does.
pub fn initial_is_left<U: Suite>()
    ensures { (s last : View ⟦<U as Means>⟧.types) (k : ℕ) (is : List Input) (xs : List Step) → Run ⟦<U as Means>⟧.meaning k s is xs last → LeavesInitial (deeds_of xs) s last }
{}

/// A law, which runs no code. Over a run each Retry that is taken is taken by a client that the server hasn't answered: before any packet was accepted,
/// and before any other Retry was taken, in the run or before it. Behind it, and behind a packet that is accepted, the client is answered; so at most
/// one Retry is taken over the whole life, and none once a packet was accepted (RFC 9000, 17.2.5.2). Nor does a list of versions count then (6.2).
pub fn one_retry_is_taken<U: Suite>()
    ensures { (s last : View ⟦<U as Means>⟧.types) (k : ℕ) (is : List Input) (xs : List Step) → Run ⟦<U as Means>⟧.meaning k s is xs last → TakesOneRetry (deeds_of xs) s last }
{}

/// A law, which runs no code. Over a run a Retry that was taken came with an input: its tag fits the destination id of the client's first packets, it has a
/// token, and another source id than that one; that source id and this token are the ones that Initial packets go by from then on, and without
/// one these stay (RFC 9000, 17.2.5). And a list of versions that counts came with an input, and lacks this end's (RFC 9000, 6.2).
pub fn retries_come<U: Suite>()
    ensures { (s last : View ⟦<U as Means>⟧.types) (k : ℕ) (is : List Input) (xs : List Step) → Run ⟦<U as Means>⟧.meaning k s is xs last → AreOfInputs ⟦<U as Means>⟧.meaning is (deeds_of xs) s last }
{}

/// A law, which runs no code. Over a run the keys of the Initial space, while there are any, are those that the session gives of the destination id of
/// the client's first packets, or, once a Retry was taken, of its source id (RFC 9001, 5.2), and those of the Handshake space ones that the
/// session gave as it wrote, each with the limits of the key that seals, where they were so at the start.
pub fn space_keys_are_named<U: Suite>()
    ensures { (s last : View ⟦<U as Means>⟧.types) (k : ℕ) (is : List Input) (xs : List Step) → Run ⟦<U as Means>⟧.meaning k s is xs last → HasSpaceKeys ⟦<U as Means>⟧.meaning s → HasSpaceKeys ⟦<U as Means>⟧.meaning last }
{}

/// A law, which runs no code. Over a run VersionMismatch is given as the reason for the end only behind a packet that is told as a list of versions
/// without this end's, before the next packet is told of, in the same step (RFC 9000, 6.2).
pub fn mismatches_are_listed<U: Suite>()
    ensures { (s last : View ⟦<U as Means>⟧.types) (k : ℕ) (is : List Input) (xs : List Step) → Run ⟦<U as Means>⟧.meaning k s is xs last → EachMismatch xs }
{}

/// A law, which runs no code. Over a run what loss recovery keeps, of the packets and of the path, is what its own steps leave, one after
/// the other: each is a packet that was sealed, an ACK that came, the loss timer that fired, or a space whose keys were dropped, and what
/// recovery makes of it; or what the pacer spends of a packet, or that the controller is told what was sent. The ACKs of a space are those that
/// the deeds give to recovery in admitted packets of the space, in order, none left out and none made up; and packets that one of them shows
/// to be acknowledged have numbers that it acknowledges. The packets that are put in flight are those that were sealed, but for closes. So
/// each packet that was in flight or was sealed is acknowledged, lost, dropped with its space or in flight, and that once (RFC 9002).
pub fn recovery_is_folded<U: Suite>()
    ensures folded { (s last : View ⟦<U as Means>⟧.types) (k : ℕ) (is : List Input) (xs : List Step) → Run ⟦<U as Means>⟧.meaning k s is xs last → Ends s → Recovers ⟦<U as Means>⟧.meaning (deeds_of xs) s last }
    ensures settled { (s last : View ⟦<U as Means>⟧.types) (k : ℕ) (is : List Input) (xs : List Step) → Run ⟦<U as Means>⟧.meaning k s is xs last → Ends s → EachSettlesOnce (deeds_of xs) s last }
{}

/// A law, which runs no code. Over a run the streams of the application are what their own steps leave, one after the other, and each step
/// may be made as its turn comes. Those of the steps that frames make are the ones of the frames that were given to the streams, in order,
/// none left out and none made up; a frame that they refuse makes none. So it is with those that calls make, which answer as the streams
/// are then; the streams are closed where the life rises to Closed or further; each event of theirs that is told is their next one; and the
/// steps with which frames are sealed are the ones of the frames in the packets that are sealed, in order. Any other step is that such
/// frames are acknowledged or lost, that streams are looked at what they owe, or that the peer's limits are known. So every law over the
/// steps of the streams holds of a run (RFC 9000, 2 to 4).
pub fn streams_are_folded<U: Suite>()
    ensures { (s last : View ⟦<U as Means>⟧.types) (k : ℕ) (is : List Input) (xs : List Step) → Run ⟦<U as Means>⟧.meaning k s is xs last → FoldsStreams is xs s last }
{}

/// A law, which runs no code. Over a run the frames of streams that are acknowledged are those in the packets that loss recovery acknowledged,
/// in order, none left out and none made up: the streams are told of no other. Such a packet was sealed with these frames, where it wasn't in
/// flight at the start, and an ACK in an admitted packet acknowledges its number. So a stream is finished only by acknowledgements of packets that held what was
/// written on it (RFC 9000, 3.1 and 13.3).
pub fn frames_are_acknowledged<U: Suite>()
    ensures { (s last : View ⟦<U as Means>⟧.types) (k : ℕ) (is : List Input) (xs : List Step) → Run ⟦<U as Means>⟧.meaning k s is xs last → Ends s → AcksFrames ⟦<U as Means>⟧.meaning is xs s last }
{}

/// A law, which runs no code. Over a run from new streams on, the bytes that the answers give to reads of a stream, one behind the other,
/// are the first of the bytes that came on it in the STREAM frames which the streams took, from offset 0 on, each once, and at each offset
/// the byte that came first. And an answer says that a stream was read to its end only where a frame told its end which came before, and
/// all bytes up to it were read; from then on reads of the stream answer that it is closed (RFC 9000, 2.2 and 3.2).
pub fn reads_are_what_came<U: Suite>()
    ensures { (s last : View ⟦<U as Means>⟧.types) (k : ℕ) (is : List Input) (xs : List Step) → Run ⟦<U as Means>⟧.meaning k s is xs last → HasNewStreams s → ReadsTrace is xs }
{}

/// A law, which runs no code. Over a run from new streams on, each STREAM frame in a packet that is sealed has the bytes that the application
/// wrote on its stream before, in the place where it wrote them: what the inputs before wrote there, as they answer, one write behind the
/// other. And the end is with them only where an input before finished the stream, and where all that was written ends (RFC 9000, 2.2 and
/// 3.1).
pub fn seals_what_was_written<U: Suite>()
    ensures { (s last : View ⟦<U as Means>⟧.types) (k : ℕ) (is : List Input) (xs : List Step) → Run ⟦<U as Means>⟧.meaning k s is xs last → HasNewStreams s → SealsWritten is xs }
{}

/// A law, which runs no code. Over a run from new streams on no byte is forgotten that the application wrote: while the connection is open,
/// each byte that the inputs wrote on a stream, and none of them reset it, waits to be sealed, is in flight or was acknowledged. It waits where
/// its stream keeps it and it never was sealed, or was lost since; it is in flight where a packet in flight was sealed with a STREAM frame that
/// has it; and it was acknowledged where such a packet is one of those that recovery's steps acknowledged, each by an ACK that an admitted
/// packet of its space had (RFC 9000, 2.2, 3.1 and 13.3).
pub fn written_bytes_are_kept<U: Suite>()
    ensures { (s last : View ⟦<U as Means>⟧.types) (k : ℕ) (is : List Input) (xs : List Step) → Run ⟦<U as Means>⟧.meaning k s is xs last → Ends s → HasNewStreams s → KeepsWritten ⟦<U as Means>⟧.meaning is xs s last }
{}

/// A law, which runs no code. Over a run from new streams on flow control is kept: what was written on each stream and on all together lies
/// within the limits that the peer gave, what came within the credit that this end gives, and no more streams are opened, by either end,
/// than the other lets (RFC 9000, 4.1 and 4.6).
pub fn streams_stay_within<U: Suite>()
    ensures { (side : Side) (transport : TransportValues) (s last : View ⟦<U as Means>⟧.types) (k : ℕ) (is : List Input) (xs : List Step) → Run ⟦<U as Means>⟧.meaning k s is xs last → s.lower.streams ≡ first_streams side transport → transport.receive_window < 2 ^ 64 → transport.stream_receive_window < 2 ^ 64 → StaysWithin last.lower.streams }
{}

/// A law, which runs no code. Over a run the datagrams of the application are what their own steps leave, one after the other: those of the
/// frames that the deeds gave, of the DATAGRAM frames in packets that they sealed, each of which holds the oldest datagram that was to be sent
/// then, and of the inputs that send or take one, which answer as the datagrams are then; none is left out, none made up, and each in its
/// turn. As many events tell that one came as came while none waited. So every law over their steps holds of a run (RFC 9221, 5).
pub fn posts_are_folded<U: Suite>()
    ensures { (s last : View ⟦<U as Means>⟧.types) (k : ℕ) (is : List Input) (xs : List Step) → Run ⟦<U as Means>⟧.meaning k s is xs last → FoldsPosts is xs s last }
{}

/// A law, which runs no code. Over a run from new datagrams on, those that the application takes are some of those that came in DATAGRAM
/// frames, in their order, each once (RFC 9221, 5).
pub fn taken_datagrams_came<U: Suite>()
    ensures { (s last : View ⟦<U as Means>⟧.types) (k : ℕ) (is : List Input) (xs : List Step) → Run ⟦<U as Means>⟧.meaning k s is xs last → HasNewDatagrams s → TakesTrace is xs }
{}

/// A law, which runs no code. Over a run from new datagrams on, those in DATAGRAM frames of packets that are sealed are some of those that the
/// application sent, in their order, each once: none is sealed twice, and none overtakes another (RFC 9221, 5).
pub fn sealed_datagrams_were_sent<U: Suite>()
    ensures { (s last : View ⟦<U as Means>⟧.types) (k : ℕ) (is : List Input) (xs : List Step) → Run ⟦<U as Means>⟧.meaning k s is xs last → HasNewDatagrams s → SealsSent is xs }
{}

/// A law, which runs no code. Over a run, while the connection is open, each byte that the session wrote in a space with keys waits to be
/// sealed, is in flight, or was acknowledged: a packet that has it in a CRYPTO frame is in flight, or is one of those that recovery's
/// steps acknowledged, or was acknowledged before (RFC 9000, 13.3).
pub fn bytes_are_kept<U: Suite>()
    ensures { (s last : View ⟦<U as Means>⟧.types) (k : ℕ) (is : List Input) (xs : List Step) → Run ⟦<U as Means>⟧.meaning k s is xs last → Ends s → KeepsBytes ⟦<U as Means>⟧.meaning (deeds_of xs) s last }
{}

/// A law, which runs no code. Over a run, while the connection is open, the loss timer stands where an acknowledgement is waited for:
/// a packet is in flight that elicits one, in the Initial or the Handshake space, or in Data, where the handshake is over and one that
/// counts was sealed since. It stands too where a client has to probe with nothing in flight, since the server may not have validated
/// its address; unless the path is blocked (RFC 9002, 6.2.1 and 6.2.2.1; RFC 9000, 8.1).
pub fn loss_timer_stands<U: Suite>()
    ensures { (s last : View ⟦<U as Means>⟧.types) (k : ℕ) (is : List Input) (xs : List Step) → Run ⟦<U as Means>⟧.meaning k s is xs last → Ends s → KeepsTimer (deeds_of xs) s last }
{}

/// A law, which runs no code. Over a run the congestion window is kept: where more bytes are in flight behind an input than before it,
/// they are fewer than the window as it began, unless a packet was sealed in a space where no frame waited that elicits an
/// acknowledgement, or where a probe was due (RFC 9002, 7 and 7.5).
pub fn window_is_kept<U: Suite>()
    ensures { (s last : View ⟦<U as Means>⟧.types) (k : ℕ) (is : List Input) (xs : List Step) → Run ⟦<U as Means>⟧.meaning k s is xs last → EachKeepsWindow ⟦<U as Means>⟧.meaning k s is xs last }
{}

/// A law, which runs no code. The bytes that a transmit gives, cut at multiples of their segment size, are datagrams, each of which is the
/// bytes of its packets, with nothing between or behind them (RFC 9000, 12.2); and these are the packets that its deeds tell as sealed, in
/// their order, each with the number and the frames of its deed. They are sealed under the keys of the view as the transmit begins: the
/// epoch that a deed tells is that of its packet's key, and the key phase of a 1-RTT packet is the epoch's parity (RFC 9001, 5.3, 5.4 and 6).
/// Where what this end puts into fields has room there, the receiver can tell each packet apart, and each frame fits its fields; and a short
/// header stands last in its datagram. So it is with each transmit of a run (`run`), over which what is fixed of a connection stays, and
/// CRYPTO streams have room in their fields where they had it before (`fields`).
pub fn datagrams_are_sealed<U: Suite>()
    ensures transmit { (time asked : ℕ) (a b : At ⟦<U as Means>⟧.types) (sent : Option Transmit) (bytes : List ℕ) → Transmits ⟦<U as Means>⟧.meaning time asked a b sent bytes → SealsBetween ⟦<U as Means>⟧.meaning a.state a b sent bytes }
    ensures run { (s last : View ⟦<U as Means>⟧.types) (k : ℕ) (is : List Input) (xs : List Step) → Run ⟦<U as Means>⟧.meaning k s is xs last → EachSealsAnswer ⟦<U as Means>⟧.meaning k s is xs last }
    ensures fields { (s last : View ⟦<U as Means>⟧.types) (k : ℕ) (is : List Input) (xs : List Step) → Run ⟦<U as Means>⟧.meaning k s is xs last → KeepsFields s last }
{}

/// A law, which runs no code. Over a run an ACK of 1-RTT packets is asked for behind a step just where one of the packets that the step
/// tells of was accepted and elicits it by its payload, or where it was asked for before and the step sealed none of 1-RTT packets. Behind
/// each step an ACK that is asked for is owed or held back, where it was so at the start. One that is owed stays owed until one of 1-RTT
/// packets is sealed. One is held back for 25 ms at most: its timer is set with the packet that asks for it, and stands until it comes, and
/// then the ACK is owed, where there is something to acknowledge; unless an ACK was sealed, in whatever space (RFC 9000, 13.2.1).
pub fn held_acks_wait<U: Suite>()
    ensures each { (s last : View ⟦<U as Means>⟧.types) (k : ℕ) (is : List Input) (xs : List Step) → Run ⟦<U as Means>⟧.meaning k s is xs last → AckHolds s → EachHoldsAck ⟦<U as Means>⟧.meaning k s is xs last }
    ensures kept { (s last : View ⟦<U as Means>⟧.types) (k : ℕ) (is : List Input) (xs : List Step) → Run ⟦<U as Means>⟧.meaning k s is xs last → AckHolds s → AckHolds last }
{}

/// A law, which runs no code. Over a run the session is given the bytes of each space's CRYPTO stream in order, each once: what the space
/// keeps of the stream is what bytes that came and reads in order leave, and what the reads gave, one behind the other, is what the
/// session was given. So from a new connection on it is the front of what came, from offset 0 on (RFC 9000, 19.6).
pub fn session_is_given_its_stream<U: Suite>()
    ensures { (id : SpaceId) (s last : View ⟦<U as Means>⟧.types) (k : ℕ) (is : List Input) (xs : List Step) → Run ⟦<U as Means>⟧.meaning k s is xs last → GivesStream id (deeds_of xs) s last }
{}

/// A law, which runs no code. Over a run just what came to pass is told, in the step in which it did, and each thing at most once: a
/// loss for the reason of the end, that the handshake is over, and to the endpoint the end; where only what came to pass waited to be
/// told at the start, as in a new connection, in which nothing waits. So it is again where the run ends.
pub fn events_told<U: Suite>()
    ensures done { (s last : View ⟦<U as Means>⟧.types) (k : ℕ) (is : List Input) (xs : List Step) → Run ⟦<U as Means>⟧.meaning k s is xs last → OnlyDoneWaits s.life → EachTells (untold_of s.life) xs }
    ensures once { (s last : View ⟦<U as Means>⟧.types) (k : ℕ) (is : List Input) (xs : List Step) → Run ⟦<U as Means>⟧.meaning k s is xs last → OnlyDoneWaits s.life → TellsOnce s.life xs }
    ensures stays { (s last : View ⟦<U as Means>⟧.types) (k : ℕ) (is : List Input) (xs : List Step) → Run ⟦<U as Means>⟧.meaning k s is xs last → OnlyDoneWaits s.life → OnlyDoneWaits last.life }
{}

/// A law, which runs no code. Over a run each ACK that is sealed in a space has counts of ECN marks exactly where a packet of the
/// connection was accepted before whose datagram carried one, and they say how many packets of the space were accepted with each
/// mark, as the inputs' datagrams carried them (RFC 9000, 13.4.1 and 19.3.2); what the space had counted at the start counts too.
pub fn marks_are_told<U: Suite>()
    ensures { (s last : View ⟦<U as Means>⟧.types) (k : ℕ) (is : List Input) (xs : List Step) → Run ⟦<U as Means>⟧.meaning k s is xs last → EachTold s is xs }
{}

/// A law, which runs no code. Where all inputs of a run are datagrams, and each of its deeds tells of a packet that was ignored
/// or that its key didn't open, only counts change: that of the packets which didn't open, that of the bytes which came from the
/// path's address, and the greatest time. The loss timer changes only where no datagram could be begun before. What waited to be
/// reported is reported, and all else stays as it was. So bytes that don't open do no harm.
pub fn harmless_bytes<U: Suite>()
    ensures { (s last : View ⟦<U as Means>⟧.types) (k : ℕ) (is : List Input) (xs : List Step) → Run ⟦<U as Means>⟧.meaning k s is xs last → Harmless s is xs last }
{}

/// A law, which runs no code. What one datagram does keeps the laws of runs, whichever call it is handed to: no packet number counts
/// twice, the life doesn't fall, at most one reason for the end is given, the path holds, and where no packet opens only counts
/// change, and the loss timer where no datagram could be begun before.
pub fn datagrams_keep<U: Suite>()
    ensures { (s : View ⟦<U as Means>⟧.types) (coming : Coming) (bytes : List ℕ) → let r : At ⟦<U as Means>⟧.types = datagram_after ⟦<U as Means>⟧.meaning coming bytes (at s []) in DatagramHolds (if same_address s.paths.current.remote coming.remote then length bytes else 0) r.did s r.state }
{}

/// A law, which runs no code. The deeds of a packet that came begin with the one that tells of it, and no other
/// tells of a packet: it has a number only where the packet opened, and that is the packet's, with the first
/// verdict whose row holds. Behind it, what is given to the layers is what the applied frames of the packet's
/// payload give, in order, if it is admitted, and nothing else: those are its frames up to the first that stops it,
/// or outside of 1-RTT packets up to and with the first close (RFC 9000, 10.2.2 and 12.4). The session is given, in
/// one call a CRYPTO frame, the bytes of the space's stream that can be read in order once that frame's came; any
/// other layer the frame as it is spelled. The streams are given one that they refuse too, which is the last one;
/// only of frames that say where the peer is blocked nothing is told.
pub fn packets_tell<U: Suite>()
    ensures { (a : At ⟦<U as Means>⟧.types) (coming : Coming) (p : Piece) → TellsPiece (piece_deed ⟦<U as Means>⟧.meaning a.state p) (piece_gifts ⟦<U as Means>⟧.meaning coming a.state p) a (piece_after ⟦<U as Means>⟧.meaning coming p a) }
{}

/// A law, which runs no code. What a datagram tells is what its packets tell, one after the other, or nothing where
/// it is dropped.
pub fn datagrams_tell<U: Suite>()
    ensures { (a : At ⟦<U as Means>⟧.types) (coming : Coming) (bytes : List ℕ) → TellsDatagram ⟦<U as Means>⟧.meaning coming bytes a (datagram_after ⟦<U as Means>⟧.meaning coming bytes a) }
{}

/// A law, which runs no code. So it is in a run: the deeds of a step over a datagram are what the datagram tells,
/// from where the call began. Each number that the step accepts is that of a packet of this datagram which opened,
/// and each frame that is told as given stands behind such a packet, and in its payload.
pub fn steps_tell<U: Suite>()
    ensures { (s s' : View ⟦<U as Means>⟧.types) (k : ℕ) (coming : Coming) (bytes : List ℕ) (x : Step) → IsStep ⟦<U as Means>⟧.meaning k s (input.Datagram coming.time coming.remote coming.mark bytes) x s' → TellsDatagram ⟦<U as Means>⟧.meaning coming bytes (began s coming.time) (at s' x.did) }
{}

/// A law, which runs no code. Only a datagram does so: a step over another input, a transmit, a timeout, a close, a ping or a call of
/// the streams, tells of no packet that came (`pieces`), and that nothing was given to a layer (`given`).
pub fn datagrams_alone_tell<U: Suite>()
    ensures pieces { (s s' : View ⟦<U as Means>⟧.types) (k : ℕ) (i : Input) (x : Step) → is_datagram i ≡ false → IsStep ⟦<U as Means>⟧.meaning k s i x s' → pieces_in x.did ≡ [] }
    ensures given { (s s' : View ⟦<U as Means>⟧.types) (k : ℕ) (i : Input) (x : Step) → is_datagram i ≡ false → IsStep ⟦<U as Means>⟧.meaning k s i x s' → given_in x.did ≡ [] }
{}

/// A law, which runs no code. A datagram whose first packet was cut from it, as the connection cuts it, does what it does as a
/// whole, unless a server's first packet is awaited.
pub fn events_are_datagrams<U: Suite>()
    ensures { (a : At ⟦<U as Means>⟧.types) (coming : Coming) (p : Piece) (behind bytes : List ℕ) → piece_at (length a.state.setup.fixed.local_cid) (a.state.setup.fixed.version ∷ []) a.state.setup.fixed.grease_quic_bit bytes ≡ Ok (p, behind) → is_first_awaited a.state.setup ≡ false → event_after ⟦<U as Means>⟧.meaning coming p behind a ≡ datagram_after ⟦<U as Means>⟧.meaning coming bytes a }
{}

/// A law, which runs no code. Where a server's first packet is awaited, and a datagram may hold it: once that packet was cut from
/// the datagram and opened, it does what the datagram does as a whole.
pub fn first_packets_are_datagrams<U: Suite>()
    ensures { (a : At ⟦<U as Means>⟧.types) (coming : Coming) (p : Piece) (source token : List ℕ) (spin : Bool) (which : Option Which) (number : ℕ) (payload behind bytes : List ℕ) → piece_at (length a.state.setup.fixed.local_cid) (a.state.setup.fixed.version ∷ []) a.state.setup.fixed.grease_quic_bit bytes ≡ Ok (p, behind) → is_first_awaited a.state.setup ≡ true → first_token ⟦<U as Means>⟧.meaning a.state coming.remote bytes ≡ Some token → opening_of ⟦<U as Means>⟧.meaning a.state p ≡ Opened source token spin which number payload → first_packet_after ⟦<U as Means>⟧.meaning coming source token number payload behind (length bytes) a ≡ datagram_after ⟦<U as Means>⟧.meaning coming bytes a }
{}
