//! Laws of the streams of a connection, which hold whatever happens: what waits is where it is looked for.

ghost use Rattle.std.specs.Prelude.{◌≡◌, ℕ, ◌<◌, ◌^◌, Bool, List, Some};
ghost use Rattle.qc_base.specs.declared.side.Side.{Side};
ghost use Rattle.qc_streams.specs.Carried.{EndIsToldOnce, GivesEachOnce, ReadsWhatCame, SendsWhatWasWritten};
ghost use Rattle.qc_streams.specs.Filed.{FiledIsExact, OwedIsFiled, TurnsStand, UnmarkedHavePlaces};
ghost use Rattle.qc_streams.specs.Control.{next_control};
ghost use Rattle.qc_streams.specs.StreamBytes.{IsDrawn};
ghost use Rattle.qc_streams.specs.Steps.{AllMay, Handed, IsOffered, IsOwed, NamesStream, steps_of};
ghost use Rattle.qc_streams.specs.Streams.{new_streams};
ghost use Rattle.qc_streams.specs.declared.control.Control.{Control};
ghost use Rattle.qc_streams.specs.declared.parts.StreamPart.{StreamPart};
ghost use Rattle.qc_streams.specs.declared.state.StreamsState.{StreamsState};
ghost use Rattle.qc_streams.specs.Waits.{ArePossible, Step, WaitWhereBlocked};
ghost use Rattle.qc_streams.specs.Within.{CreditIsKept};

/// A law, which runs no code. Whatever happens to the streams of a connection, in any order and as often
/// as it may: exactly those wait until they can be written on again on which a write was blocked since
/// that was last told, and that are neither finished nor reset and have credit of their own.
#[tactic(auto, using(crate::proofs::WaitLaw::wait_where_blocked))]
pub fn streams_wait_where_blocked()
    ensures { (side : Side) (uni bi window stream_window send_window : ℕ) (fair : Bool) (xs : List Step) → ArePossible xs → WaitWhereBlocked (new_streams side uni bi window stream_window send_window fair) xs }
{}

/// A law, which runs no code. Whatever happens to the streams of a connection: nothing that one of them
/// owes is forgotten, and nothing waits that it doesn't owe. A stream that is to be looked at stands among
/// the marks; any other is in the set of each frame exactly where it owes that frame, and has a turn
/// exactly where its bytes wait, or its end. What isn't open any more is in none.
#[tactic(auto, using(crate::proofs::FiledLaw::owed_is_filed))]
pub fn what_is_owed_is_filed()
    ensures { (side : Side) (uni bi window stream_window send_window : ℕ) (fair : Bool) (xs : List Step) → ArePossible xs → OwedIsFiled (new_streams side uni bi window stream_window send_window fair) xs }
{}

/// A law, which runs no code. Whatever happens to the streams of a connection: once `file_marks` has
/// looked at those that are marked, each stream is in the set of each frame exactly where it owes that
/// frame, and has a turn exactly where its bytes wait, or its end.
#[tactic(auto, using(crate::proofs::FiledLaw::filed_is_exact))]
pub fn filed_is_what_is_owed()
    ensures { (side : Side) (uni bi window stream_window send_window : ℕ) (fair : Bool) (xs : List Step) → ArePossible xs → FiledIsExact (new_streams side uni bi window stream_window send_window fair) xs }
{}

/// A law, which runs no code. Whatever happens to the streams of a connection: for marks there are as many
/// free places as streams without one, so that a call which marks a stream takes no memory.
#[tactic(auto, using(crate::proofs::FiledLaw::unmarked_have_places))]
pub fn unmarked_streams_have_places()
    ensures { (side : Side) (uni bi window stream_window send_window : ℕ) (fair : Bool) (xs : List Step) → ArePossible xs → UnmarkedHavePlaces (new_streams side uni bi window stream_window send_window fair) xs }
{}

/// A law, which runs no code. Whatever happens to the streams of a connection, as long as fewer than
/// 2^64 - 1 turns were given: the places in the order of turns are exactly those that the streams have,
/// each with its stream.
#[tactic(auto, using(crate::proofs::FiledLaw::turns_stand))]
pub fn turns_stand()
    ensures { (side : Side) (uni bi window stream_window send_window : ℕ) (fair : Bool) (xs : List Step) → ArePossible xs → TurnsStand (new_streams side uni bi window stream_window send_window fair) xs }
{}

/// A law, which runs no code. Whatever happens to the streams of a connection, where writes take no more
/// than they may, streams are opened where they may be, and frames that name a stream aren't refused: on
/// each stream and on all together, what was written lies within the limit that the peer gave, and what
/// came within the credit that this end gives (RFC 9000, section 4.1); no more streams are opened, by
/// either end, than the other lets (section 4.6); and the peer is told of no more credit and of no more
/// streams than it has.
#[tactic(auto, using(crate::proofs::WithinLaw::credit_is_kept))]
pub fn credit_is_kept()
    ensures { (side : Side) (uni bi window stream_window send_window : ℕ) (fair : Bool) (xs : List Step) → window < 2 ^ 64 → stream_window < 2 ^ 64 → CreditIsKept (new_streams side uni bi window stream_window send_window fair) xs }
{}

/// A law, which runs no code. Whatever happens to the streams of a connection, where writes take no more than
/// they may, streams are opened where they may be, and frames that name a stream aren't refused: what a STREAM
/// frame may hold of a stream from an offset on are the bytes that were written on it there, however often
/// parts of it were lost and are sent again, and it has the end only where they end (RFC 9000, section 2.2). So
/// the bytes that are sent for a stream at an offset are always the same.
#[tactic(auto, using(crate::proofs::CarriedLaw::sends_what_was_written))]
pub fn sends_what_was_written()
    ensures { (side : Side) (uni bi window stream_window send_window : ℕ) (fair : Bool) (xs : List Step) → SendsWhatWasWritten (new_streams side uni bi window stream_window send_window fair) xs }
{}

/// A law, which runs no code. Whatever happens to the streams of a connection, where frames with bytes aren't
/// refused and reads answer what they may: what was read of a stream, which is read in order alone, are the
/// first of the bytes that came on it, from offset 0 on, each once, and at each offset the one that came
/// first; and where its end may be told, they are all bytes up to the end (RFC 9000, section 2.2).
#[tactic(auto, using(crate::proofs::CarriedLaw::reads_what_came))]
pub fn reads_what_came()
    ensures { (side : Side) (uni bi window stream_window send_window : ℕ) (fair : Bool) (xs : List Step) → ReadsWhatCame (new_streams side uni bi window stream_window send_window fair) xs }
{}

/// A law, which runs no code. Whatever happens to the streams of a connection: once the end of a stream was
/// told, reads of it tell nothing any more but that it is closed, for as long as the server doesn't refuse
/// early data, after which all streams are as new.
#[tactic(auto, using(crate::proofs::CarriedLaw::end_is_told_once))]
pub fn end_is_told_once()
    ensures { (side : Side) (uni bi window stream_window send_window : ℕ) (fair : Bool) (xs : List Step) → EndIsToldOnce (new_streams side uni bi window stream_window send_window fair) xs }
{}

/// A law, which runs no code. Whatever happens to the streams of a connection, where frames with bytes aren't
/// refused and reads answer what they may, in order or out of order: no byte of a stream is given twice, and
/// each that is given is the first that came at its offset.
#[tactic(auto, using(crate::proofs::CarriedLaw::gives_each_once))]
pub fn gives_each_once()
    ensures { (side : Side) (uni bi window stream_window send_window : ℕ) (fair : Bool) (xs : List Step) → GivesEachOnce (new_streams side uni bi window stream_window send_window fair) xs }
{}

/// A law, which runs no code. What is drawn of a stream waited, whoever's turn it was: bytes that were lost, or
/// that were written and never sealed, or the end (RFC 9000, section 2.2).
#[tactic(auto, using(crate::proofs::StepsLaw::drawn_offers))]
pub fn drawn_bytes_waited()
    ensures { (room : ℕ) (s : StreamsState) (d : StreamPart) → IsDrawn room s (Some d) → IsOffered d s }
{}

/// A law, which runs no code. A frame without bytes that is drawn was owed (RFC 9000, sections 3.3, 3.5 and 4).
#[tactic(auto, using(crate::proofs::StepsLaw::next_owes))]
pub fn drawn_frames_were_owed()
    ensures { (room : ℕ) (s : StreamsState) (c : Control) → next_control room s ≡ Some c → IsOwed c s }
{}

/// A law, which runs no code. A frame that comes and names a stream that there can be is a step that there may
/// be, or none where it is refused.
#[tactic(auto, using(crate::proofs::StepsLaw::handed_may))]
pub fn frames_are_steps()
    ensures { (f : Handed) (s : StreamsState) → NamesStream f → AllMay (steps_of f s) s }
{}
