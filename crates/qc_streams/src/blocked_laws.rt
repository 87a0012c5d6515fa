//! Laws of streams on which a write was blocked, which hold whatever happens: they are told in time.

ghost use Rattle.std.specs.Prelude.{ℕ, Bool, List};
ghost use Rattle.qc_base.specs.declared.side.Side.{Side};
ghost use Rattle.qc_streams.specs.Streams.{new_streams};
ghost use Rattle.qc_streams.specs.Waits.{ArePossible, BlockedHavePlaces, CreditIsToldAtOnce, EventsWaitInOrder, Step};

/// A law, which runs no code. Whatever happens to the streams of a connection: there are at least as many
/// places for events put by as streams on which a write was blocked since it was last told that they can
/// be written on again, and that are neither finished nor reset. So that event waits without memory.
#[tactic(auto, using(crate::proofs::PlacedLaw::blocked_have_places))]
pub fn blocked_streams_have_places()
    ensures { (side : Side) (uni bi window stream_window send_window : ℕ) (fair : Bool) (xs : List Step) → ArePossible xs → BlockedHavePlaces (new_streams side uni bi window stream_window send_window fair) xs }
{}

/// A law, which runs no code. Whatever happened to the streams of a connection: once a call has happened
/// that may give credit, or room in the send window, and the connection is open and has both, no stream is
/// blocked that has credit of its own; what was blocked is queued to be told by then.
#[tactic(auto, using(crate::proofs::PlacedLaw::credit_is_told_at_once))]
pub fn credit_is_told_at_once()
    ensures { (side : Side) (uni bi window stream_window send_window : ℕ) (fair : Bool) (xs : List Step) → ArePossible xs → CreditIsToldAtOnce (new_streams side uni bi window stream_window send_window fair) xs }
{}

/// A law, which runs no code. Whatever happens to the streams of a connection, but that an event is told, or
/// that early data are refused, leaves the events that wait as they are, and queues others behind them.
#[tactic(auto, using(crate::proofs::PlacedLaw::events_wait_in_order))]
pub fn events_wait_in_order()
    ensures { EventsWaitInOrder }
{}
