//! Laws of what waits to be sent, which hold whatever happens: it is drawn.

ghost use Rattle.std.specs.Prelude.{ℕ, Bool, List};
ghost use Rattle.qc_base.specs.declared.side.Side.{Side};
ghost use Rattle.qc_streams.specs.Pending.{ControlIsDrawn, WaitingIsDrawn};
ghost use Rattle.qc_streams.specs.Streams.{new_streams};
ghost use Rattle.qc_streams.specs.Waits.{ArePossible, Step};

/// A law, which runs no code. Whatever happened to the streams of a connection, as long as fewer than 2^64 - 1
/// turns were given: where `has_waiting` is false, `draw_part` draws nothing behind `file_marks`, however much
/// room there is; where it is true, one STREAM frame is drawn wherever there is room for 20 bytes; and it is
/// true exactly where bytes of an open stream wait, or its end (RFC 9000, sections 2.2 and 3.1).
#[tactic(auto, using(crate::proofs::PendingLaw::waiting_is_drawn))]
pub fn what_waits_is_drawn()
    ensures { (side : Side) (uni bi window stream_window send_window : ℕ) (fair : Bool) (xs : List Step) → ArePossible xs → WaitingIsDrawn (new_streams side uni bi window stream_window send_window fair) xs }
{}

/// A law, which runs no code. Whatever happened to the streams of a connection: where `has_control` is false,
/// `draw_control` draws nothing behind `file_marks`, however much room there is; where it is true, there is a
/// frame that is drawn wherever its own spelling fits; and it is true exactly where a frame is owed (RFC 9000,
/// sections 3.3, 3.5 and 4).
#[tactic(auto, using(crate::proofs::PendingLaw::control_is_drawn))]
pub fn control_that_waits_is_drawn()
    ensures { (side : Side) (uni bi window stream_window send_window : ℕ) (fair : Bool) (xs : List Step) → ArePossible xs → ControlIsDrawn (new_streams side uni bi window stream_window send_window fair) xs }
{}
