//! What holds of recovery's steps.

ghost use Rattle.std.specs.Prelude.{◌≡◌, ℕ, ◌≤◌, ◌==◌, true, false, List, [], ◌++◌, length, None, IsPermutation, is_some, unwrap_or};
ghost use Rattle.std.specs.List.{list_any};
ghost use Rattle.qc_base.specs.declared.range_set.NumberRange.{NumberRange};
ghost use Rattle.qc_base.specs.declared.side.SpaceId.{SpaceId};
ghost use Rattle.qc_flight.specs.Packets.{has_number, is_acked, is_below, is_in, those};
ghost use Rattle.qc_frame.specs.AckRanges.{Acknowledges};
ghost use Rattle.qc_frame.specs.Frame.{AckValue};
ghost use Rattle.qc_frame.specs.FrameFits.{Fits};
ghost use Rattle.qc_frame.specs.declared.frames.FrameOf.TheVariants as frames;
ghost use Rattle.qc_path.specs.Arrived.{exceeds};
ghost use Rattle.qc_path.specs.RoundTrips.{Rtt};
ghost use Rattle.qc_recovery.specs.Acking.{acked_of, limit_with, raised, space_acked};
ghost use Rattle.qc_recovery.specs.Calls.{begun_recovery};
ghost use Rattle.qc_recovery.specs.Frames.{ranges_up_of, values_of};
ghost use Rattle.qc_recovery.specs.Runs.{AreSettledOnce, Call, all_fates, calls_after, no_fates};
ghost use Rattle.qc_recovery.specs.Settlement.{all_of};
ghost use Rattle.qc_recovery.specs.Stands.{all_asked, stands};
ghost use Rattle.qc_recovery.specs.Told.{CongestionEvent, acks_written, events_acked, events_fired, is_no_probe, loss_events, losses_of_ack, marks_told, recorder};
ghost use Rattle.qc_recovery.specs.TransportValues.{TransportValues};
ghost use Rattle.qc_recovery.specs.Steps.{ack_after, armed_at, marks_read, occasion, path_lost, space_after, space_of, space_timed, space_with, timeout_after};
ghost use Rattle.qc_recovery.specs.declared.calls.AckValues.{AckValues};
ghost use Rattle.qc_recovery.specs.declared.calls.Around.{Around};
ghost use Rattle.qc_recovery.specs.declared.calls.Occasion.{Occasion};
ghost use Rattle.qc_recovery.specs.declared.limits.Limits.{Limits};
ghost use Rattle.qc_recovery.specs.declared.path.PathData.{PathData};
ghost use Rattle.qc_recovery.specs.declared.recovery.Recovery.{Recovery};
ghost use Rattle.qc_recovery.specs.declared.space.SpaceRecovery.{SpaceRecovery};

use qc_flight::packets_leave_once;
use qc_frame::ranges_lie_apart;
use qc_path::Controller;

/// A law, which runs no code. An ACK of numbers none of which is in flight changes nothing but the
/// greatest number acknowledged, and its counts of marks are looked at; where the path's packets carry
/// no mark, or the ACK has no counts, that changes nothing either.
pub fn unknown_numbers_change_little<C: Controller>()
    ensures marks { (l : Limits) (o : Occasion) (a : AckValues) (ranges : List NumberRange) (around : Around) (s : SpaceRecovery) (p : PathData C) → those (is_acked ranges) s.flight ≡ [] → space_after C.Controller l o a ranges around s p ≡ marks_read C.Controller o a (exceeds s.greatest a.largest) [] [] (raised a.largest [] s) p }
    ensures unmarked { (l : Limits) (o : Occasion) (a : AckValues) (ranges : List NumberRange) (around : Around) (s : SpaceRecovery) (p : PathData C) → those (is_acked ranges) s.flight ≡ [] → p.sending_ecn ≡ false → space_after C.Controller l o a ranges around s p ≡ space_with (raised a.largest [] s) p [] [] }
    ensures uncounted { (l : Limits) (o : Occasion) (a : AckValues) (ranges : List NumberRange) (around : Around) (s : SpaceRecovery) (p : PathData C) → those (is_acked ranges) s.flight ≡ [] → a.ecn ≡ None → space_after C.Controller l o a ranges around s p ≡ space_with (raised a.largest [] s) p [] [] }
{
    packets_leave_once();
}

/// A law, which runs no code. What an ACK or the timer does to a space settles each of its packets once:
/// they are those that were acknowledged, those that are lost, and those still in flight, in another
/// order.
pub fn packets_are_settled_once<C: Controller>()
    ensures ack { (l : Limits) (o : Occasion) (a : AckValues) (ranges : List NumberRange) (around : Around) (s : SpaceRecovery) (p : PathData C) → IsPermutation s.flight (all_of (space_after C.Controller l o a ranges around s p)) }
    ensures timer { (l : Limits) (now : ℕ) (id : SpaceId) (s : SpaceRecovery) (p : PathData C) → IsPermutation s.flight (all_of (space_timed C.Controller l now id s p)) }
{}

/// A law, which runs no code. Over any calls, each with its own path, each packet that was sent in a
/// space is acknowledged, lost, dropped with its space, or in flight, and that once.
pub fn runs_settle_once<C: Controller>()
    ensures { (id : SpaceId) (config : TransportValues) (calls : List (Call C)) → AreSettledOnce id (calls_after C.Controller calls (begun_recovery config)) (all_fates C.Controller id calls (begun_recovery config) no_fates) }
{}

/// A law, which runs no code. The packets that an ACK settles as acknowledged have numbers that it
/// acknowledges, so none above its largest (RFC 9000, section 19.3).
pub fn acked_numbers_are_acknowledged<C: Controller>()
    ensures named { (now : ℕ) (id : SpaceId) (next began : ℕ) (a : AckValues) (ranges : List NumberRange) (around : Around) (r : Recovery) (p : PathData C) (n : ℕ) → has_number n (ack_after C.Controller now id next began a ranges around r p).acked ≡ true → is_in ranges n ≡ true }
    ensures acknowledged { (now : ℕ) (id : SpaceId) (next began : ℕ) (ack : AckValue) (around : Around) (r : Recovery) (p : PathData C) (n : ℕ) → has_number n (ack_after C.Controller now id next began (values_of ack) (ranges_up_of ack) around r p).acked ≡ true → Acknowledges ack n }
    ensures most { (now : ℕ) (id : SpaceId) (next began : ℕ) (ack : AckValue) (around : Around) (r : Recovery) (p : PathData C) (n : ℕ) → Fits (frames.Ack ack) → has_number n (ack_after C.Controller now id next began (values_of ack) (ranges_up_of ack) around r p).acked ≡ true → n ≤ ack.largest }
{
    ranges_lie_apart();
}

/// A law, which runs no code. A controller is told of each loss that counts, once: the packets that an
/// ACK or the timer shows to be lost, the MTU probe aside, are one congestion event where one of them
/// counted as in flight, and none else (RFC 9002, section 7.3.2). An ACK tells it besides of marks
/// alone, in which no bytes are lost. It is so of each call, whatever calls were made before and
/// whichever path it is handed (`fired`, `acked`), and of what a call does to one space. It is shown on
/// a controller that writes down what it is told.
pub fn losses_are_told_once()
    ensures timer { (l : Limits) (now : ℕ) (id : SpaceId) (s : SpaceRecovery) (p : PathData (List CongestionEvent)) → (space_timed recorder l now id s p).path.congestion ≡ p.congestion ++ loss_events false (those (is_no_probe id p.mtud) (space_timed recorder l now id s p).lost) }
    ensures ack { (l : Limits) (o : Occasion) (a : AckValues) (ranges : List NumberRange) (around : Around) (s : SpaceRecovery) (p : PathData (List CongestionEvent)) → (length (acked_of ranges s) == 0) ≡ false → (space_after recorder l o a ranges around s p).path.congestion ≡ p.congestion ++ (losses_of_ack l o around (space_after recorder l o a ranges around s p).lost (acks_written o a ranges around s p) ++ marks_told o a (exceeds s.greatest a.largest) (length (acked_of ranges s)) (space_acked a.largest ranges s) (path_lost recorder l o around (space_after recorder l o a ranges around s p).lost (acks_written o a ranges around s p))) }
    ensures fired { (now : ℕ) (around : Around) (r : Recovery) (p : PathData (List CongestionEvent)) → (timeout_after recorder now around r p).path.congestion ≡ p.congestion ++ events_fired p.mtud (timeout_after recorder now around r p).fired }
    ensures acked { (now : ℕ) (id : SpaceId) (next began : ℕ) (a : AckValues) (ranges : List NumberRange) (around : Around) (r : Recovery) (p : PathData (List CongestionEvent)) → (length (acked_of ranges (space_of id r)) == 0) ≡ false → (ack_after recorder now id next began a ranges around r p).path.congestion ≡ p.congestion ++ events_acked r.limits (occasion now id next began r) a ranges around (ack_after recorder now id next began a ranges around r p).lost (space_of id r) p }
    ensures ack_of_nothing { (l : Limits) (o : Occasion) (a : AckValues) (ranges : List NumberRange) (around : Around) (s : SpaceRecovery) (p : PathData (List CongestionEvent)) → (length (acked_of ranges s) == 0) ≡ true → (space_after recorder l o a ranges around s p).path.congestion ≡ p.congestion ++ marks_told o a (exceeds s.greatest a.largest) 0 (space_acked a.largest ranges s) p }
{}

/// A law, which runs no code. After any calls, each with its own path, the loss timer stands exactly
/// where a packet may be lost for its age at a known time, or where sending isn't blocked and something
/// waits: a packet that counts, in a space in which one that elicits an ACK was sent; or, with nothing
/// in flight that elicits an ACK, an end whose address may not be validated (RFC 9002, section 6.2). And
/// behind an ACK that newly acknowledges, and behind a loss for age, that time is known exactly where a
/// packet below the greatest number acknowledged is in flight.
pub fn timer_stands_where_something_waits<C: Controller>()
    ensures stands { (config : TransportValues) (calls : List (Call C)) (now : ℕ) (around : Around) (rtt : Rtt) → is_some (armed_at now around rtt (calls_after C.Controller calls (begun_recovery config))) ≡ stands around (λ id. all_asked id calls false) (calls_after C.Controller calls (begun_recovery config)) }
    ensures ack { (l : Limits) (o : Occasion) (a : AckValues) (ranges : List NumberRange) (around : Around) (s : SpaceRecovery) (p : PathData C) → (length (acked_of ranges s) == 0) ≡ false → is_some (space_after C.Controller l o a ranges around s p).space.loss_time ≡ list_any (is_below (limit_with s.greatest a.largest)) (space_after C.Controller l o a ranges around s p).space.flight }
    ensures age { (l : Limits) (now : ℕ) (id : SpaceId) (s : SpaceRecovery) (p : PathData C) → is_some (space_timed C.Controller l now id s p).space.loss_time ≡ list_any (is_below (unwrap_or s.greatest 0)) (space_timed C.Controller l now id s p).space.flight }
{}
