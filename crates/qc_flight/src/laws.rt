//! What holds of packets in flight, whatever takes them out.

ghost use Rattle.std.specs.Prelude.{◌≡◌, ℕ, Bool, true, false, ◌||◌, List, []};
ghost use Rattle.qc_flight.specs.Packets.{Ascending, Entry, has_number, others, those};

/// A law, which runs no code. A packet is in flight before some are taken out exactly if it is taken
/// or stays; it isn't both; and where none is taken, all stay.
#[tactic(auto, using(crate::proofs::Leaving::number_kept, crate::proofs::Leaving::not_both, crate::proofs::Leaving::none_taken))]
pub fn packets_leave_once()
    ensures kept { (n : ℕ) (p : Entry → Bool) (es : List Entry) → (has_number n (those p es) || has_number n (others p es)) ≡ has_number n es }
    ensures once { (n : ℕ) (p : Entry → Bool) (es : List Entry) → Ascending es → has_number n (those p es) ≡ true → has_number n (others p es) ≡ false }
    ensures none { (p : Entry → Bool) (es : List Entry) → those p es ≡ [] → others p es ≡ es }
{}
