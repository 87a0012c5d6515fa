//! What is given was queued.

ghost use Rattle.std.specs.Prelude.{List};
ghost use Rattle.qc_datagrams.specs.Given.{GivesAll, GivesInOrder, StaysWithin, Step};

/// A law of the queue, which runs no code. However datagrams are queued and taken, those longer than
/// some length are dropped, and all are: what was given, and then what waits, was queued, in that
/// order and each once. Where each fits beside those that wait as it is queued, and none is dropped,
/// that is all that was queued. One that is queued waits alone, or all that wait fit into the
/// buffer: of each its bytes and 32 more.
#[tactic(auto, using(crate::proofs::GivenLaw::gives_in_order, crate::proofs::GivenLaw::gives_all, crate::proofs::GivenLaw::stays_within))]
pub fn gives_what_was_queued()
    ensures order { (xs : List Step) → GivesInOrder xs }
    ensures all { (xs : List Step) → GivesAll xs }
    ensures within { (xs : List Step) → StaysWithin xs }
{}
