//! What holds of the connection ids over any steps.

ghost use Rattle.std.specs.Prelude.{ℕ, List};
ghost use Rattle.qc_base.specs.declared.ids.IssuedCid.{IssuedCid};
ghost use Rattle.qc_cids.specs.declared.connection_ids.ConnectionIds.{ConnectionIds};
ghost use Rattle.qc_cids.specs.Laws.{FoldsQueue, HasFrames, KeepsAtMostFive, RetiresEachOnce, RetiresWhatIsDue, SendsToGiven, TellsWhatWasGiven};
ghost use Rattle.qc_cids.specs.Steps.{Step};
ghost use Rattle.qc_ids.specs.LocalCids.{LocalCids};

/// Laws of the peer's ids, whatever happens to them. This function does nothing.
///
/// - The steps are calls of their queue, so what holds over any calls of it holds over steps.
/// - Packets go to the first id, or to one that the peer gave (RFC 9000, section 5.1).
/// - At most five are kept.
/// - The queue tells each number to be retired once at most, and never that of the id in use.
#[tactic(auto, using(crate::proofs::Folding::folds_queue, crate::proofs::Folding::sends_to_given, crate::proofs::Folding::keeps_at_most_five, crate::proofs::Folding::retires_each_once))]
pub fn id_laws()
    ensures folds { (xs : List Step) (s : ConnectionIds) → FoldsQueue xs s }
    ensures given { (remote : List ℕ) (local : LocalCids) (xs : List Step) → SendsToGiven remote local xs }
    ensures five { (remote : List ℕ) (local : LocalCids) (xs : List Step) → HasFrames xs → KeepsAtMostFive remote local xs }
    ensures once { (remote : List ℕ) (local : LocalCids) (xs : List Step) → HasFrames xs → RetiresEachOnce remote local xs }
{}

/// Laws of what waits to be told, where each frame that is sealed is the one that goes next, and each that is lost was
/// sealed. This function does nothing.
///
/// - A RETIRE_CONNECTION_ID names a number that was to be retired: one that the queue told, or that of a frame that came
///   below the id in use (RFC 9000, sections 5.1.2 and 19.15).
/// - An id of this end that waits to be told was given.
#[tactic(auto, using(crate::proofs::Waiting::retires_what_is_due, crate::proofs::Waiting::tells_what_was_given))]
pub fn telling_laws()
    ensures due { (remote : List ℕ) (local : LocalCids) (xs : List Step) (n : ℕ) → RetiresWhatIsDue remote local xs n }
    ensures given { (remote : List ℕ) (local : LocalCids) (xs : List Step) (c : IssuedCid) → TellsWhatWasGiven remote local xs c }
{}
