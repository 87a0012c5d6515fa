//! What holds of the ids of both ends over any calls.

ghost use Rattle.std.specs.Prelude.{◌≡◌, ◌⊎◌, ℕ, List, Option};
ghost use Rattle.qc_ids.specs.IssueLaws.{AsksInTurn, IssueCall, KeepsLimit, MayRun, NeverFalls, StaysRetired, issue_run};
ghost use Rattle.qc_ids.specs.LocalCids.{LocalCids, first_local_cids, retired};
ghost use Rattle.qc_ids.specs.QueueLaws.{AreFrames, KeepsFive, QueueCall, RetiresOnce, TellsDropped, UsesGiven, UsesOwnToken};

/// Laws of a [`CidQueue`](crate::CidQueue) that was made with the id `first` and then called any number of
/// times: the id in use was given, and its number wasn't retired; its reset token came with it; each number whose
/// id is dropped was told to be retired, and none is told twice; and at most five ids are kept. This function does
/// nothing.
#[tactic(auto, using(crate::proofs::QueueLaws::uses_given, crate::proofs::QueueLaws::retires_once, crate::proofs::QueueLaws::keeps_five, crate::proofs::Dropped::tells_dropped, crate::proofs::Dropped::uses_own_token))]
pub fn queue_laws()
    ensures given { (first : List ℕ) (calls : List QueueCall) → UsesGiven first calls }
    ensures once { (first : List ℕ) (calls : List QueueCall) → AreFrames calls → RetiresOnce first calls }
    ensures dropped { (first : List ℕ) (before calls : List QueueCall) (n : ℕ) → AreFrames before → AreFrames calls → TellsDropped first before calls n }
    ensures token { (first : List ℕ) (calls : List QueueCall) → UsesOwnToken first calls }
    ensures five { (first : List ℕ) (calls : List QueueCall) → AreFrames calls → KeepsFive first calls }
{}

/// Laws of a [`CidState`](crate::CidState) that was made and then called any number of times, in each case with
/// ids that are the next ones. This function does nothing.
///
/// - An id that was retired is never active again.
/// - The number below which ids are to be retired never falls.
/// - An active id below that number is one that its last raise asked for (RFC 9000, section 5.1.2).
/// - Where this end issues what is asked for, at once, the batch as the other end's parameters come with it, no more
///   ids are active than the limit, those aside that the other end is asked to retire (RFC 9000, section 5.1.1).
#[tactic(auto, using(crate::proofs::IssueLaws::stays_retired, crate::proofs::IssueLaws::never_falls, crate::proofs::IssueLaws::asks_in_turn, crate::proofs::IssueLaws::keeps_limit))]
pub fn issue_laws()
    ensures retired { (cid_len : ℕ) (lifetime : Option ℕ) (now issued : ℕ) (before : List IssueCall) (n : ℕ) (calls : List IssueCall) → (issued ≡ 1) ⊎ (issued ≡ 2)
        → MayRun before (first_local_cids cid_len lifetime now issued)
        → MayRun calls (retired n (issue_run before (first_local_cids cid_len lifetime now issued)))
        → StaysRetired (first_local_cids cid_len lifetime now issued) before n calls }
    ensures falls { (cid_len : ℕ) (lifetime : Option ℕ) (now issued : ℕ) (before calls : List IssueCall) → (issued ≡ 1) ⊎ (issued ≡ 2)
        → MayRun before (first_local_cids cid_len lifetime now issued)
        → MayRun calls (issue_run before (first_local_cids cid_len lifetime now issued))
        → NeverFalls (first_local_cids cid_len lifetime now issued) before calls }
    ensures turn { (cid_len : ℕ) (lifetime : Option ℕ) (now issued : ℕ) (calls : List IssueCall) → (issued ≡ 1) ⊎ (issued ≡ 2)
        → MayRun calls (first_local_cids cid_len lifetime now issued) → AsksInTurn (first_local_cids cid_len lifetime now issued) calls }
    ensures limit { (limit cid_len : ℕ) (lifetime : Option ℕ) (now issued : ℕ) (last : LocalCids) → (issued ≡ 1) ⊎ (issued ≡ 2)
        → KeepsLimit limit (first_local_cids cid_len lifetime now issued) last }
{}
