//! What two ends keep, whatever happens to them: laws over the definitions, for callers' proofs.

ghost use Rattle.qc_rings.specs.PairLaws.{FirstInStep, InStepTurned, SealKeepsStep, UpdateKeepsStep, DeliverKeepsStep, DiscardKeepsStep, OpenKeepsStep, AckKeepsStep, RiseKeepsStep, HearKeepsStep, StepIsNear, StepUpdatesWell, StepOpensCurrent, StepFailsOld, FirstCounts, SealKeepsCounts, UpdateKeepsCounts, OpenKeepsCounts, AckKeepsCounts, DiscardKeepsCounts, RiseKeepsCounts, HearKeepsCounts, NumbersReachEpochs, NamedIsOfEpoch};

/// Two ends begin in step, and stay so with each packet sealed, each update, each packet that reaches an
/// end and each discard, in whatever order these come (RFC 9001, section 6).
#[tactic(auto, using(crate::proofs::StepLaws::step_laws))]
pub fn ends_stay_in_step()
    ensures first { FirstInStep }
    ensures turned { InStepTurned }
    ensures seal { SealKeepsStep }
    ensures update { UpdateKeepsStep }
    ensures deliver { DeliverKeepsStep }
    ensures discard { DiscardKeepsStep }
{}

/// They stay so with parts of these: a packet that is opened without what it acknowledges being taken, and one
/// number that it acknowledges, now or later; and where packets under other keys share the numbers, as those of
/// 0-RTT do (RFC 9000, section 12.3): an end passes over numbers, and hears of some.
pub fn ends_stay_in_step_by_parts()
    ensures open { OpenKeepsStep }
    ensures acknowledge { AckKeepsStep }
    ensures rise { RiseKeepsStep }
    ensures hear { HearKeepsStep }
{}

/// Of two ends in step, the epochs differ by at most one; an update that is taken is one that the peer was
/// allowed to make; a packet of its sealer's epoch is opened, and only older ones aren't.
#[tactic(auto, using(crate::proofs::StepLaws::step_laws))]
pub fn ends_in_step_agree()
    ensures near { StepIsNear }
    ensures updates { StepUpdatesWell }
    ensures current { StepOpensCurrent }
    ensures old { StepFailsOld }
{}

/// An end's epoch is never greater than the number at which it begins, since an update waits for an
/// acknowledgement in its epoch (RFC 9001, section 6.1); so the packet that begins an update has a number above 0.
#[tactic(auto, using(crate::proofs::Counting::counting_laws))]
pub fn epochs_stay_below_numbers()
    ensures first { FirstCounts }
    ensures seal { SealKeepsCounts }
    ensures update { UpdateKeepsCounts }
    ensures open { OpenKeepsCounts }
    ensures acknowledge { AckKeepsCounts }
    ensures discard { DiscardKeepsCounts }
    ensures rise { RiseKeepsCounts }
    ensures hear { HearKeepsCounts }
    ensures numbers { NumbersReachEpochs }
{}

/// The keys that a ring's packets name are those of their epochs.
#[tactic(auto, using(crate::proofs::Counting::named_is_of_epoch))]
pub fn keys_are_of_epochs<P: Drop>()
    ensures { NamedIsOfEpoch P }
{}
