//! What the counts of an ACK show of marks (RFC 9000, section 13.4.2).

ghost use Rattle.std.specs.Prelude.{◌≡◌};
ghost use Rattle.qc_recovery.specs.Acking.{are_bad, counts_or_none_show, counts_kept, counts_show, ecn_shown, no_counts};

use qc_frame::EcnCounts;

/// What they show.
#[derive(Clone, Copy, Debug)]
pub enum EcnVerdict {
    /// They aren't looked at.
    Unread,
    /// There are none.
    Missing,
    /// They can't be.
    Bad,
    /// They can be.
    Good,
    /// They can be, and more packets than before came with a mark of congestion.
    Congested,
}

#[tactic(auto, unfolding(crate::specs::Acking::are_bad))]
fn cannot_be(old: EcnCounts, new: EcnCounts, acked: u64) -> bool
    ensures { result ≡ are_bad old new acked }
{
    if new.ect0 < old.ect0 {
        return true;
    }
    if new.ect1 != old.ect1 {
        return true;
    }
    if new.ce < old.ce {
        return true;
    }
    let ect0 = u128::from(new.ect0 - old.ect0);
    let ce = u128::from(new.ce - old.ce);
    ect0 + ce < u128::from(acked)
}

fn shown(raises: bool, old: EcnCounts, new: EcnCounts, acked: u64) -> EcnVerdict
    ensures { result ≡ counts_show raises old new acked }
{
    if !raises {
        return EcnVerdict::Unread;
    }
    if acked != 0 && cannot_be(old, new, acked) {
        return EcnVerdict::Bad;
    }
    if old.ce < new.ce {
        return EcnVerdict::Congested;
    }
    EcnVerdict::Good
}

fn shown_by(raises: bool, old: EcnCounts, new: Option<EcnCounts>, acked: u64) -> EcnVerdict
    ensures { result ≡ counts_or_none_show raises old new acked }
{
    match new {
        None => {
            if acked == 0 {
                EcnVerdict::Unread
            } else {
                EcnVerdict::Missing
            }
        }
        Some(new) => shown(raises, old, new, acked),
    }
}

/// What the counts of an ACK show that newly acknowledges `acked` packets.
#[tactic(auto, unfolding(crate::specs::Acking::ecn_shown))]
pub(crate) fn verdict(
    marking: bool,
    raises: bool,
    old: EcnCounts,
    new: Option<EcnCounts>,
    acked: u64,
) -> EcnVerdict
    ensures { result ≡ ecn_shown marking raises old new acked }
{
    if marking {
        shown_by(raises, old, new, acked)
    } else {
        EcnVerdict::Unread
    }
}

/// The counts that are kept.
pub(crate) fn kept(verdict: EcnVerdict, old: EcnCounts, new: Option<EcnCounts>) -> EcnCounts
    ensures { result ≡ counts_kept verdict old new }
{
    match verdict {
        EcnVerdict::Bad => EcnCounts {
            ect0: 0,
            ect1: 0,
            ce: 0,
        },
        EcnVerdict::Good | EcnVerdict::Congested => new.unwrap_or(old),
        EcnVerdict::Unread | EcnVerdict::Missing => old,
    }
}
