//! What an ACK frame names, as recovery takes it.

ghost use Rattle.std.specs.Prelude.{◌≡◌, IfOk, reverse};
ghost use Rattle.qc_frame.specs.AckRanges.{ranges_of};
ghost use Rattle.qc_frame.specs.Frame.{ack_map};
ghost use Rattle.qc_recovery.specs.Frames.{ranges_up_of, values_of};

use crate::calls::AckValues;
use qc_base::NumberRange;
use qc_frame::Ack;
use std::alloc::{AllocError, Global};

/// The ranges of an ACK, from the greatest down.
fn ranges_down(alloc: Global, ack: &Ack<'_>) -> Result<Vec<NumberRange>, AllocError>
    ensures { IfOk result (λ ranges. ranges.items ≡ ranges_of (ack_map (λ bytes. bytes.now) ack.now)) }
{
    let mut ranges = Vec::new(alloc);
    for range in ack.ranges() {
        ranges.push(range)?;
    }
    Ok(ranges)
}

/// Turned round.
fn turn(ranges: &mut Vec<NumberRange>)
    ensures { ranges.new.items ≡ reverse ranges.old.items }
{
    ranges.as_mut_slice().reverse();
}

/// The ranges of an ACK, from low to high.
pub(crate) fn ranges_up(alloc: Global, ack: &Ack<'_>) -> Result<Vec<NumberRange>, AllocError>
    ensures { IfOk result (λ ranges. ranges.items ≡ ranges_up_of (ack_map (λ bytes. bytes.now) ack.now)) }
{
    let mut ranges = ranges_down(alloc, ack)?;
    turn(&mut ranges);
    Ok(ranges)
}

/// What it says beside them.
pub(crate) fn values(ack: &Ack<'_>) -> AckValues
    ensures { result ≡ values_of (ack_map (λ bytes. bytes.now) ack.now) }
{
    AckValues {
        largest: ack.largest,
        delay: ack.delay,
        ecn: ack.ecn,
    }
}
