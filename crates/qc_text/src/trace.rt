//! The text of a whole trace, and that of its steps alone.

ghost use Rattle.std.specs.Prelude.{◌≡◌, List, ◌++◌, IfOk, OnOk};
ghost use Rattle.std.specs.List.{All, flat_map};
ghost use Rattle.qc_text.specs.OneText.{IsInRange, IsPlain};
ghost use Rattle.qc_text.specs.TraceText.{step_text, steps_text, trace_text};

use crate::steps::put_step;
use qc_state::{Step, Trace};
use std::alloc::{AllocError, Global};

/// The text of a trace. It tells the trace: no other trace has it, as long as both leave nothing
/// out, which the traces of runs never do where the peer's address has neither flow label nor
/// scope. Each value of a trace in memory is in the range of its type.
#[tactic(auto, unfolding(crate::specs::TraceText::trace_text))]
pub fn trace_text(alloc: Global, trace: &Trace) -> Result<Vec<u8>, AllocError>
    ensures text { IfOk result (λ text. text.items ≡ trace_text trace.now) }
    ensures in_range { OnOk result (All IsInRange trace.now) }
    ensures one { IfOk result (λ text. All IsPlain trace.now → (other : List Step) → All IsInRange other → All IsPlain other → text.items ≡ trace_text other → other ≡ trace.now) }
{
    let mut out = steps_text(alloc, trace.as_slice())?;
    out.extend_from_slice(b"end\n")?;
    Ok(out)
}

/// The text of a trace with these steps, without the line `end`. Want of memory is the only refusal.
pub fn steps_text(alloc: Global, steps: &[Step]) -> Result<Vec<u8>, AllocError>
    ensures text { IfOk result (λ text. text.items ≡ steps_text steps.now) }
    ensures in_range { OnOk result (All IsInRange steps.now) }
{
    let mut out = Vec::from_slice(alloc, b"qconn 1\n")?;
    put_steps(&mut out, steps)?;
    Ok(out)
}

fn put_steps(out: &mut Vec<u8>, steps: &[Step]) -> Result<(), AllocError>
    ensures text { OnOk result (out.new.items ≡ out.old.items ++ flat_map step_text steps.now) }
    ensures in_range { OnOk result (All IsInRange steps.now) }
{
    for step in steps {
        put_step(out, step)?;
    }
    Ok(())
}
