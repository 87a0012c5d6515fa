//! What is read is what came.

ghost use Rattle.std.specs.Prelude.{List};
ghost use Rattle.qc_assembler.specs.Reads.{Step, ReadsWhatCame};

/// A law, which runs no code. Whatever comes, in any order and more than once, and whatever reads
/// in order come between: what they gave, from offset 0 on, and what waits are exactly the bytes
/// that came, each once, and at each offset the one that came first.
#[tactic(auto, using(crate::proofs::ReadLaw::reads_what_came))]
pub fn reads_what_came()
    ensures { (xs : List Step) → ReadsWhatCame xs }
{}
