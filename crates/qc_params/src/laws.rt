//! Laws of the transport parameters. The functions do nothing: what they promise is the law.

ghost use Rattle.qc_params.specs.ParametersFit.{ParametersWrittenAreRead};
ghost use Rattle.qc_params.specs.ParametersReading.{EntriesAreRead};

/// What [`crate::TransportParameters::write`] appends spells the parameters that were written, and is
/// read as them by each side that may be sent them, where the values fit their types. What was read
/// from bytes does, and so does what was written.
pub fn parameters_written_are_read()
    ensures { ParametersWrittenAreRead }
{}

/// Bytes that are entries by the grammar of RFC 9000, section 18, are read as these entries, whatever
/// the forms of their variable-length integers.
#[tactic(auto, using(crate::proofs::GrammarLaws::entries_read))]
pub fn entries_are_read()
    ensures { EntriesAreRead }
{}
