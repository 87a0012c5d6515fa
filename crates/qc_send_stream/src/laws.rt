//! What is sent is what was written, and each byte is kept and sent again until it is acknowledged.

ghost use Rattle.std.specs.Prelude.{ℕ, List};
ghost use Rattle.qc_send_stream.specs.Fates.{KeepsUntilAcknowledged, SendsWhatIsDue};
ghost use Rattle.qc_send_stream.specs.StreamFates.{IsDoneOnce, KeepsBytes, SendsBytes, SendsEnd, StreamStep};
ghost use Rattle.qc_send_stream.specs.Written.{SendsWhatWasWritten, Step};

/// A law, which runs no code. However bytes are written, and frames of whatever ranges are sealed,
/// acknowledged and lost, in any order and more than once: what may be sent next from an offset on
/// are the bytes that were written there.
#[tactic(auto, using(crate::proofs::WrittenLaw::sends_what_was_written))]
pub fn sends_what_was_written()
    ensures { (xs : List Step) → SendsWhatWasWritten xs }
{}

/// A law of the buffer alone, which runs no code. However bytes are written, and frames of whatever
/// ranges are sealed, acknowledged and lost: each byte that was written and isn't acknowledged is
/// kept, unless all were let go. While a byte wasn't sent, or was lost since a frame with it was
/// last sealed, something waits, and what is to be sent next begins there or before (RFC 9000,
/// sections 3.1 and 13.3). A byte counts as acknowledged only where a frame with it was sealed
/// before.
#[tactic(auto, using(crate::proofs::FateLaw::keeps_until_acknowledged, crate::proofs::FateLaw::sends_what_is_due))]
pub fn keeps_until_acknowledged()
    ensures kept { (xs : List Step) → KeepsUntilAcknowledged xs }
    ensures due { (xs : List Step) → SendsWhatIsDue xs }
{}

/// A law of the stream's sending side, which runs no code. Whatever the application and the peer do,
/// and whatever becomes of its frames: each byte that was written and isn't acknowledged is kept,
/// unless the stream was reset. Without a reset, while a byte or the end wasn't sent, or was lost
/// since a frame with it was last sealed, a part is to be sent: one that begins at that byte or
/// before, and one that has bytes or the end. The stream is done only where each byte that was
/// written was acknowledged, and so was the end (RFC 9000, sections 3.1 and 13.3).
#[tactic(auto, using(crate::proofs::StreamLaw::keeps_bytes, crate::proofs::StreamLaw::sends_bytes, crate::proofs::StreamLaw::sends_end, crate::proofs::StreamLaw::is_done_once))]
pub fn stream_is_sent_until_acknowledged()
    ensures kept { (limit : ℕ) (xs : List StreamStep) → KeepsBytes limit xs }
    ensures bytes { (limit : ℕ) (xs : List StreamStep) → SendsBytes limit xs }
    ensures end { (limit : ℕ) (xs : List StreamStep) → SendsEnd limit xs }
    ensures done { (limit : ℕ) (xs : List StreamStep) → IsDoneOnce limit xs }
{}
