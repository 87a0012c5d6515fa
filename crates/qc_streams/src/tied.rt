//! Laws that tie what is counted, and what is told, to the calls and frames that made it so.

ghost use Rattle.std.specs.Prelude.{ℕ, Bool, List};
ghost use Rattle.qc_base.specs.declared.side.Side.{Side};
ghost use Rattle.qc_streams.specs.Finishing.{FinishedIsToldOnce};
ghost use Rattle.qc_streams.specs.Streams.{new_streams};
ghost use Rattle.qc_streams.specs.Tied.{CountsWhatCame, WritesWithin};
ghost use Rattle.qc_streams.specs.Waits.{Step};

/// A law, which runs no code. Whatever happens to the streams of a connection, where writes take no more than
/// they may and limits have at most 64 bits: the bytes of all writes, on all streams together, are at most the
/// greatest limit that came, in the peer's transport parameters, which may come twice, or in a MAX_DATA (RFC
/// 9000, section 4.1). Both begin anew where the server refuses early data.
#[tactic(auto, using(crate::proofs::TiedLaw::writes_within))]
pub fn writes_stay_within()
    ensures { (side : Side) (uni bi window stream_window send_window : ℕ) (fair : Bool) (xs : List Step) → WritesWithin (new_streams side uni bi window stream_window send_window fair) xs }
{}

/// A law, which runs no code. Whatever happens to the streams of a connection, where frames that name a stream
/// aren't refused: what counts as received is the sum over all streams of the greatest end that came on each,
/// as long as it hadn't ended: that of a STREAM's bytes, and the final size of a RESET_STREAM (RFC 9000,
/// sections 4.1 and 4.5). The count stands still at 2^64 - 1, and begins anew where the server refuses early
/// data.
#[tactic(auto, using(crate::proofs::CameLaw::counts_what_came))]
pub fn counts_what_came()
    ensures { (side : Side) (uni bi window stream_window send_window : ℕ) (fair : Bool) (xs : List Step) → CountsWhatCame (new_streams side uni bi window stream_window send_window fair) xs }
{}

/// A law, which runs no code. Whatever happens to the streams of a connection, where writes take no more than
/// they may: that a stream is finished is told at most once; and where it was told, each byte that was written
/// on the stream was acknowledged, and so was its end (RFC 9000, section 3.1, "Data Recvd"). It all begins anew
/// where the server refuses early data.
#[tactic(auto, using(crate::proofs::FinishingLaw::finished_is_told_once))]
pub fn finished_is_told_once()
    ensures { (side : Side) (uni bi window stream_window send_window : ℕ) (fair : Bool) (xs : List Step) → FinishedIsToldOnce (new_streams side uni bi window stream_window send_window fair) xs }
{}
