//! What joins the frames that are written to those that are read.

ghost use Rattle.std.specs.Prelude.{◌≡◌, ℕ, ◌<◌, ◌^◌, List, [], ◌∷◌, ◌++◌, length, map};
ghost use Rattle.std.specs.List.{flat_map};
ghost use Rattle.qc_base.specs.Varint.{varint};
ghost use Rattle.qc_frame.specs.Frame.{FrameValue, TypedValue};
ghost use Rattle.qc_frame.specs.FrameFits.{AllFit, AllNumbers, Fits, as_written, last_as_written};
ghost use Rattle.qc_frame.specs.FrameGrammar.{FrameAt};
ghost use Rattle.qc_frame.specs.FrameReading.{frame_at};
ghost use Rattle.qc_frame.specs.FrameSpelling.{frames_spelling, last_spelling, numbers_of, spelling};
ghost use Rattle.qc_frame.specs.Payload.{items_of};

/// A law, which runs no code. A frame that is written is read back as it was, and so is a payload
/// of frames, with or without a length in its last one, each with the type that it was written with;
/// but for the ranges of an ACK, whose numbers come back in their shortest form, and so as they were
/// where they had it. This needs numbers that have room in their fields, and each frame that was
/// read has such.
pub fn written_is_read()
    ensures frame { (f : FrameValue) (rest : List ℕ) → Fits f → frame_at (spelling f ++ rest) ≡ Ok (as_written f, rest) }
    ensures payload { (fs : List FrameValue) → AllFit fs → items_of (frames_spelling fs) ≡ map (λ f. Ok (as_written f)) fs }
    ensures last { (fs : List FrameValue) (f : FrameValue) → AllFit fs → Fits f → items_of (frames_spelling fs ++ last_spelling f) ≡ map (λ f. Ok (as_written f)) fs ++ Ok (last_as_written f) ∷ [] }
    ensures ranges { (numbers : List ℕ) → AllNumbers numbers → numbers_of (flat_map varint numbers) ≡ numbers }
    ensures of_read { (f : TypedValue) (bytes rest : List ℕ) → length bytes < 2 ^ 62 → FrameAt f bytes rest → Fits f.frame }
{}
