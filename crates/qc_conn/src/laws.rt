//! What joins the runs of connections to the texts of their traces.

ghost use Rattle.std.specs.Prelude.{◌≡◌, ◌≢◌, ℕ, List, [], ◌∷◌, ◌++◌, map};
ghost use Rattle.qc_conn.specs.Stored.{stored, tokens_in};
ghost use Rattle.qc_frame.specs.FrameFits.{Fits};
ghost use Rattle.qc_frame.specs.FrameSpelling.{spelling};
ghost use Rattle.qc_frame.specs.declared.frames.FrameOf.TheVariants as frames;
ghost use Rattle.qc_state.specs.declared.deeds.Did.{Did};
ghost use Rattle.qc_state.specs.declared.deeds.Did.TheVariants.{Gave};
ghost use Rattle.qc_state.specs.declared.deeds.Layer.TheVariants as layer;
ghost use Rattle.qc_text.specs.OneText.{IsTellingRun};
ghost use Rattle.qc_text.specs.TraceText.{trace_text};

use qc_state::{Means, Step, Suite};

/// A law, which runs no code. Two traces of runs have two texts. This needs values in the range of
/// their types, which each trace in memory has, CRYPTO bytes at the start below 2^62 in their
/// streams (RFC 9000, 19.6), and an address of the peer with neither flow label nor scope.
pub fn text_tells_run<U: Suite, V: Suite>()
    ensures { (xs ys : List Step) → IsTellingRun ⟦<U as Means>⟧.meaning xs → IsTellingRun ⟦<V as Means>⟧.meaning ys → trace_text xs ≡ trace_text ys → xs ≡ ys }
{}

/// A law, which runs no code. A store that keeps what it is given as a list has, behind what it had, the tokens that it is given, each once and in
/// order, under the name of the server; of deeds these are the tokens of the NEW_TOKEN frames that they give to it, in order (RFC 9000, 8.1.3 and
/// 19.7), and no other deed gives it one.
pub fn tokens_are_stored()
    ensures order { (name : List ℕ) (tokens : List (List ℕ)) (kept : List (List ℕ × List ℕ)) → stored (λ store n token. store ++ (n, token) ∷ []) name tokens kept ≡ kept ++ map (λ token. (name, token)) tokens }
    ensures told { (token : List ℕ) (ds : List Did) → Fits (frames.NewToken token) → tokens_in (Gave layer.Store (spelling (frames.NewToken token)) ∷ ds) ≡ token ∷ tokens_in ds }
    ensures others { (d : Did) (ds : List Did) → ((body : List ℕ) → d ≢ Gave layer.Store body) → tokens_in (d ∷ ds) ≡ tokens_in ds }
{}
