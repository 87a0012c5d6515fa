//! Laws of toy sessions, over the definitions: which belong together, and what holds over any calls.

ghost use Rattle.std.specs.Prelude.{◌≡◌, List};
ghost use Rattle.qc_base.specs.declared.side.Side.{Side};
ghost use Rattle.qc_params.specs.declared.params.TransportParameters.{TransportParameters};
ghost use Rattle.qc_toy.specs.Handshake.{ArePaired, IsFresh};
ghost use Rattle.qc_toy.specs.Runs.{CompletesBehindBoth, HearsInOrder, SessionCall, session_run};
ghost use Rattle.qc_toy.specs.Start.{session_of};
ghost use Rattle.qc_toy.specs.declared.session.ToySession.{ToySession};
ghost use Rattle.qc_toy.specs.declared.settings.ToySettings.{ToySettings};

/// A client's and a server's session that are started with one secret are a pair, whatever else they are set up with.
#[tactic(auto, unfolding(crate::specs::Start::session_of))]
pub fn one_secret_pairs()
    ensures { (client server : ToySettings) (ours theirs : TransportParameters) → client.secret ≡ server.secret
        → ArePaired (session_of client Side.Client ours) (session_of server Side.Server theirs) }
{}

/// A law, which runs no code. Whatever calls a fresh session gets: the whole messages that it has heard are its peer's,
/// in their order and of their form, since nothing is kept of bytes that it refused (RFC 8446, section 4).
#[tactic(auto, using(crate::proofs::RunLaws::hears_in_order))]
pub fn hears_in_order()
    ensures { (s : ToySession) (calls : List SessionCall) → IsFresh s → HearsInOrder (session_run calls s) }
{}

/// A law, which runs no code. Whatever calls a fresh session gets: its handshake is complete only once it has written
/// its own last message and has heard all messages of its peer, the last among them (RFC 9001, section 4.1.1).
#[tactic(auto, using(crate::proofs::RunLaws::completes_behind_both))]
pub fn completes_behind_both()
    ensures { (s : ToySession) (calls : List SessionCall) → IsFresh s → CompletesBehindBoth (session_run calls s) }
{}
