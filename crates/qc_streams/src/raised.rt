//! Transport parameters of the peer that come a second time.

ghost use Rattle.std.specs.Prelude.{◌≡◌, ◌≤◌, ◌^◌, OnOk};
ghost use Rattle.qc_streams.specs.declared.state.StreamsState.{StreamsState};
ghost use Rattle.qc_streams.specs.Raised.{kind_raised, opened_raised, raising_steps};
ghost use Rattle.qc_streams.specs.Waits.{after};

use crate::counts::StreamLimit;
use crate::state::StreamsState;
use qc_base::{Dir, Side, StreamId, VarInt};
use std::alloc::AllocError;

impl StreamsState {
    /// The limits of the first streams of a kind, so many of them, rise to this one.
    #[tactic(auto, unfolding(crate::specs::Raised::kind_raised))]
    fn raise_kind(
        &mut self,
        initiator: Side,
        dir: Dir,
        limit: VarInt,
        most: u64,
    ) -> Result<(), AllocError>
        requires { most ≤ 2 ^ 60 }
        ensures { OnOk result (self.new ≡ kind_raised initiator dir limit most self.old) }
    {
        for index in 0..most {
            self.raise_stream(StreamId::new(initiator, dir, index), limit)?;
        }
        Ok(())
    }

    /// The peer's transport parameters came a second time, behind early data that it accepted, and
    /// [`StreamsState::set_limits`] has them already: what the peer takes of the streams that are open
    /// rises to their limits (RFC 9000, section 7.4.1), as by a MAX_STREAM_DATA for each.
    ///
    /// # Errors
    ///
    /// Want of memory.
    #[tactic(auto, unfolding(crate::specs::Raised::opened_raised, crate::specs::Streams::other))]
    pub fn raise_opened(&mut self) -> Result<(), AllocError>
        ensures { OnOk result (self.new ≡ opened_raised self.old) }
    {
        let own = self.side;
        let other = match own {
            Side::Client => Side::Server,
            Side::Server => Side::Client,
        };
        let limits = self.limits;
        let bi = StreamLimit::new(self.own.get(Dir::Bi).opened);
        let uni = StreamLimit::new(self.own.get(Dir::Uni).opened);
        let peer = self.peer.get(Dir::Bi).opened;
        self.raise_kind(own, Dir::Bi, limits.own_bidi_data, bi.value())?;
        self.raise_kind(own, Dir::Uni, limits.own_uni_data, uni.value())?;
        self.raise_kind(other, Dir::Bi, limits.peer_bidi_data, peer.value())
    }
}

/// A law, which runs no code. What [`StreamsState::raise_opened`] does are steps of the streams: a
/// MAX_STREAM_DATA for each stream that was opened.
#[tactic(auto, using(crate::proofs::RaisedLaw::raised_by_steps))]
pub fn opened_streams_are_raised_by_steps()
    ensures { (s : StreamsState) → opened_raised s ≡ after (raising_steps s) s }
{}
