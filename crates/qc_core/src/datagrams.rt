//! The application's datagrams: what is sent, what is taken of those that came, and what no longer fits (RFC 9221).

ghost use Rattle.std.specs.Prelude.{◌≡◌, ◌++◌, [], ◌∷◌, true, IfOk, OnOk, option_to_list};
ghost use Rattle.qc_datagrams.specs.Datagrams.{send_refusal};
ghost use Rattle.qc_datagrams.specs.Steps.{Sent, Taken, after};
ghost use Rattle.qc_state.specs.Datagrams.{frame_size_of, limit_on, sent_answer, shrunk_by, taken_answer};
ghost use Rattle.qc_state.specs.Moves.{Post, ReportAllHeard, state_move};
ghost use Rattle.qc_state.specs.Run.{datagram_limit};
ghost use Rattle.qc_state.specs.View.{ideal};

use crate::state::Core;
use bytes::Bytes;
use qc_datagrams::{Datagrams, SendRefusal, max_size};
use qc_params::TransportParameters;
use qc_path::Controller;
use qc_state::{Answer, Body, Events, Path, Refusal, Suite};
use std::alloc::{AllocError, Global};

/// A datagram is sent, for which the oldest are dropped that wait; it may have `most` bytes, where the peer takes any. Answers why it is
/// refused, if it is. Want of memory is the only refusal of the call.
#[tactic(auto, unfolding(qc_datagrams::specs::Steps::after, qc_datagrams::specs::Steps::after_step))]
pub(crate) fn send_datagram(
    datagrams: &mut Datagrams,
    alloc: Global,
    most: Option<u64>,
    body: &Body,
) -> Result<Option<SendRefusal>, AllocError>
    ensures refusal { IfOk result (λ refusal. refusal ≡ send_refusal most true body.now datagrams.old) }
    ensures leads { OnOk result (datagrams.new ≡ after (Sent most true body.now ∷ []) datagrams.old) }
{
    let bytes = Bytes::copy_from_slice(alloc, body.as_slice())?;
    match datagrams.send_refusal(most, true, &bytes) {
        Some(refusal) => {
            datagrams.refused(refusal);
            Ok(Some(refusal))
        }
        None => {
            datagrams.send(bytes)?;
            Ok(None)
        }
    }
}

/// What is answered where a datagram is to be sent.
fn sent_answer(refusal: Option<SendRefusal>) -> Answer
    ensures { result ≡ sent_answer refusal }
{
    match refusal {
        None => Answer::Done,
        Some(SendRefusal::Disabled) => Answer::Error(Refusal::Disabled),
        Some(SendRefusal::UnsupportedByPeer) => Answer::Error(Refusal::UnsupportedByPeer),
        Some(SendRefusal::TooLarge) => Answer::Error(Refusal::TooLarge),
        Some(SendRefusal::Blocked) => Answer::Error(Refusal::Blocked),
    }
}

/// What is answered where one is taken. Want of memory is the only refusal.
fn taken_answer(alloc: Global, taken: Option<Bytes>) -> Result<Answer, AllocError>
    ensures { IfOk result (λ answer. answer ≡ taken_answer (option_to_list taken)) }
{
    match taken {
        None => Ok(Answer::Nothing),
        Some(datagram) => {
            let body = Body::from_slice(alloc, datagram.as_slice())?;
            Ok(Answer::Datagram(body))
        }
    }
}

/// How long a DATAGRAM frame may be that the peer takes. None exactly where it takes none, or its parameters aren't known.
fn frame_size(peer: &Option<TransportParameters>) -> Option<u64>
    ensures { result ≡ frame_size_of peer.now }
{
    match peer {
        None => None,
        Some(peer) => match peer.max_datagram_frame_size {
            None => None,
            Some(size) => Some(size.into_inner()),
        },
    }
}

/// How many bytes a datagram of the application may have on a path. None exactly where the peer takes none, or its parameters aren't known.
fn limit_on<C: Controller>(path: &Path<C>, peer: &Option<TransportParameters>) -> Option<u64>
    ensures { result ≡ limit_on path.now peer.now }
{
    max_size(path.most(), path.remote_cid.len(), frame_size(peer))
}

/// Where a path takes smaller datagrams than before, those of the application that are to be sent and no longer fit are dropped. `before` is
/// the size that its search had found before.
#[tactic(auto, unfolding(qc_state::specs::Datagrams::shrunk_by, qc_datagrams::specs::Steps::after, qc_datagrams::specs::Steps::after_step))]
pub(crate) fn shrink<C: Controller>(
    datagrams: &mut Datagrams,
    before: u16,
    path: &Path<C>,
    peer: &Option<TransportParameters>,
)
    ensures { datagrams.new ≡ after (shrunk_by before path.now peer.now) datagrams.old }
{
    if path.kept.mtud.current_mtu() < before {
        match limit_on(path, peer) {
            None => {}
            Some(most) => datagrams.drop_longer(most),
        }
    }
}

impl<U: Suite> Core<U> {
    /// How many bytes a datagram of the application may have. None exactly where the peer takes none, or its parameters aren't known.
    #[tactic(auto, unfolding(qc_state::specs::Run::datagram_limit, qc_state::specs::Setup::ideal_setup))]
    pub fn datagram_limit(&self) -> Option<u64>
        ensures { result ≡ datagram_limit (ideal U.Random.stream self.now) }
    {
        limit_on(&self.paths.current, &self.setup.peer)
    }

    /// The application sends a datagram; the oldest that wait are dropped for it where there is no room. Want of memory is the only refusal
    /// of the call.
    pub fn send_datagram(&mut self, alloc: Global, body: &Body) -> Result<Answer, AllocError>
        ensures answer { IfOk result (λ answer. answer ≡ sent_answer (send_refusal (datagram_limit (ideal U.Random.stream self.old)) true body.now self.old.lower.datagrams)) }
        ensures leads { OnOk result ((ideal U.Random.stream self.new) ≡ state_move (Post (Sent (datagram_limit (ideal U.Random.stream self.old)) true body.now)) (ideal U.Random.stream self.old)) }
    {
        let most = self.datagram_limit();
        let refusal = self.do_send_datagram(alloc, most, body)?;
        Ok(sent_answer(refusal))
    }

    /// The application takes the oldest datagram that came. Want of memory is the only refusal of the call.
    #[tactic(auto, using(crate::proofs::DatagramCalls::taken_so))]
    pub fn recv_datagram(&mut self, alloc: Global) -> Result<Answer, AllocError>
        ensures answer { IfOk result (λ answer. answer ≡ taken_answer self.old.lower.datagrams.incoming) }
        ensures leads { OnOk result ((ideal U.Random.stream self.new) ≡ state_move (Post Taken) (ideal U.Random.stream self.old)) }
    {
        let taken = self.do_take_datagram();
        taken_answer(alloc, taken)
    }

    /// All that waits to be reported of datagrams, behind the others. Want of memory is the only refusal.
    pub fn take_heard_events(&mut self, events: &mut Events) -> Result<(), AllocError>
        ensures events { OnOk result (events.new ≡ events.old ++ self.old.life.heard) }
        ensures leads { OnOk result ((ideal U.Random.stream self.new) ≡ state_move ReportAllHeard (ideal U.Random.stream self.old)) }
    {
        self.do_report_all_heard(events)
    }
}
