//! Two key rings under a list of events.

ghost use Rattle.std.specs.Prelude.{◌≡◌, List, [], OnOk, IfOk};
ghost use Rattle.qc_base.specs.declared.side.Side.{Side};
ghost use Rattle.qc_rings.specs.declared.pair.PairOutcome.{PairOutcome};
ghost use Rattle.qc_rings.specs.TwoRings.{first_world, log_of, Throughout, AreNear, UpdatesAreGood, CurrentOpens, OnlyOldFail};
ghost use Rattle.qc_rings.specs.Parties.{Parties, first_parties, parties_after, parties_outcome, parties_log};

use crate::keyed_end::KeyedEnd;
use crate::pair::{PairOutcome, RingEvent};
use qc_base::Side;
use qc_crypto::{KeySource, PacketKey};
use std::alloc::{AllocError, Global};
use std::marker::Model;

/// What came of each of a list of events.
#[derive(Debug, Drop)]
pub struct PairLog {
    outcomes: Vec<PairOutcome>,
}

impl Model for PairLog {
    ghost use Rattle.std.specs.Prelude.{List};
    ghost use Rattle.qc_rings.specs.declared.pair.PairOutcome.{PairOutcome};

    ghost Value = { List PairOutcome };

    ghost view = { λ l. l.outcomes.items };
}

impl PairLog {
    /// The outcomes, in the order of their events.
    pub fn outcomes(&self) -> &[PairOutcome]
        ensures { result.now ≡ self.now }
    {
        self.outcomes.as_slice()
    }
}

/// Both ends.
#[derive(Drop)]
struct Ends<P> {
    client: KeyedEnd<P>,
    server: KeyedEnd<P>,
}

impl<P> Model for Ends<P> {
    ghost use Rattle.qc_rings.specs.Parties.{Parties};

    ghost Value = { Parties P };

    ghost view = { λ e. record { client = e.client; server = e.server } };
}

impl<P: PacketKey> Ends<P> {
    /// Two ends in epoch 0.
    fn new<K: KeySource<P>>(alloc: Global, source: &K) -> Self
        ensures { result ≡ first_parties (K.keys_of source.now) }
    {
        Ends {
            client: KeyedEnd::new(alloc, source, Side::Client),
            server: KeyedEnd::new(alloc, source, Side::Server),
        }
    }

    /// One event.
    #[tactic(auto, unfolding(crate::specs::Parties::parties_after, crate::specs::Parties::parties_outcome))]
    fn happen<K: KeySource<P>>(
        &mut self,
        alloc: Global,
        source: &K,
        event: RingEvent,
    ) -> Result<PairOutcome, AllocError>
        ensures ends { OnOk result (self.new ≡ parties_after P.seal P.opening (K.keys_of source.now) self.old event) }
        ensures outcome { IfOk result (λ o. o ≡ parties_outcome P.opening self.old event) }
    {
        match event {
            RingEvent::Seal { from: Side::Client } => self.client.seal(),
            RingEvent::Seal { from: Side::Server } => self.server.seal(),
            RingEvent::Update { from: Side::Client } => Ok(
                self.client.update(source, Side::Client),
            ),
            RingEvent::Update { from: Side::Server } => Ok(
                self.server.update(source, Side::Server),
            ),
            RingEvent::Deliver {
                from: Side::Client,
                index,
            } => {
                let packet = self.client.packet(index);
                self.server.receive(alloc, source, Side::Server, packet)
            }
            RingEvent::Deliver {
                from: Side::Server,
                index,
            } => {
                let packet = self.server.packet(index);
                self.client.receive(alloc, source, Side::Client, packet)
            }
            RingEvent::Discard { at: Side::Client } => Ok(self.client.discard()),
            RingEvent::Discard { at: Side::Server } => Ok(self.server.discard()),
        }
    }

    /// A list of events.
    fn happen_all<K: KeySource<P>>(
        &mut self,
        alloc: Global,
        source: &K,
        events: &[RingEvent],
    ) -> Result<Vec<PairOutcome>, AllocError>
        ensures { IfOk result (λ outcomes. outcomes.items ≡ parties_log P.seal P.opening (K.keys_of source.now) events.now self.old) }
    {
        let mut outcomes = Vec::new(alloc);
        for event in events {
            let outcome = self.happen(alloc, source, *event)?;
            outcomes.push(outcome)?;
        }
        Ok(outcomes)
    }
}

/// Two ends that begin, and a list of events.
fn run_pair<P: PacketKey, K: KeySource<P>>(
    alloc: Global,
    source: &K,
    events: &[RingEvent],
) -> Result<PairLog, AllocError>
    ensures { IfOk result (λ log. log ≡ log_of events.now first_world) }
{
    let mut ends = Ends::new(alloc, source);
    let outcomes = ends.happen_all(alloc, source, events)?;
    Ok(PairLog { outcomes })
}

/// Runs two ends, with the keys of a source, through a list of events, and tells what came of each. Want of
/// memory is the only refusal. Each packet acknowledges all that its sealer had opened by then.
///
/// Throughout, the epochs of the ends differ by at most one; the keys of the next epoch open a packet only
/// where its number is above all that were opened and the last update of the peer's is answered, so that no
/// update is one that the peer wasn't allowed to make; each packet of its sealer's current epoch is opened,
/// whenever and however often it comes; and only packets of earlier epochs aren't.
#[tactic(auto, using(crate::proofs::Runs::always_near, crate::proofs::Runs::always_updates, crate::proofs::Runs::always_current, crate::proofs::Runs::always_old))]
pub fn ring_pair<P: PacketKey, K: KeySource<P>>(
    alloc: Global,
    source: &K,
    events: &[RingEvent],
) -> Result<PairLog, AllocError>
    ensures log { IfOk result (λ log. log ≡ log_of events.now first_world) }
    ensures near { Throughout AreNear events.now }
    ensures updates { Throughout UpdatesAreGood events.now }
    ensures current { Throughout CurrentOpens events.now }
    ensures old { Throughout OnlyOldFail events.now }
{
    run_pair(alloc, source, events)
}
