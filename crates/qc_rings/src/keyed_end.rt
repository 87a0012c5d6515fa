//! One of two ends: a key ring, and what it sealed and opened.

ghost use Rattle.std.specs.Prelude.{◌≡◌, ℕ, [], length, slice_get, OnOk, IfOk};
ghost use Rattle.qc_base.specs.declared.side.Side.{Side};
ghost use Rattle.qc_crypto.specs.declared.keys.KeyPair.{KeyPair};
ghost use Rattle.qc_rings.specs.Ring.{may_update, after_update, has_floor};
ghost use Rattle.qc_rings.specs.Keyed.{key_of};
ghost use Rattle.qc_rings.specs.Parties.{first_party, party_sealed, party_updated, party_discarded, party_given, party_opened, opens_with, greatest_with, given_outcome, updated_outcome, discarded_outcome};

use crate::key_ring::KeyRing;
use crate::pair::PairOutcome;
use crate::sealed_packet::SealedPacket;
use crate::which::Which;
use bytes::BytesMut;
use qc_base::{Instant, Side};
use qc_crypto::{KeyPair, KeySource, PacketKey};
use std::alloc::{AllocError, Global};
use std::marker::Model;

/// An end with its key ring and every packet that it ever sealed.
#[derive(Drop)]
pub(crate) struct KeyedEnd<P> {
    ring: KeyRing<P>,
    sent: Vec<SealedPacket>,
    greatest: Option<u64>,
}

impl<P> Model for KeyedEnd<P> {
    ghost use Rattle.qc_rings.specs.Party.{Party};

    ghost Value = { Party P };

    ghost view = { λ e. record { keys = e.ring; sent = e.sent.items; greatest = e.greatest } };
}

/// The greater of a number and what may be another.
fn with_greatest(greatest: Option<u64>, number: u64) -> u64
    ensures { result ≡ greatest_with greatest number }
{
    match greatest {
        None => number,
        Some(other) => other.max(number),
    }
}

/// Whether a key opens an empty packet with this number and without header.
#[tactic(auto, unfolding(crate::specs::Parties::opens_with))]
fn opens<P: PacketKey>(alloc: Global, key: &P, packet: &SealedPacket) -> Result<bool, AllocError>
    ensures { IfOk result (λ opened. opened ≡ opens_with (P.opening key.now) packet.now) }
{
    let mut payload = BytesMut::copy_from_slice(alloc, &packet.bytes)?;
    match key.decrypt(packet.number, &[], &mut payload) {
        Ok(()) => Ok(true),
        Err(_) => Ok(false),
    }
}

/// An empty payload without header, sealed with this number.
#[tactic(auto, unfolding(qc_crypto::specs::Sealing::sealed_in_place))]
fn sealed_bytes<P: PacketKey>(key: &P, number: u64) -> [u8; 16]
    ensures { result ≡ P.seal key.now number [] [] }
{
    let mut bytes = [0; 16];
    key.encrypt(number, &mut bytes, 0);
    bytes
}

impl<P: PacketKey> KeyedEnd<P> {
    /// An end in epoch 0, which sealed and opened nothing.
    pub(crate) fn new<K: KeySource<P>>(alloc: Global, source: &K, side: Side) -> Self
        ensures { result ≡ first_party (K.keys_of source.now side) }
    {
        KeyedEnd {
            ring: KeyRing::new(source.keys(side, 0), source.keys(side, 1)),
            sent: Vec::new(alloc),
            greatest: None,
        }
    }

    /// The packet that this end sealed after `index` others.
    pub(crate) fn packet(&self, index: u64) -> Option<SealedPacket>
        ensures { result ≡ slice_get self.now.sent index }
    {
        self.sent.get(index as usize).copied()
    }

    /// Seals the next packet.
    #[tactic(auto, unfolding(crate::specs::Parties::party_sealed, crate::specs::Parties::next_packet))]
    pub(crate) fn seal(&mut self) -> Result<PairOutcome, AllocError>
        ensures end { OnOk result (self.new ≡ party_sealed P.seal self.old) }
        ensures outcome { IfOk result (λ o. o ≡ PairOutcome.Sealed (length self.old.sent) self.old.keys.ring.epoch) }
    {
        let number = self.sent.len() as u64;
        let epoch = self.ring.epoch();
        let bytes = match self.ring.key(Which::Current) {
            None => [0; 16],
            Some(keys) => sealed_bytes(&keys.local, number),
        };
        self.sent.push(SealedPacket {
            number,
            epoch,
            greatest: self.greatest,
            bytes,
        })?;
        self.ring.sealed(number);
        Ok(PairOutcome::Sealed { number, epoch })
    }

    /// Begins a new epoch, if it may.
    #[tactic(auto, unfolding(crate::specs::Parties::party_updated, crate::specs::Keyed::keyed_updated))]
    pub(crate) fn update<K: KeySource<P>>(&mut self, source: &K, side: Side) -> PairOutcome
        ensures end { self.new ≡ party_updated (K.keys_of source.now side) self.old }
        ensures outcome { result ≡ updated_outcome self.old }
    {
        if !self.ring.may_update() {
            return PairOutcome::Nothing;
        }
        let fresh = source.keys(side, self.ring.epoch().saturating_add(2));
        self.ring.update(fresh);
        PairOutcome::Updated {
            epoch: self.ring.epoch(),
        }
    }

    /// Drops previous keys, if they have a floor.
    #[tactic(auto, unfolding(crate::specs::Parties::party_discarded))]
    pub(crate) fn discard(&mut self) -> PairOutcome
        ensures end { self.new ≡ party_discarded self.old }
        ensures outcome { result ≡ discarded_outcome self.old }
    {
        if self.ring.discard() {
            PairOutcome::Discarded
        } else {
            PairOutcome::Nothing
        }
    }

    // Notes that these keys opened a packet, and takes what it carries as acknowledged.
    #[tactic(auto, unfolding(crate::specs::Parties::party_opened))]
    fn note<K: KeySource<P>>(&mut self, source: &K, side: Side, which: Which, packet: &SealedPacket)
        ensures { self.new ≡ party_opened (K.keys_of source.now side) self.old which packet.now }
    {
        let fresh = match which {
            Which::Next => Some(source.keys(side, self.ring.epoch().saturating_add(2))),
            Which::Current | Which::Previous => None,
        };
        self.ring
            .opened(which, packet.number, Instant::from_nanos(0), fresh);
        if let Some(greatest) = packet.greatest {
            self.ring.acked(greatest);
        }
        self.greatest = Some(with_greatest(self.greatest, packet.number));
    }

    /// Takes a packet of the other end's, and opens it if the keys that it names do.
    #[tactic(auto, unfolding(crate::specs::Parties::party_given, crate::specs::Parties::party_opens))]
    pub(crate) fn receive<K: KeySource<P>>(
        &mut self,
        alloc: Global,
        source: &K,
        side: Side,
        packet: Option<SealedPacket>,
    ) -> Result<PairOutcome, AllocError>
        ensures end { OnOk result (self.new ≡ party_given P.opening (K.keys_of source.now side) self.old packet) }
        ensures outcome { IfOk result (λ o. o ≡ given_outcome P.opening self.old packet) }
    {
        let packet = match packet {
            None => return Ok(PairOutcome::Nothing),
            Some(packet) => packet,
        };
        let which = self.ring.named(packet.epoch % 2 == 1, packet.number);
        let opened = match self.ring.key(which) {
            None => false,
            Some(keys) => opens(alloc, &keys.remote, &packet)?,
        };
        if !opened {
            return Ok(PairOutcome::Old);
        }
        self.note(source, side, which, &packet);
        Ok(PairOutcome::Opened)
    }
}
