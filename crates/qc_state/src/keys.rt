//! The keys of the three spaces, with the packets that each has sealed.

ghost use Rattle.std.specs.Prelude.{◌≡◌, Some};
ghost use Rattle.std.specs.Option.{option_copied, option_map};
ghost use Rattle.qc_state.specs.Keys.{HandshakeKeys, DataKeys, count_one, ring_used, key_used, failure_counted, first_keys, has_keys, header_key, packet_key, unmasking_key, opening_key, ring_of, phase_with, phase_now, new_keys, new_ring, plain_usage, ring_usage, usage_of, plain_integrity, ring_integrity, reaches_limit, integrity_limit_of, exceeds_limit, fails_too_often, keys_given, keys_dropped, form_in, has_keys_for, epoch_with, epoch_in, epoch_keys, fresh_with, fresh_for, fresh_keys, with_ring, ring_opened, key_opened, sets_floor, ring_acked, key_acked, ring_may_update, ring_updated, key_updated, ring_discarded, key_discarded, phase_size, is_phase_full, initial_renewed};
ghost use Rattle.qc_rings.specs.Keyed.{keyed_opened, keyed_updated};

use crate::form::Form;
use qc_base::{Instant, SpaceId};
use qc_crypto::{KeyPair, Keys, PacketKey};
use qc_packet::{KeyRing, Which};

/// The keys of one space, and how many packets its sealing key has sealed (RFC 9001, 6.6).
#[derive(Drop)]
pub struct SpaceKeys<H, P> {
    /// Both sides' header and packet keys.
    pub keys: Keys<H, P>,
    /// Packets sealed under the local packet key. It stands still at 2^64 - 1.
    pub sealed: u64,
    /// How many packets the local packet key may seal.
    pub confidentiality_limit: u64,
    /// How many packets of the peer may fail to open, while these keys are the highest.
    pub integrity_limit: u64,
}

impl<H, P: PacketKey> SpaceKeys<H, P> {
    /// Keys under which nothing was sealed yet, with the limits of the local packet key.
    pub fn new(keys: Keys<H, P>) -> SpaceKeys<H, P>
        ensures { result ≡ new_keys P.seal_limit P.failure_limit keys }
    {
        let confidentiality_limit = keys.packet.local.confidentiality_limit();
        let integrity_limit = keys.packet.local.integrity_limit();
        SpaceKeys {
            keys,
            sealed: 0,
            confidentiality_limit,
            integrity_limit,
        }
    }
}

/// The 1-RTT keys: the packet keys and their limits change with each epoch, and the header keys stay (RFC 9001, 6).
#[derive(Drop)]
pub struct OneRttKeys<H, P> {
    /// Both sides' header keys.
    pub header: KeyPair<H>,
    /// Both sides' packet keys, with the packets that were sealed in their epoch.
    pub ring: KeyRing<P>,
    /// How many packets the local packet key of the ring's epoch may seal.
    pub confidentiality_limit: u64,
    /// How many packets of the peer may fail to open, while these keys are the highest.
    pub integrity_limit: u64,
}

impl<H, P: PacketKey> OneRttKeys<H, P> {
    /// Keys of the first epoch and of the next, under which nothing was sealed yet, with the limits of the local packet key.
    pub fn new(keys: Keys<H, P>, next: KeyPair<P>) -> OneRttKeys<H, P>
        ensures { result ≡ new_ring P.seal_limit P.failure_limit keys next }
    {
        let confidentiality_limit = keys.packet.local.confidentiality_limit();
        let integrity_limit = keys.packet.local.integrity_limit();
        OneRttKeys {
            header: keys.header,
            ring: KeyRing::new(keys.packet, next),
            confidentiality_limit,
            integrity_limit,
        }
    }
}

/// How many packets fewer than its key may seal an epoch has, before this end tries to begin the next one.
const PHASE_MARGIN: u64 = 10_000;

/// What a ring takes with it into a new epoch (RFC 9001, 6.1 and 6.6).
#[derive(Drop)]
pub struct Fresh<P> {
    /// The packet keys of the epoch behind the new one.
    pub keys: KeyPair<P>,
    /// How many packets the local packet key of the new epoch may seal.
    pub confidentiality_limit: u64,
    /// How many packets of the peer may fail to open in it.
    pub integrity_limit: u64,
}

/// The same with these keys, by the ring as it stands before.
fn fresh_with<P: PacketKey>(ring: &KeyRing<P>, keys: KeyPair<P>) -> Fresh<P>
    ensures { result ≡ fresh_with P.seal_limit P.failure_limit ring.now keys }
{
    match ring.key(Which::Next) {
        None => unreachable!(),
        Some(next) => Fresh {
            keys,
            confidentiality_limit: next.local.confidentiality_limit(),
            integrity_limit: next.local.integrity_limit(),
        },
    }
}

impl<H: Drop, P: Drop> OneRttKeys<H, P> {
    /// A packet of this number was opened by these keys of the ring; the next ones begin a new epoch, with what that takes with it.
    fn opened(&mut self, which: Which, number: u64, now: Instant, fresh: Option<Fresh<P>>)
        ensures { self.new ≡ with_ring self.old fresh (keyed_opened self.old.ring which number (fresh_keys fresh)) }
    {
        match fresh {
            None => self.ring.opened(which, number, now, None),
            Some(fresh) => {
                self.ring.opened(which, number, now, Some(fresh.keys));
                self.confidentiality_limit = fresh.confidentiality_limit;
                self.integrity_limit = fresh.integrity_limit;
            }
        }
    }

    /// This end begins a new epoch, where it may, with what that takes with it.
    fn update(&mut self, fresh: Fresh<P>)
        ensures { self.new ≡ with_ring self.old (Some fresh) (keyed_updated self.old.ring fresh.keys) }
    {
        self.ring.update(fresh.keys);
        self.confidentiality_limit = fresh.confidentiality_limit;
        self.integrity_limit = fresh.integrity_limit;
    }

    /// How many packets these keys seal before this end tries to update them, where the first ones seal so many.
    fn phase_size(&self, first: u64) -> u64
        ensures { result ≡ phase_size first self.now }
    {
        if self.ring.epoch() == 0 {
            return first;
        }
        self.confidentiality_limit.saturating_sub(PHASE_MARGIN)
    }
}

/// How far a sealing key is used (RFC 9001, 6.6).
#[derive(Clone, Copy, Debug, PartialEq, Eq)]
pub struct KeyUse {
    /// How many packets it has sealed.
    pub sealed: u64,
    /// How many packets it may seal.
    pub limit: u64,
}

/// Whether a key has sealed as many packets as it may, with so many more.
fn reaches_limit(usage: Option<KeyUse>, more: u64) -> bool
    ensures { result ≡ reaches_limit more usage }
{
    match usage {
        None => false,
        Some(usage) => u128::from(usage.limit) <= u128::from(usage.sealed) + u128::from(more),
    }
}

/// Whether more packets didn't open than a key lets pass.
fn exceeds_limit(limit: Option<u64>, failures: u64) -> bool
    ensures { result ≡ exceeds_limit failures limit }
{
    match limit {
        None => false,
        Some(limit) => limit < failures,
    }
}

/// The keys of the connection: those of a space, where it has any (RFC 9001, 4).
#[derive(Drop)]
pub struct KeyGroup<H, P> {
    /// The keys of the Initial space.
    pub initial: Option<SpaceKeys<H, P>>,
    /// The keys of the Handshake space.
    pub handshake: Option<SpaceKeys<H, P>>,
    /// The 1-RTT keys.
    pub data: Option<OneRttKeys<H, P>>,
    /// The highest space for which the session gave keys; the Initial space before it gave any. Dropping keys doesn't change
    /// it.
    pub highest: SpaceId,
    /// Packets of the peer that their key didn't open (RFC 9001, 6.6). It stands still at 2^64 - 1.
    pub failures: u64,
}

/// Counts one more packet where there are keys.
#[tactic(auto, unfolding(crate::specs::Keys::count_one))]
fn count<H, P>(keys: &mut Option<SpaceKeys<H, P>>)
    ensures { keys.new ≡ count_one keys.old }
{
    if let Some(keys) = keys {
        keys.sealed = keys.sealed.saturating_add(1);
    }
}

/// A packet of this number was sealed under the keys of their epoch, where there are any.
#[tactic(auto, unfolding(crate::specs::Keys::ring_used))]
fn count_in_ring<H, P: Drop>(keys: &mut Option<OneRttKeys<H, P>>, number: u64)
    ensures { keys.new ≡ ring_used number keys.old }
{
    if let Some(keys) = keys {
        keys.ring.sealed(number);
    }
}

/// A packet of this number was opened by these keys of the ring, where there is one.
#[tactic(auto, unfolding(crate::specs::Keys::ring_opened))]
fn open_in_ring<H: Drop, P: Drop>(
    keys: &mut Option<OneRttKeys<H, P>>,
    which: Which,
    number: u64,
    now: Instant,
    fresh: Option<Fresh<P>>,
)
    ensures { keys.new ≡ ring_opened which number fresh keys.old }
{
    if let Some(keys) = keys {
        keys.opened(which, number, now, fresh);
    }
}

/// A packet of this number was acknowledged, where there are any.
#[tactic(auto, unfolding(crate::specs::Keys::ring_acked))]
fn acknowledge_in_ring<H, P: Drop>(keys: &mut Option<OneRttKeys<H, P>>, number: u64)
    ensures { keys.new ≡ ring_acked number keys.old }
{
    if let Some(keys) = keys {
        keys.ring.acked(number);
    }
}

/// This end begins a new epoch, where it has keys, and may.
#[tactic(auto, unfolding(crate::specs::Keys::ring_updated))]
fn update_ring<H: Drop, P: Drop>(keys: &mut Option<OneRttKeys<H, P>>, fresh: Option<Fresh<P>>)
    ensures { keys.new ≡ ring_updated fresh keys.old }
{
    if let Some(keys) = keys {
        if let Some(fresh) = fresh {
            keys.update(fresh);
        }
    }
}

/// The keys of the epoch before are dropped, where they have a floor.
#[tactic(auto, unfolding(crate::specs::Keys::ring_discarded))]
fn discard_in_ring<H, P: Drop>(keys: &mut Option<OneRttKeys<H, P>>)
    ensures { keys.new ≡ ring_discarded keys.old }
{
    if let Some(keys) = keys {
        keys.ring.discard();
    }
}

/// Whether a new epoch may begin.
fn ring_may_update<H, P: Drop>(keys: &Option<OneRttKeys<H, P>>) -> bool
    ensures { result ≡ ring_may_update keys.now }
{
    match keys {
        None => false,
        Some(keys) => keys.ring.may_update(),
    }
}

/// Whether 1-RTT keys have sealed as many packets as they are to seal, where the first ones are to seal so many.
fn is_phase_full<H: Drop, P: Drop>(keys: &Option<OneRttKeys<H, P>>, first: u64) -> bool
    ensures { result ≡ is_phase_full first keys.now }
{
    match keys {
        None => false,
        Some(keys) => keys.phase_size(first) <= keys.ring.count(),
    }
}

/// Whether a packet that these keys of the ring open sets a floor; `fresh` says that there are keys for a new epoch.
fn sets_floor<P: Drop>(which: Which, fresh: &Option<Fresh<P>>, ring: Option<&KeyRing<P>>) -> bool
    ensures { result ≡ sets_floor which fresh.now (option_copied ring.entry) }
{
    match which {
        Which::Next => fresh.is_some(),
        Which::Current => match ring {
            None => false,
            Some(ring) => ring.is_floor_missing(),
        },
        Which::Previous => false,
    }
}

/// How far the sealing key is used.
fn plain_usage<H, P>(keys: &Option<SpaceKeys<H, P>>) -> Option<KeyUse>
    ensures { result ≡ option_map plain_usage keys.now }
{
    match keys {
        None => None,
        Some(keys) => Some(KeyUse {
            sealed: keys.sealed,
            limit: keys.confidentiality_limit,
        }),
    }
}

/// How far the sealing key of the epoch is used.
fn ring_usage<H, P: Drop>(keys: &Option<OneRttKeys<H, P>>) -> Option<KeyUse>
    ensures { result ≡ option_map ring_usage keys.now }
{
    match keys {
        None => None,
        Some(keys) => Some(KeyUse {
            sealed: keys.ring.count(),
            limit: keys.confidentiality_limit,
        }),
    }
}

/// How many packets of the peer may fail to open.
fn plain_integrity<H, P>(keys: &Option<SpaceKeys<H, P>>) -> Option<u64>
    ensures { result ≡ option_map plain_integrity keys.now }
{
    match keys {
        None => None,
        Some(keys) => Some(keys.integrity_limit),
    }
}

/// How many packets of the peer may fail to open.
fn ring_integrity<H, P: Drop>(keys: &Option<OneRttKeys<H, P>>) -> Option<u64>
    ensures { result ≡ option_map ring_integrity keys.now }
{
    match keys {
        None => None,
        Some(keys) => Some(keys.integrity_limit),
    }
}

/// The epoch of these keys; 0 where there are none.
fn epoch_with<H, P: Drop>(keys: &Option<OneRttKeys<H, P>>) -> u64
    ensures { result ≡ epoch_with keys.now }
{
    match keys {
        None => 0,
        Some(keys) => keys.ring.epoch(),
    }
}

/// The key phase bit of packets under these keys.
fn phase_with<H, P: Drop>(keys: &Option<OneRttKeys<H, P>>) -> bool
    ensures { result ≡ phase_with keys.now }
{
    match keys {
        None => false,
        Some(keys) => keys.ring.epoch() % 2 == 1,
    }
}

#[tactic(auto, unfolding(crate::specs::Keys::key_used, crate::specs::Keys::failure_counted, crate::specs::Keys::has_keys, crate::specs::Keys::header_key, crate::specs::Keys::packet_key, crate::specs::Keys::unmasking_key, crate::specs::Keys::opening_key, crate::specs::Keys::plain_keys, crate::specs::Keys::ring_of, crate::specs::Keys::phase_now, crate::specs::Keys::usage_of, crate::specs::Keys::integrity_limit_of, crate::specs::Keys::keys_given, crate::specs::Keys::keys_dropped, crate::specs::Keys::fails_too_often, crate::specs::Keys::form_in, crate::specs::Keys::has_keys_for, crate::specs::Keys::epoch_in, crate::specs::Keys::key_opened, crate::specs::Keys::key_acked, crate::specs::Keys::key_updated, crate::specs::Keys::key_discarded, crate::specs::Keys::initial_renewed))]
impl<H: Drop, P: Drop> KeyGroup<H, P> {
    /// The group of a connection that was just made, with the keys of its Initial space.
    pub fn new(initial: SpaceKeys<H, P>) -> KeyGroup<H, P>
        ensures { result ≡ first_keys initial }
    {
        KeyGroup {
            initial: Some(initial),
            handshake: None,
            data: None,
            highest: SpaceId::Initial,
            failures: 0,
        }
    }

    /// These keys stand in the place of those of the Initial space, where it has keys still.
    pub fn renew_initial(&mut self, keys: SpaceKeys<H, P>)
        ensures { self.new ≡ initial_renewed self.old keys }
    {
        if self.initial.is_some() {
            self.initial = Some(keys);
        }
    }

    /// The form in which packets of the space are sealed now.
    pub fn form_in(&self, space: SpaceId) -> Form
        ensures { result ≡ form_in self.now space }
    {
        match space {
            SpaceId::Initial => Form::Initial,
            SpaceId::Handshake => Form::Handshake,
            SpaceId::Data => Form::OneRtt,
        }
    }

    /// Whether there are keys for packets of this form; so far never for 0-RTT.
    pub fn has_for(&self, form: Form) -> bool
        ensures { result ≡ has_keys_for self.now form }
    {
        match form {
            Form::Initial => self.initial.is_some(),
            Form::Handshake => self.handshake.is_some(),
            Form::Early => false,
            Form::OneRtt => self.data.is_some(),
        }
    }

    /// Whether the space has keys: those for the form in which its packets are sealed now.
    pub fn has(&self, space: SpaceId) -> bool
        ensures { result ≡ has_keys self.now space }
    {
        self.has_for(self.form_in(space))
    }

    /// The key that masks this end's packets of this form. None exactly where there are no keys.
    pub fn header_key(&self, form: Form) -> Option<&H>
        ensures { option_copied result ≡ header_key self.now form }
    {
        match form {
            Form::Initial => match &self.initial {
                None => None,
                Some(keys) => Some(&keys.keys.header.local),
            },
            Form::Handshake => match &self.handshake {
                None => None,
                Some(keys) => Some(&keys.keys.header.local),
            },
            Form::Early => None,
            Form::OneRtt => match &self.data {
                None => None,
                Some(keys) => Some(&keys.header.local),
            },
        }
    }

    /// The key that seals this end's packets of this form: of 1-RTT keys that of their epoch. None exactly where there are no keys.
    pub fn packet_key(&self, form: Form) -> Option<&P>
        ensures { option_copied result ≡ packet_key self.now form }
    {
        match form {
            Form::Initial => match &self.initial {
                None => None,
                Some(keys) => Some(&keys.keys.packet.local),
            },
            Form::Handshake => match &self.handshake {
                None => None,
                Some(keys) => Some(&keys.keys.packet.local),
            },
            Form::Early => None,
            Form::OneRtt => match &self.data {
                None => None,
                Some(keys) => match keys.ring.key(Which::Current) {
                    None => None,
                    Some(pair) => Some(&pair.local),
                },
            },
        }
    }

    /// The epoch of the key that seals packets of this form: 0 outside of 1-RTT.
    pub fn epoch(&self, form: Form) -> u64
        ensures { result ≡ epoch_in self.now form }
    {
        match form {
            Form::Initial | Form::Handshake | Form::Early => 0,
            Form::OneRtt => epoch_with(&self.data),
        }
    }

    /// The key that takes the mask off the peer's packets of this form. None exactly where there are no keys.
    pub fn unmasking(&self, form: Form) -> Option<&H>
        ensures { option_copied result ≡ unmasking_key self.now form }
    {
        match form {
            Form::Initial => match &self.initial {
                None => None,
                Some(keys) => Some(&keys.keys.header.remote),
            },
            Form::Handshake => match &self.handshake {
                None => None,
                Some(keys) => Some(&keys.keys.header.remote),
            },
            Form::Early => None,
            Form::OneRtt => match &self.data {
                None => None,
                Some(keys) => Some(&keys.header.remote),
            },
        }
    }

    /// The key that opens the peer's packets of this form, where there is one; 1-RTT keys stand in their ring.
    pub fn opening(&self, form: Form) -> Option<&P>
        ensures { option_copied result ≡ opening_key self.now form }
    {
        match form {
            Form::Initial => match &self.initial {
                None => None,
                Some(keys) => Some(&keys.keys.packet.remote),
            },
            Form::Handshake => match &self.handshake {
                None => None,
                Some(keys) => Some(&keys.keys.packet.remote),
            },
            Form::Early | Form::OneRtt => None,
        }
    }

    /// The ring of the 1-RTT keys, where there are any.
    pub fn ring(&self) -> Option<&KeyRing<P>>
        ensures { option_copied result ≡ ring_of self.now }
    {
        match &self.data {
            None => None,
            Some(keys) => Some(&keys.ring),
        }
    }

    /// The key phase bit of this end's 1-RTT packets: that of their epoch (RFC 9001, 6).
    pub fn phase(&self) -> bool
        ensures { result ≡ phase_now self.now }
    {
        phase_with(&self.data)
    }

    /// How far the key is used that seals packets of this form. None exactly where there is none.
    pub fn usage(&self, form: Form) -> Option<KeyUse>
        ensures { result ≡ usage_of self.now form }
    {
        match form {
            Form::Initial => plain_usage(&self.initial),
            Form::Handshake => plain_usage(&self.handshake),
            Form::Early => None,
            Form::OneRtt => ring_usage(&self.data),
        }
    }

    /// Whether the key that seals packets of this form has sealed as many as it may, with so many more. False where there is none.
    pub fn reaches_limit(&self, form: Form, more: u64) -> bool
        ensures { result ≡ reaches_limit more (usage_of self.now form) }
    {
        reaches_limit(self.usage(form), more)
    }

    /// How many packets of the peer may fail to open, by the sealing key of the space. None exactly where it has none.
    fn integrity_limit(&self, space: SpaceId) -> Option<u64>
        ensures { result ≡ integrity_limit_of self.now space }
    {
        match space {
            SpaceId::Initial => plain_integrity(&self.initial),
            SpaceId::Handshake => plain_integrity(&self.handshake),
            SpaceId::Data => ring_integrity(&self.data),
        }
    }

    /// Whether more packets of the peer didn't open than the key of the highest space lets pass.
    pub fn fails_too_often(&self) -> bool
        ensures { result ≡ fails_too_often self.now }
    {
        exceeds_limit(self.integrity_limit(self.highest), self.failures)
    }

    /// A packet didn't open.
    pub fn failed(&mut self)
        ensures { self.new ≡ failure_counted self.old }
    {
        self.failures = self.failures.saturating_add(1);
    }

    /// The session gave the keys of the Handshake space, which is the highest from then on.
    pub fn give_handshake(&mut self, keys: SpaceKeys<H, P>)
        ensures { self.new ≡ keys_given self.old (HandshakeKeys keys) }
    {
        self.handshake = Some(keys);
        self.highest = SpaceId::Handshake;
    }

    /// The session gave the 1-RTT keys, whose space is the highest from then on.
    pub fn give_data(&mut self, keys: OneRttKeys<H, P>)
        ensures { self.new ≡ keys_given self.old (DataKeys keys) }
    {
        self.data = Some(keys);
        self.highest = SpaceId::Data;
    }

    /// The keys of the space are dropped.
    pub fn forget(&mut self, space: SpaceId)
        ensures { self.new ≡ keys_dropped self.old space }
    {
        match space {
            SpaceId::Initial => self.initial = None,
            SpaceId::Handshake => self.handshake = None,
            SpaceId::Data => self.data = None,
        }
    }

    /// A packet of this form and number was sealed: it counts under its key.
    pub fn used(&mut self, form: Form, number: u64)
        ensures { self.new ≡ key_used self.old form number }
    {
        match form {
            Form::Initial => count(&mut self.initial),
            Form::Handshake => count(&mut self.handshake),
            Form::Early => {}
            Form::OneRtt => count_in_ring(&mut self.data, number),
        }
    }

    /// A 1-RTT packet of this number was opened by these keys of the ring; the next ones begin a new epoch, with what that takes with it.
    pub fn opened(&mut self, which: Which, number: u64, now: Instant, fresh: Option<Fresh<P>>)
        ensures { self.new ≡ key_opened self.old which number fresh }
    {
        open_in_ring(&mut self.data, which, number, now, fresh);
    }

    /// Whether such a packet sets a floor (RFC 9001, 6.5); `fresh` says that there are keys for a new epoch.
    pub fn sets_floor(&self, which: Which, fresh: &Option<Fresh<P>>) -> bool
        ensures { result ≡ sets_floor which fresh.now (ring_of self.now) }
    {
        sets_floor(which, fresh, self.ring())
    }

    /// The packet of this number in the space was acknowledged, and perhaps others below it.
    pub fn acked(&mut self, space: SpaceId, number: u64)
        ensures { self.new ≡ key_acked self.old space number }
    {
        match space {
            SpaceId::Initial | SpaceId::Handshake => {}
            SpaceId::Data => acknowledge_in_ring(&mut self.data, number),
        }
    }

    /// Whether this end may begin a new epoch: it keeps no keys of the one before, and a packet of this one was acknowledged (RFC
    /// 9001, 6.1 and 6.5).
    pub fn may_update(&self) -> bool
        ensures { result ≡ ring_may_update self.now.«data» }
    {
        ring_may_update(&self.data)
    }

    /// This end begins a new epoch, where it may, with what that takes with it; nothing changes without that.
    pub fn update(&mut self, fresh: Option<Fresh<P>>)
        ensures { self.new ≡ key_updated self.old fresh }
    {
        update_ring(&mut self.data, fresh);
    }

    /// The keys of the epoch before are dropped, where they have a floor (RFC 9001, 6.5).
    pub fn discard(&mut self)
        ensures { self.new ≡ key_discarded self.old }
    {
        discard_in_ring(&mut self.data);
    }

    /// Whether the 1-RTT keys have sealed as many packets as they are to seal before this end tries to update them, where the first
    /// ones are to seal so many (RFC 9001, 6.6).
    pub fn is_phase_full(&self, first: u64) -> bool
        ensures { result ≡ is_phase_full first self.now.«data» }
    {
        is_phase_full(&self.data, first)
    }
}

impl<H: Drop, P: PacketKey> KeyGroup<H, P> {
    /// What the ring takes with it into a new epoch, with these keys of the one behind it. None exactly without these, or without 1-RTT
    /// keys.
    pub fn fresh(&self, keys: Option<KeyPair<P>>) -> Option<Fresh<P>>
        ensures { result ≡ fresh_for P.seal_limit P.failure_limit self.now.«data» keys }
    {
        match (&self.data, keys) {
            (Some(data), Some(keys)) => Some(fresh_with(&data.ring, keys)),
            _ => None,
        }
    }
}
