//! The toy's sessions.

ghost use Rattle.std.specs.Prelude.{◌≡◌, ◌++◌, ◌==◌, ◌<◌, ◌≤◌, take, drop, length, slice_get, IfOk, IfSome, OnOk};
ghost use Rattle.std.specs.Option.{option_copied};
ghost use Rattle.qc_toy.specs.Start.{session_of};
ghost use Rattle.qc_toy.specs.Messages.{message};
ghost use Rattle.qc_toy.specs.Handshake.{flag_byte, client_steps, server_steps, steps_of, session_due, made_all, has_early, early_flag, body_for, bytes_for, keys_for, keys_of_level, heard_parameters, parameters_in, parameters_before, cached_parameters, retry_tag};

use crate::body::Body;
use crate::cipher::{checksum_of_parts, tag_of};
use crate::export::{put_exported, sum_of};
use crate::header_key::ToyHeaderKey;
use crate::key_bytes::{Level, secret_of_id};
use crate::keys::{keys_of_level, packet_keys_of};
use crate::messages::{Kind, alert_of, body_of_first, body_of_second, count_heard, put_message};
use crate::packet_key::ToyPacketKey;
use crate::settings::ToySettings;
use qc_base::{ConnectionId, Side, TransportError, TransportErrorCode, VarInt, or_cut_back};
use qc_crypto::{ExportKeyingMaterialError, KeyPair, Keys, Session, SessionError};
use qc_params::TransportParameters;
use std::alloc::{AllocError, Global};
use std::default::Default;

/// A step of an end's handshake, which a write makes once enough was heard.
#[derive(Clone, Copy, Debug, PartialEq, Eq)]
pub(crate) struct Step {
    /// How many whole messages of the peer it needs.
    heard: u8,
    /// The message that it writes.
    writes: Option<Kind>,
    /// The level whose keys it gives.
    gives: Option<Level>,
}

/// A toy session of one end.
#[derive(Drop)]
pub struct ToySession {
    side: Side,
    settings: ToySettings,
    /// This end's parameters, spelled.
    parameters: Body,
    /// All that was read and not refused.
    heard: Body,
    /// How many steps of the handshake were made.
    steps: u8,
    /// The epoch of the newest 1-RTT keys.
    epoch: u64,
}

fn client_steps() -> [Step; 3]
    ensures { result ≡ client_steps }
{
    [
        Step {
            heard: 0,
            writes: Some(Kind::Hello),
            gives: None,
        },
        Step {
            heard: 1,
            writes: None,
            gives: Some(Level::Handshake),
        },
        Step {
            heard: 2,
            writes: Some(Kind::ClientEnd),
            gives: Some(Level::Data),
        },
    ]
}

fn server_steps() -> [Step; 2]
    ensures { result ≡ server_steps }
{
    [
        Step {
            heard: 1,
            writes: Some(Kind::Reply),
            gives: Some(Level::Handshake),
        },
        Step {
            heard: 1,
            writes: Some(Kind::ServerEnd),
            gives: Some(Level::Data),
        },
    ]
}

// The step after so many.
fn step_at(side: Side, made: u8) -> Option<Step>
    ensures step { result ≡ slice_get (steps_of side) made }
    ensures few { IfSome result (λ _. made < 3) }
{
    match side {
        Side::Client => client_steps().get(made as usize).copied(),
        Side::Server => server_steps().get(made as usize).copied(),
    }
}

fn flag(set: bool) -> u8
    ensures { result ≡ flag_byte set }
{
    if set { 1 } else { 0 }
}

// Whether a body begins with the early byte 1.
fn asks_early(body: Option<&[u8]>) -> bool
    ensures { result ≡ early_flag (option_copied body.entry) }
{
    match body {
        Some([1, ..]) => true,
        _ => false,
    }
}

impl ToySession {
    /// The session of an end that announces `params`, and has read and written nothing.
    #[tactic(auto, unfolding(crate::specs::Start::session_of))]
    pub(crate) fn start(
        alloc: Global,
        settings: &ToySettings,
        side: Side,
        params: &TransportParameters,
    ) -> Result<ToySession, AllocError>
        ensures { IfOk result (λ session. session ≡ session_of settings.now side params.now) }
    {
        let mut parameters = Vec::new(alloc);
        params.write(&mut parameters)?;
        Ok(ToySession {
            side,
            settings: *settings,
            parameters: Body::from_vec(parameters),
            heard: Body::new(alloc),
            steps: 0,
            epoch: 0,
        })
    }

    #[tactic(auto, unfolding(crate::specs::Handshake::session_due))]
    fn due(&self) -> Option<Step>
        ensures due { result ≡ session_due self.now }
        ensures few { IfSome result (λ _. self.now.steps < 3) }
    {
        let step = step_at(self.side, self.steps)?;
        if step.heard <= count_heard(self.heard.as_slice()) {
            Some(step)
        } else {
            None
        }
    }

    // Whether all steps were made.
    fn made_all(&self) -> bool
        ensures { result ≡ made_all self.now }
    {
        match self.side {
            Side::Client => self.steps == 3,
            Side::Server => self.steps == 2,
        }
    }

    // What a client with early keys knows before the server's last message.
    fn parameters_before(&self) -> Option<TransportParameters>
        ensures { result ≡ parameters_before self.now.settings.early }
    {
        if self.settings.early {
            Some(cached())
        } else {
            None
        }
    }

    fn has_early(&self) -> bool
        ensures { result ≡ has_early self.now }
    {
        let asked = match self.side {
            Side::Client => true,
            Side::Server => asks_early(body_of_first(self.heard.as_slice())),
        };
        self.settings.early && asked
    }

    fn keys_of_level(&self, level: Level) -> Keys<ToyHeaderKey, ToyPacketKey>
        ensures { result ≡ keys_of_level self.now level }
    {
        keys_of_level(&self.settings, self.settings.secret, level, self.side)
    }

    // Appends a message.
    fn put(&self, kind: Kind, buf: &mut Vec<u8>) -> Result<(), AllocError>
        ensures ok { OnOk result (buf.new.items ≡ buf.old.items ++ message kind (body_for self.now kind)) }
        ensures kept { take (length buf.old.items) buf.new.items ≡ buf.old.items }
    {
        let parameters = self.parameters.as_slice();
        match kind {
            Kind::Hello => put_message(buf, kind, &[flag(self.settings.early)], parameters),
            Kind::Reply => put_message(buf, kind, &[0], &[]),
            Kind::ServerEnd => put_message(buf, kind, &[flag(self.has_early())], parameters),
            Kind::ClientEnd => put_message(buf, kind, &[], &[]),
        }
    }

    // Appends what a step writes.
    fn put_step(&self, step: Step, buf: &mut Vec<u8>) -> Result<(), AllocError>
        ensures ok { OnOk result (buf.new.items ≡ buf.old.items ++ bytes_for self.now step.writes) }
        ensures kept { take (length buf.old.items) buf.new.items ≡ buf.old.items }
    {
        match step.writes {
            None => Ok(()),
            Some(kind) => self.put(kind, buf),
        }
    }

    // The keys that it gives.
    fn keys_of_step(&self, step: Step) -> Option<Keys<ToyHeaderKey, ToyPacketKey>>
        ensures { result ≡ keys_for self.now step.gives }
    {
        match step.gives {
            None => None,
            Some(level) => Some(self.keys_of_level(level)),
        }
    }
}

// The parameters behind an early byte.
fn read_parameters(side: Side, body: &[u8]) -> Result<Option<TransportParameters>, TransportError>
    ensures { result ≡ heard_parameters side (drop 1 body.now) }
{
    let bytes = &body[body.len().min(1)..];
    match TransportParameters::read(side, bytes) {
        Ok(parameters) => Ok(Some(parameters)),
        Err(_) => Err(TransportError {
            code: TransportErrorCode::TRANSPORT_PARAMETER_ERROR,
            frame: None,
        }),
    }
}

fn peer_parameters(
    side: Side,
    before: Option<TransportParameters>,
    body: Option<&[u8]>,
) -> Result<Option<TransportParameters>, TransportError>
    ensures { result ≡ parameters_in side before (option_copied body.entry) }
{
    match body {
        None => Ok(before),
        Some(body) => read_parameters(side, body),
    }
}

fn cached() -> TransportParameters
    ensures { result ≡ cached_parameters }
{
    TransportParameters {
        max_idle_timeout: VarInt::from_u32(30_000),
        max_udp_payload_size: VarInt::from_u32(1472),
        initial_max_data: VarInt::MAX,
        initial_max_stream_data_bidi_local: VarInt::from_u32(1_250_000),
        initial_max_stream_data_bidi_remote: VarInt::from_u32(1_250_000),
        initial_max_stream_data_uni: VarInt::from_u32(1_250_000),
        initial_max_streams_bidi: VarInt::from_u32(100),
        initial_max_streams_uni: VarInt::from_u32(100),
        active_connection_id_limit: VarInt::from_u32(5),
        max_datagram_frame_size: Some(VarInt::from_u32(65_535)),
        grease_quic_bit: true,
        ..TransportParameters::default()
    }
}

/// The integrity tag of a Retry packet that is `header` and then `token`.
#[tactic(auto, unfolding(crate::specs::Handshake::retry_tag))]
pub(crate) fn tag_of_retry(id: &[u8], header: &[u8], token: &[u8]) -> [u8; 16]
    requires { length id.now ≤ 20 }
    ensures { result ≡ retry_tag id.now (header.now ++ token.now) }
{
    let t = checksum_of_parts(id, header, token);
    tag_of(&[82; 16], t, 0)
}

impl Session for ToySession {
    ghost use Rattle.std.specs.Prelude.{◌≡◌, None};
    ghost use Rattle.qc_toy.specs.Handshake.{session_negotiated, early_keys, session_early_taken, session_handshaking, session_reads, session_after_read, session_parameters, session_writes, session_write_keys, session_after_write, steps_left, changes_of, bytes_left, session_next_keys, session_after_next, fits_retry as toy_fits_retry, exported_bytes, keys_of_id, keys_of_space, keys_of_epoch, ArePaired, IsFresh, IsSound};

    type HeaderKey = ToyHeaderKey;

    type PacketKey = ToyPacketKey;

    type HandshakeData = ();

    type PeerIdentity = ();

    ghost initial = { keys_of_id };

    ghost negotiated = { session_negotiated };

    ghost identity = { λ _. None };

    ghost early = { early_keys };

    ghost early_taken = { session_early_taken };

    ghost handshaking = { session_handshaking };

    ghost reads = { session_reads };

    ghost after_read = { session_after_read };

    ghost parameters = { session_parameters };

    ghost writes = { session_writes };

    ghost write_keys = { session_write_keys };

    ghost after_write = { session_after_write };

    ghost left = { steps_left };

    ghost changes = { changes_of };

    ghost unwritten = { bytes_left };

    ghost next_keys = { session_next_keys };

    ghost after_next = { session_after_next };

    ghost fits_retry = { λ _. toy_fits_retry };

    ghost export_limit = { λ _. 255 };

    ghost exported = { λ s. exported_bytes s.settings.secret };

    ghost is_fresh = { IsFresh };

    ghost is_sound = { IsSound };

    ghost side_of = { λ s. s.side };

    ghost version_of = { λ _. 1 };

    ghost space_keys = { keys_of_space };

    ghost epoch_keys = { keys_of_epoch };

    ghost epoch = { λ s. s.epoch };

    ghost are_paired = { ArePaired };

    fn initial_keys(&self, dst_cid: &ConnectionId, side: Side) -> Keys<ToyHeaderKey, ToyPacketKey> {
        keys_of_level(
            &self.settings,
            secret_of_id(dst_cid.as_slice()),
            Level::Initial,
            side,
        )
    }

    #[tactic(auto, unfolding(crate::specs::Handshake::session_negotiated))]
    fn handshake_data(&self) -> Option<&()> {
        match body_of_first(self.heard.as_slice()) {
            Some(_) => Some(&()),
            None => None,
        }
    }

    fn peer_identity(&self) -> Option<&()> {
        None
    }

    #[tactic(auto, unfolding(crate::specs::Handshake::early_keys))]
    fn early_crypto(&self) -> Option<(ToyHeaderKey, ToyPacketKey)> {
        if !self.has_early() {
            return None;
        }
        let secret = self.settings.secret;
        Some((
            ToyHeaderKey::new(secret, Level::Early, Side::Client),
            ToyPacketKey::new(&self.settings, secret, Level::Early, Side::Client, 0),
        ))
    }

    #[tactic(auto, unfolding(crate::specs::Handshake::session_early_taken))]
    fn early_data_accepted(&self) -> Option<bool> {
        if self.is_handshaking() || !self.has_early() {
            return None;
        }
        match self.side {
            Side::Client => Some(asks_early(body_of_second(self.heard.as_slice()))),
            Side::Server => Some(true),
        }
    }

    #[tactic(auto, unfolding(crate::specs::Handshake::session_handshaking))]
    fn is_handshaking(&self) -> bool {
        !self.made_all() || count_heard(self.heard.as_slice()) < 2
    }

    #[tactic(auto, unfolding(crate::specs::Handshake::session_reads, crate::specs::Handshake::session_after_read))]
    fn read_handshake(&mut self, buf: &[u8]) -> Result<bool, SessionError> {
        let before = self.heard.as_slice().len();
        let was_ready = body_of_first(self.heard.as_slice()).is_some();
        match self.heard.extend(buf) {
            Ok(()) => {}
            Err(_) => return Err(SessionError::OutOfMemory),
        }
        match alert_of(self.side, self.heard.as_slice()) {
            None => Ok(!was_ready && body_of_first(self.heard.as_slice()).is_some()),
            Some(alert) => {
                self.heard.truncate(before);
                Err(SessionError::Transport(TransportError {
                    code: TransportErrorCode::crypto(alert),
                    frame: None,
                }))
            }
        }
    }

    #[tactic(auto, unfolding(crate::specs::Handshake::session_parameters))]
    fn transport_parameters(&self) -> Result<Option<TransportParameters>, TransportError> {
        let heard = self.heard.as_slice();
        match self.side {
            Side::Client => peer_parameters(
                Side::Client,
                self.parameters_before(),
                body_of_second(heard),
            ),
            Side::Server => peer_parameters(Side::Server, None, body_of_first(heard)),
        }
    }

    #[tactic(auto, unfolding(crate::specs::Handshake::session_writes, crate::specs::Handshake::session_write_keys, crate::specs::Handshake::session_after_write))]
    fn write_handshake(
        &mut self,
        buf: &mut Vec<u8>,
    ) -> Result<Option<Keys<ToyHeaderKey, ToyPacketKey>>, AllocError> {
        let Some(step) = self.due() else {
            return Ok(None);
        };
        let before = buf.len();
        or_cut_back(self.put_step(step, buf), buf, before)?;
        self.steps += 1;
        Ok(self.keys_of_step(step))
    }

    #[tactic(auto, unfolding(crate::specs::Handshake::session_next_keys, crate::specs::Handshake::session_after_next))]
    fn next_1rtt_keys(&mut self) -> Option<KeyPair<ToyPacketKey>> {
        if !self.made_all() {
            return None;
        }
        self.epoch = self.epoch.wrapping_add(1);
        Some(packet_keys_of(
            &self.settings,
            self.settings.secret,
            Level::Data,
            self.side,
            self.epoch,
        ))
    }

    #[tactic(auto, unfolding(crate::specs::Handshake::fits_retry))]
    fn is_valid_retry(&self, orig_dst_cid: &ConnectionId, header: &[u8], payload: &[u8]) -> bool {
        if payload.len() < 16 {
            return false;
        }
        let (token, tag) = payload.split_at(payload.len() - 16);
        tag == tag_of_retry(orig_dst_cid.as_slice(), header, token).as_slice()
    }

    #[tactic(auto, unfolding(crate::specs::Handshake::exported_bytes))]
    fn export_keying_material(
        &self,
        output: &mut [u8],
        label: &[u8],
        context: &[u8],
    ) -> Result<(), ExportKeyingMaterialError> {
        if output.len() > 255 {
            return Err(ExportKeyingMaterialError);
        }
        put_exported(
            output,
            &self.settings.secret,
            sum_of(label).wrapping_add(sum_of(context).wrapping_mul(3)),
        );
        Ok(())
    }

    ghost use Rattle.std.specs.Prelude.{refl};
    ghost use Rattle.qc_base.specs.declared.side.SpaceId.TheVariants.{Handshake, Data};
    ghost use Rattle.qc_toy.specs.Start.{fresh_changes, fresh_hello, fresh_no_keys, fresh_whole, fresh_alone, fresh_early};
    ghost use Rattle.qc_toy.specs.SessionLaws.{toy_fresh_sound, toy_sound_read, toy_sound_write, toy_sound_next, toy_falls, toy_idle, toy_unwritten_most, toy_unwritten_write, toy_unwritten_read, toy_unwritten_next, toy_left_next, toy_changes_most, toy_changes_write, toy_changes_read, toy_changes_next, toy_over_late, toy_over_read, toy_over_write, toy_over_next, toy_over_early, toy_ready_once, toy_ready_then, toy_ready_read, toy_ready_write, toy_ready_next, toy_refusal, toy_unreadable, toy_allowed, toy_server_knows, toy_write_parameters, toy_write_early, toy_early_read, toy_next_parameters, toy_next_early, toy_next_writes, toy_next_write_keys, toy_side_read, toy_side_write, toy_side_next, toy_initial_read, toy_initial_write, toy_initial_next, toy_given_keys, toy_space_read, toy_space_write, toy_space_next, toy_epochs_read, toy_epochs_write, toy_epochs_next, toy_given_next, toy_next_epoch, toy_epoch_read, toy_epoch_write, toy_initial_fits, toy_pair_client_read, toy_pair_client_write, toy_pair_client_next, toy_pair_server_read, toy_pair_server_write, toy_pair_server_next, toy_initial_mates, toy_space_mates, toy_early_mates, toy_epoch_mates, toy_epochs_apart, toy_same_exports};

    ghost fresh_sound = { toy_fresh_sound };

    ghost sound_read = { toy_sound_read };

    ghost sound_write = { toy_sound_write };

    ghost sound_next = { toy_sound_next };

    ghost fresh_changes = { fresh_changes };

    ghost fresh_epoch = { λ _ h. h.epoch };

    ghost hello_first = { fresh_hello };

    ghost hello_no_keys = { fresh_no_keys };

    ghost hello_whole = { fresh_whole };

    ghost hello_alone = { fresh_alone };

    ghost fresh_early = { fresh_early };

    ghost falls = { λ s _. toy_falls s };

    ghost idle = { λ s _. toy_idle s };

    ghost unwritten_most = { λ s _. toy_unwritten_most s };

    ghost unwritten_write = { λ s _. toy_unwritten_write s };

    ghost unwritten_read = { λ s bytes _. toy_unwritten_read s bytes };

    ghost unwritten_next = { λ s _. toy_unwritten_next s };

    ghost left_next = { λ s _. toy_left_next s };

    ghost changes_most = { toy_changes_most };

    ghost changes_write = { λ s _. toy_changes_write s };

    ghost changes_read = { λ s bytes _. toy_changes_read s bytes };

    ghost changes_next = { λ s _. toy_changes_next s };

    ghost over_late = { λ s _. toy_over_late s };

    ghost over_read = { λ s bytes _. toy_over_read s bytes };

    ghost over_write = { λ s _. toy_over_write s };

    ghost over_next = { λ s _. toy_over_next s };

    ghost over_early = { λ s _. toy_over_early s };

    ghost ready_once = { λ s bytes _. toy_ready_once s bytes };

    ghost ready_then = { λ s bytes _. toy_ready_then s bytes };

    ghost ready_read = { λ s bytes _. toy_ready_read s bytes };

    ghost ready_write = { λ s _. toy_ready_write s };

    ghost ready_next = { λ s _. toy_ready_next s };

    ghost refusal = { λ s bytes error _. toy_refusal s bytes error };

    ghost unreadable = { λ s error _. toy_unreadable s error };

    ghost allowed = { λ s p _. toy_allowed s p };

    ghost server_knows = { toy_server_knows };

    ghost write_parameters = { λ s _. toy_write_parameters s };

    ghost write_early = { λ s _. toy_write_early s };

    ghost early_read = { λ s bytes keys _. toy_early_read s bytes keys };

    ghost next_parameters = { λ s _. toy_next_parameters s };

    ghost next_early = { λ s _. toy_next_early s };

    ghost next_writes = { λ s _. toy_next_writes s };

    ghost next_write_keys = { λ s _. toy_next_write_keys s };

    ghost side_read = { λ s bytes _. toy_side_read s bytes };

    ghost side_write = { λ s _. toy_side_write s };

    ghost side_next = { λ s _. toy_side_next s };

    ghost version_read = { λ _ _ _. refl };

    ghost version_write = { λ _ _. refl };

    ghost version_next = { λ _ _. refl };

    ghost initial_read = { λ s bytes id side _. toy_initial_read s bytes id side };

    ghost initial_write = { λ s id side _. toy_initial_write s id side };

    ghost initial_next = { λ s id side _. toy_initial_next s id side };

    ghost given_keys = { λ s keys _. toy_given_keys s keys };

    ghost handshake_read = { λ s bytes _ _. toy_space_read s bytes Handshake };

    ghost handshake_write = { λ s _ _. toy_space_write s Handshake };

    ghost handshake_next = { λ s _ _. toy_space_next s Handshake };

    ghost data_read = { λ s bytes _ _. toy_space_read s bytes Data };

    ghost data_write = { λ s _ _. toy_space_write s Data };

    ghost data_next = { λ s _ _. toy_space_next s Data };

    ghost epochs_read = { λ s bytes n _ _. toy_epochs_read s bytes n };

    ghost epochs_write = { λ s n _ _. toy_epochs_write s n };

    ghost epochs_next = { λ s n _ _. toy_epochs_next s n };

    ghost first_epoch = { λ _ _ _. refl };

    ghost given_next = { λ s _. toy_given_next s };

    ghost next_epoch = { λ s _. toy_next_epoch s };

    ghost epoch_read = { λ s bytes _. toy_epoch_read s bytes };

    ghost epoch_write = { λ s _. toy_epoch_write s };

    ghost initial_fits = { λ s id _. toy_initial_fits s id };

    ghost pair_client_read = { toy_pair_client_read };

    ghost pair_client_write = { toy_pair_client_write };

    ghost pair_client_next = { toy_pair_client_next };

    ghost pair_server_read = { toy_pair_server_read };

    ghost pair_server_write = { toy_pair_server_write };

    ghost pair_server_next = { toy_pair_server_next };

    ghost initial_mates = { λ client server id _. toy_initial_mates client server id };

    ghost space_mates = { toy_space_mates };

    ghost early_mates = { toy_early_mates };

    ghost epoch_mates = { toy_epoch_mates };

    ghost epochs_apart = { toy_epochs_apart };

    ghost same_exports = { toy_same_exports };
}
