//! Sessions whose keys come of both ends' shares.

ghost use Rattle.std.specs.Prelude.{◌≡◌, None};
ghost use Rattle.qc_shares.specs.Shares.{IsFresh, moves, session_secret};

use qc_base::{ConnectionId, Side, TransportError, TransportErrorCode};
use qc_crypto::{ExportKeyingMaterialError, KeyPair, KeySource, Keys, Session, SessionError};
use qc_params::TransportParameters;
use qc_toy::{Level, ToyHeaderKey, ToyKeys, ToyPacketKey};
use std::alloc::AllocError;
use std::default::Default;

/// A session of one end. Each end writes its share, one byte, and then gives the keys of the
/// Handshake and of the Data space, once it has heard the peer's.
#[derive(Drop)]
pub struct SharesSession {
    side: Side,
    /// This end's share of the secret.
    share: u8,
    /// The peer's, once it was read.
    heard: Option<u8>,
    /// How many steps were made: the share is written, the Handshake keys are given, the 1-RTT keys.
    steps: u8,
    /// The epoch of the newest 1-RTT keys.
    epoch: u64,
}

impl SharesSession {
    /// The session of an end with this share, which has neither read nor written.
    pub fn start(side: Side, share: u8) -> SharesSession
        ensures fresh { IsFresh result }
        ensures side { result.side ≡ side }
        ensures share { result.share ≡ share }
    {
        SharesSession {
            side,
            share,
            heard: None,
            steps: 0,
            epoch: 0,
        }
    }

    // Whether a write makes a step.
    fn moves(&self) -> bool
        ensures { result ≡ moves self.now }
    {
        self.steps < 3 && (self.heard.is_some() || self.steps == 0 && self.side == Side::Client)
    }

    fn keys(&self) -> ToyKeys
        ensures { result ≡ record { secret = session_secret self.now } }
    {
        let peer = self.heard.unwrap_or(0);
        match self.side {
            Side::Client => ToyKeys {
                secret: [self.share, peer, 0, 0, 0],
            },
            Side::Server => ToyKeys {
                secret: [peer, self.share, 0, 0, 0],
            },
        }
    }
}

impl Session for SharesSession {
    ghost use Rattle.std.specs.Prelude.{◌≡◌, ◌-◌, None, [], false};
    ghost use Rattle.qc_shares.specs.Shares.{IsFresh, IsSound, initial_of, ready, goes_on, read_answer, after_reading, known_parameters, written, given, after_writing, next_of, after_next_of, keys_in, keys_of_epoch};

    type HeaderKey = ToyHeaderKey;

    type PacketKey = ToyPacketKey;

    type HandshakeData = ();

    type PeerIdentity = ();

    ghost initial = { λ _. initial_of };

    ghost negotiated = { λ s. ready s.heard };

    ghost identity = { λ _. None };

    ghost early = { λ _. None };

    ghost early_taken = { λ _. None };

    ghost handshaking = { λ s. goes_on s.steps };

    ghost reads = { λ s. read_answer s.heard };

    ghost after_read = { after_reading };

    ghost parameters = { λ s. known_parameters s.heard };

    ghost writes = { written };

    ghost write_keys = { given };

    ghost after_write = { after_writing };

    ghost left = { λ s. 3 - s.steps };

    ghost changes = { λ s. s.steps - 1 };

    ghost unwritten = { λ s. 1 - s.steps };

    ghost next_keys = { next_of };

    ghost after_next = { after_next_of };

    ghost fits_retry = { λ _ _ _ _. false };

    ghost export_limit = { λ _. 0 };

    ghost exported = { λ _ _ _ _. [] };

    ghost is_fresh = { IsFresh };

    ghost is_sound = { IsSound };

    ghost side_of = { λ s. s.side };

    ghost version_of = { λ _. 1 };

    ghost space_keys = { keys_in };

    ghost epoch_keys = { keys_of_epoch };

    ghost epoch = { λ s. s.epoch };

    ghost are_paired = { λ _ _. ⊥ };

    fn initial_keys(&self, dst_cid: &ConnectionId, side: Side) -> Keys<ToyHeaderKey, ToyPacketKey> {
        ToyKeys::of_id(dst_cid).of_level(Level::Initial, side)
    }

    fn handshake_data(&self) -> Option<&()> {
        match self.heard {
            Some(_) => Some(&()),
            None => None,
        }
    }

    fn peer_identity(&self) -> Option<&()> {
        None
    }

    fn early_crypto(&self) -> Option<(ToyHeaderKey, ToyPacketKey)> {
        None
    }

    fn early_data_accepted(&self) -> Option<bool> {
        None
    }

    fn is_handshaking(&self) -> bool {
        self.steps != 3
    }

    fn read_handshake(&mut self, buf: &[u8]) -> Result<bool, SessionError> {
        match (self.heard, buf) {
            (_, []) => Ok(false),
            (None, [share]) => {
                self.heard = Some(*share);
                Ok(true)
            }
            _ => Err(SessionError::Transport(TransportError {
                code: TransportErrorCode::crypto(0x0a),
                frame: None,
            })),
        }
    }

    fn transport_parameters(&self) -> Result<Option<TransportParameters>, TransportError> {
        match self.heard {
            Some(_) => Ok(Some(TransportParameters::default())),
            None => Ok(None),
        }
    }

    #[tactic(auto, unfolding(crate::specs::Shares::written, crate::specs::Shares::given, crate::specs::Shares::after_writing))]
    fn write_handshake(
        &mut self,
        buf: &mut Vec<u8>,
    ) -> Result<Option<Keys<ToyHeaderKey, ToyPacketKey>>, AllocError> {
        if !self.moves() {
            return Ok(None);
        }
        if self.steps == 0 {
            buf.push(self.share)?;
            self.steps = 1;
            return Ok(None);
        }
        self.steps += 1;
        let level = if self.steps == 2 {
            Level::Handshake
        } else {
            Level::Data
        };
        Ok(Some(self.keys().of_level(level, self.side)))
    }

    #[tactic(auto, unfolding(crate::specs::Shares::next_of, crate::specs::Shares::after_next_of))]
    fn next_1rtt_keys(&mut self) -> Option<KeyPair<ToyPacketKey>> {
        if self.steps != 3 {
            return None;
        }
        self.epoch = self.epoch.wrapping_add(1);
        Some(self.keys().keys(self.side, self.epoch))
    }

    fn is_valid_retry(
        &self,
        _orig_dst_cid: &ConnectionId,
        _header: &[u8],
        _payload: &[u8],
    ) -> bool {
        false
    }

    fn export_keying_material(
        &self,
        output: &mut [u8],
        _label: &[u8],
        _context: &[u8],
    ) -> Result<(), ExportKeyingMaterialError> {
        if output.is_empty() {
            Ok(())
        } else {
            Err(ExportKeyingMaterialError)
        }
    }

    ghost use Rattle.std.specs.Prelude.{refl};
    ghost use Rattle.std.proofs.Common.{ap};
    ghost use Rattle.qc_base.specs.declared.side.SpaceId.TheVariants.{Handshake, Data};
    ghost use Rattle.qc_shares.specs.SharesLaws.{shares_fresh_sound, shares_sound_read, shares_sound_write, shares_sound_next, shares_hello_first, shares_hello_no_keys, shares_hello_whole, shares_hello_alone, no_early, shares_falls, shares_idle, few_unwritten, shares_unwritten_write, unwritten_same, shares_unwritten_next, shares_left_next, few_changes, shares_changes_write, shares_changes_next, shares_over_late, shares_over_write, shares_over_next, shares_ready_once, shares_ready_then, shares_ready_read, shares_ready_write, shares_ready_next, shares_refusal, shares_unreadable, shares_allowed, shares_server_knows, shares_write_parameters, shares_next_parameters, shares_next_writes, shares_next_write_keys, shares_side_write, shares_side_next, shares_given_keys, shares_space_read, shares_space_write, shares_space_next, shares_data_read, shares_epochs_read, shares_epochs_write, shares_epochs_next, shares_given_next, shares_next_epoch, shares_epoch_write, shares_initial_fits};

    ghost fresh_sound = { shares_fresh_sound };

    ghost sound_read = { shares_sound_read };

    ghost sound_write = { shares_sound_write };

    ghost sound_next = { shares_sound_next };

    ghost fresh_changes = { λ _ h. ap (λ n. n - 1) h.steps };

    ghost fresh_epoch = { λ _ h. h.epoch };

    ghost hello_first = { shares_hello_first };

    ghost hello_no_keys = { shares_hello_no_keys };

    ghost hello_whole = { shares_hello_whole };

    ghost hello_alone = { shares_hello_alone };

    ghost fresh_early = { λ _ _ _ e. no_early e };

    ghost falls = { λ s _. shares_falls s };

    ghost idle = { λ s _. shares_idle s };

    ghost unwritten_most = { λ s _. few_unwritten s };

    ghost unwritten_write = { λ s _. shares_unwritten_write s };

    ghost unwritten_read = { λ s bytes _. unwritten_same s };

    ghost unwritten_next = { λ s _. shares_unwritten_next s };

    ghost left_next = { λ s _. shares_left_next s };

    ghost changes_most = { λ s h. few_changes s h };

    ghost changes_write = { λ s _. shares_changes_write s };

    ghost changes_read = { λ _ _ _. refl };

    ghost changes_next = { λ s _. shares_changes_next s };

    ghost over_late = { λ s _. shares_over_late s };

    ghost over_read = { λ _ _ _ e. e };

    ghost over_write = { λ s _. shares_over_write s };

    ghost over_next = { λ s _. shares_over_next s };

    ghost over_early = { λ _ _ _ e. no_early e };

    ghost ready_once = { λ s bytes _. shares_ready_once s.heard bytes };

    ghost ready_then = { λ s bytes _. shares_ready_then s.heard bytes };

    ghost ready_read = { λ s bytes _. shares_ready_read s.heard bytes };

    ghost ready_write = { λ s _. shares_ready_write s };

    ghost ready_next = { λ s _. shares_ready_next s };

    ghost refusal = { λ s bytes error _. shares_refusal s.heard bytes error };

    ghost unreadable = { λ s error _. shares_unreadable s.heard error };

    ghost allowed = { λ s p _. shares_allowed s.side s.heard p };

    ghost server_knows = { shares_server_knows };

    ghost write_parameters = { λ s _. shares_write_parameters s };

    ghost write_early = { λ _ _. refl };

    ghost early_read = { λ _ _ _ _ _ e. e };

    ghost next_parameters = { λ s _. shares_next_parameters s };

    ghost next_early = { λ _ _. refl };

    ghost next_writes = { λ s _. shares_next_writes s };

    ghost next_write_keys = { λ s _. shares_next_write_keys s };

    ghost side_read = { λ _ _ _. refl };

    ghost side_write = { λ s _. shares_side_write s };

    ghost side_next = { λ s _. shares_side_next s };

    ghost version_read = { λ _ _ _. refl };

    ghost version_write = { λ _ _. refl };

    ghost version_next = { λ _ _. refl };

    ghost initial_read = { λ _ _ _ _ _. refl };

    ghost initial_write = { λ _ _ _ _. refl };

    ghost initial_next = { λ _ _ _ _. refl };

    ghost given_keys = { λ s keys _. shares_given_keys s keys };

    ghost handshake_read = { λ s bytes. shares_space_read s bytes Handshake };

    ghost handshake_write = { λ s _ _. shares_space_write s Handshake };

    ghost handshake_next = { λ s _ _. shares_space_next s Handshake };

    ghost data_read = { shares_data_read };

    ghost data_write = { λ s _ _. shares_space_write s Data };

    ghost data_next = { λ s _ _. shares_space_next s Data };

    ghost epochs_read = { shares_epochs_read };

    ghost epochs_write = { λ s n _ _. shares_epochs_write s n };

    ghost epochs_next = { λ s n _ _. shares_epochs_next s n };

    ghost first_epoch = { λ _ _ _. refl };

    ghost given_next = { λ s _. shares_given_next s };

    ghost next_epoch = { λ s _. shares_next_epoch s };

    ghost epoch_read = { λ _ _ _. refl };

    ghost epoch_write = { λ s _. shares_epoch_write s };

    ghost initial_fits = { λ _ id _. shares_initial_fits id };

    ghost pair_client_read = { λ _ _ _ h. h };

    ghost pair_client_write = { λ _ _ h. h };

    ghost pair_client_next = { λ _ _ h. h };

    ghost pair_server_read = { λ _ _ _ h. h };

    ghost pair_server_write = { λ _ _ h. h };

    ghost pair_server_next = { λ _ _ h. h };

    ghost initial_mates = { λ _ _ _ h. absurd h };

    ghost space_mates = { λ _ _ _ h. absurd h };

    ghost early_mates = { λ _ _ _ _ h. absurd h };

    ghost epoch_mates = { λ _ _ _ h. absurd h };

    ghost epochs_apart = { λ _ _ _ _ h. absurd h };

    ghost same_exports = { λ _ _ _ _ _ h. absurd h };
}
