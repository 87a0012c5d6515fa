//! Frames are taken for a packet, and where a DATAGRAM among them gives room that one was refused for before, that is told.

ghost use Rattle.std.specs.Prelude.{◌≡◌, ◌-◌, ◌≤◌, false, length, OnOk, IfOk};
ghost use Rattle.qc_base.specs.declared.side.SpaceId.TheVariants.{«Data»};
ghost use Rattle.qc_frame.specs.FrameSpelling.{frames_spelling};
ghost use Rattle.qc_state.specs.Datagrams.{AllOldest, sealed_datagrams, told_by_all};
ghost use Rattle.qc_state.specs.Ids.{AllNext};
ghost use Rattle.qc_state.specs.Life.{more_heard};
ghost use Rattle.qc_state.specs.Lower.{frames_sealed};
ghost use Rattle.qc_state.specs.Offers.{offers_here};
ghost use Rattle.qc_state.specs.Spaces.{is_space, space_of};
ghost use Rattle.qc_state.specs.StreamFrames.{sealed_steps};
ghost use Rattle.qc_state.specs.Taking.{TakenPart, room_events};
ghost use Rattle.qc_state.specs.Tokens.{AllIssued, behind_tokens, made_by, token_with};
ghost use Rattle.qc_state.specs.Waiting.{waiting_without};
ghost use Rattle.qc_streams.specs.Steps.{AllMay};

use crate::life::Life;
use crate::lower::Lower;
use crate::tokens::Issuer;
use crate::transmit::SPARE_ROOM;
use crate::waiting::Waiting;
use qc_base::{Instant, SpaceId};
use qc_crypto::HandshakeTokenKey;
use qc_frame::FrameList;
use qc_token::TimeSource;
use rand_core::Rng;
use std::alloc::{AllocError, Global};
use std::net::IpAddr;

/// There is room for datagrams again where one had been refused because of a full buffer, and that is remembered no longer; that waits to
/// be reported. Want of memory is the only refusal.
#[tactic(auto, using(crate::proofs::RoomTold::nothing_more))]
fn tell_room(life: &mut Life, before: bool, behind: bool) -> Result<(), AllocError>
    ensures { OnOk result (life.new ≡ more_heard (room_events before behind) life.old) }
{
    if before && !behind {
        return life.hear_room();
    }
    Ok(())
}

/// Takes frames that wait in a space at a time, for a packet with so much room for them, as `Waiting::take` does; that there is room for
/// datagrams again waits to be reported, where one had been refused before because of a full buffer and a DATAGRAM is taken. Want of memory
/// is the only refusal.
#[tactic(auto, using(crate::proofs::RoomTold::room_is_told))]
pub fn take_frames<S, K: HandshakeTokenKey, T: TimeSource, R: Rng>(
    waiting: &mut Waiting,
    lower: &mut Lower<S>,
    life: &mut Life,
    issuer: &Option<Issuer<K, T>>,
    ip: IpAddr,
    random: &mut R,
    alloc: Global,
    now: Instant,
    space: SpaceId,
    room: usize,
) -> Result<FrameList, AllocError>
    ensures frames { IfOk result (λ frames. TakenPart now waiting.old.bundled (is_space space «Data») (space_of waiting.old.spaces space) room frames) }
    ensures rest { IfOk result (λ frames. waiting.new ≡ waiting_without waiting.old space frames) }
    ensures told { IfOk result (λ frames. life.new ≡ more_heard (told_by_all (sealed_datagrams frames) lower.old.datagrams) life.old) }
    ensures may { IfOk result (λ frames. AllMay (sealed_steps frames) lower.old.streams) }
    ensures oldest { IfOk result (λ frames. AllOldest frames lower.old.datagrams) }
    ensures next { IfOk result (λ frames. AllNext frames lower.old.ids) }
    ensures issued { IfOk result (λ frames. AllIssued (made_by (token_with K.Aead.sealed K.derived T.time_of) issuer.now) ip frames (space_of waiting.old.spaces space) (R.stream random.old)) }
    ensures drawn { IfOk result (λ frames. R.stream random.new ≡ behind_tokens frames (R.stream random.old)) }
    ensures leads { IfOk result (λ frames. lower.new ≡ frames_sealed frames lower.old) }
    ensures full { IfOk result (λ frames. SPARE_ROOM ≤ room - length (frames_spelling frames) → offers_here (is_space space «Data») (space_of waiting.new.spaces space) lower.new.streams lower.new.ids ≡ false) }
{
    let before = lower.datagrams.blocked;
    let frames = waiting.take(lower, issuer, ip, random, alloc, now, space, room)?;
    tell_room(life, before, lower.datagrams.blocked)?;
    Ok(frames)
}
