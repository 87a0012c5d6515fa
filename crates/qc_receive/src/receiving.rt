//! What a datagram does: its packets one after the other, each by its verdict.

ghost use Rattle.std.specs.Prelude.{◌≡◌, ◌<◌, ◌≤◌, ◌++◌, ◌∷◌, [], true, false, not, length, Ok, OnOk, IfOk, IfSome, IfNone, IsErr, nat_le, ◌&&◌, None};
ghost use Rattle.qc_receive.specs.Cutting.{Cuts, front_of, rest_of, others_of};
ghost use Rattle.qc_receive.specs.Short.{short_in};
ghost use Rattle.qc_header.specs.Piece.{space_of};
ghost use Rattle.qc_state.specs.Receiving.{is_readable, is_taken, lets_in, has_first_ids, token_in_first, counted_after, heard_after, datagram_after, failed_after, opening_after, pieces_after, piece_after};
ghost use Rattle.qc_state.specs.View.{ideal, held};
ghost use Rattle.qc_state.specs.Life.{is_handshake};
ghost use Rattle.qc_state.specs.Opening.{opening_of};
ghost use Rattle.qc_state.specs.Paths.{same_address};
ghost use Rattle.qc_state.specs.Setup.{is_first_awaited};

use crate::opening::open_piece;
use crate::short::{is_short, short_opened, short_piece};
use crate::unnumbered::unnumbered;
use bytes::{Bytes, BytesMut};
use qc_admit::received;
use qc_base::{ConnectionId, Instant, SpaceId};
use qc_core::Core;
use qc_core::stopping::{key_limit_error, update_error};
use qc_header::{PacketDecodeError, PartialDecode, ProtectedHeader};
use qc_state::paths::same_address;
use qc_state::{Coming, ConnectionError, DATAGRAM_SIZE, Dids, Means, Opening, Suite, Verdict};
use std::alloc::{AllocError, Global};
use std::net::SocketAddr;

/// How datagrams are cut into packets: the length of this end's ids, its version, and whether it takes packets whose
/// fixed bit isn't set.
#[derive(Clone, Copy)]
pub(crate) struct Cutting {
    local_cid_len: usize,
    version: u32,
    grease_quic_bit: bool,
}

/// The first packet of a datagram, and what is behind it. None exactly where the datagram begins with none. Want of
/// memory is the only refusal.
fn cut(
    cutting: Cutting,
    bytes: BytesMut,
) -> Result<Option<(PartialDecode, Option<BytesMut>)>, AllocError>
    requires { cutting.local_cid_len ≤ 20 }
    ensures some { IfOk result (λ r. IfSome r (λ x. (front_of cutting bytes.items ≡ Ok (x.0, rest_of x.1)) × IfSome x.1 (λ b. 0 < length b.items))) }
    ensures none { IfOk result (λ r. IfNone r (IsErr (front_of cutting bytes.items))) }
{
    match PartialDecode::new(
        bytes,
        cutting.local_cid_len,
        &[cutting.version],
        cutting.grease_quic_bit,
    ) {
        Ok(cut) => Ok(Some(cut)),
        Err(PacketDecodeError::OutOfMemory) => Err(AllocError),
        Err(_) => Ok(None),
    }
}

/// A packet that may be a server's first one, as it opened.
#[derive(Drop)]
struct First {
    /// The source id of its header.
    source: ConnectionId,
    /// Its token.
    token: Bytes,
    /// Its spin bit.
    spin: bool,
    /// Its whole number.
    number: u64,
    /// Its payload.
    payload: Bytes,
}

/// How datagrams are cut into packets.
#[tactic(auto, unfolding(qc_state::specs::Setup::ideal_setup), using(crate::proofs::Cuts::cuts_is))]
pub(crate) fn cutting_of<U: Suite>(core: &Core<U>) -> Cutting
    ensures cuts { Cuts (ideal U.Random.stream core.now) result }
    ensures fits { result.local_cid_len ≤ 20 }
{
    Cutting {
        local_cid_len: core.setup.fixed.local_cid.len(),
        version: core.setup.fixed.version,
        grease_quic_bit: core.setup.fixed.grease_quic_bit,
    }
}

/// A packet didn't open: where more of them didn't than the key of the highest space lets pass, the connection ends at once
/// (RFC 9001, section 6.6). Want of memory is the only refusal.
#[tactic(auto, unfolding(qc_state::specs::Receiving::failed_after, qc_state::specs::Moves::move_to, qc_state::specs::Moves::deeds_move))]
pub(crate) fn failed<U: Suite>(
    core: &mut Core<U>,
    did: &mut Dids,
    space: Option<SpaceId>,
) -> Result<(), AllocError>
    ensures { OnOk result ((held U.Random.stream core.new did.new) ≡ failed_after space (held U.Random.stream core.old did.old)) }
{
    core.do_fail();
    core.do_tell_piece(did, space, None, Verdict::Failure)?;
    if core.keys.fails_too_often() {
        return core.kill(did, ConnectionError::TransportError(key_limit_error()));
    }
    Ok(())
}

/// What a packet does whose form has this space, by what came of taking its protection off. Want of memory is the only refusal.
#[tactic(auto, unfolding(qc_state::specs::Moves::move_to, qc_state::specs::Moves::deeds_move))]
fn opened<U: Suite>(
    core: &mut Core<U>,
    alloc: Global,
    did: &mut Dids,
    coming: &Coming,
    space: Option<SpaceId>,
    opening: Opening,
) -> Result<(), AllocError>
    ensures { OnOk result ((held U.Random.stream core.new did.new) ≡ opening_after ⟦<U as Means>⟧.meaning coming.now space opening (held U.Random.stream core.old did.old)) }
{
    match opening {
        Opening::Unreadable => core.do_tell_piece(did, space, None, Verdict::Ignored),
        Opening::Unopened => failed(core, did, space),
        Opening::Reserved { number } => {
            core.do_tell_piece(did, space, Some(number), Verdict::BadBits)?;
            core.violated(did, coming.time)
        }
        Opening::Untimely { number } => {
            core.do_tell_piece(did, space, Some(number), Verdict::BadUpdate)?;
            core.stopped(did, coming.time, update_error())
        }
        Opening::Opened {
            source,
            token,
            spin,
            which,
            number,
            payload,
        } => match space {
            None => core.do_tell_piece(did, None, None, Verdict::Ignored),
            Some(space) => {
                core.unsealed(did, coming.time, which, number);
                received(
                    core, alloc, did, coming, space, spin, source, token, number, payload,
                )
            }
        },
    }
}

/// One packet with a number, to an end that takes packets. Want of memory is the only refusal.
fn numbered<U: Suite>(
    core: &mut Core<U>,
    alloc: Global,
    did: &mut Dids,
    coming: &Coming,
    partial: PartialDecode,
) -> Result<(), AllocError>
    ensures { OnOk result ((held U.Random.stream core.new did.new) ≡ opening_after ⟦<U as Means>⟧.meaning coming.now (space_of partial.header) (opening_of ⟦<U as Means>⟧.meaning (ideal U.Random.stream core.old) partial) (held U.Random.stream core.old did.old)) }
{
    let space = partial.space();
    match partial.into_short() {
        Ok(short) => short_opened(core, alloc, did, coming, short),
        Err(partial) => {
            let opening = open_piece(core, partial)?;
            opened(core, alloc, did, coming, space, opening)
        }
    }
}

/// One packet. Want of memory is the only refusal.
#[tactic(auto, unfolding(qc_state::specs::Receiving::piece_after, qc_state::specs::Moves::move_to, qc_state::specs::Moves::deeds_move))]
fn one_piece<U: Suite>(
    core: &mut Core<U>,
    alloc: Global,
    did: &mut Dids,
    coming: &Coming,
    partial: PartialDecode,
) -> Result<(), AllocError>
    ensures { OnOk result ((held U.Random.stream core.new did.new) ≡ piece_after ⟦<U as Means>⟧.meaning coming.now partial (held U.Random.stream core.old did.old)) }
{
    let space = partial.space();
    if core.life.is_over() {
        return core.do_tell_piece(did, space, None, Verdict::Ignored);
    }
    match space {
        None => unnumbered(core, alloc, did, coming.time, &partial),
        Some(_) => numbered(core, alloc, did, coming, partial),
    }
}

/// The packets of a datagram behind its first one. Want of memory is the only refusal.
#[inline(always)]
pub(crate) fn others<U: Suite>(
    core: &mut Core<U>,
    alloc: Global,
    did: &mut Dids,
    coming: &Coming,
    cutting: Cutting,
    behind: Option<BytesMut>,
) -> Result<(), AllocError>
    requires fits { cutting.local_cid_len ≤ 20 }
    requires some { IfSome behind (λ b. 0 < length b.items) }
    ensures { OnOk result ((held U.Random.stream core.new did.new) ≡ pieces_after ⟦<U as Means>⟧.meaning coming.now (others_of cutting behind) (held U.Random.stream core.old did.old)) }
{
    let mut rest = behind;
    while let Some(bytes) = rest {
        match cut(cutting, bytes)? {
            None => return Ok(()),
            Some((piece, others)) => {
                one_piece(core, alloc, did, coming, piece)?;
                rest = others;
            }
        }
    }
    Ok(())
}

/// The packets of a datagram: the first one, and those behind it. Want of memory is the only refusal.
pub(crate) fn pieces<U: Suite>(
    core: &mut Core<U>,
    alloc: Global,
    did: &mut Dids,
    coming: &Coming,
    cutting: Cutting,
    first: PartialDecode,
    behind: Option<BytesMut>,
) -> Result<(), AllocError>
    requires fits { cutting.local_cid_len ≤ 20 }
    requires some { IfSome behind (λ b. 0 < length b.items) }
    ensures { OnOk result ((held U.Random.stream core.new did.new) ≡ pieces_after ⟦<U as Means>⟧.meaning coming.now (Ok first ∷ others_of cutting behind) (held U.Random.stream core.old did.old)) }
{
    one_piece(core, alloc, did, coming, first)?;
    others(core, alloc, did, coming, cutting, behind)
}

/// A datagram of so many bytes has come, all of which count as received on the path. Where no datagram could be begun before
/// it, as `blocked` says, and one can now, the loss timer is set anew.
#[tactic(auto, unfolding(qc_state::specs::Receiving::counted_after, qc_state::specs::Moves::move_to, qc_state::specs::Moves::deeds_move))]
pub(crate) fn counted<U: Suite>(
    core: &mut Core<U>,
    did: &Dids,
    now: Instant,
    blocked: bool,
    len: u64,
)
    ensures { (held U.Random.stream core.new did.now) ≡ counted_after now blocked len (held U.Random.stream core.old did.now) }
{
    core.do_hear(len);
    if blocked && !core.is_blocked() {
        core.arm(did, now);
    }
}

/// A datagram came that is one 1-RTT packet. Want of memory is the only refusal.
fn heard_short<U: Suite>(
    core: &mut Core<U>,
    alloc: Global,
    did: &mut Dids,
    coming: &Coming,
    cutting: Cutting,
    bytes: BytesMut,
) -> Result<(), AllocError>
    requires cuts { Cuts (ideal U.Random.stream core.old) cutting }
    requires fits { cutting.local_cid_len ≤ 20 }
    requires front { front_of cutting bytes.items ≡ Ok (short_in cutting.local_cid_len bytes.items, []) }
    ensures { OnOk result ((held U.Random.stream core.new did.new) ≡ heard_after ⟦<U as Means>⟧.meaning coming.now bytes.items (held U.Random.stream core.old did.old)) }
{
    if lets_in(core, coming.remote) {
        let len = bytes.len() as u64;
        let blocked = core.is_blocked();
        short_piece(core, alloc, did, coming, cutting.local_cid_len, bytes)?;
        counted(core, did, coming.time, blocked, len);
    }
    Ok(())
}

/// A datagram came to an end that doesn't wait for its first packet. Answers whether it begins with a
/// packet; otherwise it changes nothing. Want of memory is the only refusal.
#[tactic(auto, unfolding(qc_state::specs::Moves::move_to, qc_state::specs::Moves::deeds_move), using(crate::proofs::Behind::readable_is, crate::proofs::Behind::unreadable_is, crate::proofs::Behind::heard_is, crate::proofs::Behind::unheard_is, crate::proofs::Behind::dropped_is))]
fn heard<U: Suite>(
    core: &mut Core<U>,
    alloc: Global,
    did: &mut Dids,
    coming: &Coming,
    bytes: BytesMut,
) -> Result<bool, AllocError>
    ensures answer { IfOk result (λ read. read ≡ is_readable (ideal U.Random.stream core.old) bytes.items) }
    ensures leads { OnOk result ((held U.Random.stream core.new did.new) ≡ heard_after ⟦<U as Means>⟧.meaning coming.now bytes.items (held U.Random.stream core.old did.old)) }
{
    let len = bytes.len() as u64;
    let cutting = cutting_of(core);
    if is_short(cutting.local_cid_len, bytes.as_slice()) {
        heard_short(core, alloc, did, coming, cutting, bytes)?;
        return Ok(true);
    }
    match cut(cutting, bytes)? {
        None => Ok(false),
        Some((first, behind)) => {
            if lets_in(core, coming.remote) {
                let blocked = core.is_blocked();
                pieces(core, alloc, did, coming, cutting, first, behind)?;
                counted(core, did, coming.time, blocked, len);
            }
            Ok(true)
        }
    }
}

/// Whether a datagram of this length from this address may be a server's first one: while the handshake goes on, it has at
/// least 1200 bytes (RFC 9000, section 14.1), and comes from the path's address.
fn may_begin<U: Suite>(core: &Core<U>, remote: SocketAddr, len: usize) -> bool
    ensures { result ≡ (is_handshake core.now.life.state && (nat_le DATAGRAM_SIZE len && same_address core.now.paths.current.remote remote)) }
{
    core.life.is_handshake()
        && (DATAGRAM_SIZE <= len as u64 && same_address(core.paths.current.remote, remote))
}

/// Whether a packet has the form and the ids of a server's first one.
#[tactic(auto, unfolding(qc_state::specs::Receiving::has_first_ids, qc_state::specs::Setup::ideal_setup))]
fn has_first_ids<U: Suite>(core: &Core<U>, header: &ProtectedHeader) -> bool
    ensures { result ≡ has_first_ids (ideal U.Random.stream core.now) header.now }
{
    match header {
        ProtectedHeader::Initial {
            dst_cid,
            src_cid,
            ..
        } => {
            dst_cid.as_slice() == core.setup.fixed.first_cid.as_slice()
                && src_cid.as_slice() == core.paths.current.remote_cid.as_slice()
        }
        _ => false,
    }
}

/// What came of taking the protection off a packet that may be a server's first one. None exactly where it may not: it
/// has another form or other ids, it doesn't open, or its reserved bits aren't 0. Want of memory is the only refusal.
#[tactic(auto, unfolding(qc_state::specs::Receiving::token_in_first), using(crate::proofs::FirstDatagrams::first_names_none))]
fn first_opened<U: Suite>(core: &Core<U>, first: PartialDecode) -> Result<Option<First>, AllocError>
    ensures some { IfOk result (λ r. IfSome r (λ x. (has_first_ids (ideal U.Random.stream core.now) first.header ≡ true) × (opening_of ⟦<U as Means>⟧.meaning (ideal U.Random.stream core.now) first ≡ Opening.Opened x.source x.token x.spin None x.number x.payload))) }
    ensures none { IfOk result (λ r. IfNone r (token_in_first ⟦<U as Means>⟧.meaning (ideal U.Random.stream core.now) first ≡ None)) }
{
    if !has_first_ids(core, first.header()) {
        return Ok(None);
    }
    match open_piece(core, first)? {
        Opening::Opened {
            source,
            token,
            spin,
            number,
            payload,
            ..
        } => Ok(Some(First {
            source,
            token,
            spin,
            number,
            payload,
        })),
        Opening::Unreadable
        | Opening::Unopened
        | Opening::Reserved { .. }
        | Opening::Untimely { .. } => Ok(None),
    }
}

/// A datagram came to a server that waits for its first packet. Answers whether it is taken: it may be
/// the server's first one, and its first packet's token is expected from then on; otherwise it changes nothing. Want of
/// memory is the only refusal.
pub fn first_datagram<U: Suite>(
    core: &mut Core<U>,
    alloc: Global,
    did: &mut Dids,
    coming: &Coming,
    bytes: BytesMut,
) -> Result<bool, AllocError>
    requires { is_first_awaited core.old.setup ≡ true }
    ensures answer { IfOk result (λ taken. taken ≡ is_taken ⟦<U as Means>⟧.meaning (ideal U.Random.stream core.old) coming.now.remote bytes.items) }
    ensures leads { OnOk result ((held U.Random.stream core.new did.new) ≡ datagram_after ⟦<U as Means>⟧.meaning coming.now bytes.items (held U.Random.stream core.old did.old)) }
{
    let len = bytes.len();
    if !may_begin(core, coming.remote, len) {
        return Ok(false);
    }
    let cutting = cutting_of(core);
    let (first, behind) = match cut(cutting, bytes)? {
        None => return Ok(false),
        Some(cut) => cut,
    };
    match first_opened(core, first)? {
        None => Ok(false),
        Some(first) => {
            let blocked = core.is_blocked();
            let token = first.token.clone()?;
            core.do_expect(token);
            received(
                core,
                alloc,
                did,
                coming,
                SpaceId::Initial,
                first.spin,
                first.source,
                first.token,
                first.number,
                first.payload,
            )?;
            others(core, alloc, did, coming, cutting, behind)?;
            counted(core, did, coming.time, blocked, len as u64);
            Ok(true)
        }
    }
}

/// A datagram came. Answers whether it is taken: it begins with a packet, and where a server waits for
/// its first packet it may be that; otherwise it changes nothing. Want of memory is the only refusal.
#[tactic(auto, unfolding(qc_state::specs::Receiving::datagram_after, qc_state::specs::Receiving::is_taken, qc_state::specs::Setup::ideal_setup, qc_state::specs::Setup::is_first_awaited))]
pub fn datagram<U: Suite>(
    core: &mut Core<U>,
    alloc: Global,
    did: &mut Dids,
    coming: &Coming,
    bytes: BytesMut,
) -> Result<bool, AllocError>
    ensures answer { IfOk result (λ taken. taken ≡ is_taken ⟦<U as Means>⟧.meaning (ideal U.Random.stream core.old) coming.now.remote bytes.items) }
    ensures leads { OnOk result ((held U.Random.stream core.new did.new) ≡ datagram_after ⟦<U as Means>⟧.meaning coming.now bytes.items (held U.Random.stream core.old did.old)) }
{
    if core.setup.is_first_awaited() {
        return first_datagram(core, alloc, did, coming, bytes);
    }
    heard(core, alloc, did, coming, bytes)
}

/// Whether datagrams from this address count.
#[tactic(auto, unfolding(qc_state::specs::Receiving::lets_in))]
pub(crate) fn lets_in<U: Suite>(core: &Core<U>, remote: SocketAddr) -> bool
    ensures { result ≡ lets_in (ideal U.Random.stream core.now) remote }
{
    !core.life.is_over() && same_address(core.paths.current.remote, remote)
}
