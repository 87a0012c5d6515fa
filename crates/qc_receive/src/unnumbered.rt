//! Packets without a number: a Retry, or a Version Negotiation packet.

ghost use Rattle.std.specs.Prelude.{◌≡◌, take, drop, None, IfOk, OnOk};
ghost use Rattle.qc_state.specs.Receiving.{left_after, piece_told, unnumbered_after};
ghost use Rattle.qc_state.specs.Verdicts.{ids_end, lacks_version, lists_version, retry_token, takes_retry, unnumbered_verdict};
ghost use Rattle.qc_state.specs.View.{ideal, held};

use bytes::Bytes;
use qc_admit::left;
use qc_base::{ConnectionId, Instant};
use qc_core::Core;
use qc_header::{PartialDecode, ProtectedHeader};
use qc_state::{ConnectionError, Dids, Means, Suite, Verdict};
use std::alloc::{AllocError, Global};

/// The size of the integrity tag behind a Retry's token, in bytes (RFC 9001, section 5.8).
const RETRY_TAG: usize = 16;

/// Where the ids of a packet end, behind its first byte, its version and their lengths (RFC 9000, sections 17.2.1 and 17.2.5).
fn ids_end(dst_cid: &ConnectionId, src_cid: &ConnectionId) -> usize
    ensures { result ≡ ids_end dst_cid.now src_cid.now }
{
    7 + dst_cid.len() + src_cid.len()
}

/// Bytes up to a place, and those behind it, of which there may be none.
fn parted(bytes: &[u8], at: usize) -> (&[u8], &[u8])
    ensures front { result.0.now ≡ take at bytes.now }
    ensures rest { result.1.now ≡ drop at bytes.now }
{
    if at < bytes.len() {
        return bytes.split_at(at);
    }
    (bytes, &[])
}

/// Whether a version stands among those of a Version Negotiation packet with this payload (RFC 9000, section 17.2.1).
fn lists_version(version: u32, payload: &[u8]) -> bool
    ensures { result ≡ lists_version version payload.now }
{
    let mut rest = payload;
    while let [a, b, c, d, more @ ..] = rest {
        if u32::from_be_bytes([*a, *b, *c, *d]) == version {
            return true;
        }
        rest = more;
    }
    false
}

/// Whether a Retry with this source id is taken, of which `header` is the packet up to its token, and `payload` the token and the tag.
#[tactic(auto, unfolding(qc_state::specs::Verdicts::takes_retry, qc_state::specs::Setup::ideal_setup))]
fn takes_retry<U: Suite>(
    core: &Core<U>,
    src_cid: &ConnectionId,
    header: &[u8],
    payload: &[u8],
) -> bool
    ensures { result ≡ takes_retry ⟦<U as Means>⟧.meaning (ideal U.Random.stream core.now) src_cid.now header.now payload.now }
{
    let first_cid = &core.setup.fixed.first_cid;
    core.is_unanswered()
        && RETRY_TAG < payload.len()
        && core
            .lower
            .session
            .is_valid_retry(first_cid, header, payload)
        && src_cid.as_slice() != first_cid.as_slice()
}

/// Whether a Version Negotiation packet with this payload ends the connection.
#[tactic(auto, unfolding(qc_state::specs::Verdicts::lacks_version, qc_state::specs::Setup::ideal_setup))]
fn lacks_version<U: Suite>(core: &Core<U>, payload: &[u8]) -> bool
    ensures { result ≡ lacks_version (ideal U.Random.stream core.now) payload.now }
{
    core.is_unanswered() && !lists_version(core.setup.fixed.version, payload)
}

/// The token of a Retry with this payload. Want of memory is the only refusal.
fn retry_token(alloc: Global, payload: &[u8]) -> Result<Bytes, AllocError>
    ensures { IfOk result (λ token. token ≡ retry_token payload.now) }
{
    let (token, _tag) = payload.split_at(payload.len().saturating_sub(RETRY_TAG));
    Bytes::copy_from_slice(alloc, token)
}

/// The packet is told of, and changes nothing. Want of memory is the only refusal.
fn ignored<U: Suite>(core: &Core<U>, did: &mut Dids) -> Result<(), AllocError>
    ensures { OnOk result ((held U.Random.stream core.now did.new) ≡ piece_told None None Verdict.Ignored (held U.Random.stream core.now did.old)) }
{
    core.do_tell_piece(did, None, None, Verdict::Ignored)
}

/// A Version Negotiation packet lacks this end's version: the connection drains. Want of memory is the only refusal.
fn mismatched<U: Suite>(core: &mut Core<U>, did: &mut Dids, now: Instant) -> Result<(), AllocError>
    ensures { OnOk result ((held U.Random.stream core.new did.new) ≡ left_after now ConnectionError.VersionMismatch (piece_told None None Verdict.Versions (held U.Random.stream core.old did.old))) }
{
    core.do_tell_piece(did, None, None, Verdict::Versions)?;
    left(core, did, now, ConnectionError::VersionMismatch)
}

/// What a packet without a number does. Want of memory is the only refusal.
#[tactic(auto, unfolding(qc_state::specs::Verdicts::unnumbered_verdict, qc_state::specs::Moves::move_to, qc_state::specs::Moves::deeds_move))]
pub(crate) fn unnumbered<U: Suite>(
    core: &mut Core<U>,
    alloc: Global,
    did: &mut Dids,
    now: Instant,
    partial: &PartialDecode,
) -> Result<(), AllocError>
    ensures { OnOk result ((held U.Random.stream core.new did.new) ≡ unnumbered_after ⟦<U as Means>⟧.meaning now partial.now (unnumbered_verdict ⟦<U as Means>⟧.meaning (ideal U.Random.stream core.old) partial.now) (held U.Random.stream core.old did.old)) }
{
    match partial.header() {
        ProtectedHeader::Retry {
            dst_cid,
            src_cid,
            ..
        } => {
            let (header, payload) = parted(partial.bytes(), ids_end(dst_cid, src_cid));
            if !takes_retry(core, src_cid, header, payload) {
                return ignored(core, did);
            }
            let token = retry_token(alloc, payload)?;
            core.renew(did, now, *src_cid, token)
        }
        ProtectedHeader::VersionNegotiate {
            src_cid,
            dst_cid,
            ..
        } => {
            let (_header, payload) = parted(partial.bytes(), ids_end(dst_cid, src_cid));
            if !lacks_version(core, payload) {
                return ignored(core, did);
            }
            mismatched(core, did, now)
        }
        ProtectedHeader::Initial { .. }
        | ProtectedHeader::Long { .. }
        | ProtectedHeader::Short { .. } => ignored(core, did),
    }
}
