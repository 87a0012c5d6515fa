//! How long frames get, and a reason cut so that its frame fits.

ghost use Rattle.std.specs.Prelude.{◌≡◌, ℕ, ◌+◌, ◌-◌, ◌*◌, ◌<◌, ◌≤◌, ◌^◌, List, [], length, Option, Some};
ghost use Rattle.qc_base.specs.Varint.{varint};
ghost use Rattle.qc_frame.specs.AckRanges.{ranges_of};
ghost use Rattle.qc_frame.specs.Frame.{AckValue};
ghost use Rattle.qc_frame.specs.FrameFits.{Fits};
ghost use Rattle.qc_frame.specs.FrameSpelling.{spelling, ecn_spelling};
ghost use Rattle.qc_frame.specs.Sizes.{IsLongestReason};
ghost use Rattle.qc_frame.specs.declared.frames.EcnCounts.{EcnCounts};
ghost use Rattle.qc_frame.specs.declared.frames.NewConnectionId.{NewConnectionId};
ghost use Rattle.qc_frame.specs.declared.frames.FrameOf.TheVariants as frames;

use qc_base::{TransportErrorCode, VarInt, varint_size};

/// The most bytes of a CRYPTO frame before its body (RFC 9000, section 19.6).
pub const CRYPTO_HEAD_MAX: usize = 17;

/// The most bytes of a CONNECTION_CLOSE frame before its reason (RFC 9000, section 19.19).
pub const CONNECTION_CLOSE_HEAD_MAX: usize = 25;

/// The most bytes of a NEW_CONNECTION_ID frame (RFC 9000, section 19.15).
pub const NEW_CONNECTION_ID_MAX: usize = 54;

/// The most bytes of a RETIRE_CONNECTION_ID frame (RFC 9000, section 19.16).
pub const RETIRE_CONNECTION_ID_MAX: usize = 9;

/// The most bytes of a DATAGRAM frame before its body (RFC 9221, section 4).
pub const DATAGRAM_HEAD_MAX: usize = 9;

/// The most bytes of an ACK frame with one range, its counts of ECN left out (RFC 9000, section 19.3).
pub const ACK_MAX: usize = 33;

/// The most bytes of each further range of an ACK frame (RFC 9000, section 19.3.1).
pub const ACK_RANGE_MAX: usize = 16;

/// The most bytes of an ACK frame's counts of ECN (RFC 9000, section 19.3.2).
pub const ECN_COUNTS_MAX: usize = 24;

/// A law, which runs no code: no frame of these kinds is longer than the constants above say, and
/// frames whose numbers take their longest form are that long.
pub fn greatest_sizes()
    ensures crypto { (offset : ℕ) (body : List ℕ) → length (spelling (frames.Crypto offset body)) ≤ CRYPTO_HEAD_MAX + length body }
    ensures connection_close { (code : ℕ) (ty : Option ℕ) (reason : List ℕ) → length (spelling (frames.ConnectionClose code ty reason)) ≤ CONNECTION_CLOSE_HEAD_MAX + length reason }
    ensures application_close { (code : ℕ) (reason : List ℕ) → length (spelling (frames.ApplicationClose code reason)) ≤ CONNECTION_CLOSE_HEAD_MAX + length reason }
    ensures new_connection_id { (new : NewConnectionId) → length new.id ≤ 20 → length new.reset_token ≡ 16 → length (spelling (frames.NewConnectionId new)) ≤ NEW_CONNECTION_ID_MAX }
    ensures retire_connection_id { (sequence : ℕ) → length (spelling (frames.RetireConnectionId sequence)) ≤ RETIRE_CONNECTION_ID_MAX }
    ensures datagram { (body : List ℕ) → length (spelling (frames.Datagram body)) ≤ DATAGRAM_HEAD_MAX + length body }
    ensures ack { (ack : AckValue) → Fits (frames.Ack ack) → length (spelling (frames.Ack ack)) ≤ ACK_MAX + ACK_RANGE_MAX * (length (ranges_of ack) - 1) + length (ecn_spelling ack.ecn) }
    ensures counts { (counts : EcnCounts) → length (ecn_spelling (Some counts)) ≤ ECN_COUNTS_MAX }
    ensures crypto_reached { (offset : ℕ) (body : List ℕ) → 2 ^ 30 ≤ offset → 2 ^ 30 ≤ length body → length (spelling (frames.Crypto offset body)) ≡ CRYPTO_HEAD_MAX + length body }
    ensures connection_close_reached { (code ty : ℕ) (reason : List ℕ) → 2 ^ 30 ≤ code → 2 ^ 30 ≤ ty → 2 ^ 30 ≤ length reason → length (spelling (frames.ConnectionClose code (Some ty) reason)) ≡ CONNECTION_CLOSE_HEAD_MAX + length reason }
    ensures new_connection_id_reached { (new : NewConnectionId) → 2 ^ 30 ≤ new.sequence → 2 ^ 30 ≤ new.retire_prior_to → length new.id ≡ 20 → length new.reset_token ≡ 16 → length (spelling (frames.NewConnectionId new)) ≡ NEW_CONNECTION_ID_MAX }
    ensures retire_connection_id_reached { (sequence : ℕ) → 2 ^ 30 ≤ sequence → length (spelling (frames.RetireConnectionId sequence)) ≡ RETIRE_CONNECTION_ID_MAX }
    ensures datagram_reached { (body : List ℕ) → 2 ^ 30 ≤ length body → length (spelling (frames.Datagram body)) ≡ DATAGRAM_HEAD_MAX + length body }
{}

/// The longest front of `reason` with which a CONNECTION_CLOSE frame has at most `room` bytes;
/// none of it where not even the frame without a reason fits.
pub fn fit_close_reason(
    error_code: TransportErrorCode,
    frame_type: Option<u64>,
    reason: &[u8],
    room: usize,
) -> &[u8]
    ensures { IsLongestReason (frames.ConnectionClose error_code frame_type) reason.now room result.now }
{
    let code = error_code.into_inner();
    let head = 1 + varint_size(code) + varint_size(frame_type.unwrap_or(0));
    &reason[..longest_reason(head, reason, room)]
}

/// The same for a CONNECTION_CLOSE frame of the application.
pub fn fit_application_reason(error_code: VarInt, reason: &[u8], room: usize) -> &[u8]
    ensures { IsLongestReason (frames.ApplicationClose error_code) reason.now room result.now }
{
    let head = 1 + varint_size(error_code.into_inner());
    &reason[..longest_reason(head, reason, room)]
}

// How many bytes of the reason fit into `room` behind `head` others and their own count.
fn longest_reason(head: usize, reason: &[u8], room: usize) -> usize
    requires { head ≤ 17 }
    ensures within { result ≤ length reason.now }
    ensures fits { head + length (varint 0) ≤ room → head + length (varint result) + result ≤ room }
    ensures nothing { room < head + length (varint 0) → result ≡ 0 }
    ensures longest { (n : ℕ) → n ≤ length reason.now → head + length (varint n) + n ≤ room → n ≤ result }
{
    let mut len = reason.len().min(room);
    while head + varint_size(len as u64) + len > room {
        if len == 0 {
            return 0;
        }
        len -= 1;
    }
    len
}
