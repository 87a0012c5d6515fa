//! Taking header protection off (RFC 9001, section 5.4), and knowing a stateless reset (RFC 9000,
//! section 10.3).

ghost use Rattle.std.specs.Prelude.{◌≡◌, ℕ, true, is_some, IfOk, IfSome};
ghost use Rattle.qc_header.specs.Unprotected.{masks_of};
ghost use Rattle.qc_packet.specs.Unprotected.{is_reset, is_cut, is_key_missing, told_as, told_in, IsUnprotected};

use qc_base::{HeaderMask, ResetToken};
use qc_header::{Packet, PacketDecodeError, PartialDecode};
use std::alloc::AllocError;

/// The size of a stateless reset token, in bytes (RFC 9000, section 10.3).
const RESET_TOKEN_SIZE: usize = 16;

/// What is known of a packet whose header protection was taken off.
#[derive(Debug, Drop)]
pub struct UnprotectHeaderResult {
    /// The packet; None exactly where it is too short for a sample.
    pub packet: Option<Packet>,
    /// Whether it has at least 21 bytes and ends in the reset token.
    pub stateless_reset: bool,
}

/// Whether a packet has at least 21 bytes and ends in the reset token. The tokens are compared in a time
/// that doesn't depend on them.
fn ends_in_reset(bytes: &[u8], reset: Option<ResetToken>) -> bool
    ensures { result ≡ is_reset bytes.now reset }
{
    let token = match reset {
        None => return false,
        Some(token) => token,
    };
    let len = bytes.len();
    if len < RESET_TOKEN_SIZE + 5 {
        return false;
    }
    let mut end = [0; RESET_TOKEN_SIZE];
    end.copy_from_slice(&bytes[len - RESET_TOKEN_SIZE..]);
    token == ResetToken::from(end)
}

/// Takes a packet's header protection off, with the key of its space or, for 0-RTT, the early one; forms
/// without protection need none. `reset` is the peer's stateless reset token, where this end knows it.
///
/// None exactly where a protected packet has no key, or is too short for a sample and is no reset. Want of
/// memory is the only refusal.
pub fn unprotect_header<H: HeaderMask>(
    partial: PartialDecode,
    key: Option<&H>,
    reset: Option<ResetToken>,
) -> Result<Option<UnprotectHeaderResult>, AllocError>
    ensures told { IfOk result (λ r. told_in r ≡ told_as (is_key_missing partial (is_some key.entry)) (is_cut partial) (is_reset partial.bytes reset)) }
    ensures packet { IfOk result (λ r. IfSome r (λ told. IfSome told.packet (λ p. IsUnprotected (masks_of H.mask_of key.entry) partial p))) }
{
    let stateless_reset = ends_in_reset(partial.bytes(), reset);
    if partial.space().is_some() && key.is_none() {
        return Ok(None);
    }
    match partial.finish(key) {
        Ok(packet) => Ok(Some(UnprotectHeaderResult {
            packet: Some(packet),
            stateless_reset,
        })),
        Err(PacketDecodeError::OutOfMemory) => Err(AllocError),
        Err(_) => {
            if !stateless_reset {
                return Ok(None);
            }
            Ok(Some(UnprotectHeaderResult {
                packet: None,
                stateless_reset,
            }))
        }
    }
}
