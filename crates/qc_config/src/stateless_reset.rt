//! The tokens of stateless resets.

ghost use Rattle.std.specs.Prelude.{◌≡◌, take, IfOk};

use qc_base::{ConnectionId, ResetToken};
use qc_crypto::HmacKey;
use std::alloc::{AllocError, Global};

/// The token that resets a connection which uses `id`: the first 16 bytes of the signature of the id
/// (RFC 9000, section 10.3.2). An end that keeps `key` can so make the token again when it has lost
/// the connection.
///
/// # Errors
///
/// Where there was no memory.
pub fn reset_token<K: HmacKey>(
    alloc: Global,
    key: &K,
    id: ConnectionId,
) -> Result<ResetToken, AllocError>
    ensures { IfOk result (λ token. token ≡ take 16 (K.signature_of key.now id)) }
{
    let mut signature = vec![in alloc; 0; key.signature_len()]?;
    key.sign(id.as_slice(), signature.as_mut_slice());
    let mut token = [0; 16];
    token.copy_from_slice(&signature.as_slice()[..16]);
    Ok(ResetToken::from(token))
}
