//! What the store of tokens is given.

ghost use Rattle.std.specs.Prelude.{◌≡◌, OnOk, OnErr};
ghost use Rattle.qc_conn.specs.Stored.{StoresMore, stored, tokens_in, tokens_of, tokens_told};
ghost use Rattle.qc_state.specs.declared.deeds.Layer.{Layer};

use bytes::Bytes;
use qc_config::TokenStore;
use qc_frame::{FrameOf, first_frame};
use qc_state::{Did, Given, Layer};
use std::alloc::{AllocError, Global};

/// The token of a NEW_TOKEN, as it was given, goes into the store. Want of memory is the only refusal.
fn store_token<G: TokenStore>(
    alloc: Global,
    store: &mut G,
    server_name: &str,
    body: &[u8],
) -> Result<(), AllocError>
    ensures ok { OnOk result (store.new ≡ stored G.inserted server_name.now (tokens_of Layer.Store body.now) store.old) }
    ensures err { OnErr result (store.new ≡ store.old) }
{
    let (read, _rest) = match first_frame(body) {
        Ok(read) => read,
        Err(_) => return Ok(()),
    };
    match read.frame {
        FrameOf::NewToken { token } => {
            let token = Bytes::copy_from_slice(alloc, token)?;
            store.insert(server_name, token)
        }
        _ => Ok(()),
    }
}

/// The same of what the store was given, which is written for it.
fn store_given<G: TokenStore>(
    alloc: Global,
    store: &mut G,
    server_name: &str,
    body: &Given,
) -> Result<(), AllocError>
    ensures ok { OnOk result (store.new ≡ stored G.inserted server_name.now (tokens_of Layer.Store body.now) store.old) }
    ensures err { OnErr result (store.new ≡ store.old) }
{
    let mut bytes = Vec::new(alloc);
    body.put(&mut bytes)?;
    store_token(alloc, store, server_name, bytes.as_slice())
}

/// The token of a deed goes into the store, if it gave the store one. Want of memory is the only refusal.
fn store_did<G: TokenStore>(
    alloc: Global,
    store: &mut G,
    server_name: &str,
    did: &Did,
) -> Result<(), AllocError>
    ensures ok { OnOk result (store.new ≡ stored G.inserted server_name.now (tokens_told did.now) store.old) }
    ensures err { OnErr result (store.new ≡ store.old) }
{
    match did {
        Did::Gave { layer, body } => match layer {
            Layer::Store => store_given(alloc, store, server_name, body),
            Layer::Streams | Layer::Recovery | Layer::Session | Layer::Ids | Layer::Life => Ok(()),
        },
        Did::Sealed { .. } | Did::Piece { .. } | Did::Rose { .. } | Did::Lost(_) | Did::Quiet(_) =>
            Ok(()),
    }
}

/// The tokens of what was done go into the store, one after another. Want of memory is the only refusal; the first of them may be there then.
pub(crate) fn store_all<G: TokenStore>(
    alloc: Global,
    store: &mut G,
    server_name: &str,
    did: &[Did],
) -> Result<(), AllocError>
    ensures ok { OnOk result (store.new ≡ stored G.inserted server_name.now (tokens_in did.now) store.old) }
    ensures err { OnErr result (StoresMore G.inserted server_name.now store.old store.new) }
{
    for one in did {
        match store_did(alloc, store, server_name, one) {
            Ok(()) => {}
            Err(e) => return Err(e),
        }
    }
    Ok(())
}
