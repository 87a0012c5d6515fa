//! Ids that an endpoint gives, which contracts see as a list.

ghost use Rattle.std.specs.Prelude.{◌≡◌, IfOk};

use qc_base::IssuedCid;
use std::alloc::{AllocError, Global};
use std::marker::Model;

/// Ids of this end that an endpoint gives for the peer to use (RFC 9000, 5.1.1). Contracts see the list of them.
#[derive(Drop)]
pub struct IdList {
    ids: Vec<IssuedCid>,
}

impl Model for IdList {
    ghost use Rattle.std.specs.Prelude.{List};
    ghost use Rattle.qc_base.specs.declared.ids.IssuedCid.{IssuedCid};

    ghost Value = { List IssuedCid };

    ghost view = { λ l. l.ids.items };
}

impl IdList {
    /// A copy of these ids. Want of memory is the only refusal.
    pub fn from_slice(alloc: Global, ids: &[IssuedCid]) -> Result<IdList, AllocError>
        ensures { IfOk result (λ l. l ≡ ids.now) }
    {
        let ids = Vec::from_slice(alloc, ids)?;
        Ok(IdList { ids })
    }

    /// The ids.
    pub fn as_slice(&self) -> &[IssuedCid]
        ensures { result.now ≡ self.now }
    {
        self.ids.as_slice()
    }
}
