//! Bytes that a session keeps.

ghost use Rattle.std.specs.Prelude.{◌≡◌, ◌++◌, [], take, OnOk, OnErr};

use std::alloc::{AllocError, Global};
use std::marker::Model;

/// A list of bytes. Contracts see it as the list.
#[derive(Drop)]
pub(crate) struct Body {
    bytes: Vec<u8>,
}

impl Model for Body {
    ghost use Rattle.std.specs.Prelude.{List, ℕ};

    ghost Value = { List ℕ };

    ghost view = { λ body. body.bytes.items };
}

impl Body {
    pub(crate) fn new(alloc: Global) -> Body
        ensures { result ≡ [] }
    {
        Body {
            bytes: Vec::new(alloc),
        }
    }

    pub(crate) fn from_vec(bytes: Vec<u8>) -> Body
        ensures { result ≡ bytes.items }
    {
        Body { bytes }
    }

    pub(crate) fn as_slice(&self) -> &[u8]
        ensures { result.now ≡ self.now }
    {
        self.bytes.as_slice()
    }

    /// Appends `more`; without memory nothing changes.
    pub(crate) fn extend(&mut self, more: &[u8]) -> Result<(), AllocError>
        ensures ok { OnOk result (self.new ≡ self.old ++ more.now) }
        ensures err { OnErr result (self.new ≡ self.old) }
    {
        self.bytes.extend_from_slice(more)
    }

    /// Cuts it back to `len` bytes.
    pub(crate) fn truncate(&mut self, len: usize)
        ensures { self.new ≡ take len self.old }
    {
        self.bytes.truncate(len);
    }
}
