//! Streams that wait until they can be written on again.

ghost use Rattle.std.specs.Prelude.{◌≡◌, [], IsTrue, OnOk, OnErr};
ghost use Rattle.qc_streams.specs.Blocked.{first_blocked, first_gone, is_below, lacking, with_blocked, without_blocked};

use qc_base::StreamId;
use qc_send_stream::WriteError;
use std::alloc::{AllocError, Global};
use std::collections::BTreeMap;
use std::marker::Model;

/// Streams that wait until they can be written on again.
#[derive(Drop)]
pub struct Blocked {
    ids: BTreeMap<u64, StreamId>,
}

impl Model for Blocked {
    ghost use Rattle.qc_streams.specs.Blocked.{BlockedIds};

    ghost Value = { BlockedIds };

    ghost view = { λ b. b.ids.entries };
}

impl Blocked {
    /// No stream waits.
    pub fn new(alloc: Global) -> Blocked
        ensures { result ≡ [] }
    {
        Blocked {
            ids: BTreeMap::new(alloc),
        }
    }

    /// A stream comes in.
    ///
    /// # Errors
    ///
    /// Want of memory; nothing changes then.
    pub fn insert(&mut self, id: StreamId) -> Result<(), AllocError>
        ensures added { OnOk result (self.new ≡ with_blocked id self.old) }
        ensures err { OnErr result (self.new ≡ self.old) }
    {
        self.ids.insert(id.value(), id)?;
        Ok(())
    }

    /// A stream leaves.
    pub fn remove(&mut self, id: u64)
        ensures { self.new ≡ without_blocked id self.old }
    {
        self.ids.remove(&id);
    }

    /// A write was refused though the connection has credit and room: where it was blocked, the
    /// stream lacks credit of its own, and leaves.
    pub(crate) fn note_refusal(&mut self, refusal: &WriteError, id: u64)
        ensures { self.new ≡ lacking refusal.now id self.old }
    {
        match refusal {
            WriteError::Blocked => self.remove(id),
            WriteError::ClosedStream => {}
            WriteError::Stopped(_) => {}
            WriteError::OutOfMemory => {}
        }
    }

    /// Whether none waits.
    pub(crate) fn is_empty(&self) -> bool
        ensures { IsTrue result → self.now ≡ [] }
    {
        self.ids.is_empty()
    }

    /// The least of them leaves, where it lies below an id, or there is no such id: under which it waited,
    /// and what it is.
    pub(crate) fn pop(&mut self, below: Option<u64>) -> Option<(u64, StreamId)>
        ensures first { result ≡ first_blocked below self.old }
        ensures gone { self.new ≡ first_gone below self.old }
    {
        let Some((_, id)) = self.ids.first_key_value() else {
            return None;
        };
        if !is_below(below, id.value()) {
            return None;
        }
        self.ids.pop_first()
    }
}

/// Whether an id lies below another, or there is no other.
fn is_below(below: Option<u64>, id: u64) -> bool
    ensures { result ≡ is_below below id }
{
    match below {
        Some(limit) => id < limit,
        None => true,
    }
}
