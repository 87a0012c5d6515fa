//! STOP_SENDING frames that wait again after their streams have gone.

ghost use Rattle.std.specs.Prelude.{◌≡◌, [], OnOk, OnErr};
ghost use Rattle.qc_streams.specs.Stops.{first_stop, with_stop, without_stop};

use qc_base::VarInt;
use std::alloc::{AllocError, Global};
use std::collections::BTreeMap;
use std::marker::Model;

/// Codes of STOP_SENDING frames, under the ids of streams that have gone.
#[derive(Drop)]
pub struct Stops {
    codes: BTreeMap<u64, VarInt>,
}

impl Model for Stops {
    ghost use Rattle.qc_streams.specs.Stops.{StopCodes};

    ghost Value = { StopCodes };

    ghost view = { λ s. s.codes.entries };
}

impl Stops {
    /// None waits.
    pub fn new(alloc: Global) -> Stops
        ensures { result ≡ [] }
    {
        Stops {
            codes: BTreeMap::new(alloc),
        }
    }

    /// The one of a stream waits.
    ///
    /// # Errors
    ///
    /// Want of memory; nothing changes then.
    pub fn insert(&mut self, id: u64, code: VarInt) -> Result<(), AllocError>
        ensures added { OnOk result (self.new ≡ with_stop id code self.old) }
        ensures err { OnErr result (self.new ≡ self.old) }
    {
        self.codes.insert(id, code)?;
        Ok(())
    }

    /// The one of a stream waits no more.
    pub fn remove(&mut self, id: u64)
        ensures { self.new ≡ without_stop id self.old }
    {
        self.codes.remove(&id);
    }

    /// The one of the stream with the least id, and its code; None where none waits.
    pub fn first(&self) -> Option<(u64, VarInt)>
        ensures { result ≡ first_stop self.now }
    {
        match self.codes.first_key_value() {
            Some((id, code)) => Some((*id, *code)),
            None => None,
        }
    }
}
