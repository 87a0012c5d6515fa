//! The streams that are open, how many bytes they keep, and on how many this end sends.

ghost use Rattle.std.specs.Prelude.{◌≡◌, [], OnOk, OnErr};
ghost use Rattle.std.specs.Option.{option_copied};
ghost use Rattle.qc_streams.specs.Kept.{kept_at, kept_in, kept_of};
ghost use Rattle.qc_streams.specs.Records.{record_of, with_new, without};

use crate::map::StreamMap;
use crate::sends::{recounted, sends_at};
use crate::stream::Stream;
use std::alloc::{AllocError, Global};
use std::marker::Model;

/// The streams that are open, each under its id.
#[derive(Drop)]
pub struct Records {
    pub(crate) streams: StreamMap,
    // how many bytes they keep until they are acknowledged, all together
    pub(crate) kept: u64,
    // how many of them this end opened or accepted, and sends on
    pub(crate) sending: u64,
}

impl Model for Records {
    ghost use Rattle.std.specs.Prelude.{◌≡◌};
    ghost use Rattle.qc_streams.specs.Lending.{AllRecords};

    ghost Value = { AllRecords };

    ghost use Rattle.qc_streams.specs.Kept.{kept_in};
    ghost use Rattle.qc_streams.specs.Sends.{sends_in};

    ghost view = { λ r. r.streams };

    ghost invariant = { λ r. (r.kept ≡ kept_in r.streams) × (r.sending ≡ sends_in r.streams) };
}

/// How many bytes a stream keeps, none where there is no stream.
fn kept_at(stream: &Option<Stream>) -> u64
    ensures { result ≡ kept_at stream.now }
{
    match stream {
        Some(stream) => stream.kept(),
        None => 0,
    }
}

impl Records {
    /// No stream is open.
    #[tactic(auto, unfolding(crate::specs::Kept::kept_in, crate::specs::Sends::sends_in))]
    pub fn new(alloc: Global) -> Records
        ensures { result ≡ [] }
    {
        Records {
            streams: StreamMap::new(alloc),
            kept: 0,
            sending: 0,
        }
    }

    /// The allocator that streams take their memory from.
    pub(crate) fn alloc(&self) -> Global {
        self.streams.alloc()
    }

    /// The stream with an id.
    pub fn get(&self, id: u64) -> Option<&Stream>
        ensures { option_copied result ≡ record_of id self.now }
    {
        self.streams.get(id)
    }

    /// How many bytes all streams keep together until they are acknowledged.
    pub fn kept(&self) -> u64
        ensures { result ≡ kept_in self.now }
    {
        self.kept
    }

    /// Adds a stream that keeps no bytes.
    ///
    /// # Errors
    ///
    /// Want of memory; nothing changes then.
    pub(crate) fn insert(&mut self, id: u64, stream: Stream) -> Result<(), AllocError>
        requires { kept_of stream ≡ 0 }
        ensures added { OnOk result (self.new ≡ with_new id stream self.old) }
        ensures err { OnErr result (self.new ≡ self.old) }
    {
        let after = stream.sends();
        let before = self.streams.insert(id, stream)?;
        self.kept -= kept_at(&before);
        let _count = self.streams.len();
        self.sending = recounted(self.sending, sends_at(&before), after);
        Ok(())
    }

    /// Takes a stream out.
    pub(crate) fn remove(&mut self, id: u64)
        ensures { self.new ≡ without id self.old }
    {
        let before = self.streams.remove(id);
        self.kept -= kept_at(&before);
        self.sending = self.sending.saturating_sub(sends_at(&before));
    }
}
