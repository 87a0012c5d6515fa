//! The streams that are open, as an ordered map that lends them.

ghost use Rattle.std.specs.Prelude.{◌≡◌, [], IfOk, OnOk, OnErr, length};
ghost use Rattle.std.specs.Borrow.{sem};
ghost use Rattle.std.specs.Option.{option_copied, option_copied_mut};
ghost use Rattle.std.specs.Map.{keys_of};
ghost use Rattle.std.specs.Ordering.{nat_cmp};
ghost use Rattle.std.specs.List.Sorted.{IsStrictlySortedBy};
ghost use Rattle.qc_streams.specs.Records.{record_of, with_new, without};
ghost use Rattle.qc_streams.specs.Lent.{LendsRecord};

use crate::stream::Stream;
use std::alloc::{AllocError, Global};
use std::collections::BTreeMap;
use std::marker::Model;

/// The streams that are open, each under its id.
#[derive(Drop)]
pub(crate) struct StreamMap {
    map: BTreeMap<u64, Stream>,
    alloc: Global,
}

impl Model for StreamMap {
    ghost use Rattle.qc_streams.specs.Lending.{AllRecords};

    ghost Value = { AllRecords };

    ghost view = { λ r. r.map.entries };
}

impl StreamMap {
    /// No stream is open.
    pub(crate) fn new(alloc: Global) -> StreamMap
        ensures { result ≡ [] }
    {
        StreamMap {
            map: BTreeMap::new(alloc),
            alloc,
        }
    }

    /// The allocator that streams take their memory from.
    pub(crate) fn alloc(&self) -> Global {
        self.alloc
    }

    /// How many streams are open.
    pub(crate) fn len(&self) -> usize
        ensures { result ≡ length self.now }
    {
        self.map.len()
    }

    /// The stream with an id.
    pub(crate) fn get(&self, id: u64) -> Option<&Stream>
        ensures { option_copied result ≡ record_of id self.now }
    {
        self.map.get(&id)
    }

    /// The stream with an id, to be changed.
    pub(crate) fn get_mut(&mut self, id: u64) -> Option<&mut Stream>
        ensures* writes_back { sem 𝓛 (LendsRecord self.entry id result) }
        ensures value { option_copied_mut result ≡ record_of id self.old }
    {
        self.map.get_mut(&id)
    }

    /// Adds a stream; answers the one that had its id.
    ///
    /// # Errors
    ///
    /// Want of memory; nothing changes then.
    pub(crate) fn insert(&mut self, id: u64, stream: Stream) -> Result<Option<Stream>, AllocError>
        ensures added { OnOk result (self.new ≡ with_new id stream self.old) }
        ensures before { IfOk result (λ before. before ≡ record_of id self.old) }
        ensures ordered { IsStrictlySortedBy nat_cmp (keys_of self.old) }
        ensures err { OnErr result (self.new ≡ self.old) }
    {
        let _count = self.map.len();
        let before = self.map.insert(id, stream)?;
        Ok(before)
    }

    /// Takes a stream out, and answers it.
    pub(crate) fn remove(&mut self, id: u64) -> Option<Stream>
        ensures removed { self.new ≡ without id self.old }
        ensures value { result ≡ record_of id self.old }
    {
        self.map.remove(&id)
    }
}
