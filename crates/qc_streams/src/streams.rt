//! The application's view of all streams.

ghost use Rattle.std.specs.Prelude.{◌≡◌, ◌-◌, false, IfErr, IfOk, OnOk, None, Some, if◌then◌else◌};
ghost use Rattle.qc_streams.specs.Counts.{by_dir, has_accepted};
ghost use Rattle.qc_streams.specs.Sends.{sends_in};
ghost use Rattle.qc_streams.specs.Streams.{accepted_one, may_open, next_accepted, next_own, opened_own};
ghost use Rattle.qc_streams.specs.Views.{fault_of, given_up};

use crate::state::StreamsState;
use qc_base::{Dir, Fault, StreamId};

/// All streams of a connection, as the application opens and accepts them.
#[derive(Drop)]
pub struct Streams<'a> {
    pub(crate) state: &'a mut StreamsState,
}

impl StreamsState {
    /// The application's view of all streams.
    pub fn streams(&mut self) -> Streams<'_>
        ensures same_reference { result.state.ghost_name ≡ self.entry.ghost_name }
        ensures same_value { result.state.now ≡ self.old }
    {
        Streams { state: self }
    }
}

impl<'a> Streams<'a> {
    /// Opens a stream. None exactly where the connection is closed or the peer's limit is reached
    /// (RFC 9000, section 4.6).
    ///
    /// # Errors
    ///
    /// `Failed` exactly where the connection has failed; else `OutOfMemory` for want of memory, and then
    /// the connection has failed. All else is as before.
    pub fn open(&mut self, dir: Dir) -> Result<Option<StreamId>, Fault>
        ensures same_reference { self.new.state.ghost_name ≡ self.old.state.ghost_name }
        ensures id { IfOk result (λ id. id ≡ (if may_open dir self.old.state.now then Some (next_own dir self.old.state.now) else None)) }
        ensures opened { OnOk result (self.new.state.now ≡ (if may_open dir self.old.state.now then opened_own dir self.old.state.now else self.old.state.now)) }
        ensures first { OnOk result (self.old.state.now.failed ≡ false) }
        ensures fault { IfErr result (λ e. e ≡ fault_of self.old.state.now.failed) }
        ensures err { IfErr result (λ e. self.new.state.now ≡ given_up e self.old.state.now) }
    {
        self.state.try_open(dir)
    }

    /// Accepts the next stream that the peer opened. None exactly where all were accepted.
    pub fn accept(&mut self, dir: Dir) -> Option<StreamId>
        ensures same_reference { self.new.state.ghost_name ≡ self.old.state.ghost_name }
        ensures id { result ≡ (if has_accepted (by_dir dir self.old.state.now.peer) then None else Some (next_accepted dir self.old.state.now)) }
        ensures accepted { self.new.state.now ≡ (if has_accepted (by_dir dir self.old.state.now.peer) then self.old.state.now else accepted_one dir self.old.state.now) }
    {
        self.state.accept(dir)
    }

    /// How many streams there are with a sending side that this end opened or accepted, and whose bytes
    /// and end, or whose reset, aren't all acknowledged (RFC 9000, section 3.1).
    pub fn send_streams(&self) -> usize
        ensures { result ≡ sends_in self.now.state.now.records }
    {
        self.state.send_streams() as usize
    }

    /// How many streams of that direction the peer opened that haven't ended.
    pub fn remote_open_streams(&self, dir: Dir) -> u64
        ensures { result ≡ (by_dir dir self.now.state.now.peer).opened - (by_dir dir self.now.state.now.peer).ended }
    {
        self.state.remote_open_streams(dir)
    }
}
