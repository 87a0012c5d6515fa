//! The application's views of a connection's streams, and of its datagrams.

ghost use Rattle.std.specs.Prelude.{◌≡◌, true};
ghost use Rattle.std.specs.Borrow.{sem};
ghost use Rattle.qc_state.specs.Streams.{receives_on, sends_on};

use crate::connection::Connection;
use crate::datagrams::Datagrams;
use crate::directions::{receives_on, sends_on};
use crate::parts::Parts;
use qc_base::StreamId;
use qc_state::Suite;
use qc_streams::{RecvStream, SendStream, Streams};

impl<U: Suite> Connection<U> {
    ghost use Rattle.qc_conn.specs.Lending.{LendsCore, LendsStreams};

    /// Whether this end sends on the stream with an id: it is bidirectional, or this end's own (RFC 9000, 2.1). Then `send_stream` may
    /// be called.
    pub fn sends_on(&self, id: StreamId) -> bool
        ensures { result ≡ sends_on self.now.core.setup.fixed.side id }
    {
        sends_on(self.core.setup.fixed.side, id)
    }

    /// Whether it receives on it: it is bidirectional, or the peer's. Then `recv_stream` may be called.
    pub fn receives_on(&self, id: StreamId) -> bool
        ensures { result ≡ receives_on self.now.core.setup.fixed.side id }
    {
        receives_on(self.core.setup.fixed.side, id)
    }

    /// The application's view of all streams, by which it opens them, and accepts those that the peer opened (RFC 9000, 2). What its
    /// calls do, they do to the connection's streams, and nothing else of it changes; and where one met want of memory, the connection
    /// has failed. On one that had failed before they answer so.
    pub fn streams(&mut self) -> Streams<'_>
        ensures* writes_back { sem 𝓛 (LendsStreams ⟦<U as Parts>⟧.parts self.entry result.state) }
        ensures value { result.state.now ≡ self.old.core.lower.streams }
        ensures mark { result.state.now.failed ≡ self.old.failed }
    {
        let lower = &mut self.core.lower;
        lower.streams.streams()
    }

    /// The application's view of a stream that it reads: a bidirectional one, or one of the peer's (RFC 9000, 2.1). As with `streams`
    /// nothing but the streams changes, and the mark that the connection has failed.
    pub fn recv_stream(&mut self, id: StreamId) -> RecvStream<'_>
        requires receives { receives_on self.old.core.setup.fixed.side id ≡ true }
        ensures* writes_back { sem 𝓛 (LendsStreams ⟦<U as Parts>⟧.parts self.entry result.state) }
        ensures value { result.state.now ≡ self.old.core.lower.streams }
        ensures mark { result.state.now.failed ≡ self.old.failed }
        ensures id { result.id ≡ id }
    {
        let lower = &mut self.core.lower;
        lower.streams.recv_stream(id)
    }

    /// The application's view of a stream that it sends on: a bidirectional one, or one of its own (RFC 9000, 2.1). As with `streams`
    /// nothing but the streams changes, and the mark that the connection has failed.
    pub fn send_stream(&mut self, id: StreamId) -> SendStream<'_>
        requires sends { sends_on self.old.core.setup.fixed.side id ≡ true }
        ensures* writes_back { sem 𝓛 (LendsStreams ⟦<U as Parts>⟧.parts self.entry result.state) }
        ensures value { result.state.now ≡ self.old.core.lower.streams }
        ensures mark { result.state.now.failed ≡ self.old.failed }
        ensures id { result.id ≡ id }
    {
        let lower = &mut self.core.lower;
        lower.streams.send_stream(id)
    }

    /// The application's view of its datagrams, by which it sends them, and takes those that came (RFC 9221). What its calls do, they do to
    /// the connection; where one met want of memory, it has failed. On one that had failed before, sending answers so.
    pub fn datagrams(&mut self) -> Datagrams<'_, U>
        ensures* writes_back { sem 𝓛 (LendsCore ⟦<U as Parts>⟧.parts self.entry result.core) }
        ensures value { result.core.now ≡ self.old.core }
        ensures mark { result.core.now.lower.streams.failed ≡ self.old.failed }
    {
        Datagrams {
            core: &mut self.core,
        }
    }
}
