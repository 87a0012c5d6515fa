//! The calls of a connection.

ghost use Rattle.std.specs.Prelude.{◌≡◌, ◌<◌, ◌^◌, ◌≤◌, ◌++◌, [], length, is_some, map, OnOk, IfOk, None};
ghost use Rattle.qc_cids.specs.Cids.{give_refusal};
ghost use Rattle.qc_state.specs.Life.{is_open, ready_event, connected_event, lost_event, drained_event};
ghost use Rattle.qc_state.specs.Moves.{Clock, Ask, Issue, ReportReady, ReportConnected, ReportStreams, ReportLost, ReportNotices, ReportDrained, move_to, state_move};
ghost use Rattle.qc_state.specs.Polls.{first_endpoint_event, first_event, heard_first, heard_polled, polled, polled_endpoint, stream_first, stream_polled};
ghost use Rattle.qc_state.specs.Run.{close_after};
ghost use Rattle.qc_state.specs.Streams.{events_of};
ghost use Rattle.qc_state.specs.Timers.{next_timeout};
ghost use Rattle.qc_state.specs.View.{at, ideal, held};
ghost use Rattle.qc_streams.specs.Owed.{next_event};

use crate::state::Core;
use bytes::Bytes;
use qc_base::{Instant, IssuedCid, VarInt};
use qc_state::{ApplicationClose, Close, EndpointEvent, EndpointEvents, Event, Events, Suite};
use std::alloc::{AllocError, Global};

impl<U: Suite> Core<U> {
    /// A PING waits from now on in the highest space (RFC 9000, section 19.2).
    pub fn ping(&mut self)
        ensures { (ideal U.Random.stream self.new) ≡ state_move (Ask self.old.keys.highest) (ideal U.Random.stream self.old) }
    {
        self.do_ask(self.keys.highest);
    }

    /// The application closes the connection at `now` (RFC 9000, 10.2). True exactly where this raised the life; a later
    /// close changes nothing.
    #[tactic(auto, unfolding(qc_state::specs::Run::close_after, qc_state::specs::Moves::move_to, qc_state::specs::Moves::deeds_move))]
    pub fn close(&mut self, now: Instant, error_code: VarInt, reason: Bytes) -> bool
        ensures raised { result ≡ is_open self.old.life.state }
        ensures leads { (ideal U.Random.stream self.new) ≡ (close_after now error_code reason (at (ideal U.Random.stream self.old) [])).state }
    {
        if self.life.is_open() {
            self.do_shut(
                now,
                Close::Application(ApplicationClose { error_code, reason }),
            );
            return true;
        }
        false
    }

    /// Ids of this end are given (RFC 9000, 5.1.1). Want of memory is the only refusal.
    pub fn issue(&mut self, now: Instant, given: &[IssuedCid]) -> Result<(), AllocError>
        requires { give_refusal given.now self.old.lower.ids ≡ None }
        ensures { OnOk result ((ideal U.Random.stream self.new) ≡ state_move (Issue now given.now) (ideal U.Random.stream self.old)) }
    {
        self.do_issue(now, given)
    }

    /// The connection is told a time.
    pub fn clock(&mut self, now: Instant)
        ensures { (ideal U.Random.stream self.new) ≡ state_move (Clock now) (ideal U.Random.stream self.old) }
    {
        self.do_clock(now);
    }

    /// The report that the handshake's data is ready. None exactly where it doesn't wait.
    pub fn poll_ready(&mut self) -> Option<Event>
        ensures event { result ≡ ready_event self.old.life }
        ensures leads { (ideal U.Random.stream self.new) ≡ state_move ReportReady (ideal U.Random.stream self.old) }
    {
        self.do_report_ready()
    }

    /// The report that the handshake is over. None exactly where it doesn't wait.
    pub fn poll_connected(&mut self) -> Option<Event>
        ensures event { result ≡ connected_event self.old.life }
        ensures leads { (ideal U.Random.stream self.new) ≡ state_move ReportConnected (ideal U.Random.stream self.old) }
    {
        self.do_report_connected()
    }

    /// The report of the end's reason. None exactly where it doesn't wait.
    pub fn poll_lost(&mut self) -> Option<Event>
        ensures event { result ≡ lost_event self.old.life }
        ensures leads { (ideal U.Random.stream self.new) ≡ state_move ReportLost (ideal U.Random.stream self.old) }
    {
        self.do_report_lost()
    }

    /// All events of the streams, which are told, behind the others. Want of memory is the only refusal.
    pub fn take_stream_events(&mut self, events: &mut Events) -> Result<(), AllocError>
        ensures events { OnOk result (events.new ≡ events.old ++ map Event.Stream (events_of self.old.lower.streams)) }
        ensures leads { OnOk result ((ideal U.Random.stream self.new) ≡ state_move ReportStreams (ideal U.Random.stream self.old)) }
    {
        self.do_report_streams(events)
    }

    /// The first event of the streams, or that of the end where they have none.
    fn poll_streams(&mut self) -> Option<Event>
        ensures event { result ≡ stream_first (next_event self.old.lower.streams) (lost_event self.old.life) }
        ensures leads { (ideal U.Random.stream self.new) ≡ stream_polled (next_event self.old.lower.streams) (ideal U.Random.stream self.old) }
    {
        match self.do_report_stream() {
            None => self.poll_lost(),
            Some(event) => Some(Event::Stream(event)),
        }
    }

    /// The first event of datagrams, or what waits behind it where there is none.
    #[tactic(auto, using(crate::proofs::DatagramCalls::heard_is_first, crate::proofs::DatagramCalls::heard_is_polled, crate::proofs::DatagramCalls::streams_are_first, crate::proofs::DatagramCalls::streams_are_polled))]
    fn poll_heard(&mut self) -> Option<Event>
        ensures event { result ≡ heard_first self.old.life.heard (stream_first (next_event self.old.lower.streams) (lost_event self.old.life)) }
        ensures leads { (ideal U.Random.stream self.new) ≡ heard_polled self.old.life.heard (ideal U.Random.stream self.old) }
    {
        if self.life.heard.is_empty() {
            return self.poll_streams();
        }
        self.do_report_heard()
    }

    /// The next event for the application. None exactly where none waits.
    #[tactic(auto, unfolding(qc_state::specs::Polls::first_event, qc_state::specs::Polls::polled))]
    pub fn poll(&mut self) -> Option<Event>
        ensures event { result ≡ first_event (ideal U.Random.stream self.old) }
        ensures leads { (ideal U.Random.stream self.new) ≡ polled (ideal U.Random.stream self.old) }
    {
        if self.life.ready {
            return self.poll_ready();
        }
        if self.life.connected {
            return self.poll_connected();
        }
        self.poll_heard()
    }

    /// All that waits to be reported to the endpoint before the end.
    pub fn take_notices(&mut self, alloc: Global) -> EndpointEvents
        ensures events { result ≡ self.old.life.notices }
        ensures leads { (ideal U.Random.stream self.new) ≡ state_move ReportNotices (ideal U.Random.stream self.old) }
    {
        self.do_report_notices(alloc)
    }

    /// The report of the end. None exactly where it doesn't wait.
    pub fn poll_drained(&mut self) -> Option<EndpointEvent>
        ensures event { result ≡ drained_event self.old.life }
        ensures leads { (ideal U.Random.stream self.new) ≡ state_move ReportDrained (ideal U.Random.stream self.old) }
    {
        self.do_report_drained()
    }

    /// Whether an event for the endpoint waits.
    #[tactic(auto, using(crate::proofs::EndpointPolls::some_wait, crate::proofs::EndpointPolls::end_waits))]
    pub fn has_endpoint_events(&self) -> bool
        ensures { result ≡ is_some (first_endpoint_event (ideal U.Random.stream self.now)) }
    {
        if self.life.notices.is_empty() {
            return self.life.drained;
        }
        true
    }

    /// The next event for the endpoint. None exactly where none waits.
    #[tactic(auto, using(crate::proofs::EndpointPolls::end_is_first, crate::proofs::EndpointPolls::end_polled, crate::proofs::EndpointPolls::notice_is_first, crate::proofs::EndpointPolls::notice_polled))]
    pub fn poll_endpoint_events(&mut self) -> Option<EndpointEvent>
        ensures event { result ≡ first_endpoint_event (ideal U.Random.stream self.old) }
        ensures leads { (ideal U.Random.stream self.new) ≡ polled_endpoint (ideal U.Random.stream self.old) }
    {
        if self.life.notices.is_empty() {
            return self.poll_drained();
        }
        self.do_report_notice()
    }

    /// The greatest time that the connection was told, its creation included.
    pub fn greatest(&self) -> Instant
        ensures { result ≡ self.now.timers.greatest }
    {
        self.timers.greatest
    }

    /// The time at which the connection wants to be called. None exactly where no timer is set.
    pub fn poll_timeout(&self) -> Option<Instant>
        ensures { result ≡ next_timeout self.now.timers }
    {
        self.timers.next()
    }
}
