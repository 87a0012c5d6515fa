//! What the application is to be told of streams.

ghost use Rattle.std.specs.Prelude.{◌≡◌, true, OnOk, OnErr};
ghost use Rattle.qc_streams.specs.Events.{event_added, event_placed, first_dropped, first_event, given_up_if, no_events, place_given_up, place_put_by, put_by_if};

use qc_base::{Dir, StreamId, VarInt};
use std::alloc::{AllocError, Global};
use std::collections::VecDeque;
use std::marker::Model;

/// What the application is told of streams.
#[derive(Clone, Copy, Debug, PartialEq, Eq, Drop)]
pub enum StreamEvent {
    /// The peer opened streams.
    Opened { dir: Dir },
    /// More came on a stream.
    Readable { id: StreamId },
    /// A stream can be written on again on which a write was blocked (RFC 9000, section 4.1).
    Writable { id: StreamId },
    /// The peer stopped a stream (RFC 9000, section 3.5).
    Stopped { id: StreamId, error_code: VarInt },
    /// All bytes of a stream and its end are acknowledged.
    Finished { id: StreamId },
    /// More streams may be opened.
    Available { dir: Dir },
}

/// Events that wait, the oldest first, and places that are put by for events that will follow: these
/// then wait without memory.
#[derive(Drop)]
pub struct Events {
    queue: VecDeque<StreamEvent>,
    places: usize,
}

impl Model for Events {
    ghost use Rattle.qc_streams.specs.Events.{EventQueue};

    ghost Value = { EventQueue };

    ghost use Rattle.std.specs.Prelude.{◌+◌, ◌≤◌, length};
    ghost use Rattle.std.specs.VecDeque.{deque_capacity};

    ghost view = { λ e. record { items = e.queue.items; places = e.places } };

    ghost invariant = { λ e. length e.queue.items + e.places ≤ deque_capacity e.queue };
}

impl Events {
    /// No event waits, and no place is put by.
    #[tactic(auto, unfolding(crate::specs::Events::no_events))]
    pub fn new(alloc: Global) -> Events
        ensures { result ≡ no_events }
    {
        Events {
            queue: VecDeque::new(alloc),
            places: 0,
        }
    }

    /// One more event waits.
    ///
    /// # Errors
    ///
    /// Want of memory; nothing changes then.
    #[tactic(auto, unfolding(crate::specs::Events::event_added))]
    pub fn push(&mut self, event: StreamEvent) -> Result<(), AllocError>
        ensures pushed { OnOk result (self.new ≡ event_added event self.old) }
        ensures err { OnErr result (self.new ≡ self.old) }
    {
        let _capacity = self.queue.capacity();
        self.queue.reserve(self.places + 1)?;
        self.queue.push_back_reserved(event);
        Ok(())
    }

    /// Puts one more place by.
    ///
    /// # Errors
    ///
    /// Want of memory; nothing changes then.
    #[tactic(auto, unfolding(crate::specs::Events::place_put_by))]
    pub fn add_place(&mut self) -> Result<(), AllocError>
        ensures added { OnOk result (self.new ≡ place_put_by self.old) }
        ensures err { OnErr result (self.new ≡ self.old) }
    {
        let _capacity = self.queue.capacity();
        self.queue.reserve(self.places + 1)?;
        self.places += 1;
        Ok(())
    }

    /// Puts one more place by, where one is needed.
    ///
    /// # Errors
    ///
    /// Want of memory, only where one is needed; nothing changes then.
    pub(crate) fn add_place_if(&mut self, needs: bool) -> Result<(), AllocError>
        ensures added { OnOk result (self.new ≡ put_by_if needs self.old) }
        ensures needed { OnErr result (needs ≡ true) }
        ensures err { OnErr result (self.new ≡ self.old) }
    {
        if needs {
            self.add_place()?;
        }
        Ok(())
    }

    /// Gives a place up, where there is one.
    pub(crate) fn drop_place_if(&mut self, has: bool)
        ensures { self.new ≡ given_up_if has self.old }
    {
        if has {
            self.drop_place();
        }
    }

    /// Gives a place up.
    #[tactic(auto, unfolding(crate::specs::Events::place_given_up))]
    pub fn drop_place(&mut self)
        ensures { self.new ≡ place_given_up self.old }
    {
        self.places = self.places.saturating_sub(1);
    }

    /// One more event waits, in a place that was put by.
    #[tactic(auto, unfolding(crate::specs::Events::event_placed))]
    pub fn place(&mut self, event: StreamEvent)
        ensures { self.new ≡ event_placed event self.old }
    {
        if self.places > 0 {
            self.places -= 1;
            self.queue.push_back_reserved(event);
        }
    }

    /// The oldest event waits no more; None exactly where none waits.
    #[tactic(auto, unfolding(crate::specs::Events::first_dropped))]
    pub fn pop(&mut self) -> Option<StreamEvent>
        ensures oldest { result ≡ first_event self.old.items }
        ensures rest { self.new ≡ first_dropped self.old }
    {
        self.queue.pop_front()
    }
}
