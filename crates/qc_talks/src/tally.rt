//! What the steps of an end told of streams, counted.

use qc_state::{Answer, Event, Events, Input, Step};
use qc_streams::StreamEvent;

/// What the steps of an end told of streams.
#[derive(Clone, Copy, Debug, PartialEq, Eq)]
pub(crate) struct Tally {
    /// How many streams it opened.
    pub(crate) opened: u64,
    /// How many of the other end's it accepted.
    pub(crate) accepted: u64,
    /// How many bytes of its writes were taken.
    pub(crate) wrote: u64,
    /// How many bytes it read that are those of `byte_at`.
    pub(crate) read: u64,
    /// How many streams it read to their end.
    pub(crate) ended: u64,
    /// Of how many it was told that all they had is acknowledged.
    pub(crate) finished: u64,
}

/// The byte that is written at an offset of a stream.
pub(crate) fn byte_at(id: u64, offset: u64) -> u8 {
    (id.saturating_add(offset) % 251) as u8
}

/// How many of the bytes that a stream had from an offset on are those that were written.
fn right_bytes(id: u64, offset: u64, bytes: &[u8]) -> u64 {
    let mut right: u64 = 0;
    let mut at = offset;
    for byte in bytes {
        if *byte == byte_at(id, at) {
            right = right.saturating_add(1);
        }
        at = at.saturating_add(1);
    }
    right
}

/// The stream that is read.
fn stream_read(input: &Input) -> u64 {
    match input {
        Input::Read { id, .. } => id.value(),
        _ => 0,
    }
}

/// One more, if so.
fn one_if(so: bool) -> u64 {
    if so { 1 } else { 0 }
}

/// Whether a stream is told to be finished.
fn is_finished(event: &Event) -> bool {
    match event {
        Event::Stream(StreamEvent::Finished { .. }) => true,
        _ => false,
    }
}

/// How many streams are told to be finished.
fn finished(events: &Events) -> u64 {
    let mut count: u64 = 0;
    for event in events.as_slice() {
        count = count.saturating_add(one_if(is_finished(event)));
    }
    count
}

impl Tally {
    /// Nothing was told.
    pub(crate) fn none() -> Tally {
        Tally {
            opened: 0,
            accepted: 0,
            wrote: 0,
            read: 0,
            ended: 0,
            finished: 0,
        }
    }

    /// Counts an answer.
    fn answered(&mut self, input: &Input, answer: &Answer) {
        match answer {
            Answer::Opened(_) => self.opened = self.opened.saturating_add(1),
            Answer::Accepted(_) => self.accepted = self.accepted.saturating_add(1),
            Answer::Wrote(count) => self.wrote = self.wrote.saturating_add(*count),
            Answer::Read { offset, body } => {
                let right = right_bytes(stream_read(input), *offset, body.as_slice());
                self.read = self.read.saturating_add(right);
            }
            Answer::Ended => self.ended = self.ended.saturating_add(1),
            _ => {}
        }
    }

    /// Counts the step that an input led to.
    pub(crate) fn count(&mut self, input: &Input, step: &Step) {
        self.answered(input, &step.answer);
        self.finished = self.finished.saturating_add(finished(&step.events));
    }
}
