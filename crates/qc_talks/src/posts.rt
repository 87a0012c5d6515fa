//! What the steps of an end told of datagrams of the application, counted.

use crate::tally::byte_at;
use qc_state::{Answer, Body, Input, Step};
use std::alloc::{AllocError, Global};

/// How many bytes each datagram has: with its frame's head it leaves 171 of the 1174 bytes that a packet has room for.
const SIZE: u64 = 1000;

/// What the steps of an end told of datagrams.
#[derive(Clone, Copy, Debug, PartialEq, Eq)]
pub(crate) struct Posts {
    /// How many of its datagrams weren't refused.
    pub(crate) sent: u64,
    /// How many datagrams it took that are as the other end sent them, each sent behind those that it took before.
    pub(crate) right: u64,
    /// How many others it took.
    pub(crate) wrong: u64,
    /// The least number that the next one may have.
    next: u64,
}

/// The datagram with this number: its number, and bytes that come of it.
pub(crate) fn post_of(alloc: Global, number: u8) -> Result<Body, AllocError> {
    let mut bytes = Vec::new(alloc);
    bytes.push(number)?;
    for offset in 1..SIZE {
        bytes.push(byte_at(u64::from(number), offset))?;
    }
    Ok(Body::from_vec(bytes))
}

/// The number of a datagram, where its bytes are those of this number.
fn number_of(datagram: &[u8]) -> Option<u64> {
    let number = u64::from(*datagram.first()?);
    if datagram.len() as u64 != SIZE {
        return None;
    }
    let mut offset: u64 = 0;
    for byte in datagram {
        if offset > 0 && *byte != byte_at(number, offset) {
            return None;
        }
        offset = offset.saturating_add(1);
    }
    Some(number)
}

impl Posts {
    /// Nothing was told.
    pub(crate) fn none() -> Posts {
        Posts {
            sent: 0,
            right: 0,
            wrong: 0,
            next: 0,
        }
    }

    /// Counts a datagram that was taken.
    fn took(&mut self, datagram: &[u8]) {
        match number_of(datagram) {
            Some(number) => {
                if number >= self.next {
                    self.right = self.right.saturating_add(1);
                    self.next = number.saturating_add(1);
                } else {
                    self.wrong = self.wrong.saturating_add(1);
                }
            }
            None => self.wrong = self.wrong.saturating_add(1),
        }
    }

    /// Counts the step that an input led to.
    pub(crate) fn count(&mut self, input: &Input, step: &Step) {
        match (input, &step.answer) {
            (Input::SendDatagram { .. }, Answer::Done) => self.sent = self.sent.saturating_add(1),
            (Input::RecvDatagram { .. }, Answer::Datagram(body)) => self.took(body.as_slice()),
            _ => {}
        }
    }
}
