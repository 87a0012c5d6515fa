//! The connections that the tests begin with. Their states are on the heap: a function that owns one whole is slow to check.

use crate::acts::{Act, first_wrong, number};
use qc_base::Side;
use qc_streams::{PeerLimits, StreamsState};
use std::alloc::{AllocError, Global};

/// How a client is set up.
#[derive(Clone, Copy)]
pub struct Setup {
    /// How many streams of each direction its peer may have open.
    pub uni: u32,
    pub bi: u32,
    /// How many bytes may be underway or unread, on all streams and on one.
    pub window: u32,
    pub stream_window: u32,
    /// How many bytes may be kept until they are acknowledged.
    pub send_window: u64,
    /// Whether streams of one priority take turns.
    pub fair: bool,
}

/// A client whose peer may have two streams of each direction open, and send 16 bytes of all and 10 of each, and that
/// may keep 100 bytes.
pub fn usual() -> Setup {
    Setup {
        uni: 2,
        bi: 2,
        window: 16,
        stream_window: 10,
        send_window: 100,
        fair: true,
    }
}

/// The peer lets so many streams of each direction be opened, and takes so many bytes of all and of each.
pub fn limits(bidi: u64, uni: u64, all: u64, each: u32) -> PeerLimits {
    PeerLimits {
        all_data: all,
        bidi_streams: bidi,
        uni_streams: uni,
        peer_bidi_data: number(each),
        own_bidi_data: number(each),
        own_uni_data: number(each),
    }
}

/// A client.
pub fn client(alloc: Global, setup: Setup) -> Result<Box<StreamsState>, AllocError> {
    let streams = StreamsState::new(
        alloc,
        Side::Client,
        number(setup.uni),
        number(setup.bi),
        number(setup.window),
        number(setup.stream_window),
        setup.send_window,
        setup.fair,
    );
    Ok(Box::new(alloc, streams)?)
}

/// Which of the calls on a client is the first that answers otherwise. None where all answer as they should.
pub fn first_of_client(
    alloc: Global,
    setup: Setup,
    acts: &[Act],
) -> Result<Option<usize>, AllocError> {
    let mut streams = client(alloc, setup)?;
    Ok(first_wrong(alloc, &mut streams, acts))
}

/// The same, of some calls and of those behind them: the first ones answer as they should, or the place is that of none.
pub fn first_behind(
    alloc: Global,
    setup: Setup,
    before: &[Act],
    acts: &[Act],
) -> Result<Option<usize>, AllocError> {
    let mut streams = client(alloc, setup)?;
    if first_wrong(alloc, &mut streams, before).is_some() {
        return Ok(Some(acts.len()));
    }
    Ok(first_wrong(alloc, &mut streams, acts))
}
