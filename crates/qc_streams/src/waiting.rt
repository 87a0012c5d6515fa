//! What waits to be sent for single streams.

ghost use Rattle.std.specs.Prelude.{◌≡◌, None, OnOk};
ghost use Rattle.qc_send_stream.specs.Sending.{has_more};
ghost use Rattle.qc_streams.specs.Kept.{kept_of};
ghost use Rattle.qc_streams.specs.Sends.{sends_of};
ghost use Rattle.qc_streams.specs.Queues.{dues_at, dues_of, has_some, new_waiting, owes_credit, owes_data, owes_frames, owes_reset, owes_stop, put_if, sets_filed, with_mark, with_turn};

use crate::stops::Stops;
use crate::stream::Stream;
use qc_recv::Recv;
use qc_send_stream::SendPart;
use qc_turns::{Ids, Marks, Place, Ready};
use std::alloc::{AllocError, Global};

/// What waits of a stream.
#[derive(Clone, Copy, Debug, PartialEq, Eq)]
pub struct Dues {
    /// Whether a RESET_STREAM does.
    pub reset: bool,
    /// Whether a STOP_SENDING does.
    pub stop: bool,
    /// Whether a MAX_STREAM_DATA does.
    pub credit: bool,
    /// Whether bytes do, or the end.
    pub bytes: bool,
}

/// What waits to be sent for single streams.
#[derive(Drop)]
pub struct Waiting {
    /// Marks on streams, of which it is to be looked at what they owe.
    pub marks: Marks,
    /// Those that owe a RESET_STREAM.
    pub resets: Ids,
    /// Those that owe a STOP_SENDING.
    pub stops: Ids,
    /// STOP_SENDING frames of streams that have gone.
    pub gone_stops: Stops,
    /// Those that owe a MAX_STREAM_DATA.
    pub credits: Ids,
    /// Those that have bytes to send, or their end.
    pub ready: Ready,
    /// How many turns were given.
    pub turns: u64,
}

/// Whether a RESET_STREAM waits.
pub(crate) fn owes_reset(sending: &Option<SendPart>) -> bool
    ensures { result ≡ owes_reset sending.now }
{
    match sending {
        Some(sending) => sending.reset_owed().is_some(),
        None => false,
    }
}

/// Whether bytes of a sending side wait, or its end: none do where it keeps none and has no end.
#[tactic(auto, using(crate::proofs::Owing::nothing_more))]
fn has_more(sending: &mut SendPart) -> bool
    ensures more { result ≡ has_more sending.old }
    ensures same { sending.new ≡ sending.old }
{
    if sending.kept() == 0 && sending.end.is_none() {
        return false;
    }
    sending.has_more()
}

/// Whether bytes wait, or the end.
#[inline(always)]
pub(crate) fn owes_data(sending: &mut Option<SendPart>) -> bool
    ensures owes { result ≡ owes_data sending.old }
    ensures same { sending.new ≡ sending.old }
{
    match sending {
        Some(sending) => has_more(sending),
        None => false,
    }
}

/// Whether a STOP_SENDING waits.
pub(crate) fn owes_stop(receiving: &Option<Recv>) -> bool
    ensures { result ≡ owes_stop receiving.now }
{
    match receiving {
        Some(receiving) => receiving.stop_waits,
        None => false,
    }
}

/// Whether a MAX_STREAM_DATA waits.
pub(crate) fn owes_credit(receiving: &Option<Recv>) -> bool
    ensures { result ≡ owes_credit receiving.now }
{
    match receiving {
        Some(receiving) => receiving.credit_waits,
        None => false,
    }
}

/// A stream is in a set exactly where it owes.
fn put_if(ids: &mut Ids, owes: bool, id: u64) -> Result<(), AllocError>
    ensures { OnOk result (ids.new ≡ put_if owes id ids.old) }
{
    if owes {
        return ids.insert(id);
    }
    ids.remove(id);
    Ok(())
}

impl Stream {
    /// What waits of it.
    #[tactic(auto, unfolding(crate::specs::Queues::dues_of))]
    pub(crate) fn dues(&mut self) -> Dues
        ensures dues { result ≡ dues_of self.old }
        ensures same { self.new ≡ self.old }
    {
        Dues {
            reset: owes_reset(&self.sending),
            stop: owes_stop(&self.receiving),
            credit: owes_credit(&self.receiving),
            bytes: owes_data(&mut self.sending),
        }
    }

    /// It is marked, or isn't any more.
    #[tactic(auto, unfolding(crate::specs::Queues::with_mark))]
    pub(crate) fn set_mark(&mut self, marked: bool)
        ensures mark { self.new ≡ with_mark marked self.old }
        ensures same { kept_of self.new ≡ kept_of self.old }
        ensures still { sends_of self.new ≡ sends_of self.old }
    {
        self.marked = marked;
    }

    /// It has a place among those that have bytes to send, or none; none is put by for it any more.
    #[tactic(auto, unfolding(crate::specs::Queues::with_turn))]
    pub(crate) fn set_turn(&mut self, turn: Option<Place>)
        ensures turn { self.new ≡ with_turn turn self.old }
        ensures same { kept_of self.new ≡ kept_of self.old }
        ensures still { sends_of self.new ≡ sends_of self.old }
    {
        self.turn = turn;
        self.due = None;
    }
}

impl Dues {
    /// Whether a frame without bytes waits.
    pub(crate) fn owes_frames(self) -> bool
        ensures { result ≡ owes_frames self }
    {
        self.reset || (self.stop || self.credit)
    }

    /// Nothing waits.
    pub(crate) fn none() -> Dues
        ensures { result ≡ dues_at None }
    {
        Dues {
            reset: false,
            stop: false,
            credit: false,
            bytes: false,
        }
    }
}

impl Waiting {
    /// Nothing waits.
    #[tactic(auto, unfolding(crate::specs::Queues::new_waiting))]
    pub fn new(alloc: Global) -> Waiting
        ensures { result ≡ new_waiting }
    {
        Waiting {
            marks: Marks::new(alloc),
            resets: Ids::new(alloc),
            stops: Ids::new(alloc),
            gone_stops: Stops::new(alloc),
            credits: Ids::new(alloc),
            ready: Ready::new(alloc),
            turns: 0,
        }
    }

    /// Whether a stream is in one of the sets.
    fn has_some(&self) -> bool
        ensures { result ≡ has_some self.now }
    {
        self.resets.first().is_some()
            || (self.stops.first().is_some() || self.credits.first().is_some())
    }

    /// A stream is in each set exactly where it owes.
    #[tactic(auto, using(crate::proofs::Owing::none_filed))]
    pub(crate) fn file_sets(&mut self, dues: Dues, id: u64) -> Result<(), AllocError>
        ensures { OnOk result (self.new ≡ sets_filed dues id self.old) }
    {
        if !dues.owes_frames() && !self.has_some() {
            return Ok(());
        }
        self.put_into_sets(dues, id)
    }

    /// The same, of any sets.
    #[tactic(auto, unfolding(crate::specs::Queues::sets_filed))]
    fn put_into_sets(&mut self, dues: Dues, id: u64) -> Result<(), AllocError>
        ensures { OnOk result (self.new ≡ sets_filed dues id self.old) }
    {
        put_if(&mut self.resets, dues.reset, id)?;
        put_if(&mut self.stops, dues.stop, id)?;
        put_if(&mut self.credits, dues.credit, id)
    }

    /// A stream is in none of the sets.
    #[tactic(auto, unfolding(crate::specs::Queues::sets_filed))]
    pub(crate) fn forget(&mut self, id: u64)
        ensures { self.new ≡ sets_filed (dues_at None) id self.old }
    {
        self.resets.remove(id);
        self.stops.remove(id);
        self.credits.remove(id);
    }
}
