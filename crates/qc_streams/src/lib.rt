//! The state over all streams of a connection.
#![tactic(auto)]

mod begins;
mod blocked;
mod blocked_laws;
mod calls;
mod changes;
mod chunks;
mod control;
mod controls;
mod counts;
mod credit;
mod early;
mod events;
mod failing;
mod fates;
mod fault;
mod filing;
mod kinds;
mod laws;
mod map;
mod opening;
mod owed;
mod parts;
mod pending;
mod pending_laws;
mod raised;
mod received;
mod records;
mod recv_stream;
mod send_stream;
mod sends;
mod sequel;
mod settings;
mod sides;
mod state;
mod stops;
mod stream;
mod streams;
mod tied;
mod waiting;
mod writable;

pub use blocked::Blocked;
pub use blocked_laws::{blocked_streams_have_places, credit_is_told_at_once, events_wait_in_order};
pub use chunks::Written;
pub use control::Control;
pub use counts::{ByDir, OwnStreams, PeerStreams, StreamLimit};
pub use credit::{Incoming, Outgoing};
pub use events::{Events, StreamEvent};
pub use fault::{
    ClosedStream, FinishError, ReadError, ReadFault, Refusal, StreamFault, WriteError,
};
pub use laws::{
    credit_is_kept, drawn_bytes_waited, drawn_frames_were_owed, end_is_told_once,
    filed_is_what_is_owed, frames_are_steps, gives_each_once, reads_what_came,
    sends_what_was_written, streams_wait_where_blocked, turns_stand, unmarked_streams_have_places,
    what_is_owed_is_filed,
};
pub use parts::StreamPart;
pub use pending_laws::{control_that_waits_is_drawn, what_waits_is_drawn};
pub use qc_recv::{Chunk, ReadableError};
pub use raised::opened_streams_are_raised_by_steps;
pub use records::Records;
pub use recv_stream::{Chunks, RecvStream, ShouldTransmit};
pub use send_stream::SendStream;
pub use state::{PeerLimits, StreamsState};
pub use stops::Stops;
pub use stream::{Stream, Totals};
pub use streams::Streams;
pub use tied::{counts_what_came, finished_is_told_once, writes_stay_within};
pub use waiting::{Dues, Waiting};
