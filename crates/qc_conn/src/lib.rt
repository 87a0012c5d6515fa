//! A connection; `drive`, which hands it inputs one after another and keeps the trace; and the text of a trace.
#![tactic(auto)]

mod connection;
mod datagrams;
mod directions;
mod driving;
mod laws;
mod parts;
mod steps;
mod storing;
pub mod text;
mod views;

pub use connection::{Connection, FirstError};
pub use datagrams::{Datagrams, SendDatagramError};
pub use driving::{BadWhy, DriveError, DriveKind, drive};
pub use laws::{text_tells_run, tokens_are_stored};
pub use parts::Parts;
// What the calls name, with all that stands in it.
pub use bytes::{Bytes, BytesMut};
pub use qc_base::{
    ConnectionId, Dir, Duration, EcnCodepoint, Fault, Instant, IssuedCid, PacketNumber, ResetToken,
    Side, SpaceId, StreamId, TransportError, TransportErrorCode, VarInt,
};
pub use qc_cids::GiveRefusal;
pub use qc_config::{NoneTokenStore, TokenStore};
pub use qc_core::Core;
pub use qc_crypto::Session;
pub use qc_frame::{FrameList, OwnedFrame};
pub use qc_header::{InitialHeader, InitialPacket, PartialDecode};
pub use qc_making::{ClientSetup, ServerSetup};
pub use qc_path::{ControllerFactory, NewRenoConfig};
pub use qc_receive::ConnectionEvent;
pub use qc_recovery::TransportConfig;
pub use qc_state::{
    Answer, ApplicationClose, Body, ConnectionClose, ConnectionError, Did, Dids, EndpointEvent,
    EndpointEvents, Event, Events, Given, IdList, Input, Layer, Means, Quiet, Refusal, Step, Suite,
    Trace, Transmit, Verdict, Word, negotiate_max_idle_timeout,
};
pub use qc_streams::{
    Chunk, Chunks, ClosedStream, FinishError, ReadError, ReadableError, RecvStream, SendStream,
    ShouldTransmit, StreamEvent, Streams, WriteError, Written,
};
pub use rand_core::Rng;
