//! The state of a connection: nine groups of plain data with their calls, the types of its inputs, deeds and trace, and
//! in specs/ all definitions that the crates above cite: the view, moves with one table a group, sending, steps, runs
//! and laws.
#![tactic(auto)]

pub mod body;
pub mod coming;
pub mod crypto_queue;
pub mod datagrams;
pub mod deeds;
pub mod events;
pub mod flight;
pub mod form;
pub mod given;
mod id_frames;
pub mod id_list;
pub mod id_settling;
pub mod input;
pub mod keys;
pub mod life;
pub mod lower;
pub mod numbers;
pub mod opening;
pub mod paths;
pub mod session;
mod settling;
pub mod setup;
mod shown;
pub mod spaces;
mod stream_frames;
pub mod stream_settling;
pub mod streams;
pub mod suite;
mod taking;
pub mod timers;
pub mod tokens;
pub mod trace;
pub mod transmit;
pub mod unblocking;
pub mod waiting;

pub use body::Body;
pub use coming::Coming;
pub use crypto_queue::CryptoQueue;
pub use deeds::{Did, Dids, Layer, Quiet, Verdict};
pub use events::{EndpointEvent, EndpointEvents, Event, Events};
pub use form::Form;
pub use given::Given;
pub use id_list::IdList;
pub use input::{Input, Word};
pub use keys::{Fresh, KeyGroup, KeyUse, OneRttKeys, SpaceKeys};
pub use life::{ApplicationClose, Close, ConnectionClose, ConnectionError, Life, State};
pub use lower::Lower;
pub use numbers::{Numbers, SpaceNumbers};
pub use opening::{Opening, Signs};
pub use paths::{Path, Paths};
pub use session::SoundSession;
pub use setup::{Drawn, Fixed, Setup, negotiate_max_idle_timeout};
pub use spaces::Spaces;
pub use suite::{Means, Suite};
pub use timers::Timers;
pub use tokens::Issuer;
pub use trace::{Answer, Refusal, Step, Trace};
pub use transmit::{Batch, DATAGRAM_SIZE, JOINING_SIZE, SPARE_ROOM, Transmit};
pub use waiting::{SpaceWaiting, Waiting};
