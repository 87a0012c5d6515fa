//! The words of lines.

ghost use Rattle.std.specs.Prelude.{◌≡◌};
ghost use Rattle.qc_text.specs.TraceText.{dir_name, given_name, layer_name, option_space_name, quiet_name, reason_name, space_name, type_name, verdict_name, word_name};

use qc_base::{Dir, SpaceId};
use qc_state::{ConnectionError, Layer, Quiet, Verdict, Word};

/// The word of an input's kind.
#[tactic(auto, unfolding(crate::specs::TraceText::word_name))]
pub fn word_of(word: Word) -> &'static [u8]
    ensures { result.now ≡ word_name word }
{
    match word {
        Word::Datagram => b"datagram",
        Word::Timeout => b"timeout",
        Word::Transmit => b"transmit",
        Word::Open => b"open",
        Word::Accept => b"accept",
        Word::Write => b"write",
        Word::Finish => b"finish",
        Word::ResetSend => b"reset",
        Word::StopRecv => b"stop",
        Word::Read => b"read",
        Word::SendDatagram => b"send",
        Word::RecvDatagram => b"recv",
        Word::Close => b"close",
        Word::Ping => b"ping",
        Word::Update => b"update",
        Word::MaxStreams => b"streams",
        Word::SendWindow => b"sendwindow",
        Word::ReceiveWindow => b"recvwindow",
        Word::Identifiers => b"ids",
    }
}

/// The word of whether both ends send on a stream.
#[tactic(auto, unfolding(crate::specs::TraceText::dir_name))]
pub fn dir_of(dir: Dir) -> &'static [u8]
    ensures { result.now ≡ dir_name dir }
{
    match dir {
        Dir::Bi => b"bi",
        Dir::Uni => b"uni",
    }
}

/// The word of a packet number space.
#[tactic(auto, unfolding(crate::specs::TraceText::space_name))]
pub fn space_of(space: SpaceId) -> &'static [u8]
    ensures { result.now ≡ space_name space }
{
    match space {
        SpaceId::Initial => b"initial",
        SpaceId::Handshake => b"handshake",
        SpaceId::Data => b"data",
    }
}

/// The word of a packet number space, or `-` where there is none.
#[tactic(auto, unfolding(crate::specs::TraceText::option_space_name))]
pub fn option_space_of(space: Option<SpaceId>) -> &'static [u8]
    ensures { result.now ≡ option_space_name space }
{
    match space {
        Some(space) => space_of(space),
        None => b"-",
    }
}

/// The word of what became of a packet that came.
#[tactic(auto, unfolding(crate::specs::TraceText::verdict_name))]
pub fn verdict_of(verdict: Verdict) -> &'static [u8]
    ensures { result.now ≡ verdict_name verdict }
{
    match verdict {
        Verdict::Ignored => b"Ignored",
        Verdict::Failure => b"Failure",
        Verdict::BadBits => b"BadBits",
        Verdict::BadUpdate => b"BadUpdate",
        Verdict::Seen => b"Seen",
        Verdict::ReadForClose => b"ReadForClose",
        Verdict::NumberOnly => b"NumberOnly",
        Verdict::AckOnly => b"AckOnly",
        Verdict::Admitted => b"Admitted",
        Verdict::RetryTaken => b"RetryTaken",
        Verdict::Versions => b"Versions",
    }
}

/// The word of a layer.
#[tactic(auto, unfolding(crate::specs::TraceText::layer_name))]
pub fn layer_of(layer: Layer) -> &'static [u8]
    ensures { result.now ≡ layer_name layer }
{
    match layer {
        Layer::Streams => b"streams",
        Layer::Recovery => b"recovery",
        Layer::Session => b"session",
        Layer::Ids => b"ids",
        Layer::Life => b"life",
        Layer::Store => b"store",
    }
}

/// The name of a frame that a layer was given, by its type, which is its first byte (RFC 9000, 19); `-` for a kind that no
/// layer is given so far.
#[tactic(auto, unfolding(crate::specs::TraceText::given_name))]
pub fn given_of(body: &[u8]) -> &'static [u8]
    ensures { result.now ≡ given_name body.now }
{
    if body.is_empty() {
        return b"-";
    }
    type_of(body[0])
}

#[tactic(auto, unfolding(crate::specs::TraceText::type_name))]
fn type_of(first: u8) -> &'static [u8]
    ensures { result.now ≡ type_name first }
{
    if first == 0x02 || first == 0x03 {
        return b"ACK";
    }
    if first == 0x04 {
        return b"RESET_STREAM";
    }
    if first == 0x05 {
        return b"STOP_SENDING";
    }
    if first == 0x07 {
        return b"NEW_TOKEN";
    }
    if first / 8 == 1 {
        return b"STREAM";
    }
    if first == 0x10 {
        return b"MAX_DATA";
    }
    if first == 0x11 {
        return b"MAX_STREAM_DATA";
    }
    if first == 0x12 || first == 0x13 {
        return b"MAX_STREAMS";
    }
    if first == 0x18 {
        return b"NEW_CONNECTION_ID";
    }
    if first == 0x19 {
        return b"RETIRE_CONNECTION_ID";
    }
    if first == 0x1c {
        return b"CONNECTION_CLOSE";
    }
    if first == 0x1d {
        return b"APPLICATION_CLOSE";
    }
    if first == 0x1e {
        return b"HANDSHAKE_DONE";
    }
    if first == 0x30 || first == 0x31 {
        return b"DATAGRAM";
    }
    b"-"
}

/// The word of the kind of a reason for the end.
#[tactic(auto, unfolding(crate::specs::TraceText::reason_name))]
pub fn reason_of(reason: &ConnectionError) -> &'static [u8]
    ensures { result.now ≡ reason_name reason.now }
{
    match reason {
        ConnectionError::TransportError(_) => b"TransportError",
        ConnectionError::ConnectionClosed(_) => b"ConnectionClosed",
        ConnectionError::ApplicationClosed(_) => b"ApplicationClosed",
        ConnectionError::TimedOut => b"TimedOut",
        ConnectionError::VersionMismatch => b"VersionMismatch",
    }
}

/// The word of why a transmit sent nothing.
#[tactic(auto, unfolding(crate::specs::TraceText::quiet_name))]
pub fn quiet_of(quiet: Quiet) -> &'static [u8]
    ensures { result.now ≡ quiet_name quiet }
{
    match quiet {
        Quiet::NothingOwed => b"NothingOwed",
        Quiet::Silent => b"Silent",
        Quiet::Amplification => b"Amplification",
        Quiet::Congestion => b"Congestion",
        Quiet::Pacing => b"Pacing",
        Quiet::Killed => b"Killed",
    }
}
