//! The lines of what calls on streams and of datagrams answered, and of what happened on streams.

ghost use Rattle.std.specs.Prelude.{◌≡◌, ◌<◌, ◌^◌, ◌++◌, codes, decimal, OnOk};
ghost use Rattle.qc_base.specs.Grammar.{IsBytes};
ghost use Rattle.qc_text.specs.OneText.{IsRefusalInRange, IsStreamEventInRange};
ghost use Rattle.qc_text.specs.TraceText.{bytes_or_dash, dir_name, refusal_text, stream_event_text};

use crate::names::dir_of;
use crate::pieces::{put_bytes, put_number};
use qc_base::{Dir, StreamId, VarInt};
use qc_state::Refusal;
use qc_streams::StreamEvent;
use std::alloc::AllocError;

/// Appends the line of bytes that were read, after these words.
pub fn put_read(out: &mut Vec<u8>, words: &[u8], offset: u64, body: &[u8]) -> Result<(), AllocError>
    ensures text { OnOk result (out.new.items ≡ out.old.items ++ (words.now ++ decimal offset ++ codes " " ++ bytes_or_dash body.now ++ codes "\n")) }
    ensures in_range { OnOk result ((offset < 2 ^ 64) × IsBytes body.now) }
{
    out.extend_from_slice(words)?;
    put_number(out, offset)?;
    out.extend_from_slice(b" ")?;
    put_bytes(out, body)?;
    out.extend_from_slice(b"\n")
}

/// Appends the line of a datagram that came, after these words.
pub fn put_datagram(out: &mut Vec<u8>, words: &[u8], body: &[u8]) -> Result<(), AllocError>
    ensures text { OnOk result (out.new.items ≡ out.old.items ++ (words.now ++ bytes_or_dash body.now ++ codes "\n")) }
    ensures in_range { OnOk result (IsBytes body.now) }
{
    out.extend_from_slice(words)?;
    put_bytes(out, body)?;
    out.extend_from_slice(b"\n")
}

/// Appends the line of why a call was refused, after these words.
pub fn put_refusal(out: &mut Vec<u8>, words: &[u8], refusal: Refusal) -> Result<(), AllocError>
    ensures text { OnOk result (out.new.items ≡ out.old.items ++ (words.now ++ refusal_text refusal ++ codes "\n")) }
    ensures in_range { OnOk result (IsRefusalInRange refusal) }
{
    out.extend_from_slice(words)?;
    put_why(out, refusal)?;
    out.extend_from_slice(b"\n")
}

/// Appends why a call was refused.
#[tactic(auto, unfolding(crate::specs::TraceText::refusal_text))]
fn put_why(out: &mut Vec<u8>, refusal: Refusal) -> Result<(), AllocError>
    ensures text { OnOk result (out.new.items ≡ out.old.items ++ refusal_text refusal) }
    ensures in_range { OnOk result (IsRefusalInRange refusal) }
{
    match refusal {
        Refusal::Blocked => out.extend_from_slice(b"Blocked"),
        Refusal::ClosedStream => out.extend_from_slice(b"ClosedStream"),
        Refusal::Stopped(code) => put_code(out, b"Stopped ", code),
        Refusal::IllegalOrderedRead => out.extend_from_slice(b"IllegalOrderedRead"),
        Refusal::Reset(code) => put_code(out, b"Reset ", code),
        Refusal::Disabled => out.extend_from_slice(b"Disabled"),
        Refusal::UnsupportedByPeer => out.extend_from_slice(b"UnsupportedByPeer"),
        Refusal::TooLarge => out.extend_from_slice(b"TooLarge"),
    }
}

/// Appends a code of the peer's application, after these words.
fn put_code(out: &mut Vec<u8>, words: &[u8], code: VarInt) -> Result<(), AllocError>
    ensures text { OnOk result (out.new.items ≡ out.old.items ++ (words.now ++ decimal code)) }
    ensures in_range { OnOk result (code < 2 ^ 62) }
{
    out.extend_from_slice(words)?;
    put_number(out, code.into_inner())
}

/// Appends the line of what happened on a stream, after these words.
pub fn put_stream_event(
    out: &mut Vec<u8>,
    words: &[u8],
    event: StreamEvent,
) -> Result<(), AllocError>
    ensures text { OnOk result (out.new.items ≡ out.old.items ++ (words.now ++ stream_event_text event ++ codes "\n")) }
    ensures in_range { OnOk result (IsStreamEventInRange event) }
{
    out.extend_from_slice(words)?;
    put_happened(out, event)?;
    out.extend_from_slice(b"\n")
}

/// Appends what happened on a stream, or to how many there may be.
#[tactic(auto, unfolding(crate::specs::TraceText::stream_event_text))]
fn put_happened(out: &mut Vec<u8>, event: StreamEvent) -> Result<(), AllocError>
    ensures text { OnOk result (out.new.items ≡ out.old.items ++ stream_event_text event) }
    ensures in_range { OnOk result (IsStreamEventInRange event) }
{
    match event {
        StreamEvent::Opened { dir } => put_dir(out, b"Opened ", dir),
        StreamEvent::Readable { id } => put_id(out, b"Readable ", id),
        StreamEvent::Writable { id } => put_id(out, b"Writable ", id),
        StreamEvent::Stopped { id, error_code } => {
            put_id(out, b"Stopped ", id)?;
            put_code(out, b" ", error_code)
        }
        StreamEvent::Finished { id } => put_id(out, b"Finished ", id),
        StreamEvent::Available { dir } => put_dir(out, b"Available ", dir),
    }
}

/// Appends the word of a direction, after these words.
fn put_dir(out: &mut Vec<u8>, words: &[u8], dir: Dir) -> Result<(), AllocError>
    ensures { OnOk result (out.new.items ≡ out.old.items ++ (words.now ++ dir_name dir)) }
{
    out.extend_from_slice(words)?;
    out.extend_from_slice(dir_of(dir))
}

/// Appends a stream's id, after these words.
fn put_id(out: &mut Vec<u8>, words: &[u8], id: StreamId) -> Result<(), AllocError>
    ensures text { OnOk result (out.new.items ≡ out.old.items ++ (words.now ++ decimal id)) }
    ensures in_range { OnOk result (id < 2 ^ 62) }
{
    out.extend_from_slice(words)?;
    put_number(out, id.value())
}
