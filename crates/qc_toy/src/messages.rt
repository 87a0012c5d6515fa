//! The messages of the toy's handshake: a type byte, two bytes of length, and a body.

ghost use Rattle.std.specs.Prelude.{◌≡◌, ◌+◌, ◌++◌, ◌<◌, ◌≤◌, [], ◌∷◌, Some, None, MatchOption, OnOk, OnErr, take, length};
ghost use Rattle.std.specs.Option.{option_copied};
ghost use Rattle.qc_toy.specs.Messages.{kind_byte, message, message_by_parts, first_message, messages, has_form, peer_messages, refusal, first_body, second_body};

use qc_base::Side;
use std::alloc::AllocError;

/// A type of message.
#[derive(Clone, Copy, Debug, PartialEq, Eq)]
pub(crate) enum Kind {
    /// The client's first: an early byte and its parameters.
    Hello,
    /// The server's first: one byte 0.
    Reply,
    /// The server's second: its early answer and its parameters.
    ServerEnd,
    /// The client's second: empty.
    ClientEnd,
}

/// A TLS alert (RFC 8446, section 6.2).
const UNEXPECTED_MESSAGE: u8 = 0x0a;

const DECODE_ERROR: u8 = 0x32;

fn kind_number(kind: Kind) -> u8
    ensures { result ≡ kind_byte kind }
{
    match kind {
        Kind::Hello => 1,
        Kind::Reply => 2,
        Kind::ServerEnd => 3,
        Kind::ClientEnd => 4,
    }
}

// Appends a message whose body is `first` and then `rest`, and fits the two bytes of length.
fn put_parts(buf: &mut Vec<u8>, kind: Kind, first: &[u8], rest: &[u8]) -> Result<(), AllocError>
    requires { length first.now + length rest.now < 65536 }
    ensures ok { OnOk result (buf.new.items ≡ buf.old.items ++ message_by_parts kind first.now rest.now) }
    ensures kept { take (length buf.old.items) buf.new.items ≡ buf.old.items }
{
    let len = (first.len() + rest.len()) as u16;
    buf.push(kind_number(kind))?;
    buf.extend_from_slice(&len.to_be_bytes())?;
    buf.extend_from_slice(first)?;
    buf.extend_from_slice(rest)
}

/// Appends a message whose body is `first` and then `rest`.
#[tactic(auto, using(crate::proofs::MessageLemmas::message_of_parts))]
pub(crate) fn put_message(
    buf: &mut Vec<u8>,
    kind: Kind,
    first: &[u8],
    rest: &[u8],
) -> Result<(), AllocError>
    requires { length first.now ≤ 1 }
    ensures ok { OnOk result (buf.new.items ≡ buf.old.items ++ message kind (first.now ++ rest.now)) }
    ensures kept { take (length buf.old.items) buf.new.items ≡ buf.old.items }
{
    let len = rest.len().min(65535 - first.len());
    put_parts(buf, kind, first, &rest[..len])
}

#[derive(Drop)]
struct Message<'a> {
    kind: u8,
    body: &'a [u8],
    rest: &'a [u8],
}

// The first message of some bytes, once it is whole.
#[tactic(auto, unfolding(crate::specs::Messages::first_message))]
fn split_message(bytes: &[u8]) -> Option<Message<'_>>
    ensures { MatchOption result (first_message bytes.now ≡ None) (λ m. first_message bytes.now ≡ Some (record { kind = m.kind; body = m.body.now; rest = m.rest.now })) }
{
    let [kind, high, low, bytes @ ..] = bytes else {
        return None;
    };
    let len = *high as usize * 256 + *low as usize;
    if bytes.len() < len {
        return None;
    }
    let (body, rest) = bytes.split_at(len);
    Some(Message {
        kind: *kind,
        body,
        rest,
    })
}

#[tactic(auto, unfolding(crate::specs::Messages::has_form))]
fn fits_form(kind: Kind, body: &[u8]) -> bool
    ensures { result ≡ has_form kind body.now }
{
    match kind {
        Kind::Hello | Kind::ServerEnd => matches!(body, [0 | 1, ..]),
        Kind::Reply => matches!(body, [0]),
        Kind::ClientEnd => body.is_empty(),
    }
}

// The alert after the last message that may come.
#[tactic(auto, unfolding(crate::specs::Messages::messages))]
fn alert_after(bytes: &[u8]) -> Option<u8>
    ensures { result ≡ refusal [] (messages 1 bytes.now) }
{
    match split_message(bytes) {
        None => None,
        Some(_) => Some(UNEXPECTED_MESSAGE),
    }
}

// The alert of the last message that may come, and of what follows it.
#[tactic(auto, unfolding(crate::specs::Messages::messages))]
fn alert_of_last(kind: Kind, bytes: &[u8]) -> Option<u8>
    ensures { result ≡ refusal (kind ∷ []) (messages 2 bytes.now) }
{
    let message = split_message(bytes)?;
    if message.kind != kind_number(kind) {
        return Some(UNEXPECTED_MESSAGE);
    }
    if !fits_form(kind, message.body) {
        return Some(DECODE_ERROR);
    }
    alert_after(message.rest)
}

// The alert of two messages, and of what follows them.
#[tactic(auto, unfolding(crate::specs::Messages::messages))]
fn alert_of_both(first: Kind, last: Kind, bytes: &[u8]) -> Option<u8>
    ensures { result ≡ refusal (first ∷ last ∷ []) (messages 3 bytes.now) }
{
    let message = split_message(bytes)?;
    if message.kind != kind_number(first) {
        return Some(UNEXPECTED_MESSAGE);
    }
    if !fits_form(first, message.body) {
        return Some(DECODE_ERROR);
    }
    alert_of_last(last, message.rest)
}

/// The alert with which the end `side` refuses what it has read of its peer, if it does.
pub(crate) fn alert_of(side: Side, bytes: &[u8]) -> Option<u8>
    ensures { result ≡ refusal (peer_messages side) (messages 3 bytes.now) }
{
    match side {
        Side::Client => alert_of_both(Kind::Reply, Kind::ServerEnd, bytes),
        Side::Server => alert_of_both(Kind::Hello, Kind::ClientEnd, bytes),
    }
}

/// How many messages are whole, of the first two.
#[tactic(auto, unfolding(crate::specs::Messages::messages))]
pub(crate) fn count_heard(bytes: &[u8]) -> u8
    ensures { result ≡ length (messages 2 bytes.now) }
{
    match split_message(bytes) {
        None => 0,
        Some(message) => match split_message(message.rest) {
            None => 1,
            Some(_) => 2,
        },
    }
}

/// The body of the first message, once it is whole.
pub(crate) fn body_of_first(bytes: &[u8]) -> Option<&[u8]>
    ensures { option_copied result ≡ first_body bytes.now }
{
    Some(split_message(bytes)?.body)
}

/// The body of the second message, once it is whole.
pub(crate) fn body_of_second(bytes: &[u8]) -> Option<&[u8]>
    ensures { option_copied result ≡ second_body bytes.now }
{
    body_of_first(split_message(bytes)?.rest)
}
