//! The lines of inputs.

ghost use Rattle.qc_script.specs.Script.{IsLineRead};
ghost use Rattle.std.specs.Prelude.{codes, ◌++◌, IfOk};

use crate::address::{read_address, read_mark};
use crate::fields::{
    after_word, first_number, four_fields, read_code, read_hex, read_number, split_at_byte,
};
use crate::id_lines::ids_line;
use crate::stream_lines::stream_line;
use qc_base::Instant;
use qc_state::Input;
use std::alloc::{AllocError, Global};

/// The datagram of a line with these fields.
fn datagram_line(alloc: Global, fields: &[u8]) -> Result<Option<Input>, AllocError>
    ensures { IfOk result (IsLineRead (codes "datagram " ++ fields.now)) }
{
    let Some((time, address, mark, bytes)) = four_fields(fields) else {
        return Ok(None);
    };
    let Some(now) = read_number(time) else {
        return Ok(None);
    };
    let Some(ecn) = read_mark(mark) else {
        return Ok(None);
    };
    let Some(remote) = read_address(alloc, address)? else {
        return Ok(None);
    };
    let Some(bytes) = read_hex(alloc, bytes)? else {
        return Ok(None);
    };
    Ok(Some(Input::Datagram {
        now: Instant::from_nanos(now),
        remote,
        ecn,
        bytes,
    }))
}

/// The timeout of a line with this field.
fn timeout_line(digits: &[u8]) -> Option<Input>
    ensures { IsLineRead (codes "timeout " ++ digits.now) result }
{
    match read_number(digits) {
        Some(now) => Some(Input::Timeout {
            now: Instant::from_nanos(now),
        }),
        None => None,
    }
}

/// The transmit of a line with these fields.
fn transmit_line(fields: &[u8]) -> Option<Input>
    ensures { IsLineRead (codes "transmit " ++ fields.now) result }
{
    let (now, count) = first_number(fields)?;
    let max_datagrams = read_number(count)?;
    Some(Input::Transmit {
        now: Instant::from_nanos(now),
        max_datagrams: max_datagrams as usize,
    })
}

/// The datagram of the application that a line with these fields sends.
fn send_line(alloc: Global, fields: &[u8]) -> Result<Option<Input>, AllocError>
    ensures { IfOk result (IsLineRead (codes "send " ++ fields.now)) }
{
    let Some((now, body)) = first_number(fields) else {
        return Ok(None);
    };
    let Some(body) = read_hex(alloc, body)? else {
        return Ok(None);
    };
    Ok(Some(Input::SendDatagram {
        now: Instant::from_nanos(now),
        body,
    }))
}

/// The input of a line with this field that takes a datagram that came.
fn recv_line(digits: &[u8]) -> Option<Input>
    ensures { IsLineRead (codes "recv " ++ digits.now) result }
{
    match read_number(digits) {
        Some(now) => Some(Input::RecvDatagram {
            now: Instant::from_nanos(now),
        }),
        None => None,
    }
}

/// The close of a line with these fields.
fn close_line(alloc: Global, fields: &[u8]) -> Result<Option<Input>, AllocError>
    ensures { IfOk result (IsLineRead (codes "close " ++ fields.now)) }
{
    let Some((now, rest)) = first_number(fields) else {
        return Ok(None);
    };
    let Some((digits, reason)) = split_at_byte(rest, b' ') else {
        return Ok(None);
    };
    let Some(code) = read_code(digits) else {
        return Ok(None);
    };
    let Some(reason) = read_hex(alloc, reason)? else {
        return Ok(None);
    };
    Ok(Some(Input::Close {
        now: Instant::from_nanos(now),
        code,
        reason,
    }))
}

/// The ping of a line with this field.
fn ping_line(digits: &[u8]) -> Option<Input>
    ensures { IsLineRead (codes "ping " ++ digits.now) result }
{
    match read_number(digits) {
        Some(now) => Some(Input::Ping {
            now: Instant::from_nanos(now),
        }),
        None => None,
    }
}

/// The input of a line with this field that asks for an update of the keys.
fn update_line(digits: &[u8]) -> Option<Input>
    ensures { IsLineRead (codes "update " ++ digits.now) result }
{
    match read_number(digits) {
        Some(now) => Some(Input::Update {
            now: Instant::from_nanos(now),
        }),
        None => None,
    }
}

/// The input of this line, LF excluded.
pub fn read_line(alloc: Global, text: &[u8]) -> Result<Option<Input>, AllocError>
    ensures { IfOk result (IsLineRead text.now) }
{
    if let Some(fields) = after_word(text, b"datagram ") {
        return datagram_line(alloc, fields);
    }
    if let Some(digits) = after_word(text, b"timeout ") {
        return Ok(timeout_line(digits));
    }
    if let Some(fields) = after_word(text, b"transmit ") {
        return Ok(transmit_line(fields));
    }
    if let Some(fields) = after_word(text, b"send ") {
        return send_line(alloc, fields);
    }
    if let Some(digits) = after_word(text, b"recv ") {
        return Ok(recv_line(digits));
    }
    if let Some(fields) = after_word(text, b"close ") {
        return close_line(alloc, fields);
    }
    if let Some(digits) = after_word(text, b"ping ") {
        return Ok(ping_line(digits));
    }
    if let Some(digits) = after_word(text, b"update ") {
        return Ok(update_line(digits));
    }
    if let Some(fields) = after_word(text, b"ids ") {
        return ids_line(alloc, fields);
    }
    stream_line(alloc, text)
}
