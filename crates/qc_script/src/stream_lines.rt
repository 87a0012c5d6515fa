//! The lines of calls of the streams.

ghost use Rattle.qc_script.specs.Script.{IsCallRead, IsLineRead};
ghost use Rattle.std.specs.Prelude.{codes, ◌++◌, IfOk};

use crate::fields::{
    after_word, first_dir, first_number, read_code, read_dir, read_hex, read_number, split_at_byte,
};
use qc_base::{Instant, StreamId};
use qc_state::Input;
use std::alloc::{AllocError, Global};

/// The opening of a stream of a line with these fields.
fn open_line(fields: &[u8]) -> Option<Input>
    ensures { IsLineRead (codes "open " ++ fields.now) result }
{
    let (now, field) = first_number(fields)?;
    let dir = read_dir(field)?;
    Some(Input::Open {
        now: Instant::from_nanos(now),
        dir,
    })
}

/// The acceptance of a stream of a line with these fields.
fn accept_line(fields: &[u8]) -> Option<Input>
    ensures { IsLineRead (codes "accept " ++ fields.now) result }
{
    let (now, field) = first_number(fields)?;
    let dir = read_dir(field)?;
    Some(Input::Accept {
        now: Instant::from_nanos(now),
        dir,
    })
}

/// The write of a line with these fields.
fn write_line(alloc: Global, fields: &[u8]) -> Result<Option<Input>, AllocError>
    ensures { IfOk result (IsLineRead (codes "write " ++ fields.now)) }
{
    let Some((now, rest)) = first_number(fields) else {
        return Ok(None);
    };
    let Some((digits, body)) = split_at_byte(rest, b' ') else {
        return Ok(None);
    };
    let Some(id) = read_code(digits) else {
        return Ok(None);
    };
    let Some(body) = read_hex(alloc, body)? else {
        return Ok(None);
    };
    Ok(Some(Input::Write {
        now: Instant::from_nanos(now),
        id: StreamId::from(id),
        body,
    }))
}

/// The finish of a stream of a line with these fields.
fn finish_line(fields: &[u8]) -> Option<Input>
    ensures { IsLineRead (codes "finish " ++ fields.now) result }
{
    let (now, digits) = first_number(fields)?;
    let id = read_code(digits)?;
    Some(Input::Finish {
        now: Instant::from_nanos(now),
        id: StreamId::from(id),
    })
}

/// The reset of a stream of a line with these fields.
fn reset_line(fields: &[u8]) -> Option<Input>
    ensures { IsLineRead (codes "reset " ++ fields.now) result }
{
    let (now, rest) = first_number(fields)?;
    let (digits, code) = split_at_byte(rest, b' ')?;
    let id = read_code(digits)?;
    let code = read_code(code)?;
    Some(Input::ResetSend {
        now: Instant::from_nanos(now),
        id: StreamId::from(id),
        code,
    })
}

/// The stop of a stream of a line with these fields.
fn stop_line(fields: &[u8]) -> Option<Input>
    ensures { IsLineRead (codes "stop " ++ fields.now) result }
{
    let (now, rest) = first_number(fields)?;
    let (digits, code) = split_at_byte(rest, b' ')?;
    let id = read_code(digits)?;
    let code = read_code(code)?;
    Some(Input::StopRecv {
        now: Instant::from_nanos(now),
        id: StreamId::from(id),
        code,
    })
}

/// The read of a stream of a line with these fields.
fn read_line(fields: &[u8]) -> Option<Input>
    ensures { IsLineRead (codes "read " ++ fields.now) result }
{
    let (now, rest) = first_number(fields)?;
    let (digits, max) = split_at_byte(rest, b' ')?;
    let id = read_code(digits)?;
    let max = read_number(max)?;
    Some(Input::Read {
        now: Instant::from_nanos(now),
        id: StreamId::from(id),
        max: max as usize,
    })
}

/// The count of streams of a line with these fields.
fn streams_line(fields: &[u8]) -> Option<Input>
    ensures { IsLineRead (codes "streams " ++ fields.now) result }
{
    let (now, rest) = first_number(fields)?;
    let (dir, digits) = first_dir(rest)?;
    let count = read_code(digits)?;
    Some(Input::MaxStreams {
        now: Instant::from_nanos(now),
        dir,
        count,
    })
}

/// The send window of a line with these fields.
fn sendwindow_line(fields: &[u8]) -> Option<Input>
    ensures { IsLineRead (codes "sendwindow " ++ fields.now) result }
{
    let (now, digits) = first_number(fields)?;
    let size = read_number(digits)?;
    Some(Input::SendWindow {
        now: Instant::from_nanos(now),
        size,
    })
}

/// The receive window of a line with these fields.
fn recvwindow_line(fields: &[u8]) -> Option<Input>
    ensures { IsLineRead (codes "recvwindow " ++ fields.now) result }
{
    let (now, digits) = first_number(fields)?;
    let size = read_code(digits)?;
    Some(Input::ReceiveWindow {
        now: Instant::from_nanos(now),
        size,
    })
}

/// The input of this line, LF excluded, where it is a call of the streams.
pub fn stream_line(alloc: Global, text: &[u8]) -> Result<Option<Input>, AllocError>
    ensures { IfOk result (IsCallRead text.now) }
{
    if let Some(fields) = after_word(text, b"open ") {
        return Ok(open_line(fields));
    }
    if let Some(fields) = after_word(text, b"accept ") {
        return Ok(accept_line(fields));
    }
    if let Some(fields) = after_word(text, b"write ") {
        return write_line(alloc, fields);
    }
    if let Some(fields) = after_word(text, b"finish ") {
        return Ok(finish_line(fields));
    }
    if let Some(fields) = after_word(text, b"reset ") {
        return Ok(reset_line(fields));
    }
    if let Some(fields) = after_word(text, b"stop ") {
        return Ok(stop_line(fields));
    }
    if let Some(fields) = after_word(text, b"read ") {
        return Ok(read_line(fields));
    }
    if let Some(fields) = after_word(text, b"streams ") {
        return Ok(streams_line(fields));
    }
    if let Some(fields) = after_word(text, b"sendwindow ") {
        return Ok(sendwindow_line(fields));
    }
    match after_word(text, b"recvwindow ") {
        Some(fields) => Ok(recvwindow_line(fields)),
        None => Ok(None),
    }
}
