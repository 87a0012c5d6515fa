//! Lines of each form, and those at the edges of them.

ghost use Rattle.std.specs.Prelude.{◌≤◌, length};

use qc_base::{ConnectionId, Dir, EcnCodepoint, IssuedCid, ResetToken};
use qc_script::{Script, ScriptError, read_script};
use qc_state::Input;
use std::alloc::Global;
use std::net::{IpAddr, Ipv4Addr, Ipv6Addr, SocketAddr};
use std::test::Fail;

/// What a script of this side with this line behind the first says.
pub(crate) fn script_of(alloc: Global, side: &str, line: &str) -> Result<Script, Fail> {
    let script = format!(in alloc; "set side {side}\n{line}\n")?;
    match read_script(alloc, script.as_str().as_bytes()) {
        Ok(script) => Ok(script),
        Err(_) => Err("a bad line".into()),
    }
}

/// The one input of a script with this line.
fn input_of(alloc: Global, line: &str) -> Result<Input, Fail> {
    let mut script = script_of(alloc, "server", line)?;
    Ok(script.inputs.pop().ok_or("no input")?)
}

/// Which line of this text is the first bad one, if there is one.
pub(crate) fn bad_line(alloc: Global, text: &str) -> Result<Option<u64>, Fail> {
    match read_script(alloc, text.as_bytes()) {
        Ok(_) => Ok(None),
        Err(ScriptError::BadLine(line)) => Ok(Some(line)),
        Err(ScriptError::OutOfMemory) => Err("no memory".into()),
    }
}

/// Whether this line is bad behind the first.
pub(crate) fn is_bad(alloc: Global, line: &str) -> Result<bool, Fail> {
    let script = format!(in alloc; "set side client\n{line}\n")?;
    Ok(bad_line(alloc, script.as_str())? == Some(2))
}

/// The word and the time of an input that has nothing else.
fn time_of(input: &Input) -> Option<(&'static str, u64)> {
    match input {
        Input::Timeout { now } => Some(("timeout", now.nanos())),
        Input::RecvDatagram { now } => Some(("recv", now.nanos())),
        Input::Ping { now } => Some(("ping", now.nanos())),
        Input::Update { now } => Some(("update", now.nanos())),
        _ => None,
    }
}

/// What the input of this line says, where it is one of those.
fn time_in(alloc: Global, line: &str) -> Result<Option<(&'static str, u64)>, Fail> {
    let input = input_of(alloc, line)?;
    Ok(time_of(&input))
}

/// The time of a transmit, and how many datagrams it may send.
fn transmit_of(input: &Input) -> Option<(u64, u64)> {
    match input {
        Input::Transmit { now, max_datagrams } => Some((now.nanos(), *max_datagrams as u64)),
        _ => None,
    }
}

/// What the input of this line says, where it is a transmit.
fn transmit_in(alloc: Global, line: &str) -> Result<Option<(u64, u64)>, Fail> {
    let input = input_of(alloc, line)?;
    Ok(transmit_of(&input))
}

/// The time of a datagram that is sent, and whether it has these bytes.
fn sent_of(input: &Input, text: &[u8]) -> Option<(u64, bool)> {
    match input {
        Input::SendDatagram { now, body } => Some((now.nanos(), body.as_slice() == text)),
        _ => None,
    }
}

/// What the input of this line says, where it sends a datagram.
fn sent_in(alloc: Global, line: &str, text: &[u8]) -> Result<Option<(u64, bool)>, Fail> {
    let input = input_of(alloc, line)?;
    Ok(sent_of(&input, text))
}

/// The time and the code of a close, and whether it has this reason.
fn close_of(input: &Input, text: &[u8]) -> Option<(u64, u64, bool)> {
    match input {
        Input::Close { now, code, reason } => {
            Some((now.nanos(), code.into_inner(), reason.as_slice() == text))
        }
        _ => None,
    }
}

/// What the input of this line says, where it is a close.
fn close_in(alloc: Global, line: &str, text: &[u8]) -> Result<Option<(u64, u64, bool)>, Fail> {
    let input = input_of(alloc, line)?;
    Ok(close_of(&input, text))
}

#[test]
fn other_inputs_than_datagrams_are_read(rt: HostRuntime) -> Result<(), Fail> {
    assert_eq!(rt;
        time_in(rt.alloc(), "timeout 18446744073709551615")?,
        Some(("timeout", u64::MAX))
    );
    assert_eq!(rt;
        transmit_in(rt.alloc(), "transmit 18446744073709551615 10")?,
        Some((u64::MAX, 10))
    );
    assert_eq!(rt;
        close_in(rt.alloc(), "close 3 4611686018427387903 6f6b", b"ok")?,
        Some((3, (1 << 62) - 1, true))
    );
    assert_eq!(rt; time_in(rt.alloc(), "ping 0")?, Some(("ping", 0)));
    assert_eq!(rt; time_in(rt.alloc(), "recv 1")?, Some(("recv", 1)));
    assert_eq!(rt; sent_in(rt.alloc(), "send 2 6f6b", b"ok")?, Some((2, true)));
    assert_eq!(rt; sent_in(rt.alloc(), "send 3 -", b"")?, Some((3, true)));
    Ok(())
}

/// A call of the streams: its word, its time, and the direction and the numbers that it names.
#[derive(Clone, Copy, Debug, PartialEq, Eq)]
struct Call {
    word: &'static str,
    now: u64,
    dir: Option<Dir>,
    numbers: [u64; 2],
}

/// A call that names a direction.
fn of_dir(word: &'static str, now: u64, dir: Dir, number: u64) -> Call {
    Call {
        word,
        now,
        dir: Some(dir),
        numbers: [number, 0],
    }
}

/// A call that names no direction.
fn of_numbers(word: &'static str, now: u64, numbers: [u64; 2]) -> Call {
    Call {
        word,
        now,
        dir: None,
        numbers,
    }
}

/// What an input says that is a call of the streams, but for a write.
fn call_of(input: &Input) -> Option<Call> {
    let call = match input {
        Input::Open { now, dir } => of_dir("open", now.nanos(), *dir, 0),
        Input::Accept { now, dir } => of_dir("accept", now.nanos(), *dir, 0),
        Input::MaxStreams { now, dir, count } => {
            of_dir("streams", now.nanos(), *dir, count.into_inner())
        }
        Input::Finish { now, id } => of_numbers("finish", now.nanos(), [id.value(), 0]),
        Input::ResetSend { now, id, code } => {
            of_numbers("reset", now.nanos(), [id.value(), code.into_inner()])
        }
        Input::StopRecv { now, id, code } => {
            of_numbers("stop", now.nanos(), [id.value(), code.into_inner()])
        }
        Input::Read { now, id, max } => {
            of_numbers("read", now.nanos(), [id.value(), *max as u64])
        }
        Input::SendWindow { now, size } => of_numbers("sendwindow", now.nanos(), [*size, 0]),
        Input::ReceiveWindow { now, size } => {
            of_numbers("recvwindow", now.nanos(), [size.into_inner(), 0])
        }
        _ => return None,
    };
    Some(call)
}

/// What the input of this line says, where it is such a call.
fn call_in(alloc: Global, line: &str) -> Result<Option<Call>, Fail> {
    let input = input_of(alloc, line)?;
    Ok(call_of(&input))
}

/// The greatest number below 2^62.
const GREATEST: u64 = (1 << 62) - 1;

/// Lines of calls that name a direction, and what they say.
fn calls_of_dirs() -> [(&'static str, Call); 6] {
    [
        ("open 0 bi", of_dir("open", 0, Dir::Bi, 0)),
        (
            "open 18446744073709551615 uni",
            of_dir("open", u64::MAX, Dir::Uni, 0),
        ),
        ("accept 1 bi", of_dir("accept", 1, Dir::Bi, 0)),
        ("accept 2 uni", of_dir("accept", 2, Dir::Uni, 0)),
        (
            "streams 7 uni 4611686018427387903",
            of_dir("streams", 7, Dir::Uni, GREATEST),
        ),
        ("streams 7 bi 0", of_dir("streams", 7, Dir::Bi, 0)),
    ]
}

/// Lines of other calls, and what they say.
fn calls_of_numbers() -> [(&'static str, Call); 7] {
    [
        (
            "finish 3 4611686018427387903",
            of_numbers("finish", 3, [GREATEST, 0]),
        ),
        (
            "reset 4 5 4611686018427387903",
            of_numbers("reset", 4, [5, GREATEST]),
        ),
        (
            "stop 5 4611686018427387903 6",
            of_numbers("stop", 5, [GREATEST, 6]),
        ),
        (
            "read 6 7 18446744073709551615",
            of_numbers("read", 6, [7, u64::MAX]),
        ),
        (
            "read 6 4611686018427387903 0",
            of_numbers("read", 6, [GREATEST, 0]),
        ),
        (
            "sendwindow 8 18446744073709551615",
            of_numbers("sendwindow", 8, [u64::MAX, 0]),
        ),
        (
            "recvwindow 9 4611686018427387903",
            of_numbers("recvwindow", 9, [GREATEST, 0]),
        ),
    ]
}

/// The time and the stream of a write, and whether it has these bytes.
fn write_of(input: &Input, text: &[u8]) -> Option<(u64, u64, bool)> {
    match input {
        Input::Write { now, id, body } => {
            Some((now.nanos(), id.value(), body.as_slice() == text))
        }
        _ => None,
    }
}

/// What the input of this line says, where it is a write.
fn write_in(alloc: Global, line: &str, text: &[u8]) -> Result<Option<(u64, u64, bool)>, Fail> {
    let input = input_of(alloc, line)?;
    Ok(write_of(&input, text))
}

#[test]
fn calls_of_streams_are_read(rt: HostRuntime) -> Result<(), Fail> {
    for (line, call) in calls_of_dirs() {
        assert_eq!(rt; call_in(rt.alloc(), line)?, Some(call), "{line:?}");
    }
    for (line, call) in calls_of_numbers() {
        assert_eq!(rt; call_in(rt.alloc(), line)?, Some(call), "{line:?}");
    }
    assert_eq!(rt;
        write_in(rt.alloc(), "write 3 4611686018427387903 6f6b", b"ok")?,
        Some((3, GREATEST, true))
    );
    assert_eq!(rt;
        write_in(rt.alloc(), "write 4 0 -", b"")?,
        Some((4, 0, true))
    );
    Ok(())
}

/// An id with this number and these bytes.
fn issued(sequence: u64, id: &[u8], token: [u8; 16]) -> IssuedCid
    requires { length id.now ≤ 20 }
{
    IssuedCid {
        sequence,
        id: ConnectionId::new(id),
        reset_token: ResetToken::from(token),
    }
}

/// Whether an input at this time gives these ids.
fn gives(input: &Input, time: u64, given: &[IssuedCid]) -> bool {
    match input {
        Input::Identifiers { now, ids } => now.nanos() == time && ids.as_slice() == given,
        _ => false,
    }
}

/// Whether the input of this line gives these ids at this time.
fn is_giving(alloc: Global, line: &str, time: u64, given: &[IssuedCid]) -> Result<bool, Fail> {
    let input = input_of(alloc, line)?;
    Ok(gives(&input, time, given))
}

/// The bytes from 0 to 15.
const COUNTED: [u8; 16] = [0, 1, 2, 3, 4, 5, 6, 7, 8, 9, 10, 11, 12, 13, 14, 15];

// The second line has an id of 20 bytes, one without bytes, and the first one once more: neither the numbers nor the ids need be such
// as a connection takes.
#[test]
fn ids_are_read(rt: HostRuntime) -> Result<(), Fail> {
    let short = issued(0, &[10], COUNTED);
    let long = issued(
        u64::MAX,
        &[
            1, 2, 3, 4, 5, 6, 7, 8, 9, 10, 11, 12, 13, 14, 15, 16, 17, 18, 19, 255,
        ],
        [255; 16],
    );
    let empty = issued(8, &[], [0; 16]);
    assert!(rt;
        is_giving(
            rt.alloc(),
            "ids 7 0:0a:000102030405060708090a0b0c0d0e0f",
            7,
            &[short]
        )?
    );
    assert!(rt;
        is_giving(
            rt.alloc(),
            "ids 18446744073709551615 18446744073709551615:0102030405060708090a0b0c0d0e0f10111213ff:ffffffffffffffffffffffffffffffff 8:-:00000000000000000000000000000000 0:0a:000102030405060708090a0b0c0d0e0f",
            u64::MAX,
            &[long, empty, short],
        )?
    );
    Ok(())
}

/// A line of a datagram, and what it tells but for its time, which is 7.
#[derive(Clone, Copy)]
struct Case<'a> {
    line: &'a str,
    ip: IpAddr,
    port: u16,
    ecn: Option<EcnCodepoint>,
    bytes: &'a [u8],
}

/// Whether an input is a datagram that tells what the case does.
fn is_datagram(input: &Input, case: &Case<'_>) -> bool {
    match input {
        Input::Datagram {
            now,
            remote,
            ecn,
            bytes,
        } => {
            now.nanos() == 7
                && *remote == SocketAddr::new(case.ip, case.port)
                && *ecn == case.ecn
                && bytes.as_slice() == case.bytes
        }
        _ => false,
    }
}

/// Whether the line of a case is read as it says.
fn is_read(alloc: Global, case: &Case<'_>) -> Result<bool, Fail> {
    let input = input_of(alloc, case.line)?;
    Ok(is_datagram(&input, case))
}

#[test]
fn datagrams_are_read(rt: HostRuntime) -> Result<(), Fail> {
    let here = IpAddr::V6(Ipv6Addr::new(0x2001, 0xdb8, 0, 0, 0, 0, 0, 1));
    let cases = [
        Case {
            line: "datagram 7 c0000201/65535 - 00ff",
            ip: IpAddr::V4(Ipv4Addr::new(192, 0, 2, 1)),
            port: 65_535,
            ecn: None,
            bytes: &[0x00, 0xff],
        },
        Case {
            line: "datagram 7 20010db8000000000000000000000001/4433 1 -",
            ip: here,
            port: 4433,
            ecn: Some(EcnCodepoint::Ect1),
            bytes: &[],
        },
        Case {
            line: "datagram 7 20010db8000000000000000000000001/0 2 c3",
            ip: here,
            port: 0,
            ecn: Some(EcnCodepoint::Ect0),
            bytes: &[0xc3],
        },
        Case {
            line: "datagram 7 20010db8000000000000000000000001/1 3 0a0b0c",
            ip: here,
            port: 1,
            ecn: Some(EcnCodepoint::Ce),
            bytes: &[10, 11, 12],
        },
    ];
    for case in &cases {
        assert!(rt; is_read(rt.alloc(), case)?, "{}", case.line);
    }
    Ok(())
}

/// Lines that no script has.
const BAD_LINES: &[&str] = &[
    // Ports of 2^16 or more, with a zero in front, and none.
    "datagram 7 c0000201/65536 - 00",
    "datagram 7 c0000201/04433 - 00",
    "datagram 7 c0000201/ - 00",
    "datagram 7 c0000201 - 00",
    // Octets: 7, 9 and 10 digits, 31 and 34, none, and upper case.
    "datagram 7 c000020/1 - 00",
    "datagram 7 c00002010/1 - 00",
    "datagram 7 c000020100/1 - 00",
    "datagram 7 20010db800000000000000000000001/1 - 00",
    "datagram 7 20010db800000000000000000000000100/1 - 00",
    "datagram 7 -/1 - 00",
    "datagram 7 C0000201/1 - 00",
    // Marks.
    "datagram 7 c0000201/1 0 00",
    "datagram 7 c0000201/1 4 00",
    "datagram 7 c0000201/1 01 00",
    "datagram 7 c0000201/1  00",
    // Bytes: odd, upper case, none, a space behind them, and no digit.
    "datagram 7 c0000201/1 - 000",
    "datagram 7 c0000201/1 - 0F",
    "datagram 7 c0000201/1 - ",
    "datagram 7 c0000201/1 - 00 ",
    "datagram 7 c0000201/1 - 0g",
    // Fields that are missing, and a time that is too great.
    "datagram 7 c0000201/1 00",
    "datagram c0000201/1 - 00",
    "datagram 18446744073709551616 c0000201/1 - 00",
    "datagram",
    // The other words.
    "timeout",
    "timeout ",
    "timeout 07",
    "timeout 18446744073709551616",
    "timeout 7 1",
    "transmit 7",
    "transmit 7 18446744073709551616",
    "send 7",
    "send 7 ",
    "send 7 0A",
    "send 7 - -",
    "recv",
    "recv 7 -",
    "close 7 4611686018427387904 -",
    "close 7 1",
    "close 7 1 0A",
    "ping",
    "ping 07",
    "ping 7 ",
    "pong 7",
    // Calls of the streams: fields that are missing or too many, directions, and numbers that are too great.
    "open",
    "open 7",
    "open bi",
    "open 7 ",
    "open 7 both",
    "open 7 Bi",
    "open 7 bi ",
    "open 7 b",
    "open 07 bi",
    "accept 7 uni 1",
    "accept 18446744073709551616 uni",
    "write 7 1",
    "write 7 4611686018427387904 -",
    "write 7 1 0A",
    "write 7 1 ",
    "finish 7",
    "finish 7 4611686018427387904",
    "finish 7 01",
    "reset 7 1",
    "reset 7 4611686018427387904 1",
    "reset 7 1 4611686018427387904",
    "stop 7 1",
    "stop 7 4611686018427387904 1",
    "stop 7 1 4611686018427387904",
    "read 7 1",
    "read 7 4611686018427387904 1",
    "read 7 1 18446744073709551616",
    "streams 7 bi",
    "streams 7 1",
    "streams 7 both 1",
    "streams 7 bi 4611686018427387904",
    "sendwindow 7",
    "sendwindow 7 18446744073709551616",
    "recvwindow 7",
    "recvwindow 7 4611686018427387904",
    "reads 7 1 1",
    // Ids: none, and a time that is missing or too great.
    "ids",
    "ids ",
    "ids 7",
    "ids 7 ",
    "ids 7 -",
    "ids 1:0a:000102030405060708090a0b0c0d0e0f",
    "ids 18446744073709551616 1:0a:000102030405060708090a0b0c0d0e0f",
    "ids7 1:0a:000102030405060708090a0b0c0d0e0f",
    "id 7 1:0a:000102030405060708090a0b0c0d0e0f",
    // Parts that are missing, or one too many.
    "ids 7 1",
    "ids 7 1:0a",
    "ids 7 1:000102030405060708090a0b0c0d0e0f",
    "ids 7 0a:000102030405060708090a0b0c0d0e0f",
    "ids 7 :0a:000102030405060708090a0b0c0d0e0f",
    "ids 7 1::000102030405060708090a0b0c0d0e0f",
    "ids 7 1:0a:",
    "ids 7 1:0a:-",
    "ids 7 1:0a:000102030405060708090a0b0c0d0e0f:0a",
    // Numbers: 2^64, with a zero in front, and none that is decimal.
    "ids 7 18446744073709551616:0a:000102030405060708090a0b0c0d0e0f",
    "ids 7 01:0a:000102030405060708090a0b0c0d0e0f",
    "ids 7 -:0a:000102030405060708090a0b0c0d0e0f",
    "ids 7 a:0a:000102030405060708090a0b0c0d0e0f",
    // Bytes: an id of 21, odd digits and upper case, and tokens of 15 and 17.
    "ids 7 1:0102030405060708090a0b0c0d0e0f101112131415:000102030405060708090a0b0c0d0e0f",
    "ids 7 1:0a0:000102030405060708090a0b0c0d0e0f",
    "ids 7 1:0A:000102030405060708090a0b0c0d0e0f",
    "ids 7 1:0a:000102030405060708090a0b0c0d0e",
    "ids 7 1:0a:000102030405060708090a0b0c0d0e0f10",
    "ids 7 1:0a:000102030405060708090a0b0c0d0e0",
    "ids 7 1:0a:000102030405060708090a0b0c0d0e0F",
    // Spaces: two, one behind the last id, and another byte; and a second id that is none.
    "ids 7  1:0a:000102030405060708090a0b0c0d0e0f",
    "ids 7 1:0a:000102030405060708090a0b0c0d0e0f  2:0b:000102030405060708090a0b0c0d0e0f",
    "ids 7 1:0a:000102030405060708090a0b0c0d0e0f ",
    "ids 7 1:0a:000102030405060708090a0b0c0d0e0f,2:0b:000102030405060708090a0b0c0d0e0f",
    "ids 7 1:0a:000102030405060708090a0b0c0d0e0f 2:0b",
    "ids 7 1:0a:000102030405060708090a0b0c0d0e0f 2 3:0c:000102030405060708090a0b0c0d0e0f",
    "",
];

#[test]
fn other_lines_are_bad(rt: HostRuntime) -> Result<(), Fail> {
    for line in BAD_LINES {
        assert!(rt; is_bad(rt.alloc(), line)?, "{line:?}");
    }
    Ok(())
}

// Lines are counted from 1, the first one among them.
#[test]
fn the_first_bad_line_is_named(rt: HostRuntime) -> Result<(), Fail> {
    let cases: [(&str, Option<u64>); 15] = [
        ("", Some(1)),
        ("set side client", Some(1)),
        ("set side other\n", Some(1)),
        ("set time 5\n", Some(1)),
        ("set side server\n", None),
        ("set side client\nset side client\n", Some(2)),
        ("set side server\nset token 00\n", Some(2)),
        ("set side client\nset time 5", Some(2)),
        ("set side client\nset time 5\nset time 5\n", Some(3)),
        ("set side server\nset local 01\nset time 5\n", Some(3)),
        (
            "set side client\nset time 5\nset idle 0\nset secret 0102030405\n",
            Some(4),
        ),
        ("set side client\nset time 5\nset local 01\nping 5\n", None),
        ("set side client\nping 0\nset time 5\n", Some(3)),
        ("set side client\nping 0\nping 0", Some(3)),
        (
            "set side client\nping 0\ndatagram 0 7f000001/1 5 -\nping\n",
            Some(3),
        ),
    ];
    for (text, line) in cases {
        assert_eq!(rt; bad_line(rt.alloc(), text)?, line, "{text:?}");
    }
    Ok(())
}
