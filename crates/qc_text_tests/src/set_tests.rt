//! Set lines of a script: what each sets, in which order they stand, and those at the edges of them.

use crate::script_tests::{bad_line, is_bad, script_of};
use qc_base::{ConnectionId, Instant, Side, VarInt};
use qc_script::{RandomWords, Settings, read_script};
use std::alloc::Global;
use std::net::{IpAddr, Ipv4Addr, SocketAddr};
use std::process::Abort;
use std::test::Fail;

/// For which values there is a set line, in the order of the lines.
fn are_set(settings: &Settings) -> [bool; 20] {
    [
        settings.random.is_some(),
        settings.time.is_some(),
        settings.local.is_some(),
        settings.remote.is_some(),
        settings.first.is_some(),
        settings.orig.is_some(),
        settings.retry.is_some(),
        settings.addr.is_some(),
        settings.validated.is_some(),
        settings.token.is_some(),
        settings.secret.is_some(),
        settings.limit_initial.is_some(),
        settings.limit_handshake.is_some(),
        settings.limit_data.is_some(),
        settings.limit_failures.is_some(),
        settings.idle.is_some(),
        settings.mtud.is_some(),
        settings.gso.is_some(),
        settings.sent.is_some(),
        settings.clock.is_some(),
    ]
}

/// Each set line, in the order of the lines, and a side that takes it.
const EACH_LINE: &[(&str, &str)] = &[
    ("server", "set random zero"),
    ("server", "set time 0"),
    ("server", "set local -"),
    ("server", "set remote 01"),
    ("server", "set first 02"),
    ("server", "set orig 03"),
    ("server", "set retry -"),
    ("server", "set addr c0000201/1"),
    ("server", "set validated 0"),
    ("client", "set token -"),
    ("server", "set secret 0102030405"),
    ("server", "set limit_initial 0"),
    ("server", "set limit_handshake 0"),
    ("server", "set limit_data 0"),
    ("server", "set limit_failures 0"),
    ("server", "set idle 0"),
    ("server", "set mtud 0"),
    ("server", "set gso 0"),
    ("server", "set sent 0"),
    ("server", "set clock 0"),
];

/// Whether a script of this side with this line has a value for the set line at this place alone, and no input.
fn stands_alone(alloc: Global, side: &str, line: &str, place: usize) -> Result<bool, Fail> {
    let script = script_of(alloc, side, line)?;
    Ok(is_alone(&script.settings, place) && script.inputs.is_empty())
}

/// Whether there is a value for the set line at this place alone.
fn is_alone(settings: &Settings, place: usize) -> bool {
    for (other, is_set) in are_set(settings).iter().enumerate() {
        if *is_set != (other == place) {
            return false;
        }
    }
    true
}

#[test]
fn each_set_line_stands_alone(rt: HostRuntime) -> Result<(), Fail> {
    for (place, (side, line)) in EACH_LINE.iter().enumerate() {
        assert!(rt; stands_alone(rt.alloc(), side, line, place)?, "{line:?}");
    }
    Ok(())
}

/// Every set line that a server has, and one input.
const EVERY_LINE: &str =
    "set side server\nset random 000102030405060708090a0b0c0d0e0f101112131415161718191a1b1c1d1e1f\nset time 5\nset local 0a0b\nset remote -\nset first 0102030405060708\nset addr c0000201/443\nset secret 00ff010203\nset limit_initial 2\nset limit_handshake 30\nset limit_data 10000\nset limit_failures 18446744073709551615\nset idle 30000\nset mtud 0\nset gso 1\nset sent 4294967295\nset clock 42\nping 6\n";

/// The values of those lines.
fn check_every_line(rt: &impl Abort, settings: &Settings) {
    assert_eq!(rt; settings.side, Side::Server);
    let seed = [
        0, 1, 2, 3, 4, 5, 6, 7, 8, 9, 10, 11, 12, 13, 14, 15, 16, 17, 18, 19, 20, 21, 22, 23, 24,
        25, 26, 27, 28, 29, 30, 31,
    ];
    assert_eq!(rt; settings.random, Some(RandomWords::Seed(seed)));
    assert_eq!(rt; settings.time, Some(Instant::from_nanos(5)));
    assert_eq!(rt; settings.local, Some(ConnectionId::new(&[10, 11])));
    assert_eq!(rt; settings.remote, Some(ConnectionId::new(&[])));
    let first = ConnectionId::new(&[1, 2, 3, 4, 5, 6, 7, 8]);
    assert_eq!(rt; settings.first, Some(first));
    let address = SocketAddr::new(IpAddr::V4(Ipv4Addr::new(192, 0, 2, 1)), 443);
    assert!(rt; settings.addr == Some(address));
    assert_eq!(rt; settings.secret, Some([0, 255, 1, 2, 3]));
    assert_eq!(rt; settings.limit_initial, Some(2));
    assert_eq!(rt; settings.limit_handshake, Some(30));
    assert_eq!(rt; settings.limit_data, Some(10_000));
    assert_eq!(rt; settings.limit_failures, Some(u64::MAX));
    assert_eq!(rt; settings.idle, Some(VarInt::from_u32(30_000)));
    assert_eq!(rt; settings.mtud, Some(false));
    assert_eq!(rt; settings.gso, Some(true));
    assert_eq!(rt; settings.sent, Some(u32::MAX));
    assert_eq!(rt; settings.clock, Some(42));
}

#[test]
fn a_server_has_every_set_line_but_one(rt: HostRuntime) -> Result<(), Fail> {
    let script = match read_script(rt.alloc(), EVERY_LINE.as_bytes()) {
        Ok(script) => script,
        Err(_) => return Err("a bad line".into()),
    };
    check_every_line(&rt, &script.settings);
    assert_eq!(rt; script.inputs.len(), 1);
    Ok(())
}

// A flag is a digit: 0 says no, and 1 yes.
#[test]
fn a_flag_is_a_digit(rt: HostRuntime) -> Result<(), Fail> {
    for (line, flag) in [("set gso 0", false), ("set gso 1", true)] {
        let script = script_of(rt.alloc(), "server", line)?;
        assert_eq!(rt; script.settings.gso, Some(flag), "{line:?}");
    }
    for (line, flag) in [("set mtud 0", false), ("set mtud 1", true)] {
        let script = script_of(rt.alloc(), "server", line)?;
        assert_eq!(rt; script.settings.mtud, Some(flag), "{line:?}");
    }
    Ok(())
}

/// Whether a client's script with these lines has zeros for random words, and whether it has this token.
fn has_token(alloc: Global, lines: &str, token: &[u8]) -> Result<(bool, bool), Fail> {
    let script = script_of(alloc, "client", lines)?;
    Ok((
        script.settings.random == Some(RandomWords::Zeros),
        is_token(&script.settings, token),
    ))
}

/// Whether this is the token.
fn is_token(settings: &Settings, token: &[u8]) -> bool {
    match &settings.token {
        Some(bytes) => bytes.as_slice() == token,
        None => false,
    }
}

// A token has any length, and `-` is one without bytes.
#[test]
fn a_client_has_a_token(rt: HostRuntime) -> Result<(), Fail> {
    let lines = "set random zero\nset token 00ff7a";
    assert_eq!(rt;
        has_token(rt.alloc(), lines, &[0x00, 0xff, 0x7a])?,
        (true, true)
    );
    assert_eq!(rt; has_token(rt.alloc(), "set token -", &[])?, (false, true));
    Ok(())
}

/// Set lines, and whether they are bad. Each line is the second of a client's script. The first of a pair is the last that is taken.
const SET_LINES: &[(&str, bool)] = &[
    ("set random zero", false),
    ("set random zeros", true),
    ("set random Zero", true),
    ("set random ", true),
    ("set random -", true),
    (
        "set random ffffffffffffffffffffffffffffffffffffffffffffffffffffffffffffffff",
        false,
    ),
    (
        "set random ffffffffffffffffffffffffffffffffffffffffffffffffffffffffffffffFF",
        true,
    ),
    (
        "set random ffffffffffffffffffffffffffffffffffffffffffffffffffffffffffffff",
        true,
    ),
    (
        "set random ffffffffffffffffffffffffffffffffffffffffffffffffffffffffffffffffff",
        true,
    ),
    ("set time 18446744073709551615", false),
    ("set time 18446744073709551616", true),
    ("set local 0102030405060708090a0b0c0d0e0f1011121314", false),
    ("set local 0102030405060708090a0b0c0d0e0f101112131415", true),
    ("set remote 0102030405060708", false),
    ("set remote 01020304050607", true),
    ("set first 0102030405060708", true),
    ("set orig 0102030405060708", true),
    ("set retry 0102030405060708", true),
    ("set retry -", true),
    ("set validated 0", true),
    ("set validated 1", true),
    ("set addr c0000201/65536", true),
    ("set token -", false),
    ("set token 0", true),
    ("set token 0A", true),
    ("set token ", true),
    ("set secret 01020304", true),
    ("set secret 0102030405", false),
    ("set secret 010203040506", true),
    ("set limit_initial 18446744073709551615", false),
    ("set limit_initial 18446744073709551616", true),
    ("set limit_handshake 18446744073709551615", false),
    ("set limit_handshake 18446744073709551616", true),
    ("set limit_data 18446744073709551615", false),
    ("set limit_data 18446744073709551616", true),
    ("set limit_failures 18446744073709551615", false),
    ("set limit_failures 18446744073709551616", true),
    ("set idle 4611686018427387903", false),
    ("set idle 4611686018427387904", true),
    ("set mtud 0", false),
    ("set mtud 1", false),
    ("set mtud 2", true),
    ("set mtud 01", true),
    ("set mtud", true),
    ("set gso 0", false),
    ("set gso 1", false),
    ("set gso 2", true),
    ("set gso 00", true),
    ("set gso 10", true),
    ("set gso ", true),
    ("set gso", true),
    ("set gso -", true),
    ("set gso true", true),
    ("set sent 0", true),
    ("set clock 0", true),
    ("set local 0A", true),
    ("set limit_initial 02", true),
    ("set limit_handshake 00", true),
    ("set limit_data 007", true),
    ("set limit_failures 01", true),
    ("set limit_initial ", true),
    ("set limit_handshake", true),
    ("set limit_data x", true),
    ("set limit_failures -", true),
    ("set limit_ 1", true),
    ("set limit 1", true),
    ("set other 1", true),
];

#[test]
fn set_lines_have_bounds(rt: HostRuntime) -> Result<(), Fail> {
    for (line, bad) in SET_LINES {
        assert_eq!(rt; is_bad(rt.alloc(), line)?, *bad, "{line:?}");
    }
    Ok(())
}

// Each text's third line is the same as its second, or comes before it in the order of set lines.
#[test]
fn set_lines_stand_once_and_in_order(rt: HostRuntime) -> Result<(), Fail> {
    for lines in [
        "set random zero\nset random zero",
        "set time 1\nset random zero",
        "set token 01\nset token 01",
        "set token 01\nset addr c0000201/1",
        "set secret 0102030405\nset token 01",
        "set limit_initial 1\nset limit_initial 1",
        "set limit_handshake 1\nset limit_handshake 1",
        "set limit_failures 1\nset limit_failures 1",
        "set limit_initial 1\nset secret 0102030405",
        "set limit_handshake 1\nset limit_initial 1",
        "set limit_data 1\nset limit_data 1",
        "set limit_data 1\nset limit_handshake 1",
        "set limit_failures 1\nset limit_data 1",
        "set limit_failures 1\nset limit_handshake 1",
        "set limit_failures 1\nset limit_initial 1",
        "set idle 0\nset limit_failures 1",
        "set mtud 0\nset idle 0",
        "set mtud 1\nset mtud 1",
        "set gso 1\nset mtud 1",
        "set gso 1\nset gso 1",
        "set gso 0\nset gso 1",
        "set gso 1\nset idle 0",
    ] {
        let text = format!(in rt.alloc(); "set side client\n{lines}\nping 0\n")?;
        assert_eq!(rt; bad_line(rt.alloc(), text.as_str())?, Some(3), "{lines:?}");
    }
    Ok(())
}

/// A server's set lines, and whether they are bad. Each line is the second of the script.
const SERVER_LINES: &[(&str, bool)] = &[
    ("set orig -", false),
    ("set orig 0102030405060708090a0b0c0d0e0f1011121314", false),
    ("set orig 0102030405060708090a0b0c0d0e0f101112131415", true),
    ("set orig 0A", true),
    ("set orig ", true),
    ("set orig", true),
    ("set retry -", false),
    ("set retry 0102030405060708090a0b0c0d0e0f1011121314", false),
    ("set retry 0102030405060708090a0b0c0d0e0f101112131415", true),
    ("set retry 1", true),
    ("set retry ", true),
    ("set validated 0", false),
    ("set validated 1", false),
    ("set validated 2", true),
    ("set validated 01", true),
    ("set validated -", true),
    ("set validated ", true),
    ("set validated", true),
    ("set sent 0", false),
    ("set sent 4294967295", false),
    ("set sent 4294967296", true),
    ("set sent 00", true),
    ("set sent -", true),
    ("set sent ", true),
    ("set sent", true),
    ("set clock 0", false),
    ("set clock 18446744073709551615", false),
    ("set clock 18446744073709551616", true),
    ("set clock 01", true),
    ("set clock ", true),
    ("set clock", true),
];

/// Whether a script of a server with this line is refused at that line.
fn is_bad_on_server(alloc: Global, line: &str) -> Result<bool, Fail> {
    let text = format!(in alloc; "set side server\n{line}\nping 0\n")?;
    Ok(bad_line(alloc, text.as_str())? == Some(2))
}

#[test]
fn set_lines_of_a_server_have_bounds(rt: HostRuntime) -> Result<(), Fail> {
    for (line, bad) in SERVER_LINES {
        assert_eq!(rt; is_bad_on_server(rt.alloc(), line)?, *bad, "{line:?}");
    }
    Ok(())
}

// The third line of each stands before its second one, or is the same.
#[test]
fn tokens_are_set_once_and_in_order(rt: HostRuntime) -> Result<(), Fail> {
    for lines in [
        "set sent 1\nset gso 1",
        "set sent 1\nset sent 1",
        "set clock 1\nset sent 1",
        "set clock 1\nset clock 1",
    ] {
        let text = format!(in rt.alloc(); "set side server\n{lines}\nping 0\n")?;
        assert_eq!(rt; bad_line(rt.alloc(), text.as_str())?, Some(3), "{lines:?}");
    }
    Ok(())
}

/// What a server is told of a Retry: the id before it, its own id, and whether the address is validated.
type AboutRetry = (Option<ConnectionId>, Option<ConnectionId>, Option<bool>);

/// What settings tell of a Retry.
fn told_of_retry(settings: &Settings) -> AboutRetry {
    (settings.orig, settings.retry, settings.validated)
}

/// What a server's lines tell of a Retry.
fn about_retry(alloc: Global, lines: &str) -> Result<AboutRetry, Fail> {
    let script = script_of(alloc, "server", lines)?;
    Ok(told_of_retry(&script.settings))
}

#[test]
fn a_server_is_told_of_its_retry(rt: HostRuntime) -> Result<(), Fail> {
    let ids = (
        Some(ConnectionId::new(&[1, 2])),
        Some(ConnectionId::new(&[])),
        None,
    );
    assert_eq!(rt; about_retry(rt.alloc(), "set orig 0102\nset retry -")?, ids);
    assert_eq!(rt;
        about_retry(rt.alloc(), "set validated 1")?,
        (None, None, Some(true))
    );
    assert_eq!(rt;
        about_retry(rt.alloc(), "set validated 0")?,
        (None, None, Some(false))
    );
    Ok(())
}

// Each text's third line comes before its second in the order of set lines, or is the same.
#[test]
fn lines_about_a_retry_stand_in_order(rt: HostRuntime) -> Result<(), Fail> {
    for lines in [
        "set orig 01\nset orig 01",
        "set orig 01\nset first 02",
        "set retry 01\nset orig 02",
        "set addr c0000201/1\nset retry 01",
        "set validated 1\nset addr c0000201/1",
        "set secret 0102030405\nset validated 1",
    ] {
        let text = format!(in rt.alloc(); "set side server\n{lines}\nping 0\n")?;
        assert_eq!(rt; bad_line(rt.alloc(), text.as_str())?, Some(3), "{lines:?}");
    }
    Ok(())
}
