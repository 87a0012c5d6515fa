//! Answers to PATH_CHALLENGEs that wait.

use qc_path::{PathResponse, PathResponses};
use std::net::{IpAddr, Ipv4Addr, SocketAddr};
use std::test::Fail;

fn from_port(port: u16) -> SocketAddr {
    SocketAddr::new(IpAddr::V4(Ipv4Addr::new(10, 0, 0, 1)), port)
}

fn response(number: u64, word: u64, port: u16) -> PathResponse {
    PathResponse {
        number,
        word,
        remote: from_port(port),
    }
}

// Of two challenges from one address the one in the packet with the greater number counts, and the
// later one where both stand in one packet. The answer to another address goes first come, first gone.
#[test]
fn one_answer_waits_for_each_address(rt: HostRuntime) -> Result<(), Fail> {
    let mut waiting = PathResponses::new();
    assert!(rt; waiting.is_empty());
    for (number, word, port) in [(5, 50, 1), (4, 40, 1), (6, 60, 2), (5, 51, 1), (7, 70, 3)] {
        waiting.push(response(number, word, port));
    }
    let on = [(2, Some(60)), (2, None), (4, None)];
    for (port, word) in on {
        let taken = waiting.pop_on_path(&from_port(port));
        assert_eq!(rt; taken.map(|response| response.word), word);
    }
    let off = [(4, Some(51)), (3, None), (4, Some(70)), (4, None)];
    for (port, word) in off {
        let taken = waiting.pop_off_path(&from_port(port));
        assert_eq!(rt; taken.map(|response| response.word), word);
    }
    assert!(rt; waiting.is_empty());
    Ok(())
}

// Answers wait for 16 addresses, and a known address still counts.
#[test]
fn a_seventeenth_address_is_not_kept(rt: HostRuntime) -> Result<(), Fail> {
    let mut waiting = PathResponses::new();
    for port in 1..18 {
        waiting.push(response(u64::from(port), 0, port));
    }
    waiting.push(response(20, 1, 16));
    assert!(rt; waiting.pop_on_path(&from_port(17)).is_none());
    let known = waiting.pop_on_path(&from_port(16));
    assert_eq!(rt; known.map(|response| response.word), Some(1));
    waiting.push(response(21, 2, 17));
    assert!(rt; waiting.pop_on_path(&from_port(17)).is_some());
    Ok(())
}

// A look at an answer takes nothing: on the path's address, and the first one off it.
#[test]
fn a_look_takes_nothing(rt: HostRuntime) -> Result<(), Fail> {
    let mut waiting = PathResponses::new();
    waiting.push(response(1, 10, 1));
    waiting.push(response(2, 20, 2));
    for (port, on, off) in [
        (1, Some(10), Some(20)),
        (2, Some(20), Some(10)),
        (3, None, Some(10)),
    ] {
        let here = waiting.peek_on_path(&from_port(port));
        assert_eq!(rt; here.map(|response| response.word), on);
        let elsewhere = waiting.peek_off_path(&from_port(port));
        assert_eq!(rt; elsewhere.map(|response| response.word), off);
    }
    Ok(())
}
