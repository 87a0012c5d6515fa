//! Paths that move and that begin anew.

use crate::sender::{Sender, at};
use qc_base::Duration;
use qc_path::{Controller, ControllerFactory, NewReno, NewRenoConfig, PathRate};
use qc_recovery::{PathData, TransportConfig, first_mtu};
use std::alloc::Global;
use std::default::Default;
use std::test::Fail;

fn rate(path: &PathData<NewReno>) -> PathRate {
    PathRate {
        window: path.congestion.window(),
        rtt: path.rtt.get(),
        mtu: path.mtud.current_mtu(),
    }
}

// A path with a round trip of 100 ms and a window of 13,200, whose bucket is empty; it is being validated,
// its packets are no longer marked, and packet 1 probes for 1326 bytes.
fn used(alloc: Global) -> Result<Sender, Fail> {
    let mut sender = Sender::new(alloc);
    sender.send(alloc, 0, at(0))?;
    sender.acknowledge(alloc, at(100), &[0], None)?;
    let rate = rate(&sender.path);
    sender.path.pacing.sent(at(100), &rate, 12_000);
    sender.path.mtud.probe_sent(at(100), 1);
    sender.path.challenge = Some(7);
    Ok(sender)
}

// Whether 12,000 bytes may go at once: all that the bucket holds, ten datagrams of 1200.
fn is_full(mut path: PathData<NewReno>) -> bool {
    let rate = rate(&path);
    path.pacing.delay(at(100), &rate, 12_000).is_none()
}

#[test]
fn a_moved_path_goes_on(rt: HostRuntime) -> Result<(), Fail> {
    let sender = used(rt.alloc())?;
    assert!(rt; !sender.path.sending_ecn);
    let path = sender.path.moved(at(100));
    assert_eq!(rt; path.rtt.get(), Duration::from_millis(100));
    assert_eq!(rt; path.congestion.window(), 13_200);
    assert_eq!(rt; path.mtud.current_mtu(), 1200);
    assert!(rt; path.mtud.is_probe(1));
    assert!(rt; path.challenge.is_none());
    assert!(rt; path.sending_ecn);
    assert!(rt; path.first_sample.is_some());
    assert!(rt; is_full(path));
    Ok(())
}

fn renewed(path: &PathData<NewReno>) -> PathData<NewReno> {
    let config = TransportConfig::default();
    let congestion = NewRenoConfig::default().build(at(100), first_mtu(&config, None));
    path.renewed(at(100), &config, congestion, true, None)
}

#[test]
fn a_renewed_path_begins_anew(rt: HostRuntime) -> Result<(), Fail> {
    let sender = used(rt.alloc())?;
    let path = renewed(&sender.path);
    assert_eq!(rt; path.rtt.get(), Duration::from_millis(333));
    assert_eq!(rt; path.congestion.window(), 12_000);
    assert_eq!(rt; path.mtud.current_mtu(), 1200);
    assert!(rt; !path.mtud.is_probe(1));
    assert_eq!(rt; path.challenge, Some(7));
    assert!(rt; !path.sending_ecn);
    assert!(rt; path.first_sample.is_some());
    assert!(rt; is_full(path));
    Ok(())
}
