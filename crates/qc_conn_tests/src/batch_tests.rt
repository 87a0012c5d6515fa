//! What is known of the datagrams of a transmit, by hand: when a packet joins one, when another one stands behind it, and how many bytes it is to
//! have.

use qc_state::{Batch, Form};
use std::test::Fail;

/// A batch whose first datagram, of 1200 bytes at most, has a packet of this form and size, so many bytes of which are PADDING.
fn with_first(form: Form, size: u64, padding: u64) -> Batch {
    let mut batch = Batch::new(false, false, 10, 1200, 1200);
    batch.open(true, false);
    batch.grow(form, 0, size, padding, false, false);
    batch
}

/// The same with a second datagram, which has a packet of this size.
fn with_second(first: u64, second: u64) -> Batch {
    let mut batch = with_first(Form::OneRtt, first, 0);
    batch.open(true, false);
    batch.grow(Form::OneRtt, 1, second, 0, false, false);
    batch
}

/// A batch whose datagrams have 1400 bytes at most and are filled up to 1200, padded up to the size of the others or not. One that is begun
/// for a probe, or isn't, has a packet of this form and of 100 bytes, which fills it up or doesn't.
fn with_packet(pads: bool, probes: bool, form: Form, fills: bool) -> Batch {
    let mut batch = Batch::new(false, pads, 10, 1400, 1200);
    batch.open(true, probes);
    batch.grow(form, 0, 100, 0, fills, false);
    batch
}

// A packet joins where 103 bytes are left, unless a short header stands before it, which says not where its packet ends (RFC 9000, section 12.2).
#[test]
fn a_packet_joins_where_103_bytes_are_left(rt: HostRuntime) -> Result<(), Fail> {
    assert!(rt; with_first(Form::Handshake, 1097, 0).takes_another());
    assert!(rt; !with_first(Form::Handshake, 1098, 0).takes_another());
    assert!(rt; !with_first(Form::OneRtt, 30, 0).takes_another());
    assert!(rt; !Batch::new(false, false, 10, 1200, 1200).takes_another());
    Ok(())
}

// No packet need join where fewer than 128 bytes are left beside PADDING, or a short header stands last.
#[test]
fn a_datagram_is_done_below_128_bytes(rt: HostRuntime) -> Result<(), Fail> {
    assert!(rt; !with_first(Form::Handshake, 1072, 0).is_done());
    assert!(rt; with_first(Form::Handshake, 1073, 0).is_done());
    assert!(rt; !with_first(Form::Handshake, 1200, 128).is_done());
    assert!(rt; with_first(Form::Handshake, 1200, 127).is_done());
    assert!(rt; with_first(Form::OneRtt, 30, 0).is_done());
    Ok(())
}

// Each datagram but the last has the size of the first, which may be any.
#[test]
fn a_datagram_stands_behind_whole_ones(rt: HostRuntime) -> Result<(), Fail> {
    assert!(rt; with_first(Form::OneRtt, 300, 0).is_whole());
    assert_eq!(rt; with_first(Form::OneRtt, 300, 0).next_segment(), 300);
    assert!(rt; with_second(300, 300).is_whole());
    assert!(rt; !with_second(300, 299).is_whole());
    assert_eq!(rt; with_second(300, 299).next_segment(), 300);
    Ok(())
}

// A datagram that is begun for a probe has at most the bytes that others are filled up to: behind a larger one it is the last.
#[test]
fn a_datagram_for_a_probe_is_the_last_behind_a_larger_one(rt: HostRuntime) -> Result<(), Fail> {
    let mut batch = Batch::new(false, true, 10, 1400, 1200);
    batch.open(true, false);
    batch.grow(Form::Handshake, 0, 1400, 0, false, false);
    batch.open(true, true);
    assert_eq!(rt; batch.left(), 1200);
    batch.grow(Form::OneRtt, 0, 1200, 0, false, false);
    assert!(rt; !batch.is_whole());
    assert_eq!(rt; batch.wanted(), 0);
    Ok(())
}

// One with a packet of the Data space has the path's size where such ones are padded, and may have it; one that is filled up else has the size that
// every path takes.
#[test]
fn datagrams_want_their_size(rt: HostRuntime) -> Result<(), Fail> {
    assert_eq!(rt;
        with_packet(true, false, Form::OneRtt, false).wanted(),
        1400
    );
    assert_eq!(rt; with_packet(true, false, Form::OneRtt, true).wanted(), 1400);
    assert_eq!(rt;
        with_packet(true, false, Form::Handshake, false).wanted(),
        0
    );
    assert_eq!(rt; with_packet(true, true, Form::OneRtt, false).wanted(), 0);
    assert_eq!(rt; with_packet(false, false, Form::OneRtt, false).wanted(), 0);
    assert_eq!(rt;
        with_packet(false, false, Form::Initial, true).wanted(),
        1200
    );
    Ok(())
}
