//! Datagrams that are cut into their packets.

use std::alloc::Global;
use std::test::Fail;

/// Where the field Length of a long header with this first byte stands: behind that byte, the version, and two ids of 8 bytes with their
/// lengths; in an Initial packet behind the length of a token of no bytes too (RFC 9000, sections 17.2 and 17.2.2).
fn length_at(first: u8) -> usize {
    if first & 0x30 == 0 { 24 } else { 23 }
}

/// How many bytes the first packet of a datagram has: one with a long header so many as its field Length of two bytes says behind itself, one
/// with a short header all.
fn first_len(datagram: &[u8]) -> Option<usize> {
    let first = *datagram.first()?;
    if first & 0x80 == 0 {
        return Some(datagram.len());
    }
    let at = length_at(first);
    let high = *datagram.get(at)?;
    let low = *datagram.get(at.saturating_add(1))?;
    let behind = ((high & 0x3f) as usize)
        .saturating_mul(256)
        .saturating_add(low as usize);
    Some(at.saturating_add(2).saturating_add(behind))
}

/// The first packet of a datagram, and what is behind it.
pub(crate) fn cut(datagram: &[u8]) -> Result<(&[u8], &[u8]), Fail> {
    match first_len(datagram) {
        Some(len) => match datagram.split_at_checked(len) {
            Some(parts) => Ok(parts),
            None => Err(Fail::from("a packet is longer than its datagram")),
        },
        None => Err(Fail::from("a header is cut off")),
    }
}

/// Puts the packets of a datagram behind others.
fn push_packets(alloc: Global, datagram: &[u8], packets: &mut Vec<Vec<u8>>) -> Result<(), Fail> {
    let mut rest = datagram;
    for _ in 0..datagram.len() {
        if rest.is_empty() {
            return Ok(());
        }
        let (packet, behind) = cut(rest)?;
        let bytes = Vec::from_slice(alloc, packet)?;
        packets.push(bytes)?;
        rest = behind;
    }
    Ok(())
}

/// The packets of a flight in order, each in a datagram of its own.
pub(crate) fn packets_of(alloc: Global, flight: &[Vec<u8>]) -> Result<Vec<Vec<u8>>, Fail> {
    let mut packets = Vec::new(alloc);
    for datagram in flight {
        push_packets(alloc, datagram.as_slice(), &mut packets)?;
    }
    Ok(packets)
}
