//! Packets of which one bit was changed on their way.

use crate::cuts::cut;
use crate::ends::End;
use crate::pair::{ONCE, Pair};
use crate::setups::{client_address, server_address};
use std::alloc::{AllocError, Global};
use std::net::SocketAddr;
use std::process::Abort;
use std::test::Fail;

/// A packet of a handshake: how many whole flights come before it, the client's first, whether it is the second one of its
/// datagram, and how long its header is.
#[derive(Clone, Copy)]
struct Place {
    flights: u32,
    is_second: bool,
    header: usize,
}

/// A packet on its way: where it comes from, when, its bytes, the length of its header, and whether it is the first that comes to
/// a client.
#[derive(Drop)]
struct OnItsWay {
    remote: SocketAddr,
    nanos: u64,
    bytes: Vec<u8>,
    header: usize,
    is_first_answer: bool,
}

/// The place of the last byte of a long header's version. Version 1 with its lowest bit changed is 0, which makes a Version
/// Negotiation packet (RFC 9000, 17.2.1), and a client to which nothing came yet takes one: nothing protects it.
const VERSION_END: usize = 4;

/// Carries so many flights, the client's first.
fn carry_flights(alloc: Global, pair: &mut Pair, flights: u32) -> Result<(), Fail> {
    for flight in 0..flights {
        let _sent = pair.carry_one(alloc, flight % 2 == 0, ONCE)?;
    }
    Ok(())
}

/// The bytes of a datagram's first packet, or of what is behind it, once the first one came by itself.
fn bytes_in(
    alloc: Global,
    from: SocketAddr,
    to: &mut End,
    nanos: u64,
    datagram: &[u8],
    is_second: bool,
) -> Result<Vec<u8>, Fail> {
    let (first, second) = cut(datagram)?;
    if is_second {
        to.takes(alloc, nanos, from, None, first)?;
        return Ok(Vec::from_slice(alloc, second)?);
    }
    Ok(Vec::from_slice(alloc, first)?)
}

/// The same of the datagram that an end sends next.
fn bytes_sent(
    alloc: Global,
    from: &mut End,
    to: &mut End,
    nanos: u64,
    is_second: bool,
) -> Result<Vec<u8>, Fail> {
    match from.sends(alloc, nanos)? {
        Some(datagram) => bytes_in(
            alloc,
            from.address,
            to,
            nanos,
            datagram.as_slice(),
            is_second,
        ),
        None => Err(Fail::from("nothing is sent")),
    }
}

/// The packet at this place, before it comes.
fn packet_at(alloc: Global, pair: &mut Pair, place: Place) -> Result<OnItsWay, Fail> {
    carry_flights(alloc, pair, place.flights)?;
    let nanos = pair.nanos;
    let header = place.header;
    let is_second = place.is_second;
    if place.flights % 2 == 0 {
        let bytes = bytes_sent(alloc, &mut pair.client, &mut pair.server, nanos, is_second)?;
        Ok(OnItsWay {
            remote: client_address(),
            nanos,
            bytes,
            header,
            is_first_answer: false,
        })
    } else {
        let bytes = bytes_sent(alloc, &mut pair.server, &mut pair.client, nanos, is_second)?;
        Ok(OnItsWay {
            remote: server_address(),
            nanos,
            bytes,
            header,
            is_first_answer: place.flights == 1 && !is_second,
        })
    }
}

/// The packet with the lowest bit of the byte at this place changed.
fn changed(alloc: Global, packet: &[u8], place: usize) -> Result<Vec<u8>, AllocError> {
    let mut bytes = Vec::from_slice(alloc, packet)?;
    if let Some(byte) = bytes.get_mut(place) {
        *byte ^= 1;
    }
    Ok(bytes)
}

/// Whether steps tell of no packet but such as weren't opened, and of nothing that it led to.
fn is_untouched(text: &str) -> bool {
    for told in [
        "Admitted",
        "AckOnly",
        "NumberOnly",
        "Seen",
        "ReadForClose",
        "BadBits",
        "gave ",
        "life ",
        "lost ",
        "event ",
        "endpoint ",
    ] {
        if text.contains(told) {
            return false;
        }
    }
    true
}

/// Whether an end takes a packet with the byte at this place changed, in any way but that it doesn't open it.
fn takes_changed(
    alloc: Global,
    end: &mut End,
    packet: &OnItsWay,
    place: usize,
) -> Result<bool, Fail> {
    let bytes = changed(alloc, packet.bytes.as_slice(), place)?;
    end.forget();
    end.takes(alloc, packet.nanos, packet.remote, None, bytes.as_slice())?;
    Ok(!is_untouched(end.text.as_str()))
}

/// Hands an end a packet once for each place in the header and in the tag of 16 bytes, changed there, but for the version's end in
/// the first answer to a client: gives the first place at which it is taken.
fn first_taken(alloc: Global, end: &mut End, packet: &OnItsWay) -> Result<Option<usize>, Fail> {
    let len = packet.bytes.len();
    for place in 0..len {
        if (place < packet.header || len - place <= 16)
            && !(packet.is_first_answer && place == VERSION_END)
            && takes_changed(alloc, end, packet, place)?
        {
            return Ok(Some(place));
        }
    }
    Ok(None)
}

/// Two transmits, which alone are told.
fn afterwards(alloc: Global, end: &mut End, nanos: u64) -> Result<(), Fail> {
    end.forget();
    let _one = end.sends(alloc, nanos)?;
    let _other = end.sends(alloc, nanos)?;
    Ok(())
}

/// Checks that an end to which a packet comes only with changes goes on as one to which nothing came, and then takes the packet.
fn stands_changes(
    rt: &impl Abort,
    alloc: Global,
    bothered: &mut End,
    left: &mut End,
    packet: &OnItsWay,
) -> Result<(), Fail> {
    let taken = first_taken(alloc, bothered, packet)?;
    assert_eq!(rt; taken, None);
    afterwards(alloc, bothered, packet.nanos)?;
    afterwards(alloc, left, packet.nanos)?;
    assert_eq!(rt; bothered.text.as_str(), left.text.as_str());
    bothered.takes(
        alloc,
        packet.nanos,
        packet.remote,
        None,
        packet.bytes.as_slice(),
    )?;
    assert!(rt; bothered.text.as_str().contains("Admitted"));
    Ok(())
}

/// The same of the packet at this place of two handshakes that are alike.
fn stands_changes_at(
    rt: &impl Abort,
    alloc: Global,
    bothered: &mut Pair,
    left: &mut Pair,
    place: Place,
) -> Result<(), Fail> {
    let packet = packet_at(alloc, bothered, place)?;
    let _same = packet_at(alloc, left, place)?;
    if place.flights % 2 == 0 {
        stands_changes(rt, alloc, &mut bothered.server, &mut left.server, &packet)
    } else {
        stands_changes(rt, alloc, &mut bothered.client, &mut left.client, &packet)
    }
}

/// The same of two handshakes that just begin.
fn two_stand_changes(rt: &impl Abort, alloc: Global, place: Place) -> Result<(), Fail> {
    let mut bothered = Pair::new(alloc)?;
    let mut left = Pair::new(alloc)?;
    stands_changes_at(rt, alloc, &mut bothered, &mut left, place)
}

// The hello, the server's Initial packet and its Handshake packet, the client's Handshake packet, the HANDSHAKE_DONE and its ACK, each cut
// out of its datagram, with the lengths of their headers: in a long one the first byte, the version, two ids of 8 bytes with their lengths, the length of 2 bytes
// and the number of 1, and in an Initial packet the length of the token; in a short one the first byte, the id and the number. The
// checksum of the toy's keys weighs each byte with its place, so that it tells any change of the lowest bit of one.
#[test]
fn no_changed_packet_is_applied(rt: HostRuntime) -> Result<(), Fail> {
    let alloc = rt.alloc();
    for (flights, is_second, header) in [
        (0, false, 27),
        (1, false, 27),
        (1, true, 26),
        (2, true, 26),
        (3, false, 10),
        (4, false, 10),
    ] {
        let place = Place {
            flights,
            is_second,
            header,
        };
        two_stand_changes(&rt, alloc, place)?;
    }
    Ok(())
}
