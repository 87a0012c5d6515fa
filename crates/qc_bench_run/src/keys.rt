//! Packets sealed and opened.

ghost use Rattle.std.specs.Prelude.{◌≡◌, length, IfOk, IsSome};
ghost use Rattle.qc_crypto.specs.Mates.{OpensItsPackets};

use bytes::BytesMut;
use qc_base::Side;
use qc_crypto::{KeySource, PacketKey};
use std::alloc::{AllocError, Global};

/// How many bytes each packet has.
const PACKET_LEN: usize = 1200;

/// How many of them are its header: a first byte, an id of 8 bytes and a number of 4.
const HEADER_LEN: usize = 13;

/// What opening gave.
#[derive(Clone, Copy, Debug, PartialEq, Eq)]
pub struct Opened {
    /// How many packets were opened.
    pub packets: u64,
    /// A sum that depends on each of them, modulo 2^64: where the keys were used alone, of the last byte of each
    /// plain text; where packets were built and read, of their full numbers.
    pub sum: u64,
}

/// Seals and opens `count` packets, each of which has the number of its place. The plain text of
/// one is what stands in the buffer after the one before.
pub fn seal_and_open<P: PacketKey, S: KeySource<P>>(
    alloc: Global,
    source: &S,
    count: u32,
) -> Result<Opened, AllocError>
    ensures { IfOk result (λ opened. opened.packets ≡ count) }
{
    let sealer = source.keys(Side::Client, 0).local;
    let opener = source.keys(Side::Server, 0).remote;
    let mut packet = [7; PACKET_LEN];
    let mut packets = 0;
    let mut sum = 0u64;
    for number in 0..count {
        match pass(alloc, &sealer, &opener, u64::from(number), &mut packet)? {
            Some(last) => {
                packets += 1;
                sum = sum.wrapping_add(u64::from(last));
            }
            None => {}
        }
    }
    Ok(Opened { packets, sum })
}

/// Seals a packet, and gives the last byte of the plain text that its mate makes of it, if it opens.
#[tactic(auto, using(crate::proofs::SealingLemmas::sealed_opens))]
fn pass<P: PacketKey>(
    alloc: Global,
    sealer: &P,
    opener: &P,
    number: u64,
    packet: &mut [u8],
) -> Result<Option<u8>, AllocError>
    requires mates { OpensItsPackets (P.seal sealer.now) (P.opening opener.now) }
    requires size { length packet.old ≡ PACKET_LEN }
    ensures { IfOk result IsSome }
{
    sealer.encrypt(number, packet, HEADER_LEN);
    let (header, sealed) = packet.split_at(HEADER_LEN);
    let mut payload = BytesMut::copy_from_slice(alloc, sealed)?;
    match opener.decrypt(number, header, &mut payload) {
        Ok(()) => Ok(Some(payload.as_slice().last().copied().unwrap_or(0))),
        Err(_) => Ok(None),
    }
}
