//! What an endpoint hands over: a datagram that it cut already, ids for the peer to use, and a server's first packet that it opened.

ghost use Rattle.std.specs.Prelude.{◌≡◌, ◌<◌, ◌+◌, None, length, if◌then◌else◌, OnOk, IfOk, IfSome};
ghost use Rattle.qc_base.specs.Time.{plus};
ghost use Rattle.qc_receive.specs.Cutting.{rest_of};
ghost use Rattle.qc_receive.specs.FirstPacket.{first_reason, reason_between, size_of};
ghost use Rattle.qc_state.specs.Receiving.{event_after, opened_first, first_packet_after};
ghost use Rattle.qc_state.specs.View.{ideal, held};

use crate::receiving::{counted, cutting_of, lets_in, others, pieces};
use bytes::{Bytes, BytesMut};
use qc_admit::received;
use qc_base::{ConnectionId, EcnCodepoint, Instant, SpaceId};
use qc_core::Core;
use qc_header::{InitialHeader, InitialPacket, PartialDecode};
use qc_state::{Coming, ConnectionError, Dids, IdList, Means, Suite};
use std::alloc::{AllocError, Global};
use std::net::SocketAddr;

/// What an endpoint hands to a connection.
#[derive(Drop)]
pub enum ConnectionEvent {
    /// A datagram that the endpoint cut: with the connection's version, the length of its ids and its word on the fixed bit
    /// `PartialDecode::new` gave the first packet and what is behind it.
    Datagram {
        /// When it came.
        now: Instant,
        /// Where it came from.
        remote: SocketAddr,
        /// Its mark of ECN.
        ecn: Option<EcnCodepoint>,
        /// Its first packet.
        first_decode: PartialDecode,
        /// What is behind that: None where nothing is, so never no bytes.
        remaining: Option<BytesMut>,
    },
    /// Ids of this end that the peer may use (RFC 9000, 5.1.1): no more than are asked for, with the next sequence numbers, and as long as
    /// this end's.
    NewIdentifiers {
        /// The ids, in the order of their numbers.
        ids: IdList,
        /// When they are given.
        now: Instant,
    },
}

/// How many bytes are behind a packet.
fn len_behind(behind: &Option<BytesMut>) -> usize
    ensures { result ≡ length (rest_of behind.now) }
{
    match behind {
        None => 0,
        Some(bytes) => bytes.len(),
    }
}

/// How many bytes a datagram had whose first packet opened: with the tag of 16 bytes. The sum stops at 2^64 - 1.
fn opened_len(packet: &InitialPacket, behind: &Option<BytesMut>) -> u64
    ensures { result ≡ plus (plus (length packet.now.header_data + length packet.now.payload.items) 16) (length (rest_of behind.now)) }
{
    let opened = packet.header_data.len() as u64 + packet.payload.len() as u64;
    opened
        .saturating_add(16)
        .saturating_add(len_behind(behind) as u64)
}

/// A datagram came that was cut already into its first packet and what is behind it. Want of memory is
/// the only refusal.
#[tactic(auto, using(crate::proofs::Handed::no_event))]
pub fn event<U: Suite>(
    core: &mut Core<U>,
    alloc: Global,
    did: &mut Dids,
    coming: &Coming,
    first: PartialDecode,
    behind: Option<BytesMut>,
) -> Result<(), AllocError>
    requires some { IfSome behind (λ b. 0 < length b.items) }
    ensures { OnOk result ((held U.Random.stream core.new did.new) ≡ event_after ⟦<U as Means>⟧.meaning coming.now first (rest_of behind) (held U.Random.stream core.old did.old)) }
{
    if lets_in(core, coming.remote) {
        let len = first.len() as u64 + len_behind(&behind) as u64;
        let blocked = core.is_blocked();
        let cutting = cutting_of(core);
        pieces(core, alloc, did, coming, cutting, first, behind)?;
        counted(core, did, coming.time, blocked, len);
    }
    Ok(())
}

/// The reason for the end, where none stood before. Want of memory is the only refusal.
fn reason_since<U: Suite>(
    core: &Core<U>,
    stood: bool,
) -> Result<Option<ConnectionError>, AllocError>
    ensures { IfOk result (λ why. why ≡ (if stood then None else core.now.life.reason)) }
{
    if stood {
        return Ok(None);
    }
    match &core.life.reason {
        None => Ok(None),
        Some(why) => {
            let why = why.copy()?;
            Ok(Some(why))
        }
    }
}

/// A server's first packet, which opened: its token is expected from now on, and it does what a packet does that opened.
/// Answers the reason for the end that it gave. Want of memory is the only refusal.
fn opened_first<U: Suite>(
    core: &mut Core<U>,
    alloc: Global,
    did: &mut Dids,
    coming: &Coming,
    source: ConnectionId,
    token: Bytes,
    number: u64,
    payload: Bytes,
) -> Result<Option<ConnectionError>, AllocError>
    ensures answer { IfOk result (λ why. why ≡ reason_between (ideal U.Random.stream core.old) (ideal U.Random.stream core.new)) }
    ensures leads { OnOk result ((held U.Random.stream core.new did.new) ≡ opened_first ⟦<U as Means>⟧.meaning coming.now source token number payload (held U.Random.stream core.old did.old)) }
{
    let stood = core.life.reason.is_some();
    let expected = token.clone()?;
    core.do_expect(expected);
    received(
        core,
        alloc,
        did,
        coming,
        SpaceId::Initial,
        false,
        source,
        token,
        number,
        payload,
    )?;
    let why = reason_since(core, stood)?;
    Ok(why)
}

/// A server's first packet came, which opened with this number, and what is behind it in its datagram. Answers the
/// reason for the end that the packet gave. Want of memory is the only refusal.
pub fn first_packet<U: Suite>(
    core: &mut Core<U>,
    alloc: Global,
    did: &mut Dids,
    coming: &Coming,
    number: u64,
    packet: InitialPacket,
    behind: Option<BytesMut>,
) -> Result<Option<ConnectionError>, AllocError>
    requires some { IfSome behind (λ b. 0 < length b.items) }
    ensures answer { IfOk result (λ why. why ≡ first_reason ⟦<U as Means>⟧.meaning coming.now packet.header.src_cid packet.header.token number packet.payload.items (held U.Random.stream core.old did.old)) }
    ensures leads { OnOk result ((held U.Random.stream core.new did.new) ≡ first_packet_after ⟦<U as Means>⟧.meaning coming.now packet.header.src_cid packet.header.token number packet.payload.items (rest_of behind) (size_of packet (rest_of behind)) (held U.Random.stream core.old did.old)) }
{
    let len = opened_len(&packet, &behind);
    let blocked = core.is_blocked();
    let cutting = cutting_of(core);
    let InitialPacket {
        header,
        payload,
        ..
    } = packet;
    let InitialHeader { src_cid, token, .. } = header;
    let payload = match payload.freeze() {
        Ok(payload) => payload,
        Err(_) => return Err(AllocError),
    };
    let why = opened_first(core, alloc, did, coming, src_cid, token, number, payload)?;
    others(core, alloc, did, coming, cutting, behind)?;
    counted(core, did, coming.time, blocked, len);
    Ok(why)
}
