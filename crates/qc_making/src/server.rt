//! A server's connection is made.

ghost use Rattle.std.specs.Prelude.{◌≡◌, None, IfOk};
ghost use Rattle.qc_state.specs.First.{allowed_by, server_view, fixed_of};
ghost use Rattle.qc_recovery.specs.Paths.{first_size};
ghost use Rattle.qc_state.specs.View.{ideal};

use crate::making::{Given, allowed, made};
use bytes::Bytes;
use qc_base::{ConnectionId, Duration, Instant, Side};
use qc_core::Core;
use qc_path::ControllerFactory;
use qc_recovery::{PathData, TransportConfig, first_mtu};
use qc_state::{Issuer, Means, Path, Paths, SoundSession, SpaceKeys, Suite};
use std::alloc::{AllocError, Global};
use std::net::{IpAddr, SocketAddr};

/// What a server's connection is made of.
#[derive(Drop)]
pub struct ServerSetup<U: Suite> {
    /// A server's session. It is fresh: it has neither read nor written.
    pub session: U::Session,
    /// The source of random words.
    pub random: U::Random,
    /// What makes the congestion controller of the path (RFC 9002, 7).
    pub control: U::Control,
    /// The configuration of the transport.
    pub transport: TransportConfig,
    /// Whether this end takes packets whose fixed bit isn't set (RFC 9287).
    pub grease_quic_bit: bool,
    /// This end's id, which has `cid_len` bytes.
    pub local_cid: ConnectionId,
    /// The destination id of the client's first packets, of which the Initial keys are made (RFC 9001, 5.2).
    pub first_cid: ConnectionId,
    /// The length of this end's ids, in bytes.
    pub cid_len: usize,
    /// How long an id of this end is used before the peer is asked to retire it (RFC 9000, 5.1.2); without a limit where there is none.
    pub cid_lifetime: Option<Duration>,
    /// The client's address.
    pub remote: SocketAddr,
    /// The address to send from, where one is given.
    pub local_ip: Option<IpAddr>,
    /// The version of QUIC (RFC 9000, 15).
    pub version: u32,
    /// Whether larger datagrams are searched for (RFC 9000, 14.3).
    pub allow_mtud: bool,
    /// The client's id: the source id of its first packets (RFC 9000, 7.2).
    pub remote_cid: ConnectionId,
    /// The master key of the tokens that are sent to the client (RFC 9000, 8.1.4).
    pub token_key: U::TokenKey,
    /// Where the time of their issue comes from.
    pub time: U::Time,
    /// How many tokens the client is sent for its later connections, once its address is validated (RFC 9000, 8.1.3).
    pub sent: u32,
    /// Whether the client may go on from another address (RFC 9000, 9). So far it may not.
    pub migration: bool,
    /// Whether this end announced a preferred address (RFC 9000, 9.6). So far it has no effect.
    pub preferred: bool,
    /// Whether it is known that the client gets what is sent to its address, by a token (RFC 9000, 8.1).
    pub validated: bool,
}

/// A server's connection: it waits for its first packet. Want of memory is the only refusal.
#[tactic(auto, unfolding(qc_state::specs::First::server_view))]
pub fn new_server<U: Suite>(
    alloc: Global,
    setup: ServerSetup<U>,
    now: Instant,
) -> Result<Core<U>, AllocError>
    requires fresh { U.Session.is_fresh setup.session }
    ensures { IfOk result (λ core. (ideal U.Random.stream core) ≡ server_view ⟦<U as Means>⟧.meaning setup.session (U.Random.stream setup.random) (fixed_of Side.Server setup.version setup.local_cid setup.first_cid setup.cid_lifetime setup.preferred setup.local_ip (allowed_by setup.allow_mtud setup.transport) setup.grease_quic_bit (U.Random.stream setup.random)) setup.remote setup.remote_cid setup.validated (record { key = setup.token_key; time = setup.time; sent = setup.sent }) (allowed_by setup.allow_mtud setup.transport) (U.Control.built setup.control now (first_size (allowed_by setup.allow_mtud setup.transport) None)) now) }
{
    let session = SoundSession::new(setup.session);
    let keys = SpaceKeys::new(session.initial_keys(&setup.first_cid, Side::Server));
    let given = Given {
        side: Side::Server,
        version: setup.version,
        local_cid: setup.local_cid,
        first_cid: setup.first_cid,
        cid_lifetime: setup.cid_lifetime,
        preferred: setup.preferred,
        local_ip: setup.local_ip,
        grease_quic_bit: setup.grease_quic_bit,
    };
    let transport = allowed(setup.transport, setup.allow_mtud);
    let congestion = setup.control.build(now, first_mtu(&transport, None));
    let kept = PathData::new(now, &transport, congestion, true, None);
    let path = Path::new(setup.remote, setup.remote_cid, setup.validated, kept);
    let paths = Paths::new(path, Some(setup.remote_cid));
    let issuer = Issuer {
        key: setup.token_key,
        time: setup.time,
        sent: setup.sent,
    };
    let tokens = issuer.first_tokens(setup.validated);
    made(
        alloc,
        keys,
        session,
        Vec::new(alloc),
        Bytes::new(),
        setup.random,
        given,
        paths,
        Some(issuer),
        tokens,
        &transport,
        now,
    )
}
