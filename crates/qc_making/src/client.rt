//! A client's connection is made.

ghost use Rattle.std.specs.Prelude.{◌≡◌, ◌<◌, ◌^◌, None, length, IfOk, false};
ghost use Rattle.qc_state.specs.First.{allowed_by, first_view, fixed_of};
ghost use Rattle.qc_recovery.specs.Paths.{first_size};
ghost use Rattle.qc_state.specs.View.{ideal};

use crate::making::{Given, allowed, made};
use bytes::Bytes;
use qc_base::{ConnectionId, Duration, Instant, Side};
use qc_core::Core;
use qc_path::ControllerFactory;
use qc_recovery::{PathData, TransportConfig, first_mtu};
use qc_state::{Means, Path, Paths, SoundSession, SpaceKeys, Suite};
use std::alloc::{AllocError, Global};
use std::net::{IpAddr, SocketAddr};

/// What a client's connection is made of.
#[derive(Drop)]
pub struct ClientSetup<U: Suite> {
    /// A client's session. It is fresh: it has neither read nor written.
    pub session: U::Session,
    /// The source of random words.
    pub random: U::Random,
    /// What makes the congestion controller of the path (RFC 9002, 7).
    pub control: U::Control,
    /// The configuration of the transport.
    pub transport: TransportConfig,
    /// Whether this end takes packets whose fixed bit isn't set (RFC 9287).
    pub grease_quic_bit: bool,
    /// This end's id, which has `cid_len` bytes.
    pub local_cid: ConnectionId,
    /// The destination id of the first packets, of 8 to 20 bytes (RFC 9000, 7.2).
    pub first_cid: ConnectionId,
    /// The length of this end's ids, in bytes.
    pub cid_len: usize,
    /// How long an id of this end is used before the peer is asked to retire it (RFC 9000, 5.1.2); without a limit where there is none.
    pub cid_lifetime: Option<Duration>,
    /// The peer's address.
    pub remote: SocketAddr,
    /// The address to send from, where one is given.
    pub local_ip: Option<IpAddr>,
    /// The version of QUIC (RFC 9000, 15).
    pub version: u32,
    /// Whether larger datagrams are searched for (RFC 9000, 14.3).
    pub allow_mtud: bool,
    /// The server's name.
    pub server_name: String,
}

/// A client's connection: its hello waits in the Initial space, and its Initial packets carry this token, which is empty where
/// the client has none (RFC 9000, 8.1). Want of memory is the only refusal.
#[tactic(auto, unfolding(qc_state::specs::First::first_view))]
pub fn new_client<U: Suite>(
    alloc: Global,
    setup: ClientSetup<U>,
    token: Bytes,
    now: Instant,
) -> Result<Core<U>, AllocError>
    requires fresh { U.Session.is_fresh setup.session }
    requires client { U.Session.side_of setup.session ≡ Side.Client }
    ensures made { IfOk result (λ core. (ideal U.Random.stream core) ≡ first_view ⟦<U as Means>⟧.meaning setup.session (U.Random.stream setup.random) (fixed_of Side.Client setup.version setup.local_cid setup.first_cid setup.cid_lifetime false setup.local_ip (allowed_by setup.allow_mtud setup.transport) setup.grease_quic_bit (U.Random.stream setup.random)) setup.remote setup.first_cid token (allowed_by setup.allow_mtud setup.transport) (U.Control.built setup.control now (first_size (allowed_by setup.allow_mtud setup.transport) None)) now) }
    ensures hello { IfOk result (λ core. core.waiting.spaces.initial.crypto.written < 2 ^ 62) }
{
    let mut session = SoundSession::new(setup.session);
    let keys = SpaceKeys::new(session.initial_keys(&setup.first_cid, Side::Client));
    let mut hello = Vec::new(alloc);
    session.write(&mut hello)?;
    let given = Given {
        side: Side::Client,
        version: setup.version,
        local_cid: setup.local_cid,
        first_cid: setup.first_cid,
        cid_lifetime: setup.cid_lifetime,
        preferred: false,
        local_ip: setup.local_ip,
        grease_quic_bit: setup.grease_quic_bit,
    };
    let transport = allowed(setup.transport, setup.allow_mtud);
    let congestion = setup.control.build(now, first_mtu(&transport, None));
    let kept = PathData::new(now, &transport, congestion, true, None);
    let path = Path::new(setup.remote, setup.first_cid, true, kept);
    let paths = Paths::new(path, None);
    made(
        alloc,
        keys,
        session,
        hello,
        token,
        setup.random,
        given,
        paths,
        None,
        0,
        &transport,
        now,
    )
}
