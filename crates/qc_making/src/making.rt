//! What clients and servers are made of.

ghost use Rattle.std.specs.Prelude.{◌≡◌, ◌⊎◌, ◌<◌, ◌^◌, ◌%◌, ◌&&◌, nat_lt, if◌then◌else◌, [], length, IfOk, false, None};
ghost use Rattle.qc_cids.specs.Cids.{first_ids};
ghost use Rattle.qc_datagrams.specs.Datagrams.{new_datagrams};
ghost use Rattle.qc_ids.specs.LocalCids.{first_local_cids};
ghost use Rattle.qc_path.specs.Acks.{no_marks};
ghost use Rattle.qc_send_stream.specs.Buffer.{bytes_written, nothing};
ghost use Rattle.qc_state.specs.Draws.{behind, filter_words, key_phase_of, word};
ghost use Rattle.qc_state.specs.First.{allowed_by, first_streams, fixed_of, just_made, nothing_waits, something_waits};
ghost use Rattle.qc_state.specs.Setup.{idle_limit_of};
ghost use Rattle.qc_state.specs.View.{ideal};
ghost use Rattle.qc_state.specs.declared.spaces.Spaces.{Spaces};

use bytes::Bytes;
use qc_assembler::Assembler;
use qc_base::{ConnectionId, Duration, Instant, Side, VarInt};
use qc_cids::ConnectionIds;
use qc_core::Core;
use qc_crypto::Session;
use qc_datagrams::Datagrams;
use qc_path::{Controller, ControllerFactory, PacketNumberFilter, PendingAcks};
use qc_recovery::{IdleTimeout, Recovery, TransportConfig};
use qc_state::setup::limit_of_millis;
use qc_state::{
    CryptoQueue, Drawn, EndpointEvents, Events, Fixed, Issuer, KeyGroup, Life, Lower, Numbers,
    Paths, Setup, SoundSession, SpaceKeys, SpaceNumbers, SpaceWaiting, Spaces, State, Suite,
    Timers, Waiting,
};
use qc_streams::StreamsState;
use rand_core::Rng;
use std::alloc::{AllocError, Global};
use std::net::IpAddr;

/// The limit on idle time that a configuration gives: none where it has none or 0 (RFC 9000, 10.1).
fn idle_limit(timeout: Option<IdleTimeout>) -> Option<Duration>
    ensures { result ≡ idle_limit_of timeout }
{
    match timeout {
        None => None,
        Some(timeout) => limit_of_millis(VarInt::from(timeout).into_inner()),
    }
}

/// How many packets the first 1-RTT keys seal before others take their place, from 10 to 999. It is drawn.
fn key_phase_size<R: Rng>(random: &mut R) -> u64
    ensures value { result ≡ key_phase_of (R.stream random.old) }
    ensures drawn { R.stream random.new ≡ behind (R.stream random.old) }
{
    10 + random.next_u64() % 990
}

/// Whether a connection spins: where it is allowed, seven of eight do, which is drawn (RFC 9000, 17.4).
fn spins<R: Rng>(allowed: bool, random: &mut R) -> bool
    ensures value { result ≡ (allowed && nat_lt (word (R.stream random.old) % 8) 7) }
    ensures drawn { R.stream random.new ≡ (if allowed then behind (R.stream random.old) else R.stream random.old) }
{
    if allowed {
        return random.next_u64() % 8 < 7;
    }
    false
}

/// What a connection is given that doesn't change.
#[derive(Drop)]
pub(crate) struct Given {
    /// This end's side.
    pub side: Side,
    /// The version of QUIC.
    pub version: u32,
    /// This end's id.
    pub local_cid: ConnectionId,
    /// The destination id of a client's first packets.
    pub first_cid: ConnectionId,
    /// How long an id of this end is used; without a limit where there is none.
    pub cid_lifetime: Option<Duration>,
    /// Whether this end announced a preferred address, with a second id.
    pub preferred: bool,
    /// The address to send from, where one is given.
    pub local_ip: Option<IpAddr>,
    /// Whether this end takes packets whose fixed bit isn't set.
    pub grease_quic_bit: bool,
}

/// How many ids of this end count as issued at first: the one that it began with, and that of its preferred address, where it announced one.
fn first_issued(preferred: bool) -> u64
    ensures value { result ≡ (if preferred then 2 else 1) }
    ensures few { (result ≡ 1) ⊎ (result ≡ 2) }
{
    if preferred {
        return 2;
    }
    1
}

/// A configuration, by which larger datagrams are looked for as it says, or not at all.
pub(crate) fn allowed(transport: TransportConfig, allow_mtud: bool) -> TransportConfig
    ensures { result ≡ allowed_by allow_mtud transport }
{
    let mut transport = transport;
    if !allow_mtud {
        transport.mtu_discovery_config(None);
    }
    transport
}

/// What doesn't change of a connection: it draws how many packets the first 1-RTT keys seal, and whether it spins.
fn fixed<R: Rng>(given: Given, transport: &TransportConfig, random: &mut R) -> Fixed
    ensures value { result ≡ fixed_of given.side given.version given.local_cid given.first_cid given.cid_lifetime given.preferred given.local_ip transport.now given.grease_quic_bit (R.stream random.old) }
    ensures few { (result.issued ≡ 1) ⊎ (result.issued ≡ 2) }
    ensures drawn { R.stream random.new ≡ filter_words transport.now.allow_spin (R.stream random.old) }
{
    let key_phase_size = key_phase_size(random);
    let spins = spins(transport.get_allow_spin(), random);
    Fixed {
        side: given.side,
        version: given.version,
        local_cid: given.local_cid,
        first_cid: given.first_cid,
        cid_lifetime: given.cid_lifetime,
        issued: first_issued(given.preferred),
        local_ip: given.local_ip,
        idle_limit: idle_limit(transport.get_max_idle_timeout()),
        crypto_buffer_size: transport.get_crypto_buffer_size(),
        grease_quic_bit: given.grease_quic_bit,
        spins,
        key_phase_size,
        segmentation: transport.get_enable_segmentation_offload(),
        pads: transport.get_pad_to_mtu(),
    }
}

/// A space in which nothing waits but these CRYPTO bytes, and so many NEW_TOKENs.
fn space_with(crypto: CryptoQueue, tokens: u64) -> SpaceWaiting
    ensures { result ≡ record { done = false; ping = false; crypto = crypto; tokens = tokens; acks = record { ranges = []; marks = no_marks }; marks = None; probes = 0 } }
{
    SpaceWaiting {
        done: false,
        ping: false,
        crypto,
        tokens,
        acks: PendingAcks::new(),
        marks: None,
        probes: 0,
    }
}

/// A space in which nothing waits but so many NEW_TOKENs.
#[tactic(auto, unfolding(qc_send_stream::specs::Buffer::bytes_written, qc_send_stream::specs::Buffer::nothing, qc_send_stream::specs::Buffer::row))]
fn tokens_wait(alloc: Global, tokens: u64) -> SpaceWaiting
    ensures { result ≡ something_waits [] tokens }
{
    space_with(CryptoQueue::new(alloc), tokens)
}

/// The CRYPTO bytes of a space in which the session wrote these first. Want of memory is the only refusal.
#[tactic(auto, unfolding(qc_state::specs::Waiting::crypto_more, qc_send_stream::specs::Buffer::nothing))]
fn first_bytes(alloc: Global, bytes: Vec<u8>) -> Result<CryptoQueue, AllocError>
    requires { length bytes.items < 2 ^ 62 }
    ensures { IfOk result (λ queue. queue ≡ bytes_written bytes.items nothing) }
{
    let bytes = Bytes::from_vec(bytes)?;
    let mut queue = CryptoQueue::new(alloc);
    queue.write(bytes)?;
    Ok(queue)
}

/// What waits of a connection that was just made: what its session wrote, and so many NEW_TOKENs. Want of memory is the only refusal.
fn waiting(alloc: Global, hello: Vec<u8>, tokens: u64) -> Result<Waiting, AllocError>
    requires { length hello.items < 2 ^ 62 }
    ensures { IfOk result (λ waiting. waiting ≡ record { spaces = record { initial = nothing_waits hello.items; handshake = nothing_waits []; application = something_waits [] tokens }; close_owed = false; bundled = None }) }
{
    let crypto = first_bytes(alloc, hello)?;
    Ok(Waiting {
        spaces: Spaces {
            initial: space_with(crypto, 0),
            handshake: tokens_wait(alloc, 0),
            application: tokens_wait(alloc, tokens),
        },
        close_owed: false,
        bundled: None,
    })
}

/// The datagrams of a connection that was just made: none came, and none is to be sent.
fn datagrams(alloc: Global, transport: &TransportConfig) -> Datagrams
    ensures { result ≡ new_datagrams transport.now.datagram_receive_buffer_size transport.now.datagram_send_buffer_size }
{
    let receive_buffer = match transport.get_datagram_receive_buffer_size() {
        None => None,
        Some(size) => Some(size as u64),
    };
    let send_buffer = transport.get_datagram_send_buffer_size() as u64;
    Datagrams::new(alloc, receive_buffer, send_buffer)
}

/// The streams of a connection that was just made: none is open, and the peer may open as many as the configuration says.
fn first_streams(alloc: Global, side: Side, transport: &TransportConfig) -> StreamsState
    ensures { result ≡ first_streams side transport.now }
{
    StreamsState::new(
        alloc,
        side,
        transport.get_max_concurrent_uni_streams(),
        transport.get_max_concurrent_bidi_streams(),
        transport.get_receive_window(),
        transport.get_stream_receive_window(),
        transport.get_send_window(),
        transport.get_send_fairness(),
    )
}

/// The life of a connection that was just made.
fn life(alloc: Global) -> Life
    ensures { result ≡ record { state = State.Handshake; reason = None; ready = false; connected = false; heard = []; lost = None; notices = []; drained = false; close = None } }
{
    Life {
        state: State::Handshake,
        reason: None,
        ready: false,
        connected: false,
        heard: Events::new(alloc),
        lost: None,
        notices: EndpointEvents::new(alloc),
        drained: false,
        close: None,
    }
}

/// The id of the peer that packets by these paths carry.
fn carried<C: Controller>(paths: &Paths<C>) -> ConnectionId
    ensures { result ≡ paths.now.current.remote_cid }
{
    paths.current.remote_cid
}

/// The connection ids of both ends of a connection that was just made at `now`, which sends to this id of the peer.
fn first_ids(alloc: Global, fixed: &Fixed, remote: ConnectionId, now: Instant) -> ConnectionIds
    requires { (fixed.now.issued ≡ 1) ⊎ (fixed.now.issued ≡ 2) }
    ensures { result ≡ first_ids remote (first_local_cids (length fixed.now.local_cid) fixed.now.cid_lifetime now fixed.now.issued) }
{
    ConnectionIds::new(
        alloc,
        remote,
        fixed.local_cid.len(),
        fixed.cid_lifetime,
        now,
        fixed.issued,
    )
}

/// A connection that was just made at `now`: it has these keys of the Initial space, nothing waits but what its session wrote,
/// and so many NEW_TOKENs, which this makes; its Initial packets carry this token, and these are its paths. It draws what doesn't change of it, and then
/// which number of 1-RTT packets it skips first. Want of memory is the only refusal.
#[tactic(auto, unfolding(qc_state::specs::Setup::ideal_setup))]
pub(crate) fn made<U: Suite>(
    alloc: Global,
    keys: SpaceKeys<<U::Session as Session>::HeaderKey, <U::Session as Session>::PacketKey>,
    session: SoundSession<U::Session>,
    hello: Vec<u8>,
    token: Bytes,
    random: U::Random,
    given: Given,
    paths: Paths<<U::Control as ControllerFactory>::Controller>,
    issuer: Option<Issuer<U::TokenKey, U::Time>>,
    tokens: u64,
    transport: &TransportConfig,
    now: Instant,
) -> Result<Core<U>, AllocError>
    requires { length hello.items < 2 ^ 62 }
    ensures { IfOk result (λ core. (ideal U.Random.stream core) ≡ just_made keys session hello.items token (U.Random.stream random) (fixed_of given.side given.version given.local_cid given.first_cid given.cid_lifetime given.preferred given.local_ip transport.now given.grease_quic_bit (U.Random.stream random)) paths issuer tokens transport.now now) }
{
    let waiting = waiting(alloc, hello, tokens)?;
    let mut random = random;
    let fixed = fixed(given, transport, &mut random);
    let filter = PacketNumberFilter::new(&mut random);
    let streams = first_streams(alloc, fixed.side, transport);
    let remote = carried(&paths);
    let ids = first_ids(alloc, &fixed, remote, now);
    Ok(Core {
        numbers: Numbers {
            spaces: Spaces {
                initial: SpaceNumbers::new(now),
                handshake: SpaceNumbers::new(now),
                application: SpaceNumbers::new(now),
            },
            filter,
            opened: false,
        },
        keys: KeyGroup::new(keys),
        life: life(alloc),
        paths,
        timers: Timers::new(now),
        waiting,
        setup: Setup {
            fixed,
            peer: None,
            token: None,
            initial_token: token,
            retry_cid: None,
            drawn: Drawn {
                spin: false,
                flip: false,
            },
            random,
        },
        lower: Lower {
            session,
            crypto: Spaces {
                initial: Assembler::new(alloc),
                handshake: Assembler::new(alloc),
                application: Assembler::new(alloc),
            },
            recovery: Recovery::new(alloc, transport),
            streams,
            datagrams: datagrams(alloc, transport),
            ids,
        },
        issuer,
    })
}
