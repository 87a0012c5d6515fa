//! The clients of these tests, which have toy sessions.

ghost use Rattle.std.specs.Prelude.{◌≡◌, false, IfOk, IfSome};
ghost use Rattle.qc_state.specs.Setup.{is_first_awaited};

use bytes::Bytes;
use qc_base::{ConnectionId, Instant, Side, VarInt};
use qc_config::{FixedTime, NoneTokenStore, TokenStore, announced};
use qc_conn::text::trace_text;
use qc_conn::{ClientSetup, Connection, drive};
use qc_core::Core;
use qc_crypto::{ClientConfig, Session};
use qc_path::NewRenoConfig;
use qc_recovery::{IdleTimeout, TransportConfig};
use qc_state::{Input, Suite};
use qc_toy::{ToyClient, ToySession, ToySettings, ToyTokenKey, ZeroRandom};
use std::alloc::{AllocError, Global};
use std::default::Default;
use std::net::{IpAddr, Ipv4Addr, SocketAddr};
use std::test::Fail;

/// The types of these connections: toy sessions, NewReno, and zeros for random words.
pub(crate) struct Toy;

impl Suite for Toy {
    type Session = ToySession;

    type Control = NewRenoConfig;

    type Random = ZeroRandom;

    type TokenKey = ToyTokenKey;

    type Time = FixedTime;
}

#[tactic(auto, using(qc_toy::specs::Start::start_fresh, qc_toy::specs::Start::start_side))]
fn session(
    alloc: Global,
    settings: ToySettings,
    transport: &TransportConfig,
    id: ConnectionId,
) -> Option<ToySession>
    ensures fresh { IfSome result ⟦<ToySession as Session>⟧.is_fresh }
    ensures client { IfSome result (λ session. session.side ≡ Side.Client) }
{
    let client = ToyClient { settings };
    let params = announced(transport, 1472, id, true);
    client.start_session(alloc, 1, "", &params).ok()
}

fn setup(
    alloc: Global,
    settings: ToySettings,
    transport: TransportConfig,
) -> Option<ClientSetup<Toy>>
    ensures fresh { IfSome result (λ setup. ⟦<ToySession as Session>⟧.is_fresh setup.session) }
    ensures client { IfSome result (λ setup. setup.session.side ≡ Side.Client) }
{
    let local_cid = ConnectionId::new(&[1; 8]);
    let session = session(alloc, settings, &transport, local_cid)?;
    Some(ClientSetup {
        session,
        random: ZeroRandom,
        control: NewRenoConfig::default(),
        transport,
        grease_quic_bit: true,
        local_cid,
        first_cid: ConnectionId::new(&[2; 8]),
        cid_len: 8,
        cid_lifetime: None,
        remote: SocketAddr::new(IpAddr::V4(Ipv4Addr::new(192, 0, 2, 1)), 4433),
        local_ip: None,
        version: 1,
        allow_mtud: false,
        server_name: String::new(alloc),
    })
}

/// A client made at time 0 for the server of this name, with a token out of the store where there is one.
pub(crate) fn client_of<G: TokenStore>(
    alloc: Global,
    store: &mut G,
    name: &str,
) -> Option<Box<Connection<Toy>>> {
    let mut setup = setup(alloc, ToySettings::default(), TransportConfig::default())?;
    setup.server_name = String::from_str(alloc, name).ok()?;
    let client = Connection::new_client(alloc, setup, store, Instant::from_nanos(0)).ok()?;
    Box::new(alloc, client).ok()
}

/// A client made at time 0, on the heap: a function that owns a whole connection is slow to check.
#[tactic(auto, unfolding(qc_state::specs::First::first_view, qc_state::specs::Setup::is_first_awaited, qc_state::specs::Setup::ideal_setup))]
fn fresh(alloc: Global, setup: ClientSetup<Toy>) -> Result<Box<Connection<Toy>>, AllocError>
    requires fresh { ⟦<ToySession as Session>⟧.is_fresh setup.session }
    requires client { setup.session.side ≡ Side.Client }
    ensures greatest { IfOk result (λ client. client.value.core.timers.greatest ≡ 0) }
    ensures heard { IfOk result (λ client. is_first_awaited client.value.core.setup ≡ false) }
{
    let start = Instant::from_nanos(0);
    let client = Connection::new_client(alloc, setup, &mut NoneTokenStore, start)?;
    Ok(Box::new(alloc, client)?)
}

/// A client made at time 0, which waits for no first packet.
pub(crate) fn fresh_client(alloc: Global) -> Option<Box<Connection<Toy>>>
    ensures { IfSome result (λ client. is_first_awaited client.value.core.setup ≡ false) }
{
    client_with(alloc, ToySettings::default())
}

/// The same with a toy session of these settings.
pub(crate) fn client_with(alloc: Global, settings: ToySettings) -> Option<Box<Connection<Toy>>>
    ensures { IfSome result (λ client. is_first_awaited client.value.core.setup ≡ false) }
{
    let setup = setup(alloc, settings, TransportConfig::default())?;
    fresh(alloc, setup).ok()
}

/// A client made at time 0 that ends where it is idle for so many milliseconds.
pub(crate) fn client_with_limit(alloc: Global, millis: u32) -> Option<Box<Connection<Toy>>> {
    let mut transport = TransportConfig::default();
    let limit = IdleTimeout::from(VarInt::from_u32(millis));
    transport.max_idle_timeout(Some(limit));
    let setup = setup(alloc, ToySettings::default(), transport)?;
    fresh(alloc, setup).ok()
}

/// A client made at time 0 that takes so many bytes of all streams together.
pub(crate) fn client_with_window(alloc: Global, window: u32) -> Option<Box<Connection<Toy>>> {
    let mut transport = TransportConfig::default();
    transport.receive_window(VarInt::from_u32(window));
    let setup = setup(alloc, ToySettings::default(), transport)?;
    fresh(alloc, setup).ok()
}

/// A client made at time 0 that keeps so many bytes of datagrams: of those that came, where any may come, and of those that are to be sent.
pub(crate) fn client_with_buffers(
    alloc: Global,
    receive: Option<usize>,
    send: usize,
) -> Option<Box<Connection<Toy>>> {
    let mut transport = TransportConfig::default();
    transport.datagram_receive_buffer_size(receive);
    transport.datagram_send_buffer_size(send);
    let setup = setup(alloc, ToySettings::default(), transport)?;
    fresh(alloc, setup).ok()
}

/// The core of a client made at time 0.
fn core(alloc: Global) -> Option<Core<Toy>> {
    let setup = setup(alloc, ToySettings::default(), TransportConfig::default())?;
    qc_making::new_client(alloc, setup, Bytes::new(), Instant::from_nanos(0)).ok()
}

/// A client made at time 0 whose next Initial packet has this number, and which met want of memory where `failed` says so.
pub(crate) fn client_at(alloc: Global, number: u64, failed: bool) -> Option<Box<Connection<Toy>>> {
    let mut core = core(alloc)?;
    core.numbers.spaces.initial.next = number;
    core.lower.streams.failed = failed;
    Box::new(alloc, Connection::from_core(alloc, core)).ok()
}

/// How many bytes a transmit at this time seals; None where it seals nothing.
pub(crate) fn sealed_len(alloc: Global, client: &mut Connection<Toy>, nanos: u64) -> Option<usize> {
    let mut buf = Vec::new(alloc);
    let now = Instant::from_nanos(nanos);
    match client.poll_transmit(alloc, now, 1, &mut buf) {
        Ok(Some(_)) => Some(buf.len()),
        _ => None,
    }
}

/// Whether an event for the application waits, which is taken.
pub(crate) fn has_event(client: &mut Connection<Toy>) -> bool {
    client.poll().is_some()
}

/// Whether an event for the endpoint waits, which is taken.
pub(crate) fn has_endpoint_event(client: &mut Connection<Toy>) -> bool {
    client.poll_endpoint_events().is_some()
}

/// The text of these inputs' trace; None where something refused.
fn text_of(alloc: Global, client: &mut Connection<Toy>, inputs: &[Input]) -> Option<Vec<u8>> {
    match drive(alloc, client, inputs, &mut NoneTokenStore) {
        Ok(trace) => trace_text(alloc, &trace).ok(),
        Err(_) => None,
    }
}

/// The place of the first of these parts that a text hasn't; None where it has them all.
fn first_missing(text: &str, parts: &[&str]) -> Option<usize> {
    for (place, part) in parts.iter().enumerate() {
        if !text.contains(part) {
            return Some(place);
        }
    }
    None
}

/// The place of the first of these parts that the text of these inputs' trace hasn't; None where it has them all.
pub(crate) fn missing(
    alloc: Global,
    client: &mut Connection<Toy>,
    inputs: &[Input],
    parts: &[&str],
) -> Result<Option<usize>, Fail> {
    let bytes = text_of(alloc, client, inputs).ok_or("no trace")?;
    let text = String::from_utf8(bytes)?;
    Ok(first_missing(text.as_str(), parts))
}
