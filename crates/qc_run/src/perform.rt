//! The run of a script's inputs, on the connection that its set lines make.

ghost use Rattle.std.specs.Prelude.{true, false, replicate, unwrap_or, ◌≡◌, None, IfOk, IfSome};
ghost use Rattle.qc_script.specs.Fields.{IsAddress};
ghost use Rattle.qc_text.specs.OneText.{IsPlainStart};
ghost use Rattle.qc_run.specs.Words.{words_named, words_of};
ghost use Rattle.qc_run.specs.RunText.{mtud_of, IsScriptAddress, IsAddressOf, IsScriptEnd, IsToyRun, IsToyRefusal, IsToldRun, IsRefusalTold, client_session, server_session, parameters_of, reset_token_of, server_parameters_of, settings_of, transport_of, INITIAL_WINDOW, local_of, orig_of, remote_of, first_of, start_of, clock_of, sent_of, validated_of, view_for, TOKEN_KEY};

use crate::random::{ScriptRandom, random_of};
use crate::token::OneToken;
use qc_base::{ConnectionId, HeaderMask, Instant, ResetToken, Side, SystemTime, VarInt};
use qc_config::{FixedTime, NoneTokenStore, announced, reset_token};
use qc_conn::text::{refused_text, trace_text};
use qc_conn::{ClientSetup, Connection, DriveError, DriveKind, ServerSetup, drive};
use qc_crypto::{ClientConfig, PacketKey, ServerConfig, Session};
use qc_params::TransportParameters;
use qc_path::{Controller, NewReno, NewRenoConfig};
use qc_recovery::{IdleTimeout, TransportConfig};
use qc_script::{Script, Settings};
use qc_state::{Input, Suite};
use qc_toy::{
    ToyClient, ToyHeaderKey, ToyHmacKey, ToyPacketKey, ToyServer, ToySession, ToySettings,
    ToyTokenKey,
};
use std::alloc::{AllocError, Global};
use std::default::Default;
use std::net::{IpAddr, Ipv6Addr, SocketAddr};

/// The greatest UDP payload that an end takes, in bytes.
const MAX_UDP_PAYLOAD: u16 = 1472;

/// The types of the connection that a script drives: toy sessions, NewReno, and random words that are zeros or those of ChaCha20.
pub struct Toy;

impl Suite for Toy {
    type Session = ToySession;

    type Control = NewRenoConfig;

    type Random = ScriptRandom;

    type TokenKey = ToyTokenKey;

    type Time = FixedTime;
}

/// The id that a line gives, or eight times this byte.
fn id_or(given: Option<ConnectionId>, byte: u8) -> ConnectionId
    ensures { result ≡ unwrap_or given (replicate 8 byte) }
{
    match given {
        Some(id) => id,
        None => ConnectionId::new(&[byte; 8]),
    }
}

/// This end's limit on idle time in milliseconds: the one that a line gives, or the usual one.
fn idle_or(given: Option<VarInt>) -> VarInt
    ensures { result ≡ unwrap_or given 30000 }
{
    match given {
        Some(millis) => millis,
        None => VarInt::from_u32(30_000),
    }
}

/// The usual transport, with this end's limit on idle time, and whether the datagrams of a transmit may stand behind each other, where
/// lines say so.
#[tactic(auto, unfolding(crate::specs::RunText::transport_of))]
fn transport_with(set: &Settings) -> TransportConfig
    ensures { result ≡ transport_of set.now }
{
    let mut transport = TransportConfig::default();
    transport.max_idle_timeout(Some(IdleTimeout::from(idle_or(set.idle))));
    transport.enable_segmentation_offload(set.gso.unwrap_or(true));
    transport
}

/// The toy's usual settings, with its secret and its limits where lines give them.
fn settings_with(set: &Settings) -> ToySettings
    ensures { result ≡ settings_of set.now }
{
    let usual = ToySettings::default();
    ToySettings {
        secret: set.secret.unwrap_or(usual.secret),
        limit_initial: set.limit_initial.unwrap_or(usual.limit_initial),
        limit_handshake: set.limit_handshake.unwrap_or(usual.limit_handshake),
        limit_data: set.limit_data.unwrap_or(usual.limit_data),
        limit_failures: set.limit_failures.unwrap_or(usual.limit_failures),
        ..usual
    }
}

/// `::1`, port 4433.
fn usual_address() -> SocketAddr
    ensures { IsScriptAddress result }
{
    SocketAddr::new(IpAddr::V6(Ipv6Addr::new(0, 0, 0, 0, 0, 0, 0, 1)), 4433)
}

/// The address that a line gives, or the usual one.
fn address_or(given: Option<SocketAddr>) -> SocketAddr
    ensures { IsAddressOf given result }
{
    match given {
        Some(address) => address,
        None => usual_address(),
    }
}

/// When the connection is made: the time that a line gives, or 0.
fn time_or(given: Option<Instant>) -> Instant
    ensures { result ≡ unwrap_or given 0 }
{
    match given {
        Some(time) => time,
        None => Instant::from_nanos(0),
    }
}

/// A client's session, which announces this transport. Want of memory is the only error.
fn session_of_client(
    alloc: Global,
    set: &Settings,
    transport: &TransportConfig,
) -> Result<ToySession, AllocError>
    requires { transport.now ≡ transport_of set.now }
    ensures { IfOk result (λ session. session ≡ client_session set.now) }
{
    let client = ToyClient {
        settings: settings_with(set),
    };
    let params = announced(transport, MAX_UDP_PAYLOAD, id_or(set.local, 1), true);
    match client.start_session(alloc, 1, "", &params) {
        Ok(session) => Ok(session),
        Err(_) => Err(AllocError),
    }
}

/// The token that resets a server's connection: a key of zeros signs its id. Want of memory is the only error.
fn reset_token_of(alloc: Global, set: &Settings) -> Result<ResetToken, AllocError>
    ensures { IfOk result (λ token. token ≡ reset_token_of set.now) }
{
    reset_token(alloc, &ToyHmacKey::new([0; 16]), id_or(set.local, 1))
}

/// The destination id of the client's packets before its Retry: the one that a line gives, or that of its first packets.
fn orig_or(set: &Settings) -> ConnectionId
    ensures { result ≡ orig_of set.now }
{
    match set.orig {
        Some(id) => id,
        None => id_or(set.first, 3),
    }
}

/// What a server announces: beside the transport the destination id of the client's packets before its Retry, the source id of its Retry, if
/// it sent one, and the token that resets the connection.
fn server_parameters(
    set: &Settings,
    transport: &TransportConfig,
    token: ResetToken,
) -> TransportParameters
    requires transport { transport.now ≡ transport_of set.now }
    requires token { token ≡ reset_token_of set.now }
    ensures { result ≡ server_parameters_of set.now }
{
    let mut params = announced(transport, MAX_UDP_PAYLOAD, id_or(set.local, 1), true);
    params.original_dst_cid = Some(orig_or(set));
    params.retry_src_cid = set.retry;
    params.stateless_reset_token = Some(token);
    params
}

/// A server's session, which announces this transport. Want of memory is the only error.
fn session_of_server(
    alloc: Global,
    set: &Settings,
    transport: &TransportConfig,
) -> Result<ToySession, AllocError>
    requires { transport.now ≡ transport_of set.now }
    ensures { IfOk result (λ session. session ≡ server_session set.now) }
{
    let server = ToyServer {
        settings: settings_with(set),
    };
    let token = reset_token_of(alloc, set)?;
    let params = server_parameters(set, transport, token);
    match server.start_session(alloc, 1, &params) {
        Ok(session) => Ok(session),
        Err(_) => Err(AllocError),
    }
}

/// What the client that these set lines make is made of. Want of memory is the only error.
#[tactic(auto, using(qc_toy::specs::Start::start_fresh, qc_toy::specs::Start::start_side))]
fn client_setup(alloc: Global, set: &Settings) -> Result<ClientSetup<Toy>, AllocError>
    ensures fresh { IfOk result (λ setup. ⟦<ToySession as Session>⟧.is_fresh setup.session) }
    ensures client { IfOk result (λ setup. setup.session.side ≡ Side.Client) }
    ensures session { IfOk result (λ setup. setup.session ≡ client_session set.now) }
    ensures random { IfOk result (λ setup. words_of setup.random ≡ words_named set.now.random) }
    ensures version { IfOk result (λ setup. setup.version ≡ 1) }
    ensures local_cid { IfOk result (λ setup. setup.local_cid ≡ local_of set.now) }
    ensures lifetime { IfOk result (λ setup. setup.cid_lifetime ≡ None) }
    ensures local_ip { IfOk result (λ setup. setup.local_ip ≡ None) }
    ensures first_cid { IfOk result (λ setup. setup.first_cid ≡ remote_of set.now) }
    ensures allow { IfOk result (λ setup. setup.allow_mtud ≡ mtud_of set.now) }
    ensures transport { IfOk result (λ setup. setup.transport ≡ transport_of set.now) }
    ensures control { IfOk result (λ setup. setup.control ≡ INITIAL_WINDOW) }
    ensures grease { IfOk result (λ setup. setup.grease_quic_bit ≡ true) }
    ensures remote { IfOk result (λ setup. IsAddressOf set.now.addr setup.remote) }
{
    let transport = transport_with(set);
    let local_cid = id_or(set.local, 1);
    let session = session_of_client(alloc, set, &transport)?;
    Ok(ClientSetup {
        session,
        random: random_of(set.random),
        control: NewRenoConfig::default(),
        transport,
        grease_quic_bit: true,
        local_cid,
        first_cid: id_or(set.remote, 2),
        cid_len: local_cid.len(),
        cid_lifetime: None,
        remote: address_or(set.addr),
        local_ip: None,
        version: 1,
        allow_mtud: set.mtud.unwrap_or(true),
        server_name: String::new(alloc),
    })
}

/// The clock of a server: it stands still so many seconds after the start of 1970, or at that start; the greatest time that there is, where
/// they are more.
fn clock_or(given: Option<u64>) -> FixedTime
    ensures { result ≡ clock_of given }
{
    let seconds = given.unwrap_or(0);
    FixedTime(SystemTime::from_nanos(seconds.saturating_mul(1_000_000_000)))
}

/// What the server that these set lines make is made of. Want of memory is the only error.
#[tactic(auto, using(qc_toy::specs::Start::start_fresh))]
fn server_setup(alloc: Global, set: &Settings) -> Result<ServerSetup<Toy>, AllocError>
    ensures fresh { IfOk result (λ setup. ⟦<ToySession as Session>⟧.is_fresh setup.session) }
    ensures session { IfOk result (λ setup. setup.session ≡ server_session set.now) }
    ensures random { IfOk result (λ setup. words_of setup.random ≡ words_named set.now.random) }
    ensures version { IfOk result (λ setup. setup.version ≡ 1) }
    ensures local_cid { IfOk result (λ setup. setup.local_cid ≡ local_of set.now) }
    ensures lifetime { IfOk result (λ setup. setup.cid_lifetime ≡ None) }
    ensures preferred { IfOk result (λ setup. setup.preferred ≡ false) }
    ensures local_ip { IfOk result (λ setup. setup.local_ip ≡ None) }
    ensures first_cid { IfOk result (λ setup. setup.first_cid ≡ first_of set.now) }
    ensures remote_cid { IfOk result (λ setup. setup.remote_cid ≡ remote_of set.now) }
    ensures allow { IfOk result (λ setup. setup.allow_mtud ≡ mtud_of set.now) }
    ensures transport { IfOk result (λ setup. setup.transport ≡ transport_of set.now) }
    ensures control { IfOk result (λ setup. setup.control ≡ INITIAL_WINDOW) }
    ensures grease { IfOk result (λ setup. setup.grease_quic_bit ≡ true) }
    ensures remote { IfOk result (λ setup. IsAddressOf set.now.addr setup.remote) }
    ensures validated { IfOk result (λ setup. setup.validated ≡ validated_of set.now) }
    ensures key { IfOk result (λ setup. setup.token_key ≡ TOKEN_KEY) }
    ensures time { IfOk result (λ setup. setup.time ≡ clock_of set.now.clock) }
    ensures sent { IfOk result (λ setup. setup.sent ≡ sent_of set.now) }
{
    let transport = transport_with(set);
    let local_cid = id_or(set.local, 1);
    let session = session_of_server(alloc, set, &transport)?;
    Ok(ServerSetup {
        session,
        random: random_of(set.random),
        control: NewRenoConfig::default(),
        transport,
        grease_quic_bit: true,
        local_cid,
        first_cid: id_or(set.first, 3),
        cid_len: local_cid.len(),
        cid_lifetime: None,
        remote: address_or(set.addr),
        local_ip: None,
        version: 1,
        allow_mtud: set.mtud.unwrap_or(true),
        remote_cid: id_or(set.remote, 2),
        token_key: ToyTokenKey::new([0; 16]),
        time: clock_or(set.clock),
        sent: set.sent.unwrap_or(0),
        migration: true,
        preferred: false,
        validated: set.validated.unwrap_or(false),
    })
}

/// The connection on the heap: a function that owns a whole one, and may leave early, is slow to check. Want of memory is the
/// only error.
fn boxed(alloc: Global, end: Connection<Toy>) -> Result<Box<Connection<Toy>>, AllocError>
    ensures { IfOk result (λ boxed. boxed.value ≡ end) }
{
    Ok(Box::new(alloc, end)?)
}

/// The client that these set lines make. Want of memory is the only error.
fn script_client(alloc: Global, set: &Settings) -> Result<Connection<Toy>, AllocError>
    requires side { set.now.side ≡ Side.Client }
    requires address { IfSome set.now.addr IsAddress }
    ensures client { IfOk result (IsScriptEnd ⟦<ToySession as Session>⟧ ⟦<ToyHeaderKey as HeaderMask>⟧ ⟦<ToyPacketKey as PacketKey>⟧ ⟦<NewReno as Controller>⟧ set.now) }
    ensures plain { IfOk result (λ client. IsPlainStart client.core.waiting client.core.paths client.core.life) }
{
    let setup = client_setup(alloc, set)?;
    let mut store = OneToken::new(alloc, &set.token)?;
    let client = Connection::new_client(alloc, setup, &mut store, time_or(set.time))?;
    Ok(client)
}

/// The server that these set lines make. Want of memory is the only error.
fn script_server(alloc: Global, set: &Settings) -> Result<Connection<Toy>, AllocError>
    requires side { set.now.side ≡ Side.Server }
    requires address { IfSome set.now.addr IsAddress }
    ensures server { IfOk result (IsScriptEnd ⟦<ToySession as Session>⟧ ⟦<ToyHeaderKey as HeaderMask>⟧ ⟦<ToyPacketKey as PacketKey>⟧ ⟦<NewReno as Controller>⟧ set.now) }
    ensures plain { IfOk result (λ server. IsPlainStart server.core.waiting server.core.paths server.core.life) }
{
    let setup = server_setup(alloc, set)?;
    let server = Connection::new_server(alloc, setup, time_or(set.time))?;
    Ok(server)
}

/// The connection that these set lines make, on the heap. Want of memory is the only error.
pub fn script_end(alloc: Global, set: &Settings) -> Result<Box<Connection<Toy>>, AllocError>
    requires address { IfSome set.now.addr IsAddress }
    ensures end { IfOk result (λ end. IsScriptEnd ⟦<ToySession as Session>⟧ ⟦<ToyHeaderKey as HeaderMask>⟧ ⟦<ToyPacketKey as PacketKey>⟧ ⟦<NewReno as Controller>⟧ set.now end.value) }
    ensures plain { IfOk result (λ end. IsPlainStart end.value.core.waiting end.value.core.paths end.value.core.life) }
{
    match set.side {
        Side::Client => boxed(alloc, script_client(alloc, set)?),
        Side::Server => boxed(alloc, script_server(alloc, set)?),
    }
}

/// The text of a run.
#[derive(Drop)]
pub enum Told {
    /// Every input was taken: the text of the trace.
    Whole(Vec<u8>),
    /// An input was refused: the text of the steps before it, and the line that names it and says why.
    Refused(Vec<u8>),
}

/// The text of what was refused. Want of memory is handed on, and so is that a connection had failed, which none
/// that was just made has.
fn refusal_told(alloc: Global, error: &DriveError) -> Result<Told, AllocError>
    ensures { IfOk result (λ told. IsRefusalTold error.now told) }
{
    match error.kind {
        DriveKind::TimeBack { .. } | DriveKind::BadCall { .. } => {
            let text = refused_text(alloc, error)?;
            Ok(Told::Refused(text))
        }
        DriveKind::OutOfMemory | DriveKind::Failed => Err(AllocError),
    }
}

/// What is told of a connection that the set lines made, driven by the inputs. Want of memory is the only error.
fn driven(alloc: Global, script: &Script, end: &mut Connection<Toy>) -> Result<Told, AllocError>
    requires end { IsScriptEnd ⟦<ToySession as Session>⟧ ⟦<ToyHeaderKey as HeaderMask>⟧ ⟦<ToyPacketKey as PacketKey>⟧ ⟦<NewReno as Controller>⟧ script.now.settings end.old }
    requires plain { IsPlainStart end.old.core.waiting end.old.core.paths end.old.core.life }
    ensures { IfOk result (λ told. IsToldRun (IsToyRun ⟦<ToySession as Session>⟧ ⟦<ToyHeaderKey as HeaderMask>⟧ ⟦<ToyPacketKey as PacketKey>⟧ ⟦<NewReno as Controller>⟧) (IsToyRefusal ⟦<ToySession as Session>⟧ ⟦<ToyHeaderKey as HeaderMask>⟧ ⟦<ToyPacketKey as PacketKey>⟧ ⟦<NewReno as Controller>⟧) script.now.settings script.now.inputs.items told) }
{
    match drive(alloc, end, script.inputs.as_slice(), &mut NoneTokenStore) {
        Ok(trace) => {
            let text = trace_text(alloc, &trace)?;
            Ok(Told::Whole(text))
        }
        Err(error) => refusal_told(alloc, &error),
    }
}

/// The text of the trace of the connection that the set lines make, driven by the inputs, or that of the steps before the first
/// input that can't be taken. Want of memory is the only error.
pub fn perform(alloc: Global, script: &Script) -> Result<Told, AllocError>
    requires address { IfSome script.now.settings.addr IsAddress }
    ensures { IfOk result (λ told. IsToldRun (IsToyRun ⟦<ToySession as Session>⟧ ⟦<ToyHeaderKey as HeaderMask>⟧ ⟦<ToyPacketKey as PacketKey>⟧ ⟦<NewReno as Controller>⟧) (IsToyRefusal ⟦<ToySession as Session>⟧ ⟦<ToyHeaderKey as HeaderMask>⟧ ⟦<ToyPacketKey as PacketKey>⟧ ⟦<NewReno as Controller>⟧) script.now.settings script.now.inputs.items told) }
{
    let mut end = script_end(alloc, &script.settings)?;
    driven(alloc, script, &mut end)
}
