//! The set lines.

ghost use Rattle.qc_script.specs.Fields.{hex_field};
ghost use Rattle.qc_script.specs.Items.{IsOfKeys, IsOfServer, IsOfTransport, IsReadOf, IsSettingRead};
ghost use Rattle.qc_script.specs.Script.{random_text, IsRandom, IsSeed, IsId, IsSecret, side_line};
ghost use Rattle.qc_script.specs.declared.settings.RandomWords.{RandomWords};
ghost use Rattle.std.specs.Prelude.{◌≡◌, ◌≢◌, ℕ, List, ◌++◌, codes, IfOk, MatchOption};

use crate::address::read_address;
use crate::fields::{after_word, read_code, read_count, read_flag, read_hex, read_number};
use crate::settings::{RandomWords, Setting};
use qc_base::{ConnectionId, Instant, Side};
use std::alloc::{AllocError, Global};

/// The side that the first line names, and what is behind that line.
pub fn read_side(text: &[u8]) -> Option<(Side, &[u8])>
    ensures { MatchOption result ((side : Side) → (rest : List ℕ) → text.now ≢ side_line side ++ rest) (λ x. text.now ≡ side_line x.0 ++ x.1.now) }
{
    if let Some(rest) = after_word(text, b"set side client\n") {
        return Some((Side::Client, rest));
    }
    match after_word(text, b"set side server\n") {
        Some(rest) => Some((Side::Server, rest)),
        None => None,
    }
}

/// The seed that a field spells.
fn read_seed(alloc: Global, field: &[u8]) -> Result<Option<[u8; 32]>, AllocError>
    ensures { IfOk result (λ r. MatchOption r ((bytes : List ℕ) → IsSeed bytes → field.now ≢ hex_field bytes) (λ bytes. (field.now ≡ hex_field bytes) × IsSeed bytes)) }
{
    let Some(bytes) = read_hex(alloc, field)? else {
        return Ok(None);
    };
    let bytes = bytes.as_slice();
    if bytes.len() != 32 {
        return Ok(None);
    }
    let mut seed = [0; 32];
    seed.copy_from_slice(bytes);
    Ok(Some(seed))
}

/// The source of random words that a field names.
fn read_random(alloc: Global, field: &[u8]) -> Result<Option<RandomWords>, AllocError>
    ensures { IfOk result (λ r. MatchOption r ((words : RandomWords) → IsRandom words → field.now ≢ random_text words) (λ words. (field.now ≡ random_text words) × IsRandom words)) }
{
    if field == b"zero".as_slice() {
        return Ok(Some(RandomWords::Zeros));
    }
    match read_seed(alloc, field)? {
        Some(seed) => Ok(Some(RandomWords::Seed(seed))),
        None => Ok(None),
    }
}

/// The id that a field spells.
pub fn read_id(alloc: Global, field: &[u8]) -> Result<Option<ConnectionId>, AllocError>
    ensures { IfOk result (λ r. MatchOption r ((id : List ℕ) → IsId id → field.now ≢ hex_field id) (λ id. (field.now ≡ hex_field id) × IsId id)) }
{
    let Some(bytes) = read_hex(alloc, field)? else {
        return Ok(None);
    };
    let bytes = bytes.as_slice();
    if bytes.len() <= 20 {
        Ok(Some(ConnectionId::new(bytes)))
    } else {
        Ok(None)
    }
}

/// The secret that a field spells.
fn read_secret(alloc: Global, field: &[u8]) -> Result<Option<[u8; 5]>, AllocError>
    ensures { IfOk result (λ r. MatchOption r ((bytes : List ℕ) → IsSecret bytes → field.now ≢ hex_field bytes) (λ bytes. (field.now ≡ hex_field bytes) × IsSecret bytes)) }
{
    let Some(bytes) = read_hex(alloc, field)? else {
        return Ok(None);
    };
    let bytes = bytes.as_slice();
    if bytes.len() != 5 {
        return Ok(None);
    }
    let mut secret = [0; 5];
    secret.copy_from_slice(bytes);
    Ok(Some(secret))
}

/// What a line sets that names a source of random words.
fn random_line(alloc: Global, field: &[u8]) -> Result<Option<Setting>, AllocError>
    ensures { IfOk result (λ r. (side : Side) → IsSettingRead side (codes "set random " ++ field.now) r) }
{
    match read_random(alloc, field)? {
        Some(words) => Ok(Some(Setting::Random(words))),
        None => Ok(None),
    }
}

/// What a line sets that gives this time.
fn time_line(digits: &[u8]) -> Option<Setting>
    ensures { (side : Side) → IsSettingRead side (codes "set time " ++ digits.now) result }
{
    match read_number(digits) {
        Some(now) => Some(Setting::Time(Instant::from_nanos(now))),
        None => None,
    }
}

/// What a line sets that gives this end's id.
fn local_line(alloc: Global, field: &[u8]) -> Result<Option<Setting>, AllocError>
    ensures { IfOk result (λ r. (side : Side) → IsSettingRead side (codes "set local " ++ field.now) r) }
{
    match read_id(alloc, field)? {
        Some(id) => Ok(Some(Setting::Local(id))),
        None => Ok(None),
    }
}

/// What a line sets that gives the remote id.
fn remote_line(alloc: Global, side: Side, field: &[u8]) -> Result<Option<Setting>, AllocError>
    ensures { IfOk result (IsSettingRead side (codes "set remote " ++ field.now)) }
{
    let Some(id) = read_id(alloc, field)? else {
        return Ok(None);
    };
    let least = match side {
        Side::Client => 8,
        Side::Server => 0,
    };
    if id.len() < least {
        return Ok(None);
    }
    Ok(Some(Setting::Remote(id)))
}

/// What a line sets that gives the destination id of the client's first packets.
fn first_line(alloc: Global, side: Side, field: &[u8]) -> Result<Option<Setting>, AllocError>
    ensures { IfOk result (IsSettingRead side (codes "set first " ++ field.now)) }
{
    match side {
        Side::Client => Ok(None),
        Side::Server => match read_id(alloc, field)? {
            Some(id) => Ok(Some(Setting::First(id))),
            None => Ok(None),
        },
    }
}

/// What a line sets that gives the destination id of the client's packets before its Retry.
fn orig_line(alloc: Global, side: Side, field: &[u8]) -> Result<Option<Setting>, AllocError>
    ensures { IfOk result (IsSettingRead side (codes "set orig " ++ field.now)) }
{
    match side {
        Side::Client => Ok(None),
        Side::Server => match read_id(alloc, field)? {
            Some(id) => Ok(Some(Setting::Orig(id))),
            None => Ok(None),
        },
    }
}

/// What a line sets that gives the source id of a server's Retry.
fn retry_line(alloc: Global, side: Side, field: &[u8]) -> Result<Option<Setting>, AllocError>
    ensures { IfOk result (IsSettingRead side (codes "set retry " ++ field.now)) }
{
    match side {
        Side::Client => Ok(None),
        Side::Server => match read_id(alloc, field)? {
            Some(id) => Ok(Some(Setting::Retry(id))),
            None => Ok(None),
        },
    }
}

/// What a line sets that gives the peer's address.
fn addr_line(alloc: Global, field: &[u8]) -> Result<Option<Setting>, AllocError>
    ensures { IfOk result (λ r. (side : Side) → IsSettingRead side (codes "set addr " ++ field.now) r) }
{
    match read_address(alloc, field)? {
        Some(address) => Ok(Some(Setting::Addr(address))),
        None => Ok(None),
    }
}

/// What a line sets that says whether the peer's address is validated.
fn validated_line(side: Side, field: &[u8]) -> Option<Setting>
    ensures { IsSettingRead side (codes "set validated " ++ field.now) result }
{
    match side {
        Side::Client => None,
        Side::Server => match read_flag(field) {
            Some(validated) => Some(Setting::Validated(validated)),
            None => None,
        },
    }
}

/// What a line sets that gives how many tokens a server sends.
fn sent_line(side: Side, digits: &[u8]) -> Option<Setting>
    ensures { IsSettingRead side (codes "set sent " ++ digits.now) result }
{
    match side {
        Side::Client => None,
        Side::Server => match read_count(digits) {
            Some(count) => Some(Setting::Sent(count)),
            None => None,
        },
    }
}

/// What a line sets that gives the time of a server's clock.
fn clock_line(side: Side, digits: &[u8]) -> Option<Setting>
    ensures { IsSettingRead side (codes "set clock " ++ digits.now) result }
{
    match side {
        Side::Client => None,
        Side::Server => match read_number(digits) {
            Some(seconds) => Some(Setting::Clock(seconds)),
            None => None,
        },
    }
}

/// What a line sets that gives the token.
fn token_line(alloc: Global, side: Side, field: &[u8]) -> Result<Option<Setting>, AllocError>
    ensures { IfOk result (IsSettingRead side (codes "set token " ++ field.now)) }
{
    match side {
        Side::Client => match read_hex(alloc, field)? {
            Some(bytes) => Ok(Some(Setting::Token(bytes))),
            None => Ok(None),
        },
        Side::Server => Ok(None),
    }
}

/// What a line sets that gives the secret.
fn secret_line(alloc: Global, field: &[u8]) -> Result<Option<Setting>, AllocError>
    ensures { IfOk result (λ r. (side : Side) → IsSettingRead side (codes "set secret " ++ field.now) r) }
{
    match read_secret(alloc, field)? {
        Some(bytes) => Ok(Some(Setting::Secret(bytes))),
        None => Ok(None),
    }
}

/// What a line sets that gives how many packets an Initial key may seal.
fn limit_initial_line(digits: &[u8]) -> Option<Setting>
    ensures { (side : Side) → IsSettingRead side (codes "set limit_initial " ++ digits.now) result }
{
    match read_number(digits) {
        Some(packets) => Some(Setting::LimitInitial(packets)),
        None => None,
    }
}

/// What a line sets that gives how many packets a Handshake key may seal.
fn limit_handshake_line(digits: &[u8]) -> Option<Setting>
    ensures { (side : Side) → IsSettingRead side (codes "set limit_handshake " ++ digits.now) result }
{
    match read_number(digits) {
        Some(packets) => Some(Setting::LimitHandshake(packets)),
        None => None,
    }
}

/// What a line sets that gives how many packets a 1-RTT key may seal.
fn limit_data_line(digits: &[u8]) -> Option<Setting>
    ensures { (side : Side) → IsSettingRead side (codes "set limit_data " ++ digits.now) result }
{
    match read_number(digits) {
        Some(packets) => Some(Setting::LimitData(packets)),
        None => None,
    }
}

/// What a line sets that gives how many packets may fail to open.
fn limit_failures_line(digits: &[u8]) -> Option<Setting>
    ensures { (side : Side) → IsSettingRead side (codes "set limit_failures " ++ digits.now) result }
{
    match read_number(digits) {
        Some(packets) => Some(Setting::LimitFailures(packets)),
        None => None,
    }
}

/// What a line sets that gives this limit on idle time.
fn idle_line(digits: &[u8]) -> Option<Setting>
    ensures { (side : Side) → IsSettingRead side (codes "set idle " ++ digits.now) result }
{
    match read_code(digits) {
        Some(limit) => Some(Setting::Idle(limit)),
        None => None,
    }
}

/// What a line sets that says whether larger datagrams are looked for.
fn mtud_line(field: &[u8]) -> Option<Setting>
    ensures { (side : Side) → IsSettingRead side (codes "set mtud " ++ field.now) result }
{
    match read_flag(field) {
        Some(allowed) => Some(Setting::Mtud(allowed)),
        None => None,
    }
}

/// What a line sets that says whether the datagrams of a transmit may stand behind each other.
fn gso_line(field: &[u8]) -> Option<Setting>
    ensures { (side : Side) → IsSettingRead side (codes "set gso " ++ field.now) result }
{
    match read_flag(field) {
        Some(allowed) => Some(Setting::Gso(allowed)),
        None => None,
    }
}

/// What this line, LF excluded, sets of the keys' limits.
fn keys_line(text: &[u8]) -> Option<Setting>
    ensures { (side : Side) → IsReadOf IsOfKeys side text.now result }
{
    if let Some(digits) = after_word(text, b"set limit_initial ") {
        return limit_initial_line(digits);
    }
    if let Some(digits) = after_word(text, b"set limit_handshake ") {
        return limit_handshake_line(digits);
    }
    if let Some(digits) = after_word(text, b"set limit_data ") {
        return limit_data_line(digits);
    }
    match after_word(text, b"set limit_failures ") {
        Some(digits) => limit_failures_line(digits),
        None => None,
    }
}

/// What this line, LF excluded, sets of servers alone.
fn server_line(alloc: Global, side: Side, text: &[u8]) -> Result<Option<Setting>, AllocError>
    ensures { IfOk result (IsReadOf IsOfServer side text.now) }
{
    if let Some(field) = after_word(text, b"set orig ") {
        return orig_line(alloc, side, field);
    }
    if let Some(field) = after_word(text, b"set retry ") {
        return retry_line(alloc, side, field);
    }
    if let Some(field) = after_word(text, b"set validated ") {
        return Ok(validated_line(side, field));
    }
    if let Some(digits) = after_word(text, b"set sent ") {
        return Ok(sent_line(side, digits));
    }
    match after_word(text, b"set clock ") {
        Some(digits) => Ok(clock_line(side, digits)),
        None => Ok(None),
    }
}

/// What this line, LF excluded, sets of the transport's configuration.
fn transport_line(text: &[u8]) -> Option<Setting>
    ensures { (side : Side) → IsReadOf IsOfTransport side text.now result }
{
    if let Some(digits) = after_word(text, b"set idle ") {
        return idle_line(digits);
    }
    if let Some(field) = after_word(text, b"set mtud ") {
        return mtud_line(field);
    }
    match after_word(text, b"set gso ") {
        Some(field) => gso_line(field),
        None => None,
    }
}

/// What this line, LF excluded, sets on this side.
pub fn read_setting(alloc: Global, side: Side, text: &[u8]) -> Result<Option<Setting>, AllocError>
    ensures { IfOk result (IsSettingRead side text.now) }
{
    if let Some(field) = after_word(text, b"set random ") {
        return random_line(alloc, field);
    }
    if let Some(digits) = after_word(text, b"set time ") {
        return Ok(time_line(digits));
    }
    if let Some(field) = after_word(text, b"set local ") {
        return local_line(alloc, field);
    }
    if let Some(field) = after_word(text, b"set remote ") {
        return remote_line(alloc, side, field);
    }
    if let Some(field) = after_word(text, b"set first ") {
        return first_line(alloc, side, field);
    }
    if let Some(field) = after_word(text, b"set addr ") {
        return addr_line(alloc, field);
    }
    if let Some(field) = after_word(text, b"set token ") {
        return token_line(alloc, side, field);
    }
    if let Some(field) = after_word(text, b"set secret ") {
        return secret_line(alloc, field);
    }
    if let Some(setting) = keys_line(text) {
        return Ok(Some(setting));
    }
    if let Some(setting) = server_line(alloc, side, text)? {
        return Ok(Some(setting));
    }
    Ok(transport_line(text))
}
