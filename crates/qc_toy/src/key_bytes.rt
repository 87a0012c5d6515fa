//! The bytes of the toy's keys.

ghost use Rattle.std.specs.Prelude.{◌≡◌, ◌%◌, length};
ghost use Rattle.qc_toy.specs.KeyBytes.{level_byte, sender_byte, usage_byte, key_bytes, sum_of_fifths, initial_secret};

use qc_base::Side;

/// What a key is for.
#[derive(Clone, Copy, Debug, PartialEq, Eq)]
pub enum Level {
    /// The Initial space.
    Initial,
    /// The Handshake space.
    Handshake,
    /// The 1-RTT packets of the Data space.
    Data,
    /// Its 0-RTT packets.
    Early,
}

/// Whether a key seals packets or masks headers.
#[derive(Clone, Copy, Debug, PartialEq, Eq)]
pub(crate) enum Usage {
    Packet,
    Header,
}

fn level_number(level: Level) -> u8
    ensures { result ≡ level_byte level }
{
    match level {
        Level::Initial => 0,
        Level::Handshake => 1,
        Level::Data => 2,
        Level::Early => 3,
    }
}

fn sender_number(sender: Side) -> u8
    ensures { result ≡ sender_byte sender }
{
    match sender {
        Side::Client => 0,
        Side::Server => 1,
    }
}

fn usage_number(usage: Usage) -> u8
    ensures { result ≡ usage_byte usage }
{
    match usage {
        Usage::Packet => 0,
        Usage::Header => 1,
    }
}

/// The 16 bytes of a key.
#[tactic(auto, unfolding(crate::specs::KeyBytes::key_bytes))]
pub(crate) fn bytes_of_key(
    secret: [u8; 5],
    level: Level,
    sender: Side,
    usage: Usage,
    epoch: u64,
) -> [u8; 16]
    ensures { result ≡ key_bytes secret level sender usage epoch }
{
    let [a, b, c, d, e] = secret;
    let [s, t, u, v, w, x, y, z] = epoch.to_be_bytes();
    [
        a,
        b,
        c,
        d,
        e,
        level_number(level),
        sender_number(sender),
        usage_number(usage),
        s,
        t,
        u,
        v,
        w,
        x,
        y,
        z,
    ]
}

// One byte of the Initial secret.
#[tactic(auto, using(crate::proofs::CipherLemmas::fifths_more))]
fn fifths(id: &[u8], i: usize) -> u8
    ensures { result ≡ sum_of_fifths i 0 id.now % 256 }
{
    let mut sum = 0u8;
    for (j, b) in id.iter().enumerate() {
        if j % 5 == i {
            sum = sum.wrapping_add(*b);
        }
    }
    sum
}

/// The secret of the Initial keys for this destination id.
#[tactic(auto, unfolding(crate::specs::KeyBytes::initial_secret))]
pub fn secret_of_id(id: &[u8]) -> [u8; 5]
    ensures { result ≡ initial_secret id.now }
{
    [
        fifths(id, 0),
        fifths(id, 1),
        fifths(id, 2),
        fifths(id, 3),
        fifths(id, 4),
    ]
}
