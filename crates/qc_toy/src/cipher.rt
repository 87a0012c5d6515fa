//! The toy's arithmetic over slices, in place.

ghost use Rattle.std.specs.Prelude.{◌≡◌, ◌+◌, ◌-◌, ◌%◌, ◌≤◌, ◌∷◌, ◌++◌, true, false, length, take};
ghost use Rattle.qc_crypto.specs.Sealing.{sealed_in_place};
ghost use Rattle.qc_toy.specs.Cipher.{xored, weight, checksum, number_bytes, tag, toy_seal, tag_fits, plain_of, toy_mask};

// Xors each byte with a byte of the key, these in turn.
fn xor_few(bytes: &mut [u8], key: &[u8; 16])
    ensures { bytes.new ≡ xored key.now 0 bytes.old }
{
    for i in 0..bytes.len() {
        bytes[i] ^= key[i % 16];
    }
}

// The same of as many bytes as the key has, which a processor does at once.
fn xor_block(bytes: &mut [u8], key: &[u8; 16])
    requires { length bytes.old ≡ 16 }
    ensures { bytes.new ≡ xored key.now 0 bytes.old }
{
    for i in 0..16 {
        bytes[i] ^= key[i];
    }
}

/// Xors each byte with a byte of the key, these in turn.
pub(crate) fn xor_with(bytes: &mut [u8], key: &[u8; 16])
    ensures { bytes.new ≡ xored key.now 0 bytes.old }
{
    let blocks = bytes.len() / 16;
    for i in 0..blocks {
        xor_block(&mut bytes[16 * i..16 * i + 16], key);
    }
    xor_few(&mut bytes[16 * blocks..], key);
}

// The sum of each byte times its place, the first having place `start` + 1.
fn weigh(bytes: &[u8], start: usize) -> u8
    ensures { result ≡ weight start bytes.now % 256 }
{
    let mut sum = 0u16;
    let mut place = (start % 256) as u16;
    for b in bytes {
        place = place.wrapping_add(1);
        sum = sum.wrapping_add(place.wrapping_mul(*b as u16));
    }
    (sum % 256) as u8
}

/// The checksum of a number, a header and plain bytes.
#[tactic(auto, unfolding(crate::specs::Cipher::checksum))]
pub(crate) fn checksum_of(number: u64, header: &[u8], plain: &[u8]) -> u8
    ensures { result ≡ checksum number header.now plain.now }
{
    let header_weight = weigh(header, 0);
    let plain_weight = weigh(plain, header.len());
    header_weight
        .wrapping_add(plain_weight)
        .wrapping_add((number % 256) as u8)
}

// The bytes of a number that stand in a tag.
#[tactic(auto, unfolding(crate::specs::Cipher::number_bytes))]
fn bytes_of_number(number: u64) -> [u8; 16]
    ensures { result ≡ number_bytes number }
{
    let [_, b, c, d, e, f, g, h] = number.to_le_bytes();
    [0, b, c, d, e, f, g, h, 0, 0, 0, 0, 0, 0, 0, 0]
}

/// The tag of a checksum and a number.
#[tactic(auto, unfolding(crate::specs::Cipher::tag))]
pub(crate) fn tag_of(key: &[u8; 16], t: u8, number: u64) -> [u8; 16]
    ensures { result ≡ tag key.now t number }
{
    let numbers = bytes_of_number(number);
    let mut tag = [0; 16];
    for i in 0..16 {
        let turn = t.wrapping_mul(i as u8 + 1);
        tag[i] = key[i].wrapping_add(turn).wrapping_add(numbers[i]);
    }
    tag
}

/// Seals plain bytes in place, which 16 bytes of room for the tag follow.
#[tactic(auto, unfolding(crate::specs::Cipher::toy_seal))]
pub(crate) fn seal_bytes(key: &[u8; 16], number: u64, header: &[u8], bytes: &mut [u8])
    requires { 16 ≤ length bytes.old }
    ensures { bytes.new ≡ toy_seal key.now number header.now (take (length bytes.old - 16) bytes.old) }
{
    let plain_len = bytes.len() - 16;
    let (plain, room) = bytes.split_at_mut(plain_len);
    let t = checksum_of(number, header, plain);
    xor_with(plain, key);
    room.copy_from_slice(&tag_of(key, t, number));
}

/// Seals in place what follows the header: the plain bytes, and 16 bytes of room for the tag.
#[tactic(auto, unfolding(qc_crypto::specs::Sealing::sealed_in_place))]
pub(crate) fn seal_in_place(key: &[u8; 16], number: u64, buf: &mut [u8], header_len: usize)
    requires { header_len + 16 ≤ length buf.old }
    ensures { buf.new ≡ sealed_in_place (toy_seal key.now) number buf.old header_len }
{
    let (header, rest) = buf.split_at_mut(header_len);
    seal_bytes(key, number, header, rest);
}

/// Opens in place: answers whether the tag fits. Where it does, the plain bytes stand at the front.
pub(crate) fn open_in_place(key: &[u8; 16], number: u64, header: &[u8], sealed: &mut [u8]) -> bool
    requires { 16 ≤ length sealed.old }
    ensures fits { result ≡ tag_fits key.now number header.now sealed.old }
    ensures plain { result ≡ true → take (length sealed.old - 16) sealed.new ≡ plain_of key.now sealed.old }
    ensures unchanged { result ≡ false → sealed.new ≡ sealed.old }
{
    let plain_len = sealed.len() - 16;
    let (body, tag) = sealed.split_at_mut(plain_len);
    xor_with(body, key);
    let t = checksum_of(number, header, body);
    if &*tag == tag_of(key, t, number).as_slice() {
        return true;
    }
    xor_with(body, key);
    false
}

/// The mask of a sample.
#[tactic(auto, unfolding(crate::specs::Cipher::toy_mask))]
pub(crate) fn mask_of_sample(key: &[u8; 16], sample: &[u8]) -> [u8; 5]
    requires { length sample.now ≡ 16 }
    ensures { result ≡ toy_mask key.now sample.now }
{
    [
        key[0] ^ sample[0],
        key[1] ^ sample[1],
        key[2] ^ sample[2],
        key[3] ^ sample[3],
        key[4] ^ sample[4],
    ]
}

/// The checksum of an id with its length, and of a packet in two parts, with number 0.
#[tactic(auto, using(crate::proofs::CipherLemmas::checksum_parts))]
pub(crate) fn checksum_of_parts(id: &[u8], header: &[u8], token: &[u8]) -> u8
    requires { length id.now ≤ 20 }
    ensures { result ≡ checksum 0 (length id.now ∷ id.now) (header.now ++ token.now) }
{
    let start = id.len() + 1;
    let id_weight = weigh(id, 1).wrapping_add(id.len() as u8);
    let header_weight = weigh(header, start);
    let token_weight = weigh(token, start.wrapping_add(header.len()));
    id_weight
        .wrapping_add(header_weight)
        .wrapping_add(token_weight)
}
