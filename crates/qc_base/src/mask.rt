//! Header protection (RFC 9001, section 5.4): the mask over a packet's first byte and number.

ghost use Rattle.std.specs.Prelude.{◌≡◌, ◌+◌, ◌≤◌, List, ℕ, length, drop};
ghost use Rattle.qc_base.specs.Mask.{masked, unmasked, masked_by, unmasked_by, sample_at, first_over, mask_over};

/// What makes the mask of a packet out of a sample of its sealed bytes (RFC 9001, section 5.4.1).
pub trait HeaderMask: Drop {
    ghost mask_of: { Self → List ℕ → List ℕ };

    /// The mask for this sample of 16 bytes: a byte for the first byte, and 4 for the number.
    fn mask(&self, sample: &[u8]) -> [u8; 5]
        requires { length sample.now ≡ 16 }
        ensures { result ≡ mask_of self.now sample.now };
}

/// The sample of a packet whose number begins at `pn_offset`: the 16 bytes from 4 bytes after that
/// on (RFC 9001, section 5.4.2).
#[tactic(auto, unfolding(crate::specs::Mask::sample_at))]
pub fn sample(packet: &[u8], pn_offset: usize) -> &[u8]
    requires { pn_offset + 20 ≤ length packet.now }
    ensures value { result.now ≡ sample_at pn_offset packet.now }
    ensures size { length result.now ≡ 16 }
{
    let (_, from_sample) = packet.split_at(pn_offset + 4);
    let (sample, _) = from_sample.split_at(16);
    sample
}

/// Changes `bytes` by the bytes of `mask`, which are no more.
fn apply(bytes: &mut [u8], mask: &[u8])
    requires { length mask.now ≤ length bytes.old }
    ensures { bytes.new ≡ mask_over bytes.old mask.now }
{
    for i in 0..mask.len() {
        bytes[i] ^= mask[i];
    }
}

/// Changes the first byte of `packet`: the low 4 bits where it has a long header, else the low 5.
fn apply_first(packet: &mut [u8], mask: u8)
    requires { 1 ≤ length packet.old }
    ensures { packet.new ≡ first_over packet.old mask }
{
    if packet[0] < 0x80 {
        packet[0] ^= mask % 32;
    } else {
        packet[0] ^= mask % 16;
    }
}

/// Puts `mask` over a packet whose number begins at `pn_offset`.
#[tactic(auto, unfolding(crate::specs::Mask::masked_by))]
pub fn put_mask(packet: &mut [u8], pn_offset: usize, mask: &[u8; 5])
    requires { pn_offset + 4 ≤ length packet.old }
    ensures { packet.new ≡ masked_by pn_offset mask.now packet.old }
{
    let len = (packet[0] % 4 + 1) as usize;
    apply_first(packet, mask[0]);
    apply(&mut packet[pn_offset..], &mask[1..1 + len]);
}

/// Takes `mask` off a packet whose number begins at `pn_offset`.
#[tactic(auto, unfolding(crate::specs::Mask::unmasked_by))]
pub fn take_mask(packet: &mut [u8], pn_offset: usize, mask: &[u8; 5])
    requires { pn_offset + 4 ≤ length packet.old }
    ensures { packet.new ≡ unmasked_by pn_offset mask.now packet.old }
{
    apply_first(packet, mask[0]);
    let len = (packet[0] % 4 + 1) as usize;
    apply(&mut packet[pn_offset..], &mask[1..1 + len]);
}

/// Puts the mask that `key` makes over a packet whose number begins at `pn_offset`.
#[tactic(auto, unfolding(crate::specs::Mask::masked))]
pub fn mask_packet<H: HeaderMask>(key: &H, pn_offset: usize, packet: &mut [u8])
    requires { pn_offset + 20 ≤ length packet.old }
    ensures { packet.new ≡ masked (H.mask_of key.now) pn_offset packet.old }
{
    let mask = key.mask(sample(packet, pn_offset));
    put_mask(packet, pn_offset, &mask);
}

/// Takes the mask that `key` makes off a packet whose number begins at `pn_offset`.
#[tactic(auto, unfolding(crate::specs::Mask::unmasked))]
pub fn unmask_packet<H: HeaderMask>(key: &H, pn_offset: usize, packet: &mut [u8])
    requires { pn_offset + 20 ≤ length packet.old }
    ensures { packet.new ≡ unmasked (H.mask_of key.now) pn_offset packet.old }
{
    let mask = key.mask(sample(packet, pn_offset));
    take_mask(packet, pn_offset, &mask);
}

/// The mask that was put over a packet comes off again: its sample is not masked, and the first byte
/// tells the number's length once it is unmasked. (This does nothing; its clause is the law.)
pub fn mask_comes_off()
    ensures { (mask_of : List ℕ → List ℕ) (pn_offset : ℕ) (packet : List ℕ)
        → 1 ≤ pn_offset → pn_offset ≤ length packet
        → unmasked mask_of pn_offset (masked mask_of pn_offset packet) ≡ packet }
{}
