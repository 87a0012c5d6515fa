//! Keys that mask the first byte and the number of a packet (RFC 9001, section 5.4).

ghost use Rattle.std.specs.Prelude.{◌≡◌, ◌+◌, ◌≤◌, length};
ghost use Rattle.qc_base.specs.Mask.{masked, unmasked};

use qc_base::HeaderMask;

/// A header key. Its mask is a function of 16 bytes of the packet, the sample.
pub trait HeaderKey: HeaderMask {
    /// Masks the header of a packet whose number begins at `pn_offset`. The sample is the 16 bytes
    /// from `pn_offset + 4` on (RFC 9001, section 5.4.2).
    fn encrypt(&self, pn_offset: usize, packet: &mut [u8])
        requires { pn_offset + 20 ≤ length packet.old }
        ensures { packet.new ≡ masked (Self.mask_of self.now) pn_offset packet.old };

    /// Takes the mask off again: the number's length is read in the unmasked first byte.
    fn decrypt(&self, pn_offset: usize, packet: &mut [u8])
        requires { pn_offset + 20 ≤ length packet.old }
        ensures { packet.new ≡ unmasked (Self.mask_of self.now) pn_offset packet.old };

    /// How many bytes the sample has: 16.
    fn sample_size(&self) -> usize
        ensures { result ≡ 16 };
}
