//! Worked examples of header protection (RFC 9001, appendix A).

ghost use Rattle.std.specs.Prelude.{ℕ, List, ◌∷◌, [], take};

use qc_base::{HeaderMask, mask_packet, put_mask, sample, take_mask, unmask_packet};

// Its mask is the first bytes of the sample.
#[derive(Clone, Copy)]
struct SampleMask;

impl HeaderMask for SampleMask {
    ghost mask_of = { λ key sample. take 5 sample };

    fn mask(&self, sample: &[u8]) -> [u8; 5] {
        [sample[0], sample[1], sample[2], sample[3], sample[4]]
    }
}

// RFC 9001, appendix A.2: the first byte and the number of the client's Initial, and their mask.
#[test]
fn long_header_masked(rt: HostRuntime) {
    let plain = b"\xc3\x00\x00\x00\x02";
    let mask = [0x43, 0x7b, 0x9a, 0xec, 0x36];
    let mut packet = *plain;
    put_mask(&mut packet, 1, &mask);
    assert_eq!(rt; packet.as_slice(), b"\xc0\x7b\x9a\xec\x34".as_slice());
    take_mask(&mut packet, 1, &mask);
    assert_eq!(rt; packet.as_slice(), plain.as_slice());
}

// RFC 9001, appendix A.5: the first byte and the number of a short header, and their mask, which here
// the sample begins with.
#[test]
fn short_header_masked(rt: HostRuntime) {
    let plain = b"\x42\x00\xbf\xf4\x65\xae\xfe\xfe\x7d\x03abcdefghijk";
    let masked = b"\x4c\xfe\x41\x89\x65\xae\xfe\xfe\x7d\x03abcdefghijk";
    let mut packet = *plain;
    assert_eq!(rt;
        sample(&packet, 1),
        b"\xae\xfe\xfe\x7d\x03abcdefghijk".as_slice()
    );
    mask_packet(&SampleMask, 1, &mut packet);
    assert_eq!(rt; packet.as_slice(), masked.as_slice());
    unmask_packet(&SampleMask, 1, &mut packet);
    assert_eq!(rt; packet.as_slice(), plain.as_slice());
}
