//! Bytes of a known count.

ghost use Rattle.std.specs.Prelude.{◌≡◌, length};

pub(crate) fn sixteen(bytes: &[u8]) -> [u8; 16]
    requires { length bytes.now ≡ 16 }
    ensures { result ≡ bytes.now }
{
    let mut octets = [0; 16];
    octets.copy_from_slice(bytes);
    octets
}

pub(crate) fn four(bytes: &[u8]) -> [u8; 4]
    requires { length bytes.now ≡ 4 }
    ensures { result ≡ bytes.now }
{
    let mut octets = [0; 4];
    octets.copy_from_slice(bytes);
    octets
}
