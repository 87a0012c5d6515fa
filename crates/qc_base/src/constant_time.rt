//! Comparing secrets.

ghost use Rattle.std.specs.Prelude.{◌≡◌, ◌↔◌, IsTrue};

/// Whether the two have the same bytes. Equal lengths given, it looks at every byte whatever the
/// bytes are; nothing is proved of the time that it takes.
pub fn eq(a: &[u8], b: &[u8]) -> bool
    ensures { IsTrue result ↔ (a.now ≡ b.now) }
{
    if a.len() != b.len() {
        return false;
    }
    let mut different = 0u8;
    for i in 0..a.len() {
        different |= a[i] ^ b[i];
    }
    different == 0
}
