//! Appending to a vector, or leaving it as it was.

ghost use Rattle.std.specs.Prelude.{◌≡◌, take, OnOk, OnErr};

use std::alloc::AllocError;

/// What a call that appended to `out` answered, where `out` had `len` items before it: after want
/// of memory `out` is cut back to these.
pub fn or_cut_back<T: Drop>(
    appended: Result<(), AllocError>,
    out: &mut Vec<T>,
    len: usize,
) -> Result<(), AllocError>
    ensures answer { result ≡ appended }
    ensures ok { OnOk result (out.new.items ≡ out.old.items) }
    ensures err { OnErr result (out.new.items ≡ take len out.old.items) }
{
    if appended.is_err() {
        out.truncate(len);
    }
    appended
}
