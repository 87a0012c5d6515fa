//! How long a datagram may be.

ghost use Rattle.std.specs.Prelude.{◌≡◌};
ghost use Rattle.qc_datagrams.specs.Size.{max_size};

/// A short header without its connection id: the first byte, and a packet number of at most 4
/// bytes (RFC 9000, section 17.3.1).
const HEADER: u64 = 1 + 4;

/// A packet's tag (RFC 9001, section 5.3).
const TAG: u64 = 16;

/// The type and the length of a DATAGRAM frame, at most (RFC 9221, section 4).
const FRAME_HEAD: u64 = 9;

/// How many bytes a datagram may have at most: with its frame's head it fits into a 1-RTT packet of
/// `mtu` bytes, to a connection id of `cid_len` bytes, and into the peer's `max_datagram_frame_size`
/// (RFC 9221, section 3). None exactly where the peer announced none.
#[tactic(auto, unfolding(crate::specs::Size::max_size))]
pub fn max_size(mtu: u64, cid_len: usize, max_datagram_frame_size: Option<u64>) -> Option<u64>
    ensures { result ≡ max_size mtu cid_len max_datagram_frame_size }
{
    let frame = max_datagram_frame_size?;
    let packet = mtu.saturating_sub(HEADER + TAG + FRAME_HEAD);
    Some(
        packet
            .saturating_sub(cid_len as u64)
            .min(frame.saturating_sub(FRAME_HEAD)),
    )
}
