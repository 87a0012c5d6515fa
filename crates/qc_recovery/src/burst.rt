//! Bursts of lost packets, by which a path that lost its datagram size is found (RFC 8899, section
//! 4.3).

ghost use Rattle.std.specs.Prelude.{◌≡◌, ◌+◌, ◌==◌, ◌&&◌};
ghost use Rattle.qc_recovery.specs.Losses.{burst_begun, burst_ended, burst_with, is_data, is_in_burst};

use crate::losses::{in_data, probes};
use qc_base::SpaceId;
use qc_flight::SentPacket;
use qc_path::MtuDiscovery;

/// Lost packets with consecutive numbers.
#[derive(Clone, Copy, Debug)]
pub struct Burst {
    /// The smallest size of one.
    pub smallest: u64,
    /// The greatest number.
    pub last: u64,
}

/// Whether a lost packet belongs to a burst.
pub(crate) fn is_burst_packet(
    space: SpaceId,
    mtud: &MtuDiscovery,
    entry: &(u64, SentPacket),
) -> bool
    ensures { result ≡ is_in_burst space mtud.now entry.now }
{
    in_data(space) && !probes(space, mtud, entry)
}

fn begun(packet: u64, size: u64) -> Burst
    ensures { result ≡ burst_begun packet size }
{
    Burst {
        smallest: size,
        last: packet,
    }
}

fn is_next(before: u64, number: u64) -> bool
    ensures { result ≡ (number == before + 1) }
{
    before < number && number - before == 1
}

/// The burst that ends before a lost packet with this number, if one does.
pub(crate) fn ended_by(burst: Option<Burst>, number: u64) -> Option<Burst>
    ensures { result ≡ burst_ended burst number }
{
    match burst {
        None => None,
        Some(burst) => {
            if is_next(burst.last, number) {
                None
            } else {
                Some(burst)
            }
        }
    }
}

/// The burst that a lost packet with this number and size goes on with, or that it begins.
pub(crate) fn with(burst: Option<Burst>, number: u64, size: u64) -> Burst
    ensures { result ≡ burst_with burst number size }
{
    match burst {
        None => begun(number, size),
        Some(burst) => {
            if is_next(burst.last, number) {
                Burst {
                    smallest: burst.smallest.min(size),
                    last: number,
                }
            } else {
                begun(number, size)
            }
        }
    }
}
