/// How far below an acknowledged packet, and after what part of a round trip, another one is lost,
/// and how many probe timeouts a persistent congestion spans (RFC 9002, sections 6.1 and 7.6).
#[derive(Clone, Copy, Debug)]
pub struct Limits {
    /// The difference of numbers.
    pub packet_threshold: u64,
    /// The numerator of the part of a round trip.
    pub time_numerator: u64,
    /// Its denominator; 0 counts as 1.
    pub time_denominator: u64,
    /// The number of probe timeouts.
    pub persistent: u64,
}
