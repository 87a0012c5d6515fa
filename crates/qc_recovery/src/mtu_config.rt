ghost use Rattle.std.specs.Prelude.{◌≡◌, ◌≤◌, min};

use qc_base::Duration;
use std::default::Default;
use std::marker::Model;

/// How a connection looks for a larger datagram size that its path takes (RFC 8899; RFC 9000,
/// section 14.3).
#[derive(Debug, Drop)]
pub struct MtuDiscoveryConfig {
    interval: Duration,
    upper_bound: u16,
    black_hole_cooldown: Duration,
    minimum_change: u16,
}

impl Model for MtuDiscoveryConfig {
    ghost use Rattle.qc_recovery.specs.TransportValues.{MtuDiscoveryValues};

    ghost Value = { MtuDiscoveryValues };

    ghost use Rattle.qc_recovery.specs.TransportConfig.{mtu_discovery_values, IsMtuBounded};

    ghost view = { mtu_discovery_values };

    ghost invariant = { IsMtuBounded };
}

impl Default for MtuDiscoveryConfig {
    ghost use Rattle.std.specs.Prelude.{◌≡◌};
    ghost use Rattle.qc_recovery.specs.TransportValues.{default_mtu_discovery};

    ghost is_default = { λ config. config ≡ default_mtu_discovery };

    /// A search up to 1452 bytes, in steps of at least 20, each 600 s, or 60 s after a black hole.
    fn default() -> Self {
        MtuDiscoveryConfig {
            interval: Duration::from_nanos(600_000_000_000),
            upper_bound: 1452,
            black_hole_cooldown: Duration::from_nanos(60_000_000_000),
            minimum_change: 20,
        }
    }
}

impl MtuDiscoveryConfig {
    /// Sets the time from the end of one search to the start of the next.
    pub fn interval(&mut self, value: Duration) -> &mut Self
        ensures same { result.ghost_name ≡ self.entry.ghost_name }
        ensures set { result.now ≡ record self.old { interval = value } }
    {
        self.interval = value;
        self
    }

    /// The time from the end of one search to the start of the next.
    pub fn get_interval(&self) -> Duration
        ensures { result ≡ self.now.interval }
    {
        self.interval
    }

    /// Sets the greatest size in bytes of a UDP payload that is tried; at most 65527 is stored, the
    /// greatest payload that there is.
    pub fn upper_bound(&mut self, value: u16) -> &mut Self
        ensures same { result.ghost_name ≡ self.entry.ghost_name }
        ensures set { result.now ≡ record self.old { upper_bound = min value 65527 } }
    {
        self.upper_bound = value.min(65527);
        self
    }

    /// The greatest size in bytes of a UDP payload that is tried.
    pub fn get_upper_bound(&self) -> u16
        ensures value { result ≡ self.now.upper_bound }
        ensures bound { result ≤ 65527 }
    {
        self.upper_bound
    }

    /// Sets how long no larger size is tried after a black hole: a path that lost the packets larger
    /// than the least size.
    pub fn black_hole_cooldown(&mut self, value: Duration) -> &mut Self
        ensures same { result.ghost_name ≡ self.entry.ghost_name }
        ensures set { result.now ≡ record self.old { black_hole_cooldown = value } }
    {
        self.black_hole_cooldown = value;
        self
    }

    /// How long no larger size is tried after a black hole.
    pub fn get_black_hole_cooldown(&self) -> Duration
        ensures { result ≡ self.now.black_hole_cooldown }
    {
        self.black_hole_cooldown
    }

    /// Sets the difference in bytes below which the search ends.
    pub fn minimum_change(&mut self, value: u16) -> &mut Self
        ensures same { result.ghost_name ≡ self.entry.ghost_name }
        ensures set { result.now ≡ record self.old { minimum_change = value } }
    {
        self.minimum_change = value;
        self
    }

    /// The difference in bytes below which the search ends.
    pub fn get_minimum_change(&self) -> u16
        ensures { result ≡ self.now.minimum_change }
    {
        self.minimum_change
    }
}
