//! What a congestion controller is told, and what it answers (RFC 9002, section 7).

ghost use Rattle.std.specs.Prelude.{◌≡◌, ℕ, Bool, Option};
ghost use Rattle.qc_path.specs.RoundTrips.{Rtt};

use crate::RttEstimator;
use qc_base::Instant;

/// A congestion controller: it is told what was sent, acknowledged and lost, and answers how many
/// bytes may be in flight.
///
/// A controller's meaning is its own value. Each answer, and the controller after a call, is a
/// function of the controller before it and of the arguments. No call takes memory.
pub trait Controller: Drop {
    // What the calls below leave of a controller.
    ghost after_sent: { Self → ℕ → ℕ → ℕ → Self };

    ghost after_ack: { Self → ℕ → ℕ → ℕ → Bool → Rtt → Self };

    ghost after_acks: { Self → ℕ → ℕ → Bool → Option ℕ → Self };

    ghost after_congestion: { Self → ℕ → ℕ → Bool → ℕ → Self };

    ghost after_resize: { Self → ℕ → Self };

    // How many bytes may be in flight.
    ghost window_of: { Self → ℕ };

    /// Packets of `bytes` bytes in all were sent at `now`, the last of them with this number.
    fn on_sent(&mut self, now: Instant, bytes: u64, last_packet_number: u64)
        ensures { self.new ≡ after_sent self.old now bytes last_packet_number };

    /// A packet of `bytes` bytes that was sent at `sent` is acknowledged. `app_limited` says that
    /// the application, not the window, held sending back.
    fn on_ack(
        &mut self,
        now: Instant,
        sent: Instant,
        bytes: u64,
        app_limited: bool,
        rtt: &RttEstimator,
    )
        ensures { self.new ≡ after_ack self.old now sent bytes app_limited rtt.now };

    /// All packets that one ACK newly acknowledges were told. `in_flight` bytes are still in
    /// flight; `largest` is the greatest number that was ever acknowledged.
    fn on_end_acks(&mut self, now: Instant, in_flight: u64, app_limited: bool, largest: Option<u64>)
        ensures { self.new ≡ after_acks self.old now in_flight app_limited largest };

    /// Packets of `lost_bytes` bytes were lost, the greatest of them sent at `sent`, or the peer saw
    /// a mark of congestion (then no bytes were lost). `persistent` says that packets were lost for
    /// so long that the path is taken for a new one (RFC 9002, section 7.6).
    fn on_congestion_event(
        &mut self,
        now: Instant,
        sent: Instant,
        persistent: bool,
        lost_bytes: u64,
    )
        ensures { self.new ≡ after_congestion self.old now sent persistent lost_bytes };

    /// The path takes datagrams of another size.
    fn on_mtu_update(&mut self, new_mtu: u16)
        ensures { self.new ≡ after_resize self.old new_mtu };

    /// How many bytes may be in flight.
    fn window(&self) -> u64
        ensures { result ≡ window_of self.now };

    /// A controller with the same meaning.
    fn copy(&self) -> Self
        ensures { result ≡ self.now };
}

/// What makes a controller for a new path.
pub trait ControllerFactory {
    /// The controllers that it makes.
    type Controller: Controller;

    // The controller for a path that begins at a time, with datagrams of a size.
    ghost built: { Self → ℕ → ℕ → Self.Controller };

    /// A controller for a path that begins at `now` with datagrams of `current_mtu` bytes.
    fn build(&self, now: Instant, current_mtu: u16) -> Self::Controller
        ensures { result ≡ built self.now now current_mtu };
}
