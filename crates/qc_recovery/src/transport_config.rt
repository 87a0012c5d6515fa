ghost use Rattle.std.specs.Prelude.{◌≡◌, ◌<◌, ◌≤◌, Some, None, min, max};

use crate::{IdleTimeout, MtuDiscoveryConfig};
use qc_base::{Duration, VarInt};
use std::default::Default;
use std::marker::Model;

/// The settings of a connection that both clients and servers have.
#[derive(Debug, Drop)]
pub struct TransportConfig {
    max_concurrent_bidi_streams: VarInt,
    max_concurrent_uni_streams: VarInt,
    stream_receive_window: VarInt,
    receive_window: VarInt,
    send_window: u64,
    max_idle_timeout: Option<IdleTimeout>,
    initial_rtt: Duration,
    initial_mtu: u16,
    min_mtu: u16,
    packet_threshold: u32,
    time_threshold: (u32, u32),
    persistent_congestion_threshold: u32,
    mtu_discovery_config: Option<MtuDiscoveryConfig>,
    keep_alive_interval: Option<Duration>,
    crypto_buffer_size: usize,
    datagram_send_buffer_size: usize,
    datagram_receive_buffer_size: Option<usize>,
    send_fairness: bool,
    pad_to_mtu: bool,
    allow_spin: bool,
    enable_segmentation_offload: bool,
}

impl Model for TransportConfig {
    ghost use Rattle.qc_recovery.specs.TransportValues.{TransportValues};

    ghost Value = { TransportValues };

    ghost use Rattle.qc_recovery.specs.TransportConfig.{transport_values, AreInRange};

    ghost view = { transport_values };

    ghost invariant = { AreInRange };
}

impl Default for TransportConfig {
    ghost use Rattle.std.specs.Prelude.{◌≡◌};
    ghost use Rattle.qc_recovery.specs.TransportValues.{default_transport};

    ghost is_default = { λ config. config ≡ default_transport };

    /// 100 streams of each kind, windows of 1,250,000 bytes for each stream and 10,000,000 to send,
    /// an idle timeout of 30 s, and what RFC 9002 advises.
    fn default() -> Self {
        TransportConfig {
            max_concurrent_bidi_streams: VarInt::from_u32(100),
            max_concurrent_uni_streams: VarInt::from_u32(100),
            stream_receive_window: VarInt::from_u32(1_250_000),
            receive_window: VarInt::MAX,
            send_window: 10_000_000,
            max_idle_timeout: Some(IdleTimeout::from(VarInt::from_u32(30_000))),
            initial_rtt: Duration::from_nanos(333_000_000),
            initial_mtu: 1200,
            min_mtu: 1200,
            packet_threshold: 3,
            time_threshold: (9, 8),
            persistent_congestion_threshold: 3,
            mtu_discovery_config: Some(MtuDiscoveryConfig::default()),
            keep_alive_interval: None,
            crypto_buffer_size: 16384,
            datagram_send_buffer_size: 1_048_576,
            datagram_receive_buffer_size: Some(1_250_000),
            send_fairness: true,
            pad_to_mtu: false,
            allow_spin: true,
            enable_segmentation_offload: true,
        }
    }
}

/// Each setter keeps all other values, and each value has a reading call of the name `get_..`.
impl TransportConfig {
    /// Sets how many bidirectional streams the other end may have open at once.
    pub fn max_concurrent_bidi_streams(&mut self, value: VarInt) -> &mut Self
        ensures same { result.ghost_name ≡ self.entry.ghost_name }
        ensures set { result.now ≡ record self.old { max_concurrent_bidi_streams = value } }
    {
        self.max_concurrent_bidi_streams = value;
        self
    }

    /// How many bidirectional streams the other end may have open at once.
    pub fn get_max_concurrent_bidi_streams(&self) -> VarInt
        ensures { result ≡ self.now.max_concurrent_bidi_streams }
    {
        self.max_concurrent_bidi_streams
    }

    /// Sets how many unidirectional streams the other end may have open at once.
    pub fn max_concurrent_uni_streams(&mut self, value: VarInt) -> &mut Self
        ensures same { result.ghost_name ≡ self.entry.ghost_name }
        ensures set { result.now ≡ record self.old { max_concurrent_uni_streams = value } }
    {
        self.max_concurrent_uni_streams = value;
        self
    }

    /// How many unidirectional streams the other end may have open at once.
    pub fn get_max_concurrent_uni_streams(&self) -> VarInt
        ensures { result ≡ self.now.max_concurrent_uni_streams }
    {
        self.max_concurrent_uni_streams
    }

    /// Sets how many bytes of one stream the other end may send before they are read.
    pub fn stream_receive_window(&mut self, value: VarInt) -> &mut Self
        ensures same { result.ghost_name ≡ self.entry.ghost_name }
        ensures set { result.now ≡ record self.old { stream_receive_window = value } }
    {
        self.stream_receive_window = value;
        self
    }

    /// How many bytes of one stream the other end may send before they are read.
    pub fn get_stream_receive_window(&self) -> VarInt
        ensures { result ≡ self.now.stream_receive_window }
    {
        self.stream_receive_window
    }

    /// Sets how many bytes of all streams together the other end may send before they are read.
    pub fn receive_window(&mut self, value: VarInt) -> &mut Self
        ensures same { result.ghost_name ≡ self.entry.ghost_name }
        ensures set { result.now ≡ record self.old { receive_window = value } }
    {
        self.receive_window = value;
        self
    }

    /// How many bytes of all streams together the other end may send before they are read.
    pub fn get_receive_window(&self) -> VarInt
        ensures { result ≡ self.now.receive_window }
    {
        self.receive_window
    }

    /// Sets how many bytes that the other end hasn't acknowledged are kept of all streams together.
    pub fn send_window(&mut self, value: u64) -> &mut Self
        ensures same { result.ghost_name ≡ self.entry.ghost_name }
        ensures set { result.now ≡ record self.old { send_window = value } }
    {
        self.send_window = value;
        self
    }

    /// How many bytes that the other end hasn't acknowledged are kept of all streams together.
    pub fn get_send_window(&self) -> u64
        ensures { result ≡ self.now.send_window }
    {
        self.send_window
    }

    /// Sets the time without a packet after which the connection ends (RFC 9000, section 10.1); `None` or
    /// zero: this end names none.
    pub fn max_idle_timeout(&mut self, value: Option<IdleTimeout>) -> &mut Self
        ensures same { result.ghost_name ≡ self.entry.ghost_name }
        ensures set { result.now ≡ record self.old { max_idle_timeout = value } }
    {
        self.max_idle_timeout = value;
        self
    }

    /// The time without a packet after which the connection ends (RFC 9000, section 10.1); `None` or
    /// zero: this end names none.
    pub fn get_max_idle_timeout(&self) -> Option<IdleTimeout>
        ensures { result ≡ self.now.max_idle_timeout }
    {
        self.max_idle_timeout
    }

    /// Sets the round trip time that is assumed before one is measured (RFC 9002, section 6.2.2).
    pub fn initial_rtt(&mut self, value: Duration) -> &mut Self
        ensures same { result.ghost_name ≡ self.entry.ghost_name }
        ensures set { result.now ≡ record self.old { initial_rtt = value } }
    {
        self.initial_rtt = value;
        self
    }

    /// The round trip time that is assumed before one is measured (RFC 9002, section 6.2.2).
    pub fn get_initial_rtt(&self) -> Duration
        ensures { result ≡ self.now.initial_rtt }
    {
        self.initial_rtt
    }

    /// Sets the size in bytes of a UDP payload that is sent before a larger one is known to pass; it is held
    /// between 1200 and 16383 (RFC 9000, section 14).
    pub fn initial_mtu(&mut self, value: u16) -> &mut Self
        ensures same { result.ghost_name ≡ self.entry.ghost_name }
        ensures set { result.now ≡ record self.old { initial_mtu = max 1200 (min value 16383) } }
    {
        self.initial_mtu = value.min(16383).max(1200);
        self
    }

    /// The size in bytes of a UDP payload that is sent before a larger one is known to pass; it is held
    /// between 1200 and 16383 (RFC 9000, section 14).
    pub fn get_initial_mtu(&self) -> u16
        ensures value { result ≡ self.now.initial_mtu }
        ensures least { 1200 ≤ result }
        ensures most { result ≤ 16383 }
    {
        self.initial_mtu
    }

    /// Sets the size in bytes of a UDP payload that the path takes for certain; it is held between 1200 and
    /// 16383 (RFC 9000, section 14).
    pub fn min_mtu(&mut self, value: u16) -> &mut Self
        ensures same { result.ghost_name ≡ self.entry.ghost_name }
        ensures set { result.now ≡ record self.old { min_mtu = max 1200 (min value 16383) } }
    {
        self.min_mtu = value.min(16383).max(1200);
        self
    }

    /// The size in bytes of a UDP payload that the path takes for certain; it is held between 1200 and
    /// 16383 (RFC 9000, section 14).
    pub fn get_min_mtu(&self) -> u16
        ensures value { result ≡ self.now.min_mtu }
        ensures least { 1200 ≤ result }
        ensures most { result ≤ 16383 }
    {
        self.min_mtu
    }

    /// Sets how many numbers below an acknowledged packet another one counts as lost (RFC 9002, section
    /// 6.1.1).
    pub fn packet_threshold(&mut self, value: u32) -> &mut Self
        ensures same { result.ghost_name ≡ self.entry.ghost_name }
        ensures set { result.now ≡ record self.old { packet_threshold = value } }
    {
        self.packet_threshold = value;
        self
    }

    /// How many numbers below an acknowledged packet another one counts as lost (RFC 9002, section
    /// 6.1.1).
    pub fn get_packet_threshold(&self) -> u32
        ensures { result ≡ self.now.packet_threshold }
    {
        self.packet_threshold
    }

    /// Sets the part `num` / `den` of a round trip after which a packet counts as lost (RFC 9002,
    /// section 6.1.2). A denominator of 0 counts as 1.
    pub fn time_threshold(&mut self, num: u32, den: u32) -> &mut Self
        ensures same { result.ghost_name ≡ self.entry.ghost_name }
        ensures set { result.now ≡ record self.old { time_threshold = (num, max den 1) } }
    {
        self.time_threshold = (num, den.max(1));
        self
    }

    /// The part of a round trip after which a packet counts as lost, its numerator first.
    pub fn get_time_threshold(&self) -> (u32, u32)
        ensures value { result ≡ self.now.time_threshold }
        ensures whole { 0 < result.1 }
    {
        self.time_threshold
    }

    /// Sets how many probe timeouts the packets of a persistent congestion span (RFC 9002, section 7.6).
    pub fn persistent_congestion_threshold(&mut self, value: u32) -> &mut Self
        ensures same { result.ghost_name ≡ self.entry.ghost_name }
        ensures set { result.now ≡ record self.old { persistent_congestion_threshold = value } }
    {
        self.persistent_congestion_threshold = value;
        self
    }

    /// How many probe timeouts the packets of a persistent congestion span (RFC 9002, section 7.6).
    pub fn get_persistent_congestion_threshold(&self) -> u32
        ensures { result ≡ self.now.persistent_congestion_threshold }
    {
        self.persistent_congestion_threshold
    }

    /// Sets how a larger datagram size is looked for; `None`: not at all.
    /// No datagram has more than 16383 bytes, whatever is asked for.
    pub fn mtu_discovery_config(&mut self, value: Option<MtuDiscoveryConfig>) -> &mut Self
        ensures same { result.ghost_name ≡ self.entry.ghost_name }
        ensures set { result.now ≡ record self.old { mtu_discovery_config = value } }
    {
        self.mtu_discovery_config = value;
        self
    }

    /// How a larger datagram size is looked for; `None`: not at all.
    pub fn get_mtu_discovery_config(&self) -> &Option<MtuDiscoveryConfig>
        ensures { result.now ≡ self.now.mtu_discovery_config }
    {
        &self.mtu_discovery_config
    }

    /// Sets the time after which a PING keeps a silent connection open; `None`: never.
    /// It has no effect yet: no PING is sent to keep a connection alive.
    pub fn keep_alive_interval(&mut self, value: Option<Duration>) -> &mut Self
        ensures same { result.ghost_name ≡ self.entry.ghost_name }
        ensures set { result.now ≡ record self.old { keep_alive_interval = value } }
    {
        self.keep_alive_interval = value;
        self
    }

    /// The time after which a PING keeps a silent connection open; `None`: never.
    pub fn get_keep_alive_interval(&self) -> Option<Duration>
        ensures { result ≡ self.now.keep_alive_interval }
    {
        self.keep_alive_interval
    }

    /// Sets how many bytes of handshake messages are kept that came out of order (RFC 9000, section 7.5).
    pub fn crypto_buffer_size(&mut self, value: usize) -> &mut Self
        ensures same { result.ghost_name ≡ self.entry.ghost_name }
        ensures set { result.now ≡ record self.old { crypto_buffer_size = value } }
    {
        self.crypto_buffer_size = value;
        self
    }

    /// How many bytes of handshake messages are kept that came out of order (RFC 9000, section 7.5).
    pub fn get_crypto_buffer_size(&self) -> usize
        ensures { result ≡ self.now.crypto_buffer_size }
    {
        self.crypto_buffer_size
    }

    /// Sets how many bytes of DATAGRAM frames wait to be sent (RFC 9221).
    pub fn datagram_send_buffer_size(&mut self, value: usize) -> &mut Self
        ensures same { result.ghost_name ≡ self.entry.ghost_name }
        ensures set { result.now ≡ record self.old { datagram_send_buffer_size = value } }
    {
        self.datagram_send_buffer_size = value;
        self
    }

    /// How many bytes of DATAGRAM frames wait to be sent (RFC 9221).
    pub fn get_datagram_send_buffer_size(&self) -> usize
        ensures { result ≡ self.now.datagram_send_buffer_size }
    {
        self.datagram_send_buffer_size
    }

    /// Sets how many bytes of DATAGRAM frames wait to be read (RFC 9221); `None`: this end takes none.
    pub fn datagram_receive_buffer_size(&mut self, value: Option<usize>) -> &mut Self
        ensures same { result.ghost_name ≡ self.entry.ghost_name }
        ensures set { result.now ≡ record self.old { datagram_receive_buffer_size = value } }
    {
        self.datagram_receive_buffer_size = value;
        self
    }

    /// How many bytes of DATAGRAM frames wait to be read (RFC 9221); `None`: this end takes none.
    pub fn get_datagram_receive_buffer_size(&self) -> Option<usize>
        ensures { result ≡ self.now.datagram_receive_buffer_size }
    {
        self.datagram_receive_buffer_size
    }

    /// Sets whether streams of one priority are sent in turn.
    pub fn send_fairness(&mut self, value: bool) -> &mut Self
        ensures same { result.ghost_name ≡ self.entry.ghost_name }
        ensures set { result.now ≡ record self.old { send_fairness = value } }
    {
        self.send_fairness = value;
        self
    }

    /// Whether streams of one priority are sent in turn.
    pub fn get_send_fairness(&self) -> bool
        ensures { result ≡ self.now.send_fairness }
    {
        self.send_fairness
    }

    /// Sets whether each datagram with a packet of the Data space is padded to the path's size, or to that of the first one of its
    /// transmit.
    pub fn pad_to_mtu(&mut self, value: bool) -> &mut Self
        ensures same { result.ghost_name ≡ self.entry.ghost_name }
        ensures set { result.now ≡ record self.old { pad_to_mtu = value } }
    {
        self.pad_to_mtu = value;
        self
    }

    /// Whether each datagram with a packet of the Data space is padded.
    pub fn get_pad_to_mtu(&self) -> bool
        ensures { result ≡ self.now.pad_to_mtu }
    {
        self.pad_to_mtu
    }

    /// Sets whether the latency spin bit may be used (RFC 9000, section 17.4).
    pub fn allow_spin(&mut self, value: bool) -> &mut Self
        ensures same { result.ghost_name ≡ self.entry.ghost_name }
        ensures set { result.now ≡ record self.old { allow_spin = value } }
    {
        self.allow_spin = value;
        self
    }

    /// Whether the latency spin bit may be used (RFC 9000, section 17.4).
    pub fn get_allow_spin(&self) -> bool
        ensures { result ≡ self.now.allow_spin }
    {
        self.allow_spin
    }

    /// Sets whether one transmit may hold several datagrams of one size.
    /// Where it is off, a transmit makes one datagram.
    pub fn enable_segmentation_offload(&mut self, value: bool) -> &mut Self
        ensures same { result.ghost_name ≡ self.entry.ghost_name }
        ensures set { result.now ≡ record self.old { enable_segmentation_offload = value } }
    {
        self.enable_segmentation_offload = value;
        self
    }

    /// Whether one transmit may hold several datagrams of one size.
    pub fn get_enable_segmentation_offload(&self) -> bool
        ensures { result ≡ self.now.enable_segmentation_offload }
    {
        self.enable_segmentation_offload
    }
}
