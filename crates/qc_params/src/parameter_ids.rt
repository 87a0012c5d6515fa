//! The ids of the parameters that are known here (RFC 9000, section 18.2; 0x20 is RFC 9221,
//! section 3; 0x2ab2 is RFC 9287, section 3).

pub(crate) const ORIGINAL_DST_CID: u64 = 0x00;

pub(crate) const MAX_IDLE_TIMEOUT: u64 = 0x01;

pub(crate) const STATELESS_RESET_TOKEN: u64 = 0x02;

pub(crate) const MAX_UDP_PAYLOAD_SIZE: u64 = 0x03;

pub(crate) const INITIAL_MAX_DATA: u64 = 0x04;

pub(crate) const INITIAL_MAX_STREAM_DATA_BIDI_LOCAL: u64 = 0x05;

pub(crate) const INITIAL_MAX_STREAM_DATA_BIDI_REMOTE: u64 = 0x06;

pub(crate) const INITIAL_MAX_STREAM_DATA_UNI: u64 = 0x07;

pub(crate) const INITIAL_MAX_STREAMS_BIDI: u64 = 0x08;

pub(crate) const INITIAL_MAX_STREAMS_UNI: u64 = 0x09;

pub(crate) const ACK_DELAY_EXPONENT: u64 = 0x0a;

pub(crate) const MAX_ACK_DELAY: u64 = 0x0b;

pub(crate) const DISABLE_ACTIVE_MIGRATION: u64 = 0x0c;

pub(crate) const PREFERRED_ADDRESS: u64 = 0x0d;

pub(crate) const ACTIVE_CONNECTION_ID_LIMIT: u64 = 0x0e;

pub(crate) const INITIAL_SRC_CID: u64 = 0x0f;

pub(crate) const RETRY_SRC_CID: u64 = 0x10;

pub(crate) const MAX_DATAGRAM_FRAME_SIZE: u64 = 0x20;

pub(crate) const GREASE_QUIC_BIT: u64 = 0x2ab2;
