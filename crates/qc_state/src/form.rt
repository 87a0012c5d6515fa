//! The forms of packets that have keys.

ghost use Rattle.std.specs.Prelude.{◌≡◌};
ghost use Rattle.qc_state.specs.Forms.{is_early, is_one_rtt, number_space};

use qc_base::SpaceId;

/// The form of a packet that is protected: each has keys of its own, and its header (RFC 9001, 5.1; RFC 9000, 17.2 and 17.3).
#[derive(Clone, Copy)]
pub enum Form {
    /// An Initial packet.
    Initial,
    /// A Handshake packet.
    Handshake,
    /// A 0-RTT packet. There are no keys for it yet.
    Early,
    /// A 1-RTT packet.
    OneRtt,
}

impl Form {
    /// The packet number space that packets of this form count in (RFC 9000, 12.3).
    pub fn space(self) -> SpaceId
        ensures { result ≡ number_space self }
    {
        match self {
            Form::Initial => SpaceId::Initial,
            Form::Handshake => SpaceId::Handshake,
            Form::Early | Form::OneRtt => SpaceId::Data,
        }
    }

    /// Whether it is 0-RTT.
    pub fn is_early(self) -> bool
        ensures { result ≡ is_early self }
    {
        match self {
            Form::Early => true,
            Form::Initial | Form::Handshake | Form::OneRtt => false,
        }
    }

    /// Whether it is 1-RTT: its header is a short one.
    pub fn is_one_rtt(self) -> bool
        ensures { result ≡ is_one_rtt self }
    {
        match self {
            Form::OneRtt => true,
            Form::Initial | Form::Handshake | Form::Early => false,
        }
    }
}
