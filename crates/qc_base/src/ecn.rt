//! The marks of explicit congestion notification (RFC 9000, section 13.4).

ghost use Rattle.std.specs.Prelude.{◌≡◌, ◌%◌, ◌==◌, ◌↔◌, IsTrue, IfSome, is_none};
ghost use Rattle.qc_base.specs.Ecn.{ecn_bits};

/// A mark of an IP packet that takes part in ECN (RFC 3168, section 5).
#[derive(Clone, Copy, Debug, PartialEq, Eq)]
pub enum EcnCodepoint {
    /// ECN-capable, the mark that a sender sets.
    Ect0 = 2,
    /// ECN-capable, the other such mark.
    Ect1 = 1,
    /// Congestion was experienced on the way.
    Ce = 3,
}

impl EcnCodepoint {
    /// The mark in the two low bits of an IP packet's traffic class; None exactly where both are 0.
    pub fn from_bits(bits: u8) -> Option<EcnCodepoint>
        ensures mark { IfSome result (λ e. ecn_bits e ≡ bits % 4) }
        ensures no_mark { is_none result ≡ (bits % 4 == 0) }
    {
        match bits % 4 {
            2 => Some(EcnCodepoint::Ect0),
            1 => Some(EcnCodepoint::Ect1),
            3 => Some(EcnCodepoint::Ce),
            _ => None,
        }
    }

    /// The mark as the two low bits of an IP packet's traffic class: 1, 2 or 3.
    pub fn bits(self) -> u8
        ensures { result ≡ ecn_bits self }
    {
        self as u8
    }

    /// Whether it says that congestion was experienced.
    pub fn is_ce(self) -> bool
        ensures { IsTrue result ↔ (self ≡ EcnCodepoint.Ce) }
    {
        match self {
            EcnCodepoint::Ect0 | EcnCodepoint::Ect1 => false,
            EcnCodepoint::Ce => true,
        }
    }
}
