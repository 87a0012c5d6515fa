//! One value for each packet number space.

ghost use Rattle.std.specs.Prelude.{◌≡◌};
ghost use Rattle.qc_state.specs.Spaces.{is_space, space_of};

use qc_base::SpaceId;

/// A value for each of the three packet number spaces (RFC 9000, 12.3).
#[derive(Drop)]
pub struct Spaces<T> {
    /// The space of Initial packets.
    pub initial: T,
    /// The space of Handshake packets.
    pub handshake: T,
    /// The space of 0-RTT and 1-RTT packets.
    pub application: T,
}

impl<T> Spaces<T> {
    /// The value of one space.
    pub fn get(&self, space: SpaceId) -> &T
        ensures { result.now ≡ space_of self.now space }
    {
        match space {
            SpaceId::Initial => &self.initial,
            SpaceId::Handshake => &self.handshake,
            SpaceId::Data => &self.application,
        }
    }
}

/// Whether two spaces are one.
pub fn is_space(a: SpaceId, b: SpaceId) -> bool
    ensures { result ≡ is_space a b }
{
    match (a, b) {
        (SpaceId::Initial, SpaceId::Initial)
        | (SpaceId::Handshake, SpaceId::Handshake)
        | (SpaceId::Data, SpaceId::Data) => true,
        _ => false,
    }
}
