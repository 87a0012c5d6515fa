//! Why ids may not be given.

ghost use Rattle.std.specs.Prelude.{◌≡◌};
ghost use Rattle.qc_cids.specs.Cids.{bad_cid};

use qc_base::IssuedCid;

/// Why ids of this end may not be given.
#[derive(Clone, Copy, Debug, PartialEq, Eq)]
pub enum GiveRefusal {
    /// They are more than are asked for.
    NotAsked {
        /// How many are asked for.
        asked: u64,
        /// How many they are.
        given: u64,
    },
    /// One has not the number that is the next one at its place.
    Sequence {
        /// The next number.
        wanted: u64,
        /// The number that it has.
        given: u64,
    },
    /// One has not as many bytes as this end's ids have.
    IdLength {
        /// How many bytes this end's ids have.
        wanted: usize,
        /// How many it has.
        given: usize,
    },
}

/// Why the first id that isn't right isn't, where they are to have the numbers from one on.
#[tactic(auto, using(crate::proofs::NextIds::good_more, crate::proofs::NextIds::bad_number, crate::proofs::NextIds::bad_length, crate::proofs::NextIds::good_all))]
pub(crate) fn bad_cid(ids: &[IssuedCid], cid_len: usize, issued: u64) -> Option<GiveRefusal>
    ensures { result ≡ bad_cid cid_len issued ids.now }
{
    let mut wanted = issued;
    for id in ids {
        if id.sequence != wanted {
            return Some(GiveRefusal::Sequence {
                wanted,
                given: id.sequence,
            });
        }
        if id.id.len() != cid_len {
            return Some(GiveRefusal::IdLength {
                wanted: cid_len,
                given: id.id.len(),
            });
        }
        wanted = wanted.saturating_add(1);
    }
    None
}
