//! Datagrams as packets, one after the other (RFC 9000, section 12.2).

ghost use Rattle.std.specs.Prelude.{◌≡◌, ℕ, Bool, List};
ghost use Rattle.qc_base.specs.Grammar.{IsBytes};
ghost use Rattle.qc_header.specs.HeaderGrammar.{Datagram, DatagramItem};
ghost use Rattle.qc_header.specs.Pieces.{pieces_of};

/// The pieces of a datagram are what the grammar says, and it allows no others: packets up to its
/// end or to the first bytes that begin with none, and the fault that says why. (This does nothing;
/// its clauses are the law.)
pub fn datagram_is_pieces()
    ensures pieces { (k : ℕ) (versions : List ℕ) (grease : Bool) (bytes : List ℕ)
        → IsBytes bytes → Datagram k versions grease (pieces_of k versions grease bytes) bytes }
    ensures only { (k : ℕ) (versions : List ℕ) (grease : Bool) (items : List DatagramItem) (bytes : List ℕ)
        → IsBytes bytes → Datagram k versions grease items bytes
        → items ≡ pieces_of k versions grease bytes }
{}
