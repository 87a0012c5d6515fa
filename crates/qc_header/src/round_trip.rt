//! What is written is read back (RFC 9000, section 17): laws, each a function that does nothing and
//! whose clause is the law.
//!
//! A packet is a header whose Length field counts number and payload, and a sealed payload, under a
//! header protection mask. `PartialDecode::new` reads what is readable of its header, `finish` takes
//! the mask off (`qc_base::mask_comes_off`) and makes the header of the unprotected bytes.

ghost use Rattle.std.specs.Prelude.{ℕ, Bool, List};
ghost use Rattle.qc_header.specs.declared.header.Header.{Header};
ghost use Rattle.qc_header.specs.RoundTrip.{IsReadable, IsReading, IsCounted, ComesBack};

/// A packet is read whatever its mask, its payload and what comes behind it, and its header comes
/// back.
pub fn header_is_read()
    ensures { (mask_of : List ℕ → List ℕ) (k n : ℕ) (versions : List ℕ) (grease : Bool)
        (h : Header) (payload rest : List ℕ)
        → IsReadable k versions grease h → IsCounted h n payload rest
        → ComesBack mask_of k n versions grease h payload rest }
{}

/// A header that was read comes back once it is written, its Length field set, and read again by a
/// reader with the same arguments, whatever its mask and payload.
pub fn header_comes_back()
    ensures { (mask_of : List ℕ → List ℕ) (k n : ℕ) (versions : List ℕ) (grease : Bool)
        (h : Header) (payload rest : List ℕ)
        → IsReading k versions grease h → IsCounted h n payload rest
        → ComesBack mask_of k n versions grease h payload rest }
{}
