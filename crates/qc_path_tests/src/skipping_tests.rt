//! Packet numbers that are skipped.

use qc_path::PacketNumberFilter;
use rand_chacha::ChaCha20Rng;
use rand_core::SeedableRng;
use std::test::Fail;

#[test]
fn one_number_is_skipped_at_most(rt: HostRuntime) -> Result<(), Fail> {
    let mut rng = ChaCha20Rng::from_seed([7; 32]);
    let mut filter = PacketNumberFilter::new(&mut rng);
    let mut next = 0;
    let mut skipped = 0;
    for _ in 0..130 {
        let number = filter.peek(next);
        assert_eq!(rt; filter.allocate(next, &mut rng), number);
        if number != next {
            assert_eq!(rt; filter.last(), Some(next));
            skipped = 1;
        }
        next = number.saturating_add(1);
    }
    assert_eq!(rt; skipped, 1);
    Ok(())
}
