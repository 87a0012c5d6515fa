//! Packets taken out of a row by a test.

ghost use Rattle.std.specs.Prelude.{◌≡◌, ◌+◌, ◌<◌, ◌≤◌, ℕ, Bool, [], ◌∷◌, ◌++◌, length, take, drop};
ghost use Rattle.std.specs.VecDeque.{deque_len, deque_capacity};
ghost use Rattle.qc_flight.specs.Packets.{Entry, Agree, AllAbove, Ascending, PassesUpTo, onto, others, those, up_to};

use crate::sent::SentPacket;
use std::collections::VecDeque;

/// A test of packets, asked in ascending order of number.
pub(crate) trait Test {
    ghost passes: { Self → Entry → Bool };

    fn test(&mut self, entry: &(u64, SentPacket)) -> bool
        ensures answer { result ≡ passes self.old entry.now }
        ensures later { Agree entry.now.0 (passes self.old) (passes self.new) };
}

/// How many packets at the front have a number up to `limit`.
#[tactic(auto, using(crate::proofs::Sifting::above_from, crate::proofs::Sifting::above_none, crate::proofs::Fronts::front_step, crate::proofs::Fronts::front_end))]
pub(crate) fn front_len(row: &VecDeque<(u64, SentPacket)>, limit: u64) -> usize
    ensures within { result ≤ deque_len row.now }
    ensures value { result ≡ up_to limit row.now.items }
    ensures above { Ascending row.now.items → AllAbove limit (drop result row.now.items) }
{
    let mut count = 0;
    while count < row.len() {
        let entry = &row[count];
        if limit < entry.0 {
            return count;
        }
        count += 1;
    }
    count
}

/// Takes the first `count` packets out: those that pass to the back of `buffer`, the others one by
/// one to its front. Answers how many others there were.
#[tactic(auto, using(crate::proofs::Sifting::sifts_start, crate::proofs::Sifting::sifts_end, crate::proofs::Sifting::sifts_kept))]
fn sift<T: Test>(
    row: &mut VecDeque<(u64, SentPacket)>,
    count: usize,
    test: &mut T,
    buffer: &mut VecDeque<(u64, SentPacket)>,
) -> usize
    requires order { Ascending row.old.items }
    requires within { count ≤ deque_len row.old }
    requires empty { buffer.old.items ≡ [] }
    requires none { deque_len buffer.old ≡ 0 }
    requires room { count ≤ deque_capacity buffer.old }
    ensures sifted { buffer.new.items ≡ onto (others (T.passes test.old) (take count row.old.items)) [] ++ those (T.passes test.old) (take count row.old.items) }
    ensures rest { row.new.items ≡ drop count row.old.items }
    ensures kept { result ≡ length (others (T.passes test.old) (take count row.old.items)) }
    ensures within { result ≤ deque_len buffer.new }
    ensures most { result ≤ count }
    ensures len { deque_len row.new + count ≡ deque_len row.old }
    ensures room { deque_capacity row.new ≡ deque_capacity row.old }
{
    let mut kept = 0;
    let mut left = count;
    while left > 0 {
        let Some(entry) = row.pop_front() else {
            unreachable!()
        };
        left -= 1;
        if test.test(&entry) {
            buffer.push_back_reserved(entry);
        } else {
            buffer.push_front_reserved(entry);
            kept += 1;
        }
    }
    kept
}

/// Puts the first `kept` packets of `buffer` one by one in front of the row.
#[tactic(auto, using(crate::proofs::Sifting::back_row, crate::proofs::Sifting::back_buffer))]
fn put_back(
    row: &mut VecDeque<(u64, SentPacket)>,
    buffer: &mut VecDeque<(u64, SentPacket)>,
    kept: usize,
)
    requires within { kept ≤ deque_len buffer.old }
    requires room { deque_len row.old + kept ≤ deque_capacity row.old }
    ensures row { row.new.items ≡ onto (take kept buffer.old.items) row.old.items }
    ensures buffer { buffer.new.items ≡ drop kept buffer.old.items }
{
    let mut left = kept;
    while left > 0 {
        let Some(entry) = buffer.pop_front() else {
            unreachable!()
        };
        row.push_front_reserved(entry);
        left -= 1;
    }
}

/// Takes out of a row the packets that pass a test, which none above `limit` does, into a buffer
/// with room for all packets up to `limit`.
#[tactic(auto, using(crate::proofs::Sifting::taken_all, crate::proofs::Sifting::rest_all, crate::proofs::Sifting::put_back_row, crate::proofs::Sifting::put_back_buffer))]
pub(crate) fn take_passing<T: Test>(
    row: &mut VecDeque<(u64, SentPacket)>,
    limit: u64,
    test: &mut T,
    buffer: &mut VecDeque<(u64, SentPacket)>,
)
    requires order { Ascending row.old.items }
    requires limit { PassesUpTo limit (T.passes test.old) }
    requires empty { buffer.old.items ≡ [] }
    requires none { deque_len buffer.old ≡ 0 }
    requires room { up_to limit row.old.items ≤ deque_capacity buffer.old }
    ensures taken { buffer.new.items ≡ those (T.passes test.old) row.old.items }
    ensures rest { row.new.items ≡ others (T.passes test.old) row.old.items }
{
    let count = front_len(row, limit);
    let kept = sift(row, count, test, buffer);
    put_back(row, buffer, kept);
}
