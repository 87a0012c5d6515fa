//! What a queue of the peer's ids has this end retire goes to the numbers that wait.

ghost use Rattle.std.specs.Prelude.{◌≡◌, ◌+◌, ◌-◌, ◌<◌, ◌≤◌, ◌^◌, IfOk, IfSome, OnOk, OnErr, Some, None, if◌then◌else◌, is_some, vec_len, vec_capacity};
ghost use Rattle.std.specs.Option.{option_map};
ghost use Rattle.qc_cids.specs.Cids.{limit_error, new_refusal, next_token, number_placed, numbers_placed, retires_by, token_by, violation};
ghost use Rattle.qc_ids.specs.CidQueue.{after_next};
ghost use Rattle.qc_ids.specs.QueueLaws.{Insert, Next, numbers_of, queue_after, retires};

use crate::numbers::{NumberList, place, place_all};
use qc_base::{ResetToken, TransportError, TransportErrorCode};
use qc_frame::NewConnectionId;
use qc_ids::{CidQueue, InsertError};
use std::alloc::AllocError;
use std::ops::Range;

/// What became of a NEW_CONNECTION_ID frame.
#[derive(Clone, Copy, Debug)]
pub struct NewTaken {
    /// Why it changed nothing; None where it was taken.
    pub refused: Option<TransportError>,
    /// The reset token of the id that it took into use, where it took one (RFC 9000, section 10.3).
    pub token: Option<ResetToken>,
}

impl NewTaken {
    /// It was taken.
    fn taken(token: Option<ResetToken>) -> NewTaken
        ensures { result ≡ record { refused = None; token = token } }
    {
        NewTaken {
            refused: None,
            token,
        }
    }

    /// It broke a rule of the protocol.
    fn violation() -> NewTaken
        ensures { result ≡ record { refused = Some violation; token = None } }
    {
        NewTaken {
            refused: Some(TransportError {
                code: TransportErrorCode::PROTOCOL_VIOLATION,
                frame: None,
            }),
            token: None,
        }
    }

    /// The peer issued more ids than are kept.
    fn beyond_limit() -> NewTaken
        ensures { result ≡ record { refused = Some limit_error; token = None } }
    {
        NewTaken {
            refused: Some(TransportError {
                code: TransportErrorCode::CONNECTION_ID_LIMIT_ERROR,
                frame: None,
            }),
            token: None,
        }
    }
}

/// The numbers that an answer of the queue names wait, for which there is room. The answer is the token that it has.
fn retire_range(
    numbers: &mut Vec<u64>,
    answer: Option<(Range<u64>, ResetToken)>,
) -> Option<ResetToken>
    requires { IfSome answer (λ a. vec_len numbers.old + (a.0.end - a.0.start) ≤ vec_capacity numbers.old) }
    ensures token { result ≡ option_map (λ a. a.1) answer }
    ensures numbers { numbers.new.items ≡ numbers_placed (numbers_of (option_map (λ a. a.0) answer)) numbers.old.items }
{
    match answer {
        Some((range, token)) => {
            place_all(numbers, range.start, range.end);
            Some(token)
        }
        None => None,
    }
}

/// The numbers that the next id of the queue replaces wait, for which there is room. The answer is the token that it has.
fn retire_next(
    numbers: &mut Vec<u64>,
    answer: Option<(ResetToken, Range<u64>)>,
) -> Option<ResetToken>
    requires { IfSome answer (λ a. vec_len numbers.old + (a.1.end - a.1.start) ≤ vec_capacity numbers.old) }
    ensures token { result ≡ option_map (λ a. a.0) answer }
    ensures numbers { numbers.new.items ≡ numbers_placed (numbers_of (option_map (λ a. a.1) answer)) numbers.old.items }
{
    match answer {
        Some((token, range)) => {
            place_all(numbers, range.start, range.end);
            Some(token)
        }
        None => None,
    }
}

/// A frame whose id the queue doesn't keep: its number waits where it was retired before it came, for which there is
/// room.
fn not_kept(numbers: &mut Vec<u64>, error: InsertError, sequence: u64) -> NewTaken
    requires { vec_len numbers.old < vec_capacity numbers.old }
    ensures retired { error ≡ InsertError.Retired
        → (result ≡ record { refused = None; token = None }) × (numbers.new.items ≡ number_placed sequence numbers.old.items) }
    ensures exceeds { error ≡ InsertError.ExceedsLimit
        → (result ≡ record { refused = Some limit_error; token = None }) × (numbers.new.items ≡ numbers.old.items) }
{
    match error {
        InsertError::Retired => {
            place(numbers, sequence);
            NewTaken::taken(None)
        }
        InsertError::ExceedsLimit => NewTaken::beyond_limit(),
    }
}

impl NumberList {
    /// A NEW_CONNECTION_ID comes to a queue of the peer's ids. What it has this end retire waits.
    ///
    /// # Errors
    ///
    /// Want of memory; nothing changes then.
    pub(crate) fn take_new(
        &mut self,
        queue: &mut CidQueue,
        cid: NewConnectionId,
    ) -> Result<NewTaken, AllocError>
        requires order { cid.retire_prior_to ≤ cid.sequence }
        requires bound { cid.sequence < 2 ^ 62 }
        ensures refused { IfOk result (λ taken. taken.refused ≡ new_refusal cid queue.old) }
        ensures token { IfOk result (λ taken. taken.token ≡ token_by cid queue.old) }
        ensures queue { OnOk result (queue.new ≡ (if is_some (new_refusal cid queue.old) then queue.old else queue_after (Insert cid) queue.old)) }
        ensures numbers { OnOk result (self.new ≡ (if is_some (new_refusal cid queue.old) then self.old else numbers_placed (retires_by cid queue.old) self.old)) }
        ensures same_queue { OnErr result (queue.new ≡ queue.old) }
        ensures same_numbers { OnErr result (self.new ≡ self.old) }
    {
        if queue.active().is_empty() {
            return Ok(NewTaken::violation());
        }
        let sequence = cid.sequence;
        self.numbers.reserve(5)?;
        match queue.insert(cid) {
            Ok(answer) => Ok(NewTaken::taken(retire_range(&mut self.numbers, answer))),
            Err(error) => Ok(not_kept(&mut self.numbers, error, sequence)),
        }
    }

    /// The next id of a queue is taken into use, where there is one. What it has this end retire waits. The answer is its
    /// reset token.
    ///
    /// # Errors
    ///
    /// Want of memory; nothing changes then.
    #[tactic(auto, using(crate::proofs::Leaving::next_room), unfolding(crate::specs::Cids::next_token, qc_ids::specs::QueueLaws::retires))]
    pub(crate) fn take_next(
        &mut self,
        queue: &mut CidQueue,
    ) -> Result<Option<ResetToken>, AllocError>
        ensures token { IfOk result (λ token. token ≡ next_token queue.old) }
        ensures queue { OnOk result (queue.new ≡ after_next queue.old) }
        ensures numbers { OnOk result (self.new ≡ numbers_placed (retires Next queue.old) self.old) }
        ensures same_queue { OnErr result (queue.new ≡ queue.old) }
        ensures same_numbers { OnErr result (self.new ≡ self.old) }
    {
        self.numbers.reserve(4)?;
        let answer = queue.next();
        Ok(retire_next(&mut self.numbers, answer))
    }
}
