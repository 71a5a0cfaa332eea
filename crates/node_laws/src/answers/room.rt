//! Whether a batch fits the store.
ghost use Rattle.std.specs.Prelude.{◌≡◌, ℕ, ◌+◌, ◌<◌, ◌≤◌, ◌^◌, ◌&&◌, nat_le, [], true, map, length, IfOk, OnOk};
ghost use Rattle.std.specs.List.{AllByRecursion};
ghost use Rattle.rm_base.specs.Limits.{entry_bytes, journal_bytes};
ghost use Rattle.node_laws.specs.Sizes.Room.{HasRoom};
ghost use Rattle.node_laws.specs.Sizes.Size.{capped};
ghost use Rattle.node_laws.specs.Sizes.Typed.{IsTyped};
ghost use Rattle.record_batch.specs.Batch.{batch_text};
ghost use Rattle.record_batch.specs.Fact.{fact_of};
ghost use Rattle.rm_protocol.specs.Calls.{if_room as if_room_of, refusal as refusal_for};
ghost use Rattle.rm_protocol.specs.Terms.{Terms};
ghost use Rattle.rm_protocol.specs.Verdict.{has_room as has_room_for};
ghost use Rattle.node_laws.specs.OwnTerms.{AreOwn};
ghost use Rattle.node_laws.specs.Answers.Answers.{cause_seen, seen};

use crate::answers::answer::{Answer, Cause, Outcome, no_moves};
use crate::sizes::batch_len;
use record_batch::Record;
use rm_base::Memory;
use rm_base::limits::{ENTRY_BYTES, JOURNAL_BYTES};
use std::alloc::Global;

/// How many bytes an entry takes besides its batch.
const AROUND_ENTRY: u64 = 6;

// Whether an entry of so many bytes fits behind a place.
fn is_within(end: u64, size: u64) -> bool
    ensures { result ≡ (nat_le size entry_bytes && nat_le (end + 6 + size) journal_bytes) }
{
    if size > ENTRY_BYTES as u64 {
        return false;
    }
    end <= JOURNAL_BYTES - AROUND_ENTRY - size
}

// Whether a batch of so many bytes fits behind a place: there is nothing to be written, or it is within the limits.
fn fits(end: u64, size: u64, batch: &[Record]) -> bool
    requires { size ≡ capped (length (batch_text (map fact_of batch.now))) }
    ensures is { (terms : Terms) → AreOwn terms → result ≡ has_room_for terms end (map fact_of batch.now) }
    ensures room { result ≡ true → HasRoom end (map fact_of batch.now) }
{
    if batch.is_empty() {
        return true;
    }
    is_within(end, size)
}

/// Whether a batch fits behind the place at which the store's entries end.
pub fn has_room(alloc: Global, end: u64, batch: &[Record]) -> Result<bool, Memory>
    ensures is { (terms : Terms) → AreOwn terms
        → IfOk result (λ fits. fits ≡ has_room_for terms end (map fact_of batch.now)) }
    ensures room { IfOk result (λ fits. fits ≡ true → HasRoom end (map fact_of batch.now)) }
    ensures typed { OnOk result (AllByRecursion IsTyped (map fact_of batch.now)) }
{
    let size = batch_len(alloc, batch)?;
    Ok(fits(end, size, batch))
}

/// The answer of a call that is refused: it adds nothing and says nothing.
pub fn refused(alloc: Global, cause: Cause) -> Answer
    ensures is { seen result ≡ refusal_for (cause_seen cause) }
    ensures nothing { result.batch.items ≡ [] }
    ensures room { (place : ℕ) → HasRoom place (map fact_of result.batch.items) }
    ensures typed { AllByRecursion IsTyped (map fact_of result.batch.items) }
{
    Answer {
        outcome: Outcome::Refused(cause),
        batch: Vec::new(alloc),
        outs: Vec::new(alloc),
        moves: no_moves(alloc),
    }
}

/// An answer whose batch is short, where it fits the store, and else its refusal. The refusal has the place and the
/// bytes.
pub fn if_room(alloc: Global, end: u64, answer: Answer) -> Result<Answer, Memory>
    requires { length (batch_text (map fact_of answer.batch.items)) ≤ 4294967295 }
    ensures is { (terms : Terms) → AreOwn terms
        → IfOk result (λ given. seen given ≡ if_room_of terms end (seen answer)) }
    ensures room { IfOk result (λ given. HasRoom end (map fact_of given.batch.items)) }
    ensures typed { IfOk result (λ given. AllByRecursion IsTyped (map fact_of given.batch.items)) }
{
    let size = batch_len(alloc, answer.batch.as_slice())?;
    if fits(end, size, answer.batch.as_slice()) {
        return Ok(answer);
    }
    let needed = size + AROUND_ENTRY;
    Ok(refused(alloc, Cause::StoreFull { end, needed }))
}
