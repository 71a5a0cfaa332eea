//! The fault that a message is answered with.
ghost use Rattle.tables_ahead.specs.Known.{all_records};
ghost use Rattle.std.specs.Prelude.{◌≡◌, ◌++◌, [], true, None, IfOk};
ghost use Rattle.message_writer.specs.Faults.{fault_of};
ghost use Rattle.record_batch.specs.Sequences.Fits.{all_fit};
ghost use Rattle.rm_protocol.specs.Calls.{
  fault_block as fault_block_of,
  fault_ident as fault_ident_of,
  refusal_of as refusal_for,
};
ghost use Rattle.rm_protocol.specs.Verdict.{target as target_of};
ghost use Rattle.rm_message.specs.declared.refusal.FaultKind.TheVariants.{StoreFull};
ghost use Rattle.node_laws.specs.Answers.Answers.{seen};
ghost use Rattle.receive_answer.specs.Untold.{judged_as};

use message_writer::fault_message;
use node_laws::answers::{Answer, Outcome, no_moves};
use node_messages::fault_endpoint;
use receive_replies::fault_block;
use receive_replies::verdict::target;
use rm_base::{Ident, Memory, copy_optional_uri};
use rm_message::elements::AckBlock;
use rm_message::{FaultKind, Message, Names, Refusal};
use std::alloc::Global;
use tables_ahead::Known;

/// The answer to what was refused: its fault, with the block that it carries or repeats.
pub(crate) fn fault_answer(
    alloc: Global,
    refusal: &Refusal,
    block: Option<AckBlock>,
) -> Result<Answer, Memory>
    ensures is { IfOk result (λ a. seen a ≡ judged_as refusal.now.kind (fault_of refusal.now block)) }
    ensures nothing { IfOk result (λ a. a.batch.items ≡ []) }
{
    let mut outs = Vec::new(alloc);
    outs.push(fault_message(alloc, refusal, block)?)?;
    Ok(Answer {
        outcome: Outcome::Judged(refusal.kind),
        batch: Vec::new(alloc),
        outs,
        moves: no_moves(alloc),
    })
}

// The identifier of the sequence that a message is for, again.
fn copy_target(message: &Message) -> Result<Option<Ident>, Memory>
    ensures { IfOk result (λ ident. ident ≡ target_of message.now.sequence message.now.body) }
{
    match target(message) {
        Some(ident) => Ok(Some(ident.copy()?)),
        None => Ok(None),
    }
}

// The sequence that a fault speaks of.
fn fault_ident(message: &Message, kind: FaultKind) -> Result<Option<Ident>, Memory>
    ensures { IfOk result (λ ident. ident ≡ fault_ident_of message.now kind) }
{
    match kind {
        FaultKind::UnknownSequence | FaultKind::SequenceTerminated | FaultKind::SequenceClosed =>
            copy_target(message),
        _ => Ok(None),
    }
}

// A message is refused with this kind.
fn refusal_of(alloc: Global, message: &Message, kind: FaultKind) -> Result<Refusal, Memory>
    ensures { IfOk result (λ refusal. refusal ≡ refusal_for message.now kind) }
{
    let endpoint = fault_endpoint(alloc, &message.addressing)?;
    let relates = copy_optional_uri(&message.addressing.message_id)?;
    let ident = fault_ident(message, kind)?;
    Ok(Refusal {
        kind,
        endpoint,
        relates,
        names: Names::new(alloc),
        ident,
    })
}

/// The answer to a message with a verdict.
pub(crate) fn judged(
    alloc: Global,
    ahead: &Known<'_>,
    now: u64,
    message: &Message,
    kind: FaultKind,
) -> Result<Answer, Memory>
    requires { all_fit ahead.now.records ahead.now.delta ≡ true }
    ensures is { let r = all_records ahead.now in
        IfOk result (λ a. seen a
        ≡ judged_as kind (fault_of (refusal_for message.now kind) (fault_block_of r now message.now kind))) }
    ensures nothing { IfOk result (λ a. a.batch.items ≡ []) }
{
    let refusal = refusal_of(alloc, message, kind)?;
    let block = fault_block(alloc, ahead, now, message, kind)?;
    fault_answer(alloc, &refusal, block)
}

/// The answer to a message whose records don't fit the store.
pub(crate) fn store_full(alloc: Global, message: &Message) -> Result<Answer, Memory>
    ensures is { IfOk result (λ a. seen a
        ≡ judged_as StoreFull (fault_of (refusal_for message.now StoreFull) None)) }
    ensures nothing { IfOk result (λ a. a.batch.items ≡ []) }
{
    let refusal = refusal_of(alloc, message, FaultKind::StoreFull)?;
    fault_answer(alloc, &refusal, None)
}
