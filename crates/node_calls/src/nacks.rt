//! The numbers that are missing of an incoming sequence, told to its peer: WS-ReliableMessaging 1.2, section 3.9.
ghost use Rattle.std.specs.Prelude.{◌≡◌, ◌^◌, ◌<◌, ◌++◌, [], true, IfOk};
ghost use Rattle.std.specs.Option.{option_to_list};
ghost use Rattle.rm_protocol.specs.Calls.{
  made_by,
  missing_of as missing_numbers,
  nack_by,
  nack_in as nack_in_of,
  nack_missing as nack_missing_of,
};
ghost use Rattle.record_batch.specs.Sequences.Fits.{is_incoming_side};
ghost use Rattle.record_batch.specs.Sequences.Makers.{maker};
ghost use Rattle.node_laws.specs.Answers.Answers.{seen};
ghost use Rattle.node_calls.specs.Records.{IsServing};
ghost use Rattle.tables_ahead.specs.Known.{all_records};

use crate::acks::{counter_of, own_ack};
use crate::answers::added;
use crate::reads::is_over;
use node_laws::answers::{Answer, Cause, refused};
use node_tables::laws::an_incoming_sequence_is_as_recorded;
use node_tables::{Maker, Tables};
use record_batch::sequences::issue;
use rm_base::{Memory, Numbers};
use rm_message::Message;
use rm_message::elements::{AckBlock, AckKind};
use std::alloc::Global;
use tables_ahead::Known;

/// The most numbers that a Nack names.
const MOST_MISSING: usize = 64;

// The first numbers below the greatest that were not received of an incoming sequence.
fn missing_of(tables: &Tables, seq: u32) -> Result<Numbers, Memory>
    requires { is_incoming_side (maker tables.now.records seq) ≡ true }
    ensures { IfOk result (λ numbers. numbers ≡ missing_numbers tables.now.records seq) }
{
    an_incoming_sequence_is_as_recorded();
    match tables.incoming(seq) {
        Some(incoming) => incoming.received().missing(MOST_MISSING),
        None => unreachable!(),
    }
}

// The Nack of an incoming sequence, where numbers are missing and its AcksTo is known, and isn't a connection.
fn nack(alloc: Global, ahead: &Known<'_>, seq: u32) -> Result<Option<Message>, Memory>
    requires serving { IsServing (all_records ahead.now) }
    requires nothing { ahead.now.delta ≡ [] }
    requires side { is_incoming_side (maker ahead.now.records seq) ≡ true }
    ensures { let r = all_records ahead.now in
        IfOk result (λ m. option_to_list m ≡ nack_by r seq (made_by r (maker r seq))) }
{
    let Some(counter) = counter_of(ahead, seq) else {
        return Ok(None);
    };
    let missing = missing_of(ahead.tables(), seq)?;
    if missing.is_empty() {
        return Ok(None);
    }
    let ident = issue(alloc, ahead.number(), counter)?;
    let block = AckBlock {
        ident,
        kind: AckKind::Nack(missing),
        last: false,
    };
    own_ack(alloc, ahead, seq, block)
}

// Tells the peer of an incoming sequence what is missing, where the sequence is open.
fn nack_in(alloc: Global, tables: &Tables, seq: u32, now: u64) -> Result<Answer, Memory>
    requires serving { IsServing tables.now.records }
    requires side { is_incoming_side (maker tables.now.records seq) ≡ true }
    ensures { IfOk result (λ a. seen a ≡ nack_in_of tables.now.records seq now) }
{
    if is_over(alloc, tables, seq, now) {
        return Ok(refused(alloc, Cause::NotOpen));
    }
    let ahead = Known::new(alloc, tables);
    let message = nack(alloc, &ahead, seq)?;
    added(alloc, ahead, message)
}

/// Tells the peer of an incoming sequence which numbers are missing.
pub(crate) fn nack_missing(
    alloc: Global,
    tables: &Tables,
    seq: u32,
    now: u64,
) -> Result<Answer, Memory>
    requires { IsServing tables.now.records }
    ensures { IfOk result (λ a. seen a ≡ nack_missing_of tables.now.records seq now) }
{
    match tables.maker(seq) {
        Some(Maker::Offered { .. }) => nack_in(alloc, tables, seq, now),
        Some(Maker::Granted { .. }) => nack_in(alloc, tables, seq, now),
        Some(Maker::Asked { .. }) => Ok(refused(alloc, Cause::WrongSide)),
        Some(Maker::Taken { .. }) => Ok(refused(alloc, Cause::WrongSide)),
        None => Ok(refused(alloc, Cause::NoSequence)),
    }
}
