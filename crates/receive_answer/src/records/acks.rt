//! The rows of acknowledgements: WS-ReliableMessaging 1.2, section 3.9.
ghost use Rattle.std.specs.Prelude.{◌≡◌, [], ◌∷◌, IfOk, OnOk};
ghost use Rattle.std.specs.List.{AllByRecursion};
ghost use Rattle.rm_sides.specs.Ranges.Changes.{united};
ghost use Rattle.record_batch.specs.Sequences.Sources.{is_sending as is_sending_in};
ghost use Rattle.rm_protocol.specs.Next.{HasRanges, IsNumberRange};
ghost use Rattle.rm_protocol.specs.Rows.{
  ack_at as ack_at_of,
  ack_row as ack_row_of,
  ack_rows as ack_rows_of,
  final_row as final_row_of,
  shut_at,
};
ghost use Rattle.receive_answer.specs.Records.WithRow.{with_row};

use node_messages::ranges_of;
use record_batch::Record;
use rm_base::Memory;
use rm_message::elements::AckBlock;
use rm_sides::ranges::{Range, RangeSet};
use rm_sides::source::OutPhase;
use std::alloc::Global;
use tables_ahead::Known;

/// The rows of all blocks, in order.
pub(crate) fn ack_rows(
    alloc: Global,
    ahead: &mut Known<'_>,
    blocks: &[AckBlock],
) -> Result<(), Memory>
    requires { AllByRecursion HasRanges blocks.now }
    ensures records { ahead.new.records ≡ ahead.old.records }
    ensures delta { OnOk result (ahead.new.delta ≡ with_row (ack_rows_of blocks.now) ahead.old) }
{
    for block in blocks {
        ack_row(alloc, ahead, block)?;
        final_row(ahead, block)?;
    }
    Ok(())
}

/// Acked with the numbers of a block, where one of them is new.
fn ack_row(alloc: Global, ahead: &mut Known<'_>, block: &AckBlock) -> Result<(), Memory>
    requires { HasRanges block.now }
    ensures records { ahead.new.records ≡ ahead.old.records }
    ensures delta { OnOk result (ahead.new.delta ≡ with_row (ack_row_of block.now) ahead.old) }
{
    match ahead.find_outgoing(block.ident.as_slice()) {
        Some(seq) => ack_at(alloc, ahead, seq, ranges_of(&block.kind)),
        None => Ok(()),
    }
}

fn ack_at(alloc: Global, ahead: &mut Known<'_>, seq: u32, ranges: &[Range]) -> Result<(), Memory>
    requires { AllByRecursion IsNumberRange ranges.now }
    ensures records { ahead.new.records ≡ ahead.old.records }
    ensures delta { OnOk result (ahead.new.delta ≡ with_row (ack_at_of (Some seq) ranges.now) ahead.old) }
{
    if ahead.covers(seq, ranges)? {
        return Ok(());
    }
    let numbers = numbers_of(alloc, ranges)?;
    ahead.push(Record::Acked { seq, numbers })
}

/// The numbers of ranges.
fn numbers_of(alloc: Global, ranges: &[Range]) -> Result<RangeSet, Memory>
    requires { AllByRecursion IsNumberRange ranges.now }
    ensures { IfOk result (λ set. set.ranges ≡ united [] ranges.now) }
{
    let mut numbers = RangeSet::new(alloc);
    for range in ranges {
        insert(&mut numbers, *range)?;
    }
    Ok(numbers)
}

/// Puts a range in.
fn insert(numbers: &mut RangeSet, range: Range) -> Result<(), Memory>
    requires { IsNumberRange range }
    ensures { OnOk result (numbers.new.ranges ≡ united numbers.old.ranges (range ∷ [])) }
{
    numbers.insert_range(range.lower, range.upper)?;
    Ok(())
}

/// ClosedOut with the Final of a block.
fn final_row(ahead: &mut Known<'_>, block: &AckBlock) -> Result<(), Memory>
    ensures records { ahead.new.records ≡ ahead.old.records }
    ensures delta { OnOk result (ahead.new.delta ≡ with_row (final_row_of block.now) ahead.old) }
{
    match ahead.find_outgoing(block.ident.as_slice()) {
        Some(seq) if block.last => shut(ahead, seq),
        Some(_) => Ok(()),
        None => Ok(()),
    }
}

/// ClosedOut, in phase Open or Closing.
pub(crate) fn shut(ahead: &mut Known<'_>, seq: u32) -> Result<(), Memory>
    ensures records { ahead.new.records ≡ ahead.old.records }
    ensures delta { OnOk result (ahead.new.delta ≡ with_row (shut_at (Some seq)) ahead.old) }
{
    if !is_sending(ahead.phase(seq)) {
        return Ok(());
    }
    ahead.push(Record::ClosedOut { seq })
}

fn is_sending(phase: OutPhase) -> bool
    ensures { result ≡ is_sending_in phase }
{
    matches!(phase, OutPhase::Open | OutPhase::Closing)
}
