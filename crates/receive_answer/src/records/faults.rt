//! The rows of faults: WS-ReliableMessaging 1.2, section 4.
ghost use Rattle.std.specs.Prelude.{◌≡◌, ◌++◌, map, IfOk, OnOk};
ghost use Rattle.soap_document.specs.Profile.View.{element_view};
ghost use Rattle.rm_message.specs.Kinds.{kind_number};
ghost use Rattle.rm_protocol.specs.Detail.{found_by as found_from, ident_of as ident_in, named_in as named_from};
ghost use Rattle.rm_protocol.specs.Rows.{
  failed_at,
  fault_row as fault_row_of,
  is_fault as is_fault_named,
  refused_at,
  refused_row as refused_row_of,
  shut_at,
};
ghost use Rattle.receive_answer.specs.Records.WithRow.{with_row};
ghost use Rattle.tables_ahead.specs.Known.{all_records};

use crate::records::acks::shut;
use crate::records::offers::drop_offer;
use node_messages::ident_of;
use record_batch::Record;
use rm_base::{Memory, Uri};
use rm_message::elements::MESSAGING;
use rm_message::{FaultBody, FaultKind, ROLLOVER};
use rm_sides::source::OutPhase;
use soap_document::profile::{Element, Name};
use std::alloc::Global;
use tables_ahead::Known;

/// What a fault ends or closes: by the MessageID that it relates to, or by its Detail.
pub(crate) fn fault_row(
    alloc: Global,
    ahead: &mut Known<'_>,
    relates: &Option<Uri>,
    fault: &FaultBody,
) -> Result<(), Memory>
    ensures records { ahead.new.records ≡ ahead.old.records }
    ensures delta { OnOk result (ahead.new.delta
        ≡ with_row (fault_row_of relates.now fault.now.subcode fault.now.detail) ahead.old) }
{
    let subcode = &fault.subcode;
    let detail = fault.detail.as_slice();
    if is_fault(FaultKind::CreateSequenceRefused.name(), subcode) {
        return refused_row(ahead, relates);
    }
    if is_fault(FaultKind::SequenceTerminated.name(), subcode) {
        return failed_row(alloc, ahead, FaultKind::SequenceTerminated, detail);
    }
    if is_fault(FaultKind::UnknownSequence.name(), subcode) {
        return failed_row(alloc, ahead, FaultKind::UnknownSequence, detail);
    }
    if is_fault(ROLLOVER, subcode) {
        return failed_row(alloc, ahead, FaultKind::Rollover, detail);
    }
    if is_fault(FaultKind::SequenceClosed.name(), subcode) {
        return shut_row(alloc, ahead, detail);
    }
    Ok(())
}

/// Whether a subcode is this fault of the protocol.
fn is_fault(name: &[u8], subcode: &Option<Name>) -> bool
    ensures { result ≡ is_fault_named name.now subcode.now }
{
    match subcode {
        Some(subcode) => subcode.space() == MESSAGING && subcode.local() == name,
        None => false,
    }
}

/// Failed, by the MessageID that a fault CreateSequenceRefused relates to.
fn refused_row(ahead: &mut Known<'_>, relates: &Option<Uri>) -> Result<(), Memory>
    ensures records { ahead.new.records ≡ ahead.old.records }
    ensures delta { OnOk result (ahead.new.delta ≡ with_row (refused_row_of relates.now) ahead.old) }
{
    let Some(message_id) = relates else {
        return Ok(());
    };
    match ahead.find_creating(message_id) {
        Some(seq) => refuse(ahead, seq),
        None => Ok(()),
    }
}

/// Failed for a sequence that was refused. What was offered with it is ended.
fn refuse(ahead: &mut Known<'_>, seq: u32) -> Result<(), Memory>
    ensures records { ahead.new.records ≡ ahead.old.records }
    ensures delta { OnOk result (ahead.new.delta ≡ with_row (refused_at (Some seq)) ahead.old) }
{
    ahead.push(Record::Failed {
        seq,
        fault: FaultKind::CreateSequenceRefused.number(),
    })?;
    drop_offer(ahead, seq)
}

/// What a fault that ends a sequence does to the one that its Detail names.
fn failed_row(
    alloc: Global,
    ahead: &mut Known<'_>,
    kind: FaultKind,
    detail: &[Element],
) -> Result<(), Memory>
    ensures records { ahead.new.records ≡ ahead.old.records }
    ensures delta { OnOk result (ahead.new.delta
        ≡ with_row (λ r. failed_at (kind_number kind) (named_from r (map element_view detail.now)) r) ahead.old) }
{
    match named_in(alloc, ahead, detail)? {
        Some(seq) => fail(ahead, kind, seq),
        None => Ok(()),
    }
}

/// EndedOut in phase Ending, and Failed in a phase before it.
fn fail(ahead: &mut Known<'_>, kind: FaultKind, seq: u32) -> Result<(), Memory>
    ensures records { ahead.new.records ≡ ahead.old.records }
    ensures delta { OnOk result (ahead.new.delta ≡ with_row (failed_at (kind_number kind) (Some seq)) ahead.old) }
{
    match ahead.phase(seq) {
        OutPhase::Ending => ahead.push(Record::EndedOut { seq }),
        OutPhase::Open | OutPhase::Closing | OutPhase::Closed => {
            ahead.push(Record::Failed {
                seq,
                fault: kind.number(),
            })
        }
        OutPhase::Creating | OutPhase::Ended | OutPhase::Failed => Ok(()),
    }
}

/// ClosedOut, by the Detail of a fault SequenceClosed.
fn shut_row(alloc: Global, ahead: &mut Known<'_>, detail: &[Element]) -> Result<(), Memory>
    ensures records { ahead.new.records ≡ ahead.old.records }
    ensures delta { OnOk result (ahead.new.delta
        ≡ with_row (λ r. shut_at (named_from r (map element_view detail.now)) r) ahead.old) }
{
    match named_in(alloc, ahead, detail)? {
        Some(seq) => shut(ahead, seq),
        None => Ok(()),
    }
}

/// The outgoing sequence that the first of the elements names that names one.
fn named_in(alloc: Global, ahead: &Known<'_>, detail: &[Element]) -> Result<Option<u32>, Memory>
    ensures { IfOk result (λ named.
        named ≡ named_from (all_records ahead.now) (map element_view detail.now)) }
{
    for element in detail {
        if let Some(seq) = found_by(alloc, ahead, element)? {
            return Ok(Some(seq));
        }
    }
    Ok(None)
}

/// The outgoing sequence that an element names, where it is an Identifier.
fn found_by(alloc: Global, ahead: &Known<'_>, element: &Element) -> Result<Option<u32>, Memory>
    ensures { IfOk result (λ named.
        named ≡ found_from (all_records ahead.now) (ident_in (element_view element.now))) }
{
    match ident_of(alloc, element)? {
        Some(ident) => Ok(ahead.find_outgoing(ident.as_slice())),
        None => Ok(None),
    }
}
