//! The first kind of fault whose test holds.
ghost use Rattle.std.specs.Prelude.{◌≡◌, ◌++◌, ◌&&◌, ◌||◌, not};
ghost use Rattle.rm_protocol.specs.Verdict.{
  early_tests,
  first_held,
  going_on,
  is_ended_for as is_ended_for_in,
  is_fault_body as is_fault_body_of,
  is_shut_for as is_shut_for_in,
  is_unknown as is_unknown_in,
  lacks_header as lacks_header_of,
  names_none as names_none_in,
  target,
};
ghost use Rattle.tables_ahead.specs.Known.{all_records};

use crate::verdict::acks::{has_invalid, names_none};
use crate::verdict::body::{is_fault_body, lacks_selection, refuses_create, selects_other};
use crate::verdict::sequence::{is_ended_for, is_shut_for, is_unknown, lacks_header};
use rm_message::{FaultKind, Message};
use tables_ahead::Known;

// No fault, and a payload without a Sequence header.
fn is_wsrm_required(message: &Message) -> bool
    ensures { let m = message.now in
        result ≡ (not (is_fault_body_of m.body) && lacks_header_of m.sequence m.body) }
{
    !is_fault_body(&message.body) && lacks_header(message)
}

// No fault, and for a sequence that we don't know.
fn is_for_unknown(ahead: &Known<'_>, message: &Message) -> bool
    ensures { let r = all_records ahead.now in
        let m = message.now in
        result ≡ (not (is_fault_body_of m.body)
        && (is_unknown_in r (target m.sequence m.body) || names_none_in r m.acks m.asks m.body)) }
{
    !is_fault_body(&message.body) && (is_unknown(ahead, message) || names_none(ahead, message))
}

// No fault, and for a sequence that is ended.
fn is_for_ended(ahead: &Known<'_>, now: u64, message: &Message) -> bool
    ensures { let r = all_records ahead.now in
        let m = message.now in
        result ≡ (not (is_fault_body_of m.body) && is_ended_for_in r now (going_on m.sequence m.body)) }
{
    !is_fault_body(&message.body) && is_ended_for(ahead, now, message)
}

// No fault, and for a sequence that is closed.
fn is_for_closed(ahead: &Known<'_>, now: u64, message: &Message) -> bool
    ensures { let r = all_records ahead.now in
        let m = message.now in
        result ≡ (not (is_fault_body_of m.body) && is_shut_for_in r now m.sequence) }
{
    !is_fault_body(&message.body) && is_shut_for(ahead, now, message)
}

/// The kind of the fault that answers a message, but for want of room. It takes no memory. It is the first kind whose
/// test holds.
pub fn early_verdict(ahead: &Known<'_>, now: u64, message: &Message) -> Option<FaultKind>
    ensures { result ≡ first_held (early_tests (all_records ahead.now) now message.now) }
{
    if is_wsrm_required(message) {
        return Some(FaultKind::WsrmRequired);
    }
    if is_for_unknown(ahead, message) {
        return Some(FaultKind::UnknownSequence);
    }
    if is_for_ended(ahead, now, message) {
        return Some(FaultKind::SequenceTerminated);
    }
    if is_for_closed(ahead, now, message) {
        return Some(FaultKind::SequenceClosed);
    }
    if has_invalid(ahead, message.acks.as_slice()) {
        return Some(FaultKind::InvalidAcknowledgement);
    }
    if refuses_create(ahead, message) {
        return Some(FaultKind::CreateSequenceRefused);
    }
    if lacks_selection(&message.body) {
        return Some(FaultKind::MissingSelection);
    }
    if selects_other(&message.body) {
        return Some(FaultKind::UnsupportedSelection);
    }
    None
}
