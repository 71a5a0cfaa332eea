//! What the body of a message asks for: WS-ReliableMessaging 1.2, section 3.4, and WS-MakeConnection 1.1, section 3.2.
ghost use Rattle.std.specs.Prelude.{◌≡◌, ◌++◌, ◌&&◌, ◌||◌, nat_le, is_none, length};
ghost use Rattle.rm_base.specs.Limits.{most_sequences};
ghost use Rattle.record_batch.specs.Sequences.Find.{find_grant as find_grant_in};
ghost use Rattle.record_batch.specs.Sequences.Makers.{makers};
ghost use Rattle.rm_protocol.specs.Addresses.{is_nowhere as is_nowhere_text};
ghost use Rattle.rm_protocol.specs.Verdict.{
  is_fault_body as is_fault_body_of,
  lacks_selection as lacks_selection_of,
  refuses_create as refuses_create_in,
  selects_other as selects_other_of,
};
ghost use Rattle.tables_ahead.specs.Known.{all_records};

use node_messages::is_nowhere;
use rm_base::Uri;
use rm_base::limits::MOST_SEQUENCES;
use rm_message::elements::{CreateSequence, Lifecycle};
use rm_message::{Body, Message};
use tables_ahead::Known;

/// Whether a body is a Fault.
pub(crate) fn is_fault_body(body: &Body) -> bool
    ensures { result ≡ is_fault_body_of body.now }
{
    matches!(body, Body::Fault(_))
}

// Whether a CreateSequence is refused, unless it was granted before.
fn refuses_new(ahead: &Known<'_>, create: &CreateSequence) -> bool
    ensures { result ≡ (is_nowhere_text create.now.acks_to.address
        || nat_le most_sequences (length (makers (all_records ahead.now)))) }
{
    is_nowhere(create.acks_to.address.as_slice()) || ahead.len() >= MOST_SEQUENCES
}

// Whether a CreateSequence with this MessageID is refused.
fn refuses(ahead: &Known<'_>, message_id: &Uri, create: &CreateSequence) -> bool
    ensures { let r = all_records ahead.now in
        result ≡ (is_none (find_grant_in r message_id.now)
        && (is_nowhere_text create.now.acks_to.address || nat_le most_sequences (length (makers r)))) }
{
    ahead.find_grant(message_id).is_none() && refuses_new(ahead, create)
}

/// Whether a message is a new CreateSequence that is refused: its AcksTo is None, or there are too many sequences.
pub(crate) fn refuses_create(ahead: &Known<'_>, message: &Message) -> bool
    ensures { result ≡ refuses_create_in (all_records ahead.now)
        message.now.addressing.message_id message.now.body }
{
    let Some(message_id) = &message.addressing.message_id else {
        return false;
    };
    match &message.body {
        Body::Lifecycle(Lifecycle::Create(create)) => refuses(ahead, message_id, create),
        _ => false,
    }
}

/// Whether a body is a MakeConnection with no address and nothing else selected.
pub(crate) fn lacks_selection(body: &Body) -> bool
    ensures { result ≡ lacks_selection_of body.now }
{
    match body {
        Body::Lifecycle(Lifecycle::Make(selection)) => {
            selection.address.is_none() && !selection.other
        }
        _ => false,
    }
}

/// Whether a body is a MakeConnection that selects something else.
pub(crate) fn selects_other(body: &Body) -> bool
    ensures { result ≡ selects_other_of body.now }
{
    match body {
        Body::Lifecycle(Lifecycle::Make(selection)) => selection.other,
        _ => false,
    }
}
