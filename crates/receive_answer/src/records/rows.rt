//! The rows of the receiving table.
ghost use Rattle.std.specs.Prelude.{◌≡◌, ℕ, ◌<◌, ◌^◌, ◌++◌, [], false, OnOk};
ghost use Rattle.std.specs.List.{AllByRecursion};
ghost use Rattle.record_batch.specs.Sequences.Destinations.{received};
ghost use Rattle.record_batch.specs.Sequences.Makers.{counter};
ghost use Rattle.rm_protocol.specs.Next.{HasRanges};
ghost use Rattle.rm_protocol.specs.Rows.{body_row as body_row_of, rows};
ghost use Rattle.rm_protocol.specs.Terms.{Terms};
ghost use Rattle.rm_protocol.specs.Verdict.{refuses_create};
ghost use Rattle.node_laws.specs.OwnTerms.{AreOwn};
ghost use Rattle.receive_answer.specs.Records.Stripped.{stripped};
ghost use Rattle.receive_answer.specs.Records.WithRow.{with_row};
ghost use Rattle.tables_ahead.specs.Known.{all_records};

use crate::records::acks::ack_rows;
use crate::records::bodies::{
    close_row, closed_row, data_row, ended_row, response_row, terminate_row,
};
use crate::records::create::create_row;
use crate::records::faults::fault_row;
use rm_base::{Behaviour, Bindings, Blob, Memory, Payload};
use rm_message::elements::Lifecycle;
use rm_message::{Body, Message};
use std::alloc::Global;
use std::mem;
use tables_ahead::Known;

/// Puts the records that a message adds ahead. Its payload is moved out.
/// - `delta`, `records`, `rest`: they are the records of the receiving table, each reading those before it, whatever
///   ranges of message numbers the acknowledgements have.
pub fn put_rows(
    alloc: Global,
    ahead: &mut Known<'_>,
    now: u64,
    granted: Behaviour,
    message: &mut Message,
) -> Result<(), Memory>
    requires nothing { ahead.old.delta ≡ [] }
    requires ranges { AllByRecursion HasRanges message.old.acks }
    requires drawn { counter ahead.old.records < 2 ^ 62 }
    requires granted { refuses_create ahead.old.records message.old.addressing.message_id message.old.body ≡ false }
    ensures records { ahead.new.records ≡ ahead.old.records }
    ensures delta { (terms : Terms) → AreOwn terms
        → OnOk result (ahead.new.delta ≡ rows terms now granted message.old ahead.old.records) }
    ensures rest { OnOk result (message.new ≡ stripped message.old) }
{
    ack_rows(alloc, ahead, message.acks.as_slice())?;
    body_row(alloc, ahead, now, granted, message)
}

/// The row of a message's body.
fn body_row(
    alloc: Global,
    ahead: &mut Known<'_>,
    now: u64,
    granted: Behaviour,
    message: &mut Message,
) -> Result<(), Memory>
    requires nothing { (s : ℕ) → received ahead.old.delta s ≡ [] }
    requires drawn { counter (all_records ahead.old) < 2 ^ 62 }
    requires granted { refuses_create (all_records ahead.old) message.old.addressing.message_id
        message.old.body ≡ false }
    ensures records { ahead.new.records ≡ ahead.old.records }
    ensures delta { (terms : Terms) → AreOwn terms → OnOk result (ahead.new.delta
        ≡ with_row (body_row_of terms now granted message.old message.old.body) ahead.old) }
    ensures rest { OnOk result (message.new ≡ stripped message.old) }
{
    let addressing = &message.addressing;
    match &mut message.body {
        Body::Empty => Ok(()),
        Body::Payload(payload) => {
            let payload = moved_out(alloc, payload);
            data_row(ahead, now, &message.sequence, payload)
        }
        Body::Lifecycle(Lifecycle::Create(create)) => {
            create_row(alloc, ahead, now, granted, &addressing.message_id, create)
        }
        Body::Lifecycle(Lifecycle::CreateResponse(response)) => {
            response_row(alloc, ahead, &addressing.relates, response)
        }
        Body::Lifecycle(Lifecycle::Close(finish)) => close_row(ahead, now, finish),
        Body::Lifecycle(Lifecycle::CloseResponse(ident)) => closed_row(ahead, ident),
        Body::Lifecycle(Lifecycle::Terminate(finish)) => terminate_row(ahead, now, finish),
        Body::Lifecycle(Lifecycle::TerminateResponse(ident)) => ended_row(ahead, ident),
        Body::Lifecycle(Lifecycle::Make(_)) => Ok(()),
        Body::Fault(fault) => fault_row(alloc, ahead, &addressing.relates, fault),
    }
}

/// A payload, of which nothing stays where it was.
fn moved_out(alloc: Global, payload: &mut Payload) -> Payload
    ensures given { result ≡ payload.old }
    ensures left { payload.new ≡ record { bytes = []; scope = [] } }
{
    let nothing = Payload {
        bytes: Blob::new(alloc),
        scope: Bindings::new(alloc),
    };
    mem::replace(payload, nothing)
}
