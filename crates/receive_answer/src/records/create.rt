//! The row of a CreateSequence: WS-ReliableMessaging 1.2, section 3.4.
ghost use Rattle.std.specs.Prelude.{◌≡◌, ◌<◌, ◌^◌, ◌++◌, length, false, OnOk};
ghost use Rattle.rm_base.specs.Limits.{most_sequences};
ghost use Rattle.record_batch.specs.Sequences.Makers.{counter, makers};
ghost use Rattle.rm_protocol.specs.Rows.{create_at, create_row as create_row_of};
ghost use Rattle.rm_protocol.specs.Terms.{Terms};
ghost use Rattle.rm_protocol.specs.Verdict.{refuses_create};
ghost use Rattle.node_laws.specs.OwnTerms.{AreOwn};
ghost use Rattle.receive_answer.specs.Records.WithRow.{with_row};
ghost use Rattle.tables_ahead.specs.Known.{all_records};

use crate::records::offers::taken_of;
use node_laws::laws::a_duration_ends_once;
use record_batch::Record;
use rm_base::{Behaviour, Lapse, Memory, NOW_MAX, Uri};
use rm_message::Body;
use rm_message::elements::{CreateSequence, Lifecycle, deadline};
use std::alloc::Global;
use tables_ahead::Known;

/// Granted, where no sequence was granted for this MessageID yet.
pub(crate) fn create_row(
    alloc: Global,
    ahead: &mut Known<'_>,
    now: u64,
    granted: Behaviour,
    message_id: &Option<Uri>,
    create: &CreateSequence,
) -> Result<(), Memory>
    requires drawn { counter (all_records ahead.old) < 2 ^ 62 }
    requires granted { refuses_create (all_records ahead.old) message_id.now
        (Body.Lifecycle (Lifecycle.Create create.now)) ≡ false }
    ensures records { ahead.new.records ≡ ahead.old.records }
    ensures delta { (terms : Terms) → AreOwn terms → OnOk result (ahead.new.delta
        ≡ with_row (create_row_of terms now granted message_id.now create.now) ahead.old) }
{
    let Some(message_id) = message_id else {
        return Ok(());
    };
    match ahead.find_grant(message_id) {
        Some(_) => Ok(()),
        None => grant(alloc, ahead, now, granted, message_id, create),
    }
}

/// Granted, with the next number that is drawn.
fn grant(
    alloc: Global,
    ahead: &mut Known<'_>,
    now: u64,
    granted: Behaviour,
    message_id: &Uri,
    create: &CreateSequence,
) -> Result<(), Memory>
    requires drawn { counter (all_records ahead.old) < 2 ^ 62 }
    requires few { length (makers (all_records ahead.old)) < most_sequences }
    ensures records { ahead.new.records ≡ ahead.old.records }
    ensures delta { (terms : Terms) → AreOwn terms → OnOk result (ahead.new.delta
        ≡ with_row (create_at terms now granted None message_id.now create.now) ahead.old) }
{
    let given = Record::Granted {
        counter: ahead.counter() + 1,
        message_id: message_id.copy()?,
        acks_to: create.acks_to.copy(alloc)?,
        behaviour: granted,
        deadline: deadline_of(now, create.expires),
        lapse: create.expires,
        offer: taken_of(alloc, ahead, &create.offer)?,
    };
    ahead.push(given)
}

/// When a duration ends that begins now. What begins later than any moment that a clock tells never ends.
fn deadline_of(now: u64, lapse: Lapse) -> Option<u64>
    ensures { (terms : Terms) → AreOwn terms → result ≡ terms.deadline now lapse }
{
    a_duration_ends_once();
    if now > NOW_MAX {
        return None;
    }
    match deadline(now, lapse) {
        Ok(end) => end,
        Err(_) => unreachable!(),
    }
}
