//! What is done once the records of an answer are there: all memory for it is taken before they are written.
ghost use Rattle.std.specs.Prelude.{◌≡◌, ◌≢◌, ◌⊎◌, ◌<◌, ◌≤◌, [], true, false, List, length, map, max, is_ok};
ghost use Rattle.std.specs.Prelude.{IfErr, IfOk, IfSome, IsTrue, None};
ghost use Rattle.std.specs.List.{flat_map};
ghost use Rattle.rm_base.specs.Limits.{most_keys, now_max};
ghost use Rattle.record_batch.specs.Fact.{Fact, fact_of};
ghost use Rattle.rm_disk.specs.Cause.{HasCause};
ghost use Rattle.rm_disk.specs.Journal.JournalState.{end_of};
ghost use Rattle.node_laws.specs.Sizes.Room.{HasRoom};
ghost use Rattle.record_batch.specs.Sequences.Fits.{all_fit};
ghost use Rattle.node_store.specs.Changes.{Changes};
ghost use Rattle.node_store.specs.Failed.{is_disk};
ghost use Rattle.node_store.specs.Has.{Holds};
ghost use Rattle.node_store.specs.Stored.{stored_after};
ghost use Rattle.node_store.specs.declared.error.StoreError.TheVariants.{Memory as WantsMemory, Disk as DiskFails};
ghost use Rattle.node_laws.specs.Answers.Answers.{moves_seen};
ghost use Rattle.timers.specs.Keys.Keyed.{Rises, Steps, slot_at};
ghost use Rattle.node_waits.specs.Keys.Settled.{cells_all, changed, touched_by};
ghost use Rattle.node_waits.specs.Fetched.{fetched_seen};
ghost use Rattle.node_waits.specs.Held.{AreHeld, addresses_of, messages_of};
ghost use Rattle.rm_protocol.specs.Polls.{puts_all, waiting_of, without_fetched};

use crate::fetch::Answered;
use crate::kept::Kept;
use crate::wait::wait_on;
use node_laws::answers::{Answer, Moves};
use node_store::{Store, StoreError};
use node_tables::Tables;
use node_waits::keys::{Touched, named};
use node_waits::{Fetched, Held, keep, make_room, take, to_wait};
use rm_base::Memory;
use rm_disk::Disk;
use rm_message::Message;
use std::alloc::Global;
use timers::pending::Pending;
use timers::slots::Key;

/// What is made before the records of an answer are written: the keys that they may end, and the messages that are to
/// wait, for which there is room.
#[derive(Debug, Drop)]
pub(crate) struct Ready {
    pub(crate) touched: Vec<Touched>,
    pub(crate) held: Vec<Held>,
}

/// What is left of an answer when its records are written: how keys move besides, and the message that was fetched.
#[derive(Debug, Drop)]
pub(crate) struct Rest {
    pub(crate) moves: Moves,
    pub(crate) fetched: Option<Fetched>,
}

/// Takes all memory that an answer needs besides its records, room for the messages that are to wait too.
pub(crate) fn make_ready(
    alloc: Global,
    polled: &mut Pending<Message>,
    answered: &Answered,
) -> Result<Ready, Memory>
    ensures touched { IfOk result (λ r. r.touched.items
        ≡ flat_map touched_by (map fact_of answered.now.answer.batch.items)) }
    ensures messages { IfOk result (λ r. messages_of r.held.items ≡ waiting_of answered.now.answer.outs.items) }
    ensures held { IfOk result (λ r. AreHeld r.held.items) }
    ensures waits { polled.new.waits ≡ polled.old.waits }
    ensures room { IfOk result (λ r. polled.new.ready ≡ addresses_of r.held.items) }
{
    let touched = named(alloc, answered.answer.batch.as_slice())?;
    let held = to_wait(alloc, answered.answer.outs.as_slice())?;
    make_room(polled, held.as_slice())?;
    Ok(Ready { touched, held })
}

/// Writes the records of an answer in one batch.
pub(crate) fn write_down<D: Disk>(
    store: &mut Store,
    disk: &mut D,
    answered: Answered,
) -> Result<Rest, StoreError>
    requires up { store.old.journal.is_down ≡ false }
    requires holds { IsTrue D.tells → (batches : List (List Fact)) × Holds batches (D.told disk.old).past store.old }
    requires fit { all_fit store.old.records (map fact_of answered.answer.batch.items) ≡ true }
    requires room { HasRoom (end_of store.old.journal) (map fact_of answered.answer.batch.items) }
    ensures stored { store.new
        ≡ stored_after store.old (map fact_of answered.answer.batch.items) (is_ok result) (is_disk result) }
    ensures changes { IsTrue D.tells → Changes (D.told disk.old) (D.told disk.new) store.old store.new
        (map fact_of answered.answer.batch.items) (is_ok result) (is_disk result) }
    ensures some { is_disk result ≡ true → map fact_of answered.answer.batch.items ≢ [] }
    ensures refusals { IfErr result (λ error. (error ≡ WantsMemory) ⊎ (error ≡ DiskFails)) }
    ensures cause { HasCause (D.told disk.old).faults (D.told disk.new).faults (is_disk result) }
    ensures moves { IfOk result (λ rest. rest.moves ≡ answered.answer.moves) }
    ensures fetched { IfOk result (λ rest. rest.fetched ≡ answered.fetched) }
{
    let Answered { answer, fetched } = answered;
    let Answer { batch, moves, .. } = answer;
    match store.append(disk, batch) {
        Ok(()) => Ok(Rest { moves, fetched }),
        Err(error) => Err(error),
    }
}

/// Moves the keys and the messages that wait, once the records are in the tables. It takes no memory.
pub(crate) fn go_on(kept: &mut Kept, tables: &Tables, ready: Ready, begun: Option<Key>, rest: Rest)
    requires time { rest.moves.time ≤ now_max }
    requires spare { Rises kept.old.timers.cells → IfSome begun (λ key.
        slot_at (cells_all tables.now.records ready.touched.items kept.old.timers.cells) key ≡ None
        → length (cells_all tables.now.records ready.touched.items kept.old.timers.cells) < most_keys) }
    requires room { kept.old.polled.ready ≡ addresses_of ready.held.items }
    requires held { AreHeld ready.held.items }
    ensures granted { kept.new.granted ≡ kept.old.granted }
    ensures waits { Steps kept.old.timers kept.new.timers
        (changed tables.now.records ready.touched.items begun (moves_seen rest.moves).urged
        (moves_seen rest.moves).emitted (max kept.old.timers.time rest.moves.time)) }
    ensures time { kept.new.timers.time ≡ max kept.old.timers.time rest.moves.time }
    ensures polled { kept.new.polled.waits
        ≡ puts_all (without_fetched kept.old.polled.waits (fetched_seen rest.fetched)) (messages_of ready.held.items) }
{
    wait_on(
        &mut kept.timers,
        tables,
        ready.touched.as_slice(),
        begun,
        &rest.moves,
    );
    take(&mut kept.polled, &rest.fetched);
    keep(&mut kept.polled, ready.held);
}
