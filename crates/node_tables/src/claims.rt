//! Room for records to come.
ghost use Rattle.std.specs.Prelude.{◌≡◌, ◌+◌, ◌-◌, ◌≤◌, map, IsOk, OnOk, vec_len, vec_capacity};
ghost use Rattle.record_batch.specs.Fact.{fact_of};
ghost use Rattle.node_tables.specs.Kept.{tolds};
ghost use Rattle.node_tables.specs.Room.{AreBegun, AreClaimed, AreEnough, HasPlaces, all_spares, starts};

use crate::note::{Coming, Named, Note, Origin};
use crate::record::named_by;
use crate::row::Row;
use record_batch::Record;
use rm_base::Memory;

/// Makes room for so many records in each list.
pub(crate) fn make_room(
    kept: &mut Vec<Record>,
    rows: &mut Vec<Row>,
    notes: &mut Vec<Note>,
    origins: &mut Vec<Origin>,
    named: &mut Vec<Named>,
    count: usize,
) -> Result<(), Memory>
    ensures kept { kept.new.items ≡ kept.old.items }
    ensures rows { rows.new.items ≡ rows.old.items }
    ensures notes { notes.new.items ≡ notes.old.items }
    ensures origins { origins.new.items ≡ origins.old.items }
    ensures named { named.new.items ≡ named.old.items }
    ensures kept_room { OnOk result (vec_len kept.new + count ≤ vec_capacity kept.new) }
    ensures rows_room { OnOk result (vec_len rows.new + (count + count) ≤ vec_capacity rows.new) }
    ensures notes_room { OnOk result (vec_len notes.new + count ≤ vec_capacity notes.new) }
    ensures origins_room { OnOk result (vec_len origins.new + (count + count) ≤ vec_capacity origins.new) }
    ensures named_room { OnOk result (vec_len named.new + count ≤ vec_capacity named.new) }
    ensures ready { HasPlaces count (record {
      kept = vec_capacity kept.old - vec_len kept.old;
      rows = vec_capacity rows.old - vec_len rows.old;
      notes = vec_capacity notes.old - vec_len notes.old;
      origins = vec_capacity origins.old - vec_len origins.old;
      named = vec_capacity named.old - vec_len named.old;
    }) → IsOk result }
    ensures kept_grown { vec_capacity kept.old - vec_len kept.old ≤ vec_capacity kept.new - vec_len kept.new }
    ensures rows_grown { vec_capacity rows.old - vec_len rows.old ≤ vec_capacity rows.new - vec_len rows.new }
    ensures notes_grown { vec_capacity notes.old - vec_len notes.old ≤ vec_capacity notes.new - vec_len notes.new }
    ensures origins_grown { vec_capacity origins.old - vec_len origins.old
        ≤ vec_capacity origins.new - vec_len origins.new }
    ensures named_grown { vec_capacity named.old - vec_len named.old ≤ vec_capacity named.new - vec_len named.new }
{
    let twice = count.checked_add(count).ok_or(Memory)?;
    kept.reserve(count)?;
    rows.reserve(twice)?;
    notes.reserve(count)?;
    origins.reserve(twice)?;
    named.reserve(count)?;
    Ok(())
}

/// Gives up the room of each row.
pub(crate) fn release_all(rows: &mut Vec<Row>)
    ensures told { tolds rows.new.items ≡ tolds rows.old.items }
    ensures len { vec_len rows.new ≡ vec_len rows.old }
    ensures capacity { vec_capacity rows.new ≡ vec_capacity rows.old }
{
    for k in 0..rows.len() {
        rows[k].release();
    }
}

/// Makes room for what records add to the sequences that they name.
pub(crate) fn claim_all(
    rows: &mut Vec<Row>,
    ahead: &mut Vec<Coming>,
    batch: &[Record],
) -> Result<(), Memory>
    requires { AreBegun ahead.old.items }
    ensures told { tolds rows.new.items ≡ tolds rows.old.items }
    ensures starts { starts ahead.new.items ≡ starts ahead.old.items }
    ensures begun { AreBegun ahead.new.items }
    ensures len { vec_len rows.new ≡ vec_len rows.old }
    ensures capacity { vec_capacity rows.new ≡ vec_capacity rows.old }
    ensures enough { OnOk result (AreEnough (all_spares rows.new.items ahead.new.items) (map fact_of batch.now)) }
{
    for given in batch {
        claim(rows, ahead, given)?;
    }
    Ok(())
}

/// Makes room for what a record adds to the sequence that it names.
fn claim(rows: &mut Vec<Row>, ahead: &mut Vec<Coming>, given: &Record) -> Result<(), Memory>
    requires { AreBegun ahead.old.items }
    ensures told { tolds rows.new.items ≡ tolds rows.old.items }
    ensures starts { starts ahead.new.items ≡ starts ahead.old.items }
    ensures begun { AreBegun ahead.new.items }
    ensures len { vec_len rows.new ≡ vec_len rows.old }
    ensures capacity { vec_capacity rows.new ≡ vec_capacity rows.old }
    ensures claimed { OnOk result (AreClaimed (all_spares rows.old.items ahead.old.items)
        (all_spares rows.new.items ahead.new.items) (fact_of given.now)) }
{
    let seq = named_by(given) as usize;
    if seq == 0 {
        return Ok(());
    }
    let place = seq - 1;
    let len = rows.len();
    if place < len {
        rows[place].claim(given)?;
        return Ok(());
    }
    if place - len < ahead.len() {
        ahead[place - len].row.claim(given)?;
    }
    Ok(())
}
