//! Sequences that records to come will make, with room for more records of them.
ghost use Rattle.std.specs.Prelude.{◌≡◌, ◌↔◌, ◌+◌, ◌≤◌, ◌++◌, ◌∷◌, length, map, slice_get, true, Some, List, OnOk};
ghost use Rattle.std.specs.Prelude.{IsTrue, vec_len, vec_capacity};
ghost use Rattle.std.specs.List.{flat_map, list_all};
ghost use Rattle.std.specs.Option.{option_to_list};
ghost use Rattle.record_batch.specs.Fact.{fact_of};
ghost use Rattle.node_tables.specs.declared.row.row.Start.{Start};
ghost use Rattle.node_tables.specs.Row.Row.{is_timed_start, started};
ghost use Rattle.record_batch.specs.Sequences.Makers.{makers_of};
ghost use Rattle.record_batch.specs.Sequences.Told.{begun};
ghost use Rattle.node_tables.specs.Kept.{is_timed_record, tolds};
ghost use Rattle.node_tables.specs.Room.{AreBegun, all_spares, all_timed, spare_of, spares_ahead, starts, starts_of};

use crate::note::Coming;
use crate::row::{Row, Start};
use record_batch::Record;
use rm_base::Memory;
use std::alloc::Global;

/// How the first sequence begins that a record makes.
pub(crate) fn first_start(given: &Record) -> Option<Start>
    ensures { result ≡ slice_get (starts_of (fact_of given.now)) 0 }
{
    match given {
        Record::Creating { ticket, .. } => Some(Start::Asked { ticket: *ticket }),
        Record::Granted {
            behaviour,
            deadline,
            ..
        } => Some(Start::Granted {
            behaviour: *behaviour,
            deadline: *deadline,
        }),
        _ => None,
    }
}

/// How the second sequence begins that a record makes.
pub(crate) fn second_start(given: &Record) -> Option<Start>
    ensures { result ≡ slice_get (starts_of (fact_of given.now)) 1 }
{
    match given {
        Record::Creating {
            offer: Some(offer),
            ..
        } => Some(Start::Offered {
            behaviour: offer.behaviour,
        }),
        Record::Granted { offer: Some(_), .. } => Some(Start::Taken),
        _ => None,
    }
}

/// Puts the sequences that records will make behind the others.
pub(crate) fn prepare_all(
    alloc: Global,
    ahead: &mut Vec<Coming>,
    batch: &[Record],
) -> Result<(), Memory>
    requires { AreBegun ahead.old.items }
    ensures begun { AreBegun ahead.new.items }
    ensures starts { list_all is_timed_record (map fact_of batch.now) ≡ true →
        OnOk result (starts ahead.new.items ≡ starts ahead.old.items ++ flat_map starts_of (map fact_of batch.now)) }
{
    for given in batch {
        prepare(alloc, ahead, given)?;
    }
    Ok(())
}

/// Puts the sequences that a record will make behind the others.
fn prepare(alloc: Global, ahead: &mut Vec<Coming>, given: &Record) -> Result<(), Memory>
    requires { AreBegun ahead.old.items }
    ensures begun { AreBegun ahead.new.items }
    ensures starts { is_timed_record (fact_of given.now) ≡ true →
        OnOk result (starts ahead.new.items ≡ starts ahead.old.items ++ starts_of (fact_of given.now)) }
{
    prepare_one(alloc, ahead, first_start(given))?;
    prepare_one(alloc, ahead, second_start(given))
}

/// Puts a sequence that begins so behind the others, where there is one and its deadline is a moment.
fn prepare_one(alloc: Global, ahead: &mut Vec<Coming>, start: Option<Start>) -> Result<(), Memory>
    requires { AreBegun ahead.old.items }
    ensures begun { AreBegun ahead.new.items }
    ensures starts { all_timed (option_to_list start) ≡ true →
        OnOk result (starts ahead.new.items ≡ starts ahead.old.items ++ option_to_list start) }
{
    match start {
        Some(start) => {
            if !is_timed(start) {
                return Ok(());
            }
            ahead.reserve(1)?;
            let row = Row::new(alloc, start);
            ahead.push_reserved(Coming { start, row });
            Ok(())
        }
        None => Ok(()),
    }
}

/// Whether the deadline that a sequence begins with is a moment.
fn is_timed(start: Start) -> bool
    ensures { result ≡ is_timed_start start }
{
    match start {
        Start::Granted { deadline, .. } => deadline != Some(0),
        Start::Asked { .. } | Start::Taken | Start::Offered { .. } => true,
    }
}

/// A sequence that begins so: the next one that was prepared, with its room, or else a new one. It takes no memory.
fn take_ahead(alloc: Global, ahead: &mut Vec<Coming>, start: Start) -> Row
    requires timed { is_timed_start start ≡ true }
    requires begun { AreBegun ahead.old.items }
    ensures told { result.told ≡ started start }
    ensures begun { AreBegun ahead.new.items }
    ensures next { (later : List Start) → starts ahead.old.items ≡ start ∷ later → starts ahead.new.items ≡ later }
    ensures room { (later : List Start) → starts ahead.old.items ≡ start ∷ later
        → spares_ahead ahead.old.items ≡ spare_of result ∷ spares_ahead ahead.new.items }
{
    if is_next(ahead.as_slice(), start) {
        let next = ahead.remove(0);
        return next.row;
    }
    ahead.clear();
    Row::new(alloc, start)
}

/// Whether the first of the sequences begins so.
fn is_next(ahead: &[Coming], start: Start) -> bool
    ensures { (result ≡ true) ↔ (slice_get (starts ahead.now) 0 ≡ Some start) }
{
    match ahead.first() {
        Some(next) => next.start == start,
        None => false,
    }
}

/// Puts a sequence that begins so behind the rows, where there is one. Where there is room for it, it takes no memory.
fn begin_one(alloc: Global, rows: &mut Vec<Row>, ahead: &mut Vec<Coming>, start: Option<Start>)
    requires room { vec_len rows.old + 1 ≤ vec_capacity rows.old }
    requires timed { all_timed (option_to_list start) ≡ true }
    requires begun { AreBegun ahead.old.items }
    ensures rows { tolds rows.new.items ≡ tolds rows.old.items ++ map started (option_to_list start) }
    ensures begun { AreBegun ahead.new.items }
    ensures len { vec_len rows.new ≤ vec_len rows.old + 1 }
    ensures capacity { vec_capacity rows.new ≡ vec_capacity rows.old }
    ensures next { (later : List Start) → starts ahead.old.items ≡ option_to_list start ++ later
        → starts ahead.new.items ≡ later }
    ensures spares { (later : List Start) → starts ahead.old.items ≡ option_to_list start ++ later
        → all_spares rows.new.items ahead.new.items
        ≡ all_spares rows.old.items ahead.old.items }
{
    if let Some(start) = start {
        rows.push_reserved(take_ahead(alloc, ahead, start));
    }
}

/// Puts the sequences that a record makes behind the rows. Where there is room for two, it takes no memory.
pub(crate) fn begin(alloc: Global, rows: &mut Vec<Row>, ahead: &mut Vec<Coming>, given: &Record)
    requires room { vec_len rows.old + 2 ≤ vec_capacity rows.old }
    requires timed { IsTrue (is_timed_record (fact_of given.now)) }
    requires begun { AreBegun ahead.old.items }
    ensures rows { tolds rows.new.items
        ≡ tolds rows.old.items ++ map begun (makers_of (fact_of given.now)) }
    ensures begun { AreBegun ahead.new.items }
    ensures len { vec_len rows.new ≤ vec_len rows.old + 2 }
    ensures capacity { vec_capacity rows.new ≡ vec_capacity rows.old }
    ensures next { (later : List Start) → starts ahead.old.items ≡ starts_of (fact_of given.now) ++ later
        → starts ahead.new.items ≡ later }
    ensures spares { (later : List Start) → starts ahead.old.items ≡ starts_of (fact_of given.now) ++ later
        → all_spares rows.new.items ahead.new.items
        ≡ all_spares rows.old.items ahead.old.items }
{
    begin_one(alloc, rows, ahead, first_start(given));
    begin_one(alloc, rows, ahead, second_start(given));
}
