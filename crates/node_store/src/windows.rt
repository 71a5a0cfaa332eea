//! Whether the records of tables keep what those of a node keep all together.
ghost use Rattle.std.specs.Prelude.{◌≡◌, ◌↔◌, ◌≤◌, ◌<◌, ◌^◌, ℕ, true, IsTrue};
ghost use Rattle.rm_base.specs.NumberSet.{has_number};
ghost use Rattle.rm_sides.specs.Destination.Incoming.{items};
ghost use Rattle.rm_disk.specs.Journal.JournalState.{end_of};
ghost use Rattle.record_batch.specs.Sequences.Destinations.{front, held};
ghost use Rattle.record_batch.specs.Sequences.Fits.{is_incoming_side, is_outgoing_side};
ghost use Rattle.record_batch.specs.Sequences.Makers.{maker};
ghost use Rattle.record_batch.specs.Sequences.Sources.{unacked};
ghost use Rattle.node_laws.specs.Records.{BeginsWithMade};
ghost use Rattle.node_store.specs.Mounted.{AreNear, HasNear, HasWindow, KeepsWindow, KeepsWindows};
ghost use Rattle.node_store.specs.Stored.{IsServing};

use node_tables::Tables;
use node_tables::laws::{an_incoming_sequence_is_as_recorded, an_outgoing_sequence_is_as_recorded};
use rm_base::limits::{MOST_SEQUENCES, MOST_UNACKED, WINDOW};
use rm_disk::journal::Journal;
use rm_sides::destination::Incoming;
use rm_sides::destination::laws::front_is_reached;

/// No memory holds a journal of so many bytes.
pub(crate) const TOO_MANY_BYTES: u64 = 1 << 61;

/// Whether a node may go on from a journal and the records of its entries. A node draws fewer numbers than its journal
/// has bytes; only a disk that tells nothing can give entries with more.
pub(crate) fn may_serve(journal: &Journal, tables: &Tables) -> bool
    requires short { end_of journal.now < 2 ^ 61 }
    requires placed { journal.now.bank.start ≤ end_of journal.now }
    ensures { IsTrue result ↔ IsServing journal.now tables.now.records }
{
    if !begins_with_made(tables) {
        return false;
    }
    tables.counter() <= journal.end()
}

// The record Made comes first or not at all.
fn begins_with_made(tables: &Tables) -> bool
    ensures { IsTrue result ↔ BeginsWithMade tables.now.records }
{
    let _count = tables.len();
    tables.number() > 0
}

/// Whether there are not too many sequences, and each keeps its window.
pub(crate) fn keep_windows(tables: &Tables) -> bool
    ensures { IsTrue result ↔ KeepsWindows tables.now.records }
{
    if tables.len() > MOST_SEQUENCES {
        return false;
    }
    if tables.unacked() > MOST_UNACKED {
        return false;
    }
    all_keep_windows(tables)
}

fn all_keep_windows(tables: &Tables) -> bool
    ensures { IsTrue result ↔ ((s : ℕ) → KeepsWindow tables.now.records s) }
{
    for before in 0..tables.len() {
        if !keeps_window(tables, before + 1) {
            return false;
        }
    }
    true
}

fn keeps_window(tables: &Tables, seq: u32) -> bool
    ensures { IsTrue result ↔ KeepsWindow tables.now.records seq }
{
    if !has_window(tables, seq) {
        return false;
    }
    has_near(tables, seq)
}

// Whether at most 1024 messages of an outgoing sequence are not acknowledged.
fn has_window(tables: &Tables, seq: u32) -> bool
    ensures { IsTrue result ↔ HasWindow tables.now.records seq }
{
    an_outgoing_sequence_is_as_recorded();
    match tables.outgoing(seq) {
        Some(outgoing) => outgoing.unacked() <= WINDOW,
        None => true,
    }
}

// Whether no number of an incoming sequence is more than 1024 past its front.
fn has_near(tables: &Tables, seq: u32) -> bool
    ensures { IsTrue result ↔ HasNear tables.now.records seq }
{
    an_incoming_sequence_is_as_recorded();
    match tables.incoming(seq) {
        Some(incoming) => are_near(incoming),
        None => true,
    }
}

fn are_near(incoming: &Incoming) -> bool
    ensures { IsTrue result ↔ AreNear (items incoming.now.facts) }
{
    front_is_reached();
    let numbers = incoming.received();
    let _ranges = numbers.ranges();
    numbers.greatest().saturating_sub(numbers.front()) <= WINDOW
}
