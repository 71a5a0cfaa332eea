//! The keys that records may have ended, once the records were added.
ghost use Rattle.std.specs.Prelude.{◌≡◌, ◌≤◌, length, slice_get};
ghost use Rattle.timers.specs.Keys.Keyed.{Steps, keys_in};
ghost use Rattle.rm_base.specs.Limits.{most_keys};
ghost use Rattle.node_waits.specs.Keys.Settled.{own_of, settled, settled_cells};

use crate::keys::touched::Touched;
use crate::keys::waiting::waits;
use node_tables::Tables;
use timers::keys::KeyTimers;
use timers::slots::Key;

/// The key at a place, where it was touched.
fn own_key(timers: &KeyTimers, place: usize, touched: Touched) -> Option<Key>
    ensures key { result ≡ own_of touched (slice_get (keys_in timers.now.cells) place) }
    ensures few { length timers.now.cells ≤ most_keys }
{
    match timers.key_at(place) {
        Some(key) => {
            if touched.has(key) {
                return Some(key);
            }
            None
        }
        None => None,
    }
}

/// Of the keys that were touched those that no longer wait by the records are gone: one pass over those of them that
/// waited, and no other key is looked at but the next behind them.
pub(crate) fn settle(timers: &mut KeyTimers, tables: &Tables, touched: Touched)
    ensures waits { Steps timers.old timers.new (settled tables.now.records touched) }
    ensures cells { timers.new.cells ≡ settled_cells tables.now.records touched timers.old.cells }
    ensures time { timers.new.time ≡ timers.old.time }
{
    let mut place = timers.place(touched.first_key());
    while let Some(key) = own_key(timers, place, touched) {
        if waits(tables, key) {
            place += 1;
        } else {
            timers.take_out(place);
        }
    }
}
