//! What a call of a node makes of the keys that wait, once its records are there.
ghost use Rattle.std.specs.Prelude.{◌≡◌, ◌<◌, length, IfSome, None};
ghost use Rattle.std.specs.Option.{option_to_list};
ghost use Rattle.timers.specs.Keys.Keyed.{Steps, slot_at};
ghost use Rattle.timers.specs.Keys.Waits.{begin_all, send_all};
ghost use Rattle.rm_base.specs.Limits.{most_keys};
ghost use Rattle.node_waits.specs.Keys.Settled.{cells_all, changed, settled_all};

use crate::keys::moves::{emit_all, urge_all};
use crate::keys::records::settle;
use crate::keys::touched::Touched;
use node_tables::Tables;
use timers::keys::KeyTimers;
use timers::slots::Key;

/// Of the keys that were touched those that no longer wait by the records are gone.
fn settle_all(timers: &mut KeyTimers, tables: &Tables, touched: &[Touched])
    ensures waits { Steps timers.old timers.new (settled_all tables.now.records touched.now) }
    ensures cells { timers.new.cells ≡ cells_all tables.now.records touched.now timers.old.cells }
    ensures time { timers.new.time ≡ timers.old.time }
{
    for part in touched {
        settle(timers, tables, *part);
    }
}

fn begin_some(timers: &mut KeyTimers, begun: Option<Key>)
    requires { IfSome begun (λ key. slot_at timers.old.cells key ≡ None → length timers.old.cells < most_keys) }
    ensures waits { Steps timers.old timers.new (begin_all (option_to_list begun)) }
    ensures time { timers.new.time ≡ timers.old.time }
{
    match begun {
        Some(key) => timers.begin(key),
        None => {}
    }
}

fn emit_some(timers: &mut KeyTimers, begun: Option<Key>)
    ensures waits { Steps timers.old timers.new (send_all timers.old.time (option_to_list begun)) }
    ensures time { timers.new.time ≡ timers.old.time }
{
    match begun {
        Some(key) => timers.emit(key),
        None => {}
    }
}

/// What a call makes of the keys that wait, once its records are in the tables, which may end the keys that were
/// touched: what of these no longer waits is gone, what begins to wait is emitted, these keys are wanted at once, and
/// these are emitted. It takes no memory.
pub fn after_call(
    timers: &mut KeyTimers,
    tables: &Tables,
    touched: &[Touched],
    begun: Option<Key>,
    urged: &[Key],
    emitted: &[Key],
)
    requires spare { IfSome begun (λ key. slot_at (cells_all tables.now.records touched.now timers.old.cells) key ≡ None
        → length (cells_all tables.now.records touched.now timers.old.cells) < most_keys) }
    ensures waits { Steps timers.old timers.new
        (changed tables.now.records touched.now begun urged.now emitted.now timers.old.time) }
    ensures time { timers.new.time ≡ timers.old.time }
{
    settle_all(timers, tables, touched);
    begin_some(timers, begun);
    urge_all(timers, urged);
    emit_some(timers, begun);
    emit_all(timers, emitted);
}
