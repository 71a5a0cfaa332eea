//! What an answer makes of the keys that wait.
ghost use Rattle.std.specs.Prelude.{◌≡◌, ◌<◌, ◌≤◌, length, max, IfSome, None};
ghost use Rattle.rm_base.specs.Limits.{most_keys, now_max};
ghost use Rattle.node_laws.specs.Answers.Answers.{moves_seen};
ghost use Rattle.timers.specs.Keys.Keyed.{Rises, Steps, slot_at};
ghost use Rattle.node_waits.specs.Keys.Settled.{cells_all, changed};

use node_laws::answers::Moves;
use node_tables::Tables;
use node_waits::keys::{Touched, after_call};
use timers::keys::KeyTimers;
use timers::slots::Key;

/// The time is at least what an answer tells, and the keys move, once its records, which may end these keys, are in the
/// tables. It takes no memory.
pub(crate) fn wait_on(
    timers: &mut KeyTimers,
    tables: &Tables,
    touched: &[Touched],
    begun: Option<Key>,
    moves: &Moves,
)
    requires time { moves.now.time ≤ now_max }
    requires spare { Rises timers.old.cells
        → IfSome begun (λ key. slot_at (cells_all tables.now.records touched.now timers.old.cells) key ≡ None
        → length (cells_all tables.now.records touched.now timers.old.cells) < most_keys) }
    ensures waits { Steps timers.old timers.new
        (changed tables.now.records touched.now begun (moves_seen moves.now).urged (moves_seen moves.now).emitted
        (max timers.old.time moves.now.time)) }
    ensures time { timers.new.time ≡ max timers.old.time moves.now.time }
{
    timers.advance(moves.time);
    after_call(
        timers,
        tables,
        touched,
        begun,
        moves.urged.as_slice(),
        moves.emitted.as_slice(),
    );
}
