//! What a tick emits, and what a Nack wants.
ghost use Rattle.std.specs.Prelude.{◌≡◌, ◌≤◌, IfOk, List, max};
ghost use Rattle.rm_base.specs.Limits.{now_max};
ghost use Rattle.timers.specs.Keys.Keyed.{Steps, StandsFor};
ghost use Rattle.timers.specs.Keys.Waits.{Wait, first_due, send_all, urge_all as urge_all_of};

use rm_base::Memory;
use std::alloc::Global;
use timers::keys::{KeyTimers, MOST_EMITTED};
use timers::slots::Key;

/// The first keys that are due, as many as a tick emits, by class and then by the order of the last move.
pub fn due_keys(alloc: Global, timers: &KeyTimers, now: u64) -> Result<Vec<Key>, Memory>
    requires { now ≤ now_max }
    ensures { (waits : List Wait) → StandsFor timers.now waits
        → IfOk result (λ keys. keys.items ≡ first_due (max timers.now.time now) waits) }
{
    let mut keys = Vec::new(alloc);
    for k in 0..MOST_EMITTED {
        match timers.due(now, k) {
            Some(key) => keys.push(key)?,
            None => return Ok(keys),
        }
    }
    Ok(keys)
}

/// These keys are emitted.
pub(crate) fn emit_all(timers: &mut KeyTimers, keys: &[Key])
    ensures waits { Steps timers.old timers.new (send_all timers.old.time keys.now) }
    ensures cells { timers.new.cells ≡ timers.old.cells }
    ensures time { timers.new.time ≡ timers.old.time }
{
    for key in keys {
        timers.emit(*key);
    }
}

/// These keys are wanted at once.
pub(crate) fn urge_all(timers: &mut KeyTimers, keys: &[Key])
    ensures waits { Steps timers.old timers.new (urge_all_of keys.now) }
    ensures cells { timers.new.cells ≡ timers.old.cells }
    ensures time { timers.new.time ≡ timers.old.time }
{
    for key in keys {
        timers.urge(*key);
    }
}
