//! What the definitions of the plain list mean.
ghost use Rattle.timers.specs.Slots.Laws.{OneEntryMoves, DueIsSeenByClass, LiveIsWaiting};

/// Where slots are distinct, a move takes the one entry of a slot from its place and puts it last.
pub fn one_entry_moves()
    ensures { OneEntryMoves }
{}

/// Two lists with the same entries in each class, in the same order, have the same entries due, in the same order.
pub fn due_is_seen_by_class()
    ensures { DueIsSeenByClass }
{}

/// A slot is live exactly where the plain list has an entry with it.
pub fn live_is_waiting()
    ensures { LiveIsWaiting }
{}
