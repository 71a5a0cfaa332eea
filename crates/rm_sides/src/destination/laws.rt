//! What the definitions of the front, the inbox and the discarded messages come to.
ghost use Rattle.std.specs.Prelude.{◌≡◌, true, false};
ghost use Rattle.rm_sides.specs.Destination.Incoming.{Receiving, is_loose};
ghost use Rattle.rm_sides.specs.Destination.Laws.{FrontIsReached, PlaceIsNumber, InboxIsAPrefix, LooseReleasesAll};
ghost use Rattle.rm_sides.specs.Destination.Laws.{NothingIsLost};

/// The front is the greatest m such that 1 to m came.
pub fn front_is_reached()
    ensures { FrontIsReached }
{}

/// What stands at a place up to the first gap came with the number of that place.
pub fn place_is_number()
    ensures { PlaceIsNumber }
{}

/// The inbox of an ordered sequence is what came up to the first gap, or nothing, and under DiscardEntireSequence all
/// or nothing.
pub fn inbox_is_a_prefix()
    ensures { (f : Receiving) → is_loose f.behaviour ≡ false → InboxIsAPrefix f }
{}

/// A loose sequence releases all that came, in the order in which it came, and discards nothing.
pub fn a_loose_inbox_has_all()
    ensures { (f : Receiving) → is_loose f.behaviour ≡ true → LooseReleasesAll f }
{}

/// Once an ordered sequence was closed or ended, all that came is in the inbox or discarded.
pub fn nothing_is_lost()
    ensures { NothingIsLost }
{}
