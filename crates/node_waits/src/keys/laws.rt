//! What a pass over the keys that records may end leaves, and how many cells there are at most.
ghost use Rattle.node_waits.specs.Keys.Settled.{OneMoreHasRoom, OnlyTheTouched};

use rm_protocol::laws::records_leave_other_keys;

/// Where the keys that waited did so by the records before, and those that the new records may end were touched, a pass
/// over these leaves exactly those that wait by all records, in their order. An acknowledgement may end the keys of its
/// numbers alone.
pub fn only_the_touched_are_looked_at()
    ensures { OnlyTheTouched }
{
    records_leave_other_keys()
}

/// Where no key has two cells, each key that has one is among some keys, and so is one more that has none, there are
/// fewer cells than keys. So there is room for one more, as at most 4352 keys wait by the records of a node.
pub fn one_more_has_room()
    ensures { OneMoreHasRoom }
{}
