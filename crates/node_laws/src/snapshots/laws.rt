//! What follows for a node.
ghost use Rattle.node_laws.specs.Snapshots.Kept.{KeptHasProper, KeptHasSets, SnapshotIsKept};

use rm_sides::ranges::{ends_are_right, same_numbers_same_ranges, union_has_both};

/// A snapshot of the records of a node is records of a node: a mount accepts it.
pub fn a_snapshot_is_kept()
    ensures { SnapshotIsKept }
{
    union_has_both();
    ends_are_right();
    same_numbers_same_ranges();
}

/// The acknowledged numbers of each sequence of a node are a set, so a snapshot says the same.
pub fn a_node_has_sets()
    ensures { KeptHasSets }
{
    union_has_both();
}

/// Each range of numbers that a node has acknowledged has a number.
pub fn a_node_has_proper_ranges()
    ensures { KeptHasProper }
{}
