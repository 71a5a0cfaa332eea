//! A node is asked for something, or something comes to it.
ghost use Rattle.rm_replay.specs.Actor.Outcomes.{is_disk};
ghost use Rattle.rm_node.specs.Asked.{Asked, Asks, MayBeAsked};
ghost use Rattle.node_laws.specs.OwnTerms.{AreOwn};
ghost use Rattle.rm_protocol.specs.Terms.{Terms};
ghost use Rattle.rm_protocol.specs.World.{World, node};
ghost use Rattle.rm_replay.specs.Asked.{StepsAt, WereAsked, step_of};
ghost use Rattle.rm_replay.specs.Meaning.{side_of};
ghost use Rattle.rm_replay.specs.Shows.{StandFor, drives_of};

use crate::actor::Came;
use crate::stage::Nodes;
use rm_base::Memory;
use rm_disk::CrashDisk;
use rm_node::Call;
use rm_script::Side;

/// Asks the node at a side.
pub(crate) fn ask_at<M: CrashDisk>(
    one: &mut M,
    two: &mut M,
    nodes: &mut Nodes,
    side: Side,
    call: Call<'_>,
) -> Result<Came, Memory>
    requires there { (w : World) × StandFor w (drives_of M.told one.old two.old) nodes.old }
    requires may { MayBeAsked call }
    ensures steps { (terms : Terms) → AreOwn terms → (asked : Asked) → Asks call.entry asked
        → (w : World) → StandFor w (drives_of M.told one.old two.old) nodes.old
        → StepsAt w (side_of side) (step_of terms (node w (side_of side)) asked call.entry)
        (drives_of M.told one.new two.new) nodes.new result }
    ensures asked { WereAsked (side_of side) (is_disk result) (drives_of M.told one.old two.old)
        (drives_of M.told one.new two.new) }
{
    match side {
        Side::One => nodes.one.ask(one, call),
        Side::Two => nodes.two.ask(two, call),
    }
}
