//! Bytes that came on a connection, given to the node.
ghost use Rattle.std.specs.Prelude.{◌≡◌, List, Err, OnOk, true};
ghost use Rattle.rm_disk.specs.Cause.{HasCause};
ghost use Rattle.rm_node.specs.Ends.{is_disk};
ghost use Rattle.rm_serve.specs.Steps.{IsReady, MakesAll, Step, place_of};
ghost use Rattle.rm_serve.specs.Reacts.{Reacts};

use node_laws::laws::there_are_own_terms;
use rm_disk::Disk;
use rm_node::{Node, NodeError, Reaction};

/// Gives bytes to the node: one call, as the protocol says, of what the bytes are read as; or nothing happens.
pub fn hear<D: Disk>(
    node: &mut Node,
    disk: &mut D,
    now: u64,
    bytes: &[u8],
) -> Result<Reaction, NodeError>
    requires ready { IsReady D.tells (place_of (D.told disk.old) node.old) }
    ensures reacts { (steps : List Step) × MakesAll D.tells (place_of (D.told disk.old) node.old)
        (place_of (D.told disk.new) node.new) steps × Reacts now bytes.now steps result }
    ensures ready { IsReady D.tells (place_of (D.told disk.new) node.new) }
    ensures up { OnOk result (node.new.stored.journal.is_down ≡ node.old.stored.journal.is_down) }
    ensures down { result ≡ Err NodeError.Down → node.old.stored.journal.is_down ≡ true }
    ensures cause { HasCause (D.told disk.old).faults (D.told disk.new).faults (is_disk result) }
{
    there_are_own_terms();
    node.receive(disk, now, bytes)
}
