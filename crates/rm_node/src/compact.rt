//! The journal of a node is written anew.
ghost use Rattle.rm_node.specs.Called.{HasBatches};
ghost use Rattle.rm_node.specs.Compacted.{IsCompacted, compact_end};

use crate::error::NodeError;
use crate::node::Node;
use node_laws::answers::Cause;
use node_laws::snapshots::laws::{a_node_has_proper_ranges, a_snapshot_is_kept};
use node_store::RewriteError;
use node_store::laws::fresh_batches_are_those_of_a_node;
use rm_disk::Disk;
use rm_protocol::laws::what_waits_is_exact_in_short;

impl Node {
    /// Writes the node's journal anew, so that it has what its records say in short, each record as an entry of its
    /// own. The payloads that nobody needs any more are given up: those of the first messages of an outgoing sequence
    /// that are acknowledged, and the items of an inbox that were consumed. What the node says and what waits stays as
    /// it is. It makes five device calls. A crash leaves the journal that stood, or the fresh one; after Disk the node
    /// is down until it is mounted again. The batches that a crash leaves are those of a node.
    /// - Down: exactly where the node is down.
    /// - StoreFull: exactly where `Store::compact` answers Full.
    /// - Disk: exactly where StoreFull doesn't hold and the fuse lies among the device calls.
    pub fn compact<D: Disk>(&mut self, disk: &mut D) -> Result<(), NodeError>
        requires has { HasBatches D.tells (D.told disk.old) self.old }
        ensures { IsCompacted D.tells (D.told disk.old) (D.told disk.new) self.old self.new (compact_end result) }
    {
        a_node_has_proper_ranges();
        a_snapshot_is_kept();
        what_waits_is_exact_in_short();
        fresh_batches_are_those_of_a_node();
        let (_tables, _place) = self.tables_and_end();
        if self.store.is_down() {
            return Err(NodeError::Down);
        }
        match self.store.compact(disk) {
            Ok(()) => Ok(()),
            Err(RewriteError::Memory) => Err(NodeError::Memory),
            Err(RewriteError::Disk) => Err(NodeError::Disk),
            Err(RewriteError::Full { end, needed }) => {
                Err(NodeError::Refused(Cause::StoreFull { end, needed }))
            }
        }
    }
}
