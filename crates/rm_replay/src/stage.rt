//! What a script is played over.

use crate::actor::Actor;
use rm_base::wire::Wire;
use rm_disk::CrashDisk;

/// The disks of two nodes, and the wire between them.
#[derive(Debug, Drop)]
pub struct Stage<M: CrashDisk, W: Wire> {
    pub one: M,
    pub two: M,
    pub wire: W,
}

/// Both nodes.
pub struct Nodes {
    pub one: Actor,
    pub two: Actor,
}

impl Drop for Nodes {
    fn drop(self) {
        let Nodes { one: _, two: _ } = self;
    }
}
