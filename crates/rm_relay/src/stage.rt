//! What a relay is played over.

use rm_base::wire::Wire;
use rm_disk::CrashDisk;
use rm_replay::actor::Actor;

/// The disks of three nodes, and the wire between them.
#[derive(Debug, Drop)]
pub struct Stage3<M: CrashDisk, W: Wire> {
    pub one: M,
    pub two: M,
    pub three: M,
    pub wire: W,
}

/// The three nodes.
pub struct Nodes3 {
    pub one: Actor,
    pub two: Actor,
    pub three: Actor,
}

impl Drop for Nodes3 {
    fn drop(self) {
        let Nodes3 {
            one: _,
            two: _,
            three: _,
        } = self;
    }
}
