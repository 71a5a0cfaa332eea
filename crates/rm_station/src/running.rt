//! A node that runs, from the disk on which it is found to its stop.
ghost use Rattle.std.specs.Prelude.{◌≡◌};
ghost use Rattle.rm_station.specs.Runs.{Runs};

use crate::calls::find;
use crate::station::Station;
use rm_base::{Behaviour, Clock};
use rm_disk::ReadDisk;
use rm_host::End;
use rm_host::laws::a_command_leaves_its_records;
use service_turns::{Halt, Traffic, run};
use std::alloc::Global;

/// Finds the node that a disk holds, which announces this for the sequences that it grants, and takes what comes until
/// it is told to stop, at most so many times. The disk is handed back.
pub fn attend<T: Traffic, D: ReadDisk, C: Clock + Drop>(
    alloc: Global,
    traffic: &mut T,
    mut disk: D,
    clock: C,
    granted: Behaviour,
    most: u64,
) -> (D, Result<(), Halt<End>>)
    ensures { Runs D.tells D.told C.next (D.told disk) (D.told result.0) (T.told traffic.old) (T.told traffic.new)
        granted most result.1 }
{
    a_command_leaves_its_records();
    match find(alloc, &mut disk, granted) {
        Ok(node) => {
            let mut station = Station::new(alloc, node, disk, clock);
            let ended = run(traffic, &mut station, most);
            let Station { disk, .. } = station;
            (disk, ended)
        }
        Err(end) => (disk, Err(Halt::Stuck(end))),
    }
}
