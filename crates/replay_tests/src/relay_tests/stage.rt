//! What the tests play their scripts over.
ghost use Rattle.std.specs.Prelude.{IfOk};
ghost use Rattle.std.specs.List.{AllByRecursion};
ghost use Rattle.rm_relay.specs.Within.{IsWithin};

use rm_base::Blob;
use rm_base::wire::{MemWire, Wire};
use rm_disk::MemDisk;
use rm_relay::laws::values_are_within;
use rm_relay::run::run_relay;
use rm_relay::script::read_relay;
use rm_relay::{Event, Stage3};
use rm_script::ScriptError;
use std::alloc::Global;

/// The events of a script.
pub(crate) fn events_of(alloc: Global, script: &[u8]) -> Result<Vec<Event>, ScriptError>
    ensures { IfOk result (λ events. AllByRecursion IsWithin events.items) }
{
    values_are_within();
    read_relay(alloc, script)
}

/// What a play of a script leaves.
#[derive(Drop)]
pub(crate) struct Played {
    pub report: Blob,

    /// How many packets there are.
    pub packets: u64,
}

/// Plays a script over empty disks and a wire without packets.
pub(crate) fn play(alloc: Global, script: &[u8]) -> Result<Played, ScriptError> {
    let mut stage = Stage3 {
        one: MemDisk::new(alloc),
        two: MemDisk::new(alloc),
        three: MemDisk::new(alloc),
        wire: MemWire::new(alloc),
    };
    let events = events_of(alloc, script)?;
    let report = run_relay(alloc, &mut stage, events)?;
    Ok(Played {
        report,
        packets: stage.wire.count(),
    })
}
