//! What the tests play their scripts over.
ghost use Rattle.std.specs.Prelude.{IfOk};
ghost use Rattle.std.specs.List.{AllByRecursion};
ghost use Rattle.rm_script.specs.Within.{IsWithin};

use rm_base::wire::MemWire;
use rm_base::{Blob, Memory};
use rm_disk::MemDisk;
use rm_replay::{Stage, run_script};
use rm_script::laws::values_are_within;
use rm_script::{Event, ScriptError, read_script};
use std::alloc::Global;

/// The events of a script.
pub(crate) fn events_of(alloc: Global, script: &[u8]) -> Result<Vec<Event>, ScriptError>
    ensures { IfOk result (λ events. AllByRecursion IsWithin events.items) }
{
    values_are_within();
    read_script(alloc, script)
}

/// The report of a script, and the wire behind its last line.
pub(crate) fn played_with_wire(
    alloc: Global,
    script: &[u8],
) -> Result<(Blob, MemWire), ScriptError> {
    let mut stage = Stage {
        one: MemDisk::new(alloc),
        two: MemDisk::new(alloc),
        wire: MemWire::new(alloc),
    };
    let events = events_of(alloc, script)?;
    let report = run_script(alloc, &mut stage, events)?;
    Ok((report, stage.wire))
}

/// Pieces, one behind the other.
pub(crate) fn joined(alloc: Global, pieces: &[&[u8]]) -> Result<Blob, Memory> {
    let mut bytes = Blob::new(alloc);
    for piece in pieces {
        bytes.push_all(piece)?;
    }
    Ok(bytes)
}

/// Whether the bytes have these somewhere.
pub(crate) fn has(bytes: &[u8], piece: &[u8]) -> bool {
    for start in 0..bytes.len() {
        if bytes[start..].starts_with(piece) {
            return true;
        }
    }
    false
}
