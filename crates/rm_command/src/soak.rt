//! The command `soak`: plays the script of a number over two nodes on two disks, and prints the summary of its report.
ghost use Rattle.std.specs.Prelude.{IfOk};
ghost use Rattle.rm_command.specs.Edge.{side_of, KeepsOutput};
ghost use Rattle.rm_command.specs.Replay.{EndsSoak};
ghost use Rattle.rm_command.specs.Stage.{staged_of};
ghost use Rattle.rm_replay.specs.Shows.{IsFresh, scene_of};
ghost use Rattle.rm_script.specs.Script.{lines_of, IsScript};
ghost use Rattle.rm_script.specs.Soak.Soak.{soak_script};

use crate::end::End;
use crate::filter::write_text;
use rm_base::wire::Wire;
use rm_base::{Memory, Sink};
use rm_disk::CrashDisk;
use rm_replay::laws::a_delivered_message_is_taken;
use rm_replay::{Stage, run_script};
use rm_script::laws::{no_bad_line, values_are_within};
use rm_script::soak::laws::a_soak_is_a_script;
use rm_script::soak::{script, summary};
use rm_script::{Event, ScriptError, read_script};
use std::alloc::Global;

/// Plays the script of a number over the stage, and prints the summary of its report. Nothing is read.
/// - `ends`: the script was played as `replay` plays one that it reads, and what was written is the summary of its
///   report. At 10 the script was played whole, or as `replay` leaves it where memory runs out before the last line.
pub fn soak<K: Sink, M: CrashDisk, W: Wire>(
    alloc: Global,
    number: u64,
    out: &mut K,
    stage: &mut Stage<M, W>,
) -> End
    requires fresh { IsFresh (scene_of M.told W.packets stage.old) }
    ensures ends { EndsSoak number result (side_of K.told out.old) (side_of K.told out.new)
        (staged_of M.told W.packets stage.old) (staged_of M.told W.packets stage.new) }
    ensures kept { KeepsOutput K.wants_memory result (side_of K.told out.old) (side_of K.told out.new) }
{
    // A script says nothing beyond the limits that a run asks for, and what it delivers is taken.
    values_are_within();
    a_delivered_message_is_taken();
    let events = match events_of(alloc, number) {
        Ok(events) => events,
        Err(Memory) => return End::Memory,
    };
    let report = match run_script(alloc, stage, events) {
        Ok(report) => report,
        Err(Memory) => return End::Memory,
    };
    match summary(alloc, number, report.as_slice()) {
        Ok(text) => write_text(out, text.as_slice()),
        Err(Memory) => End::Memory,
    }
}

// What the lines of the script of a number say.
fn events_of(alloc: Global, number: u64) -> Result<Vec<Event>, Memory>
    ensures { IfOk result (λ events. IsScript (lines_of (soak_script number)) events.items) }
{
    a_soak_is_a_script();
    no_bad_line();
    let script = script(alloc, number)?;
    match read_script(alloc, script.as_slice()) {
        Ok(events) => Ok(events),
        Err(ScriptError::BadLine { .. }) => unreachable!(),
        Err(ScriptError::Memory) => Err(Memory),
    }
}
