//! The command `replay`: reads a script, plays it over two nodes on two disks, and prints the report.
ghost use Rattle.rm_base.specs.Limits.{script_bytes};
ghost use Rattle.rm_command.specs.Edge.{edge_of, KeepsEdge};
ghost use Rattle.rm_command.specs.Replay.{EndsReplay};
ghost use Rattle.rm_command.specs.Stage.{staged_of};
ghost use Rattle.rm_replay.specs.Shows.{IsFresh, scene_of};

use crate::end::{End, refuse_line};
use crate::filter::{read_input, write_text};
use rm_base::limits::SCRIPT_BYTES;
use rm_base::wire::Wire;
use rm_base::{Memory, Sink, Source};
use rm_disk::CrashDisk;
use rm_replay::laws::a_delivered_message_is_taken;
use rm_replay::{Stage, run_script};
use rm_script::laws::values_are_within;
use rm_script::{ScriptError, read_script};
use std::alloc::Global;

/// Reads a script, plays it over the stage, and prints the report.
/// - `ends`: at 0 the bytes that were read are a script, all of its lines were played by the protocol, what was written
///   is the report, and what each source ever accepted is what the report says was sent. At 3 the line that is named is
///   the first bad one. At 10 the stage and the output are as they were, or some first lines were played, or all were
///   and some first bytes of the report were written.
pub fn replay<S: Source, K: Sink, M: CrashDisk, W: Wire>(
    alloc: Global,
    input: &mut S,
    out: &mut K,
    stage: &mut Stage<M, W>,
) -> End
    requires fresh { IsFresh (scene_of M.told W.packets stage.old) }
    ensures ends { EndsReplay result (edge_of S.told K.told K.wants_memory input.old input.new out.old out.new)
        (staged_of M.told W.packets stage.old) (staged_of M.told W.packets stage.new) }
    ensures kept { KeepsEdge script_bytes result
        (edge_of S.told K.told K.wants_memory input.old input.new out.old out.new) }
{
    // A script says nothing beyond the limits that a run asks for, and what it delivers is taken.
    values_are_within();
    a_delivered_message_is_taken();
    let bytes = match read_input(alloc, input, out, SCRIPT_BYTES) {
        Ok(bytes) => bytes,
        Err(end) => return end,
    };
    let events = match read_script(alloc, bytes.as_slice()) {
        Ok(events) => events,
        Err(ScriptError::BadLine { line }) => return refuse_line(alloc, out, line),
        Err(ScriptError::Memory) => return End::Memory,
    };
    match run_script(alloc, stage, events) {
        Ok(report) => write_text(out, report.as_slice()),
        Err(Memory) => End::Memory,
    }
}
