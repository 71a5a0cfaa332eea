//! The relay's program over any input and output, any three disks and any wire.
ghost use Rattle.std.specs.Prelude.{◌≡◌, IfSome};
ghost use Rattle.rm_base.specs.Limits.{script_bytes};
ghost use Rattle.rm_command.specs.Edge.{edge_of, KeepsEdge};
ghost use Rattle.rm_command.specs.Status.{status_of};
ghost use Rattle.rm_command.specs.declared.end.End.{End as AnEnd};
ghost use Rattle.rm_relay.specs.Headline.{KeepsPromiseAt};
ghost use Rattle.rm_relay.specs.Relay.{EndsRelay, IsRelayStatus};
ghost use Rattle.rm_relay.specs.Shows.{IsFresh, scene_of};

use crate::laws::{a_played_relay_keeps_its_promise, no_bad_line, values_are_within};
use crate::run::run_relay;
use crate::script::read_relay;
use crate::stage::Stage3;
use rm_base::limits::SCRIPT_BYTES;
use rm_base::wire::Wire;
use rm_base::{Memory, Sink, Source};
use rm_command::end::{End, refuse_line};
use rm_command::filter::{read_input, write_text};
use rm_disk::CrashDisk;
use rm_script::ScriptError;
use std::alloc::Global;

/// Reads a script, plays it over the stage, prints the report, and answers the exit status: 0, 3 for a line that is not
/// in the grammar, 4 and 5 for a read and a write that failed, 8 for a script that is too long, and 10 where memory ran
/// out.
/// - `promise`: at each three images of the disks, what node 2 accepted on its first outgoing sequence is a prefix of
///   what it consumed of its first incoming one followed by the items past the cursor, and what node 3 consumed and
///   holds on the matching sequence is a prefix of what node 1 accepted, and nothing where node 1 has no sequence that
///   matches. What nodes 1 and 2 count as acknowledged the next node received. It holds at 0 and 5, and at 10, unless
///   the stage is as it was or a node was not made; at each other status nothing changed.
/// - `ends`: at 0 all lines were played, the disks and the wire hold what is there then, and what was written is the
///   report; the promise is by all that the nodes of that very run ever had. At 10 some first lines were played, and of
///   the next one perhaps all but some last of its packets, or a node was not made and no line was played.
pub fn relay_run<S: Source, K: Sink, M: CrashDisk, W: Wire>(
    alloc: Global,
    input: &mut S,
    out: &mut K,
    stage: &mut Stage3<M, W>,
) -> u8
    requires fresh { IsFresh (scene_of M.told W.packets stage.old) }

    // What node 2 forwarded is a prefix of what it received, and so what node 3 holds is one of what node 1 accepted.
    ensures promise { KeepsPromiseAt result stage.old stage.new (scene_of M.told W.packets stage.old)
        (scene_of M.told W.packets stage.new) }

    // What was done, and which status comes of the bytes that the input tells.
    ensures ends { (end : AnEnd) × (result ≡ status_of end)
        × EndsRelay end (edge_of S.told K.told K.wants_memory input.old input.new out.old out.new)
        stage.old stage.new (scene_of M.told W.packets stage.old) (scene_of M.told W.packets stage.new)
        × KeepsEdge script_bytes end
        (edge_of S.told K.told K.wants_memory input.old input.new out.old out.new) }
    ensures status { IfSome (S.told input.old).left (λ bytes. IsRelayStatus bytes result) }
{
    no_bad_line();
    relay(alloc, input, out, stage).status()
}

fn relay<S: Source, K: Sink, M: CrashDisk, W: Wire>(
    alloc: Global,
    input: &mut S,
    out: &mut K,
    stage: &mut Stage3<M, W>,
) -> End
    requires fresh { IsFresh (scene_of M.told W.packets stage.old) }
    ensures promise { KeepsPromiseAt (status_of result) stage.old stage.new (scene_of M.told W.packets stage.old)
        (scene_of M.told W.packets stage.new) }
    ensures ends { EndsRelay result (edge_of S.told K.told K.wants_memory input.old input.new out.old out.new)
        stage.old stage.new (scene_of M.told W.packets stage.old) (scene_of M.told W.packets stage.new) }
    ensures kept { KeepsEdge script_bytes result
        (edge_of S.told K.told K.wants_memory input.old input.new out.old out.new) }
{
    // A script says nothing beyond the limits that a run asks for.
    values_are_within();
    a_played_relay_keeps_its_promise();
    let bytes = match read_input(alloc, input, out, SCRIPT_BYTES) {
        Ok(bytes) => bytes,
        Err(end) => return end,
    };
    let events = match read_relay(alloc, bytes.as_slice()) {
        Ok(events) => events,
        Err(ScriptError::BadLine { line }) => return refuse_line(alloc, out, line),
        Err(ScriptError::Memory) => return End::Memory,
    };
    match run_relay(alloc, stage, events) {
        Ok(report) => write_text(out, report.as_slice()),
        Err(Memory) => End::Memory,
    }
}
