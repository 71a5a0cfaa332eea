//! The lines of a script, one after another.
ghost use Rattle.std.specs.Prelude.{◌≡◌, []};
ghost use Rattle.std.specs.List.{AllByRecursion};
ghost use Rattle.rm_protocol.specs.Terms.{Terms};
ghost use Rattle.rm_protocol.specs.World.{World};
ghost use Rattle.rm_script.specs.Within.{IsWithin};
ghost use Rattle.rm_replay.specs.Net.{AreOfNet};
ghost use Rattle.rm_replay.specs.Playing.{PlaysLine, Plays};
ghost use Rattle.rm_replay.specs.Played.{start_world};
ghost use Rattle.rm_replay.specs.Shows.{Shows, scene_of};

use crate::actor::laws::each_image_is_left;
use crate::happen::happen;
use crate::laws::there_are_nets;
use crate::stage::{Nodes, Stage};
use rm_base::wire::Wire;
use rm_base::{Blob, Memory};
use rm_disk::CrashDisk;
use rm_script::Event;
use rm_script::report::{Line, push_lines};
use std::alloc::Global;

/// Does what one line says, and appends the report's line of it.
fn play_line<M: CrashDisk, W: Wire>(
    alloc: Global,
    stage: &mut Stage<M, W>,
    nodes: &mut Nodes,
    number: u64,
    event: Event,
    report: &mut Blob,
) -> Result<(), Memory>
    requires within { IsWithin event }
    requires there { (w : World) × Shows w
        (scene_of M.told W.packets stage.old) nodes.old }
    ensures { (terms : Terms) → AreOfNet terms → (w : World)
        → Shows w (scene_of M.told W.packets stage.old) nodes.old
        → PlaysLine terms w number event
        (scene_of M.told W.packets stage.old)
        (scene_of M.told W.packets stage.new) nodes.new
        report.old report.new result }
{
    each_image_is_left();
    let Some(outcome) = happen(alloc, stage, nodes, event)? else {
        return Ok(());
    };
    let line = Line {
        number,
        outcome,
        entries_one: nodes.one.entries(),
        entries_two: nodes.two.entries(),
        packets: stage.wire.count(),
    };
    push_lines(report, &[line])
}

/// Does what the lines say, and appends the report's line of each.
pub(crate) fn play<M: CrashDisk, W: Wire>(
    alloc: Global,
    stage: &mut Stage<M, W>,
    nodes: &mut Nodes,
    script: Vec<Event>,
    report: &mut Blob,
) -> Result<(), Memory>
    requires within { AllByRecursion IsWithin script.items }
    requires there { Shows start_world
        (scene_of M.told W.packets stage.old) nodes.old }
    requires first { report.old ≡ [] }
    ensures { (terms : Terms) → AreOfNet terms → Plays terms script.items
        (scene_of M.told W.packets stage.old)
        (scene_of M.told W.packets stage.new) nodes.new report.new result }
{
    there_are_nets();
    let mut number: u64 = 0;
    for event in script {
        number += 1;
        play_line(alloc, stage, nodes, number, event, report)?;
    }
    Ok(())
}
