//! The lines of a relay's script, one after another.
ghost use Rattle.std.specs.Prelude.{◌≡◌, []};
ghost use Rattle.std.specs.List.{AllByRecursion};
ghost use Rattle.rm_protocol.specs.Terms.{Terms};
ghost use Rattle.rm_replay.specs.Net.{AreOfNet};
ghost use Rattle.rm_relay.specs.Playing.{Plays, PlaysLine};
ghost use Rattle.rm_relay.specs.Shows.{Shows, scene_of};
ghost use Rattle.rm_relay.specs.Within.{IsWithin};
ghost use Rattle.rm_relay.specs.Word.World.{World, start};

use crate::event::Event;
use crate::happen::happen;
use crate::report::{Line3, push_line};
use crate::stage::{Nodes3, Stage3};
use crate::wire::Senders;
use rm_base::wire::Wire;
use rm_base::{Blob, Memory};
use rm_disk::CrashDisk;
use rm_replay::actor::laws::each_image_is_left;
use rm_replay::laws::there_are_nets;
use std::alloc::Global;

/// Does what one line says, and appends the report's line of it.
fn play_line<M: CrashDisk, W: Wire>(
    alloc: Global,
    stage: &mut Stage3<M, W>,
    nodes: &mut Nodes3,
    senders: &mut Senders,
    number: u64,
    event: Event,
    report: &mut Blob,
) -> Result<(), Memory>
    requires within { IsWithin event }
    requires there { (w : World) × Shows w (scene_of M.told W.packets stage.old) nodes.old senders.old.items }
    ensures { (terms : Terms) → AreOfNet terms → (w : World)
        → Shows w (scene_of M.told W.packets stage.old) nodes.old senders.old.items
        → PlaysLine terms w number event (scene_of M.told W.packets stage.old)
        (scene_of M.told W.packets stage.new) nodes.new senders.new.items report.old report.new result }
{
    each_image_is_left();
    let Some(ending) = happen(alloc, stage, nodes, senders, event)? else {
        return Ok(());
    };
    let line = Line3 {
        number,
        ending,
        entries_one: nodes.one.entries(),
        entries_two: nodes.two.entries(),
        entries_three: nodes.three.entries(),
        packets: stage.wire.count(),
    };
    push_line(report, &line)
}

/// Does what the lines say, and appends the report's line of each.
pub(crate) fn play<M: CrashDisk, W: Wire>(
    alloc: Global,
    stage: &mut Stage3<M, W>,
    nodes: &mut Nodes3,
    script: Vec<Event>,
    report: &mut Blob,
) -> Result<(), Memory>
    requires within { AllByRecursion IsWithin script.items }
    requires there { Shows start (scene_of M.told W.packets stage.old) nodes.old [] }
    requires first { report.old ≡ [] }
    ensures { (terms : Terms) → AreOfNet terms → Plays terms script.items
        (scene_of M.told W.packets stage.old) (scene_of M.told W.packets stage.new) nodes.new report.new result }
{
    there_are_nets();
    let mut senders = Vec::new(alloc);
    let mut number: u64 = 0;
    for event in script {
        number += 1;
        play_line(alloc, stage, nodes, &mut senders, number, event, report)?;
    }
    Ok(())
}
