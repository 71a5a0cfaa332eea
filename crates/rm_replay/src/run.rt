//! The run of a script.
ghost use Rattle.std.specs.Prelude.{◌≡◌, ◌++◌, [], IfOk, OnErr, OnOk};
ghost use Rattle.std.specs.List.{AllByRecursion};
ghost use Rattle.rm_replay.specs.Actor.Stands.{Stands};
ghost use Rattle.rm_disk.specs.Told.{Told};
ghost use Rattle.rm_protocol.specs.Node.{Node as Value};
ghost use Rattle.rm_protocol.specs.Terms.{Terms};
ghost use Rattle.rm_script.specs.Within.{IsWithin};
ghost use Rattle.rm_replay.specs.Net.{AreOfNet};
ghost use Rattle.rm_replay.specs.Played.{IsUnmade, Ran, RanCut, known_text, start_world};
ghost use Rattle.rm_replay.specs.Shows.{IsFresh, Shows, drives_of, scene_of};
ghost use Rattle.rm_replay.specs.Asked.{WereSpared};

use crate::actor::Actor;
use crate::actor::laws::each_image_is_left;
use crate::happen::address;
use crate::laws::{a_played_script_keeps_the_headline, what_was_accepted_was_sent};
use crate::play::play;
use crate::stage::{Nodes, Stage};
use crate::summary::push_node;
use rm_base::wire::Wire;
use rm_base::{Blob, Memory};
use rm_disk::CrashDisk;
use rm_script::report::push_down;
use rm_script::{Event, Side};
use std::alloc::Global;

/// Makes both nodes, with the numbers 1 and 2.
fn make<M: CrashDisk, W: Wire>(alloc: Global, stage: &mut Stage<M, W>) -> Result<Nodes, Memory>
    requires fresh { IsFresh (scene_of M.told W.packets stage.old) }
    ensures shows { IfOk result (λ nodes. Shows start_world
        (scene_of M.told W.packets stage.new) nodes) }
    ensures silent { W.packets stage.new.wire ≡ [] }
    ensures spared { WereSpared (drives_of M.told stage.old.one stage.old.two)
        (drives_of M.told stage.new.one stage.new.two) }
    ensures unmade { OnErr result (IsUnmade (scene_of M.told W.packets stage.old)
        (scene_of M.told W.packets stage.new)) }
{
    each_image_is_left();
    let at_one = address(alloc, Side::One)?;
    let at_two = address(alloc, Side::Two)?;
    let one = Actor::make(alloc, &mut stage.one, 1, at_one)?;
    let two = Actor::make(alloc, &mut stage.two, 2, at_two)?;
    Ok(Nodes { one, two })
}

/// Appends what the node with a number knows in the end. These are the lines of its sequences where it is up, and else
/// that it is down.
pub fn push_known(report: &mut Blob, number: u64, actor: &Actor) -> Result<(), Memory>
    ensures { (x : Value) (now : Told) → Stands x now actor.now
        → OnOk result (report.new ≡ report.old ++ known_text number x) }
{
    if actor.is_down() {
        return push_down(report, number);
    }
    push_node(report, number, actor.tables(), actor.clock())
}

/// Makes two nodes on disks that aren't armed, plays a script over them and a wire without packets, and answers the
/// report. Where a node found no memory when it was made, no line was played, and the headline is not said.
/// - `ok`: all lines were played, one after the other, each as a step of the protocol. Each image of each disk stands
///   for entries that one more crash of its node leaves. The wire has the texts of all packets that were sent, in
///   order, each for the other node. The report is the lines' and then what both nodes know. Each disk had exactly the
///   crashes of its node's lines, in order, and its count of faults rose by as many at least as lines of its node came
///   out as `disk`. The disks keep the headline, and what is said of loose sequences, by all that the nodes of this run
///   ever had.
/// - `err`: a node was not made; or some first lines were played, and of the next one nothing, or its records and some
///   first of its packets. If that line is a crash, the disk of its own node may have had it. The disks keep the
///   headline then too, by all that the nodes ever had after so many lines, or after one more.
pub fn run_script<M: CrashDisk, W: Wire>(
    alloc: Global,
    stage: &mut Stage<M, W>,
    script: Vec<Event>,
) -> Result<Blob, Memory>
    requires within { AllByRecursion IsWithin script.items }
    requires fresh { IsFresh (scene_of M.told W.packets stage.old) }
    ensures ok { (terms : Terms) → AreOfNet terms → IfOk result (λ report. Ran terms script.items
        (scene_of M.told W.packets stage.old)
        (scene_of M.told W.packets stage.new) report) }
    ensures err { (terms : Terms) → AreOfNet terms → OnErr result (RanCut terms script.items
        (scene_of M.told W.packets stage.old)
        (scene_of M.told W.packets stage.new)) }
{
    a_played_script_keeps_the_headline();
    what_was_accepted_was_sent();
    each_image_is_left();
    let mut nodes = make(alloc, stage)?;
    let mut report = Blob::new(alloc);
    play(alloc, stage, &mut nodes, script, &mut report)?;
    push_known(&mut report, 1, &nodes.one)?;
    push_known(&mut report, 2, &nodes.two)?;
    Ok(report)
}
