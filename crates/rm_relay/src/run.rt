//! The run of a relay's script.
ghost use Rattle.std.specs.Prelude.{◌≡◌, ◌++◌, ◌⊎◌, [], IfOk, OnErr, OnOk};
ghost use Rattle.std.specs.List.{AllByRecursion};
ghost use Rattle.rm_protocol.specs.Terms.{Terms};
ghost use Rattle.rm_replay.specs.Net.{AreOfNet};
ghost use Rattle.rm_relay.specs.Headline.{KeepsPromise};
ghost use Rattle.rm_relay.specs.Played.{IsUnmade, Ran, RanShort, WereSpared};
ghost use Rattle.rm_relay.specs.Report.{end_text};
ghost use Rattle.rm_relay.specs.Shows.{Drives, IsFresh, Shows, StandFor, drives_of, scene_of};
ghost use Rattle.rm_relay.specs.Within.{IsWithin};
ghost use Rattle.rm_relay.specs.Word.World.{World, start};

use crate::event::Event;
use crate::happen::address;
use crate::laws::a_played_relay_keeps_its_promise;
use crate::play::play;
use crate::stage::{Nodes3, Stage3};
use crate::word::Station;
use rm_base::wire::Wire;
use rm_base::{Blob, Memory};
use rm_disk::CrashDisk;
use rm_replay::actor::Actor;
use rm_replay::actor::laws::each_image_is_left;
use rm_replay::laws::there_are_nets;
use rm_replay::run::push_known;
use std::alloc::Global;

/// Makes the nodes, with the numbers 1 to 3.
fn make<M: CrashDisk, W: Wire>(alloc: Global, stage: &mut Stage3<M, W>) -> Result<Nodes3, Memory>
    requires fresh { IsFresh (scene_of M.told W.packets stage.old) }
    ensures shows { IfOk result (λ nodes. Shows start (scene_of M.told W.packets stage.new) nodes []) }
    ensures spared { WereSpared (drives_of M.told stage.old.one stage.old.two stage.old.three)
        (drives_of M.told stage.new.one stage.new.two stage.new.three) }
    ensures unmade { OnErr result (IsUnmade (scene_of M.told W.packets stage.old)
        (scene_of M.told W.packets stage.new)) }
{
    each_image_is_left();
    let at_one = address(alloc, Station::One)?;
    let at_two = address(alloc, Station::Two)?;
    let at_three = address(alloc, Station::Three)?;
    let one = Actor::make(alloc, &mut stage.one, 1, at_one)?;
    let two = Actor::make(alloc, &mut stage.two, 2, at_two)?;
    let three = Actor::make(alloc, &mut stage.three, 3, at_three)?;
    Ok(Nodes3 { one, two, three })
}

/// Appends what the nodes know in the end.
fn push_end(report: &mut Blob, nodes: &Nodes3) -> Result<(), Memory>
    ensures { (w : World) (d : Drives) → StandFor w d nodes.now → OnOk result (report.new ≡ report.old ++ end_text w) }
{
    push_known(report, 1, &nodes.one)?;
    push_known(report, 2, &nodes.two)?;
    push_known(report, 3, &nodes.three)
}

/// Plays a script over nodes that were just made, and answers the report.
fn play_whole<M: CrashDisk, W: Wire>(
    alloc: Global,
    stage: &mut Stage3<M, W>,
    nodes: &mut Nodes3,
    script: Vec<Event>,
) -> Result<Blob, Memory>
    requires within { AllByRecursion IsWithin script.items }
    requires there { Shows start (scene_of M.told W.packets stage.old) nodes.old [] }
    ensures ok { (terms : Terms) → AreOfNet terms → IfOk result (λ report. Ran terms script.items
        (scene_of M.told W.packets stage.old) (scene_of M.told W.packets stage.new) report) }
    ensures err { (terms : Terms) → AreOfNet terms → OnErr result (RanShort terms script.items
        (scene_of M.told W.packets stage.old) (scene_of M.told W.packets stage.new)) }
{
    each_image_is_left();
    let mut report = Blob::new(alloc);
    play(alloc, stage, nodes, script, &mut report)?;
    push_end(&mut report, nodes)?;
    Ok(report)
}

/// Makes three nodes on disks that aren't armed, plays a script over them and a wire without packets, and answers the
/// report. Where a node found no memory when it was made, no line was played.
pub fn run_relay<M: CrashDisk, W: Wire>(
    alloc: Global,
    stage: &mut Stage3<M, W>,
    script: Vec<Event>,
) -> Result<Blob, Memory>
    requires within { AllByRecursion IsWithin script.items }
    requires fresh { IsFresh (scene_of M.told W.packets stage.old) }
    ensures ok { (terms : Terms) → AreOfNet terms → IfOk result (λ report. Ran terms script.items
        (scene_of M.told W.packets stage.old) (scene_of M.told W.packets stage.new) report) }
    ensures err { (terms : Terms) → AreOfNet terms → OnErr result
        (IsUnmade (scene_of M.told W.packets stage.old) (scene_of M.told W.packets stage.new)
        ⊎ RanShort terms script.items (scene_of M.told W.packets stage.old)
        (scene_of M.told W.packets stage.new)) }
    ensures promise { OnOk result (KeepsPromise (scene_of M.told W.packets stage.new)) }
    ensures short { OnErr result
        (IsUnmade (scene_of M.told W.packets stage.old) (scene_of M.told W.packets stage.new)
        ⊎ KeepsPromise (scene_of M.told W.packets stage.new)) }
{
    there_are_nets();
    a_played_relay_keeps_its_promise();
    let mut nodes = make(alloc, stage)?;
    play_whole(alloc, stage, &mut nodes, script)
}
