//! One run for all commands, over any input and output, any stage, any disk, link and clock.
ghost use Rattle.std.specs.Prelude.{◌≡◌, ◌⊎◌, false, true};
ghost use Rattle.rm_command.specs.Edge.{edge_of};
ghost use Rattle.rm_command.specs.Run.{AsksReplay, AsksSoak, HasStatus, IsAskedFor, Runs};
ghost use Rattle.rm_command.specs.Stage.{KeepsWordAt, staged_of};
ghost use Rattle.rm_command.specs.Status.{status_of};
ghost use Rattle.rm_command.specs.declared.end.End.{End as AnEnd};
ghost use Rattle.rm_host.specs.Doings.{IsObeyed, world_of};
ghost use Rattle.rm_host.specs.Runs.{IsComplete, IsSpent, IsStatusOf as IsNodeStatusOf, outside_of};
ghost use Rattle.rm_host.specs.Words.{is_of_node};
ghost use Rattle.rm_replay.specs.Shows.{IsFresh, scene_of};

use http_endpoint::link::Link;
use rm_base::wire::Wire;
use rm_base::{Blob, Clock, Sink, Source};
use rm_disk::{CrashDisk, ReadDisk};
use rm_host::{Host, is_of_node};
use rm_replay::Stage;
use std::alloc::Global;

/// Does what the words say, those after the program's name, and answers the exit status. The commands of one node are
/// done over the host, and leave the stage; all others do as `rm_command` says.
pub fn run<S: Source, K: Sink, M: CrashDisk, W: Wire, D: ReadDisk, L: Link, C: Clock>(
    alloc: Global,
    words: &[Blob],
    input: &mut S,
    out: &mut K,
    stage: &mut Stage<M, W>,
    host: &mut Host<D, L, C>,
) -> u8
    requires fresh { IsFresh (scene_of M.told W.packets stage.old) }

    // The headline, over every input and output, over every two disks and every wire.
    ensures word { AsksReplay words.now ⊎ AsksSoak words.now
        → KeepsWordAt (IsAskedFor words.now (S.told input.old).left) result
        (staged_of M.told W.packets stage.old) (staged_of M.told W.packets stage.new) }

    // What was done by words that are none of a node's, and which status comes of the bytes that the input tells.
    ensures runs { is_of_node words.now ≡ false → (end : AnEnd) × (result ≡ status_of end)
        × Runs words.now end (edge_of S.told K.told K.wants_memory input.old input.new out.old out.new)
        (staged_of M.told W.packets stage.old) (staged_of M.told W.packets stage.new) }
    ensures status { is_of_node words.now ≡ false → HasStatus words.now (S.told input.old).left result }

    // What is done by the words of a node's command, and what is printed of how that ended.
    ensures obeyed { is_of_node words.now ≡ true → IsObeyed D.tells K.wants_memory words.now
        (world_of S.told K.told D.told L.told C.next input.old out.old host.old)
        (world_of S.told K.told D.told L.told C.next input.new out.new host.new) result }

    // Which status comes of them, at all, where nothing failed, and over a sound link.
    ensures node { is_of_node words.now ≡ true → IsNodeStatusOf words.now
        (outside_of S.told K.told D.told L.told input.old out.old host.old)
        (outside_of S.told K.told D.told L.told input.new out.new host.new) result }
    ensures complete { is_of_node words.now ≡ true
        → IsComplete (outside_of S.told K.told D.told L.told input.old out.old host.old)
        (outside_of S.told K.told D.told L.told input.new out.new host.new) result }
    ensures lost { is_of_node words.now ≡ true → IsSpent (L.told host.old.link) (L.told host.new.link) result }

    // The stage is for the others.
    ensures stage { is_of_node words.now ≡ true → staged_of M.told W.packets stage.new
        ≡ staged_of M.told W.packets stage.old }

    // And the host is for them alone.
    ensures host { is_of_node words.now ≡ false → host.new ≡ host.old }
{
    if is_of_node(words) {
        return rm_host::run(alloc, words, input, out, host);
    }
    rm_command::run(alloc, words, input, out, stage)
}
