//! The whole program over any input and output.
ghost use Rattle.std.specs.Prelude.{◌≡◌, ◌⊎◌, ◌↔◌, ◌∷◌, [], codes, IsTrue};
ghost use Rattle.rm_command.specs.Edge.{edge_of};
ghost use Rattle.rm_command.specs.Run.{AsksReplay, AsksSoak, Asks, HasStatus, IsAskedFor, IsNamed, Runs};
ghost use Rattle.rm_command.specs.Stage.{KeepsWordAt, staged_of};
ghost use Rattle.rm_command.specs.Status.{status_of};
ghost use Rattle.rm_command.specs.declared.end.End.{End as AnEnd};
ghost use Rattle.rm_replay.specs.Shows.{IsFresh, scene_of};

use crate::alternatives::{intersect, normal};
use crate::check::check;
use crate::end::{End, refuse};
use crate::policy::policy;
use crate::replay::replay;
use crate::soak::soak;
use message_reader::laws::a_message_is_not_refused;
use rm_base::wire::Wire;
use rm_base::{Blob, Sink, Source};
use rm_disk::CrashDisk;
use rm_policy::alternatives::laws::what_is_found_is_not_refused;
use rm_policy::laws::one_reading;
use rm_replay::Stage;
use rm_script::laws::no_bad_line;
use rm_script::report::exits::USAGE_LINE;
use rm_script::soak::number_in;
use std::alloc::Global;

/// Does what the words say, those after the program's name, and answers the exit status.
/// - `runs`: there is no status but those of `status_of`. At 4, 8, 3 and 9 the stage is as it was; 4 comes only where
///   the input's count of faults rose, 8 only where more bytes than the command's limit were taken, 5 only where the
///   output's count rose and all of the text was made. At 10 nothing was written, where the output's calls want no
///   memory. Only `replay` and `soak` change the stage, and the counts of faults stay where the input or the output
///   tells that it never fails.
/// - `status`: 2 comes exactly where the words are no command. Of bytes that are what the command reads comes 0, 5, 4
///   or 10; of others 3 (`replay`) or 9, 4 or 10; of more bytes than its limit, 16777216 or 2097152, 8, 4 or 10. Of
///   `soak` comes 0, 5 or 10.
/// - `word`: for `replay` and `soak`: at 0 and 5 the headline holds at each pair of images of both disks, so whatever a
///   crash would leave of them. What it says was accepted and consumed is what the nodes of the script's run accepted
///   and consumed. At 10 it holds too, by the run of some first lines, unless the stage is as it was, or a node was not
///   made and no line was played. At each other status the stage is as it was.
pub fn run<S: Source, K: Sink, M: CrashDisk, W: Wire>(
    alloc: Global,
    words: &[Blob],
    input: &mut S,
    out: &mut K,
    stage: &mut Stage<M, W>,
) -> u8
    requires fresh { IsFresh (scene_of M.told W.packets stage.old) }

    // The headline, over every input and output, over every two disks and every wire.
    ensures word { AsksReplay words.now ⊎ AsksSoak words.now
        → KeepsWordAt (IsAskedFor words.now (S.told input.old).left) result
        (staged_of M.told W.packets stage.old) (staged_of M.told W.packets stage.new) }

    // What was done, by the words and the status.
    ensures runs { (end : AnEnd) × (result ≡ status_of end)
        × Runs words.now end (edge_of S.told K.told K.wants_memory input.old input.new out.old out.new)
        (staged_of M.told W.packets stage.old) (staged_of M.told W.packets stage.new) }

    // Which status comes of the words, and of the bytes where the input tells them.
    ensures status { HasStatus words.now (S.told input.old).left result }
{
    // What bytes can't be at once decides which status comes of them.
    a_message_is_not_refused();
    one_reading();
    no_bad_line();
    what_is_found_is_not_refused();
    obey(alloc, words, input, out, stage).status()
}

// Does what the words say, and answers how it ended.
fn obey<S: Source, K: Sink, M: CrashDisk, W: Wire>(
    alloc: Global,
    words: &[Blob],
    input: &mut S,
    out: &mut K,
    stage: &mut Stage<M, W>,
) -> End
    requires fresh { IsFresh (scene_of M.told W.packets stage.old) }
    ensures { Runs words.now result (edge_of S.told K.told K.wants_memory input.old input.new out.old out.new)
        (staged_of M.told W.packets stage.old) (staged_of M.told W.packets stage.new) }
{
    match command_of(words) {
        Some(Command::Replay) => replay(alloc, input, out, stage),
        Some(Command::Soak { number }) => soak(alloc, number, out, stage),
        Some(Command::Check) => check(alloc, input, out),
        Some(Command::Policy) => policy(alloc, input, out),
        Some(Command::Normal) => normal(alloc, input, out),
        Some(Command::Intersect) => intersect(alloc, input, out),
        None => refuse(out, End::Usage, USAGE_LINE),
    }
}

// What the words may ask for.
#[derive(Clone, Copy, Debug, PartialEq, Eq)]
enum Command {
    Replay,
    Soak { number: u64 },
    Check,
    Policy,
    Normal,
    Intersect,
}

// The command that the words ask for.
fn command_of(words: &[Blob]) -> Option<Command>
    ensures { Asks words.now result }
{
    match words {
        [word] => command_named(word.as_slice()),
        [word, number] => soak_of(word.as_slice(), number.as_slice()),
        _ => None,
    }
}

// The command soak, of the number that the second word writes.
fn soak_of(name: &[u8], number: &[u8]) -> Option<Command>
    ensures { Asks (name.now ∷ number.now ∷ []) result }
{
    let number = number_in(number)?;
    if is_soak(name) {
        Some(Command::Soak { number })
    } else {
        None
    }
}

fn is_soak(name: &[u8]) -> bool
    ensures { IsTrue result ↔ (name.now ≡ codes "soak") }
{
    name == b"soak".as_slice()
}

// The command that has this name and no further word.
fn command_named(name: &[u8]) -> Option<Command>
    ensures { IsNamed name.now result }
{
    if name == b"replay".as_slice() {
        return Some(Command::Replay);
    }
    if name == b"check".as_slice() {
        return Some(Command::Check);
    }
    if name == b"policy".as_slice() {
        return Some(Command::Policy);
    }
    if name == b"normal".as_slice() {
        return Some(Command::Normal);
    }
    if name == b"intersect".as_slice() {
        return Some(Command::Intersect);
    }
    None
}
