//! The program at its edge: a file, the network, the clock, standard input and output.
ghost use Rattle.std.specs.Prelude.{◌≡◌, Ok};
ghost use Rattle.rm_host.specs.Doings.{Does, DoesAsked, IsObeyed, Spares, Tells, world_of};
ghost use Rattle.rm_host.specs.Ends.{HasReason, Prints, faults_of};
ghost use Rattle.rm_host.specs.Runs.{IsComplete, IsSpent, IsStatusOf, Obeys, PrintsAt, Uses, outside_of};
ghost use Rattle.rm_host.specs.Words.{IsWithin};

use crate::commands::{close, compact, end, inbox, make, push};
use crate::consume::consume;
use crate::end::End;
use crate::host::Host;
use crate::import::import;
use crate::send::send;
use crate::serve::serve;
use crate::words::{Command, command_of};
use http_endpoint::link::{Fault as LinkFault, Link};
use rm_base::{Blob, Clock, Sink, SinkError, Source, write_all};
use rm_disk::ReadDisk;
use rm_disk::file::{Fault as DiskFault, NAME};
use rm_script::report::exits;
use std::alloc::Global;

/// Does what the words say, and answers the exit status.
/// - `obeyed`: what each command does to the disk and to what the link brings, how it ends and what it prints is what
///   its own function claims, with the values of the words. What a command leaves on a disk that tells, as it reads and
///   after any crash then, is the batches that it found there with the records of its calls behind them. What is
///   written of how it ended is its text, or the line of its refusal: all of it, or some first bytes where a write
///   failed or memory was wanting. 9 comes only where a call of the node refuses, the disk of `make` or `import` has
///   bytes, `import` brings a list that is too long, `inbox` or `consume` names no such sequence or item, or an address
///   can't be reached.
/// - `status`: 2 comes exactly of words that are no command. 4 comes only of `send` and `import` and only where the
///   input's count of faults rose, 5 only where the output's did, 7 only where the link's did, 6 exactly where the
///   disk's did. 8 comes only of `send`, where more than 1048576 bytes were taken, and of `import`, where more than
///   268435456 were. There is no status but 0, 2 and 4 to 11.
/// - `complete`: where no count of faults rises, 0, 2, 8, 9, 10 or 11 comes.
/// - `lost`: over a sound link 7 comes only where an accept or a dial found no connection left, and none is left then.
pub fn run<S: Source, K: Sink, D: ReadDisk, L: Link, C: Clock>(
    alloc: Global,
    words: &[Blob],
    input: &mut S,
    out: &mut K,
    host: &mut Host<D, L, C>,
) -> u8
    ensures obeyed { IsObeyed D.tells K.wants_memory words.now
        (world_of S.told K.told D.told L.told C.next input.old out.old host.old)
        (world_of S.told K.told D.told L.told C.next input.new out.new host.new) result }
    ensures status { IsStatusOf words.now
        (outside_of S.told K.told D.told L.told input.old out.old host.old)
        (outside_of S.told K.told D.told L.told input.new out.new host.new) result }
    ensures complete { IsComplete (outside_of S.told K.told D.told L.told input.old out.old host.old)
        (outside_of S.told K.told D.told L.told input.new out.new host.new) result }
    ensures lost { IsSpent (L.told host.old.link) (L.told host.new.link) result }
{
    match obey(alloc, words, input, out, host) {
        Ok(text) => print_text(out, text.as_slice()),
        Err(end) => {
            let _ = write_all(out, end.line());
            end.status()
        }
    }
}

// Prints what was asked for.
fn print_text<K: Sink>(out: &mut K, text: &[u8]) -> u8
    ensures at { PrintsAt (K.told out.old) (K.told out.new) result }
    ensures tells { Tells K.wants_memory (K.told out.old) (K.told out.new) (Ok text.now) result }
{
    match write_all(out, text) {
        Ok(()) => exits::DONE,
        Err(SinkError::Failed) => End::WriteFault.status(),
        Err(SinkError::Memory) => End::Memory.status(),
    }
}

// Does what the words say.
fn obey<S: Source, K: Sink, D: ReadDisk, L: Link, C: Clock>(
    alloc: Global,
    words: &[Blob],
    input: &mut S,
    out: &mut K,
    host: &mut Host<D, L, C>,
) -> Result<Blob, End>
    ensures does { DoesAsked D.tells words.now
        (world_of S.told K.told D.told L.told C.next input.old out.old host.old)
        (world_of S.told K.told D.told L.told C.next input.new out.new host.new) result }
    ensures obeys { Obeys words.now (S.told input.old) (S.told input.new) (K.told out.old) (K.told out.new) result }
    ensures reason { HasReason (faults_of D.told L.told host.old) (faults_of D.told L.told host.new) result }
{
    let command = command_of(alloc, words)?;
    perform(alloc, input, out, host, command)
}

// Does what is asked for.
fn perform<S: Source, K: Sink, D: ReadDisk, L: Link, C: Clock>(
    alloc: Global,
    input: &mut S,
    out: &mut K,
    host: &mut Host<D, L, C>,
    command: Command,
) -> Result<Blob, End>
    requires { IsWithin command }
    ensures does { Does D.tells command (world_of S.told K.told D.told L.told C.next input.old out.old host.old)
        (world_of S.told K.told D.told L.told C.next input.new out.new host.new) result }
    ensures spares { Spares command (world_of S.told K.told D.told L.told C.next input.old out.old host.old)
        (world_of S.told K.told D.told L.told C.next input.new out.new host.new) }
    ensures uses { Uses command (S.told input.old) (S.told input.new) result }
    ensures prints { Prints (K.told out.old) (K.told out.new) result }
    ensures reason { HasReason (faults_of D.told L.told host.old) (faults_of D.told L.told host.new) result }
{
    match command {
        Command::Make { number, address } => make(alloc, host, number, address),
        Command::Serve { media, service } => serve(alloc, host, service, media),
        Command::Send { to } => send(alloc, host, input, to),
        Command::Push => push(alloc, host),
        Command::Close { seq } => close(alloc, host, seq),
        Command::Finish { seq } => end(alloc, host, seq),
        Command::Inbox { seq } => inbox(alloc, host, seq),
        Command::Compact => compact(alloc, host),
        Command::Consume { seq, upto } => consume(alloc, host, out, seq, upto),
        Command::Import => import(alloc, host, input),
    }
}

/// Says on standard error what failed, where the status tells that the disk or the network did.
pub fn explain<R: Eprint>(rt: &R, status: u8, disk: Option<&DiskFault>, link: Option<&LinkFault>) {
    if status == End::DiskFault.status() {
        explain_disk(rt, disk);
    }
    if status == End::LinkFault.status() {
        explain_link(rt, link);
    }
}

/// Says on standard error which call on the disk failed, and why.
pub fn explain_disk<R: Eprint>(rt: &R, fault: Option<&DiskFault>) {
    if let Some(fault) = fault {
        let _ = eprintln!(rt; "wsrm: {NAME}: {fault}");
    }
}

// Says on standard error which call on the network failed, and why.
fn explain_link<R: Eprint>(rt: &R, fault: Option<&LinkFault>) {
    if let Some(fault) = fault {
        let _ = eprintln!(rt; "wsrm: {fault}");
    }
}
