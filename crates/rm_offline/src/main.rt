//! The program of the commands that need no node. `./wsrm` answers them by this one, from its sources, until wsrm is
//! proved and built: there is half as much to read.
#![tactic(auto)]

use rm_base::wire::MemWire;
use rm_base::words::{texts_given, words_behind};
use rm_base::{Blob, Memory, StdSink, StdSource};
use rm_command::{End, run};
use rm_disk::MemDisk;
use rm_replay::Stage;
use std::process::ExitCode;

fn main(rt: HostRuntime) -> ExitCode {
    let status = match texts_given(&rt) {
        Ok(given) => played(&rt, words_behind(given.as_slice())),
        Err(Memory) => End::Memory.status(),
    };
    ExitCode::from(status)
}

// Runs the words over standard input and output, and disks and a wire in memory.
fn played(rt: &HostRuntime, words: &[Blob]) -> u8 {
    let mut input = StdSource::new(rt.stdin());
    let mut out = StdSink::new(rt.stdout());
    let mut stage = Stage {
        one: MemDisk::new(rt.alloc()),
        two: MemDisk::new(rt.alloc()),
        wire: MemWire::new(rt.alloc()),
    };
    let status = run(rt.alloc(), words, &mut input, &mut out, &mut stage);
    if status == End::Usage.status() {
        program_words::tell(rt, rt.alloc(), words);
    }
    status
}
