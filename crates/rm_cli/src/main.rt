//! The program wsrm: the commands of one node on a file and on TCP (`rm_host`), and those that need none
//! (`rm_command`).
//! `run` tells by the words which of both does the command.
#![tactic(auto)]

mod run;

use http_endpoint::link::TcpLink;
use rm_base::wire::MemWire;
use rm_base::words::{texts_given, words_behind};
use rm_base::{Blob, Memory, StdClock, StdSink, StdSource};
use rm_disk::MemDisk;
use rm_disk::file::FileDisk;
use rm_host::{End, Host, explain};
use rm_replay::Stage;
use run::run;
use std::process::ExitCode;

fn main(rt: HostRuntime) -> ExitCode {
    let status = match texts_given(&rt) {
        Ok(given) => played(&rt, words_behind(given.as_slice())),
        Err(Memory) => End::Memory.status(),
    };
    ExitCode::from(status)
}

// Runs the words over standard input and output, disks and a wire in memory, the file in the current folder, the
// network and the clock.
fn played(rt: &HostRuntime, words: &[Blob]) -> u8 {
    let mut input = StdSource::new(rt.stdin());
    let mut out = StdSink::new(rt.stdout());
    let mut stage = Stage {
        one: MemDisk::new(rt.alloc()),
        two: MemDisk::new(rt.alloc()),
        wire: MemWire::new(rt.alloc()),
    };
    let mut host = Host {
        disk: FileDisk::new(rt),
        link: TcpLink::new(rt),
        clock: StdClock::new(rt),
    };
    let status = run(
        rt.alloc(),
        words,
        &mut input,
        &mut out,
        &mut stage,
        &mut host,
    );
    explain(rt, status, host.disk.last_fault(), host.link.last_fault());
    if status == End::Usage.status() {
        program_words::tell(rt, rt.alloc(), words);
    }
    status
}
