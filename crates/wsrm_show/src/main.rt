//! The program wsrm_show: what the node in the current folder knows, read beside a program that serves it. It changes
//! nothing, and takes no words.
#![tactic(auto)]

mod show;

use rm_base::{Clock, SinkError, StdClock, StdSink, write_all};
use rm_disk::file::FileReader;
use rm_host::{End, explain_disk};
use rm_script::report::exits;
use std::env;
use std::process::ExitCode;

/// It reads without the lock: what is no journal is read again where the file grew meanwhile.
fn main(rt: HostRuntime) -> ExitCode {
    let mut out = StdSink::new(rt.stdout());
    if has_words(&rt) {
        let _ = write_all(&mut out, b"usage: wsrm_show\n");
        return ExitCode::from(End::Usage.status());
    }
    let mut disk = FileReader::new(&rt);
    let now = StdClock::new(&rt).now();
    let status = match show::show(rt.alloc(), &mut disk, now) {
        Ok(text) => match write_all(&mut out, text.as_slice()) {
            Ok(()) => exits::DONE,
            Err(SinkError::Failed) => End::WriteFault.status(),
            Err(SinkError::Memory) => End::Memory.status(),
        },
        Err(end) => {
            let _ = write_all(&mut out, end.line());
            end.status()
        }
    };
    if status == End::DiskFault.status() {
        explain_disk(&rt, disk.last_fault());
    }
    ExitCode::from(status)
}

// Whether there are words behind the program's name.
fn has_words(rt: &HostRuntime) -> bool {
    match env::args(rt) {
        Ok(args) => args.count() > 1,
        Err(_) => true,
    }
}
