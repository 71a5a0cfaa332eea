//! The program wsrm_relay: plays a script of three nodes from standard input, over disks and a wire in memory.
#![tactic(auto)]

use rm_base::wire::MemWire;
use rm_base::{StdSink, StdSource};
use rm_disk::MemDisk;
use rm_relay::{Stage3, relay_run};
use std::process::ExitCode;

fn main(rt: HostRuntime) -> ExitCode {
    let mut input = StdSource::new(rt.stdin());
    let mut out = StdSink::new(rt.stdout());
    let mut stage = Stage3 {
        one: MemDisk::new(rt.alloc()),
        two: MemDisk::new(rt.alloc()),
        three: MemDisk::new(rt.alloc()),
        wire: MemWire::new(rt.alloc()),
    };
    ExitCode::from(relay_run(rt.alloc(), &mut input, &mut out, &mut stage))
}
