//! The program wsrm_run: a node that runs. It holds the journal in the current folder, takes what peers and its
//! applications ask, and posts what is due, until it is told to stop.
//!     wsrm_run LISTEN GRANT
//! Who may connect, and whom it posts to, is said by the file wsrm.peers, where there is one.
//! - `words`: where it listens, and what it announces;
//! - `events`: the lines on standard error.
#![tactic(auto)]

mod events;
mod words;

use events::{started, stopped};
use http_endpoint::Media;
use rm_base::words::{texts_given, words_behind};
use rm_base::{Blob, Memory, StdClock, StdSink, write_all};
use rm_disk::ReadDisk;
use rm_disk::file::FileDisk;
use rm_edge::{Edge, Peers, PeersError, peers_in};
use rm_script::report::exits;
use rm_station::{End, Grant, attend, explain_disk};
use service_turns::Halt;
use std::fs;
use std::process::ExitCode;
use words::{Running, running_of};

/// The name of the socket that applications come by, in the current folder.
const SOCKET: &str = "wsrm.socket";

/// The name of the file that says who may connect and whom packets are posted to.
const PEERS: &str = "wsrm.peers";

/// For how many milliseconds answers are still written once it stops.
const FAREWELL: u64 = 5000;

fn main(rt: HostRuntime) -> ExitCode {
    let status = match texts_given(&rt) {
        Ok(given) => obeyed(&rt, words_behind(given.as_slice())),
        Err(Memory) => End::Memory.status(),
    };
    ExitCode::from(status)
}

fn obeyed(rt: &HostRuntime, words: &[Blob]) -> u8 {
    match running_of(words) {
        Some(running) => locked(rt, running),
        None => {
            print(rt, b"usage: wsrm run LISTEN GRANT\n");
            program_words::tell_of(rt, rt.alloc(), "run", words);
            End::Usage.status()
        }
    }
}

fn print(rt: &HostRuntime, text: &[u8]) {
    let mut out = StdSink::new(rt.stdout());
    let _ = write_all(&mut out, text);
}

// The journal is locked before anything beside it is touched.
fn locked(rt: &HostRuntime, running: Running) -> u8 {
    let mut disk = FileDisk::new(rt);
    if disk.len().is_err() {
        explain_disk(rt, disk.last_fault());
        return ended(rt, End::DiskFault);
    }
    match peers_in(rt, rt.alloc(), PEERS) {
        Ok(peers) => opened(rt, disk, running, peers),
        Err(PeersError::Memory) => ended(rt, End::Memory),
        Err(error) => {
            let _ = eprintln!(rt; "wsrm: {PEERS}: {error}");
            ended(rt, End::ReadFault)
        }
    }
}

fn opened(rt: &HostRuntime, disk: FileDisk<&HostRuntime>, running: Running, peers: Peers) -> u8 {
    let is_everybody = peers.is_everybody();
    let (alloc, listen) = (rt.alloc(), running.listen);
    match Edge::open(rt, alloc, listen, Some(SOCKET), Media::Soap12, peers) {
        Ok(edge) => {
            started(rt, edge.address(), SOCKET, is_everybody);
            attended(rt, disk, edge, running.grant)
        }
        Err(fault) => {
            let _ = eprintln!(rt; "wsrm: {fault}");
            ended(rt, End::LinkFault)
        }
    }
}

// The line of an end, and its status.
fn ended(rt: &HostRuntime, end: End) -> u8 {
    print(rt, end.line());
    end.status()
}

fn attended(
    rt: &HostRuntime,
    disk: FileDisk<&HostRuntime>,
    mut edge: Edge<&HostRuntime>,
    grant: Grant,
) -> u8 {
    let granted = grant.behaviour();
    let clock = StdClock::new(rt);
    let (disk, outcome) = attend(rt.alloc(), &mut edge, disk, clock, granted, u64::MAX);
    edge.finish(FAREWELL);
    let _ = fs::remove_file(rt, SOCKET);
    let status = match outcome {
        Ok(()) => exits::DONE,
        Err(Halt::Deaf) => ended(rt, End::LinkFault),
        Err(Halt::Stuck(end)) => ended(rt, end),
    };
    if status == End::DiskFault.status() {
        explain_disk(rt, disk.last_fault());
    }
    stopped(rt, status, edge.tally());
    status
}
