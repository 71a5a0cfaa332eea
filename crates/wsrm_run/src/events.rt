//! What is said on standard error: a line for each event, of words NAME=VALUE. The first is the moment, in milliseconds
//! since 1970.

use rm_base::{Clock, StdClock};
use rm_edge::Tally;
use std::net::SocketAddr;

fn moment(rt: &HostRuntime) -> u64 {
    StdClock::new(rt).now()
}

/// It listens: at an address and port to peers, who may be everybody or those of a file, and on a socket to
/// applications.
pub fn started(rt: &HostRuntime, address: SocketAddr, socket: &str, is_everybody: bool) {
    let now = moment(rt);
    let peers = if is_everybody { "everybody" } else { "some" };
    let _ = eprintln!(rt;
        "moment={now} event=started listen={address} socket={socket} peers={peers}"
    );
}

/// It stopped, with an exit status, and did so much.
pub fn stopped(rt: &HostRuntime, status: u8, tally: Tally) {
    let now = moment(rt);
    let Tally {
        asked,
        called,
        dropped,
        posted,
        missed,
        shed,
        barred,
    } = tally;
    let _ = eprintln!(rt;
        "moment={now} event=stopped status={status} asked={asked} called={called} dropped={dropped} posted={posted} \
        missed={missed} shed={shed} barred={barred}"
    );
}
