//! The commands `serve` and `serve11`.
ghost use Rattle.std.specs.Prelude.{◌≡◌, ◌+◌, ◌<◌, ◌++◌, List, IfOk, IfErr, OnOk, false};
ghost use Rattle.http_endpoint.specs.Link.Lines.{Listens};
ghost use Rattle.rm_serve.specs.Steps.{IsUp, MakesAll, Step, place_of};
ghost use Rattle.rm_host.specs.Ends.{HasReason, faults_of, is_outer};
ghost use Rattle.rm_host.specs.Finding.{Found};
ghost use Rattle.rm_host.specs.HostSteps.{Commands, StandsAt};
ghost use Rattle.rm_host.specs.ServeSteps.{Serves, ServesOne, StaysDeaf, Turn, counted};
ghost use Rattle.rm_host.specs.Texts.{IsTally, served_line};
ghost use Rattle.rm_host.specs.Words.{behaviour_of};

use crate::calls::{mount, post, serve_conn, tick};
use crate::end::End;
use crate::host::Host;
use crate::laws::a_command_leaves_its_records;
use crate::words::Service;
use http_endpoint::Media;
use http_endpoint::link::Link;
use rm_base::{Blob, Clock, Memory, push_decimal};
use rm_disk::{Disk, ReadDisk};
use rm_node::{Node, Outs};
use rm_serve::ConnEnd;
use std::alloc::Global;

/// How many connections were served well, and how many were given up.
#[derive(Clone, Copy, Debug)]
pub struct Tally {
    pub done: u64,
    pub dropped: u64,
}

/// Takes so many connections, one after the other, of peers that speak this version of SOAP, and posts after each what
/// is due.
/// - `does`: it announces what its word says, listens at its port, and takes connections one after the other; fewer
///   only where it ends before: a port that can't be listened to, no connection, a call of the node that fails. After
///   each comes one tick, and the packets of both are posted in one row.
/// - `tally`: where it ends well it tells of as many connections as it was to serve, each served well or given up.
pub fn serve<D: ReadDisk, L: Link, C: Clock>(
    alloc: Global,
    host: &mut Host<D, L, C>,
    service: Service,
    media: Media,
) -> Result<Blob, End>
    ensures does { Commands D.tells (D.told host.old.disk) (D.told host.new.disk) (L.told host.old.link)
        (L.told host.new.link) (behaviour_of service.grant)
        (λ x z. Serves media (C.next host.old.clock) service.port service.count (L.told host.old.link)
        (L.told host.new.link)) result }
    ensures tally { IfOk result (IsTally service.count) }
    ensures reason { HasReason (faults_of D.told L.told host.old) (faults_of D.told L.told host.new) result }
    ensures inner { is_outer result ≡ false }
{
    a_command_leaves_its_records();
    let mut node = open(alloc, host, service)?;
    let mut tally = Tally {
        done: 0,
        dropped: 0,
    };
    let mut left = service.count;
    while left > 0 {
        let finish = turn(alloc, host, &mut node, media)?;
        tally = counted(tally, finish);
        left -= 1;
    }
    Ok(tally_text(alloc, tally)?)
}

// One connection more.
fn counted(tally: Tally, finish: ConnEnd) -> Tally
    requires room { tally.done + tally.dropped < 65535 }
    ensures is { result ≡ counted tally finish }
    ensures all { result.done + result.dropped ≡ tally.done + tally.dropped + 1 }
{
    let Tally { done, dropped } = tally;
    match finish {
        ConnEnd::Done => Tally {
            done: done + 1,
            dropped,
        },
        ConnEnd::Dropped(_) => Tally {
            done,
            dropped: dropped + 1,
        },
    }
}

// Mounts the node, which announces so, and listens.
fn open<D: ReadDisk, L: Link, C>(
    alloc: Global,
    host: &mut Host<D, L, C>,
    service: Service,
) -> Result<Node, End>
    ensures found { IfOk result (λ node.
        Found D.tells (D.told host.old.disk) (behaviour_of service.grant) (place_of (D.told host.new.disk) node)) }
    ensures listens { OnOk result (Listens (L.told host.old.link) (L.told host.new.link) service.port false) }
    ensures deaf { IfErr result (StaysDeaf D.tells (D.told host.old.disk) (D.told host.new.disk)
        (L.told host.old.link)
        (L.told host.new.link) service.port (behaviour_of service.grant)) }
    ensures up { IfOk result (λ node. IsUp D.tells (place_of (D.told host.new.disk) node)) }
    ensures clock { host.new.clock ≡ host.old.clock }
    ensures reason { HasReason (faults_of D.told L.told host.old) (faults_of D.told L.told host.new) result }
    ensures inner { is_outer result ≡ false }
{
    let mut node = mount(alloc, host)?;
    node.set_grant(service.grant.behaviour());
    match host.link.listen(service.port) {
        Ok(()) => Ok(node),
        Err(_) => Err(End::LinkFault),
    }
}

// Takes one connection, and posts what is due.
fn turn<D: Disk, L: Link, C: Clock>(
    alloc: Global,
    host: &mut Host<D, L, C>,
    node: &mut Node,
    media: Media,
) -> Result<ConnEnd, End>
    requires { IsUp D.tells (place_of (D.told host.old.disk) node.old) }
    ensures turn { (steps : List Step) × MakesAll D.tells (place_of (D.told host.old.disk) node.old)
        (place_of (D.told host.new.disk) node.new) steps
        × Turn media (C.next host.old.clock) (L.told host.old.link) (L.told host.new.link) steps result }
    ensures stands { StandsAt (C.next host.old.clock) (C.next host.new.clock) }
    ensures up { OnOk result (IsUp D.tells (place_of (D.told host.new.disk) node.new)) }
    ensures reason { HasReason (faults_of D.told L.told host.old) (faults_of D.told L.told host.new) result }
    ensures inner { is_outer result ≡ false }
{
    match host.link.accept() {
        Ok(conn) => take(alloc, host, node, conn, media),
        Err(_) => Err(End::LinkFault),
    }
}

// Serves a connection, and posts what is due.
fn take<D: Disk, L: Link, C: Clock>(
    alloc: Global,
    host: &mut Host<D, L, C>,
    node: &mut Node,
    conn: L::Conn,
    media: Media,
) -> Result<ConnEnd, End>
    requires { IsUp D.tells (place_of (D.told host.old.disk) node.old) }
    ensures serves { (steps : List Step) × MakesAll D.tells (place_of (D.told host.old.disk) node.old)
        (place_of (D.told host.new.disk) node.new) steps
        × ServesOne media (C.next host.old.clock) (L.Conn.Source.told conn) (L.told host.old.link)
        (L.told host.new.link) steps result }
    ensures stands { StandsAt (C.next host.old.clock) (C.next host.new.clock) }
    ensures up { OnOk result (IsUp D.tells (place_of (D.told host.new.disk) node.new)) }
    ensures reason { HasReason (faults_of D.told L.told host.old) (faults_of D.told L.told host.new) result }
    ensures inner { is_outer result ≡ false }
{
    let now = host.clock.now();
    let served = serve_conn(alloc, host, node, conn, now, media)?;
    let now = host.clock.now();
    let due = tick(host, node, now)?;
    let outs = joined(served.outs, due)?;
    post(alloc, host, node, now, outs, media)?;
    Ok(served.finish)
}

// Packets, and then others.
fn joined(first: Outs, last: Outs) -> Result<Outs, Memory>
    ensures { IfOk result (λ all. all ≡ first ++ last) }
{
    let mut all = first;
    for out in last.into_vec() {
        all.push(out)?;
    }
    Ok(all)
}

fn tally_text(alloc: Global, tally: Tally) -> Result<Blob, Memory>
    ensures { IfOk result (λ text. text ≡ served_line tally.done tally.dropped) }
{
    let mut text = Blob::from_slice(alloc, b"served ")?;
    push_decimal(&mut text, tally.done)?;
    text.push_all(b" dropped ")?;
    push_decimal(&mut text, tally.dropped)?;
    text.push_all(b"\n")?;
    Ok(text)
}
