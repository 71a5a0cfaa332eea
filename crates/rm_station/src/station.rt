//! A node at its desk.
ghost use Rattle.std.specs.Prelude.{◌≡◌, ◌||◌, IfOk, List, OnOk, false, is_ok, true};
ghost use Rattle.rm_serve.specs.Steps.{IsUp, MakesAll, Step, place_of};
ghost use Rattle.rm_host.specs.Doings.{Writes};
ghost use Rattle.rm_station.specs.Works.{Answers, IsPacked, Talks, Works, is_stop_in, outs_after, packed, packet_of};
ghost use Rattle.rm_station.specs.Works.{served_outs, state_of};

use crate::ask::ask_of;
use crate::calls::{take, tick};
use crate::said::{Said, obey};
use rm_base::limits::PAYLOAD_BYTES;
use rm_base::{Blob, Clock, Connection, Memory, ReadError, SinkError, read_up_to, write_all};
use rm_disk::Disk;
use rm_host::End;
use rm_node::{Node, NodeError, Out, Outs};
use rm_serve::{Served, serve_one};
use service_turns::{Desk, Packet, Packets};
use std::alloc::Global;

/// For how many milliseconds nothing is done at most where nothing comes.
const PATIENCE: u64 = 200;

/// How many bytes a request of the application has at most: a payload, and a line before it.
const REQUEST_BYTES: usize = PAYLOAD_BYTES + 4096;

/// A node at its desk: its disk and its clock, when it looks again what is due, the moment that it saw last, and
/// whether it was asked to stop.
#[derive(Drop)]
pub struct Station<D, C> {
    pub node: Node,
    pub disk: D,
    pub clock: C,
    alloc: Global,
    due: u64,
    seen: u64,
    is_stopped: bool,
}

impl<D, C> Station<D, C> {
    /// A node that was found on its disk, and looks at once what is due.
    pub fn new(alloc: Global, node: Node, disk: D, clock: C) -> Self
        ensures node { result.node ≡ node }
        ensures disk { result.disk ≡ disk }
        ensures clock { result.clock ≡ clock }
        ensures stopped { result.is_stopped ≡ false }
    {
        Station {
            node,
            disk,
            clock,
            alloc,
            due: 0,
            seen: 0,
            is_stopped: false,
        }
    }
}

impl<D: Disk, C: Clock> Desk for Station<D, C> {
    type Why = End;

    ghost does = { λ s did result t. Works D.tells (state_of D.told C.next s) (state_of D.told C.next t) did result };

    ghost ready = { λ s. IsUp D.tells (place_of (D.told s.disk) s.node) };

    ghost stops = { λ s. s.is_stopped };

    fn rest(&mut self) -> Result<Packets, End> {
        let now = self.clock.now();
        self.seen = now;
        self.due = now.saturating_add(PATIENCE);
        let outs = tick(&mut self.node, &mut self.disk, now);
        pack(self.alloc, outs)
    }

    fn serve<K: Connection>(&mut self, conn: &mut K) -> Result<Packets, End> {
        let now = self.clock.now();
        self.seen = now;
        let served = serve_one(self.alloc, &mut self.node, &mut self.disk, conn, now);
        pack(self.alloc, outs_served(served))
    }

    fn tell<K: Connection>(&mut self, conn: &mut K) -> Result<Packets, End> {
        let now = self.clock.now();
        self.seen = now;
        let (outs, is_stop) = talk(self.alloc, &mut self.node, &mut self.disk, conn, now);
        self.is_stopped = is_either(is_stop, self.is_stopped);
        pack(self.alloc, outs)
    }

    fn take(&mut self, body: Blob) -> Result<Packets, End> {
        let now = self.clock.now();
        self.seen = now;
        let outs = take(self.alloc, &mut self.node, &mut self.disk, now, body);
        pack(self.alloc, outs)
    }

    fn patience(&self) -> u64 {
        self.due.saturating_sub(self.seen).min(PATIENCE)
    }

    fn is_stopped(&self) -> bool {
        self.is_stopped
    }
}

fn is_either(first: bool, last: bool) -> bool
    ensures { result ≡ (first || last) }
{
    first || last
}

// What is handed out of a request that was served.
fn outs_served(came: Result<Served, NodeError>) -> Result<Outs, End>
    ensures { result ≡ served_outs came }
{
    match came {
        Ok(served) => {
            let Served { outs, .. } = served;
            Ok(outs)
        }
        Err(error) => Err(End::from(error)),
    }
}

// A request of the application is read, done and answered: what is handed out, and whether it asks that the node stops.
fn talk<D: Disk, K: Connection>(
    alloc: Global,
    node: &mut Node,
    disk: &mut D,
    conn: &mut K,
    now: u64,
) -> (Result<Outs, End>, bool)
    requires up { IsUp D.tells (place_of (D.told disk.old) node.old) }
    ensures talks { (steps : List Step) × MakesAll D.tells (place_of (D.told disk.old) node.old)
        (place_of (D.told disk.new) node.new) steps
        × Talks now node.old.stored (K.Source.told conn.old) (K.Source.told conn.new) steps result.0 result.1 }
    ensures up { OnOk result.0 (IsUp D.tells (place_of (D.told disk.new) node.new)) }
{
    match read_up_to(alloc, conn, REQUEST_BYTES) {
        Ok(bytes) => {
            let said = obey(alloc, node, disk, now, ask_of(alloc, bytes.as_slice()));
            answer(conn, said)
        }
        Err(ReadError::TooLong) => {
            let said = obey(alloc, node, disk, now, Err(End::TooLong));
            answer(conn, said)
        }
        Err(ReadError::Failed) => (Ok(Outs::new(alloc)), false),
        Err(ReadError::Memory) => (Err(End::Memory), false),
    }
}

// The text is written, where there is one.
fn answer<K: Connection>(conn: &mut K, said: Result<Said, End>) -> (Result<Outs, End>, bool)
    ensures answers { Answers (K.Source.told conn.old) (K.Source.told conn.new) said result.0 }
    ensures stop { result.1 ≡ is_stop_in said }
    ensures lasts { OnOk result.0 (is_ok said ≡ true) }
{
    match said {
        Ok(said) => {
            let Said {
                text,
                outs,
                is_stop,
            } = said;
            let written = put(conn, text.as_slice());
            (outs_after(outs, written), is_stop)
        }
        Err(end) => (Err(end), false),
    }
}

fn put<K: Connection>(conn: &mut K, text: &[u8]) -> Result<(), SinkError>
    ensures { Writes true (K.Source.told conn.old) (K.Source.told conn.new) text.now result }
{
    write_all(conn, text)
}

// What is handed out once the text was written, or wasn't.
fn outs_after(outs: Outs, written: Result<(), SinkError>) -> Result<Outs, End>
    ensures { result ≡ outs_after outs written }
{
    match written {
        Ok(()) => Ok(outs),
        Err(SinkError::Failed) => Ok(outs),
        Err(SinkError::Memory) => Err(End::Memory),
    }
}

// Packets as the traffic takes them.
fn pack(alloc: Global, outs: Result<Outs, End>) -> Result<Packets, End>
    ensures { IsPacked outs result }
{
    match outs {
        Ok(outs) => Ok(packets_of(alloc, outs)?),
        Err(end) => Err(end),
    }
}

fn packets_of(alloc: Global, outs: Outs) -> Result<Packets, Memory>
    ensures { IfOk result (λ packets. packets ≡ packed outs) }
{
    let mut packets = Packets::new(alloc);
    let mut rest = outs.into_vec().into_iter();
    while let Some(out) = rest.next() {
        packets.push(packet_of(out))?;
    }
    Ok(packets)
}

fn packet_of(out: Out) -> Packet
    ensures { result ≡ packet_of out }
{
    let Out { address, bytes } = out;
    Packet { address, bytes }
}
