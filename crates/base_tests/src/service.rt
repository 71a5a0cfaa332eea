//! The loop of a service, with a desk that says what it was asked for.
ghost use Rattle.std.specs.Prelude.{◌≡◌, true};

use rm_base::{Blob, Connection, MemConn, Memory, Numbers, Uri, write_all};
use service_turns::{Desk, Event, MemTraffic, Note, Packet, Packets, run};
use std::alloc::Global;
use std::test::Fail;

// Answers each request with one text, hands out one packet in each turn, and stops when its application asks anything.
#[derive(Drop)]
struct Clerk {
    alloc: Global,
    is_stopped: bool,
}

impl Clerk {
    // A packet with these bytes.
    fn packets(&self, bytes: &[u8]) -> Result<Packets, Memory> {
        let mut packets = Packets::new(self.alloc);
        let address = match Uri::from_slice(self.alloc, b"http://localhost/") {
            Ok(address) => address,
            Err(_) => return Err(Memory),
        };
        let bytes = Blob::from_slice(self.alloc, bytes)?;
        packets.push(Packet { address, bytes })?;
        Ok(packets)
    }
}

impl Desk for Clerk {
    type Why = Memory;

    ghost does = { λ _ _ _ _. Unit {0} };

    ghost ready = { λ _. Unit {0} };

    ghost stops = { λ s. s.is_stopped };

    fn rest(&mut self) -> Result<Packets, Memory> {
        self.packets(b"rested")
    }

    fn serve<C: Connection>(&mut self, conn: &mut C) -> Result<Packets, Memory> {
        let _ = write_all(conn, b"to the peer");
        self.packets(b"served")
    }

    fn tell<C: Connection>(&mut self, conn: &mut C) -> Result<Packets, Memory> {
        let _ = write_all(conn, b"to the application");
        self.is_stopped = true;
        self.packets(b"told")
    }

    fn take(&mut self, body: Blob) -> Result<Packets, Memory> {
        self.packets(body.as_slice())
    }

    fn patience(&self) -> u64 {
        0
    }

    fn is_stopped(&self) -> bool {
        self.is_stopped
    }
}

fn conn(alloc: Global) -> MemConn {
    MemConn::new(alloc, Blob::new(alloc), Numbers::new(alloc))
}

// One of each kind, and one that comes behind the stop.
fn coming(alloc: Global) -> Result<Vec<Event<MemConn, MemConn>>, Memory> {
    let mut coming = Vec::new(alloc);
    coming.push(Event::Quiet)?;
    coming.push(Event::Asked(conn(alloc)))?;
    coming.push(Event::Heard(Blob::from_slice(alloc, b"heard")?))?;
    coming.push(Event::Called(conn(alloc)))?;
    coming.push(Event::Quiet)?;
    Ok(coming)
}

// What was given back in at most so many turns, and whether all went well.
fn ran(alloc: Global, most: u64) -> Result<(bool, MemTraffic), Memory> {
    let mut traffic = MemTraffic::new(coming(alloc)?);
    let mut clerk = Clerk {
        alloc,
        is_stopped: false,
    };
    let ended = run(&mut traffic, &mut clerk, most);
    Ok((ended.is_ok(), traffic))
}

fn bytes_of(note: &Note) -> &[u8] {
    match note {
        Note::Packed(packet) => packet.bytes.as_slice(),
        Note::Written(conn) => conn.written(),
    }
}

// Whether these bytes were given back, one after the other.
fn are(notes: &[Note], texts: &[&[u8]]) -> bool {
    if notes.len() != texts.len() {
        return false;
    }
    for i in 0..texts.len() {
        if i < notes.len() && bytes_of(&notes[i]) != texts[i] {
            return false;
        }
    }
    true
}

const ALL: [&[u8]; 6] = [
    b"rested",
    b"to the peer",
    b"served",
    b"heard",
    b"to the application",
    b"told",
];

#[test]
fn each_turn_gives_back_its_answer_and_then_its_packets(rt: HostRuntime) -> Result<(), Fail> {
    let (is_done, traffic) = ran(rt.alloc(), 100)?;
    assert!(rt; is_done);
    assert!(rt; are(traffic.notes(), &ALL));
    Ok(())
}

#[test]
fn a_run_ends_after_so_many_turns(rt: HostRuntime) -> Result<(), Fail> {
    let (is_done, traffic) = ran(rt.alloc(), 2)?;
    assert!(rt; is_done);
    assert!(rt; are(traffic.notes(), ALL.split_at(3).0));
    Ok(())
}
