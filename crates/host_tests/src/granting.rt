//! What is released of a sequence that `serve` granted, by the last word of the command.
use crate::machine::{MAKE, Machine, conn, prints};
use crate::serving::CREATE;
use http_endpoint::link::MemLink;
use rm_base::{MemClock, Memory, Numbers};
use rm_disk::MemDisk;
use std::alloc::Global;

// The second message of the sequence, before which the first is missing.
const SECOND: &[u8] =
    b"POST / HTTP/1.1\r\nHost: localhost\r\nContent-Type: application/soap+xml\r\nContent-Length: 431\r\n\r\n\
        <s:Envelope xmlns:s=\"http://www.w3.org/2003/05/soap-envelope\" \
        xmlns:a=\"http://www.w3.org/2005/08/addressing\" xmlns:r=\"http://docs.oasis-open.org/ws-rx/wsrm/200702\">\
        <s:Header><a:To>http://localhost:18473/</a:To><a:Action>urn:wsrm:payload</a:Action><r:Sequence>\
        <r:Identifier>urn:uuid:00000000-0000-8001-8000-000000000001</r:Identifier>\
        <r:MessageNumber>2</r:MessageNumber></r:Sequence></s:Header><s:Body><p>2</p></s:Body></s:Envelope>";

// A machine to which a request for a sequence comes, and then the second message of it.
fn machine(alloc: Global) -> Result<Machine, Memory> {
    let mut inputs = Vec::new(alloc);
    inputs.push(conn(alloc, CREATE)?)?;
    inputs.push(conn(alloc, SECOND)?)?;
    Ok(Machine {
        disk: MemDisk::new(alloc),
        link: MemLink::new(inputs, Numbers::new(alloc)),
        clock: MemClock::new(0),
    })
}

// Whether the inbox has this after a node served with this word.
fn has(alloc: Global, grant: &[u8], inbox: &[u8]) -> Result<bool, Memory> {
    let mut host = machine(alloc)?;
    let made = prints(alloc, &mut host, MAKE, 0, b"made\n")?;
    let serve: [&[u8]; 4] = [b"serve", b"1", b"2", grant];
    let served = prints(alloc, &mut host, &serve, 0, b"served 2 dropped 0\n")?;
    let told = prints(alloc, &mut host, &[b"inbox", b"1"], 0, inbox)?;
    Ok(made & served & told)
}

// Each word, and what is in the inbox.
const GRANTS: [(&[u8], &[u8]); 3] = [
    (b"dfg", b"inbox 1 0\n"),
    (b"des", b"inbox 1 0\n"),
    (b"loose", b"item 1 1 3c703e323c2f703e\ninbox 1 1\n"),
];

#[test]
fn a_message_behind_a_gap(rt: HostRuntime) {
    for (grant, inbox) in &GRANTS {
        assert!(rt; has(rt.alloc(), *grant, *inbox) == Ok(true));
    }
}
