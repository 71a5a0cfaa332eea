//! `serve` over connections in memory.
use crate::machine::{MAKE, Machine, conn, prints};
use http_endpoint::link::MemLink;
use rm_base::{MemClock, Memory, Numbers};
use rm_disk::MemDisk;
use std::alloc::Global;

const SERVE: &[&[u8]] = &[b"serve", b"1", b"3", b"dfg"];

const INBOX: &[&[u8]] = &[b"inbox", b"1"];

pub(crate) const CREATE: &[u8] =
    b"POST / HTTP/1.1\r\nHost: localhost\r\nContent-Type: application/soap+xml\r\nContent-Length: 492\r\n\r\n\
        <s:Envelope xmlns:s=\"http://www.w3.org/2003/05/soap-envelope\" \
        xmlns:a=\"http://www.w3.org/2005/08/addressing\" xmlns:r=\"http://docs.oasis-open.org/ws-rx/wsrm/200702\">\
        <s:Header><a:To>http://localhost:18473/</a:To>\
        <a:Action>http://docs.oasis-open.org/ws-rx/wsrm/200702/CreateSequence</a:Action>\
        <a:MessageID>urn:m:1</a:MessageID></s:Header><s:Body><r:CreateSequence><r:AcksTo>\
        <a:Address>http://www.w3.org/2005/08/addressing/anonymous</a:Address></r:AcksTo></r:CreateSequence></s:Body>\
        </s:Envelope>";

pub(crate) const MESSAGE: &[u8] =
    b"POST / HTTP/1.1\r\nHost: localhost\r\nContent-Type: application/soap+xml\r\nContent-Length: 431\r\n\r\n\
        <s:Envelope xmlns:s=\"http://www.w3.org/2003/05/soap-envelope\" \
        xmlns:a=\"http://www.w3.org/2005/08/addressing\" xmlns:r=\"http://docs.oasis-open.org/ws-rx/wsrm/200702\">\
        <s:Header><a:To>http://localhost:18473/</a:To><a:Action>urn:wsrm:payload</a:Action><r:Sequence>\
        <r:Identifier>urn:uuid:00000000-0000-8001-8000-000000000001</r:Identifier>\
        <r:MessageNumber>1</r:MessageNumber></r:Sequence></s:Header><s:Body><p>1</p></s:Body></s:Envelope>";

// A machine to which three connections come, the second of them cut behind so many bytes. The call of its link with the
// number `failing` fails, where there is one; `serve` listens by the first.
fn machine(alloc: Global, cut: usize, failing: Option<u64>) -> Result<Machine, Memory> {
    let (begun, _rest) = MESSAGE.split_at(cut.min(MESSAGE.len()));
    let mut inputs = Vec::new(alloc);
    inputs.push(conn(alloc, CREATE)?)?;
    inputs.push(conn(alloc, begun)?)?;
    inputs.push(conn(alloc, MESSAGE)?)?;
    let mut fail_at = Numbers::new(alloc);
    if let Some(number) = failing {
        fail_at.push(number)?;
    }
    Ok(Machine {
        disk: MemDisk::new(alloc),
        link: MemLink::new(inputs, fail_at),
        clock: MemClock::new(0),
    })
}

// Whether the others are served, where one is cut so.
fn is_dropped(alloc: Global, cut: usize) -> Result<bool, Memory> {
    let mut host = machine(alloc, cut, None)?;
    let made = prints(alloc, &mut host, MAKE, 0, b"made\n")?;
    let served = prints(alloc, &mut host, SERVE, 0, b"served 2 dropped 1\n")?;
    let inbox = prints(
        alloc,
        &mut host,
        INBOX,
        0,
        b"item 1 1 3c703e313c2f703e\ninbox 1 1\n",
    )?;
    Ok(made & served & inbox)
}

// Behind how many bytes it is cut: within the first line, a field, the empty line and the body.
const CUTS: [usize; 8] = [0, 1, 5, 30, 91, 92, 93, 400];

#[test]
fn a_connection_that_is_cut_is_dropped(rt: HostRuntime) {
    for cut in &CUTS {
        assert!(rt;
            is_dropped(rt.alloc(), *cut) == Ok(true),
            "behind {cut} bytes"
        );
    }
}

// Which call of the link fails, and what the inbox has then.
const FAILING: [(u64, &[u8], u8); 4] = [
    (1, b"refused UnknownSequence\n", 9),
    (2, b"refused UnknownSequence\n", 9),
    (3, b"inbox 1 0\n", 0),
    (4, b"item 1 1 3c703e313c2f703e\ninbox 1 1\n", 0),
];

// Whether `serve` ends with a fault of its link, and the node knows what came before.
fn is_fault(alloc: Global, failing: u64, inbox: &[u8], status: u8) -> Result<bool, Memory> {
    let mut host = machine(alloc, MESSAGE.len(), Some(failing))?;
    let made = prints(alloc, &mut host, MAKE, 0, b"made\n")?;
    let served = prints(alloc, &mut host, SERVE, 7, b"link fault\n")?;
    let told = prints(alloc, &mut host, INBOX, status, inbox)?;
    Ok(made & served & told)
}

#[test]
fn no_connection_comes(rt: HostRuntime) {
    for (failing, inbox, status) in &FAILING {
        let is_so = is_fault(rt.alloc(), *failing, *inbox, *status);
        assert!(rt; is_so == Ok(true), "{failing}");
    }
}
