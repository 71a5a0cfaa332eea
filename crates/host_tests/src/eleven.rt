//! A node that serves a peer that speaks SOAP 1.1 alone.
use crate::machine::{MAKE, Machine, conn, prints};
use http_endpoint::link::MemLink;
use rm_base::{Blob, MemClock, Memory, Numbers, push_decimal};
use rm_disk::MemDisk;
use rm_disk::journal::{Journal, JournalError};
use std::alloc::Global;

const SERVE: &[&[u8]] = &[b"serve11", b"18473", b"1", b"dfg"];

const CREATE: &[u8] = b"<s:Envelope xmlns:s=\"http://schemas.xmlsoap.org/soap/envelope/\" \
    xmlns:a=\"http://www.w3.org/2005/08/addressing\" xmlns:r=\"http://docs.oasis-open.org/ws-rx/wsrm/200702\">\
    <s:Header><a:To>http://localhost:18473/</a:To>\
    <a:Action>http://docs.oasis-open.org/ws-rx/wsrm/200702/CreateSequence</a:Action>\
    <a:MessageID>urn:x:1</a:MessageID></s:Header><s:Body><r:CreateSequence><r:AcksTo>\
    <a:Address>http://www.w3.org/2005/08/addressing/anonymous</a:Address></r:AcksTo></r:CreateSequence></s:Body>\
    </s:Envelope>";

// The same in SOAP 1.2.
const CREATE12: &[u8] = b"<s:Envelope xmlns:s=\"http://www.w3.org/2003/05/soap-envelope\" \
    xmlns:a=\"http://www.w3.org/2005/08/addressing\" xmlns:r=\"http://docs.oasis-open.org/ws-rx/wsrm/200702\">\
    <s:Header><a:To>http://localhost:18473/</a:To>\
    <a:Action>http://docs.oasis-open.org/ws-rx/wsrm/200702/CreateSequence</a:Action>\
    <a:MessageID>urn:x:1</a:MessageID></s:Header><s:Body><r:CreateSequence><r:AcksTo>\
    <a:Address>http://www.w3.org/2005/08/addressing/anonymous</a:Address></r:AcksTo></r:CreateSequence></s:Body>\
    </s:Envelope>";

// A request with this body.
fn request(alloc: Global, body: &[u8]) -> Result<Blob, Memory> {
    let mut text = Blob::from_slice(
        alloc,
        b"POST / HTTP/1.1\r\nHost: localhost:18473\r\nContent-Type: text/xml; charset=utf-8\r\n\
          SOAPAction: \"\"\r\nContent-Length: ",
    )?;
    push_decimal(&mut text, body.len() as u64)?;
    text.push_all(b"\r\n\r\n")?;
    text.push_all(body)?;
    Ok(text)
}

// A link on which one such request comes.
fn link(alloc: Global, body: &[u8]) -> Result<MemLink, Memory> {
    let mut inputs = Vec::new(alloc);
    let text = request(alloc, body)?;
    inputs.push(conn(alloc, text.as_slice())?)?;
    Ok(MemLink::new(inputs, Numbers::new(alloc)))
}

// A node is made and serves one connection on which this body comes: whether it prints what it should, and its disk.
fn serve(alloc: Global, body: &[u8]) -> Result<(bool, MemDisk), Memory> {
    let mut host = Machine {
        disk: MemDisk::new(alloc),
        link: link(alloc, body)?,
        clock: MemClock::new(0),
    };
    let made = prints(alloc, &mut host, MAKE, 0, b"made\n")?;
    let served = prints(alloc, &mut host, SERVE, 0, b"served 1 dropped 0\n")?;
    let Machine { disk, .. } = host;
    Ok((made & served, disk))
}

// How many entries the journal has then.
fn entries(alloc: Global, disk: &mut MemDisk) -> Result<u64, JournalError> {
    let journal = Journal::mount(alloc, disk)?;
    Ok(journal.count())
}

// Whether it prints what it should, and how many entries its journal has then.
fn served(alloc: Global, body: &[u8]) -> Result<(bool, u64), JournalError> {
    let (is_served, mut disk) = serve(alloc, body)?;
    Ok((is_served, entries(alloc, &mut disk)?))
}

// A CreateSequence of SOAP 1.1 is taken: its node has a second entry then.
#[test]
fn a_sequence_is_granted(rt: HostRuntime) {
    assert!(rt; served(rt.alloc(), CREATE) == Ok((true, 2)));
}

// One of SOAP 1.2 is answered, and not given to the node.
#[test]
fn another_version_is_kept_out(rt: HostRuntime) {
    assert!(rt; served(rt.alloc(), CREATE12) == Ok((true, 1)));
}
