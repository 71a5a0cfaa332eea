//! The frame of an envelope, written, and read back with what stands in it.
use crate::envelope;
use rm_base::{Blob, Memory};
use soap_envelope::frame::{begin_body, begin_envelope, end_envelope};
use std::alloc::Global;

// The frame with these blocks and this between Body's tags.
fn framed(alloc: Global, blocks: &[u8], body: &[u8]) -> Result<Blob, Memory> {
    let mut out = Blob::new(alloc);
    push_framed(&mut out, blocks, body)?;
    Ok(out)
}

fn push_framed(out: &mut Blob, blocks: &[u8], body: &[u8]) -> Result<(), Memory> {
    begin_envelope(out)?;
    out.push_all(blocks)?;
    begin_body(out)?;
    out.push_all(body)?;
    end_envelope(out)
}

const EMPTY: &str = concat!(
    "<s:Envelope xmlns:s=\"http://www.w3.org/2003/05/soap-envelope\"",
    " xmlns:a=\"http://www.w3.org/2005/08/addressing\"",
    " xmlns:r=\"http://docs.oasis-open.org/ws-rx/wsrm/200702\"",
    " xmlns:c=\"http://docs.oasis-open.org/ws-rx/wsmc/200702\"><s:Header></s:Header><s:Body></s:Body></s:Envelope>"
);

#[test]
fn an_empty_frame(rt: HostRuntime) -> Result<(), Memory> {
    let out = framed(rt.alloc(), b"", b"")?;
    assert!(rt; out.as_slice() == EMPTY.as_bytes());
    Ok(())
}

const PREFIXES: &str = concat!(
    " a=http://www.w3.org/2005/08/addressing c=http://docs.oasis-open.org/ws-rx/wsmc/200702",
    " r=http://docs.oasis-open.org/ws-rx/wsrm/200702 s=http://www.w3.org/2003/05/soap-envelope "
);

// Whether a document is shown by these counts, the prefixes of a frame and this payload.
fn is_shown(alloc: Global, document: &[u8], counts: &[u8], payload: &[u8]) -> Result<bool, Memory> {
    let mut wanted = Blob::new(alloc);
    push_wanted(&mut wanted, counts, payload)?;
    Ok(envelope::is_shown(alloc, document, wanted.as_slice()))
}

fn push_wanted(wanted: &mut Blob, counts: &[u8], payload: &[u8]) -> Result<(), Memory> {
    wanted.push_all(counts)?;
    wanted.push_all(PREFIXES.as_bytes())?;
    wanted.push_all(payload)
}

#[test]
fn an_empty_frame_is_read(rt: HostRuntime) {
    assert!(rt; is_shown(rt.alloc(), EMPTY.as_bytes(), b"0 4 0", b"") == Ok(true));
}

const PAYLOAD: &[u8] = b" <!-- c --><x xmlns='u'><y a='1'/>t</x>\r\n";

#[test]
fn a_block_and_a_payload(rt: HostRuntime) -> Result<(), Memory> {
    let out = framed(rt.alloc(), b"<a:To>urn:x</a:To>", PAYLOAD)?;
    assert!(rt; is_shown(rt.alloc(), out.as_slice(), b"1 4 3", PAYLOAD) == Ok(true));
    Ok(())
}
