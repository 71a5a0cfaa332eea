//! The pieces of an element within a frame.
use rm_base::Memory;
use soap_writer::nodes::{
    push_attribute, push_begin, push_close, push_declaration, push_leaf, push_number, push_void,
};
use soap_writer::{push_bytes, push_text};
use std::alloc::Global;

fn push_tag(out: &mut Vec<u8>) -> Result<(), Memory> {
    push_begin(b"s:NotUnderstood", out)?;
    push_attribute(b"qname", b"q:L\"\t", out)?;
    push_declaration(b"q", b"urn:<q>", out)?;
    push_bytes(b">", out)
}

fn push_parts(out: &mut Vec<u8>) -> Result<(), Memory> {
    push_text(b"a<b", out)?;
    push_leaf(b"r:Identifier", b"urn:1&2", out)?;
    push_number(b"r:MessageNumber", 9223372036854775807, out)?;
    push_void(b"r:Final", out)?;
    push_close(b"s:NotUnderstood", out)
}

fn pieces(alloc: Global) -> Result<Vec<u8>, Memory> {
    let mut out = Vec::new(alloc);
    push_tag(&mut out)?;
    push_parts(&mut out)?;
    Ok(out)
}

const WRITTEN: &str = concat!(
    "<s:NotUnderstood qname=\"q:L&quot;&#9;\" xmlns:q=\"urn:&lt;q&gt;\">a&lt;b",
    "<r:Identifier>urn:1&amp;2</r:Identifier><r:MessageNumber>9223372036854775807</r:MessageNumber><r:Final/>",
    "</s:NotUnderstood>"
);

#[test]
fn pieces_are_written(rt: HostRuntime) -> Result<(), Memory> {
    let out = pieces(rt.alloc())?;
    assert!(rt; out.as_slice() == WRITTEN.as_bytes());
    Ok(())
}
