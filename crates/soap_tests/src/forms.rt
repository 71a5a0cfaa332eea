//! What the tests share: assertions in parts, and what is read from them.
use rm_base::{Blob, Memory};
use rm_policy::{PolicyError, read_assertion};
use std::alloc::Global;

const ROOT: &[u8] = b"<p:RMAssertion xmlns:p=\"http://docs.oasis-open.org/ws-rx/wsrmp/200702\" \
    xmlns:w=\"http://www.w3.org/ns/ws-policy\" xmlns:v=\"http://schemas.xmlsoap.org/ws/2004/09/policy\" \
    xmlns:o=\"urn:o\"";

/// A place in an assertion: what stands before it, behind the root's name and declarations, and what stands behind it.
#[derive(Clone, Copy)]
pub struct Place {
    before: &'static [u8],
    behind: &'static [u8],
}

/// Between the tags of the root.
pub const ASSERTION: Place = Place {
    before: b">",
    behind: b"</p:RMAssertion>",
};

/// In the Policy of the root.
pub const POLICY: Place = Place {
    before: b"><w:Policy>",
    behind: b"</w:Policy></p:RMAssertion>",
};

// The assertion with this at a place.
fn assertion(alloc: Global, place: Place, content: &[u8]) -> Result<Blob, Memory> {
    let mut text = Blob::from_slice(alloc, ROOT)?;
    text.push_all(place.before)?;
    text.push_all(content)?;
    text.push_all(place.behind)?;
    Ok(text)
}

/// Whether this is the name of what asks for security in the assertion with this at a place.
pub fn asks_by(alloc: Global, place: Place, content: &[u8], name: &[u8]) -> Result<bool, Memory> {
    let text = assertion(alloc, place, content)?;
    match read_assertion(alloc, text.as_slice()) {
        Err(PolicyError::SecurityUnsupported { name: found }) => Ok(found.as_slice() == name),
        _ => Ok(false),
    }
}
