//! Documents of the greatest length, of one byte more, and those that break off.
use crate::wire_cases::forms::{PAYLOAD, is_refused};
use rm_base::{Blob, Memory};
use rm_message::FaultKind;
use std::alloc::Global;

// These bytes, and so many spaces behind them.
fn padded(alloc: Global, bytes: &[u8], spaces: u32) -> Result<Blob, Memory> {
    let mut text = Blob::from_slice(alloc, bytes)?;
    for _ in 0..spaces {
        text.push_all(b" ")?;
    }
    Ok(text)
}

// Whether no text, with so many spaces behind it, is refused for this.
fn is_padded_refused(alloc: Global, spaces: u32, kind: FaultKind) -> Result<bool, Memory> {
    let text = padded(alloc, b"<\xff", spaces)?;
    Ok(is_refused(alloc, text.as_slice(), kind))
}

#[test]
fn too_long(rt: HostRuntime) -> Result<(), Memory> {
    assert!(rt; is_padded_refused(rt.alloc(), 2097150, FaultKind::NotUtf8)?);
    assert!(rt; is_padded_refused(rt.alloc(), 2097151, FaultKind::TooLong)?);
    Ok(())
}

// The first bytes of a message.
fn front(len: usize) -> &'static [u8] {
    let (begun, _rest) = PAYLOAD.split_at(len.min(PAYLOAD.len()));
    begun
}

#[test]
fn each_front_is_no_document(rt: HostRuntime) {
    for len in 0..PAYLOAD.len() {
        assert!(rt;
            is_refused(rt.alloc(), front(len), FaultKind::NotProfile),
            "{len}"
        );
    }
}
