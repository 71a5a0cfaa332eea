//! Normal forms as texts in memory, which the program never makes: it writes to its output, block by block.
use rm_base::Blob;
use rm_policy::alternatives::{WspError, normalise, read_policy, write_normal};
use std::alloc::Global;

const ROOT: &[u8] = b"<w:Policy xmlns:w=\"http://www.w3.org/ns/ws-policy\" \
    xmlns:p=\"http://docs.oasis-open.org/ws-rx/wsrmp/200702\" xmlns:x=\"urn:x\" xmlns:y=\"urn:a,b c%d\">";

// Whether the normal form of the policy with this content has this text.
fn is_written(alloc: Global, content: &[u8], text: &[u8]) -> Result<bool, WspError> {
    let mut bytes = Blob::from_slice(alloc, ROOT)?;
    bytes.push_all(content)?;
    bytes.push_all(b"</w:Policy>")?;
    let policy = read_policy(alloc, bytes.as_slice())?;
    let lists = normalise(alloc, &policy)?;
    let written = write_normal(alloc, &lists)?;
    Ok(written.as_slice() == text)
}

const TEXTS: [(&[u8], &[u8]); 6] = [
    (b"<w:ExactlyOne/>", b"alternatives 0\n"),
    (b"", b"alternatives 1\nalt 1 -\n"),
    (
        b"<x:a w:Optional='true'/><w:ExactlyOne><x:b/><x:c/></w:ExactlyOne>",
        b"alternatives 4\nalt 1 {urn:x}a,{urn:x}b\nalt 2 {urn:x}a,{urn:x}c\nalt 3 {urn:x}b\nalt 4 {urn:x}c\n",
    ),
    (
        b"<y:\xc3\xa9/><p:RMAssertion w:Optional='1'/>",
        b"alternatives 2\nalt 1 rm:unsaid,{urn:a%2Cb%20c%25d}%C3%A9\nalt 2 {urn:a%2Cb%20c%25d}%C3%A9\n",
    ),
    (
        b"<p:RMAssertion><w:Policy><p:DeliveryAssurance><w:Policy><p:ExactlyOnce/><p:InOrder/></w:Policy>\
            </p:DeliveryAssurance></w:Policy></p:RMAssertion>",
        b"alternatives 1\nalt 1 rm:exactly-once+in-order\n",
    ),
    (
        b"<w:ExactlyOne><x:k/><x:j/><x:i/><x:h/><x:g/><x:f/><x:e/><x:d/><x:c/><x:b/></w:ExactlyOne>",
        b"alternatives 10\nalt 1 {urn:x}b\nalt 2 {urn:x}c\nalt 3 {urn:x}d\nalt 4 {urn:x}e\nalt 5 {urn:x}f\n\
            alt 6 {urn:x}g\nalt 7 {urn:x}h\nalt 8 {urn:x}i\nalt 9 {urn:x}j\nalt 10 {urn:x}k\n",
    ),
];

#[test]
fn texts(rt: HostRuntime) -> Result<(), WspError> {
    for (content, text) in TEXTS {
        assert!(rt; is_written(rt.alloc(), content, text)?);
    }
    Ok(())
}
