//! Elements, written.
use rm_base::{Blob, Memory};
use soap_document::profile::{Element, EnvelopeError, read_element, strip};
use soap_writer::write_element;
use std::alloc::Global;

fn read(alloc: Global, text: &[u8]) -> Result<Element, EnvelopeError> {
    let tree = read_element(alloc, text)?;
    Ok(strip(alloc, &tree)?)
}

// How an element is written.
fn written(alloc: Global, element: &Element) -> Result<Blob, Memory> {
    let mut out = Blob::new(alloc);
    write_element(alloc, element, false, &mut out)?;
    Ok(out)
}

// Whether these bytes were written.
fn are_bytes(found: Result<Blob, Memory>, wanted: &[u8]) -> bool {
    match found {
        Ok(bytes) => bytes.as_slice() == wanted,
        Err(_) => false,
    }
}

// Whether the element with this text is written so.
fn is_rewritten(alloc: Global, text: &str, wanted: &str) -> bool {
    match read(alloc, text.as_bytes()) {
        Ok(element) => are_bytes(written(alloc, &element), wanted.as_bytes()),
        Err(_) => false,
    }
}

// What is read, and how it is written.
const ELEMENTS: [(&str, &str); 6] = [
    ("<a/>", "<a></a>"),
    ("<a>x&lt;b&gt;&amp;&#13;</a>", "<a>x&lt;b&gt;&amp;&#13;</a>"),
    ("<a b='\"'/>", "<a b=\"&quot;\"></a>"),
    (
        "<p:a xmlns:p='u'><p:b/></p:a>",
        "<n:a xmlns:n=\"u\"><n:b xmlns:n=\"u\"></n:b></n:a>",
    ),
    ("<xml:a/>", "<xml:a></xml:a>"),
    (
        "<a xmlns='u' xmlns:v='v' b='1' v:c='2' xml:lang='en'>t&lt;<d xmlns=''/></a>",
        "<n:a xmlns:n=\"u\" b=\"1\" xmlns:q1=\"v\" q1:c=\"2\" xml:lang=\"en\">t&lt;<d></d></n:a>",
    ),
];

#[test]
fn elements(rt: HostRuntime) {
    for (text, written) in &ELEMENTS {
        assert!(rt; is_rewritten(rt.alloc(), text, written), "{text}");
        assert!(rt; is_rewritten(rt.alloc(), written, written), "{text}");
    }
}

// How an element is written behind a byte, as a reference parameter.
fn marked(alloc: Global, element: &Element) -> Result<Blob, Memory> {
    let mut out = Blob::from_slice(alloc, b"x")?;
    write_element(alloc, element, true, &mut out)?;
    Ok(out)
}

const MARKED: &[u8] = b"x<n:a xmlns:n=\"u\" a:IsReferenceParameter=\"true\" b=\"1\"><c></c></n:a>";

#[test]
fn marks(rt: HostRuntime) -> Result<(), EnvelopeError> {
    let element = read(rt.alloc(), b"<p:a xmlns:p='u' b='1'><c/></p:a>")?;
    assert!(rt; are_bytes(marked(rt.alloc(), &element), MARKED));
    Ok(())
}
