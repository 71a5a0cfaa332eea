//! Tests of `soap_document::profile`.
use rm_base::limits::ENVELOPE_BYTES;
use rm_base::{Blob, Bytes, Memory, push_decimal};
use soap_document::profile::{
    Attr, Attrs, Element, EnvelopeError, Item, Name, Parts, Shared, check_payload, is_part,
    read_element, strip,
};
use std::alloc::Global;

fn is_taken(alloc: Global, document: &[u8]) -> bool {
    read_element(alloc, document).is_ok()
}

// Whether a document is no element for this reason.
fn is_refused(alloc: Global, document: &[u8], reason: EnvelopeError) -> bool {
    match read_element(alloc, document) {
        Ok(_) => false,
        Err(error) => error == reason,
    }
}

const TAKEN: [&str; 12] = [
    "<a/>",
    "\u{feff}<a/>",
    "<?xml version=\"1.0\"?><a/>",
    "<?xml version='1.0' encoding='UTF-8' standalone='no' ?>\n<!-- c --><a></a > <!-- d -->",
    "<p:a xmlns:p='u'/>",
    "<a xmlns='u'><b xmlns=''><c xmlns='v'/></b></a>",
    "<a xml:lang='en'/>",
    "<a xmlns:xml='http://www.w3.org/XML/1998/namespace'/>",
    "<e xmlns:a='u' xmlns:b='v' a:x='1' b:x='2' x='3'/>",
    "<a>t&amp;&#65;&#x42;<![CDATA[<]]>u<!-- c -->v</a>",
    "<a b=\"x&quot;y'\" c='d\n'/>",
    "<\u{e9}l\u{e9}ment/>",
];

#[test]
fn takes(rt: HostRuntime) {
    for document in &TAKEN {
        assert!(rt; is_taken(rt.alloc(), document.as_bytes()), "{document}");
    }
}

const REFUSED: [&str; 34] = [
    "",
    "<a>",
    "<a/><b/>",
    "<a></b>",
    "<a/>x",
    "<!DOCTYPE a><a/>",
    "<?pi x?><a/>",
    "<a><?pi x?></a>",
    " <?xml version='1.0'?><a/>",
    "<?xml version='1.1'?><a/>",
    "<?xml version='1.0' encoding='latin1'?><a/>",
    "<a>]]></a>",
    "<a><!-- -- --></a>",
    "<a><!-- ---></a>",
    "<a b='<'/>",
    "<a b=c/>",
    "<a b='1'c='2'/>",
    "<a b='1' b='2'/>",
    "<a>&nbsp;</a>",
    "<a>&#0;</a>",
    "<1/>",
    "<p:a/>",
    "<a p:b='1'/>",
    "<a xmlns:p=''/>",
    "<a xmlns:xml='u'/>",
    "<a xmlns:p='http://www.w3.org/XML/1998/namespace'/>",
    "<a xmlns:p='http://www.w3.org/2000/xmlns/'/>",
    "<a xmlns:xmlns='u'/>",
    "<e xmlns:a='u' xmlns:b='u' a:x='1' b:x='2'/>",
    "<a xmlns:p='u'><p:b/></a><p:c/>",
    "<a><b xmlns:p='u'/><p:c/></a>",
    "<a xmlns:xml='http://www.w3.org/2000/xmlns/'/>",
    "<xmlns:a/>",
    "<a:b:c xmlns:a='u'/>",
];

// Whether bytes are no document of the profile.
fn is_no_document(alloc: Global, bytes: &[u8]) -> bool {
    is_refused(alloc, bytes, EnvelopeError::NotProfile)
}

#[test]
fn refuses(rt: HostRuntime) {
    for document in &REFUSED {
        assert!(rt;
            is_no_document(rt.alloc(), document.as_bytes()),
            "{document}"
        );
    }
}

#[test]
fn tells_errors(rt: HostRuntime) {
    let reason = EnvelopeError::NotUtf8 { valid_up_to: 3 };
    assert!(rt; is_refused(rt.alloc(), b"<a>\xff</a>", reason));
}

fn push_name(out: &mut Blob, mark: &[u8], name: &Name) -> Result<(), Memory> {
    out.push_all(mark)?;
    out.push_all(name.space())?;
    out.push_all(b"}")?;
    out.push_all(name.local())
}

fn push_item(out: &mut Blob, item: &Item) -> Result<(), Memory> {
    match item {
        Item::Declaration(declaration) => {
            out.push_all(b" ")?;
            out.push_all(declaration.prefix.as_slice())?;
            out.push_all(b"=")?;
            out.push_all(declaration.space.as_slice())
        }
        Item::Attribute(attribute) => push_name(out, b" @{", &attribute.name),
        Item::Text(text) => {
            out.push_all(b" '")?;
            out.push_all(text.as_slice())
        }
        Item::Child(child) => push_name(out, b" <{", &child.name),
    }
}

// The name of an element, and its items: declarations with a =, attributes with a @, texts with a ', elements with a <.
fn shown(alloc: Global, element: &Element) -> Result<Blob, Memory> {
    let mut out = Blob::new(alloc);
    push_name(&mut out, b"{", &element.name)?;
    for item in &element.items {
        push_item(&mut out, item)?;
    }
    Ok(out)
}

// The item at this place, where it is an element.
fn shown_child(alloc: Global, element: &Element, item: usize) -> Result<Blob, Memory> {
    match element.items.get(item) {
        Some(Item::Child(child)) => shown(alloc, child),
        _ => Ok(Blob::new(alloc)),
    }
}

fn are_bytes(found: Result<Blob, Memory>, wanted: &[u8]) -> bool {
    match found {
        Ok(bytes) => bytes.as_slice() == wanted,
        Err(_) => false,
    }
}

fn is_shown(alloc: Global, document: &[u8], wanted: &[u8]) -> bool {
    match read_element(alloc, document) {
        Ok(tree) => are_bytes(shown(alloc, &tree), wanted),
        Err(_) => false,
    }
}

// Documents, and how they are shown: texts are joined, names are expanded, bindings end with their elements, and
// declarations are kept.
const SHOWN: [(&str, &str); 4] = [
    (
        "<a>t\r\n&#13;<![CDATA[<]]>u<!-- c -->v<b/><!-- d --></a>",
        "{}a 't\n\r<uv <{}b",
    ),
    (
        "<a xmlns='u' b='1' xml:c='2'><b xmlns=''/></a>",
        "{u}a =u @{}b @{http://www.w3.org/XML/1998/namespace}c <{}b",
    ),
    (
        "<a xmlns='u' xmlns:p='v'><b xmlns=''/><c/><d xmlns='w'/><e/><f xmlns:p='x'/><p:g/></a>",
        "{u}a =u p=v <{}b <{u}c <{w}d <{u}e <{u}f <{v}g",
    ),
    (DECLARING, "{u}a p=u @{}b 't <{v}c"),
];

#[test]
fn elements_are_shown(rt: HostRuntime) {
    for (document, wanted) in &SHOWN {
        assert!(rt;
            is_shown(rt.alloc(), document.as_bytes(), wanted.as_bytes()),
            "{document}"
        );
    }
}

fn push_numbered(text: &mut Blob, before: &[u8], number: u64, behind: &[u8]) -> Result<(), Memory> {
    text.push_all(before)?;
    push_decimal(text, number)?;
    text.push_all(behind)
}

// An element with 20000 attributes, and a last one.
fn push_many(text: &mut Blob, last: &[u8]) -> Result<(), Memory> {
    text.push_all(b"<a")?;
    for i in 0..20000u64 {
        push_numbered(text, b" b", i, b"='c'")?;
    }
    text.push_all(last)?;
    text.push_all(b"/>")
}

fn many(alloc: Global, last: &[u8]) -> Result<Blob, Memory> {
    let mut text = Blob::new(alloc);
    push_many(&mut text, last)?;
    Ok(text)
}

// Whether the element with this last attribute is taken, or refused as no document of the profile.
fn is_many_taken(alloc: Global, last: &[u8]) -> Result<bool, Memory> {
    Ok(is_taken(alloc, many(alloc, last)?.as_slice()))
}

fn is_many_refused(alloc: Global, last: &[u8]) -> Result<bool, Memory> {
    Ok(is_no_document(alloc, many(alloc, last)?.as_slice()))
}

#[test]
fn takes_many_attributes(rt: HostRuntime) {
    assert!(rt; is_many_taken(rt.alloc(), b" last='c'") == Ok(true));
    assert!(rt; is_many_refused(rt.alloc(), b" b7='c'") == Ok(true));
}

fn is_child_shown(alloc: Global, document: &[u8], wanted: &[u8]) -> bool {
    match read_element(alloc, document) {
        Ok(tree) => are_bytes(shown_child(alloc, &tree, 1), wanted),
        Err(_) => false,
    }
}

#[test]
fn default_namespaces_nest(rt: HostRuntime) {
    let document = b"<a xmlns='u'><b xmlns=''><c xmlns='v'/><d/></b></a>";
    assert!(rt; is_child_shown(rt.alloc(), document, b"{}b = <{v}c <{}d"));
}

const DECLARING: &str = "<p:a xmlns:p='u' b='1'>t<c xmlns='v'/></p:a>";

// The element without its declarations.
fn stripped(alloc: Global) -> Result<Element, EnvelopeError> {
    let tree = read_element(alloc, DECLARING.as_bytes())?;
    Ok(strip(alloc, &tree)?)
}

// Whether an element is shown so, and the child at its item 2.
fn are_shown(alloc: Global, element: &Element, wanted: &[u8], child: &[u8]) -> bool {
    are_bytes(shown(alloc, element), wanted) & are_bytes(shown_child(alloc, element, 2), child)
}

#[test]
fn declarations_are_stripped(rt: HostRuntime) -> Result<(), EnvelopeError> {
    let stripped = stripped(rt.alloc())?;
    assert!(rt; are_shown(rt.alloc(), &stripped, b"{u}a @{}b 't <{v}c", b"{v}c"));
    Ok(())
}

// A document with white space behind it, so long.
fn padded(alloc: Global, len: usize) -> Result<Blob, Memory> {
    let mut bytes = Blob::from_slice(alloc, b"<a/>")?;
    for _ in 4..len {
        bytes.push_all(b" ")?;
    }
    Ok(bytes)
}

fn is_padded_taken(alloc: Global, len: usize) -> Result<bool, Memory> {
    Ok(is_taken(alloc, padded(alloc, len)?.as_slice()))
}

fn is_padded_refused(alloc: Global, len: usize, reason: EnvelopeError) -> Result<bool, Memory> {
    Ok(is_refused(alloc, padded(alloc, len)?.as_slice(), reason))
}

#[test]
fn a_document_has_a_greatest_length(rt: HostRuntime) {
    assert!(rt; is_padded_taken(rt.alloc(), ENVELOPE_BYTES) == Ok(true));
    let reason = EnvelopeError::TooLong { len: 2097153 };
    assert!(rt; is_padded_refused(rt.alloc(), ENVELOPE_BYTES + 1, reason) == Ok(true));
}

// Payloads, and whether they are closed.
const PAYLOADS: [(&str, bool); 14] = [
    ("", true),
    (" <a/> ", true),
    ("&#32;", true),
    ("<![CDATA[ ]]><a/>", true),
    ("<a/><b>x</b>", true),
    ("<p:a xmlns:p='u'/>", true),
    ("<a xml:lang='en'/>", true),
    ("x", false),
    ("<a/>x", false),
    ("<p:a/>", false),
    ("<a p:b='c'/>", false),
    ("<p:a xmlns:p='u'/><p:b/>", false),
    ("</a><a>", false),
    ("<a>", false),
];

// Whether a payload is told to be closed, or to be none.
fn is_told(alloc: Global, row: &(&str, bool)) -> bool {
    check_payload(alloc, row.0.as_bytes()) == Ok(row.1)
}

#[test]
fn payloads(rt: HostRuntime) {
    for row in &PAYLOADS {
        assert!(rt; is_told(rt.alloc(), row), "{}", row.0);
    }
}

fn push_declaration(text: &mut Blob, level: u64, i: u64) -> Result<(), Memory> {
    push_numbered(text, b" xmlns:p", level, b"x")?;
    push_numbered(text, b"", i, b"='u'")
}

// The start of an element with so many declarations at this depth.
fn push_declaring(text: &mut Blob, level: u64, declarations: u64) -> Result<(), Memory> {
    text.push_all(b"<a")?;
    for i in 0..declarations {
        push_declaration(text, level, i)?;
    }
    text.push_all(b">")
}

// So many elements with names that the outermost binds.
fn push_named(text: &mut Blob, declarations: u64) -> Result<(), Memory> {
    for i in 0..declarations {
        push_numbered(text, b"<p0x", i, b":b/>")?;
    }
    Ok(())
}

fn push_repeated(text: &mut Blob, piece: &[u8], count: u64) -> Result<(), Memory> {
    for _ in 0..count {
        text.push_all(piece)?;
    }
    Ok(())
}

// As many elements in one another, each with many declarations, around many names that the outermost bind.
fn push_nested(text: &mut Blob, depth: u64, declarations: u64) -> Result<(), Memory> {
    for level in 0..depth {
        push_declaring(text, level, declarations)?;
    }
    push_named(text, declarations)?;
    push_repeated(text, b"</a>", depth)
}

fn nested(alloc: Global, depth: u64, declarations: u64) -> Result<Blob, Memory> {
    let mut text = Blob::new(alloc);
    push_nested(&mut text, depth, declarations)?;
    Ok(text)
}

// Whether a payload of as many elements in one another is told to be closed.
fn is_nested_closed(alloc: Global, depth: u64) -> Result<bool, Memory> {
    check_payload(alloc, nested(alloc, depth, 0)?.as_slice())
}

#[test]
fn payloads_are_90_deep(rt: HostRuntime) {
    assert!(rt; is_nested_closed(rt.alloc(), 90) == Ok(true));
    assert!(rt; is_nested_closed(rt.alloc(), 91) == Ok(false));
}

#[test]
fn takes_many_declarations(rt: HostRuntime) -> Result<(), Memory> {
    let text = nested(rt.alloc(), 99, 100)?;
    assert!(rt; is_taken(rt.alloc(), text.as_slice()));
    Ok(())
}

// As many elements in one with a long namespace.
fn push_long(text: &mut Blob) -> Result<(), Memory> {
    text.push_all(b"<a xmlns='")?;
    push_repeated(text, b"urn:namespace:", 20000)?;
    text.push_all(b"'>")?;
    push_repeated(text, b"<b/>", 20000)?;
    text.push_all(b"</a>")
}

fn of_a_long_namespace(alloc: Global) -> Result<Blob, Memory> {
    let mut text = Blob::new(alloc);
    push_long(&mut text)?;
    Ok(text)
}

#[test]
fn names_share_a_long_namespace(rt: HostRuntime) -> Result<(), Memory> {
    let text = of_a_long_namespace(rt.alloc())?;
    assert!(rt; is_taken(rt.alloc(), text.as_slice()));
    Ok(())
}

fn are_shared_bytes(found: Result<Shared, Memory>, wanted: &[u8]) -> bool {
    match found {
        Ok(shared) => (shared.as_slice() == wanted) & (shared.is_empty() == wanted.is_empty()),
        Err(_) => false,
    }
}

// Whether these bytes are held, by another holder of them too.
fn is_held(alloc: Global, bytes: &[u8]) -> bool {
    match Shared::from_slice(alloc, bytes) {
        Ok(shared) => {
            (shared.is_empty() == bytes.is_empty()) & are_shared_bytes(shared.share(), bytes)
        }
        Err(_) => false,
    }
}

#[test]
fn holds_bytes(rt: HostRuntime) {
    assert!(rt; is_held(rt.alloc(), b"abc"));
    assert!(rt; is_held(rt.alloc(), b""));
}

fn name(alloc: Global, space: &[u8], local: &[u8]) -> Result<Name, Memory> {
    let space = Shared::from_slice(alloc, space)?;
    Name::new(alloc, space, local)
}

fn is_name(found: Result<Name, Memory>, space: &[u8], local: &[u8]) -> bool {
    match found {
        Ok(name) => (name.space() == space) & (name.local() == local),
        Err(_) => false,
    }
}

#[test]
fn holds_both_parts(rt: HostRuntime) -> Result<(), Memory> {
    let name = name(rt.alloc(), b"urn:u", b"abc")?;
    assert!(rt; is_name(name.share(), b"urn:u", b"abc"));
    Ok(())
}

fn keep_part(parts: &mut Parts, item: Item) -> Result<(), Memory> {
    if is_part(&item) {
        parts.push(item)
    } else {
        Ok(())
    }
}

fn keep_parts(parts: &mut Parts, element: Element) -> Result<(), Memory> {
    for item in element.items {
        keep_part(parts, item)?;
    }
    Ok(())
}

// The parts among an element's items.
fn parts_of(alloc: Global, document: &[u8]) -> Result<Parts, EnvelopeError> {
    let mut parts = Parts::new(alloc);
    keep_parts(&mut parts, read_element(alloc, document)?)?;
    Ok(parts)
}

// Each of the parts, as an item is shown.
fn shown_parts(alloc: Global, document: &[u8]) -> Result<Blob, EnvelopeError> {
    let parts = parts_of(alloc, document)?;
    let mut out = Blob::new(alloc);
    for i in 0..parts.len() {
        if let Some(part) = parts.get(i) {
            push_item(&mut out, part)?;
        }
    }
    Ok(out)
}

const PARTS: &[u8] = b"<a xmlns:p='u' b='1'>t<c/></a>";

#[test]
fn parts_are_a_list(rt: HostRuntime) -> Result<(), EnvelopeError> {
    let shown = shown_parts(rt.alloc(), PARTS)?;
    assert!(rt; shown.as_slice() == b" 't <{}c".as_slice());
    Ok(())
}

// Whether there are two parts, of which the second is a child.
fn are_two(parts: &Parts) -> bool {
    let is_child = matches!(parts.as_slice().get(1), Some(Item::Child(_)));
    (parts.len() == 2) & !parts.is_empty() & is_child & parts.get(2).is_none()
}

#[test]
fn parts_are_counted(rt: HostRuntime) -> Result<(), EnvelopeError> {
    let parts = parts_of(rt.alloc(), PARTS)?;
    assert!(rt; are_two(&parts));
    Ok(())
}

fn push_child(parts: &mut Parts, child: Element) -> bool {
    let was_empty = parts.is_empty();
    let pushed = parts.push(Item::Child(child));
    was_empty & (pushed == Ok(())) & (parts.len() == 1)
}

#[test]
fn parts_are_pushed(rt: HostRuntime) -> Result<(), EnvelopeError> {
    let child = read_element(rt.alloc(), b"<a/>")?;
    assert!(rt; push_child(&mut Parts::new(rt.alloc()), child));
    Ok(())
}

#[test]
fn attributes_are_a_list(rt: HostRuntime) -> Result<(), Memory> {
    let name = name(rt.alloc(), b"u", b"a")?;
    let value = Bytes::from_slice(rt.alloc(), b"1")?;
    let mut attrs: Attrs = Attrs::new(rt.alloc());
    attrs.push(Attr { name, value })?;
    assert!(rt; attrs.len() == 1);
    match attrs.get(0) {
        Some(attr) => assert!(rt; attr.value.as_slice() == b"1".as_slice()),
        None => assert!(rt; false),
    }
    Ok(())
}
