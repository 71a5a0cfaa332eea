//! Tests of `soap_writer::values`. What a test does stands in a helper that answers a plain value, since a test with
//! many steps is slow to prove.
use soap_document::profile::{Element, EnvelopeError, read_element};
use soap_writer::values::{
    Flaw, find_all, find_optional, find_single, find_value, is_named, is_true_mark, read_ident,
    read_number, read_text, read_trimmed, read_uri, trim,
};
use std::alloc::Global;

fn tree(alloc: Global) -> Result<Element, EnvelopeError> {
    read_element(
        alloc,
        b"<a xmlns='u' k='v'> <b/>x<c>1</c><b xmlns='w'/><c>2</c></a>",
    )
}

// Whether an element has a child of this name in namespace u, or an error where it has more.
fn has_optional(tree: &Element, local: &[u8]) -> Result<bool, Flaw> {
    Ok(find_optional(tree.items.as_slice(), b"u", local)?.is_some())
}

#[test]
fn finds_an_optional_child(rt: HostRuntime) -> Result<(), EnvelopeError> {
    let tree = tree(rt.alloc())?;
    assert!(rt; has_optional(&tree, b"b") == Ok(true));
    assert!(rt; has_optional(&tree, b"d") == Ok(false));
    assert!(rt; has_optional(&tree, b"c") == Err(Flaw::Malformed));
    Ok(())
}

// Why an element has not one child of this name, or None where it has.
fn single_flaw(tree: &Element, space: &[u8], local: &[u8]) -> Option<Flaw> {
    find_single(tree.items.as_slice(), space, local).err()
}

#[test]
fn finds_a_single_child(rt: HostRuntime) -> Result<(), EnvelopeError> {
    let tree = tree(rt.alloc())?;
    assert!(rt; single_flaw(&tree, b"u", b"d") == Some(Flaw::Malformed));
    assert!(rt; single_flaw(&tree, b"w", b"b").is_none());
    assert!(rt; is_named(&tree.name, b"u", b"a"));
    Ok(())
}

// How many children there are of this name.
fn count_children(alloc: Global, tree: &Element, local: &[u8]) -> Result<usize, Flaw> {
    let found = find_all(alloc, tree.items.as_slice(), b"u", local)?;
    Ok(found.len())
}

#[test]
fn finds_all_children(rt: HostRuntime) -> Result<(), EnvelopeError> {
    let tree = tree(rt.alloc())?;
    assert!(rt; count_children(rt.alloc(), &tree, b"c") == Ok(2));
    Ok(())
}

// Whether the value of this name is so.
fn has_value(tree: &Element, space: &[u8], value: Option<&[u8]>) -> bool {
    find_value(tree.items.as_slice(), space, b"k") == value
}

// Why the text of an element is not read, or None where it is.
fn text_flaw(alloc: Global, tree: &Element) -> Option<Flaw> {
    read_text(alloc, tree.items.as_slice()).err()
}

#[test]
fn finds_values(rt: HostRuntime) -> Result<(), EnvelopeError> {
    let tree = tree(rt.alloc())?;
    assert!(rt; has_value(&tree, b"", Some(b"v".as_slice())));
    assert!(rt; has_value(&tree, b"u", None));
    assert!(rt; text_flaw(rt.alloc(), &tree) == Some(Flaw::Malformed));
    Ok(())
}

// Whether an element has this text, trimmed.
fn has_trimmed(alloc: Global, element: &Element, text: &[u8]) -> Result<bool, Flaw> {
    let found = read_trimmed(alloc, element)?;
    Ok(found.as_slice() == text)
}

#[test]
fn texts_are_trimmed(rt: HostRuntime) -> Result<(), EnvelopeError> {
    let tree = read_element(rt.alloc(), b"<a> \t1<!-- c -->2&#13;</a>")?;
    assert!(rt; has_trimmed(rt.alloc(), &tree, b"12") == Ok(true));
    assert!(rt; trim(b" \r\nx y\t") == b"x y".as_slice());
    Ok(())
}

const NUMBERS: [(&str, Option<u64>); 7] = [
    ("0", Some(0)),
    ("+17", Some(17)),
    ("007", Some(7)),
    ("99999999999999999999999", Some(u64::MAX)),
    ("", None),
    ("-1", None),
    ("1 ", None),
];

fn is_number(text: &str, number: Option<u64>) -> bool {
    read_number(text.as_bytes()) == number
}

#[test]
fn numbers(rt: HostRuntime) {
    for (text, number) in &NUMBERS {
        assert!(rt; is_number(text, *number), "{text}");
    }
}

// A text, and whether it is a mark for true.
const MARKS: [(&str, bool); 5] = [
    (" true ", true),
    ("1", true),
    ("TRUE", false),
    ("", false),
    ("0", false),
];

fn is_mark(text: &str, is_true: bool) -> bool {
    is_true_mark(text.as_bytes()) == is_true
}

#[test]
fn marks(rt: HostRuntime) {
    for (text, is_true) in &MARKS {
        assert!(rt; is_mark(text, *is_true), "{text}");
    }
}

// Whether the bytes of an identifier are these, or None where it is refused.
fn is_ident(alloc: Global, bytes: &[u8]) -> Option<bool> {
    let ident = read_ident(alloc, bytes).ok()?;
    Some(ident.as_slice() == bytes)
}

// Whether the bytes of a URI are these, or None where it is refused.
fn is_uri(alloc: Global, bytes: &[u8]) -> Option<bool> {
    let uri = read_uri(alloc, bytes).ok()?;
    Some(uri.as_slice() == bytes)
}

#[test]
fn names(rt: HostRuntime) {
    assert!(rt; is_ident(rt.alloc(), b"urn:a") == Some(true));
    assert!(rt; is_ident(rt.alloc(), b" urn:a") == None);
    assert!(rt; is_uri(rt.alloc(), b"http://a/") == Some(true));
    assert!(rt; is_uri(rt.alloc(), b"") == None);
}
