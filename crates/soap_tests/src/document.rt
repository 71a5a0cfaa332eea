//! Tests of `soap_document`.
ghost use Rattle.std.specs.Prelude.{◌≡◌};

use rm_base::{Blob, Memory};
use soap_document::{Handler, Reader, WrittenAttribute, cut};
use std::alloc::Global;
use std::test::Fail;

// A document as name[attribute=value]{text|child}, and where each content begins or ends.
#[derive(Drop)]
struct Shown {
    bytes: Vec<u8>,
    places: Vec<usize>,
    depth: usize,
}

impl Shown {
    fn new(alloc: Global) -> Shown
        ensures { result.depth ≡ 0 }
    {
        Shown {
            bytes: Vec::new(alloc),
            places: Vec::new(alloc),
            depth: 0,
        }
    }
}

fn push_attribute(bytes: &mut Vec<u8>, attribute: &WrittenAttribute) -> Result<(), Memory> {
    bytes.push(b'[')?;
    bytes.extend_from_slice(attribute.name.as_slice())?;
    bytes.push(b'=')?;
    bytes.extend_from_slice(attribute.value.as_slice())?;
    bytes.push(b']')?;
    Ok(())
}

// A tag of an element, behind a mark where it stands inside another.
fn push_tag(
    bytes: &mut Vec<u8>,
    is_inside: bool,
    name: &[u8],
    attributes: &[WrittenAttribute],
) -> Result<(), Memory> {
    if is_inside {
        bytes.push(b'|')?;
    }
    bytes.extend_from_slice(name)?;
    for attribute in attributes {
        push_attribute(bytes, attribute)?;
    }
    bytes.push(b'{')?;
    Ok(())
}

impl Handler for Shown {
    ghost stands = { λ _ _ _. Unit {0} };

    ghost depth = { λ s. s.depth };

    fn text(&mut self, text: &[u8]) -> Result<(), Memory> {
        self.bytes.push(b'|')?;
        self.bytes.extend_from_slice(text)?;
        Ok(())
    }

    fn open(
        &mut self,
        name: &[u8],
        attributes: &[WrittenAttribute],
        start: usize,
    ) -> Result<(), Memory> {
        push_tag(&mut self.bytes, self.depth > 0, name, attributes)?;
        self.places.push(start)?;
        self.depth = self.depth.checked_add(1).ok_or(Memory)?;
        Ok(())
    }

    fn empty(
        &mut self,
        name: &[u8],
        attributes: &[WrittenAttribute],
        place: usize,
    ) -> Result<(), Memory> {
        push_tag(&mut self.bytes, self.depth > 0, name, attributes)?;
        self.places.push(place)?;
        self.bytes.push(b'}')?;
        Ok(())
    }

    fn close(&mut self, end: usize) -> Result<(), Memory> {
        self.places.push(end)?;
        self.bytes.push(b'}')?;
        self.depth -= 1;
        Ok(())
    }
}

fn read(alloc: Global, document: &[u8]) -> Result<Option<Shown>, Memory> {
    let mut reader = Reader::new(alloc, Shown::new(alloc));
    reader.feed(document)?;
    Ok(reader.finish())
}

// Whether a document was read as this tree.
fn has_tree(found: Option<Shown>, tree: &[u8]) -> bool {
    match found {
        Some(shown) => shown.bytes.as_slice() == tree,
        None => false,
    }
}

// Whether a document is read as this tree.
fn is_shown(alloc: Global, row: &(&str, &str)) -> Result<bool, Memory> {
    Ok(has_tree(read(alloc, row.0.as_bytes())?, row.1.as_bytes()))
}

// Whether a document was read as a tree.
fn has_any_tree(found: Option<Shown>) -> bool {
    match found {
        Some(shown) => !shown.bytes.is_empty(),
        None => false,
    }
}

// Whether a document is taken.
fn is_taken(alloc: Global, document: &[u8]) -> Result<bool, Memory> {
    Ok(has_any_tree(read(alloc, document)?))
}

// Documents, and how they are shown.
const TREES: [(&str, &str); 11] = [
    ("<a/>", "a{}"),
    ("<a></a>", "a{}"),
    ("<p:a q:b='1' c=\"2\"/>", "p:a[q:b=1][c=2]{}"),
    ("<a>t<b/>u</a>", "a{|t|b{}|u}"),
    ("<a>t<!-- c -->u<![CDATA[<]]>v&amp;</a>", "a{|tu<v&}"),
    ("<a><!-- c --></a>", "a{}"),
    ("<a><b><c/></b><b>t</b></a>", "a{|b{|c{}}|b{|t}}"),
    ("<a b=' x\ty&#9;'/>", "a[b= x y\t]{}"),
    ("<a>\r\nx\r</a>", "a{|\nx\n}"),
    ("<a b='1' b='2'/>", "a[b=1][b=2]{}"),
    ("\u{feff}<?xml version='1.0'?><!-- c --> <a/> ", "a{}"),
];

#[test]
fn trees(rt: HostRuntime) {
    for row in &TREES {
        assert!(rt; is_shown(rt.alloc(), row) == Ok(true), "{}", row.0);
    }
}

const PLACED: &[u8] = b"\xef\xbb\xbf<?xml version='1.0'?>\n<a><b x='1' >t&lt;<c/></b ></a>";

// Whether these bytes of the document stand between two of five places.
fn stand_between(shown: &Shown, first: usize, last: usize, wanted: &[u8]) -> bool {
    let places = shown.places.as_slice();
    match (places.get(first), places.get(last)) {
        (Some(first), Some(last)) => {
            (places.len() == 5) & (PLACED.get(*first..*last) == Some(wanted))
        }
        _ => false,
    }
}

#[test]
fn places(rt: HostRuntime) -> Result<(), Fail> {
    let shown = read(rt.alloc(), PLACED)?.ok_or("refused")?;
    assert!(rt; !shown.bytes.is_empty());
    assert!(rt; stand_between(&shown, 0, 4, b"<b x='1' >t&lt;<c/></b >"));
    assert!(rt; stand_between(&shown, 1, 3, b"t&lt;<c/>"));
    Ok(())
}

const TAKEN: [&str; 12] = [
    "<?xml version=\"1.0\"?><a/>",
    "<?xml version='1.0' encoding='utf-8'?><a/>",
    "<?xml version='1.0' encoding=\"UTF-8\" standalone='yes' ?><a/>",
    "<?xml version = '1.0' standalone = 'no'?><a/>",
    "\u{feff}<a/>",
    "\n<!-- c --><!----> <a/>\t<!-- - -->\r\n",
    "<a ></a >",
    "<a\tb = 'x>y'\n/>",
    "<\u{e9}:\u{e9}1.2-3/>",
    "<xml:a/>",
    "<a>]] ></a>",
    "<a><![CDATA[]]></a>",
];

#[test]
fn takes(rt: HostRuntime) {
    for document in &TAKEN {
        assert!(rt;
            is_taken(rt.alloc(), document.as_bytes()) == Ok(true),
            "{document}"
        );
    }
}

const REFUSED: [&str; 42] = [
    "",
    " ",
    "<a>",
    "</a>",
    "<a/><b/>",
    "<a></b>",
    "<a></a b=''>",
    "<a/>x",
    "x<a/>",
    "<![CDATA[]]><a/>",
    "<!DOCTYPE a><a/>",
    "<?pi x?><a/>",
    "<a><?pi x?></a>",
    "<a/><?pi x?>",
    " <?xml version='1.0'?><a/>",
    "<?xml?><a/>",
    "<?xml version='1.1'?><a/>",
    "<?xml version='1.0\"?><a/>",
    "<?xml version='1.0'encoding='utf-8'?><a/>",
    "<?xml version='1.0' encoding='latin1'?><a/>",
    "<?xml version='1.0' standalone='yes' encoding='utf-8'?><a/>",
    "<?xml version='1.0' standalone='maybe'?><a/>",
    "\u{feff}\u{feff}<a/>",
    "<a>]]></a>",
    "<a><!-- -- --></a>",
    "<a><!-- ---></a>",
    "<a b='<'/>",
    "<a b=c/>",
    "<a b/>",
    "<a b='1'c='2'/>",
    "<a b='1\"/>",
    "<a>&nbsp;</a>",
    "<a>&#0;</a>",
    "<a b='&amp'/>",
    "<1/>",
    "<a:/>",
    "<:a/>",
    "<a:b:c/>",
    "< a/>",
    "<a / >",
    "<a b:='1'/>",
    "<a>\u{0}</a>",
];

#[test]
fn refuses(rt: HostRuntime) {
    for document in &REFUSED {
        assert!(rt;
            is_taken(rt.alloc(), document.as_bytes()) == Ok(false),
            "{document}"
        );
    }
    assert!(rt; is_taken(rt.alloc(), b"<a>\xff</a>") == Ok(false));
}

// As many elements, each in the one before.
fn is_nested_taken(alloc: Global, depth: usize) -> Result<bool, Memory> {
    let mut document = Blob::new(alloc);
    push_nested(&mut document, depth)?;
    is_taken(alloc, document.as_slice())
}

fn push_nested(document: &mut Blob, depth: usize) -> Result<(), Memory> {
    for _ in 0..depth {
        document.push_all(b"<x>")?;
    }
    for _ in 0..depth {
        document.push_all(b"</x>")?;
    }
    Ok(())
}

#[test]
fn a_hundred_elements_nest(rt: HostRuntime) {
    assert!(rt; is_nested_taken(rt.alloc(), 100) == Ok(true));
    assert!(rt; is_nested_taken(rt.alloc(), 101) == Ok(false));
}

#[test]
fn tokens_are_cut(rt: HostRuntime) {
    assert!(rt; cut(b':', b"p:a:b") == Some((b"p".as_slice(), b"a:b".as_slice())));
    assert!(rt; cut(b':', b"pa") == None);
}

// Whether a document that is cut within a tag, a reference and a comment is read as this tree.
fn are_pieces_shown(alloc: Global, tree: &[u8]) -> bool {
    let mut reader = Reader::new(alloc, Shown::new(alloc));
    let are_fed = reader.feed(b"<?xml version='1.0'?><p").is_ok()
        && reader.feed(b":a b='1'>t&l").is_ok()
        && reader.feed(b"t;<!-").is_ok()
        && reader.feed(b"- - --><c/>\r\n</p:a>").is_ok();
    are_fed & has_tree(reader.finish(), tree)
}

#[test]
fn pieces_make_a_document(rt: HostRuntime) {
    assert!(rt; are_pieces_shown(rt.alloc(), b"p:a[b=1]{|t<|c{}|\n}"));
}

// Whether a reader that is fed these bytes is refused.
fn is_refused(alloc: Global, bytes: &[u8]) -> Result<bool, Memory> {
    let mut reader = Reader::new(alloc, Shown::new(alloc));
    reader.feed(bytes)?;
    Ok(reader.is_refused())
}

// Whether a reader is refused that is fed these bytes but the last.
fn is_start_refused(alloc: Global, bytes: &[u8]) -> Result<bool, Memory> {
    match bytes.split_last() {
        Some((_, start)) => is_refused(alloc, start),
        None => Ok(true),
    }
}

const DECIDED: [&[u8]; 11] = [
    b"<!D",
    b"<!-x",
    b" <![",
    b"<a><!D",
    b"<a>&x;",
    b"<a>&#0;",
    b"<a b='&x;",
    b"<a/><b/",
    b"<a></b>",
    b"</",
    b"<a><?",
];

// A reader that is fed these bytes is refused once the last of them was read, and not before.
#[test]
fn each_byte_decides(rt: HostRuntime) {
    for bytes in &DECIDED {
        assert!(rt;
            is_refused(rt.alloc(), bytes) == Ok(true),
            "{}",
            bytes.escape_ascii()
        );
        assert!(rt;
            is_start_refused(rt.alloc(), bytes) == Ok(false),
            "{}",
            bytes.escape_ascii()
        );
    }
}
