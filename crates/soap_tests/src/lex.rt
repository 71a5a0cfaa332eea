//! Tests of `soap_lex`.
use soap_lex::{
    LexError, Memory, Quote, TextReader, ValueReader, is_cdata, is_char_data, is_comment, is_name,
    is_plain_value, push_line_ends, push_spaces, read_attr, read_name, read_text, reference,
    utf8_prefix, write_attr, write_text,
};
use std::alloc::{AllocError, Global};

// Bytes, the end up to which they are read, and their meaning.
type Read = (&'static [u8], usize, &'static [u8]);

// Whether text is read up to this end with this meaning.
fn reads_text(alloc: Global, row: &Read) -> bool {
    let mut out = Vec::new(alloc);
    let read = read_text(row.0, 0, &mut out);
    (read == Ok(row.1)) & (out.as_slice() == row.2)
}

// Whether text is refused with nothing written.
fn refuses_text(alloc: Global, bytes: &[u8]) -> bool {
    let mut out = Vec::new(alloc);
    let read = read_text(bytes, 0, &mut out);
    (read == Err(LexError::NotProfile)) & out.is_empty()
}

// Whether a value is read up to this end with this meaning.
fn reads_value(alloc: Global, row: &Read) -> bool {
    let mut out = Vec::new(alloc);
    let read = read_attr(row.0, 0, &mut out);
    (read == Ok(row.1)) & (out.as_slice() == row.2)
}

// Whether a value is refused with nothing written.
fn refuses_value(alloc: Global, bytes: &[u8]) -> bool {
    let mut out = Vec::new(alloc);
    let read = read_attr(bytes, 0, &mut out);
    (read == Err(LexError::NotProfile)) & out.is_empty()
}

const TEXTS: [Read; 17] = [
    (b"", 0, b""),
    (b"<a/>", 0, b""),
    (b"a b</p>", 3, b"a b"),
    (b"a&lt;b&amp;&gt;&apos;&quot;", 27, b"a<b&>'\""),
    (b"a\r\nb\rc\r\r\n", 9, b"a\nb\nc\n\n"),
    (b"<![CDATA[a\r\nb\rc]]>", 18, b"a\nb\nc"),
    (b"<![CDATA[<&]]>]]&gt;", 20, b"<&]]>"),
    (b"<![CDATA[]]]]><![CDATA[>]]>", 27, b"]]>"),
    (b"a<!-- - <b> & -->c<!b", 18, b"ac"),
    (b"\r<!---->\n", 9, b"\n\n"),
    (b"&#13;\n&#xD;&#xA;", 16, b"\r\n\r\n"),
    (b"]]&#62;&#x5D;]>", 15, b"]]>]]>"),
    (b"&#x10FFFF;", 10, b"\xF4\x8F\xBF\xBF"),
    (b"&#x10ffff;", 10, b"\xF4\x8F\xBF\xBF"),
    (b"&#00000000000000000000065;", 26, b"A"),
    (b"&#x00000000000000000000041;", 27, b"A"),
    (b"\xEF\xBF\xBD\x7F\xC2\x80", 6, b"\xEF\xBF\xBD\x7F\xC2\x80"),
];

#[test]
fn text_has_its_meaning(rt: HostRuntime) {
    for row in &TEXTS {
        assert!(rt; reads_text(rt.alloc(), row), "{}", row.0.escape_ascii());
    }
}

const OTHER_TEXTS: [&[u8]; 29] = [
    b"a]]>b",
    b"a<!-- b --->",
    b"a<!-- -- -->",
    b"a<!-- b",
    b"<!-->",
    b"a<![CDATA[b]]",
    b"a&b",
    b"a&b;",
    b"&;",
    b"&#;",
    b"&#x;",
    b"&#X41;",
    b"&#4 1;",
    b"&#4f;",
    b"&#x4g;",
    b"&#+65;",
    b"&#0;",
    b"&#8;",
    b"&#xD800;",
    b"&#xDFFF;",
    b"&#xFFFE;",
    b"&#x110000;",
    b"&#4294967361;",
    b"&#99999999999999999999999999;",
    b"a\0",
    b"\x1F",
    b"\xEF\xBF\xBE",
    b"<!--\xEF\xBF\xBF-->",
    b"<![CDATA[\x0B]]>",
];

#[test]
fn other_text_is_refused(rt: HostRuntime) {
    for bytes in OTHER_TEXTS {
        assert!(rt; refuses_text(rt.alloc(), bytes), "{}", bytes.escape_ascii());
    }
}

const VALUES: [Read; 7] = [
    (b"\"\"", 2, b""),
    (b"'a\"b'c", 5, b"a\"b"),
    (b"\"a'>b\">", 6, b"a'>b"),
    (b"\"a\tb\nc\r\nd\re\r\r\n\"", 15, b"a b c d e  "),
    (b"\"&#9;&#10;&#13;&#xA;\"", 21, b"\t\n\r\n"),
    (b"'&quot;&apos;&lt;&amp;'", 23, b"\"'<&"),
    (b"\"]]>\"", 5, b"]]>"),
];

#[test]
fn values_have_their_meaning(rt: HostRuntime) {
    for row in &VALUES {
        assert!(rt; reads_value(rt.alloc(), row), "{}", row.0.escape_ascii());
    }
}

const OTHER_VALUES: [&[u8]; 9] = [
    b"",
    b"a",
    b"\"",
    b"\"a'",
    b"'a<b'",
    b"\"a&b\"",
    b"\"&#xD800;\"",
    b"\"\x01\"",
    b"\"\xEF\xBF\xBE\"",
];

#[test]
fn other_values_are_refused(rt: HostRuntime) {
    for bytes in OTHER_VALUES {
        assert!(rt;
            refuses_value(rt.alloc(), bytes),
            "{}",
            bytes.escape_ascii()
        );
    }
}

// Whether each reading answers so, and what is appended is the meaning of both that came to an end.
fn goes_on_at_a_place(alloc: Global) -> bool {
    let mut out = Vec::new(alloc);
    let text = read_text(b"<a b='c'>d<", 9, &mut out) == Ok(10);
    let value = read_attr(b"<a b='c'>d<", 5, &mut out) == Ok(8);
    let other = read_text(b"<a b='c'>d&<", 9, &mut out) == Err(LexError::NotProfile);
    text & value & other & (out.as_slice() == b"dc".as_slice())
}

#[test]
fn reading_goes_on_at_a_place(rt: HostRuntime) {
    assert!(rt; goes_on_at_a_place(rt.alloc()));
}

#[test]
fn names_end_at_a_place(rt: HostRuntime) {
    assert!(rt; read_name(b"<a-1 b", 1) == Some(4));
    assert!(rt; read_name(b"<a-1 b", 0).is_none());
    assert!(rt; read_name(b"a:b", 0) == Some(1));
    assert!(rt; read_name(b"", 0).is_none());
    assert!(rt; read_name("é̀×".as_bytes(), 0) == Some(4));
    assert!(rt; read_name("̀é".as_bytes(), 0).is_none());
}

// Pieces of a text, how much of each is read, and whether a less-than sign was read last.
const TEXT_PIECES: [(&[u8], usize, bool); 4] = [
    (b"a\r", 2, false),
    (b"\nb<!", 3, true),
    (b"!b", 1, false),
    (b"b", 0, false),
];

// Whether a piece of a text is read so.
fn is_text_fed(reader: &mut TextReader, out: &mut Vec<u8>, row: &(&[u8], usize, bool)) -> bool {
    let is_read = reader.feed(row.0, out) == Ok(row.1);
    is_read & (reader.is_less() == row.2)
}

// Whether a reader that begins anew reads one more byte, and comes to its end.
fn is_text_ended(mut reader: TextReader, out: &mut Vec<u8>) -> bool {
    reader.restart();
    let is_read = reader.feed(b"c", out) == Ok(1);
    is_read & (reader.finish(out) == Ok(Some(0)))
}

#[test]
fn text_is_fed_in_pieces(rt: HostRuntime) {
    let mut out = Vec::new(rt.alloc());
    let mut reader = TextReader::new(rt.alloc());
    for row in &TEXT_PIECES {
        assert!(rt; is_text_fed(&mut reader, &mut out, row), "{}", row.1);
    }
    assert!(rt; is_text_ended(reader, &mut out));
    assert!(rt; out.as_slice() == b"a\nbc".as_slice());
}

// How many bytes are taken at once behind a <.
fn opened(alloc: Global, piece: &[u8]) -> usize {
    let mut reader = TextReader::new(alloc);
    let mut out = Vec::new(alloc);
    match reader.feed(b"<", &mut out) {
        Ok(_) => reader.open(piece),
        Err(_) => 100,
    }
}

const OPENED: [(&str, usize); 4] = [("!--a-->", 3), ("![CDATA[a]]>", 8), ("!-", 0), ("a>", 0)];

#[test]
fn what_begins_a_section_is_taken_at_once(rt: HostRuntime) {
    for (piece, count) in &OPENED {
        assert!(rt; opened(rt.alloc(), piece.as_bytes()) == *count, "{piece}");
    }
}

// Pieces of a value, how much of each is read, and whether the value is closed then.
const VALUE_PIECES: [(&[u8], usize, bool); 4] = [
    (b"&am", 1, false),
    (b"am", 2, false),
    (b"p;d'e", 2, false),
    (b"d'e", 2, true),
];

// Whether a piece of a value is read so.
fn is_value_fed(reader: &mut ValueReader, out: &mut Vec<u8>, row: &(&[u8], usize, bool)) -> bool {
    let is_read = reader.feed(row.0, out) == Ok(row.1);
    is_read & (reader.is_closed() == row.2)
}

// Whether a reader that begins anew is open.
fn is_value_open(reader: &mut ValueReader) -> bool {
    reader.restart(Quote::Double);
    !reader.is_closed()
}

#[test]
fn values_are_fed_in_pieces(rt: HostRuntime) {
    let mut out = Vec::new(rt.alloc());
    let mut reader = ValueReader::new(rt.alloc(), Quote::Single);
    for row in &VALUE_PIECES {
        assert!(rt; is_value_fed(&mut reader, &mut out, row), "{}", row.1);
    }
    assert!(rt; is_value_open(&mut reader));
    assert!(rt; out.as_slice() == b"&d".as_slice());
}

#[test]
fn quotes_are_bytes(rt: HostRuntime) {
    assert!(rt; Quote::from_byte(b'\'') == Some(Quote::Single));
}

// Whether a name that begins with an underscore goes on with this character.
fn goes_on(alloc: Global, character: &[u8]) -> Result<bool, AllocError> {
    let mut name = Vec::from_slice(alloc, b"_")?;
    name.extend_from_slice(character)?;
    Ok(is_name(&name))
}

// Whether a name begins with a character, and goes on with it.
fn is_border(alloc: Global, (character, begins, further): &(char, bool, bool)) -> bool {
    let mut room = [0; 4];
    let first = character.encode_utf8(&mut room).as_bytes();
    (is_name(first) == *begins) & (goes_on(alloc, first) == Ok(*further))
}

#[test]
fn names_begin_and_go_on(rt: HostRuntime) {
    // Each border of each range, and the character outside it.
    for row in &NAME_BORDERS {
        assert!(rt; is_border(rt.alloc(), row), "{:?}", row.0);
    }
}

const NO_NAMES: [&[u8]; 3] = [b"", b"a b", b"a\xC3"];

#[test]
fn no_names(rt: HostRuntime) {
    for bytes in NO_NAMES {
        assert!(rt; !is_name(bytes), "{}", bytes.escape_ascii());
    }
}

const NAME_BORDERS: [(char, bool, bool); 58] = [
    ('\u{2C}', false, false),
    ('\u{2D}', false, true),
    ('\u{2E}', false, true),
    ('\u{2F}', false, false),
    ('\u{30}', false, true),
    ('\u{39}', false, true),
    ('\u{3A}', false, false),
    ('\u{40}', false, false),
    ('\u{41}', true, true),
    ('\u{5A}', true, true),
    ('\u{5B}', false, false),
    ('\u{5E}', false, false),
    ('\u{5F}', true, true),
    ('\u{60}', false, false),
    ('\u{61}', true, true),
    ('\u{7A}', true, true),
    ('\u{7B}', false, false),
    ('\u{00B6}', false, false),
    ('\u{00B7}', false, true),
    ('\u{00B8}', false, false),
    ('\u{00BF}', false, false),
    ('\u{00C0}', true, true),
    ('\u{00D6}', true, true),
    ('\u{00D7}', false, false),
    ('\u{00D8}', true, true),
    ('\u{00F6}', true, true),
    ('\u{00F7}', false, false),
    ('\u{00F8}', true, true),
    ('\u{2FF}', true, true),
    ('\u{300}', false, true),
    ('\u{36F}', false, true),
    ('\u{370}', true, true),
    ('\u{37D}', true, true),
    ('\u{37E}', false, false),
    ('\u{37F}', true, true),
    ('\u{1FFF}', true, true),
    ('\u{2000}', false, false),
    ('\u{200B}', false, false),
    ('\u{200C}', true, true),
    ('\u{200D}', true, true),
    ('\u{203E}', false, false),
    ('\u{203F}', false, true),
    ('\u{2040}', false, true),
    ('\u{2041}', false, false),
    ('\u{206F}', false, false),
    ('\u{2070}', true, true),
    ('\u{218F}', true, true),
    ('\u{2190}', false, false),
    ('\u{2BFF}', false, false),
    ('\u{2C00}', true, true),
    ('\u{2FEF}', true, true),
    ('\u{2FF0}', false, false),
    ('\u{3000}', false, false),
    ('\u{3001}', true, true),
    ('\u{D7FF}', true, true),
    ('\u{E000}', false, false),
    ('\u{F8FF}', false, false),
    ('\u{F900}', true, true),
];

const LAST_BORDERS: [(&str, bool); 11] = [
    ("\u{FDCF}", true),
    ("\u{FDD0}", false),
    ("\u{FDEF}", false),
    ("\u{FDF0}", true),
    ("\u{FFFD}", true),
    ("\u{FFFE}", false),
    ("\u{FFFF}", false),
    ("\u{10000}", true),
    ("\u{EFFFF}", true),
    ("\u{F0000}", false),
    ("\u{10FFFF}", false),
];

#[test]
fn names_at_the_last_borders(rt: HostRuntime) {
    for (text, wanted) in LAST_BORDERS {
        assert!(rt; is_name(text.as_bytes()) == wanted, "{text:?}");
    }
}

// Bytes, and whether they are character data.
const CHAR_DATA: [(&[u8], bool); 6] = [
    (b"a]] >b\t\n\r", true),
    (b"]]>", false),
    (b"a<", false),
    (b"&amp;", false),
    (b"a\xEF\xBF\xBF", false),
    (b"\xC0\x80", false),
];

#[test]
fn character_data(rt: HostRuntime) {
    for (bytes, wanted) in CHAR_DATA {
        assert!(rt; is_char_data(bytes) == wanted, "{}", bytes.escape_ascii());
    }
}

// Bytes, and whether they may be a comment.
const COMMENTS: [(&str, bool); 3] = [("a - b", true), ("a--b", false), ("ab-", false)];

#[test]
fn sections_and_comments(rt: HostRuntime) {
    assert!(rt; is_cdata(b"<&]]"));
    assert!(rt; !is_cdata(b"]]>"));
    for (bytes, wanted) in &COMMENTS {
        assert!(rt; is_comment(bytes.as_bytes()) == *wanted, "{bytes}");
    }
}

#[test]
fn plain_values(rt: HostRuntime) {
    assert!(rt; is_plain_value(b"a'b\t", 34));
    assert!(rt; !is_plain_value(b"a'b", 39));
    assert!(rt; !is_plain_value(b"a\"b", 34));
}

#[test]
fn references(rt: HostRuntime) {
    assert!(rt; reference(b"&#x20AC;") == Some('\u{20AC}'));
    assert!(rt; reference(b"&apos;") == Some('\''));
    assert!(rt; reference(b"&amp;x").is_none());
}

// Bytes, and how many of them are UTF-8.
const PREFIXES: [(&[u8], usize); 7] = [
    (b"a\xC0\x80", 1),
    (b"a\xE0\x9F\xBF", 1),
    (b"ab\xED\xA0\x80", 2),
    (b"\xF4\x90\x80\x80", 0),
    (b"\xF0\x8F\xBF\xBF", 0),
    (b"ab\xE2\x82", 2),
    (b"", 0),
];

#[test]
fn utf8_ends_at_the_first_fault(rt: HostRuntime) {
    assert!(rt; utf8_prefix("aé€\u{10000}".as_bytes()) == 10);
    for (bytes, count) in &PREFIXES {
        assert!(rt; utf8_prefix(bytes) == *count, "{}", bytes.escape_ascii());
    }
}

// What is written in turn, and all that is written then.
const WRITTEN_TEXTS: [(&str, &str); 2] = [
    ("a<b", "a&lt;b"),
    ("]]>&\r\n\"'", "a&lt;b]]&gt;&amp;&#13;\n\"'"),
];

// Whether this is all that is written once a text is.
fn is_text_written(out: &mut Vec<u8>, row: &(&str, &str)) -> bool {
    let is_written = write_text(row.0.as_bytes(), out) == Ok(());
    is_written & (out.as_slice() == row.1.as_bytes())
}

#[test]
fn text_that_is_written_is_escaped(rt: HostRuntime) {
    let mut out = Vec::new(rt.alloc());
    for row in &WRITTEN_TEXTS {
        assert!(rt; is_text_written(&mut out, row), "{}", row.0);
    }
}

const WRITTEN_VALUES: [(&str, &str); 2] = [
    ("\"", "&quot;"),
    ("'\t\n\r<>&", "&quot;'&#9;&#10;&#13;&lt;&gt;&amp;"),
];

// Whether this is all that is written once a value is.
fn is_value_written(out: &mut Vec<u8>, row: &(&str, &str)) -> bool {
    let is_written = write_attr(row.0.as_bytes(), out) == Ok(());
    is_written & (out.as_slice() == row.1.as_bytes())
}

#[test]
fn values_that_are_written_are_escaped(rt: HostRuntime) {
    let mut out = Vec::new(rt.alloc());
    for row in &WRITTEN_VALUES {
        assert!(rt; is_value_written(&mut out, row), "{}", row.0);
    }
}

// Whether both runs are appended.
fn are_runs_appended(out: &mut Vec<u8>) -> bool {
    let ends = push_line_ends(b"a\r\n\rb", out) == Ok(());
    let spaces = push_spaces(b"\ta\r\n\rb\n", out) == Ok(());
    ends & spaces
}

#[test]
fn runs_are_appended(rt: HostRuntime) {
    let mut out = Vec::new(rt.alloc());
    assert!(rt; are_runs_appended(&mut out));
    assert!(rt; out.as_slice() == b"a\n\nb a  b ".as_slice());
}
