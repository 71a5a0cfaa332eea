//! Envelopes, read in pieces.
use crate::envelope::{REQUEST, REQUEST_SHOWN, shown_envelope};
use rm_base::Memory;
use soap_document::profile::EnvelopeError;
use soap_envelope::Envelope;
use soap_pieces::EnvelopeReader;
use std::alloc::Global;

const SHORT: &[u8] =
    b"<Envelope xmlns='http://www.w3.org/2003/05/soap-envelope'><Body>\xc3\xa9&#13;</Body></Envelope>";

const SHORT_SHOWN: &[u8] = b"0 0 1 =http://www.w3.org/2003/05/soap-envelope \xc3\xa9&#13;";

// The same with what may follow a root.
const FOLLOWED: &[u8] =
    b"<Envelope xmlns='http://www.w3.org/2003/05/soap-envelope'><Body>\xc3\xa9&#13;</Body>\
    </Envelope> <!-- \xc3\xa9 > --><!---->\n";

// A reader that was fed a text in three pieces.
fn fed_cut(
    alloc: Global,
    text: &[u8],
    first: usize,
    second: usize,
) -> Result<EnvelopeReader, Memory> {
    let (begun, last) = text.split_at(second.min(text.len()));
    let (one, two) = begun.split_at(first.min(begun.len()));
    let mut reader = EnvelopeReader::new(alloc);
    let is_first = reader.feed(one).is_ok();
    let is_second = reader.feed(two).is_ok();
    let is_third = reader.feed(last).is_ok();
    if is_first & is_second & is_third {
        Ok(reader)
    } else {
        Err(Memory)
    }
}

// The envelope that a text is, which comes in three pieces.
fn read_cut(
    alloc: Global,
    text: &[u8],
    first: usize,
    second: usize,
) -> Result<Envelope, EnvelopeError> {
    fed_cut(alloc, text, first, second)?.finish()
}

// Whether a text in these pieces is an envelope that is shown so.
fn is_shown(alloc: Global, text: &[u8], first: usize, second: usize, wanted: &[u8]) -> bool {
    match read_cut(alloc, text, first, second) {
        Ok(envelope) => shows(alloc, &envelope, wanted),
        Err(_) => false,
    }
}

fn shows(alloc: Global, envelope: &Envelope, wanted: &[u8]) -> bool {
    match shown_envelope(alloc, envelope) {
        Ok(found) => found.as_slice() == wanted,
        Err(Memory) => false,
    }
}

#[test]
fn a_request_is_read_from_each_two_pieces(rt: HostRuntime) {
    let text = REQUEST.as_bytes();
    for cut in 0..=text.len() {
        assert!(rt;
            is_shown(rt.alloc(), text, 0, cut, REQUEST_SHOWN.as_bytes()),
            "{cut}"
        );
    }
}

// Whether a text is shown so, wherever else it is cut.
fn is_shown_cut(alloc: Global, second: usize) -> bool {
    let mut are_so = true;
    for first in 0..=second {
        are_so &= is_shown(alloc, SHORT, first, second, SHORT_SHOWN);
    }
    are_so
}

#[test]
fn a_short_envelope_is_read_from_each_three_pieces(rt: HostRuntime) {
    for second in 0..SHORT.len() {
        assert!(rt; is_shown_cut(rt.alloc(), second), "{second}");
    }
}

#[test]
fn what_follows_an_envelope_is_passed_over_in_pieces(rt: HostRuntime) {
    for cut in 0..=FOLLOWED.len() {
        assert!(rt;
            is_shown(rt.alloc(), FOLLOWED, 0, cut, SHORT_SHOWN),
            "{cut}"
        );
        assert!(rt;
            is_shown(
                rt.alloc(),
                FOLLOWED,
                cut.saturating_sub(1),
                cut,
                SHORT_SHOWN
            ),
            "{cut}"
        );
    }
}

// Whether a text is refused for this wherever it is cut.
fn is_refused_cut(alloc: Global, text: &[u8], wanted: EnvelopeError) -> bool {
    let mut are_refused = true;
    for cut in 0..=text.len() {
        are_refused &= match read_cut(alloc, text, cut.saturating_sub(1), cut) {
            Ok(_) => false,
            Err(error) => error == wanted,
        };
    }
    are_refused
}

const REFUSALS: [(&[u8], EnvelopeError); 16] = [
    (b"", EnvelopeError::NotProfile),
    (b"<a", EnvelopeError::NotProfile),
    (b"<a>\xc3", EnvelopeError::NotUtf8 { valid_up_to: 3 }),
    (b"<a></b>", EnvelopeError::NotProfile),
    (b"<a></b>\xc3\xa9", EnvelopeError::NotProfile),
    (
        b"<a></b>\xc3\xa9\xc3",
        EnvelopeError::NotUtf8 { valid_up_to: 9 },
    ),
    (b"<a></a>", EnvelopeError::NotEnvelope),
    (b"<a/> <!-- > -->\n", EnvelopeError::NotEnvelope),
    (b"<a></a><b/>", EnvelopeError::NotProfile),
    (b"<a></a><!-- -- -->", EnvelopeError::NotProfile),
    (b"<a></a><!-- -", EnvelopeError::NotProfile),
    (
        b"<a></a>\xc3\xa9\xff",
        EnvelopeError::NotUtf8 { valid_up_to: 9 },
    ),
    (b"<Envelope/>", EnvelopeError::WrongVersion),
    (b"<Envelope></Envelope><!---->", EnvelopeError::WrongVersion),
    (b"<a:b/><!---->", EnvelopeError::NotProfile),
    (
        b"<Envelope xmlns='http://www.w3.org/2003/05/soap-envelope'><Body/></Envelope><b/>",
        EnvelopeError::NotProfile,
    ),
];

#[test]
fn tells_errors_of_pieces(rt: HostRuntime) {
    for (text, wanted) in &REFUSALS {
        assert!(rt;
            is_refused_cut(rt.alloc(), text, *wanted),
            "{}",
            text.escape_ascii()
        );
    }
}

// Whether a reader that was fed this is dead wherever it is cut, or alive.
fn is_dead_cut(alloc: Global, text: &[u8], wanted: bool) -> Result<bool, Memory> {
    let mut are_so = true;
    for cut in 0..=text.len() {
        are_so &= fed_cut(alloc, text, cut.saturating_sub(1), cut)?.is_dead() == wanted;
    }
    Ok(are_so)
}

const BEGINNINGS: [(&[u8], bool); 21] = [
    (b"", false),
    (b"<!DOCTYPE", true),
    (b"<!", false),
    (b"<a></b>", true),
    (b"<a>", false),
    (b"<a></a", false),
    (b"<a></a>", true),
    (b"<a/>", true),
    (b"<a><b/><c></c>", false),
    (b"<a></a><", true),
    (b"<a></a> <!-- >", true),
    (b"<a></a><b>", true),
    (b"<a:b></a:b>", true),
    (b"<a>&x;", true),
    (b"<a><!-", false),
    (b"<a><!x", true),
    (b"x<", true),
    (SHORT, false),
    (FOLLOWED, false),
    (
        b"<Envelope xmlns='http://www.w3.org/2003/05/soap-envelope'><Body/></Envelope> <!-- > -",
        false,
    ),
    (
        b"<Envelope xmlns='http://www.w3.org/2003/05/soap-envelope'><Body/></Envelope> <!-- -->x<",
        true,
    ),
];

#[test]
fn is_dead_where_no_envelope_begins_so(rt: HostRuntime) -> Result<(), Memory> {
    for (text, wanted) in &BEGINNINGS {
        assert!(rt;
            is_dead_cut(rt.alloc(), text, *wanted)?,
            "{}",
            text.escape_ascii()
        );
    }
    Ok(())
}

const MEBIBYTE: usize = 1048576;

// A reader that is fed the most white space that an envelope may have, and then more of it.
fn fed_spaces(alloc: Global, more: usize) -> Result<EnvelopeReader, Memory> {
    let spaces = vec![in alloc; b' '; MEBIBYTE]?;
    let piece = spaces.as_slice();
    let rest = piece.split_at(more.min(piece.len())).0;
    let mut reader = EnvelopeReader::new(alloc);
    let is_first = reader.feed(piece).is_ok();
    let is_second = reader.feed(piece).is_ok();
    let is_third = reader.feed(rest).is_ok();
    if is_first & is_second & is_third {
        Ok(reader)
    } else {
        Err(Memory)
    }
}

// What is said of it at the end.
fn spaces_answer(alloc: Global, more: usize) -> Option<EnvelopeError> {
    match fed_spaces(alloc, more) {
        Ok(reader) => reader.finish().err(),
        Err(Memory) => None,
    }
}

#[test]
fn more_than_the_limit_is_dead(rt: HostRuntime) -> Result<(), Memory> {
    assert!(rt; !fed_spaces(rt.alloc(), 0)?.is_dead());
    assert!(rt; fed_spaces(rt.alloc(), 1)?.is_dead());
    Ok(())
}

#[test]
fn more_than_the_limit_is_counted(rt: HostRuntime) {
    assert!(rt; spaces_answer(rt.alloc(), 0) == Some(EnvelopeError::NotProfile));
    assert!(rt; spaces_answer(rt.alloc(), 1) == Some(EnvelopeError::TooLong { len: 2097153 }));
    assert!(rt;
        spaces_answer(rt.alloc(), MEBIBYTE) == Some(EnvelopeError::TooLong { len: 3145728 })
    );
}
