//! Tests of `rm_message::elements`. What a test does stands in a helper that answers a plain value, since a test with
//! many steps is slow to prove.
use rm_base::{Blob, Lapse, Memory};
use rm_message::elements::{
    ElementError, Header, Lifecycle, deadline, read_duration, read_header, read_lifecycle,
    write_header, write_lifecycle,
};
use soap_document::profile::{Element, EnvelopeError, read_element};
use std::alloc::Global;

const FRAME: &[u8] = b" xmlns:s=\"http://www.w3.org/2003/05/soap-envelope\" \
                     xmlns:a=\"http://www.w3.org/2005/08/addressing\" \
                     xmlns:r=\"http://docs.oasis-open.org/ws-rx/wsrm/200702\" \
                     xmlns:c=\"http://docs.oasis-open.org/ws-rx/wsmc/200702\"";

// The text of an element of which the name is given apart, with these attributes first.
fn text(alloc: Global, name: &[u8], attributes: &[u8], rest: &[u8]) -> Result<Blob, Memory> {
    let mut text = Blob::from_slice(alloc, b"<")?;
    text.push_all(name)?;
    text.push_all(attributes)?;
    text.push_all(rest)?;
    Ok(text)
}

// An element of which the name is given apart, with the prefixes of a frame.
fn tree(alloc: Global, name: &[u8], rest: &[u8]) -> Result<Element, EnvelopeError> {
    let text = text(alloc, name, FRAME, rest)?;
    read_element(alloc, text.as_slice())
}

fn push_header(alloc: Global, header: Header, out: &mut Blob) -> Result<(), Memory> {
    write_header(alloc, &header, out)
}

fn push_lifecycle(alloc: Global, body: Lifecycle, out: &mut Blob) -> Result<(), Memory> {
    write_lifecycle(alloc, &body, out)
}

// Puts an element down, where it is a body of ours.
fn push_body(alloc: Global, tree: &Element, out: &mut Blob) -> Result<(), ElementError> {
    match read_lifecycle(alloc, tree)? {
        Some(body) => Ok(push_lifecycle(alloc, body, out)?),
        None => Ok(()),
    }
}

// Puts an element down, where it is a block or a body of ours.
fn push_tree(alloc: Global, tree: &Element, out: &mut Blob) -> Result<(), ElementError> {
    match read_header(alloc, tree)? {
        Some(header) => Ok(push_header(alloc, header, out)?),
        None => push_body(alloc, tree, out),
    }
}

// How an element is written.
fn written(alloc: Global, tree: &Element) -> Result<Blob, ElementError> {
    let mut out = Blob::new(alloc);
    push_tree(alloc, tree, &mut out)?;
    Ok(out)
}

// A name, and what stands behind it in the text of the element.
type Row = (&'static str, &'static str);

fn is_written_back(alloc: Global, row: &Row) -> Result<bool, EnvelopeError> {
    let (name, rest) = (row.0.as_bytes(), row.1.as_bytes());
    let tree = tree(alloc, name, rest)?;
    let text = text(alloc, name, b"", rest)?;
    match written(alloc, &tree) {
        Ok(out) => Ok(out.as_slice() == text.as_slice()),
        Err(_) => Ok(false),
    }
}

const WRITTEN: [Row; 14] = [
    (
        "r:Sequence",
        " s:mustUnderstand=\"true\"><r:Identifier>urn:i</r:Identifier>\
        <r:MessageNumber>7</r:MessageNumber></r:Sequence>",
    ),
    (
        "r:SequenceAcknowledgement",
        "><r:Identifier>urn:i</r:Identifier>\
        <r:AcknowledgementRange Lower=\"4\" Upper=\"5\"/><r:AcknowledgementRange Lower=\"1\" Upper=\"2\"/>\
        <r:AcknowledgementRange Lower=\"2\" Upper=\"3\"/><r:Final/></r:SequenceAcknowledgement>",
    ),
    (
        "r:SequenceAcknowledgement",
        "><r:Identifier>urn:i</r:Identifier><r:None/></r:SequenceAcknowledgement>",
    ),
    (
        "r:SequenceAcknowledgement",
        "><r:Identifier>urn:i</r:Identifier><r:Nack>3</r:Nack><r:Nack>3</r:Nack>\
        </r:SequenceAcknowledgement>",
    ),
    (
        "r:AckRequested",
        "><r:Identifier>urn:i</r:Identifier></r:AckRequested>",
    ),
    ("c:MessagePending", " pending=\"true\"/>"),
    ("c:MessagePending", " pending=\"false\"/>"),
    (
        "r:CreateSequence",
        "><r:AcksTo><a:Address>http://a/</a:Address></r:AcksTo>\
        <r:Expires>P14MT273906.789S</r:Expires>\
        <r:Offer><r:Identifier>urn:o</r:Identifier><r:Endpoint><a:Address>http://e/</a:Address></r:Endpoint>\
        <r:Expires>PT1S</r:Expires>\
        <r:IncompleteSequenceBehavior>DiscardEntireSequence</r:IncompleteSequenceBehavior>\
        </r:Offer></r:CreateSequence>",
    ),
    (
        "r:CreateSequenceResponse",
        "><r:Identifier>urn:i</r:Identifier><r:Expires>P1M</r:Expires>\
        <r:IncompleteSequenceBehavior>NoDiscard</r:IncompleteSequenceBehavior><r:Accept><r:AcksTo>\
        <a:Address>http://a/</a:Address></r:AcksTo></r:Accept></r:CreateSequenceResponse>",
    ),
    (
        "r:CloseSequence",
        "><r:Identifier>urn:i</r:Identifier>\
        <r:LastMsgNumber>9</r:LastMsgNumber></r:CloseSequence>",
    ),
    (
        "r:CloseSequenceResponse",
        "><r:Identifier>urn:i</r:Identifier></r:CloseSequenceResponse>",
    ),
    (
        "r:TerminateSequence",
        "><r:Identifier>urn:i</r:Identifier></r:TerminateSequence>",
    ),
    (
        "r:TerminateSequenceResponse",
        "><r:Identifier>urn:i</r:Identifier></r:TerminateSequenceResponse>",
    ),
    (
        "c:MakeConnection",
        "><c:Address>urn:a</c:Address><c:Other/></c:MakeConnection>",
    ),
];

#[test]
fn elements_are_read_and_written(rt: HostRuntime) -> Result<(), EnvelopeError> {
    for row in &WRITTEN {
        assert!(rt; is_written_back(rt.alloc(), row)?, "{}{}", row.0, row.1);
    }
    Ok(())
}

fn is_flaw(error: &Option<ElementError>) -> bool {
    matches!(error, Some(ElementError::Malformed { .. }))
}

// Whether an element is malformed, as a block or else as a body.
fn is_malformed_tree(alloc: Global, tree: &Element) -> bool {
    let header_error = read_header(alloc, tree).err();
    let body_error = read_lifecycle(alloc, tree).err();
    is_flaw(&header_error) || is_flaw(&body_error)
}

fn is_malformed(alloc: Global, row: &Row) -> Result<bool, EnvelopeError> {
    let tree = tree(alloc, row.0.as_bytes(), row.1.as_bytes())?;
    Ok(is_malformed_tree(alloc, &tree))
}

const MALFORMED: [Row; 10] = [
    (
        "r:SequenceAcknowledgement",
        "><r:Identifier>i</r:Identifier>\
        <r:AcknowledgementRange Lower='3' Upper='2'/></r:SequenceAcknowledgement>",
    ),
    (
        "r:SequenceAcknowledgement",
        "><r:Identifier>i</r:Identifier><r:Nack>1</r:Nack>\
        <r:Final/></r:SequenceAcknowledgement>",
    ),
    (
        "r:SequenceAcknowledgement",
        "><r:Identifier>i</r:Identifier><r:None/>\
        <r:AcknowledgementRange Lower='1' Upper='2'/></r:SequenceAcknowledgement>",
    ),
    (
        "r:SequenceAcknowledgement",
        "><r:Identifier>i</r:Identifier></r:SequenceAcknowledgement>",
    ),
    (
        "r:AckRequested",
        "><r:Identifier>i</r:Identifier><r:Identifier>i</r:Identifier></r:AckRequested>",
    ),
    (
        "r:Sequence",
        "><r:Identifier>i</r:Identifier><r:MessageNumber>0</r:MessageNumber></r:Sequence>",
    ),
    ("c:MessagePending", " pending='yes'/>"),
    (
        "r:CreateSequence",
        "><r:Expires>PT1S</r:Expires></r:CreateSequence>",
    ),
    (
        "r:CloseSequence",
        "><r:Identifier>i</r:Identifier><r:LastMsgNumber>9223372036854775808</r:LastMsgNumber>\
        </r:CloseSequence>",
    ),
    (
        "c:MakeConnection",
        "><c:Address>a</c:Address><c:Address>a</c:Address></c:MakeConnection>",
    ),
];

#[test]
fn malformed(rt: HostRuntime) -> Result<(), EnvelopeError> {
    for row in &MALFORMED {
        assert!(rt; is_malformed(rt.alloc(), row)?, "{}{}", row.0, row.1);
    }
    Ok(())
}

const IN_ANY_ORDER: &[u8] =
    b">x<r:MessageNumber> +5 </r:MessageNumber><r:Other><r:Identifier/></r:Other>\
    <r:Identifier>i</r:Identifier></r:Sequence>";

// The number of the message in a block, where it is Sequence.
fn number_in(header: &Option<Header>) -> Option<u64> {
    match header {
        Some(Header::Sequence(sequence)) => Some(sequence.number),
        _ => None,
    }
}

// That in an element.
fn number_of(alloc: Global, tree: &Element) -> Option<u64> {
    match read_header(alloc, tree) {
        Ok(header) => number_in(&header),
        Err(_) => None,
    }
}

#[test]
fn children_in_any_order(rt: HostRuntime) -> Result<(), EnvelopeError> {
    let tree = tree(rt.alloc(), b"r:Sequence", IN_ANY_ORDER)?;
    assert!(rt; number_of(rt.alloc(), &tree) == Some(5));
    Ok(())
}

const TOO_GREAT: &[u8] =
    b"><r:Identifier>i</r:Identifier><r:MessageNumber>9223372036854775808</r:MessageNumber></r:Sequence>";

fn rolls_over(alloc: Global, tree: &Element) -> bool {
    let error = read_header(alloc, tree).err();
    matches!(&error, Some(ElementError::Rollover { .. }))
}

#[test]
fn numbers_roll_over(rt: HostRuntime) -> Result<(), EnvelopeError> {
    let tree = tree(rt.alloc(), b"r:Sequence", TOO_GREAT)?;
    assert!(rt; rolls_over(rt.alloc(), &tree));
    Ok(())
}

// A text, and the months and the milliseconds of the duration that it is.
const DURATIONS: [(&str, Option<(u64, u64)>); 20] = [
    ("P1Y2M3DT4H5M6.7899S", Some((14, 273906789))),
    ("PT0.0001S", Some((0, 1))),
    ("P1MT0.0001S", Some((1, 0))),
    ("PT0.000S", Some((0, 0))),
    ("PT5M", Some((0, 300000))),
    ("P5M", Some((5, 0))),
    ("PT1.5S", Some((0, 1500))),
    ("P100000M", Some((100000, 0))),
    ("P100001M", None),
    ("PT1000000000000S", Some((0, 1000000000000000))),
    ("PT1000000000000.001S", None),
    ("P99999999999999999999Y", None),
    ("P", None),
    ("PT", None),
    ("-P1D", None),
    ("P1.5D", None),
    ("P1YT", None),
    ("PT1.S", None),
    ("P1D1M", None),
    ("P1D ", None),
];

// Whether a text is a duration of these months and milliseconds, or none.
fn is_duration(text: &str, parts: Option<(u64, u64)>) -> bool {
    match read_duration(text.as_bytes()) {
        Some(lapse) => parts == Some((lapse.months, lapse.ms)),
        None => parts == None,
    }
}

#[test]
fn durations(rt: HostRuntime) {
    for (text, parts) in &DURATIONS {
        assert!(rt; is_duration(text, *parts), "{text}");
    }
}

// A moment, the months and the milliseconds from then on, and where they end.
type End = (u64, u64, u64, Option<u64>);

const ENDS: [End; 10] = [
    (2592000000, 1, 0, Some(5011200000)),
    (5000, 0, 0, None),
    (5000, 0, 7, Some(5007)),
    // 31 January 2024 and 2023, 29 February 2024
    (1706659200000, 1, 0, Some(1709164800000)),
    (1675123200000, 1, 0, Some(1677542400000)),
    (1709164800000, 12, 0, Some(1740700800000)),
    // the year 9999 and past it
    (0, 100000, 0, None),
    (0, u64::MAX, u64::MAX, None),
    (200000000000000, 0, 1, None),
    (199999999999999, 0, 1, Some(200000000000000)),
];

// Whether the moment is one, and the end is so.
fn ends_so(row: &End) -> Result<bool, Memory> {
    let lapse = Lapse {
        months: row.1,
        ms: row.2,
    };
    let now = row.0.min(200000000000000);
    Ok((row.0 == now) & (deadline(now, lapse)? == row.3))
}

#[test]
fn deadlines(rt: HostRuntime) -> Result<(), Memory> {
    for row in &ENDS {
        assert!(rt; ends_so(row)?, "{row:?}");
    }
    Ok(())
}
