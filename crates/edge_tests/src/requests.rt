//! Requests as peers write them, cut anywhere; and bad ones.
use crate::peer::{Peer, ask, asks, is_answer, repeated};
use http_endpoint::{HttpError, read_request};
use rm_base::{Blob, MemConn, Memory, Numbers};
use std::alloc::Global;

// What a request is answered with: its body, or why there is none.
type Answer = Result<&'static [u8], HttpError>;

// The fields of a head, or what else tells the cases apart, what follows, and the answer.
type Case = (&'static [u8], &'static [u8], Answer);

const LINE: &[u8] = b"POST / HTTP/1.1";

const TYPE: &[u8] = b"Content-Type: application/soap+xml\r\n";

const CHUNKED: &[u8] = b"POST /a?b HTTP/1.1\r\nHost: h\r\nContent-Type: application/soap+xml\r\n\
Transfer-Encoding: chunked\r\n\r\n3\r\nabc\r\n0A;x=\"y\"\r\n0123456789\r\n000\r\nDate: now\r\n\r\n";

const INVITATION: &[u8] = b"HTTP/1.1 100 Continue\r\n\r\n";

const NOTHING: Answer = Ok(b"");

const BAD: Answer = Err(HttpError::BadHead);

const CUT: Answer = Err(HttpError::CutShort);

const LONG: Answer = Err(HttpError::TooLong { taken: 2097153 });

const NO_POST: Answer = Err(HttpError::Unsupported { status: 405 });

const NO_SOAP: Answer = Err(HttpError::Unsupported { status: 415 });

const NO_CODING: Answer = Err(HttpError::Unsupported { status: 501 });

// The first line, the fields, an empty line, and what follows.
fn request(alloc: Global, line: &[u8], fields: &[u8], rest: &[u8]) -> Result<Blob, Memory> {
    let mut text = Blob::new(alloc);
    for piece in [line, b"\r\n", fields, b"\r\n", rest] {
        text.push_all(piece)?;
    }
    Ok(text)
}

// The media type, and the fields after it.
fn typed(alloc: Global, fields: &[u8]) -> Result<Blob, Memory> {
    let mut all = Blob::from_slice(alloc, TYPE)?;
    all.push_all(fields)?;
    Ok(all)
}

// Whether a request of these fields, after the media type, cut in several ways, is answered so.
fn comes_out(alloc: Global, case: &Case) -> Result<bool, Memory> {
    let fields = typed(alloc, case.0)?;
    let text = request(alloc, LINE, fields.as_slice(), case.1)?;
    let mut is_so = true;
    for step in [1, 2, 3, 7, 4096] {
        is_so &= asks(alloc, text.as_slice(), step, false, case.2);
    }
    Ok(is_so)
}

// Whether all cases do.
fn come_out(alloc: Global, cases: &[Case]) -> Result<bool, Memory> {
    let mut are_so = true;
    for case in cases {
        are_so &= comes_out(alloc, case)?;
    }
    Ok(are_so)
}

const COUNTED: [Case; 9] = [
    (b"Content-Length: 5\r\n", b"abcde", Ok(b"abcde")),
    (b"CONTENT-length:5\r\n", b"abcde", Ok(b"abcde")),
    (b"Content-Length: \t 005  \r\n", b"abcdefg", Ok(b"abcde")),
    (
        b"Content-Length: 5\nContent-Length: 5\n",
        b"abcde",
        Ok(b"abcde"),
    ),
    (b"", b"abcde", NOTHING),
    (b"Content-Length: 0\r\n", b"", NOTHING),
    (
        b"Content-Length: 4\r\n",
        b"\xEF\xBB\xBFa",
        Ok(b"\xEF\xBB\xBFa"),
    ),
    (b"Content-Length: 6\r\n", b"abcde", CUT),
    (b"Content-Length: 9223372036854775807\r\n", b"abcde", CUT),
];

#[test]
fn counted_bodies(rt: HostRuntime) {
    assert!(rt; come_out(rt.alloc(), &COUNTED) == Ok(true));
}

const BAD_LENGTHS: [Case; 10] = [
    (b"Content-Length: 9223372036854775808\r\n", b"abcde", BAD),
    (
        b"Content-Length: 99999999999999999999999999\r\n",
        b"abcde",
        BAD,
    ),
    (b"Content-Length: -1\r\n", b"abcde", BAD),
    (b"Content-Length: +5\r\n", b"abcde", BAD),
    (b"Content-Length: \r\n", b"abcde", BAD),
    (b"Content-Length: 5, 5\r\n", b"abcde", BAD),
    (
        b"Content-Length: 5\r\nContent-Length: 6\r\n",
        b"abcdef",
        BAD,
    ),
    (b"Content-Length : 5\r\n", b"abcde", BAD),
    (b"Content-Length: 5\r\n Folded: 1\r\n", b"abcde", BAD),
    (
        b"Content-Length: 3\r\nTransfer-Encoding: chunked\r\n",
        b"0\r\n\r\n",
        BAD,
    ),
];

#[test]
fn bad_lengths(rt: HostRuntime) {
    assert!(rt; come_out(rt.alloc(), &BAD_LENGTHS) == Ok(true));
}

const IN_CHUNKS: &[u8] = b"Transfer-Encoding: Chunked\r\n";

const CHUNKED_BODIES: [Case; 9] = [
    (
        IN_CHUNKS,
        b"A\r\n0123456789\r\n0\r\n\r\n",
        Ok(b"0123456789"),
    ),
    (b"Transfer-Encoding: , chunked\r\n", b"0\r\n\r\n", NOTHING),
    (
        IN_CHUNKS,
        b"3\r\nabc\r\n0\r\nA: b\nC: d\r\n\r\n",
        Ok(b"abc"),
    ),
    (IN_CHUNKS, b"3\r\nabcd\r\n0\r\n\r\n", BAD),
    (IN_CHUNKS, b"3\r\nabc\n0\r\n\r\n", BAD),
    (IN_CHUNKS, b"-3\r\nabc\r\n0\r\n\r\n", BAD),
    (IN_CHUNKS, b"10000000000000000\r\nabc", BAD),
    (IN_CHUNKS, b"FFFFFFFFFFFFFFFF\r\nabc", CUT),
    (IN_CHUNKS, b"0\r\nA b\r\n\r\n", BAD),
];

#[test]
fn chunked_bodies(rt: HostRuntime) {
    assert!(rt; come_out(rt.alloc(), &CHUNKED_BODIES) == Ok(true));
}

const CODINGS: [Case; 6] = [
    (b"Transfer-Encoding: gzip\r\n", b"", NO_CODING),
    (
        b"Transfer-Encoding: gzip, chunked\r\n",
        b"0\r\n\r\n",
        NO_CODING,
    ),
    (
        b"Transfer-Encoding: chunked, chunked\r\n",
        b"0\r\n\r\n",
        NO_CODING,
    ),
    (b"Content-Encoding: gzip\r\n", b"", NO_SOAP),
    (b"Content-Encoding: IDENTITY\r\n", b"", NOTHING),
    (b"Content-Type: text/xml\r\n", b"", NO_SOAP),
];

#[test]
fn codings(rt: HostRuntime) {
    assert!(rt; come_out(rt.alloc(), &CODINGS) == Ok(true));
}

// Whether a request of this first line and these fields, with nothing behind, cut in several ways, is answered so.
fn head_comes_out(alloc: Global, case: &Case) -> Result<bool, Memory> {
    let text = request(alloc, case.0, case.1, b"")?;
    let mut is_so = true;
    for step in [1, 5, 4096] {
        is_so &= asks(alloc, text.as_slice(), step, false, case.2);
    }
    Ok(is_so)
}

fn heads_come_out(alloc: Global, cases: &[Case]) -> Result<bool, Memory> {
    let mut are_so = true;
    for case in cases {
        are_so &= head_comes_out(alloc, case)?;
    }
    Ok(are_so)
}

const METHODS: [Case; 6] = [
    (b"GET / HTTP/1.1", b"Host: h\r\n", NO_POST),
    (b"post / HTTP/1.1", b"Host: h\r\n", NO_POST),
    (b"GET / HTTP/1.1", b"Transfer-Encoding: gzip\r\n", NO_POST),
    (b"GET / HTTP/1.1", b"Content-Length: x\r\n", BAD),
    (b"POST / HTTP/1.1", b"Host: h\r\n", NO_SOAP),
    (
        b"POST / HTTP/1.1",
        b"Transfer-Encoding: gzip\r\nContent-Encoding: gzip\r\n",
        NO_CODING,
    ),
];

#[test]
fn methods_in_order(rt: HostRuntime) {
    assert!(rt; heads_come_out(rt.alloc(), &METHODS) == Ok(true));
}

const MEDIA_TYPES: [Case; 5] = [
    (
        b"POST / HTTP/1.1",
        b"Content-Type: APPLICATION/Soap+XML ;charset=utf-8\r\n",
        NOTHING,
    ),
    (
        b"POST / HTTP/1.1",
        b"Content-Type: application/soap+xml;action=\"urn:a\"\r\n",
        NOTHING,
    ),
    (
        b"POST / HTTP/1.1",
        b"Content-Type: application/soap+xmlx\r\n",
        NO_SOAP,
    ),
    (
        b"POST / HTTP/1.1",
        b"Content-Type: application/soap+xm\r\n",
        NO_SOAP,
    ),
    (
        b"POST / HTTP/1.1",
        b"Content-Type: application/soap+xml x\r\n",
        NO_SOAP,
    ),
];

#[test]
fn media_types(rt: HostRuntime) {
    assert!(rt; heads_come_out(rt.alloc(), &MEDIA_TYPES) == Ok(true));
}

const FIRST_LINES: [Case; 5] = [
    (
        b"\r\n\nPOST / HTTP/1.0",
        b"content-type: application/soap+xml\n",
        NOTHING,
    ),
    (b"POST /\xC3\xA4 HTTP/1.1", TYPE, NOTHING),
    (b"POST /\xFF HTTP/1.1", TYPE, BAD),
    (b"POST / HTTP/2.0", TYPE, BAD),
    (b"POST  / HTTP/1.1", TYPE, BAD),
];

#[test]
fn first_lines(rt: HostRuntime) {
    assert!(rt; heads_come_out(rt.alloc(), &FIRST_LINES) == Ok(true));
}

// Whether each front of a text is answered so.
fn fronts_come_out(alloc: Global, text: &[u8], step: usize, fails: bool, wanted: Answer) -> bool {
    let mut are_so = true;
    for len in 0..text.len() {
        are_so &= asks(alloc, text.split_at(len).0, step, fails, wanted);
    }
    are_so
}

#[test]
fn each_front_is_cut_short(rt: HostRuntime) {
    assert!(rt; fronts_come_out(rt.alloc(), CHUNKED, 1, false, CUT));
    assert!(rt; fronts_come_out(rt.alloc(), CHUNKED, 4096, false, CUT));
    for step in 1..70 {
        let is_so = asks(rt.alloc(), CHUNKED, step, false, Ok(b"abc0123456789"));
        assert!(rt; is_so, "{step}");
    }
}

const WHOLE: [&[u8]; 6] = [
    CHUNKED,
    b"POST / HTTP/1.1\r\nContent-Type: application/soap+xml\r\nContent-Length: 3\r\n\r\nabc",
    b"POST / HTTP/1.1\nContent-Type: application/soap+xml\n\n",
    b"\r\n\r\nPOST / HTTP/1.1\r\nContent-Type: application/soap+xml\r\n\r\n",
    b"POST / HTTP/1.1\r\nContent-Type: application/soap+xml\nTransfer-Encoding: chunked\n\n0\r\n\n",
    b"POST / HTTP/1.1\r\nContent-Type: application/soap+xml\r\nTransfer-Encoding: chunked\r\n\r\n0\r\nA:b\n\r\n",
];

// Whether a text is answered in steps of each length, where the read behind it fails.
fn is_read_in_steps(alloc: Global, text: &[u8]) -> bool {
    let mut is_so = true;
    for step in 1..40 {
        is_so &= ask(alloc, text, step, true).is_ok();
    }
    is_so
}

// What stands whole is answered without a read more: the one behind it fails.
#[test]
fn no_read_behind_the_end(rt: HostRuntime) {
    let failed = Err(HttpError::ReadFault);
    for text in &WHOLE {
        assert!(rt; is_read_in_steps(rt.alloc(), text), "{text:?}");
        assert!(rt;
            fronts_come_out(rt.alloc(), text, 3, true, failed),
            "{text:?}"
        );
    }
}

// Whether a head of the media type and so many fields is answered so.
fn many_fields(alloc: Global, count: usize, wanted: Answer) -> Result<bool, Memory> {
    let fields = typed(alloc, repeated(alloc, b"a:\n", count)?.as_slice())?;
    let text = request(alloc, LINE, fields.as_slice(), b"")?;
    Ok(asks(alloc, text.as_slice(), 100, false, wanted))
}

#[test]
fn limits_of_fields(rt: HostRuntime) {
    assert!(rt; many_fields(rt.alloc(), 63, NOTHING) == Ok(true));
    assert!(rt; many_fields(rt.alloc(), 64, BAD) == Ok(true));
}

// A head of so many bytes.
fn long_head(alloc: Global, len: usize) -> Result<Blob, Memory> {
    // "POST / HTTP/1.1" CR LF, the type, "X: " .. CR LF and CR LF are the other 60 bytes
    let mut fields = typed(alloc, b"X: ")?;
    fields.push_all(repeated(alloc, b"x", len.saturating_sub(60))?.as_slice())?;
    fields.push_all(b"\r\n")?;
    request(alloc, LINE, fields.as_slice(), b"")
}

// Whether it has so many, and is answered so in short steps and in long ones.
fn long_head_comes_out(alloc: Global, len: usize, wanted: Answer) -> Result<bool, Memory> {
    let text = long_head(alloc, len)?;
    let by_one = asks(alloc, text.as_slice(), 1, false, wanted);
    let by_many = asks(alloc, text.as_slice(), 4096, false, wanted);
    Ok((text.len() == len) & by_one & by_many)
}

#[test]
fn limits_of_heads(rt: HostRuntime) {
    assert!(rt; long_head_comes_out(rt.alloc(), 16384, NOTHING) == Ok(true));
    assert!(rt; long_head_comes_out(rt.alloc(), 16385, BAD) == Ok(true));
}

// Whether a text and then so many pieces, a byte at a time, are answered so.
fn pieces_come_out(
    alloc: Global,
    first: &[u8],
    piece: &[u8],
    count: usize,
    wanted: Answer,
) -> Result<bool, Memory> {
    let mut text = Blob::from_slice(alloc, first)?;
    text.push_all(repeated(alloc, piece, count)?.as_slice())?;
    Ok(asks(alloc, text.as_slice(), 1, false, wanted))
}

#[test]
fn heads_without_an_end(rt: HostRuntime) {
    assert!(rt;
        pieces_come_out(rt.alloc(), b"POST / HTTP/1.1\r\n", b"a:\n", 5000, CUT) == Ok(true)
    );
    assert!(rt; pieces_come_out(rt.alloc(), b"", b"\n", 16385, BAD) == Ok(true));
}

fn chunked(alloc: Global, chunks: &[u8]) -> Result<Blob, Memory> {
    request(
        alloc,
        LINE,
        b"Content-Type: application/soap+xml\r\nTransfer-Encoding: chunked\r\n",
        chunks,
    )
}

// Whether chunks that begin so, go on with so many pieces and end so are answered so.
fn chunks_come_out(
    alloc: Global,
    first: &[u8],
    (piece, count): (&[u8], usize),
    last: &[u8],
    wanted: Answer,
) -> Result<bool, Memory> {
    let mut chunks = Blob::from_slice(alloc, first)?;
    chunks.push_all(repeated(alloc, piece, count)?.as_slice())?;
    chunks.push_all(last)?;
    let text = chunked(alloc, chunks.as_slice())?;
    Ok(asks(alloc, text.as_slice(), 1000, false, wanted))
}

#[test]
fn limits_of_chunks(rt: HostRuntime) {
    // "0;" and CR LF CR LF around 16384 bytes less 4
    assert!(rt;
        chunks_come_out(rt.alloc(), b"0;", (b"x", 16380), b"\r\n\r\n", NOTHING) == Ok(true)
    );
    assert!(rt; chunks_come_out(rt.alloc(), b"0;", (b"x", 16381), b"\r\n\r\n", BAD) == Ok(true));
}

#[test]
fn limits_of_trailers(rt: HostRuntime) {
    assert!(rt; chunks_come_out(rt.alloc(), b"0\r\n", (b"a:\n", 64), b"\r\n", NOTHING) == Ok(true));
    assert!(rt; chunks_come_out(rt.alloc(), b"0\r\n", (b"a:\n", 65), b"\r\n", BAD) == Ok(true));
    // "X:" .. CR LF CR LF are the other 6 bytes of 16384
    assert!(rt;
        chunks_come_out(rt.alloc(), b"0\r\nX:", (b"x", 16378), b"\r\n\r\n", NOTHING) == Ok(true)
    );
    assert!(rt;
        chunks_come_out(rt.alloc(), b"0\r\nX:", (b"x", 16379), b"\r\n\r\n", BAD) == Ok(true)
    );
}

// 2097152 bytes.
fn longest_body(alloc: Global) -> Result<Blob, Memory> {
    let line = b"0123456789abcdefghijklmnopqrstuvwxyz0123456789012345678901234567";
    repeated(alloc, line, 32768)
}

// Whether a body that is counted so, with these bytes behind it, is answered so.
fn counted_comes_out(
    alloc: Global,
    fields: &[u8],
    body: &[u8],
    behind: &[u8],
    wanted: Result<&[u8], HttpError>,
) -> Result<bool, Memory> {
    let mut text = request(alloc, LINE, fields, body)?;
    text.push_all(behind)?;
    Ok(asks(alloc, text.as_slice(), 4096, false, wanted))
}

// Whether this body is answered where its length is the greatest.
fn longest_comes_out(alloc: Global, body: &[u8]) -> Result<bool, Memory> {
    counted_comes_out(alloc, FITS, body, b"", Ok(body))
}

// Its length, whether it is answered, and whether it is with one more that is missing and with one that is there.
fn counted_limits(alloc: Global) -> Result<(usize, bool, bool, bool), Memory> {
    let body = longest_body(alloc)?;
    let whole = longest_comes_out(alloc, body.as_slice())?;
    let cut = counted_comes_out(alloc, EXCEEDS, body.as_slice(), b"", CUT)?;
    let long = counted_comes_out(alloc, EXCEEDS, body.as_slice(), b"x", LONG)?;
    Ok((body.len(), whole, cut, long))
}

const FITS: &[u8] = b"Content-Type: application/soap+xml\r\nContent-Length: 2097152\r\n";

const EXCEEDS: &[u8] = b"Content-Type: application/soap+xml\r\nContent-Length: 2097153\r\n";

#[test]
fn limits_of_bodies(rt: HostRuntime) {
    assert!(rt; counted_limits(rt.alloc()) == Ok((2097152, true, true, true)));
}

// Whether a chunk of this body, with these bytes behind it, is answered so.
fn chunk_comes_out(
    alloc: Global,
    body: &[u8],
    behind: &[u8],
    wanted: Result<&[u8], HttpError>,
) -> Result<bool, Memory> {
    let mut text = chunked(alloc, b"200000\r\n")?;
    text.push_all(body)?;
    text.push_all(behind)?;
    Ok(asks(alloc, text.as_slice(), 4096, false, wanted))
}

// Whether the longest body is answered in one chunk, and with one more byte in another.
fn chunked_limits(alloc: Global) -> Result<(bool, bool), Memory> {
    let body = longest_body(alloc)?;
    let whole = Ok(body.as_slice());
    let is_whole = chunk_comes_out(alloc, body.as_slice(), b"\r\n0\r\n\r\n", whole)?;
    let is_long = chunk_comes_out(alloc, body.as_slice(), b"\r\n1\r\nx", LONG)?;
    Ok((is_whole, is_long))
}

#[test]
fn limits_of_chunked_bodies(rt: HostRuntime) {
    assert!(rt; chunked_limits(rt.alloc()) == Ok((true, true)));
}

// How many bytes a body has that comes in so many chunks of one.
fn small_chunks(alloc: Global, count: usize) -> Result<usize, HttpError> {
    let mut text = chunked(alloc, repeated(alloc, b"1\r\nx\r\n", count)?.as_slice())?;
    text.push_all(b"0\r\n\r\n")?;
    Ok(ask(alloc, text.as_slice(), 4096, false)?.len())
}

#[test]
fn chunks_of_one_byte(rt: HostRuntime) {
    assert!(rt; small_chunks(rt.alloc(), 131072) == Ok(131072));
}

// The first line of a request, the fields after the media type, and what is written before its body is read.
const INVITED: [(&[u8], &[u8], &[u8]); 5] = [
    (
        LINE,
        b"Expect: 100-continue\r\nContent-Length: 3\r\n",
        INVITATION,
    ),
    (
        LINE,
        b"expect: x, 100-Continue\r\nContent-Length: 3\r\n",
        INVITATION,
    ),
    (LINE, b"Content-Length: 3\r\n", b""),
    (
        b"GET / HTTP/1.1",
        b"Expect: 100-continue\r\nContent-Length: 3\r\n",
        b"",
    ),
    (
        LINE,
        b"Expect: 100-continue\r\nContent-Encoding: gzip\r\n",
        b"",
    ),
];

// Whether this is written to who sends such a request.
fn is_told(alloc: Global, line: &[u8], fields: &[u8], said: &[u8]) -> Result<bool, Memory> {
    let fields = typed(alloc, fields)?;
    let text = request(alloc, line, fields.as_slice(), b"abc")?;
    let mut peer = Peer::new(alloc, text.as_slice(), 10, false)?;
    let _ = read_request(alloc, &mut peer);
    Ok(peer.written() == said)
}

#[test]
fn who_is_invited(rt: HostRuntime) {
    for (line, fields, said) in &INVITED {
        assert!(rt;
            is_told(rt.alloc(), line, fields, said) == Ok(true),
            "{fields:?}"
        );
    }
}

// Whether a request is answered so, and this is written, on a connection whose call of this number fails.
fn is_answered(
    alloc: Global,
    text: &[u8],
    number: u64,
    wanted: Result<&[u8], HttpError>,
    said: &[u8],
) -> Result<bool, Memory> {
    let mut fail_at = Numbers::new(alloc);
    fail_at.push(number)?;
    let mut conn = MemConn::new(alloc, Blob::from_slice(alloc, text)?, fail_at);
    let got = read_request(alloc, &mut conn);
    Ok(is_answer(&got, wanted) & (conn.written() == said))
}

// The number of the call that fails, the error, and what is written until then.
const FAILING: [(u64, Answer, &[u8]); 6] = [
    (1, Err(HttpError::ReadFault), b""),
    (2, Err(HttpError::WriteFault), b""),
    (3, Err(HttpError::ReadFault), INVITATION),
    (4, Err(HttpError::ReadFault), INVITATION),
    (5, Err(HttpError::ReadFault), INVITATION),
    (6, Err(HttpError::ReadFault), INVITATION),
];

// A request whose body is waited for.
fn waiting(alloc: Global, body: &[u8]) -> Result<Blob, Memory> {
    let fields = typed(alloc, b"Expect: 100-continue\r\nContent-Length: 16384\r\n")?;
    request(alloc, LINE, fields.as_slice(), body)
}

// How many of the rows come out so, up to the first that does not.
fn rows_met(alloc: Global, text: &[u8]) -> Result<usize, Memory> {
    for (i, (number, answer, said)) in FAILING.iter().enumerate() {
        if !is_answered(alloc, text, *number, *answer, said)? {
            return Ok(i);
        }
    }
    Ok(FAILING.len())
}

// That, and whether the body is answered where the seventh call is to fail.
fn failed_in_turn(alloc: Global, body: &[u8]) -> Result<(usize, bool), Memory> {
    let text = waiting(alloc, body)?;
    let count = rows_met(alloc, text.as_slice())?;
    Ok((
        count,
        is_answered(alloc, text.as_slice(), 7, Ok(body), INVITATION)?,
    ))
}

// That, of a body of 16384 bytes.
fn long_failed_in_turn(alloc: Global) -> Result<(usize, bool), Memory> {
    let body = repeated(alloc, b"x", 16384)?;
    failed_in_turn(alloc, body.as_slice())
}

// Each call that fails in turn, of the two reads and the write in between.
#[test]
fn each_call_fails_in_turn(rt: HostRuntime) {
    assert!(rt; long_failed_in_turn(rt.alloc()) == Ok((6, true)));
}
