//! Tests of `rm_base`: each call on its happy path, the tables of texts and limits, and calls that fail in mid-stream.
//! What a test does stands in a helper that answers a plain value, since a test with many steps is slow to prove.
ghost use Rattle.std.specs.Prelude.{◌≤◌, IfOk};

use rm_base::{
    Blob, Bytes, Clock, Failed, Ident, Items, MAX_NUMBER, MemClock, MemConn, MemSink, MemSource,
    Memory, Numbers, ReadError, RoomyItems, Sink, SinkError, Source, StdClock, StdSink, StdSource,
    TextError, Uri, is_message_number, numbered, push_decimal, push_hex, read_up_to, write_all,
};
use std::alloc::Global;
use std::io::{Error, ErrorKind, Read, Write};
use std::test::Fail;
use std::time::{Clock as SystemClock, SystemTime, UNIX_EPOCH};

const ABCDE: &[u8] = b"abcde";

fn numbers_of(alloc: Global, all: &[u64]) -> Result<Numbers, Memory> {
    let mut numbers = Numbers::new(alloc);
    push_numbers(&mut numbers, all)?;
    Ok(numbers)
}

fn push_numbers(numbers: &mut Numbers, all: &[u64]) -> Result<(), Memory> {
    for number in all {
        numbers.push(*number)?;
    }
    Ok(())
}

const PIECES: [&str; 3] = ["abc", "", "de"];

// How many bytes the copy of a blob has that these pieces are pushed to.
fn push_pieces(blob: &mut Blob) -> Result<usize, Memory> {
    for piece in &PIECES {
        blob.push_all(piece.as_bytes())?;
    }
    Ok(blob.copy()?.len())
}

// Whether a new blob is empty, and then holds what is pushed, as its copy does.
fn pieces_join(alloc: Global) -> bool {
    let mut blob = Blob::new(alloc);
    let was_empty = blob.is_empty();
    let len = push_pieces(&mut blob);
    was_empty & (len == Ok(5)) & (blob.as_slice() == ABCDE)
}

// Whether a blob keeps these bytes, by way of a vector too.
fn is_kept(alloc: Global, bytes: &[u8]) -> Result<bool, Memory> {
    let blob = Blob::from_slice(alloc, bytes)?;
    let is_so = blob.as_slice() == bytes;
    let moved = Blob::from_vec(blob.into_vec());
    Ok(is_so & (moved.as_slice() == bytes))
}

#[test]
fn a_blob_holds_what_was_pushed(rt: HostRuntime) {
    assert!(rt; pieces_join(rt.alloc()));
    assert!(rt; is_kept(rt.alloc(), ABCDE) == Ok(true));
}

const KEPT: [usize; 6] = [0, 1, 21, 22, 23, 31];

const ALL_BYTES: &[u8] = b"0123456789abcdefghijABCDEFGHIJ-";

// Whether these bytes are kept.
fn are_kept(found: Result<Bytes, Memory>, part: &[u8]) -> bool {
    match found {
        Ok(kept) => kept.as_slice() == part,
        Err(_) => false,
    }
}

// Whether the first bytes of all are kept, and their copy is.
fn front_is_kept(alloc: Global, len: usize) -> Result<bool, Memory> {
    let part = ALL_BYTES.split_at(len.min(ALL_BYTES.len())).0;
    let kept = Bytes::from_slice(alloc, part)?;
    let is_so = (kept.len() == len) & (kept.is_empty() == (len == 0)) & (kept.as_slice() == part);
    Ok(is_so & are_kept(kept.copy(alloc), part))
}

#[test]
fn keeps_few_and_many(rt: HostRuntime) {
    assert!(rt; Bytes::new().is_empty());
    for len in &KEPT {
        assert!(rt; front_is_kept(rt.alloc(), *len) == Ok(true), "{len}");
    }
}

const LETTERS: [char; 3] = ['a', 'b', 'c'];

fn push_letters(items: &mut Items<char>) -> Result<(), Memory> {
    for item in &LETTERS {
        items.push(*item)?;
    }
    Ok(())
}

// Whether a list has three items, of which this is the second.
fn are_three(items: &Items<char>) -> bool {
    (items.get(1) == Some(&'b')) & (items.get(3) == None) & (items.len() == 3)
}

// Whether a new list is empty, and then holds what is pushed.
fn letters_are_held(alloc: Global) -> bool {
    let mut items = Items::new(alloc);
    let was_empty = items.is_empty();
    let pushed = push_letters(&mut items);
    let is_so = was_empty & (pushed == Ok(())) & are_three(&items);
    let again = Items::from_vec(items.into_vec());
    is_so & (again.as_slice() == LETTERS.as_slice())
}

#[test]
fn a_list_holds_what_was_pushed(rt: HostRuntime) {
    assert!(rt; letters_are_held(rt.alloc()));
}

const REFUSALS: [(&[u8], TextError); 6] = [
    (b"", TextError::Empty),
    (b" http://a/", TextError::NotText),
    (b"http://a/\n", TextError::NotText),
    (b"a\x00b", TextError::NotText),
    (b"a\xEF\xBF\xBF", TextError::NotText),
    (b"a\xFF", TextError::NotText),
];

// Whether an address has these bytes, or why it is none.
fn is_uri(alloc: Global, bytes: &[u8]) -> Result<bool, TextError> {
    Ok(Uri::from_slice(alloc, bytes)?.as_slice() == bytes)
}

// Whether an identifier has these bytes, or why it is none.
fn is_ident(alloc: Global, bytes: &[u8]) -> Result<bool, TextError> {
    Ok(Ident::from_slice(alloc, bytes)?.as_slice() == bytes)
}

// Whether the bytes are kept or refused so, as an address and as an identifier.
fn is_either(alloc: Global, bytes: &[u8], answer: Result<bool, TextError>) -> bool {
    (is_uri(alloc, bytes) == answer) & (is_ident(alloc, bytes) == answer)
}

#[test]
fn addresses(rt: HostRuntime) {
    for (bytes, error) in &REFUSALS {
        assert!(rt; is_either(rt.alloc(), bytes, Err(*error)), "{bytes:?}");
    }
    assert!(rt; is_either(rt.alloc(), "urn:\u{20AC} 1".as_bytes(), Ok(true)));
}

fn repeated(alloc: Global, piece: &[u8], count: usize) -> Result<Blob, Memory> {
    let mut bytes = Blob::new(alloc);
    push_repeated(&mut bytes, piece, count)?;
    Ok(bytes)
}

fn push_repeated(bytes: &mut Blob, piece: &[u8], count: usize) -> Result<(), Memory> {
    for _ in 0..count {
        bytes.push_all(piece)?;
    }
    Ok(())
}

// How many bytes an address of so many has.
fn uri_len(alloc: Global, len: usize) -> Result<usize, TextError> {
    let bytes = repeated(alloc, b"a", len)?;
    kept_uri_len(alloc, bytes.as_slice())
}

fn kept_uri_len(alloc: Global, bytes: &[u8]) -> Result<usize, TextError> {
    Ok(Uri::from_slice(alloc, bytes)?.as_slice().len())
}

// How many bytes an identifier of so many has.
fn ident_len(alloc: Global, len: usize) -> Result<usize, TextError> {
    let bytes = repeated(alloc, b"a", len)?;
    kept_ident_len(alloc, bytes.as_slice())
}

fn kept_ident_len(alloc: Global, bytes: &[u8]) -> Result<usize, TextError> {
    Ok(Ident::from_slice(alloc, bytes)?.as_slice().len())
}

#[test]
fn limits(rt: HostRuntime) {
    let too_long = TextError::TooLong { len: 2049 };
    assert!(rt; uri_len(rt.alloc(), 2049) == Err(too_long));
    assert!(rt; uri_len(rt.alloc(), 2048) == Ok(2048));
    let too_long = TextError::TooLong { len: 513 };
    assert!(rt; ident_len(rt.alloc(), 513) == Err(too_long));
    assert!(rt; ident_len(rt.alloc(), 512) == Ok(512));
}

// What each read gives in turn, and what then stands in the place read to.
const READS: [(Result<usize, Failed>, &[u8]); 4] = [
    (Ok(3), b"abc"),
    (Err(Failed), b"abc"),
    (Ok(2), b"dec"),
    (Ok(0), b"dec"),
];

// A source of five bytes, whose second call fails.
fn source_of_five(alloc: Global) -> Result<MemSource, Memory> {
    let fail_at = numbers_of(alloc, &[2])?;
    let bytes = Blob::from_slice(alloc, ABCDE)?;
    Ok(MemSource::new(bytes, fail_at))
}

// Whether it is read so.
fn reads_are_so(source: &mut MemSource) -> bool {
    let mut piece = [0; 3];
    let mut is_so = true;
    for (count, front) in &READS {
        is_so &= source.read(&mut piece) == *count;
        is_so &= piece.as_slice() == *front;
    }
    is_so
}

#[test]
fn reads_fail_at_their_numbers(rt: HostRuntime) -> Result<(), Fail> {
    let mut source = source_of_five(rt.alloc())?;
    assert!(rt; reads_are_so(&mut source));
    Ok(())
}

// What is written in turn, and what each write gives.
const WRITES: [(&[u8], Result<usize, SinkError>); 5] = [
    (b"a", Err(SinkError::Failed)),
    (b"bc", Ok(2)),
    (b"d", Err(SinkError::Failed)),
    (b"", Ok(0)),
    (b"e", Ok(1)),
];

// Whether a sink whose calls of some numbers fail is written so.
fn writes_are_so(sink: &mut MemSink) -> bool {
    let mut is_so = true;
    for (piece, count) in &WRITES {
        is_so &= sink.write(piece) == *count;
    }
    is_so & (sink.as_slice() == b"bce".as_slice())
}

#[test]
fn writes_fail_at_their_numbers(rt: HostRuntime) -> Result<(), Fail> {
    let mut sink = MemSink::new(rt.alloc(), numbers_of(rt.alloc(), &[1, 3])?);
    assert!(rt; writes_are_so(&mut sink));
    Ok(())
}

// A reader and writer that moves two bytes at a time, and whose third call fails.
#[derive(Drop)]
struct Worn {
    calls: u8,
}

impl Worn {
    fn moved(&mut self, len: usize) -> std::io::Result<usize>
        ensures { IfOk result (λ n. n ≤ len) }
    {
        self.calls = self.calls.saturating_add(1);
        if self.calls == 3 {
            Err(Error::from(ErrorKind::BrokenPipe))
        } else {
            Ok(len.min(2))
        }
    }
}

impl Read for Worn {
    fn read(&mut self, buf: &mut [u8]) -> std::io::Result<usize> {
        self.moved(buf.len())
    }
}

impl Write for Worn {
    fn write(&mut self, buf: &[u8]) -> std::io::Result<usize> {
        self.moved(buf.len())
    }

    fn flush(&mut self) -> std::io::Result<()> {
        Ok(())
    }
}

// Whether all bytes of a reader come.
fn a_reader_is_read(alloc: Global) -> Result<bool, ReadError> {
    let mut source = StdSource::new(ABCDE);
    let bytes = read_up_to(alloc, &mut source, 5)?;
    Ok(bytes.as_slice() == ABCDE)
}

// Whether a writer gets all bytes.
fn a_writer_is_written(alloc: Global) -> Result<bool, SinkError> {
    let mut written = Vec::new(alloc);
    write_all(&mut StdSink::new(&mut written), ABCDE)?;
    Ok(written.as_slice() == ABCDE)
}

#[test]
fn hands_on_what_a_reader_and_a_writer_do(rt: HostRuntime) {
    assert!(rt; a_reader_is_read(rt.alloc()) == Ok(true));
    assert!(rt; a_writer_is_written(rt.alloc()) == Ok(true));
}

// What a call on the worn reader and writer moves in turn.
const MOVED: [Option<usize>; 4] = [Some(2), Some(2), None, Some(2)];

fn worn_reads_are_so() -> bool {
    let mut source = StdSource::new(Worn { calls: 0 });
    let mut piece = [0; 5];
    let mut is_so = true;
    for moved in &MOVED {
        is_so &= source.read(&mut piece).ok() == *moved;
    }
    is_so
}

fn worn_writes_are_so() -> bool {
    let mut sink = StdSink::new(Worn { calls: 0 });
    let mut is_so = true;
    for moved in &MOVED {
        is_so &= sink.write(&[0; 5]).ok() == *moved;
    }
    is_so
}

// Whether the first four bytes are all written in two calls, and the next fails.
fn a_whole_is_written_until_it_fails() -> bool {
    let mut whole = StdSink::new(Worn { calls: 0 });
    let first = write_all(&mut whole, b"abcd");
    let second = write_all(&mut whole, b"abc");
    (first == Ok(())) & (second == Err(SinkError::Failed))
}

#[test]
fn answers_a_fault_for_an_error(rt: HostRuntime) {
    assert!(rt; worn_reads_are_so());
    assert!(rt; worn_writes_are_so());
    assert!(rt; a_whole_is_written_until_it_fails());
}

// How many sevens are read up to a limit from a source of so many, of which the calls of these numbers fail.
fn read_sevens(alloc: Global, len: u16, limit: u16, fail_at: &[u64]) -> Result<usize, ReadError> {
    let bytes = repeated(alloc, b"7", usize::from(len))?;
    let mut source = MemSource::new(bytes, numbers_of(alloc, fail_at)?);
    read_len(alloc, &mut source, limit)
}

// How many bytes are read from a source up to a limit.
fn read_len(alloc: Global, source: &mut MemSource, limit: u16) -> Result<usize, ReadError> {
    Ok(read_up_to(alloc, source, usize::from(limit))?.len())
}

// How many bytes there are, the limit, the calls that fail, and the error.
const SEVENS: [(u16, u16, &[u64], Option<ReadError>); 10] = [
    (0, 0, &[], None),
    (1, 0, &[], Some(ReadError::TooLong)),
    (5, 5, &[], None),
    (5, 4, &[], Some(ReadError::TooLong)),
    (5, 5, &[1], Some(ReadError::Failed)),
    (5, 5, &[2], Some(ReadError::Failed)),
    (5, 4, &[2], Some(ReadError::TooLong)),
    (8193, 8193, &[], None),
    (8193, 8192, &[], Some(ReadError::TooLong)),
    (8193, 8193, &[2], Some(ReadError::Failed)),
];

// Whether all sevens are read, or reading them fails with this error.
fn is_read_so(alloc: Global, row: &(u16, u16, &[u64], Option<ReadError>)) -> bool {
    let (len, limit, fail_at, error) = row;
    match read_sevens(alloc, *len, *limit, fail_at) {
        Ok(count) => (count == usize::from(*len)) & error.is_none(),
        Err(e) => *error == Some(e),
    }
}

#[test]
fn reads_up_to_the_limit(rt: HostRuntime) {
    for row in &SEVENS {
        assert!(rt; is_read_so(rt.alloc(), row), "of {} up to {}", row.0, row.1);
    }
}

// What is written whole in turn, and what that answers.
const WHOLES: [(&[u8], Result<(), SinkError>); 4] = [
    (b"abc", Ok(())),
    (b"", Ok(())),
    (b"de", Err(SinkError::Failed)),
    (b"f", Ok(())),
];

// Whether a sink whose second call fails is written so.
fn stops_at_two(sink: &mut MemSink) -> bool {
    let mut is_so = true;
    for (whole, answer) in &WHOLES {
        is_so &= write_all(sink, whole) == *answer;
    }
    is_so & (sink.as_slice() == b"abcf".as_slice())
}

#[test]
fn stops_at_a_write_that_fails(rt: HostRuntime) -> Result<(), Fail> {
    let mut sink = MemSink::new(rt.alloc(), numbers_of(rt.alloc(), &[2])?);
    assert!(rt; stops_at_two(&mut sink));
    Ok(())
}

fn push_two(items: &mut RoomyItems<u64>) -> Result<(), Memory> {
    items.reserve(2)?;
    items.push(7)?;
    items.push(9)
}

// Whether a list has two items, of which this is the second, and both are numbered from one.
fn are_two(items: &RoomyItems<u64>) -> bool {
    let is_so = (items.len() == 2) & (items.get(1) == Some(&9));
    is_so & (items.item(1) == Some(&7)) & (items.item(0) == None)
}

// Whether a new list is empty, and then holds what is pushed.
fn room_is_made(alloc: Global) -> bool {
    let mut items = RoomyItems::new(alloc);
    let was_empty = items.is_empty();
    let pushed = push_two(&mut items);
    let is_so = was_empty & (pushed == Ok(())) & are_two(&items);
    let again = RoomyItems::from_vec(items.into_vec());
    is_so & (again.as_slice() == [7, 9].as_slice())
}

#[test]
fn a_roomy_list_makes_room(rt: HostRuntime) {
    assert!(rt; room_is_made(rt.alloc()));
}

const NUMBERED: [(u64, Option<char>); 5] = [
    (0, None),
    (1, Some('a')),
    (2, Some('b')),
    (3, None),
    (u64::MAX, None),
];

// Whether the first item of a list has the number 1.
fn first_is_one(alloc: Global) -> bool {
    let mut list = Items::new(alloc);
    let pushed = list.push('a');
    (pushed == Ok(())) & (list.item(1) == Some(&'a'))
}

// Whether this is the item of this number, of two.
fn is_numbered(number: u64, item: Option<char>) -> bool {
    numbered(['a', 'b'].as_slice(), number).copied() == item
}

#[test]
fn items_are_numbered_from_one(rt: HostRuntime) {
    for (number, item) in &NUMBERED {
        assert!(rt; is_numbered(*number, *item), "at {number}");
    }
    assert!(rt; first_is_one(rt.alloc()));
}

const MESSAGE_NUMBERS: [(u64, bool); 4] = [
    (0, false),
    (1, true),
    (9223372036854775807, true),
    (9223372036854775808, false),
];

// Whether a number is told to be a message number, or to be none.
fn is_told(number: u64, may_be: bool) -> bool {
    is_message_number(number) == may_be
}

#[test]
fn message_numbers(rt: HostRuntime) {
    for (number, may_be) in &MESSAGE_NUMBERS {
        assert!(rt; is_told(*number, *may_be), "at {number}");
    }
    assert!(rt; MAX_NUMBER == 9223372036854775807);
}

// Two numbers in decimal digits and three bytes in hexadecimal ones.
fn push_digits(out: &mut Blob) -> Result<(), Memory> {
    push_decimal(out, 0)?;
    out.push_all(b" ")?;
    push_decimal(out, 18446744073709551615)?;
    out.push_all(b" ")?;
    push_hex(out, b"\x00<\xff")
}

const DIGITS: &[u8] = b"0 18446744073709551615 003cff";

#[test]
fn digits(rt: HostRuntime) {
    let mut out = Blob::new(rt.alloc());
    assert!(rt; push_digits(&mut out) == Ok(()));
    assert!(rt; out.as_slice() == DIGITS);
}

// The first calls on a connection of five bytes, whose calls 3 and 4 fail. Whether they come out right.
fn calls_are_so(conn: &mut MemConn) -> bool {
    let mut piece = [0; 2];
    let mut is_so = conn.read(&mut piece) == Ok(2);
    is_so &= conn.write(b"xy") == Ok(2);
    is_so &= conn.write(b"z") == Err(SinkError::Failed);
    is_so &= conn.read(&mut piece) == Err(Failed);
    is_so &= conn.read(&mut piece) == Ok(2);
    is_so & (piece.as_slice() == b"cd".as_slice())
}

// Whether the calls after those do.
fn later_calls_are_so(alloc: Global, conn: &mut MemConn) -> Result<bool, ReadError> {
    let mut is_so = conn.write(b"z") == Ok(1);
    is_so &= conn.written() == b"xyz".as_slice();
    let rest = read_up_to(alloc, conn, 9)?;
    Ok(is_so & (rest.as_slice() == b"e".as_slice()))
}

#[test]
fn both_sides_of_a_connection_are_numbered_together(rt: HostRuntime) -> Result<(), Fail> {
    let fail_at = numbers_of(rt.alloc(), &[4, 3, 3])?;
    let mut conn = MemConn::new(rt.alloc(), Blob::from_slice(rt.alloc(), ABCDE)?, fail_at);
    assert!(rt; calls_are_so(&mut conn));
    assert!(rt; later_calls_are_so(rt.alloc(), &mut conn) == Ok(true));
    Ok(())
}

// Whether a clock in memory stands still.
fn stands_still() -> bool {
    let mut still = MemClock::new(1700000000000);
    let first = still.now();
    (first == 1700000000000) & (still.now() == first)
}

// The system's time, in milliseconds since 1970 UTC.
fn system_millis(system: &impl SystemClock) -> u64 {
    let Ok(time) = SystemTime::now(system) else {
        return 0;
    };
    match time.duration_since(UNIX_EPOCH) {
        Ok(since) => since.as_millis().min(u64::MAX as u128) as u64,
        Err(_) => 0,
    }
}

// What a clock tells, where it lies between two readings of the system's time.
fn told_between(clock: &mut impl Clock, system: &impl SystemClock) -> Option<u64> {
    let before = system_millis(system);
    let now = clock.now();
    let after = system_millis(system);
    if 0 < before && before <= now && now <= after {
        return Some(now);
    }
    None
}

// Lets the system's time pass a moment.
fn pass(moment: u64, system: &impl SystemClock) {
    for _ in 0..100000000u32 {
        if moment < system_millis(system) {
            return;
        }
    }
}

// Whether one clock tells the system's time, and tells it again when it has gone on.
fn goes_on(clock: &mut impl Clock, system: &impl SystemClock) -> bool {
    let Some(first) = told_between(clock, system) else {
        return false;
    };
    pass(first, system);
    match told_between(clock, system) {
        Some(second) => first < second,
        None => false,
    }
}

#[test]
fn clocks(rt: HostRuntime) {
    assert!(rt; stands_still());
    assert!(rt; goes_on(&mut StdClock::new(&rt), &rt));
}
