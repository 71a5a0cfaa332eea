//! What neither a clause nor a case says: that ample memory gives each status where its cause holds, for long inputs,
//! and for reads, writes and packets that fail.
ghost use Rattle.std.specs.Prelude.{None};

use rm_base::wire::{MemWire, Packet, Wire};
use rm_base::{Blob, Items, MemSink, MemSource, Memory, Numbers, Sink, SinkError};
use rm_command::run;
use rm_disk::MemDisk;
use rm_disk::journal::{Journal, JournalError};
use rm_replay::Stage;
use std::alloc::Global;
use std::test::Fail;

// What is asked of a run. The read with the number `failing` fails, where there is one; reads count from 0.
#[derive(Clone, Copy, Debug)]
struct Asked<'a> {
    words: &'a [&'a [u8]],
    input: &'a [u8],
    failing: Option<u64>,
}

fn given<'a>(words: &'a [&'a [u8]], input: &'a [u8], failing: Option<u64>) -> Asked<'a> {
    Asked {
        words,
        input,
        failing,
    }
}

const NOTHING: &[&[u8]] = &[];

const REPLAY: &[&[u8]] = &[b"replay"];

const CHECK: &[&[u8]] = &[b"check"];

const POLICY: &[&[u8]] = &[b"policy"];

const NORMAL: &[&[u8]] = &[b"normal"];

const INTERSECT: &[&[u8]] = &[b"intersect"];

const USAGE: &[u8] = b"usage: wsrm check,replay,soak,make,serve,send,push,close,end,inbox,\
        policy,compact,consume,import,normal,intersect,serve11\n";

// The words of a run.
fn words_of(alloc: Global, given: Asked<'_>) -> Result<Items<Blob>, Memory> {
    let mut words = Items::new(alloc);
    for word in given.words {
        words.push(Blob::from_slice(alloc, word)?)?;
    }
    Ok(words)
}

// The input of a run.
fn input_of(alloc: Global, given: Asked<'_>) -> Result<MemSource, Memory> {
    let mut fail_at = Numbers::new(alloc);
    if let Some(number) = given.failing {
        fail_at.push(number.saturating_add(1))?;
    }
    Ok(MemSource::new(Blob::from_slice(alloc, given.input)?, fail_at))
}

// Runs the program, and answers its status and how many packets were sent.
fn play<K: Sink>(alloc: Global, words: &[Blob], input: &mut MemSource, out: &mut K) -> (u8, u64) {
    let mut stage = Stage {
        one: MemDisk::new(alloc),
        two: MemDisk::new(alloc),
        wire: MemWire::new(alloc),
    };
    let status = run(alloc, words, input, out, &mut stage);
    (status, stage.wire.count())
}

// The same, for what is asked.
fn run_on<K: Sink>(alloc: Global, given: Asked<'_>, out: &mut K) -> Result<(u8, u64), Memory> {
    let words = words_of(alloc, given)?;
    let mut input = input_of(alloc, given)?;
    Ok(play(alloc, words.as_slice(), &mut input, out))
}

// The status of a run, and what it wrote.
fn run_whole(alloc: Global, given: Asked<'_>) -> Result<(u8, MemSink), Memory> {
    let mut out = MemSink::new(alloc, Numbers::new(alloc));
    let (status, _packets) = run_on(alloc, given, &mut out)?;
    Ok((status, out))
}

// Whether a run has this status and writes this text.
fn prints(alloc: Global, given: Asked<'_>, status: u8, text: &[u8]) -> Result<bool, Memory> {
    let (ended, out) = run_whole(alloc, given)?;
    Ok((ended == status) & (out.as_slice() == text))
}

// Whether a run has this status and begins with this text.
fn begins(alloc: Global, given: Asked<'_>, status: u8, text: &[u8]) -> Result<bool, Memory> {
    let (ended, out) = run_whole(alloc, given)?;
    Ok((ended == status) & out.as_slice().starts_with(text))
}

// Puts a piece down so many times.
fn push_repeated(bytes: &mut Blob, piece: &[u8], count: u32) -> Result<(), Memory> {
    for _ in 0..count {
        bytes.push_all(piece)?;
    }
    Ok(())
}

const ROW: &[u8] = b"create 1\ndeliver 1\ndeliver 2\n\
        send 1 1 <p>1</p>\nsend 1 1 <p>2</p>\nsend 1 1 <p>3</p>\n\
        deliver 3\ndeliver 4\ndeliver 5\ndeliver 6\ndeliver 7\ndeliver 8\n";

const ROW_REPORT: &[u8] =
    b"1 ok 2 1 1\n2 ok 2 2 2\n3 ok 3 2 2\n4 ok 4 2 3\n5 ok 5 2 4\n6 ok 6 2 5\n7 ok 6 3 6\n8 ok 6 4 7\n9 ok 6 5 8\n\
        10 ok 7 5 8\n11 ok 8 5 8\n12 ok 9 5 8\nout 1 1 open accepted 3 acked 1-3\n\
        in 2 1 open dfg received 1-3 inbox 3 discarded 0\nitem 2 1 1 3c703e313c2f703e\n\
        item 2 1 2 3c703e323c2f703e\nitem 2 1 3 3c703e333c2f703e\n";

// A wire that finds no memory for its third packet.
#[derive(Debug, Drop)]
struct ShortWire {
    wire: MemWire,
    puts: u64,
}

impl Wire for ShortWire {
    ghost packets = { λ w. w.wire };

    fn put(&mut self, to: u8, bytes: &[u8]) -> Result<bool, Memory> {
        self.puts = self.puts.saturating_add(1);
        if self.puts == 3 {
            return Err(Memory);
        }
        self.wire.put(to, bytes)
    }

    fn get(&self, k: u64) -> Option<Packet<'_>> {
        self.wire.get(k)
    }

    fn count(&self) -> u64 {
        self.wire.count()
    }
}

// Runs the program on such a wire, and answers its status, how many bytes it wrote, and what was on its stage.
fn play_short(
    alloc: Global,
    words: &[Blob],
    input: &mut MemSource,
) -> (u8, usize, Stage<MemDisk, ShortWire>) {
    let mut out = MemSink::new(alloc, Numbers::new(alloc));
    let mut stage = Stage {
        one: MemDisk::new(alloc),
        two: MemDisk::new(alloc),
        wire: ShortWire {
            wire: MemWire::new(alloc),
            puts: 0,
        },
    };
    let status = run(alloc, words, input, &mut out, &mut stage);
    (status, out.as_slice().len(), stage)
}

// The same, for what is asked.
fn run_short(
    alloc: Global,
    given: Asked<'_>,
) -> Result<(u8, usize, Stage<MemDisk, ShortWire>), Memory> {
    let words = words_of(alloc, given)?;
    let mut input = input_of(alloc, given)?;
    Ok(play_short(alloc, words.as_slice(), &mut input))
}

// How many entries a disk has.
fn entries(alloc: Global, disk: &mut MemDisk) -> Result<u64, JournalError> {
    Ok(Journal::mount(alloc, disk)?.count())
}

// The record of a message is on the disk, and memory is wanting for its packet.
#[test]
fn memory_is_wanting(rt: HostRuntime) -> Result<(), Fail> {
    let (status, written, mut stage) = run_short(rt.alloc(), given(REPLAY, ROW, None))?;
    assert!(rt; (status, written, stage.wire.count()) == (10, 0, 2));
    assert!(rt; entries(rt.alloc(), &mut stage.one)? == 4);
    Ok(())
}

// A comment of so many lines with 1024 bytes each.
fn comment(alloc: Global, lines: u32) -> Result<Blob, Memory> {
    let mut line = Blob::new(alloc);
    push_repeated(&mut line, b"#", 1023)?;
    line.push_all(b"\n")?;
    let mut script = Blob::new(alloc);
    push_repeated(&mut script, line.as_slice(), lines)?;
    Ok(script)
}

// A script of 16777216 bytes: the read with number 256 finds its end.
#[test]
fn the_longest_script(rt: HostRuntime) -> Result<(), Memory> {
    let script = comment(rt.alloc(), 16384)?;
    assert!(rt;
        prints(
            rt.alloc(),
            given(REPLAY, script.as_slice(), Some(257)),
            0,
            b""
        )?
    );
    Ok(())
}

// One byte more.
fn longer_comment(alloc: Global) -> Result<Blob, Memory> {
    let mut script = comment(alloc, 16384)?;
    script.push_all(b"#")?;
    Ok(script)
}

// And no read behind it.
#[test]
fn a_longer_script(rt: HostRuntime) -> Result<(), Memory> {
    let script = longer_comment(rt.alloc())?;
    let asked = given(REPLAY, script.as_slice(), Some(257));
    assert!(rt; prints(rt.alloc(), asked, 8, b"too long\n")?);
    Ok(())
}

// The read that fails, and what comes then.
const FAILING: [(u64, u8, &[u8]); 4] = [
    (0, 4, b"read fault\n"),
    (1, 4, b"read fault\n"),
    (2, 4, b"read fault\n"),
    (3, 0, b""),
];

#[test]
fn reads_fail(rt: HostRuntime) -> Result<(), Memory> {
    let script = comment(rt.alloc(), 65)?;
    for (failing, status, text) in &FAILING {
        let asked = given(REPLAY, script.as_slice(), Some(*failing));
        assert!(rt; prints(rt.alloc(), asked, *status, text)?, "{failing}");
    }
    Ok(())
}

const ENVELOPE: &[u8] = b"<?xml version=\"1.0\" encoding=\"UTF-8\"?><!-- x --><S:Envelope \
        xmlns:S='http://www.w3.org/2003/05/soap-envelope' \
        xmlns:wsa=\"http://www.w3.org/2005/08/addressing\" \
        xmlns:rm=\"http://docs.oasis-open.org/ws-rx/wsrm/200702\" xmlns:o=\"urn:o\"><S:Header><wsa:Action \
        S:mustUnderstand=\"1\">urn:buy&amp;sell</wsa:Action><rm:Sequence \
        S:mustUnderstand=\"1\"><rm:Identifier>urn:q</rm:Identifier><rm:MessageNumber> 07 \
        </rm:MessageNumber></rm:Sequence></S:Header><S:Body><o:x/></S:Body></S:Envelope>";

const ENVELOPE_TEXT: &[u8] = b"kind payload\nto http://www.w3.org/2005/08/addressing/anonymous\n\
        action urn:buy&sell\nsequence urn:q 7\npayload 3c6f3a782f3e\n\
        scope S http://www.w3.org/2003/05/soap-envelope\nscope o urn:o\n\
        scope rm http://docs.oasis-open.org/ws-rx/wsrm/200702\nscope wsa http://www.w3.org/2005/08/addressing\n";

// A small envelope whose payload is so many spaces.
fn padded(alloc: Global, spaces: u32) -> Result<Blob, Memory> {
    let mut bytes = Blob::from_slice(
        alloc,
        b"<Envelope xmlns=\"http://www.w3.org/2003/05/soap-envelope\"><Header><Action \
            xmlns=\"http://www.w3.org/2005/08/addressing\">urn:a</Action></Header><Body>",
    )?;
    push_repeated(&mut bytes, b" ", spaces)?;
    bytes.push_all(b"</Body></Envelope>")?;
    Ok(bytes)
}

// The count of spaces in the payload, the status, and how what is printed begins.
const PADDED: [(u32, u8, &[u8]); 2] = [
    (
        2096986,
        0,
        b"kind payload\nto http://www.w3.org/2005/08/addressing/anonymous\naction urn:a\npayload 2020",
    ),
    (2096987, 8, b"too long\n"),
];

fn is_padding_checked(alloc: Global, row: &(u32, u8, &[u8])) -> Result<bool, Memory> {
    let input = padded(alloc, row.0)?;
    begins(alloc, given(CHECK, input.as_slice(), None), row.1, row.2)
}

#[test]
fn checks_up_to_a_length(rt: HostRuntime) -> Result<(), Memory> {
    for row in &PADDED {
        assert!(rt; is_padding_checked(rt.alloc(), row)?, "before {:?}", row.2);
    }
    Ok(())
}

const ASSERTION: &[u8] =
    b"<p:RMAssertion xmlns:p=\"http://docs.oasis-open.org/ws-rx/wsrmp/200702\" \
        xmlns:w=\"http://www.w3.org/ns/ws-policy\" w:Optional=\"true\"><w:Policy><p:DeliveryAssurance><w:Policy>\
        <p:ExactlyOnce/><p:InOrder/></w:Policy></p:DeliveryAssurance></w:Policy></p:RMAssertion>";

const ASSERTION_TEXT: &[u8] =
    b"assurance exactly-once\nin-order yes\noptional yes\ngranted yes\ngranted-loose no\n";

const CHOICE: &[u8] = b"<w:Policy xmlns:w='http://www.w3.org/ns/ws-policy' xmlns:x='urn:x'>\
        <x:a/><w:ExactlyOne><x:b/><x:c w:Optional='true'/></w:ExactlyOne></w:Policy>";

const CHOICE_TEXT: &[u8] =
    b"alternatives 3\nalt 1 {urn:x}a\nalt 2 {urn:x}a,{urn:x}b\nalt 3 {urn:x}a,{urn:x}c\n";

const PAIR: &[u8] = b"<pair xmlns:w='http://www.w3.org/ns/ws-policy' xmlns:x='urn:x'>\
        <w:Policy><x:a w:Optional='true'/></w:Policy><w:Policy><x:a/></w:Policy></pair>";

// A sink that takes at most three bytes a call, and after so many calls nothing more.
#[derive(Drop)]
struct Narrow {
    written: Blob,
    calls_left: u64,
    faults: u64,
}

impl Sink for Narrow {
    ghost use Rattle.rm_base.specs.Outside.{untold};

    ghost told = { λ s. untold 0 s.faults };

    fn write(&mut self, bytes: &[u8]) -> Result<usize, SinkError> {
        if self.calls_left == 0 {
            self.faults = self.faults.saturating_add(1);
            return Err(SinkError::Failed);
        }
        self.calls_left -= 1;
        let count = bytes.len().min(3);
        match self.written.push_all(&bytes[..count]) {
            Ok(()) => Ok(count),
            Err(_) => Err(SinkError::Memory),
        }
    }
}

// The words, the input and the read that fails; the status where all is written, and where it isn't; what is written;
// and how many packets were sent.
type Case = (
    &'static [&'static [u8]],
    &'static [u8],
    Option<u64>,
    u8,
    u8,
    &'static [u8],
    u64,
);

const CASES: [Case; 18] = [
    (REPLAY, ROW, None, 0, 5, ROW_REPORT, 8),
    (REPLAY, b"send 1 1\n", None, 3, 3, b"bad line 1\n", 0),
    (
        REPLAY,
        b"\ncreate 1\ndeliver 0",
        None,
        3,
        3,
        b"bad line 3\n",
        0,
    ),
    (REPLAY, ROW, Some(0), 4, 4, b"read fault\n", 0),
    (CHECK, ENVELOPE, None, 0, 5, ENVELOPE_TEXT, 0),
    (CHECK, ENVELOPE, Some(1), 4, 4, b"read fault\n", 0),
    (CHECK, b"<\xff", None, 9, 9, b"fault NotUtf8\n", 0),
    (POLICY, ASSERTION, None, 0, 5, ASSERTION_TEXT, 0),
    (POLICY, ASSERTION, Some(0), 4, 4, b"read fault\n", 0),
    (POLICY, b"", None, 9, 9, b"fault NotProfile\n", 0),
    (NORMAL, CHOICE, None, 0, 5, CHOICE_TEXT, 0),
    (NORMAL, PAIR, None, 9, 9, b"fault Malformed\n", 0),
    (
        INTERSECT,
        PAIR,
        None,
        0,
        5,
        b"alternatives 1\nalt 1 {urn:x}a\n",
        0,
    ),
    (INTERSECT, PAIR, Some(1), 4, 4, b"read fault\n", 0),
    (NOTHING, ROW, None, 2, 2, USAGE, 0),
    (&[b"replay", b"x"], ROW, None, 2, 2, USAGE, 0),
    (&[b"check", b"replay"], ROW, None, 2, 2, USAGE, 0),
    (&[b"check "], ROW, None, 2, 2, USAGE, 0),
];

// A sink for so many calls.
fn sink_for(alloc: Global, calls: u16) -> Narrow {
    Narrow {
        written: Blob::new(alloc),
        calls_left: u64::from(calls),
        faults: 0,
    }
}

// What of a text is written by so many calls.
fn front(text: &[u8], calls: u16) -> &[u8] {
    let count = usize::from(calls) * 3;
    text.split_at(text.len().min(count)).0
}

// Whether a run ends so where so many calls are made.
fn ends_so(case: &Case, calls: u16, ended: (u8, u64)) -> bool {
    let is_whole = front(case.5, calls).len() == case.5.len();
    let status = if is_whole { case.3 } else { case.4 };
    ended == (status, case.6)
}

// Whether a run writes what so many calls do, and ends so.
fn is_cut(alloc: Global, case: &Case, calls: u16) -> Result<bool, Memory> {
    let mut out = sink_for(alloc, calls);
    let ended = run_on(alloc, given(case.0, case.1, case.2), &mut out)?;
    Ok(ends_so(case, calls, ended) & (out.written.as_slice() == front(case.5, calls)))
}

#[test]
fn each_write_fails_in_turn(rt: HostRuntime) -> Result<(), Memory> {
    for case in &CASES {
        for calls in 0..120 {
            assert!(rt;
                is_cut(rt.alloc(), case, calls)?,
                "after {calls} of {:?}",
                case.5
            );
        }
    }
    Ok(())
}
