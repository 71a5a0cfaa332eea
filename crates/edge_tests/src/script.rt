//! Tests of `rm_script`.
use rm_base::{Behaviour, Blob, Lapse, Memory, push_decimal, push_hex};
use rm_script::{Event, ScriptError, Side, read_script};
use std::alloc::Global;

// Appends a verb and the number of a node.
fn push_verb(out: &mut Blob, verb: &[u8], node: Side) -> Result<(), Memory> {
    out.push_all(verb)?;
    match node {
        Side::One => out.push_all(b" 1"),
        Side::Two => out.push_all(b" 2"),
    }
}

// Appends a space and a word.
fn push_word(out: &mut Blob, word: &[u8]) -> Result<(), Memory> {
    out.push_all(b" ")?;
    out.push_all(word)
}

// Appends a space and a number.
fn push_number(out: &mut Blob, number: u64) -> Result<(), Memory> {
    out.push_all(b" ")?;
    push_decimal(out, number)
}

// Appends a verb, the number of a node, and another number.
fn push_numbered(out: &mut Blob, verb: &[u8], node: Side, number: u64) -> Result<(), Memory> {
    push_verb(out, verb, node)?;
    push_number(out, number)
}

// The same, for the number of a sequence.
fn push_named(out: &mut Blob, verb: &[u8], node: Side, seq: u32) -> Result<(), Memory> {
    push_numbered(out, verb, node, u64::from(seq))
}

fn behaviour_name(behaviour: Behaviour) -> &'static [u8] {
    match behaviour {
        Behaviour::NoDiscard => b"loose",
        Behaviour::EntireSequence => b"des",
        Behaviour::FollowingFirstGap => b"dfg",
    }
}

// Appends what stands behind the lapse of a request.
fn push_wishes(out: &mut Blob, polled: bool, offer: Option<Behaviour>) -> Result<(), Memory> {
    if polled {
        out.push_all(b" polled")?;
    }
    match offer {
        Some(behaviour) => push_word(out, behaviour_name(behaviour)),
        None => Ok(()),
    }
}

// Appends a lapse as its months and milliseconds.
fn push_request(out: &mut Blob, node: Side, expires: Lapse) -> Result<(), Memory> {
    push_numbered(out, b"create", node, expires.months)?;
    push_number(out, expires.ms)
}

fn push_grant(out: &mut Blob, node: Side, behaviour: Behaviour) -> Result<(), Memory> {
    push_verb(out, b"grant", node)?;
    push_word(out, behaviour_name(behaviour))
}

fn push_send(out: &mut Blob, node: Side, seq: u32, text: &[u8]) -> Result<(), Memory> {
    push_named(out, b"send", node, seq)?;
    push_word(out, text)
}

fn push_consume(out: &mut Blob, node: Side, seq: u32, upto: u64) -> Result<(), Memory> {
    push_named(out, b"consume", node, seq)?;
    push_number(out, upto)
}

fn push_noise(out: &mut Blob, node: Side, bytes: &[u8]) -> Result<(), Memory> {
    push_verb(out, b"noise", node)?;
    out.push_all(b" ")?;
    push_hex(out, bytes)
}

// Appends what a node is to do with its sequences and its payloads.
fn push_act(out: &mut Blob, event: &Event) -> Result<(), Memory> {
    match event {
        Event::Create {
            node,
            expires,
            polled,
            offer,
        } => {
            push_request(out, *node, *expires)?;
            push_wishes(out, *polled, *offer)
        }
        Event::Grant { node, behaviour } => push_grant(out, *node, *behaviour),
        Event::Send { node, seq, text } => push_send(out, *node, *seq, text.as_slice()),
        Event::Close { node, seq } => push_named(out, b"close", *node, *seq),
        Event::End { node, seq } => push_named(out, b"end", *node, *seq),
        Event::Ask { node, seq } => push_named(out, b"ask", *node, *seq),
        Event::Nack { node, seq } => push_named(out, b"nack", *node, *seq),
        Event::Consume { node, seq, upto } => push_consume(out, *node, *seq, *upto),
        _ => push_other(out, event),
    }
}

// Appends anything else that a script has happen.
fn push_other(out: &mut Blob, event: &Event) -> Result<(), Memory> {
    match event {
        Event::Tick { node, now } => push_numbered(out, b"tick", *node, *now),
        Event::Deliver { packet } => {
            out.push_all(b"deliver")?;
            push_number(out, *packet)
        }
        Event::Poll { node } => push_verb(out, b"poll", *node),
        Event::Compact { node } => push_verb(out, b"compact", *node),
        Event::Arm { node, calls } => push_numbered(out, b"arm", *node, *calls),
        Event::Crash { node, choice } => { push_numbered(out, b"crash", *node, u64::from(*choice)) }
        Event::Noise { node, bytes } => push_noise(out, *node, bytes.as_slice()),
        _ => Ok(()),
    }
}

// The events, each as a line.
fn lines_of(alloc: Global, events: &[Event]) -> Result<Blob, Memory> {
    let mut out = Blob::new(alloc);
    for event in events {
        push_act(&mut out, event)?;
        out.push_all(b"\n")?;
    }
    Ok(out)
}

// Whether the events of a script are these lines.
fn is_read(alloc: Global, script: &[u8], want: &[u8]) -> Result<bool, ScriptError> {
    let events = read_script(alloc, script)?;
    match lines_of(alloc, &events) {
        Ok(lines) => Ok(lines.as_slice() == want),
        Err(_) => Err(ScriptError::Memory),
    }
}

const SCRIPT: &[u8] =
    b"create 1\ndeliver 1\ndeliver 2\nsend 1 1 <p>1</p>\nsend 1 1 <p>2</p>\ndeliver 3\ndeliver 8";

const EVENTS: &[u8] =
    b"create 1 0 0\ndeliver 1\ndeliver 2\nsend 1 1 <p>1</p>\nsend 1 1 <p>2</p>\ndeliver 3\n\
deliver 8\n";

#[test]
fn three_payloads(rt: HostRuntime) {
    assert!(rt; is_read(rt.alloc(), SCRIPT, EVENTS) == Ok(true));
}

const CASES: [(&[u8], &[u8]); 24] = [
    (b"", b""),
    (b"# a comment\n\n\n", b"\n\n\n"),
    (b"create 1 expires P1M", b"create 1 1 0\n"),
    (b"create 2 expires PT0S\n", b"create 2 0 0\n"),
    (b"create 1 offer dfg", b"create 1 0 0 dfg\n"),
    (
        b"create 2 expires P1Y2DT0.5S offer des",
        b"create 2 12 172800500 des\n",
    ),
    (b"create 2 polled", b"create 2 0 0 polled\n"),
    (
        b"create 1 expires PT2S polled offer dfg",
        b"create 1 0 2000 polled dfg\n",
    ),
    (b"poll 1\npoll 2", b"poll 1\npoll 2\n"),
    (b"compact 2\ncompact 1", b"compact 2\ncompact 1\n"),
    (b"consume 2 1 3", b"consume 2 1 3\n"),
    (b"grant 2 des\ngrant 1 dfg", b"grant 2 des\ngrant 1 dfg\n"),
    (b"send 2 256  x y ", b"send 2 256  x y \n"),
    (
        b"#\xff\r\nsend 1 1 \xff\x00\r\n",
        b"\nsend 1 1 \xff\x00\r\n",
    ),
    (b"tick 2 2592000000", b"tick 2 2592000000\n"),
    (b"tick 1 0", b"tick 1 0\n"),
    (b"tick 1 200000000000000", b"tick 1 200000000000000\n"),
    (b"deliver 65536", b"deliver 65536\n"),
    (b"close 1 1\nend 2 256", b"close 1 1\nend 2 256\n"),
    (b"ask 1 1\nnack 2 256", b"ask 1 1\nnack 2 256\n"),
    (b"arm 2 1\narm 2 1000", b"arm 2 1\narm 2 1000\n"),
    (b"crash 2 0\ncrash 1 3", b"crash 2 0\ncrash 1 3\n"),
    (b"noise 2 3c613e", b"noise 2 3c613e\n"),
    (b"noise 1 aAFf00", b"noise 1 aaff00\n"),
];

#[test]
fn all_lines(rt: HostRuntime) {
    for (script, want) in &CASES {
        assert!(rt; is_read(rt.alloc(), script, want) == Ok(true));
    }
}
