//! Scripts that numbers generate: packets that are lost, late and repeated, and crashes of the three nodes.
//!
//! Each script begins with a crash inside `forward`, at the device call and with the choice that its number says, so
//! that each of the sixteen comes some thirty times. Then come turns that PCG's words choose. In the end the nodes post
//! what waits, and the packets from there on are delivered, all of them: what was lost before stays lost. No crash is
//! inside a `send`, so what node 1 accepted is known from the script alone, and with it all that the nodes know in the
//! end: node 3's inbox has each message, once and in order. Since nothing leaves that inbox, what it had before then
//! was the beginning of that. A test takes some two seconds in the gate. By `rt try` it takes minutes, so
//! `./wsrm --test` has each test play ten scripts in place of a hundred.
ghost use Rattle.std.specs.Prelude.{◌≤◌};

use crate::relay_tests::stage::play;
use rand_core::utils::NextWord;
use rand_pcg::Lcg64Xsh32;
use rm_base::{Blob, Memory, push_decimal, push_hex};
use rm_script::ScriptError;
use std::alloc::Global;
use std::process::Abort;
use std::test::Fail;

/// How many scripts each test plays.
const SCRIPTS: u64 = 100;

/// How many turns the words of a script choose.
const TURNS: u32 = 60;

/// When the nodes post what waits in the end, in milliseconds: later than all else.
const END: u64 = 100000000;

/// Node 1 asks node 2 for a sequence and node 2 asks node 3, in either order.
const ASKED_FROM_ONE: &[u8] = b"create 1\ndeliver 1\ndeliver 2\ncreate 2\ndeliver 3\ndeliver 4\n";

const ASKED_FROM_TWO: &[u8] = b"create 2\ndeliver 1\ndeliver 2\ncreate 1\ndeliver 3\ndeliver 4\n";

/// How the line of a report begins that answers the `forward` of a script's beginning.
const STOPPED: &[u8] = b"\n10 disk ";

/// What a line has that came out as a failure of the disk.
const FAILED: &[u8] = b" disk ";

/// A script.
#[derive(Drop)]
struct Script {
    lines: Blob,

    /// How many messages it sends.
    sent: u64,

    /// The lines of a report on node 3's items where it has each of them.
    items: Blob,
}

/// What a play of a script came to.
#[derive(Clone, Copy)]
struct Verdict {
    sent: u64,

    /// Whether the disk failed inside the first `forward`.
    stopped: bool,

    /// How many lines failed by a disk.
    failures: usize,

    /// Whether each node had each message in the end.
    arrived: bool,
}

// Appends a line with a number in it.
fn push_line(out: &mut Blob, front: &[u8], number: u64) -> Result<(), Memory> {
    out.push_all(front)?;
    push_decimal(out, number)?;
    out.push_all(b"\n")
}

// Appends a line with two numbers in it.
fn push_pair(out: &mut Blob, front: &[u8], number: u64, other: u64) -> Result<(), Memory> {
    out.push_all(front)?;
    push_decimal(out, number)?;
    push_line(out, b" ", other)
}

// The text of a turn's message.
fn text_of(alloc: Global, turn: u64) -> Result<Blob, Memory> {
    let mut text = Blob::from_slice(alloc, b"<p>")?;
    push_decimal(&mut text, turn)?;
    text.push_all(b"</p>")?;
    Ok(text)
}

// Appends the line that sends a message.
fn push_send(out: &mut Blob, text: &[u8]) -> Result<(), Memory> {
    out.push_all(b"send 1 1 ")?;
    out.push_all(text)?;
    out.push_all(b"\n")
}

// Appends the line of node 3's item with a number.
fn push_item(out: &mut Blob, number: u64, text: &[u8]) -> Result<(), Memory> {
    out.push_all(b"item 3 1 ")?;
    push_decimal(out, number)?;
    out.push_all(b" ")?;
    push_hex(out, text)?;
    out.push_all(b"\n")
}

// Node 1 sends the message of a turn.
fn send(alloc: Global, script: &mut Script, turn: u64) -> Result<(), Memory> {
    let text = text_of(alloc, turn)?;
    script.sent = script.sent.saturating_add(1);
    push_send(&mut script.lines, text.as_slice())?;
    push_item(&mut script.items, script.sent, text.as_slice())
}

// Node 2 crashes inside `forward`, where there is an item to forward.
fn push_crash_in_forward(out: &mut Blob, call: u64, choice: u64) -> Result<(), Memory> {
    push_line(out, b"arm 2 ", call)?;
    out.push_all(b"forward\n")?;
    push_line(out, b"crash 2 ", choice)
}

// Delivers so many packets behind those with a lower number.
fn push_deliveries(out: &mut Blob, before: u64, count: u64) -> Result<(), Memory>
    requires before { before ≤ 1000000 }
    requires count { count ≤ 1000000 }
{
    for k in 0..count {
        push_line(out, b"deliver ", before + k + 1)?;
    }
    Ok(())
}

// Appends a line of each node.
fn push_nodes(out: &mut Blob, front: &[u8], number: u64) -> Result<(), Memory> {
    for node in 1..4 {
        push_pair(out, front, node, number)?;
    }
    Ok(())
}

// The nodes to which packets come crash when they write, and then all do.
fn push_crash_in_deliveries(out: &mut Blob, before: u64, rest: u64) -> Result<(), Memory>
    requires { before ≤ 1000000 }
{
    push_nodes(out, b"arm ", 1 + rest % 4)?;
    push_deliveries(out, before, 4)?;
    push_nodes(out, b"crash ", rest / 4 % 4)
}

// A node crashes while it writes its journal anew.
fn push_crash_in_compact(out: &mut Blob, node: u64, rest: u64) -> Result<(), Memory> {
    push_pair(out, b"arm ", node, 1 + rest % 5)?;
    push_line(out, b"compact ", node)?;
    push_pair(out, b"crash ", node, rest / 5 % 4)
}

// Appends the lines of a turn.
fn push_turn(alloc: Global, script: &mut Script, turn: u64, word: u64) -> Result<(), Memory>
    requires { turn ≤ 60 }
{
    let rest = word / 32;
    let before = rest % (turn / 2 + 8);
    let node = 1 + rest / 128 % 3;
    let rest = rest / 512;
    let out = &mut script.lines;
    match word % 32 {
        0..=4 => send(alloc, script, turn),
        5..=17 => push_deliveries(out, before, 4),
        18..=22 => out.push_all(b"forward\n"),
        23..=24 => push_pair(out, b"tick ", node, 1000 * turn),
        25 => out.push_all(b"trim\n"),
        26 => push_line(out, b"compact ", node),
        27 => push_pair(out, b"crash ", node, rest % 4),
        28 => push_crash_in_forward(out, 1 + rest % 4, rest / 4 % 4),
        29..=30 => push_crash_in_deliveries(out, before, rest),
        _ => push_crash_in_compact(out, node, rest),
    }
}

// Whether the script of a number begins with node 1's sequence.
fn is_asked_from_one(number: u64) -> bool {
    number / 16 % 2 == 0
}

// The beginning of a script, up to the crash inside `forward`.
fn opening(alloc: Global, number: u64) -> Result<Script, Memory> {
    let first = if is_asked_from_one(number) {
        ASKED_FROM_ONE
    } else {
        ASKED_FROM_TWO
    };
    let mut script = Script {
        lines: Blob::from_slice(alloc, first)?,
        sent: 0,
        items: Blob::new(alloc),
    };
    send(alloc, &mut script, 0)?;
    script.lines.push_all(b"deliver 5\n")?;
    push_crash_in_forward(&mut script.lines, 1 + number % 4, number / 4 % 4)?;
    Ok(script)
}

// The script of a number, but for its end.
fn script_of(alloc: Global, number: u64) -> Result<Script, Memory> {
    let mut script = opening(alloc, number)?;
    let mut words = Lcg64Xsh32::new(number, 1);
    for turn in 1..=TURNS {
        let word = words.next_word();
        push_turn(alloc, &mut script, u64::from(turn), u64::from(word))?;
    }
    Ok(script)
}

// Forwards so many times.
fn push_forwards(out: &mut Blob, count: u64) -> Result<(), Memory> {
    for _ in 0..count {
        out.push_all(b"forward\n")?;
    }
    Ok(())
}

// The end of a script that sends so many messages. For each of them node 1 then posts one packet at most, and node 2
// two; to the two deliveries of the first and to those of the others come four acknowledgements: seven packets in all.
fn push_end(out: &mut Blob, before: u64, sent: u64) -> Result<(), Memory>
    requires before { before ≤ 1000000 }
    requires sent { sent ≤ 1000 }
{
    push_line(out, b"tick 1 ", END)?;
    push_deliveries(out, before, 2 * sent)?;
    push_forwards(out, sent)?;
    push_line(out, b"tick 2 ", END)?;
    push_deliveries(out, before, 7 * sent)?;
    out.push_all(b"trim\ncompact 2\n")
}

// The line of a sequence that sent all messages.
fn push_out(out: &mut Blob, place: &[u8], sent: u64) -> Result<(), Memory> {
    out.push_all(b"out ")?;
    out.push_all(place)?;
    out.push_all(b" open accepted ")?;
    push_decimal(out, sent)?;
    push_line(out, b" acked 1-", sent)
}

// The line of a sequence that received all messages.
fn push_in(out: &mut Blob, place: &[u8], sent: u64) -> Result<(), Memory> {
    out.push_all(b"in ")?;
    out.push_all(place)?;
    out.push_all(b" open dfg received 1-")?;
    push_decimal(out, sent)?;
    out.push_all(b" inbox ")?;
    push_decimal(out, sent)?;
    out.push_all(b" discarded 0\n")
}

// The lines of node 2's sequence that received all messages, of which all were consumed and are gone.
fn push_consumed(out: &mut Blob, place: &[u8], sent: u64) -> Result<(), Memory> {
    push_in(out, place, sent)?;
    out.push_all(b"consumed ")?;
    out.push_all(place)?;
    push_line(out, b" ", sent)
}

// The lines of node 2.
fn push_relay(out: &mut Blob, number: u64, sent: u64) -> Result<(), Memory> {
    if is_asked_from_one(number) {
        push_consumed(out, b"2 1", sent)?;
        push_out(out, b"2 2", sent)
    } else {
        push_out(out, b"2 1", sent)?;
        push_consumed(out, b"2 2", sent)
    }
}

// How the report must end.
fn known(alloc: Global, number: u64, script: &Script) -> Result<Blob, Memory> {
    let mut out = Blob::from_slice(alloc, b"\n")?;
    push_out(&mut out, b"1 1", script.sent)?;
    push_relay(&mut out, number, script.sent)?;
    push_in(&mut out, b"3 1", script.sent)?;
    out.push_all(script.items.as_slice())?;
    Ok(out)
}

// The script of a number with its end: the packets that are there before it are counted by a play of its own.
fn whole(alloc: Global, number: u64) -> Result<Script, ScriptError> {
    let mut script = script_of(alloc, number)?;
    let first = play(alloc, script.lines.as_slice())?;
    push_end(
        &mut script.lines,
        first.packets.min(1000000),
        script.sent.min(1000),
    )?;
    Ok(script)
}

// How often the bytes have a part in them.
fn count_of(bytes: &[u8], part: &[u8]) -> usize {
    bytes
        .windows(part.len().max(1))
        .filter(|window| *window == part)
        .count()
}

// Plays the script of a number.
fn judge(alloc: Global, number: u64) -> Result<Verdict, ScriptError> {
    let script = whole(alloc, number)?;
    let played = play(alloc, script.lines.as_slice())?;
    let known = known(alloc, number, &script)?;
    let report = played.report.as_slice();
    Ok(Verdict {
        sent: script.sent,
        stopped: count_of(report, STOPPED) == 1,
        failures: count_of(report, FAILED),
        arrived: report.ends_with(known.as_slice()),
    })
}

// Plays the scripts of the numbers from one on. Each hundred of them sends 986 to 1043 messages, and some 500 of its
// lines fail by a disk, of which 100 are in the scripts' beginnings: fewer would say that the turns come to nothing.
fn play_all(rt: &impl Abort, alloc: Global, first: u64) -> Result<(), Fail>
    requires { first ≤ 1000 }
{
    let mut sent: u64 = 0;
    let mut failures: usize = 0;
    for number in first..first + SCRIPTS {
        let verdict = judge(alloc, number)?;
        assert!(rt; verdict.stopped, "script {number} has no crash in forward");
        assert!(rt;
            verdict.arrived,
            "script {number} lost or repeated a message"
        );
        sent = sent.saturating_add(verdict.sent);
        failures = failures.saturating_add(verdict.failures);
    }
    assert!(rt; sent > 9 * SCRIPTS, "{sent} messages were sent");
    assert!(rt;
        failures as u64 > 3 * SCRIPTS,
        "{failures} lines failed by a disk"
    );
    Ok(())
}

#[test]
fn scripts_from_1_on_come_out_whole(rt: HostRuntime) -> Result<(), Fail> {
    play_all(&rt, rt.alloc(), 1)
}

#[test]
fn scripts_from_101_on_come_out_whole(rt: HostRuntime) -> Result<(), Fail> {
    play_all(&rt, rt.alloc(), 101)
}

#[test]
fn scripts_from_201_on_come_out_whole(rt: HostRuntime) -> Result<(), Fail> {
    play_all(&rt, rt.alloc(), 201)
}

#[test]
fn scripts_from_301_on_come_out_whole(rt: HostRuntime) -> Result<(), Fail> {
    play_all(&rt, rt.alloc(), 301)
}

#[test]
fn scripts_from_401_on_come_out_whole(rt: HostRuntime) -> Result<(), Fail> {
    play_all(&rt, rt.alloc(), 401)
}
