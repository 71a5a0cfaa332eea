//! Tests of `rm_script::report`.
use rm_base::{Behaviour, Blob, Memory};
use rm_message::FaultKind;
use rm_script::report::{
    Line, Outcome, Place, Reason, push_down, push_in, push_item, push_lines, push_out, push_ranges,
};
use rm_sides::destination::InPhase;
use rm_sides::ranges::Range;
use rm_sides::source::OutPhase;
use std::alloc::Global;

// The number of a line, how it came out, how many entries the two nodes have, and how many packets there are.
type Row = (u64, Outcome, u64, u64, u64);

const NOT_PROFILE: Outcome = Outcome::Fault {
    kind: FaultKind::NotProfile,
};

const CLOSED: Outcome = Outcome::Fault {
    kind: FaultKind::SequenceClosed,
};

const FULL: Outcome = Outcome::Refused {
    reason: Reason::WindowFull,
};

const ROWS: [Row; 9] = [
    (1, NOT_PROFILE, 1, 1, 1),
    (3, Outcome::NoPacket, 1, 1, 1),
    (4, Outcome::NoSequence, 1, 1, 1),
    (8, Outcome::Disk, 5, 3, 5),
    (9, Outcome::Down, 5, 3, 5),
    (10, CLOSED, 7, 4, 9),
    (11, Outcome::Done, 7, 4, 10),
    (12, Outcome::NoNoise, 7, 4, 10),
    (1029, FULL, 1027, 2, 1026),
];

const LINES: &[u8] =
    b"1 fault NotProfile 1 1 1\n3 no-packet 1 1 1\n4 no-sequence 1 1 1\n8 disk 5 3 5\n\
9 down 5 3 5\n10 fault SequenceClosed 7 4 9\n11 ok 7 4 10\n12 no-noise 7 4 10\n\
1029 refused WindowFull 1027 2 1026\n";

fn line_of(row: &Row) -> Line {
    Line {
        number: row.0,
        outcome: row.1,
        entries_one: row.2,
        entries_two: row.3,
        packets: row.4,
    }
}

// The lines of all rows, as texts.
fn lines_text(alloc: Global) -> Result<Blob, Memory> {
    let mut out = Blob::new(alloc);
    for row in &ROWS {
        push_lines(&mut out, &[line_of(row)])?;
    }
    Ok(out)
}

// Whether a text that was made is this one.
fn is_text(text: &Result<Blob, Memory>, known: &[u8]) -> bool {
    match text {
        Ok(text) => text.as_slice() == known,
        Err(_) => false,
    }
}

#[test]
fn lines(rt: HostRuntime) {
    assert!(rt; is_text(&lines_text(rt.alloc()), LINES));
    assert!(rt; FaultKind::StoreFull.name() == b"StoreFull".as_slice());
}

const HERE: Place = Place { node: 1, seq: 1 };

const THERE: Place = Place { node: 2, seq: 1 };

const ALL: [Range; 1] = [Range { lower: 1, upper: 3 }];

const GAP: [Range; 2] = [Range { lower: 1, upper: 1 }, Range { lower: 3, upper: 3 }];

// Two sequences that are open, and an item of the inbox.
fn push_opened(out: &mut Blob) -> Result<(), Memory> {
    let behaviour = Behaviour::FollowingFirstGap;
    push_out(out, HERE, OutPhase::Open, 3, &ALL)?;
    push_in(out, THERE, InPhase::Open, behaviour, &ALL, 3, 0)?;
    push_item(out, THERE, 1, b"<p>1</p>")
}

// One that is closing and one that is closed.
fn push_shut(out: &mut Blob) -> Result<(), Memory> {
    let behaviour = Behaviour::EntireSequence;
    push_out(out, HERE, OutPhase::Closing, 3, &[])?;
    push_in(out, THERE, InPhase::Closed, behaviour, &GAP, 0, 2)
}

// All of that, a node that is down, and ranges by themselves.
fn push_known(out: &mut Blob) -> Result<(), Memory> {
    push_opened(out)?;
    push_shut(out)?;
    push_down(out, 2)?;
    push_ranges(out, &GAP)
}

fn known_text(alloc: Global) -> Result<Blob, Memory> {
    let mut out = Blob::new(alloc);
    push_known(&mut out)?;
    Ok(out)
}

const KNOWN: &[u8] =
    b"out 1 1 open accepted 3 acked 1-3\nin 2 1 open dfg received 1-3 inbox 3 discarded 0\n\
item 2 1 1 3c703e313c2f703e\nout 1 1 closing accepted 3 acked -\n\
in 2 1 closed des received 1-1,3-3 inbox 0 discarded 2\ndown 2\n1-1,3-3";

#[test]
fn what_is_known(rt: HostRuntime) {
    assert!(rt; is_text(&known_text(rt.alloc()), KNOWN));
}
