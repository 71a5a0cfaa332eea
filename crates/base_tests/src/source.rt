//! Tests of `rm_sides::source`. What a test does stands in a helper that answers a plain value, since a test with many
//! steps is slow to prove.
use rm_base::{Blob, MAX_NUMBER, Memory};
use rm_sides::ranges::{Range, RangeSet};
use rm_sides::source::{OutPhase, Outgoing, SourceError};
use std::alloc::Global;
use std::test::Fail;

fn numbers(alloc: Global, ranges: &[(u64, u64)]) -> Result<RangeSet, Memory> {
    let mut set = RangeSet::new(alloc);
    insert_all(&mut set, ranges)?;
    Ok(set)
}

fn insert_all(set: &mut RangeSet, ranges: &[(u64, u64)]) -> Result<(), Memory> {
    for (lower, upper) in ranges {
        if 0 < *lower && *lower <= *upper && *upper <= MAX_NUMBER {
            set.insert_range(*lower, *upper)?;
        }
    }
    Ok(())
}

// What accepting these bytes answers.
fn accept(alloc: Global, out: &mut Outgoing, bytes: &[u8]) -> Result<u64, SourceError> {
    out.accept(Blob::from_slice(alloc, bytes)?)
}

fn fresh(alloc: Global, phase: OutPhase) -> Outgoing {
    Outgoing::new(alloc, phase)
}

// An open sequence that accepted so many payloads of no bytes.
fn open(alloc: Global, count: u64) -> Result<Outgoing, SourceError> {
    let mut out = fresh(alloc, OutPhase::Open);
    accept_all(alloc, &mut out, count)?;
    Ok(out)
}

fn accept_all(alloc: Global, out: &mut Outgoing, count: u64) -> Result<(), SourceError> {
    for _ in 0..count {
        accept(alloc, out, b"")?;
    }
    Ok(())
}

// What learning that these numbers are acknowledged answers.
fn learn(alloc: Global, out: &mut Outgoing, ranges: &[(u64, u64)]) -> Result<bool, SourceError> {
    out.learn(&numbers(alloc, ranges)?)
}

// Whether it learns that these numbers are acknowledged, one of which is new or none.
fn learns(alloc: Global, out: &mut Outgoing, ranges: &[(u64, u64)], is_new: bool) -> bool {
    learn(alloc, out, ranges) == Ok(is_new)
}

// Whether it gives these bytes this number.
fn gives(alloc: Global, out: &mut Outgoing, bytes: &[u8], number: u64) -> bool {
    accept(alloc, out, bytes) == Ok(number)
}

// Whether it numbers two payloads from 1 on.
fn numbers_two(alloc: Global, out: &mut Outgoing) -> bool {
    let first = gives(alloc, out, b"one", 1);
    first & gives(alloc, out, b"two", 2) & (out.accepted_len() == 2)
}

// Whether its payload of this number has these bytes.
fn has_payload(out: &Outgoing, number: u64, bytes: &[u8]) -> bool {
    match out.accepted(number) {
        Some(payload) => payload.as_slice() == bytes,
        None => false,
    }
}

fn has_none(out: &Outgoing, number: u64) -> bool {
    out.accepted(number).is_none()
}

#[test]
fn payloads_are_numbered_from_one(rt: HostRuntime) {
    let mut out = fresh(rt.alloc(), OutPhase::Open);
    assert!(rt; numbers_two(rt.alloc(), &mut out));
    assert!(rt; has_payload(&out, 2, b"two"));
    assert!(rt; has_none(&out, 0));
    assert!(rt; has_none(&out, 3));
}

fn is_range(range: &Range, wanted: &(u64, u64)) -> bool {
    (range.lower == wanted.0) & (range.upper == wanted.1)
}

// Whether these are all ranges of a set.
fn has_ranges(set: &RangeSet, wanted: &[(u64, u64)]) -> bool {
    let ranges = set.ranges();
    if ranges.len() != wanted.len() {
        return false;
    }
    let mut are_so = true;
    for i in 0..wanted.len() {
        are_so &= is_range(&ranges[i], &wanted[i]);
    }
    are_so
}

#[test]
fn acknowledgements_add_up(rt: HostRuntime) -> Result<(), Fail> {
    let mut out = open(rt.alloc(), 4)?;
    assert!(rt; learns(rt.alloc(), &mut out, &[(3, 4)], true));
    assert!(rt; learns(rt.alloc(), &mut out, &[(1, 1)], true));
    assert!(rt; learns(rt.alloc(), &mut out, &[(1, 1), (3, 3)], false));
    assert!(rt; has_ranges(out.acked(), &[(1, 1), (3, 4)]));
    assert!(rt; out.unacked() == 1);
    Ok(())
}

// Whether acknowledging these numbers is refused for one that was never given.
fn is_never_given(alloc: Global, out: &mut Outgoing, ranges: &[(u64, u64)], number: u64) -> bool {
    learn(alloc, out, ranges) == Err(SourceError::InvalidAck { number })
}

#[test]
fn a_number_that_was_never_given_is_refused(rt: HostRuntime) -> Result<(), Fail> {
    let mut out = open(rt.alloc(), 4)?;
    assert!(rt; is_never_given(rt.alloc(), &mut out, &[(1, 2), (9, 9)], 9));
    assert!(rt; is_never_given(rt.alloc(), &mut out, &[(5, 5)], 5));
    assert!(rt; out.unacked() == 4);
    assert!(rt; learns(rt.alloc(), &mut out, &[(4, 4)], true));
    Ok(())
}

// Whether its window is full, at 1024 messages.
fn is_full(alloc: Global, out: &mut Outgoing) -> bool {
    accept(alloc, out, b"") == Err(SourceError::WindowFull { unacked: 1024 })
}

// What keeping one more answers, or None where it is not open.
fn keep(alloc: Global, out: &mut Outgoing) -> Option<Result<u64, Memory>> {
    if out.phase() == OutPhase::Open && out.accepted_len() < MAX_NUMBER {
        return Some(out.keep(Blob::new(alloc)));
    }
    None
}

// Whether one more is kept in a full window.
fn keeps_one_more(alloc: Global, out: &mut Outgoing) -> bool {
    is_full(alloc, out) & (keep(alloc, out) == Some(Ok(1025)))
}

// Whether one more is accepted once two of 1025 are acknowledged.
fn accepts_one_more(alloc: Global, out: &mut Outgoing) -> bool {
    let is_new = learns(alloc, out, &[(7, 8)], true);
    let unacked = out.unacked();
    is_new & (unacked == 1023) & gives(alloc, out, b"", 1026)
}

#[test]
fn the_window_holds_1024(rt: HostRuntime) -> Result<(), Fail> {
    let mut out = open(rt.alloc(), 1024)?;
    assert!(rt; keeps_one_more(rt.alloc(), &mut out));
    assert!(rt; accepts_one_more(rt.alloc(), &mut out));
    assert!(rt; is_full(rt.alloc(), &mut out));
    Ok(())
}

const NOT_OPEN: [OutPhase; 4] = [
    OutPhase::Creating,
    OutPhase::Closing,
    OutPhase::Closed,
    OutPhase::Failed,
];

// Whether it accepts nothing in this phase.
fn accepts_nothing(alloc: Global, out: &mut Outgoing, phase: OutPhase) -> bool {
    out.set_phase(phase);
    let is_set = out.phase() == phase;
    is_set & (accept(alloc, out, b"") == Err(SourceError::NotOpen { phase }))
}

// Whether it accepts its first payload once it is open.
fn accepts_first(alloc: Global, out: &mut Outgoing) -> bool {
    out.set_phase(OutPhase::Open);
    gives(alloc, out, b"", 1)
}

#[test]
fn only_an_open_sequence_accepts(rt: HostRuntime) {
    let mut out = fresh(rt.alloc(), OutPhase::Creating);
    for phase in &NOT_OPEN {
        assert!(rt; accepts_nothing(rt.alloc(), &mut out, *phase), "{phase:?}");
    }
    assert!(rt; accepts_first(rt.alloc(), &mut out));
}

// Whether it numbers three payloads, for two of which room is made.
fn numbers_three(alloc: Global, out: &mut Outgoing) -> bool {
    let mut is_so = out.reserve(2, 1) == Ok(());
    is_so &= out.reserve(1, 0) == Ok(());
    for number in 1..4 {
        is_so &= gives(alloc, out, b"", number);
    }
    is_so
}

// Whether it numbers a fourth payload once two are acknowledged and its room is given up.
fn numbers_a_fourth(alloc: Global, out: &mut Outgoing) -> bool {
    let is_new = learns(alloc, out, &[(1, 2)], true);
    out.release();
    is_new & gives(alloc, out, b"", 4) & (out.unacked() == 2)
}

#[test]
fn room_is_made_used_and_given_up(rt: HostRuntime) {
    let mut out = fresh(rt.alloc(), OutPhase::Open);
    assert!(rt; numbers_three(rt.alloc(), &mut out));
    assert!(rt; numbers_a_fourth(rt.alloc(), &mut out));
}

// What beginning behind a number answers, or None where something was accepted.
fn restore(out: &mut Outgoing, upto: u64) -> Option<Result<(), Memory>> {
    if out.accepted_len() == 0 && 0 < upto && upto <= MAX_NUMBER {
        return Some(out.restore(upto));
    }
    None
}

// Whether three payloads are gone then, all of them acknowledged.
fn begins_behind_three(out: &mut Outgoing) -> bool {
    let had_none = out.dropped() == 0;
    let is_restored = restore(out, 3) == Some(Ok(()));
    let are_gone = (out.dropped() == 3) & (out.accepted_len() == 3) & (out.unacked() == 0);
    had_none & is_restored & are_gone & has_ranges(out.acked(), &[(1, 3)])
}

// Whether it gives the next two payloads the numbers 4 and 5, and has these alone.
fn counts_on(alloc: Global, out: &mut Outgoing) -> bool {
    let fourth = gives(alloc, out, b"four", 4);
    let fifth = gives(alloc, out, b"five", 5);
    let are_there = has_payload(out, 4, b"four") & has_payload(out, 5, b"five");
    fourth & fifth & are_there & has_none(out, 0) & has_none(out, 3) & has_none(out, 6)
}

#[test]
fn payloads_that_are_gone_count(rt: HostRuntime) {
    let mut out = fresh(rt.alloc(), OutPhase::Open);
    assert!(rt; begins_behind_three(&mut out));
    assert!(rt; counts_on(rt.alloc(), &mut out));
    assert!(rt; out.unacked() == 2);
    assert!(rt; is_never_given(rt.alloc(), &mut out, &[(6, 6)], 6));
    assert!(rt; learns(rt.alloc(), &mut out, &[(2, 4)], true));
    assert!(rt; has_ranges(out.acked(), &[(1, 4)]));
}

#[test]
fn numbers_may_be_used_up_by_what_is_gone(rt: HostRuntime) {
    let mut out = fresh(rt.alloc(), OutPhase::Open);
    assert!(rt; restore(&mut out, MAX_NUMBER) == Some(Ok(())));
    assert!(rt; accept(rt.alloc(), &mut out, b"") == Err(SourceError::Rollover));
}

// Whether of four payloads the first two are given up, the greatest number up to which all are acknowledged.
fn gives_up_two(alloc: Global, out: &mut Outgoing) -> bool {
    let is_new = learns(alloc, out, &[(1, 2), (4, 4)], true);
    out.settle();
    let are_gone = (out.dropped() == 2) & has_none(out, 1) & has_none(out, 2);
    let are_there = has_payload(out, 3, b"") & has_payload(out, 4, b"") & has_none(out, 5);
    is_new & are_gone & are_there & (out.accepted_len() == 4) & (out.unacked() == 1)
}

#[test]
fn payloads_are_given_up_to_the_first_gap(rt: HostRuntime) -> Result<(), Fail> {
    let mut out = open(rt.alloc(), 4)?;
    assert!(rt; gives_up_two(rt.alloc(), &mut out));
    assert!(rt; gives(rt.alloc(), &mut out, b"five", 5));
    assert!(rt; has_payload(&out, 5, b"five"));
    Ok(())
}
