//! Tests of `rm_sides::destination`. What a test does stands in a helper that answers a plain value, since a test with
//! many steps is slow to prove.
use rm_base::{Behaviour, Blob, Cause, Items, MAX_NUMBER, Memory, Payload};
use rm_sides::destination::{DestError, InPhase, Incoming, Took};
use rm_sides::ranges::RangeSet;
use std::alloc::Global;
use std::test::Fail;

fn payload(alloc: Global, bytes: &[u8]) -> Result<Payload, Memory> {
    Ok(Payload {
        bytes: Blob::from_slice(alloc, bytes)?,
        scope: Items::new(alloc),
    })
}

// What taking a message answers, whose number is from 1 on.
fn take(
    alloc: Global,
    inc: &mut Incoming,
    number: u16,
    bytes: &[u8],
    now: u64,
) -> Result<Took, DestError> {
    let payload = payload(alloc, bytes)?;
    inc.take(u64::from(number.max(1)), payload, now)
}

// A sequence that got these messages in this order, each with its number as its one byte.
fn with(alloc: Global, behaviour: Behaviour, numbers: &[u8]) -> Result<Incoming, DestError> {
    let mut inc = Incoming::new(alloc, behaviour, None);
    take_all(alloc, &mut inc, numbers)?;
    Ok(inc)
}

fn take_all(alloc: Global, inc: &mut Incoming, numbers: &[u8]) -> Result<(), DestError> {
    for number in numbers {
        take(alloc, inc, u16::from(*number), &[*number], 0)?;
    }
    Ok(())
}

fn is_byte(payload: Option<&Payload>, byte: u8) -> bool {
    match payload {
        Some(payload) => payload.bytes.as_slice() == [byte].as_slice(),
        None => false,
    }
}

// Whether the payloads of the inbox are these bytes.
fn releases(inc: &Incoming, bytes: &[u8]) -> bool {
    let mut are_so = inc.inbox_len() == bytes.len() as u64;
    for i in 0..bytes.len() {
        are_so &= is_byte(inc.inbox_item(i as u64 + 1), bytes[i]);
    }
    are_so
}

// Whether the payloads that are discarded are these bytes.
fn discards(inc: &Incoming, bytes: &[u8]) -> bool {
    let mut are_so = inc.discarded_len() == bytes.len() as u64;
    for i in 0..bytes.len() {
        are_so &= is_byte(inc.discarded_item(i as u64 + 1), bytes[i]);
    }
    are_so
}

// Whether a sequence that got these messages has an empty inbox.
fn releases_none(alloc: Global, numbers: &[u8]) -> Result<bool, DestError> {
    let inc = with(alloc, Behaviour::FollowingFirstGap, numbers)?;
    Ok(inc.inbox_len() == 0)
}

// Whether it is open, with the behaviour that it began with, and got two ranges of numbers up to 4.
fn got_two_ranges(inc: &Incoming) -> bool {
    let is_open = inc.phase(200000000000000) == InPhase::Open;
    let is_same = inc.behaviour() == Behaviour::FollowingFirstGap;
    let received = inc.received();
    is_open & is_same & (received.ranges().len() == 2) & (received.greatest() == 4)
}

// Whether the inbox has two payloads, and none is discarded.
fn inbox_ends_at_two(inc: &Incoming) -> bool {
    let is_so = inc.inbox_item(0).is_none() & inc.inbox_item(3).is_none();
    is_so & releases(inc, &[1, 2]) & (inc.discarded_len() == 0)
}

#[test]
fn the_inbox_waits_for_the_gap(rt: HostRuntime) -> Result<(), Fail> {
    assert!(rt; releases_none(rt.alloc(), &[2, 4]) == Ok(true));
    let inc = with(rt.alloc(), Behaviour::FollowingFirstGap, &[2, 4, 1])?;
    assert!(rt; inbox_ends_at_two(&inc));
    assert!(rt; got_two_ranges(&inc));
    Ok(())
}

// Whether the messages are these bytes, in the order in which they came.
fn are_bytes(messages: &[(u64, Payload)], bytes: &[u8]) -> bool {
    let mut are_so = messages.len() == bytes.len();
    for (message, byte) in messages.iter().zip(bytes) {
        are_so &= is_byte(Some(&message.1), *byte);
    }
    are_so
}

#[test]
fn messages_stay_in_their_order(rt: HostRuntime) -> Result<(), Fail> {
    let inc = with(rt.alloc(), Behaviour::EntireSequence, &[3, 1, 3, 2, 1])?;
    assert!(rt; are_bytes(inc.messages(), &[3, 1, 2]));
    Ok(())
}

// A number that is probed at a time, and the answer.
type Probed = (u64, u64, Result<Took, DestError>);

fn is_probed_so(inc: &Incoming, row: &Probed) -> bool {
    inc.probe(row.0, row.1) == row.2
}

const PROBED_WHEN_NEW: [Probed; 3] = [
    (1024, 0, Ok(Took::New)),
    (1025, 0, Ok(Took::PastWindow { front: 0 })),
    (MAX_NUMBER, 0, Ok(Took::PastWindow { front: 0 })),
];

// Whether taking a message of this number at 0 answers so.
fn is_taken_so(alloc: Global, inc: &mut Incoming, number: u16, bytes: &[u8], took: Took) -> bool {
    take(alloc, inc, number, bytes, 0) == Ok(took)
}

// Whether the window moves by one as the first message comes.
fn window_moves(alloc: Global, inc: &mut Incoming) -> bool {
    let past = Took::PastWindow { front: 1 };
    let mut is_so = is_taken_so(alloc, inc, 1, b"one", Took::New);
    is_so &= is_taken_so(alloc, inc, 1025, b"far", Took::New);
    is_so &= is_taken_so(alloc, inc, 1026, b"too far", past);
    is_so & (inc.messages().len() == 2)
}

#[test]
fn the_window_ends_1024_past_the_front(rt: HostRuntime) -> Result<(), Fail> {
    let mut inc = with(rt.alloc(), Behaviour::FollowingFirstGap, &[])?;
    for row in &PROBED_WHEN_NEW {
        assert!(rt; is_probed_so(&inc, row), "at {}", row.0);
    }
    assert!(rt; window_moves(rt.alloc(), &mut inc));
    Ok(())
}

// What closing it answers.
fn close(inc: &mut Incoming, cause: Cause, last: Option<u64>) -> Result<(), DestError> {
    inc.close(cause, last, 0)
}

// Whether two payloads of these bytes are discarded, and no more.
fn discards_end_at_two(inc: &Incoming, bytes: &[u8]) -> bool {
    let is_so = inc.discarded_item(0).is_none() & inc.discarded_item(3).is_none();
    is_so & discards(inc, bytes)
}

#[test]
fn a_closed_sequence_discards_what_follows_the_gap(rt: HostRuntime) -> Result<(), Fail> {
    let mut inc = with(rt.alloc(), Behaviour::FollowingFirstGap, &[1, 3, 4])?;
    assert!(rt; close(&mut inc, Cause::Peer, Some(4)) == Ok(()));
    assert!(rt; releases(&inc, &[1]));
    assert!(rt; discards_end_at_two(&inc, &[3, 4]));
    Ok(())
}

// What was received by a sequence that is an entire one or none, who closed it with which last number, and how many
// payloads are released and discarded then.
type Entire = (&'static [u8], Cause, Option<u64>, u64, u64);

const ENTIRE: [Entire; 9] = [
    (&[1, 3], Cause::Peer, Some(3), 0, 2),
    (&[3, 1, 2], Cause::Peer, Some(3), 3, 0),
    (&[3, 1, 2], Cause::Peer, None, 3, 0),
    (&[1, 3], Cause::Peer, None, 0, 2),
    (&[1, 2], Cause::Peer, Some(3), 0, 2),
    (&[1, 2, 3], Cause::Peer, Some(2), 0, 3),
    (&[2, 3], Cause::Peer, Some(2), 0, 2),
    (&[1, 2, 3], Cause::Operator, Some(3), 0, 3),
    (&[], Cause::Peer, None, 0, 0),
];

// Whether it has so many payloads in its inbox, and so many that are discarded.
fn has_so_many(inc: &Incoming, inbox: u64, pile: u64) -> bool {
    (inc.inbox_len() == inbox) & (inc.discarded_len() == pile)
}

// Whether closing it so turns it from one with no payload to one of so many.
fn closes_to(inc: &mut Incoming, row: &Entire) -> bool {
    let had_none = has_so_many(inc, 0, 0);
    let closed = close(inc, row.1, row.2) == Ok(());
    had_none & closed & has_so_many(inc, row.3, row.4)
}

// Whether a sequence that received these does.
fn is_entire(alloc: Global, row: &Entire) -> Result<bool, DestError> {
    let mut inc = with(alloc, Behaviour::EntireSequence, row.0)?;
    Ok(closes_to(&mut inc, row))
}

#[test]
fn an_entire_sequence_is_all_or_none(rt: HostRuntime) {
    for row in &ENTIRE {
        assert!(rt;
            is_entire(rt.alloc(), row) == Ok(true),
            "{:?}, {:?}, {:?}",
            row.0,
            row.1,
            row.2
        );
    }
}

// Whether the inbox is empty after this close, and the peer's end is the first.
fn waits_for_an_end(inc: &mut Incoming, cause: Cause, last: Option<u64>) -> bool {
    let closed = close(inc, cause, last);
    let had_none = inc.inbox_len() == 0;
    (closed == Ok(())) & had_none & inc.end(Cause::Peer, Some(2))
}

// Whether a sequence of two messages that is closed so, and ended by its peer then, has these payloads.
fn ends_with(
    alloc: Global,
    cause: Cause,
    last: Option<u64>,
    inbox: &[u8],
    pile: &[u8],
) -> Result<bool, DestError> {
    let mut inc = with(alloc, Behaviour::EntireSequence, &[2, 1])?;
    let waits = waits_for_an_end(&mut inc, cause, last);
    Ok(waits & releases(&inc, inbox) & discards(&inc, pile))
}

#[test]
fn what_the_peer_told_first_counts(rt: HostRuntime) {
    assert!(rt; ends_with(rt.alloc(), Cause::Operator, None, &[1, 2], &[]) == Ok(true));
    assert!(rt; ends_with(rt.alloc(), Cause::Peer, Some(3), &[], &[1, 2]) == Ok(true));
}

// Its deadline, and the millisecond before.
const DEADLINE: u64 = 5011200000;

const IN_TIME: u64 = 5011199999;

// Whether it takes messages up to its deadline.
fn takes_in_time(alloc: Global, inc: &mut Incoming) -> bool {
    let took = take(alloc, inc, 1, b"one", IN_TIME);
    let is_open = inc.phase(IN_TIME) == InPhase::Open;
    let is_ended = inc.phase(DEADLINE) == InPhase::Ended;
    (took == Ok(Took::New)) & is_open & is_ended
}

// Whether each call is refused at its deadline.
fn refuses_late(alloc: Global, inc: &mut Incoming) -> bool {
    let mut is_so = inc.probe(1, DEADLINE) == Err(DestError::Terminated);
    is_so &= take(alloc, inc, 2, b"two", DEADLINE) == Err(DestError::Terminated);
    is_so &= inc.close(Cause::Peer, None, DEADLINE) == Err(DestError::Terminated);
    is_so & has_so_many(inc, 1, 0)
}

// Whether its end is the first, and it is ended at each time then.
fn ends(inc: &mut Incoming) -> bool {
    inc.end(Cause::Expired, None) & (inc.phase(0) == InPhase::Ended)
}

#[test]
fn a_sequence_ends_at_its_deadline(rt: HostRuntime) {
    let mut inc = Incoming::new(rt.alloc(), Behaviour::FollowingFirstGap, Some(DEADLINE));
    assert!(rt; takes_in_time(rt.alloc(), &mut inc));
    assert!(rt; refuses_late(rt.alloc(), &mut inc));
    assert!(rt; ends(&mut inc));
}

const PROBED_WHEN_CLOSED: [Probed; 3] = [
    (1, 0, Ok(Took::Duplicate)),
    (2, 0, Err(DestError::Closed)),
    (5000, 0, Err(DestError::Closed)),
];

// Whether closing it brings it into phase Closed.
fn is_closed(inc: &mut Incoming) -> bool {
    let closed = close(inc, Cause::Peer, Some(1));
    (closed == Ok(())) & (inc.phase(0) == InPhase::Closed)
}

// Whether it is ended once, and refuses each call then.
fn is_ended_once(inc: &mut Incoming) -> bool {
    let first = inc.end(Cause::Peer, Some(1));
    let second = inc.end(Cause::Peer, Some(1));
    let closed = close(inc, Cause::Operator, None);
    let is_refused = inc.probe(1, 0) == Err(DestError::Terminated);
    first & !second & (closed == Err(DestError::Terminated)) & is_refused
}

#[test]
fn refusals_come_in_their_order(rt: HostRuntime) -> Result<(), Fail> {
    let mut inc = with(rt.alloc(), Behaviour::FollowingFirstGap, &[1])?;
    assert!(rt; is_closed(&mut inc));
    for row in &PROBED_WHEN_CLOSED {
        assert!(rt; is_probed_so(&inc, row), "at {}", row.0);
    }
    assert!(rt; close(&mut inc, Cause::Operator, None) == Err(DestError::Closed));
    assert!(rt; is_ended_once(&mut inc));
    Ok(())
}

// A new sequence that kept a far message.
fn with_far(alloc: Global) -> Result<Incoming, Memory> {
    let far = payload(alloc, b"far")?;
    let mut inc = Incoming::new(alloc, Behaviour::FollowingFirstGap, None);
    inc.keep(5000, far)?;
    Ok(inc)
}

// Whether it makes room for a message twice, takes two, and a third after its room for them is given up.
fn takes_three(alloc: Global, inc: &mut Incoming) -> bool {
    let mut is_so = inc.reserve(1) == Ok(());
    is_so &= inc.reserve(1) == Ok(());
    is_so &= is_taken_so(alloc, inc, 2, b"two", Took::New);
    is_so &= is_taken_so(alloc, inc, 1, b"one", Took::New);
    inc.release();
    is_so & is_taken_so(alloc, inc, 3, b"three", Took::New)
}

#[test]
fn room_is_made_used_and_given_up(rt: HostRuntime) -> Result<(), Fail> {
    let mut inc = with_far(rt.alloc())?;
    assert!(rt; takes_three(rt.alloc(), &mut inc));
    assert!(rt; inc.inbox_len() == 3);
    assert!(rt; inc.messages().len() == 4);
    Ok(())
}

// Whether consuming up to 2 and 1 of three items, and past them, answers so.
fn consumes_in_order(inc: &mut Incoming) -> bool {
    let mut is_so = inc.consumed() == 0;
    is_so &= inc.consume(4) == Err(DestError::PastInbox { have: 3 });
    is_so &= inc.consume(2) == Ok(true);
    is_so &= inc.consume(1) == Ok(false);
    is_so &= inc.consume(2) == Ok(false);
    is_so &= inc.consumed() == 2;
    is_so &= inc.consume(3) == Ok(true);
    is_so & (inc.consumed() == 3)
}

#[test]
fn the_cursor_goes_on_within_the_inbox(rt: HostRuntime) -> Result<(), Fail> {
    let mut inc = with(rt.alloc(), Behaviour::FollowingFirstGap, &[1, 2, 3, 5])?;
    assert!(rt; consumes_in_order(&mut inc));
    assert!(rt; releases(&inc, &[1, 2, 3]));
    Ok(())
}

// A sequence whose messages 1 and 2 were consumed and are gone.
fn behind_two(alloc: Global, behaviour: Behaviour) -> Result<Incoming, Memory> {
    let mut numbers = RangeSet::new(alloc);
    numbers.insert_range(1, 2)?;
    let mut inc = Incoming::new(alloc, behaviour, None);
    inc.restore(&numbers)?;
    Ok(inc)
}

// Whether the items 1 and 2 of the inbox are gone, and those from 3 on are these bytes.
fn releases_behind_two(inc: &Incoming, bytes: &[u8]) -> bool {
    let are_gone = inc.inbox_item(1).is_none() & inc.inbox_item(2).is_none();
    let mut are_so = are_gone & (inc.inbox_len() == bytes.len() as u64 + 2);
    for i in 0..bytes.len() {
        are_so &= is_byte(inc.inbox_item(i as u64 + 3), bytes[i]);
    }
    are_so
}

// Whether the numbers 1 and 2 are there and consumed, and the window ends 1024 past them.
fn counts_two(inc: &Incoming) -> bool {
    let past = Took::PastWindow { front: 2 };
    let is_second_there = inc.probe(2, 0) == Ok(Took::Duplicate);
    let ends_window = (inc.probe(1026, 0) == Ok(Took::New)) & (inc.probe(1027, 0) == Ok(past));
    (inc.consumed() == 2) & is_second_there & ends_window
}

// Whether the cursor stays at 2, and goes no further than 5.
fn consumes_within_five(inc: &mut Incoming) -> bool {
    let stays = inc.consume(2) == Ok(false);
    let ends = inc.consume(6) == Err(DestError::PastInbox { have: 5 });
    stays & ends & (inc.consume(5) == Ok(true))
}

#[test]
fn messages_that_are_gone_count(rt: HostRuntime) -> Result<(), Fail> {
    let mut inc = behind_two(rt.alloc(), Behaviour::FollowingFirstGap)?;
    assert!(rt; counts_two(&inc));
    assert!(rt; releases_behind_two(&inc, &[]));
    take_all(rt.alloc(), &mut inc, &[5, 2, 4, 3])?;
    assert!(rt; releases_behind_two(&inc, &[3, 4, 5]));
    assert!(rt; are_bytes(inc.messages(), &[5, 4, 3]));
    assert!(rt; consumes_within_five(&mut inc));
    Ok(())
}

// An entire sequence that got message 3, whose messages 1 and 2 are gone.
fn entire_behind_two(alloc: Global) -> Result<Incoming, DestError> {
    let mut inc = behind_two(alloc, Behaviour::EntireSequence)?;
    take_all(alloc, &mut inc, &[3])?;
    Ok(inc)
}

#[test]
fn an_entire_sequence_counts_what_is_gone(rt: HostRuntime) -> Result<(), Fail> {
    let mut inc = entire_behind_two(rt.alloc())?;
    assert!(rt; close(&mut inc, Cause::Peer, Some(3)) == Ok(()));
    assert!(rt; releases_behind_two(&inc, &[3]));
    assert!(rt; inc.discarded_len() == 0);
    Ok(())
}

#[test]
fn what_is_gone_may_be_discarded(rt: HostRuntime) -> Result<(), Fail> {
    let mut inc = entire_behind_two(rt.alloc())?;
    assert!(rt; close(&mut inc, Cause::Peer, Some(4)) == Ok(()));
    assert!(rt; has_so_many(&inc, 0, 3));
    assert!(rt; inc.discarded_item(1).is_none() & inc.discarded_item(2).is_none());
    assert!(rt; is_byte(inc.discarded_item(3), 3));
    Ok(())
}

// Whether it gives up the first two of three items, which are consumed, and keeps a message behind the gap.
fn gives_up_two(inc: &mut Incoming) -> bool {
    let is_consumed = inc.consume(2) == Ok(true);
    inc.forget();
    let are_there = releases_behind_two(inc, &[3]) & are_bytes(inc.messages(), &[5, 3]);
    is_consumed & are_there & counts_received(inc)
}

// Whether the numbers 1 to 3 and 5 are received, for good.
fn counts_received(inc: &Incoming) -> bool {
    let received = inc.received();
    (received.count() == 4) & received.has(1) & (received.front() == 3) & (received.greatest() == 5)
}

#[test]
fn payloads_that_are_consumed_are_given_up(rt: HostRuntime) -> Result<(), Fail> {
    let mut inc = with(rt.alloc(), Behaviour::FollowingFirstGap, &[5, 2, 1, 3])?;
    assert!(rt; gives_up_two(&mut inc));
    take_all(rt.alloc(), &mut inc, &[2, 4])?;
    assert!(rt; releases_behind_two(&inc, &[3, 4, 5]));
    Ok(())
}

// Whether the third and the first message are consumed and given up, and two others are still there.
fn gives_up_the_earliest(inc: &mut Incoming) -> bool {
    let is_consumed = inc.consume(2) == Ok(true);
    inc.forget();
    let are_gone = inc.inbox_item(1).is_none() & inc.inbox_item(2).is_none();
    let are_there = is_byte(inc.inbox_item(3), 6) & is_byte(inc.inbox_item(4), 2);
    is_consumed & are_gone & are_there & (inc.inbox_len() == 4) & (inc.gone() == 2)
}

// Whether the numbers 3 and 1 are those that were consumed, and none is new again.
fn passed_three_and_one(alloc: Global, inc: &Incoming) -> Result<bool, Memory> {
    let passed = inc.passed(alloc)?;
    let are_passed = inc.is_passed(3) & inc.is_passed(1) & !inc.is_passed(2) & !inc.is_passed(6);
    let is_set = (passed.count() == 2) & passed.has(1) & passed.has(3);
    Ok(is_set & are_passed & (inc.probe(3, 0) == Ok(Took::Duplicate)))
}

#[test]
fn a_loose_sequence_releases_what_comes(rt: HostRuntime) -> Result<(), Fail> {
    let mut inc = with(rt.alloc(), Behaviour::NoDiscard, &[3, 1, 6, 2])?;
    assert!(rt; releases(&inc, &[3, 1, 6, 2]));
    assert!(rt; gives_up_the_earliest(&mut inc));
    assert!(rt; passed_three_and_one(rt.alloc(), &inc)?);
    take_all(rt.alloc(), &mut inc, &[5])?;
    assert!(rt; is_byte(inc.inbox_item(5), 5));
    assert!(rt; close(&mut inc, Cause::Peer, Some(7)) == Ok(()));
    assert!(rt; has_so_many(&inc, 5, 0));
    Ok(())
}

#[test]
fn a_loose_sequence_begins_behind_any_numbers(rt: HostRuntime) -> Result<(), Fail> {
    let mut numbers = RangeSet::new(rt.alloc());
    numbers.insert_range(4, 5)?;
    numbers.insert(9)?;
    let mut inc = Incoming::new(rt.alloc(), Behaviour::NoDiscard, None);
    inc.restore(&numbers)?;
    take_all(rt.alloc(), &mut inc, &[1, 7])?;
    assert!(rt; inc.inbox_len() == 5);
    assert!(rt; is_byte(inc.inbox_item(4), 1) & is_byte(inc.inbox_item(5), 7));
    assert!(rt; (inc.consumed() == 3) & (inc.consume(4) == Ok(true)));
    assert!(rt; inc.is_passed(1) & inc.is_passed(9) & !inc.is_passed(7));
    Ok(())
}
