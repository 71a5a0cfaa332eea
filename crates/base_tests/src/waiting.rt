//! Timers: the rows, and ten thousand calls beside the plain program. What a test does stands in a helper that answers
//! a plain value, since a test with many steps is slow to prove.
use crate::twin::Twin;
use rand_core::utils::NextWord;
use rand_pcg::Pcg32;
use rm_base::Memory;
use std::alloc::Global;
use std::test::Fail;
use timers::slots::{Key, Timers};

const FIRST: Key = Key { seq: 1, number: 1 };

const SECOND: Key = Key { seq: 1, number: 2 };

#[test]
fn all_slots_are_spare(rt: HostRuntime) -> Result<(), Fail> {
    assert!(rt; Timers::new(rt.alloc())?.spare() == 4352);
    Ok(())
}

// Timers in which one key waits.
fn one_key(alloc: Global) -> Result<Timers, Memory> {
    let mut timers = Timers::new(alloc)?;
    timers.add(FIRST);
    Ok(timers)
}

// Whether this is the first key that is due at a time, and is emitted.
fn is_due(timers: &mut Timers, now: u64, key: Option<Key>) -> bool {
    let now = now.min(190000);
    let is_first = timers.nth_due(now, 0) == key;
    is_first & (timers.take_due(now) == key)
}

// A time, and the key that is due then.
const DUE: [(u64, Option<Key>); 15] = [
    (0, Some(FIRST)),
    (1999, None),
    (2000, Some(FIRST)),
    (5999, None),
    (6000, Some(FIRST)),
    (13999, None),
    (14000, Some(FIRST)),
    (29999, None),
    (30000, Some(FIRST)),
    (61999, None),
    (62000, Some(FIRST)),
    (125999, None),
    (126000, Some(FIRST)),
    (189999, None),
    (190000, Some(FIRST)),
];

// A key that was emitted at 0 is due at 2000, and then 4000, 8000, 16000, 32000 and 64000 after each emission.
#[test]
fn each_delay_is_twice_the_last(rt: HostRuntime) -> Result<(), Fail> {
    let mut timers = one_key(rt.alloc())?;
    for (now, key) in &DUE {
        assert!(rt; is_due(&mut timers, *now, *key), "at {now}");
    }
    Ok(())
}

// Timers whose first key was emitted at 0, and whose second waits since.
fn two_keys(alloc: Global) -> Result<Timers, Memory> {
    let mut timers = Timers::new(alloc)?;
    let first = timers.add(FIRST);
    timers.sent(first, 0);
    timers.add(SECOND);
    Ok(timers)
}

// The keys that are due at 2000, in their order.
const ORDER: [(u32, Option<Key>); 3] = [(0, Some(SECOND)), (1, Some(FIRST)), (2, None)];

fn is_nth(timers: &Timers, k: u32, key: Option<Key>) -> bool {
    timers.nth_due(2000, k) == key
}

fn is_next(timers: &mut Timers, key: Option<Key>) -> bool {
    timers.take_due(2000) == key
}

// The lower class comes first, and in a class the earlier move.
#[test]
fn keys_are_due_by_class_and_then_by_age(rt: HostRuntime) -> Result<(), Fail> {
    let mut timers = two_keys(rt.alloc())?;
    for (k, key) in &ORDER {
        assert!(rt; is_nth(&timers, *k, *key), "at {k}");
    }
    for (k, key) in &ORDER {
        assert!(rt; is_next(&mut timers, *key), "taken at {k}");
    }
    assert!(rt; timers.spare() == 4350);
    Ok(())
}

// Adds a key to both.
fn add(twin: &mut Twin, key: Key) -> Result<bool, Memory> {
    twin.add(key)?;
    Ok(true)
}

// A twin with two keys.
fn two_in_both(alloc: Global) -> Result<Twin, Memory> {
    let mut twin = Twin::new(alloc)?;
    add(&mut twin, FIRST)?;
    add(&mut twin, SECOND)?;
    Ok(twin)
}

// Whether both have this key at a place among those that are due at 0.
fn have(twin: &Twin, k: u32, key: Key) -> bool {
    twin.nth_due(0, k) == (Some(key), Some(key))
}

#[test]
fn an_urged_key_is_due_at_once(rt: HostRuntime) -> Result<(), Fail> {
    let mut twin = two_in_both(rt.alloc())?;
    assert!(rt; send(&mut twin, 0, 0)?);
    assert!(rt; have(&twin, 0, SECOND));
    assert!(rt; urge(&mut twin, 1)?);
    assert!(rt; have(&twin, 1, FIRST));
    assert!(rt; remove(&mut twin, 0) == Some((SECOND, SECOND)));
    assert!(rt; have(&twin, 0, FIRST));
    Ok(())
}

// The time that is latest for timers.
const LATEST: u64 = 200000000000000;

// Emits the key at a place in both. Whether there is one.
fn send(twin: &mut Twin, i: usize, now: u64) -> Result<bool, Memory> {
    if i >= twin.len() {
        return Ok(false);
    }
    twin.sent(i, now.min(LATEST))?;
    Ok(true)
}

// Urges the key at a place in both. Whether there is one.
fn urge(twin: &mut Twin, i: usize) -> Result<bool, Memory> {
    if i >= twin.len() {
        return Ok(false);
    }
    twin.urge(i)?;
    Ok(true)
}

// The key at a place that was removed, by both, where there is one.
fn remove(twin: &mut Twin, i: usize) -> Option<(Key, Key)> {
    if i < twin.len() {
        return Some(twin.remove(i));
    }
    None
}

fn removes_alike(twin: &mut Twin, i: usize) -> bool {
    match remove(twin, i) {
        Some((key, plain)) => key == plain,
        None => false,
    }
}

fn takes_alike(twin: &mut Twin, now: u64) -> Result<bool, Memory> {
    let (key, plain) = twin.take_due(now.min(LATEST))?;
    Ok(key == plain)
}

fn finds_alike(twin: &Twin, now: u64, k: u32) -> bool {
    let (key, plain) = twin.nth_due(now.min(LATEST), k);
    key == plain
}

// A call of the ten thousand: its turn, the kind of 16, the time and a word that chooses an entry.
#[derive(Clone, Copy)]
struct Call {
    turn: u32,
    kind: u32,
    now: u64,
    word: u32,
}

fn next_call(words: &mut Pcg32, turn: u32) -> Call {
    let kind = words.next_word() % 16;
    let now = (turn as u64) * 40 + (words.next_word() % 4000) as u64;
    let word = words.next_word();
    Call {
        turn,
        kind,
        now,
        word,
    }
}

// Whether both answer alike to a call on an entry, of one or more.
fn answer_alike(twin: &mut Twin, call: &Call, len: usize) -> Result<bool, Memory> {
    let i = call.word as usize % len.max(1);
    match call.kind {
        0..=7 => send(twin, i, call.now),
        8 => urge(twin, i),
        9..=10 => Ok(removes_alike(twin, i)),
        11..=14 => takes_alike(twin, call.now),
        _ => Ok(finds_alike(twin, call.now, call.word % 64)),
    }
}

// The key that is added in a turn.
fn key_of(turn: u32) -> Key {
    Key {
        seq: turn % 7,
        number: turn as u64,
    }
}

// Whether both answer alike to a call, and have as many keys then.
fn agree(twin: &mut Twin, call: &Call) -> Result<bool, Memory> {
    let len = twin.len();
    let are_alike = if call.kind < 6 || len == 0 {
        add(twin, key_of(call.turn))?
    } else {
        answer_alike(twin, call, len)?
    };
    Ok(are_alike & twin.agrees())
}

#[test]
fn ten_thousand_calls_agree_with_the_plain_program(rt: HostRuntime) -> Result<(), Fail> {
    let mut words = Pcg32::new(2026, 54);
    let mut twin = Twin::new(rt.alloc())?;
    for turn in 0..10000u32 {
        let call = next_call(&mut words, turn);
        assert!(rt;
            agree(&mut twin, &call)?,
            "call {} in turn {turn}",
            call.kind
        );
    }
    Ok(())
}
