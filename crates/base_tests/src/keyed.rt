//! Timers whose keys are found by key: what is due, in which order, and what a beginning, a wish and an end do to that.
use rm_base::Memory;
use std::alloc::Global;
use std::test::Fail;
use timers::keys::KeyTimers;
use timers::slots::Key;

const REQUEST: Key = Key { seq: 1, number: 0 };

const FIRST: Key = Key { seq: 1, number: 1 };

const SECOND: Key = Key { seq: 1, number: 2 };

const OTHER: Key = Key { seq: 2, number: 1 };

// A key begins to wait, where there is room, and is emitted at the time.
fn send(timers: &mut KeyTimers, key: Key) {
    if timers.len() < 4352 {
        timers.begin(key);
    }
    timers.emit(key);
}

// The key waits no more.
fn end(timers: &mut KeyTimers, key: Key) {
    let place = timers.place(key);
    if place < timers.len() {
        timers.take_out(place);
    }
}

// The time is at least this.
fn tell(timers: &mut KeyTimers, now: u64) {
    timers.advance(now.min(1000000));
}

fn is_due(timers: &KeyTimers, now: u64, k: u32, key: Option<Key>) -> bool {
    timers.due(now.min(1000000), k) == key
}

// Whether exactly these are due, in this order.
fn are_due(timers: &KeyTimers, now: u64, keys: &[Key]) -> bool {
    let mut k = 0u32;
    for key in keys {
        if !is_due(timers, now, k, Some(*key)) {
            return false;
        }
        k = k.saturating_add(1);
    }
    is_due(timers, now, k, None)
}

// The key is emitted at a moment.
fn emit_at(timers: &mut KeyTimers, now: u64, key: Key) {
    tell(timers, now);
    timers.emit(key);
}

// Three keys of two sequences that were sent at 0, the last of them first.
fn three_keys(alloc: Global) -> Result<KeyTimers, Memory> {
    let mut timers = KeyTimers::new(alloc)?;
    send(&mut timers, OTHER);
    send(&mut timers, SECOND);
    send(&mut timers, FIRST);
    Ok(timers)
}

#[test]
fn nothing_waits_at_first(rt: HostRuntime) -> Result<(), Fail> {
    let timers = KeyTimers::new(rt.alloc())?;
    assert!(rt; timers.len() == 0);
    assert!(rt; timers.time() == 0);
    assert!(rt; are_due(&timers, 1000000, &[]));
    Ok(())
}

// Of equal classes the earlier move comes first, whatever the keys; by key they stand in their order all the same.
#[test]
fn the_earlier_move_is_due_first(rt: HostRuntime) -> Result<(), Fail> {
    let timers = three_keys(rt.alloc())?;
    assert!(rt; are_due(&timers, 1999, &[]));
    assert!(rt; are_due(&timers, 2000, &[OTHER, SECOND, FIRST]));
    assert!(rt; timers.key_at(0) == Some(FIRST));
    assert!(rt; timers.key_at(2) == Some(OTHER));
    assert!(rt; timers.key_at(3) == None);
    Ok(())
}

// What is wanted goes before all that was emitted; what was emitted twice goes behind.
#[test]
fn what_is_wanted_is_due_first(rt: HostRuntime) -> Result<(), Fail> {
    let mut timers = three_keys(rt.alloc())?;
    emit_at(&mut timers, 2000, OTHER);
    timers.urge(FIRST);
    timers.urge(REQUEST);
    assert!(rt; are_due(&timers, 0, &[FIRST, SECOND]));
    assert!(rt; are_due(&timers, 5999, &[FIRST, SECOND]));
    assert!(rt; are_due(&timers, 6000, &[FIRST, SECOND, OTHER]));
    Ok(())
}

// A key that begins anew is in class 0 again, and due once more 2000 milliseconds after it is emitted.
#[test]
fn what_begins_anew_begins_at_once(rt: HostRuntime) -> Result<(), Fail> {
    let mut timers = KeyTimers::new(rt.alloc())?;
    send(&mut timers, REQUEST);
    emit_at(&mut timers, 2000, REQUEST);
    assert!(rt; are_due(&timers, 5999, &[]));
    send(&mut timers, REQUEST);
    assert!(rt; are_due(&timers, 3999, &[]));
    assert!(rt; are_due(&timers, 4000, &[REQUEST]));
    assert!(rt; timers.len() == 1);
    Ok(())
}

// A key that waits no more is due no more, and can't be wanted or emitted.
#[test]
fn what_waits_no_more_is_not_due(rt: HostRuntime) -> Result<(), Fail> {
    let mut timers = three_keys(rt.alloc())?;
    end(&mut timers, SECOND);
    timers.urge(SECOND);
    emit_at(&mut timers, 0, SECOND);
    assert!(rt; timers.len() == 2);
    assert!(rt; are_due(&timers, 2000, &[OTHER, FIRST]));
    Ok(())
}

// A moment earlier than one that was told before counts as that one.
#[test]
fn the_time_never_falls(rt: HostRuntime) -> Result<(), Fail> {
    let mut timers = three_keys(rt.alloc())?;
    emit_at(&mut timers, 7000, FIRST);
    emit_at(&mut timers, 10, SECOND);
    assert!(rt; timers.time() == 7000);
    assert!(rt; are_due(&timers, 0, &[OTHER]));
    assert!(rt; are_due(&timers, 10999, &[OTHER]));
    assert!(rt; are_due(&timers, 11000, &[OTHER, FIRST, SECOND]));
    Ok(())
}

// As many keys as there is room for, sent at 0.
fn full(alloc: Global) -> Result<KeyTimers, Memory> {
    let mut timers = KeyTimers::new(alloc)?;
    for number in 0..4352u64 {
        send(
            &mut timers,
            Key {
                seq: 7,
                number: 4351 - number,
            },
        );
    }
    Ok(timers)
}

#[test]
fn there_is_room_for_all_keys(rt: HostRuntime) -> Result<(), Fail> {
    let timers = full(rt.alloc())?;
    let last = Key {
        seq: 7,
        number: 4351,
    };
    assert!(rt; timers.len() == 4352);
    assert!(rt; timers.key_at(4351) == Some(last));
    assert!(rt; is_due(&timers, 2000, 0, Some(last)));
    Ok(())
}
