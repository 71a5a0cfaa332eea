//! Lists linked by index: the rows, and what a call costs.
ghost use Rattle.std.specs.Prelude.{◌≡◌, ◌+◌, ◌<◌, ◌≤◌, length, IfOk};

use rm_base::Memory;
use std::alloc::Global;
use std::marker::Brand;
use std::sync::ledger::{Blank, Ledger};
use std::test::Fail;
use timers::links::{Item, Links, Steps};

// Removes the item at a place of a list.
fn remove_nth<L: Ledger>(links: &mut Links, list: u32, k: u32, steps: &mut Steps<L>) -> Option<Item>
    requires { list < length links.old.lists }
    ensures { length links.new.lists ≡ length links.old.lists }
{
    links.spare();
    let slot = match links.nth(list, k, steps) {
        Some(item) => item.slot,
        None => return None,
    };
    Some(links.remove(slot, steps))
}

fn due_of(item: Option<Item>) -> Option<u64> {
    item.map(|item| item.due)
}

// Puts an item last into a list, where a slot is spare. Whether one was.
fn put<L: Ledger>(links: &mut Links, list: u32, key: u64, due: u64, steps: &mut Steps<L>) -> bool
    requires { list < length links.old.lists }
    ensures { length links.new.lists ≡ length links.old.lists }
{
    if links.spare() == 0 {
        return false;
    }
    links.add(list, key, due, steps);
    true
}

// Takes the first item that is due, and tells when it was.
fn take_due<L: Ledger>(links: &mut Links, now: u64, steps: &mut Steps<L>) -> Option<u64>
    ensures { length links.new.lists ≡ length links.old.lists }
{
    due_of(links.take_due(now, steps))
}

// Takes the first item of a list, and tells when it is due.
fn take_first<L: Ledger>(links: &mut Links, list: u32, steps: &mut Steps<L>) -> Option<u64>
    requires { list < length links.old.lists }
    ensures { length links.new.lists ≡ length links.old.lists }
{
    due_of(links.take_first(list, steps))
}

// Whether three items fill three slots.
fn is_filled<L: Ledger>(links: &mut Links, steps: &mut Steps<L>) -> bool
    requires { length links.old.lists ≡ 2 }
    ensures { length links.new.lists ≡ 2 }
{
    let mut is_so = put(links, 0, 0, 5, steps);
    is_so &= put(links, 0, 1, 6, steps);
    is_so &= put(links, 0, 2, 7, steps);
    is_so & (links.spare() == 0)
}

// Whether the second item is removed, so that one is due at 6, and none at 4.
fn second_is_removed<L: Ledger>(links: &mut Links, steps: &mut Steps<L>) -> bool
    requires { length links.old.lists ≡ 2 }
    ensures { length links.new.lists ≡ 2 }
{
    let second = due_of(remove_nth(links, 0, 1, steps));
    let none_at_4 = take_due(links, 4, steps);
    (second == Some(6)) & (none_at_4 == None) & (links.due_front(0, 6, 1, steps) == 1)
}

// Whether the other two leave as they are due.
fn two_leave<L: Ledger>(links: &mut Links, steps: &mut Steps<L>) -> bool
    requires { length links.old.lists ≡ 2 }
    ensures { length links.new.lists ≡ 2 }
{
    let first_at_9 = take_due(links, 9, steps);
    let next_at_9 = take_due(links, 9, steps);
    let none_at_9 = take_due(links, 9, steps);
    (first_at_9 == Some(5)) & (next_at_9 == Some(7)) & (none_at_9 == None)
}

// Whether an item that goes into the second list, which has none, is its first.
fn one_comes_and_leaves<L: Ledger>(links: &mut Links, steps: &mut Steps<L>) -> bool
    requires { length links.old.lists ≡ 2 }
{
    let none_in_1 = take_first(links, 1, steps);
    let is_put = put(links, 1, 8, 1, steps);
    let one_in_1 = take_first(links, 1, steps);
    is_put & (none_in_1 == None) & (one_in_1 == Some(1))
}

// What each step of the row tells in turn.
fn three_items<L: Ledger>(alloc: Global, blank: Blank) -> Result<[bool; 4], Memory>
    requires name { blank.name ≡ L.name }
    requires parts { blank.parts ≡ L.parts }
    requires one { L.parts ≡ 1 }
{
    let mut steps: Steps<L> = Steps::new(blank);
    let mut links = Links::with_slots(alloc, 3, 2)?;
    let is_filled = is_filled(&mut links, &mut steps);
    let is_removed = second_is_removed(&mut links, &mut steps);
    let leave = two_leave(&mut links, &mut steps) & (links.spare() == 3);
    let comes = one_comes_and_leaves(&mut links, &mut steps) & (links.spare() == 3);
    Ok([is_filled, is_removed, leave, comes])
}

#[test]
fn items_leave_as_they_are_due(rt: HostRuntime) -> Result<(), Fail> {
    let are_so = three_items::<Brand>(rt.alloc(), Blank::new(1))?;
    assert!(rt; are_so == [true; 4], "{are_so:?}");
    Ok(())
}

#[test]
fn one_slot_is_spare(rt: HostRuntime) -> Result<(), Fail> {
    assert!(rt; Links::with_slots(rt.alloc(), 1, 1)?.spare() == 1);
    Ok(())
}

// So many items in the first of seven lists, due at 0, 1, 2 and so on.
fn filled<L: Ledger>(alloc: Global, count: u32, steps: &mut Steps<L>) -> Result<Links, Memory>
    requires { count ≤ 4352 }
    ensures seven { IfOk result (λ links. length links.lists ≡ 7) }
{
    let mut links = Links::with_slots(alloc, 4352, 7)?;
    for i in 0..count {
        links.add(0, 0, i as u64, steps);
    }
    Ok(links)
}

// A hundred times the first item that is due goes last into another list. It answers how often there was one.
fn hundred_moves<L: Ledger>(links: &mut Links, steps: &mut Steps<L>) -> u32
    requires { length links.old.lists ≡ 7 }
    ensures cost { steps.new ≤ steps.old + 1900 }
{
    let mut moved = 0;
    for i in 0..100u32 {
        if let Some(item) = links.take_due(5000, steps) {
            links.add(i % 7, item.key, item.due, steps);
            moved += 1;
        }
    }
    moved
}

// How many of a hundred moves among so many items found one, and how many slots are spare then.
fn moves_among<L: Ledger>(alloc: Global, count: u32, blank: Blank) -> Result<(u32, u32), Memory>
    requires name { blank.name ≡ L.name }
    requires parts { blank.parts ≡ L.parts }
    requires one { L.parts ≡ 1 }
    requires count { count ≤ 4352 }
{
    let mut steps: Steps<L> = Steps::new(blank);
    let mut links = filled(alloc, count, &mut steps)?;
    let moved = hundred_moves(&mut links, &mut steps);
    Ok((moved, links.spare()))
}

const COUNTS: [u32; 2] = [10, 4352];

// Whether each of a hundred moves among so many items finds one, and each other slot is spare then.
fn all_are_moved(alloc: Global, count: u32) -> Result<bool, Memory> {
    let count = count.min(4352);
    let answer = moves_among::<Brand>(alloc, count, Blank::new(1))?;
    Ok(answer == (100, 4352 - count))
}

// The bound on the steps of a hundred moves, which is proved, is the same for few items and for many.
#[test]
fn many_items_cost_no_more_steps_than_few(rt: HostRuntime) -> Result<(), Fail> {
    for count in &COUNTS {
        assert!(rt; all_are_moved(rt.alloc(), *count)?, "among {count}");
    }
    Ok(())
}
