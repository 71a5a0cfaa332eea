//! The lists of the classes beside the cells of the slots that callers keep: each move is made in both.
ghost use Rattle.std.specs.Prelude.{◌≡◌, ◌≢◌, ◌+◌, ◌<◌, ◌≤◌, ℕ, [], ◌∷◌, ◌++◌, length, drop, slice_get, slice_set};
ghost use Rattle.std.specs.Prelude.{option_map, IfOk, MatchResult, All, AllPairs, vec_capacity, false, Some, None};
ghost use Rattle.rm_base.specs.Limits.{most_keys, now_max};
ghost use Rattle.timers.specs.declared.links.links.Item.{Item};
ghost use Rattle.timers.specs.Links.Items.{Stands, first_due, list_at, due_count};
ghost use Rattle.timers.specs.Slots.Table.{
  cell_at,
  with_at,
  IsTied,
  IsOwned,
  NotOwned,
  class_after,
  left_of,
  shifted,
  with_new,
  fronts,
};
ghost use Rattle.timers.specs.Slots.Waits.{due_in};

use crate::links::{Links, Steps};
use crate::slots::timers::Key;
use rm_base::Memory;
use rm_base::limits::MOST_KEYS;
use std::alloc::Global;
use std::sync::ledger::{Blank, Ledger};

/// A key, and the slot in the lists where it now stands.
#[derive(Clone, Copy, Debug)]
pub(crate) struct Cell {
    pub(crate) key: Key,
    pub(crate) at: u32,
}

// So many cells as there are slots.
pub(crate) fn blank_cells(alloc: Global) -> Result<Vec<Cell>, Memory>
    ensures { IfOk result (λ cells. length cells.items ≡ most_keys) }
{
    let mut cells = Vec::with_capacity(alloc, MOST_KEYS as usize)?;
    let key = Key { seq: 0, number: 0 };
    for _ in 0..MOST_KEYS {
        cells.push(Cell { key, at: 0 })?;
    }
    Ok(cells)
}

// All slots, with room for all of them.
pub(crate) fn free_slots(alloc: Global) -> Result<Vec<u32>, Memory>
    ensures count { IfOk result (λ free. length free.items ≡ most_keys) }
    ensures low { IfOk result (λ free. All (λ slot. slot < most_keys) free.items) }
    ensures distinct { IfOk result (λ free. AllPairs ◌≢◌ free.items) }
    ensures room { IfOk result (λ free. most_keys ≤ vec_capacity free) }
{
    let mut free = Vec::with_capacity(alloc, MOST_KEYS as usize)?;
    for slot in 0..MOST_KEYS {
        free.push(slot)?;
    }
    Ok(free)
}

// The free slot that is given out next.
pub(crate) fn pop_slot(free: &mut Vec<u32>) -> u32
    requires { 0 < length free.old.items }
    ensures items { free.old.items ≡ free.new.items ++ result ∷ [] }
    ensures room { vec_capacity free.new ≡ vec_capacity free.old }
{
    match free.pop() {
        Some(slot) => slot,
        None => unreachable!(),
    }
}

// The slot is free again.
pub(crate) fn push_slot(free: &mut Vec<u32>, slot: u32)
    requires { length free.old.items < vec_capacity free.old }
    ensures items { free.new.items ≡ free.old.items ++ slot ∷ [] }
    ensures room { vec_capacity free.old ≤ vec_capacity free.new }
{
    match free.push(slot) {
        Ok(()) => {}
        Err(_) => unreachable!(),
    }
}

// When a key is due that is put into a class now.
fn due_of(class: u32, time: u64) -> u64
    requires class { class ≤ 6 }
    requires time { time ≤ now_max }
    ensures { result ≡ due_in class time }
{
    match class {
        0 => 0,
        1 => time + 2000,
        2 => time + 4000,
        3 => time + 8000,
        4 => time + 16000,
        5 => time + 32000,
        _ => time + 64000,
    }
}

fn next_class(urged: bool, class: u32) -> u32
    requires { class ≤ 6 }
    ensures value { result ≡ class_after urged class }
    ensures within { result ≤ 6 }
{
    if urged {
        return 0;
    }
    if class < 6 { class + 1 } else { 6 }
}

fn place_of(cells: &Vec<Cell>, slot: u32) -> u32
    requires { slot < length cells.now.items }
    ensures { result ≡ (cell_at cells.now.items slot).at }
{
    cells[slot as usize].at
}

fn set_place(cells: &mut Vec<Cell>, slot: u32, at: u32)
    requires { slot < length cells.old.items }
    ensures { cells.new.items ≡ with_at cells.old.items slot at }
{
    cells[slot as usize].at = at;
}

fn set_cell(cells: &mut Vec<Cell>, slot: u32, cell: Cell)
    requires { slot < length cells.old.items }
    ensures { cells.new.items ≡ slice_set cells.old.items slot cell }
{
    cells[slot as usize] = cell;
}

pub(crate) fn key_of(cells: &Vec<Cell>, slot: u32) -> Key
    requires { slot < length cells.now.items }
    ensures { result ≡ (cell_at cells.now.items slot).key }
{
    cells[slot as usize].key
}

// Puts a new key last into class 0 at a slot that no item has, and answers its slot in the lists.
pub(crate) fn put_new<L: Ledger>(
    links: &mut Links,
    cells: &mut Vec<Cell>,
    slot: u32,
    key: Key,
    blank: Blank,
) -> u32
    requires name { blank.name ≡ L.name }
    requires parts { blank.parts ≡ L.parts }
    requires one { L.parts ≡ 1 }
    requires tied { IsTied links.old.lists cells.old.items }
    requires slot { slot < most_keys }
    requires free { NotOwned links.old.lists slot }
    requires spare { 0 < links.old.spare }
    ensures lists { links.new.lists ≡ with_new links.old.lists slot result }
    ensures cells { cells.new.items ≡ slice_set cells.old.items slot (record { key = key; at = result }) }
    ensures tied { IsTied links.new.lists cells.new.items }
    ensures spare { links.new.spare + 1 ≡ links.old.spare }
{
    let mut steps: Steps<L> = Steps::new(blank);
    let at = links.add(0, slot as u64, 0, &mut steps);
    set_cell(cells, slot, Cell { key, at });
    at
}

// Takes the key of a slot out of its list.
pub(crate) fn take_out<L: Ledger>(links: &mut Links, cells: &Vec<Cell>, slot: u32, blank: Blank)
    requires name { blank.name ≡ L.name }
    requires parts { blank.parts ≡ L.parts }
    requires one { L.parts ≡ 1 }
    requires tied { IsTied links.old.lists cells.now.items }
    requires owned { IsOwned links.old.lists slot }
    ensures lists { (before : _) (item : _) (after : _) → item.key ≡ slot → Stands links.old.lists before item after →
        links.new.lists ≡ left_of links.old.lists before item after }
    ensures tied { IsTied links.new.lists cells.now.items }
    ensures spare { links.new.spare ≡ links.old.spare + 1 }
{
    let mut steps: Steps<L> = Steps::new(blank);
    links.remove(place_of(cells, slot), &mut steps);
}

// Moves the key of a slot last into the next class, or into class 0 where it is urged. It answers the key's slot in
// the lists.
pub(crate) fn shift<L: Ledger>(
    links: &mut Links,
    cells: &mut Vec<Cell>,
    slot: u32,
    urged: bool,
    time: u64,
    blank: Blank,
) -> u32
    requires name { blank.name ≡ L.name }
    requires parts { blank.parts ≡ L.parts }
    requires one { L.parts ≡ 1 }
    requires time { time ≤ now_max }
    requires tied { IsTied links.old.lists cells.old.items }
    requires owned { IsOwned links.old.lists slot }
    ensures lists { (before : _) (item : _) (after : _) → item.key ≡ slot → Stands links.old.lists before item after →
        links.new.lists ≡ shifted links.old.lists before item after (class_after urged item.list)
        (due_in (class_after urged item.list) time) result }
    ensures cells { cells.new.items ≡ with_at cells.old.items slot result }
    ensures tied { IsTied links.new.lists cells.new.items }
    ensures spare { links.new.spare ≡ links.old.spare }
{
    let mut steps: Steps<L> = Steps::new(blank);
    let item = links.remove(place_of(cells, slot), &mut steps);
    let class = next_class(urged, item.list);
    let at = links.add(class, slot as u64, due_of(class, time), &mut steps);
    set_place(cells, slot, at);
    at
}

// Moves the first key that is due last into the next class.
pub(crate) fn shift_due<L: Ledger>(
    links: &mut Links,
    cells: &mut Vec<Cell>,
    time: u64,
    blank: Blank,
) -> Option<Key>
    requires name { blank.name ≡ L.name }
    requires parts { blank.parts ≡ L.parts }
    requires one { L.parts ≡ 1 }
    requires time { time ≤ now_max }
    requires tied { IsTied links.old.lists cells.old.items }
    ensures key { result ≡ option_map (λ item. (cell_at cells.old.items item.key).key)
        (first_due time links.old.lists) }
    ensures moved { (item : Item) → first_due time links.old.lists ≡ Some item → (at : ℕ)
        × Stands links.old.lists [] item (drop 1 (list_at links.old.lists item.list))
        × (links.new.lists ≡ shifted links.old.lists [] item (drop 1 (list_at links.old.lists item.list))
        (class_after false item.list) (due_in (class_after false item.list) time) at)
        × (cells.new.items ≡ with_at cells.old.items item.key at) }
    ensures tied { IsTied links.new.lists cells.new.items }
    ensures spare { links.new.spare ≡ links.old.spare }
    ensures none { first_due time links.old.lists ≡ None →
        (links.new.lists ≡ links.old.lists) × (cells.new.items ≡ cells.old.items) }
{
    let mut steps: Steps<L> = Steps::new(blank);
    match links.take_due(time, &mut steps) {
        Some(item) => {
            let slot = item.key as u32;
            let key = key_of(cells, slot);
            let class = next_class(false, item.list);
            let at = links.add(class, item.key, due_of(class, time), &mut steps);
            set_place(cells, slot, at);
            Some(key)
        }
        None => None,
    }
}

// The slot of the k-th item of a class, where that is due, or else how many items of the class are due.
fn due_in_class<L: Ledger>(
    links: &Links,
    class: u32,
    time: u64,
    k: u32,
    steps: &mut Steps<L>,
) -> Result<u64, u32>
    requires { class < length links.now.lists }
    ensures { MatchResult result
        (λ slot. (item : Item) × (slice_get (list_at links.now.lists class) k ≡ Some item) × (item.key ≡ slot)
        × (k < due_count time (list_at links.now.lists class)))
        (λ count. (count ≡ due_count time (list_at links.now.lists class)) × (count ≤ k)) }
{
    let count = links.due_front(class, time, k, steps);
    if count < k {
        return Err(count);
    }
    match links.nth(class, k, steps) {
        Some(item) => {
            if item.due <= time {
                return Ok(item.key);
            }
            Err(count)
        }
        None => Err(count),
    }
}

// The key at a place among those that are due, counted from 0.
pub(crate) fn find_due<L: Ledger>(
    links: &Links,
    cells: &Vec<Cell>,
    time: u64,
    k: u32,
    blank: Blank,
) -> Option<Key>
    requires name { blank.name ≡ L.name }
    requires parts { blank.parts ≡ L.parts }
    requires one { L.parts ≡ 1 }
    requires tied { IsTied links.now.lists cells.now.items }
    ensures { result ≡ option_map (λ item. (cell_at cells.now.items item.key).key)
        (slice_get (fronts time links.now.lists) k) }
{
    let mut steps: Steps<L> = Steps::new(blank);
    let mut left = k;
    for class in 0..7u32 {
        match due_in_class(links, class, time, left, &mut steps) {
            Ok(slot) => return Some(key_of(cells, slot as u32)),
            Err(count) => left -= count,
        }
    }
    None
}
