//! The slots of keys, by sequence and number.
ghost use Rattle.std.specs.Prelude.{◌≡◌, ◌+◌, ◌<◌, ◌≤◌, length, MatchResult, vec_capacity};
ghost use Rattle.std.specs.List.{insert};
ghost use Rattle.timers.specs.Keys.Keyed.{Rises, IsPlace, IsAt, IsGap, is_before as is_before_of};
ghost use Rattle.timers.specs.Keys.Waits.{same_key as same_key_of};

use crate::slots::Key;

/// A key, and its slot in the timers.
#[derive(Clone, Copy, Debug)]
pub(crate) struct Cell {
    pub(crate) key: Key,
    pub(crate) slot: u32,
}

fn is_before(a: Key, b: Key) -> bool
    ensures { result ≡ is_before_of a b }
{
    if a.seq == b.seq {
        return a.number < b.number;
    }
    a.seq < b.seq
}

fn same_key(a: Key, b: Key) -> bool
    ensures { result ≡ same_key_of a b }
{
    a.seq == b.seq && a.number == b.number
}

/// The place of the first cell whose key doesn't come before this one.
pub(crate) fn place_of(cells: &[Cell], key: Key) -> usize
    requires { Rises cells.now }
    ensures { IsPlace cells.now key result }
{
    let mut low = 0;
    let mut high = cells.len();
    while low < high {
        let mid = low + (high - low) / 2;
        if is_before(cells[mid].key, key) {
            low = mid + 1;
        } else {
            high = mid;
        }
    }
    low
}

/// Where a key stands, or would stand.
pub(crate) fn find(cells: &[Cell], key: Key) -> Result<usize, usize>
    requires { Rises cells.now }
    ensures { MatchResult result (IsAt cells.now key) (IsGap cells.now key) }
{
    let place = place_of(cells, key);
    if place == cells.len() {
        return Err(place);
    }
    if same_key(cells[place].key, key) {
        return Ok(place);
    }
    Err(place)
}

/// Puts a cell at a place, where there is room.
pub(crate) fn put(cells: &mut Vec<Cell>, place: usize, cell: Cell)
    requires within { place ≤ length cells.old.items }
    requires room { length cells.old.items < vec_capacity cells.old }
    ensures items { cells.new.items ≡ insert cells.old.items place cell }
    ensures room { vec_capacity cells.old ≤ vec_capacity cells.new }
{
    match cells.insert(place, cell) {
        Ok(()) => {}
        Err(_) => unreachable!(),
    }
}
