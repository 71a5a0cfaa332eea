//! Tests of `rm_sides::ranges`.
use rm_base::{MAX_NUMBER, Memory};
use rm_sides::ranges::RangeSet;
use std::alloc::Global;
use std::test::Fail;

fn set_of(alloc: Global, ranges: &[(u64, u64)]) -> Result<RangeSet, Memory> {
    let mut set = RangeSet::new(alloc);
    insert_all(&mut set, ranges)?;
    Ok(set)
}

fn insert_all(set: &mut RangeSet, ranges: &[(u64, u64)]) -> Result<(), Memory> {
    for (lower, upper) in ranges {
        if 0 < *lower && *lower <= *upper && *upper <= MAX_NUMBER {
            set.insert_range(*lower, *upper)?;
        }
    }
    Ok(())
}

// Whether these are all ranges of a set.
fn has_ranges(set: &RangeSet, wanted: &[(u64, u64)]) -> bool {
    let mut are_so = set.ranges().len() == wanted.len();
    for (range, (lower, upper)) in set.ranges().iter().zip(wanted) {
        are_so &= (range.lower == *lower) & (range.upper == *upper);
    }
    are_so
}

// Whether these are the missing numbers, or the first so many of them.
fn misses(set: &RangeSet, most: usize, wanted: &[u64]) -> Result<bool, Memory> {
    Ok(set.missing(most)?.as_slice() == wanted)
}

fn inserts_one_two_and_five(set: &mut RangeSet) -> Result<bool, Memory> {
    let mut is_so = set.insert(1)?;
    is_so &= set.insert(2)?;
    is_so &= set.insert(5)?;
    Ok(is_so & (set.front() == 2) & (set.greatest() == 5))
}

fn inserts_three_once(set: &mut RangeSet) -> Result<bool, Memory> {
    let is_new = set.insert(3)?;
    let is_new_again = set.insert(3)?;
    Ok(is_new & !is_new_again & set.has(3) & !set.has(4) & !set.has(0))
}

#[test]
fn one_two_and_five(rt: HostRuntime) {
    let mut set = RangeSet::new(rt.alloc());
    assert!(rt; inserts_one_two_and_five(&mut set) == Ok(true));
    assert!(rt; misses(&set, 9, &[3, 4]) == Ok(true));
    assert!(rt; misses(&set, 1, &[3]) == Ok(true));
    assert!(rt; inserts_three_once(&mut set) == Ok(true));
    assert!(rt; has_ranges(&set, &[(1, 3), (5, 5)]));
}

fn begins_at_the_last(set: &RangeSet) -> Result<bool, Memory> {
    let are_so = (set.front() == 0) & (set.greatest() == MAX_NUMBER);
    Ok(are_so & misses(set, 2, &[1, 2])?)
}

fn takes_all(set: &mut RangeSet) -> Result<bool, Memory> {
    let is_new = set.insert_range(1, MAX_NUMBER)?;
    let are_so = is_new & (set.front() == MAX_NUMBER) & misses(set, 2, &[])?;
    Ok(are_so & !set.insert(MAX_NUMBER)?)
}

fn is_empty(set: &RangeSet) -> Result<bool, Memory> {
    Ok((set.greatest() == 0) & misses(set, 3, &[])?)
}

#[test]
fn the_borders(rt: HostRuntime) -> Result<(), Fail> {
    let mut set = set_of(rt.alloc(), &[(MAX_NUMBER, MAX_NUMBER)])?;
    assert!(rt; begins_at_the_last(&set) == Ok(true));
    assert!(rt; takes_all(&mut set) == Ok(true));
    assert!(rt; is_empty(&RangeSet::new(rt.alloc())) == Ok(true));
    Ok(())
}

// Whether the set of some ranges has these.
fn join_to(alloc: Global, given: &[(u64, u64)], want: &[(u64, u64)]) -> Result<bool, Memory> {
    Ok(has_ranges(&set_of(alloc, given)?, want))
}

// The ranges that are given, and those of the set that has them.
const JOINED: [(&[(u64, u64)], &[(u64, u64)]); 6] = [
    (&[(1, 2), (4, 5)], &[(1, 2), (4, 5)]),
    (&[(1, 2), (4, 5), (3, 3)], &[(1, 5)]),
    (&[(4, 5), (1, 2)], &[(1, 2), (4, 5)]),
    (
        &[(2, 3), (6, 7), (10, 11), (14, 15), (5, 12)],
        &[(2, 3), (5, 12), (14, 15)],
    ),
    (
        &[(2, 3), (6, 7), (10, 11), (4, 4)],
        &[(2, 4), (6, 7), (10, 11)],
    ),
    (&[(5, 6), (9, 9), (1, 20)], &[(1, 20)]),
];

#[test]
fn ranges_join_and_stay_apart(rt: HostRuntime) {
    for (given, want) in &JOINED {
        assert!(rt; join_to(rt.alloc(), given, want) == Ok(true), "{given:?}");
    }
}

// The ranges of a set and of another, whether a number of those is new, and the ranges of both.
type United = (
    &'static [(u64, u64)],
    &'static [(u64, u64)],
    bool,
    &'static [(u64, u64)],
);

const UNITED: [United; 6] = [
    (&[], &[(1, 2)], true, &[(1, 2)]),
    (&[(1, 9)], &[(2, 3), (5, 9)], false, &[(1, 9)]),
    (
        &[(1, 2), (6, 7)],
        &[(4, 4), (9, 9)],
        true,
        &[(1, 2), (4, 4), (6, 7), (9, 9)],
    ),
    (
        &[(3, 4), (8, 9)],
        &[(1, 1), (5, 7), (20, 30)],
        true,
        &[(1, 1), (3, 9), (20, 30)],
    ),
    (
        &[(10, 12)],
        &[(1, 2), (4, 5), (11, 20)],
        true,
        &[(1, 2), (4, 5), (10, 20)],
    ),
    (
        &[(1, 2), (4, 5), (11, 20)],
        &[],
        false,
        &[(1, 2), (4, 5), (11, 20)],
    ),
];

// Whether a set becomes one of these ranges by another, and so does its copy.
fn unites_to(
    set: &mut RangeSet,
    other: &RangeSet,
    is_new: bool,
    want: &[(u64, u64)],
) -> Result<bool, Memory> {
    let was_new = set.unite(other)?;
    let again = set.copy()?;
    Ok((was_new == is_new) & has_ranges(set, want) & has_ranges(&again, want))
}

fn are_united(alloc: Global, row: &United) -> Result<bool, Memory> {
    let other = set_of(alloc, row.1)?;
    unites_with(&mut set_of(alloc, row.0)?, &other, row)
}

fn unites_with(set: &mut RangeSet, other: &RangeSet, row: &United) -> Result<bool, Memory> {
    unites_to(set, other, row.2, row.3)
}

#[test]
fn sets_unite(rt: HostRuntime) {
    for row in &UNITED {
        assert!(rt; are_united(rt.alloc(), row) == Ok(true), "{:?}", row.0);
    }
}

#[test]
fn room_is_made(rt: HostRuntime) {
    let mut set = RangeSet::new(rt.alloc());
    assert!(rt; set.reserve(1) == Ok(()));
    assert!(rt; set.insert(7) == Ok(true));
}

// Ranges, and how many numbers they have.
const COUNTED: [(&[(u64, u64)], u64); 6] = [
    (&[], 0),
    (&[(3, 3)], 1),
    (&[(1, 2), (6, 9)], 6),
    (&[(1, 2), (6, 9), (3, 5)], 9),
    (&[(5, 6), (5, 6), (2, 8)], 7),
    (&[(1, MAX_NUMBER)], MAX_NUMBER),
];

// Whether a set has so many numbers, and so has its copy; and whether its ranges are given as they stand.
fn is_counted(set: &RangeSet, count: u64) -> Result<bool, Memory> {
    let copied = set.copy()?.count();
    let ranges = set.to_ranges()?;
    Ok((set.count() == count) & (copied == count) & (ranges.as_slice() == set.ranges()))
}

// Whether that is so of the set of these ranges, and it is new once to another.
fn are_counted(alloc: Global, row: &(&[(u64, u64)], u64)) -> Result<bool, Memory> {
    let mut both = set_of(alloc, &[(2, 3)])?;
    is_counted_and_new(&set_of(alloc, row.0)?, &mut both, row.1)
}

fn is_counted_and_new(set: &RangeSet, both: &mut RangeSet, count: u64) -> Result<bool, Memory> {
    Ok(is_counted(set, count)? & is_new_once(set, both)?)
}

// Whether another set tells beforehand if a number of this one is new to it, and none is afterwards.
fn is_new_once(set: &RangeSet, both: &mut RangeSet) -> Result<bool, Memory> {
    let is_new = both.is_new(set);
    Ok((both.unite(set)? == is_new) & !both.is_new(set))
}

// How many numbers two sets have together.
fn count_together(set: &RangeSet, both: &mut RangeSet) -> Result<u64, Memory> {
    both.unite(set)?;
    Ok(both.count())
}

#[test]
fn numbers_are_counted(rt: HostRuntime) {
    for row in &COUNTED {
        assert!(rt; are_counted(rt.alloc(), row) == Ok(true), "{:?}", row.0);
    }
}

#[test]
fn numbers_of_two_sets_are_counted(rt: HostRuntime) -> Result<(), Fail> {
    let set = set_of(rt.alloc(), &[(3, 4), (20, 20)])?;
    let mut both = set_of(rt.alloc(), &[(2, 3), (8, 9)])?;
    assert!(rt; count_together(&set, &mut both) == Ok(6));
    Ok(())
}
