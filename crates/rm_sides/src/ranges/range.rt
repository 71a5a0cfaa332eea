//! One range, and what is looked up, put in and joined in a list of ranges.
ghost use Rattle.std.specs.Prelude.{◌≡◌, ◌∷◌, ◌++◌, ◌+◌, ◌<◌, ◌≤◌, ◌&&◌, nat_le, not, take, drop, IfOk, OnOk, OnErr};
ghost use Rattle.std.specs.Prelude.{IsOk, length, vec_len, vec_capacity};
ghost use Rattle.std.specs.List.{insert};
ghost use Rattle.rm_base.specs.Message.{max_number};
ghost use Rattle.rm_sides.specs.Ranges.Ranges.{IsCanonical, in_ranges, front_of, greatest_of, size_of, count_of};
ghost use Rattle.rm_sides.specs.Ranges.Changes.{with_range, covers};
ghost use Rattle.rm_sides.specs.Ranges.Places.{IsPlace, IsEnd, IsSpan};

use rm_base::Items;
use std::alloc::AllocError;

/// The numbers from `lower` to `upper`, both among them: an AcknowledgementRange of section 3.9 of
/// WS-ReliableMessaging 1.2.
#[derive(Clone, Copy, Debug, PartialEq, Eq)]
pub struct Range {
    pub lower: u64,
    pub upper: u64,
}

/// Ranges as a peer wrote them: in any order, and they may overlap.
pub type Ranges = Items<Range>;

/// The place of the first range that ends at `n` or later.
pub(crate) fn place_of(ranges: &[Range], n: u64) -> usize
    requires { IsCanonical ranges.now }
    ensures { IsPlace ranges.now n result }
{
    let mut low = 0;
    let mut high = ranges.len();
    while low < high {
        let mid = low + (high - low) / 2;
        if ranges[mid].upper < n {
            low = mid + 1;
        } else {
            high = mid;
        }
    }
    low
}

/// Whether `n` lies in one of the ranges.
pub(crate) fn has_number(ranges: &[Range], n: u64) -> bool
    requires { IsCanonical ranges.now }
    ensures { result ≡ in_ranges ranges.now n }
{
    let place = place_of(ranges, n);
    place < ranges.len() && ranges[place].lower <= n
}

/// The end of the first range, where that begins at 1, and else 0.
pub(crate) fn front_end(ranges: &[Range]) -> u64
    ensures { result ≡ front_of ranges.now }
{
    if ranges.is_empty() || ranges[0].lower != 1 {
        return 0;
    }
    ranges[0].upper
}

/// The end of the last range, and 0 where there is none.
pub(crate) fn last_end(ranges: &[Range]) -> u64
    ensures { result ≡ greatest_of ranges.now }
{
    if ranges.is_empty() {
        return 0;
    }
    ranges[ranges.len() - 1].upper
}

/// The place of the first range that begins after `n`.
fn end_of(ranges: &[Range], n: u64) -> usize
    requires { IsCanonical ranges.now }
    ensures { IsEnd ranges.now n result }
{
    let place = place_of(ranges, n);
    if place == ranges.len() {
        return place;
    }
    if n < ranges[place].lower {
        return place;
    }
    place + 1
}

/// The places, from the first to before the second, of the ranges that the numbers from `lower` to `upper` meet or
/// touch. The last range is looked at first.
fn span_of(ranges: &[Range], lower: u64, upper: u64) -> (usize, usize)
    requires canonical { IsCanonical ranges.now }
    requires from_one { 0 < lower }
    requires ordered { lower ≤ upper }
    requires within { upper ≤ max_number }
    ensures { IsSpan ranges.now lower upper result.0 result.1 }
{
    let count = ranges.len();
    if count == 0 {
        return (0, 0);
    }
    let last = ranges[count - 1];
    if last.upper < lower - 1 {
        return (count, count);
    }
    if last.lower <= lower {
        return (count - 1, count);
    }
    (place_of(ranges, lower - 1), end_of(ranges, upper + 1))
}

/// Whether all numbers from `lower` to `upper` lie in the range.
fn has_range(range: Range, lower: u64, upper: u64) -> bool
    ensures { result ≡ (nat_le range.lower lower && nat_le upper range.upper) }
{
    range.lower <= lower && upper <= range.upper
}

/// How many numbers a range has.
fn size(range: Range) -> u64
    requires ordered { range.lower ≤ range.upper }
    requires from_one { 0 < range.lower }
    ensures { result ≡ size_of range }
{
    range.upper - range.lower + 1
}

/// How many numbers the ranges from one place to before another have.
pub(crate) fn count_between(ranges: &[Range], from: usize, to: usize) -> u64
    requires canonical { IsCanonical ranges.now }
    requires rises { from ≤ to }
    requires within { to ≤ length ranges.now }
    ensures { result + count_of (take from ranges.now) ≡ count_of (take to ranges.now) }
{
    let mut count = 0;
    for place in from..to {
        count += size(ranges[place]);
    }
    count
}

/// Puts a range in at a place, and counts its numbers.
fn put_in(
    ranges: &mut Vec<Range>,
    count: &mut u64,
    at: usize,
    range: Range,
) -> Result<(), AllocError>
    requires within { at ≤ vec_len ranges.old }
    requires counted { count.old ≡ count_of ranges.old.items }
    requires from_one { 0 < range.lower }
    requires ordered { range.lower ≤ range.upper }
    requires canonical { IsCanonical (insert ranges.old.items at range) }
    ensures ok { OnOk result (ranges.new.items ≡ insert ranges.old.items at range) }
    ensures err { OnErr result (ranges.new.items ≡ ranges.old.items) }
    ensures counted { count.new ≡ count_of ranges.new.items }
    ensures len { vec_len ranges.new ≤ vec_len ranges.old + 1 }
    ensures err_len { OnErr result (vec_len ranges.new ≡ vec_len ranges.old) }
    ensures capacity { vec_capacity ranges.old ≤ vec_capacity ranges.new }
    ensures succeeds { vec_len ranges.old < vec_capacity ranges.old → IsOk result }
{
    ranges.insert(at, range)?;
    *count += size(range);
    Ok(())
}

/// Puts one range in the place of those from one place to before another.
fn replace(ranges: &mut Vec<Range>, from: usize, to: usize, joined: Range)
    requires some { from < to }
    requires within { to ≤ vec_len ranges.old }
    ensures items { ranges.new.items ≡ take from ranges.old.items ++ joined ∷ drop to ranges.old.items }
    ensures len { vec_len ranges.new ≤ vec_len ranges.old }
    ensures capacity { vec_capacity ranges.new ≡ vec_capacity ranges.old }
{
    ranges[from] = joined;
    drop(ranges.drain(from + 1..to));
}

/// Puts one range in the place of those from one place to before another, and counts its numbers in place of theirs.
fn join(ranges: &mut Vec<Range>, count: &mut u64, from: usize, to: usize, joined: Range)
    requires some { from < to }
    requires within { to ≤ vec_len ranges.old }
    requires old { IsCanonical ranges.old.items }
    requires counted { count.old ≡ count_of ranges.old.items }
    requires from_one { 0 < joined.lower }
    requires ordered { joined.lower ≤ joined.upper }
    requires canonical { IsCanonical (take from ranges.old.items ++ joined ∷ drop to ranges.old.items) }
    ensures items { ranges.new.items ≡ take from ranges.old.items ++ joined ∷ drop to ranges.old.items }
    ensures counted { count.new ≡ count_of ranges.new.items }
    ensures len { vec_len ranges.new ≤ vec_len ranges.old }
    ensures capacity { vec_capacity ranges.new ≡ vec_capacity ranges.old }
{
    *count -= count_between(ranges, from, to);
    *count += size(joined);
    replace(ranges, from, to, joined);
}

/// Adds the numbers from `lower` to `upper`, and answers whether one of them is new.
pub(crate) fn put(
    ranges: &mut Vec<Range>,
    count: &mut u64,
    lower: u64,
    upper: u64,
) -> Result<bool, AllocError>
    requires canonical { IsCanonical ranges.old.items }
    requires counted { count.old ≡ count_of ranges.old.items }
    requires from_one { 0 < lower }
    requires ordered { lower ≤ upper }
    requires within { upper ≤ max_number }
    ensures ok { OnOk result (ranges.new.items ≡ with_range ranges.old.items lower upper) }
    ensures is_new { IfOk result (λ is_new. is_new ≡ not (covers ranges.old.items lower upper)) }
    ensures err { OnErr result (ranges.new.items ≡ ranges.old.items) }
    ensures counted { count.new ≡ count_of ranges.new.items }
    ensures len { vec_len ranges.new ≤ vec_len ranges.old + 1 }
    ensures err_len { OnErr result (vec_len ranges.new ≡ vec_len ranges.old) }
    ensures capacity { vec_capacity ranges.old ≤ vec_capacity ranges.new }
    ensures succeeds { vec_len ranges.old < vec_capacity ranges.old → IsOk result }
{
    let (from, to) = span_of(ranges, lower, upper);
    if from == to {
        put_in(ranges, count, from, Range { lower, upper })?;
        return Ok(true);
    }
    let first = ranges[from];
    if has_range(first, lower, upper) {
        return Ok(false);
    }
    let joined = Range {
        lower: first.lower.min(lower),
        upper: ranges[to - 1].upper.max(upper),
    };
    join(ranges, count, from, to, joined);
    Ok(true)
}
