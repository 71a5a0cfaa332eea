//! The union of two lists of ranges, in one merge.
ghost use Rattle.std.specs.Prelude.{◌≡◌, ℕ, [], ◌∷◌, ◌+◌, ◌<◌, ◌≤◌, ◌⊎◌, length, take, drop, MatchBool, not, IfOk};
ghost use Rattle.std.specs.Prelude.{OnOk, OnErr, IsOk, vec_len, vec_capacity};
ghost use Rattle.rm_sides.specs.Ranges.Ranges.{IsCanonical};
ghost use Rattle.rm_sides.specs.Ranges.Changes.{with_range, united, covers, covers_all};
ghost use Rattle.rm_sides.specs.Ranges.Places.{range_at, StartsBy, IsPlace, IsNextOf, IsNextBefore};

use crate::ranges::range::Range;
use std::alloc::AllocError;

/// Adds the numbers of the other ranges, and answers whether one of them is new.
pub(crate) fn unite(ranges: &mut Vec<Range>, others: &[Range]) -> Result<bool, AllocError>
    requires ranges { IsCanonical ranges.old.items }
    requires others { IsCanonical others.now }
    ensures ok { OnOk result (ranges.new.items ≡ united ranges.old.items others.now) }
    ensures is_new { IfOk result (λ is_new. is_new ≡ not (covers_all ranges.old.items others.now)) }
    ensures err { OnErr result (ranges.new.items ≡ ranges.old.items) }
    ensures len { vec_len ranges.new ≤ vec_len ranges.old + length others.now }
    ensures err_len { OnErr result (vec_len ranges.new ≡ vec_len ranges.old) }
    ensures capacity { vec_capacity ranges.old ≤ vec_capacity ranges.new }
    ensures succeeds { vec_len ranges.old + length others.now ≤ vec_capacity ranges.old → IsOk result }
{
    if has_all(ranges, others) {
        return Ok(false);
    }
    merge(ranges, others)?;
    Ok(true)
}

/// Whether each of the other ranges lies in one of the ranges.
pub(crate) fn has_all(ranges: &[Range], others: &[Range]) -> bool
    requires ranges { IsCanonical ranges.now }
    requires others { IsCanonical others.now }
    ensures { result ≡ covers_all ranges.now others.now }
{
    let mut place = 0;
    for other in others {
        place = next_place(ranges, place, other.upper);
        if place == ranges.len() || other.lower < ranges[place].lower {
            return false;
        }
    }
    true
}

/// Adds the numbers of the other ranges, in one merge within the room that is made first: the ranges move behind the
/// others, and both are read from there in order while the sum grows from the front.
fn merge(ranges: &mut Vec<Range>, others: &[Range]) -> Result<(), AllocError>
    requires ranges { IsCanonical ranges.old.items }
    requires others { IsCanonical others.now }
    ensures ok { OnOk result (ranges.new.items ≡ united ranges.old.items others.now) }
    ensures err { OnErr result (ranges.new.items ≡ ranges.old.items) }
    ensures len { vec_len ranges.new ≤ vec_len ranges.old + length others.now }
    ensures err_len { OnErr result (vec_len ranges.new ≡ vec_len ranges.old) }
    ensures capacity { vec_capacity ranges.old ≤ vec_capacity ranges.new }
    ensures succeeds { vec_len ranges.old + length others.now ≤ vec_capacity ranges.old → IsOk result }
{
    ranges.extend_from_slice(others)?;
    ranges.rotate_right(others.len());
    let kept = merge_behind(ranges.as_mut_slice(), others);
    ranges.truncate(kept);
    Ok(())
}

/// The first place, from a place on, of a range that ends at `n` or later. It looks at each place on the way.
fn next_place(ranges: &[Range], from: usize, n: u64) -> usize
    requires within { from ≤ length ranges.now }
    requires before { (k : ℕ) → k < from → (range_at ranges.now k).upper < n }
    requires canonical { IsCanonical ranges.now }
    ensures place { IsPlace ranges.now n result }
    ensures on { from ≤ result }
{
    let mut place = from;
    while place < ranges.len() && ranges[place].upper < n {
        place += 1;
    }
    place
}

/// Merges the ranges that stand behind room for the others with the others, from the front on, and answers how many
/// ranges they are together. What is put at the front never reaches what is still to be read.
fn merge_behind(all: &mut [Range], others: &[Range]) -> usize
    requires room { length others.now ≤ length all.old }
    requires ranges { IsCanonical (drop (length others.now) all.old) }
    requires others { IsCanonical others.now }
    ensures within { result ≤ length all.old }
    ensures united { take result all.new ≡ united (drop (length others.now) all.old) others.now }
{
    let mut read = others.len();
    let mut next = 0;
    let mut kept = 0;
    while read < all.len() || next < others.len() {
        if comes_first(all, read, others, next) {
            let range = all[read];
            kept = put_last(all, kept, range);
            read += 1;
        } else {
            kept = put_last(all, kept, others[next]);
            next += 1;
        }
    }
    kept
}

/// Whether the range at `read` is the next of both lists, that is begins no later than the other at `next`.
fn comes_first(all: &[Range], read: usize, others: &[Range], next: usize) -> bool
    requires read { read ≤ length all.now }
    requires next { next ≤ length others.now }
    requires more { (read < length all.now) ⊎ (next < length others.now) }
    ensures { MatchBool result (IsNextOf all.now read others.now next) (IsNextBefore others.now next all.now read) }
{
    if next == others.len() {
        return true;
    }
    if read == all.len() {
        return false;
    }
    all[read].lower <= others[next].lower
}

/// Puts a range that begins no earlier than those at the front behind them, and answers how many they are then.
fn put_last(all: &mut [Range], kept: usize, range: Range) -> usize
    requires within { kept < length all.old }
    requires canonical { IsCanonical (take kept all.old) }
    requires behind { StartsBy (take kept all.old) range.lower }
    requires a_range { IsCanonical (range ∷ []) }
    ensures count { result ≤ kept + 1 }
    ensures sum { take result all.new ≡ with_range (take kept all.old) range.lower range.upper }
    ensures rest { drop (kept + 1) all.new ≡ drop (kept + 1) all.old }
{
    if kept > 0 {
        let last = all[kept - 1];
        if range.lower <= last.upper + 1 {
            all[kept - 1] = Range {
                lower: last.lower,
                upper: last.upper.max(range.upper),
            };
            return kept;
        }
    }
    all[kept] = range;
    kept + 1
}
