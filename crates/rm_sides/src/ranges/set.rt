//! Sets of message numbers.
ghost use Rattle.std.specs.Prelude.{◌≡◌, [], ◌+◌, ◌<◌, ◌≤◌, ◌==◌, length, not, IsTrue, ◌↔◌, IfOk, OnOk, OnErr, IsOk};
ghost use Rattle.rm_sides.specs.Ranges.Ranges.{
  is_between,
  in_ranges,
  IsCanonical,
  front_of,
  IsFront,
  greatest_of,
  count_of,
  IsGreatest,
  AreMissing,
};
ghost use Rattle.rm_base.specs.Message.{max_number};
ghost use Rattle.rm_sides.specs.Ranges.Changes.{with_range, united, covers, covers_all, AddsExactly, BringsNew};

use crate::ranges::merge::{has_all, unite};
use crate::ranges::missing::missing_of;
use crate::ranges::range::{Range, Ranges, count_between, front_end, has_number, last_end, put};
use rm_base::{Items, Memory, Numbers};
use std::alloc::Global;
use std::marker::Model;

/// A set of message numbers from 1 to `MAX_NUMBER`, kept and seen as its canonical ranges, with the number of ranges
/// that it has room for beside them.
#[derive(Debug, Drop)]
pub struct RangeSet {
    kept: Vec<Range>,
    count: u64,
}

impl Model for RangeSet {
    ghost use Rattle.std.specs.Prelude.{◌-◌, vec_len, vec_capacity};
    ghost use Rattle.rm_sides.specs.Ranges.Ranges.{Contents, IsCounted};

    ghost Value = { Contents };

    ghost view = { λ s. record { ranges = s.kept.items; spare = vec_capacity s.kept - vec_len s.kept } };

    ghost invariant = { λ s. IsCounted s.kept.items s.count };
}

impl RangeSet {
    /// No numbers. It takes no memory.
    pub fn new(alloc: Global) -> Self
        ensures { result.ranges ≡ [] }
    {
        RangeSet {
            kept: Vec::new(alloc),
            count: 0,
        }
    }

    /// Whether the number is inside.
    pub fn has(&self, n: u64) -> bool
        ensures { result ≡ in_ranges self.now.ranges n }
    {
        has_number(&self.kept, n)
    }

    /// The greatest m such that the numbers from 1 to m are all inside, and 0 where 1 isn't.
    pub fn front(&self) -> u64
        ensures value { result ≡ front_of self.now.ranges }
        ensures front { IsFront self.now.ranges result }
    {
        front_end(&self.kept)
    }

    /// The greatest number, and 0 where there is none.
    pub fn greatest(&self) -> u64
        ensures value { result ≡ greatest_of self.now.ranges }
        ensures greatest { IsGreatest self.now.ranges result }
    {
        last_end(&self.kept)
    }

    /// How many numbers are inside.
    pub fn count(&self) -> u64
        ensures { result ≡ count_of self.now.ranges }
    {
        self.count
    }

    /// The ranges, which rise.
    /// - `canonical`: message numbers, rising, with a missing number between each two.
    pub fn ranges(&self) -> &[Range]
        ensures ranges { result.now ≡ self.now.ranges }
        ensures canonical { IsCanonical self.now.ranges }
    {
        let _kept = &self.kept;
        self.kept.as_slice()
    }

    /// The same numbers again.
    pub fn copy(&self) -> Result<Self, Memory>
        ensures { IfOk result (λ set. set.ranges ≡ self.now.ranges) }
    {
        Ok(RangeSet {
            kept: self.kept.clone()?,
            count: self.count,
        })
    }

    /// Adds a number, and answers whether it is new.
    pub fn insert(&mut self, n: u64) -> Result<bool, Memory>
        requires from_one { 0 < n }
        requires within { n ≤ max_number }
        ensures ok { OnOk result (self.new.ranges ≡ with_range self.old.ranges n n) }
        ensures adds { OnOk result (AddsExactly self.old.ranges self.new.ranges (λ m. m == n)) }
        ensures is_new { IfOk result (λ is_new. is_new ≡ not (in_ranges self.old.ranges n)) }
        ensures err { OnErr result (self.new.ranges ≡ self.old.ranges) }

        // It takes memory only where nothing is spare, and of what is spare at most 1, and none after an `Err`.
        ensures ready { 0 < self.old.spare → IsOk result }
        ensures spare { self.old.spare ≤ self.new.spare + 1 }
        ensures err_spare { OnErr result (self.old.spare ≤ self.new.spare) }
    {
        Ok(put(&mut self.kept, &mut self.count, n, n)?)
    }

    /// Adds the numbers from `lower` to `upper`, and answers whether one of them is new.
    pub fn insert_range(&mut self, lower: u64, upper: u64) -> Result<bool, Memory>
        requires from_one { 0 < lower }
        requires ordered { lower ≤ upper }
        requires within { upper ≤ max_number }
        ensures ok { OnOk result (self.new.ranges ≡ with_range self.old.ranges lower upper) }
        ensures adds { OnOk result (AddsExactly self.old.ranges self.new.ranges (is_between lower upper)) }
        ensures is_new { IfOk result (λ is_new. is_new ≡ not (covers self.old.ranges lower upper)) }
        ensures brings { IfOk result (λ is_new. IsTrue is_new ↔ BringsNew self.old.ranges (is_between lower upper)) }
        ensures err { OnErr result (self.new.ranges ≡ self.old.ranges) }

        // It takes memory only where nothing is spare, and of what is spare at most 1, and none after an `Err`.
        ensures ready { 0 < self.old.spare → IsOk result }
        ensures spare { self.old.spare ≤ self.new.spare + 1 }
        ensures err_spare { OnErr result (self.old.spare ≤ self.new.spare) }
    {
        Ok(put(&mut self.kept, &mut self.count, lower, upper)?)
    }

    /// Whether a number of another set is new.
    pub fn is_new(&self, other: &RangeSet) -> bool
        ensures value { result ≡ not (covers_all self.now.ranges other.now.ranges) }
        ensures brings { IsTrue result ↔ BringsNew self.now.ranges (in_ranges other.now.ranges) }
    {
        !has_all(&self.kept, &other.kept)
    }

    /// Adds the numbers of another set, and answers whether one of them is new. It merges in place, in linear time: the
    /// set's ranges move behind the room that is made, and both lists are read from there while the sum grows from the
    /// front.
    pub fn unite(&mut self, other: &RangeSet) -> Result<bool, Memory>
        ensures ok { OnOk result (self.new.ranges ≡ united self.old.ranges other.now.ranges) }
        ensures adds { OnOk result (AddsExactly self.old.ranges self.new.ranges (in_ranges other.now.ranges)) }
        ensures is_new { IfOk result (λ is_new. is_new ≡ not (covers_all self.old.ranges other.now.ranges)) }
        ensures brings { IfOk result (λ is_new.
            IsTrue is_new ↔ BringsNew self.old.ranges (in_ranges other.now.ranges)) }
        ensures err { OnErr result (self.new.ranges ≡ self.old.ranges) }

        // It takes memory only where less is spare than the other's ranges, and of what is spare at most as many, and
        // none after an `Err`.
        ensures err_spare { OnErr result (self.old.spare ≤ self.new.spare) }
        ensures ready { length other.now.ranges ≤ self.old.spare → IsOk result }
        ensures spare { self.old.spare ≤ self.new.spare + length other.now.ranges }
    {
        let is_new = unite(&mut self.kept, &other.kept)?;
        self.count = count_between(&self.kept, 0, self.kept.len());
        Ok(is_new)
    }

    /// The ranges as a list, in their order.
    pub fn to_ranges(&self) -> Result<Ranges, Memory>
        ensures { IfOk result (λ ranges. ranges ≡ self.now.ranges) }
    {
        Ok(Items::from_vec(self.kept.clone()?))
    }

    /// The first `most` numbers below the greatest that aren't inside.
    pub fn missing(&self, most: usize) -> Result<Numbers, Memory>
        ensures { IfOk result (AreMissing self.now.ranges most) }
    {
        missing_of(*self.kept.allocator(), &self.kept, most)
    }

    /// Makes room, so that the next `more` calls that add a number or a range take no memory.
    pub fn reserve(&mut self, more: usize) -> Result<(), Memory>
        ensures kept { self.new.ranges ≡ self.old.ranges }
        ensures enough { OnOk result (more ≤ self.new.spare) }
        ensures spare { self.old.spare ≤ self.new.spare }
        ensures ready { more ≤ self.old.spare → IsOk result }
    {
        self.kept.reserve(more)?;
        Ok(())
    }
}
