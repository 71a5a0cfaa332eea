//! What sets of ranges mean, in terms of which numbers are inside.
ghost use Rattle.rm_sides.specs.Ranges.Laws.{
  SameNumbersSameRanges,
  RangeIsAdded,
  UnionHasBoth,
  NewIsOneNotThere,
  EndsAreRight,
  CountIsHowMany,
  LaterRangeIsAppended,
  UnionWithNothing,
};

/// A list of ranges that is canonical is determined by its numbers.
pub fn same_numbers_same_ranges()
    ensures { SameNumbersSameRanges }
{}

/// A range put into others adds exactly its numbers, and leaves them canonical.
pub fn range_is_added()
    ensures { RangeIsAdded }
{}

/// A union has exactly the numbers of both, and is canonical.
pub fn union_has_both()
    ensures { UnionHasBoth }
{}

/// What is not covered brings a number that wasn't there.
pub fn new_is_one_not_there()
    ensures { NewIsOneNotThere }
{}

/// The front is the greatest m such that 1 to m are all inside, and the greatest number is inside and above all.
pub fn ends_are_right()
    ensures { EndsAreRight }
{}

/// The count of ranges is how many numbers are inside.
pub fn count_is_how_many()
    ensures { CountIsHowMany }
{}

/// A range that begins behind all others, with a number between, is appended to them.
pub fn a_later_range_is_appended()
    ensures { LaterRangeIsAppended }
{}

/// A set's ranges, put one by one into no ranges, are that set's ranges.
pub fn union_with_nothing_is_the_same()
    ensures { UnionWithNothing }
{}
