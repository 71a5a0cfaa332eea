//! Sets of message numbers as ranges that rise with gaps between them, as acknowledgements name them. Contracts see a
//! `RangeSet` as its canonical list of ranges, which its numbers determine, and how many more ranges it has room for.

mod laws;
mod merge;
mod missing;
mod range;
mod set;

pub use laws::{
    a_later_range_is_appended, count_is_how_many, ends_are_right, new_is_one_not_there,
    range_is_added, same_numbers_same_ranges, union_has_both, union_with_nothing_is_the_same,
};
pub use range::{Range, Ranges};
pub use set::RangeSet;
