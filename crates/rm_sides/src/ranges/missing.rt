//! The numbers that ranges lack.
ghost use Rattle.std.specs.Prelude.{IfOk};
ghost use Rattle.rm_sides.specs.Ranges.Ranges.{IsCanonical, AreMissing};

use crate::ranges::range::Range;
use rm_base::{Memory, Numbers};
use std::alloc::Global;

/// The first `most` numbers before the last range's end that lie in no range. It looks at each range, and at no number
/// but those.
pub(crate) fn missing_of(alloc: Global, ranges: &[Range], most: usize) -> Result<Numbers, Memory>
    requires { IsCanonical ranges.now }
    ensures { IfOk result (AreMissing ranges.now most) }
{
    let mut numbers = Numbers::new(alloc);
    let mut next = 1;
    for range in ranges {
        for n in next..range.lower {
            if numbers.len() == most {
                return Ok(numbers);
            }
            numbers.push(n)?;
        }
        next = range.upper + 1;
    }
    Ok(numbers)
}
