//! What the definitions of lists of items mean.
ghost use Rattle.timers.specs.Links.Laws.{FirstDueIsLowest};

/// What is due first stands first in the lowest list whose first item is due, and there is none only where no list's
/// first item is due.
pub fn first_due_is_lowest()
    ensures { FirstDueIsLowest }
{}
