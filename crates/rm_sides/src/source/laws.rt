//! What the counts of a source mean.
ghost use Rattle.rm_sides.specs.Source.Laws.{EachIsCountedOnce};

/// Each accepted payload is either acknowledged or counted as not acknowledged.
pub fn each_is_counted_once()
    ensures { EachIsCountedOnce }
{}
