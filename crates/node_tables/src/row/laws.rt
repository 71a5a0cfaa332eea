//! What the definitions on one sequence come to.
ghost use Rattle.node_tables.specs.Row.Row.{FitsWhereTaken, OneStep};

/// A record that names a sequence fits exactly where the number that it draws is the next one and the sequence takes
/// it.
pub fn a_record_fits_where_it_is_taken()
    ensures { FitsWhereTaken }
{}

/// A record that a sequence takes changes it by one step.
pub fn a_record_is_one_step()
    ensures { OneStep }
{}
