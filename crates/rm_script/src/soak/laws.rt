//! What the definitions of a soak come to.
ghost use Rattle.std.specs.Prelude.{◌≡◌, ℕ, ◌+◌, ◌≤◌, List, length, count_by};
ghost use Rattle.rm_base.specs.Limits as limits;
ghost use Rattle.rm_script.specs.declared.event.Event.{Event as Said};
ghost use Rattle.rm_script.specs.Script.{lines_of, IsScript};
ghost use Rattle.rm_script.specs.Soak.Soak.{soak_script};
ghost use Rattle.rm_script.specs.Soak.Summary.{is_answer, is_ok_answer, is_other_answer};

use crate::laws::lines_read_back;

/// What a number generates is a script, and no longer than a script may be.
/// - `script`: the generator gives PCG's words of 32 bits from the number on stream 1, and for each of 3000 words the
///   lines of its case.
pub fn a_soak_is_a_script()
    ensures script { (n : ℕ) → (events : List Said) × IsScript (lines_of (soak_script n)) events }
    ensures short { (n : ℕ) → length (soak_script n) ≤ limits.script_bytes }
{
    lines_read_back();
}

/// Each answer is counted as ok or as another.
pub fn the_counts_add_up()
    ensures { (lines : List (List ℕ)) → count_by is_ok_answer lines + count_by is_other_answer lines
        ≡ count_by is_answer lines }
{}
