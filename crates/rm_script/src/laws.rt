//! What the definitions of scripts come to.
ghost use Rattle.std.specs.Prelude.{◌≡◌, ◌≢◌, ℕ, List, [], ◌∷◌, ◌++◌, Some, None};
ghost use Rattle.std.specs.List.{AllByRecursion, flat_map};
ghost use Rattle.rm_script.specs.declared.event.Event.{Event as Said};
ghost use Rattle.rm_script.specs.Lines.{ended, HasNoLf};
ghost use Rattle.rm_script.specs.Reading.{event_in};
ghost use Rattle.rm_script.specs.Script.{lines_of, Says, IsScript, IsFirstBad};
ghost use Rattle.rm_script.specs.Within.{IsWithin};

/// Lines that are written one after another, each with its LF, are read back. So is a last one without LF, if it is not
/// empty.
pub fn lines_read_back()
    ensures all { (lines : List (List ℕ)) → AllByRecursion HasNoLf lines → lines_of (flat_map ended lines) ≡ lines }
    ensures last { (lines : List (List ℕ)) (last : List ℕ) → AllByRecursion HasNoLf lines → HasNoLf last → last ≢ []
        → lines_of (flat_map ended lines ++ last) ≡ lines ++ last ∷ [] }
{}

/// A line says at most one thing.
pub fn one_event_a_line()
    ensures { (line : List ℕ) (a b : Said) → Says line a → Says line b → a ≡ b }
{}

/// A line is read from left to right exactly as the grammar says.
pub fn each_line_is_read()
    ensures said { (line : List ℕ) (event : Said) → Says line event → event_in line ≡ Some event }
    ensures read { (line : List ℕ) (event : Said) → event_in line ≡ Some event → Says line event }
{}

/// A script is read in one way.
pub fn one_reading()
    ensures { (lines : List (List ℕ)) (a b : List Said) → IsScript lines a → IsScript lines b → a ≡ b }
{}

/// A script has no bad line.
pub fn no_bad_line()
    ensures { (lines : List (List ℕ)) (events : List Said) (line : ℕ) → IsScript lines events
        → ¬ (IsFirstBad lines line) }
{}

/// What a script says is within its limits: each number and each duration. The limits are: sequences 1 to 256, packets
/// 1 to 65536, items of an inbox 1 to 9223372036854775807, device calls 1 to 1000, ways to crash 0 to 3, moments up to
/// 200000000000000, durations that may be written, no empty text and no empty noise.
pub fn values_are_within()
    ensures { (lines : List (List ℕ)) (events : List Said) → IsScript lines events
        → AllByRecursion IsWithin events }
{}
